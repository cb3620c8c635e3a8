ghost use Rattle.std.specs.Prelude.{◌≡◌, ◌≤◌, true, IfErr, IfOk, IfSome, OnOk};
ghost use Rattle.tab_spec.specs.Commands.{startup_command};
ghost use Rattle.tab_spec.specs.Numbers.{AreInRange};
ghost use Rattle.device_spec.specs.Answers.{IsRight, listed_handles, profile_takes as takes};
ghost use Rattle.device_spec.specs.Numbers.{FitWords, number_command, values_of};
ghost use Rattle.device_port.specs.Device.{Answered, asked_of, last_of};
ghost use Rattle.device_port.specs.Own.{AsksSome};
ghost use Rattle.device_start.specs.Start.{Attempts, ClearedIf, Finds, FindsIf, Flushes};
ghost use Rattle.device_start.specs.Start.{HasNumber, HasStartCause, HasValues, HoldsListed};
ghost use Rattle.device_start.specs.Start.{HoldsNoMoreIf, IsList, IsRunning, IsStartable};
ghost use Rattle.device_start.specs.Start.{IsStarted, LosesFirst, MissesNumber, NotStarted};
ghost use Rattle.device_start.specs.Start.{SendsOne, TakenIf, all_listed};

use crate::lists::Lists;
use device_port::{Device, DeviceFailed, SwapError, ask, command_of, takes, value_told, word_at};
use device_spec::{
    PT_ACTIVE_SESSIONS_MAX, PT_CONTEXT_GAP_MAX, PT_HR_LOADED_MIN, PT_HR_TRANSIENT_MIN,
};
use tab_bytes::Buffer;
use tab_spec::{
    CC_FLUSH_CONTEXT, CONTEXT_GAP, HEADER_BYTES, LOADED_SESSIONS, Numbers, OBJECT_SLOTS,
    PROFILE_CONTEXTS, SESSION_NUMBERS,
};

/// Why a device wasn't started.
#[derive(Clone, Copy)]
pub enum StartError {
    /// A transmission failed, or the response to it is a wrong answer.
    Unanswered(SwapError),
    /// One of the device's numbers is out of range: the property (Part 2, "TPM_PT") and its value.
    Numbers { property: u32, value: u32 },
}

// TPM2_Startup with TPM_SU_CLEAR (Part 3, "TPM2_Startup").
const STARTUP: [u8; 12] = [0x80, 0x01, 0, 0, 0, 12, 0, 0, 0x01, 0x44, 0, 0];

// TPM2_GetCapability of one property (Part 3, "TPM2_GetCapability"; Part 2, "TPM_PT"), for each of
// the device's numbers.
const ASK_SLOTS: [u8; 22] = [
    0x80, 0x01, 0, 0, 0, 22, 0, 0, 0x01, 0x7a, 0, 0, 0, 6, 0, 0, 0x01, 0x0e, 0, 0, 0, 1,
];

const ASK_LOADED: [u8; 22] = [
    0x80, 0x01, 0, 0, 0, 22, 0, 0, 0x01, 0x7a, 0, 0, 0, 6, 0, 0, 0x01, 0x10, 0, 0, 0, 1,
];

const ASK_ACTIVE: [u8; 22] = [
    0x80, 0x01, 0, 0, 0, 22, 0, 0, 0x01, 0x7a, 0, 0, 0, 6, 0, 0, 0x01, 0x11, 0, 0, 0, 1,
];

const ASK_GAP: [u8; 22] = [
    0x80, 0x01, 0, 0, 0, 22, 0, 0, 0x01, 0x7a, 0, 0, 0, 6, 0, 0, 0x01, 0x14, 0, 0, 0, 1,
];

// The least gap that a device may have.
const LEAST_GAP: u32 = CONTEXT_GAP as u32;

// TPM2_GetCapability of at most 254 handles (Part 3, "TPM2_GetCapability"; Part 2,
// "TPM_CAP_HANDLES"): from the first one of an object on, of a loaded session, and of a saved
// session.
const LIST_OBJECTS: [u8; 22] = [
    0x80, 0x01, 0, 0, 0, 22, 0, 0, 0x01, 0x7a, 0, 0, 0, 1, 0x80, 0, 0, 0, 0, 0, 0, 254,
];

const LIST_LOADED: [u8; 22] = [
    0x80, 0x01, 0, 0, 0, 22, 0, 0, 0x01, 0x7a, 0, 0, 0, 1, 0x02, 0, 0, 0, 0, 0, 0, 254,
];

const LIST_SAVED: [u8; 22] = [
    0x80, 0x01, 0, 0, 0, 22, 0, 0, 0x01, 0x7a, 0, 0, 0, 1, 0x03, 0, 0, 0, 0, 0, 0, 254,
];

// Where the count of a list's handles stands in a response, and where the first handle does.
const COUNT_PLACE: usize = HEADER_BYTES as usize + 5;

const LIST_PLACE: usize = HEADER_BYTES as usize + 9;

// Whether the response says that the device started now, or had started before.
fn is_started(response: &[u8]) -> bool
    ensures { result ≡ takes true true startup_command response.now }
{
    takes(PROFILE_CONTEXTS, &STARTUP, response, false, false)
}

// Sends Startup.
fn start_up<D: Device>(device: &mut D, scratch: &mut Buffer) -> Result<(), SwapError>
    ensures sends { SendsOne D.CONTEXTS D.seen device.old device.new startup_command result }
    ensures ok { OnOk result
        (Answered (D.seen device.old).state startup_command (D.seen device.new).state scratch.new) }
{
    if device.transmit(&STARTUP, scratch).is_err() {
        return Err(SwapError::Failed(DeviceFailed));
    }
    if !is_started(scratch.as_slice()) {
        return Err(SwapError::Answer(tab_wire::reported_code(scratch.as_slice())));
    }
    Ok(())
}

// Asks the device for one of its numbers, which has to be from the least one to the most.
fn ask_number<D: Device>(
    device: &mut D,
    property: u32,
    command: &[u8],
    least: u32,
    most: u32,
    scratch: &mut Buffer,
) -> Result<u32, StartError>
    requires command { command.now ≡ number_command property }
    requires told { TakenIf (number_command property) (D.seen device.old).state }
    ensures number { IfOk result (λ value.
        HasNumber D.seen device.old device.new property value) }
    ensures range { IfOk result (λ value. least ≤ value × value ≤ most) }
    ensures err { IfErr result (λ e.
        MissesNumber D.CONTEXTS D.seen device.old device.new property least most e) }
{
    if let Err(e) = ask(device, command, scratch) {
        return Err(StartError::Unanswered(e));
    }
    let value = value_told(scratch.as_slice());
    if value < least || value > most {
        return Err(StartError::Numbers { property, value });
    }
    Ok(value)
}

// Starts the device, and asks it for its numbers.
fn ask_numbers<D: Device>(device: &mut D, scratch: &mut Buffer) -> Result<Numbers, StartError>
    requires fit { IfSome (D.seen device.old).state (λ slots. FitWords slots.numbers) }
    ensures values { IfOk result (λ numbers.
        HasValues D.CONTEXTS D.seen device.old device.new (values_of numbers)) }
    ensures err { IfErr result (NotStarted D.CONTEXTS D.seen device.old device.new) }
{
    if let Err(e) = start_up(device, scratch) {
        return Err(StartError::Unanswered(e));
    }
    let most = SESSION_NUMBERS;
    let slots = ask_number(
        device,
        PT_HR_TRANSIENT_MIN,
        &ASK_SLOTS,
        OBJECT_SLOTS,
        254,
        scratch,
    )?;
    let loaded = ask_number(
        device,
        PT_HR_LOADED_MIN,
        &ASK_LOADED,
        LOADED_SESSIONS,
        most,
        scratch,
    )?;
    let active = ask_number(
        device,
        PT_ACTIVE_SESSIONS_MAX,
        &ASK_ACTIVE,
        loaded,
        most,
        scratch,
    )?;
    let gap = ask_number(
        device,
        PT_CONTEXT_GAP_MAX,
        &ASK_GAP,
        LEAST_GAP,
        u32::MAX,
        scratch,
    )?;
    Ok(Numbers {
        slots: slots as u8,
        loaded: loaded as u8,
        active: active as u8,
        gap,
    })
}

// Asks a device that was started which objects and sessions it holds.
fn find<D: Device>(device: &mut D, lists: &mut Lists) -> Result<(), SwapError>
    requires running { IfSome (D.seen device.old).state IsRunning }
    ensures finds { OnOk result (Finds (D.seen device.old).trace (D.seen device.new).trace
        lists.new.objects lists.new.loaded lists.new.saved) }
    ensures held { OnOk result (FindsIf lists.new.objects lists.new.loaded lists.new.saved
        (D.seen device.old).state (D.seen device.new).state) }
    ensures lists { OnOk result (IsList lists.new.objects × IsList lists.new.loaded
        × IsList lists.new.saved) }
    ensures few { HoldsNoMoreIf (D.seen device.old).state (D.seen device.new).state }
    ensures asks { AsksSome D.CONTEXTS D.seen device.old device.new result }
{
    ask(device, &LIST_OBJECTS, &mut lists.objects)?;
    ask(device, &LIST_LOADED, &mut lists.loaded)?;
    ask(device, &LIST_SAVED, &mut lists.saved)?;
    Ok(())
}

// Flushes what a list has, one after the other.
fn flush_listed<D: Device>(
    device: &mut D,
    list: &[u8],
    scratch: &mut Buffer,
) -> Result<(), SwapError>
    requires list { IsList list.now }
    requires there { HoldsListed (listed_handles list.now) (D.seen device.old).state }
    ensures flushed { OnOk result (Flushes (listed_handles list.now)
        (D.seen device.old).trace (D.seen device.new).trace) }
    ensures left { OnOk result (LosesFirst (listed_handles list.now)
        (D.seen device.old).state (D.seen device.new).state) }
    ensures few { HoldsNoMoreIf (D.seen device.old).state (D.seen device.new).state }
    ensures asks { AsksSome D.CONTEXTS D.seen device.old device.new result }
{
    let count = word_at(list, COUNT_PLACE).unwrap_or(0);
    for place in 0..count {
        let handle = word_at(list, LIST_PLACE + 4 * place as usize).unwrap_or(0);
        let command = command_of(CC_FLUSH_CONTEXT, &handle.to_be_bytes());
        ask(device, command.as_slice(), scratch)?;
    }
    Ok(())
}

// Flushes what three lists have.
fn flush_all<D: Device>(
    device: &mut D,
    lists: &Lists,
    scratch: &mut Buffer,
) -> Result<(), SwapError>
    requires lists { IsList lists.now.objects × IsList lists.now.loaded × IsList lists.now.saved }
    requires there { HoldsListed
        (all_listed lists.now.objects lists.now.loaded lists.now.saved)
        (D.seen device.old).state }
    ensures flushed { OnOk result (Flushes
        (all_listed lists.now.objects lists.now.loaded lists.now.saved)
        (D.seen device.old).trace (D.seen device.new).trace) }
    ensures left { OnOk result (LosesFirst
        (all_listed lists.now.objects lists.now.loaded lists.now.saved)
        (D.seen device.old).state (D.seen device.new).state) }
    ensures few { HoldsNoMoreIf (D.seen device.old).state (D.seen device.new).state }
    ensures asks { AsksSome D.CONTEXTS D.seen device.old device.new result }
{
    flush_listed(device, lists.objects.as_slice(), scratch)?;
    flush_listed(device, lists.loaded.as_slice(), scratch)?;
    flush_listed(device, lists.saved.as_slice(), scratch)?;
    Ok(())
}

/// Starts a device, asks for its numbers, and flushes each object and each session that it holds:
/// an earlier broker may have left them. It sends Startup (an answer that says it was started
/// before is fine), and GetCapability of the properties 0x10E, 0x110, 0x111 and 0x114, one each.
/// Then it asks for the handles of objects, of loaded sessions and of saved ones, and flushes all
/// of these.
///
/// It ends at the first transmission that fails, at the first response that isn't taken, and at the
/// first number that is out of range: 3 to 254 slots for objects, 3 to 64 loaded sessions, from as
/// many as may be loaded to 64 active ones, and a gap of 255 or more between contexts. Then the
/// device may hold some of what it held.
pub fn start<D: Device>(
    device: &mut D,
    lists: &mut Lists,
    scratch: &mut Buffer,
) -> Result<Numbers, StartError>
    requires startable { IfSome (D.seen device.old).state IsStartable }
    ensures started { IfOk result (λ numbers.
        IsStarted (D.seen device.old).trace (D.seen device.new).trace numbers) }
    ensures range { IfOk result AreInRange }
    // A device that shows its state has these numbers.
    ensures own { IfOk result (λ numbers.
        IfSome (D.seen device.old).state (λ slots. slots.numbers ≡ numbers)) }
    ensures cleared { OnOk result
        (ClearedIf (D.seen device.old).state (D.seen device.new).state) }
    ensures answered { OnOk result
        (IsRight D.CONTEXTS (asked_of (D.seen device.new)) (last_of (D.seen device.new))) }
    // Also after an error it holds no more than it did, and what was sent is known.
    ensures attempts { Attempts D.CONTEXTS D.seen device.old device.new }
    // Why it ended, and at which command. Each earlier command was answered, and the numbers in
    // these answers are in range.
    ensures cause { IfErr result
        (λ e. HasStartCause D.CONTEXTS D.seen e device.old device.new) }
{
    let numbers = ask_numbers(device, scratch)?;
    if let Err(e) = find(device, lists) {
        return Err(StartError::Unanswered(e));
    }
    if let Err(e) = flush_all(device, lists, scratch) {
        return Err(StartError::Unanswered(e));
    }
    Ok(numbers)
}
