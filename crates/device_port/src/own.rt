//! Commands of the broker's own, and why a call over the device failed.

ghost use Rattle.std.specs.Prelude.{◌≡◌, ◌≤◌, ◌+◌, length, take, drop, true, Some, IfSome, OnOk};
ghost use Rattle.std.specs.Int.{w32, from_be_bytes};
ghost use Rattle.tab_spec.specs.declared.TheConstants.{HEADER_BYTES, MOST_CONTEXT_BYTES};
ghost use Rattle.tab_spec.specs.declared.contexts.TheConstants.{PROFILE_CONTEXTS};
ghost use Rattle.device_spec.specs.Answers.{takes};
ghost use Rattle.device_spec.specs.Answers as answers;
ghost use Rattle.device_spec.specs.ContextCommands.{command_bytes, context_load_command};
ghost use Rattle.device_spec.specs.Slots.{slot_step};
ghost use Rattle.device_port.specs.Device.{Answered, last_of};
ghost use Rattle.device_port.specs.Own.{Asks, IsOwn, Succeeds};

use crate::answers::takes;
use crate::device::{Device, DeviceFailed};
use tab_bytes::Buffer;
use tab_fields::SmallBytes;
use tab_spec::{CC_CONTEXT_LOAD, HEADER_BYTES, ST_NO_SESSIONS};

/// Why a call over the device failed.
#[derive(Clone, Copy)]
pub enum SwapError {
    /// A transmission failed.
    Failed(DeviceFailed),
    /// The device gave a wrong answer; its code.
    Answer(u32),
}

/// A command without an authorization, by its code: tag, size and code, and what follows them, of
/// at most four bytes.
pub fn command_of(code: u32, body: &[u8]) -> SmallBytes<14>
    requires { length body.now ≤ 4 }
    ensures { result ≡ command_bytes code body.now }
{
    joined(code, body)
}

/// The command that loads a context, of at most 2,048 bytes (Part 3, "TPM2_ContextLoad").
pub fn load_command(context: &[u8]) -> SmallBytes<2058>
    requires { length context.now ≤ MOST_CONTEXT_BYTES }
    ensures { result ≡ context_load_command context.now }
{
    joined(CC_CONTEXT_LOAD, context)
}

// The same, where there is room for so many bytes.
fn joined<const N: usize>(code: u32, body: &[u8]) -> SmallBytes<N>
    requires few { length body.now ≤ MOST_CONTEXT_BYTES }
    requires room { HEADER_BYTES + length body.now ≤ N }
    ensures { result ≡ command_bytes code body.now }
{
    let mut command = SmallBytes::<N>::new();
    command.add(&ST_NO_SESSIONS.to_be_bytes());
    command.add(&(HEADER_BYTES + body.len() as u32).to_be_bytes());
    command.add(&code.to_be_bytes());
    command.add(body);
    command
}

/// The handle of a response.
pub fn handle_of(reply: &[u8]) -> u32
    requires { 14 ≤ length reply.now }
    ensures { result ≡ from_be_bytes w32 (take 4 (drop 10 reply.now)) }
{
    u32::from_be_bytes([reply[10], reply[11], reply[12], reply[13]])
}

/// The value of the one property in a response.
pub fn value_told(reply: &[u8]) -> u32
    requires { 27 ≤ length reply.now }
    ensures { result ≡ answers.value_told reply.now }
{
    u32::from_be_bytes([reply[23], reply[24], reply[25], reply[26]])
}

/// Sends a command of the broker's own, which a device has no reason to answer with anything but
/// success. The response is in `scratch` then.
pub fn ask<D: Device>(device: &mut D, command: &[u8], scratch: &mut Buffer) -> Result<(), SwapError>
    requires own { IsOwn D.CONTEXTS command.now }
    requires told { IfSome (D.seen device.old).state (λ slots.
        takes PROFILE_CONTEXTS true true command.now (slot_step slots command.now).1 ≡ true) }
    ensures ok { OnOk result
        (Answered (D.seen device.old).state command.now (D.seen device.new).state scratch.new) }
    ensures success { OnOk result (Succeeds D.CONTEXTS command.now scratch.new) }
    ensures last { OnOk result (last_of (D.seen device.new) ≡ Some scratch.new) }
    ensures asks { Asks D.CONTEXTS D.seen device.old device.new command.now result }
{
    if device.transmit(command, scratch).is_err() {
        return Err(SwapError::Failed(DeviceFailed));
    }
    if !takes(D::CONTEXTS, command, scratch.as_slice(), true, false) {
        return Err(SwapError::Answer(tab_wire::reported_code(scratch.as_slice())));
    }
    Ok(())
}
