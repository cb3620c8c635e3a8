ghost use Rattle.std.specs.Prelude.{◌≡◌, ◌≤◌, ℕ, true, length, vec_capacity, IfSome, OnOk, IfOk};
ghost use Rattle.tab_spec.specs.Admission.{is_session_handle};
ghost use Rattle.device_port.specs.Own.{Asks};
ghost use Rattle.device_spec.specs.ContextCommands.{context_load_command, context_save_command};
ghost use Rattle.device_spec.specs.ContextCommands.{flush_context_command};
ghost use Rattle.device_spec.specs.Slots.{IsSlots, is_active_with, place_of};
ghost use Rattle.tab_spec.specs.Shape.{octet_of};
ghost use Rattle.session_swap.specs.Items.{context_number};
ghost use Rattle.session_swap.specs.Records.{IsContext};
ghost use Rattle.session_swap.specs.Moves.{IsIn, IsOut, MaySave, SavesIn, brought_in, ended};

use device_port::{Device, SwapError, ask, command_of, load_command};
use tab_bytes::Buffer;
use tab_spec::{CC_CONTEXT_SAVE, CC_FLUSH_CONTEXT, HEADER_BYTES};

// The number that a context begins with (Part 2, "TPMS_CONTEXT").
fn number_of(context: &[u8]) -> u64
    requires { 8 ≤ length context.now }
    ensures { result ≡ context_number context.now }
{
    u64::from_be_bytes([
        context[0], context[1], context[2], context[3], context[4], context[5], context[6],
        context[7],
    ])
}

/// Saves the loaded session of a handle; the number of its context (Part 3, "TPM2_ContextSave").
pub fn save<D: Device>(
    device: &mut D,
    handle: u32,
    context: &mut Vec<u8>,
    scratch: &mut Buffer,
) -> Result<u64, SwapError>
    requires session { is_session_handle handle ≡ true }
    requires room { D.CONTEXTS.session_bytes ≤ vec_capacity context.old }
    requires told { IfSome (D.seen device.old).state (λ slots. IsIn slots handle × MaySave slots) }
    ensures saved { IfOk result (λ number. SavesIn D.CONTEXTS
        (D.seen device.old) (D.seen device.new) handle number context.new.items scratch.new) }
    ensures room { D.CONTEXTS.session_bytes ≤ vec_capacity context.new }
    ensures asks { Asks D.CONTEXTS D.seen device.old device.new (context_save_command handle)
        result }
{
    let command = command_of(CC_CONTEXT_SAVE, &handle.to_be_bytes());
    ask(device, command.as_slice(), scratch)?;
    let saved = &scratch.as_slice()[HEADER_BYTES as usize..];
    context.clear();
    context.extend_from_slice(saved).unwrap();
    Ok(number_of(saved))
}

/// Loads the session of a handle from its last context (Part 3, "TPM2_ContextLoad").
pub fn load<D: Device>(
    device: &mut D,
    handle: u32,
    context: &[u8],
    scratch: &mut Buffer,
) -> Result<(), SwapError>
    requires session { is_session_handle handle ≡ true }
    requires kept { (number : ℕ) × IsContext D.CONTEXTS handle number context.now }
    requires told { IfSome (D.seen device.old).state (λ slots. IsOut slots handle context.now) }
    ensures state { OnOk result
        ((D.seen device.new).state ≡ brought_in handle context.now (D.seen device.old).state) }
    ensures asks { Asks D.CONTEXTS D.seen device.old device.new (context_load_command context.now)
        result }
{
    let command = load_command(context);
    ask(device, command.as_slice(), scratch)
}

/// Ends the session of a handle, loaded or saved (Part 3, "TPM2_FlushContext").
pub fn flush<D: Device>(device: &mut D, handle: u32, scratch: &mut Buffer) -> Result<(), SwapError>
    requires session { is_session_handle handle ≡ true }
    requires told { IfSome (D.seen device.old).state (λ slots. (slots.started ≡ true)
        × IsSlots slots × (is_active_with (octet_of handle) (place_of slots handle) ≡ true)) }
    ensures state { OnOk result
        ((D.seen device.new).state ≡ ended handle (D.seen device.old).state) }
    ensures asks { Asks D.CONTEXTS D.seen device.old device.new (flush_context_command handle)
        result }
{
    let command = command_of(CC_FLUSH_CONTEXT, &handle.to_be_bytes());
    ask(device, command.as_slice(), scratch)
}
