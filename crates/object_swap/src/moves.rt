ghost use Rattle.std.specs.Prelude.{◌≡◌, ◌==◌, ◌≤◌, ◌<◌, true, vec_capacity, IfSome, IfOk, OnOk};
ghost use Rattle.tab_spec.specs.declared.TheConstants.{CONTEXT_LIMIT, HT_TRANSIENT};
ghost use Rattle.tab_spec.specs.Shape.{octet_of};
ghost use Rattle.device_port.specs.Device.{last_of};
ghost use Rattle.device_port.specs.Own.{Asks};
ghost use Rattle.device_spec.specs.ContextCommands.{context_load_command, context_save_command};
ghost use Rattle.device_spec.specs.ContextCommands.{flush_context_command};
ghost use Rattle.device_spec.specs.Slots.{in_slot, object_at};
ghost use Rattle.object_swap.specs.Records.{IsContext};
ghost use Rattle.object_swap.specs.Moves.{IsIn, IsLastContext, IsLastHandle, IsLeast, IsOut};
ghost use Rattle.object_swap.specs.Moves.{counted, emptied, filled};

use device_port::{Device, SwapError, ask, command_of, handle_of, load_command};
use tab_bytes::Buffer;
use tab_spec::{CC_CONTEXT_SAVE, CC_FLUSH_CONTEXT, HEADER_BYTES};

/// Keeps a context of the object of a handle (Part 3, "TPM2_ContextSave").
pub fn save<D: Device>(
    device: &mut D,
    handle: u32,
    context: &mut Vec<u8>,
    scratch: &mut Buffer,
) -> Result<(), SwapError>
    requires transient { (octet_of handle == HT_TRANSIENT) ≡ true }
    requires room { D.CONTEXTS.object_bytes ≤ vec_capacity context.old }
    requires told { IfSome (D.seen device.old).state
        (λ slots. IsIn slots handle × (slots.object_counter < CONTEXT_LIMIT)) }
    ensures state { OnOk result ((D.seen device.new).state ≡ counted (D.seen device.old).state) }
    ensures same { OnOk result (IfSome (D.seen device.old).state
        (λ slots. object_at slots None (Some context.new.items) ≡ in_slot slots handle)) }
    ensures kept { OnOk result (IsContext D.CONTEXTS context.new.items
        × IsLastContext (last_of (D.seen device.new)) context.new.items) }
    ensures room { D.CONTEXTS.object_bytes ≤ vec_capacity context.new }
    ensures asks { Asks D.CONTEXTS D.seen device.old device.new (context_save_command handle)
        result }
{
    let command = command_of(CC_CONTEXT_SAVE, &handle.to_be_bytes());
    ask(device, command.as_slice(), scratch)?;
    context.clear();
    context
        .extend_from_slice(&scratch.as_slice()[HEADER_BYTES as usize..])
        .unwrap();
    Ok(())
}

/// Empties the slot of a handle (Part 3, "TPM2_FlushContext").
pub fn flush<D: Device>(device: &mut D, handle: u32, scratch: &mut Buffer) -> Result<(), SwapError>
    requires transient { (octet_of handle == HT_TRANSIENT) ≡ true }
    requires told { IfSome (D.seen device.old).state (λ slots. IsIn slots handle) }
    ensures state { OnOk result
        ((D.seen device.new).state ≡ emptied handle (D.seen device.old).state) }
    ensures asks { Asks D.CONTEXTS D.seen device.old device.new (flush_context_command handle)
        result }
{
    let command = command_of(CC_FLUSH_CONTEXT, &handle.to_be_bytes());
    ask(device, command.as_slice(), scratch)
}

/// Loads the object of a context, and returns its handle (Part 3, "TPM2_ContextLoad").
pub fn load<D: Device>(
    device: &mut D,
    context: &[u8],
    scratch: &mut Buffer,
) -> Result<u32, SwapError>
    requires kept { IsContext D.CONTEXTS context.now }
    requires told { IfSome (D.seen device.old).state (λ slots. IsOut slots context.now) }
    ensures state { OnOk result
        ((D.seen device.new).state ≡ filled context.now (D.seen device.old).state) }
    ensures last { IfOk result (λ handle. IsLastHandle (last_of (D.seen device.new)) handle) }
    ensures least { IfOk result (λ handle. IsLeast (D.seen device.old).state handle) }
    ensures transient { IfOk result (λ handle. (octet_of handle == HT_TRANSIENT) ≡ true) }
    ensures asks { Asks D.CONTEXTS D.seen device.old device.new (context_load_command context.now)
        result }
{
    let command = load_command(context);
    ask(device, command.as_slice(), scratch)?;
    Ok(handle_of(scratch.as_slice()))
}
