ghost use Rattle.std.specs.Prelude.{◌≡◌, ℕ, List, Some, set, true, false, is_some};
ghost use Rattle.std.specs.Prelude.{IfSome, OnOk, OnErr};
ghost use Rattle.std.specs.List.{list_any};
ghost use Rattle.device_spec.specs.ContextCommands.{context_load_command, flush_context_command};
ghost use Rattle.device_spec.specs.Slots.{is_free, slot_of};
ghost use Rattle.device_port.specs.Device.{last_of};
ghost use Rattle.device_port.specs.Own.{Asks, AsksSome};
ghost use Rattle.object_swap.specs.Items.{is_unsaved, item_at, unsaved};
ghost use Rattle.object_swap.specs.Records.{items_of, number, residency};
ghost use Rattle.object_swap.specs.Moves.{CostsOne, HasLastSlot, IsItem, IsSaved, OthersStay};
ghost use Rattle.object_swap.specs.Moves.{Ready, Spends, Swaps};

use crate::moves::{flush, load, save};
use crate::record::Record;
use device_port::{Device, SwapError};
use tab_bytes::Buffer;

/// Keeps a context of an object that is in a slot.
pub fn keep_context<D: Device>(
    records: &mut [Record],
    index: usize,
    device: &mut D,
    scratch: &mut Buffer,
) -> Result<(), SwapError>
    requires item { IsItem records.old index true }
    requires ready { Ready D.CONTEXTS (D.seen device.old).state records.old }
    ensures swaps { Swaps D.CONTEXTS D.seen device.old device.new records.old records.new }
    ensures residency { residency records.new ≡ residency records.old }
    // A new context is that of the response.
    ensures kept { OnOk result (IsSaved (last_of (D.seen device.new))
        (item_at (items_of records.old) index) (item_at (items_of records.new) index)) }
    ensures others { OthersStay index records.old records.new }
    // A context that is kept isn't made again.
    ensures costs { CostsOne D.seen device.old device.new records.old records.new
        (number (is_unsaved (item_at (items_of records.old) index))) }
    // The only command that makes no context is one that failed.
    ensures spends { OnOk result (Spends D.seen device.old device.new records.old records.new 0)
        × OnErr result (Spends D.seen device.old device.new records.old records.new 1) }
    ensures asks { AsksSome D.CONTEXTS D.seen device.old device.new result }
{
    let record = &mut records[index];
    let Some(handle) = record.handle else {
        return Ok(());
    };
    if record.kept {
        return Ok(());
    }
    save(device, handle, &mut record.blob, scratch)?;
    record.kept = true;
    Ok(())
}

/// Flushes an object whose context is kept.
pub fn leave_slot<D: Device>(
    records: &mut [Record],
    index: usize,
    device: &mut D,
    scratch: &mut Buffer,
) -> Result<(), SwapError>
    requires item { IsItem records.old index true
        × (is_some (item_at (items_of records.old) index).blob ≡ true) }
    requires ready { Ready D.CONTEXTS (D.seen device.old).state records.old }
    ensures swaps { Swaps D.CONTEXTS D.seen device.old device.new records.old records.new }
    ensures ok { OnOk result (residency records.new ≡ set (residency records.old) index false) }
    ensures err { OnErr result (residency records.new ≡ residency records.old) }
    ensures others { OthersStay index records.old records.new
        × (unsaved (items_of records.new) ≡ unsaved (items_of records.old)) }
    // One FlushContext is sent, of a handle that stands for its slot.
    ensures asks { (handle : ℕ)
        × ((item_at (items_of records.old) index).slot ≡ Some (slot_of handle))
        × Asks D.CONTEXTS D.seen device.old device.new (flush_context_command handle) result }
{
    let record = &mut records[index];
    let Some(handle) = record.handle else {
        return Ok(());
    };
    flush(device, handle, scratch)?;
    record.handle = None;
    Ok(())
}

/// Loads an object that is in no slot. Its slot is that of the response's handle.
pub fn take_slot<D: Device>(
    records: &mut [Record],
    index: usize,
    device: &mut D,
    scratch: &mut Buffer,
) -> Result<(), SwapError>
    requires item { IsItem records.old index false }
    requires ready { Ready D.CONTEXTS (D.seen device.old).state records.old }
    requires room { IfSome (D.seen device.old).state
        (λ slots. list_any is_free slots.slots ≡ true) }
    ensures swaps { Swaps D.CONTEXTS D.seen device.old device.new records.old records.new }
    ensures ok { OnOk result ((residency records.new ≡ set (residency records.old) index true)
        × HasLastSlot (last_of (D.seen device.new)) (item_at (items_of records.new) index)) }
    ensures err { OnErr result (residency records.new ≡ residency records.old) }
    ensures others { OthersStay index records.old records.new }
    // One ContextLoad is sent, of its context.
    ensures asks { (context : List ℕ)
        × ((item_at (items_of records.old) index).blob ≡ Some context)
        × Asks D.CONTEXTS D.seen device.old device.new (context_load_command context) result }
{
    let record = &mut records[index];
    let handle = load(device, &record.blob, scratch)?;
    record.handle = Some(handle);
    Ok(())
}
