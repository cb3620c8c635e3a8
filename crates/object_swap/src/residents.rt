ghost use Rattle.std.specs.Prelude.{◌≡◌, ◌≤◌, ◌<◌, ◌+◌, ◌||◌, not, ℕ, length, get_or};
ghost use Rattle.std.specs.Prelude.{true, false, vec_capacity, IfSome, OnOk, MatchOption};
ghost use Rattle.std.specs.List.{list_any};
ghost use Rattle.device_spec.specs.Slots.{is_free};
ghost use Rattle.device_port.specs.Device.{asked_of, last_of};
ghost use Rattle.device_port.specs.Own.{AsksSome, IsOwnAnswered};
ghost use Rattle.device_port.specs.Use.{is_among};
ghost use Rattle.object_swap.specs.Items.{AreResident, AreThere, KeepsSlots, MakesRoom, Names};
ghost use Rattle.object_swap.specs.Items.{is_kept, is_resident, item_at, missing};
ghost use Rattle.object_swap.specs.Records.{AreAmong, ListsResidents, item_of};
ghost use Rattle.object_swap.specs.Records.{items_of, view_of};
ghost use Rattle.object_swap.specs.Moves.{Brings, CanFill, CanSwap, Evicts, Fills};
ghost use Rattle.object_swap.specs.Moves.{PutsAway, Ready, Swaps};

use crate::items::{keep_context, leave_slot, take_slot};
use crate::record::Record;
use crate::vacant::{list_last, move_last};
use device_port::{Device, SwapError};
use tab_bytes::Buffer;

// The place of the resident that was used least recently, of those that aren't needed.
fn unneeded(loaded: &[u32], needed: &[u32]) -> Option<usize>
    ensures { MatchOption result (AreAmong needed.now loaded.now)
        (λ at. (at < length loaded.now) × (is_among needed.now (get_or loaded.now at 0) ≡ false)
        × ((k : ℕ) → k < at → is_among needed.now (get_or loaded.now k 0) ≡ true)) }
{
    for (at, item) in loaded.iter().enumerate() {
        if !needed.contains(item) {
            return Some(at);
        }
    }
    None
}

impl Record {
    /// Whether these bytes are the context that is kept of it.
    pub fn keeps(&self, context: &[u8]) -> bool
        ensures { result ≡ is_kept context.now (item_of self.now).blob }
    {
        self.kept && context == self.blob.as_slice()
    }
}

/// Whether these bytes are a context that is kept of any of these.
pub fn any_keeps(records: &[Record], context: &[u8]) -> bool
    ensures { result ≡ list_any (λ r. is_kept context.now (item_of r).blob) records.now }
{
    records.iter().any(|record| record.keeps(context))
}

// Whether an object is in a slot.
fn is_in_slot(records: &[Record], item: u32) -> bool
    requires { item < length records.now }
    ensures { result ≡ is_resident (item_at (items_of records.now) item) }
{
    records[item as usize].handle.is_some()
}

// Whether an object is in no slot, and isn't one of these others.
fn is_missing(records: &[Record], item: u32, others: &[u32]) -> bool
    requires { item < length records.now }
    ensures { result ≡ not (is_resident (item_at (items_of records.now) item)
        || is_among others.now item) }
{
    if is_in_slot(records, item) {
        return false;
    }
    !others.contains(&item)
}

// How many of these objects are in no slot. Each counts once.
fn count_missing(records: &[Record], needed: &[u32]) -> usize
    requires { AreThere needed.now (items_of records.now) }
    ensures count { result ≡ missing needed.now (items_of records.now) }
    ensures most { result ≤ length needed.now }
{
    let mut count = 0;
    for (at, item) in needed.iter().enumerate() {
        if is_missing(records, *item, &needed[at + 1..]) {
            count += 1;
        }
    }
    count
}

// Takes a resident out of its slot, and keeps a context of it.
fn put_away<D: Device>(
    records: &mut [Record],
    loaded: &mut Vec<u32>,
    at: usize,
    device: &mut D,
    scratch: &mut Buffer,
) -> Result<(), SwapError>
    requires inside { at < length loaded.old.items }
    requires ready { Ready D.CONTEXTS (D.seen device.old).state records.old }
    requires listed { ListsResidents records.old loaded.old.items (vec_capacity loaded.old) }
    ensures swaps { Swaps D.CONTEXTS D.seen device.old device.new records.old records.new }
    ensures listed { ListsResidents records.new loaded.new.items (vec_capacity loaded.new) }
    ensures leaves { PutsAway D.seen device.old device.new records.old records.new
        loaded.old.items loaded.new.items at result }
    ensures ok { OnOk result
        (IsOwnAnswered D.CONTEXTS (asked_of (D.seen device.new)) (last_of (D.seen device.new))) }
    ensures asks { AsksSome D.CONTEXTS D.seen device.old device.new result }
{
    let index = loaded[at] as usize;
    keep_context(records, index, device, scratch)?;
    leave_slot(records, index, device, scratch)?;
    loaded.remove(at);
    Ok(())
}

// Takes residents that aren't needed out of their slots, the least recently used first, until no
// more than so many are left.
fn clear_slots<D: Device>(
    records: &mut [Record],
    loaded: &mut Vec<u32>,
    needed: &[u32],
    most: usize,
    device: &mut D,
    scratch: &mut Buffer,
) -> Result<(), SwapError>
    requires fits { length needed.now ≤ most + missing needed.now (items_of records.old) }
    requires ready { Ready D.CONTEXTS (D.seen device.old).state records.old }
    requires listed { ListsResidents records.old loaded.old.items (vec_capacity loaded.old) }
    ensures swaps { Swaps D.CONTEXTS D.seen device.old device.new records.old records.new }
    ensures listed { ListsResidents records.new loaded.new.items (vec_capacity loaded.new) }
    ensures evicts { Evicts D.seen device.old device.new records.old records.new
        loaded.old.items loaded.new.items needed.now most result }
    ensures asks { AsksSome D.CONTEXTS D.seen device.old device.new result }
{
    while loaded.len() > most {
        // One isn't needed: what is needed alone would fit.
        let at = unneeded(loaded, needed).unwrap();
        put_away(records, loaded, at, device, scratch)?;
    }
    Ok(())
}

// Brings an object into a slot, unless it is in one. It is the one that was used last then.
fn make_resident<D: Device>(
    records: &mut [Record],
    loaded: &mut Vec<u32>,
    item: u32,
    device: &mut D,
    scratch: &mut Buffer,
) -> Result<(), SwapError>
    requires named { Names (items_of records.old) item }
    requires ready { Ready D.CONTEXTS (D.seen device.old).state records.old }
    requires listed { ListsResidents records.old loaded.old.items (vec_capacity loaded.old) }
    requires room { is_resident (item_at (items_of records.old) item) ≡ false
        → IfSome (D.seen device.old).state (λ slots. list_any is_free slots.slots ≡ true) }
    ensures swaps { Swaps D.CONTEXTS D.seen device.old device.new records.old records.new }
    ensures listed { ListsResidents records.new loaded.new.items (vec_capacity loaded.new) }
    ensures brings { Brings D.seen device.old device.new records.old records.new
        loaded.old.items loaded.new.items item result }
    ensures asks { AsksSome D.CONTEXTS D.seen device.old device.new result }
{
    if is_in_slot(records, item) {
        move_last(loaded, item);
        return Ok(());
    }
    take_slot(records, item as usize, device, scratch)?;
    list_last(loaded, item);
    Ok(())
}

// Brings each object that is needed into a slot.
fn fill_slots<D: Device>(
    records: &mut [Record],
    loaded: &mut Vec<u32>,
    needed: &[u32],
    device: &mut D,
    scratch: &mut Buffer,
) -> Result<(), SwapError>
    requires needed { CanFill (D.seen device.old).state records.old needed.now }
    requires ready { Ready D.CONTEXTS (D.seen device.old).state records.old }
    requires listed { ListsResidents records.old loaded.old.items (vec_capacity loaded.old) }
    ensures swaps { Swaps D.CONTEXTS D.seen device.old device.new records.old records.new }
    ensures listed { ListsResidents records.new loaded.new.items (vec_capacity loaded.new) }
    ensures fills { Fills D.seen device.old device.new records.old records.new
        loaded.old.items loaded.new.items needed.now result }
    ensures asks { AsksSome D.CONTEXTS D.seen device.old device.new result }
{
    for item in needed {
        make_resident(records, loaded, *item, device, scratch)?;
    }
    Ok(())
}

/// Brings each object that is needed into a slot, and frees so many slots. Others leave theirs only
/// to make room, the least recently used first.
pub fn swap_objects<D: Device>(
    records: &mut [Record],
    loaded: &mut Vec<u32>,
    needed: &[u32],
    slots: u8,
    new_slots: u8,
    device: &mut D,
    scratch: &mut Buffer,
) -> Result<(), SwapError>
    requires needed { CanSwap (D.seen device.old).state records.old needed.now slots new_slots }
    requires ready { Ready D.CONTEXTS (D.seen device.old).state records.old }
    requires listed { ListsResidents records.old loaded.old.items (vec_capacity loaded.old) }
    ensures swaps { Swaps D.CONTEXTS D.seen device.old device.new records.old records.new }
    ensures listed { ListsResidents records.new loaded.new.items (vec_capacity loaded.new)
        × (length loaded.new.items ≤ slots) }
    ensures stay { KeepsSlots needed.now (items_of records.old) (items_of records.new)
        × OnOk result (AreResident needed.now (items_of records.new)) }
    ensures room { MakesRoom D.seen device.old device.new needed.now new_slots
        (view_of records.old loaded.old.items slots)
        (view_of records.new loaded.new.items slots) result }
    ensures asks { AsksSome D.CONTEXTS D.seen device.old device.new result }
{
    let most = usize::from(slots - new_slots);
    let missing = count_missing(records, needed);
    clear_slots(records, loaded, needed, most - missing, device, scratch)?;
    fill_slots(records, loaded, needed, device, scratch)
}
