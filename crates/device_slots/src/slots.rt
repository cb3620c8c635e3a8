ghost use Rattle.std.specs.Prelude.{◌≡◌, ◌≤◌, ◌&&◌, nat_le, None, Some, is_some, set, get_or};
ghost use Rattle.std.specs.Prelude.{length, option_map, not, replicate, IfOk, MatchOption};
ghost use Rattle.std.specs.List.{count_by, list_any};
ghost use Rattle.tab_spec.specs.declared.TheConstants.{TRANSIENT_FIRST};
ghost use Rattle.fx_capability.specs.Lists.{number_from};
ghost use Rattle.effect_spec.specs.Capabilities.{transient_from};
ghost use Rattle.device_spec.specs.Slots.{free_slot, is_free, slot_of};
ghost use Rattle.tab_values.specs.Views.{object_of};
ghost use Rattle.device_slots.specs.Listed.{MOST_SLOTS};
ghost use Rattle.device_slots.specs.Views.{slots_of};

use std::alloc::{AllocError, Global};
use tab_spec::TRANSIENT_FIRST;
use tab_values::Object;

// So many slots, all of them free. It fails only for want of memory.
pub(crate) fn free_slots(alloc: Global, count: usize) -> Result<Vec<Option<Object>>, AllocError>
    ensures { IfOk result (λ slots. slots_of slots.items ≡ replicate count None) }
{
    let mut slots = Vec::with_capacity(alloc, count)?;
    for _ in 0..count {
        slots.push(None)?;
    }
    Ok(slots)
}

// The slot of a transient handle. A handle below those has the first one.
pub(crate) fn slot_of(handle: u32) -> usize
    ensures { result ≡ slot_of handle }
{
    handle.saturating_sub(TRANSIENT_FIRST) as usize
}

// The object of a slot; `None` if it is free, or if there is no such slot.
pub(crate) fn in_slot(slots: &[Option<Object>], slot: usize) -> Option<&Object>
    ensures { MatchOption result
        (get_or (slots_of slots.now) slot None ≡ None)
        (λ o. get_or (slots_of slots.now) slot None ≡ Some (object_of o.now)) }
{
    slots.get(slot)?.as_ref()
}

// The least free slot; the number of slots where none is.
pub(crate) fn free_slot(slots: &[Option<Object>]) -> usize
    ensures value { result ≡ free_slot (slots_of slots.now) }
    ensures most { result ≤ length slots.now }
{
    slots
        .iter()
        .position(|slot| slot.is_none())
        .unwrap_or(slots.len())
}

// Whether no slot is free.
pub(crate) fn is_full(slots: &[Option<Object>]) -> bool
    ensures { result ≡ not (list_any is_free (slots_of slots.now)) }
{
    !slots.iter().any(|slot| slot.is_none())
}

// Another object in a slot, or none. It changes nothing where there is no such slot.
pub(crate) fn put_slot(slots: &mut [Option<Object>], slot: usize, held: Option<Object>)
    ensures { slots_of slots.new ≡ set (slots_of slots.old) slot (option_map object_of held) }
{
    if slot < slots.len() {
        slots[slot] = held;
    }
}

// The least handle of an object that isn't below `least`.
pub(crate) fn object_from(slots: &[Option<Object>], least: u32) -> Option<u32>
    requires { length slots.now ≤ MOST_SLOTS }
    ensures { result ≡ number_from least (transient_from TRANSIENT_FIRST (slots_of slots.now)) }
{
    for slot in 0..slots.len() {
        let handle = TRANSIENT_FIRST + slot as u32;
        if is_object_from(&slots[slot], handle, least) {
            return Some(handle);
        }
    }
    None
}

// Whether there is an object in a slot, and its handle isn't below `least`.
fn is_object_from(slot: &Option<Object>, handle: u32, least: u32) -> bool
    ensures { result ≡ (is_some (option_map object_of slot.now) && nat_le least handle) }
{
    slot.is_some() && handle >= least
}

// How many objects there are.
pub(crate) fn object_count(slots: &[Option<Object>]) -> usize
    ensures count { result ≡ length (transient_from TRANSIENT_FIRST (slots_of slots.now)) }
    ensures most { result ≤ length slots.now }
{
    taken_count(slots)
}

// How many slots are taken.
fn taken_count(slots: &[Option<Object>]) -> usize
    ensures count { result ≡ count_by is_some (slots_of slots.now) }
    ensures most { result ≤ length slots.now }
{
    slots.iter().filter(|slot| slot.is_some()).count()
}
