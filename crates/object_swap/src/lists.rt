//! Lists of the objects of each client: the index of each, so that no call walks the records.
ghost use Rattle.std.specs.Prelude.{◌≡◌, ◌≤◌, ◌<◌, ◌+◌, ◌^◌, ℕ, List, [], length, get_or, set};
ghost use Rattle.std.specs.Prelude.{Option, MatchOption};
ghost use Rattle.tab_spec.specs.declared.contexts.ContextLimits.{ContextLimits};
ghost use Rattle.linked_records.specs.View.{IsListed, first_index, taken_out};
ghost use Rattle.object_swap.specs.Items.{Names, no_item};
ghost use Rattle.object_swap.specs.Records.{AreRecords, IsOwnedBy, items_of};

use crate::record::Record;
use crate::vacant::forget;
use linked_records::{Records, Steps};
use std::sync::ledger::Ledger;

/// How a call visits records, those of objects and those of the lists: with a count, or without.
pub trait Visits {
    ghost count: { Self → ℕ };

    /// How much each visit adds to the count, at the least. It adds no more than 1.
    ghost weight: { ℕ };

    /// The record of an object.
    fn look_up<'a>(&mut self, records: &'a [Record], item: u32) -> &'a Record
        requires { item < length records.now }
        ensures found { result.now ≡ get_or records.now item result.now }
        ensures steps { (count self.old + weight ≤ count self.new)
            × (count self.new ≤ count self.old + 1) };

    /// The first of a list.
    fn first(&mut self, lists: &Records<()>, list: u32) -> Option<u32>
        requires { list < length lists.now.lists }
        ensures first { result ≡ first_index (get_or lists.now.lists list []) }
        ensures steps { MatchOption result (count self.new ≡ count self.old)
            (λ item. count self.new ≡ count self.old + weight) }
        ensures few { count self.new ≤ count self.old + 1 };

    /// Takes one out of its list.
    fn remove(&mut self, lists: &mut Records<()>, item: u32)
        requires { IsListed lists.old.lists item }
        ensures lists { (at : IsListed lists.old.lists item)
            → lists.new.lists ≡ taken_out lists.old.lists item at }
        ensures spare { (lists.new.spare ≡ lists.old.spare + 1)
            × (lists.new.given ≡ lists.old.given) }
        ensures steps { (count self.old + weight ≤ count self.new)
            × (count self.new ≤ count self.old + 3) };
}

impl<L: Ledger> Visits for Steps<L> {
    ghost count = { λ s. s };

    ghost weight = { 1 };

    fn look_up<'a>(&mut self, records: &'a [Record], item: u32) -> &'a Record {
        self.tick();
        &records[item as usize]
    }

    fn first(&mut self, lists: &Records<()>, list: u32) -> Option<u32> {
        lists.front_counted(list, self)
    }

    fn remove(&mut self, lists: &mut Records<()>, item: u32) {
        lists.remove_counted(item, self);
    }
}

/// Counts nothing.
#[derive(Drop)]
pub struct Uncounted;

impl Visits for Uncounted {
    ghost count = { λ _. 0 };

    ghost weight = { 0 };

    fn look_up<'a>(&mut self, records: &'a [Record], item: u32) -> &'a Record {
        &records[item as usize]
    }

    fn first(&mut self, lists: &Records<()>, list: u32) -> Option<u32> {
        lists.front(list)
    }

    fn remove(&mut self, lists: &mut Records<()>, item: u32) {
        lists.remove(item);
    }
}

/// Takes an object out of the list of its client. Its record is vacant then.
pub fn release<C: Visits>(
    records: &mut Vec<Record>,
    lists: &mut Records<()>,
    vacant: &mut u32,
    item: u32,
    steps: &mut C,
)
    requires named { Names (items_of records.old.items) item }
    requires few { length records.old.items < 2 ^ 32 }
    requires owned { (owners : List (Option ℕ))
        × IsOwnedBy (items_of records.old.items) lists.old owners vacant.old }
    ensures items { items_of records.new.items ≡ set (items_of records.old.items) item no_item }
    ensures sound { (contexts : ContextLimits) → AreRecords contexts records.old.items
        → AreRecords contexts records.new.items }
    ensures count { length records.new.items ≡ length records.old.items }
    ensures owned { (owners : List (Option ℕ))
        → IsOwnedBy (items_of records.old.items) lists.old owners vacant.old
        → IsOwnedBy (items_of records.new.items) lists.new owners vacant.new }
    ensures steps { (C.count steps.old + C.weight ≤ C.count steps.new)
        × (C.count steps.new ≤ C.count steps.old + 3) }
{
    steps.remove(lists, item);
    forget(records, item);
    *vacant += 1;
}
