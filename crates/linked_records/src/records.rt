//! Records in lists.
ghost use Rattle.std.specs.Prelude.{◌≡◌, ◌+◌, ◌*◌, ◌<◌, ◌≤◌, ◌^◌, ◌∷◌, ◌++◌, [], IfOk};
ghost use Rattle.std.specs.Prelude.{MatchOption, OnErr, OnOk, ℕ, get_or, length, max, replicate};
ghost use Rattle.std.specs.Prelude.{set};
ghost use Rattle.std.specs.Borrow.{sem};
ghost use Rattle.linked_records.specs.View.{IsListed, StandOnce, first_index, moved, put_back};
ghost use Rattle.linked_records.specs.View.{record_count, taken_out, written};

use crate::arena::Arena;
use crate::place::{Ends, Links, Place};
use crate::steps::{Steps, Uncounted, Visits};
use std::alloc::{AllocError, Global};
use std::marker::Model;
use std::sync::ledger::Ledger;

/// Records in lists, each under an index that it keeps until it is removed.
///
/// It is seen as its lists, each with its records in order and their indices, and as spare room:
/// how many records can be inserted before memory has to be taken. A record that is removed leaves
/// room for another. Indices are given out from 0 on; one that was given back by a removal is given
/// out first.
#[derive(Drop)]
pub struct Records<T> {
    arena: Arena<T>,
    // The first free place, where there is one.
    free: Option<u32>,
}

impl<T> Model for Records<T> {
    ghost use Rattle.std.specs.Prelude.{vec_capacity};
    ghost use Rattle.linked_records.specs.View.{RecordsView, view_code};

    ghost Value = { RecordsView T };

    ghost coded = { view_code T.code };

    ghost use Rattle.linked_records.specs.Places.{Holds, lists_of, view_of};

    ghost view = { λ r. view_of r.arena.places.items r.arena.ends.items
        (vec_capacity r.arena.places) };

    ghost invariant = { λ r. Holds r.arena.places.items r.arena.ends.items r.free
        (lists_of r.arena.places.items r.arena.ends.items) };
}

impl<T> Records<T> {
    ghost use Rattle.linked_records.specs.Lent.{LendsRecord};

    /// So many lists, from 0 on, which are empty.
    pub fn new(alloc: Global, lists: u32) -> Result<Records<T>, AllocError>
        ensures lists { IfOk result (λ r. (r.lists ≡ replicate lists []) × (r.given ≡ 0)) }
    {
        let mut ends = Vec::new(alloc);
        ends.resize(
            lists as usize,
            Ends {
                first: None,
                last: None,
            },
        )?;
        Ok(Records {
            arena: Arena {
                places: Vec::new(alloc),
                ends,
            },
            free: None,
        })
    }

    /// Takes memory for one more record, where no room is spare. It fails only for want of memory.
    /// The lists stay.
    pub fn reserve(&mut self) -> Result<(), AllocError>
        requires few { record_count self.old.lists + 1 < 2 ^ 32 }
        ensures ok { OnOk result (1 ≤ self.new.spare) }
        ensures err { OnErr result (self.old.spare ≡ 0) }
        ensures lists { self.new.lists ≡ self.old.lists }
        ensures spare { (self.old.spare ≤ self.new.spare) × (self.new.given ≡ self.old.given) }
    {
        if self.free.is_some() {
            return Ok(());
        }
        self.arena.places.reserve(1)
    }

    /// One more list, which is empty. Gives its number. For want of memory the lists stay.
    pub fn add_list(&mut self) -> Result<u32, AllocError>
        requires few { length self.old.lists + 1 < 2 ^ 32 }
        ensures list { IfOk result (λ list. list ≡ length self.old.lists) }
        ensures ok { OnOk result (self.new.lists ≡ self.old.lists ++ [] ∷ []) }
        ensures err { OnErr result (self.new.lists ≡ self.old.lists) }
        ensures spare { (self.new.spare ≡ self.old.spare) × (self.new.given ≡ self.old.given) }
    {
        let list = self.arena.ends.len() as u32;
        self.arena.ends.reserve(1)?;
        self.arena.ends.push_reserved(Ends {
            first: None,
            last: None,
        });
        Ok(list)
    }

    /// How many lists there are. Each index stands in one of them, and once. Each index is below
    /// `given`, and there are no more records than that.
    pub fn lists(&self) -> usize
        ensures count { result ≡ length self.now.lists }
        ensures once { StandOnce self.now.lists }
        ensures below { (item : ℕ) → IsListed self.now.lists item → item < self.now.given }
        ensures most { record_count self.now.lists ≤ self.now.given }
    {
        self.arena.ends.len()
    }

    /// The index of the first record of a list; `None` if the list is empty.
    pub fn front(&self, list: u32) -> Option<u32>
        requires { list < length self.now.lists }
        ensures { result ≡ first_index (get_or self.now.lists list []) }
    {
        self.arena.ends[list as usize].first
    }

    /// The index of the record after one; `None` if that one is the last of its list.
    pub fn next(&self, item: u32) -> Option<u32>
        requires { IsListed self.now.lists item }
        ensures { (at : IsListed self.now.lists item) → result ≡ first_index at.after }
    {
        self.next_by(item, &mut Uncounted)
    }

    /// The record at an index.
    pub fn get(&self, item: u32) -> &T
        requires { IsListed self.now.lists item }
        ensures { (at : IsListed self.now.lists item) → result.now ≡ at.value }
    {
        self.arena.places[item as usize].value()
    }

    /// The record at an index, to change it.
    pub fn get_mut(&mut self, item: u32) -> &mut T
        requires { IsListed self.old.lists item }
        ensures* writes_back { sem 𝓛 (LendsRecord T.row self.entry item result) }
        ensures value { (at : IsListed self.old.lists item) → result.now ≡ at.value }
        ensures written { (value : T) (at : IsListed self.old.lists item)
            → written item value self.old.lists
            ≡ set self.old.lists at.list (at.before ++ (item, value) ∷ at.after) }
    {
        self.arena.places[item as usize].value_mut()
    }

    /// Puts a record at the back of a list. Gives its index, which no other record has.
    pub fn insert_back(&mut self, list: u32, v: T) -> u32
        requires room { 1 ≤ self.old.spare }
        requires there { list < length self.old.lists }
        ensures fresh { IsListed self.old.lists result → ⊥ }
        ensures lists { self.new.lists ≡ put_back self.old.lists list (result, v) }
        ensures spare { self.new.spare + 1 ≡ self.old.spare }
        ensures given { (record_count self.old.lists ≡ self.old.given → result ≡ self.old.given)
            × (record_count self.old.lists < self.old.given → result < self.old.given)
            × (self.new.given ≡ max self.old.given (result + 1)) }
    {
        self.insert_by(list, v, &mut Uncounted)
    }

    /// Takes a record out of its list, and hands it out. Its index is free for another.
    pub fn remove(&mut self, item: u32) -> T
        requires { IsListed self.old.lists item }
        ensures value { (at : IsListed self.old.lists item) → result ≡ at.value }
        ensures lists { (at : IsListed self.old.lists item)
            → self.new.lists ≡ taken_out self.old.lists item at }
        ensures spare { (self.new.spare ≡ self.old.spare + 1) × (self.new.given ≡ self.old.given) }
    {
        self.remove_by(item, &mut Uncounted)
    }

    /// Moves a record to the back of its list.
    pub fn move_back(&mut self, item: u32)
        requires { IsListed self.old.lists item }
        ensures lists { (at : IsListed self.old.lists item)
            → self.new.lists ≡ moved self.old.lists item at at.list }
        ensures spare { (self.new.spare ≡ self.old.spare) × (self.new.given ≡ self.old.given) }
    {
        self.move_back_by(item, &mut Uncounted)
    }

    /// Moves a record to the back of a list, its own or another. It keeps its index.
    pub fn move_to(&mut self, item: u32, list: u32)
        requires listed { IsListed self.old.lists item }
        requires there { list < length self.old.lists }
        ensures lists { (at : IsListed self.old.lists item)
            → self.new.lists ≡ moved self.old.lists item at list }
        ensures spare { (self.new.spare ≡ self.old.spare) × (self.new.given ≡ self.old.given) }
    {
        self.move_to_by(item, list, &mut Uncounted)
    }
}

impl<T> Records<T> {
    /// `front`, which counts the record that it names: one, or none where the list is empty.
    pub fn front_counted<L: Ledger>(&self, list: u32, steps: &mut Steps<L>) -> Option<u32>
        requires { list < length self.now.lists }
        ensures front { result ≡ first_index (get_or self.now.lists list []) }
        ensures steps { MatchOption result
            (steps.new ≡ steps.old) (λ item. steps.new ≡ steps.old + 1) }
    {
        let first = self.front(list);
        if first.is_some() {
            steps.tick();
        }
        first
    }

    /// `next`, which visits one record.
    pub fn next_counted<L: Ledger>(&self, item: u32, steps: &mut Steps<L>) -> Option<u32>
        requires { IsListed self.now.lists item }
        ensures next { (at : IsListed self.now.lists item) → result ≡ first_index at.after }
        ensures steps { steps.new ≡ steps.old + 1 }
    {
        self.next_by(item, steps)
    }

    /// `insert_back`, which visits one record or two.
    pub fn insert_back_counted<L: Ledger>(&mut self, list: u32, v: T, steps: &mut Steps<L>) -> u32
        requires room { 1 ≤ self.old.spare }
        requires there { list < length self.old.lists }
        ensures fresh { IsListed self.old.lists result → ⊥ }
        ensures lists { self.new.lists ≡ put_back self.old.lists list (result, v) }
        ensures spare { self.new.spare + 1 ≡ self.old.spare }
        ensures given { (record_count self.old.lists ≡ self.old.given → result ≡ self.old.given)
            × (record_count self.old.lists < self.old.given → result < self.old.given)
            × (self.new.given ≡ max self.old.given (result + 1)) }
        ensures steps { (steps.old + 1 ≤ steps.new) × (steps.new ≤ steps.old + 2) }
    {
        self.insert_by(list, v, steps)
    }

    /// `remove`, which visits one to three records.
    pub fn remove_counted<L: Ledger>(&mut self, item: u32, steps: &mut Steps<L>) -> T
        requires { IsListed self.old.lists item }
        ensures value { (at : IsListed self.old.lists item) → result ≡ at.value }
        ensures lists { (at : IsListed self.old.lists item)
            → self.new.lists ≡ taken_out self.old.lists item at }
        ensures spare { (self.new.spare ≡ self.old.spare + 1) × (self.new.given ≡ self.old.given) }
        ensures steps { (steps.old + 1 ≤ steps.new) × (steps.new ≤ steps.old + 3) }
    {
        self.remove_by(item, steps)
    }

    /// `move_back`, which visits two to five records.
    pub fn move_back_counted<L: Ledger>(&mut self, item: u32, steps: &mut Steps<L>)
        requires { IsListed self.old.lists item }
        ensures lists { (at : IsListed self.old.lists item)
            → self.new.lists ≡ moved self.old.lists item at at.list }
        ensures spare { (self.new.spare ≡ self.old.spare) × (self.new.given ≡ self.old.given) }
        ensures steps { (steps.old + 2 ≤ steps.new) × (steps.new ≤ steps.old + 5) }
    {
        self.move_back_by(item, steps)
    }

    /// `move_to`, which visits two to five records.
    pub fn move_to_counted<L: Ledger>(&mut self, item: u32, list: u32, steps: &mut Steps<L>)
        requires listed { IsListed self.old.lists item }
        requires there { list < length self.old.lists }
        ensures lists { (at : IsListed self.old.lists item)
            → self.new.lists ≡ moved self.old.lists item at list }
        ensures spare { (self.new.spare ≡ self.old.spare) × (self.new.given ≡ self.old.given) }
        ensures steps { (steps.old + 2 ≤ steps.new) × (steps.new ≤ steps.old + 5) }
    {
        self.move_to_by(item, list, steps)
    }
}

impl<T> Records<T> {
    fn next_by<C: Visits>(&self, item: u32, steps: &mut C) -> Option<u32>
        requires { IsListed self.now.lists item }
        ensures next { (at : IsListed self.now.lists item) → result ≡ first_index at.after }
        ensures steps { C.count steps.new ≡ C.count steps.old + C.weight }
    {
        self.arena.links(item, steps).next
    }

    fn insert_by<C: Visits>(&mut self, list: u32, v: T, steps: &mut C) -> u32
        requires room { 1 ≤ self.old.spare }
        requires there { list < length self.old.lists }
        ensures fresh { IsListed self.old.lists result → ⊥ }
        ensures lists { self.new.lists ≡ put_back self.old.lists list (result, v) }
        ensures spare { self.new.spare + 1 ≡ self.old.spare }
        ensures given { (record_count self.old.lists ≡ self.old.given → result ≡ self.old.given)
            × (record_count self.old.lists < self.old.given → result < self.old.given)
            × (self.new.given ≡ max self.old.given (result + 1)) }
        ensures steps { (C.count steps.old + C.weight ≤ C.count steps.new)
            × (C.count steps.new ≤ C.count steps.old + 2 * C.weight) }
    {
        let last = self.arena.ends[list as usize].last;
        let links = Links {
            list,
            prev: last,
            next: None,
        };
        let (item, free) = self.arena.open(self.free, Place::Taken(links, v), steps);
        self.free = free;
        self.arena.attach(list, last, item, steps);
        item
    }

    fn remove_by<C: Visits>(&mut self, item: u32, steps: &mut C) -> T
        requires { IsListed self.old.lists item }
        ensures value { (at : IsListed self.old.lists item) → result ≡ at.value }
        ensures lists { (at : IsListed self.old.lists item)
            → self.new.lists ≡ taken_out self.old.lists item at }
        ensures spare { (self.new.spare ≡ self.old.spare + 1) × (self.new.given ≡ self.old.given) }
        ensures steps { (C.count steps.old + C.weight ≤ C.count steps.new)
            × (C.count steps.new ≤ C.count steps.old + 3 * C.weight) }
    {
        match self.arena.replace(item, Place::Free(self.free), steps) {
            Place::Taken(links, value) => {
                self.free = Some(item);
                self.arena
                    .set_next(links.list, links.prev, links.next, steps);
                self.arena
                    .set_prev(links.list, links.next, links.prev, steps);
                value
            }
            Place::Free(_) => unreachable!(),
        }
    }

    fn move_back_by<C: Visits>(&mut self, item: u32, steps: &mut C)
        requires { IsListed self.old.lists item }
        ensures lists { (at : IsListed self.old.lists item)
            → self.new.lists ≡ moved self.old.lists item at at.list }
        ensures spare { (self.new.spare ≡ self.old.spare) × (self.new.given ≡ self.old.given) }
        ensures steps { (C.count steps.old + 2 * C.weight ≤ C.count steps.new)
            × (C.count steps.new ≤ C.count steps.old + 5 * C.weight) }
    {
        let from = self.arena.links(item, steps);
        self.arena.carry(item, from, from.list, steps);
    }

    fn move_to_by<C: Visits>(&mut self, item: u32, list: u32, steps: &mut C)
        requires listed { IsListed self.old.lists item }
        requires there { list < length self.old.lists }
        ensures lists { (at : IsListed self.old.lists item)
            → self.new.lists ≡ moved self.old.lists item at list }
        ensures spare { (self.new.spare ≡ self.old.spare) × (self.new.given ≡ self.old.given) }
        ensures steps { (C.count steps.old + 2 * C.weight ≤ C.count steps.new)
            × (C.count steps.new ≤ C.count steps.old + 5 * C.weight) }
    {
        let from = self.arena.links(item, steps);
        self.arena.carry(item, from, list, steps);
    }
}
