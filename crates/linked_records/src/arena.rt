//! Places for records, and the ends of the lists that are threaded through them.
ghost use Rattle.std.specs.Prelude.{◌≡◌, ◌+◌, ◌*◌, ◌^◌, ◌<◌, ◌≤◌, ◌∷◌, ◌++◌, ℕ, List, Option};
ghost use Rattle.std.specs.Prelude.{Some, None, [], length, set, vec_capacity, vec_len};

use crate::place::{Ends, Links, Place};
use crate::steps::Visits;
use std::mem;

/// Places for records, and the ends of each list. Its functions visit a record where they look up
/// its place, and each accessor says exactly how often.
#[derive(Drop)]
pub(crate) struct Arena<T> {
    pub(crate) places: Vec<Place<T>>,
    pub(crate) ends: Vec<Ends>,
}

impl<T> Arena<T> {
    ghost use Rattle.linked_records.specs.Places.{IsTaken, IsTakenAt, links_of, place_at};
    ghost use Rattle.linked_records.specs.Places.{CanCarry, CanOpen, Holds, Opens, carried};
    ghost use Rattle.linked_records.specs.Places.{first_written, if_there, last_written};
    ghost use Rattle.linked_records.specs.Places.{next_written, prev_written, with_links};

    /// Where the record at an index stands.
    pub(crate) fn links<C: Visits>(&self, item: u32, steps: &mut C) -> Links
        requires { IsTaken (place_at self.now.places.items item) }
        ensures links { result ≡ links_of (place_at self.now.places.items item) }
        ensures steps { C.count steps.new ≡ C.count steps.old + C.weight }
    {
        steps.visit();
        self.places[item as usize].links()
    }

    /// The record at an index stands elsewhere.
    pub(crate) fn set_links<C: Visits>(&mut self, item: u32, new: Links, steps: &mut C)
        requires { IsTaken (place_at self.old.places.items item) }
        ensures places { self.new.places.items ≡ set self.old.places.items item
            (with_links new (place_at self.old.places.items item)) }
        ensures ends { self.new.ends.items ≡ self.old.ends.items }
        ensures capacity { vec_capacity self.new.places ≡ vec_capacity self.old.places }
        ensures steps { C.count steps.new ≡ C.count steps.old + C.weight }
    {
        steps.visit();
        self.places[item as usize].set_links(new);
    }

    /// Another place stands at an index. Gives the one that stood there.
    pub(crate) fn replace<C: Visits>(&mut self, item: u32, new: Place<T>, steps: &mut C) -> Place<T>
        requires { item < vec_len self.old.places }
        ensures old { result ≡ place_at self.old.places.items item }
        ensures places { self.new.places.items ≡ set self.old.places.items item new }
        ensures ends { self.new.ends.items ≡ self.old.ends.items }
        ensures capacity { vec_capacity self.new.places ≡ vec_capacity self.old.places }
        ensures steps { C.count steps.new ≡ C.count steps.old + C.weight }
    {
        steps.visit();
        mem::replace(&mut self.places[item as usize], new)
    }

    /// One more place. Gives its index.
    pub(crate) fn push<C: Visits>(&mut self, new: Place<T>, steps: &mut C) -> u32
        requires room { vec_len self.old.places < vec_capacity self.old.places }
        requires few { vec_len self.old.places + 1 < 2 ^ 32 }
        ensures item { result ≡ length self.old.places.items }
        ensures places { self.new.places.items ≡ self.old.places.items ++ new ∷ [] }
        ensures ends { self.new.ends.items ≡ self.old.ends.items }
        ensures capacity { vec_capacity self.new.places ≡ vec_capacity self.old.places }
        ensures steps { C.count steps.new ≡ C.count steps.old + C.weight }
    {
        steps.visit();
        let item = self.places.len() as u32;
        self.places.push_reserved(new);
        item
    }

    /// Another place stands in the first free one, or else after all others. Gives its index, and
    /// the first free place that is left.
    pub(crate) fn open<C: Visits>(
        &mut self,
        free: Option<u32>,
        new: Place<T>,
        steps: &mut C,
    ) -> (u32, Option<u32>)
        requires { CanOpen self.old.places.items (vec_capacity self.old.places) free }
        ensures opens { Opens self.old.places.items self.new.places.items
            free result.1 result.0 new }
        ensures ends { self.new.ends.items ≡ self.old.ends.items }
        ensures capacity { vec_capacity self.new.places ≡ vec_capacity self.old.places }
        ensures steps { C.count steps.new ≡ C.count steps.old + C.weight }
    {
        match free {
            Some(item) => match self.replace(item, new, steps) {
                Place::Free(next) => (item, next),
                Place::Taken(..) => unreachable!(),
            },
            None => (self.push(new, steps), None),
        }
    }

    /// What comes after a record, or first in a list where there is none.
    pub(crate) fn set_next<C: Visits>(
        &mut self,
        list: u32,
        before: Option<u32>,
        next: Option<u32>,
        steps: &mut C,
    )
        requires there { list < vec_len self.old.ends }
        requires taken { IsTakenAt self.old.places.items before }
        ensures places { self.new.places.items ≡ next_written before next self.old.places.items }
        ensures ends { self.new.ends.items ≡ first_written list before next self.old.ends.items }
        ensures capacity { vec_capacity self.new.places ≡ vec_capacity self.old.places }
        ensures steps { C.count steps.new ≡ C.count steps.old + if_there before C.weight }
    {
        match before {
            Some(item) => {
                steps.visit();
                let place = &mut self.places[item as usize];
                let links = place.links();
                place.set_links(Links { next, ..links });
            }
            None => self.ends[list as usize].first = next,
        }
    }

    /// What comes before a record, or last in a list where there is none.
    pub(crate) fn set_prev<C: Visits>(
        &mut self,
        list: u32,
        after: Option<u32>,
        prev: Option<u32>,
        steps: &mut C,
    )
        requires there { list < vec_len self.old.ends }
        requires taken { IsTakenAt self.old.places.items after }
        ensures places { self.new.places.items ≡ prev_written after prev self.old.places.items }
        ensures ends { self.new.ends.items ≡ last_written list after prev self.old.ends.items }
        ensures capacity { vec_capacity self.new.places ≡ vec_capacity self.old.places }
        ensures steps { C.count steps.new ≡ C.count steps.old + if_there after C.weight }
    {
        match after {
            Some(item) => {
                steps.visit();
                let place = &mut self.places[item as usize];
                let links = place.links();
                place.set_links(Links { prev, ..links });
            }
            None => self.ends[list as usize].last = prev,
        }
    }

    /// A record stands after the last of a list.
    pub(crate) fn attach<C: Visits>(
        &mut self,
        list: u32,
        last: Option<u32>,
        item: u32,
        steps: &mut C,
    )
        requires there { list < vec_len self.old.ends }
        requires taken { IsTakenAt self.old.places.items last }
        ensures places { self.new.places.items
            ≡ next_written last (Some item) self.old.places.items }
        ensures ends { self.new.ends.items
            ≡ last_written list None (Some item)
            (first_written list last (Some item) self.old.ends.items) }
        ensures capacity { vec_capacity self.new.places ≡ vec_capacity self.old.places }
        ensures steps { C.count steps.new ≡ C.count steps.old + if_there last C.weight }
    {
        self.set_next(list, last, Some(item), steps);
        self.ends[list as usize].last = Some(item);
    }

    /// Carries a record from where it stands to the back of a list.
    pub(crate) fn carry<C: Visits>(&mut self, item: u32, from: Links, list: u32, steps: &mut C)
        requires { (free : Option ℕ) × (lists : List (List (ℕ × T)))
            × CanCarry self.old.places.items self.old.ends.items free lists item from list }
        ensures holds { (free : Option ℕ) (lists : List (List (ℕ × T)))
            → (can : CanCarry self.old.places.items self.old.ends.items free lists item from list)
            → Holds self.new.places.items self.new.ends.items free (carried can) }
        ensures count { length self.new.places.items ≡ length self.old.places.items }
        ensures capacity { vec_capacity self.new.places ≡ vec_capacity self.old.places }
        ensures steps { (C.count steps.old + C.weight ≤ C.count steps.new)
            × (C.count steps.new ≤ C.count steps.old + 4 * C.weight) }
    {
        self.set_next(from.list, from.prev, from.next, steps);
        self.set_prev(from.list, from.next, from.prev, steps);
        let last = self.ends[list as usize].last;
        self.set_links(
            item,
            Links {
                list,
                prev: last,
                next: None,
            },
            steps,
        );
        self.attach(list, last, item, steps);
    }
}
