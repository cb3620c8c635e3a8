ghost use Rattle.std.specs.Prelude.{◌≡◌, ◌≤◌, ◌+◌, ◌-◌, ◌++◌, ℕ, List, [], IfOk, drop, length, map};
ghost use Rattle.std.specs.Prelude.{take, vec_capacity};
ghost use Rattle.tab_spec.specs.declared.TheConstants.{SESSION_NUMBERS};
ghost use Rattle.tab_spec.specs.Numbers.{leave_limit};
ghost use Rattle.history_spec.specs.Entry.{without};
ghost use Rattle.world_spec.specs.World.{left_place, saved_numbers, without_places};
ghost use Rattle.plain_machine.specs.Left.{place_in};
ghost use Rattle.plain_machine.specs.Owners.{owners_of};

use crate::sessions::{Owned, leave_place, put_place};
use std::alloc::{AllocError, Global};
use std::marker::Model;
use tab_spec::{SESSION_NUMBERS, leave_limit};

// At most so many sessions are left over any device.
const MOST: usize = 8;

// The numbers of the sessions that were left, in the order in which they were left. There is room
// for those that one client leaves.
#[derive(Drop)]
pub(crate) struct Left {
    numbers: Vec<usize>,
}

impl Model for Left {
    ghost use Rattle.std.specs.Prelude.{◌≤◌, ◌+◌, ℕ, List, length, vec_capacity};
    ghost use Rattle.tab_spec.specs.declared.TheConstants.{SESSION_NUMBERS};

    ghost Value = { List ℕ };

    ghost view = { λ l. l.numbers.items };

    ghost invariant = { λ l. (length l.numbers.items ≤ 8)
        × (8 + SESSION_NUMBERS ≤ vec_capacity l.numbers) };
}

impl Left {
    // No number. It fails only for want of memory.
    pub(crate) fn new(alloc: Global) -> Result<Left, AllocError>
        ensures { IfOk result (λ left. left ≡ []) }
    {
        Ok(Left {
            numbers: Vec::with_capacity(alloc, MOST + SESSION_NUMBERS as usize)?,
        })
    }

    // Takes out this number, if it is there.
    pub(crate) fn take(&mut self, number: usize)
        ensures { self.new ≡ without number self.old }
    {
        let place = place_of(&self.numbers, number);
        if place < self.numbers.len() {
            self.numbers.remove(place);
        }
    }

    // What a client's close leaves: its sessions in use go, those that it saved are the last of the
    // list, and those past the limit go, which were left longest.
    pub(crate) fn close(&mut self, places: &mut [Option<Owned>], client: u32, most: u8)
        requires { length places.old ≤ SESSION_NUMBERS }
        ensures left { let left = self.old ++ saved_numbers client 0 (owners_of places.old) in
            self.new ≡ drop (length left - leave_limit most) left }
        ensures places { let left = self.old ++ saved_numbers client 0 (owners_of places.old) in
            owners_of places.new ≡ without_places (take (length left - leave_limit most) left)
            (map (left_place client) (owners_of places.old)) }
    {
        leave_saved(places, client, &mut self.numbers);
        let gone = self
            .numbers
            .len()
            .saturating_sub(usize::from(leave_limit(most)));
        drop_first(places, &mut self.numbers, gone);
    }
}

// The place of a number; how many there are, where it isn't one of them.
fn place_of(numbers: &[usize], number: usize) -> usize
    ensures { result ≡ place_in numbers.now number }
{
    for (place, one) in numbers.iter().enumerate() {
        if *one == number {
            return place;
        }
    }
    numbers.len()
}

// What a client saved is nobody's, and its numbers are listed; what it had in use is gone.
fn leave_saved(places: &mut [Option<Owned>], client: u32, numbers: &mut Vec<usize>)
    requires { length numbers.old.items + length places.old ≤ vec_capacity numbers.old }
    ensures places { owners_of places.new ≡ map (left_place client) (owners_of places.old) }
    ensures numbers { numbers.new.items
        ≡ numbers.old.items ++ saved_numbers client 0 (owners_of places.old) }
    ensures capacity { vec_capacity numbers.old ≤ vec_capacity numbers.new }
{
    for number in 0..places.len() {
        if leave_place(&mut places[number], client) {
            numbers.push(number).unwrap();
        }
    }
}

// The sessions of the first `gone` numbers go, and these numbers with them.
fn drop_first(places: &mut [Option<Owned>], numbers: &mut Vec<usize>, gone: usize)
    requires { gone ≤ length numbers.old.items }
    ensures places { owners_of places.new
        ≡ without_places (take gone numbers.old.items) (owners_of places.old) }
    ensures numbers { numbers.new.items ≡ drop gone numbers.old.items }
    ensures capacity { vec_capacity numbers.new ≡ vec_capacity numbers.old }
{
    for _ in 0..gone {
        let number = numbers.remove(0);
        put_place(places, number, None);
    }
}
