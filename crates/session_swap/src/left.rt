//! Which sessions were left, in the order in which they were left.
ghost use Rattle.std.specs.Prelude.{◌≡◌, ◌<◌, ◌++◌, ◌∷◌, [], length, slice_get, IfOk};
ghost use Rattle.std.specs.Prelude.{MatchOption};
ghost use Rattle.std.specs.List.{remove};
ghost use Rattle.device_port.specs.Use.{without_one};
ghost use Rattle.tab_spec.specs.declared.TheConstants.{SESSION_NUMBERS};

use std::alloc::{AllocError, Global};
use std::marker::Model;
use tab_spec::SESSION_NUMBERS;

// The first place of a number in a list; `None` if it isn't there.
fn place_of(numbers: &[u8], number: usize) -> Option<usize>
    ensures { MatchOption result (without_one number numbers.now ≡ numbers.now)
        (λ at. (at < length numbers.now)
        × (without_one number numbers.now ≡ remove numbers.now at)) }
{
    for (at, one) in numbers.iter().enumerate() {
        if usize::from(*one) == number {
            return Some(at);
        }
    }
    None
}

/// The numbers of the sessions that clients saved and left, the one that was left longest first.
#[derive(Drop)]
pub struct Left {
    numbers: Vec<u8>,
}

impl Model for Left {
    ghost use Rattle.std.specs.Prelude.{ℕ, List, vec_capacity};
    ghost use Rattle.session_swap.specs.Records.{HasNumberRoom};

    ghost Value = { List ℕ };

    ghost view = { λ l. l.numbers.items };

    ghost invariant = { λ l. HasNumberRoom l.numbers.items (vec_capacity l.numbers) };
}

impl Left {
    /// An empty list, with memory for all 64 numbers.
    pub fn new(alloc: Global) -> Result<Left, AllocError>
        ensures { IfOk result (λ left. left ≡ []) }
    {
        let numbers = Vec::with_capacity(alloc, SESSION_NUMBERS as usize)?;
        Ok(Left { numbers })
    }

    /// How many were left.
    pub fn count(&self) -> u8
        ensures { result ≡ length self.now }
    {
        self.numbers.len() as u8
    }

    /// The session that was left at this place, from 0; `None` if no more were left.
    pub fn at(&self, place: usize) -> Option<usize>
        ensures { result ≡ slice_get self.now place }
    {
        if place < self.numbers.len() {
            Some(usize::from(self.numbers[place]))
        } else {
            None
        }
    }

    /// Adds a session at the end: it was left last.
    pub fn push(&mut self, number: usize)
        requires number { number < SESSION_NUMBERS }
        requires few { length self.old < SESSION_NUMBERS }
        ensures { self.new ≡ self.old ++ number ∷ [] }
    {
        self.numbers.push_reserved(number as u8);
    }

    /// Takes a session off the list, if it is there.
    pub fn remove(&mut self, number: usize)
        ensures { self.new ≡ without_one number self.old }
    {
        if let Some(at) = place_of(&self.numbers, number) {
            self.numbers.remove(at);
        }
    }
}
