//! The order in which sessions were used and saved, in lists, so that no call walks the records.
ghost use Rattle.std.specs.Prelude.{◌≡◌, ◌≤◌, ◌<◌, ◌+◌, ◌*◌, ◌==◌, ℕ, false, length, slice_get};
ghost use Rattle.std.specs.Prelude.{Some, IfOk, MatchOption, OnOk, OnErr, get_or, [], not};
ghost use Rattle.std.specs.List.{count_by};
ghost use Rattle.device_port.specs.Use.{used_after, without_one};
ghost use Rattle.linked_records.specs.View.{IsListed, first_index, moved};
ghost use Rattle.session_swap.specs.Items.{flag};
ghost use Rattle.session_swap.specs.Records.{HasFirst, names_in, no_order, order_in, order_out};
ghost use Rattle.session_swap.specs.Records.{order_used, order_without};
ghost use Rattle.tab_spec.specs.declared.TheConstants.{SESSION_NUMBERS};

use device_port::SwapError;
use linked_records::{Records, Steps};
use std::alloc::{AllocError, Global};
use std::marker::Model;
use std::sync::ledger::Ledger;
use tab_spec::SESSION_NUMBERS;

// The lists: the numbers that no session has, the loaded sessions, the saved ones.
const UNUSED: u32 = 0;

const LOADED: u32 = 1;

const SAVED: u32 = 2;

/// How the lists are reached: with a count of the records that are visited, or without.
pub trait Visits {
    ghost count: { Self → ℕ };

    /// How much each visit adds to the count.
    ghost weight: { ℕ };

    /// The first of a list.
    fn first(&mut self, lists: &Records<()>, list: u32) -> Option<u32>
        requires { list < length lists.now.lists }
        ensures first { result ≡ first_index (get_or lists.now.lists list []) }
        ensures steps { count self.new ≤ count self.old + 1 }
        ensures rises { count self.old ≤ count self.new }
        ensures counted { MatchOption result (count self.new ≡ count self.old)
            (λ item. count self.old + weight ≤ count self.new) };

    /// A number goes to the back of a list.
    fn carry(&mut self, lists: &mut Records<()>, item: u32, list: u32)
        requires listed { IsListed lists.old.lists item }
        requires there { list < length lists.old.lists }
        ensures lists { (at : IsListed lists.old.lists item)
            → lists.new.lists ≡ moved lists.old.lists item at list }
        ensures steps { count self.new ≤ count self.old + 5 }
        ensures counted { count self.old + 2 * weight ≤ count self.new };
}

impl<L: Ledger> Visits for Steps<L> {
    ghost count = { λ s. s };

    ghost weight = { 1 };

    fn first(&mut self, lists: &Records<()>, list: u32) -> Option<u32> {
        lists.front_counted(list, self)
    }

    fn carry(&mut self, lists: &mut Records<()>, item: u32, list: u32) {
        lists.move_to_counted(item, list, self);
    }
}

/// Counts nothing.
#[derive(Drop)]
pub struct Uncounted;

impl Visits for Uncounted {
    ghost count = { λ _. 0 };

    ghost weight = { 0 };

    fn first(&mut self, lists: &Records<()>, list: u32) -> Option<u32> {
        lists.front(list)
    }

    fn carry(&mut self, lists: &mut Records<()>, item: u32, list: u32) {
        lists.move_to(item, list);
    }
}

// A number goes to the back of a list.
fn carry<C: Visits>(lists: &mut Records<()>, number: usize, list: u32, steps: &mut C)
    requires all { HasFirst SESSION_NUMBERS lists.old.lists }
    requires number { number < SESSION_NUMBERS }
    requires list { list < 3 }
    ensures all { HasFirst SESSION_NUMBERS lists.new.lists }
    ensures back { names_in lists.new.lists list
        ≡ used_after (names_in lists.old.lists list) number }
    ensures others { (other : ℕ) → (other == list) ≡ false
        → names_in lists.new.lists other ≡ without_one number (names_in lists.old.lists other) }
    ensures steps { C.count steps.new ≤ C.count steps.old + 5 }
    ensures counted { C.count steps.old + 2 * C.weight ≤ C.count steps.new }
{
    steps.carry(lists, number as u32, list);
}

/// The number of each session in a list: the loaded ones, the least recently used first, and the
/// saved ones, in the order in which they were saved. So no call walks the records to find one.
#[derive(Drop)]
pub struct Order {
    // The record at an index stands for that number.
    lists: Records<()>,
    // How many are loaded, and how many are saved.
    loaded: u8,
    saved: u8,
}

impl Model for Order {
    ghost use Rattle.session_swap.specs.Records.{AreOrdered, OrderView, order_of};

    ghost Value = { OrderView };

    ghost view = { λ o. order_of o.lists.lists };

    ghost invariant = { λ o. AreOrdered o.lists.lists o.loaded o.saved };
}

impl Order {
    /// The order of no sessions, with memory for all 64 numbers.
    pub fn new(alloc: Global) -> Result<Order, AllocError>
        ensures { IfOk result (λ order. order ≡ no_order) }
    {
        let mut lists = Records::new(alloc, 3)?;
        for _ in 0..SESSION_NUMBERS {
            lists.reserve()?;
            lists.insert_back(UNUSED, ());
        }
        Ok(Order {
            lists,
            loaded: 0,
            saved: 0,
        })
    }

    /// How many sessions are loaded.
    pub fn loaded(&self) -> usize
        ensures { result ≡ length self.now.loaded }
    {
        usize::from(self.loaded)
    }

    /// How many sessions are saved.
    pub fn saved(&self) -> u8
        ensures { result ≡ length self.now.saved }
    {
        self.saved
    }

    /// The loaded session that was used least recently; `None` if none is loaded.
    pub fn first_loaded<C: Visits>(&self, steps: &mut C) -> Option<usize>
        ensures first { result ≡ slice_get self.now.loaded 0 }
        ensures steps { C.count steps.new ≤ C.count steps.old + 1 }
        ensures rises { C.count steps.old ≤ C.count steps.new }
    {
        Some(steps.first(&self.lists, LOADED)? as usize)
    }

    /// The session that was saved first; `None` if none is saved.
    pub fn first_saved<C: Visits>(&self, steps: &mut C) -> Option<usize>
        ensures first { result ≡ slice_get self.now.saved 0 }
        ensures steps { C.count steps.new ≤ C.count steps.old + 1 }
        ensures rises { C.count steps.old ≤ C.count steps.new }
        ensures counted { MatchOption result (C.count steps.new ≡ C.count steps.old)
            (λ number. C.count steps.old + C.weight ≤ C.count steps.new) }
    {
        Some(steps.first(&self.lists, SAVED)? as usize)
    }

    /// The loaded session that was used next after this one; `None` if this one was used last.
    pub fn next_loaded(&self, number: usize) -> Option<usize>
        requires { (at : ℕ) × (slice_get self.now.loaded at ≡ Some number) }
        ensures { (at : ℕ) → slice_get self.now.loaded at ≡ Some number
            → result ≡ slice_get self.now.loaded (at + 1) }
    {
        Some(self.lists.next(number as u32)? as usize)
    }

    /// Adds a session that starts. It was used last.
    pub fn start(&mut self, number: usize)
        requires number { number < SESSION_NUMBERS }
        requires none { (count_by (λ one. one == number) self.old.loaded ≡ 0)
            × (count_by (λ one. one == number) self.old.saved ≡ 0) }
        ensures { self.new ≡ order_in number self.old }
    {
        carry(&mut self.lists, number, LOADED, &mut Uncounted);
        self.loaded += 1;
    }

    /// Moves a loaded session to the end: it was used last.
    pub fn use_again(&mut self, number: usize)
        requires { count_by (λ one. one == number) self.old.loaded ≡ 1 }
        ensures { self.new ≡ order_used number self.old }
    {
        carry(&mut self.lists, number, LOADED, &mut Uncounted);
    }

    /// Moves a loaded session to the saved ones: it was saved last.
    pub fn move_out<C: Visits>(&mut self, number: usize, steps: &mut C)
        requires { count_by (λ one. one == number) self.old.loaded ≡ 1 }
        ensures order { self.new ≡ order_out number self.old }
        ensures steps { C.count steps.new ≤ C.count steps.old + 5 }
        ensures counted { C.count steps.old + 2 * C.weight ≤ C.count steps.new }
    {
        carry(&mut self.lists, number, SAVED, steps);
        self.loaded -= 1;
        self.saved += 1;
    }

    /// Moves a saved session to the loaded ones: it was used last.
    pub fn move_in<C: Visits>(&mut self, number: usize, steps: &mut C)
        requires { count_by (λ one. one == number) self.old.saved ≡ 1 }
        ensures order { self.new ≡ order_in number self.old }
        ensures steps { C.count steps.new ≤ C.count steps.old + 5 }
        ensures counted { C.count steps.old + 2 * C.weight ≤ C.count steps.new }
    {
        carry(&mut self.lists, number, LOADED, steps);
        self.loaded += 1;
        self.saved -= 1;
    }

    /// Removes a session that ends, loaded or saved.
    pub fn end(&mut self, number: usize, is_loaded: bool)
        requires loaded { count_by (λ one. one == number) self.old.loaded ≡ flag is_loaded }
        requires saved { count_by (λ one. one == number) self.old.saved ≡ flag (not is_loaded) }
        ensures { self.new ≡ order_without number self.old }
    {
        carry(&mut self.lists, number, UNUSED, &mut Uncounted);
        if is_loaded {
            self.loaded -= 1;
        } else {
            self.saved -= 1;
        }
    }
}

/// A loaded session is listed as saved, where it was.
pub fn list_saved<C: Visits>(
    order: &mut Order,
    number: usize,
    saved: &Result<(), SwapError>,
    steps: &mut C,
)
    requires { count_by (λ one. one == number) order.old.loaded ≡ 1 }
    ensures ok { OnOk saved.now (order.new ≡ order_out number order.old) }
    ensures err { OnErr saved.now (order.new ≡ order.old) }
    ensures steps { C.count steps.new ≤ C.count steps.old + 5 }
    ensures rises { C.count steps.old ≤ C.count steps.new }
    ensures counted { OnOk saved.now (C.count steps.old + 2 * C.weight ≤ C.count steps.new) }
{
    if saved.is_err() {
        return;
    }
    order.move_out(number, steps);
}
