//! What counts the records that a call visits.
ghost use Rattle.std.specs.Prelude.{◌≡◌, ◌+◌, ◌<◌, ℕ};

use std::marker::Model;
use std::sync::ledger::{Blank, Book, Ledger, Share};

/// How many records were visited. It takes no bytes; only contracts see it.
#[derive(Drop)]
pub struct Steps<L: Ledger> {
    book: Book<L>,
    share: Share<L>,
}

impl<L: Ledger> Model for Steps<L> {
    ghost use Rattle.std.specs.Prelude.{◌<◌, ℕ};

    ghost Value = { ℕ };

    ghost view = { λ s. s.book.total };

    ghost invariant = { λ s. 0 < s.share.parts };
}

impl<L: Ledger> Steps<L> {
    /// No record was visited yet.
    pub fn new(blank: Blank) -> Steps<L>
        requires name { blank.name ≡ L.name }
        requires parts { blank.parts ≡ L.parts }
        requires some { 0 < blank.parts }
        ensures { result ≡ 0 }
    {
        let (book, share) = blank.open::<L>();
        Steps { book, share }
    }

    /// One more record was visited.
    pub fn tick(&mut self)
        ensures { self.new ≡ self.old + 1 }
    {
        self.book.add(&mut self.share, 1);
    }
}

/// How a call visits records: with a count, or without.
pub(crate) trait Visits {
    ghost count: { Self → ℕ };

    /// How much each visit adds to the count.
    ghost weight: { ℕ };

    /// A record is visited.
    fn visit(&mut self)
        ensures { count self.new ≡ count self.old + weight };
}

impl<L: Ledger> Visits for Steps<L> {
    ghost count = { λ s. s };

    ghost weight = { 1 };

    fn visit(&mut self) {
        self.tick();
    }
}

/// Counts nothing.
#[derive(Drop)]
pub(crate) struct Uncounted;

impl Visits for Uncounted {
    ghost count = { λ _. 0 };

    ghost weight = { 0 };

    fn visit(&mut self) {}
}
