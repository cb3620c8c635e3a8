//! A seat at a cancel word's table: what it did, the rule of the table, and what each step tells.
use atomic_table::{Join, Play, Split, TableRule};
use std::marker::{Model, PhantomData};

/// What a seat did. No value of it is made.
pub struct SeatHistory {
    of: PhantomData<()>,
}

impl Model for SeatHistory {
    ghost use Rattle.cancel_words.specs.Rule.{WordSeatView, blank_seat};

    ghost Value = { WordSeatView };

    ghost view = { λ _. blank_seat };
}

/// The rule of the table.
pub struct OneRaiser;

impl TableRule<(), SeatHistory, ()> for OneRaiser {
    ghost use Rattle.cancel_words.specs.Rule.{HasOneRaiser, first_seat};

    ghost holds = { λ key. HasOneRaiser };

    ghost first = { λ key. first_seat };
}

/// The word is raised to a number.
pub struct Raise;

impl Play<(), SeatHistory> for Raise {
    ghost use Rattle.cancel_words.specs.Rule.{raises};

    ghost then = { raises };
}

/// The word is loaded.
pub struct Load;

impl Play<(), SeatHistory> for Load {
    ghost use Rattle.cancel_words.specs.Rule.{loads};

    ghost then = { loads };
}

/// A joined seat loads the word, keeps nothing of it, and learns what the rule says.
pub struct Settle;

impl Play<(), SeatHistory> for Settle {
    ghost use Rattle.cancel_words.specs.Rule.{settles};

    ghost then = { settles };
}

/// The worker's seat is split from the reader's.
pub struct WorkerSeat;

impl Split<SeatHistory> for WorkerSeat {
    ghost use Rattle.cancel_words.specs.Rule.{blank_seat};

    ghost left = { λ v. v };

    ghost right = { λ _. blank_seat };
}

/// The reader's seat takes in the worker's.
pub struct BothSeats;

impl Join<SeatHistory> for BothSeats {
    ghost use Rattle.cancel_words.specs.Rule.{blank_seat, joined_seat};

    ghost both = { joined_seat };

    ghost spent = { blank_seat };
}
