ghost use Rattle.std.specs.Prelude.{◌≡◌, ℕ, ◌<◌, ◌≤◌, [], All, IfNone, IfOk, IfSome};
ghost use Rattle.cancel_words.specs.Rule.{word_view};
ghost use Rattle.cancel_words.specs.View.{IsZeroOrRaised, first_reader, first_worker, of_both};
ghost use Rattle.cancel_words.specs.View.{of_reader, of_worker, seat_of_both, with_loaded};
ghost use Rattle.cancel_words.specs.View.{with_raised};

use crate::seat::{BothSeats, Load, OneRaiser, Raise, SeatHistory, Settle, WorkerSeat};
use atomic_table::{Seat, Table};
use std::alloc::{AllocError, Global};
use std::marker::Model;

// The table's one word.
const WORD: usize = 0;

/// A number that the reader of a connection raises and its worker loads, in one thread or in two:
/// the commands up to that number are canceled if they weren't taken up before. A connection's
/// commands are counted from 1 on. A word is seen as its identity.
#[derive(Drop)]
pub struct CancelWord {
    table: Table<(), SeatHistory, (), OneRaiser, Global>,
}

impl Model for CancelWord {
    ghost use Rattle.std.specs.Prelude.{◌≡◌};
    ghost use Rattle.atomic_table.specs.Seated.{TableId};

    ghost Value = { TableId };

    ghost view = { λ w. w.table.shared.table_id };

    ghost invariant = { λ w. w.table.shared.table_id.words ≡ 1 };
}

/// What a thread did with a cancel word: the numbers that it raised the word to, and those that it
/// loaded from it, each in order. A seat has no bytes, and may be dropped at any time.
pub struct WordSeat {
    seat: Seat<(), SeatHistory>,
}

impl Model for WordSeat {
    ghost use Rattle.std.specs.Prelude.{◌≡◌, []};
    ghost use Rattle.cancel_words.specs.Rule.{word_view};
    ghost use Rattle.cancel_words.specs.View.{WordView};

    ghost Value = { WordView };

    ghost view = { λ s. word_view s.seat.table_id s.seat.me.0 };

    ghost invariant = { λ s. s.seat.me.1 ≡ [] };
}

impl Drop for WordSeat {
    fn drop(self) {
        let Self { seat: _ } = self;
    }
}

impl WordSeat {
    fn into_seat(self) -> Seat<(), SeatHistory>
        ensures view { word_view result.table_id result.me.0 ≡ self }
        ensures empty { result.me.1 ≡ [] }
    {
        let Self { seat } = self;
        seat
    }
}

impl CancelWord {
    /// A word that is 0, with the reader's seat and the worker's. It fails where there is no
    /// memory. No other call takes memory.
    pub fn new(alloc: Global) -> Result<(CancelWord, WordSeat, WordSeat), AllocError>
        ensures { IfOk result (λ r. (r.1 ≡ first_reader r.0) × (r.2 ≡ first_worker r.0)) }
    {
        let (table, mut reader) = Table::of_words(alloc, &[0], &())?;
        let worker = table.shared.split_seat::<WorkerSeat>(&mut reader);
        let word = CancelWord { table };
        Ok((word, WordSeat { seat: reader }, WordSeat { seat: worker }))
    }

    /// Cancels the commands up to number `upto`, those that came before a cancel. The seat is the
    /// reader's, and has raised the word no higher so far.
    pub fn raise(&self, seat: &mut WordSeat, upto: u64)
        requires word { seat.old.word ≡ self.now }
        requires role { seat.old.role ≡ of_reader }
        requires rises { All (λ earlier. earlier ≤ upto) seat.old.raised }
        ensures { seat.new ≡ with_raised seat.old upto }
    {
        self.table.shared.store::<Raise>(&mut seat.seat, WORD, upto);
    }

    /// Loads the word once. Where it is at least `number`, the command of that number is canceled,
    /// and the answer is the word. The seat is the worker's.
    pub fn covers(&self, seat: &mut WordSeat, number: u64) -> Option<u64>
        requires word { seat.old.word ≡ self.now }
        requires role { seat.old.role ≡ of_worker }
        ensures some { IfSome result
            (λ word. (number ≤ word) × (seat.new ≡ with_loaded seat.old word)) }
        ensures none { IfNone result
            ((word : ℕ) × (word < number) × (seat.new ≡ with_loaded seat.old word)) }
    {
        let word = self.load(seat);
        if word >= number { Some(word) } else { None }
    }

    /// Makes one seat of the two, once both threads are done. Each number that the worker loaded is
    /// 0 or one that the reader raised the word to.
    pub fn finish(&self, reader: WordSeat, worker: WordSeat) -> WordSeat
        requires words { (reader.word ≡ self.now) × (worker.word ≡ self.now) }
        requires roles { (reader.role ≡ of_reader) × (worker.role ≡ of_worker) }
        ensures both { result ≡ seat_of_both reader worker }
        ensures loaded { All (IsZeroOrRaised result.raised) result.loaded }
    {
        let mut seat = reader;
        self.join(&mut seat, worker);
        self.settle(&mut seat);
        seat
    }

    // Loads the word.
    fn load(&self, seat: &mut WordSeat) -> u64
        requires word { seat.old.word ≡ self.now }
        requires role { seat.old.role ≡ of_worker }
        ensures { seat.new ≡ with_loaded seat.old result }
    {
        self.table.shared.load::<Load>(&mut seat.seat, WORD)
    }

    // Takes the worker's seat into the reader's.
    fn join(&self, seat: &mut WordSeat, ended: WordSeat)
        requires words { (seat.old.word ≡ self.now) × (ended.word ≡ self.now) }
        requires roles { (seat.old.role ≡ of_reader) × (ended.role ≡ of_worker) }
        ensures { seat.new ≡ seat_of_both seat.old ended }
    {
        self.table
            .shared
            .join_seat::<BothSeats>(&mut seat.seat, ended.into_seat());
    }

    // Loads the word once more, for the proof alone: a join shows proofs nothing, and a load shows
    // what the rule says of both.
    fn settle(&self, seat: &mut WordSeat)
        requires word { seat.old.word ≡ self.now }
        requires role { seat.old.role ≡ of_both }
        ensures same { seat.new ≡ seat.old }
        ensures loaded { All (IsZeroOrRaised seat.new.raised) seat.new.loaded }
    {
        self.table.shared.load::<Settle>(&mut seat.seat, WORD);
    }
}
