//! What the reader of a connection and its worker share, and what either needs to use it. They may
//! be one thread.
ghost use Rattle.std.specs.Prelude.{IfOk};
ghost use Rattle.connection_core.specs.Leaves.{IsFinished};
ghost use Rattle.connection_core.specs.Sides.{IsFreshReaders, IsFreshWorkers, IsReaders, IsWorkers};

use crate::line::{Line, LinePass, SparePass, Spares};
use cancel_words::{CancelWord, WordSeat};
use std::alloc::{AllocError, Global};
use std::sync::Wait;
use std::sync::atomic::{AtomicU64, Ordering};

// What both use at once: the commands on their way, the buffers on their way back, the word that
// cancels commands, and how many messages were counted and not taken up yet.
#[derive(Drop)]
pub(crate) struct Between {
    pub line: Line,
    pub spares: Spares,
    pub word: CancelWord,
    waiting: AtomicU64,
}

// What the reader or the worker needs to use these.
#[derive(Drop)]
pub(crate) struct Side {
    pub pass: LinePass,
    pub spare_pass: SparePass,
    pub seat: WordSeat,
}

impl Between {
    // Makes what both use, the reader's side and the worker's, with few buffers if the reader runs
    // the commands itself. It fails only for want of memory, and takes none later.
    pub fn new<R: Wait>(
        rt: &R,
        alloc: Global,
        alone: bool,
    ) -> Result<(Between, Side, Side), AllocError>
        ensures reader { IfOk result (λ r. IsFreshReaders r.0 r.1) }
        ensures worker { IfOk result (λ r. IsFreshWorkers r.0 r.2) }
    {
        let (line, reader_pass, worker_pass) = Line::new(alloc)?;
        let (spares, reader_spares, worker_spares) = Spares::new(rt, alloc, alone)?;
        let (word, reader_seat, worker_seat) = CancelWord::new(alloc)?;
        let between = Between {
            line,
            spares,
            word,
            waiting: AtomicU64::new(0),
        };
        let reader = Side {
            pass: reader_pass,
            spare_pass: reader_spares,
            seat: reader_seat,
        };
        let worker = Side {
            pass: worker_pass,
            spare_pass: worker_spares,
            seat: worker_seat,
        };
        Ok((between, reader, worker))
    }

    // Counts a message that will be sent, and returns how many waited before it.
    pub fn count_in(&self) -> u64 {
        self.waiting.fetch_add(1, Ordering::SeqCst)
    }

    // Takes off the count a message that was taken up, and returns whether none waits then.
    pub fn count_out(&self) -> bool {
        self.waiting.fetch_sub(1, Ordering::SeqCst) == 1
    }

    // Joins the seats of the two sides, once both are done.
    pub fn finish(&self, reader: Side, worker: Side) -> WordSeat
        requires reader { IsReaders self.now reader }
        requires worker { IsWorkers self.now worker }
        ensures { IsFinished reader worker result }
    {
        self.line.finish(reader.pass, worker.pass);
        self.word.finish(reader.seat, worker.seat)
    }
}
