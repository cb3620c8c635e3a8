ghost use Rattle.std.specs.Prelude.{◌≡◌, ◌≤◌, ◌-◌, false, [], IfOk, IfErr};
ghost use Rattle.broker_lock.specs.Turn.{IsIdle};
ghost use Rattle.broker_lock.specs.Pass.{Acts, IsCommandJob, Joins, MayAsk, PassEnds, pass_view};

use crate::calls::{Done, Job};
use crate::seat::{AllParts, OneHistory, OnePart, Settle, Standing};
use crate::serves::{Recorded, Serves};
use crate::turn::{COUNT, VALUE, give_back, make_call, take_turn};
use atomic_table::{Refused, Seat, Table};
use std::alloc::{AllocError, Global};
use std::marker::Model;
use std::snapshot::Snapshot;
use std::sync::Wait;
use std::sync::atomic::AtomicU64;
use tab_bytes::Buffer;

/// A value with a history, which threads take turns at. It is seen as its identity.
pub struct Shared<B: Recorded> {
    table: Table<Option<B>, Standing, Snapshot<B>, OneHistory, Global>,
    // How many threads may sleep until the turn is free.
    sleepers: AtomicU64,
}

impl<B: Recorded> Model for Shared<B> {
    ghost use Rattle.std.specs.Prelude.{◌≡◌};
    ghost use Rattle.atomic_table.specs.Seated.{TableId};

    ghost Value = { TableId };

    ghost view = { λ s. s.table.shared.table_id };

    ghost invariant = { λ s. (s.table.shared.table_id.words ≡ 2)
        × (s.table.shared.table_id.slots ≡ 1) };
}

/// What a thread knows of the history: how far it has seen it, and all that it has of some clients,
/// which no other pass of the lock knows. A pass has some of the lock's 1,024 parts, and no bytes.
/// A lock whose pass was dropped can't be closed.
pub struct Pass<B> {
    seat: Seat<Option<B>, Standing>,
}

impl<B> Model for Pass<B> {
    ghost use Rattle.std.specs.Prelude.{◌≡◌, []};
    ghost use Rattle.broker_lock.specs.Pass.{PassView, pass_view};
    ghost use Rattle.broker_lock.specs.Turn.{IsIdle};

    ghost Value = { PassView };

    ghost view = { λ p. pass_view p.seat.table_id p.seat.me.0 };

    ghost invariant = { λ p. IsIdle p.seat.me.0 × (p.seat.me.1 ≡ []) };
}

impl<B> Drop for Pass<B> {
    fn drop(self) {
        let Self { seat: _ } = self;
    }
}

impl<B> Pass<B> {
    fn into_seat(self) -> Seat<Option<B>, Standing>
        ensures view { pass_view result.table_id result.me.0 ≡ self }
        ensures idle { IsIdle result.me.0 × (result.me.1 ≡ []) }
    {
        let Self { seat } = self;
        seat
    }
}

impl<B: Recorded> Shared<B> {
    /// Puts a value with an empty history under a lock of its own. The pass has all parts, and
    /// knows no client. If memory lacks, the value comes back.
    pub fn new(alloc: Global, value: B) -> Result<(Shared<B>, Pass<B>), (AllocError, B)>
        requires empty { B.history value ≡ [] }
        ensures ok { IfOk result (λ r. r.1 ≡ record {
          lock = r.0;
          fixed = B.fixed value;
          front = [];
          known = [];
          parts = 1024;
          wrong = false;
        }) }
        ensures err { IfErr result (λ e. e.1 ≡ value) }
    {
        let Ok(mut slots) = Vec::with_capacity(alloc, 1) else {
            return Err((AllocError, value));
        };
        let about = Snapshot::of(&value);
        slots.push_reserved(Some(value));
        match Table::new(alloc, &[0, 0], slots, &about) {
            Ok((table, seat)) => {
                let sleepers = AtomicU64::new(0);
                Ok((Shared { table, sleepers }, Pass { seat }))
            }
            Err(Refused { mut slots }) => {
                let Some(Some(value)) = slots.pop() else {
                    unreachable!()
                };
                slots.destroy_empty();
                Err((AllocError, value))
            }
        }
    }

    /// A pass with one of the parts, which has seen as much and knows no client.
    pub fn split(&self, pass: &mut Pass<B>) -> Pass<B>
        requires lock { pass.old.lock ≡ self.now }
        requires parts { 2 ≤ pass.old.parts }
        ensures left { pass.new ≡ record pass.old { parts = pass.old.parts - 1 } }
        ensures given { result ≡ record pass.old { known = []; parts = 1 } }
    {
        let seat = self.table.shared.split_seat::<OnePart>(&mut pass.seat);
        Pass { seat }
    }

    /// The pass knows what both know, and has the parts of both.
    pub fn join(&self, pass: &mut Pass<B>, ended: Pass<B>)
        requires lock { pass.old.lock ≡ self.now }
        requires ended { ended.lock ≡ self.now }
        ensures { Joins pass.old ended pass.new }
    {
        let seat = ended.into_seat();
        let table = &self.table.shared;
        table.join_seat::<AllParts>(&mut pass.seat, seat);
        table.load::<Settle>(&mut pass.seat, COUNT);
    }

    /// Takes the value from under the lock, once each other pass was joined to this one.
    pub fn close(self, pass: Pass<B>) -> B
        requires lock { pass.lock ≡ self }
        requires parts { pass.parts ≡ 1024 }
        ensures { PassEnds pass (B.history result) (B.fixed result) (B.wrong result) }
    {
        let Shared { table, sleepers: _ } = self;
        let seat = pass.into_seat();
        let mut closed = table.close_with(seat);
        let Some(value) = closed.take(VALUE) else {
            unreachable!()
        };
        closed.free();
        value
    }
}

impl<B: Serves> Shared<B> {
    /// Waits for its turn, and makes the call that the job names. `bytes` is the command that a job
    /// runs or cancels, and `reply` gets the reply to it. Other jobs use neither. It takes no
    /// memory.
    pub fn act<R: Wait>(
        &self,
        rt: &R,
        pass: &mut Pass<B>,
        job: Job,
        bytes: &[u8],
        reply: &mut Buffer,
    ) -> Done
        requires lock { pass.old.lock ≡ self.now }
        requires may { MayAsk pass.old.known job }
        ensures acts { Acts B.legal pass.old job bytes.now result reply.new pass.new }
        ensures reply { (IsCommandJob job → ⊥) → reply.new ≡ reply.old }
    {
        let mut value = take_turn(rt, &self.table.shared, &self.sleepers, &mut pass.seat);
        let done = make_call(&mut value, job, bytes, reply);
        value.show_legal();
        give_back(&self.table.shared, &self.sleepers, &mut pass.seat, value);
        done
    }
}
