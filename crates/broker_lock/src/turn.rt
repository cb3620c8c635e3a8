//! A turn at the value: it comes out of the table, makes its call, and goes back.
ghost use Rattle.std.specs.Prelude.{◌≡◌, ◌+◌, [], ◌∷◌, None};
ghost use Rattle.broker_lock.specs.Pass.{Does, IsCommandJob, MayCall, done_wrong};
ghost use Rattle.broker_lock.specs.Serves.{TellsWrong};
ghost use Rattle.broker_lock.specs.Turn.{HasTurn, IsIdle, MayGiveBack, raised, rested};

use crate::calls::{Done, Job};
use crate::seat::{GiveBack, OneHistory, RaiseCount, Standing, TakeTurn};
use crate::serves::{Recorded, Serves};
use atomic_table::{Seat, Shared};
use std::hint::spin_loop;
use std::snapshot::Snapshot;
use std::sync::Wait;
use std::sync::atomic::{AtomicU64, Ordering};
use tab_bytes::Buffer;

// The word that says whether the turn is taken: 0 or 1.
const TURN: usize = 0;

/// The word that has the length of the history.
pub const COUNT: usize = 1;

/// The slot that has the value.
pub const VALUE: usize = 0;

// How often a thread looks whether the turn is free before it sleeps. A turn is mostly shorter than
// so many looks, and to sleep and be woken takes longer.
const LOOKS: u32 = 300;

/// The table of a lock, as threads see it.
pub type Table<B> = Shared<Option<B>, Standing, Snapshot<B>, OneHistory>;

/// A seat at it.
pub type Place<B> = Seat<Option<B>, Standing>;

/// Waits for the turn, and takes the value out. `sleepers` counts the threads that may sleep.
pub fn take_turn<B: Recorded, R: Wait>(
    rt: &R,
    table: &Table<B>,
    sleepers: &AtomicU64,
    seat: &mut Place<B>,
) -> B
    requires own { seat.old.table_id ≡ table.now.table_id }
    requires sized { (table.now.table_id.words ≡ 2) × (table.now.table_id.slots ≡ 1) }
    requires idle { IsIdle seat.old.me.0 × (seat.old.me.1 ≡ []) }
    ensures own { seat.new.table_id ≡ seat.old.table_id }
    ensures turn { HasTurn B.history B.fixed B.wrong result seat.old.me.0 seat.new.me.0 }
    ensures out { seat.new.me.1 ≡ (0, None) ∷ [] }
{
    for _ in rt.forever() {
        if table.compare_exchange::<TakeTurn>(seat, TURN, 0, 1) == 0 {
            let Some(value) = table.exchange(seat, VALUE, None) else {
                unreachable!()
            };
            return value;
        }
        wait(rt, table, sleepers);
    }
    unreachable!()
}

// Looks whether the turn is free, and sleeps if it isn't for a while.
fn wait<B: Recorded, R: Wait>(rt: &R, table: &Table<B>, sleepers: &AtomicU64)
    requires sized { table.now.table_id.words ≡ 2 }
{
    for _ in 0..LOOKS {
        if table.peek(TURN) == 0 {
            return;
        }
        spin_loop();
    }
    sleepers.fetch_add(1, Ordering::SeqCst);
    table.park(rt, TURN, 1);
    sleepers.fetch_sub(1, Ordering::SeqCst);
}

/// Puts the value back, says how long its history is, and wakes one that sleeps until the turn is
/// free.
pub fn give_back<B: Recorded>(table: &Table<B>, sleepers: &AtomicU64, seat: &mut Place<B>, value: B)
    requires own { seat.old.table_id ≡ table.now.table_id }
    requires sized { (table.now.table_id.words ≡ 2) × (table.now.table_id.slots ≡ 1) }
    requires out { seat.old.me.1 ≡ (0, None) ∷ [] }
    requires may { MayGiveBack B.history B.fixed B.wrong seat.old.me.0 value }
    ensures own { seat.new.table_id ≡ seat.old.table_id }
    ensures back { seat.new.me ≡ (
      rested (raised seat.old.me.0 (B.history value) (B.wrong value)),
      [],
    ) }
{
    let count = value.entries();
    let nothing = table.exchange(seat, VALUE, Some(value));
    let None = nothing else { unreachable!() };
    table.store::<RaiseCount>(seat, COUNT, count);
    table.store::<GiveBack>(seat, TURN, 0);
    // A thread that is counted later looks at the turn after it was freed here. It sleeps only if
    // another has taken it since, and that one wakes it.
    if sleepers.load(Ordering::SeqCst) > 0 {
        table.wake_one(TURN);
    }
}

/// Makes the call that a job names, and answers as it does.
pub fn make_call<B: Serves>(value: &mut B, job: Job, bytes: &[u8], reply: &mut Buffer) -> Done
    requires { MayCall (B.history value.old) job }
    ensures does { Does (B.fixed value.old) (B.history value.old) job bytes.now
        (B.history value.new) result reply.new }
    ensures fixed { B.fixed value.new ≡ B.fixed value.old }
    ensures wrong { TellsWrong (B.wrong value.old) (B.wrong value.new) (done_wrong result) }
    ensures reply { (IsCommandJob job → ⊥) → reply.new ≡ reply.old }
{
    match job {
        Job::Open => Done::Opened(value.open_client()),
        Job::Command { client, number } => {
            Done::Told(value.command(client, number, bytes, reply))
        }
        Job::Cancel {
            client,
            number,
            upto,
        } => Done::Told(value.cancel(client, number, bytes, upto, reply)),
        Job::Close { client } => Done::Closed(value.close_client(client)),
    }
}
