//! The ends, the gate and the value of a connection, which count what is asked of them and may wait
//! for one another.

ghost use Rattle.std.specs.Prelude.{None, Some};
ghost use Rattle.tab_spec.specs.declared.contexts.TheConstants.{PROFILE_CONTEXTS};

use crate::book::Book;
use broker_lock::{Closed, OpenClientError, Recorded, Serves, Told};
use link_port::{Failed, Gate, MemorySink, MemorySource, Sink, Source};
use std::sync::{Condvar, Mutex, Wait};
use std::thread;
use std::time::{Clock, Duration};
use tab_bytes::Buffer;

// How long somebody waits at most, in seconds.
const PATIENCE: u64 = 20;

// How long a gate looks for one more pull, in milliseconds.
const LOOK: u64 = 400;

/// How often a source was pulled from, and how often nothing came; how often a sink was pushed to,
/// and ended before and after its client was closed; how often clients were closed, and a gate was
/// asked, and told of a full journal and of a wrong answer. How many pulls there were when the
/// first command was let go, whether the gate was asked for each command of client 0 in turn and
/// told nothing after the end, and whether somebody waited in vain.
#[derive(Clone, Copy)]
pub struct Seen {
    pub pulls: u64,
    pub dry_pulls: u64,
    pub pushes: u64,
    pub early_ends: u64,
    pub late_ends: u64,
    pub closes: u64,
    pub asked: u64,
    pub full: u64,
    pub wrong: u64,
    pub ahead: u64,
    pub in_order: bool,
    pub in_vain: bool,
}

// What is counted.
#[derive(Clone, Copy)]
enum Event {
    Pull,
    DryPull,
    Push,
    End,
    Close,
    Ask { client: u32, number: u64 },
    Full,
    Wrong,
}

impl Seen {
    // With one more of this.
    fn with(self, event: Event) -> Seen {
        let mut now = self;
        match event {
            Event::Pull => now.pulls = now.pulls.saturating_add(1),
            Event::DryPull => now.dry_pulls = now.dry_pulls.saturating_add(1),
            Event::Push => now.pushes = now.pushes.saturating_add(1),
            Event::End if now.closes == 0 => now.early_ends = now.early_ends.saturating_add(1),
            Event::End => now.late_ends = now.late_ends.saturating_add(1),
            Event::Close => now.closes = now.closes.saturating_add(1),
            Event::Ask { client, number } => {
                now.asked = now.asked.saturating_add(1);
                now.in_order = now.in_order && client == 0 && number == now.asked;
            }
            Event::Full => {
                now.full = now.full.saturating_add(1);
                now.in_order = now.in_order && now.late_ends == 0;
            }
            Event::Wrong => {
                now.wrong = now.wrong.saturating_add(1);
                now.in_order = now.in_order && now.late_ends == 0;
            }
        }
        now
    }
}

/// How much there has to be before somebody goes on.
#[derive(Clone, Copy)]
pub struct Least {
    pub pulls: u64,
    pub pushes: u64,
    pub ends: u64,
    pub closes: u64,
    pub asked: u64,
}

/// Nothing is waited for.
pub const FREE: Least = Least {
    pulls: 0,
    pushes: 0,
    ends: 0,
    closes: 0,
    asked: 0,
};

impl Least {
    // Whether some of it is missing.
    fn lacks(self, seen: Seen) -> bool {
        seen.pulls < self.pulls
            || seen.pushes < self.pushes
            || seen.early_ends < self.ends
            || seen.closes < self.closes
            || seen.asked < self.asked
    }
}

/// Where this is counted and waited for, but not for ever.
#[derive(Drop)]
pub struct Watch<'a, R: Wait + Clock> {
    rt: &'a R,
    // How many milliseconds each command takes.
    pause: u64,
    seen: Mutex<Seen>,
    more: Condvar,
}

impl<'a, R: Wait + Clock> Watch<'a, R> {
    pub fn new(rt: &'a R, pause: u64) -> Watch<'a, R> {
        Watch {
            rt,
            pause,
            seen: Mutex::new(Seen {
                pulls: 0,
                dry_pulls: 0,
                pushes: 0,
                early_ends: 0,
                late_ends: 0,
                closes: 0,
                asked: 0,
                full: 0,
                wrong: 0,
                ahead: 0,
                in_order: true,
                in_vain: false,
            }),
            more: Condvar::new(),
        }
    }

    pub fn seen(&self) -> Seen {
        *self.seen.lock(self.rt)
    }

    // Counts this.
    fn count(&self, event: Event) {
        let mut seen = self.seen.lock(self.rt);
        *seen = (*seen).with(event);
        self.more.notify_all();
    }

    /// Waits until there was this much.
    pub fn wait_for(&self, least: Least) {
        let seen = self.seen.lock(self.rt);
        let longest = Duration::from_secs(PATIENCE);
        let (mut seen, waited) = self
            .more
            .wait_timeout_while(self.rt, seen, longest, |seen| least.lacks(*seen));
        if waited.timed_out() {
            seen.in_vain = true;
        }
    }

    // Looks for more pulls than these for a while, and keeps how many there are then.
    fn look_ahead(&self, pulls: u64) {
        let seen = self.seen.lock(self.rt);
        let longest = Duration::from_millis(LOOK);
        let (mut seen, _) = self
            .more
            .wait_timeout_while(self.rt, seen, longest, |seen| seen.pulls <= pulls);
        seen.ahead = seen.pulls;
    }
}

/// When the pieces of a source come.
#[derive(Clone, Copy)]
pub enum Plan<'a> {
    /// It can't be said without waiting. The pulls but the first wait for this much.
    Unsaid(Least),
    /// It can. Piece `i`, counted from 0, comes once there were `pushes[i]` pushes, and past the
    /// list it has come.
    Said { pushes: &'a [u64] },
}

/// A source that is watched, whose pieces come by a plan.
#[derive(Drop)]
pub struct WatchedSource<'a, R: Wait + Clock> {
    pub source: MemorySource,
    pub watch: &'a Watch<'a, R>,
    pub plan: Plan<'a>,
    /// How many pieces were pulled.
    pub pieces: usize,
}

impl<R: Wait + Clock> WatchedSource<'_, R> {
    // How much there has to be before the next piece comes.
    fn next_comes(&self) -> Least {
        match self.plan {
            Plan::Unsaid(least) if self.pieces > 0 => least,
            Plan::Unsaid(_) => FREE,
            Plan::Said { pushes } => Least {
                pushes: pushes.get(self.pieces).copied().unwrap_or(0),
                ..FREE
            },
        }
    }
}

impl<R: Wait + Clock> Source for WatchedSource<'_, R> {
    ghost left = { λ s. Some s.source.left };

    ghost faults = { λ s. s.source.faults };

    fn pull(&mut self, into: &mut [u8]) -> Result<usize, Failed> {
        self.watch.count(Event::Pull);
        self.watch.wait_for(self.next_comes());
        self.pieces = self.pieces.saturating_add(1);
        let pulled = self.source.pull(into);
        if pulled == Ok(0) {
            self.watch.count(Event::DryPull);
        }
        pulled
    }

    fn is_prompt(&self) -> bool {
        matches!(self.plan, Plan::Said { .. })
    }

    fn pull_ready(&mut self, into: &mut [u8]) -> Result<Option<usize>, Failed> {
        if self.next_comes().lacks(self.watch.seen()) {
            return Ok(None);
        }
        match self.pull(into) {
            Ok(count) => Ok(Some(count)),
            Err(failed) => Err(failed),
        }
    }

    fn fault_count(&self) -> u64 {
        self.source.fault_count()
    }
}

/// A sink that is watched.
#[derive(Drop)]
pub struct WatchedSink<'a, R: Wait + Clock> {
    pub sink: MemorySink,
    pub watch: &'a Watch<'a, R>,
}

impl<R: Wait + Clock> Sink for WatchedSink<'_, R> {
    ghost written = { λ s. Some s.sink.written };

    ghost ended = { λ s. Some s.sink.ended };

    ghost faults = { λ s. s.sink.faults };

    fn push(&mut self, bytes: &[u8]) -> Result<usize, Failed> {
        let pushed = self.sink.push(bytes);
        self.watch.count(Event::Push);
        pushed
    }

    fn end(&mut self) {
        self.watch.count(Event::End);
        self.sink.end();
    }

    fn fault_count(&self) -> u64 {
        self.sink.fault_count()
    }
}

/// A gate that holds the first command until there were so many pulls, and then for a while, in
/// which there may be more. At no pulls it doesn't wait, and says so where it is open.
#[derive(Drop)]
pub struct WatchedGate<'a, R: Wait + Clock + Sync> {
    pub watch: &'a Watch<'a, R>,
    pub pulls: u64,
    pub open: bool,
}

impl<R: Wait + Clock + Sync> Gate for WatchedGate<'_, R> {
    fn before(&self, client: u32, number: u64) {
        self.watch.count(Event::Ask { client, number });
        if number == 1 && self.pulls > 0 {
            self.watch.wait_for(Least {
                pulls: self.pulls,
                ..FREE
            });
            self.watch.look_ahead(self.pulls);
        }
    }

    fn is_open(&self) -> bool {
        self.open
    }

    fn journal_full(&self) {
        self.watch.count(Event::Full);
    }

    fn wrong_answer(&self) {
        self.watch.count(Event::Wrong);
    }
}

/// The value of the tests, whose closes are watched and whose commands take a while.
#[derive(Drop)]
pub struct WatchedBook<'a, R: Wait + Clock> {
    pub book: Book,
    pub watch: &'a Watch<'a, R>,
}

impl<R: Wait + Clock> Recorded for WatchedBook<'_, R> {
    ghost history = { λ b. b.book.entries };

    ghost legal = { λ _ _. ⊥ };

    ghost fixed = { λ b. record {
      base = None;
      limit = b.book.limit;
      began = 0;
      contexts = PROFILE_CONTEXTS;
    } };

    ghost wrong = { λ b. b.book.wrong };

    fn entries(&self) -> u64 {
        self.book.entries()
    }
}

impl<R: Wait + Clock> Serves for WatchedBook<'_, R> {
    fn open_client(&mut self) -> Result<u32, OpenClientError> {
        self.book.open_client()
    }

    fn command(&mut self, client: u32, number: u64, bytes: &[u8], reply: &mut Buffer) -> Told {
        if self.watch.pause > 0 {
            thread::sleep(self.watch.rt, Duration::from_millis(self.watch.pause));
        }
        self.book.command(client, number, bytes, reply)
    }

    fn cancel(
        &mut self,
        client: u32,
        number: u64,
        bytes: &[u8],
        upto: u64,
        reply: &mut Buffer,
    ) -> Told {
        self.book.cancel(client, number, bytes, upto, reply)
    }

    fn close_client(&mut self, client: u32) -> Closed {
        self.watch.count(Event::Close);
        self.book.close_client(client)
    }

    fn show_legal(&self) {
        self.book.show_legal();
    }
}
