//! Which servers have nothing to do.
use std::sync::Wait;
use std::sync::atomic::{AtomicBool, AtomicU64, Ordering};

/// How many servers wait to accept, the newest one not counted. No contract speaks of it.
#[derive(Drop)]
pub(crate) struct Idle {
    count: AtomicU64,
}

impl Idle {
    pub fn nobody() -> Idle {
        Idle {
            count: AtomicU64::new(0),
        }
    }

    // Called before a server waits to accept. The newest one waits here until every other one is
    // busy: once it has accepted a connection, a further one is made.
    pub fn begin<R: Wait>(&self, rt: &R, newest: bool) {
        if newest {
            self.wait_for_none(rt);
            return;
        }
        self.count.fetch_add(1, Ordering::SeqCst);
    }

    // Called after a server has accepted one, or knows that none will come.
    pub fn end(&self, newest: bool) {
        if newest {
            return;
        }
        if self.count.fetch_sub(1, Ordering::SeqCst) == 1 {
            self.count.wake_one();
        }
    }

    // A count that only rises wakes nobody: those that it counts are still there.
    fn wait_for_none<R: Wait>(&self, rt: &R) {
        for _ in rt.forever() {
            let count = self.count.load(Ordering::SeqCst);
            if count == 0 {
                return;
            }
            self.count.park(rt, (count & 0xffff_ffff) as u32);
        }
        unreachable!()
    }
}

// After how many connections one server makes room for another that couldn't begin in a thread of
// its own. It doubles each time that no thread can be made.
const PATIENCE: u64 = 64;

/// Whether a further server has begun beside another one. No contract speaks of it.
#[derive(Drop)]
pub(crate) struct Fork {
    begun: AtomicBool,
    // The one that it is beside has ended.
    ended: AtomicBool,
    patience: u64,
}

impl Fork {
    // No further server is to begin.
    pub fn none() -> Fork {
        Fork {
            begun: AtomicBool::new(true),
            ended: AtomicBool::new(false),
            patience: 0,
        }
    }

    // One is to begin, made by one that itself was made so.
    pub fn new(last: &Fork) -> Fork {
        let patience = if last.ended.load(Ordering::SeqCst) {
            last.patience.saturating_mul(2)
        } else {
            PATIENCE
        };
        Fork {
            begun: AtomicBool::new(false),
            ended: AtomicBool::new(false),
            patience,
        }
    }

    pub fn begin(&self) {
        self.begun.store(true, Ordering::SeqCst);
    }

    pub fn end(&self) {
        self.ended.store(true, Ordering::SeqCst);
    }

    // Whether the server beside it, which served so many connections, is to make room for it.
    pub fn is_due(&self, served: u64) -> bool {
        served >= self.patience && !self.begun.load(Ordering::SeqCst)
    }
}
