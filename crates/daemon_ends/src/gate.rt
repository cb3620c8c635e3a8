// What the daemon says on standard error while it serves.
use device_link::{LinkFault, Watcher};
use link_port::Gate;
use std::sync::atomic::{AtomicBool, Ordering};
use unix_links::Closer;

/// A gate that is always open. It writes to standard error, each once, that the journal is full and
/// that the device gave a wrong answer. After such an answer no more connections are accepted.
#[derive(Drop)]
pub struct DaemonGate<'a, R> {
    rt: &'a R,
    closer: Closer,
    is_full_told: AtomicBool,
    is_wrong_told: AtomicBool,
}

impl<'a, R> DaemonGate<'a, R> {
    /// A gate that ends the accepting by this closer, and has said nothing yet.
    pub fn new(rt: &'a R, closer: Closer) -> DaemonGate<'a, R> {
        DaemonGate {
            rt,
            closer,
            is_full_told: AtomicBool::new(false),
            is_wrong_told: AtomicBool::new(false),
        }
    }
}

impl<R: Eprint + Sync> Gate for DaemonGate<'_, R> {
    fn before(&self, _client: u32, _number: u64) {}

    fn is_open(&self) -> bool {
        true
    }

    fn journal_full(&self) {
        if !self.is_full_told.swap(true, Ordering::SeqCst) {
            let _ = eprintln!(self.rt; "tabrmd: the journal is full: what has no room is refused");
        }
    }

    fn wrong_answer(&self) {
        // Each thread closes the acceptor, so that none answers its client before that is done.
        self.closer.close();
        if !self.is_wrong_told.swap(true, Ordering::SeqCst) {
            let _ = eprintln!(self.rt;
                "tabrmd: the device gave a wrong answer: nobody more is accepted"
            );
        }
    }
}

/// Writes to standard error why the connection to the device failed.
#[derive(Drop)]
pub struct DaemonWatcher<'a, R> {
    rt: &'a R,
}

impl<'a, R> DaemonWatcher<'a, R> {
    /// A watcher that writes there.
    pub fn new(rt: &'a R) -> DaemonWatcher<'a, R> {
        DaemonWatcher { rt }
    }
}

impl<R: Eprint + Sync> Watcher for DaemonWatcher<'_, R> {
    fn link_failed(&self, fault: LinkFault) {
        let _ = eprintln!(self.rt; "tabrmd: the connection to the device failed: {fault}");
    }
}
