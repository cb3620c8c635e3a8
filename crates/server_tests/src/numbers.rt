//! What comes of words over a device in memory with too few slots for a broker.
use crate::faults::SCRIPT;
use crate::runs::{AUDITED, Outcome, RUN, ZERO_SEED, outcome_of, source};
use crate::serving::two_links;
use device_memory::MemoryDevice;
use link_port::{MemoryAcceptor, MemorySink, OpenGate};
use std::alloc::{AllocError, Global};
use std::sync::Wait;
use std::test::Fail;
use std::thread::Threads;
use tab_spec::Numbers;

// A few connections at once, and more than are served at once.
const SERVE_FEW: &[&str] = &[
    "serve",
    "--device",
    ZERO_SEED,
    "--socket=x",
    "--connections=2",
];

const SERVE_MANY: &[&str] = &[
    "serve",
    "--device",
    ZERO_SEED,
    "--socket=x",
    "--connections=257",
];

// The profile's, but with one slot less.
const TWO_SLOTS: Numbers = Numbers {
    slots: 2,
    loaded: 3,
    active: 64,
    gap: 255,
};

// What comes of these words over a device of these numbers, where two connections wait.
fn over_two_slots<R: Threads + Wait + Sync>(
    rt: &R,
    alloc: Global,
    words: &[&str],
) -> Result<Outcome, AllocError> {
    let device = MemoryDevice::with_numbers(alloc, [0; 32], TWO_SLOTS, Vec::new(alloc))?;
    let acceptor = MemoryAcceptor::new(two_links(alloc)?, Vec::new(alloc));
    let input = source(alloc, SCRIPT, u64::MAX)?;
    let output = MemorySink::new(alloc, 1000, Vec::new(alloc))?;
    outcome_of(rt, alloc, words, device, acceptor, &OpenGate, input, output)
}

// Startup is sent, and the device is asked for its slots, which is property 0x10E. No line is
// played, and nobody is accepted.
#[test]
fn a_device_with_two_slots_is_not_served(rt: HostRuntime) -> Result<(), Fail> {
    for words in [RUN, AUDITED, SERVE_FEW, SERVE_MANY] {
        let outcome = over_two_slots(&rt, rt.alloc(), words)?;
        assert!(rt; outcome.ended((11, 0x10e), b"", 1000) && outcome.journal.is_none());
        assert!(rt; outcome.sent == 2 && outcome.links.is_empty());
    }
    Ok(())
}
