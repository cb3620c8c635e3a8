//! The program's one call over a device, an input, an output and connections in memory.
ghost use Rattle.broker_core.specs.Broker.{IsAtBase};

use audit_journal::Journal;
use device_port::Device;
use history_spec::EntryKind;
use link_port::{Acceptor, Gate, MemoryAcceptor, MemorySink, MemorySource};
use std::alloc::{AllocError, Global};
use std::sync::Wait;
use std::thread::Threads;
use tab_server::{LinkDone, Ran, tabrmd};

pub(crate) const ZERO_SEED: &str =
    "memory:0000000000000000000000000000000000000000000000000000000000000000";

// The words of a run over a device with that seed, and the same with an audit text.
pub(crate) const RUN: &[&str] = &["run", "--device", ZERO_SEED];

pub(crate) const AUDITED: &[&str] = &["run", "--device", ZERO_SEED, "--audit"];

pub(crate) type Link = LinkDone<MemorySource, MemorySink>;

// What came of words, over connections of this acceptor.
#[derive(Drop)]
pub(crate) struct Ended<A: Acceptor> {
    pub status: u8,
    pub detail: u64,
    pub output: Vec<u8>,
    pub journal: Option<Journal>,
    pub sent: u64,
    pub links: Vec<LinkDone<A::In, A::Out>>,
}

pub(crate) type Outcome = Ended<MemoryAcceptor>;

impl<A: Acceptor> Ended<A> {
    // Whether it ended so, and wrote the front of these bytes that has room.
    pub(crate) fn ended(&self, told: (u8, u64), written: &[u8], room: usize) -> bool {
        let front = &written[..room.min(written.len())];
        self.status == told.0 && self.detail == told.1 && self.output.as_slice() == front
    }

    // Whether there is a journal whose entries are of these kinds, all of the first client.
    pub(crate) fn has_kinds(&self, kinds: &[EntryKind]) -> bool {
        match &self.journal {
            Some(journal) => are_kinds(journal, kinds),
            None => false,
        }
    }
}

fn are_kinds(journal: &Journal, kinds: &[EntryKind]) -> bool {
    for place in 0..kinds.len() {
        let Some(entry) = journal.at(place as u64) else {
            return false;
        };
        if entry.kind != kinds[place] || entry.client != 0 {
            return false;
        }
    }
    journal.len() == kinds.len() as u64
}

// Words as the program is given them.
fn owned_words(alloc: Global, words: &[&str]) -> Result<Vec<String>, AllocError> {
    let mut owned = Vec::new(alloc);
    for word in words {
        owned.push(String::from_str(alloc, word)?)?;
    }
    Ok(owned)
}

// An input of this script, of which ten bytes come at a pull, and which fails at this call.
pub(crate) fn source(alloc: Global, script: &[u8], pull: u64) -> Result<MemorySource, AllocError> {
    let bytes = Vec::from_slice(alloc, script)?;
    Ok(MemorySource::new(bytes, vec![in alloc; 10; 7]?, vec![in alloc; pull]?))
}

// Calls the program with these words.
pub(crate) fn outcome_of<
    D: Device + Send + Drop,
    A: Acceptor + Send + Drop,
    G: Gate,
    R: Threads + Wait + Sync,
>(
    rt: &R,
    alloc: Global,
    words: &[&str],
    device: D,
    acceptor: A,
    gate: &G,
    input: MemorySource,
    output: MemorySink,
) -> Result<Ended<A>, AllocError>
    requires { IsAtBase (D.seen device).base (D.seen device).state }
{
    let words = owned_words(alloc, words)?;
    let (mut acceptor, mut input, mut output) = (acceptor, input, output);
    let Ran {
        status,
        detail,
        device,
        journal,
        links,
        served: _,
    } = tabrmd(
        rt,
        alloc,
        &words,
        device,
        &mut acceptor,
        gate,
        &mut input,
        &mut output,
    );
    Ok(Ended {
        status,
        detail,
        output: Vec::from_slice(alloc, output.written())?,
        journal,
        sent: device.sent_count(),
        links,
    })
}
