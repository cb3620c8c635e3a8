//! What `serve` makes of a cancel: one that came before its command was run, and one that came too
//! late. Its ends and its gate wait for one another, so that it comes at the same moment each time.
ghost use Rattle.std.specs.Prelude.{None, Some};

use crate::runs::{Ended, ZERO_SEED, outcome_of, source};
use device_memory::MemoryDevice;
use link_port::{Acceptor, Failed, Gate, MemorySink, MemorySource, Sink, Source};
use std::alloc::{AllocError, Global};
use std::sync::{Condvar, Mutex, Wait};
use std::test::Fail;
use std::thread::Threads;
use std::time::{Clock, Duration};
use tab_server::{Ending, LinkDone};

// GetRandom of eight bytes, a cancel frame, and GetRandom of four bytes.
const STREAM: [u8; 34] = [
    0x80, 0x01, 0, 0, 0, 12, 0, 0, 0x01, 0x7b, 0, 8, 0x80, 0x01, 0, 0, 0, 10, 0x20, 0, 0, 1, 0x80,
    0x01, 0, 0, 0, 12, 0, 0, 0x01, 0x7b, 0, 4,
];

// The replies over a device with the zero seed where the first command is canceled: the second one
// draws the first four bytes of the device.
const CANCELED: [u8; 26] = [
    0x80, 0x01, 0, 0, 0, 10, 0, 0, 0x09, 0x09, 0x80, 0x01, 0, 0, 0, 16, 0, 0, 0, 0, 0, 4, 0x76,
    0xb8, 0xe0, 0xad,
];

// The replies where both are run.
const DRAWN: [u8; 36] = [
    0x80, 0x01, 0, 0, 0, 20, 0, 0, 0, 0, 0, 8, 0x76, 0xb8, 0xe0, 0xad, 0xa0, 0xf1, 0x3d, 0x90,
    0x80, 0x01, 0, 0, 0, 16, 0, 0, 0, 0, 0, 4, 0x40, 0x5d, 0x6a, 0xe5,
];

// What is written at the end of each, and where the audit text is asked for.
const CANCELED_COUNTS: &[u8] = b"links 1 entries 4 commands 1 canceled 1 faults 0\n";

const DRAWN_COUNTS: &[u8] = b"links 1 entries 4 commands 2 canceled 0 faults 0\n";

const CANCELED_TEXT: &[u8] = b"0 0 open - 0 - -\n\
    0 1 canceled:1 - 0 80010000000c0000017b0008 80010000000a00000909\n\
    0 2 command - 0 80010000000c0000017b0004 80010000001000000000000476b8e0ad\n\
    0 0 close - 0 - -\n";

const DRAWN_TEXT: &[u8] = b"0 0 open - 0 - -\n\
    0 1 command - 0 80010000000c0000017b0008 80010000001400000000000876b8e0ada0f13d90\n\
    0 2 command - 0 80010000000c0000017b0004 800100000010000000000004405d6ae5\n\
    0 0 close - 0 - -\n";

// How many seconds somebody waits at most.
const PATIENCE: u64 = 15;

// What was seen: how often the source was pulled from, the gate was asked and the sink was pushed
// to, and whether somebody waited in vain.
#[derive(Clone, Copy)]
struct Seen {
    pulls: u64,
    asked: u64,
    pushes: u64,
    in_vain: bool,
}

// Where this is counted and waited for. The first command waits at the gate for so many pulls. The
// pulls but the first wait until the gate was asked, and those from that number on for a reply.
#[derive(Drop)]
struct Stage<'a, R: Wait + Clock> {
    rt: &'a R,
    seen: Mutex<Seen>,
    more: Condvar,
    command_waits: u64,
    pulls_wait: u64,
}

impl<'a, R: Wait + Clock> Stage<'a, R> {
    fn new(rt: &'a R, command_waits: u64, pulls_wait: u64) -> Stage<'a, R> {
        Stage {
            rt,
            seen: Mutex::new(Seen {
                pulls: 0,
                asked: 0,
                pushes: 0,
                in_vain: false,
            }),
            more: Condvar::new(),
            command_waits,
            pulls_wait,
        }
    }

    // Counts these, and tells how many pulls there are then.
    fn count(&self, pulls: u64, asked: u64, pushes: u64) -> u64 {
        let mut seen = self.seen.lock(self.rt);
        seen.pulls = seen.pulls.saturating_add(pulls);
        seen.asked = seen.asked.saturating_add(asked);
        seen.pushes = seen.pushes.saturating_add(pushes);
        self.more.notify_all();
        seen.pulls
    }

    // Waits until there were so many.
    fn wait_for(&self, pulls: u64, asked: u64, pushes: u64) {
        let seen = self.seen.lock(self.rt);
        let longest = Duration::from_secs(PATIENCE);
        let (mut seen, waited) = self
            .more
            .wait_timeout_while(self.rt, seen, longest, |seen| {
                seen.pulls < pulls || seen.asked < asked || seen.pushes < pushes
            });
        if waited.timed_out() {
            seen.in_vain = true;
        }
    }

    // Whether nobody waited in vain.
    fn has_gone_on(&self) -> bool {
        !self.seen.lock(self.rt).in_vain
    }
}

#[derive(Drop)]
struct StagedGate<'a, R: Wait + Clock + Sync> {
    stage: &'a Stage<'a, R>,
}

impl<R: Wait + Clock + Sync> Gate for StagedGate<'_, R> {
    fn before(&self, _client: u32, number: u64) {
        self.stage.count(0, 1, 0);
        if number == 1 {
            self.stage.wait_for(self.stage.command_waits, 0, 0);
        }
    }
}

#[derive(Drop)]
struct StagedSource<'a, R: Wait + Clock> {
    source: MemorySource,
    stage: &'a Stage<'a, R>,
}

impl<R: Wait + Clock> Source for StagedSource<'_, R> {
    ghost left = { λ s. Some s.source.left };

    ghost faults = { λ s. s.source.faults };

    fn pull(&mut self, into: &mut [u8]) -> Result<usize, Failed> {
        let pulls = self.stage.count(1, 0, 0);
        if pulls > 1 {
            let pushes = u64::from(pulls >= self.stage.pulls_wait);
            self.stage.wait_for(0, 1, pushes);
        }
        self.source.pull(into)
    }

    fn fault_count(&self) -> u64 {
        self.source.fault_count()
    }
}

#[derive(Drop)]
struct StagedSink<'a, R: Wait + Clock> {
    sink: MemorySink,
    stage: &'a Stage<'a, R>,
}

impl<R: Wait + Clock> Sink for StagedSink<'_, R> {
    ghost written = { λ s. Some s.sink.written };

    ghost ended = { λ s. Some s.sink.ended };

    ghost faults = { λ s. s.sink.faults };

    fn push(&mut self, bytes: &[u8]) -> Result<usize, Failed> {
        let pushed = self.sink.push(bytes);
        self.stage.count(0, 0, 1);
        pushed
    }

    fn end(&mut self) {
        self.sink.end();
    }

    fn fault_count(&self) -> u64 {
        self.sink.fault_count()
    }
}

// An acceptor of one connection.
#[derive(Drop)]
struct OneLink<S, K> {
    link: Option<(S, K)>,
}

impl<S: Source + Send + Drop, K: Sink + Send + Drop> Acceptor for OneLink<S, K> {
    type In = S;

    type Out = K;

    ghost coming = { λ _. None };

    ghost faults = { λ _. 0 };

    fn next(&mut self) -> Result<Option<(S, K)>, Failed> {
        Ok(self.link.take())
    }

    fn fault_count(&self) -> u64 {
        0
    }
}

// What the stream comes to where it comes in these pieces: the bytes that the program wrote, the
// replies, and whether it ended well.
#[derive(Drop)]
struct Came {
    output: Vec<u8>,
    replies: Vec<u8>,
    ended_well: bool,
}

// The replies of the one connection, which took up two commands and came to its end.
fn replies_of<S, R: Wait + Clock>(
    alloc: Global,
    links: &[LinkDone<S, StagedSink<'_, R>>],
) -> Result<Vec<u8>, AllocError> {
    match links {
        [link] if link.done == 2 && link.ending == Ending::EndOfInput => {
            link.sink.sink.written().to_vec(alloc)
        }
        _ => Ok(Vec::new(alloc)),
    }
}

// The connection over which the stream comes in these pieces.
fn link_over<'a, R: Wait + Clock>(
    alloc: Global,
    stage: &'a Stage<'a, R>,
    pieces: &[u32],
) -> Result<(StagedSource<'a, R>, StagedSink<'a, R>), AllocError> {
    let source = MemorySource::new(
        STREAM.to_vec(alloc)?,
        pieces.to_vec(alloc)?,
        Vec::new(alloc),
    );
    let sink = MemorySink::new(alloc, 1000, Vec::new(alloc))?;
    Ok((StagedSource { source, stage }, StagedSink { sink, stage }))
}

fn serve_staged<R: Threads + Wait + Clock + Sync>(
    rt: &R,
    alloc: Global,
    words: &[&str],
    pieces: &[u32],
    command_waits: u64,
    pulls_wait: u64,
) -> Result<Came, AllocError> {
    let stage = Stage::new(rt, command_waits, pulls_wait);
    let acceptor = OneLink {
        link: Some(link_over(alloc, &stage, pieces)?),
    };
    let gate = StagedGate { stage: &stage };
    let device = MemoryDevice::new(alloc, [0; 32], Vec::new(alloc))?;
    let input = source(alloc, b"", u64::MAX)?;
    let output = MemorySink::new(alloc, 1000, Vec::new(alloc))?;
    let Ended {
        status,
        detail: _,
        output,
        journal: _,
        sent: _,
        links,
    } = outcome_of(rt, alloc, words, device, acceptor, &gate, input, output)?;
    let replies = replies_of(alloc, &links)?;
    Ok(Came {
        output,
        replies,
        ended_well: status == 0 && stage.has_gone_on(),
    })
}

#[test]
fn a_cancel_comes_in_time_or_too_late(rt: HostRuntime) -> Result<(), Fail> {
    let counts: &[&str] = &[
        "serve",
        "--device",
        ZERO_SEED,
        "--socket=x",
        "--connections=1",
    ];
    let audit: &[&str] = &[
        "serve",
        "--device",
        ZERO_SEED,
        "--socket=x",
        "--connections=1",
        "--audit",
    ];
    // the words, the pieces, how many pulls the first command waits for, from which on they wait
    // for its reply, the replies, and what is written
    let cases: [(&[&str], &[u32], u64, u64, &[u8], &[u8]); 6] = [
        // Before its command is run the cancel comes: with it, behind it, and in two pieces.
        (counts, &[], 2, 2, &CANCELED, CANCELED_COUNTS),
        (audit, &[12, 10], 3, 3, &CANCELED, CANCELED_TEXT),
        (counts, &[12, 5, 17], 4, 4, &CANCELED, CANCELED_COUNTS),
        // It comes when its command was replied to.
        (counts, &[12], 0, 2, &DRAWN, DRAWN_COUNTS),
        (audit, &[12, 10], 0, 2, &DRAWN, DRAWN_TEXT),
        // Its last byte comes then.
        (counts, &[21], 0, 2, &DRAWN, DRAWN_COUNTS),
    ];
    for (words, pieces, command_waits, pulls_wait, replies, written) in cases {
        let came = serve_staged(&rt, rt.alloc(), words, pieces, command_waits, pulls_wait)?;
        assert!(rt; came.ended_well && came.replies.as_slice() == replies);
        assert!(rt; came.output.as_slice() == written);
    }
    Ok(())
}
