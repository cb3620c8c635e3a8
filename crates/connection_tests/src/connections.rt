//! Connections over a value in memory: how each ends, what was written, what the history has of it,
//! that it can be canceled, and that its reader reads on while its worker is held.

use crate::book::{ASKED, Book};
use crate::watch::{
    FREE, Least, Plan, Seen, Watch, WatchedBook, WatchedGate, WatchedSink, WatchedSource,
};
use broker_lock::Shared;
use connection_core::{Ending, LinkEnd, serve_link};
use history_spec::EntryKind;
use link_port::{MemorySink, MemorySource, Source};
use std::alloc::{AllocError, Global};
use std::sync::Wait;
use std::test::Fail;
use std::thread::Threads;
use std::time::Clock;

// GetRandom of eight bytes, twice.
pub const TWICE: [u8; 24] = [
    0x80, 0x01, 0, 0, 0, 12, 0, 0, 0x01, 0x7b, 0, 8, 0x80, 0x01, 0, 0, 0, 12, 0, 0, 0x01, 0x7b, 0,
    8,
];

// The same with a cancel frame between them.
const CANCELED: [u8; 34] = [
    0x80, 0x01, 0, 0, 0, 12, 0, 0, 0x01, 0x7b, 0, 8, 0x80, 0x01, 0, 0, 0, 10, 0x20, 0, 0, 1, 0x80,
    0x01, 0, 0, 0, 12, 0, 0, 0x01, 0x7b, 0, 8,
];

// The same with the cancel frame behind them.
const ALL_CANCELED: [u8; 34] = [
    0x80, 0x01, 0, 0, 0, 12, 0, 0, 0x01, 0x7b, 0, 8, 0x80, 0x01, 0, 0, 0, 12, 0, 0, 0x01, 0x7b, 0,
    8, 0x80, 0x01, 0, 0, 0, 10, 0x20, 0, 0, 1,
];

// The first of them, and a frame of nine bytes.
const WRONG_SIZE: [u8; 21] = [
    0x80, 0x01, 0, 0, 0, 12, 0, 0, 0x01, 0x7b, 0, 8, 0x80, 0x01, 0, 0, 0, 9, 0, 0, 0,
];

// A command that the tests' value refuses.
const REFUSED: [u8; 10] = [0x80, 0x01, 0, 0, 0, 10, 0, 0, 0x01, 0x7b];

// What is told of one command that has place 1 in the history, and of a second that has place 2.
const TOLD_ONCE: [u8; 20] = [
    0x80, 0x01, 0, 0, 0, 20, 0, 0, 0, 0, 0, 8, 0, 0, 0, 0, 0, 0, 0, 1,
];

const TOLD_TWICE: [u8; 40] = [
    0x80, 0x01, 0, 0, 0, 20, 0, 0, 0, 0, 0, 8, 0, 0, 0, 0, 0, 0, 0, 1, 0x80, 0x01, 0, 0, 0, 20, 0,
    0, 0, 0, 0, 8, 0, 0, 0, 0, 0, 0, 0, 2,
];

// The first 30 bytes of that.
const CUT_OFF: [u8; 30] = [
    0x80, 0x01, 0, 0, 0, 20, 0, 0, 0, 0, 0, 8, 0, 0, 0, 0, 0, 0, 0, 1, 0x80, 0x01, 0, 0, 0, 20, 0,
    0, 0, 0,
];

// What is told of one command and of a frame of nine bytes.
const TOLD_SIZE: [u8; 30] = [
    0x80, 0x01, 0, 0, 0, 20, 0, 0, 0, 0, 0, 8, 0, 0, 0, 0, 0, 0, 0, 1, 0x80, 0x01, 0, 0, 0, 10, 0,
    0, 0x01, 0x42,
];

// What is told of a canceled command and of one that has place 2, and of two canceled commands.
const TOLD_CANCELED: [u8; 30] = [
    0x80, 0x01, 0, 0, 0, 10, 0, 0, 0x09, 0x09, 0x80, 0x01, 0, 0, 0, 20, 0, 0, 0, 0, 0, 8, 0, 0, 0,
    0, 0, 0, 0, 2,
];

const TOLD_ALL_CANCELED: [u8; 20] = [
    0x80, 0x01, 0, 0, 0, 10, 0, 0, 0x09, 0x09, 0x80, 0x01, 0, 0, 0, 10, 0, 0, 0x09, 0x09,
];

// What is told of a command without room, and of one that the tests' value refuses.
const TOLD_FULL: [u8; 10] = [0x80, 0x01, 0, 0, 0, 10, 0, 0x0b, 0, 0x03];

const TOLD_ANSWER: [u8; 10] = [0x80, 0x01, 0, 0, 0, 10, 0, 0x0b, 0, 0x04];

// What a history has of a connection with no, one and two commands, and with a canceled one and
// two.
const RAN_NONE: [EntryKind; 2] = [EntryKind::Open, EntryKind::Close];

const RAN_ONE: [EntryKind; 3] = [EntryKind::Open, EntryKind::Command, EntryKind::Close];

const RAN_TWO: [EntryKind; 4] = [
    EntryKind::Open,
    EntryKind::Command,
    EntryKind::Command,
    EntryKind::Close,
];

const RAN_LAST: [EntryKind; 4] = [
    EntryKind::Open,
    EntryKind::Canceled(1),
    EntryKind::Command,
    EntryKind::Close,
];

const RAN_NEITHER: [EntryKind; 4] = [
    EntryKind::Open,
    EntryKind::Canceled(2),
    EntryKind::Canceled(2),
    EntryKind::Close,
];

// What the pulls but the first wait for: nothing, the first reply, a sink that is ended, and a gate
// that was asked.
const REPLIED: Least = Least { pushes: 1, ..FREE };

const ENDED: Least = Least { ends: 1, ..FREE };

const ASKED_FOR: Least = Least { asked: 1, ..FREE };

// How many pulls the first command waits for where its worker has it, 16 are in the line, and the
// reader has one more.
const FULL_LINE: u64 = 18;

// A connection: the bytes that come, in these pieces and by this plan, which pulls and pushes fail,
// the room of the sink, the limit of the history, how many pulls the first command waits for, and
// whether the gate says that it is open.
#[derive(Clone, Copy)]
pub struct Setup<'a> {
    pub bytes: &'a [u8],
    pub pieces: &'a [u32],
    pub plan: Plan<'a>,
    pub pulls: &'a [u64],
    pub pushes: &'a [u64],
    pub room: usize,
    pub limit: u32,
    pub ahead: u64,
    pub open: bool,
}

// What has to come of it: how it ends, how many commands were taken up, what was written, and what
// the history has.
#[derive(Clone, Copy)]
struct Want<'a> {
    ending: Ending,
    done: u64,
    told: &'a [u8],
    kinds: &'a [EntryKind],
}

// What came of it.
#[derive(Drop)]
pub struct Outcome {
    pub ending: Ending,
    pub done: u64,
    client: Option<u32>,
    // How many bytes weren't pulled.
    pub left: usize,
    pub written: Vec<u8>,
    pub book: Book,
    seen: Seen,
    // How many pulls the first command waited for.
    ahead: u64,
}

impl Outcome {
    fn is(&self, want: Want) -> bool {
        let client = if want.kinds.is_empty() { None } else { Some(0) };
        self.ending == want.ending
            && self.done == want.done
            && self.client == client
            && self.written.as_slice() == want.told
            && self.book.has_kinds(want.kinds)
            && self.is_orderly()
    }

    // Whether the gate was asked once a command, in order, no pull came while the first command was
    // held, the end of the input was pulled once, and the sink was ended once behind the close, and
    // before it after a failed write or without a client. Whether the gate was told of a wrong
    // answer where there was one, and once where there was no room. And whether nobody waited in
    // vain.
    pub fn is_orderly(&self) -> bool {
        let seen = self.seen;
        let is_early = self.ending == Ending::WriteFault || self.client.is_none();
        let closes = u64::from(self.client.is_some());
        let is_full = matches!(self.ending, Ending::JournalFull { .. })
            || self.written.as_slice() == TOLD_FULL.as_slice();
        seen.full == u64::from(is_full)
            && (seen.wrong > 0) == self.book.is_wrong()
            && seen.asked == self.done
            && seen.in_order
            && seen.ahead == self.ahead
            && seen.dry_pulls <= 1
            && seen.early_ends == u64::from(is_early)
            && seen.late_ends == closes
            && seen.closes == closes
            && !seen.in_vain
    }
}

pub fn serve_given<R: Threads + Wait + Clock + Sync>(
    rt: &R,
    alloc: Global,
    given: Setup,
) -> Result<Outcome, AllocError> {
    let watch = Watch::new(rt, 0);
    let source = WatchedSource {
        source: MemorySource::new(
            given.bytes.to_vec(alloc)?,
            given.pieces.to_vec(alloc)?,
            given.pulls.to_vec(alloc)?,
        ),
        watch: &watch,
        plan: given.plan,
        pieces: 0,
    };
    let sink = WatchedSink {
        sink: MemorySink::new(alloc, given.room, given.pushes.to_vec(alloc)?)?,
        watch: &watch,
    };
    let gate = WatchedGate {
        watch: &watch,
        pulls: given.ahead,
        open: given.open,
    };
    let value = WatchedBook {
        book: Book::new(alloc, given.limit)?,
        watch: &watch,
    };
    let (shared, pass) = match Shared::new(alloc, value) {
        Ok(made) => made,
        Err((error, _)) => return Err(error),
    };
    let LinkEnd {
        mut source,
        sink,
        pass,
        client,
        done,
        ending,
    } = serve_link(rt, alloc, &shared, pass, source, sink, &gate).0;
    let WatchedBook { book, watch: _ } = shared.close(pass);
    Ok(Outcome {
        ending,
        done,
        client,
        left: source.source.pull(&mut [0; 64]).unwrap_or(0),
        written: sink.sink.written().to_vec(alloc)?,
        book,
        seen: watch.seen(),
        ahead: given.ahead,
    })
}

// These bytes, which come in these pieces, over ends that don't fail, where the first command waits
// for so many pulls.
fn over<'a>(bytes: &'a [u8], pieces: &'a [u32], ahead: u64) -> Setup<'a> {
    Setup {
        bytes,
        pieces,
        plan: Plan::Unsaid(FREE),
        pulls: &[],
        pushes: &[],
        room: 1000,
        limit: 1_000_000,
        ahead,
        open: false,
    }
}

#[test]
fn bytes_come_in_whatever_pieces(rt: HostRuntime) -> Result<(), Fail> {
    let end = Ending::EndOfInput;
    let bad = Ending::BadFrame(9);
    let two: Want = Want {
        ending: end,
        done: 2,
        told: &TOLD_TWICE,
        kinds: &RAN_TWO,
    };
    let one: Want = Want {
        ending: end,
        done: 1,
        told: &TOLD_ONCE,
        kinds: &RAN_ONE,
    };
    let none: Want = Want {
        ending: end,
        done: 0,
        told: &[],
        kinds: &RAN_NONE,
    };
    let wrong: Want = Want {
        ending: bad,
        done: 1,
        told: &TOLD_SIZE,
        kinds: &RAN_ONE,
    };
    let refused: Want = Want {
        ending: end,
        done: 1,
        told: &TOLD_ANSWER,
        kinds: &RAN_NONE,
    };
    let rows: [(&[u8], &[u32], Want); 12] = [
        (&TWICE, &[], two),
        (&TWICE, &[12, 12], two),
        (&TWICE, &[1; 24], two),
        (&TWICE, &[5, 3, 16], two),
        (&TWICE, &[13, 11], two),
        (&TWICE, &[11, 1, 6, 5], two),
        (&TWICE[..23], &[], one),
        (&[], &[], none),
        (&WRONG_SIZE, &[], wrong),
        (&WRONG_SIZE, &[12, 9], wrong),
        (&WRONG_SIZE, &[17, 1], wrong),
        (&REFUSED, &[], refused),
    ];
    for (bytes, pieces, want) in rows {
        let outcome = serve_given(&rt, rt.alloc(), over(bytes, pieces, 0))?;
        assert!(rt; outcome.is(want));
    }
    Ok(())
}

// Two commands in two pieces.
#[test]
fn a_read_or_a_write_fails(rt: HostRuntime) -> Result<(), Fail> {
    let read = Ending::ReadFault;
    let write = Ending::WriteFault;
    let rows: [(&[u64], &[u64], usize, Least, Want); 7] = [
        (
            &[0],
            &[],
            1000,
            FREE,
            Want {
                ending: read,
                done: 0,
                told: &[],
                kinds: &RAN_NONE,
            },
        ),
        (
            &[1],
            &[],
            1000,
            FREE,
            Want {
                ending: read,
                done: 1,
                told: &TOLD_ONCE,
                kinds: &RAN_ONE,
            },
        ),
        (
            &[2],
            &[],
            1000,
            FREE,
            Want {
                ending: read,
                done: 2,
                told: &TOLD_TWICE,
                kinds: &RAN_TWO,
            },
        ),
        // The sink is ended at once, and the reader reads on then.
        (
            &[],
            &[0],
            1000,
            ENDED,
            Want {
                ending: write,
                done: 1,
                told: &[],
                kinds: &RAN_ONE,
            },
        ),
        (
            &[],
            &[1],
            1000,
            FREE,
            Want {
                ending: write,
                done: 2,
                told: &TOLD_ONCE,
                kinds: &RAN_TWO,
            },
        ),
        (
            &[],
            &[],
            30,
            FREE,
            Want {
                ending: write,
                done: 2,
                told: &CUT_OFF,
                kinds: &RAN_TWO,
            },
        ),
        // A write fault is told before a read fault.
        (
            &[1],
            &[0],
            1000,
            FREE,
            Want {
                ending: write,
                done: 1,
                told: &[],
                kinds: &RAN_ONE,
            },
        ),
    ];
    for (pulls, pushes, room, least, want) in rows {
        let ends = Setup {
            pulls,
            pushes,
            room,
            plan: Plan::Unsaid(least),
            ..over(&TWICE, &[12, 12], 0)
        };
        let outcome = serve_given(&rt, rt.alloc(), ends)?;
        assert!(rt; outcome.is(want));
    }
    Ok(())
}

#[test]
fn a_history_has_no_room(rt: HostRuntime) -> Result<(), Fail> {
    let full = Ending::JournalFull {
        kept: 0,
        limit: 127,
    };
    let no_client: Want = Want {
        ending: full,
        done: 0,
        told: &[],
        kinds: &[],
    };
    let no_command: Want = Want {
        ending: Ending::EndOfInput,
        done: 1,
        told: &TOLD_FULL,
        kinds: &RAN_NONE,
    };
    for (limit, want, left) in [(127, no_client, 12), (128, no_command, 0)] {
        let small = Setup {
            limit,
            ..over(&ASKED, &[], 0)
        };
        let outcome = serve_given(&rt, rt.alloc(), small)?;
        assert!(rt; outcome.is(want) && outcome.left == left);
    }
    Ok(())
}

#[test]
fn a_cancel_is_about_what_came_before_it(rt: HostRuntime) -> Result<(), Fail> {
    let end = Ending::EndOfInput;
    let last: Want = Want {
        ending: end,
        done: 2,
        told: &TOLD_CANCELED,
        kinds: &RAN_LAST,
    };
    let both: Want = Want {
        ending: end,
        done: 2,
        told: &TOLD_TWICE,
        kinds: &RAN_TWO,
    };
    let neither: Want = Want {
        ending: end,
        done: 2,
        told: &TOLD_ALL_CANCELED,
        kinds: &RAN_NEITHER,
    };
    let rows: [(&[u8], &[u32], u64, Least, Want); 4] = [
        // It comes before its command runs, after it, and while the gate holds it.
        (&CANCELED, &[], 2, REPLIED, last),
        (&CANCELED, &[12, 22], 0, REPLIED, both),
        (&CANCELED, &[12, 22], 3, ASKED_FOR, last),
        (&ALL_CANCELED, &[], 2, REPLIED, neither),
    ];
    for (bytes, pieces, ahead, least, want) in rows {
        let given = Setup {
            plan: Plan::Unsaid(least),
            ..over(bytes, pieces, ahead)
        };
        let outcome = serve_given(&rt, rt.alloc(), given)?;
        assert!(rt; outcome.is(want));
    }
    Ok(())
}

#[test]
fn a_cancel_comes_in_whatever_pieces(rt: HostRuntime) -> Result<(), Fail> {
    let all: [&[u32]; 3] = [&[], &[12, 10, 12], &[20, 3]];
    for pieces in all {
        let outcome = serve_given(&rt, rt.alloc(), over(&CANCELED, pieces, 0))?;
        // The first command was run or canceled.
        let was_run = outcome.book.has_kinds(&RAN_TWO);
        let (told, kinds): (&[u8], &[EntryKind]) = if was_run {
            (&TOLD_TWICE, &RAN_TWO)
        } else {
            (&TOLD_CANCELED, &RAN_LAST)
        };
        let want: Want = Want {
            ending: Ending::EndOfInput,
            done: 2,
            told,
            kinds,
        };
        assert!(rt; outcome.is(want));
    }
    Ok(())
}

// So many commands, each in a piece of its own or all at once, over a sink of this room.
fn serve_often<R: Threads + Wait + Clock + Sync>(
    rt: &R,
    alloc: Global,
    commands: usize,
    piece: u32,
    ahead: u64,
    room: usize,
) -> Result<Outcome, AllocError> {
    let mut bytes = Vec::new(alloc);
    for _ in 0..commands {
        bytes.extend_from_slice(&ASKED)?;
    }
    let pieces = vec![in alloc; piece; commands]?;
    let often = Setup {
        room,
        ..over(&bytes, &pieces, ahead)
    };
    serve_given(rt, alloc, often)
}

#[test]
fn a_reader_reads_on(rt: HostRuntime) -> Result<(), Fail> {
    let end = Ending::EndOfInput;
    let rows = [
        // The line is full while a command is held.
        (17, 12, FULL_LINE, 1000, end, 17, 340),
        // More commands come than wait, and none of them is pulled by then.
        (64, 12, FULL_LINE, 2000, end, 64, 1280),
        (1100, 4096, 0, 22_000, end, 1100, 22_000),
        // A source is read to its end after a write fault.
        (45, 12, 0, 30, Ending::WriteFault, 2, 30),
    ];
    for (commands, piece, ahead, room, ending, done, written) in rows {
        let outcome = serve_often(&rt, rt.alloc(), commands, piece, ahead, room)?;
        let is_served = outcome.ending == ending && outcome.done == done;
        let is_told = outcome.written.len() == written
            && outcome.book.items().len() as u64 == done.saturating_add(2);
        assert!(rt; is_served && is_told && outcome.left == 0 && outcome.is_orderly());
    }
    Ok(())
}
