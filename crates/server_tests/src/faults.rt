//! What comes of runs and workloads where the device, the input or the output fails.
use crate::runs::{AUDITED, Outcome, RUN, ZERO_SEED, outcome_of, source};
use device_memory::MemoryDevice;
use history_spec::EntryKind;
use history_spec::EntryKind::{Close, Command, Fault, Open};
use link_port::{MemoryAcceptor, MemorySink, OpenGate};
use std::alloc::{AllocError, Global};
use std::sync::Wait;
use std::test::Fail;
use std::thread::Threads;

// GetRandom of eight bytes; twice; and behind the first one, in the same piece, a bad size.
const LINE: &[u8] = b"0 80010000000c0000017b0008\n";

pub(crate) const SCRIPT: &[u8] = b"0 80010000000c0000017b0008\n0 80010000000c0000017b0008\n";

const BAD_SIZE: &[u8] = b"0 80010000000c0000017b0008800100000009\n0 80010000000c0000017b0008\n";

// The first line, and then a bad one.
const BAD_LINE: &[u8] = b"0 80010000000c0000017b0008\n0\n";

// The replies to the script over a device in memory with a zero seed, 43 bytes each.
const REPLY: &[u8] = b"0 80010000001400000000000876b8e0ada0f13d90\n";

const REPLIES: &[u8] =
    b"0 80010000001400000000000876b8e0ada0f13d90\n0 800100000014000000000008405d6ae55386bd28\n";

// The first reply, and the audit text of its line.
const WITH_TEXT: &[u8] = b"0 80010000001400000000000876b8e0ada0f13d90\n\
    0 0 open - 0 - -\n\
    0 1 command - 0 80010000000c0000017b0008 80010000001400000000000876b8e0ada0f13d90\n\
    0 0 close - 0 - -\n";

// The replies and the audit text of the script where the first transmission for a client fails.
const WITH_FAULT: &[u8] = b"0 80010000000a000b0002\n\
    0 80010000001400000000000876b8e0ada0f13d90\n\
    0 0 open - 0 - -\n\
    0 1 fault - 1 80010000000c0000017b0008 80010000000a000b0002\n\
    0 2 command - 0 80010000000c0000017b0008 80010000001400000000000876b8e0ada0f13d90\n\
    0 0 close - 0 - -\n";

// A workload of one line, and what is told of it: tools/device_model.py has the same.
const WORKLOAD: &[&str] = &[
    "workload",
    "--device",
    ZERO_SEED,
    "--start=7",
    "--lines=1",
    "--audit",
];

const SUMMARY: &[u8] = b"lines 1 replies 1 ok 0 entries 3 digest \
    78f5f671e467a0e6f810e3a9060fd8a40690eb3ec02fca1fb401afd8ed694021\n\
    0 0 open - 0 - -\n\
    0 1 command - 0 80010000000e0000018903000007 80010000000a00000910\n\
    0 0 close - 0 - -\n";

// The journals of runs in which no line was played, or one or both commands have an entry.
const EMPTY: &[EntryKind] = &[];

const ONE: &[EntryKind] = &[Open, Command, Close];

const BOTH: &[EntryKind] = &[Open, Command, Command, Close];

const FAULT: &[EntryKind] = &[Open, Fault, Command, Close];

// Which call of the device, the input and the output fails, counted from 0, and how much room the
// output has.
#[derive(Clone, Copy)]
pub(crate) struct Ends {
    transmission: u64,
    pull: u64,
    push: u64,
    room: usize,
}

const NEVER: u64 = u64::MAX;

// Ends that don't fail.
pub(crate) const WELL: Ends = Ends {
    transmission: NEVER,
    pull: NEVER,
    push: NEVER,
    room: 1000,
};

// What comes of these words and this script over a device in memory with a zero seed.
pub(crate) fn over<R: Threads + Wait + Sync>(
    rt: &R,
    alloc: Global,
    words: &[&str],
    script: &[u8],
    ends: Ends,
) -> Result<Outcome, AllocError> {
    let device = MemoryDevice::new(alloc, [0; 32], vec![in alloc; ends.transmission]?)?;
    let nobody = MemoryAcceptor::new(Vec::new(alloc), Vec::new(alloc));
    let input = source(alloc, script, ends.pull)?;
    let output = MemorySink::new(alloc, ends.room, vec![in alloc; ends.push]?)?;
    outcome_of(rt, alloc, words, device, nobody, &OpenGate, input, output)
}

#[test]
fn a_source_fails_at_each_call(rt: HostRuntime) -> Result<(), Fail> {
    // Ten bytes come at a pull, and the seventh pull finds the end: the words, the pull that fails,
    // the status and the detail, what is written, and the journal.
    let cases: [(&[&str], u64, (u8, u64), &[u8], &[EntryKind]); 10] = [
        (RUN, 0, (9, 1), b"", EMPTY),
        (RUN, 1, (9, 1), b"", EMPTY),
        (RUN, 2, (9, 1), b"", EMPTY),
        (RUN, 3, (9, 1), REPLY, ONE),
        (RUN, 4, (9, 1), REPLY, ONE),
        (RUN, 5, (9, 1), REPLY, ONE),
        (RUN, 6, (9, 1), REPLIES, BOTH),
        (RUN, 7, (0, 0), REPLIES, BOTH),
        (RUN, 8, (0, 0), REPLIES, BOTH),
        (AUDITED, 3, (9, 1), WITH_TEXT, ONE),
    ];
    for (words, call, told, written, kinds) in cases {
        let outcome = over(&rt, rt.alloc(), words, SCRIPT, Ends { pull: call, ..WELL })?;
        assert!(rt;
            outcome.ended(told, written, 1000) && outcome.has_kinds(kinds),
            "at {call}"
        );
    }
    Ok(())
}

#[test]
fn a_sink_fails_at_each_call(rt: HostRuntime) -> Result<(), Fail> {
    // A reply line is written at one push: the words, the script, the push that fails, the status
    // and the detail, what is written, and the journal. Nothing comes behind a failed push, though
    // there would be room for the text.
    let cases: [(&[&str], &[u8], u64, (u8, u64), &[u8], &[EntryKind]); 7] = [
        (RUN, SCRIPT, 0, (4, 1), b"", ONE),
        (RUN, SCRIPT, 1, (4, 1), REPLY, BOTH),
        (RUN, SCRIPT, 2, (0, 0), REPLIES, BOTH),
        // a bad size that can't be told
        (RUN, BAD_SIZE, 1, (4, 1), REPLY, ONE),
        (AUDITED, SCRIPT, 0, (4, 1), b"", ONE),
        (AUDITED, SCRIPT, 1, (4, 1), REPLY, BOTH),
        (AUDITED, LINE, 1, (4, 1), REPLY, ONE),
    ];
    for (words, script, call, told, written, kinds) in cases {
        let outcome = over(&rt, rt.alloc(), words, script, Ends { push: call, ..WELL })?;
        assert!(rt;
            outcome.ended(told, written, 1000) && outcome.has_kinds(kinds),
            "at {call}"
        );
    }
    Ok(())
}

#[test]
fn an_output_has_too_little_room(rt: HostRuntime) -> Result<(), Fail> {
    // the words, the script, the room, the status and the detail, and what is written where there
    // is room
    let cases: [(&[&str], &[u8], usize, (u8, u64), &[u8]); 14] = [
        // within the second reply, and with it
        (RUN, SCRIPT, 50, (4, 1), REPLIES),
        (RUN, SCRIPT, 86, (0, 0), REPLIES),
        // behind the reply, within the text, before its last byte, and with it
        (AUDITED, LINE, 43, (4, 1), WITH_TEXT),
        (AUDITED, LINE, 44, (4, 1), WITH_TEXT),
        (AUDITED, LINE, 60, (4, 1), WITH_TEXT),
        (AUDITED, LINE, 100, (4, 1), WITH_TEXT),
        (AUDITED, LINE, 159, (4, 1), WITH_TEXT),
        (AUDITED, LINE, 160, (0, 0), WITH_TEXT),
        // status 4 comes in place of that of a bad line
        (AUDITED, BAD_LINE, 50, (4, 1), WITH_TEXT),
        // nothing, within the summary, behind it, and within the text
        (WORKLOAD, b"bad\n", 0, (4, 1), SUMMARY),
        (WORKLOAD, b"bad\n", 1, (4, 1), SUMMARY),
        (WORKLOAD, b"bad\n", 99, (4, 1), SUMMARY),
        (WORKLOAD, b"bad\n", 105, (4, 1), SUMMARY),
        (WORKLOAD, b"bad\n", 130, (4, 1), SUMMARY),
    ];
    for (words, script, bytes, told, whole) in cases {
        let outcome = over(
            &rt,
            rt.alloc(),
            words,
            script,
            Ends {
                room: bytes,
                ..WELL
            },
        )?;
        assert!(rt; outcome.ended(told, whole, bytes), "room {bytes}");
    }
    Ok(())
}

#[test]
fn a_device_fails_once(rt: HostRuntime) -> Result<(), Fail> {
    let first = Ends {
        transmission: 8,
        ..WELL
    };
    let outcome = over(&rt, rt.alloc(), AUDITED, SCRIPT, first)?;
    assert!(rt; outcome.ended((0, 0), WITH_FAULT, 1000) && outcome.has_kinds(FAULT));
    assert_eq!(rt; outcome.sent, 10);
    Ok(())
}

#[test]
fn a_device_fails_at_its_start(rt: HostRuntime) -> Result<(), Fail> {
    // Startup, each of the four numbers, and each of the three lists
    for transmission in 0..8u64 {
        let start = Ends {
            transmission,
            ..WELL
        };
        for words in [RUN, AUDITED, WORKLOAD] {
            let outcome = over(&rt, rt.alloc(), words, SCRIPT, start)?;
            assert!(rt; outcome.ended((6, 1), b"", 1000) && outcome.journal.is_none());
            assert_eq!(rt; outcome.sent, transmission + 1);
        }
    }
    Ok(())
}
