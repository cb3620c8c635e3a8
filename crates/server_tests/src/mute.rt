//! What comes of words over a device that tells no state, and answers rightly or wrongly.
use crate::faults::SCRIPT;
use crate::runs::{AUDITED, Outcome, RUN, ZERO_SEED, outcome_of, source};
use hidden_device::{Answers, HiddenDevice, respond};
use link_port::{MemoryAcceptor, MemorySink, OpenGate};
use std::alloc::Global;
use std::sync::Wait;
use std::test::Fail;
use std::thread::Threads;
use tab_bytes::Buffer;

// The response that tells that the device had started before.
pub(crate) const STARTED_BEFORE: &[u8] = &[0x80, 0x01, 0, 0, 0, 10, 0, 0, 0x01, 0];

const WORKLOAD: &[&str] = &["workload", "--device", ZERO_SEED, "--start=7", "--lines=20"];

// Two commands in one piece.
const PIECE: &[u8] = b"0 80010000000c0000017b000880010000000c0000017b0008\n";

// CreatePrimary, a close, and a bad line.
const CLOSED: &[u8] = b"\
    0 80020000003900000131400000010000000940000009000000000000040000000000100008000b00040072000000\
    05000b0000000000000000\n\
    0 close\n\
    0\n";

// An authorized success with the handle of an object, which no FlushContext has, and its line.
const CREATED: &[u8] = &[
    0x80, 0x02, 0, 0, 0, 23, 0, 0, 0, 0, 0x80, 0, 0, 0, 0, 0, 0, 0, 0, 0, 1, 0, 0,
];

const CREATED_LINE: &[u8] = b"0 8002000000170000000080000000000000000000010000\n";

// What is written where the device answers the first command wrongly, and then the audit text.
const REFUSED: &[u8] = b"0 80010000000a000b0004\n";

const REFUSED_TEXT: &[u8] = b"0 80010000000a000b0004\n\
    0 0 open - 0 - -\n\
    0 0 close - 0 - -\n";

// What is written where it answers both commands with the code 0x101, and then the audit text.
const ANSWERED_TEXT: &[u8] = b"0 80010000000a00000101\n\
    0 80010000000a00000101\n\
    0 0 open - 0 - -\n\
    0 1 command - 0 80010000000c0000017b0008 80010000000a00000101\n\
    0 2 command - 0 80010000000c0000017b0008 80010000000a00000101\n\
    0 0 close - 0 - -\n";

// The list of no handles.
const NO_HANDLES: [u8; 19] = [
    0x80, 0x01, 0, 0, 0, 19, 0, 0, 0, 0, 0, 0, 0, 0, 1, 0, 0, 0, 0,
];

// The numbers of the profile, in the order in which a device is asked for them.
pub(crate) const NUMBERS: [u8; 4] = [3, 3, 64, 255];

// The responses of a device that tells nothing: it answers Startup, tells these numbers, holds
// nothing, and then answers each command with the same response.
#[derive(Drop)]
pub(crate) struct Responses {
    startup: Buffer,
    numbers: [u8; 4],
    later: Buffer,
}

pub(crate) type Mute = HiddenDevice<Responses>;

// Writes a response over whatever `reply` holds that tells a property: its last octet, and that of
// its value.
fn respond_number(property: u8, value: u8, reply: &mut Buffer) {
    respond(
        &[
            0x80, 0x01, 0, 0, 0, 27, 0, 0, 0, 0, 0, 0, 0, 0, 6, 0, 0, 0, 1, 0, 0, 1, property, 0,
            0, 0, value,
        ],
        reply,
    );
}

impl Answers for Responses {
    fn answer(&mut self, number: u64, _command: &[u8], reply: &mut Buffer) -> bool {
        match number {
            0 => respond(self.startup.as_slice(), reply),
            1 => respond_number(0x0e, self.numbers[0], reply),
            2 => respond_number(0x10, self.numbers[1], reply),
            3 => respond_number(0x11, self.numbers[2], reply),
            4 => respond_number(0x14, self.numbers[3], reply),
            5..=7 => respond(&NO_HANDLES, reply),
            _ => respond(self.later.as_slice(), reply),
        }
        true
    }
}

// A device that tells nothing but these numbers, with these responses to Startup and to each
// command behind the lists.
pub(crate) fn mute_device(
    alloc: Global,
    startup: &[u8],
    numbers: [u8; 4],
    later: &[u8],
) -> Result<Mute, Fail> {
    let mut responses = Responses {
        startup: Buffer::new(alloc)?,
        numbers,
        later: Buffer::new(alloc)?,
    };
    responses.startup.put_bytes(startup)?;
    responses.later.put_bytes(later)?;
    Ok(HiddenDevice::new(responses))
}

// What comes of these words and this script over a device with these responses.
fn over<R: Threads + Wait + Sync>(
    rt: &R,
    alloc: Global,
    words: &[&str],
    script: &[u8],
    startup: &[u8],
    numbers: [u8; 4],
    later: &[u8],
) -> Result<Outcome, Fail> {
    let device = mute_device(alloc, startup, numbers, later)?;
    let nobody = MemoryAcceptor::new(Vec::new(alloc), Vec::new(alloc));
    let input = source(alloc, script, u64::MAX)?;
    let output = MemorySink::new(alloc, 1000, Vec::new(alloc))?;
    Ok(outcome_of(rt, alloc, words, device, nobody, &OpenGate, input, output)?)
}

#[test]
fn a_device_that_tells_nothing(rt: HostRuntime) -> Result<(), Fail> {
    // the words, the script, each later response, the status and the detail, what is written, and
    // how many commands are sent
    let cases: [(&[&str], &[u8], &[u8], (u8, u64), &[u8], u64); 11] = [
        (AUDITED, SCRIPT, &[], (7, 0), REFUSED_TEXT, 9),
        (
            AUDITED,
            SCRIPT,
            &[0x80, 0x01, 0, 0, 0, 9, 0, 0, 1],
            (7, 0),
            REFUSED_TEXT,
            9,
        ),
        (
            AUDITED,
            SCRIPT,
            &[0x80, 0x01, 0, 0, 0, 11, 0, 0, 0x01, 0x23],
            (7, 0x123),
            REFUSED_TEXT,
            9,
        ),
        (
            AUDITED,
            SCRIPT,
            &[0x80, 0x01, 0, 0, 0, 10, 0xFE, 0xDC, 0xBA, 0x98, 0],
            (7, 0xFEDC_BA98),
            REFUSED_TEXT,
            9,
        ),
        (
            AUDITED,
            SCRIPT,
            &[0x80, 0x01, 0, 0, 0, 10, 0, 0, 0x01, 0x01],
            (0, 0),
            ANSWERED_TEXT,
            10,
        ),
        // what tells of an early start is a wrong answer to a later command
        (AUDITED, SCRIPT, STARTED_BEFORE, (7, 0x100), REFUSED_TEXT, 9),
        // no command of a piece is run behind one that was answered wrongly
        (AUDITED, PIECE, &[], (7, 0), REFUSED_TEXT, 9),
        (RUN, SCRIPT, &[], (7, 0), REFUSED, 9),
        (RUN, PIECE, &[], (7, 0), REFUSED, 9),
        // a bad line isn't reached behind a close whose flush was answered wrongly
        (RUN, CLOSED, CREATED, (7, 0), CREATED_LINE, 10),
        // a workload that stops tells nothing
        (WORKLOAD, b"bad\n", &[], (7, 0), b"", 9),
    ];
    for (words, script, later, told, written, sent) in cases {
        let outcome = over(
            &rt,
            rt.alloc(),
            words,
            script,
            STARTED_BEFORE,
            NUMBERS,
            later,
        )?;
        assert!(rt; outcome.ended(told, written, 1000) && outcome.sent == sent);
    }
    Ok(())
}

#[test]
fn a_wrong_answer_to_startup(rt: HostRuntime) -> Result<(), Fail> {
    // each response to Startup, and the detail
    let cases: [(&[u8], u64); 3] = [
        (&[0x80, 0x01, 0, 0, 0, 9, 0, 0, 0], 0),
        (&[0x80, 0x01, 0, 0, 0, 11, 0, 0, 0, 0], 0),
        (&[0x80, 0x01, 0, 0, 0, 10, 0, 0, 0x01, 0x21], 0x121),
    ];
    for (startup, detail) in cases {
        let outcome = over(
            &rt,
            rt.alloc(),
            RUN,
            SCRIPT,
            startup,
            NUMBERS,
            STARTED_BEFORE,
        )?;
        assert!(rt; outcome.ended((7, detail), b"", 1000) && outcome.journal.is_none());
        assert_eq!(rt; outcome.sent, 1);
    }
    Ok(())
}

#[test]
fn a_number_out_of_range(rt: HostRuntime) -> Result<(), Fail> {
    // the numbers, the property that is told, and how many commands are sent
    let cases: [([u8; 4], u64, u64); 7] = [
        ([2, 2, 2, 2], 0x10e, 2),
        ([255, 3, 64, 255], 0x10e, 2),
        ([3, 2, 64, 255], 0x110, 3),
        ([3, 65, 64, 255], 0x110, 3),
        ([3, 4, 3, 255], 0x111, 4),
        ([3, 3, 65, 255], 0x111, 4),
        ([3, 3, 64, 254], 0x114, 5),
    ];
    for (numbers, property, sent) in cases {
        for words in [AUDITED, WORKLOAD] {
            let outcome = over(
                &rt,
                rt.alloc(),
                words,
                SCRIPT,
                STARTED_BEFORE,
                numbers,
                STARTED_BEFORE,
            )?;
            assert!(rt; outcome.ended((11, property), b"", 1000) && outcome.journal.is_none());
            assert_eq!(rt; outcome.sent, sent);
        }
    }
    Ok(())
}
