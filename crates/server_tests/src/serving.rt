//! What `serve` makes of connections that an acceptor in memory hands out.
use crate::mute::{NUMBERS, STARTED_BEFORE, mute_device};
use crate::runs::{Link, Outcome, ZERO_SEED, outcome_of, source};
use audit_journal::Journal;
use device_memory::MemoryDevice;
use history_spec::EntryKind;
use link_port::{Gate, MemoryAcceptor, MemorySink, MemorySource, OpenGate};
use std::alloc::{AllocError, Global};
use std::sync::{Condvar, Mutex, Wait};
use std::test::Fail;
use std::thread::Threads;
use std::time::{Clock, Duration};
use tab_server::Ending;
use tab_wire::response_handle;

type Ends = (MemorySource, MemorySink);

// GetRandom of eight bytes.
const ONCE: [u8; 12] = [0x80, 0x01, 0, 0, 0, 12, 0, 0, 0x01, 0x7b, 0, 8];

const TWICE: [u8; 24] = [
    0x80, 0x01, 0, 0, 0, 12, 0, 0, 0x01, 0x7b, 0, 8, 0x80, 0x01, 0, 0, 0, 12, 0, 0, 0x01, 0x7b, 0,
    8,
];

// Its first three responses over a device with the zero seed.
const DRAWN: [[u8; 20]; 3] = [
    [
        0x80, 0x01, 0, 0, 0, 20, 0, 0, 0, 0, 0, 8, 0x76, 0xb8, 0xe0, 0xad, 0xa0, 0xf1, 0x3d, 0x90,
    ],
    [
        0x80, 0x01, 0, 0, 0, 20, 0, 0, 0, 0, 0, 8, 0x40, 0x5d, 0x6a, 0xe5, 0x53, 0x86, 0xbd, 0x28,
    ],
    [
        0x80, 0x01, 0, 0, 0, 20, 0, 0, 0, 0, 0, 8, 0xbd, 0xd2, 0x19, 0xb8, 0xa0, 0x8d, 0xed, 0x1a,
    ],
];

// StartAuthSession of an HMAC session, with a nonce of 32 zeros, and GetRandom of eight bytes.
const START_AND_DRAW: [u8; 71] = [
    0x80, 0x01, 0, 0, 0, 0x3b, 0, 0, 0x01, 0x76, 0x40, 0, 0, 0x07, 0x40, 0, 0, 0x07, 0, 0x20, 0, 0,
    0, 0, 0, 0, 0, 0, 0, 0, 0, 0, 0, 0, 0, 0, 0, 0, 0, 0, 0, 0, 0, 0, 0, 0, 0, 0, 0, 0, 0, 0, 0, 0,
    0, 0, 0x10, 0, 0x0b, 0x80, 0x01, 0, 0, 0, 12, 0, 0, 0x01, 0x7b, 0, 8,
];

// The response to the first where it is the first command to a device with the zero seed.
const FIRST_STARTED: [u8; 48] = [
    0x80, 0x01, 0, 0, 0, 0x30, 0, 0, 0, 0, 0x02, 0, 0, 0, 0, 0x20, 0x76, 0xb8, 0xe0, 0xad, 0xa0,
    0xf1, 0x3d, 0x90, 0x40, 0x5d, 0x6a, 0xe5, 0x53, 0x86, 0xbd, 0x28, 0xbd, 0xd2, 0x19, 0xb8, 0xa0,
    0x8d, 0xed, 0x1a, 0xa8, 0x36, 0xef, 0xcc, 0x8b, 0x77, 0x0d, 0xc7,
];

// The handle of the first HMAC session.
const FIRST_SESSION: u32 = 0x0200_0000;

// The response that tells that the device has started.
const STARTED: [u8; 10] = [0x80, 0x01, 0, 0, 0, 10, 0, 0, 0, 0];

// What is written at the end, by how many connections were served, and where the only command
// failed.
const BOTH_SERVED: &[u8] = b"links 2 entries 7 commands 3 canceled 0 faults 0\n";

const ONE_SERVED: &[u8] = b"links 1 entries 3 commands 1 canceled 0 faults 0\n";

const NONE_SERVED: &[u8] = b"links 0 entries 0 commands 0 canceled 0 faults 0\n";

const ONE_FAILED: &[u8] = b"links 1 entries 3 commands 0 canceled 0 faults 1\n";

const NEVER: u64 = u64::MAX;

// How many seconds a gate holds a command at most: far longer than the other commands take to come,
// and well within a test's time.
const PATIENCE: u64 = 15;

// A connection over which these bytes come, in these pieces.
fn link_of(alloc: Global, bytes: &[u8], pieces: Vec<u32>) -> Result<Ends, AllocError> {
    let source = MemorySource::new(bytes.to_vec(alloc)?, pieces, Vec::new(alloc));
    Ok((source, MemorySink::new(alloc, 1000, Vec::new(alloc))?))
}

// Two connections: over one a command comes in twelve pieces, and over the other two in one piece.
pub(crate) fn two_links(alloc: Global) -> Result<Vec<Ends>, AllocError> {
    let one = link_of(alloc, &ONCE, vec![in alloc; 1; 12]?)?;
    let other = link_of(alloc, &TWICE, Vec::new(alloc))?;
    Ok(vec![in alloc; one, other]?)
}

// Whether a connection was written just the replies of its client's entries, took up so many
// commands, and came to its end.
fn is_whole(journal: &Journal, link: &Link, commands: u64) -> bool {
    let Some(client) = link.client else {
        return false;
    };
    let mut rest = link.sink.written();
    for place in 0..journal.len() {
        let Some(entry) = journal.at(place) else {
            return false;
        };
        if entry.client == client {
            let Some(more) = rest.strip_prefix(entry.reply) else {
                return false;
            };
            rest = more;
        }
    }
    rest.is_empty() && link.done == commands && link.ending == Ending::EndOfInput
}

// Whether the connections took up so many commands each, in their order, and were written the
// replies of their entries. Without a journal there is no connection.
fn are_whole(outcome: &Outcome, commands: &[u64]) -> bool {
    let links = outcome.links.as_slice();
    let Some(journal) = outcome.journal.as_ref() else {
        return links.is_empty();
    };
    for place in 0..links.len() {
        let Some(count) = commands.get(place) else {
            return false;
        };
        if !is_whole(journal, &links[place], *count) {
            return false;
        }
    }
    links.len() == commands.len()
}

// Whether two connections have clients of their own.
fn have_clients(links: &[Link]) -> bool {
    match links {
        [one, other] => one.client != other.client,
        _ => true,
    }
}

// Whether the commands in a journal were told the first responses of the device, in their order.
fn are_drawn(outcome: &Outcome) -> bool {
    let mut rest = DRAWN.as_slice();
    let Some(journal) = outcome.journal.as_ref() else {
        return true;
    };
    for place in 0..journal.len() {
        let Some(entry) = journal.at(place) else {
            return false;
        };
        if entry.kind == EntryKind::Command {
            let Some((reply, more)) = rest.split_first() else {
                return false;
            };
            if entry.reply != reply.as_slice() {
                return false;
            }
            rest = more;
        }
    }
    true
}

// Serves up to so many connections over a device with the zero seed, which fails at this
// transmission, by an acceptor that fails at this call, with so much room for the output.
fn serve<G: Gate, R: Threads + Wait + Sync>(
    rt: &R,
    alloc: Global,
    most: &str,
    links: Vec<Ends>,
    gate: &G,
    failing: (u64, u64),
    room: usize,
) -> Result<Outcome, AllocError> {
    let words = [
        "serve",
        "--device",
        ZERO_SEED,
        "--socket=x",
        "--connections",
        most,
    ];
    let device = MemoryDevice::new(alloc, [0; 32], vec![in alloc; failing.0]?)?;
    let acceptor = MemoryAcceptor::new(links, vec![in alloc; failing.1]?);
    let input = source(alloc, b"", NEVER)?;
    let output = MemorySink::new(alloc, room, Vec::new(alloc))?;
    outcome_of(rt, alloc, &words, device, acceptor, gate, input, output)
}

#[test]
fn connections_are_served(rt: HostRuntime) -> Result<(), Fail> {
    // how many connections come and how many are served at most, the transmission and the call of
    // the acceptor that fail, the room, the status and the detail, what is written where there is
    // room, and how many commands each connection took up
    let cases: [(usize, &str, (u64, u64), usize, (u8, u64), &[u8], &[u64]); 13] = [
        (2, "2", (NEVER, NEVER), 1000, (0, 0), BOTH_SERVED, &[1, 2]),
        (2, "3", (NEVER, NEVER), 1000, (0, 0), BOTH_SERVED, &[1, 2]),
        // no more than asked for
        (2, "1", (NEVER, NEVER), 1000, (0, 0), ONE_SERVED, &[1]),
        (0, "2", (NEVER, NEVER), 1000, (0, 0), NONE_SERVED, &[]),
        // the acceptor fails behind a connection, the output fails, and both
        (2, "2", (NEVER, 1), 1000, (3, 1), ONE_SERVED, &[1]),
        (2, "2", (NEVER, NEVER), 9, (4, 1), BOTH_SERVED, &[1, 2]),
        (2, "2", (NEVER, 0), 9, (3, 1), NONE_SERVED, &[]),
        // the device fails at the only command
        (1, "1", (8, NEVER), 1000, (0, 0), ONE_FAILED, &[1]),
        // the device fails at its start: nobody is accepted, and nothing is written
        (2, "2", (7, NEVER), 1000, (6, 1), b"", &[]),
        // where more are asked for nothing is kept of them
        (
            2,
            "4294967295",
            (NEVER, NEVER),
            1000,
            (0, 0),
            BOTH_SERVED,
            &[],
        ),
        (2, "257", (NEVER, 1), 1000, (3, 1), ONE_SERVED, &[]),
        (2, "257", (NEVER, NEVER), 9, (4, 1), BOTH_SERVED, &[]),
        (2, "257", (0, NEVER), 1000, (6, 1), b"", &[]),
    ];
    for (count, most, failing, room, told, written, commands) in cases {
        let mut links = two_links(rt.alloc())?;
        links.truncate(count);
        let outcome = serve(&rt, rt.alloc(), most, links, &OpenGate, failing, room)?;
        assert!(rt; outcome.ended(told, written, room) && are_whole(&outcome, commands));
        assert!(rt; have_clients(&outcome.links) && are_drawn(&outcome));
    }
    Ok(())
}

// Serves one connection over which GetRandom comes once, over a device that tells no state, with
// these responses to Startup and to GetRandom, by an acceptor that fails at this call.
fn serve_mute<R: Threads + Wait + Sync>(
    rt: &R,
    alloc: Global,
    startup: &[u8],
    later: &[u8],
    failing: u64,
) -> Result<Outcome, Fail> {
    let words = [
        "serve",
        "--device",
        ZERO_SEED,
        "--socket=x",
        "--connections=2",
    ];
    let device = mute_device(alloc, startup, NUMBERS, later)?;
    let link = link_of(alloc, &ONCE, Vec::new(alloc))?;
    let acceptor = MemoryAcceptor::new(vec![in alloc; link]?, vec![in alloc; failing]?);
    let input = source(alloc, b"", NEVER)?;
    let output = MemorySink::new(alloc, 1000, Vec::new(alloc))?;
    Ok(outcome_of(
        rt, alloc, &words, device, acceptor, &OpenGate, input, output,
    )?)
}

// Whether the one connection took up one command, came to its end, and was written this.
fn was_told(outcome: &Outcome, written: &[u8]) -> bool {
    let [link] = outcome.links.as_slice() else {
        return false;
    };
    link.done == 1 && link.ending == Ending::EndOfInput && link.sink.written() == written
}

#[test]
fn a_device_that_tells_no_state(rt: HostRuntime) -> Result<(), Fail> {
    let drawn = [
        0x80, 0x01, 0, 0, 0, 20, 0, 0, 0, 0, 0, 8, 1, 2, 3, 4, 5, 6, 7, 8,
    ];
    let outcome = serve_mute(&rt, rt.alloc(), &STARTED, &drawn, NEVER)?;
    assert!(rt; outcome.ended((0, 0), ONE_SERVED, 1000) && are_whole(&outcome, &[1]));
    assert!(rt; was_told(&outcome, &drawn));
    Ok(())
}

// The device answers the first command wrongly, and the acceptor fails, too: the status is that of
// the answer. The client is told that the command failed.
#[test]
fn a_wrong_answer_goes_before_a_failed_acceptor(rt: HostRuntime) -> Result<(), Fail> {
    let outcome = serve_mute(&rt, rt.alloc(), STARTED_BEFORE, STARTED_BEFORE, 1)?;
    let written = b"links 1 entries 2 commands 0 canceled 0 faults 0\n";
    assert!(rt; outcome.ended((7, 0x100), written, 1000));
    assert!(rt; was_told(&outcome, &[0x80, 0x01, 0, 0, 0, 10, 0, 0x0b, 0, 0x04]));
    Ok(())
}

// What a gate was asked for, the client and the number of each command, and whether somebody waited
// in vain.
#[derive(Drop)]
struct Asked {
    commands: Vec<(u32, u64)>,
    in_vain: bool,
}

// A gate that holds each second command until it was asked for four, but not for ever.
#[derive(Drop)]
struct MeetingGate<'a, R: Wait + Clock + Sync> {
    rt: &'a R,
    asked: Mutex<Asked>,
    more: Condvar,
}

impl<R: Wait + Clock + Sync> Gate for MeetingGate<'_, R> {
    fn before(&self, client: u32, number: u64) {
        let mut asked = self.asked.lock(self.rt);
        let _ = asked.commands.push((client, number));
        self.more.notify_all();
        if number == 2 {
            let longest = Duration::from_secs(PATIENCE);
            let (mut asked, waited) = self
                .more
                .wait_timeout_while(self.rt, asked, longest, |asked| asked.commands.len() < 4);
            if waited.timed_out() {
                asked.in_vain = true;
            }
        }
    }
}

// Whether a gate was asked just for two commands of this client, one after the other.
fn were_asked(asked: &Asked, client: Option<u32>) -> bool {
    let mut count: u64 = 0;
    for (asked_client, number) in &asked.commands {
        if client == Some(*asked_client) {
            count = count.saturating_add(1);
            if *number != count {
                return false;
            }
        }
    }
    count == 2
}

// Whether a gate was asked just for two commands of each connection, and nobody waited in vain.
fn asked_for_each(asked: &Asked, links: &[Link]) -> bool {
    let [one, other] = links else {
        return false;
    };
    !asked.in_vain
        && asked.commands.len() == 4
        && were_asked(asked, one.client)
        && were_asked(asked, other.client)
}

// Whether the sessions that a journal's clients started have the numbers from 0 on, in the order of
// the entries, and the first one is what a device with the zero seed makes of it.
fn numbers_rise(journal: &Journal, count: u32) -> bool {
    let mut next = FIRST_SESSION;
    for place in 0..journal.len() {
        let Some(entry) = journal.at(place) else {
            return false;
        };
        if entry.kind == EntryKind::Command && entry.number == 1 {
            if response_handle(entry.reply) != Some(next) {
                return false;
            }
            if next == FIRST_SESSION && entry.reply != FIRST_STARTED.as_slice() {
                return false;
            }
            next = next.saturating_add(1);
        }
    }
    next == FIRST_SESSION.saturating_add(count)
}

// Each client starts a session, and then draws. The draws come when both sessions were answered.
// One thread for both connections would wait in vain here.
#[test]
fn sessions_are_numbered_by_the_journal(rt: HostRuntime) -> Result<(), Fail> {
    let alloc = rt.alloc();
    let gate = MeetingGate {
        rt: &rt,
        asked: Mutex::new(Asked {
            commands: Vec::new(alloc),
            in_vain: false,
        }),
        more: Condvar::new(),
    };
    let one = link_of(alloc, &START_AND_DRAW, Vec::new(alloc))?;
    let other = link_of(alloc, &START_AND_DRAW, Vec::new(alloc))?;
    let links = vec![in alloc; one, other]?;
    let outcome = serve(&rt, alloc, "2", links, &gate, (NEVER, NEVER), 1000)?;
    let journal = outcome.journal.as_ref().ok_or("the broker began")?;
    assert!(rt; numbers_rise(journal, 2) && are_whole(&outcome, &[2, 2]));
    assert!(rt; asked_for_each(&gate.asked.lock(&rt), &outcome.links));
    Ok(())
}
