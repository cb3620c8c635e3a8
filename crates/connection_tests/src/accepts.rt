//! Connections over a value in memory: how many are accepted, that they are served side by side,
//! that they have one history, and that threads sleep until it is their turn.

use crate::book::{ASKED, Book};
use crate::connections::TWICE;
use crate::watch::{FREE, Least, Watch, WatchedBook};
use accept_loop::{AcceptError, LinkDone, Served, serve};
use connection_core::Ending;
use link_port::{Gate, MemoryAcceptor, MemorySink, MemorySource, OpenGate};
use std::alloc::{AllocError, Global};
use std::process::Abort;
use std::sync::{Condvar, Mutex, Wait};
use std::test::Fail;
use std::thread;
use std::thread::Threads;
use std::time::{Clock, CpuClock, Duration};

type Link = LinkDone<MemorySource, MemorySink>;

// What came of connections.
#[derive(Drop)]
struct Outcome {
    accepted: Result<(), AcceptError>,
    links: Vec<Link>,
    book: Book,
}

impl Outcome {
    // Whether so many connections were accepted and served to their end, the first with one
    // command, the second with two, and so on. Each opening, close and command has one entry.
    fn is(&self, accepted: Result<(), AcceptError>, count: usize) -> bool {
        let mut commands = 0;
        let mut are_whole = true;
        for (i, link) in self.links.iter().enumerate() {
            let own = i % 2 + 1;
            commands = own.saturating_add(commands);
            if !is_whole(link, own) || !is_told(&self.book, link) {
                are_whole = false;
            }
        }
        let entries = count.saturating_mul(2).saturating_add(commands);
        let is_all = self.links.len() == count && self.book.items().len() == entries;
        self.accepted == accepted && are_whole && is_all
    }
}

// Whether a connection came to its end, with so many commands, each of which was replied to.
fn is_whole(link: &Link, commands: usize) -> bool {
    let written = link.sink.written().len();
    link.ending == Ending::EndOfInput
        && link.done == commands as u64
        && written == commands.saturating_mul(20)
}

// Whether the history has the commands of a connection's client at the places that it was told.
fn is_told(book: &Book, link: &Link) -> bool {
    let Some(client) = link.client else {
        return false;
    };
    let mut number = 0u64;
    for reply in link.sink.written().chunks(20) {
        number = number.saturating_add(1);
        let Some(place) = reply.last() else {
            return false;
        };
        if !book.has_told(client, number, *place) {
            return false;
        }
    }
    true
}

// So many connections: one command that comes byte by byte, two commands at once, and so on.
fn links_of(alloc: Global, count: u8) -> Result<Vec<(MemorySource, MemorySink)>, AllocError> {
    let mut links = Vec::new(alloc);
    for i in 0..count {
        let (bytes, pieces): (&[u8], &[u32]) = if i % 2 == 0 {
            (&ASKED, &[1; 12])
        } else {
            (&TWICE, &[])
        };
        let failing = Vec::new(alloc);
        let source = MemorySource::new(bytes.to_vec(alloc)?, pieces.to_vec(alloc)?, failing);
        links.push((source, MemorySink::new(alloc, 1000, Vec::new(alloc))?))?;
    }
    Ok(links)
}

// What comes where so many connections come, so many of them are accepted at most, and these calls
// of the acceptor fail.
fn serve_links<G: Gate, R: Threads + Wait + Clock + Sync>(
    rt: &R,
    alloc: Global,
    watch: &Watch<'_, R>,
    gate: &G,
    count: u8,
    most: u8,
    failing: &[u64],
) -> Result<Outcome, AllocError> {
    let mut acceptor = MemoryAcceptor::new(links_of(alloc, count)?, failing.to_vec(alloc)?);
    let value = WatchedBook {
        book: Book::new(alloc, 1_000_000)?,
        watch,
    };
    let Served {
        accepted,
        links,
        value,
    } = serve(rt, alloc, value, &mut acceptor, gate, u32::from(most));
    let WatchedBook { book, watch: _ } = value;
    Ok(Outcome {
        accepted,
        links,
        book,
    })
}

#[test]
fn connections_are_accepted(rt: HostRuntime) -> Result<(), Fail> {
    let failed = Err(AcceptError::Failed);
    let rows: [(u8, u8, &[u64], Result<(), AcceptError>, usize); 7] = [
        (2, 2, &[], Ok(()), 2),
        (2, 3, &[], Ok(()), 2),
        (12, 12, &[], Ok(()), 12),
        // No more are accepted than asked for.
        (2, 1, &[], Ok(()), 1),
        (2, 0, &[], Ok(()), 0),
        // None comes.
        (0, 2, &[], Ok(()), 0),
        // The acceptor fails behind a connection.
        (2, 2, &[1], failed, 1),
    ];
    let watch = Watch::new(&rt, 0);
    for (come, most, failing, accepted, count) in rows {
        let outcome = serve_links(&rt, rt.alloc(), &watch, &OpenGate, come, most, failing)?;
        assert!(rt; outcome.is(accepted, count));
    }
    Ok(())
}

// A gate that holds each client's first command until that of another one came, too.
#[derive(Drop)]
struct MeetingGate<'a, R: Wait + Sync> {
    rt: &'a R,
    missing: Mutex<u32>,
    came: Condvar,
}

impl<R: Wait + Sync> Gate for MeetingGate<'_, R> {
    fn before(&self, _client: u32, number: u64) {
        if number > 1 {
            return;
        }
        let mut missing = self.missing.lock(self.rt);
        *missing = missing.saturating_sub(1);
        self.came.notify_all();
        let _none = self.came.wait_while(self.rt, missing, |left| *left > 0);
    }
}

// So many connections, whose first commands come together.
fn serve_together<R: Threads + Wait + Clock + Sync>(
    rt: &R,
    alloc: Global,
    watch: &Watch<'_, R>,
    count: u8,
) -> Result<Outcome, AllocError> {
    let gate = MeetingGate {
        rt,
        missing: Mutex::new(u32::from(count)),
        came: Condvar::new(),
    };
    serve_links(rt, alloc, watch, &gate, count, count, &[])
}

// Ends the test where so many clients aren't closed in time: somebody sleeps who isn't woken.
fn wait_for_closes<R: Wait + Clock + Abort>(rt: &R, watch: &Watch<'_, R>, count: u8) {
    watch.wait_for(Least {
        closes: u64::from(count),
        ..FREE
    });
    assert!(rt; !watch.seen().in_vain, "somebody sleeps who isn't woken");
}

// What comes of so many connections, whose commands take so many milliseconds, and the processor
// time that they take.
fn serve_in_time<R: Threads + Wait + Clock + CpuClock + Abort + Sync>(
    rt: &R,
    alloc: Global,
    count: u8,
    pause: u64,
) -> Result<(Outcome, Duration), AllocError> {
    let watch = Watch::new(rt, pause);
    let before = rt.process_cpu_time().unwrap_or(Duration::ZERO);
    let (outcome, ()) = thread::join(
        rt,
        || serve_together(rt, alloc, &watch, count),
        || wait_for_closes(rt, &watch, count),
    );
    let after = rt.process_cpu_time().unwrap_or(Duration::MAX);
    Ok((outcome?, after.saturating_sub(before)))
}

#[test]
fn two_connections_are_served_side_by_side(rt: HostRuntime) -> Result<(), Fail> {
    let (outcome, _) = serve_in_time(&rt, rt.alloc(), 2, 0)?;
    assert!(rt; outcome.is(Ok(()), 2));
    Ok(())
}

// Each turn takes so long that all but one thread sleep, and each goes on only if it is woken.
// Threads that look for their turn all the time would use more processor time than this.
#[test]
fn a_thread_sleeps_until_it_is_woken(rt: HostRuntime) -> Result<(), Fail> {
    let (outcome, spent) = serve_in_time(&rt, rt.alloc(), 24, 20)?;
    assert!(rt; outcome.is(Ok(()), 24));
    // 36 commands take 720 milliseconds.
    assert!(rt; spent < Duration::from_millis(360), "it took {spent:?}");
    Ok(())
}
