//! Connections over a source that says at once what has come, beside an open gate: commands that
//! come one by one and many at once, ends that fail, and cancels.

use crate::book::{ASKED, Item};
use crate::connections::{Outcome, Setup, serve_given};
use crate::watch::Plan;
use connection_core::Ending;
use history_spec::EntryKind;
use std::alloc::{AllocError, Global};
use std::sync::Wait;
use std::test::Fail;
use std::thread::Threads;
use std::time::Clock;

// The reply to a command that is run, but for its last byte: the entry's place in the history.
const TOLD: [u8; 19] = [
    0x80, 0x01, 0, 0, 0, 20, 0, 0, 0, 0, 0, 8, 0, 0, 0, 0, 0, 0, 0,
];

// The cancel frame, and the reply to a command that is canceled.
const CANCEL: [u8; 10] = [0x80, 0x01, 0, 0, 0, 10, 0x20, 0, 0, 1];

const TOLD_CANCELED: [u8; 10] = [0x80, 0x01, 0, 0, 0, 10, 0, 0, 0x09, 0x09];

// The most bytes that are pulled at once.
const BLOCK: u32 = 4096;

// These bytes, which come in these pieces. Piece `i`, counted from 0, comes once there were
// `sent[i]` pushes, and past the list at once. The ends don't fail.
fn prompt_over<'a>(bytes: &'a [u8], pieces: &'a [u32], sent: &'a [u64]) -> Setup<'a> {
    Setup {
        bytes,
        pieces,
        plan: Plan::Said { pushes: sent },
        pulls: &[],
        pushes: &[],
        room: 400_000,
        limit: 100_000_000,
        ahead: 0,
        open: true,
    }
}

// So many commands, one behind the other.
fn commands_of(alloc: Global, count: usize) -> Result<Vec<u8>, AllocError> {
    let mut bytes = Vec::new(alloc);
    for _ in 0..count {
        bytes.extend_from_slice(&ASKED)?;
    }
    Ok(bytes)
}

// The replies to the first commands, which were run one behind the other.
fn replies_to(alloc: Global, count: usize) -> Result<Vec<u8>, AllocError> {
    let mut bytes = Vec::new(alloc);
    let mut place: u8 = 0;
    for _ in 0..count {
        place = place.wrapping_add(1);
        bytes.extend_from_slice(&TOLD)?;
        bytes.push(place)?;
    }
    Ok(bytes)
}

// Whether the commands of a history have the numbers from 1 on, and are all of the first client.
fn are_numbered(items: &[Item]) -> bool {
    let mut number: u64 = 0;
    for item in items {
        if item.kind == EntryKind::Command {
            number = number.saturating_add(1);
            if item.client != 0 || item.number != number {
                return false;
            }
        }
    }
    true
}

// Whether so many commands were taken up and run, these replies written, and the connection ended
// so.
fn has_run(outcome: &Outcome, ending: Ending, done: u64, replies: &[u8]) -> bool {
    outcome.ending == ending
        && outcome.done == done
        && outcome.written.as_slice() == replies
        && outcome.book.items().len() as u64 == done.saturating_add(2)
        && are_numbered(outcome.book.items())
        && outcome.is_orderly()
}

// Rounds in which a client sends one command, and 16 once it has the reply.
fn serve_rounds<R: Threads + Wait + Clock + Sync>(
    rt: &R,
    alloc: Global,
    rounds: usize,
) -> Result<Outcome, AllocError> {
    let bytes = commands_of(alloc, rounds.saturating_mul(17))?;
    let mut pieces = Vec::new(alloc);
    let mut sent = Vec::new(alloc);
    let mut told: u64 = 0;
    for _ in 0..rounds {
        pieces.extend_from_slice(&[12, 192])?;
        sent.extend_from_slice(&[told, told.saturating_add(1)])?;
        told = told.saturating_add(17);
    }
    sent.push(told)?;
    serve_given(rt, alloc, prompt_over(&bytes, &pieces, &sent))
}

#[test]
fn a_client_waits_for_its_replies(rt: HostRuntime) -> Result<(), Fail> {
    let outcome = serve_rounds(&rt, rt.alloc(), 1000)?;
    let replies = replies_to(rt.alloc(), 17_000)?;
    assert!(rt; has_run(&outcome, Ending::EndOfInput, 17_000, &replies) && outcome.left == 0);
    Ok(())
}

// So many commands in pieces of so many bytes. The first waits for so many pulls; at 0 the gate is
// open.
fn serve_pieces<R: Threads + Wait + Clock + Sync>(
    rt: &R,
    alloc: Global,
    commands: usize,
    piece: u32,
    ahead: u64,
) -> Result<Outcome, AllocError> {
    let bytes = commands_of(alloc, commands)?;
    let pieces = vec![in alloc; piece; commands]?;
    let given = Setup {
        ahead,
        open: ahead == 0,
        ..prompt_over(&bytes, &pieces, &[])
    };
    serve_given(rt, alloc, given)
}

#[test]
fn commands_come_at_once(rt: HostRuntime) -> Result<(), Fail> {
    let rows = [
        // What the line holds, and more.
        (16, BLOCK, 0),
        (17, BLOCK, 0),
        (19, BLOCK, 0),
        (341, BLOCK, 0),
        (1200, BLOCK, 0),
        // More bytes than are held, while some always are.
        (6000, BLOCK, 0),
        (50, 12, 0),
        (40, 17, 0),
        // While the gate waits, the line is full.
        (17, 12, 18),
        (64, 12, 18),
    ];
    for (commands, piece, ahead) in rows {
        let outcome = serve_pieces(&rt, rt.alloc(), commands, piece, ahead)?;
        let replies = replies_to(rt.alloc(), commands)?;
        let is_run = has_run(&outcome, Ending::EndOfInput, commands as u64, &replies);
        assert!(rt; is_run && outcome.left == 0);
    }
    Ok(())
}

// So many commands in pieces of so many bytes, where these pulls and pushes fail, counted from 0.
fn serve_failing<R: Threads + Wait + Clock + Sync>(
    rt: &R,
    alloc: Global,
    commands: usize,
    piece: u32,
    pulls: &[u64],
    pushes: &[u64],
) -> Result<Outcome, AllocError> {
    let bytes = commands_of(alloc, commands)?;
    let pieces = vec![in alloc; piece; commands]?;
    let (pulls, pushes) = (pulls.to_vec(alloc)?, pushes.to_vec(alloc)?);
    let given = Setup {
        pulls: &pulls,
        pushes: &pushes,
        ..prompt_over(&bytes, &pieces, &[])
    };
    serve_given(rt, alloc, given)
}

#[test]
fn an_end_fails_behind_commands(rt: HostRuntime) -> Result<(), Fail> {
    let read = Ending::ReadFault;
    let write = Ending::WriteFault;
    // The last two say how many commands are taken up, and how many are told.
    let rows: [(usize, u32, &[u64], &[u64], Ending, u64, usize); 8] = [
        (2, 12, &[0], &[], read, 0, 0),
        (2, 12, &[1], &[], read, 1, 1),
        (2, BLOCK, &[1], &[], read, 2, 2),
        (16, BLOCK, &[1], &[], read, 16, 16),
        (341, BLOCK, &[1], &[], read, 341, 341),
        (16, BLOCK, &[], &[0], write, 1, 0),
        (16, BLOCK, &[], &[3], write, 4, 3),
        (341, BLOCK, &[], &[20], write, 21, 20),
    ];
    for (commands, piece, pulls, pushes, ending, done, told) in rows {
        let outcome = serve_failing(&rt, rt.alloc(), commands, piece, pulls, pushes)?;
        let replies = replies_to(rt.alloc(), told)?;
        assert!(rt; has_run(&outcome, ending, done, &replies));
    }
    Ok(())
}

// Commands with the cancel frame behind them, in these pieces. The second piece comes once so many
// commands were told.
fn serve_canceled<R: Threads + Wait + Clock + Sync>(
    rt: &R,
    alloc: Global,
    commands: usize,
    pieces: &[u32],
    told: u64,
) -> Result<Outcome, AllocError> {
    let mut bytes = commands_of(alloc, commands)?;
    bytes.extend_from_slice(&CANCEL)?;
    serve_given(rt, alloc, prompt_over(&bytes, pieces, &[0, told]))
}

// The replies to so many commands that were run, and behind them to so many that were canceled.
fn replies_then_canceled(
    alloc: Global,
    run: usize,
    canceled: usize,
) -> Result<Vec<u8>, AllocError> {
    let mut bytes = replies_to(alloc, run)?;
    for _ in 0..canceled {
        bytes.extend_from_slice(&TOLD_CANCELED)?;
    }
    Ok(bytes)
}

// How many commands of a history were canceled by a cancel frame behind so many.
fn canceled_by(items: &[Item], upto: u64) -> usize {
    items
        .iter()
        .filter(|item| item.kind == EntryKind::Canceled(upto))
        .count()
}

#[test]
fn a_cancel_that_has_come_cancels_all_that_wait(rt: HostRuntime) -> Result<(), Fail> {
    // How many commands come, in which pieces, and how many are run before the cancel comes.
    let rows: [(usize, &[u32], usize); 7] = [
        (1, &[], 0),
        (2, &[], 0),
        (16, &[], 0),
        (2, &[12, 22], 1),
        (3, &[36, 10], 1),
        (16, &[192, 10], 1),
        (16, &[192, 10], 15),
    ];
    for (commands, pieces, run) in rows {
        let outcome = serve_canceled(&rt, rt.alloc(), commands, pieces, run as u64)?;
        let canceled = commands.saturating_sub(run);
        let replies = replies_then_canceled(rt.alloc(), run, canceled)?;
        let is_kept = canceled_by(outcome.book.items(), commands as u64) == canceled
            && outcome.book.items().len() == commands.saturating_add(2);
        let is_told = outcome.ending == Ending::EndOfInput
            && outcome.done == commands as u64
            && outcome.written.as_slice() == replies.as_slice();
        assert!(rt; is_kept && is_told && outcome.is_orderly());
    }
    Ok(())
}
