//! Plays scripts over a broker whose device is in memory and fails at listed transmissions, and
//! tells where the transmissions of each call were.
//!
//! Standard input has runs, one behind another. The first line of each is the seed, 64 hexadecimal
//! digits. Behind it may stand `numbers=SLOTS,LOADED,ACTIVE,GAP`, in decimal digits: how much room
//! the device has for objects, for loaded sessions and for active ones, and its gap. Without this
//! word they are those of the profile. Then come the numbers of the transmissions that fail, from
//! 0. The other lines are those of a script, as the program `tabrmd` plays them. A script that
//! isn't played to its end, as one with a bad line, ends the program with status 1, and so does a
//! first line that isn't right.
//!
//! Of each run these lines are written, where a count is that of the commands that the device was
//! sent:
//!
//! - the replies, as `tabrmd` writes them.
//! - `begun COUNT`: when the broker had begun. Or it didn't, and this is the only line of the run:
//!   `failed FAULTS COUNT` where a transmission failed, and `out of range PROPERTY VALUE COUNT`
//!   where one of the device's numbers is out of range.
//! - for each command and each close, those at the end among them, in their order:
//!   `command FIRST LAST ORPHANS` or `close FIRST LAST ORPHANS`: the count before it and after it,
//!   and how many orphans are in the device then: objects and sessions of closed clients whose
//!   flush failed.
//! - the audit text of the journal.
//! - `end COUNT FAULTS HELD`: the count and the device's fault count after all of this, and how
//!   many objects and sessions the device lists then: orphans, and sessions that clients saved and
//!   left.
#![tactic(auto)]

mod held;
mod play;
mod script;
mod watched;

use anyhow::Context;
use play::play;
use script::{Script, read_seed};
use std::alloc::Global;
use std::io::{BufRead, BufReader, BufWriter, Write};

fn main(rt: HostRuntime) -> anyhow::Result<()> {
    let mut output = BufWriter::new(rt.alloc(), rt.stdout())?;
    play_input(&rt, &mut output)?;
    output.flush()?;
    Ok(())
}

// Plays the runs of standard input.
fn play_input<W: Write>(rt: &HostRuntime, output: &mut W) -> anyhow::Result<()> {
    let mut read = None;
    for line in BufReader::new(rt.alloc(), rt.reader())?.lines(rt.alloc()) {
        take_line(rt.alloc(), &mut read, line?.as_str(), output)?;
    }
    play_whole(rt.alloc(), read, output)
}

// Takes a line. One that begins a run ends the script before it, which is played.
fn take_line<W: Write>(
    alloc: Global,
    read: &mut Option<Script>,
    text: &str,
    output: &mut W,
) -> anyhow::Result<()> {
    if let Some(next) = read_seed(alloc, text)? {
        return play_whole(alloc, read.replace(next), output);
    }
    let script = read.as_mut().context("a run begins with a seed")?;
    script.text.extend_from_slice(text.as_bytes())?;
    script.text.push(b'\n')?;
    Ok(())
}

// Plays a script that is whole, where there is one.
fn play_whole<W: Write>(
    alloc: Global,
    script: Option<Script>,
    output: &mut W,
) -> anyhow::Result<()> {
    match script {
        Some(script) => play(alloc, &script, output),
        None => Ok(()),
    }
}
