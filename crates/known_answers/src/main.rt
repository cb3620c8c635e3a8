//! Plays known answers against the device in memory: commands, each with the reply that other
//! programs for the same profile gave it.
//!
//! Standard input is lines. `seed DIGITS` begins a new device of the profile that has this seed of
//! 32 bytes and is started. `numbers SLOTS LOADED ACTIVE GAP`, in decimal digits, begins one with
//! this room in its place, and with the seed that was named last (zeros before the first).
//! `COMMAND REPLY`, in hexadecimal digits, is a pair for the device that began last.
//! The number of each line whose reply differs is written, and last how many pairs agree and how
//! many differ. The last two lines of the stored input have wrong replies, a short one and a long
//! one, which have to be found.
#![tactic(auto)]

mod player;

use player::Player;
use std::io::{BufRead, BufReader};

fn main(rt: HostRuntime) -> anyhow::Result<()> {
    let mut player = Player::new(rt.alloc())?;
    play_lines(&rt, &mut player)
}

// Plays the lines of standard input, and reports which replies differ, and how many.
fn play_lines(rt: &HostRuntime, player: &mut Player) -> anyhow::Result<()> {
    for line in BufReader::new(rt.alloc(), rt.reader())?.lines(rt.alloc()) {
        if !player.play(line?.as_str())? {
            println!(rt; "line {} differs", player.lines())?;
        }
    }
    println!(rt; "{} agree, {} differ", player.agree(), player.differ())?;
    Ok(())
}
