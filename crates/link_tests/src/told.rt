//! What a row of pulls or of pushes tells, as a short text.
ghost use Rattle.std.specs.Prelude.{◌≤◌};

use link_port::{Failed, Sink, Source};
use std::alloc::{AllocError, Global};

// The digit of a number below ten.
fn digit_of(number: u64) -> u8 {
    b'0' + number.min(9) as u8
}

// Pulls so often into this much room, which holds dots at first. Each pull tells how many bytes
// came, or `!` where it failed; then what the room holds, how often the source has failed by then,
// and a space.
pub(crate) fn pulls<S: Source>(
    alloc: Global,
    source: &mut S,
    room: usize,
    count: u32,
) -> Result<Vec<u8>, AllocError>
    requires { room ≤ 4 }
{
    let mut told = Vec::new(alloc);
    let mut store = [b'.'; 4];
    let into = &mut store[..room];
    for _ in 0..count {
        told.push(match source.pull(into) {
            Ok(given) => digit_of(given as u64),
            Err(Failed) => b'!',
        })?;
        told.extend_from_slice(into)?;
        told.extend_from_slice(&[digit_of(source.fault_count()), b' '])?;
    }
    Ok(told)
}

// Pushes these bytes one after another. Each push tells how many were taken, or `!` where it
// failed; then how often the sink has failed by then, and a space.
pub(crate) fn pushes<K: Sink>(
    alloc: Global,
    sink: &mut K,
    pieces: &[&str],
) -> Result<Vec<u8>, AllocError> {
    let mut told = Vec::new(alloc);
    for piece in pieces {
        let taken = match sink.push(piece.as_bytes()) {
            Ok(taken) => digit_of(taken as u64),
            Err(Failed) => b'!',
        };
        told.extend_from_slice(&[taken, digit_of(sink.fault_count()), b' '])?;
    }
    Ok(told)
}
