ghost use Rattle.std.specs.Prelude.{◌≡◌, ◌≤◌, [], vec_capacity};

use script_lines::{LineReader, Piece, REPLY_LINE_BYTES};
use script_spec::LINE_BYTES;
use std::alloc::{AllocError, Global};
use tab_bytes::Buffer;
use tab_frame::Framer;

/// The memory that one script is played in.
#[derive(Drop)]
pub struct Room {
    // What was pulled of the input: nothing yet.
    pub(crate) lines: LineReader,
    // The present line.
    pub(crate) text: Vec<u8>,
    pub(crate) piece: Piece,
    // The present command, and the reply to it.
    pub(crate) frame: Buffer,
    pub(crate) reply: Buffer,
    // The line of a reply.
    pub(crate) line: Vec<u8>,
    // The framer that looks ahead in a label's stream.
    pub(crate) ahead: Framer,
    ghost fresh: { lines ≡ record { pending = []; room = 1073741824 } },
    ghost long: { 16384 ≤ vec_capacity text },
    ghost wide: { 8204 ≤ vec_capacity line },
}

impl Room {
    /// Room for a script. It fails only for want of memory.
    pub fn new(alloc: Global) -> Result<Room, AllocError> {
        Ok(Room {
            lines: LineReader::new(alloc)?,
            text: Vec::with_capacity(alloc, LINE_BYTES as usize)?,
            piece: Piece::new(alloc)?,
            frame: Buffer::new(alloc)?,
            reply: Buffer::new(alloc)?,
            line: Vec::with_capacity(alloc, REPLY_LINE_BYTES)?,
            ahead: Framer::new(alloc)?,
        })
    }
}
