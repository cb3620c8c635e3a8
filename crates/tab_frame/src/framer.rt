ghost use Rattle.std.specs.Prelude.{◌≡◌, ◌==◌, ◌-◌, ◌≤◌, ◌++◌, [], length, min, take, drop, IfOk};
ghost use Rattle.std.specs.Prelude.{vec_len, vec_capacity, if◌then◌else◌};
ghost use Rattle.tab_spec.specs.Frame.{item_of, cancel, command};
ghost use Rattle.tab_frame.specs.Framing.{Gave};

use std::alloc::{AllocError, Global};
use std::marker::Model;
use tab_bytes::Buffer;
use tab_spec::{CC_CANCEL, HEADER_BYTES, MOST_BYTES, ST_NO_SESSIONS};
use tab_wire::{code_of, size_of, tag_of};

// How many bytes a framer keeps, at most: those of two frames.
const ROOM_BYTES: usize = 8192;

// How many bytes tell a frame's size: its tag and its size field.
const SIZED_BYTES: usize = 6;

/// What came next of a stream.
#[derive(Clone, Copy, PartialEq, Eq)]
pub enum Frame {
    /// A command, whose bytes were given out.
    Command,
    /// A cancel frame, whose bytes were given out.
    Cancel,
    /// Neither a whole frame nor a size that no frame has is there so far.
    NotYet,
    /// The next frame has this size, which no frame has. It comes again and again.
    BadSize(u32),
}

/// Cuts a stream into frames (Part 1, "Command/Response Structure"), in whatever pieces it comes.
/// It is seen as the bytes that were fed and not given out, at most 8,192.
#[derive(Drop)]
pub struct Framer {
    bytes: Vec<u8>,
    // The bytes before this place were given out.
    at: usize,
}

impl Model for Framer {
    ghost use Rattle.std.specs.Prelude.{List, ℕ, ◌≤◌, drop, vec_len, vec_capacity};

    ghost Value = { List ℕ };

    ghost view = { λ f. drop f.at f.bytes.items };

    // 8192 is ROOM_BYTES, which cannot be named here
    ghost invariant = { λ f. (f.at ≤ vec_len f.bytes) × (vec_len f.bytes ≤ 8192)
        × (8192 ≤ vec_capacity f.bytes) };
}

impl Framer {
    /// A framer that keeps nothing. It fails only for want of memory, and takes none later.
    pub fn new(alloc: Global) -> Result<Framer, AllocError>
        ensures { IfOk result (λ f. f ≡ []) }
    {
        Ok(Framer {
            bytes: Vec::with_capacity(alloc, ROOM_BYTES)?,
            at: 0,
        })
    }

    /// Keeps as many of the first bytes of a piece as there is room for, and says how many.
    pub fn feed(&mut self, piece: &[u8]) -> usize
        ensures fed { self.new ≡ self.old ++ take result piece.now }
        ensures count { result ≡ min (length piece.now) (8192 - length self.old) }
    {
        if piece.len() > ROOM_BYTES - self.bytes.len() {
            drop_front(&mut self.bytes, self.at);
            self.at = 0;
        }
        let taken = piece.len().min(ROOM_BYTES - self.bytes.len());
        self.bytes.extend_from_slice(&piece[..taken]).unwrap();
        taken
    }

    /// Gives out the next frame, whose bytes are then those of `out`. If there is none, nothing is
    /// promised of what `out` holds.
    pub fn next(&mut self, out: &mut Buffer) -> Frame
        ensures { Gave result self.old self.new out.new }
    {
        let kept = &self.bytes[self.at..];
        if kept.len() < SIZED_BYTES {
            return Frame::NotYet;
        }
        let size = size_of(kept);
        if size < HEADER_BYTES || size > MOST_BYTES {
            return Frame::BadSize(size);
        }
        if kept.len() < size as usize {
            return Frame::NotYet;
        }
        out.clear();
        out.put_bytes(&kept[..size as usize]).unwrap();
        self.at += size as usize;
        if is_cancel(out.as_slice()) {
            return Frame::Cancel;
        }
        Frame::Command
    }

    /// Whether nothing is kept.
    pub fn is_empty(&self) -> bool
        ensures { result ≡ (length self.now == 0) }
    {
        self.at == self.bytes.len()
    }

    /// Keeps what another framer keeps.
    pub fn copy_from(&mut self, other: &Framer)
        ensures { self.new ≡ other.now }
    {
        self.bytes.clear();
        self.bytes
            .extend_from_slice(&other.bytes[other.at..])
            .unwrap();
        self.at = 0;
    }
}

// Moves the bytes from `at` on to the front, in place of those before them.
fn drop_front(bytes: &mut Vec<u8>, at: usize)
    requires { at ≤ vec_len bytes.old }
    ensures items { bytes.new.items ≡ drop at bytes.old.items }
    ensures capacity { vec_capacity bytes.new ≡ vec_capacity bytes.old }
{
    bytes.copy_within(at.., 0);
    bytes.truncate(bytes.len() - at);
}

// Whether the bytes of a frame are a cancel frame's.
fn is_cancel(frame: &[u8]) -> bool
    requires { 10 ≤ length frame.now }
    ensures { item_of frame.now ≡ (if result then cancel else command frame.now) }
{
    tag_of(frame) == ST_NO_SESSIONS && size_of(frame) == HEADER_BYTES && code_of(frame) == CC_CANCEL
}
