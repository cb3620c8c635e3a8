//! The commands that the reader of a connection has cut and not sent yet, in one piece of memory.
ghost use Rattle.std.specs.Prelude.{◌≡◌, ◌<◌, ◌==◌, [], ◌∷◌, ◌++◌, true, false, length, IfOk};

use std::alloc::{AllocError, Global};
use std::collections::VecDeque;
use std::marker::Model;
use tab_bytes::{BUFFER_BYTES, Buffer};

// How many commands are held at most.
const HELD_COMMANDS: usize = 16;

// Commands that wait, seen as the list of them. Their bytes stand one behind the other, so what few
// and small commands take is little, whatever there is room for.
#[derive(Drop)]
pub(crate) struct Held {
    bytes: Vec<u8>,
    // The bytes before this place were given out.
    start: usize,
    lengths: VecDeque<usize>,
}

impl Model for Held {
    ghost use Rattle.std.specs.Prelude.{List, ℕ, ◌≤◌, drop, vec_len};
    ghost use Rattle.connection_core.specs.Held.{spelled, IsSpelled};

    ghost Value = { List (List ℕ) };

    ghost view = { λ h. spelled (drop h.start h.bytes.items) h.lengths.items };

    ghost invariant = { λ h. (h.start ≤ vec_len h.bytes)
        × IsSpelled (drop h.start h.bytes.items) h.lengths.items };
}

impl Held {
    // Makes one that holds nothing, without room if it isn't used. It fails only for want of
    // memory, and takes none later.
    pub fn new(alloc: Global, is_used: bool) -> Result<Held, AllocError>
        ensures { IfOk result (λ held. held ≡ []) }
    {
        let most = if is_used { HELD_COMMANDS } else { 0 };
        Ok(Held {
            bytes: Vec::with_capacity(alloc, most * BUFFER_BYTES)?,
            start: 0,
            lengths: VecDeque::with_capacity(alloc, most)?,
        })
    }

    // Whether it holds nothing.
    pub fn is_empty(&self) -> bool
        ensures { result ≡ (length self.now == 0) }
    {
        self.lengths.is_empty()
    }

    // Holds one more command, if there is room for it, and returns whether there was.
    pub fn push(&mut self, command: &Buffer) -> bool
        ensures room { result ≡ true → self.new ≡ self.old ++ command.now ∷ [] }
        ensures full { result ≡ false → self.new ≡ self.old }
    {
        let command = command.as_slice();
        if self.lengths.len() >= self.lengths.capacity() {
            return false;
        }
        if self.bytes.len() + command.len() > self.bytes.capacity() {
            return false;
        }
        self.bytes.extend_from_slice(command).unwrap();
        self.lengths.push_back(command.len()).unwrap();
        true
    }

    // Gives out the first command, into a buffer and over what that holds.
    pub fn pop(&mut self, into: &mut Buffer)
        requires { 0 < length self.old }
        ensures { self.old ≡ into.new ∷ self.new }
    {
        let length = self.lengths.pop_front().unwrap();
        into.clear();
        into.put_bytes(&self.bytes[self.start..self.start + length])
            .unwrap();
        self.start += length;
        if self.lengths.is_empty() {
            self.bytes.clear();
            self.start = 0;
        }
    }
}
