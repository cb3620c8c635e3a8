ghost use Rattle.std.specs.Prelude.{◌≡◌, ◌+◌, ◌≤◌, ◌↔◌, [], ◌∷◌, ◌++◌, length, take, drop, IsOk};
ghost use Rattle.std.specs.Prelude.{IfOk, OnOk, OnErr};
ghost use Rattle.std.specs.Int.{w16, w32, w64, to_be_bytes};

use std::alloc::{AllocError, Global};
use std::marker::Model;

/// The room of each [`Buffer`] in bytes: the largest command or response.
pub const BUFFER_BYTES: usize = 4096;

/// The bytes exceed the room that a buffer has left.
#[derive(Clone, Copy, Debug, PartialEq, Eq)]
pub struct Full;

/// A command or a response in the making. It has room for [`BUFFER_BYTES`] bytes from its making,
/// never holds more, and is seen as the list of the bytes that it holds.
#[derive(Drop)]
pub struct Buffer {
    bytes: Vec<u8>,
}

impl Model for Buffer {
    ghost use Rattle.std.specs.Prelude.{List, ℕ, ◌≤◌, vec_len, vec_capacity};

    ghost Value = { List ℕ };

    ghost view = { λ b. b.bytes.items };

    // 4096 is BUFFER_BYTES, which cannot be named here
    ghost invariant = { λ b. (vec_len b.bytes ≤ 4096) × (4096 ≤ vec_capacity b.bytes) };
}

impl Buffer {
    /// An empty buffer. It fails only for want of memory, and no other call of a buffer takes any.
    pub fn new(alloc: Global) -> Result<Buffer, AllocError>
        ensures empty { IfOk result (λ b. b ≡ []) }
    {
        Ok(Buffer {
            bytes: Vec::with_capacity(alloc, BUFFER_BYTES)?,
        })
    }

    /// Appends one byte. `Full` changes nothing.
    pub fn put_u8(&mut self, v: u8) -> Result<(), Full>
        ensures fits { IsOk result ↔ (length self.old + 1 ≤ BUFFER_BYTES) }
        ensures ok { OnOk result (self.new ≡ self.old ++ v ∷ []) }
        ensures err { OnErr result (self.new ≡ self.old) }
        ensures bound { length self.new ≤ BUFFER_BYTES }
    {
        self.put_bytes(&[v])
    }

    /// Appends a UINT16. `Full` changes nothing.
    pub fn put_u16(&mut self, v: u16) -> Result<(), Full>
        ensures fits { IsOk result ↔ (length self.old + 2 ≤ BUFFER_BYTES) }
        ensures ok { OnOk result (self.new ≡ self.old ++ to_be_bytes w16 v) }
        ensures err { OnErr result (self.new ≡ self.old) }
        ensures bound { length self.new ≤ BUFFER_BYTES }
    {
        self.put_bytes(&u16::to_be_bytes(v))
    }

    /// Appends a UINT32. `Full` changes nothing.
    pub fn put_u32(&mut self, v: u32) -> Result<(), Full>
        ensures fits { IsOk result ↔ (length self.old + 4 ≤ BUFFER_BYTES) }
        ensures ok { OnOk result (self.new ≡ self.old ++ to_be_bytes w32 v) }
        ensures err { OnErr result (self.new ≡ self.old) }
        ensures bound { length self.new ≤ BUFFER_BYTES }
    {
        self.put_bytes(&u32::to_be_bytes(v))
    }

    /// Appends a UINT64. `Full` changes nothing.
    pub fn put_u64(&mut self, v: u64) -> Result<(), Full>
        ensures fits { IsOk result ↔ (length self.old + 8 ≤ BUFFER_BYTES) }
        ensures ok { OnOk result (self.new ≡ self.old ++ to_be_bytes w64 v) }
        ensures err { OnErr result (self.new ≡ self.old) }
        ensures bound { length self.new ≤ BUFFER_BYTES }
    {
        self.put_bytes(&u64::to_be_bytes(v))
    }

    /// Appends these bytes, all of them or, where they exceed the room that is left, none.
    pub fn put_bytes(&mut self, v: &[u8]) -> Result<(), Full>
        ensures fits { IsOk result ↔ (length self.old + length v.now ≤ BUFFER_BYTES) }
        ensures ok { OnOk result (self.new ≡ self.old ++ v.now) }
        ensures err { OnErr result (self.new ≡ self.old) }
        ensures bound { length self.new ≤ BUFFER_BYTES }
    {
        if v.len() > BUFFER_BYTES - self.bytes.len() {
            return Err(Full);
        }
        self.bytes.extend_from_slice(v).unwrap();
        Ok(())
    }

    /// Writes a UINT32 over the four bytes from `at` on, as a size that is known only at the end.
    pub fn set_u32(&mut self, at: usize, v: u32)
        requires { at + 4 ≤ length self.old }
        ensures value { self.new ≡ take at self.old ++ to_be_bytes w32 v ++ drop (at + 4) self.old }
        ensures bound { length self.new ≤ BUFFER_BYTES }
    {
        self.bytes[at..at + 4].copy_from_slice(&v.to_be_bytes());
    }

    /// Forgets all bytes. The room stays.
    pub fn clear(&mut self)
        ensures { self.new ≡ [] }
    {
        self.bytes.clear();
    }

    /// The bytes, at most [`BUFFER_BYTES`].
    pub fn as_slice(&self) -> &[u8]
        ensures value { result.now ≡ self.now }
        ensures bound { length result.now ≤ BUFFER_BYTES }
    {
        &self.bytes
    }
}
