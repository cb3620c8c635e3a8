ghost use Rattle.std.specs.Prelude.{◌≡◌, ◌+◌, ◌<◌, ◌≤◌, length, take, drop, MatchOption};
ghost use Rattle.std.specs.Int.{w8, w16, w32, w64};
ghost use Rattle.tab_bytes.specs.Reading.{TakesNumber, Has2b, size_of_2b};

use std::marker::Model;

/// Takes a command or a response apart from its front. It is seen as the bytes that are left.
#[derive(Drop)]
pub struct Reader<'a> {
    left: &'a [u8],
}

impl<'a> Model for Reader<'a> {
    ghost use Rattle.std.specs.Prelude.{List, ℕ};

    ghost Value = { List ℕ };

    ghost view = { λ r. r.left.now };
}

impl<'a> Reader<'a> {
    /// A reader that has all of these bytes left.
    pub fn new(bytes: &'a [u8]) -> Reader<'a>
        ensures { result ≡ bytes.now }
    {
        Reader { left: bytes }
    }

    /// Takes one byte. `None` where none is left, and then nothing changes.
    pub fn take_u8(&mut self) -> Option<u8>
        ensures { TakesNumber w8 self.old self.new result }
    {
        let (first, rest) = self.left.split_first()?;
        self.left = rest;
        Some(*first)
    }

    /// Takes a UINT16. `None` where fewer than two bytes are left, and then nothing changes.
    pub fn take_u16(&mut self) -> Option<u16>
        ensures { TakesNumber w16 self.old self.new result }
    {
        let front = self.take_bytes(2)?;
        Some(u16::from_be_bytes([front[0], front[1]]))
    }

    /// Takes a UINT32. `None` where fewer than four bytes are left, and then nothing changes.
    pub fn take_u32(&mut self) -> Option<u32>
        ensures { TakesNumber w32 self.old self.new result }
    {
        let front = self.take_bytes(4)?;
        Some(u32::from_be_bytes([front[0], front[1], front[2], front[3]]))
    }

    /// Takes a UINT64. `None` where fewer than eight bytes are left, and then nothing changes.
    pub fn take_u64(&mut self) -> Option<u64>
        ensures { TakesNumber w64 self.old self.new result }
    {
        let front = self.take_bytes(8)?;
        Some(u64::from_be_bytes([
            front[0], front[1], front[2], front[3], front[4], front[5], front[6], front[7],
        ]))
    }

    /// Takes so many bytes. `None` where fewer are left, and then nothing changes.
    pub fn take_bytes(&mut self, count: usize) -> Option<&'a [u8]>
        ensures { MatchOption result ((length self.old < count) × (self.new ≡ self.old))
            (λ s. (count ≤ length self.old) × (s.now ≡ take count self.old)
            × (self.new ≡ drop count self.old)) }
    {
        if self.left.len() < count {
            return None;
        }
        let (front, rest) = self.left.split_at(count);
        self.left = rest;
        Some(front)
    }

    /// Takes a TPM2B: a UINT16 size and that many bytes, which are the answer (Part 2, "TPM2B
    /// Types"). `None` where fewer bytes are left, and then nothing changes.
    pub fn tpm2b(&mut self) -> Option<&'a [u8]>
        ensures { MatchOption result
            ((Has2b self.old → ⊥) × (self.new ≡ self.old))
            (λ s. Has2b self.old × (s.now ≡ take (size_of_2b self.old) (drop 2 self.old))
            × (self.new ≡ drop (2 + size_of_2b self.old) self.old)) }
    {
        let mut after = Reader { left: self.left };
        let size = usize::from(after.take_u16()?);
        let value = after.take_bytes(size)?;
        *self = after;
        Some(value)
    }

    /// The bytes that are left.
    pub fn rest(&self) -> &'a [u8]
        ensures { result.now ≡ self.now }
    {
        self.left
    }
}
