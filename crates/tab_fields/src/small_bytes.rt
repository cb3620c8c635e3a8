ghost use Rattle.std.specs.Prelude.{◌≡◌, ◌≤◌, ◌<◌, ◌+◌, [], ◌++◌, length, take, drop, replicate};
ghost use Rattle.std.specs.Prelude.{MatchOption};

use std::marker::Model;

/// Up to N bytes, kept in place. It is seen as their list.
#[derive(Drop)]
pub struct SmallBytes<const N: usize> {
    bytes: [u8; N],
    len: usize,
}

impl<const N: usize> Model for SmallBytes<N> {
    ghost use Rattle.std.specs.Prelude.{List, ℕ, ◌≤◌, take};

    ghost Value = { List ℕ };

    ghost view = { λ o. take o.len o.bytes };

    ghost invariant = { λ o. o.len ≤ N };
}

impl<const N: usize> SmallBytes<N> {
    /// No byte.
    pub fn new() -> SmallBytes<N>
        ensures { result ≡ [] }
    {
        SmallBytes {
            bytes: [0; N],
            len: 0,
        }
    }

    /// These bytes; `None` if they are more than N.
    pub fn of(bytes: &[u8]) -> Option<SmallBytes<N>>
        ensures { MatchOption result (N < length bytes.now)
            (λ o. (length bytes.now ≤ N) × (o ≡ bytes.now)) }
    {
        if bytes.len() > N {
            return None;
        }
        let mut kept = [0; N];
        kept[..bytes.len()].copy_from_slice(bytes);
        Some(SmallBytes {
            bytes: kept,
            len: bytes.len(),
        })
    }

    /// The same bytes once more.
    pub fn copied(&self) -> SmallBytes<N>
        ensures { result ≡ self.now }
    {
        SmallBytes {
            bytes: self.bytes,
            len: self.len,
        }
    }

    /// The bytes.
    pub fn as_slice(&self) -> &[u8]
        ensures same { result.now ≡ self.now }
        ensures most { length result.now ≤ N }
    {
        &self.bytes[..self.len]
    }

    /// So many zeros; `None` if they are more than N.
    pub fn zeros(len: usize) -> Option<SmallBytes<N>>
        ensures { MatchOption result (N < len) (λ o. (len ≤ N) × (o ≡ replicate len 0)) }
    {
        if len > N {
            return None;
        }
        Some(SmallBytes { bytes: [0; N], len })
    }

    /// Writes bytes over those from a place on.
    pub fn write(&mut self, at: usize, bytes: &[u8])
        requires { at + length bytes.now ≤ length self.old }
        ensures { self.new
            ≡ take at self.old ++ bytes.now ++ drop (at + length bytes.now) self.old }
    {
        let kept = &mut self.bytes[..];
        kept[at..at + bytes.len()].copy_from_slice(bytes);
    }

    /// Adds bytes behind those that there are.
    pub fn add(&mut self, bytes: &[u8])
        requires { length self.old + length bytes.now ≤ N }
        ensures all { self.new ≡ self.old ++ bytes.now }
        ensures count { length self.new ≡ length self.old + length bytes.now }
    {
        let kept = &mut self.bytes[..];
        kept[self.len..self.len + bytes.len()].copy_from_slice(bytes);
        self.len += bytes.len();
    }
}
