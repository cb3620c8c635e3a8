ghost use Rattle.std.specs.Prelude.{◌≡◌, ◌≤◌, [], length};

use std::marker::Model;
use std::{fmt, str};

/// The most bytes of a path. This project's own.
pub const PATH_MOST: usize = 100;

/// A path of at most 100 bytes, which stands in the value itself and takes no memory. Contracts see
/// the list of its bytes. This project's own.
#[derive(Clone, Copy)]
pub struct PathText {
    bytes: [u8; PATH_MOST],
    len: usize,
}

impl Model for PathText {
    ghost use Rattle.std.specs.Prelude.{◌≡◌, ◌≤◌, ◌-◌, ◌++◌, ℕ, List, IsUtf8, length, replicate};
    ghost use Rattle.std.specs.Prelude.{take};
    ghost use Rattle.std.proofs.Common.{◌∙◌, ap, arith, length-take-le, sym};

    ghost Value = { List ℕ };

    ghost view = { λ p. take p.len p.bytes };

    // Zeros stand behind the path, so that its bytes alone tell the value.
    ghost invariant = { λ p. (p.len ≤ 100) × (length p.bytes ≡ 100)
        × ∥ IsUtf8 (take p.len p.bytes) ∥₁
        × (p.bytes ≡ take p.len p.bytes ++ replicate (100 - p.len) 0) };

    ghost inverse = { λ path. record {
      bytes = path ++ replicate (100 - length path) 0;
      len = length path;
    } };

    ghost inverse_ok = { λ p h i. record {
      bytes = (ap (λ n. take p.len p.bytes ++ replicate (100 - n) 0)
          (length-take-le p.len p.bytes (omega (arith, h.0, h.1))) ∙ sym h.3) i;
      len = length-take-le p.len p.bytes (omega (arith, h.0, h.1)) i;
    } };
}

impl PathText {
    /// No path.
    pub(crate) fn empty() -> Self
        ensures { result ≡ [] }
    {
        PathText {
            bytes: [0; PATH_MOST],
            len: 0,
        }
    }

    /// The path that this text is.
    pub(crate) fn new(path: &str) -> Self
        requires { length path.now ≤ 100 }
        ensures { result ≡ path.now }
    {
        let mut bytes = [0; PATH_MOST];
        bytes[..path.len()].copy_from_slice(path.as_bytes());
        PathText {
            bytes,
            len: path.len(),
        }
    }

    /// The path.
    pub fn as_str(&self) -> &str
        ensures { result.now ≡ self.now }
    {
        match str::from_utf8(&self.bytes[..self.len]) {
            Ok(path) => path,
            Err(_) => unreachable!(),
        }
    }
}

impl fmt::Debug for PathText {
    fn fmt<W: fmt::Write>(&self, f: &mut fmt::Formatter<W>) -> fmt::Result {
        fmt::Debug::fmt(&self.as_str(), f)
    }
}
