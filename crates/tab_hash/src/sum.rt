ghost use Rattle.std.specs.Prelude.{◌≡◌, ℕ, List, [], ◌++◌};
ghost use Rattle.sha2.specs.Sha256.{sha256};
ghost use Rattle.tab_spec.specs.Hash.{name_of};
ghost use Rattle.tab_hash.specs.Adding.{HasAdded};

use sha2::{Digest, Sha256};

/// A SHA-256 in the making (FIPS 180-4), of bytes that come in pieces.
#[derive(Drop)]
pub struct Sum {
    hasher: Sha256,
}

impl Sum {
    /// Nothing was added.
    pub fn new() -> Sum
        ensures { HasAdded result [] }
    {
        Sum {
            hasher: Sha256::new(),
        }
    }

    /// Adds bytes behind those that were added.
    pub fn add(&mut self, bytes: &[u8])
        ensures { (before : List ℕ) → HasAdded self.old before
            → HasAdded self.new (before ++ bytes.now) }
    {
        self.hasher.update(bytes);
    }

    /// The SHA-256 of the bytes that were added.
    pub fn end(self) -> [u8; 32]
        ensures { (added : List ℕ) → HasAdded self added → result ≡ sha256 added }
    {
        self.hasher.finalize()
    }
}

/// The Name of an object or an NV index by its public area (Part 1, "Names"): the number of SHA-256
/// and the hash.
pub fn name_of(public: &[u8]) -> [u8; 34]
    ensures { result ≡ name_of public.now }
{
    let mut name = [0; 34];
    name[1] = 0x0b;
    name[2..].copy_from_slice(&Sha256::digest(public));
    name
}
