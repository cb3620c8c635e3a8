ghost use Rattle.std.specs.Prelude.{◌≡◌, ◌<◌, ◌≤◌, ◌-◌, ◌^◌, ℕ, List, [], ◌++◌, length, map};
ghost use Rattle.std.specs.Prelude.{replicate};
ghost use Rattle.std.specs.Int.Bits.{bit_xor};
ghost use Rattle.tab_spec.specs.Hash.{block_key, hmac, kdfa, kdfa_block, masked, xor_bytes};
ghost use Rattle.tab_hash.specs.Adding.{HasKey};

use sha2::{Digest, Sha256};

// How many bytes a block of SHA-256 has, and its result.
const BLOCK_BYTES: usize = 64;

const SUM_BYTES: usize = 32;

/// An HMAC with SHA-256 in the making (FIPS 198-1), of bytes that come in pieces.
#[derive(Drop)]
pub struct Mac {
    inner: Sha256,
    outer: Sha256,
}

impl Mac {
    /// Nothing was added. The key may have any length: one of more than 64 bytes is hashed first.
    pub fn new(key: &[u8]) -> Mac
        ensures { HasKey result key.now [] }
    {
        let block = block_key(key);
        let mut inner = Sha256::new();
        inner.update(padded(0x36, block));
        let mut outer = Sha256::new();
        outer.update(padded(0x5c, block));
        Mac { inner, outer }
    }

    /// Adds bytes behind those that were added.
    pub fn add(&mut self, bytes: &[u8])
        ensures { (key before : List ℕ) → HasKey self.old key before
            → HasKey self.new key (before ++ bytes.now) }
    {
        self.inner.update(bytes);
    }

    /// The HMAC of the bytes that were added.
    pub fn end(self) -> [u8; 32]
        ensures { (key added : List ℕ) → HasKey self key added → result ≡ hmac key added }
    {
        let mut outer = self.outer;
        outer.update(self.inner.finalize());
        outer.finalize()
    }
}

// A key as one block.
fn block_key(key: &[u8]) -> [u8; 64]
    ensures { result ≡ block_key key.now }
{
    if key.len() > BLOCK_BYTES {
        return with_zeros(&Sha256::digest(key));
    }
    with_zeros(key)
}

// Bytes as one block, with zeros behind them.
fn with_zeros(bytes: &[u8]) -> [u8; 64]
    requires { length bytes.now ≤ 64 }
    ensures { result ≡ bytes.now ++ replicate (64 - length bytes.now) 0 }
{
    let mut block = [0; BLOCK_BYTES];
    block[..bytes.len()].copy_from_slice(bytes);
    block
}

// A block with each byte changed by this one.
fn padded(pad: u8, block: [u8; 64]) -> [u8; 64]
    ensures { result ≡ map (bit_xor pad) block }
{
    let mut padded = block;
    for i in 0..BLOCK_BYTES {
        padded[i] = pad ^ padded[i];
    }
    padded
}

impl Mac {
    /// The same key, and the same bytes were added.
    pub fn another(&self) -> Mac
        ensures { (key added : List ℕ) → HasKey self.now key added → HasKey result key added }
    {
        Mac {
            inner: self.inner.clone().unwrap(),
            outer: self.outer.clone().unwrap(),
        }
    }

    /// As [`kdfa`] with the key of this, to which nothing was added. What derives often from one
    /// key pads and hashes it once.
    pub fn derive(&self, label: &[u8], u: &[u8], v: &[u8], out: &mut [u8])
        requires { length out.old < 2 ^ 29 }
        ensures { (key : List ℕ) → HasKey self.now key []
            → out.new ≡ kdfa key label.now u.now v.now (length out.old) }
    {
        let bits = 8 * out.len() as u32;
        let mut at = 0;
        let mut number = 0;
        while at < out.len() {
            number += 1;
            let block = self.derived_block(label, u, v, bits, number);
            let len = (out.len() - at).min(SUM_BYTES);
            out[at..at + len].copy_from_slice(&block[..len]);
            at += len;
        }
    }

    fn derived_block(&self, label: &[u8], u: &[u8], v: &[u8], bits: u32, number: u32) -> [u8; 32]
        ensures size { length result ≡ 32 }
        ensures block { (key : List ℕ) → HasKey self.now key []
            → result ≡ kdfa_block key label.now u.now v.now bits number }
    {
        let mut mac = self.another();
        mac.add(&number.to_be_bytes());
        mac.add(label);
        mac.add(&[0]);
        mac.add(u);
        mac.add(v);
        mac.add(&bits.to_be_bytes());
        mac.end()
    }

    /// As [`mask`] with the key of this, to which nothing was added.
    pub fn mask(&self, label: &[u8], u: &[u8], v: &[u8], bytes: &[u8], out: &mut [u8])
        requires same { length bytes.now ≡ length out.old }
        requires few { length bytes.now < 2 ^ 29 }
        ensures { (key : List ℕ) → HasKey self.now key []
            → out.new ≡ masked key label.now u.now v.now bytes.now }
    {
        self.derive(label, u, v, out);
        xor(bytes, out);
    }
}

/// Derives bytes from a key, a label without a zero and two contexts: KDFa of Part 1, which is the
/// counter mode of SP 800-108 over HMAC. The label's zero is added.
pub fn kdfa(key: &[u8], label: &[u8], u: &[u8], v: &[u8], out: &mut [u8])
    requires { length out.old < 2 ^ 29 }
    ensures { out.new ≡ kdfa key.now label.now u.now v.now (length out.old) }
{
    Mac::new(key).derive(label, u, v, out);
}

/// Bytes hidden by what [`kdfa`] derives of as many bytes, written over `out`. Hidden once more,
/// they are as they were.
pub fn mask(key: &[u8], label: &[u8], u: &[u8], v: &[u8], bytes: &[u8], out: &mut [u8])
    requires same { length bytes.now ≡ length out.old }
    requires few { length bytes.now < 2 ^ 29 }
    ensures { out.new ≡ masked key.now label.now u.now v.now bytes.now }
{
    Mac::new(key).mask(label, u, v, bytes, out);
}

// Each byte changed by its own of a mask, written over the mask.
fn xor(bytes: &[u8], mask: &mut [u8])
    requires { length bytes.now ≡ length mask.old }
    ensures { mask.new ≡ xor_bytes bytes.now mask.old }
{
    for i in 0..bytes.len() {
        mask[i] = bytes[i] ^ mask[i];
    }
}
