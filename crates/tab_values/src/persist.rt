ghost use Rattle.std.specs.Prelude.{◌≡◌, ◌<◌, ◌≤◌, ◌+◌, [], ◌∷◌, ◌++◌, nat_lt, length, map, get_or};
ghost use Rattle.std.specs.Prelude.{take, drop, Some, None, Ok, Err, is_ok, IfSome, IsSomeAnd};
ghost use Rattle.std.specs.Prelude.{IfOk, OnErr, MatchOption, MatchResult};
ghost use Rattle.std.specs.List.{position_or_len};
ghost use Rattle.tab_spec.specs.NvIndex.{is_index, index_in, without_index, with_index, with_bytes};
ghost use Rattle.tab_spec.specs.NvIndex.{IsNvIndex};
ghost use Rattle.tab_spec.specs.Persist.{fresh_persist, drawn, with_pcr};
ghost use Rattle.tab_values.specs.Views.{nv_index_of};

use crate::nv_index::NvIndex;
use rand_chacha::ChaCha20Rng;
use rand_core::SeedableRng;
use rand_core::utils::fill_bytes_via_u32;
use std::alloc::{AllocError, Global};
use std::marker::Model;
use tab_fields::SmallBytes;
use tab_spec::{LAST_PLACE, NV_INDEXES, PCRS, RC_FAILURE};

/// What a device keeps, whatever is loaded: the seed of its random stream and the place in it, the
/// owner's auth value, the NV indexes, the PCRs and how often one was updated.
#[derive(Drop)]
pub struct Persist {
    seed: [u8; 32],
    // In words of four bytes.
    place: u64,
    // The random stream at this place. It makes 64 words at once, and a draw takes the next ones.
    stream: ChaCha20Rng,
    owner_auth: SmallBytes<32>,
    // There is room for all of them from the beginning.
    nv: Vec<NvIndex>,
    pcrs: [[u8; 32]; PCRS as usize],
    updates: u32,
}

impl Model for Persist {
    ghost use Rattle.std.specs.Prelude.{◌≡◌, ◌≤◌, map, vec_len, vec_capacity};
    ghost use Rattle.std.specs.List.{AllByRecursion};
    ghost use Rattle.tab_spec.specs.Persist.{Persist as Kept};
    ghost use Rattle.tab_spec.specs.NvIndex.{IsNvIndex};
    ghost use Rattle.tab_spec.specs.declared.TheConstants.{LAST_PLACE, NV_INDEXES};
    ghost use Rattle.tab_values.specs.Stream.{generator_at};
    ghost use Rattle.tab_values.specs.Views.{nv_index_of};

    ghost Value = { Kept };

    ghost view = { λ p. record {
      seed = p.seed;
      place = p.place;
      owner_auth = p.owner_auth;
      nv = map nv_index_of p.nv.items;
      pcrs = p.pcrs;
      updates = p.updates;
    } };

    ghost invariant = { λ p. (p.place ≤ LAST_PLACE) × (vec_len p.nv ≤ NV_INDEXES)
        × (NV_INDEXES ≤ vec_capacity p.nv) × AllByRecursion IsNvIndex (map nv_index_of p.nv.items)
        × (p.stream ≡ generator_at p.seed p.place) };
}

impl Persist {
    /// What a device keeps that was never used, from the 32 bytes of its seed. It fails only for
    /// want of memory, and takes that of all NV indexes now.
    pub fn new(alloc: Global, seed: [u8; 32]) -> Result<Persist, AllocError>
        ensures { IfOk result (λ p. p ≡ fresh_persist seed) }
    {
        Ok(Persist {
            seed,
            place: 0,
            stream: ChaCha20Rng::from_seed(seed),
            owner_auth: SmallBytes::new(),
            nv: Vec::with_capacity(alloc, NV_INDEXES as usize)?,
            pcrs: [[0; 32]; PCRS as usize],
            updates: 0,
        })
    }

    /// The seed, from which its random stream, its primary objects and the key of its tickets
    /// follow.
    pub fn seed(&self) -> &[u8; 32]
        ensures { result.now ≡ self.now.seed }
    {
        &self.seed
    }

    /// The place in its random stream, in words of four bytes.
    pub fn random_place(&self) -> u64
        ensures place { result ≡ self.now.place }
        ensures most { result ≤ LAST_PLACE }
    {
        self.place
    }

    /// Goes back to a place in its random stream, in words of four bytes.
    pub fn rewind(&mut self, place: u64)
        requires { place ≤ LAST_PLACE }
        ensures { self.new ≡ record self.old { place = place } }
    {
        self.place = place;
        self.stream.set_word_pos(u128::from(place));
    }

    /// Whether so many bytes can be drawn of its random stream.
    pub fn can_draw(&self, count: usize) -> bool
        ensures { result ≡ is_ok (drawn self.now count) }
    {
        count.div_ceil(4) as u64 <= LAST_PLACE - self.place
    }

    /// The auth value of the owner hierarchy, of at most 32 bytes.
    pub fn owner_auth(&self) -> &[u8]
        ensures same { result.now ≡ self.now.owner_auth }
        ensures most { length result.now ≤ 32 }
    {
        self.owner_auth.as_slice()
    }

    /// The NV index with this handle; `None` if it isn't defined.
    pub fn index(&self, index: u32) -> Option<&NvIndex>
        ensures item { MatchOption result (index_in index self.now.nv ≡ None)
            (λ item. index_in index self.now.nv ≡ Some (nv_index_of item.now)) }
        ensures sound { IfSome result (λ item. IsNvIndex (nv_index_of item.now)) }
    {
        self.nv.iter().find(|item| item.public.index == index)
    }

    /// The NV indexes, in the order in which they were defined.
    pub fn indexes(&self) -> &[NvIndex]
        ensures { map nv_index_of result.now ≡ self.now.nv }
    {
        &self.nv
    }

    // Which of the NV indexes has this handle, from 0.
    fn position(&self, index: u32) -> Option<usize>
        ensures { MatchOption result (index_in index self.now.nv ≡ None) (λ place.
            (place < length self.now.nv) × (place ≡ position_or_len (is_index index) self.now.nv)) }
    {
        self.nv.iter().position(|item| item.public.index == index)
    }

    /// Whether there is room for another NV index.
    pub fn has_room(&self) -> bool
        ensures { result ≡ nat_lt (length self.now.nv) NV_INDEXES }
    {
        self.nv.len() < NV_INDEXES as usize
    }

    /// Adds an NV index behind the others.
    pub fn define(&mut self, item: NvIndex)
        requires room { length self.old.nv < NV_INDEXES }
        requires sound { IsNvIndex (nv_index_of item) }
        ensures { self.new ≡ record self.old { nv = self.old.nv ++ nv_index_of item ∷ [] } }
    {
        self.nv.push(item).unwrap();
    }

    /// Removes an NV index, where it is there.
    pub fn undefine(&mut self, index: u32)
        ensures { self.new ≡ record self.old { nv = without_index index self.old.nv } }
    {
        if let Some(place) = self.position(index) {
            self.nv.remove(place);
        }
    }

    /// Writes bytes over those of an NV index from a place on, after which it was written.
    pub fn write_index(&mut self, index: u32, at: usize, bytes: &[u8])
        requires { IsSomeAnd (index_in index self.old.nv)
            (λ item. at + length bytes.now ≤ length item.bytes) }
        ensures { IfSome (index_in index self.old.nv) (λ item. self.new ≡ record self.old {
          nv = with_index index (with_bytes item (take at item.bytes ++ bytes.now
              ++ drop (at + length bytes.now) item.bytes)) self.old.nv;
        }) }
    {
        if let Some(place) = self.position(index) {
            self.nv[place].write(at, bytes);
        }
    }

    /// The value of a PCR, numbered from 0.
    pub fn pcr(&self, pcr: u32) -> &[u8; 32]
        requires { pcr < PCRS }
        ensures { result.now ≡ get_or self.now.pcrs pcr [] }
    {
        &self.pcrs[pcr as usize]
    }

    /// How often a PCR was updated, modulo 2^32.
    pub fn updates(&self) -> u32
        ensures { result ≡ self.now.updates }
    {
        self.updates
    }

    /// Gives a PCR another value, which counts as an update.
    pub fn set_pcr(&mut self, pcr: u32, value: [u8; 32])
        requires { pcr < PCRS }
        ensures { self.new ≡ with_pcr self.old pcr value }
    {
        self.pcrs[pcr as usize] = value;
        self.updates = self.updates.wrapping_add(1);
    }
}

/// Fills `out` with the next bytes of the device's random stream, which is that of `ChaCha20Rng`
/// with the device's seed (the project's own). What the last word of four bytes has over is lost.
/// An error is the response code `TPM_RC_FAILURE`: the last place would be passed, and nothing
/// changes.
pub fn draw(persist: &mut Persist, out: &mut [u8]) -> Result<(), u32>
    ensures drawn { MatchResult result
        (λ _. drawn persist.old (length out.old) ≡ Ok (out.new, persist.new))
        (λ code. drawn persist.old (length out.old) ≡ Err code) }
    ensures err { OnErr result ((persist.new ≡ persist.old) × (out.new ≡ out.old)) }
{
    let words = out.len().div_ceil(4) as u64;
    if words > LAST_PLACE - persist.place {
        return Err(RC_FAILURE);
    }
    fill_bytes_via_u32(&mut persist.stream, out);
    persist.place += words;
    Ok(())
}
