// A source and a sink in memory, which fail at listed calls and at a full store.
ghost use Rattle.std.specs.Prelude.{◌≡◌, ◌<◌, ◌≤◌, ◌⊎◌, ◌↔◌, ◌++◌, List, ℕ, Some, length, take};
ghost use Rattle.std.specs.Prelude.{drop, IfOk, OnOk, OnErr, IsErr, IsTrue, Contains};
ghost use Rattle.tab_spec.specs.Count.{Rose, one_more};
ghost use Rattle.link_port.specs.Port.{Pulled, with_more};
ghost use Rattle.link_port.specs.Memory.{new_supply, new_store, most_given, count_given};
ghost use Rattle.link_port.specs.Memory.{count_taken, room_left};

use crate::{Failed, Sink, Source};
use std::alloc::{AllocError, Global};
use std::marker::Model;

/// A source in memory that gives its bytes in listed pieces and fails at listed calls. This
/// project's own, for scripts and tests.
#[derive(Drop)]
pub struct MemorySource {
    bytes: Vec<u8>,
    // How many of the bytes were given.
    given: usize,
    pieces: Vec<u32>,
    failing: Vec<u64>,
    calls: u64,
    faults: u64,
}

impl Model for MemorySource {
    ghost use Rattle.std.specs.Prelude.{◌≤◌, drop, length};
    ghost use Rattle.link_port.specs.Memory.{Supply};

    ghost Value = { Supply };

    ghost view = { λ s. record {
      left = drop s.given s.bytes.items;
      pieces = s.pieces.items;
      failing = s.failing.items;
      calls = s.calls;
      faults = s.faults;
    } };

    ghost invariant = { λ s. s.given ≤ length s.bytes.items };
}

impl MemorySource {
    /// A source of these bytes. Call `i`, counted from 0, gives at most `pieces[i]` bytes and at
    /// least one, and past the list as many as fit. It fails at the calls whose numbers are in
    /// `failing`, and at no other. The call count stands still at the largest u64.
    pub fn new(bytes: Vec<u8>, pieces: Vec<u32>, failing: Vec<u64>) -> MemorySource
        ensures { result ≡ new_supply bytes.items pieces.items failing.items }
    {
        MemorySource {
            bytes,
            given: 0,
            pieces,
            failing,
            calls: 0,
            faults: 0,
        }
    }
}

// The most bytes that a call gives into this room.
fn most_at(pieces: &[u32], call: u64, room: usize) -> usize
    ensures { result ≡ most_given pieces.now call room }
{
    match pieces.get(call as usize) {
        Some(piece) => (*piece).max(1) as usize,
        None => room,
    }
}

// Whether this call is to fail.
pub(crate) fn is_failing(failing: &[u64], call: u64) -> bool
    ensures { IsTrue result ↔ Contains failing.now call }
{
    failing.contains(&call)
}

impl Source for MemorySource {
    ghost left = { λ s. Some s.left };

    ghost faults = { λ s. s.faults };

    fn pull(&mut self, into: &mut [u8]) -> Result<usize, Failed>
        ensures bound { IfOk result (λ k. k ≤ length into.old) }
        ensures pulled { IfOk result (λ k.
            Pulled (Some self.old.left) (Some self.new.left) (length into.old) (take k into.new)) }
        ensures err { OnErr result (Some self.new.left ≡ Some self.old.left) }
        ensures fault { OnErr result (Rose self.old.faults self.new.faults) }
        ensures count { self.old.faults ≤ self.new.faults }

        // Which calls fail, and how many bytes the others give.
        ensures fails { IsErr result ↔ Contains self.old.failing self.old.calls }
        ensures given { IfOk result (λ k. k ≡ count_given self.old (length into.old)) }
        ensures rest { IfOk result (λ k. self.new.left ≡ drop k self.old.left) }

        // The bytes of `into` behind those that were given stay.
        ensures front { IfOk result (λ k. into.new ≡ take k self.old.left ++ drop k into.old) }
        ensures untouched { OnErr result (into.new ≡ into.old) }

        ensures calls { self.new.calls ≡ one_more self.old.calls }
        ensures quiet { OnOk result (self.new.faults ≡ self.old.faults) }
        ensures faults_err { OnErr result (self.new.faults ≡ one_more self.old.faults) }
        ensures pieces { self.new.pieces ≡ self.old.pieces }
        ensures failing { self.new.failing ≡ self.old.failing }
    {
        let call = self.calls;
        self.calls = call.saturating_add(1);
        if is_failing(&self.failing, call) {
            self.faults = self.faults.saturating_add(1);
            return Err(Failed);
        }
        let left = &self.bytes[self.given..];
        let count = most_at(&self.pieces, call, into.len())
            .min(into.len())
            .min(left.len());
        into[..count].copy_from_slice(&left[..count]);
        self.given += count;
        Ok(count)
    }

    fn fault_count(&self) -> u64 {
        self.faults
    }
}

/// A sink in memory with room for a fixed number of bytes, which fails at listed calls and once its
/// room is used up. This project's own, for scripts and tests.
#[derive(Drop)]
pub struct MemorySink {
    bytes: Vec<u8>,
    room: usize,
    ended: bool,
    failing: Vec<u64>,
    calls: u64,
    faults: u64,
}

impl Model for MemorySink {
    ghost use Rattle.std.specs.Prelude.{◌≤◌, vec_len, vec_capacity};
    ghost use Rattle.link_port.specs.Memory.{Store};

    ghost Value = { Store };

    ghost view = { λ s. record {
      written = s.bytes.items;
      room = s.room;
      ended = s.ended;
      failing = s.failing.items;
      calls = s.calls;
      faults = s.faults;
    } };

    ghost invariant = { λ s. (vec_len s.bytes ≤ s.room) × (s.room ≤ vec_capacity s.bytes) };
}

impl MemorySink {
    /// An empty sink with room for `room` bytes. It takes the memory for all of them here, so that
    /// no push needs any. It fails at the calls, counted from 0, whose numbers are in `failing`,
    /// and where bytes come and the room is used up. The only error is want of memory.
    pub fn new(alloc: Global, room: usize, failing: Vec<u64>) -> Result<MemorySink, AllocError>
        ensures { IfOk result (λ sink. sink ≡ new_store room failing.items) }
    {
        Ok(MemorySink {
            bytes: Vec::with_capacity(alloc, room)?,
            room,
            ended: false,
            failing,
            calls: 0,
            faults: 0,
        })
    }

    /// The bytes that were written so far.
    pub fn written(&self) -> &[u8]
        ensures { result.now ≡ self.now.written }
    {
        &self.bytes
    }

    /// Whether its end was said.
    pub fn has_ended(&self) -> bool
        ensures { result ≡ self.now.ended }
    {
        self.ended
    }
}

impl Sink for MemorySink {
    ghost written = { λ s. Some s.written };

    ghost ended = { λ s. Some s.ended };

    ghost faults = { λ s. s.faults };

    fn push(&mut self, bytes: &[u8]) -> Result<usize, Failed>
        ensures bound { IfOk result (λ k. k ≤ length bytes.now) }
        ensures some { IfOk result (λ k. 0 < length bytes.now → 0 < k) }
        ensures pushed { IfOk result
            (λ k. Some self.new.written ≡ with_more (Some self.old.written) (take k bytes.now)) }
        ensures err { OnErr result (Some self.new.written ≡ Some self.old.written) }
        ensures goes_on { Some self.new.ended ≡ Some self.old.ended }
        ensures fault { OnErr result (Rose self.old.faults self.new.faults) }
        ensures count { self.old.faults ≤ self.new.faults }

        // Which calls fail, and how many bytes the others take.
        ensures fails { IsErr result ↔ (Contains self.old.failing self.old.calls
            ⊎ ((room_left self.old ≡ 0) × (0 < length bytes.now))) }
        ensures taken { IfOk result (λ k. k ≡ count_taken self.old (length bytes.now)) }

        ensures calls { self.new.calls ≡ one_more self.old.calls }
        ensures quiet { OnOk result (self.new.faults ≡ self.old.faults) }
        ensures faults_err { OnErr result (self.new.faults ≡ one_more self.old.faults) }
        ensures room { self.new.room ≡ self.old.room }
        ensures failing { self.new.failing ≡ self.old.failing }
    {
        let call = self.calls;
        self.calls = call.saturating_add(1);
        let room = self.room - self.bytes.len();
        let is_full = room == 0 && !bytes.is_empty();
        if is_full || is_failing(&self.failing, call) {
            self.faults = self.faults.saturating_add(1);
            return Err(Failed);
        }
        let count = bytes.len().min(room);
        let stored = self.bytes.extend_from_slice(&bytes[..count]);
        prove!(stored.is_ok());
        Ok(count)
    }

    /// Keeps that its end was said. It has no peer, and still takes bytes.
    fn end(&mut self) {
        self.ended = true;
    }

    fn fault_count(&self) -> u64 {
        self.faults
    }
}
