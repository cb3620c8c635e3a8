// Where a journal's entries are kept: their bytes one after another, and where each one's lie.
ghost use Rattle.std.specs.Prelude.{◌≡◌, ◌+◌, ◌≤◌, ◌<◌, ◌^◌, ◌∷◌, ◌++◌, [], length, slice_get};
ghost use Rattle.std.specs.Prelude.{IfOk};
ghost use Rattle.history_spec.specs.Entry.{kept, kept_by};
ghost use Rattle.audit_journal.specs.Journal.{seen_entry};

use crate::journal::Entry;
use crate::record::Record;
use history_spec::ENTRY_BYTES;
use std::alloc::{AllocError, Global};
use std::marker::Model;

// The entries that are kept, in memory that was taken before the first of them. It is seen as their
// list, with the most bytes that they may keep: 64 for each, and those of its command and reply.
#[derive(Drop)]
pub(crate) struct Region {
    records: Vec<Record>,
    bytes: Vec<u8>,
}

impl Model for Region {
    ghost use Rattle.std.specs.Prelude.{◌*◌, map, min, vec_capacity};
    ghost use Rattle.audit_journal.specs.Region.{HasKept, RegionView, entry_of};

    ghost Value = { RegionView };

    ghost view = { λ r. record {
      entries = map (entry_of r.bytes.items) r.records.items;
      most = min (64 * vec_capacity r.records) (vec_capacity r.bytes);
    } };

    ghost invariant = { λ r. HasKept r.bytes.items r.records.items };
}

impl Region {
    // It keeps nothing yet, and takes all its memory: for entries that keep so many bytes together.
    pub(crate) fn new(alloc: Global, most: u32) -> Result<Region, AllocError>
        ensures empty { IfOk result (λ r. r.entries ≡ []) }
        ensures most { IfOk result (λ r. r.most ≡ most) }
    {
        let entries = most as usize / ENTRY_BYTES as usize + 1;
        Ok(Region {
            records: Vec::with_capacity(alloc, entries)?,
            bytes: Vec::with_capacity(alloc, most as usize)?,
        })
    }

    // Keeps an entry, for which there is room.
    pub(crate) fn push(&mut self, entry: &Entry)
        requires within { kept self.old.entries + kept_by (seen_entry entry.now) ≤ self.old.most }
        requires small { kept self.old.entries + kept_by (seen_entry entry.now) < 2 ^ 32 }
        ensures pushed { self.new.entries ≡ self.old.entries ++ seen_entry entry.now ∷ [] }
        ensures most { self.old.most ≤ self.new.most }
    {
        let start = self.bytes.len() as u32;
        self.bytes.extend_from_slice(entry.command).unwrap();
        let middle = self.bytes.len() as u32;
        self.bytes.extend_from_slice(entry.reply).unwrap();
        let end = self.bytes.len() as u32;
        self.records.push_reserved(Record {
            client: entry.client,
            start,
            middle,
            end,
            number: entry.number,
            faults: entry.faults,
            kind: entry.kind,
            pick: entry.pick,
        });
    }

    // The entry at a place where there is one.
    pub(crate) fn entry_at(&self, place: u64) -> Entry<'_>
        requires { place < length self.now.entries }
        ensures { slice_get self.now.entries place ≡ Some (seen_entry result) }
    {
        let record = self.records[place as usize];
        Entry {
            client: record.client,
            number: record.number,
            kind: record.kind,
            pick: record.pick,
            faults: record.faults,
            command: &self.bytes[record.start as usize..record.middle as usize],
            reply: &self.bytes[record.middle as usize..record.end as usize],
        }
    }
}
