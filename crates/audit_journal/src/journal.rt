ghost use Rattle.std.specs.Prelude.{◌≡◌, ◌+◌, ◌≤◌, ◌<◌, ◌∷◌, ◌++◌, [], length, slice_get};
ghost use Rattle.std.specs.Prelude.{IfOk, IsNone, IsOk, OnErr, OnOk};
ghost use Rattle.std.specs.Option.{option_map};
ghost use Rattle.history_spec.specs.Entry.{IsLimit, kept, kept_by};
ghost use Rattle.std.specs.List.{AllByRecursion};
ghost use Rattle.tab_spec.specs.Count.{Rose};
ghost use Rattle.tab_spec.specs.Values.{AreBytes};
ghost use Rattle.link_port.specs.Port.{with_more};
ghost use Rattle.history_spec.specs.AuditText.{audit_text};
ghost use Rattle.audit_journal.specs.Counts.{counts_of};
ghost use Rattle.audit_journal.specs.Journal.{seen_entry, has_room, has_room_for_client};
ghost use Rattle.history_spec.specs.declared.TheConstants.{SILENT_LIMIT};
ghost use Rattle.audit_journal.specs.Text.{WroteFrontOf, line_at};

use crate::counts::Counts;
use crate::region::Region;
use crate::text::write_entry;
use ghost_lists::{Grows, grow};
use history_spec::{ENTRY_BYTES, EntryKind, JOURNAL_LEAST, JOURNAL_MOST, Pick, SILENT_LIMIT};
use link_port::{Failed, Sink};
use std::alloc::{AllocError, Global};
use std::marker::{Model, PhantomData};
use std::snapshot::Snapshot;
use tab_spec::MOST_BYTES;

/// One item of the journal.
#[derive(Clone, Copy)]
pub struct Entry<'a> {
    /// The client, numbered from 0 in the order of opening.
    pub client: u32,
    /// The number of the command among its client's, from 1; 0 where the entry is no command's.
    pub number: u64,
    pub kind: EntryKind,
    pub pick: Pick,
    /// The device's fault count where the entry is a fault's, else 0.
    pub faults: u64,
    pub command: &'a [u8],
    pub reply: &'a [u8],
}

/// The entries so far, for contracts alone.
#[derive(Drop)]
pub struct Entries {
    of: PhantomData<()>,
}

impl Model for Entries {
    ghost use Rattle.std.specs.Prelude.{List, []};
    ghost use Rattle.history_spec.specs.Entry as spec;

    ghost Value = { List spec.Entry };

    ghost view = { λ _. [] };
}

impl<'a> Grows<Entry<'a>> for Entries {
    ghost use Rattle.std.specs.Prelude.{◌++◌, ◌∷◌, []};
    ghost use Rattle.audit_journal.specs.Journal.{seen_entry};

    ghost with = { λ entries e. entries ++ seen_entry e ∷ [] };
}

/// What happened to a broker's clients, one entry after another. It is seen as the list of its
/// entries, and the limit of the bytes that its entries keep. It keeps them, in memory taken when
/// it begins, or only counts them: then the limit is 2^58, which none that keeps them has.
#[derive(Drop)]
pub struct Journal {
    entries: Snapshot<Entries>,
    counts: Counts,
    limit: u64,
    region: Option<Region>,
}

impl Model for Journal {
    ghost use Rattle.audit_journal.specs.Journal.{JournalView};

    ghost Value = { JournalView };

    ghost use Rattle.audit_journal.specs.Region.{IsSound};

    ghost view = { λ j. record { entries = j.entries.value; limit = j.limit } };

    ghost invariant = { λ j. IsSound j.entries.value j.counts j.limit j.region };
}

// What a slice has are bytes.
fn slice_has_bytes(bytes: &[u8])
    ensures { AreBytes bytes.now }
{
    let _length = bytes.len();
}

impl Journal {
    /// An empty journal whose entries keep at most so many bytes: 8,192 to 1,073,741,824. It takes
    /// the memory for all of them here, and no more later; what isn't used yet is untouched. With
    /// the limit 2^58 it keeps no entry, only counts them, and takes no memory.
    pub fn new(alloc: Global, limit: u64) -> Result<Journal, AllocError>
        requires { IsLimit limit }
        ensures empty { IfOk result (λ j. j.entries ≡ []) }
        ensures limit { IfOk result (λ j. j.limit ≡ limit) }
        ensures silent { limit ≡ SILENT_LIMIT → IsOk result }
    {
        let counts = Counts {
            entries: 0,
            kept: 0,
            commands: 0,
            canceled: 0,
            faults: 0,
        };
        let region = if limit == SILENT_LIMIT {
            None
        } else {
            Some(Region::new(alloc, limit as u32)?)
        };
        Ok(Journal {
            entries: Snapshot::of(&Entries { of: PhantomData }),
            counts,
            limit,
            region,
        })
    }

    /// How many entries it has.
    pub fn len(&self) -> u64
        ensures { result ≡ length self.now.entries }
    {
        self.counts.entries
    }

    /// How many entries it has of each kind, and how many bytes they keep.
    pub fn counts(&self) -> Counts
        ensures { result ≡ counts_of self.now.entries }
    {
        self.counts
    }

    /// How many bytes its entries keep: 64 for each, and those of its command and its reply.
    pub fn kept(&self) -> u64
        ensures kept { result ≡ kept self.now.entries }
        ensures within { result ≤ self.now.limit }
    {
        self.counts.kept
    }

    /// How many bytes its entries may keep: 8,192 to 1,073,741,824, and 2^58 where it keeps none.
    pub fn limit(&self) -> u64
        ensures limit { result ≡ self.now.limit }
        ensures is { IsLimit result }
    {
        self.limit
    }

    /// The replies of its entries are of bytes: a law, which does nothing when it runs.
    pub fn replies_are_bytes(&self)
        ensures { AllByRecursion (λ e. AreBytes e.reply) self.now.entries }
    {
        let _limit = self.limit;
    }

    /// Whether its limit leaves room for the entry of a command of this length with a reply of
    /// 4,096 bytes, and then for the closes of so many clients.
    pub fn room(&self, length: u64, clients: u64) -> bool
        ensures { result ≡ has_room self.now length clients }
    {
        let bytes = ENTRY_BYTES
            .saturating_mul(clients)
            .saturating_add(length)
            .saturating_add(ENTRY_BYTES + u64::from(MOST_BYTES));
        bytes <= self.limit - self.counts.kept
    }

    /// Whether its limit leaves room for the entries of one more client's opening and close, and
    /// for the closes of so many others.
    pub fn room_for_client(&self, clients: u64) -> bool
        ensures { result ≡ has_room_for_client self.now clients }
    {
        let entries = ENTRY_BYTES
            .saturating_mul(clients)
            .saturating_add(2 * ENTRY_BYTES);
        entries <= self.limit - self.counts.kept
    }

    /// Adds an entry, which the limit allows. It takes no memory.
    pub fn push(&mut self, entry: &Entry)
        requires { kept self.old.entries + kept_by (seen_entry entry.now) ≤ self.old.limit }
        ensures pushed { self.new.entries ≡ self.old.entries ++ seen_entry entry.now ∷ [] }
        ensures limit { self.new.limit ≡ self.old.limit }
    {
        slice_has_bytes(entry.reply);
        self.counts = self.counts.with(entry);
        if let Some(region) = &mut self.region {
            region.push(entry);
        }
        grow(&mut self.entries, entry);
    }

    /// The entry at a place, from 0; nothing at the length and above, and where it keeps none.
    pub fn at(&self, place: u64) -> Option<Entry<'_>>
        ensures kept { self.now.limit ≤ JOURNAL_MOST
            → option_map seen_entry result ≡ slice_get self.now.entries place }
        ensures silent { JOURNAL_MOST < self.now.limit → IsNone result }
    {
        let Some(region) = &self.region else {
            return None;
        };
        if place >= self.counts.entries {
            return None;
        }
        Some(region.entry_at(place))
    }

    // The entry at a place where there is one.
    fn entry_at(&self, place: u64) -> Entry<'_>
        requires keeps { self.now.limit ≤ JOURNAL_MOST }
        requires place { place < length self.now.entries }
        ensures { slice_get self.now.entries place ≡ Some (seen_entry result) }
    {
        let Some(region) = &self.region else {
            unreachable!()
        };
        region.entry_at(place)
    }

    /// Writes the line of the entry at a place, from 0: client, number, kind, pick, fault count,
    /// command and reply, and a newline. Numbers are decimal, bytes lower-case hexadecimal, and `-`
    /// stands where there is nothing. The form is this project's own (`docs/PROTOCOL.md`, "Audit
    /// text"). It takes no memory. After `Failed`, which comes only where the sink's count rose, a
    /// part of the line from its front was written and not all of it. After `Ok` the count is what
    /// it was.
    pub fn write_line<K: Sink>(&self, place: u64, sink: &mut K) -> Result<(), Failed>
        requires keeps { self.now.limit ≤ JOURNAL_MOST }
        requires place { place < length self.now.entries }
        ensures ok { OnOk result (K.written sink.new
            ≡ with_more (K.written sink.old) (line_at self.now.entries place)) }
        ensures front { OnErr result (WroteFrontOf (line_at self.now.entries place)
            (K.written sink.old) (K.written sink.new)) }
        ensures cause { OnErr result (Rose (K.faults sink.old) (K.faults sink.new)) }
        ensures quiet { OnOk result (K.faults sink.new ≡ K.faults sink.old) }
        ensures count { K.faults sink.old ≤ K.faults sink.new }
    {
        write_entry(&self.entry_at(place), sink)
    }

    /// Writes the whole text: the lines of all entries in their order, as [`Journal::write_line`]
    /// does each. After `Failed` a part of the text from its front was written and not all of it,
    /// and nothing is tried again.
    pub fn write_all<K: Sink>(&self, sink: &mut K) -> Result<(), Failed>
        requires keeps { self.now.limit ≤ JOURNAL_MOST }
        ensures ok { OnOk result (K.written sink.new
            ≡ with_more (K.written sink.old) (audit_text self.now.entries)) }
        ensures front { OnErr result (WroteFrontOf (audit_text self.now.entries)
            (K.written sink.old) (K.written sink.new)) }
        ensures cause { OnErr result (Rose (K.faults sink.old) (K.faults sink.new)) }
        ensures quiet { OnOk result (K.faults sink.new ≡ K.faults sink.old) }
        ensures count { K.faults sink.old ≤ K.faults sink.new }
    {
        for place in 0..self.len() {
            self.write_line(place, sink)?;
        }
        Ok(())
    }
}
