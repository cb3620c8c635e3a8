// How many entries a journal has of each kind, and how many bytes they keep.
ghost use Rattle.std.specs.Prelude.{◌≡◌, ◌+◌, ◌<◌, ◌^◌, cond, length};
ghost use Rattle.history_spec.specs.Entry.{is_fault_kind, kept_by};
ghost use Rattle.audit_journal.specs.Counts.{is_canceled_kind, is_command_kind, with_counted};
ghost use Rattle.audit_journal.specs.Journal.{seen_entry};

use crate::journal::Entry;
use history_spec::{ENTRY_BYTES, EntryKind};

/// How many entries a journal has, and what they keep.
#[derive(Clone, Copy)]
pub struct Counts {
    /// All entries.
    pub entries: u64,
    /// The bytes that they keep: 64 for each, and those of its command and its reply.
    pub kept: u64,
    /// The entries of commands that were answered.
    pub commands: u64,
    /// Those of commands that were canceled.
    pub canceled: u64,
    /// Those of commands whose transmission failed.
    pub faults: u64,
}

impl Counts {
    // With one more entry.
    pub(crate) fn with(&self, entry: &Entry) -> Counts
        requires entries { self.now.entries < 2 ^ 60 }
        requires kept { self.now.kept + kept_by (seen_entry entry.now) < 2 ^ 60 }
        requires commands { self.now.commands < 2 ^ 60 }
        requires canceled { self.now.canceled < 2 ^ 60 }
        requires faults { self.now.faults < 2 ^ 60 }
        ensures { result ≡ with_counted self.now (seen_entry entry.now) }
    {
        let length = (entry.command.len() + entry.reply.len()) as u64;
        Counts {
            entries: self.entries + 1,
            kept: self.kept + ENTRY_BYTES + length,
            commands: counted(is_command(entry.kind), self.commands),
            canceled: counted(is_canceled(entry.kind), self.canceled),
            faults: counted(is_fault(entry.kind), self.faults),
        }
    }
}

fn is_command(kind: EntryKind) -> bool
    ensures { result ≡ is_command_kind kind }
{
    match kind {
        EntryKind::Command => true,
        EntryKind::Open | EntryKind::Canceled(_) | EntryKind::Fault | EntryKind::Close => false,
    }
}

fn is_canceled(kind: EntryKind) -> bool
    ensures { result ≡ is_canceled_kind kind }
{
    match kind {
        EntryKind::Canceled(_) => true,
        EntryKind::Open | EntryKind::Command | EntryKind::Fault | EntryKind::Close => false,
    }
}

fn is_fault(kind: EntryKind) -> bool
    ensures { result ≡ is_fault_kind kind }
{
    match kind {
        EntryKind::Fault => true,
        EntryKind::Open | EntryKind::Command | EntryKind::Canceled(_) | EntryKind::Close => false,
    }
}

// A count, after one more where there is one.
fn counted(more: bool, count: u64) -> u64
    requires { count + 1 < 2 ^ 64 }
    ensures { result ≡ cond more (count + 1) count }
{
    if more { count + 1 } else { count }
}
