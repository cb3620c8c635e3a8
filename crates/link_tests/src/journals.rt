//! A journal's entries and the room that its limit leaves, and lines and texts beside those of
//! `docs/PROTOCOL.md`, "Audit text", over sinks in memory.
ghost use Rattle.std.specs.Prelude.{◌≡◌, ◌≤◌, length};
ghost use Rattle.history_spec.specs.declared.TheConstants.{JOURNAL_MOST};

use audit_journal::{Entry, EntryKind, Journal, Pick};
use history_spec::{JOURNAL_LEAST, JOURNAL_MOST, SILENT_LIMIT};
use link_port::{MemorySink, Sink};
use std::alloc::{AllocError, Global};
use std::test::Fail;

const OPENED: Entry = Entry {
    client: 0,
    number: 0,
    kind: EntryKind::Open,
    pick: Pick::Nothing,
    faults: 0,
    command: &[],
    reply: &[],
};

const RUN: Entry = Entry {
    client: 2,
    number: 1,
    kind: EntryKind::Command,
    pick: Pick::Session(63),
    faults: 0,
    command: &[1, 2, 3],
    reply: &[4, 5],
};

const CANCELED: Entry = Entry {
    client: 2,
    number: 2,
    kind: EntryKind::Canceled(5),
    pick: Pick::Nothing,
    faults: 0,
    command: &[1],
    reply: &[2, 3],
};

const FAILED: Entry = Entry {
    client: 0,
    number: 9,
    kind: EntryKind::Fault,
    pick: Pick::Nothing,
    faults: 7,
    command: &[6],
    reply: &[7, 8, 9, 10],
};

// TPM2_GetRandom of eight bytes, and its reply: an entry of 96 bytes.
const DRAWN: Entry = Entry {
    client: 0,
    number: 1,
    kind: EntryKind::Command,
    pick: Pick::Nothing,
    faults: 0,
    command: &[
        0x80, 0x01, 0x00, 0x00, 0x00, 0x0c, 0x00, 0x00, 0x01, 0x7b, 0x00, 0x08,
    ],
    reply: &[
        0x80, 0x01, 0x00, 0x00, 0x00, 0x14, 0x00, 0x00, 0x00, 0x00, 0x00, 0x08, 0x76, 0xb8, 0xe0,
        0xad, 0xa0, 0xf1, 0x3d, 0x90,
    ],
};

const CLOSED: Entry = Entry {
    client: 0,
    number: 0,
    kind: EntryKind::Close,
    pick: Pick::Nothing,
    faults: 0,
    command: &[],
    reply: &[],
};

// Adds an entry, whose command and reply have at most 100 bytes each, where there is room for it,
// for a reply of 4,096 bytes and for the close of one client. Whether there was.
fn add(journal: &mut Journal, entry: &Entry) -> bool
    requires command { length entry.now.command.now ≤ 100 }
    requires reply { length entry.now.reply.now ≤ 100 }
    ensures { journal.new.limit ≡ journal.old.limit }
{
    if !journal.room(entry.command.len() as u64, 1) {
        return false;
    }
    journal.push(entry);
    true
}

// Whether the entry at a place is this one.
fn is_at(journal: &Journal, place: u64, wanted: &Entry) -> bool {
    match journal.at(place) {
        None => false,
        Some(entry) => {
            entry.client == wanted.client
                && entry.number == wanted.number
                && entry.kind == wanted.kind
                && entry.pick == wanted.pick
                && entry.faults == wanted.faults
                && entry.command == wanted.command
                && entry.reply == wanted.reply
        }
    }
}

// How many entries there are, and how many bytes they keep.
fn sizes(journal: &Journal) -> (u64, u64) {
    (journal.len(), journal.kept())
}

#[test]
fn keeps_its_entries(rt: HostRuntime) -> Result<(), Fail> {
    let mut journal = Journal::new(rt.alloc(), JOURNAL_LEAST)?;
    let none = sizes(&journal);
    let two = add(&mut journal, &OPENED) && add(&mut journal, &FAILED);
    let told = sizes(&journal);
    let more = add(&mut journal, &RUN) && add(&mut journal, &CANCELED);
    assert!(rt; two && more && none == (0, 0) && told == (2, 2 * 64 + 5));
    assert!(rt; sizes(&journal) == (4, 4 * 64 + 13));
    assert!(rt; is_at(&journal, 0, &OPENED) && is_at(&journal, 1, &FAILED));
    assert!(rt; is_at(&journal, 2, &RUN) && is_at(&journal, 3, &CANCELED));
    assert!(rt; journal.at(4).is_none() && journal.at(u64::MAX).is_none());
    Ok(())
}

#[test]
fn counts_what_it_does_not_keep(rt: HostRuntime) -> Result<(), Fail> {
    let mut journal = Journal::new(rt.alloc(), SILENT_LIMIT)?;
    let none = sizes(&journal);
    let all = add(&mut journal, &OPENED)
        && add(&mut journal, &RUN)
        && add(&mut journal, &CANCELED)
        && add(&mut journal, &FAILED)
        && add(&mut journal, &DRAWN);
    let counts = journal.counts();
    assert!(rt; all && none == (0, 0) && sizes(&journal) == (5, 5 * 64 + 45));
    assert!(rt; counts.commands == 2 && counts.canceled == 1 && counts.faults == 1);
    assert!(rt; journal.at(0).is_none() && journal.at(4).is_none());
    assert!(rt; journal.limit() == 1 << 58 && journal.room(4096, 1 << 32));
    Ok(())
}

// How many draws are added, of so many that are tried.
fn drawn(journal: &mut Journal, tries: u32) -> u32 {
    let mut count = 0;
    for at in 0..tries {
        if add(journal, &DRAWN) {
            count = at + 1;
        }
    }
    count
}

// Whether there is room for a command of this length and the closes of so many clients, but for no
// longer command.
fn has_just_room(journal: &Journal, length: u64, clients: u64) -> bool {
    journal.room(length, clients) && !journal.room(length.saturating_add(1), clients)
}

#[test]
fn commands_have_room_up_to_the_limit(rt: HostRuntime) -> Result<(), Fail> {
    let mut journal = Journal::new(rt.alloc(), JOURNAL_LEAST)?;
    assert!(rt; journal.limit() == 8192 && has_just_room(&journal, 3968, 1));
    let is_open = add(&mut journal, &OPENED);
    let count = drawn(&mut journal, 40);
    assert!(rt; is_open && count == 40 && journal.kept() == 3904);
    // 3,904 + 64 + 64 + 4,096 + 64 is 8,192.
    assert!(rt; has_just_room(&journal, 64, 1) && has_just_room(&journal, 0, 2));
    assert!(rt; journal.room(12, 1) && !journal.room(0, 3));
    // 4,000 + 64 + 32 + 4,096 is 8,192.
    let count = drawn(&mut journal, 3);
    assert!(rt; count == 1 && journal.kept() == 4000 && has_just_room(&journal, 32, 0));
    assert!(rt; journal.room(0, 0) && !journal.room(12, 1));
    Ok(())
}

// Adds draws while there is room for one, with the largest reply and no close behind it.
fn add_draws(journal: &mut Journal) {
    for _ in 0..100 {
        if journal.room(12, 0) {
            journal.push(&DRAWN);
        }
    }
}

// Adds closes while the limit allows one.
fn add_closes(journal: &mut Journal) {
    for _ in 0..100 {
        if journal.limit() - journal.kept() >= 64 {
            journal.push(&CLOSED);
        }
    }
}

// Whether this entry is at each place from this one up to that one.
fn are_at(journal: &Journal, from: u64, to: u64, wanted: &Entry) -> bool {
    for place in from..to {
        if !is_at(journal, place, wanted) {
            return false;
        }
    }
    true
}

// A draw has room up to 8,192 - 64 - 12 - 4,096 kept bytes, which is 4,020. After the opening and
// 41 draws 64 + 41 * 96 are kept, which is 4,000, so there is a 42nd draw, and then 4,096 are kept.
// The other 4,096 are 64 closes: 1 + 42 + 64 entries together.
#[test]
fn its_memory_holds_what_the_limit_allows(rt: HostRuntime) -> Result<(), Fail> {
    let mut journal = Journal::new(rt.alloc(), JOURNAL_LEAST)?;
    let is_open = add(&mut journal, &OPENED);
    add_draws(&mut journal);
    let drawn = sizes(&journal);
    add_closes(&mut journal);
    assert!(rt; is_open && drawn == (43, 4096) && sizes(&journal) == (107, 8192));
    assert!(rt; is_at(&journal, 0, &OPENED) && journal.at(107).is_none());
    assert!(rt; are_at(&journal, 1, 43, &DRAWN) && are_at(&journal, 43, 107, &CLOSED));
    Ok(())
}

#[test]
fn clients_have_room_up_to_the_limit(rt: HostRuntime) -> Result<(), Fail> {
    let mut journal = Journal::new(rt.alloc(), JOURNAL_LEAST)?;
    // 128 + 64 * 126 is 8,192.
    assert!(rt; journal.room_for_client(126) && !journal.room_for_client(127));
    let is_open = add(&mut journal, &OPENED);
    assert!(rt; is_open && journal.room_for_client(125) && !journal.room_for_client(126));
    assert!(rt; journal.room_for_client(0));
    Ok(())
}

// Whether there is room for no command of this length, and for nothing beside the closes of so many
// clients.
fn has_no_room(journal: &Journal, count: u64) -> bool {
    !journal.room(count, 0)
        && !journal.room(0, count)
        && !journal.room(count, count)
        && !journal.room_for_client(count)
}

// 64 times 2 to the power of 58 is 0 where it wraps, and so is 4,160 more than the largest u64 less
// 4,159.
#[test]
fn large_counts_have_no_room(rt: HostRuntime) -> Result<(), Fail> {
    let journal = Journal::new(rt.alloc(), JOURNAL_MOST)?;
    assert!(rt; journal.limit() == 1_073_741_824 && has_just_room(&journal, 1_073_737_664, 0));
    for count in [1 << 58, u64::MAX - 4159, u64::MAX - 1, u64::MAX] {
        assert!(rt; has_no_room(&journal, count), "room at {count}");
    }
    Ok(())
}

// Whether this is the line of an entry whose command and reply are short.
fn is_line(alloc: Global, entry: &Entry, line: &str) -> Result<bool, AllocError> {
    if entry.command.len() > 100 || entry.reply.len() > 100 {
        return Ok(false);
    }
    let mut journal = Journal::new(alloc, JOURNAL_LEAST)?;
    let mut sink = MemorySink::new(alloc, 100, Vec::new(alloc))?;
    Ok(
        add(&mut journal, entry)
            && journal.len() == 1
            && journal.write_line(0, &mut sink).is_ok()
            && sink.written() == line.as_bytes(),
    )
}

#[test]
fn kinds_and_picks_are_told(rt: HostRuntime) -> Result<(), Fail> {
    let rows = [
        (
            Entry {
                client: u32::MAX,
                number: 10,
                kind: EntryKind::Command,
                pick: Pick::Session(63),
                faults: 0,
                command: &[0x80],
                reply: &[0x0a, 0xbf],
            },
            "4294967295 10 command session:63 0 80 0abf\n",
        ),
        (
            Entry {
                client: 7,
                number: u64::MAX,
                kind: EntryKind::Command,
                pick: Pick::Sequence(255),
                faults: 0,
                command: &[0xff],
                reply: &[0x00],
            },
            "7 18446744073709551615 command sequence:255 0 ff 00\n",
        ),
        (
            Entry {
                client: 0,
                number: 1,
                kind: EntryKind::Canceled(1),
                pick: Pick::Nothing,
                faults: 0,
                command: &[0x80, 0x01],
                reply: &[0x09, 0x09],
            },
            "0 1 canceled:1 - 0 8001 0909\n",
        ),
        (
            Entry {
                client: 0,
                number: 3,
                kind: EntryKind::Canceled(u64::MAX),
                pick: Pick::Nothing,
                faults: 0,
                command: &[],
                reply: &[],
            },
            "0 3 canceled:18446744073709551615 - 0 - -\n",
        ),
        (
            Entry {
                client: 0,
                number: 2,
                kind: EntryKind::Fault,
                pick: Pick::Nothing,
                faults: 12,
                command: &[0x12, 0x34],
                reply: &[0x56],
            },
            "0 2 fault - 12 1234 56\n",
        ),
    ];
    for (entry, line) in &rows {
        assert!(rt; is_line(rt.alloc(), entry, line)?, "at {line}");
    }
    Ok(())
}

// The text of an opening and a draw.
const TEXT: &[u8] = b"0 0 open - 0 - -
0 1 command - 0 80010000000c0000017b0008 80010000001400000000000876b8e0ada0f13d90
";

// Whether the text of a journal is whole over a sink that fails at this call. None where it is
// neither that nor a front of it with one failure.
fn is_whole(alloc: Global, journal: &Journal, call: u64) -> Result<Option<bool>, AllocError>
    requires { journal.now.limit ≤ JOURNAL_MOST }
{
    let mut sink = MemorySink::new(alloc, 200, vec![in alloc; call]?)?;
    let is_whole = journal.write_all(&mut sink).is_ok();
    let is_right = TEXT.starts_with(sink.written())
        && (sink.written().len() == TEXT.len()) == is_whole
        && sink.fault_count() == u64::from(!is_whole);
    Ok(is_right.then_some(is_whole))
}

// Each line takes a call at least, and no call comes behind the last line.
#[test]
fn a_sink_fails_at_each_call(rt: HostRuntime) -> Result<(), Fail> {
    let alloc = rt.alloc();
    let mut journal = Journal::new(alloc, JOURNAL_LEAST)?;
    let two = add(&mut journal, &OPENED) && add(&mut journal, &DRAWN);
    let mut failures = 0;
    for call in 0..100 {
        let is_whole = is_whole(alloc, &journal, call)?.ok_or("another text")?;
        if !is_whole {
            failures = call + 1;
        }
    }
    assert!(rt; two && (2..100).contains(&failures));
    Ok(())
}
