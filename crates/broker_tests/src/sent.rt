//! How many commands the device is sent for what a client does.
ghost use Rattle.std.specs.Prelude.{◌≤◌};
ghost use Rattle.history_spec.specs.declared.TheConstants.{JOURNAL_LEAST, JOURNAL_MOST};

use crate::clients::{START_SESSION, create, flush, get_digest, open, read, save};
use crate::driver::Clients;
use device_port::Device;
use history_spec::{JOURNAL_LEAST, JOURNAL_MOST};
use std::alloc::Global;
use std::test::Fail;
use tab_spec::Numbers;

// What a client does.
#[derive(Clone, Copy)]
enum Act {
    // It makes the key with this unique field.
    Make(u8),
    // It reads its object of this number.
    Read(u8),
    // It starts a session.
    Start,
    // It asks its session of this number for the digest.
    Ask(u8),
    Flush(u32),
    // It saves its session of this number.
    Save(u8),
    // A command of it is canceled.
    Cancel,
    // A command of 3,400 bytes, which is refused.
    Fill,
    Close,
}

// What a client does one after the other, and how many commands the device was sent by then.
// The eight of the start are among them.
type Acts = &'static [(Act, u64)];

// What is in a slot or in a place stays there.
const RESIDENT: Acts = &[
    (Act::Make(0), 9),
    (Act::Make(1), 10),
    (Act::Read(1), 11),
    (Act::Read(0), 12),
    (Act::Read(0), 13),
    (Act::Start, 14),
    (Act::Start, 15),
    (Act::Ask(1), 16),
    (Act::Ask(0), 17),
    (Act::Save(1), 18),
    // What isn't there, and what is neither an object nor a session.
    (Act::Flush(0x8000_0005), 18),
    (Act::Flush(0x0200_0007), 18),
    (Act::Flush(0x4000_0001), 18),
    (Act::Cancel, 18),
    // An object that is in a slot, and a session that is saved.
    (Act::Flush(0x8000_0001), 19),
    (Act::Flush(0x0300_0001), 20),
    // The other object and the other session.
    (Act::Close, 22),
];

// Four objects on three slots. The one that was used least recently leaves: it is saved the first
// time, and flushed. The one that is read is loaded.
const FOUR_OBJECTS: Acts = &[
    (Act::Make(0), 9),
    (Act::Make(1), 10),
    (Act::Make(2), 11),
    (Act::Make(3), 14),
    (Act::Read(0), 18),
    (Act::Read(1), 22),
    (Act::Read(2), 26),
    (Act::Read(3), 29),
    (Act::Read(0), 32),
    (Act::Read(1), 35),
    (Act::Read(2), 38),
    (Act::Read(3), 41),
    (Act::Read(3), 42),
    // In no slot: it is forgotten, and nothing is sent.
    (Act::Flush(0x8000_0000), 42),
    (Act::Close, 45),
];

// Five of them.
const FIVE_OBJECTS: Acts = &[
    (Act::Make(0), 9),
    (Act::Make(1), 10),
    (Act::Make(2), 11),
    (Act::Make(3), 14),
    (Act::Make(4), 17),
    (Act::Read(4), 18),
    (Act::Read(2), 19),
    (Act::Read(3), 20),
];

// The first one was read again before the fourth is made, so the second leaves. The two others that
// are in slots stay there.
const READ_AGAIN: Acts = &[
    (Act::Make(0), 9),
    (Act::Make(1), 10),
    (Act::Make(2), 11),
    (Act::Read(0), 12),
    (Act::Make(3), 15),
    (Act::Read(0), 16),
    (Act::Read(1), 20),
    (Act::Read(3), 21),
    (Act::Read(0), 22),
    (Act::Read(1), 23),
];

// Four sessions on three places. The one that was used least recently is saved, each time.
const FOUR_SESSIONS: Acts = &[
    (Act::Start, 9),
    (Act::Start, 10),
    (Act::Start, 11),
    (Act::Start, 13),
    (Act::Ask(0), 16),
    (Act::Ask(0), 17),
    (Act::Ask(1), 20),
    (Act::Ask(0), 21),
    (Act::Ask(1), 22),
];

// The first one was asked again before the fourth is started, so the second leaves.
const ASKED_AGAIN: Acts = &[
    (Act::Start, 9),
    (Act::Start, 10),
    (Act::Start, 11),
    (Act::Ask(0), 12),
    (Act::Start, 14),
    (Act::Ask(0), 15),
    (Act::Ask(1), 18),
    (Act::Ask(3), 19),
    // Nothing leaves for a session that its client saves.
    (Act::Save(3), 20),
    (Act::Ask(0), 21),
    (Act::Ask(2), 23),
];

// The session that is saved is left: the close flushes the other one alone.
const LEFT: Acts = &[
    (Act::Start, 9),
    (Act::Start, 10),
    (Act::Save(0), 11),
    (Act::Close, 12),
];

// Nine saved sessions, of which eight are left: the close flushes one.
const NINE_SAVED: Acts = &[
    (Act::Start, 9),
    (Act::Save(0), 10),
    (Act::Start, 11),
    (Act::Save(1), 12),
    (Act::Start, 13),
    (Act::Save(2), 14),
    (Act::Start, 15),
    (Act::Save(3), 16),
    (Act::Start, 17),
    (Act::Save(4), 18),
    (Act::Start, 19),
    (Act::Save(5), 20),
    (Act::Start, 21),
    (Act::Save(6), 22),
    (Act::Start, 23),
    (Act::Save(7), 24),
    (Act::Start, 25),
    (Act::Save(8), 26),
    (Act::Close, 27),
];

// Over a journal that may keep 8,192 bytes. Behind the third one there is no room for a command, so
// the object isn't read. The close has room, and flushes the session and the object.
const FULL: Acts = &[
    (Act::Make(0), 9),
    (Act::Start, 10),
    (Act::Fill, 10),
    (Act::Read(0), 10),
    (Act::Close, 12),
];

// Lets the first client do it.
fn carry_out(clients: &mut Clients, act: Act) {
    let _ = match act {
        Act::Make(unique) => clients.send(0, &create(unique)),
        Act::Read(number) => clients.send(0, &read(number)),
        Act::Start => clients.send(0, &START_SESSION),
        Act::Ask(number) => clients.send(0, &get_digest(number)),
        Act::Flush(handle) => clients.send(0, &flush(handle)),
        Act::Save(number) => clients.send(0, &save(0x0300_0000 + u32::from(number))),
        Act::Cancel => clients.cancel(0, &read(0)),
        Act::Fill => clients.send(0, &[0; 3400]),
        Act::Close => {
            let _ = clients.close();
            None
        }
    };
}

// How many commands the device was sent when a client did all of this.
fn sent_after(alloc: Global, limit: u64, acts: &[(Act, u64)]) -> Result<u64, Fail>
    requires least { JOURNAL_LEAST ≤ limit }
    requires most { limit ≤ JOURNAL_MOST }
{
    let numbers = Numbers::of_the_profile();
    let mut clients = Clients::begin(alloc, numbers, Vec::new(alloc), limit).ok_or(
        "the broker begins",
    )?;
    let _ = open(&mut clients, 1);
    for (one, _) in acts {
        carry_out(&mut clients, *one);
    }
    let (device, _) = clients.finish();
    Ok(device.sent_count())
}

// Whether the device was sent as many commands as it should, after each act.
fn are_sent(alloc: Global, limit: u64, acts: &[(Act, u64)]) -> Result<bool, Fail>
    requires least { JOURNAL_LEAST ≤ limit }
    requires most { limit ≤ JOURNAL_MOST }
{
    for place in 0..acts.len() {
        if sent_after(alloc, limit, &acts[..place + 1])? != acts[place].1 {
            return Ok(false);
        }
    }
    Ok(true)
}

#[test]
fn no_more_is_sent_than_has_to_be(rt: HostRuntime) -> Result<(), Fail> {
    let lists = [
        RESIDENT,
        FOUR_OBJECTS,
        FIVE_OBJECTS,
        READ_AGAIN,
        FOUR_SESSIONS,
        ASKED_AGAIN,
        LEFT,
        NINE_SAVED,
    ];
    for acts in lists {
        assert!(rt; are_sent(rt.alloc(), JOURNAL_MOST, acts)?);
    }
    assert!(rt; are_sent(rt.alloc(), JOURNAL_LEAST, FULL)?);
    Ok(())
}
