//! How many commands the device is sent for sessions of clients, over the places that it has for
//! them.
use crate::clients::{START_SESSION, get_digest, open, start};
use device_port::Device;
use std::alloc::Global;
use std::test::Fail;

// How many commands the device is sent where a client starts so many sessions, and then asks the
// last four of 60 for their digests in turn, so many times.
fn sent_after(alloc: Global, starts: u8, digests: u16) -> Result<u64, Fail> {
    let mut clients = start(alloc, Vec::new(alloc))?;
    let is_open = open(&mut clients, 1);
    for _ in 0..starts {
        let _ = clients.send(0, &START_SESSION);
    }
    for number in 0..digests {
        let _ = clients.send(0, &get_digest(56 + (number & 3) as u8));
    }
    let (device, _) = clients.finish();
    if !is_open {
        return Err("a client opens".into());
    }
    Ok(device.sent_count())
}

// Each start but the first three saves another session, so 57 are saved in contexts of the numbers
// 0 to 56. Each digest saves one session and loads another, and after 190 of them the next number
// is 247. The next command saves one session for room, renews the 56 with the oldest contexts by
// two commands each, and then loads the session that it names.
#[test]
fn old_contexts_are_renewed_in_one_command(rt: HostRuntime) -> Result<(), Fail> {
    assert_eq!(rt; sent_after(rt.alloc(), 60, 189)?, 692);
    assert_eq!(rt; sent_after(rt.alloc(), 60, 190)?, 695);
    assert_eq!(rt; sent_after(rt.alloc(), 60, 191)?, 810);
    Ok(())
}

// 64 sessions are all that there may be. A start beyond them is sent alone, and no place is freed
// for it.
#[test]
fn no_place_is_freed_for_a_start_that_is_refused(rt: HostRuntime) -> Result<(), Fail> {
    assert_eq!(rt; sent_after(rt.alloc(), 64, 0)?, 133);
    assert_eq!(rt; sent_after(rt.alloc(), 66, 0)?, 135);
    Ok(())
}
