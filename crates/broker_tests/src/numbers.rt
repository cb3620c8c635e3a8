//! What clients see over devices of other numbers than the profile's, and how many commands such a
//! device is sent for each of theirs.
use crate::clients::{START_SESSION, create, get_digest, read};
use crate::pair::Pair;
use std::alloc::Global;
use std::test::Fail;
use tab_spec::Numbers;

// The profile's, but with contexts that may be farther apart.
pub(crate) const WIDE_GAP: Numbers = Numbers {
    slots: 3,
    loaded: 3,
    active: 64,
    gap: 400,
};

// The most slots and places that a broker serves.
const MOST_ROOM: Numbers = Numbers {
    slots: 254,
    loaded: 64,
    active: 64,
    gap: 255,
};

// ---- a wide gap

// The response to PolicyGetDigest for a session with no policy.
const NO_POLICY: [u8; 44] = [
    0x80, 0x01, 0, 0, 0, 0x2c, 0, 0, 0, 0, 0, 0x20, 0, 0, 0, 0, 0, 0, 0, 0, 0, 0, 0, 0, 0, 0, 0, 0,
    0, 0, 0, 0, 0, 0, 0, 0, 0, 0, 0, 0, 0, 0, 0, 0,
];

const DIGESTS: u16 = 4800;

// The digests, counted from 1, for which an old context is renewed. Five sessions on three places:
// the fourth start saves the first session as number 0, and the fifth start the second one as
// number 1. From then on each digest saves one session and loads another. So the third digest saves
// the fifth session as number 4, where it stays, and behind the digest N the next number is N + 2.
// It is 392 above 4 behind digest 394. A renewed context is the second one that is made for its
// digest: behind digest 395 it has number 397, and the next one is 398. From there it takes 391
// digests until the next number is 392 above it.
const RENEWALS: [u16; 12] = [
    395, 787, 1179, 1571, 1963, 2355, 2747, 3139, 3531, 3923, 4315, 4707,
];

// Whether a client starts five sessions: for each but the first three another one is saved.
fn starts_five(pair: &mut Pair) -> bool {
    for number in 0..5u8 {
        let count = if number < 3 { 1 } else { 2 };
        if !pair.sends(&START_SESSION, count) {
            return false;
        }
    }
    true
}

// Whether the first four sessions are asked for their digests in turn. For each digest one session
// is saved, another one loaded, and the command sent. If a renewal is due, one session is saved,
// the fifth loaded and saved again, the one that is asked loaded, and the command sent.
fn asks_in_turn(pair: &mut Pair) -> bool {
    for digest in 1..=DIGESTS {
        let count = if RENEWALS.contains(&digest) { 5 } else { 3 };
        if !pair.sends(&get_digest(((digest - 1) & 3) as u8), count) {
            return false;
        }
    }
    true
}

// Whether the fifth session is still there in the end.
fn keeps_the_fifth(alloc: Global) -> Result<bool, Fail> {
    let mut pair = Pair::begin(alloc, WIDE_GAP, 1)?;
    let keeps = starts_five(&mut pair)
        && asks_in_turn(&mut pair)
        && pair.answers(0, &get_digest(4), &NO_POLICY);
    let _ = pair.finish();
    Ok(keeps)
}

// A device that refused to save a session would give a wrong answer, and the reply would be another
// one.
#[test]
fn contexts_are_renewed_by_the_gap_of_the_device(rt: HostRuntime) -> Result<(), Fail> {
    assert!(rt; keeps_the_fifth(rt.alloc())?);
    Ok(())
}

// ---- much room

const OBJECTS: u8 = 100;

const SESSIONS: u8 = 64;

// Whether a client makes its objects and starts its sessions, and one command is sent for each.
fn makes_all(pair: &mut Pair) -> bool {
    for number in 0..OBJECTS {
        if !pair.sends(&create(number), 1) {
            return false;
        }
        if number < SESSIONS && !pair.sends(&START_SESSION, 1) {
            return false;
        }
    }
    true
}

// Whether it reads each object and asks each session for its digest, in the same way.
fn uses_all(pair: &mut Pair) -> bool {
    for number in 0..OBJECTS {
        if !pair.sends(&read(number), 1) {
            return false;
        }
        if number < SESSIONS && !pair.sends(&get_digest(number), 1) {
            return false;
        }
    }
    true
}

fn has_room(alloc: Global) -> Result<bool, Fail> {
    let mut pair = Pair::begin(alloc, MOST_ROOM, 1)?;
    let has = makes_all(&mut pair) && uses_all(&mut pair);
    let _ = pair.finish();
    Ok(has)
}

#[test]
fn nothing_leaves_a_device_with_room_for_all(rt: HostRuntime) -> Result<(), Fail> {
    assert!(rt; has_room(rt.alloc())?);
    Ok(())
}
