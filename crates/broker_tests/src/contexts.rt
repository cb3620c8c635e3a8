//! Contexts of sessions that clients save, load and flush.
use crate::clients::{START_SESSION, flush, get_digest, save};
use crate::numbers::WIDE_GAP;
use crate::pair::Pair;
use std::alloc::{AllocError, Global};
use std::test::Fail;
use tab_spec::Numbers;

// StartAuthSession of an HMAC session, with a nonce of 32 zeros.
const START_HMAC: [u8; 59] = [
    0x80, 0x01, 0, 0, 0, 0x3b, 0, 0, 0x01, 0x76, 0x40, 0, 0, 0x07, 0x40, 0, 0, 0x07, 0, 0x20, 0, 0,
    0, 0, 0, 0, 0, 0, 0, 0, 0, 0, 0, 0, 0, 0, 0, 0, 0, 0, 0, 0, 0, 0, 0, 0, 0, 0, 0, 0, 0, 0, 0, 0,
    0, 0, 0x10, 0, 0x0b,
];

// The first 16 bytes of its response, which has 48, on a new device.
const STARTED_HMAC: [u8; 16] = [
    0x80, 0x01, 0, 0, 0, 0x30, 0, 0, 0, 0, 0x02, 0, 0, 0, 0, 0x20,
];

// PCR_Extend of PCR 7 by no digest, authorized by that session, which goes on.
const EXTEND_BY_HMAC: [u8; 31] = [
    0x80, 0x02, 0, 0, 0, 0x1f, 0, 0, 0x01, 0x82, 0, 0, 0, 0x07, 0, 0, 0, 0x09, 0x02, 0, 0, 0, 0, 0,
    0x01, 0, 0, 0, 0, 0, 0,
];

// The first 16 bytes of its response, which has 51.
const EXTENDED_BY_HMAC: [u8; 16] = [0x80, 0x02, 0, 0, 0, 0x33, 0, 0, 0, 0, 0, 0, 0, 0, 0, 0x20];

// The header of the response to ContextSave of that session, which has 138 bytes.
const SAVED: [u8; 10] = [0x80, 0x01, 0, 0, 0, 138, 0, 0, 0, 0];

// What stands in it behind the sequence: the session's handle, the null hierarchy, and the size of
// the blob of 110 bytes.
const SAVED_FROM: [u8; 10] = [0x02, 0, 0, 0, 0x40, 0, 0, 0x07, 0, 110];

// The response to the load of that session.
const LOADED: [u8; 14] = [0x80, 0x01, 0, 0, 0, 14, 0, 0, 0, 0, 0x02, 0, 0, 0];

// The first 12 bytes of the response to PolicyGetDigest.
const DIGEST: [u8; 12] = [0x80, 0x01, 0, 0, 0, 0x2c, 0, 0, 0, 0, 0, 0x20];

// The codes of a handle that isn't there, in a parameter and in an authorization.
const NOT_THERE: u32 = 0x1cb;

const NO_SESSION: u32 = 0x918;

// ContextLoad of what a response to ContextSave has behind its header: the code alone is another.
fn load_of(alloc: Global, saved: &[u8]) -> Result<Vec<u8>, AllocError> {
    let mut command = Vec::from_slice(alloc, saved)?;
    if command.len() >= 10 {
        command[8] = 0x01;
        command[9] = 0x61;
    }
    Ok(command)
}

// Starts four policy sessions of a client beside the HMAC session; whether all are there.
fn starts_four(pair: &mut Pair, client: u32) -> bool {
    let mut all = true;
    for number in 1..5u8 {
        let begin = [
            0x80, 0x01, 0, 0, 0, 0x20, 0, 0, 0, 0, 0x03, 0, 0, number, 0, 0x10,
        ];
        all = pair.answers(client, &START_SESSION, &begin) && all;
    }
    all
}

// Asks the four policy sessions for their digests in turn, so many times; whether all are told.
fn asks(pair: &mut Pair, client: u32, times: u16) -> bool {
    let mut all = true;
    for number in 0..times {
        all = pair.answers(client, &get_digest(1 + (number & 3) as u8), &DIGEST) && all;
    }
    all
}

// Whether the first client starts the HMAC session.
fn starts_session(pair: &mut Pair) -> bool {
    pair.answers(0, &START_HMAC, &STARTED_HMAC)
}

// Whether the HMAC session is saved: a context of 128 bytes.
fn saves_session(pair: &mut Pair) -> bool {
    pair.answers(0, &save(0x0200_0000), &SAVED)
        && pair.reply().len() == 138
        && pair.reply().get(18..28) == Some(SAVED_FROM.as_slice())
}

// Whether the saved session is out of use, and its context of no use to another client.
fn is_away(pair: &mut Pair, load: &[u8]) -> bool {
    pair.tells(0, &EXTEND_BY_HMAC, NO_SESSION)
        && pair.tells(0, &save(0x0200_0000), 0x910)
        && pair.tells(1, load, NOT_THERE)
}

// Whether the session is loaded once, and then used.
fn is_back(pair: &mut Pair, load: &[u8]) -> bool {
    pair.answers(0, load, &LOADED)
        && pair.tells(0, load, NOT_THERE)
        && pair.answers(0, &EXTEND_BY_HMAC, &EXTENDED_BY_HMAC)
}

// Whether FlushContext takes the session that is saved, once, and its context with it.
fn is_flushed(pair: &mut Pair, load: &[u8]) -> bool {
    pair.tells(1, &flush(0x0200_0000), NOT_THERE)
        && pair.tells(0, &flush(0x0200_0000), 0)
        && pair.tells(0, &flush(0x0200_0000), NOT_THERE)
        && pair.tells(0, load, NOT_THERE)
}

// Whether the session is saved and loaded, saved again and flushed so. While it is saved first, so
// many digests are asked for.
fn loads_once(alloc: Global, pair: &mut Pair, digests: u16) -> Result<bool, AllocError> {
    if !starts_session(pair) || !starts_four(pair, 0) || !saves_session(pair) {
        return Ok(false);
    }
    let load = load_of(alloc, pair.reply())?;
    if !is_away(pair, &load) || !asks(pair, 0, digests) || !is_away(pair, &load) {
        return Ok(false);
    }
    if !is_back(pair, &load) || !saves_session(pair) {
        return Ok(false);
    }
    let last = load_of(alloc, pair.reply())?;
    Ok(is_flushed(pair, &last))
}

// The same over a new pair. The device is sent three commands for each digest.
fn is_loaded_once(alloc: Global, numbers: Numbers, digests: u16) -> Result<bool, Fail> {
    let mut pair = Pair::begin(alloc, numbers, 2)?;
    let loaded = loads_once(alloc, &mut pair, digests);
    let sent = pair.finish();
    Ok(loaded? && sent > 3 * u64::from(digests))
}

// Four sessions share three places, so each digest saves one session and loads another. The device
// saves no session under a number that is 255 above that of its oldest context. So within 300
// digests the broker has to renew the context of the session that is away. With a gap of 400 it has
// to within 1,200 of them.
#[test]
fn a_saved_session_is_loaded_once(rt: HostRuntime) -> Result<(), Fail> {
    let profile = Numbers::of_the_profile();
    for (numbers, digests) in [(profile, 0), (profile, 300), (WIDE_GAP, 1200)] {
        assert!(rt; is_loaded_once(rt.alloc(), numbers, digests)?);
    }
    Ok(())
}

// Whether the first client starts the HMAC session, saves it, and closes.
fn leaves_session(pair: &mut Pair) -> bool {
    starts_session(pair) && saves_session(pair) && pair.closes()
}

// Whether the second client takes the left session up, and uses it. A third one is refused.
fn is_taken_up(pair: &mut Pair, load: &[u8]) -> bool {
    pair.answers(1, load, &LOADED)
        && pair.tells(2, load, NOT_THERE)
        && pair.answers(1, &EXTEND_BY_HMAC, &EXTENDED_BY_HMAC)
}

// Whether the session is left and taken up so. While it is left, the second client asks its own
// four for so many digests.
fn takes_up(alloc: Global, pair: &mut Pair, digests: u16) -> Result<bool, AllocError> {
    if !leaves_session(pair) {
        return Ok(false);
    }
    let load = load_of(alloc, pair.reply())?;
    Ok(starts_four(pair, 1) && asks(pair, 1, digests) && is_taken_up(pair, &load))
}

// The same over a new pair: how many commands the device is sent, if all is so.
fn sent_until_taken_up(alloc: Global, digests: u16) -> Result<Option<u64>, Fail> {
    let mut pair = Pair::begin(alloc, Numbers::of_the_profile(), 3)?;
    let taken = takes_up(alloc, &mut pair, digests);
    let sent = pair.finish();
    Ok(if taken? { Some(sent) } else { None })
}

// The device is sent eight commands at the start, the session's start and its save, five for four
// more starts, and three for the session's use, but none when it is left or given back. Each digest
// costs three, as above, and takes one context number. The left session is saved under the number
// 0, and renewed before the digests 246, 493, 740 and 987, for two commands each: then the next
// number is 247 above that of its context.
#[test]
fn a_left_session_is_taken_up(rt: HostRuntime) -> Result<(), Fail> {
    assert_eq!(rt; sent_until_taken_up(rt.alloc(), 0)?, Some(18));
    assert_eq!(rt; sent_until_taken_up(rt.alloc(), 1000)?, Some(3026));
    Ok(())
}
