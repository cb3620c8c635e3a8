//! Which responses a broker takes (`takes` of `device_port`).
//!
//! A line is a word, a command and a response to it: `takes` and `refuses` where the broker holds
//! nothing, and `taken` where a client has a session with the number of the response's handle, so
//! that the response is refused. These hold of each device; `other` is of one that is taken from a
//! TPM that isn't of the profile, and from no device that is.
use device_port::takes;
use std::alloc::Global;
use std::test::Fail;
use tab_spec::{PROFILE_CONTEXTS, TPM_CONTEXTS};
use tab_wire::is_frame;

const RESPONSES: &str = "\
# errors are ten bytes, with codes that are not hidden
takes 80010000000c0000017b0004 80010000000a000001da
takes 80010000000c0000017b0004 80010000000a00000917
refuses 80010000000c0000017b0004 80010000000a00000910
refuses 80010000000c0000017b0004 80010000000a00000100
refuses 80010000000c0000017b0004 80010000000a00000909
# Startup may have come before
takes 80010000000c000001440000 80010000000a00000000
takes 80010000000c000001440000 80010000000a00000100
refuses 80010000000c000001440000 80010000000a00000101
# authorizations fill the response
takes 80020000001f00000182000000070000000940000009000001000000000000 800200000013000000000000000000\
    00010000
refuses 80020000001f00000182000000070000000940000009000001000000000000 8002000000130000000000000001\
    0000010000
# sessions have the handle that was asked for, and a number that no client has
takes 8001000000170000017640000007400000070000000000 800100000010000000000200003f0000
refuses 8001000000170000017640000007400000070000000000 80010000001000000000020000400000
refuses 8001000000170000017640000007400000070000000000 80010000001000000000030000000000
takes 8001000000170000017640000007400000070000000000 80010000001000000000020000000000
taken 8001000000170000017640000007400000070000000000 80010000001000000000020000000000
# contexts have the handle that was saved
takes 80010000000e0000016202000000 80010000001c00000000000000000000000502000000400000070000
takes 80010000000e0000016280000001 80010000001c00000000000000000000000580000000400000070000
refuses 80010000000e0000016202000000 80010000001c00000000000000000000000503000000400000070000
refuses 80010000000e0000016280000001 80010000001c00000000000000000000000502000000400000070000
# an object is saved as 0x80000002 where it goes with a reset
other 80010000000e0000016280000001 80010000001c00000000000000000000000580000002400000070000
refuses 80010000000e0000016280000001 80010000001c00000000000000000000000580000001400000070000
refuses 80010000000e0000016202000002 80010000001c00000000000000000000000580000002400000070000";

const BAD_LINE: &str = "a line has three words";

// Whether a line holds.
fn holds(alloc: Global, line: &str) -> Result<bool, Fail> {
    let (word, rest) = line.split_once(' ').ok_or(BAD_LINE)?;
    let (asked, last) = rest.split_once(' ').ok_or(BAD_LINE)?;
    let asked = hex::decode(alloc, asked)?;
    let last = hex::decode(alloc, last)?;
    if !is_frame(asked.as_slice()) {
        return Ok(false);
    }
    let (asked, last) = (asked.as_slice(), last.as_slice());
    let is_taken = word == "taken";
    let profile = takes(PROFILE_CONTEXTS, asked, last, false, is_taken);
    let other = takes(TPM_CONTEXTS, asked, last, false, is_taken);
    Ok(profile == (word == "takes") && other == (word == "takes" || word == "other"))
}

#[test]
fn responses_are_taken_or_refused(rt: HostRuntime) -> Result<(), Fail> {
    for line in RESPONSES.lines() {
        if !line.starts_with('#') {
            assert!(rt; holds(rt.alloc(), line)?, "{line}");
        }
    }
    Ok(())
}
