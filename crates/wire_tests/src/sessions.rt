//! Tests of the sessions of `tab_values`.

use std::test::Fail;
use tab_bytes::Reader;
use tab_values::{AuthNeeded, Session, SessionKind, SmallBytes, read_session, session_octets};

// A policy for Unseal that asks for the password and for update count 7; its nonceTPM is 16 bytes.
const POLICY: [u8; 62] = [
    0x01, 0x00, 0x10, 0x01, 0x01, 0x01, 0x01, 0x01, 0x01, 0x01, 0x01, 0x01, 0x01, 0x01, 0x01, 0x01,
    0x01, 0x01, 0x01, 0x00, 0x00, 0x00, 0x00, 0x00, 0x00, 0x00, 0x00, 0x00, 0x00, 0x00, 0x00, 0x00,
    0x00, 0x00, 0x00, 0x00, 0x00, 0x00, 0x00, 0x00, 0x00, 0x00, 0x00, 0x00, 0x00, 0x00, 0x00, 0x00,
    0x00, 0x00, 0x00, 0x00, 0x00, 0x01, 0x5e, 0x06, 0x00, 0x00, 0x00, 0x07, 0xff, 0xff,
];

// The bytes behind the session, which are no part of it.
const BEHIND: usize = 2;

#[test]
fn writes_a_session(rt: HostRuntime) {
    let written = Session {
        kind: SessionKind::Policy,
        nonce: SmallBytes::of(&[0x01; 16]).unwrap(),
        digest: [0x00; 32],
        command_code: Some(0x15e),
        needed: AuthNeeded::Password,
        pcr_updates: Some(7),
    };
    let bytes = session_octets(&written);
    assert!(rt; bytes.as_slice() == &POLICY[..POLICY.len() - BEHIND]);
}

// Whether a session is what its bytes say.
fn is_policy(session: &Session) -> bool {
    session.kind == SessionKind::Policy
        && session.nonce.as_slice() == [0x01; 16].as_slice()
        && session.digest == [0x00; 32]
        && session.command_code == Some(0x15e)
        && session.needed == AuthNeeded::Password
        && session.pcr_updates == Some(7)
}

#[test]
fn reads_a_session(rt: HostRuntime) -> Result<(), Fail> {
    let mut r = Reader::new(&POLICY);
    let read = read_session(&mut r)?;
    assert!(rt; r.rest() == [0xff, 0xff].as_slice() && is_policy(&read));
    Ok(())
}

// The error of a reader that is given the session with one byte changed.
fn refusal(at: usize, byte: u8) -> Option<u32> {
    let mut bytes = POLICY;
    if at < bytes.len() {
        bytes[at] = byte;
    }
    read_session(&mut Reader::new(&bytes)).err()
}

// A kind that there isn't; a nonce of 15 bytes; both the auth value and the password; and an update
// count without its flag.
#[test]
fn refuses_other_sessions(rt: HostRuntime) {
    for (at, byte) in [(0, 0x02), (2, 0x0f), (55, 0x03), (55, 0x02)] {
        assert!(rt; refusal(at, byte) == Some(0x95), "byte {at}");
    }
}
