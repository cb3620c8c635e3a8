//! Tests of `tab_wire`. A line of a table is a response code and a command that is refused with it,
//! or that is admitted where the code is 0.

ghost use Rattle.std.specs.Prelude.{◌==◌};

use hex::FromHex;
use std::alloc::Global;
use tab_spec::{ContextLimits, PROFILE_CONTEXTS, TPM_CONTEXTS};
use tab_wire::{NoTables, Tables, admit, admit_client, authorizations, command_row, shape};

// There is one object and one session, and no room for another object where it says so. The device
// is of the profile, or it isn't.
#[derive(Clone, Copy)]
struct OneOfEach {
    object: u32,
    session: u32,
    full: bool,
    contexts: ContextLimits,
}

impl Tables for OneOfEach {
    ghost tables = { λ t. record {
      has_object = λ handle. handle == t.object;
      has_session = λ handle. handle == t.session;
      is_full = t.full;
      contexts = t.contexts;
    } };

    fn has_object(&self, handle: u32) -> bool {
        handle == self.object
    }

    fn has_session(&self, handle: u32) -> bool {
        handle == self.session
    }

    fn is_full(&self) -> bool {
        self.full
    }

    fn contexts(&self) -> ContextLimits {
        self.contexts
    }
}

// The code that refuses a command of a device, or 0.
fn device_code(tables: &OneOfEach, bytes: &[u8]) -> u32 {
    match command_row(bytes) {
        Ok(row) => admit(tables, row, bytes).err().unwrap_or(0),
        Err(code) => code,
    }
}

// The code that refuses a client's command where nothing is there, or 0.
fn client_code(bytes: &[u8]) -> u32 {
    admit_client(&NoTables, bytes).err().unwrap_or(0)
}

// How many authorizations a command has, and where its parameters begin.
fn area_of(bytes: &[u8]) -> Result<(u8, u32), u32> {
    let found = shape(bytes)?;
    let auths = authorizations(bytes, &found)?;
    Ok((auths.count, auths.params))
}

// Whose view a table has: the authorizations alone, a client's with nothing there, or a device's.
#[derive(Clone, Copy)]
enum View {
    Area,
    Client,
    Device(OneOfEach),
}

fn code_in(view: View, bytes: &[u8]) -> u32 {
    match view {
        View::Area => area_of(bytes).err().unwrap_or(0),
        View::Client => client_code(bytes),
        View::Device(tables) => device_code(&tables, bytes),
    }
}

// Whether a line of a table is true.
fn is_told(alloc: Global, view: View, line: &str) -> Option<bool> {
    let (code, command) = line.split_once(' ')?;
    let code = <[u8; 4] as FromHex>::from_hex(code).ok()?;
    let command = hex::decode(alloc, command).ok()?;
    Some(code_in(view, command.as_slice()) == u32::from_be_bytes(code))
}

// The first line of a table that isn't true.
fn untold<'a>(alloc: Global, view: View, lines: &[&'a str]) -> Option<&'a str> {
    for line in lines {
        if is_told(alloc, view, line) != Some(true) {
            return Some(line);
        }
    }
    None
}

// Handles, tags and areas.
const OF_AREAS: [&str; 10] = [
    // PCR_Extend of 24
    "00000184 80020000000e0000018200000018",
    // NV_Read, half a second handle
    "0000029a 8002000000100000014e010000010100",
    // ContextSave of 81000000
    "0000018b 80010000000e0000016281000000",
    // ReadPublic of 40000001
    "00000184 80010000000e0000017340000001",
    // CreatePrimary with tag 8001
    "00000125 80010000000e0000013140000001",
    // Startup with tag 8002
    "00000145 80020000000c000001440000",
    // GetRandom with no area
    "00000144 80020000000a0000017b",
    // an area of 8 bytes
    "00000144 8002000000180000017b0000000840000009000000000008",
    // four authorizations
    "00000144 8002000000340000017b0000002440000009000000000040000009000000000040000009000000000040\
    00000900000000000008",
    // a nonce of 65 bytes
    "00000144 80020000005a0000017b0000004a00000000004100000000000000000000000000000000000000000000\
    0000000000000000000000000000000000000000000000000000000000000000000000000000000000000000000000\
    08",
];

#[test]
fn tests_handles_tags_and_areas(rt: HostRuntime) {
    assert_eq!(rt; untold(rt.alloc(), View::Area, &OF_AREAS), None);
}

// GetRandom with three passwords, and with a nonce of 64 bytes.
const THREE: &str =
    "80020000002b0000017b0000001b4000000900000000004000000900000000004000000900000000000008";

const NONCE_64: &str =
    "8002000000590000017b000000490000000000400000000000000000000000000000000000000000000000000000\
    00000000000000000000000000000000000000000000000000000000000000000000000000000000000008";

// How many authorizations the command of these digits has, and where its parameters begin.
fn found_area(alloc: Global, digits: &str) -> Option<(u8, u32)> {
    let command = hex::decode(alloc, digits).ok()?;
    area_of(command.as_slice()).ok()
}

#[test]
fn tells_areas(rt: HostRuntime) {
    assert!(rt; found_area(rt.alloc(), THREE) == Some((3, 41)));
    assert!(rt; found_area(rt.alloc(), NONCE_64) == Some((1, 87)));
}

// A client may send all commands but Startup. What it names has to be there; GetCapability names
// nothing.
const OF_CLIENTS: [&str; 9] = [
    // a password for no handle
    "00000982 8002000000190000017b000000094000000900000000000008",
    // session 02000000, which is not there
    "00000918 8002000000190000017b000000090200000000000000000008",
    // the owner as a session
    "00000984 8002000000190000017b000000094000000100000000000008",
    // a password, and session 03000000
    "00000919 8002000000220000017b000000124000000900000000000300000000000000000008",
    // StartAuthSession, as far as it is looked at
    "00000000 800100000012000001764000000740000007",
    // PolicyGetDigest of 03000000
    "00000910 80010000000e0000018903000000",
    // ContextSave of 03000000
    "00000910 80010000000e0000016203000000",
    // GetCapability, which names nothing
    "00000000 80010000000e0000017a03000000",
    // Startup, which the broker alone sends
    "00000100 80010000000c000001440000",
];

#[test]
fn tests_commands_of_clients(rt: HostRuntime) {
    assert_eq!(rt; untold(rt.alloc(), View::Client, &OF_CLIENTS), None);
}

// With room for another object.
const WITH_ROOM: [&str; 2] = [
    // CreatePrimary
    "00000000 80020000001b000001314000000100000009400000090000000000",
    // ContextLoad of 80000000
    "00000000 80010000001600000161000000000000000180000000",
];

// With none.
const FULL: [&str; 4] = [
    // CreatePrimary
    "00000902 80020000001b000001314000000100000009400000090000000000",
    // ContextLoad of 80000000
    "00000902 80010000001600000161000000000000000180000000",
    // ContextLoad of 02000000
    "00000000 80010000001600000161000000000000000102000000",
    // ContextLoad of 80000002, which makes no object of the profile
    "00000000 80010000001600000161000000000000000180000002",
];

// With none, on a TPM that isn't the profile's.
const FULL_TPM: [&str; 4] = [
    // ContextLoad of 80000000
    "00000902 80010000001600000161000000000000000180000000",
    // ContextLoad of 80000001
    "00000000 80010000001600000161000000000000000180000001",
    // ContextLoad of 80000002
    "00000902 80010000001600000161000000000000000180000002",
    // ContextLoad of 02000000
    "00000000 80010000001600000161000000000000000102000000",
];

#[test]
fn tests_room(rt: HostRuntime) {
    let room = OneOfEach {
        object: 0x80000000,
        session: 0x02000000,
        full: false,
        contexts: PROFILE_CONTEXTS,
    };
    let full = OneOfEach { full: true, ..room };
    let full_tpm = OneOfEach {
        contexts: TPM_CONTEXTS,
        ..full
    };
    assert_eq!(rt; untold(rt.alloc(), View::Device(room), &WITH_ROOM), None);
    assert_eq!(rt; untold(rt.alloc(), View::Device(full), &FULL), None);
    assert_eq!(rt; untold(rt.alloc(), View::Device(full_tpm), &FULL_TPM), None);
}

// With object 80000001 and session 03000002.
const NAMED: [&str; 6] = [
    // ReadPublic of 80000001
    "00000000 80010000000e0000017380000001",
    // ReadPublic of 80000000
    "00000910 80010000000e0000017380000000",
    // PolicyRestart of 03000002
    "00000000 80010000000e0000018003000002",
    // PolicyRestart of 03000001
    "00000910 80010000000e0000018003000001",
    // ContextSave of 03000002
    "00000000 80010000000e0000016203000002",
    // ContextSave of 02000002
    "00000910 80010000000e0000016202000002",
];

// PolicySecret of the owner for a policy session, with three authorizations. Session 03000005 is
// there.
const SECRETS: [&str; 7] = [
    // no policy session
    "00000911 8002000000310000015140000001030000040000001b0200000500000000000200000500000000000200\
    00050000000000",
    // the third isn't there
    "0000091a 8002000000310000015140000001030000050000001b0300000500000000004000000900000000000200\
    00050000000000",
    // the second is no session
    "00000a84 8002000000310000015140000001030000050000001b0300000500000000008000000000000000000200\
    00050000000000",
    // the first isn't there
    "00000918 8002000000310000015140000001030000050000001b0200000500000000008000000000000000004000\
    00090000000000",
    // that of the handles
    "0000098b 8002000000310000015140000001030000050000001b0300000500000000004000000900000000004000\
    00090000000000",
    // that of the handles, third
    "00000b8b 8002000000310000015140000001030000050000001b4000000900000000004000000900000000000300\
    00050000000000",
    // two belong to no handle
    "00000a82 8002000000310000015140000001030000050000001b4000000900000000004000000900000000004000\
    00090000000000",
];

// GetRandom with session 02000000, which is there, once and twice.
const TWICE: [&str; 2] = [
    // once
    "00000982 8002000000220000017b000000120200000000000000004000000900000000000008",
    // twice
    "00000b8b 80020000002b0000017b0000001b40000009000000000002000000000000000002000000000000000000\
    08",
];

#[test]
fn tests_what_commands_name(rt: HostRuntime) {
    let named = OneOfEach {
        object: 0x80000001,
        session: 0x03000002,
        full: true,
        contexts: PROFILE_CONTEXTS,
    };
    assert_eq!(rt; untold(rt.alloc(), View::Device(named), &NAMED), None);
    let policy = OneOfEach {
        object: 0x80000000,
        session: 0x03000005,
        full: false,
        contexts: PROFILE_CONTEXTS,
    };
    assert_eq!(rt; untold(rt.alloc(), View::Device(policy), &SECRETS), None);
    let hmac = OneOfEach {
        session: 0x02000000,
        ..policy
    };
    assert_eq!(rt; untold(rt.alloc(), View::Device(hmac), &TWICE), None);
}
