//! What clients see of objects and sessions that share three slots and three places, where the
//! device fails.
ghost use Rattle.std.specs.Prelude.{◌≤◌, length};

use crate::driver::Clients;
use audit_journal::Journal;
use broker_core::{Closed, Told};
use device_port::Device;
use history_spec::{EntryKind, Pick};
use plain_machine::World;
use std::alloc::Global;
use std::test::Fail;
use tab_bytes::Buffer;
use tab_spec::{ACTIVE_SESSIONS, CC_CONTEXT_SAVE, CC_START_AUTH_SESSION, Numbers};
use tab_values::Persist;
use tab_wire::{code_of, response_handle};

// More than a test writes.
pub(crate) const AMPLE: u64 = 1 << 20;

// CreatePrimary of an HMAC key by the owner, with an empty password. The byte at 51 is its unique
// field.
const CREATE_KEY: [u8; 58] = [
    0x80, 0x02, 0, 0, 0, 0x3a, 0, 0, 0x01, 0x31, 0x40, 0, 0, 0x01, 0, 0, 0, 0x09, 0x40, 0, 0, 0x09,
    0, 0, 0, 0, 0, 0, 0x04, 0, 0, 0, 0, 0, 0x11, 0, 0x08, 0, 0x0b, 0, 0x04, 0, 0x72, 0, 0, 0, 0x05,
    0, 0x0b, 0, 0x01, 0, 0, 0, 0, 0, 0, 0,
];

// The first 18 bytes of its response where the client has no object yet.
const CREATED: [u8; 18] = [
    0x80, 0x02, 0, 0, 0, 0xf0, 0, 0, 0, 0, 0x80, 0, 0, 0, 0, 0, 0, 0xd9,
];

// StartAuthSession of a policy session, with a nonce of 16 zeros.
pub(crate) const START_SESSION: [u8; 43] = [
    0x80, 0x01, 0, 0, 0, 0x2b, 0, 0, 0x01, 0x76, 0x40, 0, 0, 0x07, 0x40, 0, 0, 0x07, 0, 0x10, 0, 0,
    0, 0, 0, 0, 0, 0, 0, 0, 0, 0, 0, 0, 0, 0, 0, 0, 0x01, 0, 0x10, 0, 0x0b,
];

// GetCapability of at most three handles of objects, and the response that there are none, or the
// first alone.
const LIST_OBJECTS: [u8; 22] = [
    0x80, 0x01, 0, 0, 0, 22, 0, 0, 0x01, 0x7a, 0, 0, 0, 0x01, 0x80, 0, 0, 0, 0, 0, 0, 3,
];

const NO_OBJECTS: [u8; 19] = [
    0x80, 0x01, 0, 0, 0, 19, 0, 0, 0, 0, 0, 0, 0, 0, 0x01, 0, 0, 0, 0,
];

const FIRST_OBJECT: [u8; 23] = [
    0x80, 0x01, 0, 0, 0, 23, 0, 0, 0, 0, 0, 0, 0, 0, 0x01, 0, 0, 0, 1, 0x80, 0, 0, 0,
];

// The response that tells a code.
pub(crate) fn coded(code: u32) -> [u8; 10] {
    let [a, b, c, d] = code.to_be_bytes();
    [0x80, 0x01, 0, 0, 0, 10, a, b, c, d]
}

// CreatePrimary of the key with this unique field.
pub(crate) fn create(unique: u8) -> [u8; 58] {
    let mut command = CREATE_KEY;
    command[51] = unique;
    command
}

// ReadPublic of a client's object, by its number.
pub(crate) fn read(number: u8) -> [u8; 14] {
    [
        0x80, 0x01, 0, 0, 0, 14, 0, 0, 0x01, 0x73, 0x80, 0, 0, number,
    ]
}

pub(crate) fn flush(handle: u32) -> [u8; 14] {
    let [a, b, c, d] = handle.to_be_bytes();
    [0x80, 0x01, 0, 0, 0, 14, 0, 0, 0x01, 0x65, a, b, c, d]
}

// ContextSave of this handle.
pub(crate) fn save(handle: u32) -> [u8; 14] {
    let [a, b, c, d] = handle.to_be_bytes();
    [0x80, 0x01, 0, 0, 0, 14, 0, 0, 0x01, 0x62, a, b, c, d]
}

// A broker over a device of the profile that fails at these transmissions.
pub(crate) fn start(alloc: Global, failing: Vec<u64>) -> Result<Clients, Fail> {
    let numbers = Numbers::of_the_profile();
    Ok(Clients::begin(alloc, numbers, failing, AMPLE).ok_or("the broker begins")?)
}

// Opens so many clients; whether the last of them has the number before that.
pub(crate) fn open(clients: &mut Clients, count: u32) -> bool {
    let mut last = None;
    for _ in 0..count {
        last = clients.open().ok();
    }
    count.checked_sub(1) == last
}

// Whether a command has an entry, and a reply that begins so.
fn answers(clients: &mut Clients, client: u32, command: &[u8], begin: &[u8]) -> bool {
    clients.send(client, command) == Some(Told::Entered) && clients.reply().starts_with(begin)
}

// A broker with so many clients, the first of which made an object and is closed. The object
// couldn't be flushed: that is the tenth transmission, behind the eight of the start.
fn leave_object(alloc: Global, count: u32) -> Result<Clients, Fail> {
    let mut clients = start(alloc, vec![in alloc; 9]?)?;
    let made = open(&mut clients, count) && answers(&mut clients, 0, &create(0), &CREATED);
    let left = clients.close() == Some(Closed::Orphans(1)) && clients.orphans() == 1;
    if made && left {
        return Ok(clients);
    }
    let _ = clients.finish();
    Err("an object is left".into())
}

// Whether the device has these objects in the end.
fn lists(alloc: Global, clients: Clients, objects: &[u8]) -> Result<bool, Fail> {
    let (mut device, _) = clients.finish();
    let mut reply = Buffer::new(alloc)?;
    Ok(device.transmit(&LIST_OBJECTS, &mut reply).is_ok() && reply.as_slice() == objects)
}

// ---- a device that fails

#[test]
fn a_failed_flush_leaves_an_object(rt: HostRuntime) -> Result<(), Fail> {
    let clients = leave_object(rt.alloc(), 1)?;
    assert!(rt; lists(rt.alloc(), clients, &FIRST_OBJECT)?);
    Ok(())
}

// The next client's first command flushes it.
#[test]
fn clients_go_on_after_an_object_is_left(rt: HostRuntime) -> Result<(), Fail> {
    let mut world = new_world(rt.alloc(), 2)?;
    let mut wanted = Buffer::new(rt.alloc())?;
    let mut clients = leave_object(rt.alloc(), 2)?;
    let told = make_and_use(&mut clients, &mut world, 1, &mut wanted);
    let shut = clients.orphans() == 0 && clients.close() == Some(Closed::Clean);
    let listed = lists(rt.alloc(), clients, &NO_OBJECTS)?;
    assert!(rt; told == Some(0) && shut && listed);
    Ok(())
}

// ---- beside the machine that each client sees

// A world of the zero seed with so many clients.
pub(crate) fn new_world(alloc: Global, clients: u32) -> Result<World, Fail> {
    let mut world = World::new(alloc, Persist::new(alloc, [0; 32])?, ACTIVE_SESSIONS as u8)?;
    for _ in 0..clients {
        if world.opened() <= u64::from(u32::MAX) {
            world.open_client()?;
        }
    }
    Ok(world)
}

// The sequence of the context in a response to ContextSave, which stands behind the header.
fn sequence_of(reply: &[u8]) -> u64
    requires { 18 ≤ length reply.now }
{
    u64::from_be_bytes([
        reply[10], reply[11], reply[12], reply[13], reply[14], reply[15], reply[16], reply[17],
    ])
}

// A value that the device chose, as its response tells: which number it gave to a session that it
// started, or which sequence to a context that it made.
fn pick_of(command: &[u8], reply: &[u8]) -> Pick {
    // a code alone has ten bytes
    if command.len() < 10 || reply.len() < 18 {
        return Pick::Nothing;
    }
    match (code_of(command), response_handle(reply)) {
        (CC_START_AUTH_SESSION, Some(handle)) => Pick::Session(handle % (1 << 24)),
        (CC_CONTEXT_SAVE, _) => Pick::Sequence(sequence_of(reply)),
        _ => Pick::Nothing,
    }
}

// Runs a command over the broker, and in the world unless the device failed. How many failures were
// told; none where the replies differ.
pub(crate) fn run_both(
    clients: &mut Clients,
    world: &mut World,
    client: u32,
    command: &[u8],
    wanted: &mut Buffer,
) -> Option<u64> {
    if clients.send(client, command) != Some(Told::Entered) || !world.is_open(client) {
        return None;
    }
    if clients.reply() == coded(0x000b_0002).as_slice() {
        return Some(1);
    }
    let ran = world.step(client, command, pick_of(command, clients.reply()), wanted);
    if ran.is_ok() && clients.reply() == wanted.as_slice() {
        return Some(0);
    }
    None
}

// PolicyGetDigest of the session with this number.
pub(crate) fn get_digest(number: u8) -> [u8; 14] {
    [
        0x80, 0x01, 0, 0, 0, 14, 0, 0, 0x01, 0x89, 0x03, 0, 0, number,
    ]
}

// Makes five objects of a client, starts five sessions, reads the objects, and asks the sessions
// for their digests. How many failures were told, if all else is as in the world.
fn make_and_use(
    clients: &mut Clients,
    world: &mut World,
    client: u32,
    wanted: &mut Buffer,
) -> Option<u64> {
    let mut told: u64 = 0;
    for step in 0..20u8 {
        let number = step % 5;
        let made = create(number);
        let read = read(number);
        let asked = get_digest(number);
        let command = match step / 5 {
            0 => made.as_slice(),
            1 => START_SESSION.as_slice(),
            2 => read.as_slice(),
            _ => asked.as_slice(),
        };
        let failures = run_both(clients, world, client, command, wanted)?;
        told = told.saturating_add(failures);
    }
    Some(told)
}

// How many entries of a journal are of failures.
fn faults_in(journal: &Journal) -> u64 {
    let mut count: u64 = 0;
    for place in 0..journal.len() {
        if let Some(entry) = journal.at(place) {
            if entry.kind == EntryKind::Fault {
                count = count.saturating_add(1);
            }
        }
    }
    count
}

// What came of a run in which a client makes five objects, starts five sessions, uses all of them
// and closes.
#[derive(Drop)]
struct Counts {
    // How many failures the client was told, if all else is as in the world.
    told: Option<u64>,
    entries: u64,
    orphans: u64,
    faults: u64,
    sent: u64,
}

fn count_run(alloc: Global, failing: Vec<u64>) -> Result<Counts, Fail> {
    let mut world = new_world(alloc, 1)?;
    let mut wanted = Buffer::new(alloc)?;
    let mut clients = start(alloc, failing)?;
    let _ = clients.open();
    let told = make_and_use(&mut clients, &mut world, 0, &mut wanted);
    let _ = clients.close();
    let orphans = u64::from(clients.orphans());
    let (device, journal) = clients.finish();
    Ok(Counts {
        told,
        entries: faults_in(&journal),
        orphans,
        faults: device.fault_count(),
        sent: device.sent_count(),
    })
}

// Whether a failure at this transmission is told once, to the command that met it, or leaves an
// object or a session at the close.
fn is_told_once(alloc: Global, failing: u64) -> Result<bool, Fail> {
    let counts = count_run(alloc, vec![in alloc; failing]?)?;
    let once = (counts.entries, counts.orphans) == (1, 0)
        || (counts.entries, counts.orphans) == (0, 1);
    Ok(once && counts.told == Some(counts.entries) && counts.faults == 1)
}

// Whether that holds for each transmission after those of the start of a run without failures.
fn each_is_told_once(alloc: Global, sent: u64) -> Result<bool, Fail> {
    for failing in 8..sent {
        if !is_told_once(alloc, failing)? {
            return Ok(false);
        }
    }
    Ok(true)
}

#[test]
fn each_transmission_fails_in_turn(rt: HostRuntime) -> Result<(), Fail> {
    let counts = count_run(rt.alloc(), Vec::new(rt.alloc()))?;
    assert_eq!(rt; (counts.told, counts.faults), (Some(0), 0));
    assert!(rt; counts.sent > 50);
    assert!(rt; each_is_told_once(rt.alloc(), counts.sent)?);
    Ok(())
}
