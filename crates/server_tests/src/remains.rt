//! What comes of a run over a device that holds what an earlier broker left.
use crate::runs::{Outcome, RUN, outcome_of, source};
use device_memory::MemoryDevice;
use device_port::Device;
use hidden_device::HiddenDevice;
use link_port::{MemoryAcceptor, MemorySink, OpenGate};
use std::alloc::Global;
use std::sync::Wait;
use std::test::Fail;
use std::thread::Threads;
use tab_bytes::Buffer;

// TPM2_Startup, TPM2_CreatePrimary of an HMAC key, TPM2_StartAuthSession of an HMAC session, and
// TPM2_ContextSave of the first session.
const STARTUP: &[u8] = &[0x80, 0x01, 0, 0, 0, 12, 0, 0, 0x01, 0x44, 0, 0];

const CREATE: &[u8] = &[
    0x80, 0x02, 0, 0, 0, 0x39, 0, 0, 0x01, 0x31, 0x40, 0, 0, 1, 0, 0, 0, 9, 0x40, 0, 0, 9, 0, 0, 0,
    0, 0, 0, 4, 0, 0, 0, 0, 0, 0x10, 0, 8, 0, 0x0b, 0, 4, 0, 0x72, 0, 0, 0, 5, 0, 0x0b, 0, 0, 0, 0,
    0, 0, 0, 0,
];

const START: &[u8] = &[
    0x80, 0x01, 0, 0, 0, 0x3b, 0, 0, 0x01, 0x76, 0x40, 0, 0, 7, 0x40, 0, 0, 7, 0, 0x20, 0, 0, 0, 0,
    0, 0, 0, 0, 0, 0, 0, 0, 0, 0, 0, 0, 0, 0, 0, 0, 0, 0, 0, 0, 0, 0, 0, 0, 0, 0, 0, 0, 0, 0, 0, 0,
    0x10, 0, 0x0b,
];

const SAVE: &[u8] = &[0x80, 0x01, 0, 0, 0, 14, 0, 0, 0x01, 0x62, 2, 0, 0, 0];

// GetRandom of eight bytes, and its reply over a new device and behind two sessions of it, each of
// which took 32 bytes: RFC 8439 has this stream.
const SCRIPT: &[u8] = b"0 80010000000c0000017b0008\n";

const FIRST: &[u8] = b"0 80010000001400000000000876b8e0ada0f13d90\n";

const LATER: &[u8] = b"0 8001000000140000000000089f07e7be5551387a\n";

// A device in memory that shows proofs no state, so that it may have been used before.
type Hidden = HiddenDevice<MemoryDevice>;

// A device that was sent these commands, and fails at this transmission.
fn used(alloc: Global, commands: &[&[u8]], failing: u64) -> Result<Hidden, Fail> {
    let device = MemoryDevice::new(alloc, [0; 32], vec![in alloc; failing]?)?;
    let mut device = HiddenDevice::new(device);
    let mut reply = Buffer::new(alloc)?;
    for command in commands {
        if !tab_wire::is_frame(command) || device.transmit(command, &mut reply).is_err() {
            return Err("the device is used".into());
        }
    }
    Ok(device)
}

// What comes of one GetRandom over such a device.
fn over<R: Threads + Wait + Sync>(
    rt: &R,
    alloc: Global,
    commands: &[&[u8]],
    failing: u64,
) -> Result<Outcome, Fail> {
    let device = used(alloc, commands, failing)?;
    let nobody = MemoryAcceptor::new(Vec::new(alloc), Vec::new(alloc));
    let input = source(alloc, SCRIPT, u64::MAX)?;
    let output = MemorySink::new(alloc, 1000, Vec::new(alloc))?;
    Ok(outcome_of(rt, alloc, RUN, device, nobody, &OpenGate, input, output)?)
}

#[test]
fn what_was_left_is_flushed(rt: HostRuntime) -> Result<(), Fail> {
    let objects: &[&[u8]] = &[STARTUP, CREATE, CREATE, CREATE];
    let sessions: &[&[u8]] = &[STARTUP, START, START, SAVE];
    let both: &[&[u8]] = &[STARTUP, START, CREATE];
    // what was sent before, the transmission that fails, the status and the detail, what is
    // written, and how many commands are sent in all
    let cases: [(&[&[u8]], u64, (u8, u64), &[u8], u64); 7] = [
        // Startup, four numbers, three lists, three flushes, and the command
        (objects, u64::MAX, (0, 0), FIRST, 16),
        // a loaded session and a saved one
        (sessions, u64::MAX, (0, 0), LATER, 15),
        // the third list, and each of two flushes
        (both, 10, (6, 1), b"", 11),
        (both, 11, (6, 1), b"", 12),
        (both, 12, (6, 1), b"", 13),
        // and the command
        (objects, 15, (0, 0), b"0 80010000000a000b0002\n", 16),
        // a device that was never started
        (&[], u64::MAX, (0, 0), FIRST, 9),
    ];
    for (commands, failing, told, written, sent) in cases {
        let outcome = over(&rt, rt.alloc(), commands, failing)?;
        assert!(rt;
            outcome.ended(told, written, 1000) && outcome.sent == sent,
            "at {failing}"
        );
    }
    Ok(())
}
