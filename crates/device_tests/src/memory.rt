//! A device in memory that fails where it was told to. What it answers stands in the rows of
//! `known_answers`.
ghost use Rattle.std.specs.Prelude.{IsTrue};
ghost use Rattle.tab_spec.specs.Frame.{is_frame};

use device_memory::MemoryDevice;
use device_port::{Device, DeviceFailed};
use std::test::Fail;
use tab_bytes::Buffer;

const STARTUP: [u8; 12] = [0x80, 0x01, 0, 0, 0, 12, 0, 0, 0x01, 0x44, 0, 0];

const DONE: [u8; 10] = [0x80, 0x01, 0, 0, 0, 10, 0, 0, 0, 0];

const GET_8_RANDOM_BYTES: [u8; 12] = [0x80, 0x01, 0, 0, 0, 12, 0, 0, 0x01, 0x7b, 0, 8];

// The first eight bytes of the key stream of the zero key (RFC 8439, A.1, test vector 1).
const RANDOM_BYTES: [u8; 20] = [
    0x80, 0x01, 0, 0, 0, 20, 0, 0, 0, 0, 0, 8, 0x76, 0xb8, 0xe0, 0xad, 0xa0, 0xf1, 0x3d, 0x90,
];

// Whether a command is answered so.
fn answers(device: &mut MemoryDevice, command: &[u8], wanted: &[u8], reply: &mut Buffer) -> bool
    requires { IsTrue (is_frame command.now) }
{
    device.transmit(command, reply).is_ok() && reply.as_slice() == wanted
}

// Whether the second of three transmissions fails and leaves nothing.
fn fails_once(device: &mut MemoryDevice, reply: &mut Buffer) -> bool {
    answers(device, &STARTUP, &DONE, reply)
        && device.transmit(&GET_8_RANDOM_BYTES, reply) == Err(DeviceFailed)
        && reply.as_slice().is_empty()
        && answers(device, &GET_8_RANDOM_BYTES, &RANDOM_BYTES, reply)
}

#[test]
fn it_fails_where_it_was_told_to(rt: HostRuntime) -> Result<(), Fail> {
    let mut device = MemoryDevice::new(rt.alloc(), [0; 32], vec![in rt.alloc(); 1]?)?;
    let mut reply = Buffer::new(rt.alloc())?;
    assert!(rt; fails_once(&mut device, &mut reply));
    assert_eq!(rt; (device.fault_count(), device.sent_count()), (1, 3));
    Ok(())
}
