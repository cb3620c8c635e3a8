ghost use Rattle.std.specs.Prelude.{◌≡◌, [], IfOk, OnOk, IsTrue};
ghost use Rattle.tab_spec.specs.Frame.{is_frame};
ghost use Rattle.device_spec.specs.Slots.{slot_step};
ghost use Rattle.fault_runs.specs.Held.{count_in, count_held, listed, after};

use anyhow::{bail, ensure};
use device_memory::MemoryDevice;
use device_port::Device;
use std::alloc::Global;
use tab_bytes::Buffer;

/// GetCapability of the objects, of the loaded sessions and of the saved ones, 254 handles at the
/// most (Part 3, "TPM2_GetCapability").
pub const OBJECTS: [u8; 22] = [
    0x80, 0x01, 0, 0, 0, 22, 0, 0, 0x01, 0x7a, 0, 0, 0, 1, 0x80, 0, 0, 0, 0, 0, 0, 254,
];

pub const LOADED: [u8; 22] = [
    0x80, 0x01, 0, 0, 0, 22, 0, 0, 0x01, 0x7a, 0, 0, 0, 1, 0x02, 0, 0, 0, 0, 0, 0, 254,
];

pub const SAVED: [u8; 22] = [
    0x80, 0x01, 0, 0, 0, 22, 0, 0, 0x01, 0x7a, 0, 0, 0, 1, 0x03, 0, 0, 0, 0, 0, 0, 254,
];

/// Where the count of a list of handles stands in a response (Part 2, "TPMS_CAPABILITY_DATA").
pub const COUNT_PLACE: usize = 15;

/// How many objects and sessions the device lists, which fails at so many transmissions at most.
pub fn count_held(alloc: Global, device: &mut MemoryDevice, failing: usize) -> anyhow::Result<u64>
    ensures { IfOk result (λ count. count ≡ count_held device.old.state) }
{
    let mut reply = Buffer::new(alloc)?;
    let objects = count_listed(device, &OBJECTS, failing, &mut reply)?;
    let loaded = count_listed(device, &LOADED, failing, &mut reply)?;
    let saved = count_listed(device, &SAVED, failing, &mut reply)?;
    Ok(u64::from(objects) + u64::from(loaded) + u64::from(saved))
}

// How many handles the list has that a command asks for.
fn count_listed(
    device: &mut MemoryDevice,
    command: &[u8],
    failing: usize,
    reply: &mut Buffer,
) -> anyhow::Result<u32>
    requires frame { IsTrue (is_frame command.now) }
    ensures count { IfOk result (λ count. count ≡ listed device.old.state command.now) }
    ensures state { OnOk result (device.new.state ≡ after device.old.state command.now) }
{
    ask(device, command, failing, reply)?;
    count_in(reply.as_slice())
}

// How many handles a list says that it has.
fn count_in(bytes: &[u8]) -> anyhow::Result<u32>
    ensures { IfOk result (λ count. count ≡ count_in bytes.now) }
{
    ensure!(bytes.len() >= COUNT_PLACE + 4, "a list has a count");
    Ok(u32::from_be_bytes([
        bytes[COUNT_PLACE],
        bytes[COUNT_PLACE + 1],
        bytes[COUNT_PLACE + 2],
        bytes[COUNT_PLACE + 3],
    ]))
}

// Sends a command again until it is answered.
fn ask(
    device: &mut MemoryDevice,
    command: &[u8],
    failing: usize,
    reply: &mut Buffer,
) -> anyhow::Result<()>
    requires frame { IsTrue (is_frame command.now) }
    ensures { OnOk result
        ((device.new.state, reply.new) ≡ slot_step device.old.state command.now) }
{
    for _ in 0..=failing {
        if device.transmit(command, reply).is_ok() {
            return Ok(());
        }
    }
    bail!("the device doesn't answer")
}
