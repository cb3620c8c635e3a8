// The device that the words name, and the devices that are made for it.
ghost use Rattle.std.specs.Prelude.{◌≡◌, [], map, IfOk, IfSome};
ghost use Rattle.std.specs.String.{string_bytes};
ghost use Rattle.tab_spec.specs.Numbers.{profile_numbers};
ghost use Rattle.device_link.specs.Link.{new_device};
ghost use Rattle.device_memory.specs.Memory.{fresh_device};
ghost use Rattle.link_port.specs.Memory.{new_store, new_supply};
ghost use Rattle.command_line.specs.Words.{accepted};
ghost use Rattle.daemon_ends.specs.Found.{IsFound};

use crate::Target;
use command_line::{DeviceWord, read_words};
use device_link::LinkDevice;
use device_memory::MemoryDevice;
use link_port::{MemorySink, MemorySource};
use std::alloc::{AllocError, Global};
use std::net::Net;
use unix_links::{UnixSink, UnixSource, connect};

/// Finds the device that the words name. If a connection to it isn't taken, standard error says
/// why. If the words are refused, it is a device in memory that is never used.
pub fn find_device<R: Net + Eprint>(rt: &R, words: &[String]) -> Target<UnixSource, UnixSink>
    ensures { IfSome (accepted (map string_bytes words.now)) (λ plan. IsFound plan.device result) }
{
    let Ok(plan) = read_words(words) else {
        return Target::Memory([0; 32]);
    };
    match &plan.device {
        DeviceWord::Memory(seed) => Target::Memory(*seed),
        DeviceWord::Unix(path) => match connect_to(rt, path.as_str()) {
            Some((source, sink)) => Target::Link(source, sink),
            None => Target::Unreachable,
        },
        DeviceWord::Tpm(path) => match connect_to(rt, path.as_str()) {
            Some((source, sink)) => Target::Tpm(source, sink),
            None => Target::Unreachable,
        },
    }
}

// Connects to the TPM at this path. If the connection isn't taken, standard error says why.
fn connect_to<R: Net + Eprint>(rt: &R, path: &str) -> Option<(UnixSource, UnixSink)> {
    match connect(rt, path) {
        Ok(ends) => Some(ends),
        Err(error) => {
            let _ = eprintln!(rt; "tabrmd: can't connect to {path}: {error}");
            None
        }
    }
}

/// A device in memory of this seed, which was never used and fails nowhere. It fails only for want
/// of memory.
pub fn device_of(alloc: Global, seed: [u8; 32]) -> Result<MemoryDevice, AllocError>
    ensures { IfOk result (λ device. device ≡ fresh_device profile_numbers seed []) }
{
    MemoryDevice::new(alloc, seed, Vec::new(alloc))
}

/// A device for which each transmission fails: its ends have no room and nothing to read. It fails
/// only for want of memory.
pub fn unreachable_device(alloc: Global) -> Result<LinkDevice<MemorySource, MemorySink>, AllocError>
    ensures { IfOk result (λ device. device ≡ new_device
        (new_supply [] [] []) (new_store 0 [])) }
{
    let source = MemorySource::new(Vec::new(alloc), Vec::new(alloc), Vec::new(alloc));
    let sink = MemorySink::new(alloc, 0, Vec::new(alloc))?;
    Ok(LinkDevice::new(source, sink))
}
