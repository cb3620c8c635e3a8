//! A run over a device behind a Unix socket, whose other end serves a device in memory.
ghost use Rattle.std.specs.Prelude.{IsTrue};
ghost use Rattle.device_link.specs.Link.{has_failed};

use crate::runs::{Outcome, RUN, outcome_of, source};
use device_link::{LinkDevice, LinkFault, TpmLink, WatchedLink, Watcher};
use device_memory::MemoryDevice;
use device_port::Device;
use link_port::{MemoryAcceptor, MemorySink, OpenGate};
use std::alloc::{AllocError, Global};
use std::io::{Read, Write};
use std::os::unix::net::{UnixListener, UnixStream};
use std::sync::Wait;
use std::test::Fail;
use std::thread::Threads;
use std::{fs, process, thread};
use tab_bytes::Buffer;
use unix_links::{UnixSink, UnixSource, connect};

// GetRandom of eight bytes, and its reply over a new device (RFC 8439 has this stream).
const SCRIPT: &[u8] = b"0 80010000000c0000017b0008\n";

const REPLY: &[u8] = b"0 80010000001400000000000876b8e0ada0f13d90\n";

// More commands than the run sends: Startup, four numbers, three lists, and GetRandom.
const MOST: u64 = 20;

// The next command of this stream, where one comes.
fn next_command<'a>(stream: &mut UnixStream, bytes: &'a mut [u8; 4096]) -> Option<&'a [u8]> {
    stream.read_exact(&mut bytes[..10]).ok()?;
    let size = u32::from_be_bytes([bytes[2], bytes[3], bytes[4], bytes[5]]) as usize;
    if size < 10 || size > 4096 {
        return None;
    }
    stream.read_exact(&mut bytes[10..size]).ok()?;
    let command: &[u8] = &bytes[..size];
    Some(command)
}

// Answers the commands of this stream with the device's responses until it ends, and tells how many
// it answered.
fn serve(device: MemoryDevice, stream: UnixStream, reply: Buffer) -> u64 {
    let (mut device, mut stream, mut reply) = (device, stream, reply);
    let mut bytes = [0; 4096];
    for count in 0..MOST {
        let Some(command) = next_command(&mut stream, &mut bytes) else {
            return count;
        };
        if !tab_wire::is_frame(command) || device.transmit(command, &mut reply).is_err() {
            return count;
        }
        if stream.write_all(reply.as_slice()).is_err() {
            return count;
        }
    }
    MOST
}

// Is told nothing.
struct Nobody;

impl Watcher for Nobody {
    fn link_failed(&self, _fault: LinkFault)
        requires { IsTrue (has_failed _fault) }
    {}
}

// What comes of one GetRandom over the device behind these ends: one of the profile's, or a TPM
// that needn't be. Both are closed then.
fn run_over<R: Threads + Wait + Sync>(
    rt: &R,
    alloc: Global,
    ends: (UnixSource, UnixSink),
    is_tpm: bool,
) -> Result<Outcome, AllocError> {
    let device = LinkDevice::new(ends.0, ends.1);
    let nobody = MemoryAcceptor::new(Vec::new(alloc), Vec::new(alloc));
    let input = source(alloc, SCRIPT, u64::MAX)?;
    let output = MemorySink::new(alloc, 1000, Vec::new(alloc))?;
    if is_tpm {
        let tpm = TpmLink::new(WatchedLink::new(device, &Nobody));
        return outcome_of(rt, alloc, RUN, tpm, nobody, &OpenGate, input, output);
    }
    outcome_of(rt, alloc, RUN, device, nobody, &OpenGate, input, output)
}

// Over a TPM of the profile, and over one that needn't be.
#[test]
fn random_bytes_come_over_a_socket(rt: HostRuntime) -> Result<(), Fail> {
    let alloc = rt.alloc();
    for is_tpm in [false, true] {
        let path = format!(in alloc; "/tmp/server_tests_{}.device", process::id(rt.process()))?;
        let listener = UnixListener::bind(&rt, path.as_str())?;
        let ends = connect(&rt, path.as_str())?;
        let (stream, _) = listener.accept()?;
        fs::remove_file(&rt, path.as_str())?;
        let device = MemoryDevice::new(alloc, [0; 32], Vec::new(alloc))?;
        let reply = Buffer::new(alloc)?;
        let (answered, outcome) = thread::join(
            &rt,
            move || -> u64 { serve(device, stream, reply) },
            || -> Result<Outcome, AllocError> { run_over(&rt, alloc, ends, is_tpm) },
        );
        let outcome = outcome?;
        assert!(rt; outcome.ended((0, 0), REPLY, 1000) && outcome.sent == 9 && answered == 9);
    }
    Ok(())
}
