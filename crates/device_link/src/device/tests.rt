// A device over ends in memory: what it answers, and how it fails.
use super::*;
use link_port::{MemorySink, MemorySource};
use std::alloc::{AllocError, Global};
use std::test::Fail;

// TPM2_Startup(CLEAR).
const STARTUP: [u8; 12] = [0x80, 0x01, 0, 0, 0, 12, 0, 0, 0x01, 0x44, 0, 0];

// A success with no parameters, and one with two random bytes.
const DONE: [u8; 10] = [0x80, 0x01, 0, 0, 0, 10, 0, 0, 0, 0];

const RANDOM: [u8; 14] = [0x80, 0x01, 0, 0, 0, 14, 0, 0, 0, 0, 0, 2, 0x5a, 0xa5];

// Responses of 9 and of 4,097 bytes, as they say.
const TOO_SHORT: [u8; 9] = [0x80, 0x01, 0, 0, 0, 9, 0, 0, 0];

const TOO_LONG: [u8; 10] = [0x80, 0x01, 0, 0, 0x10, 0x01, 0, 0, 0, 0];

type MemoryLink = LinkDevice<MemorySource, MemorySink>;

// A device whose source gives these bytes one by one and fails at these calls, and whose sink has
// room for so many bytes.
fn linked(
    alloc: Global,
    responses: &[u8],
    failing: &[u64],
    room: usize,
) -> Result<MemoryLink, AllocError> {
    let pieces = vec![in alloc; 1; responses.len()]?;
    let source = MemorySource::new(responses.to_vec(alloc)?, pieces, failing.to_vec(alloc)?);
    let sink = MemorySink::new(alloc, room, Vec::new(alloc))?;
    Ok(LinkDevice::new(source, sink))
}

// Whether a command is answered so.
fn answers<D: Device>(device: &mut D, wanted: &[u8], reply: &mut Buffer) -> bool {
    device.transmit(&STARTUP, reply).is_ok() && reply.as_slice() == wanted
}

// Whether a command fails and leaves no reply.
fn fails<D: Device>(device: &mut D, reply: &mut Buffer) -> bool {
    device.transmit(&STARTUP, reply).is_err() && reply.as_slice().is_empty()
}

#[test]
fn each_command_has_its_own_response(rt: HostRuntime) -> Result<(), Fail> {
    let mut responses = DONE.to_vec(rt.alloc())?;
    responses.extend_from_slice(&RANDOM)?;
    let mut device = linked(rt.alloc(), &responses, &[], 24)?;
    let mut reply = Buffer::new(rt.alloc())?;
    let both = answers(&mut device, &DONE, &mut reply) && answers(&mut device, &RANDOM, &mut reply);
    assert!(rt; both && device.fault() == LinkFault::Absent);
    assert_eq!(rt; (device.fault_count(), device.sent_count()), (0, 2));
    Ok(())
}

// Why a command failed first, and how many bytes of it were written. Nothing where it didn't, or
// where the next one was written too, or where a reply was left.
fn failure(
    alloc: Global,
    responses: &[u8],
    failing: &[u64],
    room: usize,
) -> Result<Option<(LinkFault, usize)>, AllocError> {
    let mut device = linked(alloc, responses, failing, room)?;
    let mut reply = Buffer::new(alloc)?;
    if !fails(&mut device, &mut reply) {
        return Ok(None);
    }
    let written = device.sink.written().len();
    if !fails(&mut device, &mut reply) || device.sink.written().len() != written {
        return Ok(None);
    }
    Ok(Some((device.fault(), written)))
}

#[test]
fn it_tells_why_it_failed(rt: HostRuntime) -> Result<(), Fail> {
    let alloc = rt.alloc();
    assert_eq!(rt;
        failure(alloc, &TOO_SHORT, &[], 24)?,
        Some((LinkFault::Size(9), 12))
    );
    assert_eq!(rt;
        failure(alloc, &TOO_LONG, &[], 24)?,
        Some((LinkFault::Size(4097), 12))
    );
    assert_eq!(rt;
        failure(alloc, &DONE[..9], &[], 24)?,
        Some((LinkFault::End, 12))
    );
    assert_eq!(rt; failure(alloc, &[], &[], 24)?, Some((LinkFault::End, 12)));
    assert_eq!(rt;
        failure(alloc, &DONE, &[7], 24)?,
        Some((LinkFault::Source, 12))
    );
    assert_eq!(rt; failure(alloc, &DONE, &[], 5)?, Some((LinkFault::Sink, 5)));
    Ok(())
}
