// What a watcher is told, and what is kept of the newest answer.
use super::*;
use link_port::{MemorySink, MemorySource};
use std::alloc::{AllocError, Global};
use std::sync::atomic::{AtomicU32, Ordering};
use std::test::Fail;

// GetRandom of two bytes, a response with them, and a refusal with the code 0x101.
const COMMAND: [u8; 12] = [0x80, 0x01, 0, 0, 0, 12, 0, 0, 0x01, 0x7b, 0, 2];

const RANDOM: [u8; 14] = [0x80, 0x01, 0, 0, 0, 14, 0, 0, 0, 0, 0, 2, 0x5a, 0xa5];

const REFUSED: [u8; 10] = [0x80, 0x01, 0, 0, 0, 10, 0, 0, 0x01, 0x01];

// It counts what it is told, the end of a link apart from all else.
#[derive(Drop)]
struct Counts {
    ends: AtomicU32,
    others: AtomicU32,
}

impl Watcher for Counts {
    fn link_failed(&self, fault: LinkFault) {
        let count = match fault {
            LinkFault::End => &self.ends,
            _ => &self.others,
        };
        count.fetch_add(1, Ordering::SeqCst);
    }
}

// A device that gives these bytes.
fn linked(
    alloc: Global,
    responses: &[u8],
) -> Result<LinkDevice<MemorySource, MemorySink>, AllocError> {
    let source = MemorySource::new(responses.to_vec(alloc)?, Vec::new(alloc), Vec::new(alloc));
    let sink = MemorySink::new(alloc, 48, Vec::new(alloc))?;
    Ok(LinkDevice::new(source, sink))
}

#[test]
fn the_first_failure_is_told_once(rt: HostRuntime) -> Result<(), Fail> {
    let counts = Counts {
        ends: AtomicU32::new(0),
        others: AtomicU32::new(0),
    };
    let mut responses = RANDOM.to_vec(rt.alloc())?;
    responses.extend_from_slice(&REFUSED)?;
    let mut device = WatchedLink::new(linked(rt.alloc(), &responses)?, &counts);
    let mut reply = Buffer::new(rt.alloc())?;
    assert_eq!(rt; device.newest(), None);
    let random = Answered {
        command: 0x17b,
        response: 0,
        size: 14,
    };
    assert!(rt; device.transmit(&COMMAND, &mut reply).is_ok());
    assert_eq!(rt; device.newest(), Some(random));
    let refused = Answered {
        command: 0x17b,
        response: 0x101,
        size: 10,
    };
    assert!(rt; device.transmit(&COMMAND, &mut reply).is_ok());
    assert_eq!(rt;
        (device.newest(), counts.ends.load(Ordering::SeqCst)),
        (Some(refused), 0)
    );
    assert!(rt; device.transmit(&COMMAND, &mut reply).is_err());
    assert!(rt; device.transmit(&COMMAND, &mut reply).is_err());
    let told = (
        counts.ends.load(Ordering::SeqCst),
        counts.others.load(Ordering::SeqCst),
    );
    assert_eq!(rt; (device.newest(), told), (None, (1, 0)));
    Ok(())
}
