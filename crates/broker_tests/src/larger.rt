//! An object over a device whose contexts are larger than those of the profile's, and that tells
//! nothing.
ghost use Rattle.std.specs.Prelude.{None, refl};
ghost use Rattle.tab_spec.specs.declared.contexts.TheConstants.{TPM_CONTEXTS};

use crate::fake::byte;
use device_port::{Device, DeviceFailed, Trace};
use object_swap::Objects;
use std::alloc::Global;
use std::test::Fail;
use tab_bytes::Buffer;
use tab_spec::{ContextLimits, RC_SUCCESS, ST_NO_SESSIONS, TPM_CONTEXTS};
use tab_wire::{end_response, start_response};

// A context of 2,048 bytes (Part 2, "TPMS_CONTEXT"): number, savedHandle of an object that goes
// with a reset, hierarchy, and the blob.
const HEAD: [u8; 18] = [
    0, 0, 0, 0, 0, 0, 0, 5, 0x80, 0, 0, 2, 0x40, 0, 0, 7, 0x07, 0xee,
];

const BLOB: [u8; 2030] = [0xa5; 2030];

// A device that tells nothing. It answers ContextLoad of such a context alone with a handle.
#[derive(Drop)]
struct Larger {
    trace: Trace,
}

impl Device for Larger {
    ghost seen = { λ d. record {
      base = None;
      state = None;
      faults = 0;
      trace = d.trace;
    } };

    ghost CONTEXTS = { TPM_CONTEXTS };

    const CONTEXTS: ContextLimits = TPM_CONTEXTS;

    ghost told_together = { λ _. refl };

    ghost profile = { λ _. tt };

    ghost short = { refl };

    fn transmit(&mut self, command: &[u8], reply: &mut Buffer) -> Result<(), DeviceFailed> {
        answer(command, reply);
        self.trace.answered(command, reply.as_slice());
        Ok(())
    }

    fn fault_count(&self) -> u64 {
        0
    }

    fn sent_count(&self) -> u64 {
        self.trace.sent()
    }
}

// To ContextSave that context, and to ContextLoad of so many bytes a handle.
fn answer(command: &[u8], reply: &mut Buffer) {
    start_response(ST_NO_SESSIONS, RC_SUCCESS, reply);
    match byte(command, 9) {
        0x62 => {
            reply.put_bytes(&HEAD).unwrap();
            reply.put_bytes(&BLOB).unwrap();
        }
        0x61 if command.len() == 2058 => {
            reply.put_u32(0x8000_0000).unwrap();
        }
        _ => {}
    }
    end_response(reply);
}

// How many commands were sent when an object had left its slot, and when it was in one again.
fn run(alloc: Global) -> Result<[u64; 2], Fail> {
    let mut device = Larger {
        trace: Trace::new(),
    };
    let mut reply = Buffer::new(alloc)?;
    let mut objects = Objects::new(alloc, 3, TPM_CONTEXTS)?;
    let list = objects.add_client(7)?;
    objects.reserve()?;
    let item = objects.adopt(7, list, 0x8000_0000);
    let mut counts = [0; 2];
    if objects
        .make_objects(&mut device, &[], 3, &mut reply)
        .is_err()
    {
        return Ok(counts);
    }
    counts[0] = device.sent_count();
    if objects
        .make_objects(&mut device, &[item], 0, &mut reply)
        .is_err()
    {
        return Ok(counts);
    }
    counts[1] = device.sent_count();
    Ok(counts)
}

// It is saved and flushed, and then loaded.
#[test]
fn a_larger_context_is_kept_and_loaded(rt: HostRuntime) -> Result<(), Fail> {
    assert_eq!(rt; run(rt.alloc())?, [2, 3]);
    Ok(())
}
