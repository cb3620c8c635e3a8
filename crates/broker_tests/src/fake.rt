//! A device that tells nothing. Its contexts have a blob of one byte.
use hidden_device::{Answers, HiddenDevice, respond};
use tab_bytes::Buffer;

// The response to ContextSave of the session 0x02000001, with the number 5 (Part 2,
// "TPMS_CONTEXT"): number, savedHandle, hierarchy, and the blob.
pub(crate) const RESPONSE_5: [u8; 29] = [
    0x80, 1, 0, 0, 0, 29, 0, 0, 0, 0, 0, 0, 0, 0, 0, 0, 0, 5, 2, 0, 0, 1, 0x40, 0, 0, 7, 0, 1, 0xa5,
];

// Successes with a handle, and with nothing.
const LOADED: [u8; 14] = [0x80, 1, 0, 0, 0, 14, 0, 0, 0, 0, 0, 0, 0, 0];

const DONE: [u8; 10] = [0x80, 1, 0, 0, 0, 10, 0, 0, 0, 0];

// What such a device answers with. Its next context has this number.
#[derive(Drop)]
pub(crate) struct Contexts {
    pub(crate) number: u8,
    pub(crate) fails: bool,
}

pub(crate) type Fake = HiddenDevice<Contexts>;

// A device whose first context has the number 5.
pub(crate) fn fake() -> Fake {
    HiddenDevice::new(Contexts {
        number: 5,
        fails: false,
    })
}

impl Answers for Contexts {
    fn answer(&mut self, _count: u64, command: &[u8], reply: &mut Buffer) -> bool {
        if self.fails {
            return false;
        }
        answer(command, &mut self.number, reply);
        true
    }
}

// A byte of a command.
pub(crate) fn byte(command: &[u8], at: usize) -> u8 {
    command.get(at).copied().unwrap_or(0)
}

// To ContextSave a context of the next number, to ContextLoad the context's handle.
fn answer(command: &[u8], number: &mut u8, reply: &mut Buffer) {
    match byte(command, 9) {
        0x62 => {
            let mut response = RESPONSE_5;
            response[17] = *number;
            for at in 0..4 {
                response[18 + at] = byte(command, 10 + at);
            }
            response[28] = *number ^ 0xa0;
            respond(&response, reply);
            *number = number.wrapping_add(1);
        }
        0x61 => {
            let mut response = LOADED;
            for at in 0..4 {
                response[10 + at] = byte(command, 18 + at);
            }
            respond(&response, reply);
        }
        _ => respond(&DONE, reply),
    }
}
