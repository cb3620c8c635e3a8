//! Sessions that a client saves and gives back, over a device that tells nothing.
ghost use Rattle.std.specs.Prelude.{◌≡◌, true, IfOk};
ghost use Rattle.tab_spec.specs.declared.contexts.TheConstants.{PROFILE_CONTEXTS};
ghost use Rattle.session_swap.specs.Items.{Names, is_loaded_item, item_of};

use crate::fake::{Fake, RESPONSE_5, fake};
use device_port::Device;
use session_swap::{Sessions, refresh};
use std::alloc::Global;
use std::test::Fail;
use tab_bytes::Buffer;
use tab_spec::{Numbers, PROFILE_CONTEXTS};

// The handles of an HMAC session and of a policy session.
const FIRST: u32 = 0x0200_0001;

const SECOND: u32 = 0x0300_0002;

// Contexts of the first one (Part 2, "TPMS_CONTEXT"): number, savedHandle, hierarchy, and a blob of
// one byte.
const CONTEXT_5: [u8; 19] = [
    0, 0, 0, 0, 0, 0, 0, 5, 2, 0, 0, 1, 0x40, 0, 0, 7, 0, 1, 0xa5,
];

const CONTEXT_6: [u8; 19] = [
    0, 0, 0, 0, 0, 0, 0, 6, 2, 0, 0, 1, 0x40, 0, 0, 7, 0, 1, 0xa6,
];

// Bytes that differ from the first of them in one byte: of the number, of the handle, of the blob.
const OTHERS: [[u8; 19]; 4] = [
    [
        0, 0, 0, 0, 0, 0, 0, 4, 2, 0, 0, 1, 0x40, 0, 0, 7, 0, 1, 0xa5,
    ],
    [
        0, 0, 0, 0, 0, 0, 0, 5, 3, 0, 0, 1, 0x40, 0, 0, 7, 0, 1, 0xa5,
    ],
    [
        0, 0, 0, 0, 0, 0, 0, 5, 2, 0, 0, 2, 0x40, 0, 0, 7, 0, 1, 0xa5,
    ],
    [
        0, 0, 0, 0, 0, 0, 0, 5, 2, 0, 0, 1, 0x40, 0, 0, 7, 0, 1, 0xa4,
    ],
];

// Two sessions over that device: the first is client 7's, and the other client 9's.
#[derive(Drop)]
struct Desk {
    sessions: Sessions,
    device: Fake,
    reply: Buffer,
    ghost contexts: { sessions.contexts ≡ PROFILE_CONTEXTS },
}

impl Desk {
    fn begin(alloc: Global) -> Result<Desk, Fail>
        ensures first { IfOk result (λ d. is_loaded_item (item_of d.sessions.items FIRST) ≡ true) }
        ensures named { IfOk result (λ d. Names d.sessions.items FIRST) }
        ensures second { IfOk result
            (λ d. is_loaded_item (item_of d.sessions.items SECOND) ≡ true) }
    {
        let mut sessions = Sessions::new(alloc, Numbers::of_the_profile(), PROFILE_CONTEXTS)?;
        sessions.adopt_session(7, FIRST);
        sessions.adopt_session(9, SECOND);
        Ok(Desk {
            sessions,
            device: fake(),
            reply: Buffer::new(alloc)?,
        })
    }

    // Whether the first one is client 7's, and in use as told.
    fn is_used(&self, in_use: bool) -> bool {
        self.sessions.owner_of(FIRST) == Some((7, in_use))
    }

    // Saves the first one for its client; false where nobody has it.
    fn save(&mut self) -> bool
        requires { is_loaded_item (item_of self.old.sessions.items FIRST) ≡ true }
        ensures named { Names self.new.sessions.items FIRST }
        ensures other { item_of self.new.sessions.items SECOND
            ≡ item_of self.old.sessions.items SECOND }
    {
        if self.sessions.owner_of(FIRST).is_none() {
            return false;
        }
        self.sessions
            .client_save(&mut self.device, FIRST, &mut self.reply)
            .is_ok()
    }

    // Saves the other one.
    fn save_other(&mut self) -> bool
        requires { is_loaded_item (item_of self.old.sessions.items SECOND) ≡ true }
        ensures named { Names self.new.sessions.items SECOND }
        ensures other { item_of self.new.sessions.items FIRST
            ≡ item_of self.old.sessions.items FIRST }
    {
        if self.sessions.owner_of(SECOND).is_none() {
            return false;
        }
        self.sessions
            .client_save(&mut self.device, SECOND, &mut self.reply)
            .is_ok()
    }

    // Whether the client gives these bytes back for the first one.
    fn give_back(&mut self, context: &[u8]) -> bool
        requires { Names self.old.sessions.items FIRST }
        ensures { Names self.new.sessions.items FIRST }
    {
        self.sessions.client_load(7, context) == Ok(FIRST)
    }

    // Saves the other one, and then sees to it that both are loaded.
    fn needs_both(&mut self) -> bool
        requires first { Names self.old.sessions.items FIRST }
        requires second { is_loaded_item (item_of self.old.sessions.items SECOND) ≡ true }
    {
        if !self.save_other() {
            return false;
        }
        self.sessions
            .make_sessions(&mut self.device, &[FIRST, SECOND], 0, &mut self.reply)
            .is_ok()
    }

    // Loads it.
    fn load(&mut self) -> bool
        requires { Names self.old.sessions.items FIRST }
        ensures { result ≡ true → is_loaded_item (item_of self.new.sessions.items FIRST) ≡ true }
    {
        self.sessions
            .make_sessions(&mut self.device, &[FIRST], 0, &mut self.reply)
            .is_ok()
    }

    // Renews the contexts that are due, and returns how many these were; nothing where that failed.
    fn renews(&mut self) -> Option<u32> {
        refresh(&mut self.sessions, &mut self.device, &mut self.reply).ok()
    }

    // Whether these bytes are refused.
    fn refuses(&mut self, client: u32, context: &[u8]) -> bool
        requires { Names self.old.sessions.items FIRST }
        ensures { Names self.new.sessions.items FIRST }
    {
        self.sessions.client_load(client, context) == Err(0x1cb)
    }

    // Whether nothing but the context that was handed out is taken.
    fn refuses_others(&mut self) -> bool
        requires { Names self.old.sessions.items FIRST }
        ensures { Names self.new.sessions.items FIRST }
    {
        for other in &OTHERS {
            if !self.refuses(7, other) {
                return false;
            }
        }
        self.refuses(8, &CONTEXT_5)
            && self.refuses(7, &CONTEXT_5[..18])
            && self.refuses(7, &CONTEXT_5[..8])
            && self.refuses(7, &[])
    }

    // Whether the first one is saved, and given back by the very bytes.
    fn goes_and_comes(&mut self) -> bool
        requires { is_loaded_item (item_of self.old.sessions.items FIRST) ≡ true }
        ensures { Names self.new.sessions.items FIRST }
    {
        if !self.save() || self.reply.as_slice() != RESPONSE_5.as_slice() || !self.is_used(false) {
            return false;
        }
        self.refuses_others() && self.give_back(&CONTEXT_5) && self.is_used(true)
    }

    // Whether it is then saved again, and given back by its last context alone, and once.
    fn goes_again(&mut self) -> bool
        requires { Names self.old.sessions.items FIRST }
    {
        if !self.load() || !self.save() || !self.refuses(7, &CONTEXT_5) {
            return false;
        }
        self.give_back(&CONTEXT_6) && !self.give_back(&CONTEXT_6)
    }
}

fn run(alloc: Global) -> Result<bool, Fail> {
    let mut desk = Desk::begin(alloc)?;
    Ok(desk.goes_and_comes() && desk.goes_again())
}

#[test]
fn a_session_is_given_back_by_its_last_context(rt: HostRuntime) -> Result<(), Fail> {
    assert!(rt; run(rt.alloc())?);
    Ok(())
}

// The other session is saved by one command and loaded by another, and the first stays where it is.
#[test]
fn a_needed_session_stays_loaded(rt: HostRuntime) -> Result<(), Fail> {
    let mut desk = Desk::begin(rt.alloc())?;
    assert!(rt; desk.needs_both());
    assert_eq!(rt; desk.device.sent_count(), 2);
    Ok(())
}

// How many contexts are renewed where the next number is 247 above the first one, how many commands
// were sent then, and whether the first one is taken yet.
fn run_renewal(alloc: Global) -> Result<(u32, u64, bool), Fail> {
    let mut desk = Desk::begin(alloc)?;
    if !desk.save() {
        return Ok((0, 0, false));
    }
    desk.device.answers.number = 251;
    if !desk.save_other() {
        return Ok((0, 0, false));
    }
    let Some(renewed) = desk.renews() else {
        return Ok((0, 0, false));
    };
    let taken = desk.sessions.client_load(7, &CONTEXT_5) == Ok(FIRST);
    Ok((renewed, desk.device.sent_count(), taken))
}

#[test]
fn a_renewal_keeps_what_was_handed_out(rt: HostRuntime) -> Result<(), Fail> {
    // Two contexts are saved, and then the first is loaded and saved again.
    assert_eq!(rt; run_renewal(rt.alloc())?, (1, 4, true));
    Ok(())
}

// Whether a session that a device doesn't save stays in use, and none is saved.
fn run_failing(alloc: Global) -> Result<bool, Fail> {
    let mut desk = Desk::begin(alloc)?;
    desk.device.answers.fails = true;
    Ok(!desk.save() && desk.is_used(true) && desk.sessions.saved() == 0)
}

#[test]
fn a_session_that_is_not_saved_is_in_use(rt: HostRuntime) -> Result<(), Fail> {
    assert!(rt; run_failing(rt.alloc())?);
    Ok(())
}
