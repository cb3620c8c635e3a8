ghost use Rattle.std.specs.Prelude.{◌≡◌, ◌<◌, ◌∷◌, [], Ok, Err, MatchOption, MatchResult};
ghost use Rattle.tab_spec.specs.declared.TheConstants.{SESSION_NUMBERS};
ghost use Rattle.fx_capability.specs.Views.{listed_of};
ghost use Rattle.device_spec.specs.Slots as slots;
ghost use Rattle.device_spec.specs.Slots.{listed_from, listed_place};
ghost use Rattle.device_slots.specs.Views.{place_of};
ghost use Rattle.device_slots.specs.Listed as laws;
ghost use Rattle.device_slots.specs.Listed.{objects_of, sessions_of};

use crate::machine::SlotMachine;
use crate::sessions::{Place, active_count, handle_of};
use crate::slots::{object_count, object_from};
use fx_capability::{HeldSession, Holdings, Limits, capability};
use tab_bytes::Buffer;
use tab_spec::{RC_SUCCESS, ST_NO_SESSIONS};
use tab_wire::{end_response, start_response};

impl SlotMachine {
    // GetCapability (Part 3, "TPM2_GetCapability"). An error is the response code of the first
    // fault, and changes nothing but the reply.
    pub(crate) fn get_capability(&self, params: &[u8], reply: &mut Buffer) -> Result<(), u32>
        ensures { MatchResult result
            (λ _. slots.get_capability self.now params.now ≡ Ok (self.now, reply.new))
            (λ code. slots.get_capability self.now params.now ≡ Err code) }
    {
        start_response(ST_NO_SESSIONS, RC_SUCCESS, reply);
        let active = active_count(&self.sessions) as u32;
        capability(
            &Limits::of_the_device(self.numbers),
            &self.persist,
            self,
            active,
            params,
            reply,
        )?;
        end_response(reply);
        Ok(())
    }
}

// As many slots and session numbers as a machine may have: the laws are stated of all values, also
// of those that are no machine's.
impl Holdings for SlotMachine {
    ghost objects = { λ m. objects_of m };

    ghost sessions = { λ m. listed_from 0 (sessions_of m) };

    ghost objects_rise = { laws.objects_rise };

    ghost objects_fit = { laws.objects_fit };

    ghost sessions_rise = { laws.sessions_rise };

    ghost sessions_fit = { laws.sessions_fit };

    fn object_from(&self, least: u32) -> Option<u32> {
        object_from(&self.slots, least)
    }

    fn object_count(&self) -> u32 {
        object_count(&self.slots) as u32
    }

    fn session(&self, number: u32) -> Option<HeldSession> {
        held_session(&self.sessions[number as usize], number)
    }
}

// The session of a number, as it is listed.
fn held_session(place: &Place, number: u32) -> Option<HeldSession>
    requires { number < SESSION_NUMBERS }
    ensures { MatchOption result (listed_place number (place_of place.now) ≡ [])
        (λ s. listed_place number (place_of place.now) ≡ listed_of s ∷ []) }
{
    match place {
        Place::Inactive => None,
        Place::Loaded(octet, _) => Some(HeldSession {
            handle: handle_of(*octet, number),
            in_use: true,
        }),
        Place::Saved(octet, _) => Some(HeldSession {
            handle: handle_of(*octet, number),
            in_use: false,
        }),
    }
}
