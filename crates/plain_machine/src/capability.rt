ghost use Rattle.std.specs.Prelude.{◌≡◌, ◌≤◌, length, OnErr};
ghost use Rattle.world_spec.specs.World.{capability_step, choosing_nothing, client_capability};
ghost use Rattle.plain_machine.specs.Views.{StepRan, objects_of, state_of};

use crate::picks::is_nothing;
use crate::seen::Seen;
use crate::sessions::active_count;
use crate::shared::Shared;
use crate::step_error::StepError;
use fx_capability::{Limits, capability};
use history_spec::{CLIENT_OBJECTS, Pick};
use tab_bytes::Buffer;
use tab_spec::{RC_SUCCESS, ST_NO_SESSIONS};
use tab_values::Object;
use tab_wire::{end_response, error_reply, start_response};

// The whole of GetCapability (Part 3, "TPM2_GetCapability"): what the client has, and how many
// sessions all have.
pub(crate) fn get_capability(
    client: u32,
    shared: &Shared,
    places: &[Option<Object>],
    params: &[u8],
    pick: Pick,
    reply: &mut Buffer,
) -> Result<(), StepError>
    requires most { length places.now ≤ CLIENT_OBJECTS }
    ensures ran { let state = state_of shared.now (objects_of places.now) in
        StepRan result
        (choosing_nothing (capability_step state (client_capability client state params.now)) pick)
        (state, reply.new) }
    ensures err { OnErr result (reply.new ≡ reply.old) }
{
    if !is_nothing(pick) {
        return Err(StepError::PickRefused);
    }
    let seen = Seen {
        client,
        places,
        sessions: &shared.sessions,
    };
    let active = active_count(&shared.sessions) as u32;
    let limits = Limits::of_a_client(shared.most);
    start_response(ST_NO_SESSIONS, RC_SUCCESS, reply);
    match capability(&limits, &shared.persist, &seen, active, params, reply) {
        Ok(()) => end_response(reply),
        Err(code) => error_reply(code, reply),
    }
    Ok(())
}
