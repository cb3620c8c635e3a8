ghost use Rattle.std.specs.Prelude.{◌≡◌, ◌≤◌, [], true, is_some, length, MatchResult, OnErr};
ghost use Rattle.tab_spec.specs.Reply.{response};
ghost use Rattle.tab_spec.specs.Shape.{octet_of};
ghost use Rattle.history_spec.specs.Table.{held_under};
ghost use Rattle.world_spec.specs.World.{choosing_nothing, flush_fault, flush_handle, flush_step};
ghost use Rattle.world_spec.specs.World.{refused_step, without_named};
ghost use Rattle.plain_machine.specs.Views.{StepRan, object_seen, objects_of, owned_seen, state_of};

use crate::picks::is_nothing;
use crate::seen::Seen;
use crate::sessions::{number_of_session, put_place};
use crate::shared::Shared;
use crate::step_error::StepError;
use crate::table::take_out;
use history_spec::{CLIENT_OBJECTS, Pick};
use tab_bytes::{Buffer, Reader};
use tab_spec::{HT_TRANSIENT, RC_HANDLE, RC_INSUFFICIENT, RC_SUCCESS, RC_VALUE, ST_NO_SESSIONS};
use tab_values::{Object, end_parameters, in_parameter};
use tab_wire::{error_reply, is_session_handle, octet_of, start_response};

// The whole of FlushContext (Part 3, "TPM2_FlushContext"): an object or a session of the client, in
// use or saved, is gone. An error changes nothing.
pub(crate) fn flush_context(
    client: u32,
    shared: &mut Shared,
    places: &mut Vec<Option<Object>>,
    params: &[u8],
    pick: Pick,
    reply: &mut Buffer,
) -> Result<(), StepError>
    requires most { length places.old.items ≤ CLIENT_OBJECTS }
    ensures ran { StepRan result
        (choosing_nothing (flush_step client (state_of shared.old (objects_of places.old.items))
        (flush_handle params.now)) pick)
        (state_of shared.new (objects_of places.new.items), reply.new) }
    ensures err { OnErr result ((shared.new ≡ shared.old)
        × (objects_of places.new.items ≡ objects_of places.old.items) × (reply.new ≡ reply.old)) }
    ensures same { length places.new.items ≡ length places.old.items }
{
    if !is_nothing(pick) {
        return Err(StepError::PickRefused);
    }
    match flush(client, shared, places, params) {
        Ok(()) => start_response(ST_NO_SESSIONS, RC_SUCCESS, reply),
        Err(code) => error_reply(code, reply),
    }
    Ok(())
}

// An error is the response code of the first fault, and changes nothing.
fn flush(
    client: u32,
    shared: &mut Shared,
    places: &mut Vec<Option<Object>>,
    params: &[u8],
) -> Result<(), u32>
    requires most { length places.old.items ≤ CLIENT_OBJECTS }
    ensures flushed { MatchResult result
        (λ _. flush_step client (state_of shared.old (objects_of places.old.items))
        (flush_handle params.now)
        ≡ (
          state_of shared.new (objects_of places.new.items),
          response ST_NO_SESSIONS RC_SUCCESS [],
        ))
        (λ code. flush_step client (state_of shared.old (objects_of places.old.items))
        (flush_handle params.now)
        ≡ refused_step (state_of shared.new (objects_of places.new.items)) code) }
    ensures same { length places.new.items ≡ length places.old.items }
{
    let mut reader = Reader::new(params);
    let handle = reader.take_u32().ok_or(in_parameter(1, RC_INSUFFICIENT))?;
    end_parameters(&reader)?;
    let seen = Seen {
        client,
        places,
        sessions: &shared.sessions,
    };
    if let Some(code) = flush_fault(&seen, handle) {
        return Err(code);
    }
    drop_named(shared, places, handle);
    Ok(())
}

// The code that refuses a handle, where it names neither an object nor a session of the client.
fn flush_fault(seen: &Seen, handle: u32) -> Option<u32>
    ensures { result ≡ flush_fault
        (λ h. is_some (object_seen seen.now h)) (λ h. is_some (owned_seen seen.now h)) handle }
{
    if octet_of(handle) == HT_TRANSIENT {
        if seen.object(handle).is_some() {
            return None;
        }
        return Some(in_parameter(1, RC_HANDLE));
    }
    if !is_session_handle(handle) {
        return Some(in_parameter(1, RC_VALUE));
    }
    if seen.owns_session(handle) {
        return None;
    }
    Some(in_parameter(1, RC_HANDLE))
}

// Without the object or the session of a handle, which is there.
fn drop_named(shared: &mut Shared, places: &mut Vec<Option<Object>>, handle: u32)
    requires there { octet_of handle ≡ HT_TRANSIENT
        → is_some (held_under (objects_of places.old.items) handle) ≡ true }
    ensures named { state_of shared.new (objects_of places.new.items)
        ≡ without_named (state_of shared.old (objects_of places.old.items)) handle }
    ensures same { length places.new.items ≡ length places.old.items }
{
    if octet_of(handle) == HT_TRANSIENT {
        take_out(places, handle);
        return;
    }
    put_place(&mut shared.sessions, number_of_session(handle), None);
}
