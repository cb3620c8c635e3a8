ghost use Rattle.std.specs.Prelude.{◌≡◌, ◌≤◌, ◌+◌, false, Ok, Err, Some, length, List, Option};
ghost use Rattle.std.specs.Prelude.{if◌then◌else◌, MatchResult, OnErr};
ghost use Rattle.std.specs.Int.{w32, to_be_bytes};
ghost use Rattle.tab_spec.specs.declared.TheConstants.{RC_1, RC_P, RC_SUCCESS, RC_VALUE};
ghost use Rattle.tab_spec.specs.declared.TheConstants.{ST_NO_SESSIONS};
ghost use Rattle.tab_spec.specs.Admission.{is_session_handle};
ghost use Rattle.tab_spec.specs.Object as object;
ghost use Rattle.tab_spec.specs.Reply.{response};
ghost use Rattle.effect_spec.specs.Contexts.{opened_object, session_context};
ghost use Rattle.tab_values.specs.Contexts.{context_of};
ghost use Rattle.tab_values.specs.Views.{session_of};
ghost use Rattle.history_spec.specs.Table as table;
ghost use Rattle.world_spec.specs.World as worlds;
ghost use Rattle.world_spec.specs.World.{choosing_nothing, load_parameters, load_step};
ghost use Rattle.world_spec.specs.World.{loadable_under, object_handed, object_opened};
ghost use Rattle.world_spec.specs.World.{refused_step, save_parameters, save_step, session_handed};
ghost use Rattle.world_spec.specs.World.{session_taken};
ghost use Rattle.plain_machine.specs.Views.{HasLoadRoom, StepRan, objects_of, state_of};

use crate::picks::{is_nothing, may_hand_out};
use crate::sessions::{
    SessionContext, number_of_session, own_place, put_place, saved_place, saved_session, session_of,
};
use crate::shared::Shared;
use crate::step_error::StepError;
use crate::table::{held_under, put_least};
use context_blob::{ContextKeys, open_object, seal_object, seal_session};
use history_spec::{CLIENT_OBJECTS, Pick};
use tab_bytes::{Buffer, Reader};
use tab_spec::{
    HEADER_BYTES, HT_TRANSIENT, MOST_BLOB_BYTES, RC_HANDLE, RC_SIZE, RC_SUCCESS, RC_VALUE,
    ST_NO_SESSIONS, TRANSIENT_FIRST,
};
use tab_values::{
    Context, Object, Persist, Session, SmallBytes, end_parameters, in_parameter, read_context,
};
use tab_wire::{end_response, error_reply, is_session_handle, octet_of, start_response};

// The whole of ContextSave (Part 3, "TPM2_ContextSave"): the context of an object, which stays, or
// of a session in use, which is saved then. The pick is its sequence. An error changes nothing.
pub(crate) fn context_save(
    client: u32,
    shared: &mut Shared,
    places: &[Option<Object>],
    handle: u32,
    params: &[u8],
    pick: Pick,
    reply: &mut Buffer,
) -> Result<(), StepError>
    ensures ran { StepRan result
        (save_step client (state_of shared.old (objects_of places.now)) handle
        (save_parameters params.now) pick)
        (state_of shared.new (objects_of places.now), reply.new) }
    ensures err { OnErr result ((shared.new ≡ shared.old) × (reply.new ≡ reply.old)) }
{
    if let Err(code) = end_parameters(&Reader::new(params)) {
        if !is_nothing(pick) {
            return Err(StepError::PickRefused);
        }
        error_reply(code, reply);
        return Ok(());
    }
    let Pick::Sequence(sequence) = pick else {
        return Err(StepError::PickRefused);
    };
    if octet_of(handle) == HT_TRANSIENT {
        return hand_object(shared, places, handle, sequence, reply);
    }
    hand_session(client, shared, handle, sequence, reply)
}

// The context of an object, which stays.
fn hand_object(
    shared: &mut Shared,
    places: &[Option<Object>],
    handle: u32,
    sequence: u64,
    reply: &mut Buffer,
) -> Result<(), StepError>
    ensures ran { let state = state_of shared.old (objects_of places.now) in
        StepRan result (object_handed state (table.held_under state.objects handle) sequence)
        (state_of shared.new (objects_of places.now), reply.new) }
    ensures err { OnErr result ((shared.new ≡ shared.old) × (reply.new ≡ reply.old)) }
{
    let Some(object) = held_under(places, handle) else {
        return Err(StepError::PickRefused);
    };
    if !may_hand_out(shared.object_sequence, sequence) {
        return Err(StepError::PickRefused);
    }
    let keys = ContextKeys::new(shared.persist.seed());
    start_response(ST_NO_SESSIONS, RC_SUCCESS, reply);
    seal_object(&keys, sequence, object, reply).unwrap();
    end_response(reply);
    shared.object_sequence = sequence + 1;
    Ok(())
}

// The context of a session in use, which is saved then.
fn hand_session(
    client: u32,
    shared: &mut Shared,
    handle: u32,
    sequence: u64,
    reply: &mut Buffer,
) -> Result<(), StepError>
    ensures ran { (objects : List (Option object.Object)) →
        let state = state_of shared.old objects in
        StepRan result
        (session_handed client state handle (worlds.session_of state.sessions client handle)
        sequence)
        (state_of shared.new objects, reply.new) }
    ensures err { OnErr result ((shared.new ≡ shared.old) × (reply.new ≡ reply.old)) }
{
    let Some(session) = session_of(&shared.sessions, client, handle) else {
        return Err(StepError::PickRefused);
    };
    if !may_hand_out(shared.session_sequence, sequence) {
        return Err(StepError::PickRefused);
    }
    let session = session.copied();
    let context = put_context(&shared.persist, handle, sequence, &session, reply);
    let place = saved_place(client, handle, session, context);
    put_place(&mut shared.sessions, number_of_session(handle), place);
    shared.session_sequence = sequence + 1;
    Ok(())
}

// Writes the response that has the context of a session, and gives the context.
fn put_context(
    persist: &Persist,
    handle: u32,
    sequence: u64,
    session: &Session,
    reply: &mut Buffer,
) -> SessionContext
    ensures context { result
        ≡ session_context persist.now.seed handle sequence (session_of session.now) }
    ensures put { reply.new ≡ response ST_NO_SESSIONS RC_SUCCESS result }
{
    let keys = ContextKeys::new(persist.seed());
    start_response(ST_NO_SESSIONS, RC_SUCCESS, reply);
    seal_session(&keys, handle, sequence, session, reply).unwrap();
    let context = SmallBytes::of(&reply.as_slice()[HEADER_BYTES as usize..]).unwrap();
    end_response(reply);
    context
}

// The whole of ContextLoad (Part 3, "TPM2_ContextLoad"): the object of a context under the least
// number that is free, or a session that the client saved or that was left, which is the client's
// and in use then. An error changes nothing.
pub(crate) fn context_load(
    client: u32,
    shared: &mut Shared,
    places: &mut Vec<Option<Object>>,
    params: &[u8],
    pick: Pick,
    reply: &mut Buffer,
) -> Result<(), StepError>
    requires room { HasLoadRoom params.now (objects_of places.old.items) }
    requires most { length places.old.items ≤ CLIENT_OBJECTS }
    ensures ran { StepRan result
        (choosing_nothing (load_step client (state_of shared.old (objects_of places.old.items))
        params.now (load_parameters params.now)) pick)
        (state_of shared.new (objects_of places.new.items), reply.new) }
    ensures err { OnErr result ((shared.new ≡ shared.old)
        × (objects_of places.new.items ≡ objects_of places.old.items) × (reply.new ≡ reply.old)) }
    ensures most { length places.new.items ≤ CLIENT_OBJECTS }
{
    if !is_nothing(pick) {
        return Err(StepError::PickRefused);
    }
    let handle = match read_parameters(params) {
        Ok(context) => context.saved_handle,
        Err(code) => {
            error_reply(code, reply);
            return Ok(());
        }
    };
    if handle == TRANSIENT_FIRST {
        return load_object(shared, places, params, reply);
    }
    load_session(client, shared, handle, params, reply);
    Ok(())
}

// The context that ContextLoad is given. An error is the response code of the first fault.
fn read_parameters(params: &[u8]) -> Result<Context, u32>
    ensures { MatchResult result
        (λ context. load_parameters params.now ≡ Ok (context_of context))
        (λ code. load_parameters params.now ≡ Err code) }
{
    let mut reader = Reader::new(params);
    let context = read_context(&mut reader).map_err(|code| in_parameter(1, code))?;
    if context.blob.len() > MOST_BLOB_BYTES as usize {
        return Err(in_parameter(1, RC_SIZE));
    }
    end_parameters(&reader)?;
    Ok(context)
}

// The object of a context, in any connection, gets the least number that is free. It takes memory
// for that number before anything changes.
fn load_object(
    shared: &Shared,
    places: &mut Vec<Option<Object>>,
    params: &[u8],
    reply: &mut Buffer,
) -> Result<(), StepError>
    requires few { table.is_full (objects_of places.old.items) ≡ false }
    requires most { length places.old.items ≤ CLIENT_OBJECTS }
    ensures ran { let state = state_of shared.now (objects_of places.old.items) in
        StepRan result (Some (object_opened state (opened_object state.persist.seed params.now)))
        (state_of shared.now (objects_of places.new.items), reply.new) }
    ensures err { OnErr result ((objects_of places.new.items ≡ objects_of places.old.items)
        × (reply.new ≡ reply.old)) }
    ensures most { length places.new.items ≤ CLIENT_OBJECTS }
{
    let keys = ContextKeys::new(shared.persist.seed());
    let object = match open_object(&keys, params) {
        Ok(object) => object,
        Err(code) => {
            error_reply(code, reply);
            return Ok(());
        }
    };
    if places.reserve(1).is_err() {
        return Err(StepError::Memory);
    }
    let number = put_least(places, object);
    tell_handle(TRANSIENT_FIRST + number as u32, reply);
    Ok(())
}

// A session that the client saved, or that was left, is the client's and in use, where this is the
// context that was handed out for it.
fn load_session(client: u32, shared: &mut Shared, handle: u32, params: &[u8], reply: &mut Buffer)
    ensures { (objects : List (Option object.Object)) →
        let state = state_of shared.old objects in
        (if is_session_handle handle
        then session_taken client state handle params.now
        (loadable_under state.sessions client handle)
        else refused_step state (RC_VALUE + RC_P + RC_1))
        ≡ (state_of shared.new objects, reply.new) }
{
    if !is_session_handle(handle) {
        return error_reply(in_parameter(1, RC_VALUE), reply);
    }
    let Some(session) = saved_session(&shared.sessions, client, handle, params) else {
        return error_reply(in_parameter(1, RC_HANDLE), reply);
    };
    let number = number_of_session(handle);
    put_place(
        &mut shared.sessions,
        number,
        own_place(client, handle, session),
    );
    shared.left.take(number);
    tell_handle(handle, reply);
}

// Writes the response that has a handle.
fn tell_handle(handle: u32, reply: &mut Buffer)
    ensures { reply.new ≡ response ST_NO_SESSIONS RC_SUCCESS (to_be_bytes w32 handle) }
{
    start_response(ST_NO_SESSIONS, RC_SUCCESS, reply);
    reply.put_u32(handle).unwrap();
    end_response(reply);
}
