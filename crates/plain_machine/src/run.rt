ghost use Rattle.std.specs.Prelude.{◌≡◌, ◌==◌, ◌≤◌, ◌<◌, None, Some, false, true, drop, length};
ghost use Rattle.std.specs.Prelude.{vec_len, vec_capacity, OnErr};
ghost use Rattle.tab_spec.specs.Admission.{is_session_handle, object_too_many};
ghost use Rattle.tab_spec.specs.Auths.{IsAuthWithin};
ghost use Rattle.tab_spec.specs.Shape.{IsShape};
ghost use Rattle.effect_spec.specs.Effect.{effect_of};
ghost use Rattle.effect_spec.specs.Operands.{command_auth};
ghost use Rattle.fx_table.specs.Views.{created_of};
ghost use Rattle.world_spec.specs.World.{client_operands, effect_step, made_step, run_step};
ghost use Rattle.world_spec.specs.World.{tables_of};
ghost use Rattle.plain_machine.specs.Owners.{owners_of};
ghost use Rattle.plain_machine.specs.Picks.{effect_run, is_session, may_have, starts_session};
ghost use Rattle.plain_machine.specs.Views.{HasLoadRoom, HasPlaceForMade, StepRan, objects_of};
ghost use Rattle.plain_machine.specs.Views.{state_of};

use crate::capability::get_capability;
use crate::contexts::{context_load, context_save};
use crate::flush::flush_context;
use crate::operands::{operands, put_sessions};
use crate::picks::{is_started, lacks_number, may_have};
use crate::sessions::put_session;
use crate::shared::Shared;
use crate::step_error::StepError;
use crate::table::put_least;
use fx_table::{Created, effect};
use history_spec::{CLIENT_OBJECTS, Pick};
use tab_bytes::Buffer;
use tab_spec::{
    Admitted, CC_CONTEXT_LOAD, CC_CONTEXT_SAVE, CC_FLUSH_CONTEXT, CC_GET_CAPABILITY,
    CC_START_AUTH_SESSION, RC_SESSION_HANDLES, TRANSIENT_FIRST,
};
use tab_values::Object;
use tab_wire::{error_reply, set_response_handle};

// Runs a command that was admitted. Whether it may have its pick is asked before anything changes,
// so an error changes nothing.
pub(crate) fn run(
    client: u32,
    shared: &mut Shared,
    places: &mut Vec<Option<Object>>,
    admitted: &Admitted,
    command: &[u8],
    pick: Pick,
    reply: &mut Buffer,
) -> Result<(), StepError>
    requires shape { IsShape admitted.now.shape }
    requires params { admitted.now.auths.params ≤ length command.now }
    requires within { IsAuthWithin (length command.now) (command_auth admitted.now.auths) }
    requires few { object_too_many
        (tables_of client (state_of shared.old (objects_of places.old.items)))
        admitted.now.shape command.now ≡ None }
    requires bare { (admitted.now.shape.row.code == CC_START_AUTH_SESSION) ≡ true
        → is_session_handle (command_auth admitted.now.auths).session ≡ false }
    requires loads { (admitted.now.shape.row.code == CC_CONTEXT_LOAD) ≡ true
        → HasLoadRoom (drop admitted.now.auths.params command.now) (objects_of places.old.items) }
    requires most { length places.old.items ≤ CLIENT_OBJECTS }
    ensures ran { StepRan result
        (run_step client (state_of shared.old (objects_of places.old.items)) admitted.now.shape
        admitted.now.auths command.now pick)
        (state_of shared.new (objects_of places.new.items), reply.new) }
    ensures err { OnErr result ((state_of shared.new (objects_of places.new.items)
        ≡ state_of shared.old (objects_of places.old.items)) × (reply.new ≡ reply.old)) }
    ensures most { length places.new.items ≤ CLIENT_OBJECTS }
{
    let params = &command[admitted.auths.params as usize..];
    match admitted.shape.row.code {
        CC_FLUSH_CONTEXT => flush_context(client, shared, places, params, pick, reply),
        CC_CONTEXT_SAVE => {
            let handle = admitted.shape.handles[0];
            context_save(client, shared, places, handle, params, pick, reply)
        }
        CC_CONTEXT_LOAD => context_load(client, shared, places, params, pick, reply),
        CC_GET_CAPABILITY => get_capability(client, shared, places, params, pick, reply),
        _ => try_effect(client, shared, places, admitted, command, pick, reply),
    }
}

// Runs a command that has an effect alone. Room for an object that it may make is taken before its
// effect.
fn try_effect(
    client: u32,
    shared: &mut Shared,
    places: &mut Vec<Option<Object>>,
    admitted: &Admitted,
    command: &[u8],
    pick: Pick,
    reply: &mut Buffer,
) -> Result<(), StepError>
    requires shape { IsShape admitted.now.shape }
    requires params { admitted.now.auths.params ≤ length command.now }
    requires within { IsAuthWithin (length command.now) (command_auth admitted.now.auths) }
    requires few { object_too_many
        (tables_of client (state_of shared.old (objects_of places.old.items)))
        admitted.now.shape command.now ≡ None }
    requires bare { (admitted.now.shape.row.code == CC_START_AUTH_SESSION) ≡ true
        → is_session_handle (command_auth admitted.now.auths).session ≡ false }
    requires most { length places.old.items ≤ CLIENT_OBJECTS }
    ensures ran { StepRan result
        (effect_run client (state_of shared.old (objects_of places.old.items)) admitted.now.shape
        admitted.now.auths command.now pick)
        (state_of shared.new (objects_of places.new.items), reply.new) }
    ensures err { OnErr result ((state_of shared.new (objects_of places.new.items)
        ≡ state_of shared.old (objects_of places.old.items)) × (reply.new ≡ reply.old)) }
    ensures most { length places.new.items ≤ CLIENT_OBJECTS }
{
    let code = admitted.shape.row.code;
    let params = &command[admitted.auths.params as usize..];
    let lacks = lacks_number(shared.most, &shared.sessions, code, params);
    let starts = is_started(lacks, &shared.persist, code, params);
    if !may_have(starts, &shared.sessions, pick) {
        return Err(StepError::PickRefused);
    }
    if lacks {
        error_reply(RC_SESSION_HANDLES, reply);
        return Ok(());
    }
    if places.reserve(1).is_err() {
        return Err(StepError::Memory);
    }
    run_effect(client, shared, places, admitted, command, pick, reply);
    Ok(())
}

// Runs a command of what is kept, of the client's objects and of its sessions. What it made gets
// its number.
fn run_effect(
    client: u32,
    shared: &mut Shared,
    places: &mut Vec<Option<Object>>,
    admitted: &Admitted,
    command: &[u8],
    pick: Pick,
    reply: &mut Buffer,
)
    requires shape { IsShape admitted.now.shape }
    requires params { admitted.now.auths.params ≤ length command.now }
    requires within { IsAuthWithin (length command.now) (command_auth admitted.now.auths) }
    requires few { object_too_many
        (tables_of client (state_of shared.old (objects_of places.old.items)))
        admitted.now.shape command.now ≡ None }
    requires bare { (admitted.now.shape.row.code == CC_START_AUTH_SESSION) ≡ true
        → is_session_handle (command_auth admitted.now.auths).session ≡ false }
    requires pick { may_have (starts_session shared.old.persist admitted.now.shape.row.code
        (drop admitted.now.auths.params command.now))
        (owners_of shared.old.sessions.items) pick ≡ true }
    requires most { length places.old.items ≤ CLIENT_OBJECTS }
    requires room { vec_len places.old < vec_capacity places.old }
    ensures step { let state = state_of shared.old (objects_of places.old.items) in
        effect_step client state (effect_of state.persist
        (client_operands client state admitted.now.shape admitted.now.auths) admitted.now.shape
        admitted.now.auths command.now) pick
        ≡ Some (state_of shared.new (objects_of places.new.items), reply.new) }
    ensures most { length places.new.items ≤ CLIENT_OBJECTS }
{
    let shape = &admitted.shape;
    let auths = &admitted.auths;
    let mut ops = operands(client, places, &shared.sessions, shape, auths);
    let made = effect(&mut shared.persist, &mut ops, shape, auths, command, reply);
    put_sessions(&mut shared.sessions, client, &ops, made.auth_ended);
    put_made(client, shared, places, made.created, pick, reply);
}

// An object that a command made gets the least number that is free, and a session the one that is
// picked. The response has the handle.
fn put_made(
    client: u32,
    shared: &mut Shared,
    places: &mut Vec<Option<Object>>,
    created: Created,
    pick: Pick,
    reply: &mut Buffer,
)
    requires place { HasPlaceForMade (created_of created) (objects_of places.old.items) reply.old }
    requires pick { may_have (is_session (created_of created))
        (owners_of shared.old.sessions.items) pick ≡ true }
    requires most { length places.old.items ≤ CLIENT_OBJECTS }
    requires room { vec_len places.old < vec_capacity places.old }
    ensures made { made_step client (state_of shared.old (objects_of places.old.items))
        (created_of created) reply.old pick
        ≡ Some (state_of shared.new (objects_of places.new.items), reply.new) }
    ensures most { length places.new.items ≤ CLIENT_OBJECTS }
{
    match created {
        Created::Nothing => {}
        Created::Object(object) => {
            let number = put_least(places, object);
            set_response_handle(reply, TRANSIENT_FIRST + number as u32);
        }
        Created::Session(session) => {
            if let Pick::Session(number) = pick {
                let handle = put_session(&mut shared.sessions, client, session, number);
                set_response_handle(reply, handle);
            }
        }
    }
}
