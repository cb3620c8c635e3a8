ghost use Rattle.std.specs.Prelude.{◌≡◌, ◌≢◌, ◌≤◌, ◌++◌, [], length, drop};
ghost use Rattle.tab_spec.specs.Auths.{IsAuthWithin};
ghost use Rattle.effect_spec.specs.Effect.{effect_in, effect_of, effect_row, handle_area};
ghost use Rattle.effect_spec.specs.Operands.{StandFor, command_auth};
ghost use Rattle.tab_spec.specs.Shape.{IsShape};
ghost use Rattle.fx_table.specs.Views.{LeavesEffect, begun_response, effect_left, operands_of};

use crate::authorization::check_authorization;
use crate::operands::{CommandOutcome, Created, Operands};
use crate::response_auth::authorized_row;
use crate::rows::row;
use fx_nv::indexes_are_there;
use fx_sessions::is_continued;
use tab_bytes::Buffer;
use tab_spec::{Auths, RC_SUCCESS, ST_SESSIONS, Shape};
use tab_values::Persist;
use tab_wire::{end_response, error_reply, start_response};

/// Runs a command that was admitted: the effect on what a device keeps and on the sessions that it
/// names, what was created, and the whole reply, over whatever the buffer holds; its response
/// handle is 0, where it has one. First each NV index that is named has to be there, then the
/// authorization is tested, then the command's own parameters; after the row the session of the
/// authorization draws a new nonceTPM. An error changes nothing. A command that has no row here is
/// answered with COMMAND_CODE.
///
/// `shape` and `auths` are those of `bytes`, the operands stand for its handles, and `ops.session`
/// is the session that its authorization names.
pub fn effect(
    p: &mut Persist,
    ops: &mut Operands<'_>,
    shape: &Shape,
    auths: &Auths,
    bytes: &[u8],
    reply: &mut Buffer,
) -> CommandOutcome
    requires shape { IsShape shape.now }
    requires operands { StandFor shape.now (operands_of ops.old) }
    requires params { auths.now.params ≤ length bytes.now }
    requires within { IsAuthWithin (length bytes.now) (command_auth auths.now) }
    ensures { effect_left p.new ops.new result reply.new
        ≡ effect_of p.old (operands_of ops.old) shape.now auths.now bytes.now }
{
    match run(p, ops, shape, auths, bytes, reply) {
        Ok(outcome) => {
            end_response(reply);
            outcome
        }
        Err(code) => {
            error_reply(code, reply);
            CommandOutcome {
                created: Created::Nothing,
                auth_ended: false,
            }
        }
    }
}

// Runs a command, begins its response, whose size isn't set yet, and returns its outcome. An error
// is the response code of the first fault, and changes nothing but `reply`, which `effect` writes
// over.
fn run(
    persist: &mut Persist,
    ops: &mut Operands<'_>,
    shape: &Shape,
    auths: &Auths,
    bytes: &[u8],
    reply: &mut Buffer,
) -> Result<CommandOutcome, u32>
    requires shape { IsShape shape.now }
    requires operands { StandFor shape.now (operands_of ops.old) }
    requires params { auths.now.params ≤ length bytes.now }
    requires within { IsAuthWithin (length bytes.now) (command_auth auths.now) }
    ensures { LeavesEffect result shape.now
        (effect_of persist.old (operands_of ops.old) shape.now auths.now bytes.now)
        persist.old persist.new (operands_of ops.old) (operands_of ops.new) reply.new }
{
    indexes_are_there(persist, ops.first.handle(), ops.second.handle())?;
    check_authorization(persist, ops, shape, auths, bytes)?;
    start_response(shape.tag, RC_SUCCESS, reply);
    put_handle_area(shape, reply);
    if shape.tag == ST_SESSIONS {
        return run_with_sessions(persist, ops, shape, auths, bytes, reply);
    }
    run_without_sessions(persist, ops, shape, auths, bytes, reply)
}

// Runs the row of a command that has no authorizations.
fn run_without_sessions(
    persist: &mut Persist,
    ops: &mut Operands<'_>,
    shape: &Shape,
    auths: &Auths,
    bytes: &[u8],
    reply: &mut Buffer,
) -> Result<CommandOutcome, u32>
    requires shape { IsShape shape.now }
    requires operands { StandFor shape.now (operands_of ops.old) }
    requires params { auths.now.params ≤ length bytes.now }
    requires tag { shape.now.tag ≢ ST_SESSIONS }
    requires begun { reply.old ≡ begun_response shape.now [] }
    ensures { LeavesEffect result shape.now
        (effect_in persist.old (operands_of ops.old) shape.now auths.now bytes.now
        (effect_row shape.now.row.code persist.old (operands_of ops.old).handles
        (drop auths.now.params bytes.now)))
        persist.old persist.new (operands_of ops.old) (operands_of ops.new) reply.new }
{
    let done = row(persist, ops, shape, &bytes[auths.params as usize..], reply)?;
    ops.put_policy_session(done.policy);
    Ok(CommandOutcome {
        created: done.created,
        auth_ended: false,
    })
}

// The same for a command that has one.
fn run_with_sessions(
    persist: &mut Persist,
    ops: &mut Operands<'_>,
    shape: &Shape,
    auths: &Auths,
    bytes: &[u8],
    reply: &mut Buffer,
) -> Result<CommandOutcome, u32>
    requires shape { IsShape shape.now }
    requires operands { StandFor shape.now (operands_of ops.old) }
    requires params { auths.now.params ≤ length bytes.now }
    requires within { IsAuthWithin (length bytes.now) (command_auth auths.now) }
    requires tag { shape.now.tag ≡ ST_SESSIONS }
    requires begun { reply.old ≡ begun_response shape.now [] }
    ensures { LeavesEffect result shape.now
        (effect_in persist.old (operands_of ops.old) shape.now auths.now bytes.now
        (effect_row shape.now.row.code persist.old (operands_of ops.old).handles
        (drop auths.now.params bytes.now)))
        persist.old persist.new (operands_of ops.old) (operands_of ops.new) reply.new }
{
    let done = authorized_row(persist, ops, shape, auths, bytes, reply)?;
    let auth_ended = ops.session.is_some() && !is_continued(&auths.auths[0]);
    ops.put_policy_session(done.policy);
    Ok(CommandOutcome {
        created: done.created,
        auth_ended,
    })
}

// Appends the response handle, where the response has one: 0, until what was created has a place.
pub(crate) fn put_handle_area(shape: &Shape, reply: &mut Buffer)
    requires header { length reply.old ≡ 10 }
    ensures { reply.new ≡ reply.old ++ handle_area shape.now.row.response_handle }
{
    if shape.row.response_handle {
        reply.put_u32(0).unwrap();
    }
}
