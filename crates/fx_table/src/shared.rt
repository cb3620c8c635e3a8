ghost use Rattle.std.specs.Prelude.{◌≡◌, ◌≢◌, ◌≤◌, ◌+◌, ◌<◌, ◌++◌, [], List, ℕ, false, length};
ghost use Rattle.std.specs.Prelude.{drop, get_or, Ok, Err, MatchResult};
ghost use Rattle.std.specs.Int.{w32, to_be_bytes};
ghost use Rattle.tab_spec.specs.Auths.{IsAuthWithin};
ghost use Rattle.tab_spec.specs.Shape.{IsShape};
ghost use Rattle.tab_spec.specs.declared.Kind.TheVariants.{Absent};
ghost use Rattle.tab_spec.specs.declared.TheConstants.{CC_PCR_EXTEND, PCRS};
ghost use Rattle.effect_spec.specs.declared.TheConstants.{MOST_BYTES_BEFORE_AUTH};
ghost use Rattle.effect_spec.specs.Effect as effects;
ghost use Rattle.effect_spec.specs.Effect.{authorization_fault, effect_of};
ghost use Rattle.effect_spec.specs.Operands.{command_auth, plain_operands};
ghost use Rattle.effect_spec.specs.Rows.{PassesUnless};
ghost use Rattle.fx_table.specs.Views.{LeavesEffectAlone, begun_response, creates, effect_alone};
ghost use Rattle.fx_table.specs.Views.{plain_handle, shared_row};

use crate::authorization::auth_value;
use crate::effects::put_handle_area;
use crate::rows::row_with;
use fx_nv::indexes_are_there;
use fx_sessions::{authorize_by_password, put_password_response_auth};
use tab_bytes::Buffer;
use tab_spec::{
    Auths, CC_CREATE_PRIMARY, CC_START_AUTH_SESSION, Kind, RC_SUCCESS, ST_SESSIONS, Shape,
};
use tab_values::Persist;
use tab_wire::{end_response, error_reply, start_response};

/// Whether a command that names no object and no session creates one.
pub fn creates(code: u32) -> bool
    ensures { result ≡ creates code }
{
    match code {
        CC_CREATE_PRIMARY | CC_START_AUTH_SESSION => true,
        _ => false,
    }
}

/// Does what [`effect`](crate::effect) does, for a command that names only what all clients share
/// and that creates nothing: each handle stands for itself, and a password authorizes it. It is a
/// call of its own so that such a command doesn't pay for the room on the stack that objects and
/// sessions take.
pub fn shared_effect(
    p: &mut Persist,
    shape: &Shape,
    auths: &Auths,
    bytes: &[u8],
    reply: &mut Buffer,
)
    requires shape { IsShape shape.now }
    requires creates { creates shape.now.row.code ≡ false }
    requires params { auths.now.params ≤ length bytes.now }
    requires within { IsAuthWithin (length bytes.now) (command_auth auths.now) }
    ensures { effect_alone p.new (plain_operands shape.now) reply.new
        ≡ effect_of p.old (plain_operands shape.now) shape.now auths.now bytes.now }
{
    match run(p, shape, auths, bytes, reply) {
        Ok(()) => end_response(reply),
        Err(code) => error_reply(code, reply),
    }
}

// Runs such a command, and begins its response, whose size isn't set yet. An error is the response
// code of the first fault, and changes nothing but `reply`.
fn run(
    persist: &mut Persist,
    shape: &Shape,
    auths: &Auths,
    bytes: &[u8],
    reply: &mut Buffer,
) -> Result<(), u32>
    requires shape { IsShape shape.now }
    requires creates { creates shape.now.row.code ≡ false }
    requires params { auths.now.params ≤ length bytes.now }
    requires within { IsAuthWithin (length bytes.now) (command_auth auths.now) }
    ensures { LeavesEffectAlone result shape.now
        (effect_of persist.old (plain_operands shape.now) shape.now auths.now bytes.now)
        persist.old persist.new (plain_operands shape.now) reply.new }
{
    let [first_kind, second_kind] = shape.row.handles;
    let first = plain_handle(first_kind, shape.handles[0]);
    let second = plain_handle(second_kind, shape.handles[1]);
    indexes_are_there(persist, first, second)?;
    check_password(persist, first, shape, auths, bytes)?;
    start_response(shape.tag, RC_SUCCESS, reply);
    put_handle_area(shape, reply);
    if shape.tag == ST_SESSIONS {
        return run_with_password(persist, first, second, shape, auths, bytes, reply);
    }
    run_without_password(persist, first, second, shape, auths, bytes, reply)
}

// The handle of this kind; 0 where there is none.
fn plain_handle(kind: Kind, handle: u32) -> u32
    ensures { result ≡ plain_handle kind handle }
{
    match kind {
        Kind::Absent => 0,
        _ => handle,
    }
}

// Tests the password of a command whose first handle is this one, where it needs an authorization.
// An error is the response code of its first fault.
fn check_password(
    persist: &Persist,
    first: u32,
    shape: &Shape,
    auths: &Auths,
    bytes: &[u8],
) -> Result<(), u32>
    requires first { first
        ≡ plain_handle (get_or shape.now.row.handles 0 Absent) (get_or shape.now.handles 0 0) }
    requires within { IsAuthWithin (length bytes.now) (command_auth auths.now) }
    ensures { PassesUnless result
        (authorization_fault persist.now (plain_operands shape.now) shape.now auths.now bytes.now) }
{
    if shape.row.authorized == 0 {
        return Ok(());
    }
    authorize_by_password(auth_value(persist, first), &auths.auths[0], bytes)
}

// Runs the row of a command without authorizations.
fn run_without_password(
    persist: &mut Persist,
    first: u32,
    second: u32,
    shape: &Shape,
    auths: &Auths,
    bytes: &[u8],
    reply: &mut Buffer,
) -> Result<(), u32>
    requires pcr { shape.now.row.code ≡ CC_PCR_EXTEND → first < PCRS }
    requires params { auths.now.params ≤ length bytes.now }
    requires tag { shape.now.tag ≢ ST_SESSIONS }
    requires begun { reply.old ≡ begun_response shape.now [] }
    ensures { LeavesEffectAlone result shape.now
        (shared_row persist.old shape.now auths.now bytes.now first second)
        persist.old persist.new (plain_operands shape.now) reply.new }
{
    let params = &bytes[auths.params as usize..];
    row_with(shape.row.code, persist, first, second, params, reply)
}

// The same for a command with a password.
fn run_with_password(
    persist: &mut Persist,
    first: u32,
    second: u32,
    shape: &Shape,
    auths: &Auths,
    bytes: &[u8],
    reply: &mut Buffer,
) -> Result<(), u32>
    requires pcr { shape.now.row.code ≡ CC_PCR_EXTEND → first < PCRS }
    requires params { auths.now.params ≤ length bytes.now }
    requires tag { shape.now.tag ≡ ST_SESSIONS }
    requires begun { reply.old ≡ begun_response shape.now [] }
    ensures { LeavesEffectAlone result shape.now
        (shared_row persist.old shape.now auths.now bytes.now first second)
        persist.old persist.new (plain_operands shape.now) reply.new }
{
    let params = &bytes[auths.params as usize..];
    sized_row_with(shape.row.code, persist, first, second, params, reply)?;
    put_password_response_auth(reply);
    Ok(())
}

// Runs the row of a command, and appends the size of its parameters and the parameters.
fn sized_row_with(
    code: u32,
    persist: &mut Persist,
    first: u32,
    second: u32,
    params: &[u8],
    reply: &mut Buffer,
) -> Result<(), u32>
    requires pcr { code ≡ CC_PCR_EXTEND → first < PCRS }
    requires header { length reply.old ≤ 14 }
    ensures row { let row = effects.row_with code persist.old first second params.now in
        MatchResult result
        (λ done. (parameters : List ℕ) × (row ≡ Ok (persist.new, parameters))
        × (reply.new ≡ reply.old ++ (to_be_bytes w32 (length parameters) ++ parameters)))
        (λ code. (row ≡ Err code) × (persist.new ≡ persist.old)) }
    ensures most { length reply.new ≤ MOST_BYTES_BEFORE_AUTH }
{
    reply.put_u32(0).unwrap();
    let start = reply.as_slice().len();
    row_with(code, persist, first, second, params, reply)?;
    let size = reply.as_slice().len() - start;
    reply.set_u32(start - 4, size as u32);
    Ok(())
}
