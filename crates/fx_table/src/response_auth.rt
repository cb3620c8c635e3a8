ghost use Rattle.std.specs.Prelude.{◌≡◌, ◌≤◌, ◌+◌, ◌++◌, ℕ, List, [], true, length, drop, Some};
ghost use Rattle.std.specs.Prelude.{None, Ok, Err, MatchResult};
ghost use Rattle.std.specs.Int.{w32, to_be_bytes};
ghost use Rattle.tab_spec.specs.Auths.{IsAuthWithin};
ghost use Rattle.tab_spec.specs.Shape.{IsShape};
ghost use Rattle.effect_spec.specs.declared.TheConstants.{MOST_BYTES_BEFORE_AUTH};
ghost use Rattle.effect_spec.specs.Effect.{effect_failed, effect_in, effect_row};
ghost use Rattle.effect_spec.specs.Operands.{StandFor, command_auth, named_session, session_left};
ghost use Rattle.effect_spec.specs.Rows.{IsRefusedAs};
ghost use Rattle.effect_spec.specs.SessionAuths.{ResponseAuth, response_auth, rp_hash};
ghost use Rattle.fx_sessions.specs.Views.{entity_of};
ghost use Rattle.fx_table.specs.Kept.{can_draw_nonce, changes_kept};
ghost use Rattle.fx_table.specs.Views.{AuthorizedOutcome, FaultOrFailure, RowFails, begun_response};
ghost use Rattle.fx_table.specs.Views.{left_by, operands_of};

use crate::authorization::entity_of;
use crate::names::rp_hash;
use crate::operands::{Operands, RowOutcome};
use crate::rows::row;
use fx_nv::{check_nv_define, check_nv_increment, check_nv_undefine, check_nv_write};
use fx_pcr::check_pcr_extend;
use fx_sessions::{Entity, put_response_auth};
use tab_bytes::Buffer;
use tab_spec::{
    Auth, Auths, CC_NV_DEFINE_SPACE, CC_NV_INCREMENT, CC_NV_UNDEFINE_SPACE, CC_NV_WRITE,
    CC_PCR_EXTEND, RC_COMMAND_CODE, RC_FAILURE, ST_SESSIONS, Shape,
};
use tab_values::Persist;

// Runs the row of a command that has an authorization, and appends after the parameters that of the
// response: the session of the authorization gets its new nonceTPM. An error is the response code
// of the first fault, and changes nothing but `reply`. Where the nonce can't be drawn, that is an
// error too: a row that changes more than the place in the random stream isn't run then, and after
// another one the place is put back.
pub(crate) fn authorized_row(
    persist: &mut Persist,
    ops: &mut Operands<'_>,
    shape: &Shape,
    auths: &Auths,
    bytes: &[u8],
    reply: &mut Buffer,
) -> Result<RowOutcome, u32>
    requires shape { IsShape shape.now }
    requires operands { StandFor shape.now (operands_of ops.old) }
    requires params { auths.now.params ≤ length bytes.now }
    requires within { IsAuthWithin (length bytes.now) (command_auth auths.now) }
    requires tag { shape.now.tag ≡ ST_SESSIONS }
    requires begun { reply.old ≡ begun_response shape.now [] }
    ensures { let row = effect_row shape.now.row.code persist.old (operands_of ops.old).handles
        (drop auths.now.params bytes.now) in
        MatchResult result (λ done. AuthorizedOutcome persist.old (operands_of ops.old) shape.now
        auths.now bytes.now row done persist.new (operands_of ops.new) reply.new)
        (λ code. (effect_in persist.old (operands_of ops.old) shape.now auths.now bytes.now row
        ≡ effect_failed persist.old (operands_of ops.old) code)
        × (persist.new ≡ persist.old) × (operands_of ops.new ≡ operands_of ops.old)) }
{
    if changes_kept(shape.row.code) {
        if !can_draw_nonce(persist, ops) {
            return Err(fault_or_failure(persist, ops, shape, &bytes[auths.params as usize..]));
        }
        return row_and_response_auth(persist, ops, shape, auths, bytes, reply);
    }
    let place = persist.random_place();
    match row_and_response_auth(persist, ops, shape, auths, bytes, reply) {
        Ok(done) => Ok(done),
        Err(code) => {
            persist.rewind(place);
            Err(code)
        }
    }
}

// The same, but that it leaves what the row left of what is kept where the authorization of the
// response fails.
fn row_and_response_auth(
    persist: &mut Persist,
    ops: &mut Operands<'_>,
    shape: &Shape,
    auths: &Auths,
    bytes: &[u8],
    reply: &mut Buffer,
) -> Result<RowOutcome, u32>
    requires shape { IsShape shape.now }
    requires operands { StandFor shape.now (operands_of ops.old) }
    requires params { auths.now.params ≤ length bytes.now }
    requires within { IsAuthWithin (length bytes.now) (command_auth auths.now) }
    requires tag { shape.now.tag ≡ ST_SESSIONS }
    requires begun { reply.old ≡ begun_response shape.now [] }
    ensures { let row = effect_row shape.now.row.code persist.old (operands_of ops.old).handles
        (drop auths.now.params bytes.now) in
        MatchResult result (λ done. AuthorizedOutcome persist.old (operands_of ops.old) shape.now
        auths.now bytes.now row done persist.new (operands_of ops.new) reply.new)
        (λ code. RowFails persist.old (operands_of ops.old) shape.now auths.now bytes.now row code
        persist.new × (operands_of ops.new ≡ operands_of ops.old)) }
{
    let entity = entity_of(persist, &ops.first);
    let (done, start) = sized_row(persist, ops, shape, &bytes[auths.params as usize..], reply)?;
    let code = shape.row.code;
    authorize_response(
        persist,
        &entity,
        ops,
        &auths.auths[0],
        bytes,
        code,
        start,
        reply,
    )?;
    Ok(done)
}

// The code of a row that may not be run, since the nonce after it couldn't be drawn: its own fault,
// or FAILURE.
fn fault_or_failure(persist: &Persist, ops: &Operands<'_>, shape: &Shape, params: &[u8]) -> u32
    requires kept { changes_kept shape.now.row.code ≡ true }
    ensures { FaultOrFailure
        (effect_row shape.now.row.code persist.now (operands_of ops.now).handles params.now)
        result }
{
    match check_row(persist, ops, shape.row.code, params) {
        Ok(()) => RC_FAILURE,
        Err(code) => code,
    }
}

// Whether a command changes more of what is kept than the place in the random stream.
fn changes_kept(code: u32) -> bool
    ensures { result ≡ changes_kept code }
{
    match code {
        CC_PCR_EXTEND | CC_NV_DEFINE_SPACE | CC_NV_UNDEFINE_SPACE | CC_NV_WRITE | CC_NV_INCREMENT =>
            true,
        _ => false,
    }
}

// Whether the session of the authorization, where there is one, can draw its next nonceTPM.
fn can_draw_nonce(persist: &Persist, ops: &Operands<'_>) -> bool
    ensures { result ≡ can_draw_nonce persist.now (operands_of ops.now) }
{
    match ops.authorizing_session() {
        Some(session) => persist.can_draw(session.nonce.as_slice().len()),
        None => true,
    }
}

// Finds the fault of the row of such a command, and changes nothing.
fn check_row(persist: &Persist, ops: &Operands<'_>, code: u32, params: &[u8]) -> Result<(), u32>
    requires kept { changes_kept code ≡ true }
    ensures { IsRefusedAs result
        (effect_row code persist.now (operands_of ops.now).handles params.now) }
{
    // Such a command names neither a policy session nor an object.
    if let Some(_) = ops.policy_session() {
        return Err(RC_COMMAND_CODE);
    }
    if let Some(_) = ops.first.object() {
        return Err(RC_COMMAND_CODE);
    }
    let first = ops.first.handle();
    let second = ops.second.handle();
    match code {
        CC_PCR_EXTEND => check_pcr_extend(params),
        CC_NV_DEFINE_SPACE => check_nv_define(persist, params),
        CC_NV_UNDEFINE_SPACE => check_nv_undefine(persist, second, params),
        CC_NV_WRITE => check_nv_write(persist, first, second, params),
        CC_NV_INCREMENT => check_nv_increment(persist, first, second, params),
        _ => Err(RC_COMMAND_CODE),
    }
}

// Runs the row of a command, and appends the size of its parameters and the parameters; returns
// what the row left, and where the parameters begin.
fn sized_row(
    persist: &mut Persist,
    ops: &Operands<'_>,
    shape: &Shape,
    params: &[u8],
    reply: &mut Buffer,
) -> Result<(RowOutcome, usize), u32>
    requires shape { IsShape shape.now }
    requires operands { StandFor shape.now (operands_of ops.now) }
    requires header { length reply.old ≤ 14 }
    ensures row { let row =
        effect_row shape.now.row.code persist.old (operands_of ops.now).handles params.now in
        MatchResult result
        (λ left. (parameters : List ℕ) × (row ≡ Ok (left_by persist.new left.0 parameters))
        × (left.1 ≤ length reply.new) × (drop left.1 reply.new ≡ parameters)
        × (reply.new ≡ reply.old ++ (to_be_bytes w32 (length parameters) ++ parameters)))
        (λ code. (row ≡ Err code) × (persist.new ≡ persist.old)) }
    ensures most { length reply.new ≤ MOST_BYTES_BEFORE_AUTH }
{
    reply.put_u32(0).unwrap();
    let start = reply.as_slice().len();
    let done = row(persist, ops, shape, params, reply)?;
    let size = reply.as_slice().len() - start;
    reply.set_u32(start - 4, size as u32);
    Ok((done, start))
}

// Appends the authorization of a response whose parameters begin at `start`, and gives the session
// its new nonceTPM, where there is one. The error is FAILURE, where it can't be drawn, and changes
// nothing.
fn authorize_response(
    persist: &mut Persist,
    entity: &Entity,
    ops: &mut Operands<'_>,
    auth: &Auth,
    bytes: &[u8],
    code: u32,
    start: usize,
    reply: &mut Buffer,
) -> Result<(), u32>
    requires within { IsAuthWithin (length bytes.now) auth.now }
    requires room { length reply.old ≤ MOST_BYTES_BEFORE_AUTH }
    requires parameters { start ≤ length reply.old }
    ensures { let authorized = response_auth persist.old (entity_of entity.now)
        (named_session (operands_of ops.old).session) auth.now bytes.now
        (rp_hash code (drop start reply.old)) in
        MatchResult result
        (λ _. (answer : ResponseAuth) × (authorized ≡ Ok answer) × (persist.new ≡ answer.persist)
        × (operands_of ops.new ≡ record (operands_of ops.old) {
          session = session_left (operands_of ops.old).session answer.session;
        })
        × (reply.new ≡ reply.old ++ answer.answer))
        (λ code. (authorized ≡ Err code) × (persist.new ≡ persist.old)
        × (operands_of ops.new ≡ operands_of ops.old)) }
{
    match &mut ops.session {
        Some((_, session)) => {
            let hash = rp_hash(code, &reply.as_slice()[start..]);
            put_response_auth(persist, entity, Some(session), auth, bytes, &hash, reply)
        }
        // A password's authorization has no rpHash in it.
        None => put_response_auth(persist, entity, None, auth, bytes, &[0; 32], reply),
    }
}
