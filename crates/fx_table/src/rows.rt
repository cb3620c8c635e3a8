ghost use Rattle.std.specs.Prelude.{◌≡◌, ◌+◌, ◌<◌, ◌≤◌, [], length, Ok, Err, OnOk, MatchResult};
ghost use Rattle.effect_spec.specs.declared.TheConstants.{MOST_PARAMETER_BYTES};
ghost use Rattle.effect_spec.specs.Effect.{random_row, self_test_row, row_with, other_row};
ghost use Rattle.effect_spec.specs.Effect.{effect_row, changing_policy, policy_row};
ghost use Rattle.tab_values.specs.Views.{session_of};
ghost use Rattle.tab_spec.specs.declared.TheConstants.{CC_PCR_EXTEND, PCRS};
ghost use Rattle.effect_spec.specs.Operands.{StandFor};
ghost use Rattle.effect_spec.specs.Rows.{HasResponseRoom, ChangesAndAppends};
ghost use Rattle.tab_spec.specs.Shape.{IsShape};
ghost use Rattle.fx_table.specs.Views.{LeavesOutcome, operands_of};

use crate::names::operand_name;
use crate::objects::object_row;
use crate::operands::{Created, Operands, RowOutcome, making};
use crate::policies::policy_row;
use fx_nv::{nv_define, nv_increment, nv_read, nv_read_public, nv_undefine, nv_write};
use fx_objects::create_primary;
use fx_pcr::{pcr_extend, pcr_read};
use fx_sessions::start_session;
use tab_bytes::Buffer;
use tab_spec::{
    CC_CREATE_PRIMARY, CC_GET_RANDOM, CC_NV_DEFINE_SPACE, CC_NV_INCREMENT, CC_NV_READ,
    CC_NV_READ_PUBLIC, CC_NV_UNDEFINE_SPACE, CC_NV_WRITE, CC_PCR_EXTEND, CC_PCR_READ, CC_SELF_TEST,
    CC_START_AUTH_SESSION, MOST_RANDOM_BYTES, RC_COMMAND_CODE, RC_VALUE, Shape,
};
use tab_values::{Parameters, Persist, Session, draw, in_parameter, put_sized};

// GetRandom (Part 3, "TPM2_GetRandom"): appends the random bytes as a TPM2B, at most 32 of them. An
// error is the response code of the first fault of the parameters or of the draw, and changes
// nothing.
pub(crate) fn get_random(
    persist: &mut Persist,
    params: &[u8],
    reply: &mut Buffer,
) -> Result<(), u32>
    requires room { HasResponseRoom reply.old }
    ensures row { ChangesAndAppends result (random_row persist.old params.now)
        persist.old persist.new reply.old reply.new }
    ensures most { OnOk result (length reply.new ≤ length reply.old + 2000) }
{
    let mut given = Parameters::new(params);
    let requested = given.u16()?;
    given.end()?;
    let mut bytes = [0; MOST_RANDOM_BYTES as usize];
    let random = &mut bytes[..usize::from(requested.min(MOST_RANDOM_BYTES))];
    draw(persist, random)?;
    put_sized(random, reply).unwrap();
    Ok(())
}

// SelfTest (Part 3, "TPM2_SelfTest"), which tests nothing. An error is the response code of the
// first fault of the parameters.
pub(crate) fn self_test(params: &[u8]) -> Result<(), u32>
    ensures { MatchResult result
        (λ u. self_test_row params.now ≡ Ok [])
        (λ code. self_test_row params.now ≡ Err code) }
{
    let mut given = Parameters::new(params);
    let full_test = given.u8()?;
    given.end()?;
    if full_test > 1 {
        return Err(in_parameter(1, RC_VALUE));
    }
    Ok(())
}

// Runs the row of a command (Part 3), by what its handles stand for: returns what it left, and
// appends the parameters of the response. An error is the response code of the first fault, and
// changes nothing.
pub(crate) fn row(
    persist: &mut Persist,
    ops: &Operands<'_>,
    shape: &Shape,
    params: &[u8],
    reply: &mut Buffer,
) -> Result<RowOutcome, u32>
    requires shape { IsShape shape.now }
    requires operands { StandFor shape.now (operands_of ops.now) }
    requires room { HasResponseRoom reply.old }
    ensures row { LeavesOutcome result
        (effect_row shape.now.row.code persist.old (operands_of ops.now).handles params.now)
        persist.old persist.new reply.old reply.new }
    ensures most { OnOk result (length reply.new ≤ length reply.old + MOST_PARAMETER_BYTES) }
{
    let code = shape.row.code;
    if let Some(session) = ops.policy_session() {
        let name = operand_name(persist, &ops.first);
        return changed_policy(code, persist, session, name.as_slice(), params, reply);
    }
    match ops.first.object() {
        Some(item) => object_row(code, persist, item, params, reply),
        None => {
            let first = ops.first.handle();
            let second = ops.second.handle();
            other_row(code, persist, first, second, params, reply)
        }
    }
}

// The same for a command that names a policy session: it is left as the row changes it.
fn changed_policy(
    code: u32,
    persist: &Persist,
    session: &Session,
    name: &[u8],
    params: &[u8],
    reply: &mut Buffer,
) -> Result<RowOutcome, u32>
    requires room { HasResponseRoom reply.old }
    ensures row { LeavesOutcome result
        (changing_policy persist.now
        (policy_row code persist.now (session_of session.now) name.now params.now))
        persist.now persist.now reply.old reply.new }
    ensures most { OnOk result (length reply.new ≤ length reply.old + MOST_PARAMETER_BYTES) }
{
    let mut left = session.copied();
    policy_row(code, persist, &mut left, name, params, reply)?;
    Ok(RowOutcome {
        created: Created::Nothing,
        policy: Some(left),
    })
}

// The same for a command whose first handle stands for no object, with the handles of the operands.
fn other_row(
    code: u32,
    persist: &mut Persist,
    first: u32,
    second: u32,
    params: &[u8],
    reply: &mut Buffer,
) -> Result<RowOutcome, u32>
    requires pcr { code ≡ CC_PCR_EXTEND → first < PCRS }
    requires room { HasResponseRoom reply.old }
    ensures row { LeavesOutcome result (other_row code persist.old first second params.now)
        persist.old persist.new reply.old reply.new }
    ensures most { OnOk result (length reply.new ≤ length reply.old + MOST_PARAMETER_BYTES) }
{
    if code == CC_CREATE_PRIMARY {
        let object = create_primary(persist, params, reply)?;
        return Ok(making(Created::Object(object)));
    }
    if code == CC_START_AUTH_SESSION {
        let session = start_session(persist, params, reply)?;
        return Ok(making(Created::Session(session)));
    }
    row_with(code, persist, first, second, params, reply)?;
    Ok(making(Created::Nothing))
}

// The same for a command of what all clients share, which creates nothing.
pub(crate) fn row_with(
    code: u32,
    persist: &mut Persist,
    first: u32,
    second: u32,
    params: &[u8],
    reply: &mut Buffer,
) -> Result<(), u32>
    requires pcr { code ≡ CC_PCR_EXTEND → first < PCRS }
    requires room { HasResponseRoom reply.old }
    ensures row { ChangesAndAppends result (row_with code persist.old first second params.now)
        persist.old persist.new reply.old reply.new }
    ensures most { OnOk result (length reply.new ≤ length reply.old + MOST_PARAMETER_BYTES) }
{
    match code {
        CC_SELF_TEST => self_test(params),
        CC_GET_RANDOM => get_random(persist, params, reply),
        CC_PCR_READ => pcr_read(persist, params, reply),
        CC_PCR_EXTEND => pcr_extend(persist, first, params),
        CC_NV_DEFINE_SPACE => nv_define(persist, params),
        CC_NV_UNDEFINE_SPACE => nv_undefine(persist, second, params),
        CC_NV_READ_PUBLIC => nv_read_public(persist, first, params, reply),
        CC_NV_WRITE => nv_write(persist, first, second, params),
        CC_NV_INCREMENT => nv_increment(persist, first, second, params),
        CC_NV_READ => nv_read(persist, first, second, params, reply),
        _ => Err(RC_COMMAND_CODE),
    }
}
