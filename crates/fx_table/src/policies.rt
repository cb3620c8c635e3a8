ghost use Rattle.std.specs.Prelude.{◌+◌, ◌≤◌, length, OnOk};
ghost use Rattle.effect_spec.specs.declared.TheConstants.{MOST_PARAMETER_BYTES};
ghost use Rattle.effect_spec.specs.Effect.{policy_row};
ghost use Rattle.effect_spec.specs.Rows.{HasResponseRoom, ChangesAndAppends};
ghost use Rattle.tab_values.specs.Views.{session_of};

use fx_policy::{
    policy_auth_value, policy_command_code, policy_get_digest, policy_or, policy_password,
    policy_pcr, policy_restart, policy_secret,
};
use tab_bytes::Buffer;
use tab_spec::{
    CC_POLICY_AUTH_VALUE, CC_POLICY_COMMAND_CODE, CC_POLICY_GET_DIGEST, CC_POLICY_OR,
    CC_POLICY_PASSWORD, CC_POLICY_PCR, CC_POLICY_RESTART, CC_POLICY_SECRET, RC_COMMAND_CODE,
};
use tab_values::{Persist, Session};

// Runs the row of a command that names a policy session (Part 3, "Enhanced Authorization (EA)
// Commands"), where the first handle has this Name, and appends the parameters of the response. An
// error is the response code of the first fault, and changes nothing.
pub(crate) fn policy_row(
    code: u32,
    persist: &Persist,
    s: &mut Session,
    name: &[u8],
    params: &[u8],
    reply: &mut Buffer,
) -> Result<(), u32>
    requires room { HasResponseRoom reply.old }
    ensures row { ChangesAndAppends result
        (policy_row code persist.now (session_of s.old) name.now params.now)
        (session_of s.old) (session_of s.new) reply.old reply.new }
    ensures most { OnOk result (length reply.new ≤ length reply.old + MOST_PARAMETER_BYTES) }
{
    match code {
        CC_POLICY_SECRET => policy_secret(s, name, params, reply),
        CC_POLICY_AUTH_VALUE => policy_auth_value(s, params),
        CC_POLICY_PASSWORD => policy_password(s, params),
        CC_POLICY_COMMAND_CODE => policy_command_code(s, params),
        CC_POLICY_OR => policy_or(s, params),
        CC_POLICY_PCR => policy_pcr(persist, s, params),
        CC_POLICY_RESTART => policy_restart(s, params),
        CC_POLICY_GET_DIGEST => policy_get_digest(s, params, reply),
        _ => Err(RC_COMMAND_CODE),
    }
}
