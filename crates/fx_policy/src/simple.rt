ghost use Rattle.std.specs.Prelude.{◌≡◌, ◌+◌, ◌≤◌, length, OnOk};
ghost use Rattle.effect_spec.specs.declared.TheConstants.{MOST_PARAMETER_BYTES};
ghost use Rattle.effect_spec.specs.Policies.{policy_restart_row, policy_get_digest_row};
ghost use Rattle.effect_spec.specs.Policies.{policy_needs_row, policy_command_code_row};
ghost use Rattle.effect_spec.specs.Rows.{HasResponseRoom, Appends, Changes};
ghost use Rattle.tab_spec.specs.declared.AuthNeeded.TheVariants.{AuthValue, Password};
ghost use Rattle.tab_values.specs.Views.{session_of};

use crate::digest::extended_digest;
use tab_bytes::Buffer;
use tab_spec::{CC_POLICY_AUTH_VALUE, CC_POLICY_COMMAND_CODE, RC_VALUE};
use tab_values::{AuthNeeded, Parameters, Session, in_parameter, is_set_to_another, put_sized};

/// PolicyRestart (Part 3, "TPM2_PolicyRestart"): the session is as it began, but for its nonce. It
/// has no response parameters. The error is SIZE where there are parameters, and changes nothing.
pub fn policy_restart(s: &mut Session, params: &[u8]) -> Result<(), u32>
    ensures { Changes result (policy_restart_row (session_of s.old) params.now)
        (session_of s.old) (session_of s.new) }
{
    Parameters::new(params).end()?;
    s.restart();
    Ok(())
}

/// PolicyGetDigest (Part 3, "TPM2_PolicyGetDigest"): appends the digest as a TPM2B. The error is
/// SIZE where there are parameters, and appends nothing.
pub fn policy_get_digest(s: &Session, params: &[u8], reply: &mut Buffer) -> Result<(), u32>
    requires room { HasResponseRoom reply.old }
    ensures row { Appends result (policy_get_digest_row (session_of s.now) params.now)
        reply.old reply.new }
    ensures most { OnOk result (length reply.new ≤ length reply.old + MOST_PARAMETER_BYTES) }
{
    Parameters::new(params).end()?;
    put_sized(&s.digest, reply).unwrap();
    Ok(())
}

/// PolicyAuthValue (Part 3, "TPM2_PolicyAuthValue"): the hmac of an authorization will have the
/// object's auth value in its key. It has no response parameters. The error is SIZE where there are
/// parameters, and changes nothing.
pub fn policy_auth_value(s: &mut Session, params: &[u8]) -> Result<(), u32>
    ensures { Changes result (policy_needs_row AuthValue (session_of s.old) params.now)
        (session_of s.old) (session_of s.new) }
{
    policy_needs(s, AuthNeeded::AuthValue, params)
}

/// PolicyPassword (Part 3, "TPM2_PolicyPassword"): an authorization will hold the object's auth
/// value itself. The digest is that of PolicyAuthValue. It has no response parameters. The error is
/// SIZE where there are parameters, and changes nothing.
pub fn policy_password(s: &mut Session, params: &[u8]) -> Result<(), u32>
    ensures { Changes result (policy_needs_row Password (session_of s.old) params.now)
        (session_of s.old) (session_of s.new) }
{
    policy_needs(s, AuthNeeded::Password, params)
}

// The policy needs the auth value of the object, in one way or the other.
fn policy_needs(s: &mut Session, needed: AuthNeeded, params: &[u8]) -> Result<(), u32>
    ensures { Changes result (policy_needs_row needed (session_of s.old) params.now)
        (session_of s.old) (session_of s.new) }
{
    Parameters::new(params).end()?;
    s.digest = extended_digest(&s.digest, CC_POLICY_AUTH_VALUE, &[]);
    s.needed = needed;
    Ok(())
}

/// PolicyCommandCode (Part 3, "TPM2_PolicyCommandCode"): the policy is for the command with this
/// code alone. It has no response parameters. An error is the response code of the first fault of
/// the parameters, VALUE where the code is 0 or the policy is for another command, and changes
/// nothing.
pub fn policy_command_code(s: &mut Session, params: &[u8]) -> Result<(), u32>
    ensures { Changes result (policy_command_code_row (session_of s.old) params.now)
        (session_of s.old) (session_of s.new) }
{
    let mut given = Parameters::new(params);
    let code = given.u32()?;
    given.end()?;
    if code == 0 || is_set_to_another(s.command_code, code) {
        return Err(in_parameter(1, RC_VALUE));
    }
    s.digest = extended_digest(&s.digest, CC_POLICY_COMMAND_CODE, &code.to_be_bytes());
    s.command_code = Some(code);
    Ok(())
}
