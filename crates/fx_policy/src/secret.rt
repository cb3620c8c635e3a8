ghost use Rattle.std.specs.Prelude.{◌≡◌, ◌+◌, ◌≤◌, ◌++◌, length, OnOk};
ghost use Rattle.effect_spec.specs.declared.TheConstants.{MOST_PARAMETER_BYTES};
ghost use Rattle.effect_spec.specs.Policies.{policy_secret_row, secret_policy_of, secret_fault};
ghost use Rattle.effect_spec.specs.Policies.{secret_answer};
ghost use Rattle.effect_spec.specs.Rows.{HasResponseRoom, ChangesAndAppends};
ghost use Rattle.tab_values.specs.Views.{TookValue, session_of};
ghost use Rattle.fx_policy.specs.Views.{parameters_of};

use crate::digest::extended_digest;
use tab_bytes::Buffer;
use tab_hash::Sum;
use tab_spec::{CC_POLICY_SECRET, RC_NONCE, RC_VALUE, RH_NULL};
use tab_values::{Parameters, Session, in_parameter, put_sized};

// TPM_ST_AUTH_SECRET (Part 2, "TPM_ST").
const ST_AUTH_SECRET: u16 = 0x8023;

// The parameters of PolicySecret.
#[derive(Drop)]
struct SecretParameters<'a> {
    nonce: &'a [u8],
    cp_hash: &'a [u8],
    policy_ref: &'a [u8],
    expiration: u32,
}

/// PolicySecret (Part 3, "TPM2_PolicySecret"): the secret of the entity with this Name was shown.
/// Appends no timeout, and a NULL ticket. An error is the response code of the first fault: of the
/// parameters, NONCE where one is given and is another than the session's, VALUE where there is a
/// cpHash or an expiration; and changes nothing.
pub fn policy_secret(
    s: &mut Session,
    name: &[u8],
    params: &[u8],
    reply: &mut Buffer,
) -> Result<(), u32>
    requires room { HasResponseRoom reply.old }
    ensures row { ChangesAndAppends result
        (policy_secret_row (session_of s.old) name.now params.now)
        (session_of s.old) (session_of s.new) reply.old reply.new }
    ensures most { OnOk result (length reply.new ≤ length reply.old + MOST_PARAMETER_BYTES) }
{
    let mut parameters = Parameters::new(params);
    let given = read_secret(&mut parameters)?;
    parameters.end()?;
    if let Some(code) = first_fault(s, &given) {
        return Err(code);
    }
    let mut sum = Sum::new();
    sum.add(&extended_digest(&s.digest, CC_POLICY_SECRET, name));
    sum.add(given.policy_ref);
    s.digest = sum.end();
    put_timeout_and_ticket(reply);
    Ok(())
}

fn read_secret<'a>(parameters: &mut Parameters<'a>) -> Result<SecretParameters<'a>, u32>
    requires { parameters.old.number ≡ 1 }
    ensures { TookValue parameters_of result parameters.new.bytes
        (secret_policy_of parameters.old.bytes) }
{
    let nonce = parameters.sized(32)?;
    let cp_hash = parameters.sized(32)?;
    let policy_ref = parameters.sized(64)?;
    let expiration = parameters.u32()?;
    Ok(SecretParameters {
        nonce,
        cp_hash,
        policy_ref,
        expiration,
    })
}

// The response code of the first fault. What this profile doesn't have is one: a cpHash, an
// expiration.
fn first_fault(s: &Session, given: &SecretParameters) -> Option<u32>
    ensures { result ≡ secret_fault (session_of s.now) (parameters_of given.now) }
{
    if !given.nonce.is_empty() && given.nonce != s.nonce.as_slice() {
        return Some(in_parameter(1, RC_NONCE));
    }
    if !given.cp_hash.is_empty() {
        return Some(in_parameter(2, RC_VALUE));
    }
    if given.expiration != 0 {
        return Some(in_parameter(4, RC_VALUE));
    }
    None
}

// Appends no timeout, and a NULL ticket (Part 2, "TPMT_TK_AUTH"): of no hierarchy, and without a
// digest.
fn put_timeout_and_ticket(reply: &mut Buffer)
    requires { length reply.old + 10 ≤ 4096 }
    ensures put { reply.new ≡ reply.old ++ secret_answer }
    ensures most { length reply.new ≤ length reply.old + 10 }
{
    put_sized(&[], reply).unwrap();
    reply.put_u16(ST_AUTH_SECRET).unwrap();
    reply.put_u32(RH_NULL).unwrap();
    put_sized(&[], reply).unwrap();
}
