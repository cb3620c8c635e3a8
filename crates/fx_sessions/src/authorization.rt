ghost use Rattle.std.specs.Prelude.{◌≡◌, ℕ, length, Option, Some, MatchResult};
ghost use Rattle.effect_spec.specs.Rows.{PassesUnless};
ghost use Rattle.effect_spec.specs.SessionAuths as auths;
ghost use Rattle.effect_spec.specs.SessionAuths.{auth_fault, field_fault, policy_fault};
ghost use Rattle.tab_spec.specs.Auths.{IsAuthWithin};
ghost use Rattle.tab_values.specs.Views.{session_of};
ghost use Rattle.fx_sessions.specs.Views.{entity_of, session_given};

use crate::entity::{Entity, session_key};
use crate::fields::{asks_password, has_other_attributes, hmac_field, nonce_caller};
use crate::password::by_password;
use tab_hash::Mac;
use tab_spec::{
    Auth, RC_1, RC_ATTRIBUTES, RC_AUTH_UNAVAILABLE, RC_BAD_AUTH, RC_PCR_CHANGED, RC_POLICY_CC,
    RC_POLICY_FAIL, RC_S, RC_SIZE, SessionKind,
};
use tab_values::{Session, is_set_to_another, without_zeros};

// The most bytes of the field nonceCaller of an authorization by a session.
const MOST_NONCE_FIELD_BYTES: usize = 32;

/// Tests that the first authorization of a command is good for an entity: a password (Part 1,
/// "Password Authorizations") where no session is given, and else one by that session (Part 1,
/// "Session-Based Authorizations"). `bytes` is the command, in which nonceCaller and hmac have
/// their places, `code` its command code, `cp_hash` its cpHash (Part 1, "Command Parameter Hash"),
/// and `updates` the device's PCR update count; a password looks at none of these three. The error
/// is the response code of the first fault, in the order of the profile.
pub fn authorize(
    e: &Entity,
    session: Option<&Session>,
    auth: &Auth,
    bytes: &[u8],
    code: u32,
    cp_hash: &[u8; 32],
    updates: u32,
) -> Result<(), u32>
    requires { IsAuthWithin (length bytes.now) auth.now }
    ensures { PassesUnless result (auth_fault (entity_of e.now) (session_given session.entry)
        auth.now bytes.now code cp_hash.now updates) }
{
    if has_other_attributes(auth) {
        return Err(RC_ATTRIBUTES + RC_S + RC_1);
    }
    let Some(s) = session else {
        return by_password(e.auth.as_slice(), e.user_with_auth, auth, bytes);
    };
    if nonce_caller(auth, bytes).len() > MOST_NONCE_FIELD_BYTES {
        return Err(RC_SIZE + RC_S + RC_1);
    }
    match s.kind {
        SessionKind::Hmac => {
            if !e.user_with_auth {
                return Err(RC_AUTH_UNAVAILABLE);
            }
            field_passes(e, s, auth, bytes, cp_hash)
        }
        SessionKind::Policy => {
            policy_is_met(e, s, code, updates)?;
            field_passes(e, s, auth, bytes, cp_hash)
        }
        SessionKind::Trial => Err(RC_ATTRIBUTES + RC_S + RC_1),
    }
}

// Tests what a policy session asks for (Part 1, "Policy Session"): its policy is that of an object,
// for this command, and no PCR was updated since PolicyPCR.
fn policy_is_met(e: &Entity, s: &Session, code: u32, updates: u32) -> Result<(), u32>
    ensures { (field : Option ℕ)
        → MatchResult result
        (λ met. policy_fault (entity_of e.now) (session_of s.now) code updates field ≡ field)
        (λ fault.
        policy_fault (entity_of e.now) (session_of s.now) code updates field ≡ Some fault) }
{
    if !e.is_object {
        return Err(RC_AUTH_UNAVAILABLE);
    }
    if s.digest.as_slice() != e.policy.as_slice() {
        return Err(RC_POLICY_FAIL + RC_S + RC_1);
    }
    if is_set_to_another(s.command_code, code) {
        return Err(RC_POLICY_CC + RC_S + RC_1);
    }
    if is_set_to_another(s.pcr_updates, updates) {
        return Err(RC_PCR_CHANGED);
    }
    Ok(())
}

// Tests the hmac field: the auth value itself where a policy asks for that, and else an HMAC.
fn field_passes(
    e: &Entity,
    s: &Session,
    auth: &Auth,
    bytes: &[u8],
    cp_hash: &[u8; 32],
) -> Result<(), u32>
    requires { IsAuthWithin (length bytes.now) auth.now }
    ensures { PassesUnless result (field_fault (entity_of e.now) (session_of s.now)
        auth.now bytes.now cp_hash.now) }
{
    let passes = if asks_password(s) {
        without_zeros(hmac_field(auth, bytes)) == e.auth.as_slice()
    } else {
        hmac_passes(e, s, auth, bytes, cp_hash)
    };
    if passes {
        return Ok(());
    }
    Err(RC_BAD_AUTH + RC_S + RC_1)
}

// Whether the hmac field is the HMAC of the command (Part 1, "HMAC Computation"). An empty one is
// good where its key would be empty.
fn hmac_passes(e: &Entity, s: &Session, auth: &Auth, bytes: &[u8], cp_hash: &[u8; 32]) -> bool
    requires { IsAuthWithin (length bytes.now) auth.now }
    ensures { result ≡ auths.hmac_passes (entity_of e.now) (session_of s.now)
        auth.now bytes.now cp_hash.now }
{
    let given = hmac_field(auth, bytes);
    let key = session_key(e, s);
    if given.is_empty() && key.is_empty() {
        return true;
    }
    let mut mac = Mac::new(key);
    mac.add(cp_hash);
    mac.add(nonce_caller(auth, bytes));
    mac.add(s.nonce.as_slice());
    mac.add(&[auth.attributes]);
    given == mac.end().as_slice()
}
