ghost use Rattle.std.specs.Prelude.{◌≡◌, ◌≤◌, ◌+◌, ◌++◌, length, Some, OnOk};
ghost use Rattle.effect_spec.specs.Authorization.{password_response_auth};
ghost use Rattle.effect_spec.specs.SessionAuths.{continued_session, response_hmac};
ghost use Rattle.tab_spec.specs.Auths.{IsAuthWithin};
ghost use Rattle.tab_values.specs.Views.{session_of};
ghost use Rattle.fx_sessions.specs.Views.{AuthorizesResponse, entity_of, session_after};
ghost use Rattle.fx_sessions.specs.Views.{session_before};

use crate::entity::{Entity, session_key};
use crate::fields::{CONTINUE_SESSION, asks_password, hmac_field, nonce_caller};
use crate::start::draw_nonce;
use tab_bytes::Buffer;
use tab_hash::Mac;
use tab_spec::{Auth, SessionKind};
use tab_values::{Persist, Session, SmallBytes, put_sized};

/// Appends the authorization of a response (Part 2, "TPMS_AUTH_RESPONSE"). Where no session is
/// given it is that of a password: an empty nonce, the attribute continueSession, and an empty
/// hmac. A session gets its new nonceTPM, of the length of the old one, also where it ends, and a
/// policy begins again. `bytes` is the command, in which nonceCaller and hmac have their places,
/// and `rp_hash` the rpHash (Part 1, "Response Parameter Hash"). The error is the response code of
/// the draw, `TPM_RC_FAILURE`, which comes for a session alone, and changes nothing.
pub fn put_response_auth(
    p: &mut Persist,
    e: &Entity,
    session: Option<&mut Session>,
    auth: &Auth,
    bytes: &[u8],
    rp_hash: &[u8; 32],
    reply: &mut Buffer,
) -> Result<(), u32>
    requires within { IsAuthWithin (length bytes.now) auth.now }
    requires room { length reply.old + 100 ≤ 4096 }
    ensures authorizes { AuthorizesResponse result p.old p.new (entity_of e.now)
        (session_before session.entry) (session_after session.exit)
        auth.now bytes.now rp_hash.now reply.old reply.new }
    ensures most { OnOk result (length reply.new ≤ length reply.old + 100) }
{
    match session {
        Some(s) => put_session_response_auth(p, e, s, auth, bytes, rp_hash, reply),
        None => {
            put_password_response_auth(reply);
            Ok(())
        }
    }
}

/// Appends the response authorization of a password: an empty nonce, the attribute continueSession,
/// and an empty hmac (Part 2, "TPMS_AUTH_RESPONSE").
pub fn put_password_response_auth(reply: &mut Buffer)
    requires room { length reply.old + 100 ≤ 4096 }
    ensures authorizes { reply.new ≡ reply.old ++ password_response_auth }
    ensures most { length reply.new ≤ length reply.old + 100 }
{
    reply.put_u16(0).unwrap();
    reply.put_u8(CONTINUE_SESSION).unwrap();
    reply.put_u16(0).unwrap();
}

// Appends the response authorization of a session, and gives the session its new nonceTPM.
fn put_session_response_auth(
    p: &mut Persist,
    e: &Entity,
    s: &mut Session,
    auth: &Auth,
    bytes: &[u8],
    rp_hash: &[u8; 32],
    reply: &mut Buffer,
) -> Result<(), u32>
    requires within { IsAuthWithin (length bytes.now) auth.now }
    requires room { length reply.old + 100 ≤ 4096 }
    ensures authorizes { AuthorizesResponse result p.old p.new (entity_of e.now)
        (Some (session_of s.old)) (Some (session_of s.new))
        auth.now bytes.now rp_hash.now reply.old reply.new }
    ensures most { OnOk result (length reply.new ≤ length reply.old + 100) }
{
    let nonce = draw_nonce(p, s.nonce.as_slice().len())?;
    let hmac = response_hmac(e, s, auth, bytes, rp_hash, nonce.as_slice());
    put_sized(nonce.as_slice(), reply).unwrap();
    reply.put_u8(auth.attributes).unwrap();
    put_sized(hmac.as_slice(), reply).unwrap();
    s.nonce = nonce;
    continue_session(s);
    Ok(())
}

// The hmac of a response: an empty one where the command's is empty, or where a policy asks for the
// auth value itself.
fn response_hmac(
    e: &Entity,
    s: &Session,
    auth: &Auth,
    bytes: &[u8],
    rp_hash: &[u8; 32],
    nonce: &[u8],
) -> SmallBytes<32>
    requires { IsAuthWithin (length bytes.now) auth.now }
    ensures value { result ≡ response_hmac (entity_of e.now) (session_of s.now)
        auth.now bytes.now rp_hash.now nonce.now }
    ensures most { length result ≤ 32 }
{
    if hmac_field(auth, bytes).is_empty() || asks_password(s) {
        return SmallBytes::new();
    }
    let mut mac = Mac::new(session_key(e, s));
    mac.add(rp_hash);
    mac.add(nonce);
    mac.add(nonce_caller(auth, bytes));
    mac.add(&[auth.attributes]);
    SmallBytes::of(&mac.end()).unwrap()
}

// Leaves a session as it is after a command that it authorized and that continues it: a policy
// begins again.
fn continue_session(s: &mut Session)
    ensures { session_of s.new ≡ continued_session s.old.kind (session_of s.old) }
{
    match s.kind {
        SessionKind::Hmac => {}
        SessionKind::Policy | SessionKind::Trial => s.restart(),
    }
}
