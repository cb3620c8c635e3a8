ghost use Rattle.std.specs.Prelude.{◌≡◌, ◌+◌, ◌≤◌, length, IfOk};
ghost use Rattle.std.specs.Option.{IfSome};
ghost use Rattle.tab_spec.specs.Auths.{auths_of, area_at, area_with, auths_from, auth_at, sized_at};

use crate::wire::{u16_at, u32_at};
use tab_spec::{
    Auth, Auths, CC_CONTEXT_LOAD, CC_CONTEXT_SAVE, CC_FLUSH_CONTEXT, CC_STARTUP, MOST_AUTH_BYTES,
    RC_AUTH_CONTEXT, RC_AUTH_MISSING, RC_AUTHSIZE, ST_SESSIONS, Shape,
};

// The most authorizations of a command.
const MOST_AUTHS: u8 = 3;

// The filler for unused places.
const NO_AUTH: Auth = Auth {
    session: 0,
    nonce: (0, 0),
    attributes: 0,
    hmac: (0, 0),
};

/// The authorization area of a command of this shape (Part 1, "Authorization Area"). An error is
/// the response code of its first fault.
#[tactic(auto, unfolding(tab_spec::specs::Auths::auths_of))]
pub fn authorizations(bytes: &[u8], shape: &Shape) -> Result<Auths, u32>
    requires most { length bytes.now ≤ 4096 }
    requires rest { shape.now.rest ≤ length bytes.now }
    ensures value { result ≡ auths_of bytes.now shape.now }
    ensures few { IfOk result (λ auths. auths.count ≤ 3) }
    ensures params { IfOk result (λ auths. auths.params ≤ length bytes.now) }
{
    if shape.tag == ST_SESSIONS {
        return match shape.row.code {
            CC_STARTUP | CC_CONTEXT_SAVE | CC_CONTEXT_LOAD | CC_FLUSH_CONTEXT => {
                Err(RC_AUTH_CONTEXT)
            }
            _ => area(bytes, shape.rest as usize),
        };
    }
    if shape.row.authorized > 0 {
        return Err(RC_AUTH_MISSING);
    }
    Ok(Auths {
        count: 0,
        auths: [NO_AUTH; 3],
        params: shape.rest,
    })
}

// The area at a place: its size, and one to three authorizations that fill it.
fn area(bytes: &[u8], at: usize) -> Result<Auths, u32>
    requires most { length bytes.now ≤ 4096 }
    requires at { at ≤ length bytes.now }
    ensures value { result ≡ area_at bytes.now at }
    ensures few { IfOk result (λ auths. auths.count ≤ 3) }
    ensures params { IfOk result (λ auths. auths.params ≤ length bytes.now) }
{
    if bytes.len() < at + 4 {
        return Err(RC_AUTHSIZE);
    }
    let size = u32_at(bytes, at) as usize;
    if size < 9 || bytes.len() < at + 4 + size {
        return Err(RC_AUTHSIZE);
    }
    filled(bytes, at + 4 + size, at + 4)
}

// The authorizations from a place up to the end.
fn filled(bytes: &[u8], end: usize, start: usize) -> Result<Auths, u32>
    requires most { length bytes.now ≤ 4096 }
    requires end { end ≤ length bytes.now }
    requires start { start ≤ end }
    ensures value { result ≡ area_with end (auths_from 3 bytes.now end start) }
    ensures few { IfOk result (λ auths. auths.count ≤ 3) }
    ensures params { IfOk result (λ auths. auths.params ≤ length bytes.now) }
{
    let mut auths = [NO_AUTH; 3];
    let mut count = 0;
    let mut at = start;
    while at != end {
        if count == MOST_AUTHS {
            return Err(RC_AUTHSIZE);
        }
        let auth = authorization(bytes, end, at).ok_or(RC_AUTHSIZE)?;
        auths[usize::from(count)] = auth;
        count += 1;
        at = auth.hmac.1 as usize;
    }
    Ok(Auths {
        count,
        auths,
        params: end as u32,
    })
}

// The authorization at a place: session handle, nonce, attributes and hmac (Part 2,
// "TPMS_AUTH_COMMAND"). Nothing where it isn't whole before the end.
fn authorization(bytes: &[u8], end: usize, at: usize) -> Option<Auth>
    requires most { length bytes.now ≤ 4096 }
    requires end { end ≤ length bytes.now }
    requires at { at ≤ end }
    ensures value { result ≡ auth_at bytes.now end at }
    ensures within { IfSome result (λ auth. auth.hmac.1 ≤ end) }
{
    let nonce = sized(bytes, end, at + 4)?;
    let attributes_at = nonce.1 as usize;
    let hmac = sized(bytes, end, attributes_at + 1)?;
    Some(Auth {
        session: u32_at(bytes, at),
        nonce,
        attributes: bytes[attributes_at],
        hmac,
    })
}

// Where the bytes of a TPM2B lie, whose size field stands at a place (Part 2, "TPM2B Types").
// Nothing where they are more than an authorization may have, or aren't whole before the end.
fn sized(bytes: &[u8], end: usize, at: usize) -> Option<(u32, u32)>
    requires most { length bytes.now ≤ 4096 }
    requires end { end ≤ length bytes.now }
    requires at { at ≤ end + 4 }
    ensures value { result ≡ sized_at bytes.now end at }
    ensures within { IfSome result (λ place. (at + 2 ≤ place.1) × (place.1 ≤ end)) }
{
    if end < at + 2 {
        return None;
    }
    let size = u16_at(bytes, at) as usize;
    if size > MOST_AUTH_BYTES as usize || end < at + 2 + size {
        return None;
    }
    Some(((at + 2) as u32, (at + 2 + size) as u32))
}
