ghost use Rattle.std.specs.Prelude.{◌≡◌};
ghost use Rattle.effect_spec.specs.SessionAuths.{session_key};
ghost use Rattle.fx_sessions.specs.Views.{entity_of};
ghost use Rattle.tab_values.specs.Views.{session_of};

use tab_spec::{AuthNeeded, SessionKind};
use tab_values::{Session, SmallBytes};

/// What needs an authorization: an object, an NV index, a PCR or the owner hierarchy.
#[derive(Drop)]
pub struct Entity {
    /// Its auth value, without trailing zeros.
    pub auth: SmallBytes<32>,
    /// Whether its auth value may authorize a command; for an object that is userWithAuth (Part 2,
    /// "TPMA_OBJECT").
    pub user_with_auth: bool,
    /// Whether it is an object, which alone has a policy that a session can satisfy (the project's
    /// own).
    pub is_object: bool,
    /// Its authPolicy: 32 bytes, or none.
    pub policy: SmallBytes<32>,
}

// The key of a session's HMACs (Part 1, "HMAC Computation"): the auth value, or no byte for a
// policy session that doesn't ask for it. No session has a key of its own, since none is salted or
// bound.
pub(crate) fn session_key<'a>(e: &'a Entity, s: &Session) -> &'a [u8]
    ensures { result.now ≡ session_key (entity_of e.now) (session_of s.now) }
{
    match (s.kind, s.needed) {
        (SessionKind::Hmac, _) | (_, AuthNeeded::AuthValue) => e.auth.as_slice(),
        _ => &[],
    }
}
