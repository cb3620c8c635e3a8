ghost use Rattle.std.specs.Prelude.{◌≡◌, length};
ghost use Rattle.effect_spec.specs.Authorization as authorization;
ghost use Rattle.effect_spec.specs.SessionAuths as auths;
ghost use Rattle.tab_spec.specs.Auths.{IsAuthWithin};
ghost use Rattle.tab_values.specs.Views.{session_of};

use tab_spec::{Auth, AuthNeeded, SessionKind};
use tab_values::Session;

// continueSession (Part 2, "TPMA_SESSION").
pub(crate) const CONTINUE_SESSION: u8 = 0x01;

/// Whether the session of an authorization stays after the command, by the attribute
/// continueSession (Part 2, "TPMA_SESSION").
pub fn is_continued(auth: &Auth) -> bool
    ensures { result ≡ auths.continues auth.now }
{
    CONTINUE_SESSION & auth.attributes == CONTINUE_SESSION
}

// Whether another attribute is set. The profile has no audit session and encrypts no parameter.
pub(crate) fn has_other_attributes(auth: &Auth) -> bool
    ensures { result ≡ authorization.has_other_attributes auth.now }
{
    !CONTINUE_SESSION & auth.attributes != 0
}

// The nonceCaller of an authorization.
pub(crate) fn nonce_caller<'a>(auth: &Auth, bytes: &'a [u8]) -> &'a [u8]
    requires { IsAuthWithin (length bytes.now) auth.now }
    ensures { result.now ≡ auths.nonce_caller auth.now bytes.now }
{
    &bytes[auth.nonce.0 as usize..auth.nonce.1 as usize]
}

// The hmac field of an authorization, which may hold a password.
pub(crate) fn hmac_field<'a>(auth: &Auth, bytes: &'a [u8]) -> &'a [u8]
    requires { IsAuthWithin (length bytes.now) auth.now }
    ensures { result.now ≡ auths.hmac_field auth.now bytes.now }
{
    &bytes[auth.hmac.0 as usize..auth.hmac.1 as usize]
}

// Whether an authorization by this session holds the auth value itself: a policy may ask for that,
// and an HMAC session always has an HMAC there.
pub(crate) fn asks_password(s: &Session) -> bool
    ensures { result ≡ auths.asks_password (session_of s.now) }
{
    match s.kind {
        SessionKind::Hmac => false,
        SessionKind::Policy | SessionKind::Trial => is_password(s.needed),
    }
}

// Whether a policy asks for the auth value itself.
fn is_password(needed: AuthNeeded) -> bool
    ensures { result ≡ auths.is_password needed }
{
    match needed {
        AuthNeeded::Nothing | AuthNeeded::AuthValue => false,
        AuthNeeded::Password => true,
    }
}
