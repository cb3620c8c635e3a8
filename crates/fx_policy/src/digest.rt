ghost use Rattle.std.specs.Prelude.{◌≡◌};
ghost use Rattle.effect_spec.specs.Policies as policies;
ghost use Rattle.effect_spec.specs.Policies.{extended_digest};
ghost use Rattle.tab_values.specs.Views.{session_of};

use tab_hash::Sum;
use tab_values::{Session, SessionKind};

// The hash of a digest with a command's code and more after it.
pub(crate) fn extended_digest(old: &[u8], code: u32, more: &[u8]) -> [u8; 32]
    ensures { result ≡ extended_digest old.now code more.now }
{
    let mut sum = Sum::new();
    sum.add(old);
    sum.add(&code.to_be_bytes());
    sum.add(more);
    sum.end()
}

// Whether a session only computes a digest: what its policy asks for isn't tested.
pub(crate) fn is_trial(s: &Session) -> bool
    ensures { result ≡ policies.is_trial (session_of s.now) }
{
    match s.kind {
        SessionKind::Hmac | SessionKind::Policy => false,
        SessionKind::Trial => true,
    }
}
