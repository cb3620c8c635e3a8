ghost use Rattle.std.specs.Prelude.{◌≡◌, ◌+◌, ◌<◌, ◌≤◌, ◌++◌, length, Some, None, MatchOption};
ghost use Rattle.std.specs.Prelude.{MatchResult, OnOk, OnErr};
ghost use Rattle.effect_spec.specs.Contexts.{opened_session, session_context, whole_session};
ghost use Rattle.tab_spec.specs.Session as session;
ghost use Rattle.tab_values.specs.Views.{session_of};

use crate::blob::{opened, put_context};
use crate::keys::ContextKeys;
use tab_bytes::{Buffer, Full, Reader};
use tab_spec::{RC_1, RC_INTEGRITY, RC_P, RH_NULL};
use tab_values::{Session, read_session, session_octets};

// The integrity value is wrong, or the bytes are no session.
const NOT_OPENED: u32 = RC_INTEGRITY + RC_P + RC_1;

/// The context of a session under this number appended, with the session's handle and the null
/// hierarchy (Part 2, "TPMS_CONTEXT"): the bytes of [`tab_values::session_octets`],
/// encrypted by the device of these keys, at most 128. `Full` exactly where there is no room for
/// all of it, and then nothing is changed.
pub fn seal_session(
    keys: &ContextKeys,
    handle: u32,
    sequence: u64,
    v: &Session,
    out: &mut Buffer,
) -> Result<(), Full>
    ensures ok { OnOk result
        (out.new ≡ out.old ++ session_context keys.now handle sequence (session_of v.now)) }
    ensures err { OnErr result (
        (4096 < length out.old
        + length (session_context keys.now handle sequence (session_of v.now)))
        × (out.new ≡ out.old)) }
    ensures most { length (session_context keys.now handle sequence (session_of v.now)) ≤ 128 }
{
    let plain = session_octets(v);
    put_context(keys, sequence, handle, RH_NULL, plain.as_slice(), out)
}

/// The session of one whole TPMS_CONTEXT. The error is always INTEGRITY of parameter 1 (0x1DF): the
/// integrity value is wrong, or the bytes aren't those of a session.
pub fn open_session(keys: &ContextKeys, context: &[u8]) -> Result<Session, u32>
    ensures { MatchResult result
        (λ s. opened_session keys.now context.now ≡ Some (session_of s))
        (λ code. (code ≡ RC_INTEGRITY + RC_P + RC_1)
        × (opened_session keys.now context.now ≡ None)) }
{
    let Some(plain) = opened(keys, context) else {
        return Err(NOT_OPENED);
    };
    let Some(session) = whole_session(plain.as_slice()) else {
        return Err(NOT_OPENED);
    };
    Ok(session)
}

// The session that these bytes are, and nothing else.
fn whole_session(bytes: &[u8]) -> Option<Session>
    ensures { MatchOption result
        (whole_session (session.session_of bytes.now) ≡ None)
        (λ s. whole_session (session.session_of bytes.now) ≡ Some (session_of s)) }
{
    let mut reader = Reader::new(bytes);
    let session = read_session(&mut reader).ok()?;
    if !reader.rest().is_empty() {
        return None;
    }
    Some(session)
}
