ghost use Rattle.std.specs.Prelude.{◌≡◌, ◌+◌, ◌<◌, ◌≤◌, ◌++◌, length, Some, None, MatchOption};
ghost use Rattle.std.specs.Prelude.{MatchResult, OnOk, OnErr};
ghost use Rattle.effect_spec.specs.Contexts.{object_context, opened_object, whole_object};
ghost use Rattle.tab_spec.specs.Object as object;
ghost use Rattle.tab_values.specs.Views.{object_of};

use crate::blob::{opened, put_context};
use crate::keys::ContextKeys;
use tab_bytes::{Buffer, Full, Reader};
use tab_spec::{RC_1, RC_INTEGRITY, RC_P, RH_OWNER, TRANSIENT_FIRST};
use tab_values::{Object, object_octets, read_object};

// The integrity value is wrong, or the bytes are no object.
const NOT_OPENED: u32 = RC_INTEGRITY + RC_P + RC_1;

/// The context of an object under this number appended, with the handle of a transient object and
/// the owner's hierarchy (Part 2, "TPMS_CONTEXT"): the bytes of
/// [`tab_values::object_octets`], encrypted by the device of these keys, at most 370. `Full`
/// exactly where there is no room for all of it, and then nothing is changed.
pub fn seal_object(
    keys: &ContextKeys,
    sequence: u64,
    v: &Object,
    out: &mut Buffer,
) -> Result<(), Full>
    ensures ok { OnOk result
        (out.new ≡ out.old ++ object_context keys.now sequence (object_of v.now)) }
    ensures err { OnErr result (
        (4096 < length out.old + length (object_context keys.now sequence (object_of v.now)))
        × (out.new ≡ out.old)) }
    ensures most { length (object_context keys.now sequence (object_of v.now)) ≤ 370 }
{
    let plain = object_octets(v);
    put_context(
        keys,
        sequence,
        TRANSIENT_FIRST,
        RH_OWNER,
        plain.as_slice(),
        out,
    )
}

/// The object of one whole TPMS_CONTEXT. The error is always INTEGRITY of parameter 1 (0x1DF): the
/// integrity value is wrong, or the bytes aren't those of an object.
pub fn open_object(keys: &ContextKeys, context: &[u8]) -> Result<Object, u32>
    ensures { MatchResult result
        (λ o. opened_object keys.now context.now ≡ Some (object_of o))
        (λ code. (code ≡ RC_INTEGRITY + RC_P + RC_1)
        × (opened_object keys.now context.now ≡ None)) }
{
    let Some(plain) = opened(keys, context) else {
        return Err(NOT_OPENED);
    };
    let Some(object) = whole_object(plain.as_slice()) else {
        return Err(NOT_OPENED);
    };
    Ok(object)
}

// The object that these bytes are, and nothing else.
fn whole_object(bytes: &[u8]) -> Option<Object>
    ensures { MatchOption result
        (whole_object (object.object_of bytes.now) ≡ None)
        (λ o. whole_object (object.object_of bytes.now) ≡ Some (object_of o)) }
{
    let mut reader = Reader::new(bytes);
    let object = read_object(&mut reader).ok()?;
    if !reader.rest().is_empty() {
        return None;
    }
    Some(object)
}
