ghost use Rattle.std.specs.Prelude.{◌≡◌, ℕ, ◌+◌, ◌<◌, ◌≤◌, List, ◌++◌, length, Some, MatchOption};
ghost use Rattle.std.specs.Prelude.{OnOk, OnErr};
ghost use Rattle.effect_spec.specs.Contexts as contexts;
ghost use Rattle.tab_spec.specs.Values.{sized, sized_bytes};
ghost use Rattle.tab_spec.specs.declared.TheConstants.{RC_SIZE};
ghost use Rattle.tab_values.specs.Contexts.{context_of};

use crate::keys::ContextKeys;
use tab_bytes::{BUFFER_BYTES, Buffer, Full, Reader};
use tab_spec::RC_SIZE;
use tab_values::{Context, SmallBytes, put_sized, read_context, read_sized};

const CONTEXT: &[u8] = b"CONTEXT";

// The most bytes that are encrypted in a context: those of the longest object.
const MOST_PLAIN: usize = 318;

// What a context has besides them: 16 bytes in front of its blob, two sizes, and the integrity
// value of 32 bytes.
const AROUND: usize = 52;

// Bytes as the device of these keys encrypts them under a number and a handle. Encrypted once more,
// they are as they were.
fn encrypted(keys: &ContextKeys, sequence: u64, saved_handle: u32, bytes: &[u8]) -> SmallBytes<318>
    requires { length bytes.now ≤ 318 }
    ensures size { length result ≡ length bytes.now }
    ensures bytes { result ≡ contexts.context_encrypted keys.now sequence saved_handle bytes.now }
{
    let mut encrypted = [0; MOST_PLAIN];
    let part = &mut encrypted[..bytes.len()];
    let number = sequence.to_be_bytes();
    let handle = saved_handle.to_be_bytes();
    keys.encryption.mask(CONTEXT, &number, &handle, bytes, part);
    SmallBytes::of(part).unwrap()
}

// What stands in front of a context's blob.
fn head(sequence: u64, saved_handle: u32, hierarchy: u32) -> SmallBytes<16>
    ensures { result ≡ contexts.context_head sequence saved_handle hierarchy }
{
    let mut head = SmallBytes::new();
    head.add(&sequence.to_be_bytes());
    head.add(&saved_handle.to_be_bytes());
    head.add(&hierarchy.to_be_bytes());
    head
}

// The integrity value of encrypted bytes, which also authenticates what stands in front of them.
fn integrity_value(
    keys: &ContextKeys,
    sequence: u64,
    saved_handle: u32,
    hierarchy: u32,
    bytes: &[u8],
) -> [u8; 32]
    ensures { result
        ≡ contexts.context_integrity keys.now sequence saved_handle hierarchy bytes.now }
{
    let mut mac = keys.integrity.another();
    mac.add(head(sequence, saved_handle, hierarchy).as_slice());
    mac.add(bytes);
    mac.end()
}

// The whole context of these bytes appended. `Full` changes nothing.
pub(crate) fn put_context(
    keys: &ContextKeys,
    sequence: u64,
    saved_handle: u32,
    hierarchy: u32,
    plain: &[u8],
    out: &mut Buffer,
) -> Result<(), Full>
    requires { length plain.now ≤ 318 }
    ensures ok { OnOk result (out.new
        ≡ out.old ++ contexts.context_bytes keys.now sequence saved_handle hierarchy plain.now) }
    ensures err { OnErr result (
        (4096 < length out.old
        + length (contexts.context_bytes keys.now sequence saved_handle hierarchy plain.now))
        × (out.new ≡ out.old)) }
{
    let bytes = encrypted(keys, sequence, saved_handle, plain);
    if AROUND + plain.len() > BUFFER_BYTES - out.as_slice().len() {
        return Err(Full);
    }
    let code = integrity_value(keys, sequence, saved_handle, hierarchy, bytes.as_slice());
    let head = head(sequence, saved_handle, hierarchy);
    out.put_bytes(head.as_slice()).unwrap();
    put_blob(&code, bytes.as_slice(), out);
    Ok(())
}

// A TPM2B of an integrity value, which is a TPM2B itself, and encrypted bytes.
fn put_blob(code: &[u8; 32], bytes: &[u8], out: &mut Buffer)
    requires { length out.old + 36 + length bytes.now ≤ 4096 }
    ensures { out.new ≡ out.old ++ sized_bytes (sized_bytes code.now ++ bytes.now) }
{
    // The integrity value as a TPM2B takes 34.
    out.put_u16(34 + bytes.len() as u16).unwrap();
    put_sized(code, out).unwrap();
    out.put_bytes(bytes).unwrap();
}

// The bytes of one whole context. Nothing where its integrity value is wrong, or where there are
// more than 318.
pub(crate) fn opened(keys: &ContextKeys, context: &[u8]) -> Option<SmallBytes<318>>
    ensures { MatchOption result
        ((plain : List ℕ) → contexts.opened_context keys.now context.now ≡ Some plain
        → 318 < length plain)
        (λ plain. contexts.opened_context keys.now context.now ≡ Some plain) }
{
    let mut reader = Reader::new(context);
    let read = read_context(&mut reader).ok()?;
    if !reader.rest().is_empty() {
        return None;
    }
    revealed(keys, &read)
}

// The bytes that are encrypted in its blob.
fn revealed(keys: &ContextKeys, context: &Context) -> Option<SmallBytes<318>>
    ensures { MatchOption result
        ((plain : List ℕ)
        → contexts.revealed keys.now (context_of context.now) (sized RC_SIZE context.now.blob.now)
        ≡ Some plain → 318 < length plain)
        (λ plain.
        contexts.revealed keys.now (context_of context.now) (sized RC_SIZE context.now.blob.now)
        ≡ Some plain) }
{
    let mut reader = Reader::new(context.blob);
    let Ok(code) = read_sized(&mut reader, RC_SIZE) else {
        return None;
    };
    let bytes = reader.rest();
    let wanted = integrity_value(
        keys,
        context.sequence,
        context.saved_handle,
        context.hierarchy,
        bytes,
    );
    if code != wanted.as_slice() {
        return None;
    }
    if bytes.len() > MOST_PLAIN {
        return None;
    }
    Some(encrypted(keys, context.sequence, context.saved_handle, bytes))
}
