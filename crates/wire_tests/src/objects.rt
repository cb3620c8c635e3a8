//! Tests of the objects of `tab_values`, and of the fields of their contexts.

use std::test::Fail;
use tab_bytes::Reader;
use tab_spec::{RC_INSUFFICIENT, RC_SIZE, RC_TYPE};
use tab_values::{Context, Object, object_octets, read_context, read_object};

// The public area of sealed bytes, which may be used with their auth value, in a TPM2B; an auth
// value of two bytes; a seed of 32 bytes; three secret bytes; and a qualified Name of 34 bytes.
const SEALED: [u8; 99] = [
    0x00, 0x10, 0x00, 0x08, 0x00, 0x0b, 0x00, 0x00, 0x00, 0x52, 0x00, 0x00, 0x00, 0x10, 0x00, 0x02,
    0xaa, 0xbb, 0x00, 0x02, 0x00, 0x07, 0x00, 0x20, 0x11, 0x11, 0x11, 0x11, 0x11, 0x11, 0x11, 0x11,
    0x11, 0x11, 0x11, 0x11, 0x11, 0x11, 0x11, 0x11, 0x11, 0x11, 0x11, 0x11, 0x11, 0x11, 0x11, 0x11,
    0x11, 0x11, 0x11, 0x11, 0x11, 0x11, 0x11, 0x11, 0x00, 0x03, 0x01, 0x02, 0x03, 0x00, 0x22, 0x00,
    0x0b, 0x22, 0x22, 0x22, 0x22, 0x22, 0x22, 0x22, 0x22, 0x22, 0x22, 0x22, 0x22, 0x22, 0x22, 0x22,
    0x22, 0x22, 0x22, 0x22, 0x22, 0x22, 0x22, 0x22, 0x22, 0x22, 0x22, 0x22, 0x22, 0x22, 0x22, 0x22,
    0x22, 0xff, 0xff,
];

// The bytes behind the object, which are no part of it.
const BEHIND: usize = 2;

// Whether an object is what its bytes say.
fn is_sealed(object: &Object) -> bool {
    object.public.attributes == 0x52
        && object.public.unique.as_slice() == [0xaa, 0xbb].as_slice()
        && object.auth.as_slice() == [0x00, 0x07].as_slice()
        && object.seed == [0x11; 32]
        && object.secret.as_slice() == [1, 2, 3].as_slice()
        && &object.qualified_name[..3] == [0x00, 0x0b, 0x22].as_slice()
}

#[test]
fn reads_and_writes_an_object(rt: HostRuntime) -> Result<(), Fail> {
    let mut r = Reader::new(&SEALED);
    let object = read_object(&mut r)?;
    assert!(rt; r.rest() == [0xff, 0xff].as_slice() && is_sealed(&object));
    let written = object_octets(&object);
    assert!(rt; written.as_slice() == &SEALED[..SEALED.len() - BEHIND]);
    Ok(())
}

// The error of a reader that is given the object with one byte changed.
fn refusal(at: usize, byte: u8) -> Option<u32> {
    let mut bytes = SEALED;
    if at < bytes.len() {
        bytes[at] = byte;
    }
    read_object(&mut Reader::new(&bytes)).err()
}

// A public area of another type; a byte behind the public area; an auth value that ends in a zero
// byte; a seed of 31 bytes; a secret of more bytes than there are; and a qualified Name of 33
// bytes.
#[test]
fn refuses_other_objects(rt: HostRuntime) {
    for (at, byte, code) in [
        (3, 0x01, RC_TYPE),
        (15, 0x01, RC_SIZE),
        (21, 0x00, RC_SIZE),
        (23, 0x1f, RC_SIZE),
        (57, 0x30, RC_SIZE),
        (62, 0x21, RC_SIZE),
    ] {
        assert!(rt; refusal(at, byte) == Some(code), "byte {at}");
    }
}

// The number 5, an object's handle, the owner's hierarchy, and three bytes.
const CONTEXT: [u8; 21] = [
    0x00, 0x00, 0x00, 0x00, 0x00, 0x00, 0x00, 0x05, 0x80, 0x00, 0x00, 0x00, 0x40, 0x00, 0x00, 0x01,
    0x00, 0x03, 0xaa, 0xbb, 0xcc,
];

// Whether a context has what stands in its bytes.
fn is_context(context: &Context) -> bool {
    context.sequence == 5
        && context.saved_handle == 0x8000_0000
        && context.hierarchy == 0x4000_0001
        && context.blob == &CONTEXT[18..]
}

#[test]
fn reads_what_stands_in_a_context(rt: HostRuntime) -> Result<(), Fail> {
    let mut r = Reader::new(&CONTEXT);
    let context = read_context(&mut r)?;
    assert!(rt; is_context(&context) && r.rest().is_empty());
    let short = read_context(&mut Reader::new(&CONTEXT[..20])).err();
    assert!(rt; short == Some(RC_INSUFFICIENT), "a byte less");
    Ok(())
}
