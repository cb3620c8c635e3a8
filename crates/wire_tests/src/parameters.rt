//! Tests of the parameters of `tab_values`, and of the structures that stand in them.

use std::test::Fail;
use tab_bytes::{Buffer, Reader};
use tab_spec::{ALG_KEYEDHASH, RC_INSUFFICIENT, RC_TYPE, RC_VALUE};
use tab_values::{
    NvPublic, Parameters, Public, in_handle, nv_public_octets, public_octets, write_selection,
};

#[test]
fn reads_parameters_in_their_order(rt: HostRuntime) -> Result<(), Fail> {
    let bytes = [7, 0, 2, 0, 0, 0, 3, 0, 1, 9, 0, 0, 0, 2, 5, 0, 0xff];
    let mut given = Parameters::new(&bytes);
    let (first, second, third) = (given.u8()?, given.u16()?, given.u32()?);
    let (sized, digest, auth) = (given.sized(1)?, given.digest()?, given.auth()?);
    let mut reader = given.reader();
    let last = reader.take_u8().ok_or(RC_INSUFFICIENT);
    let last = given.close(reader, last)?;
    assert!(rt; given.end() == Ok(()));
    assert!(rt; first == 7 && second == 2 && third == 3 && last == 0xff);
    assert!(rt; sized == [9].as_slice() && digest.is_empty() && auth.as_slice() == [5].as_slice());
    Ok(())
}

// A secret part whose auth value ends in two zeros, the public areas of an HMAC key, as it is
// wished for, and of a counter, and no selection.
const STRUCTURES: [u8; 49] = [
    0x00, 0x09, 0x00, 0x04, 0x00, 0x01, 0x00, 0x00, 0x00, 0x01, 0x05, 0x00, 0x10, 0x00, 0x08, 0x00,
    0x0b, 0x00, 0x04, 0x00, 0x72, 0x00, 0x00, 0x00, 0x05, 0x00, 0x0b, 0x00, 0x00, 0x00, 0x0e, 0x01,
    0x00, 0x00, 0x01, 0x00, 0x0b, 0x02, 0x04, 0x00, 0x14, 0x00, 0x00, 0x00, 0x08, 0x00, 0x00, 0x00,
    0x00,
];

// Whether this is the HMAC key, and is written as it was read.
fn is_key(public: &Public) -> bool {
    public.form == ALG_KEYEDHASH
        && public.attributes == 0x0004_0072
        && public_octets(public).as_slice() == &STRUCTURES[13..29]
}

// Whether this is the counter, and is written as it was read.
fn is_counter(index: &NvPublic) -> bool {
    index.index == 0x0100_0001
        && index.size == 8
        && nv_public_octets(index).as_slice() == &STRUCTURES[31..45]
}

#[test]
fn reads_structures(rt: HostRuntime) -> Result<(), Fail> {
    let mut given = Parameters::new(&STRUCTURES);
    let secret = given.sensitive()?;
    let key = given.public()?;
    let index = given.nv_public()?;
    let selection = given.selection()?;
    assert!(rt; given.end() == Ok(()) && selection.bits.is_none());
    assert!(rt;
        secret.auth.as_slice() == [0, 1].as_slice() && secret.content.as_slice() == [5].as_slice()
    );
    assert!(rt; is_key(&key) && is_counter(&index));
    Ok(())
}

// PCR 7 of SHA-256.
const PCR_7: [u8; 10] = [0, 0, 0, 1, 0x00, 0x0b, 3, 0x80, 0, 0];

#[test]
fn reads_and_writes_a_selection(rt: HostRuntime) -> Result<(), Fail> {
    let mut given = Parameters::new(&PCR_7);
    let selection = given.selection()?;
    let mut out = Buffer::new(rt.alloc())?;
    write_selection(&selection, &mut out)?;
    assert!(rt; selection.bits == Some([0x80, 0, 0]) && out.as_slice() == PCR_7.as_slice());
    Ok(())
}

#[test]
fn an_error_has_the_number_of_its_parameter(rt: HostRuntime) -> Result<(), Fail> {
    let mut cut = Parameters::new(&[7, 0]);
    assert!(rt; cut.u8()? == 7 && cut.u16() == Err(0x2da));
    let mut given = Parameters::new(&[7, 0]);
    given.u8()?;
    let closed = given.close(Reader::new(&[]), Err::<u8, u32>(RC_VALUE));
    assert!(rt; closed == Err(0x2c4));
    assert!(rt; Parameters::new(&[7, 0]).end() == Err(0x095) && in_handle(1, RC_TYPE) == 0x18a);
    let long = Parameters::new(&[0, 2, 1, 1]).sized(1);
    let short = Parameters::new(&[0, 1, 1]).digest();
    assert!(rt; long == Err(0x1d5) && short == Err(0x1d5));
    Ok(())
}
