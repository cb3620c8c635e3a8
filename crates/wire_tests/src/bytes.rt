//! Tests of `tab_bytes`.

use std::test::Fail;
use tab_bytes::{BUFFER_BYTES, Buffer, Full, Reader};

// TPM2_Startup(TPM_SU_CLEAR) as Part 3 lays it out: tag, size, command code, startup type.
const STARTUP: [u8; 12] = [
    0x80, 0x01, 0x00, 0x00, 0x00, 0x0c, 0x00, 0x00, 0x01, 0x44, 0x00, 0x00,
];

#[test]
fn writes_a_command(rt: HostRuntime) -> Result<(), Fail> {
    let mut buffer = Buffer::new(rt.alloc())?;
    buffer.put_u16(0x8001)?;
    buffer.put_u32(0)?;
    buffer.put_u32(0x0144)?;
    buffer.put_bytes(&[0x00, 0x00])?;
    buffer.set_u32(2, 12);
    assert!(rt; buffer.as_slice() == STARTUP.as_slice());
    buffer.clear();
    buffer.put_u8(0xfe)?;
    buffer.put_u64(0x0102_0304_0506_0708)?;
    assert!(rt; buffer.as_slice() == [0xfe, 1, 2, 3, 4, 5, 6, 7, 8].as_slice());
    Ok(())
}

// Whether more than one byte exceeds the room that is left.
fn refuses_two_bytes(buffer: &mut Buffer) -> bool {
    buffer.put_u16(1) == Err(Full)
        && buffer.put_u32(1) == Err(Full)
        && buffer.put_u64(1) == Err(Full)
        && buffer.put_bytes(&[1, 1]) == Err(Full)
}

#[test]
fn refuses_what_exceeds_the_room(rt: HostRuntime) -> Result<(), Fail> {
    let bytes = [7; BUFFER_BYTES];
    let mut buffer = Buffer::new(rt.alloc())?;
    buffer.put_bytes(&bytes[..BUFFER_BYTES - 1])?;
    assert!(rt; refuses_two_bytes(&mut buffer));
    buffer.put_u8(7)?;
    assert!(rt; buffer.put_u8(1) == Err(Full));
    assert!(rt; buffer.as_slice() == bytes.as_slice());
    Ok(())
}

// Whether the command is taken but for its last byte.
fn takes_startup(reader: &mut Reader) -> bool {
    reader.take_u16() == Some(0x8001)
        && reader.take_u32() == Some(12)
        && reader.take_u32() == Some(0x0144)
        && reader.take_u8() == Some(0)
}

// Whether one byte is left, a zero, and no longer number can be taken.
fn has_one_byte(reader: &mut Reader) -> bool {
    reader.take_u16().is_none()
        && reader.take_u32().is_none()
        && reader.take_u64().is_none()
        && reader.take_u8() == Some(0)
        && reader.take_u8().is_none()
}

#[test]
fn takes_a_command_apart(rt: HostRuntime) {
    let mut reader = Reader::new(&STARTUP);
    assert!(rt; takes_startup(&mut reader));
    assert!(rt; has_one_byte(&mut reader));
    let mut number = Reader::new(&[1, 2, 3, 4, 5, 6, 7, 8]);
    assert!(rt; number.take_u64() == Some(0x0102_0304_0506_0708) && number.rest().is_empty());
}

// Whether a value of two bytes comes first, then one of none.
fn takes_two_values(reader: &mut Reader) -> bool {
    reader.tpm2b() == Some([0xaa, 0xbb].as_slice()) && reader.tpm2b() == Some([].as_slice())
}

// Whether no sized value is there, and nothing is taken.
fn refuses(bytes: &[u8]) -> bool {
    let mut reader = Reader::new(bytes);
    reader.tpm2b().is_none() && reader.rest() == bytes
}

#[test]
fn takes_a_sized_value(rt: HostRuntime) {
    let mut reader = Reader::new(&[0, 2, 0xaa, 0xbb, 0, 0, 0, 3, 1, 2]);
    assert!(rt; takes_two_values(&mut reader));
    assert!(rt;
        reader.rest() == [0, 3, 1, 2].as_slice() && refuses(reader.rest()),
        "two bytes of three"
    );
    assert!(rt; refuses(&[0]), "half a size");
}
