//! Tests of what a device keeps, as `tab_values` has it.

ghost use Rattle.std.specs.Prelude.{◌≡◌, length};
ghost use Rattle.tab_spec.specs.NvIndex.{IsNvIndex};
ghost use Rattle.tab_values.specs.Views.{nv_index_of};

use std::test::*;
use tab_values::{NvIndex, NvPublic, Persist, SmallBytes, draw};

// Whether PCR 7 is this byte 32 times and the others are zeros, and how often PCRs were updated.
fn has_pcrs(persist: &Persist, updates: u32, byte: u8) -> bool {
    persist.updates() == updates
        && persist.pcr(6) == &[0; 32]
        && persist.pcr(7) == &[byte; 32]
        && persist.pcr(8) == &[0; 32]
        && persist.pcr(23) == &[0; 32]
}

#[test]
fn one_pcr_is_set(rt: HostRuntime) -> Result<(), Fail> {
    let mut persist = Persist::new(rt.alloc(), [7; 32])?;
    assert!(rt; persist.owner_auth().is_empty() && has_pcrs(&persist, 0, 0));
    persist.set_pcr(7, [9; 32]);
    assert!(rt; has_pcrs(&persist, 1, 9));
    Ok(())
}

// The first words of the key stream of the zero key (RFC 8439, A.1, test vector 1): five bytes take
// two.
#[test]
fn whole_words_are_drawn(rt: HostRuntime) -> Result<(), Fail> {
    let mut persist = Persist::new(rt.alloc(), [0; 32])?;
    let mut first = [0; 5];
    let mut second = [0; 4];
    draw(&mut persist, &mut first)?;
    draw(&mut persist, &mut second)?;
    assert!(rt; first == [0x76, 0xB8, 0xE0, 0xAD, 0xA0] && second == [0x40, 0x5D, 0x6A, 0xE5]);
    Ok(())
}

// Four zeros, which the owner and the index itself may write and read.
fn four_bytes(index: u32) -> NvIndex
    ensures sound { IsNvIndex (nv_index_of result) }
    ensures index { result.public.index ≡ index }
    ensures size { length result.bytes ≡ 4 }
{
    NvIndex {
        public: NvPublic {
            index,
            attributes: 0x0006_0006,
            policy: SmallBytes::new(),
            size: 4,
        },
        auth: SmallBytes::new(),
        bytes: SmallBytes::zeros(4).unwrap(),
    }
}

// Whether an index was written, or not, and counts nothing, and has these bytes.
fn is_ordinary(persist: &Persist, index: u32, written: bool, bytes: &[u8]) -> bool {
    match persist.index(index) {
        Some(item) => {
            item.is_written() == written && !item.is_counter() && item.bytes.as_slice() == bytes
        }
        None => false,
    }
}

#[test]
fn one_index_is_written_and_one_undefined(rt: HostRuntime) -> Result<(), Fail> {
    let mut persist = Persist::new(rt.alloc(), [0; 32])?;
    assert!(rt; persist.has_room());
    persist.define(four_bytes(0x0100_0001));
    persist.define(four_bytes(0x0100_0002));
    persist.write_index(0x0100_0002, 1, &[8, 9]);
    assert!(rt; is_ordinary(&persist, 0x0100_0001, false, &[0; 4]));
    assert!(rt; is_ordinary(&persist, 0x0100_0002, true, &[0, 8, 9, 0]));
    persist.undefine(0x0100_0001);
    assert!(rt; persist.index(0x0100_0001).is_none() && persist.index(0x0100_0002).is_some());
    Ok(())
}
