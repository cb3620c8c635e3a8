//! A counter that can count no further.
ghost use Rattle.tab_spec.specs.NvIndex.{IsNvIndex};
ghost use Rattle.tab_values.specs.Views.{nv_index_of};

use fx_nv::{check_nv_increment, nv_increment, nv_read};
use std::test::*;
use tab_bytes::Buffer;
use tab_values::{NvIndex, NvPublic, Persist, SmallBytes};

const COUNTER: u32 = 0x0100_0001;

// A counter that its own auth value alone writes and reads, at its largest number.
fn last_number() -> NvIndex
    ensures { IsNvIndex (nv_index_of result) }
{
    NvIndex {
        public: NvPublic {
            index: COUNTER,
            attributes: 0x2204_0014,
            policy: SmallBytes::new(),
            size: 8,
        },
        auth: SmallBytes::new(),
        bytes: SmallBytes::of(&[0xff; 8]).unwrap(),
    }
}

#[test]
fn a_counter_ends_at_its_largest_number(rt: HostRuntime) -> Result<(), Fail> {
    let mut p = Persist::new(rt.alloc(), [0; 32])?;
    let mut reply = Buffer::new(rt.alloc())?;
    p.define(last_number());
    let checked = check_nv_increment(&p, COUNTER, COUNTER, &[]);
    assert_eq!(rt; checked, Err(0x146));
    let counted = nv_increment(&mut p, COUNTER, COUNTER, &[]);
    assert_eq!(rt; counted, Err(0x146));
    let read = nv_read(&p, COUNTER, COUNTER, &[0, 2, 0, 6], &mut reply);
    assert_eq!(rt; read, Ok(()));
    assert_eq!(rt; reply.as_slice(), [0, 2, 0xff, 0xff].as_slice());
    Ok(())
}
