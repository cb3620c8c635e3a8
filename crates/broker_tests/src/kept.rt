//! Whether bytes are a context that is kept for an object, over a device that tells nothing.
use crate::fake::fake;
use object_swap::Objects;
use std::alloc::Global;
use std::test::Fail;
use tab_bytes::Buffer;
use tab_spec::PROFILE_CONTEXTS;

// The context of an object (Part 2, "TPMS_CONTEXT"): number, savedHandle, hierarchy, and a blob of
// one byte.
const CONTEXT: [u8; 19] = [
    0, 0, 0, 0, 0, 0, 0, 5, 0x80, 0, 0, 0, 0x40, 0, 0, 7, 0, 1, 0xa5,
];

// Other bytes: of another number, of another blob, and less of them.
const OTHERS: [&[u8]; 4] = [
    &[
        0, 0, 0, 0, 0, 0, 0, 6, 0x80, 0, 0, 0, 0x40, 0, 0, 7, 0, 1, 0xa5,
    ],
    &[
        0, 0, 0, 0, 0, 0, 0, 5, 0x80, 0, 0, 0, 0x40, 0, 0, 7, 0, 1, 0xa4,
    ],
    &[0, 0, 0, 0, 0, 0, 0, 5, 0x80, 0, 0, 0, 0x40, 0, 0, 7, 0, 1],
    &[],
];

// Whether no other bytes are kept.
fn others_are_not_kept(objects: &Objects) -> bool {
    OTHERS.iter().all(|other| !objects.keeps_context(other))
}

// Whether the context is kept, and no other: of an object in its slot, and of one that was saved.
fn run(alloc: Global) -> Result<[bool; 2], Fail> {
    let mut device = fake();
    let mut reply = Buffer::new(alloc)?;
    let mut objects = Objects::new(alloc, 3, PROFILE_CONTEXTS)?;
    let list = objects.add_client(7)?;
    objects.reserve()?;
    objects.adopt(7, list, 0x8000_0000);
    let before = objects.keeps_context(&CONTEXT);
    if objects
        .make_objects(&mut device, &[], 3, &mut reply)
        .is_err()
    {
        return Ok([before, false]);
    }
    let after = objects.keeps_context(&CONTEXT) && others_are_not_kept(&objects);
    Ok([before, after])
}

#[test]
fn the_context_of_a_saved_object_is_kept(rt: HostRuntime) -> Result<(), Fail> {
    assert_eq!(rt; run(rt.alloc())?, [false, true]);
    Ok(())
}
