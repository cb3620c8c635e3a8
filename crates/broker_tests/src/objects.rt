//! More objects than the device in memory has slots.
ghost use Rattle.std.specs.Prelude.{◌≡◌, ◌<◌, ◌+◌, [], Some, true, false, length};
ghost use Rattle.std.specs.List.{AllByRecursion, list_any};
ghost use Rattle.tab_spec.specs.declared.contexts.TheConstants.{PROFILE_CONTEXTS};
ghost use Rattle.object_swap.specs.Items.{is_vacant, owner_at};

use device_memory::MemoryDevice;
use device_port::Device;
use hidden_device::HiddenDevice;
use object_swap::Objects;
use std::alloc::Global;
use std::test::Fail;
use tab_bytes::Buffer;
use tab_spec::PROFILE_CONTEXTS;

const STARTUP: [u8; 12] = [0x80, 0x01, 0, 0, 0, 12, 0, 0, 0x01, 0x44, 0, 0];

// Of an HMAC key, with the owner's empty password.
const CREATE_PRIMARY: [u8; 57] = [
    0x80, 0x02, 0, 0, 0, 0x39, 0, 0, 0x01, 0x31, 0x40, 0, 0, 0x01, 0, 0, 0, 0x09, 0x40, 0, 0, 0x09,
    0, 0, 0, 0, 0, 0, 0x04, 0, 0, 0, 0, 0, 0x10, 0, 0x08, 0, 0x0b, 0, 0x04, 0, 0x72, 0, 0, 0, 0x05,
    0, 0x0b, 0, 0, 0, 0, 0, 0, 0, 0,
];

// The device in memory, of which nothing is told.
type Silent = HiddenDevice<MemoryDevice>;

// A device with the zero seed, after Startup.
fn started(alloc: Global) -> Result<Silent, Fail> {
    let mut device = HiddenDevice::new(MemoryDevice::new(alloc, [0; 32], Vec::new(alloc))?);
    let mut reply = Buffer::new(alloc)?;
    if device.transmit(&STARTUP, &mut reply).is_err() {
        return Err("the device starts".into());
    }
    Ok(device)
}

// Makes a primary object in the device; its handle.
fn create(device: &mut Silent, reply: &mut Buffer) -> Option<u32> {
    if device.transmit(&CREATE_PRIMARY, reply).is_err() {
        return None;
    }
    tab_wire::response_handle(reply.as_slice())
}

// Makes room, and then a primary object of the client of a list. Whether it is held.
fn add(objects: &mut Objects, device: &mut Silent, list: u32, reply: &mut Buffer) -> bool
    requires list { owner_at objects.old.owners list ≡ Some 7 }
    requires left { objects.old.left ≡ [] }
    requires slots { objects.old.slots ≡ 3 }
    requires contexts { objects.old.contexts ≡ PROFILE_CONTEXTS }
    requires few { length objects.old.items < 10 }
    requires full { list_any is_vacant objects.old.items ≡ false }
    ensures full { list_any is_vacant objects.new.items ≡ false }
    ensures count { result ≡ true → length objects.new.items ≡ length objects.old.items + 1 }
    ensures rest { objects.new ≡ record objects.old {
      items = objects.new.items;
      order = objects.new.order;
    } }
{
    if objects.make_objects(device, &[], 1, reply).is_err() {
        return false;
    }
    let Some(handle) = create(device, reply) else {
        return false;
    };
    if handle >> 24 != 0x80 {
        return false;
    }
    if objects.reserve().is_err() {
        return false;
    }
    let item = objects.adopt(7, list, handle);
    objects.slot_of(item) == Some(handle)
}

// Whether five objects are added.
fn add_five(objects: &mut Objects, device: &mut Silent, list: u32, reply: &mut Buffer) -> bool
    requires list { owner_at objects.old.owners list ≡ Some 7 }
    requires left { objects.old.left ≡ [] }
    requires slots { objects.old.slots ≡ 3 }
    requires contexts { objects.old.contexts ≡ PROFILE_CONTEXTS }
    requires empty { length objects.old.items ≡ 0 }
    requires full { list_any is_vacant objects.old.items ≡ false }
    ensures full { list_any is_vacant objects.new.items ≡ false }
    ensures count { result ≡ true → length objects.new.items ≡ 5 }
    ensures slots { objects.new.slots ≡ 3 }
    ensures contexts { objects.new.contexts ≡ PROFILE_CONTEXTS }
    ensures left { objects.new.left ≡ [] }
{
    for _ in 0..5u8 {
        if !add(objects, device, list, reply) {
            return false;
        }
    }
    true
}

// Whether these objects get slots.
fn need(objects: &mut Objects, device: &mut Silent, needed: &[u32], reply: &mut Buffer) -> bool
    requires left { objects.old.left ≡ [] }
    requires slots { objects.old.slots ≡ 3 }
    requires contexts { objects.old.contexts ≡ PROFILE_CONTEXTS }
    requires few { length needed.now < 4 }
    requires inside { AllByRecursion (λ item. item < length objects.old.items) needed.now }
    requires full { list_any is_vacant objects.old.items ≡ false }
    ensures full { list_any is_vacant objects.new.items ≡ false }
    ensures count { length objects.new.items ≡ length objects.old.items }
    ensures slots { objects.new.slots ≡ objects.old.slots }
    ensures contexts { objects.new.contexts ≡ PROFILE_CONTEXTS }
    ensures left { objects.new.left ≡ [] }
{
    objects.make_objects(device, needed, 0, reply).is_ok()
}

// Whether this object is dropped.
fn drop_one(objects: &mut Objects, device: &mut Silent, item: u32, reply: &mut Buffer) -> bool
    requires left { objects.old.left ≡ [] }
    requires slots { objects.old.slots ≡ 3 }
    requires inside { item < length objects.old.items }
    requires full { list_any is_vacant objects.old.items ≡ false }
{
    objects.drop_object(device, item, reply).is_ok()
}

// How many commands were sent when all were held, when each of them had been in a slot once more,
// when one of two was needed with another, and when one was dropped.
fn run(alloc: Global) -> Result<[u64; 5], Fail> {
    let mut device = started(alloc)?;
    let mut reply = Buffer::new(alloc)?;
    let mut objects = Objects::new(alloc, 3, PROFILE_CONTEXTS)?;
    let list = objects.add_client(7)?;
    let mut counts = [0; 5];
    if !add_five(&mut objects, &mut device, list, &mut reply) {
        return Ok(counts);
    }
    counts[0] = device.sent_count();
    if !need(&mut objects, &mut device, &[0], &mut reply)
        || !need(&mut objects, &mut device, &[1], &mut reply)
        || !need(&mut objects, &mut device, &[4], &mut reply)
    {
        return Ok(counts);
    }
    counts[1] = device.sent_count();
    if !need(&mut objects, &mut device, &[3, 2, 3], &mut reply) {
        return Ok(counts);
    }
    counts[2] = device.sent_count();
    let slots = [
        objects.slot_of(0),
        objects.slot_of(2),
        objects.slot_of(3),
        objects.slot_of(5),
    ];
    if slots != [None, Some(0x8000_0002), Some(0x8000_0000), None] {
        return Ok(counts);
    }
    if !need(&mut objects, &mut device, &[2, 4], &mut reply) {
        return Ok(counts);
    }
    counts[3] = device.sent_count();
    if drop_one(&mut objects, &mut device, 4, &mut reply) {
        counts[4] = device.sent_count();
    }
    Ok(counts)
}

#[test]
fn five_objects_share_three_slots(rt: HostRuntime) -> Result<(), Fail> {
    // Startup, five that are made, and two that are saved and flushed for them; then two more that
    // are saved and flushed, for two that are loaded, and one that is in a slot; then two that are
    // flushed for two that are loaded; then two that are in slots; then one is flushed.
    assert_eq!(rt; run(rt.alloc())?, [10, 16, 20, 20, 21]);
    Ok(())
}
