//! Two clients with many objects each, of which the first closes.
use crate::clients::{create, new_world, open, read, run_both, start};
use crate::driver::Clients;
use broker_core::Closed;
use device_port::Device;
use plain_machine::World;
use std::alloc::Global;
use std::test::Fail;
use tab_bytes::Buffer;

// How many objects each client has.
const OBJECTS: u8 = 200;

// The clients over the broker, beside the machine that each of them sees.
struct Crowd {
    clients: Clients,
    world: World,
    wanted: Buffer,
}

// Whether a client's command is answered as in the world.
fn runs(crowd: &mut Crowd, client: u32, command: &[u8]) -> bool {
    run_both(
        &mut crowd.clients,
        &mut crowd.world,
        client,
        command,
        &mut crowd.wanted,
    ) == Some(0)
}

// Whether a client makes its objects.
fn makes_all(crowd: &mut Crowd, client: u32) -> bool {
    for number in 0..OBJECTS {
        if !runs(crowd, client, &create(number)) {
            return false;
        }
    }
    true
}

// Whether a client's objects are all there: each is read, and has the Name that it has in the
// world.
fn reads_all(crowd: &mut Crowd, client: u32) -> bool {
    for number in 0..OBJECTS {
        if !runs(crowd, client, &read(number)) {
            return false;
        }
    }
    true
}

// Both clients have their objects. The last two that the first made are in slots, and one of the
// other's.
fn gather(alloc: Global) -> Result<Crowd, Fail> {
    let world = new_world(alloc, 2)?;
    let wanted = Buffer::new(alloc)?;
    let clients = start(alloc, Vec::new(alloc))?;
    Ok(Crowd {
        clients,
        world,
        wanted,
    })
}

fn is_made(crowd: &mut Crowd) -> bool {
    open(&mut crowd.clients, 2)
        && makes_all(crowd, 1)
        && makes_all(crowd, 0)
        && runs(crowd, 1, &read(0))
}

// How many commands the device was sent, and whether the first client was closed without a
// remainder, where it was.
fn sent_by(alloc: Global, closes: bool) -> Result<Option<u64>, Fail> {
    let mut crowd = gather(alloc)?;
    let is_right = is_made(&mut crowd) && (!closes || crowd.clients.close() == Some(Closed::Clean));
    let Crowd {
        clients,
        world: _,
        wanted: _,
    } = crowd;
    let (device, _) = clients.finish();
    if is_right {
        Ok(Some(device.sent_count()))
    } else {
        Ok(None)
    }
}

#[test]
fn a_close_flushes_what_is_in_slots(rt: HostRuntime) -> Result<(), Fail> {
    let open = sent_by(rt.alloc(), false)?.ok_or("the objects are made")?;
    assert_eq!(rt; sent_by(rt.alloc(), true)?, open.checked_add(2));
    Ok(())
}

// Whether the objects of the other client are there once the first is closed.
fn others_stay(alloc: Global) -> Result<bool, Fail> {
    let mut crowd = gather(alloc)?;
    let stay = is_made(&mut crowd)
        && crowd.clients.close() == Some(Closed::Clean)
        && reads_all(&mut crowd, 1);
    let Crowd {
        clients,
        world: _,
        wanted: _,
    } = crowd;
    let _ = clients.finish();
    Ok(stay)
}

#[test]
fn a_close_leaves_the_objects_of_others(rt: HostRuntime) -> Result<(), Fail> {
    assert!(rt; others_stay(rt.alloc())?);
    Ok(())
}
