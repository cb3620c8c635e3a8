//! What a client is told of what it has.
ghost use Rattle.std.specs.Prelude.{◌∷◌, [], true, false, refl};

use fx_capability::{HeldSession, Holdings, Viewed, client_capability};
use std::test::*;
use tab_bytes::Buffer;

// Two objects; two sessions in use, numbers 0 and 9, and two saved ones, 1 and 5.
struct Few;

impl Holdings for Few {
    ghost objects = { λ held. 0x80000000 ∷ 0x80000002 ∷ [] };

    ghost sessions = { λ held.
        record { handle = 0x02000000; in_use = true }
        ∷ record { handle = 0x03000001; in_use = false }
        ∷ record { handle = 0x02000005; in_use = false }
        ∷ record { handle = 0x03000009; in_use = true } ∷ [] };

    ghost objects_rise = { λ held. refl };

    ghost objects_fit = { λ held. refl };

    ghost sessions_rise = { λ held. refl };

    ghost sessions_fit = { λ held. refl };

    fn object_from(&self, least: u32) -> Option<u32> {
        if least <= 0x8000_0000 {
            return Some(0x8000_0000);
        }
        if least <= 0x8000_0002 {
            return Some(0x8000_0002);
        }
        None
    }

    fn object_count(&self) -> u32 {
        2
    }

    fn session(&self, number: u32) -> Option<HeldSession> {
        let (handle, in_use) = match number {
            0 => (0x0200_0000, true),
            1 => (0x0300_0001, false),
            5 => (0x0200_0005, false),
            9 => (0x0300_0009, true),
            _ => return None,
        };
        Some(HeldSession { handle, in_use })
    }
}

// What becomes of these parameters of a client, which append nothing.
fn view_of(params: &[u8], reply: &mut Buffer) -> Option<Viewed> {
    reply.clear();
    let viewed = client_capability(&Few, 5, 64, params, reply);
    if !reply.as_slice().is_empty() {
        return None;
    }
    Some(viewed)
}

#[test]
fn a_client_is_told_of_its_own(rt: HostRuntime) -> Result<(), Fail> {
    let mut reply = Buffer::new(rt.alloc())?;
    let properties = [
        0, 0, 0, 0, 6, 0, 0, 0, 4, 0, 0, 2, 4, 0, 0, 0, 59, 0, 0, 2, 5, 0, 0, 0, 4, 0, 0, 2, 6, 0,
        0, 0, 59, 0, 0, 2, 7, 0, 0, 0x0f, 0xfe,
    ];
    let objects = [0, 0, 0, 0, 1, 0, 0, 0, 2, 0x80, 0, 0, 0, 0x80, 0, 0, 2];
    let in_use = [0, 0, 0, 0, 1, 0, 0, 0, 1, 3, 0, 0, 9];
    let saved = [0, 0, 0, 0, 1, 0, 0, 0, 2, 3, 0, 0, 1, 2, 0, 0, 5];
    let no_gap = [1, 0, 0, 0, 6, 0, 0, 0, 1, 0, 0, 1, 0x14, 255, 255, 255, 255];
    let none = [0, 0, 0, 0, 6, 0, 0, 0, 0];
    // The parameters: a capability, a property, a count.
    let cases = [
        ([0, 0, 0, 1, 0x80, 0, 0, 0, 0, 0, 0, 8], &objects[..]),
        ([0, 0, 0, 1, 2, 0, 0, 1, 0, 0, 0, 9], &in_use[..]),
        ([0, 0, 0, 1, 3, 0, 0, 1, 0, 0, 0, 9], &saved[..]),
        ([0, 0, 0, 6, 0, 0, 1, 0x13, 0, 0, 0, 1], &no_gap[..]),
        ([0, 0, 0, 6, 0, 0, 2, 4, 0, 0, 0, 9], &properties[..]),
        ([0, 0, 0, 6, 0, 0, 2, 8, 0, 0, 0, 9], &none[..]),
    ];
    for (asked, wanted) in cases {
        reply.clear();
        let viewed = client_capability(&Few, 5, 64, &asked, &mut reply);
        assert!(rt; viewed == Viewed::Answered, "{}", asked[4]);
        assert_eq!(rt; reply.as_slice(), wanted, "{}", asked[4]);
    }
    Ok(())
}

#[test]
fn the_device_has_the_other_lists(rt: HostRuntime) -> Result<(), Fail> {
    let mut reply = Buffer::new(rt.alloc())?;
    let asked = [
        [0, 0, 0, 1, 0, 0, 0, 0, 0, 0, 0, 8],
        [0, 0, 0, 1, 1, 0, 0, 0, 0, 0, 0, 8],
        [0, 0, 0, 1, 0x40, 0, 0, 0, 0, 0, 0, 8],
        [0, 0, 0, 1, 0x81, 0, 0, 0, 0, 0, 0, 8],
        [0, 0, 0, 1, 0x82, 0, 0, 0, 0, 0, 0, 8],
        [0, 0, 0, 2, 0, 0, 0, 0, 0, 0, 0, 8],
        [0, 0, 0, 3, 0, 0, 0, 0, 0, 0, 0, 8],
        [0, 0, 0, 5, 0, 0, 0, 0, 0, 0, 0, 8],
    ];
    for list in asked {
        let viewed = view_of(&list, &mut reply);
        assert!(rt; viewed == Some(Viewed::Device), "{} {}", list[3], list[4]);
    }
    let faults = [
        (&[0, 0, 0][..], 0x1da),
        (&[0, 0, 0, 6, 0, 0, 2, 5, 0][..], 0x3da),
        (&[0; 13][..], 0x095),
    ];
    for (params, code) in faults {
        let viewed = view_of(params, &mut reply);
        assert!(rt; viewed == Some(Viewed::Refused(code)), "{code}");
    }
    Ok(())
}
