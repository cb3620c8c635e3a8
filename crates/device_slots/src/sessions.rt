ghost use Rattle.std.specs.Prelude.{◌≡◌, ◌≤◌, ◌<◌, ◌+◌, ◌*◌, ◌^◌, get_or, length, replicate, set};
ghost use Rattle.std.specs.Prelude.{Some, None, IfOk, MatchOption};
ghost use Rattle.device_spec.specs.Slots as slots;
ghost use Rattle.device_spec.specs.Slots.{inactive, gap_from, oldest_saved};
ghost use Rattle.tab_spec.specs.Shape.{number_of_session, octet_of};
ghost use Rattle.tab_spec.specs.Session.{kind_octet};
ghost use Rattle.tab_values.specs.Views.{session_of};
ghost use Rattle.device_slots.specs.Views.{place_of, places_of};

use std::alloc::{AllocError, Global};
use tab_spec::{HT_HMAC_SESSION, HT_POLICY_SESSION};
use tab_values::{Session, SessionKind};
use tab_wire::octet_of;

// What a session number is: unused, that of a loaded session, with the first octet of its handle,
// or that of one that was saved, with the same octet and the number of its context.
#[derive(Drop)]
pub(crate) enum Place {
    Inactive,
    Loaded(u8, Session),
    Saved(u8, u64),
}

impl Place {
    fn is_loaded(&self) -> bool
        ensures { result ≡ slots.is_loaded (place_of self.now) }
    {
        match self {
            Place::Loaded(_, _) => true,
            _ => false,
        }
    }

    pub(crate) fn is_active(&self) -> bool
        ensures { result ≡ slots.is_active (place_of self.now) }
    {
        match self {
            Place::Inactive => false,
            _ => true,
        }
    }

    // Whether it is that of a session whose handle has this octet, loaded or saved.
    fn is_active_with(&self, octet: u32) -> bool
        ensures { result ≡ slots.is_active_with octet (place_of self.now) }
    {
        match self {
            Place::Inactive => false,
            Place::Loaded(kept, _) => u32::from(*kept) == octet,
            Place::Saved(kept, _) => u32::from(*kept) == octet,
        }
    }

    // Whether it is saved under a handle with this octet and under this number of its context.
    fn is_saved_with(&self, octet: u32, number: u64) -> bool
        ensures { result ≡ slots.is_saved_with octet number (place_of self.now) }
    {
        match self {
            Place::Saved(kept, last) => u32::from(*kept) == octet && *last == number,
            _ => false,
        }
    }

    // Its session, where it is loaded under a handle with this octet.
    fn loaded(&self, octet: u32) -> Option<&Session>
        ensures { MatchOption result
            (slots.loaded_in octet (place_of self.now) ≡ None)
            (λ s. slots.loaded_in octet (place_of self.now) ≡ Some (session_of s.now)) }
    {
        match self {
            Place::Loaded(kept, session) => {
                if u32::from(*kept) == octet {
                    return Some(session);
                }
                None
            }
            _ => None,
        }
    }
}

// The first octet of a handle, its most significant byte, which says what it is a handle of.
pub(crate) fn first_octet(handle: u32) -> u8
    ensures { result ≡ octet_of handle }
{
    octet_of(handle) as u8
}

// The number of a session handle (Part 2, "TPM_HC").
pub(crate) fn number_of_session(handle: u32) -> usize
    ensures { result ≡ number_of_session handle }
{
    (handle % (1 << 24)) as usize
}

// The handle with this first octet and number.
pub(crate) fn handle_of(octet: u8, number: u32) -> u32
    requires { number < 2 ^ 24 }
    ensures { result ≡ octet * 2 ^ 24 + number }
{
    (u32::from(octet) << 24) + number
}

// The session of a handle, where it is loaded.
pub(crate) fn loaded_session(places: &[Place], handle: u32) -> Option<&Session>
    ensures { let place = get_or (places_of places.now) (number_of_session handle) inactive in
        MatchOption result
        (slots.loaded_in (octet_of handle) place ≡ None)
        (λ s. slots.loaded_in (octet_of handle) place ≡ Some (session_of s.now)) }
{
    places
        .get(number_of_session(handle))?
        .loaded(octet_of(handle))
}

// Whether a handle is that of a session that is loaded or saved.
pub(crate) fn is_active_session(places: &[Place], handle: u32) -> bool
    ensures { result ≡ slots.is_active_with (octet_of handle)
        (get_or (places_of places.now) (number_of_session handle) inactive) }
{
    match places.get(number_of_session(handle)) {
        Some(place) => place.is_active_with(octet_of(handle)),
        None => false,
    }
}

// Whether a handle is that of a session that was saved last under this number.
pub(crate) fn is_saved_under(places: &[Place], handle: u32, number: u64) -> bool
    ensures { result ≡ slots.is_saved_with (octet_of handle) number
        (get_or (places_of places.now) (number_of_session handle) inactive) }
{
    match places.get(number_of_session(handle)) {
        Some(place) => place.is_saved_with(octet_of(handle), number),
        None => false,
    }
}

// What the number of a handle is from now on. It changes nothing where there is no such number.
pub(crate) fn put_place(places: &mut [Place], handle: u32, place: Place)
    ensures { places_of places.new
        ≡ set (places_of places.old) (number_of_session handle) (place_of place) }
{
    let number = number_of_session(handle);
    if number < places.len() {
        places[number] = place;
    }
}

// How many sessions are loaded, and how many are loaded or saved.
pub(crate) fn loaded_count(places: &[Place]) -> usize
    ensures count { result ≡ slots.loaded_count (places_of places.now) }
{
    places.iter().filter(|place| place.is_loaded()).count()
}

pub(crate) fn active_count(places: &[Place]) -> usize
    ensures count { result ≡ slots.active_count (places_of places.now) }
    ensures most { result ≤ length places.now }
{
    places.iter().filter(|place| place.is_active()).count()
}

// The least unused number; how many numbers there are, where none is unused.
pub(crate) fn free_number(places: &[Place]) -> usize
    ensures value { result ≡ slots.free_number (places_of places.now) }
    ensures most { result ≤ length places.now }
{
    places
        .iter()
        .position(|place| !place.is_active())
        .unwrap_or(places.len())
}

// The least number of a context under which a session is saved.
fn oldest_saved(places: &[Place]) -> Option<u64>
    ensures { result ≡ oldest_saved (places_of places.now) }
{
    let mut oldest = None;
    for place in places {
        oldest = older(oldest, place);
    }
    oldest
}

// The less of a number and that of a place, where there are two.
fn older(oldest: Option<u64>, place: &Place) -> Option<u64>
    ensures { result ≡ slots.older oldest (slots.number_saved (place_of place.now)) }
{
    let Place::Saved(_, number) = place else {
        return oldest;
    };
    match oldest {
        Some(least) => Some(least.min(*number)),
        None => Some(*number),
    }
}

// How far the next number of a session's context is above the oldest.
pub(crate) fn gap(places: &[Place], counter: u64) -> u64
    ensures { result ≡ gap_from counter (oldest_saved (places_of places.now)) }
{
    match oldest_saved(places) {
        Some(oldest) => counter.saturating_sub(oldest),
        None => 0,
    }
}

// The first octet of the handle of a session (Part 2, "TPM_HT").
pub(crate) fn kind_octet(kind: SessionKind) -> u8
    ensures { result ≡ kind_octet kind }
{
    match kind {
        SessionKind::Hmac => HT_HMAC_SESSION as u8,
        SessionKind::Policy | SessionKind::Trial => HT_POLICY_SESSION as u8,
    }
}

// So many numbers, all of them unused. It fails only for want of memory.
pub(crate) fn inactive_places(alloc: Global, count: usize) -> Result<Vec<Place>, AllocError>
    ensures { IfOk result (λ places. places_of places.items ≡ replicate count inactive) }
{
    let mut places = Vec::with_capacity(alloc, count)?;
    for _ in 0..count {
        places.push(Place::Inactive)?;
    }
    Ok(places)
}
