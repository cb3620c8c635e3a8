ghost use Rattle.std.specs.Prelude.{◌≡◌, ◌≤◌, ◌<◌, ◌+◌, ◌*◌, ◌^◌, ◌∷◌, ◌||◌, [], get_or, length};
ghost use Rattle.std.specs.Prelude.{is_some, not, option_map, set, None, Some, IfOk, MatchOption};
ghost use Rattle.tab_spec.specs.Session.{kind_octet};
ghost use Rattle.tab_spec.specs.Shape as shapes;
ghost use Rattle.tab_spec.specs.declared.TheConstants.{SESSION_NUMBERS};
ghost use Rattle.fx_capability.specs.Views.{listed_of};
ghost use Rattle.tab_values.specs.Views.{session_of};
ghost use Rattle.world_spec.specs.World as worlds;
ghost use Rattle.world_spec.specs.World.{active, is_handed, is_unused, listed_owned, no_sessions};
ghost use Rattle.world_spec.specs.World.{is_saved_by, left_place};
ghost use Rattle.plain_machine.specs.Owners.{owned_of, owners_of, saved_as};

use fx_capability::HeldSession;
use std::alloc::{AllocError, Global};
use tab_spec::{HT_HMAC_SESSION, HT_POLICY_SESSION, SESSION_NUMBERS};
use tab_values::{Session, SessionKind, SmallBytes};
use tab_wire::octet_of;

// The context of a session, which has no more bytes.
pub(crate) type SessionContext = SmallBytes<128>;

// A session: its client, none once that client left it; the first octet of its handle; what a
// device has of it; and, if a client saved it, the context that was handed out for it. A session
// without such a context is in use.
#[derive(Drop)]
pub(crate) struct Owned {
    client: Option<u32>,
    octet: u8,
    session: Session,
    handed: Option<SessionContext>,
}

impl Owned {
    // Whether it is this client's.
    fn is_of(&self, client: u32) -> bool
        ensures { result ≡ worlds.is_of client (owned_of self.now).client }
    {
        match self.client {
            Some(owner) => owner == client,
            None => false,
        }
    }

    // Whether a client may load it: its own, and any one that was left.
    fn is_loadable_by(&self, client: u32) -> bool
        ensures { result ≡ (worlds.is_of client (owned_of self.now).client
            || not (is_some (owned_of self.now).client)) }
    {
        self.is_of(client) || self.client.is_none()
    }

    // The session, where it is in use.
    fn in_use(&self) -> Option<&Session>
        ensures { MatchOption result
            (worlds.in_use (Some (owned_of self.now)) ≡ None)
            (λ s. worlds.in_use (Some (owned_of self.now)) ≡ Some (session_of s.now)) }
    {
        if self.handed.is_some() {
            return None;
        }
        Some(&self.session)
    }

    // Whether these bytes are the context that was handed out for it.
    fn is_handed(&self, bytes: &[u8]) -> bool
        ensures { result ≡ is_handed bytes.now (owned_of self.now).handed }
    {
        match &self.handed {
            Some(context) => bytes == context.as_slice(),
            None => false,
        }
    }
}

// What stands under the number of a client's handle: a session in use.
pub(crate) fn own_place(client: u32, handle: u32, session: Session) -> Option<Owned>
    ensures { option_map owned_of result ≡ worlds.own_place client handle (session_of session) }
{
    Some(Owned {
        client: Some(client),
        octet: octet_of(handle) as u8,
        session,
        handed: None,
    })
}

// And one that the client saved, for which this context was handed out.
pub(crate) fn saved_place(
    client: u32,
    handle: u32,
    session: Session,
    context: SessionContext,
) -> Option<Owned>
    ensures { option_map owned_of result
        ≡ worlds.saved_place client handle (session_of session) context }
{
    Some(Owned {
        client: Some(client),
        octet: octet_of(handle) as u8,
        session,
        handed: Some(context),
    })
}

// The number of a session handle (Part 2, "TPM_HC").
pub(crate) fn number_of_session(handle: u32) -> usize
    ensures { result ≡ shapes.number_of_session handle }
{
    (handle % (1 << 24)) as usize
}

// The first octet of the handle of a session (Part 2, "TPM_HT").
fn kind_octet(kind: SessionKind) -> u32
    ensures { result ≡ kind_octet kind }
{
    match kind {
        SessionKind::Hmac => HT_HMAC_SESSION,
        SessionKind::Policy | SessionKind::Trial => HT_POLICY_SESSION,
    }
}

// What stands under a client's handle: a session in use, or one that the client saved.
pub(crate) fn owned_under(places: &[Option<Owned>], client: u32, handle: u32) -> Option<&Owned>
    ensures { MatchOption result
        (worlds.owned_under (owners_of places.now) client handle ≡ None)
        (λ o. worlds.owned_under (owners_of places.now) client handle ≡ Some (owned_of o.now)) }
{
    let place = places.get(number_of_session(handle))?.as_ref()?;
    if !place.is_of(client) || u32::from(place.octet) != octet_of(handle) {
        return None;
    }
    Some(place)
}

// What ContextLoad may take under a client's handle: a session of this client, or one that was
// left.
fn loadable_under(places: &[Option<Owned>], client: u32, handle: u32) -> Option<&Owned>
    ensures { MatchOption result
        (worlds.loadable_under (owners_of places.now) client handle ≡ None)
        (λ o. worlds.loadable_under (owners_of places.now) client handle ≡ Some (owned_of o.now)) }
{
    let place = places.get(number_of_session(handle))?.as_ref()?;
    if !place.is_loadable_by(client) || u32::from(place.octet) != octet_of(handle) {
        return None;
    }
    Some(place)
}

// The session in use of a client's handle.
pub(crate) fn session_of(places: &[Option<Owned>], client: u32, handle: u32) -> Option<&Session>
    ensures { MatchOption result
        (worlds.session_of (owners_of places.now) client handle ≡ None)
        (λ s. worlds.session_of (owners_of places.now) client handle ≡ Some (session_of s.now)) }
{
    owned_under(places, client, handle)?.in_use()
}

// The session of a client under a number, as it is listed.
pub(crate) fn listed_session(
    places: &[Option<Owned>],
    client: u32,
    number: u32,
) -> Option<HeldSession>
    requires { number < SESSION_NUMBERS }
    ensures { let listed = listed_owned client number (get_or (owners_of places.now) number None) in
        MatchOption result (listed ≡ []) (λ s. listed ≡ listed_of s ∷ []) }
{
    let place = places.get(number as usize)?.as_ref()?;
    if !place.is_of(client) {
        return None;
    }
    Some(HeldSession {
        handle: (u32::from(place.octet) << 24) + number,
        in_use: place.handed.is_none(),
    })
}

// The session that a client saved under a handle, or left under it, where these bytes are the
// context that was handed out for it.
pub(crate) fn saved_session(
    places: &[Option<Owned>],
    client: u32,
    handle: u32,
    bytes: &[u8],
) -> Option<Session>
    ensures { let owned = worlds.loadable_under (owners_of places.now) client handle in
        let saved = saved_as bytes.now owned in
        MatchOption result (saved ≡ None) (λ s. saved ≡ Some (session_of s)) }
{
    let owned = loadable_under(places, client, handle)?;
    if !owned.is_handed(bytes) {
        return None;
    }
    Some(owned.session.copied())
}

// How many sessions are active: those of all clients, and those that were left.
pub(crate) fn active_count(places: &[Option<Owned>]) -> usize
    ensures count { result ≡ active (owners_of places.now) }
    ensures most { result ≤ length places.now }
{
    places.iter().filter(|place| place.is_some()).count()
}

// Whether a number is one that a new session may have.
pub(crate) fn is_unused(places: &[Option<Owned>], number: u32) -> bool
    ensures { result ≡ is_unused (owners_of places.now) number }
{
    if number >= SESSION_NUMBERS {
        return false;
    }
    match places.get(number as usize) {
        Some(place) => place.is_none(),
        None => true,
    }
}

// What a number is from now on. It changes nothing where there is no such number.
pub(crate) fn put_place(places: &mut [Option<Owned>], number: usize, place: Option<Owned>)
    ensures { owners_of places.new ≡ set (owners_of places.old) number (option_map owned_of place) }
{
    if number < places.len() {
        places[number] = place;
    }
}

// Puts a session of a client under a number below 64, and gives its handle.
pub(crate) fn put_session(
    places: &mut [Option<Owned>],
    client: u32,
    session: Session,
    number: u32,
) -> u32
    requires { number < SESSION_NUMBERS }
    ensures places { owners_of places.new
        ≡ set (owners_of places.old) number (worlds.own_place client result (session_of session)) }
    ensures handle { result ≡ kind_octet session.kind * 2 ^ 24 + number }
{
    let handle = (kind_octet(session.kind) << 24) + number;
    put_place(places, number as usize, own_place(client, handle, session));
    handle
}

// What a place is once this client is closed; whether its session is left.
pub(crate) fn leave_place(place: &mut Option<Owned>, client: u32) -> bool
    ensures place { option_map owned_of place.new
        ≡ left_place client (option_map owned_of place.old) }
    ensures saved { result ≡ is_saved_by client (option_map owned_of place.old) }
{
    let Some(owned) = place else {
        return false;
    };
    if !owned.is_of(client) {
        return false;
    }
    if owned.handed.is_some() {
        owned.client = None;
        return true;
    }
    *place = None;
    false
}

// All 64 numbers, unused. It fails only for want of memory.
pub(crate) fn unused_places(alloc: Global) -> Result<Vec<Option<Owned>>, AllocError>
    ensures { IfOk result (λ places. owners_of places.items ≡ no_sessions) }
{
    let mut places = Vec::with_capacity(alloc, SESSION_NUMBERS as usize)?;
    for _ in 0..SESSION_NUMBERS {
        places.push(None)?;
    }
    Ok(places)
}
