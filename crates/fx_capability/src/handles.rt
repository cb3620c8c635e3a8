ghost use Rattle.std.specs.Prelude.{◌≡◌, ◌==◌, ◌||◌, ◌+◌, ◌<◌, ◌≤◌, ◌∷◌, [], false, map, not};
ghost use Rattle.std.specs.Prelude.{length, if◌then◌else◌, OnOk, MatchOption};
ghost use Rattle.std.specs.Int.{w32, to_be_bytes};
ghost use Rattle.std.specs.List.{range_with_len};
ghost use Rattle.tab_spec.specs.NvIndex.{NvIndex};
ghost use Rattle.tab_spec.specs.Shape.{is_session_octet, octet_of};
ghost use Rattle.tab_spec.specs.declared.TheConstants.{SESSION_NUMBERS, HT_TRANSIENT, PCRS};
ghost use Rattle.tab_spec.specs.declared.TheConstants.{RH_OWNER, RH_NULL, RS_PW};
ghost use Rattle.effect_spec.specs.Capabilities.{from_number, upwards, listed_sessions};
ghost use Rattle.effect_spec.specs.Capabilities.{handle_items, handles_listed};
ghost use Rattle.effect_spec.specs.Rows.{HasResponseRoom, Appends};
ghost use Rattle.fx_capability.specs.Lists.{number_from, lesser};
ghost use Rattle.fx_capability.specs.Viewed.{AppendsWhere};
ghost use Rattle.fx_capability.specs.Views.{asked_of};

use crate::asked::Asked;
use crate::holdings::{HeldSession, Holdings};
use crate::listing::{Item, Listing, MOST_LIST_BYTES, put_list};
use tab_bytes::Buffer;
use tab_spec::{
    HT_HMAC_SESSION, HT_NV_INDEX, HT_PERSISTENT, HT_POLICY_SESSION, HT_TRANSIENT, PCRS, RC_HANDLE,
    RH_NULL, RH_OWNER, RS_PW, SESSION_NUMBERS,
};
use tab_values::{Persist, SmallBytes, in_parameter};

// The first octet of a PCR's and of a permanent handle (Part 2, "TPM_HT").
const HT_PCR: u32 = 0x00;

const HT_PERMANENT: u32 = 0x40;

/// Appends the handles of the caller's own, where the property's first octet names these, from the
/// property on (Part 2, "TPM_CAP"): octet 0x02 the sessions in use and 0x03 the saved ones, both by
/// their numbers, and 0x80 the objects. Whether it does.
pub(crate) fn put_own_handles<H: Holdings>(asked: &Asked, held: &H, reply: &mut Buffer) -> bool
    requires room { HasResponseRoom reply.old }
    ensures own { let octet = octet_of asked.now.property in
        result ≡ (octet == HT_TRANSIENT || is_session_octet octet) }
    ensures row { AppendsWhere result
        (λ persist. handles_listed (asked_of asked.now)
        (handle_items persist (H.objects held.now) (H.sessions held.now) asked.now.property))
        reply.old reply.new }
    ensures most { length reply.new ≤ length reply.old + MOST_LIST_BYTES }
{
    let number = asked.property % (1 << 24);
    match asked.property >> 24 {
        HT_HMAC_SESSION => put_list(asked, &Sessions { held, in_use: true }, number, reply),
        HT_POLICY_SESSION => {
            let saved = Sessions {
                held,
                in_use: false,
            };
            put_list(asked, &saved, number, reply);
        }
        HT_TRANSIENT => put_list(asked, &Objects { held }, asked.property, reply),
        _ => return false,
    }
    true
}

/// Appends the handles of the other kinds, from the property on. The error is HANDLE of parameter 2
/// if there is no such kind, and appends nothing.
pub(crate) fn put_other_handles(asked: &Asked, p: &Persist, reply: &mut Buffer) -> Result<(), u32>
    requires room { HasResponseRoom reply.old }
    requires other { let octet = octet_of asked.now.property in
        (octet == HT_TRANSIENT || is_session_octet octet) ≡ false }
    ensures row { Appends result
        (handles_listed (asked_of asked.now) (handle_items p.now [] [] asked.now.property))
        reply.old reply.new }
    ensures most { OnOk result (length reply.new ≤ length reply.old + MOST_LIST_BYTES) }
{
    let least = asked.property;
    match asked.property >> 24 {
        HT_PCR => put_list(asked, &Pcrs, least, reply),
        HT_NV_INDEX => put_list(asked, &NvIndexes { p }, least, reply),
        HT_PERMANENT => put_list(asked, &Permanent, least, reply),
        HT_PERSISTENT => put_list(asked, &Persistent, least, reply),
        _ => return Err(in_parameter(2, RC_HANDLE)),
    }
    Ok(())
}

// A handle that is listed by itself.
fn handle_item(handle: u32) -> Item
    ensures key { result.key ≡ handle }
    ensures bytes { result.bytes ≡ to_be_bytes w32 handle }
{
    Item {
        key: handle,
        bytes: SmallBytes::of(&handle.to_be_bytes()).unwrap(),
    }
}

#[derive(Drop)]
struct Pcrs;

impl Listing for Pcrs {
    ghost items = { λ s least. from_number least (range_with_len 0 PCRS) };

    fn item_from(&self, least: u64) -> Option<Item> {
        match pcr_from(least) {
            Some(pcr) => Some(handle_item(pcr)),
            None => None,
        }
    }
}

// The least PCR that isn't below `least`.
fn pcr_from(least: u64) -> Option<u32>
    ensures { result ≡ number_from least (range_with_len 0 PCRS) }
{
    if least >= u64::from(PCRS) {
        return None;
    }
    Some(least as u32)
}

// The owner, the null hierarchy, and what an authorization names whose hmac is a password.
#[derive(Drop)]
struct Permanent;

impl Listing for Permanent {
    ghost items = { λ s least. from_number least (RH_OWNER ∷ RH_NULL ∷ RS_PW ∷ []) };

    fn item_from(&self, least: u64) -> Option<Item> {
        match permanent_from(least) {
            Some(handle) => Some(handle_item(handle)),
            None => None,
        }
    }
}

// The least permanent handle that isn't below `least`.
fn permanent_from(least: u64) -> Option<u32>
    ensures { result ≡ number_from least (RH_OWNER ∷ RH_NULL ∷ RS_PW ∷ []) }
{
    if least <= u64::from(RH_OWNER) {
        return Some(RH_OWNER);
    }
    if least <= u64::from(RH_NULL) {
        return Some(RH_NULL);
    }
    if least <= u64::from(RS_PW) {
        return Some(RS_PW);
    }
    None
}

// There is no persistent object (the project's own).
#[derive(Drop)]
struct Persistent;

impl Listing for Persistent {
    ghost items = { λ s least. [] };

    fn item_from(&self, _least: u64) -> Option<Item> {
        None
    }
}

#[derive(Drop)]
struct Objects<'a, H> {
    held: &'a H,
}

impl<'a, H: Holdings> Listing for Objects<'a, H> {
    ghost items = { λ s least. from_number least (H.objects s.held.now) };

    fn item_from(&self, least: u64) -> Option<Item> {
        match object_from(self.held, least) {
            Some(handle) => Some(handle_item(handle)),
            None => None,
        }
    }
}

// The least handle of an object that isn't below `least`.
fn object_from<H: Holdings>(held: &H, least: u64) -> Option<u32>
    ensures { result ≡ number_from least (H.objects held.now) }
{
    if least > u64::from(u32::MAX) {
        return None;
    }
    held.object_from(least as u32)
}

// Sessions in use or saved ones, by their numbers.
#[derive(Drop)]
struct Sessions<'a, H> {
    held: &'a H,
    in_use: bool,
}

impl<'a, H: Holdings> Listing for Sessions<'a, H> {
    ghost items = { λ s least. listed_sessions s.in_use least (H.sessions s.held.now) };

    fn item_from(&self, least: u64) -> Option<Item> {
        for number in least..u64::from(SESSION_NUMBERS) {
            if let Some(handle) = session_of_sort(self.held, self.in_use, number as u32) {
                return Some(Item {
                    key: number as u32,
                    bytes: SmallBytes::of(&handle.to_be_bytes()).unwrap(),
                });
            }
        }
        None
    }
}

// The handle of the session with this number, where it is in use or saved as asked for.
fn session_of_sort<H: Holdings>(held: &H, in_use: bool, number: u32) -> Option<u32>
    requires { number < SESSION_NUMBERS }
    ensures { MatchOption result
        (listed_sessions in_use number (H.sessions held.now)
        ≡ listed_sessions in_use (number + 1) (H.sessions held.now))
        (λ handle. listed_sessions in_use number (H.sessions held.now)
        ≡ to_be_bytes w32 handle ∷ listed_sessions in_use (number + 1) (H.sessions held.now)) }
{
    match held.session(number) {
        Some(session) => {
            if is_of_sort(in_use, &session) {
                return Some(session.handle);
            }
            None
        }
        None => None,
    }
}

// Whether a session is in use, or else saved.
fn is_of_sort(in_use: bool, session: &HeldSession) -> bool
    ensures { result ≡ (if in_use then session.now.in_use else not session.now.in_use) }
{
    if in_use {
        return session.in_use;
    }
    !session.in_use
}

#[derive(Drop)]
struct NvIndexes<'a> {
    p: &'a Persist,
}

impl<'a> Listing for NvIndexes<'a> {
    ghost items = { λ s least.
        from_number least (upwards (map (λ (item : NvIndex). item.public.index) s.p.now.nv)) };

    fn item_from(&self, least: u64) -> Option<Item> {
        match index_from(self.p, least) {
            Some(index) => Some(handle_item(index)),
            None => None,
        }
    }
}

// The least NV index that isn't below `least`, in whatever order they were defined.
fn index_from(p: &Persist, least: u64) -> Option<u32>
    ensures { result
        ≡ number_from least (upwards (map (λ (item : NvIndex). item.public.index) p.now.nv)) }
{
    let mut found = None;
    let indexes = p.indexes();
    for item in indexes {
        found = lesser(least, found, item.public.index);
    }
    found
}

// The lesser of what was found and a number, where that isn't below `least`.
fn lesser(least: u64, found: Option<u32>, number: u32) -> Option<u32>
    ensures { result ≡ lesser least found number }
{
    if u64::from(number) < least {
        return found;
    }
    match found {
        Some(before) if before <= number => found,
        _ => Some(number),
    }
}
