ghost use Rattle.std.specs.Prelude.{◌≡◌, ◌==◌, if◌then◌else◌, option_map, MatchOption, Some, None};
ghost use Rattle.fx_table.specs.Views.{operand_of, operands_of};
ghost use Rattle.effect_spec.specs.Operands.{StandFor, object_operand, operands_by, plain};
ghost use Rattle.effect_spec.specs.Operands.{operand_by, session_named, session_operand};
ghost use Rattle.effect_spec.specs.Operands.{with_operand};
ghost use Rattle.tab_spec.specs.Shape.{octet_of};
ghost use Rattle.tab_spec.specs.Admission.{is_session_handle};
ghost use Rattle.device_spec.specs.Slots as slots;
ghost use Rattle.tab_values.specs.Views.{object_of, session_of};
ghost use Rattle.device_slots.specs.Views as views;
ghost use Rattle.device_slots.specs.Views.{object_under, places_of, session_under, slots_of};

use crate::machine::SlotMachine;
use crate::sessions::{Place, first_octet, loaded_session, put_place};
use crate::slots::{in_slot, slot_of};
use fx_table::{Operand, Operands, creates};
use tab_spec::{Auths, HT_TRANSIENT, Kind, Shape};
use tab_values::{Object, Session};
use tab_wire::{is_session_handle, octet_of};

impl SlotMachine {
    // The object of a transient handle; `None` if its slot is free, or if it has none.
    pub(crate) fn object(&self, handle: u32) -> Option<&Object>
        ensures { MatchOption result
            (slots.in_slot self.now handle ≡ None)
            (λ o. slots.in_slot self.now handle ≡ Some (object_of o.now)) }
    {
        in_slot(&self.slots, slot_of(handle))
    }

    // The loaded session of a handle.
    pub(crate) fn session(&self, handle: u32) -> Option<&Session>
        ensures { MatchOption result
            (slots.loaded_session self.now handle ≡ None)
            (λ s. slots.loaded_session self.now handle ≡ Some (session_of s.now)) }
    {
        loaded_session(&self.sessions, handle)
    }
}

// Whether a command names only what all clients share, and creates nothing: each handle stands for
// itself then, and a password authorizes it.
pub(crate) fn is_shared(shape: &Shape, auths: &Auths) -> bool
    ensures { result ≡ views.is_shared shape.now auths.now }
{
    let [first, second] = shape.handles;
    !creates(shape.row.code)
        && is_plain(first)
        && is_plain(second)
        && !is_session_handle(auths.auths[0].session)
}

// Whether a handle is none of an object or a session.
fn is_plain(handle: u32) -> bool
    ensures { result ≡ views.is_plain handle }
{
    octet_of(handle) != HT_TRANSIENT && !is_session_handle(handle)
}

// What the handles of a command and its first authorization stand for.
pub(crate) fn operands<'a>(
    slots: &'a [Option<Object>],
    places: &[Place],
    shape: &Shape,
    auths: &Auths,
) -> Operands<'a>
    ensures value { operands_of result ≡ operands_by (object_under (slots_of slots.now))
        (session_under (places_of places.now)) shape.now auths.now }
    ensures stands { StandFor shape.now (operands_of result) }
{
    let [first, second] = shape.row.handles;
    Operands {
        first: operand(slots, places, first, shape.handles[0]),
        second: operand(slots, places, second, shape.handles[1]),
        session: authorizing(places, auths.auths[0].session),
    }
}

// The session that an authorization names, with its handle.
fn authorizing(places: &[Place], handle: u32) -> Option<(u32, Session)>
    ensures { option_map (λ named. (named.0, session_of named.1)) result
        ≡ session_named (session_under (places_of places.now)) handle }
{
    if !is_session_handle(handle) {
        return None;
    }
    let session = loaded_session(places, handle)?;
    Some((handle, session.copied()))
}

// What a handle of this kind stands for: an object or a session for theirs.
fn operand<'a>(
    slots: &'a [Option<Object>],
    places: &[Place],
    kind: Kind,
    handle: u32,
) -> Operand<'a>
    ensures { operand_of result ≡ operand_by (object_under (slots_of slots.now))
        (session_under (places_of places.now)) kind handle }
{
    match kind {
        Kind::Absent => Operand::Absent,
        _ => present(slots, places, handle),
    }
}

// The same of a handle that is there.
fn present<'a>(slots: &'a [Option<Object>], places: &[Place], handle: u32) -> Operand<'a>
    ensures { operand_of result ≡ (if octet_of handle == HT_TRANSIENT
        then object_operand handle (object_under (slots_of slots.now) handle)
        else if is_session_handle handle
        then session_operand handle (session_under (places_of places.now) handle)
        else plain handle) }
{
    if octet_of(handle) == HT_TRANSIENT {
        return match in_slot(slots, slot_of(handle)) {
            Some(object) => Operand::Object(object),
            None => Operand::Plain(handle),
        };
    }
    if !is_session_handle(handle) {
        return Operand::Plain(handle);
    }
    match loaded_session(places, handle) {
        Some(session) => Operand::Session(handle, session.copied()),
        None => Operand::Plain(handle),
    }
}

// The sessions as a command left them: the one that a handle names, and that of its authorization,
// which may have ended.
pub(crate) fn put_sessions(places: &mut [Place], ops: &Operands<'_>, ended: bool)
    ensures { places_of places.new
        ≡ slots.sessions_left (places_of places.old) (operands_of ops.now) ended }
{
    put_operand(places, &ops.first);
    put_operand(places, &ops.second);
    let Some((handle, session)) = &ops.session else {
        return;
    };
    if ended {
        return put_place(places, *handle, Place::Inactive);
    }
    put_place(
        places,
        *handle,
        Place::Loaded(first_octet(*handle), session.copied()),
    );
}

fn put_operand(places: &mut [Place], operand: &Operand<'_>)
    ensures { places_of places.new
        ≡ with_operand slots.loaded_under (places_of places.old) (operand_of operand.now) }
{
    if let Operand::Session(handle, session) = operand {
        put_place(
            places,
            *handle,
            Place::Loaded(first_octet(*handle), session.copied()),
        );
    }
}
