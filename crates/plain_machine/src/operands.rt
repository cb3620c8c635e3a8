ghost use Rattle.std.specs.Prelude.{◌≡◌, ◌==◌, if◌then◌else◌, option_map, None};
ghost use Rattle.tab_spec.specs.Admission.{is_session_handle};
ghost use Rattle.tab_spec.specs.Shape.{octet_of};
ghost use Rattle.effect_spec.specs.Operands.{StandFor, object_operand, operand_by, operands_by};
ghost use Rattle.effect_spec.specs.Operands.{plain, session_named, session_operand, sessions_after};
ghost use Rattle.effect_spec.specs.Operands.{with_operand};
ghost use Rattle.fx_table.specs.Views.{operand_of, operands_of};
ghost use Rattle.tab_values.specs.Views.{session_of};
ghost use Rattle.world_spec.specs.World as worlds;
ghost use Rattle.plain_machine.specs.Owners.{owners_of};
ghost use Rattle.plain_machine.specs.Views.{objects_of};
ghost use Rattle.history_spec.specs.Table.{held_under};

use crate::sessions::{self, Owned, number_of_session, own_place, put_place};
use crate::table;
use fx_table::{Operand, Operands};
use tab_spec::{Auths, HT_TRANSIENT, Kind, Shape};
use tab_values::{Object, Session};
use tab_wire::{is_session_handle, octet_of};

// What the handles of a command of this client, and its first authorization, stand for.
pub(crate) fn operands<'a>(
    client: u32,
    places: &'a [Option<Object>],
    sessions: &[Option<Owned>],
    shape: &Shape,
    auths: &Auths,
) -> Operands<'a>
    ensures value { operands_of result ≡ operands_by (held_under (objects_of places.now))
        (worlds.session_of (owners_of sessions.now) client) shape.now auths.now }
    ensures stands { StandFor shape.now (operands_of result) }
{
    let [first, second] = shape.row.handles;
    Operands {
        first: operand(client, places, sessions, first, shape.handles[0]),
        second: operand(client, places, sessions, second, shape.handles[1]),
        session: authorizing(client, sessions, auths.auths[0].session),
    }
}

// The session that an authorization names, with its handle.
fn authorizing(client: u32, sessions: &[Option<Owned>], handle: u32) -> Option<(u32, Session)>
    ensures { option_map (λ named. (named.0, session_of named.1)) result
        ≡ session_named (worlds.session_of (owners_of sessions.now) client) handle }
{
    if !is_session_handle(handle) {
        return None;
    }
    let session = sessions::session_of(sessions, client, handle)?;
    Some((handle, session.copied()))
}

// What a handle of this kind stands for: the client's object or its session for theirs.
fn operand<'a>(
    client: u32,
    places: &'a [Option<Object>],
    sessions: &[Option<Owned>],
    kind: Kind,
    handle: u32,
) -> Operand<'a>
    ensures { operand_of result ≡ operand_by (held_under (objects_of places.now))
        (worlds.session_of (owners_of sessions.now) client) kind handle }
{
    match kind {
        Kind::Absent => Operand::Absent,
        _ => present(client, places, sessions, handle),
    }
}

// The same of a handle that is there.
fn present<'a>(
    client: u32,
    places: &'a [Option<Object>],
    sessions: &[Option<Owned>],
    handle: u32,
) -> Operand<'a>
    ensures { operand_of result ≡ (if octet_of handle == HT_TRANSIENT
        then object_operand handle (held_under (objects_of places.now) handle)
        else if is_session_handle handle
        then session_operand handle (worlds.session_of (owners_of sessions.now) client handle)
        else plain handle) }
{
    if octet_of(handle) == HT_TRANSIENT {
        return match table::held_under(places, handle) {
            Some(object) => Operand::Object(object),
            None => Operand::Plain(handle),
        };
    }
    if !is_session_handle(handle) {
        return Operand::Plain(handle);
    }
    match sessions::session_of(sessions, client, handle) {
        Some(session) => Operand::Session(handle, session.copied()),
        None => Operand::Plain(handle),
    }
}

// The sessions as a command of this client left them: the one that a handle names, and that of its
// authorization, which may have ended.
pub(crate) fn put_sessions(
    places: &mut [Option<Owned>],
    client: u32,
    ops: &Operands<'_>,
    ended: bool,
)
    ensures { owners_of places.new
        ≡ sessions_after (worlds.own_place client) None (owners_of places.old)
        (operands_of ops.now) ended }
{
    put_operand(places, client, &ops.first);
    put_operand(places, client, &ops.second);
    let Some((handle, session)) = &ops.session else {
        return;
    };
    let number = number_of_session(*handle);
    if ended {
        return put_place(places, number, None);
    }
    put_place(places, number, own_place(client, *handle, session.copied()));
}

fn put_operand(places: &mut [Option<Owned>], client: u32, operand: &Operand<'_>)
    ensures { owners_of places.new
        ≡ with_operand (worlds.own_place client) (owners_of places.old) (operand_of operand.now) }
{
    if let Operand::Session(handle, session) = operand {
        let place = own_place(client, *handle, session.copied());
        put_place(places, number_of_session(*handle), place);
    }
}
