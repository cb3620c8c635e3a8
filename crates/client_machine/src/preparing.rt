ghost use Rattle.std.specs.Prelude.{◌≡◌, ◌≤◌, ◌<◌, ◌+◌, ◌==◌, ℕ, true, [], take};
ghost use Rattle.std.specs.Prelude.{is_some, None, Ok, IfSome, OnOk};
ghost use Rattle.tab_spec.specs.Admission.{client_admitted};
ghost use Rattle.client_laws.specs.Ready.{named_sessions, starts_session};
ghost use Rattle.device_port.specs.Own.{AsksSome};
ghost use Rattle.object_swap.specs.Items as objects;
ghost use Rattle.object_swap.specs.Items.{AreFree, Names, is_resident, item_at, residents};
ghost use Rattle.device_spec.specs.Slots.{gap_of};
ghost use Rattle.session_swap.specs.declared.TheConstants.{NEEDED_MOST};
ghost use Rattle.session_swap.specs.Items.{AreNamed, gap_kept, renewal_gap};
ghost use Rattle.client_machine.specs.Costs.{SendsUpTo, StaysIn, places_of};
ghost use Rattle.client_machine.specs.Costs.{renewal_bound};
ghost use Rattle.client_machine.specs.Moves.{Clears, FlushesSome, HasSessions, IsAtHand, IsCalm};
ghost use Rattle.client_machine.specs.Moves.{IsClear, IsPrepared, Loses, MakesReady, MayBegin};
ghost use Rattle.client_machine.specs.Moves.{MovesObjects};
ghost use Rattle.client_machine.specs.Moves.{MovesSessions, NeedsNoSession, Prepares, UsesNamed};
ghost use Rattle.client_machine.specs.Moves.{listed, moves_for, named_by};
ghost use Rattle.client_machine.specs.Settled.{Settled, call_contexts, orphan_count, swap_contexts};
ghost use Rattle.client_machine.specs.Tables.{IsTable, handle_or, slot_handle, tables_seen};

use crate::held::Held;
use device_port::{Device, SwapError};
use object_swap::Objects;
use session_swap::refresh;
use tab_bytes::Buffer;
use tab_spec::{Admitted, CC_START_AUTH_SESSION, HT_TRANSIENT};
use tab_wire::{is_session_handle, needs_slot, octet_of};
use virtual_handles::ClientTable;

// Flushes orphans.
pub(crate) fn flush_orphans<D: Device>(
    held: &mut Held,
    device: &mut D,
    scratch: &mut Buffer,
) -> Result<(), SwapError>
    requires slots { held.old.objects.slots ≡ held.old.sessions.numbers.slots }
    requires settled { Settled (D.seen device.old).state held.old }
    // Objects and sessions of clients, and sessions that were left, stay where they are.
    ensures clears { Clears D.seen device.old device.new held.old held.new }
    ensures none { OnOk result (orphan_count held.new ≡ 0) }
    ensures costs { SendsUpTo D.seen (orphan_count held.old) device.old device.new }
    // Only one flush for each orphan was sent.
    ensures flushed { OnOk result
        (FlushesSome D.CONTEXTS D.seen (orphan_count held.old) device.old device.new) }
    ensures asks { AsksSome D.CONTEXTS D.seen device.old device.new result }
{
    while let Some(handle) = held.sessions.orphan() {
        held.sessions.drop_session(device, handle, scratch)?;
    }
    while held.objects.flush_orphan(device, scratch)? {}
    Ok(())
}

// Flushes orphans, and renews old contexts. It makes 65 contexts at most: one for each of 64
// sessions, and one that frees a place.
fn renew<D: Device>(held: &mut Held, device: &mut D, scratch: &mut Buffer) -> Result<(), SwapError>
    requires may { MayBegin call_contexts D.CONTEXTS D.seen device.old held.old }
    ensures prepared { Prepares 65 D.seen device.old device.new held.old held.new }
    ensures clear { OnOk result (IsClear (D.seen device.new).state held.new) }
    ensures still { orphan_count held.old ≡ 0
        → gap_kept held.old.sessions < renewal_gap held.old.sessions.numbers
        → (device.new ≡ device.old) × (held.new ≡ held.old) }
    ensures costs { SendsUpTo D.seen
        (orphan_count held.old
        + renewal_bound (gap_kept held.old.sessions) held.old.sessions.numbers)
        device.old device.new }
    // Where no renewal is due, nothing moves: each thing is as it was, or is gone.
    ensures stays { gap_kept held.old.sessions < renewal_gap held.old.sessions.numbers
        → Loses held.old held.new }
    ensures sends { MakesReady D.CONTEXTS D.seen (orphan_count held.old)
        device.old device.new result }
{
    flush_orphans(held, device, scratch)?;
    refresh(&mut held.sessions, device, scratch)?;
    Ok(())
}

// The session handles that a command names: how many, and which.
fn sessions_of(admitted: &Admitted) -> (usize, [u32; 3])
    ensures few { result.0 ≤ 3 }
    ensures named { take result.0 result.1 ≡ named_sessions admitted.now }
{
    let auth = &admitted.auths.auths[0];
    let handles = [
        admitted.shape.handles[0],
        admitted.shape.handles[1],
        auth.session,
    ];
    let mut named = [0; 3];
    let mut count = 0;
    for handle in handles {
        if is_session_handle(handle) {
            named[count] = handle;
            count += 1;
        }
    }
    (count, named)
}

// Loads the sessions that a command names, and frees a place for one that it may start. If as many
// are active as may be, it frees no place: the device refuses the command by itself.
fn load_sessions<D: Device>(
    held: &mut Held,
    device: &mut D,
    admitted: &Admitted,
    scratch: &mut Buffer,
) -> Result<(), SwapError>
    requires may { MayBegin swap_contexts D.CONTEXTS D.seen device.old held.old }
    requires clear { IsClear (D.seen device.old).state held.old }
    requires named { AreNamed (named_sessions admitted.now) held.old.sessions.items }
    requires starts { starts_session admitted.now ≡ true → named_sessions admitted.now ≡ [] }
    ensures prepared { Prepares 3 D.seen device.old device.new held.old held.new }
    ensures rest { held.new.objects ≡ held.old.objects }
    ensures ok { OnOk result
        (HasSessions (D.seen device.new).state held.new.sessions admitted.now
        × IfSome (D.seen device.new).state
        (λ slots. gap_of slots < renewal_gap slots.numbers + NEEDED_MOST)) }
    ensures still { NeedsNoSession held.old.sessions admitted.now
        → device.new ≡ device.old }
    ensures costs { MovesSessions D.seen device.old device.new held.old held.new
        admitted.now result }
    ensures asks { AsksSome D.CONTEXTS D.seen device.old device.new result }
{
    let (count, named) = sessions_of(admitted);
    let starts = admitted.shape.row.code == CC_START_AUTH_SESSION;
    let most = held.sessions.most();
    let new_places = u8::from(starts && held.sessions.active() < most);
    held.sessions
        .make_sessions(device, &named[..count], new_places, scratch)
}

// The item that a client's handle names.
fn item_of(table: &ClientTable, handle: u32) -> Option<u32>
    ensures { result ≡ named_by table.now.items handle }
{
    if octet_of(handle) != HT_TRANSIENT {
        return None;
    }
    table.find(handle)
}

// The device's handle of the item that a handle names; the handle itself if it names none.
fn device_handle(objects: &Objects, named: Option<u32>, handle: u32) -> u32
    ensures { result ≡ handle_or handle (slot_handle objects.now.items named) }
{
    match named {
        Some(item) => objects.slot_of(item).unwrap_or(handle),
        None => handle,
    }
}

// Brings an item into a slot, if one is named, and frees so many slots. It sends nothing if the
// item is in a slot and no slot has to be free.
fn bring<D: Device>(
    held: &mut Held,
    device: &mut D,
    named: Option<u32>,
    new_slots: u8,
    scratch: &mut Buffer,
) -> Result<(), SwapError>
    requires named { IfSome named (λ item. Names held.old.objects.items item) }
    requires few { new_slots ≤ 1 }
    requires may { MayBegin swap_contexts D.CONTEXTS D.seen device.old held.old }
    requires nobodys { orphan_count held.old ≡ 0 }
    ensures prepared { Prepares 3 D.seen device.old device.new held.old held.new }
    ensures rest { (objects.rest_of (D.seen device.new).state
        ≡ objects.rest_of (D.seen device.old).state)
        × (held.new.sessions ≡ held.old.sessions) }
    ensures ok { OnOk result
        (IfSome named (λ item. is_resident (item_at held.new.objects.items item) ≡ true)
        × AreFree (D.seen device.new).state new_slots
        × (residents held.new.objects.items + new_slots ≤ held.new.objects.slots)) }
    ensures still { new_slots ≡ 0
        → IfSome named (λ item. is_resident (item_at held.old.objects.items item) ≡ true)
        → device.new ≡ device.old }
    ensures costs { MovesObjects D.seen device.old device.new held.old held.new
        (listed named) new_slots result }
    ensures asks { AsksSome D.CONTEXTS D.seen device.old device.new result }
{
    match named {
        Some(item) => held
            .objects
            .make_objects(device, &[item], new_slots, scratch),
        None => held.objects.make_objects(device, &[], new_slots, scratch),
    }
}

// Prepares a client's command: flushes orphans, renews old contexts, loads what the command names,
// makes room for what it may make or build, and writes it with the device's handles. The order is
// the project's own.
pub(crate) fn prepare<D: Device>(
    held: &mut Held,
    device: &mut D,
    table: &ClientTable,
    admitted: &Admitted,
    bytes: &[u8],
    translated: &mut Buffer,
    scratch: &mut Buffer,
) -> Result<(), SwapError>
    requires admitted { (client : ℕ) × IsTable held.old.objects.items client table.now.items
        × (client_admitted
        (tables_seen D.CONTEXTS client table.now.items held.old.sessions.items) bytes.now
        ≡ Ok admitted.now) }
    requires may { MayBegin call_contexts D.CONTEXTS D.seen device.old held.old }
    ensures prepared { Prepares 100 D.seen device.old device.new held.old held.new }
    ensures ready { OnOk result (IsPrepared D.CONTEXTS (D.seen device.new).state held.new
        table.now.items admitted.now bytes.now translated.new) }
    ensures still { IsAtHand D.CONTEXTS held.old table.now.items admitted.now bytes.now
        → device.new ≡ device.old }
    ensures costs { SendsUpTo D.seen
        (11 + orphan_count held.old
        + renewal_bound (gap_kept held.old.sessions) held.old.sessions.numbers)
        device.old device.new }
    ensures stays { OnOk result (gap_kept held.old.sessions < renewal_gap held.old.sessions.numbers
        → StaysIn 1 (places_of admitted.now) None held.old held.new) }
    // Where there are no orphans and no renewal is due, it sends what moves that, and uses it.
    ensures few { IsCalm held.old → SendsUpTo D.seen
        (moves_for D.CONTEXTS held.old table.now.items admitted.now bytes.now)
        device.old device.new }
    ensures used { OnOk result (IsCalm held.old
        → UsesNamed D.CONTEXTS held.old held.new table.now.items admitted.now bytes.now) }
    ensures sends { MakesReady D.CONTEXTS D.seen (orphan_count held.old)
        device.old device.new result }
{
    renew(held, device, scratch)?;
    load_sessions(held, device, admitted, scratch)?;
    let first = admitted.shape.handles[0];
    let named = item_of(table, first);
    let new_slots = u8::from(needs_slot(D::CONTEXTS, &admitted.shape, bytes));
    bring(held, device, named, new_slots, scratch)?;
    let handle = device_handle(&held.objects, named, first);
    tab_wire::with_handles(
        bytes,
        &admitted.shape,
        [handle, admitted.shape.handles[1]],
        translated,
    );
    Ok(())
}
