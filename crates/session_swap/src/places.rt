ghost use Rattle.std.specs.Prelude.{◌≡◌, ◌≤◌, ◌<◌, ◌||◌, not, ℕ, length, true, false};
ghost use Rattle.std.specs.Prelude.{slice_get, Some, OnOk, MatchOption};
ghost use Rattle.session_swap.specs.Items.{AreNamed, AreNeeded, HavePlaces, Lists, MakesRoom};
ghost use Rattle.session_swap.specs.Items.{Names, counter_of, is_loaded_item, item_of};
ghost use Rattle.session_swap.specs.Items.{loaded_items, missing};
ghost use Rattle.session_swap.specs.Records.{AreRecords, items_of, view_with};
ghost use Rattle.session_swap.specs.Moves.{AllNeeded, Brings, CanClear, CanFill, Evicts, Fills};
ghost use Rattle.session_swap.specs.Moves.{MaySaveAllIf, ReadyIn, Swaps, SwapsFor, handle_at};
ghost use Rattle.device_port.specs.Own.{AsksSome};
ghost use Rattle.device_port.specs.Use.{is_among};
ghost use Rattle.tab_spec.specs.declared.numbers.Numbers.{Numbers};
ghost use Rattle.tab_spec.specs.declared.contexts.ContextLimits.{ContextLimits};

use crate::items::{bring_in, put_out};
use crate::order::{Order, Uncounted};
use crate::record::Record;
use crate::sessions::number_of;
use device_port::{Device, SwapError};
use tab_bytes::Buffer;
use tab_spec::Numbers;

// Whether a session isn't loaded, and isn't one of these others.
fn is_missing(records: &[Record], handle: u32, others: &[u32]) -> bool
    requires { Names (items_of records.now) handle }
    ensures { result ≡ not (is_loaded_item (item_of (items_of records.now) handle)
        || is_among others.now handle) }
{
    if records[number_of(handle)].is_loaded() {
        return false;
    }
    !others.contains(&handle)
}

// How many of these sessions aren't loaded. Each counts once.
fn count_missing(records: &[Record], needed: &[u32]) -> usize
    requires { AreNamed needed.now (items_of records.now) }
    ensures count { result ≡ missing needed.now (items_of records.now) }
    ensures most { result ≤ length needed.now }
{
    let mut count = 0;
    for (at, handle) in needed.iter().enumerate() {
        if is_missing(records, *handle, &needed[at + 1..]) {
            count += 1;
        }
    }
    count
}

// Whether a session is one of those that are needed.
fn is_needed(session: &Record, needed: &[u32]) -> bool
    ensures { result ≡ is_among needed.now session.now.handle }
{
    needed.contains(&session.handle)
}

// The loaded session that was used least recently, of those that aren't needed.
fn unneeded(records: &[Record], order: &Order, needed: &[u32]) -> Option<usize>
    requires sound { (contexts : ContextLimits) × AreRecords contexts records.now }
    requires listed { Lists order.now.loaded (items_of records.now) }
    ensures { MatchOption result
        (AllNeeded (items_of records.now) order.now.loaded needed.now (length order.now.loaded))
        (λ number. (at : ℕ) × (slice_get order.now.loaded at ≡ Some number)
        × (is_among needed.now (handle_at (items_of records.now) number) ≡ false)
        × AllNeeded (items_of records.now) order.now.loaded needed.now at) }
{
    let mut here = order.first_loaded(&mut Uncounted);
    for _ in 0..order.loaded() {
        let number = here?;
        if !is_needed(&records[number], needed) {
            return Some(number);
        }
        here = order.next_loaded(number);
    }
    None
}

// Saves loaded sessions that aren't needed, the least recently used first, until no more than so
// many are loaded.
fn clear_places<D: Device>(
    records: &mut [Record],
    next: &mut u64,
    order: &mut Order,
    needed: &[u32],
    most: usize,
    device: &mut D,
    scratch: &mut Buffer,
) -> Result<(), SwapError>
    requires needed { CanClear records.old needed.now most }
    requires ready { (numbers : Numbers)
        × ReadyIn D.CONTEXTS (D.seen device.old).state numbers records.old next.old order.old }
    requires may { MaySaveAllIf (D.seen device.old).state }
    ensures swaps { Swaps D.seen device.old device.new records.old records.new }
    ensures ready { (numbers : Numbers)
        → ReadyIn D.CONTEXTS (D.seen device.old).state numbers records.old next.old order.old
        → ReadyIn D.CONTEXTS (D.seen device.new).state numbers records.new next.new order.new }
    ensures evicts { Evicts D.seen device.old device.new records.old records.new
        order.old order.new needed.now most result }
    ensures idle { loaded_items (items_of records.old) ≤ most → (device.new ≡ device.old)
        × (records.new ≡ records.old) × (next.new ≡ next.old) × (result ≡ Ok tt) }
    ensures asks { AsksSome D.CONTEXTS D.seen device.old device.new result }
{
    while order.loaded() > most {
        // What is needed alone would fit.
        let number = unneeded(records, order, needed).unwrap();
        put_out(records, next, number, device, scratch)?;
        order.move_out(number, &mut Uncounted);
    }
    Ok(())
}

// Loads a session that is needed, unless it is loaded. It was used last then.
fn make_loaded<D: Device>(
    records: &mut [Record],
    next: u64,
    order: &mut Order,
    handle: u32,
    device: &mut D,
    scratch: &mut Buffer,
) -> Result<(), SwapError>
    requires named { Names (items_of records.old) handle }
    requires ready { (numbers : Numbers)
        × ReadyIn D.CONTEXTS (D.seen device.old).state numbers records.old next order.old
        × (is_loaded_item (item_of (items_of records.old) handle) ≡ false
        → loaded_items (items_of records.old) < numbers.loaded) }
    ensures swaps { Swaps D.seen device.old device.new records.old records.new }
    ensures ready { (numbers : Numbers)
        → ReadyIn D.CONTEXTS (D.seen device.old).state numbers records.old next order.old
        → (is_loaded_item (item_of (items_of records.old) handle) ≡ false
        → loaded_items (items_of records.old) < numbers.loaded)
        → ReadyIn D.CONTEXTS (D.seen device.new).state numbers records.new next order.new }
    ensures counter { counter_of (D.seen device.new).state ≡ counter_of (D.seen device.old).state }
    ensures brings { Brings D.seen device.old device.new records.old records.new
        order.old order.new handle result }
    ensures asks { AsksSome D.CONTEXTS D.seen device.old device.new result }
{
    let number = number_of(handle);
    if records[number].is_loaded() {
        order.use_again(number);
        return Ok(());
    }
    bring_in(records, next, number, device, scratch)?;
    order.move_in(number, &mut Uncounted);
    Ok(())
}

// Loads each session that is needed.
fn fill_places<D: Device>(
    records: &mut [Record],
    next: u64,
    order: &mut Order,
    needed: &[u32],
    device: &mut D,
    scratch: &mut Buffer,
) -> Result<(), SwapError>
    requires ready { (numbers : Numbers)
        × ReadyIn D.CONTEXTS (D.seen device.old).state numbers records.old next order.old
        × CanFill numbers records.old needed.now }
    ensures swaps { Swaps D.seen device.old device.new records.old records.new }
    ensures ready { (numbers : Numbers)
        → ReadyIn D.CONTEXTS (D.seen device.old).state numbers records.old next order.old
        → CanFill numbers records.old needed.now
        → ReadyIn D.CONTEXTS (D.seen device.new).state numbers records.new next order.new }
    ensures counter { counter_of (D.seen device.new).state ≡ counter_of (D.seen device.old).state }
    ensures fills { Fills D.seen device.old device.new records.old records.new
        order.old order.new needed.now result }
    ensures asks { AsksSome D.CONTEXTS D.seen device.old device.new result }
{
    for handle in needed {
        make_loaded(records, next, order, *handle, device, scratch)?;
    }
    Ok(())
}

/// Loads each session that is needed, and frees so many places. It saves others only to make room,
/// the least recently used first.
pub fn swap_sessions<D: Device>(
    records: &mut [Record],
    next: &mut u64,
    order: &mut Order,
    needed: &[u32],
    new_places: u8,
    numbers: Numbers,
    device: &mut D,
    scratch: &mut Buffer,
) -> Result<(), SwapError>
    requires needed { AreNeeded needed.now new_places (items_of records.old) }
    requires ready { ReadyIn D.CONTEXTS (D.seen device.old).state numbers records.old next.old
        order.old }
    requires may { MaySaveAllIf (D.seen device.old).state }
    ensures swaps { SwapsFor D.seen device.old device.new records.old records.new needed.now }
    ensures ready { ReadyIn D.CONTEXTS (D.seen device.new).state numbers records.new next.new
        order.new }
    ensures ok { OnOk result (HavePlaces needed.now new_places (D.seen device.new).state
        (view_with numbers records.new next.new order.new D.CONTEXTS)) }
    ensures room { MakesRoom D.seen device.old device.new needed.now new_places
        (view_with numbers records.old next.old order.old D.CONTEXTS)
        (view_with numbers records.new next.new order.new D.CONTEXTS) result }
    ensures asks { AsksSome D.CONTEXTS D.seen device.old device.new result }
{
    let most = usize::from(numbers.loaded) - usize::from(new_places);
    let missing = count_missing(records, needed);
    clear_places(
        records,
        next,
        order,
        needed,
        most - missing,
        device,
        scratch,
    )?;
    fill_places(records, *next, order, needed, device, scratch)
}
