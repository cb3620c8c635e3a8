ghost use Rattle.std.specs.Prelude.{◌≡◌, ◌≤◌, ◌<◌, ◌+◌, ◌*◌, OnOk};
ghost use Rattle.tab_spec.specs.declared.TheConstants.{CONTEXT_LIMIT};
ghost use Rattle.session_swap.specs.Items.{AreKept, HasGapRoom, RenewalCounts, counter_of};
ghost use Rattle.session_swap.specs.Items.{full_kept};
ghost use Rattle.session_swap.specs.Records.{items_of, order_renewed, view_of};
ghost use Rattle.session_swap.specs.Moves.{FreeingCounts, Frees, IsOldestAt, KeepsSaved, ReadyIn};
ghost use Rattle.session_swap.specs.Moves.{RenewsAt, Swaps};
ghost use Rattle.device_port.specs.Own.{AsksSome};

use crate::items::{bring_in, put_out};
use crate::order::{Order, Visits, list_saved};
use crate::record::Record;
use device_port::{Device, SwapError};
use tab_bytes::Buffer;
use tab_spec::Numbers;

// Saves the session that was used least recently, where no place is free.
fn free_place<D: Device, C: Visits>(
    records: &mut [Record],
    next: &mut u64,
    order: &mut Order,
    numbers: Numbers,
    device: &mut D,
    scratch: &mut Buffer,
    steps: &mut C,
) -> Result<(), SwapError>
    requires ready { ReadyIn D.CONTEXTS (D.seen device.old).state numbers records.old next.old
        order.old }
    requires may { HasGapRoom (D.seen device.old).state
        × (counter_of (D.seen device.old).state < CONTEXT_LIMIT) }
    ensures swaps { Swaps D.seen device.old device.new records.old records.new }
    ensures ready { ReadyIn D.CONTEXTS (D.seen device.new).state numbers records.new next.new
        order.new }
    ensures ok { OnOk result (Frees (D.seen device.old).state (D.seen device.new).state
        (view_of numbers records.old next.old) (items_of records.new) order.old order.new) }
    ensures kept { KeepsSaved (D.seen device.old).state (items_of records.old)
        (items_of records.new) }
    ensures counts { FreeingCounts D.seen device.old device.new
        (view_of numbers records.old next.old)
        × (C.count steps.new
        ≤ C.count steps.old + 6 * full_kept (view_of numbers records.old next.old)) }
    ensures rises { C.count steps.old ≤ C.count steps.new }
    ensures asks { AsksSome D.CONTEXTS D.seen device.old device.new result }
{
    if order.loaded() < usize::from(numbers.loaded) {
        return Ok(());
    }
    let number = order.first_loaded(steps).unwrap();
    let saved = put_out(records, next, number, device, scratch);
    list_saved(order, number, &saved, steps);
    saved
}

/// Loads the saved session of a number and saves it again. Where no place is free, the loaded
/// session that was used least recently is saved first.
pub fn renew_session<D: Device, C: Visits>(
    records: &mut [Record],
    next: &mut u64,
    order: &mut Order,
    number: usize,
    numbers: Numbers,
    device: &mut D,
    scratch: &mut Buffer,
    steps: &mut C,
) -> Result<(), SwapError>
    requires oldest { IsOldestAt (D.seen device.old).state (items_of records.old) number }
    requires ready { ReadyIn D.CONTEXTS (D.seen device.old).state numbers records.old next.old
        order.old }
    requires may { HasGapRoom (D.seen device.old).state
        × (counter_of (D.seen device.old).state + 900 ≤ CONTEXT_LIMIT) }
    ensures swaps { Swaps D.seen device.old device.new records.old records.new }
    ensures ready { ReadyIn D.CONTEXTS (D.seen device.new).state numbers records.new next.new
        order.new }
    ensures ok { OnOk result (RenewsAt D.CONTEXTS (D.seen device.old) (D.seen device.new)
        (items_of records.old) (items_of records.new) number
        × (order.new
        ≡ order_renewed (full_kept (view_of numbers records.old next.old)) number order.old)) }
    // Every other session that was saved stays where it was, also after an error.
    ensures kept { AreKept number (items_of records.old) (items_of records.new)
        × RenewalCounts D.seen device.old device.new (view_of numbers records.old next.old)
        × (C.count steps.new
        ≤ C.count steps.old + 10 + 6 * full_kept (view_of numbers records.old next.old)) }
    ensures counted { OnOk result (C.count steps.old + 4 * C.weight ≤ C.count steps.new) }
    ensures asks { AsksSome D.CONTEXTS D.seen device.old device.new result }
{
    free_place(records, next, order, numbers, device, scratch, steps)?;
    bring_in(records, *next, number, device, scratch)?;
    order.move_in(number, steps);
    let saved = put_out(records, next, number, device, scratch);
    list_saved(order, number, &saved, steps);
    saved
}
