ghost use Rattle.std.specs.Prelude.{◌≤◌, ◌+◌, ◌*◌, IfOk};
ghost use Rattle.session_swap.specs.Items.{MayRenew, RefreshesAll, Visited, saved_items};

use crate::order::{Uncounted, Visits};
use crate::sessions::Sessions;
use device_port::{Device, SwapError};
use linked_records::Steps;
use std::sync::ledger::Ledger;
use tab_bytes::Buffer;

/// Renews contexts in the order in which they were saved, until the number of the next context is
/// above that of the first by less than the device's gap less eight. So three sessions can be saved
/// for the next command before the gap is met. It returns how many were renewed, no more than were
/// saved before. If the gap is small enough already, it sends nothing. After an error the same
/// sessions stand, and another try may follow.
pub fn refresh<D: Device>(
    sessions: &mut Sessions,
    device: &mut D,
    scratch: &mut Buffer,
) -> Result<u32, SwapError>
    requires { MayRenew D.CONTEXTS (D.seen device.old).state sessions.old 1000 }
    ensures { RefreshesAll D.CONTEXTS D.seen device.old device.new sessions.old
        sessions.new result }
{
    refresh_by(sessions, device, scratch, &mut Uncounted)
}

/// `refresh`, which visits five to twelve records of the lists for each session that is renewed,
/// and at most six more; where it fails, at most twelve for each session that was saved before, and
/// six more.
pub fn refresh_counted<D: Device, L: Ledger>(
    sessions: &mut Sessions,
    device: &mut D,
    scratch: &mut Buffer,
    steps: &mut Steps<L>,
) -> Result<u32, SwapError>
    requires { MayRenew D.CONTEXTS (D.seen device.old).state sessions.old 1000 }
    ensures refreshes { RefreshesAll D.CONTEXTS D.seen device.old device.new sessions.old
        sessions.new result }
    ensures steps { Visited steps.old steps.new (saved_items sessions.old.items) result }
    ensures counted { IfOk result (λ renewed. steps.old + 5 * renewed ≤ steps.new) }
{
    refresh_by(sessions, device, scratch, steps)
}

fn refresh_by<D: Device, C: Visits>(
    sessions: &mut Sessions,
    device: &mut D,
    scratch: &mut Buffer,
    steps: &mut C,
) -> Result<u32, SwapError>
    requires { MayRenew D.CONTEXTS (D.seen device.old).state sessions.old 1000 }
    ensures refreshes { RefreshesAll D.CONTEXTS D.seen device.old device.new sessions.old
        sessions.new result }
    ensures steps { Visited (C.count steps.old) (C.count steps.new)
        (saved_items sessions.old.items) result }
    ensures counted { IfOk result (λ renewed.
        C.count steps.old + renewed * (5 * C.weight) ≤ C.count steps.new) }
{
    let most = u32::from(sessions.saved());
    for renewed in 0..most {
        let Some(handle) = sessions.due(steps) else {
            return Ok(renewed);
        };
        sessions.renew_by(device, handle, scratch, steps)?;
    }
    Ok(most)
}
