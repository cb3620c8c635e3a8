ghost use Rattle.std.specs.Prelude.{◌≡◌, ℕ, List, OnOk, OnErr};
ghost use Rattle.device_spec.specs.ContextCommands.{context_save_command};
ghost use Rattle.device_port.specs.Device.{last_of};
ghost use Rattle.session_swap.specs.Items.{HasGapRoom, KeepsRest, MayHandOut, SavesForClient};
ghost use Rattle.session_swap.specs.Items.{SavesTold, sessions_of};
ghost use Rattle.session_swap.specs.Records.{items_of, no_order, order_out, view_of, view_with};
ghost use Rattle.device_port.specs.Own.{Asks};
ghost use Rattle.tab_spec.specs.Shape.{number_of_session};
ghost use Rattle.tab_spec.specs.declared.numbers.Numbers.{Numbers};
ghost use Rattle.tab_spec.specs.declared.contexts.TheConstants.{PROFILE_CONTEXTS};
ghost use Rattle.session_swap.specs.Moves.{Ready};

use crate::items::put_out;
use crate::record::Record;
use crate::sessions::number_of;
use device_port::{Device, SwapError};
use tab_bytes::Buffer;

/// Saves a loaded session for its client: the response has its context, which is handed out.
pub fn save_for_client<D: Device>(
    records: &mut [Record],
    next: &mut u64,
    handle: u32,
    device: &mut D,
    reply: &mut Buffer,
) -> Result<(), SwapError>
    requires may { MayHandOut (D.seen device.old).state handle (items_of records.old) }
    requires ready { (numbers : Numbers) × (others : List ℕ)
        × Ready D.CONTEXTS (D.seen device.old).state numbers records.old next.old others }
    ensures ok { OnOk result (((numbers : Numbers)
        → SavesForClient D.CONTEXTS (last_of (D.seen device.new)) reply.new handle
        (view_of numbers records.old next.old)
        (view_with numbers records.new next.new
        (order_out (number_of_session handle) no_order) PROFILE_CONTEXTS))
        × SavesTold (D.seen device.old).state (D.seen device.new).state reply.new handle
        (items_of records.old)) }
    ensures err { OnErr result ((items_of records.new ≡ items_of records.old)
        × (next.new ≡ next.old)) }
    ensures sessions { sessions_of (D.seen device.new).state (items_of records.new)
        ≡ sessions_of (D.seen device.old).state (items_of records.old) }
    ensures ready { (numbers : Numbers) (others : List ℕ)
        → Ready D.CONTEXTS (D.seen device.old).state numbers records.old next.old others
        → Ready D.CONTEXTS (D.seen device.new).state numbers records.new next.new others }
    ensures keeps { KeepsRest D.seen device.old device.new × HasGapRoom (D.seen device.new).state }
    ensures asks { Asks D.CONTEXTS D.seen device.old device.new (context_save_command handle)
        result }
{
    let number = number_of(handle);
    put_out(records, next, number, device, reply)?;
    records[number].hand_out();
    Ok(())
}
