ghost use Rattle.std.specs.Prelude.{◌≡◌, ℕ, List, true, [], IsSomeAnd, OnOk, OnErr};
ghost use Rattle.tab_spec.specs.Values.{AreBytes};
ghost use Rattle.tab_spec.specs.declared.numbers.Numbers.{Numbers};
ghost use Rattle.device_spec.specs.ContextCommands.{context_load_command, context_save_command};
ghost use Rattle.session_swap.specs.Items.{is_loaded_item, is_saved_item, item_at};
ghost use Rattle.session_swap.specs.Records.{items_of};
ghost use Rattle.session_swap.specs.Moves.{HasPlace, Loads, MaySaveIf, NothingMoves, PutsOut};
ghost use Rattle.session_swap.specs.Moves.{Ready};
ghost use Rattle.session_swap.specs.Moves.{Swaps};
ghost use Rattle.device_port.specs.Own.{Asks};

use crate::moves::{load, save};
use crate::record::{Place, Record};
use device_port::{Device, SwapError};
use tab_bytes::Buffer;

/// Saves a loaded session, by its number.
pub fn put_out<D: Device>(
    records: &mut [Record],
    next: &mut u64,
    number: usize,
    device: &mut D,
    scratch: &mut Buffer,
) -> Result<(), SwapError>
    requires loaded { is_loaded_item (item_at (items_of records.old) number) ≡ true }
    requires ready { (numbers : Numbers) × (others : List ℕ)
        × Ready D.CONTEXTS (D.seen device.old).state numbers records.old next.old others }
    requires may { MaySaveIf (D.seen device.old).state }
    ensures swaps { Swaps D.seen device.old device.new records.old records.new }
    ensures ready { (numbers : Numbers) (others : List ℕ)
        → Ready D.CONTEXTS (D.seen device.old).state numbers records.old next.old others
        → Ready D.CONTEXTS (D.seen device.new).state numbers records.new next.new others }
    ensures ok { OnOk result (PutsOut D.CONTEXTS (D.seen device.old) (D.seen device.new) scratch.new
        (items_of records.old) (items_of records.new) number next.new) }
    ensures err { OnErr result (NothingMoves (D.seen device.old).state (D.seen device.new).state
        (items_of records.old) (items_of records.new) × (next.new ≡ next.old)) }
    ensures asks { IsSomeAnd (item_at (items_of records.old) number) (λ item.
        Asks D.CONTEXTS D.seen device.old device.new (context_save_command item.handle) result) }
{
    let record = &mut records[number];
    let context = save(device, record.handle, &mut record.context, scratch)?;
    record.place = Place::Saved(context);
    *next = context.saturating_add(1);
    Ok(())
}

// The bytes of a context.
fn bytes_of(context: &[u8]) -> &[u8]
    ensures same { result.now ≡ context.now }
    ensures bytes { AreBytes result.now }
{
    context
}

/// Loads a saved session, by its number.
pub fn bring_in<D: Device>(
    records: &mut [Record],
    next: u64,
    number: usize,
    device: &mut D,
    scratch: &mut Buffer,
) -> Result<(), SwapError>
    requires saved { is_saved_item (item_at (items_of records.old) number) ≡ true }
    requires ready { (numbers : Numbers)
        × Ready D.CONTEXTS (D.seen device.old).state numbers records.old next [] }
    requires place { HasPlace (D.seen device.old).state }
    ensures swaps { Swaps D.seen device.old device.new records.old records.new }
    ensures ready { (numbers : Numbers)
        → Ready D.CONTEXTS (D.seen device.old).state numbers records.old next []
        → Ready D.CONTEXTS (D.seen device.new).state numbers records.new next [] }
    ensures ok { OnOk result (Loads (D.seen device.old).state (D.seen device.new).state
        (items_of records.old) (items_of records.new) number) }
    ensures err { OnErr result (NothingMoves (D.seen device.old).state (D.seen device.new).state
        (items_of records.old) (items_of records.new)) }
    ensures asks { IsSomeAnd (item_at (items_of records.old) number) (λ item. IsSomeAnd item.saved
        (λ saved. Asks D.CONTEXTS D.seen device.old device.new (context_load_command saved.context)
        result)) }
{
    let record = &mut records[number];
    load(device, record.handle, bytes_of(&record.context), scratch)?;
    record.place = Place::Loaded;
    Ok(())
}
