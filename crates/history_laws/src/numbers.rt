ghost use Rattle.std.specs.Prelude.{◌≤◌, ◌+◌, ◌*◌, ℕ, List};
ghost use Rattle.history_spec.specs.declared.TheConstants.{ENTRY_BYTES, JOURNAL_MOST};
ghost use Rattle.history_spec.specs.Entry.{Entry, HasRoomForClient, reserved};

/// A journal that keeps its entries has room for one more client where it has the bytes: there is
/// always a number left then.
pub fn kept_journals_have_numbers()
    ensures { (limit : ℕ) (history : List Entry) → limit ≤ JOURNAL_MOST
        → reserved history + 2 * ENTRY_BYTES ≤ limit → HasRoomForClient limit history }
{}
