//! Worked examples: what the definitions make of them, and what they refuse.

ghost use Rattle.std.specs.Prelude.{◌≡◌, [], ◌∷◌, ◌++◌, true, false, Some, None, Ok, Err};
ghost use Rattle.history_spec.specs.Entry.{open_entry};
ghost use Rattle.broker_lock.specs.declared.calls.Job.TheVariants as jobs;
ghost use Rattle.broker_lock.specs.declared.calls.Closed.TheVariants as closes;
ghost use Rattle.broker_lock.specs.declared.calls.OpenClientError.TheVariants as open_errors;
ghost use Rattle.connection_tests.specs.Turns.{failed_entry, three_clients, two_clients};
ghost use Rattle.connection_tests.specs.Turns.{with_limit};
ghost use Rattle.broker_lock.specs.Known.{Origin, has_closed, knows, of_known};
ghost use Rattle.broker_lock.specs.Pass.{MayAsk};
ghost use Rattle.broker_lock.specs.Serves.{IsFailed, MayLeave, Opens};

fn a_pass_knows_clients()
    ensures open { knows two_clients 0 ≡ true }
    ensures closed { knows two_clients 1 ≡ true }
    ensures unknown { knows two_clients 2 ≡ false }
    ensures has_closed { has_closed two_clients 1 ≡ true }
    ensures has_not_closed { has_closed two_clients 0 ≡ false }
    ensures of_two { of_known two_clients three_clients ≡ two_clients }
    ensures of_one { of_known (open_entry 2 ∷ []) three_clients ≡ open_entry 2 ∷ [] }
    ensures of_nobody { of_known [] three_clients ≡ [] }
{}

// The next number and none before it, of clients that are known and not closed.
fn a_pass_asks_for_its_clients()
    ensures next { MayAsk two_clients (jobs.Command 0 2) }
    ensures later { MayAsk two_clients (jobs.Command 0 7) }
    ensures again { MayAsk two_clients (jobs.Command 0 1) → ⊥ }
    ensures zero { MayAsk (open_entry 2 ∷ []) (jobs.Command 2 0) → ⊥ }
    ensures one { MayAsk (open_entry 2 ∷ []) (jobs.Command 2 1) }
    ensures of_closed { MayAsk two_clients (jobs.Command 1 2) → ⊥ }
    ensures of_another { MayAsk two_clients (jobs.Command 2 1) → ⊥ }
    ensures canceled { MayAsk two_clients (jobs.Cancel 0 2 2) }
    ensures canceled_with_later { MayAsk two_clients (jobs.Cancel 0 2 7) }
    ensures not_canceled { MayAsk two_clients (jobs.Cancel 0 2 1) → ⊥ }
    ensures canceled_again { MayAsk two_clients (jobs.Cancel 0 1 1) → ⊥ }
    ensures close { MayAsk two_clients (jobs.Close 0) }
    ensures close_again { MayAsk two_clients (jobs.Close 1) → ⊥ }
    ensures close_another { MayAsk two_clients (jobs.Close 2) → ⊥ }
{}

// 388 bytes are kept, and 128 for the closes of two clients.
fn a_client_needs_room()
    ensures opened { Opens (with_limit None 644) three_clients (three_clients ++ open_entry 3 ∷ [])
        (Ok 3) }
    ensures a_byte_less { Opens (with_limit None 643) three_clients
        (three_clients ++ open_entry 3 ∷ []) (Ok 3) → ⊥ }
    ensures full { Opens (with_limit None 643) three_clients three_clients
        (Err (open_errors.JournalFull 388 643)) }
    ensures not_full { Opens (with_limit None 644) three_clients three_clients
        (Err (open_errors.JournalFull 388 644)) → ⊥ }
    ensures another { Opens (with_limit None 644) three_clients
        (three_clients ++ open_entry 1 ∷ []) (Ok 1) → ⊥ }
    ensures untold { Opens (with_limit None 644) [] [] (Err open_errors.Answer) }
    ensures told { (base : Origin) → Opens (with_limit (Some base) 644) [] []
        (Err open_errors.Answer) → ⊥ }
{}

fn a_failure_is_counted()
    ensures fourth { IsFailed 3 0 2 (5 ∷ []) (failed_entry 4) }
    ensures third { IsFailed 3 0 2 (5 ∷ []) (failed_entry 3) → ⊥ }
    ensures another_command { IsFailed 3 0 2 (6 ∷ []) (failed_entry 4) → ⊥ }
{}

fn a_close_leaves_something_or_nothing()
    ensures clean { MayLeave (with_limit None 644) closes.Clean }
    ensures one { MayLeave (with_limit None 644) (closes.Orphans 1) }
    ensures none { MayLeave (with_limit None 644) (closes.Orphans 0) → ⊥ }
    ensures untold { MayLeave (with_limit None 644) closes.Answer }
    ensures told { (base : Origin) → MayLeave (with_limit (Some base) 644) closes.Answer → ⊥ }
{}
