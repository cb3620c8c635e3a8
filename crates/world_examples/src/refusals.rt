//! Histories that are wrong in one entry, and choices that a device can't make.

ghost use Rattle.std.specs.Prelude.{◌≡◌, ◌∷◌, [], Some, None};
ghost use Rattle.tab_spec.specs.Count.{largest_count};
ghost use Rattle.tab_examples.specs.Examples.{sealed};
ghost use Rattle.history_spec.specs.declared.Pick.TheVariants.{Nothing, Sequence};
ghost use Rattle.history_spec.specs.Entry.{close_entry, fault_entry, open_entry};
ghost use Rattle.world_spec.specs.Legal.{Legal};
ghost use Rattle.world_spec.specs.World.{client_step, handed_step, object_handed, object_opened};
ghost use Rattle.world_spec.specs.World.{plain_step};
ghost use Rattle.history_spec.specs.Examples.{canceled_before, eight_reply, failed_entry};
ghost use Rattle.history_spec.specs.Examples.{get_random, memory_reply, plain_entry, zero_persist};
ghost use Rattle.world_examples.specs.Examples.{a_key, ask, first_context, handle_reply, state_with};
ghost use Rattle.world_examples.specs.Examples.{told_list, world_handed};

// No command is entered of a client that isn't open: it wasn't opened yet, or it is closed.
fn only_open_clients_have_commands()
    ensures command { Legal (zero_persist 0) 64
        (plain_entry 0 1 (get_random 8) eight_reply ∷ []) → ⊥ }
    ensures another { Legal (zero_persist 0) 64
        (open_entry 0 ∷ plain_entry 1 1 (get_random 8) eight_reply ∷ []) → ⊥ }
    ensures closed { Legal (zero_persist 0) 64
        (open_entry 0 ∷ close_entry 0 ∷ plain_entry 0 1 (get_random 8) eight_reply ∷ []) → ⊥ }
    ensures cancel { Legal (zero_persist 0) 64 (canceled_before 1 1 ∷ []) → ⊥ }
    ensures cancel_closed { Legal (zero_persist 0) 64
        (open_entry 0 ∷ close_entry 0 ∷ canceled_before 1 1 ∷ []) → ⊥ }
    ensures fault { Legal (zero_persist 0) 64 (failed_entry 1 1 ∷ []) → ⊥ }
    ensures fault_closed { Legal (zero_persist 0) 64
        (open_entry 0 ∷ close_entry 0 ∷ failed_entry 1 1 ∷ []) → ⊥ }
{}

// A client is opened once, and then closed once.
fn only_open_clients_are_closed()
    ensures close { Legal (zero_persist 0) 64 (close_entry 0 ∷ []) → ⊥ }
    ensures twice { Legal (zero_persist 0) 64
        (open_entry 0 ∷ close_entry 0 ∷ close_entry 0 ∷ []) → ⊥ }
    ensures close_another { Legal (zero_persist 0) 64 (open_entry 0 ∷ close_entry 1 ∷ []) → ⊥ }
    ensures opened_again { Legal (zero_persist 0) 64 (open_entry 0 ∷ open_entry 0 ∷ []) → ⊥ }
{}

// Numbers begin with 1, and rise over all three kinds of entry that have one.
fn numbers_rise_from_1()
    ensures zero { Legal (zero_persist 0) 64
        (open_entry 0 ∷ plain_entry 0 0 (get_random 8) eight_reply ∷ []) → ⊥ }
    ensures zero_cancel { Legal (zero_persist 0) 64 (open_entry 0 ∷ canceled_before 0 1 ∷ []) → ⊥ }
    ensures zero_fault { Legal (zero_persist 0) 64 (open_entry 0 ∷ failed_entry 0 1 ∷ []) → ⊥ }
    ensures cancel_twice { Legal (zero_persist 0) 64
        (open_entry 0 ∷ canceled_before 1 1 ∷ canceled_before 1 1 ∷ []) → ⊥ }
    ensures fault_twice { Legal (zero_persist 0) 64
        (open_entry 0 ∷ failed_entry 1 1 ∷ failed_entry 1 2 ∷ []) → ⊥ }
    ensures after_a_fault { Legal (zero_persist 0) 64
        (open_entry 0 ∷ failed_entry 1 1 ∷ plain_entry 0 1 (get_random 8) eight_reply ∷ []) → ⊥ }
    ensures after_a_cancel { Legal (zero_persist 0) 64
        (open_entry 0 ∷ canceled_before 1 1 ∷ plain_entry 0 1 (get_random 8) eight_reply ∷ []) → ⊥ }
    ensures gap { Legal (zero_persist 0) 64
        (open_entry 0 ∷ failed_entry 2 1 ∷ failed_entry 7 2 ∷ []) }
{}

// A fault is told DEVICE_FAULT and nothing else. A count at the end of its type stays.
fn faults_have_one_reply()
    ensures other { Legal (zero_persist 0) 64
        (open_entry 0 ∷ fault_entry 0 1 1 (get_random 8) memory_reply ∷ []) → ⊥ }
    ensures success { Legal (zero_persist 0) 64
        (open_entry 0 ∷ fault_entry 0 1 1 (get_random 8) eight_reply ∷ []) → ⊥ }
    ensures falls { Legal (zero_persist 0) 64
        (open_entry 0 ∷ failed_entry 1 2 ∷ failed_entry 2 1 ∷ []) → ⊥ }
    ensures largest { Legal (zero_persist 0) 64
        (open_entry 0 ∷ failed_entry 1 largest_count ∷ failed_entry 2 largest_count ∷ []) }
{}

// Contexts of objects and of sessions have sequences of their own, and each is handed out once.
fn sequences_are_of_one_sort()
    ensures object { object_handed (record (state_with []) { object_sequence = 5 }) (Some a_key) 4
        ≡ None }
    ensures object_twice { object_handed (record (state_with []) { object_sequence = 1 })
        (Some a_key) 0
        ≡ None }
    ensures too_high { object_handed (state_with []) (Some a_key) 4611686018427387904 ≡ None }
    ensures session { handed_step 0 (record (state_with []) { object_sequence = 9 }) 0x02000000 0
        ≡ None }
{}

// An object that is loaded gets the least number that is free, and the reply tells it.
fn loaded_objects_get_a_number()
    ensures first { object_opened (state_with []) (Some sealed)
        ≡ (state_with (Some sealed ∷ []), handle_reply 0x80000000) }
    ensures second { object_opened (state_with (Some a_key ∷ [])) (Some sealed)
        ≡ (state_with (Some a_key ∷ Some sealed ∷ []), handle_reply 0x80000001) }
    ensures between { object_opened (state_with (Some a_key ∷ None ∷ Some a_key ∷ [])) (Some sealed)
        ≡ (state_with (Some a_key ∷ Some sealed ∷ Some a_key ∷ []), handle_reply 0x80000001) }
{}

// Sessions in use are listed under one octet, and saved ones under the other.
#[tactic(auto, unfolding(crate::proofs::Computing::steps))]
fn saved_sessions_are_not_in_use()
    ensures in_use { plain_step (world_handed 1 None) 0 (ask 1 0x02000000 8) Nothing
        ≡ Some (world_handed 1 None, told_list 0 1 1 (0x02 ∷ 0 ∷ 0 ∷ 0 ∷ [])) }
    ensures not_saved { plain_step (world_handed 1 None) 0 (ask 1 0x03000000 8) Nothing
        ≡ Some (world_handed 1 None, told_list 0 1 0 []) }
    ensures saved { plain_step (world_handed 1 (Some first_context)) 0 (ask 1 0x02000000 8) Nothing
        ≡ Some (world_handed 1 (Some first_context), told_list 0 1 0 []) }
{}
