//! Worked examples: what the definitions of `broker_core` make of them, and what they refuse.

ghost use Rattle.std.specs.Prelude.{◌≡◌, [], ◌∷◌, true, false, Some, None, Ok, Err, replicate, set};
ghost use Rattle.tab_examples.specs.Examples.{bytes_of, frame};
ghost use Rattle.tab_spec.specs.declared.contexts.TheConstants.{PROFILE_CONTEXTS};
ghost use Rattle.device_examples.specs.Examples.{device_at};
ghost use Rattle.device_spec.specs.Slots.{with_slot};
ghost use Rattle.history_spec.specs.Examples.{two_clients, zero_persist};
ghost use Rattle.world_examples.specs.Examples.{a_key, begun_policy, first_context};
ghost use Rattle.world_spec.specs.World.{load_parameters, world_of};
ghost use Rattle.broker_tests.specs.Examples.{asked, first_table, handed_session, handed_sessions};
ghost use Rattle.broker_tests.specs.Examples.{held_beside, held_with, left_sessions};
ghost use Rattle.broker_tests.specs.Examples.{nobodys_session};
ghost use Rattle.broker_tests.specs.Examples.{one_session_world, second_table, three_items};
ghost use Rattle.broker_tests.specs.Examples.{two_session_device, two_sessions};
ghost use Rattle.client_machine.specs.Listing.{sessions_had};
ghost use Rattle.client_machine.specs.Moves.{told_sequence};
ghost use Rattle.client_machine.specs.Replies.{given_back, own_capability, with_given};
ghost use Rattle.client_machine.specs.Replies.{without_given};
ghost use Rattle.client_machine.specs.Settled.{AreBelow, IsSettled, orphan_count, sessions_in};
ghost use Rattle.broker_core.specs.Stands.{Stands};
ghost use Rattle.client_machine.specs.Tables.{AreOpenOwners, IsTable, device_handle, flush_sent};
ghost use Rattle.client_machine.specs.Tables.{flushed_sessions, flushed_table, owned_handles};
ghost use Rattle.client_machine.specs.Tables.{tables_had, tables_seen};
ghost use Rattle.broker_core.specs.Tables.{ListsStand};

use broker_core::Broker;
use device_port::Device;

// After all clients were closed.
fn a_device_stands_for_a_world()
    ensures at_its_place { Stands (world_of (zero_persist 0) 64 two_clients)
        (device_at 5) ([] ∷ [] ∷ []) (held_with [] []) 7 }
    ensures behind { Stands (world_of (zero_persist 0) 64 two_clients)
        (device_at 4) ([] ∷ [] ∷ []) (held_with [] []) 7
        → ⊥ }
    ensures nobodys_object { IsSettled (with_slot (device_at 5) 0 (Some a_key)) (held_with [] [])
        → ⊥ }
    ensures nobodys_session { IsSettled two_session_device (held_with [] []) → ⊥ }
{}

// A client's session stands for the world's, and an orphan for none.
fn sessions_stand_for_those_of_the_world()
    ensures seen { sessions_in two_session_device two_sessions ≡ Some (begun_policy 0) ∷ None ∷ [] }
    ensures stand { Stands one_session_world
        two_session_device ([] ∷ [] ∷ []) (held_with [] two_sessions) 2 }
    ensures counted { orphan_count (held_beside three_items two_sessions) ≡ 2 }
    ensures present { AreOpenOwners (0 ∷ []) two_sessions }
    ensures closed { AreOpenOwners (1 ∷ []) two_sessions → ⊥ }
    ensures own { (tables_seen PROFILE_CONTEXTS 0 first_table two_sessions).has_session 0x03000000
        ≡ true }
    ensures others { (tables_seen PROFILE_CONTEXTS 1 second_table two_sessions).has_session
        0x03000000 ≡ false }
    ensures nobodys { (tables_seen PROFILE_CONTEXTS 0 first_table two_sessions).has_session
        0x02000001 ≡ false }
    ensures other_sort { (tables_seen PROFILE_CONTEXTS 0 first_table two_sessions).has_session
        0x02000000 ≡ false }
{}

// A session that a client saved is its own, and it can't use it.
#[tactic(auto, unfolding(client_machine::specs::Listing::sessions_had))]
fn saved_sessions_are_not_in_use()
    ensures saved { (tables_seen PROFILE_CONTEXTS 0 first_table handed_sessions).has_session
        0x02000000 ≡ false }
    ensures used { (tables_seen PROFILE_CONTEXTS 0 first_table handed_sessions).has_session
        0x03000002 ≡ true }
    ensures own { (tables_had 0 first_table handed_sessions).has_session 0x02000000 ≡ true }
    ensures others { (tables_had 1 second_table handed_sessions).has_session 0x02000000 ≡ false }
    ensures flushed { flush_sent (tables_had 0 first_table handed_sessions) first_table three_items
        (Ok 0x02000000)
        ≡ Some 0x02000000 }
    ensures listed { sessions_had 0 handed_sessions ≡ record { handle = 0x02000000; in_use = false }
        ∷ record { handle = 0x03000002; in_use = true } ∷ [] }
    ensures none { sessions_had 1 handed_sessions ≡ [] }
{}

// It is in use again where its context is given back: the very bytes that were handed out, by the
// client that saved it, and once.
fn contexts_are_given_back()
    ensures given { given_back 0 handed_sessions first_context (load_parameters first_context)
        ≡ Ok 0x02000000 }
    ensures others { given_back 1 handed_sessions first_context (load_parameters first_context)
        ≡ Err 0x1cb }
    ensures unused { given_back 0 two_sessions first_context (load_parameters first_context)
        ≡ Err 0x1cb }
    ensures changed { given_back 0 handed_sessions (set first_context 7 1)
        (load_parameters (set first_context 7 1))
        ≡ Err 0x1cb }
    ensures again { given_back 0 (with_given 0 handed_sessions (Ok 0x02000000)) first_context
        (load_parameters first_context) ≡ Err 0x1cb }
    ensures other_handle { given_back 0 handed_sessions (set first_context 8 4)
        (load_parameters (set first_context 8 4))
        ≡ Err 0x1c4 }
    ensures short { given_back 0 handed_sessions [] (load_parameters []) ≡ Err 0x1da }
    ensures left { with_given 0 handed_sessions (Ok 0x02000000) ≡ set handed_sessions 0
        (Some (record handed_session { handed = None })) }
{}

// A session that its client left is nobody's, and no orphan: it counts as active. Whoever gives
// back its context gets it, and has it in use.
#[tactic(auto, unfolding(crate::proofs::Computing::lists))]
fn left_sessions_are_taken_up()
    ensures held { owned_handles left_sessions
        ≡ Some (None, 0x02000000, Some first_context) ∷ None ∷ [] }
    ensures orphans { orphan_count (held_with [] left_sessions) ≡ 1 }
    ensures active { own_capability (zero_persist 0) 0 first_table
        (held_with [] left_sessions).sessions (asked 6 0x206 1)
        ≡ Ok (bytes_of 17 0x010000000600000001000002060000003f) }
    ensures listed { sessions_had 0 left_sessions ≡ [] }
    ensures own { (tables_had 0 first_table left_sessions).has_session 0x02000000 ≡ false }
    ensures given { given_back 1 left_sessions first_context (load_parameters first_context)
        ≡ Ok 0x02000000 }
    ensures changed { given_back 1 left_sessions (set first_context 7 1)
        (load_parameters (set first_context 7 1))
        ≡ Err 0x1cb }
    ensures taken { with_given 1 left_sessions (Ok 0x02000000) ≡ set left_sessions 0
        (Some (record handed_session { client = Some 1; handed = None })) }
    ensures listed_no_more { without_given (2 ∷ 0 ∷ []) (Ok 0x02000000) ≡ 2 ∷ [] }
    ensures third { given_back 2 (with_given 1 left_sessions (Ok 0x02000000)) first_context
        (load_parameters first_context) ≡ Err 0x1cb }
{}

// The lists of GetCapability, with the bytes of Part 2, "TPML_HANDLE" and
// "TPML_TAGGED_TPM_PROPERTY".
#[tactic(auto, unfolding(crate::proofs::Computing::lists))]
fn a_client_is_told_what_it_has()
    ensures objects { own_capability (zero_persist 0) 0 first_table
        (held_with [] two_sessions).sessions (asked 1 0x80000000 8)
        ≡ Ok (bytes_of 17 0x0000000001000000028000000080000002) }
    ensures used { own_capability (zero_persist 0) 0 first_table
        (held_with [] handed_sessions).sessions (asked 1 0x02000000 8)
        ≡ Ok (bytes_of 13 0x00000000010000000103000002) }
    ensures saved { own_capability (zero_persist 0) 0 first_table
        (held_with [] handed_sessions).sessions (asked 1 0x03000000 8)
        ≡ Ok (bytes_of 13 0x00000000010000000102000000) }
    ensures active { own_capability (zero_persist 0) 0 first_table
        (held_with [] handed_sessions).sessions (asked 6 0x205 1)
        ≡ Ok (bytes_of 17 0x0100000006000000010000020500000002) }
    ensures more { own_capability (zero_persist 0) 0 first_table
        (held_with [] two_sessions).sessions []
        ≡ Err 0x1da }
{}

// The next context that a device makes is under no less a sequence than may be handed out.
fn sequences_are_below_the_numbers_of_a_device()
    ensures below { AreBelow (record { object = 0; session = 0 }) (device_at 5) }
    ensures objects { AreBelow (record { object = 1; session = 0 }) (device_at 5) → ⊥ }
    ensures sessions { AreBelow (record { object = 0; session = 1 }) (device_at 5) → ⊥ }
    ensures told { told_sequence (frame 0x8001 0 first_context) ≡ 0 }
    ensures other { told_sequence (frame 0x8001 0 (set first_context 7 9)) ≡ 9 }
{}

fn a_handle_is_that_of_the_slot()
    ensures in_a_slot { device_handle first_table three_items 0x80000000 ≡ 0x80000001 }
    ensures other_client { device_handle second_table three_items 0x80000000 ≡ 0x80000000 }
    ensures plain { device_handle first_table three_items 0x40000001 ≡ 0x40000001 }
{}

fn what_is_named_is_flushed()
    ensures flushed { flush_sent (tables_had 0 first_table two_sessions) first_table three_items
        (Ok 0x80000000)
        ≡ Some 0x80000001 }
    ensures in_a_context { flush_sent (tables_had 0 first_table two_sessions) first_table
        three_items (Ok 0x80000002)
        ≡ None }
    ensures left { flushed_table (tables_had 0 first_table two_sessions) first_table (Ok 0x80000002)
        ≡ Some 1 ∷ None ∷ None ∷ [] }
    ensures nothing { flushed_table (tables_had 0 first_table two_sessions) first_table
        (Ok 0x80000001)
        ≡ first_table }
    ensures session { flush_sent (tables_had 0 first_table two_sessions) first_table three_items
        (Ok 0x03000000)
        ≡ Some 0x03000000 }
    ensures ended { flushed_sessions (tables_had 0 first_table two_sessions) two_sessions
        (Ok 0x03000000)
        ≡ None ∷ Some nobodys_session ∷ [] }
    ensures others { flush_sent (tables_had 1 second_table two_sessions) second_table three_items
        (Ok 0x03000000)
        ≡ None }
    ensures kept { flushed_sessions (tables_had 1 second_table two_sessions) two_sessions
        (Ok 0x03000000)
        ≡ two_sessions }
{}

fn tables_name_the_objects_of_their_clients()
    ensures own { IsTable three_items 0 first_table }
    ensures others { IsTable three_items 1 first_table → ⊥ }
    ensures twice { IsTable three_items 0 (Some 1 ∷ Some 1 ∷ []) → ⊥ }
    ensures missing { IsTable three_items 0 (Some 3 ∷ []) → ⊥ }
    ensures long { IsTable three_items 0 (replicate 4097 None) → ⊥ }
    ensures unnamed { IsTable three_items 0 (Some 1 ∷ []) → ⊥ }
{}

// The client 1 is open, and the client 0 is closed.
fn lists_are_those_of_open_clients()
    ensures stand { ListsStand (1 ∷ []) (0 ∷ 1 ∷ []) (None ∷ Some 1 ∷ []) }
    ensures closed { ListsStand (1 ∷ []) (0 ∷ 1 ∷ []) (Some 0 ∷ Some 1 ∷ []) → ⊥ }
    ensures twice { ListsStand (1 ∷ []) (0 ∷ 1 ∷ []) (Some 1 ∷ Some 1 ∷ []) → ⊥ }
    ensures none { ListsStand (1 ∷ []) (0 ∷ 1 ∷ []) (None ∷ None ∷ []) → ⊥ }
{}

fn crosses<B: Send>() {}

// A broker goes to another thread where its device does.
fn broker_crosses<D: Device + Send>() {
    crosses::<Broker<D>>();
}
