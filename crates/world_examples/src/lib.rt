//! Worked examples of `world_spec`: what the definitions make of histories, and what they refuse.
#![tactic(auto)]

mod contexts;
mod left;
mod refusals;
mod sessions;

ghost use Rattle.std.specs.Prelude.{◌≡◌, ◌+◌, ◌*◌, [], ◌∷◌, ◌++◌, codes, take, replicate, true};
ghost use Rattle.std.specs.Prelude.{false, Some, None};
ghost use Rattle.tab_spec.specs.declared.TheConstants.{CC_FLUSH_CONTEXT, CC_STARTUP, RS_PW};
ghost use Rattle.tab_spec.specs.Commands.{startup_command};
ghost use Rattle.tab_examples.specs.Examples.{refusal, flush, frame, sealed, area, plain_auth, extend};
ghost use Rattle.tab_examples.specs.Examples.{one_digest, read_pcrs, extend_reply, pcr_7_reply};
ghost use Rattle.history_spec.specs.declared.Pick.TheVariants.{Nothing, Session};
ghost use Rattle.history_spec.specs.Entry.{canceled_entry, open_entry, own, kept};
ghost use Rattle.world_spec.specs.World.{made_step, new_client, plain_step, world_of};
ghost use Rattle.effect_spec.specs.Operands.{new_object};
ghost use Rattle.history_spec.specs.Table.{is_full};
ghost use Rattle.world_spec.specs.Legal.{Legal};
ghost use Rattle.history_spec.specs.Told.{MayBeTold};
ghost use Rattle.history_spec.specs.Examples.{get_random, full_reply, zero_persist, eight_reply};
ghost use Rattle.history_spec.specs.Examples.{six_reply, four_reply, canceled_reply};
ghost use Rattle.history_spec.specs.Examples.{canceled_before, canceled_first, plain_entry};
ghost use Rattle.history_spec.specs.Examples.{failed_entry, two_clients, limit_of};
ghost use Rattle.world_examples.specs.Examples.{world_with, new_world, extended_world, left_with};
ghost use Rattle.world_examples.specs.Examples.{step_of, read_public, tells_public, a_key, state_with};
ghost use Rattle.world_examples.specs.Examples.{three_places, many_objects, two_tables, one_table};
ghost use Rattle.world_examples.specs.Examples.{world_tells, create_key, start_session};

// The words that the clients drew, who was opened, and who is open still.
fn a_history_makes_a_world()
    ensures whole { world_of (zero_persist 0) 64 two_clients ≡ world_with (zero_persist 5) 2 ([]) }
    ensures front { world_of (zero_persist 0) 64 (take 5 two_clients)
        ≡ world_with (zero_persist 5) 2 (new_client 0 ∷ new_client 1 ∷ []) }
    ensures first { world_of (zero_persist 0) 64 (take 2 two_clients)
        ≡ world_with (zero_persist 2) 1 (new_client 0 ∷ []) }
    ensures second { world_of (zero_persist 0) 64 (take 4 two_clients)
        ≡ world_with (zero_persist 4) 2 (new_client 0 ∷ new_client 1 ∷ []) }
{}

fn a_history_is_legal()
    ensures { Legal (zero_persist 0) 64 two_clients }
{}

fn refused_commands_change_nothing()
    ensures bad_tag { plain_step new_world
        0 (0x80 ∷ 0x03 ∷ 0 ∷ 0 ∷ 0 ∷ 0x0a ∷ 0 ∷ 0 ∷ 0x01 ∷ 0x7b ∷ []) Nothing
        ≡ Some (new_world, 0x00 ∷ 0xc4 ∷ 0 ∷ 0 ∷ 0 ∷ 0x0a ∷ 0 ∷ 0 ∷ 0 ∷ 0x1e ∷ []) }
    ensures command_code { plain_step new_world
        0 (0x80 ∷ 0x01 ∷ 0 ∷ 0 ∷ 0 ∷ 0x0a ∷ 0 ∷ 0 ∷ 0x01 ∷ 0xff ∷ []) Nothing
        ≡ Some (new_world, 0x80 ∷ 0x01 ∷ 0 ∷ 0 ∷ 0 ∷ 0x0a ∷ 0 ∷ 0 ∷ 0x01 ∷ 0x43 ∷ []) }
    ensures startup { plain_step new_world 0 startup_command Nothing
        ≡ Some (new_world, refusal 0x01 0x00) }
    ensures cut_startup { plain_step new_world 0 (frame 0x8001 CC_STARTUP []) Nothing
        ≡ Some (new_world, refusal 0x01 0x00) }
    ensures startup_with_an_area { plain_step new_world 0
        (frame 0x8002 CC_STARTUP (area (plain_auth RS_PW))) Nothing
        ≡ Some (new_world, refusal 0x01 0x45) }
    ensures a_pick { plain_step new_world 0 (get_random 8) (Session 1) ≡ None }
{}

// What one client extends another reads.
fn clients_share_the_pcrs()
    ensures extended { plain_step new_world 0
        (extend (plain_auth RS_PW) (one_digest (replicate 32 0))) Nothing
        ≡ Some (extended_world, extend_reply) }
    ensures read { plain_step extended_world 1 (read_pcrs (0x80 ∷ 0 ∷ 0 ∷ [])) Nothing
        ≡ Some (extended_world, pcr_7_reply) }
{}

// Each client's handle is of its own table.
#[tactic(auto, unfolding(crate::proofs::Computing::steps))]
fn clients_have_tables_of_their_own()
    ensures key { tells_public a_key
        (step_of (Some a_key ∷ Some sealed ∷ []) (read_public 0x80000000))
        ≡ true }
    ensures sealed { tells_public sealed
        (step_of (Some a_key ∷ Some sealed ∷ []) (read_public 0x80000001))
        ≡ true }
    ensures another_client { tells_public sealed
        (step_of (Some sealed ∷ []) (read_public 0x80000000))
        ≡ true }
    ensures nobodys { step_of [] (read_public 0x80000000) ≡ left_with [] (refusal 0x09 0x10) }
    ensures freed { step_of three_places (read_public 0x80000001)
        ≡ left_with three_places (refusal 0x09 0x10) }
    ensures past_the_end { step_of three_places (read_public 0x80000003)
        ≡ left_with three_places (refusal 0x09 0x10) }
{}

// Two clients have one handle for two objects, and what one of them flushes the other keeps.
#[tactic(auto, unfolding(crate::proofs::Computing::steps))]
fn one_handle_is_two_objects()
    ensures first { world_tells a_key (plain_step two_tables 0 (read_public 0x80000000) Nothing)
        ≡ true }
    ensures second { world_tells sealed (plain_step two_tables 1 (read_public 0x80000000) Nothing)
        ≡ true }
    ensures flushed { plain_step two_tables 1 (flush 0x80000000) Nothing
        ≡ Some (one_table, 0x80 ∷ 0x01 ∷ 0 ∷ 0 ∷ 0 ∷ 0x0a ∷ 0 ∷ 0 ∷ 0 ∷ 0 ∷ []) }
    ensures kept { world_tells a_key (plain_step one_table 0 (read_public 0x80000000) Nothing)
        ≡ true }
    ensures gone { plain_step one_table 1 (read_public 0x80000000) Nothing
        ≡ Some (one_table, refusal 0x09 0x10) }
{}

// FlushContext takes an object out of the table, and refuses what isn't there.
#[tactic(auto, unfolding(crate::proofs::Computing::steps))]
fn objects_are_flushed()
    ensures flushed { step_of three_places (flush 0x80000002)
        ≡ left_with
        (Some a_key ∷ None ∷ None ∷ []) (0x80 ∷ 0x01 ∷ 0 ∷ 0 ∷ 0 ∷ 0x0a ∷ 0 ∷ 0 ∷ 0 ∷ 0 ∷ []) }
    ensures nothing { step_of [] (flush 0x80000005) ≡ left_with [] (refusal 0x01 0xcb) }
    ensures freed { step_of three_places (flush 0x80000001)
        ≡ left_with three_places (refusal 0x01 0xcb) }
    ensures session { step_of three_places (flush 0x02000000)
        ≡ left_with three_places (refusal 0x01 0xcb) }
    ensures policy_session { step_of [] (flush 0x03000000) ≡ left_with [] (refusal 0x01 0xcb) }
    ensures hierarchy { step_of three_places (flush 0x40000001)
        ≡ left_with three_places (refusal 0x01 0xc4) }
    ensures persistent { step_of three_places (flush 0x81000000)
        ≡ left_with three_places (refusal 0x01 0xc4) }
    ensures cut { step_of three_places (frame 0x8001 CC_FLUSH_CONTEXT (0x80 ∷ 0 ∷ 0 ∷ []))
        ≡ left_with three_places (refusal 0x01 0xda) }
{}

// A new object gets the least number that is free.
fn numbers_are_given_again()
    ensures between { made_step 0 (state_with three_places) (new_object sealed)
        (replicate 14 0) Nothing
        ≡ left_with (Some a_key ∷ Some sealed ∷ Some sealed ∷ [])
        (replicate 10 0 ++ 0x80 ∷ 0 ∷ 0 ∷ 1 ∷ []) }
    ensures behind { made_step 0 (state_with (Some a_key ∷ [])) (new_object sealed)
        (replicate 14 0) Nothing
        ≡ left_with (Some a_key ∷ Some sealed ∷ []) (replicate 10 0 ++ 0x80 ∷ 0 ∷ 0 ∷ 1 ∷ []) }
    ensures first { made_step 0 (state_with []) (new_object sealed) (replicate 14 0) Nothing
        ≡ left_with (Some sealed ∷ []) (replicate 10 0 ++ 0x80 ∷ 0 ∷ 0 ∷ 0 ∷ []) }
{}

// A client has 4,096 objects at most, and another one is refused.
#[tactic(auto, unfolding(crate::proofs::Computing::steps))]
fn clients_have_a_limit()
    ensures refused { step_of (many_objects 4096) create_key
        ≡ left_with (many_objects 4096) (refusal 0x09 0x02) }
    ensures full { is_full (many_objects 4096) ≡ true }
    ensures one_left { is_full (None ∷ many_objects 4095) ≡ false }
{}

fn a_number_is_used_once()
    ensures { Legal (zero_persist 0) 64 (open_entry 0 ∷ plain_entry 0 1 (get_random 8) eight_reply
        ∷ plain_entry 0 1 (get_random 6) six_reply ∷ [])
        → ⊥ }
{}

fn the_first_client_is_0()
    ensures { Legal (zero_persist 0) 64 (open_entry 1 ∷ []) → ⊥ }
{}

// The right reply with another last byte.
fn a_reply_is_that_of_the_machine()
    ensures right { Legal (zero_persist 4) 64
        (open_entry 0 ∷ plain_entry 0 1 (get_random 4) four_reply ∷ []) }
    ensures wrong { Legal (zero_persist 4) 64
        (open_entry 0 ∷ plain_entry 0 1 (get_random 4) (take 15 four_reply ++ 0xb9 ∷ []) ∷ [])
        → ⊥ }
{}

// Where no session may be active, the first one is refused; where 64 may, it isn't.
fn histories_have_a_limit_of_sessions()
    ensures none { Legal (zero_persist 0) 0
        (open_entry 0 ∷ plain_entry 0 1 (start_session 1) (refusal 0x09 0x05) ∷ []) }
    ensures many { Legal (zero_persist 0) 64
        (open_entry 0 ∷ plain_entry 0 1 (start_session 1) (refusal 0x09 0x05) ∷ []) → ⊥ }
{}

// A canceled command changes nothing, and its number is at most the one up to which commands were
// canceled.
fn commands_are_canceled()
    ensures legal { Legal (zero_persist 4) 64 canceled_first }
    ensures world { world_of (zero_persist 4) 64 (take 2 canceled_first)
        ≡ world_with (zero_persist 4) 1 (new_client 0 ∷ []) }
    ensures told { MayBeTold canceled_first (limit_of 8192) 0 1 (get_random 8) canceled_reply }
    ensures above { Legal (zero_persist 0) 64 (open_entry 0 ∷ canceled_before 1 2 ∷ []) }
    ensures below { Legal (zero_persist 0) 64 (open_entry 0 ∷ canceled_before 2 1 ∷ []) → ⊥ }
    ensures other_reply { Legal (zero_persist 0) 64
        (open_entry 0 ∷ canceled_entry 0 1 1 (get_random 8) full_reply ∷ [])
        → ⊥ }
{}

fn fault_counts_rise()
    ensures first { Legal (zero_persist 0) 64 (open_entry 0 ∷ failed_entry 1 0 ∷ []) }
    ensures rise { Legal (zero_persist 0) 64
        (open_entry 0 ∷ failed_entry 1 0 ∷ failed_entry 2 1 ∷ []) }
    ensures stay { Legal (zero_persist 0) 64
        (open_entry 0 ∷ failed_entry 1 1 ∷ failed_entry 2 1 ∷ [])
        → ⊥ }
{}
