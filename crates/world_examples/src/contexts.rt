//! Contexts that clients are given and give back, and what GetCapability tells a client.

ghost use Rattle.std.specs.Prelude.{◌≡◌, ◌^◌, ◌∷◌, ◌++◌, [], Some, None};
ghost use Rattle.tab_examples.specs.Examples.{flush, frame, refusal, u32};
ghost use Rattle.history_spec.specs.declared.Pick.TheVariants.{Nothing, Session, Sequence};
ghost use Rattle.world_spec.specs.World.{client_step, no_sessions, plain_step};
ghost use Rattle.world_examples.specs.Examples.{ask, context_under, first_context, handle_reply};
ghost use Rattle.world_examples.specs.Examples.{left_with, load, save, state_with, taken_numbers};
ghost use Rattle.world_examples.specs.Examples.{three_places, told_list, world_handed};
ghost use Rattle.world_examples.specs.Examples.{of_16_sessions, world_of_sessions};

// A session's context is the device's own, under the sequence that is picked, which wasn't picked
// before.
#[tactic(auto, unfolding(crate::proofs::Computing::steps))]
fn sessions_are_saved()
    ensures saved { plain_step (world_handed 3 None) 0 (save 0x02000000) (Sequence 4)
        ≡ Some (world_handed 5 (Some (context_under 4)), frame 0x8001 0 (context_under 4)) }
    ensures no_pick { plain_step (world_handed 0 None) 0 (save 0x02000000) Nothing ≡ None }
    ensures another_pick { plain_step (world_handed 0 None) 0 (save 0x02000000) (Session 1) ≡ None }
    ensures handed_out { plain_step (world_handed 5 None) 0 (save 0x02000000) (Sequence 4) ≡ None }
    ensures too_high { plain_step (world_handed 5 None) 0 (save 0x02000000) (Sequence (2 ^ 62))
        ≡ None }
    ensures longer { plain_step (world_handed 0 None) 0
        (0x80 ∷ 0x01 ∷ 0 ∷ 0 ∷ 0 ∷ 15 ∷ 0 ∷ 0 ∷ 1 ∷ 0x62 ∷ 2 ∷ 0 ∷ 0 ∷ 0 ∷ 0 ∷ []) Nothing
        ≡ Some (world_handed 0 None, refusal 0x00 0x95) }
{}

// A saved session can't be used, nor another client's, and its client may flush it.
#[tactic(auto, unfolding(crate::proofs::Computing::steps))]
fn saved_sessions_are_not_used()
    ensures twice { plain_step (world_handed 1 (Some first_context)) 0 (save 0x02000000) Nothing
        ≡ Some (world_handed 1 (Some first_context), refusal 0x09 0x10) }
    ensures anothers { plain_step (world_handed 0 None) 1 (save 0x02000000) Nothing
        ≡ Some (world_handed 0 None, refusal 0x09 0x10) }
    ensures flushed { plain_step (world_handed 1 (Some first_context)) 0 (flush 0x02000000) Nothing
        ≡ Some (
          record (world_of_sessions 0 no_sessions) { session_sequence = 1 },
          0x80 ∷ 0x01 ∷ 0 ∷ 0 ∷ 0 ∷ 0x0a ∷ 0 ∷ 0 ∷ 0 ∷ 0 ∷ [],
        ) }
{}

// A saved session is in use again by the very bytes that were handed out for it, once, and for its
// own client.
#[tactic(auto, unfolding(crate::proofs::Computing::steps, crate::proofs::Computing::contexts))]
fn sessions_are_taken_back()
    ensures taken { plain_step (world_handed 1 (Some first_context)) 0 (load first_context) Nothing
        ≡ Some (world_handed 1 None, handle_reply 0x02000000) }
    ensures in_use { plain_step (world_handed 1 None) 0 (load first_context) Nothing
        ≡ Some (world_handed 1 None, refusal 0x01 0xcb) }
    ensures anothers { plain_step (world_handed 1 (Some first_context)) 1
        (load first_context) Nothing
        ≡ Some (world_handed 1 (Some first_context), refusal 0x01 0xcb) }
    ensures other_bytes { plain_step (world_handed 1 (Some (first_context ++ 0 ∷ []))) 0
        (load first_context) Nothing
        ≡ Some (world_handed 1 (Some (first_context ++ 0 ∷ [])), refusal 0x01 0xcb) }
    ensures more { plain_step (world_handed 1 (Some first_context)) 0
        (load (first_context ++ 0 ∷ [])) Nothing
        ≡ Some (world_handed 1 (Some first_context), refusal 0x00 0x95) }
    ensures cut { plain_step (world_handed 1 (Some first_context)) 0
        (load (u32 0 ++ u32 0 ++ u32 0x02000000)) Nothing
        ≡ Some (world_handed 1 (Some first_context), refusal 0x01 0xda) }
    ensures no_sort { plain_step (world_handed 1 None) 0
        (load (u32 0 ++ u32 0 ++ u32 0x80000001 ++ u32 0x40000001 ++ 0 ∷ 0 ∷ [])) Nothing
        ≡ Some (world_handed 1 None, refusal 0x01 0xc4) }
    ensures no_context { plain_step (world_handed 1 None) 0
        (load (u32 0 ++ u32 0 ++ u32 0x80000000 ++ u32 0x40000001 ++ 0 ∷ 0 ∷ [])) Nothing
        ≡ Some (world_handed 1 None, refusal 0x01 0xdf) }
{}

// What a client is told of: its own objects and sessions, and how many sessions clients have or
// left.
#[tactic(auto, unfolding(crate::proofs::Computing::steps, effect_examples::proofs::Computing::lists))]
fn clients_are_told_of_their_own()
    ensures objects { client_step 0 (state_with three_places) (ask 1 0x80000000 8) Nothing
        ≡ left_with three_places (told_list 0 1 2 (u32 0x80000000 ++ u32 0x80000002)) }
    ensures fewer { client_step 0 (state_with three_places) (ask 1 0x80000000 1) Nothing
        ≡ left_with three_places (told_list 1 1 1 (u32 0x80000000)) }
    ensures active { plain_step (world_of_sessions 0 (taken_numbers 2)) 1 (ask 6 0x205 1) Nothing
        ≡ Some (world_of_sessions 0 (taken_numbers 2), told_list 1 6 1 (u32 0x205 ++ u32 2)) }
    ensures left { plain_step (world_of_sessions 0 (taken_numbers 2)) 0 (ask 6 0x206 1) Nothing
        ≡ Some (world_of_sessions 0 (taken_numbers 2), told_list 1 6 1 (u32 0x206 ++ u32 62)) }
    ensures most { plain_step (of_16_sessions (taken_numbers 2)) 0 (ask 6 0x111 1) Nothing
        ≡ Some (of_16_sessions (taken_numbers 2), told_list 1 6 1 (u32 0x111 ++ u32 16)) }
    ensures in_use { plain_step (world_of_sessions 0 (taken_numbers 2)) 1
        (ask 1 0x02000001 8) Nothing
        ≡ Some (world_of_sessions 0 (taken_numbers 2), told_list 0 1 1 (u32 0x03000001)) }
    ensures saved { plain_step (world_handed 1 (Some first_context)) 0 (ask 1 0x03000000 8) Nothing
        ≡ Some (world_handed 1 (Some first_context), told_list 0 1 1 (u32 0x02000000)) }
    ensures anothers { plain_step (world_handed 1 (Some first_context)) 1
        (ask 1 0x03000000 8) Nothing
        ≡ Some (world_handed 1 (Some first_context), told_list 0 1 0 []) }
{}
