//! Sessions that clients saved and left: how many stay, who gets one, and what they count for.

ghost use Rattle.std.specs.Prelude.{◌≡◌, ◌+◌, ◌∷◌, ◌++◌, [], map, replicate, set, ℕ, Some, None};
ghost use Rattle.std.specs.List.{range_with_len};
ghost use Rattle.tab_spec.specs.Numbers.{leave_limit};
ghost use Rattle.tab_examples.specs.Examples.{flush, frame, refusal, u32};
ghost use Rattle.history_spec.specs.declared.Pick.TheVariants.{Nothing, Session, Sequence};
ghost use Rattle.world_spec.specs.World.{closed_world, new_client, plain_step};
ghost use Rattle.world_examples.specs.Examples.{ask, context_under, first_closed};
ghost use Rattle.world_examples.specs.Examples.{first_context, first_session, handle_reply, load};
ghost use Rattle.world_examples.specs.Examples.{nine_left, nine_saved, of_16_sessions, reply_in};
ghost use Rattle.world_examples.specs.Examples.{save, saved_alone, saved_from, short_context};
ghost use Rattle.world_examples.specs.Examples.{start_session, three_clients};
ghost use Rattle.world_examples.specs.Examples.{told_list, world_among, world_left};
ghost use Rattle.world_examples.specs.Examples.{world_of_sessions};

// A client saves a session and closes. Another one takes it by the bytes that were handed out, and
// has it in use; a third one comes too late.
#[tactic(auto, unfolding(crate::proofs::Computing::steps, crate::proofs::Computing::contexts))]
fn left_sessions_are_taken_by_others()
    ensures saved { plain_step (world_among three_clients 0 (first_session 0 None)) 0
        (save 0x02000000) (Sequence 0)
        ≡ Some (
          world_among three_clients 1 (first_session 0 (Some (context_under 0))),
          frame 0x8001 0 (context_under 0),
        ) }
    ensures closed { closed_world
        (world_among three_clients 1 (first_session 0 (Some first_context))) 0
        ≡ world_left }
    ensures taken { plain_step world_left 1 (load first_context) Nothing
        ≡ Some (
          world_among (new_client 1 ∷ new_client 2 ∷ []) 1 (first_session 1 None),
          handle_reply 0x02000000,
        ) }
    ensures third { let taken =
        world_among (new_client 1 ∷ new_client 2 ∷ []) 1 (first_session 1 None) in
        plain_step taken 2 (load first_context) Nothing ≡ Some (taken, refusal 0x01 0xcb) }
    ensures other_bytes { plain_step world_left 1 (load (set first_context 7 1)) Nothing
        ≡ Some (world_left, refusal 0x01 0xcb) }
    ensures another_octet { plain_step world_left 1
        (load (u32 0 ++ u32 0 ++ u32 0x03000000 ++ u32 0x40000001 ++ 0 ∷ 0 ∷ [])) Nothing
        ≡ Some (world_left, refusal 0x01 0xcb) }
{}

// Nobody may use, save or flush a left session before it is loaded, and it is in nobody's list; but
// it is active, and its number isn't given to another one.
#[tactic(auto, unfolding(crate::proofs::Computing::steps, effect_examples::proofs::Computing::lists))]
fn left_sessions_are_nobodys()
    ensures saved { plain_step world_left 1 (save 0x02000000) Nothing
        ≡ Some (world_left, refusal 0x09 0x10) }
    ensures flushed { plain_step world_left 1 (flush 0x02000000) Nothing
        ≡ Some (world_left, refusal 0x01 0xcb) }
    ensures listed { plain_step world_left 1 (ask 1 0x03000000 8) Nothing
        ≡ Some (world_left, told_list 0 1 0 []) }
    ensures its_own { plain_step world_left 1 (ask 6 0x205 1) Nothing
        ≡ Some (world_left, told_list 1 6 1 (u32 0x205 ++ u32 0)) }
    ensures fewer { plain_step world_left 1 (ask 6 0x206 1) Nothing
        ≡ Some (world_left, told_list 1 6 1 (u32 0x206 ++ u32 63)) }
    ensures too_many { plain_step (of_16_sessions (saved_alone None 0 16)) 1
        (start_session 1) Nothing
        ≡ Some (of_16_sessions (saved_alone None 0 16), refusal 0x09 0x05) }
    ensures number { plain_step world_left 1 (start_session 1) (Session 0) ≡ None }
{}

// Over 64 active sessions eight are left at most, and over fewer a quarter of them. What was left
// longest goes, of one client's the least number.
fn the_longest_left_goes()
    ensures most { map leave_limit (64 ∷ 32 ∷ 31 ∷ 16 ∷ 4 ∷ 3 ∷ [])
        ≡ 8 ∷ 8 ∷ 7 ∷ 4 ∷ 1 ∷ 0 ∷ [] }
    ensures eight { let world = world_of_sessions 0 (saved_alone (Some 0) 0 8) in
        closed_world world 0 ≡ first_closed world 0 8 }
    ensures nine { closed_world nine_saved 0 ≡ nine_left }
    ensures four { let world = of_16_sessions (saved_alone (Some 0) 0 4) in
        closed_world world 0 ≡ first_closed world 0 4 }
    ensures five { let world = of_16_sessions (saved_alone (Some 0) 0 5) in
        closed_world world 0 ≡ first_closed world 1 4 }
    ensures left_before { let world = world_of_sessions 0
        (saved_from (Some 0) 0 8 ++ saved_from None 8 1 ++ replicate 55 None) in
        closed_world (record world { left = 8 ∷ [] }) 0 ≡ first_closed world 0 8 }
{}

// Of nine contexts that of the number 0 alone is refused.
#[tactic(auto, unfolding(crate::proofs::Computing::steps, crate::proofs::Computing::contexts))]
fn eight_of_nine_are_taken()
    ensures { map (λ (n : ℕ). reply_in (plain_step nine_left 1 (load (short_context n)) Nothing))
        (range_with_len 0 9)
        ≡ refusal 0x01 0xcb ∷ map (λ (n : ℕ). handle_reply (0x02000000 + n)) (range_with_len 1 8) }
{}

// The context of the examples above is the one that is handed out first.
#[tactic(auto, unfolding(tab_examples::proofs::Computing::hashes, tab_examples::proofs::Computing::draws))]
fn the_first_context_has_these_bytes()
    ensures { context_under 0 ≡ first_context }
{}

// A close leaves what its client saved, and of other clients everything.
fn closes_leave_saved_sessions()
    ensures in_use { closed_world (world_among three_clients 1 (first_session 0 None)) 0
        ≡ world_among (new_client 1 ∷ new_client 2 ∷ []) 1 (replicate 64 None) }
    ensures anothers { closed_world
        (world_among three_clients 1 (first_session 0 (Some first_context))) 1
        ≡ world_among (new_client 0 ∷ new_client 2 ∷ []) 1
        (first_session 0 (Some first_context)) }
{}
