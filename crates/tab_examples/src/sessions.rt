//! Worked examples of how sessions begin, how they are spelled, and what refuses them.

ghost use Rattle.std.specs.List.{filter, range_with_len};
ghost use Rattle.std.specs.Prelude.{◌≡◌, ◌∷◌, ◌++◌, [], length, replicate, Ok, Some, is_ok};
ghost use Rattle.tab_spec.specs.declared.AuthNeeded.TheVariants.{AuthValue};
ghost use Rattle.tab_spec.specs.Session.{session_bytes, session_of};
ghost use Rattle.tab_examples.specs.Examples.{u32};
ghost use Rattle.tab_examples.specs.SessionExamples.{trial_session, used_session};

// Which kinds, sizes of a nonce, flags and update counts a session's bytes may have.
fn sessions_are_spelled()
    ensures kinds { filter (λ kind.
        is_ok (session_of (kind ∷ 0 ∷ 16 ∷ replicate 16 1 ++ replicate 41 0))) (range_with_len 0 8)
        ≡ 0 ∷ 1 ∷ 3 ∷ [] }
    ensures nonces { filter
        (λ size. is_ok (session_of (0 ∷ 0 ∷ size ∷ replicate size 1 ++ replicate 41 0)))
        (range_with_len 12 24)
        ≡ range_with_len 16 17 }
    ensures flags { filter (λ flags.
        is_ok (session_of (1 ∷ 0 ∷ 16 ∷ replicate 16 1 ++ replicate 36 0 ++ flags ∷ u32 0)))
        (range_with_len 0 16)
        ≡ 0 ∷ 1 ∷ 2 ∷ 4 ∷ 5 ∷ 6 ∷ [] }
    ensures counts { filter (λ flags.
        is_ok (session_of (1 ∷ 0 ∷ 16 ∷ replicate 16 1 ++ replicate 36 0 ++ flags ∷ u32 1)))
        (range_with_len 0 16)
        ≡ 4 ∷ 5 ∷ 6 ∷ [] }
    ensures of_a_trial { session_bytes
        (record trial_session { needed = AuthValue; pcr_updates = Some 0 })
        ≡ 3 ∷ 0 ∷ 32 ∷ replicate 32 1 ++ replicate 36 0 ++ 5 ∷ u32 0 }
    ensures longest { length (session_bytes used_session) ≡ 76 }
    ensures read { session_of (session_bytes (record trial_session {
      command_code = Some 0xffffffff;
      needed = AuthValue;
      pcr_updates = Some 0xffffffff;
    })) ≡ Ok (
      record trial_session {
        command_code = Some 0xffffffff;
        needed = AuthValue;
        pcr_updates = Some 0xffffffff;
      },
      [],
    ) }
{}
