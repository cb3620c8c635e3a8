//! Worked examples of the commands of policies. A digest is given as the hash of its bytes.

ghost use Rattle.std.specs.Prelude.{◌≡◌, ◌∷◌, ◌++◌, [], map, replicate, Ok, Err, Some};
ghost use Rattle.tab_spec.specs.declared.SessionKind.TheVariants.{Trial};
ghost use Rattle.tab_spec.specs.declared.AuthNeeded.TheVariants.{AuthValue, Password};
ghost use Rattle.tab_spec.specs.declared.TheConstants.{RH_OWNER};
ghost use Rattle.sha2.specs.Sha256.{sha256};
ghost use Rattle.effect_spec.specs.Policies.{policy_restart_row, policy_get_digest_row};
ghost use Rattle.effect_spec.specs.Policies.{policy_needs_row, policy_command_code_row};
ghost use Rattle.effect_spec.specs.Policies.{policy_pcr_row, policy_or_row, policy_secret_row};
ghost use Rattle.tab_examples.specs.Examples.{u32, policy_session};
ghost use Rattle.tab_examples.specs.SessionExamples.{trial_session, used_session, updated};
ghost use Rattle.tab_examples.specs.SessionExamples.{pcr_0, branches, secret_reply};
ghost use Rattle.effect_examples.specs.SessionExamples.{secret, owner_secret, restarted_after};

// Restarted, a session is as it began but for its kind and its nonce.
fn policies_begin_again()
    ensures used { policy_restart_row used_session [] ≡ Ok policy_session }
    ensures kind_and_nonce { policy_restart_row
        (record used_session { kind = Trial; nonce = replicate 16 9 }) []
        ≡ Ok (record policy_session { kind = Trial; nonce = replicate 16 9 }) }
    ensures after_a_code { restarted_after (policy_command_code_row policy_session (u32 0x15e))
        ≡ Ok policy_session }
    ensures after_pcrs { restarted_after (policy_pcr_row (updated 5) policy_session (pcr_0 []))
        ≡ Ok policy_session }
    ensures one_byte_over { policy_restart_row used_session (0 ∷ []) ≡ Err 0x95 }
    ensures digest { policy_get_digest_row used_session [] ≡ Ok (0 ∷ 32 ∷ replicate 32 2) }
    ensures digest_and_a_byte { policy_get_digest_row used_session (0 ∷ []) ≡ Err 0x95 }
{}

// A policy asks for the auth value or for a password. The one takes the other's place, with the
// same digest.
fn policies_ask_for_values()
    ensures auth_value { policy_needs_row AuthValue used_session [] ≡ Ok (record used_session {
      digest = sha256 (replicate 32 2 ++ u32 0x16b);
      needed = AuthValue;
    }) }
    ensures password { policy_needs_row Password (record used_session { needed = AuthValue }) []
        ≡ Ok (record used_session { digest = sha256 (replicate 32 2 ++ u32 0x16b) }) }
    ensures value_and_a_byte { policy_needs_row AuthValue policy_session (0 ∷ []) ≡ Err 0x95 }
{}

// A policy is for one code, for the same again, but for no other.
fn policies_are_for_one_code()
    ensures again { policy_command_code_row used_session (u32 0x15e)
        ≡ Ok (record used_session { digest = sha256 (replicate 32 2 ++ u32 0x16c ++ u32 0x15e) }) }
    ensures another { policy_command_code_row used_session (u32 0x15f) ≡ Err 0x1c4 }
    ensures of_a_trial { policy_command_code_row trial_session (u32 0x15e)
        ≡ Ok (record trial_session {
          digest = sha256 (replicate 32 0 ++ u32 0x16c ++ u32 0x15e);
          command_code = Some 0x15e;
        }) }
    ensures another_of_a_trial { policy_command_code_row
        (record trial_session { command_code = Some 0x15e }) (u32 0x155) ≡ Err 0x1c4 }
{}

// The code of a policy isn't 0.
fn codes_have_limits()
    ensures zero { policy_command_code_row policy_session (u32 0) ≡ Err 0x1c4 }
    ensures zero_of_a_trial { policy_command_code_row trial_session (u32 0) ≡ Err 0x1c4 }
    ensures least { policy_command_code_row policy_session (u32 1) ≡ Ok (record policy_session {
      digest = sha256 (replicate 32 0 ++ u32 0x16c ++ u32 1);
      command_code = Some 1;
    }) }
    ensures most { policy_command_code_row policy_session (u32 0xffffffff)
        ≡ Ok (record policy_session {
          digest = sha256 (replicate 32 0 ++ u32 0x16c ++ u32 0xffffffff);
          command_code = Some 0xffffffff;
        }) }
    ensures cut { policy_command_code_row policy_session (0 ∷ 0 ∷ 1 ∷ []) ≡ Err 0x1da }
    ensures code_and_a_byte { policy_command_code_row policy_session (u32 0 ++ 0 ∷ []) ≡ Err 0x95 }
{}

// An empty digest stands for that of the PCRs, and a trial session takes any. A kept update count
// has to be the present one; a trial session keeps none.
fn policies_name_pcrs()
    ensures empty { policy_pcr_row (updated 7) used_session (pcr_0 []) ≡ Ok (record used_session {
      digest = sha256 (replicate 32 2 ++ u32 0x17f ++ u32 1 ++ 0 ∷ 0x0b ∷ 3 ∷ 0x01 ∷ 0 ∷ 0
          ∷ sha256 (replicate 32 0));
    }) }
    ensures none { policy_pcr_row (updated 5) policy_session (0 ∷ 0 ∷ u32 0)
        ≡ Ok (record policy_session {
          digest = sha256 (replicate 32 0 ++ u32 0x17f ++ u32 0 ++ sha256 []);
          pcr_updates = Some 5;
        }) }
    ensures of_a_trial { policy_pcr_row (updated 5) trial_session (pcr_0 (replicate 32 1))
        ≡ Ok (record trial_session {
          digest = sha256 (replicate 32 0 ++ u32 0x17f ++ u32 1 ++ 0 ∷ 0x0b ∷ 3 ∷ 0x01 ∷ 0 ∷ 0
              ∷ replicate 32 1);
        }) }
    ensures last_count { policy_pcr_row (updated 0xffffffff)
        (record policy_session { pcr_updates = Some 0xffffffff }) (0 ∷ 0 ∷ u32 0)
        ≡ Ok (record policy_session {
          digest = sha256 (replicate 32 0 ++ u32 0x17f ++ u32 0 ++ sha256 []);
          pcr_updates = Some 0xffffffff;
        }) }
    ensures past_it { policy_pcr_row (updated 0)
        (record policy_session { pcr_updates = Some 0xffffffff }) (0 ∷ 0 ∷ u32 0)
        ≡ Err 0x128 }
{}

// What PolicyPCR refuses of its parameters, in the order of the faults.
fn digests_and_selections_have_faults()
    ensures sizes { map (λ size. policy_pcr_row (updated 8) used_session (pcr_0 (replicate size 1)))
        (0 ∷ 1 ∷ 31 ∷ 32 ∷ 33 ∷ [])
        ≡ Err 0x128 ∷ Err 0x1d5 ∷ Err 0x1d5 ∷ Err 0x128 ∷ Err 0x1d5 ∷ [] }
    ensures size_of_a_trial { policy_pcr_row (updated 5) trial_session (pcr_0 (replicate 31 1))
        ≡ Err 0x1d5 }
    ensures cut { policy_pcr_row (updated 8) used_session (0 ∷ 32 ∷ replicate 31 1) ≡ Err 0x1da }
    ensures two_selections { policy_pcr_row (updated 8) used_session (0 ∷ 0 ∷ u32 2) ≡ Err 0x2d5 }
    ensures of_sha1 { policy_pcr_row (updated 8) used_session (0 ∷ 0 ∷ u32 1 ++ 0 ∷ 4 ∷ [])
        ≡ Err 0x2c3 }
    ensures of_four_bytes { policy_pcr_row (updated 8)
        used_session (0 ∷ 0 ∷ u32 1 ++ 0 ∷ 0x0b ∷ 4 ∷ [])
        ≡ Err 0x2c4 }
    ensures cut_selection { policy_pcr_row (updated 8)
        used_session (0 ∷ 0 ∷ u32 1 ++ 0 ∷ 0x0b ∷ 3 ∷ 1 ∷ 0 ∷ [])
        ≡ Err 0x2da }
    ensures one_byte_over { policy_pcr_row (updated 8) used_session (pcr_0 [] ++ 0 ∷ [])
        ≡ Err 0x95 }
{}

// The session's digest has to be one of the branches, which alone make the new one.
fn policies_have_branches()
    ensures two { policy_or_row used_session (branches (2 ∷ 1 ∷ [])) ≡ Ok (record used_session {
      digest = sha256 (replicate 32 0 ++ u32 0x171 ++ replicate 32 2 ++ replicate 32 1);
    }) }
    ensures eight { policy_or_row used_session (branches (0 ∷ 1 ∷ 3 ∷ 4 ∷ 5 ∷ 6 ∷ 7 ∷ 2 ∷ []))
        ≡ Ok (record used_session {
          digest = sha256 (replicate 32 0 ++ u32 0x171 ++ replicate 32 0 ++ replicate 32 1
              ++ replicate 32 3 ++ replicate 32 4 ++ replicate 32 5
              ++ replicate 32 6 ++ replicate 32 7 ++ replicate 32 2);
        }) }
    ensures others { policy_or_row policy_session (branches (1 ∷ 2 ∷ [])) ≡ Err 0x1c4 }
    ensures others_for_a_trial { policy_or_row trial_session (branches (1 ∷ 2 ∷ []))
        ≡ Ok (record trial_session {
          digest = sha256 (replicate 32 0 ++ u32 0x171 ++ replicate 32 1 ++ replicate 32 2);
        }) }
{}

// There are two to eight branches, of 32 bytes each.
fn branches_have_limits()
    ensures nine { policy_or_row policy_session (branches (1 ∷ 2 ∷ 3 ∷ 4 ∷ 5 ∷ 6 ∷ 7 ∷ 8 ∷ 0 ∷ []))
        ≡ Err 0x1d5 }
    ensures nine_of_a_trial { policy_or_row trial_session
        (branches (1 ∷ 2 ∷ 3 ∷ 4 ∷ 5 ∷ 6 ∷ 7 ∷ 8 ∷ 0 ∷ []))
        ≡ Err 0x1d5 }
    ensures one { policy_or_row policy_session (branches (0 ∷ [])) ≡ Err 0x1d5 }
    ensures counts { map (λ count. policy_or_row policy_session (u32 count))
        (0 ∷ 1 ∷ 2 ∷ 8 ∷ 9 ∷ [])
        ≡ Err 0x1d5 ∷ Err 0x1d5 ∷ Err 0x1da ∷ Err 0x1da ∷ Err 0x1d5 ∷ [] }
    ensures sizes { map (λ size.
        policy_or_row policy_session (u32 2 ++ 0 ∷ size ∷ replicate size 0)) (31 ∷ 32 ∷ 33 ∷ [])
        ≡ Err 0x1d5 ∷ Err 0x1da ∷ Err 0x1d5 ∷ [] }
    ensures one_byte_over { policy_or_row policy_session (branches (1 ∷ 2 ∷ []) ++ 0 ∷ [])
        ≡ Err 0x95 }
{}

// The nonce is empty or the session's. The digest is hashed twice, with the Name of what has the
// secret, and with the policyRef.
fn policies_show_secrets()
    ensures shown { policy_secret_row used_session (0 ∷ 0x0b ∷ replicate 32 3)
        (secret (replicate 32 1) [] (replicate 64 4) 0)
        ≡ Ok (
          record used_session {
            digest = sha256 (sha256 (replicate 32 2 ++ u32 0x151 ++ 0 ∷ 0x0b ∷ replicate 32 3)
                ++ replicate 64 4);
          },
          secret_reply,
        ) }
    ensures without_a_nonce { owner_secret (secret [] [] [] 0) ≡ Ok (
      record policy_session {
        digest = sha256 (sha256 (replicate 32 0 ++ u32 0x151 ++ u32 RH_OWNER));
      },
      secret_reply,
    ) }
    ensures another_nonce { owner_secret (secret (replicate 31 1 ++ 2 ∷ []) [] [] 0) ≡ Err 0x1cf }
    ensures another_of_a_trial { policy_secret_row trial_session (u32 RH_OWNER)
        (secret (replicate 31 1 ++ 2 ∷ []) [] [] 0)
        ≡ Err 0x1cf }
{}

// cpHash is empty, and the expiration 0; the faults in their order.
fn secrets_have_limits()
    ensures nonces { map (λ size. owner_secret (secret (replicate size 1) [] [] 1))
        (0 ∷ 1 ∷ 31 ∷ 32 ∷ 33 ∷ [])
        ≡ Err 0x4c4 ∷ Err 0x1cf ∷ Err 0x1cf ∷ Err 0x4c4 ∷ Err 0x1d5 ∷ [] }
    ensures hashes { map (λ size. owner_secret (secret [] (replicate size 1) [] 1))
        (0 ∷ 1 ∷ 32 ∷ 33 ∷ [])
        ≡ Err 0x4c4 ∷ Err 0x2c4 ∷ Err 0x2c4 ∷ Err 0x2d5 ∷ [] }
    ensures references { map (λ size. owner_secret (secret [] [] (replicate size 1) 1))
        (0 ∷ 64 ∷ 65 ∷ [])
        ≡ Err 0x4c4 ∷ Err 0x4c4 ∷ Err 0x3d5 ∷ [] }
    ensures expirations { map (λ expiration. owner_secret (secret [] [] [] expiration))
        (1 ∷ 0x80000000 ∷ 0xffffffff ∷ [])
        ≡ Err 0x4c4 ∷ Err 0x4c4 ∷ Err 0x4c4 ∷ [] }
    ensures nonce_first { owner_secret (secret (2 ∷ []) (3 ∷ []) [] 1) ≡ Err 0x1cf }
    ensures one_byte_over { owner_secret (secret (2 ∷ []) (3 ∷ []) [] 1 ++ 0 ∷ []) ≡ Err 0x95 }
    ensures cut { map (λ front.
        owner_secret (front ++ 0 ∷ [])) ([] ∷ (0 ∷ 0 ∷ []) ∷ u32 0 ∷ (u32 0 ++ 0 ∷ 0 ∷ []) ∷ [])
        ≡ Err 0x1da ∷ Err 0x2da ∷ Err 0x3da ∷ Err 0x4da ∷ [] }
{}
