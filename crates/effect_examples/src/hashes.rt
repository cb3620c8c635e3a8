//! Worked examples in which hashes are computed. What is expected was computed by another program.
#![tactic(auto, unfolding(crate::proofs::Computing::hashed))]

ghost use Rattle.std.specs.Prelude.{◌≡◌, ◌∷◌, ◌++◌, [], replicate, false, Ok, Err, Some, None};
ghost use Rattle.tab_spec.specs.declared.AuthNeeded.TheVariants.{Nothing, AuthValue, Password};
ghost use Rattle.tab_spec.specs.declared.TheConstants.{RH_NULL};
ghost use Rattle.tab_spec.specs.Hash.{hmac};
ghost use Rattle.tab_spec.specs.Values.{sized_bytes, public_bytes};
ghost use Rattle.effect_spec.specs.Operands.{plain};
ghost use Rattle.effect_spec.specs.Objects.{load_row};
ghost use Rattle.effect_spec.specs.Contexts.{context_bytes, opened_object};
ghost use Rattle.tab_spec.specs.Session.{session_bytes};
ghost use Rattle.effect_spec.specs.Policies.{policy_needs_row, policy_command_code_row};
ghost use Rattle.effect_spec.specs.Policies.{policy_pcr_row, policy_or_row};
ghost use Rattle.effect_spec.specs.SessionAuths.{operand_name};
ghost use Rattle.tab_examples.specs.Examples.{u32, bytes_of, policy_session, with_indexes, counter};
ghost use Rattle.tab_examples.specs.Examples.{sealed_bytes, loaded_parent, context_with};
ghost use Rattle.tab_examples.specs.SessionExamples.{hmac_session, used_session, updated};
ghost use Rattle.tab_examples.specs.SessionExamples.{pcr_0, pcr_7, zero_pcr, value_digest};
ghost use Rattle.tab_examples.specs.SessionExamples.{two_values_digest, code_digest, pcr_0_digest};
ghost use Rattle.tab_examples.specs.SessionExamples.{branches, secret_reply, caller, keyed_hmac};
ghost use Rattle.tab_examples.specs.SessionExamples.{unkeyed_hmac, next_16, next_32};
ghost use Rattle.effect_examples.specs.SessionExamples.{value_and_password, pcr_value_and_code};
ghost use Rattle.effect_examples.specs.SessionExamples.{secret, owner_secret, guarded, unseal_fault};
ghost use Rattle.effect_examples.specs.SessionExamples.{unseal_response, command_fault};
ghost use Rattle.effect_examples.specs.SessionExamples.{command_response, read_by_session};
ghost use Rattle.effect_examples.specs.SessionExamples.{unsealed_by_policy};

// The digests of PolicyAuthValue, PolicyPassword and PolicyCommandCode.
fn values_and_codes_are_hashed()
    ensures auth_value { policy_needs_row AuthValue policy_session []
        ≡ Ok (record policy_session { digest = value_digest; needed = AuthValue }) }
    ensures both { value_and_password
        ≡ Ok (record policy_session { digest = two_values_digest; needed = Password }) }
    ensures code { policy_command_code_row policy_session (u32 0x155)
        ≡ Ok (record policy_session { digest = code_digest; command_code = Some 0x155 }) }
{}

// The digest of PolicyPCR, which is compared with what the PCRs are.
fn pcrs_are_hashed()
    ensures pcr { policy_pcr_row (updated 5) policy_session (pcr_0 zero_pcr)
        ≡ Ok (record policy_session { digest = pcr_0_digest; pcr_updates = Some 5 }) }
    ensures present_pcr { policy_pcr_row (updated 5) policy_session (pcr_0 [])
        ≡ Ok (record policy_session { digest = pcr_0_digest; pcr_updates = Some 5 }) }
    ensures another_pcr { policy_pcr_row (updated 5) policy_session
        (pcr_0 (bytes_of 32 0x66687aadf862bd776c8fc18b8e9f8e20089714856ee233b3902a591d0d5f2924))
        ≡ Err 0x1c4 }
    ensures pcr_and_value_and_code { pcr_value_and_code
        ≡ Ok (record policy_session {
          digest = bytes_of 32 0x130671e8848c1d3677f9af1d2ce32475107fd89c9f4b657ca34ae1925af2d72b;
          command_code = Some 0x15d;
          needed = AuthValue;
          pcr_updates = Some 5;
        }) }
{}

// The digests of PolicyOR and PolicySecret.
fn branches_and_secrets_are_hashed()
    ensures two_branches { policy_or_row policy_session (branches (0 ∷ 2 ∷ []))
        ≡ Ok (record policy_session {
          digest = bytes_of 32 0x59fe212951ffa86c85ccbc7f7c21998593a6c50d03c7985ea5ae3c1edd810d73;
        }) }
    ensures eight_branches { policy_or_row policy_session
        (branches (1 ∷ 2 ∷ 3 ∷ 4 ∷ 5 ∷ 6 ∷ 7 ∷ 0 ∷ []))
        ≡ Ok (record policy_session {
          digest = bytes_of 32 0x00451d6af29e767c66a34ae693db7d3f94d3170736089894833f4c0384712f9c;
        }) }
    ensures secret { owner_secret (secret [] [] [] 0) ≡ Ok (
      record policy_session {
        digest = bytes_of 32 0x0d84f55daf6e43ac97966e62c9bb989d3397777d25c5f749868055d65394f952;
      },
      secret_reply,
    ) }
    ensures secret_by_a_nonce { owner_secret (secret (replicate 32 1) [] (0x61 ∷ 0x62 ∷ []) 0)
        ≡ Ok (
          record policy_session {
            digest = bytes_of 32 0x8af312f41d605af6a5a41678d13d28b08b853ccd56fdce215b2f0baf24ab015b;
          },
          secret_reply,
        ) }
{}

// The key of an HMAC session is the auth value. The HMAC alone is looked at, also where a password
// would be needed.
fn hmacs_of_hmac_sessions_are_compared()
    ensures right { unseal_fault guarded hmac_session caller 1 keyed_hmac ≡ None }
    ensures last_bit { unseal_fault guarded hmac_session caller 1
        (bytes_of 32 0x0fa5d2e8d8690c04078c77030f5cfd4be5ab7517a7a4dc361f9003b51f2e93ba)
        ≡ Some 0x9a2 }
    ensures a_zero_after { unseal_fault guarded hmac_session caller 1 (keyed_hmac ++ 0 ∷ [])
        ≡ Some 0x9a2 }
    ensures other_attributes { unseal_fault guarded hmac_session caller 0 keyed_hmac ≡ Some 0x9a2 }
    ensures empty { unseal_fault guarded hmac_session caller 1 [] ≡ Some 0x9a2 }
    ensures no_key { unseal_fault (record guarded { auth = [] }) hmac_session caller 1 unkeyed_hmac
        ≡ None }
    ensures another_key { unseal_fault (record guarded { auth = [] }) hmac_session caller
        1 keyed_hmac
        ≡ Some 0x9a2 }
    ensures password_of_no_policy { unseal_fault guarded (record hmac_session { needed = Password })
        caller 1 keyed_hmac
        ≡ None }
{}

// The key of a policy session is the auth value, or the empty key if its policy doesn't ask for
// that.
fn hmacs_of_policies_are_compared()
    ensures policy { unseal_fault guarded policy_session caller 1 unkeyed_hmac ≡ None }
    ensures policy_and_another_key { unseal_fault guarded policy_session caller 1 keyed_hmac
        ≡ Some 0x9a2 }
    ensures auth_value { unseal_fault (record guarded { user_with_auth = false })
        (record policy_session { needed = AuthValue }) caller 1 keyed_hmac
        ≡ None }
    ensures auth_value_and_no_key { unseal_fault guarded
        (record policy_session { needed = AuthValue }) caller 1 unkeyed_hmac
        ≡ Some 0x9a2 }
    ensures auth_value_and_empty { unseal_fault guarded
        (record policy_session { needed = AuthValue }) caller 1 []
        ≡ Some 0x9a2 }
{}

// A session draws a nonce of its size, and a policy begins again. An empty hmac and a password are
// answered with an empty one.
fn sessions_answer()
    ensures keyed { unseal_response (with_indexes []) guarded hmac_session caller 1 (replicate 32 4)
        ≡ Ok (record {
          persist = record (with_indexes []) { place = 8 };
          session = record hmac_session { nonce = next_32 };
          answer = 0 ∷ 32 ∷ next_32 ++ 1 ∷ 0 ∷ 32
              ∷ bytes_of 32 0xe432cf8bd6a822c12e884231bf0c9f58dd89c7bd82120b70e0db6c8b5f2dc986;
        }) }
    ensures password_of_no_policy { unseal_response (with_indexes []) guarded
        (record hmac_session { needed = Password }) caller 1 (replicate 32 4)
        ≡ Ok (record {
          persist = record (with_indexes []) { place = 8 };
          session = record hmac_session { nonce = next_32; needed = Password };
          answer = 0 ∷ 32 ∷ next_32 ++ 1 ∷ 0 ∷ 32
              ∷ bytes_of 32 0xe432cf8bd6a822c12e884231bf0c9f58dd89c7bd82120b70e0db6c8b5f2dc986;
        }) }
    ensures last { unseal_response (with_indexes []) guarded hmac_session caller 0 (replicate 32 4)
        ≡ Ok (record {
          persist = record (with_indexes []) { place = 8 };
          session = record hmac_session { nonce = next_32 };
          answer = 0 ∷ 32 ∷ next_32 ++ 0 ∷ 0 ∷ 32
              ∷ bytes_of 32 0x1b1cc15398a13c301e29b6a6a1270e3917b4cd757556d36558fbb7a8c663ffe6;
        }) }
    ensures empty { unseal_response (with_indexes []) guarded
        (record hmac_session { nonce = replicate 17 1 }) caller 1 []
        ≡ Ok (record {
          persist = record (with_indexes []) { place = 5 };
          session = record hmac_session { nonce = next_16 ++ 0xbd ∷ [] };
          answer = 0 ∷ 17 ∷ next_16 ++ 0xbd ∷ 1 ∷ 0 ∷ 0 ∷ [];
        }) }
    ensures auth_value { unseal_response (with_indexes []) guarded
        (record used_session { nonce = replicate 16 1; needed = AuthValue }) caller 1
        (replicate 32 4)
        ≡ Ok (record {
          persist = record (with_indexes []) { place = 4 };
          session = record policy_session { nonce = next_16 };
          answer = 0 ∷ 16 ∷ next_16 ++ 1 ∷ 0 ∷ 32
              ∷ bytes_of 32 0x0b77cf852afb2d920e86ad3a7f63dd84e3ee195d9317627c37a9d28db893a501;
        }) }
    ensures no_key { unseal_response (with_indexes []) guarded
        (record used_session { needed = Nothing }) caller 1 (replicate 32 4)
        ≡ Ok (record {
          persist = record (with_indexes []) { place = 8 };
          session = record policy_session { nonce = next_32 };
          answer = 0 ∷ 32 ∷ next_32 ++ 1 ∷ 0 ∷ 32
              ∷ bytes_of 32 0xa30fa627c8d15fae8d66ecec381235392998086cf9c658846d433b19c0335f21;
        }) }
    ensures password { unseal_response (with_indexes []) guarded
        (record used_session { nonce = replicate 16 1 }) caller 0 (5 ∷ [])
        ≡ Ok (record {
          persist = record (with_indexes []) { place = 4 };
          session = record policy_session { nonce = next_16 };
          answer = 0 ∷ 16 ∷ next_16 ++ 0 ∷ 0 ∷ 0 ∷ [];
        }) }
{}

// Two commands of other programs' runs; what is answered stands in their replies.
fn commands_are_authorized_by_sessions()
    ensures read { command_fault read_by_session ≡ None }
    ensures read_reply { command_response read_by_session ≡ Ok (record {
      persist = record read_by_session.persist { place = 109 };
      session =
          record hmac_session { nonce = bytes_of 20 0x606edb1162c6f71304bd4dffd541a11832d6c63b };
      answer = bytes_of 57 0x0014606edb1162c6f71304bd4dffd541a11832d6c63b00002024c945e17b6b110d4b7aa93c3fbdfd830ea28fc1d3838d376aa5ea2123334975;
    }) }
    ensures read_again { command_fault (record read_by_session {
      session =
          record hmac_session { nonce = bytes_of 20 0x606edb1162c6f71304bd4dffd541a11832d6c63b };
    }) ≡ Some 0x9a2 }
    ensures unsealed { command_fault unsealed_by_policy ≡ None }
    ensures unsealed_reply { command_response unsealed_by_policy ≡ Ok (record {
      persist = record unsealed_by_policy.persist { place = 203 };
      session =
          record policy_session { nonce = bytes_of 20 0x8523177f3433adc43f04a356759ed95a9dcc89f5 };
      answer = bytes_of 57 0x00148523177f3433adc43f04a356759ed95a9dcc89f5010020c91a22f972258d250ab7878e670c68398d2948dfd1e9136ff738f8031edf2aa9;
    }) }
{}

// Keys of a whole block and of a byte more; an index's Name; the context of a session.
fn keys_and_values_are_hashed()
    ensures key { hmac (replicate 64 7) (0x61 ∷ 0x62 ∷ 0x63 ∷ [])
        ≡ bytes_of 32 0xf0f16fdf195bbe8ba92cb681bfaa4d26235017c99ade4dd1a0d86a79913afa6d }
    ensures longer_key { hmac (replicate 65 7) (0x61 ∷ 0x62 ∷ 0x63 ∷ [])
        ≡ bytes_of 32 0x0aecd66046066e80b986b23da3b72a6f14db4a3a9d0f919be4b198571e0e7441 }
    ensures index { operand_name (with_indexes (counter ∷ [])) (plain 0x01000001)
        ≡ bytes_of 34 0x000b6434e9ddc6bfac94ee4e488a8b41fdff74f96caa9a25db18dd381219b266abe9 }
    ensures session { context_bytes (replicate 32 0) 0 0x02000000 RH_NULL
        (session_bytes (record hmac_session { nonce = next_32 }))
        ≡ bytes_of 128 0x00000000000000000200000040000007006e0020ea2c5c9b8e2991ca7e884196561af8e2cd0d2cb99f33e11846218def32c10d7bdfee248faa5a77e52b3d1601f717c6ca873228bb615f6e90fb95d55f63d33e990edada52fa7f68a90ef4cbc92078eeb6d39d7a923844efafd442e5fc8634cae4cb9a852bb5d78a175277cbca }
{}

// The private area of sealed bytes whose auth value ends with a zero, which isn't kept; and a blob
// that isn't whole.
fn hidden_bytes_are_opened()
    ensures a_zero { load_row loaded_parent (sized_bytes (bytes_of 76
        0x0020a7286f05bd200156feefbe12354aa05228990e9f64d8ecc1e19ea101b1bc1e66a62d38f6d0257f563da9462cc1be874a6ea4442d25c5a5ab1ee6639c54d026ee95cea37038fd6fc2cbdf)
        ++ sized_bytes (public_bytes (sealed_bytes (replicate 32 2))))
        ≡ Ok (
          record {
            public = sealed_bytes (replicate 32 2);
            auth = 5 ∷ [];
            seed = replicate 32 3;
            secret = 4 ∷ 4 ∷ [];
            qualified_name =
                bytes_of 34 0x000bcdf3fe6c8bb9c62eb2ba9317c0f96b593a4583cdd1193f4735e48bd2db1535dd;
          },
          sized_bytes
              (bytes_of 34 0x000bb260c7e048477a19a7406552803df4e86207d83d78ca708dc162b8bc8eee2856),
        ) }
    ensures a_cut_blob { opened_object (replicate 32 0) (context_with 0x80000000 40) ≡ None }
{}
