//! Worked examples of the limits of frames, handles, authorizations, PCRs, the random stream and
//! lists.

ghost use Rattle.std.specs.List.{filter, range_with_len};
ghost use Rattle.std.specs.Prelude.{◌≡◌, ◌+◌, ◌*◌, ◌^◌, ◌∷◌, ◌++◌, [], map, replicate, take, true};
ghost use Rattle.std.specs.Prelude.{false, Ok, Err, Some, None, is_ok, is_some};
ghost use Rattle.tab_spec.specs.declared.TheConstants.{RS_PW, CC_GET_RANDOM};
ghost use Rattle.sha2.specs.Sha256.{sha256};
ghost use Rattle.tab_spec.specs.Auths.{auths_of};
ghost use Rattle.tab_spec.specs.Values.{selection_of, selected_below};
ghost use Rattle.effect_spec.specs.Pcr.{answered_pcrs, answered_selection, pcr_values, extended};
ghost use Rattle.effect_spec.specs.Pcr.{pcr_extend_row};
ghost use Rattle.tab_spec.specs.Persist.{selected_digest};
ghost use Rattle.effect_spec.specs.Authorization.{password_fault};
ghost use Rattle.tab_spec.specs.Numbers.{profile_numbers};
ghost use Rattle.effect_spec.specs.Capabilities.{client_limits, device_limits, handle_items};
ghost use Rattle.effect_spec.specs.Capabilities.{listed, property_pairs};
ghost use Rattle.tab_examples.specs.Examples.{u32, frame, area, plain_auth, random_shape, with_indexes};
ghost use Rattle.tab_examples.specs.Examples.{one_digest};
ghost use Rattle.effect_examples.specs.Examples.{another_device, empty_capability, two_sessions};
ghost use Rattle.tab_examples.specs.SessionExamples.{updated, session_auth};
ghost use Rattle.effect_examples.specs.SessionExamples.{guarded};

#[tactic(auto, unfolding(tab_spec::specs::Auths::auths_of, tab_spec::specs::Auths::auths_from))]
fn authorizations_have_limits()
    ensures three { is_ok (auths_of (frame 0x8002 CC_GET_RANDOM
        (area (plain_auth RS_PW ++ plain_auth RS_PW ++ plain_auth RS_PW))) (random_shape 0x8002))
        ≡ true }
    ensures hmacs { filter (λ size. is_ok (auths_of (frame 0x8002 CC_GET_RANDOM (area (u32 RS_PW
        ++ 0 ∷ 0 ∷ 0 ∷ 0 ∷ size ∷ replicate size 1))) (random_shape 0x8002))) (range_with_len 60 8)
        ≡ range_with_len 60 5 }
    ensures attributes { filter
        (λ bit. is_some (password_fault guarded (session_auth [] (2 ^ bit) (5 ∷ [])) (5 ∷ [])))
        (range_with_len 0 8)
        ≡ 1 ∷ 2 ∷ 3 ∷ 4 ∷ 5 ∷ 6 ∷ 7 ∷ [] }
    ensures zeros { password_fault guarded
        (session_auth [] 0 (5 ∷ replicate 63 0)) (5 ∷ replicate 63 0)
        ≡ None }
    ensures no_password { password_fault guarded (session_auth [] 0 []) [] ≡ Some 0x9a2 }
    ensures not_by_auth { password_fault (record guarded { user_with_auth = false })
        (session_auth [] 0 (5 ∷ [])) (5 ∷ [])
        ≡ Some 0x12f }
    ensures not_by_auth_first { password_fault (record guarded { user_with_auth = false })
        (session_auth [] 0 (6 ∷ [])) (6 ∷ [])
        ≡ Some 0x12f }
    ensures nonce_first { password_fault (record guarded { user_with_auth = false })
        (session_auth (1 ∷ []) 0 (5 ∷ [])) (1 ∷ 5 ∷ [])
        ≡ Some 0x98f }
{}

// The update count of PCRs begins again after 2^32 - 1.
fn update_counts_begin_again()
    ensures last_count { (extended (updated 0xfffffffe) 7 (Some (replicate 32 5))).updates
        ≡ 0xffffffff }
    ensures past_it { (extended (updated 0xffffffff) 7 (Some (replicate 32 5))).updates ≡ 0 }
    ensures by_nothing { extended (updated 0xffffffff) 7 None ≡ updated 0xffffffff }
    ensures count { pcr_values (updated 0xfffffffe) (record { bits = None })
        ≡ u32 0xfffffffe ++ u32 0 ++ u32 0 }
{}

// The first and the last PCR change by themselves, by at most one digest.
fn pcrs_change_by_themselves()
    ensures last { pcr_extend_row (updated 0xffffffff) 23 (one_digest (replicate 32 5))
        ≡ Ok (record (updated 0) {
          pcrs = replicate 23 (replicate 32 0) ++ sha256 (replicate 32 0 ++ replicate 32 5) ∷ [];
        }) }
    ensures first { pcr_extend_row (updated 0) 0 (one_digest (replicate 32 5))
        ≡ Ok (record (updated 1) {
          pcrs = sha256 (replicate 32 0 ++ replicate 32 5) ∷ replicate 23 (replicate 32 0);
        }) }
    ensures counts { map
        (λ count. is_ok (pcr_extend_row (updated 0) 7 (u32 count ++ 0 ∷ 0x0b ∷ replicate 32 5)))
        (0 ∷ 1 ∷ 2 ∷ [])
        ≡ false ∷ true ∷ false ∷ [] }
{}

// A selection has three bytes. The first eight PCRs of it are answered, and all are hashed.
fn selections_have_limits()
    ensures selected { selected_below (0x81 ∷ 0x81 ∷ 0x81 ∷ []) 24 ≡ 0 ∷ 7 ∷ 8 ∷ 15 ∷ 16 ∷ 23 ∷ [] }
    ensures eight { answered_pcrs (Some (0x7f ∷ 0 ∷ 0x80 ∷ []))
        ≡ 0 ∷ 1 ∷ 2 ∷ 3 ∷ 4 ∷ 5 ∷ 6 ∷ 23 ∷ [] }
    ensures nine { answered_selection (Some (0xff ∷ 0 ∷ 0x80 ∷ []))
        ≡ record { bits = Some (0xff ∷ 0 ∷ 0 ∷ []) } }
    ensures sizes { filter (λ size.
        is_ok (selection_of (u32 1 ++ 0 ∷ 0x0b ∷ size ∷ replicate size 0))) (range_with_len 0 8)
        ≡ 3 ∷ [] }
    ensures hashed { selected_digest (map (λ pcr. pcr ∷ []) (range_with_len 0 24))
        (Some (0x81 ∷ 0x01 ∷ 0x80 ∷ []))
        ≡ sha256 (0 ∷ 7 ∷ 8 ∷ 23 ∷ []) }
    ensures hashed_none { selected_digest (map (λ pcr. pcr ∷ []) (range_with_len 0 24)) None
        ≡ sha256 [] }
{}

// A list has at most 254 items, and tells whether more are left over.
fn lists_have_limits()
    ensures most { take 9
        (listed (record { capability = 1; property = 0; count = 300 }) (replicate 254 (u32 7)))
        ≡ 0 ∷ u32 1 ++ u32 254 }
    ensures one_more { take 9
        (listed (record { capability = 1; property = 0; count = 300 }) (replicate 255 (u32 7)))
        ≡ 1 ∷ u32 1 ++ u32 254 }
    ensures as_many { listed (record { capability = 1; property = 0; count = 2 })
        (replicate 2 (u32 7))
        ≡ 0 ∷ u32 1 ++ u32 2 ++ u32 7 ++ u32 7 }
    ensures none { listed (record { capability = 1; property = 0; count = 0 }) (replicate 2 (u32 7))
        ≡ 1 ∷ u32 1 ++ u32 0 }
{}

// The capabilities and octets that there are, and the lists that are always the same.
#[tactic(auto, unfolding(crate::proofs::Computing::lists))]
fn capabilities_have_limits()
    ensures capabilities { filter (λ n. is_ok (empty_capability (u32 n ++ u32 0 ++ u32 0)))
        (range_with_len 0 16)
        ≡ 1 ∷ 2 ∷ 5 ∷ 6 ∷ [] }
    ensures octets { filter (λ octet. is_ok (handle_items (with_indexes []) [] [] (octet * 2 ^ 24)))
        (range_with_len 0 256)
        ≡ 0 ∷ 1 ∷ 2 ∷ 3 ∷ 0x40 ∷ 0x80 ∷ 0x81 ∷ [] }
    ensures another_octet { empty_capability (u32 1 ++ u32 0x82000000 ++ u32 1) ≡ Err 0x2cb }
    ensures permanent { handle_items (with_indexes []) [] [] 0x40000000
        ≡ Ok (u32 0x40000001 ∷ u32 0x40000007 ∷ u32 0x40000009 ∷ []) }
    ensures cut { map (λ front. empty_capability front)
        ((0 ∷ 0 ∷ 0 ∷ []) ∷ (u32 1 ++ 0 ∷ []) ∷ (u32 1 ++ u32 0 ++ 0 ∷ []) ∷ [])
        ≡ Err 0x1da ∷ Err 0x2da ∷ Err 0x3da ∷ [] }
    ensures one_byte_over { empty_capability (u32 3 ++ u32 0 ++ u32 0 ++ 0 ∷ []) ≡ Err 0x95 }
    ensures pcrs { empty_capability (u32 5 ++ u32 9 ++ u32 0)
        ≡ Ok (0 ∷ 0 ∷ 0 ∷ 0 ∷ 5 ∷ 0 ∷ 0 ∷ 0 ∷ 1 ∷ 0 ∷ 0x0b ∷ 3 ∷ 255 ∷ 255 ∷ 255 ∷ []) }
{}

// All properties, for a client and of the device, where there is an object, a session in use and a
// saved one.
fn properties_have_values()
    ensures of_a_client { property_pairs (client_limits 64) (0x80000000 ∷ []) two_sessions 5
        ≡ (0x10e, 4096) ∷ (0x110, 64) ∷ (0x111, 64) ∷ (0x112, 24) ∷ (0x114, 0xffffffff)
        ∷ (0x11e, 4096) ∷ (0x11f, 4096) ∷ (0x203, 1) ∷ (0x204, 59) ∷ (0x205, 2) ∷ (0x206, 59)
        ∷ (0x207, 4095) ∷ [] }
    ensures of_a_client_of_16 { property_pairs (client_limits 16) (0x80000000 ∷ []) two_sessions 5
        ≡ (0x10e, 4096) ∷ (0x110, 16) ∷ (0x111, 16) ∷ (0x112, 24) ∷ (0x114, 0xffffffff)
        ∷ (0x11e, 4096) ∷ (0x11f, 4096) ∷ (0x203, 1) ∷ (0x204, 11) ∷ (0x205, 2) ∷ (0x206, 11)
        ∷ (0x207, 4095) ∷ [] }
    ensures of_another_device { property_pairs (device_limits another_device)
        (0x80000000 ∷ []) two_sessions 2
        ≡ (0x10e, 254) ∷ (0x110, 6) ∷ (0x111, 16) ∷ (0x112, 24) ∷ (0x114, 400) ∷ (0x11e, 4096)
        ∷ (0x11f, 4096) ∷ (0x203, 1) ∷ (0x204, 5) ∷ (0x205, 2) ∷ (0x206, 14) ∷ (0x207, 253) ∷ [] }
    ensures of_the_device { property_pairs (device_limits profile_numbers)
        (0x80000000 ∷ []) two_sessions 2
        ≡ (0x10e, 3) ∷ (0x110, 3) ∷ (0x111, 64) ∷ (0x112, 24) ∷ (0x114, 255) ∷ (0x11e, 4096)
        ∷ (0x11f, 4096) ∷ (0x203, 1) ∷ (0x204, 2) ∷ (0x205, 2) ∷ (0x206, 62) ∷ (0x207, 2) ∷ [] }
{}
