//! Worked examples of how sessions begin, how they are spelled, and what refuses them.

ghost use Rattle.std.specs.List.{filter, range_with_len};
ghost use Rattle.std.specs.Prelude.{◌≡◌, ◌-◌, ◌^◌, ◌∷◌, ◌++◌, [], map, replicate, true, false, Ok};
ghost use Rattle.std.specs.Prelude.{Err, Some, None, is_ok, is_some};
ghost use Rattle.tab_spec.specs.declared.SessionKind.TheVariants.{Hmac, Trial};
ghost use Rattle.tab_spec.specs.declared.AuthNeeded.TheVariants.{AuthValue, Password};
ghost use Rattle.tab_spec.specs.declared.TheConstants.{RH_OWNER};
ghost use Rattle.sha2.specs.Sha256.{sha256};
ghost use Rattle.tab_spec.specs.Persist.{drawn};
ghost use Rattle.effect_spec.specs.Operands.{absent, plain, a_session};
ghost use Rattle.effect_spec.specs.Sessions.{start_parameters_of, start_parameters_fault};
ghost use Rattle.effect_spec.specs.Sessions.{initial_session_with};
ghost use Rattle.effect_spec.specs.SessionAuths.{cp_hash, rp_hash, operand_name};
ghost use Rattle.tab_examples.specs.Examples.{u32, policy_session, with_indexes};
ghost use Rattle.tab_examples.specs.SessionExamples.{hmac_session, trial_session, caller};
ghost use Rattle.effect_examples.specs.SessionExamples.{usual_start_parameters, start_parameter_bytes};
ghost use Rattle.effect_examples.specs.SessionExamples.{guarded, unseal_fault, unseal_response};

// The parameters of StartAuthSession at their limits, and where they are cut.
fn start_parameters_are_read()
    ensures usual { start_parameters_of (start_parameter_bytes usual_start_parameters ++ 9 ∷ [])
        ≡ Ok (usual_start_parameters, 9 ∷ []) }
    ensures longest { is_ok (start_parameters_of (start_parameter_bytes
        (record usual_start_parameters { nonce = replicate 64 1; salt = replicate 256 2 })))
        ≡ true }
    ensures long_nonce { start_parameters_of
        (start_parameter_bytes (record usual_start_parameters { nonce = replicate 65 1 }))
        ≡ Err 0x1d5 }
    ensures long_salt { start_parameters_of
        (start_parameter_bytes (record usual_start_parameters { salt = replicate 257 2 }))
        ≡ Err 0x2d5 }
    ensures cut { map (λ front. start_parameters_of (front ++ 0 ∷ [])) ([] ∷ (0 ∷ 0 ∷ [])
        ∷ (u32 0 ++ 0 ∷ []) ∷ (u32 0 ++ 0 ∷ 0 ∷ 0x10 ∷ []) ∷ [])
        ≡ Err 0x1da ∷ Err 0x2da ∷ Err 0x4da ∷ Err 0x5da ∷ [] }
    ensures no_kind { start_parameters_of (u32 0) ≡ Err 0x3da }
{}

// What refuses parameters of StartAuthSession.
fn start_parameters_are_refused()
    ensures nonces { map (λ size.
        start_parameters_fault (record usual_start_parameters { nonce = replicate size 1 }))
        (0 ∷ 15 ∷ 16 ∷ 32 ∷ 33 ∷ 64 ∷ [])
        ≡ Some 0x1d5 ∷ Some 0x1d5 ∷ None ∷ None ∷ Some 0x1d5 ∷ Some 0x1d5 ∷ [] }
    ensures salt { start_parameters_fault (record usual_start_parameters { salt = 1 ∷ [] })
        ≡ Some 0x2c4 }
    ensures kinds { map
        (λ kind. start_parameters_fault (record usual_start_parameters { kind = kind }))
        (0 ∷ 1 ∷ 2 ∷ 3 ∷ 4 ∷ 255 ∷ [])
        ≡ None ∷ None ∷ Some 0x3c4 ∷ None ∷ Some 0x3c4 ∷ Some 0x3c4 ∷ [] }
    ensures ciphers { map
        (λ cipher. start_parameters_fault (record usual_start_parameters { symmetric = cipher }))
        (0 ∷ 6 ∷ 0x0f ∷ 0x11 ∷ [])
        ≡ Some 0x4c4 ∷ Some 0x4c4 ∷ Some 0x4c4 ∷ Some 0x4c4 ∷ [] }
    ensures hashes { map
        (λ hash. start_parameters_fault (record usual_start_parameters { hash = hash }))
        (4 ∷ 0x0a ∷ 0x0c ∷ 0x10 ∷ [])
        ≡ Some 0x5c3 ∷ Some 0x5c3 ∷ Some 0x5c3 ∷ Some 0x5c3 ∷ [] }
{}

// Of several wrong parameters of StartAuthSession the first one's fault is told.
fn start_parameters_have_an_order()
    ensures nonce_first { start_parameters_fault
        (record { nonce = []; salt = 1 ∷ []; kind = 2; symmetric = 6; hash = 4 })
        ≡ Some 0x1d5 }
    ensures then_salt { start_parameters_fault
        (record usual_start_parameters { salt = 1 ∷ []; kind = 2; symmetric = 6; hash = 4 })
        ≡ Some 0x2c4 }
    ensures then_kind { start_parameters_fault
        (record usual_start_parameters { kind = 2; symmetric = 6; hash = 4 })
        ≡ Some 0x3c4 }
    ensures then_cipher { start_parameters_fault
        (record usual_start_parameters { symmetric = 6; hash = 4 })
        ≡ Some 0x4c4 }
{}

// A session that was started. Its nonce has to be left in the random stream.
fn sessions_begin()
    ensures initial_session { initial_session_with Trial (Ok (replicate 32 1, with_indexes []))
        ≡ Ok (trial_session, with_indexes []) }
    ensures no_nonce_is_left { initial_session_with Hmac
        (drawn (record (with_indexes []) { place = 2 ^ 62 - 7 }) 32)
        ≡ Err 0x101 }
{}

// What is hashed of a command and of its response; a command's is with the Names of what it names.
fn commands_are_hashed()
    ensures owner { cp_hash (with_indexes []) 0x12a (plain RH_OWNER ∷ absent ∷ []) (1 ∷ 2 ∷ [])
        ≡ sha256 (u32 0x12a ++ u32 RH_OWNER ++ 1 ∷ 2 ∷ []) }
    ensures two { cp_hash (with_indexes []) 0x151
        (plain 23 ∷ a_session 0x03000002 policy_session ∷ []) []
        ≡ sha256 (u32 0x151 ++ u32 23 ++ u32 0x03000002) }
    ensures missing_index { operand_name (with_indexes []) (plain 0x01000001) ≡ [] }
    ensures reply { rp_hash 0x15e (1 ∷ 2 ∷ []) ≡ sha256 (u32 0 ++ u32 0x15e ++ 1 ∷ 2 ∷ []) }
{}

// An HMAC session stands for whatever has the auth value that is its key. An empty hmac passes
// where the key is empty. Of the attributes the first bit alone is taken.
fn hmac_sessions_are_judged()
    ensures empty { unseal_fault (record guarded { auth = [] }) hmac_session caller 1 [] ≡ None }
    ensures no_object { unseal_fault (record guarded { auth = []; is_object = false; policy = [] })
        hmac_session caller 0 []
        ≡ None }
    ensures not_by_auth { unseal_fault (record guarded { auth = []; user_with_auth = false })
        hmac_session [] 1 []
        ≡ Some 0x12f }
    ensures not_by_auth_first { unseal_fault (record guarded { user_with_auth = false })
        hmac_session [] 1 (6 ∷ [])
        ≡ Some 0x12f }
    ensures nonces { map (λ size. unseal_fault (record guarded { auth = [] }) hmac_session
        (replicate size 3) 1 []) (0 ∷ 1 ∷ 32 ∷ 33 ∷ 64 ∷ [])
        ≡ None ∷ None ∷ None ∷ Some 0x995 ∷ Some 0x995 ∷ [] }
    ensures nonce_first { unseal_fault (record guarded { user_with_auth = false }) hmac_session
        (replicate 33 3) 1 []
        ≡ Some 0x995 }
    ensures attributes { filter
        (λ bit. is_some (unseal_fault (record guarded { auth = [] }) hmac_session [] (2 ^ bit) []))
        (range_with_len 0 8)
        ≡ 1 ∷ 2 ∷ 3 ∷ 4 ∷ 5 ∷ 6 ∷ 7 ∷ [] }
    ensures attributes_first { unseal_fault (record guarded { user_with_auth = false }) hmac_session
        (replicate 33 3) 3 []
        ≡ Some 0x982 }
{}

// A policy session stands for an object by its digest and by what its policy asks for beside, also
// where the auth value may not be used. The update count is 7.
fn policy_sessions_are_judged()
    ensures nothing { unseal_fault (record guarded { user_with_auth = false }) policy_session caller
        1 []
        ≡ None }
    ensures empty_auth_value { unseal_fault (record guarded { auth = [] })
        (record policy_session { needed = AuthValue }) caller 1 []
        ≡ None }
    ensures passwords { map (λ password.
        unseal_fault guarded (record policy_session { needed = Password }) caller 1 password)
        ((5 ∷ []) ∷ (5 ∷ replicate 63 0) ∷ (0 ∷ 5 ∷ []) ∷ (6 ∷ []) ∷ [] ∷ [])
        ≡ None ∷ None ∷ Some 0x9a2 ∷ Some 0x9a2 ∷ Some 0x9a2 ∷ [] }
    ensures same_command_and_count { unseal_fault guarded
        (record policy_session { command_code = Some 0x15e; pcr_updates = Some 7 }) [] 1 []
        ≡ None }
{}

// What refuses a policy session, in the order of the faults. The update count is 7.
fn policy_sessions_are_refused()
    ensures trial { unseal_fault (record guarded { is_object = false }) trial_session [] 1 []
        ≡ Some 0x982 }
    ensures no_object { unseal_fault (record guarded { is_object = false; policy = [] })
        (record policy_session { command_code = Some 0x155 }) [] 1 (1 ∷ [])
        ≡ Some 0x12f }
    ensures no_policy { unseal_fault (record guarded { policy = [] })
        (record policy_session { command_code = Some 0x155; pcr_updates = Some 8 }) [] 1 (1 ∷ [])
        ≡ Some 0x99d }
    ensures another_command { unseal_fault guarded
        (record policy_session { command_code = Some 0x155; pcr_updates = Some 8 }) [] 1 (1 ∷ [])
        ≡ Some 0x9a4 }
    ensures another_count { unseal_fault guarded
        (record policy_session { command_code = Some 0x15e; pcr_updates = Some 8 }) [] 1 (1 ∷ [])
        ≡ Some 0x128 }
    ensures long_nonce { unseal_fault guarded trial_session (replicate 33 3) 1 [] ≡ Some 0x995 }
{}

// A session's last nonce has to be left in the random stream.
fn last_nonces_are_drawn()
    ensures last_place { is_ok (unseal_response (record (with_indexes []) { place = 2 ^ 62 - 4 })
        guarded (record hmac_session { nonce = replicate 16 1 }) [] 1 [])
        ≡ true }
    ensures past_it { unseal_response (record (with_indexes []) { place = 2 ^ 62 - 4 }) guarded
        (record hmac_session { nonce = replicate 17 1 }) [] 1 []
        ≡ Err 0x101 }
    ensures of_a_policy { unseal_response (record (with_indexes []) { place = 2 ^ 62 - 7 }) guarded
        policy_session [] 0 []
        ≡ Err 0x101 }
{}
