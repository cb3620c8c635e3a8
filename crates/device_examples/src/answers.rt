//! Worked examples of which responses are taken as the answer to a command, on both sides of each
//! limit. Bytes of commands and responses come from other programs' runs.

ghost use Rattle.std.specs.Prelude.{◌≡◌, ◌∷◌, ◌++◌, [], take, length, true, false, Some, None};
ghost use Rattle.std.specs.List.{range_with_len};
ghost use Rattle.tab_spec.specs.declared.TheConstants.{CC_GET_RANDOM, CC_SELF_TEST};
ghost use Rattle.tab_spec.specs.declared.contexts.TheConstants.{PROFILE_CONTEXTS, TPM_CONTEXTS};
ghost use Rattle.tab_spec.specs.Commands.{startup_command};
ghost use Rattle.device_spec.specs.Answers.{takes, wrong, saved_handle_place, word_at};
ghost use Rattle.tab_examples.specs.Examples.{u32, bytes_of, frame, get_random, refusal, flush, save};
ghost use Rattle.tab_examples.specs.Examples.{context_with, sealed_context, extend, extend_reply};
ghost use Rattle.tab_examples.specs.Examples.{plain_auth, one_digest};
ghost use Rattle.tab_examples.specs.SessionExamples.{next_32};
ghost use Rattle.device_examples.specs.Examples.{start_session, start_reply, first_context};
ghost use Rattle.device_examples.specs.Examples.{second_context, load_context, ask, answer};
ghost use Rattle.device_examples.specs.Examples.{primary_asked, primary_params, primary_reply};
ghost use Rattle.device_examples.specs.Examples.{password_response_auth, codes_taken, handles_taken};
ghost use Rattle.device_examples.specs.Examples.{lists_taken, starts_taken, saves};

// A success has the tag of the command.
fn successes_have_the_commands_tag()
    ensures success { takes PROFILE_CONTEXTS true true (get_random 0 4)
        (frame 0x8001 0 (0 ∷ 4 ∷ 0x76 ∷ 0xb8 ∷ 0xe0 ∷ 0xad ∷ []))
        ≡ true }
    ensures other_tag { takes PROFILE_CONTEXTS false false (get_random 0 4)
        (frame 0x8002 0 (0 ∷ 4 ∷ 0x76 ∷ 0xb8 ∷ 0xe0 ∷ 0xad ∷ []))
        ≡ false }
    ensures bad_tag { takes PROFILE_CONTEXTS false false (get_random 0 4) (frame 0x00c4 0 [])
        ≡ false }
    ensures plain_tag { takes PROFILE_CONTEXTS false false (frame 0x8002 CC_GET_RANDOM [])
        (frame 0x8001 0 []) ≡ false }
{}

// A response is one frame of 10 to 4,096 bytes, as long as it says.
fn responses_are_one_frame()
    ensures shortest { takes PROFILE_CONTEXTS true true (frame 0x8001 CC_SELF_TEST (1 ∷ []))
        (refusal 0 0) ≡ true }
    ensures nine_bytes { takes PROFILE_CONTEXTS false false
        (frame 0x8001 CC_SELF_TEST (1 ∷ [])) (take 9 (refusal 0 0))
        ≡ false }
    ensures nothing { takes PROFILE_CONTEXTS false false (frame 0x8001 CC_SELF_TEST (1 ∷ [])) []
        ≡ false }
    ensures a_byte_more { takes PROFILE_CONTEXTS false false
        (frame 0x8001 CC_SELF_TEST (1 ∷ [])) (refusal 0 0 ++ 0 ∷ [])
        ≡ false }
    ensures size_of_one_more { takes PROFILE_CONTEXTS false false
        (frame 0x8001 CC_SELF_TEST (1 ∷ [])) (0x80 ∷ 0x01 ∷ 0 ∷ 0 ∷ 0 ∷ 0x0b ∷ 0 ∷ 0 ∷ 0 ∷ 0 ∷ [])
        ≡ false }
{}

// CreatePrimary has the handle of an object.
fn new_objects_have_their_handles()
    ensures bytes { primary_reply 0x80000000 217 password_response_auth
        ≡ bytes_of 18 0x8002000000f00000000080000000000000d9 ++ primary_params
        ++ bytes_of 5 0x10000 }
    ensures taken { takes PROFILE_CONTEXTS true true primary_asked
        (primary_reply 0x80000000 217 password_response_auth)
        ≡ true }
    ensures any_object { takes PROFILE_CONTEXTS true true primary_asked
        (primary_reply 0x80ffffff 217 password_response_auth)
        ≡ true }
    ensures session { takes PROFILE_CONTEXTS false false primary_asked
        (primary_reply 0x02000000 217 password_response_auth)
        ≡ false }
    ensures persistent { takes PROFILE_CONTEXTS false false primary_asked
        (primary_reply 0x81000000 217 password_response_auth)
        ≡ false }
{}

// CreatePrimary's parameters are as long as its response says, and one authorization fills the
// response after them.
fn one_authorization_fills_the_response()
    ensures parameters_one_less { takes PROFILE_CONTEXTS false false primary_asked
        (primary_reply 0x80000000 216 password_response_auth)
        ≡ false }
    ensures parameters_one_more { takes PROFILE_CONTEXTS false false primary_asked
        (primary_reply 0x80000000 218 password_response_auth)
        ≡ false }
    ensures cut { takes PROFILE_CONTEXTS false false primary_asked
        (primary_reply 0x80000000 217 (0 ∷ 0 ∷ 1 ∷ 0 ∷ []))
        ≡ false }
    ensures a_byte_over { takes PROFILE_CONTEXTS false false primary_asked
        (primary_reply 0x80000000 217 (password_response_auth ++ 0 ∷ []))
        ≡ false }
    ensures nonce_and_hmac { takes PROFILE_CONTEXTS true true primary_asked
        (primary_reply 0x80000000 217 (0 ∷ 2 ∷ 7 ∷ 7 ∷ 1 ∷ 0 ∷ 1 ∷ 7 ∷ []))
        ≡ true }
    ensures two_authorizations { takes PROFILE_CONTEXTS false false primary_asked
        (primary_reply 0x80000000 217 (password_response_auth ++ password_response_auth))
        ≡ false }
{}

// The response to an authorized command has the tag of the command and an authorization, whether it
// has a handle or none.
fn no_authorization_is_left_out()
    ensures other_tag { takes PROFILE_CONTEXTS false false primary_asked
        (frame 0x8001 0 (u32 0x80000000 ++ u32 217 ++ primary_params ++ password_response_auth))
        ≡ false }
    ensures no_authorization { takes PROFILE_CONTEXTS false false primary_asked
        (primary_reply 0x80000000 217 []) ≡ false }
    ensures without_a_handle { takes PROFILE_CONTEXTS true true
        (extend (plain_auth 0x40000009) (one_digest [])) extend_reply
        ≡ true }
    ensures no_area { takes PROFILE_CONTEXTS false false
        (extend (plain_auth 0x40000009) (one_digest [])) (frame 0x8002 0 [])
        ≡ false }
{}

// ContextLoad has the handle of an object, or of the session that was saved.
fn loads_have_their_handles()
    ensures object { handles_taken (load_context (sealed_context 1 (0xdb ∷ []))) (0x80000000
        ∷ 0x80000002 ∷ 0x80ffffff ∷ 0x81000000 ∷ 0x02000000 ∷ 0x7fffffff ∷ [])
        ≡ 0x80000000 ∷ 0x80000002 ∷ 0x80ffffff ∷ [] }
    ensures session { handles_taken (load_context (first_context 0xca))
        (0x80000000 ∷ 0x02000000 ∷ 0x02000001 ∷ 0x03000000 ∷ [])
        ≡ 0x02000000 ∷ [] }
    ensures policy { handles_taken (load_context second_context)
        (0x02000001 ∷ 0x03000001 ∷ 0x03000000 ∷ [])
        ≡ 0x03000001 ∷ [] }
    ensures no_handle { takes PROFILE_CONTEXTS false false (load_context (first_context 0xca))
        (frame 0x8001 0 []) ≡ false }
    ensures three_bytes { takes PROFILE_CONTEXTS false false
        (load_context (sealed_context 1 (0xdb ∷ []))) (frame 0x8001 0 (0x80 ∷ 0 ∷ 0 ∷ []))
        ≡ false }
    ensures four_bytes { takes PROFILE_CONTEXTS true true
        (load_context (sealed_context 1 (0xdb ∷ []))) (frame 0x8001 0 (0x80 ∷ 0 ∷ 0 ∷ 0 ∷ []))
        ≡ true }
    ensures saved_handle { word_at saved_handle_place (load_context second_context)
        ≡ Some 0x03000001 }
    ensures three_bytes_of_it { word_at saved_handle_place (take 21 (load_context second_context))
        ≡ None }
{}

// StartAuthSession has the handle of a session of its type, with a number below 64.
fn starts_have_handles_of_their_type()
    ensures hmac { starts_taken 0 (0x02000000 ∷ 0x0200003f ∷ 0x02000040 ∷ 0x02000100 ∷ 0x02010000
        ∷ 0x03000000 ∷ 0x80000000 ∷ [])
        ≡ 0x02000000 ∷ 0x0200003f ∷ [] }
    ensures policy { starts_taken 1 (0x02000001 ∷ 0x03000001 ∷ 0x0300003f ∷ 0x03000040 ∷ [])
        ≡ 0x03000001 ∷ 0x0300003f ∷ [] }
    ensures trial { starts_taken 3 (0x02000001 ∷ 0x03000001 ∷ 0x0300003f ∷ 0x03000040 ∷ [])
        ≡ 0x03000001 ∷ 0x0300003f ∷ [] }
    ensures no_type { starts_taken 2 (0x02000000 ∷ 0x03000000 ∷ []) ≡ [] }
    ensures cut_before_the_type { takes PROFILE_CONTEXTS false false (take 54 (start_session 0))
        (start_reply 0x02000000 next_32)
        ≡ false }
    ensures cut_after_the_type { takes PROFILE_CONTEXTS false false (take 55 (start_session 0))
        (start_reply 0x02000000 next_32)
        ≡ true }
{}

// The number of a session that starts is one that no client has.
fn starts_have_numbers_of_nobody()
    ensures taken_number { takes PROFILE_CONTEXTS false true (start_session 0)
        (start_reply 0x02000000 next_32) ≡ false }
    ensures free_number { takes PROFILE_CONTEXTS true false (start_session 0)
        (start_reply 0x02000000 next_32) ≡ true }
    ensures maybe_taken { wrong PROFILE_CONTEXTS (start_session 0) (Some (start_reply 0x02000000
        next_32)) ≡ true }
{}

// ContextSave has a context of what it names: of an object as 0x80000000, of a session under its
// own handle.
fn saves_have_contexts_of_their_handles()
    ensures object { saves PROFILE_CONTEXTS 0x80000001 (sealed_context 1 (0xdb ∷ [])) ≡ true }
    ensures object_of_a_session { saves PROFILE_CONTEXTS 0x80000000 (first_context 0xca) ≡ false }
    ensures slot_handle { saves PROFILE_CONTEXTS 0x80000001 (context_with 0x80000001 0) ≡ false }
    ensures session { saves PROFILE_CONTEXTS 0x02000000 (first_context 0xca) ≡ true }
    ensures other_number { saves PROFILE_CONTEXTS 0x02000001 (first_context 0xca) ≡ false }
    ensures other_octet { saves PROFILE_CONTEXTS 0x03000000 (first_context 0xca) ≡ false }
    ensures session_of_an_object { saves PROFILE_CONTEXTS 0x02000000 (sealed_context 1 (0xdb ∷ []))
        ≡ false }
{}

// The context of an object has at most 512 bytes, and that of a session at most 256.
fn saved_contexts_have_limits()
    ensures lengths { length (context_with 0x80000000 494) ≡ 512 }
    ensures longest_object { saves PROFILE_CONTEXTS 0x80000000 (context_with 0x80000000 494)
        ≡ true }
    ensures longer_object { saves PROFILE_CONTEXTS 0x80000000 (context_with 0x80000000 495)
        ≡ false }
    ensures longest_session { saves PROFILE_CONTEXTS 0x03000007 (context_with 0x03000007 238)
        ≡ true }
    ensures longer_session { saves PROFILE_CONTEXTS 0x03000007 (context_with 0x03000007 239)
        ≡ false }
    ensures shortest { saves PROFILE_CONTEXTS 0x03000007 (context_with 0x03000007 0) ≡ true }
{}

// ContextSave has one whole context, with no byte behind it, and no error in its place.
fn saves_have_one_whole_context()
    ensures a_byte_over { saves PROFILE_CONTEXTS 0x02000000 (first_context 0xca ++ 0 ∷ []) ≡ false }
    ensures a_byte_cut { saves PROFILE_CONTEXTS 0x02000000 (take 127 (first_context 0xca)) ≡ false }
    ensures no_context { saves PROFILE_CONTEXTS 0x02000000 [] ≡ false }
    ensures refused { codes_taken false (save 0x02000000) (0 ∷ 0x101 ∷ 0x100 ∷ 0x901 ∷ 0x910 ∷ [])
        ≡ [] }
{}

// A TPM that isn't the profile's saves an object as 0x80000002 too.
fn other_tpms_save_under_more_handles()
    ensures object { saves TPM_CONTEXTS 0x80000001 (sealed_context 1 (0xdb ∷ [])) ≡ true }
    ensures st_clear { saves TPM_CONTEXTS 0x80000001 (context_with 0x80000002 0) ≡ true }
    ensures sequence_object { saves TPM_CONTEXTS 0x80000001 (context_with 0x80000001 0) ≡ false }
    ensures not_of_the_profile { saves PROFILE_CONTEXTS 0x80000001 (context_with 0x80000002 0)
        ≡ false }
    ensures session { saves TPM_CONTEXTS 0x02000000 (first_context 0xca) ≡ true }
    ensures object_of_a_session { saves TPM_CONTEXTS 0x80000000 (first_context 0xca) ≡ false }
    ensures session_of_an_object { saves TPM_CONTEXTS 0x02000000 (context_with 0x80000002 0)
        ≡ false }
{}

// On a TPM that isn't the profile's the context of an object has at most 2,048 bytes, and that of a
// session at most 1,024.
fn other_tpms_have_larger_contexts()
    ensures lengths { length (context_with 0x80000002 2030) ≡ 2048 }
    ensures longest_object { saves TPM_CONTEXTS 0x80000000 (context_with 0x80000002 2030) ≡ true }
    ensures longer_object { saves TPM_CONTEXTS 0x80000000 (context_with 0x80000002 2031) ≡ false }
    ensures longest_session { saves TPM_CONTEXTS 0x03000007 (context_with 0x03000007 1006) ≡ true }
    ensures longer_session { saves TPM_CONTEXTS 0x03000007 (context_with 0x03000007 1007) ≡ false }
{}

// A TPM that isn't the profile's loads each context of an object that the broker keeps. What has
// nothing to do with contexts is taken as of the profile.
fn other_tpms_load_what_a_broker_keeps()
    ensures kept_object { takes TPM_CONTEXTS true true (load_context (context_with 0x80000002 0))
        (refusal 0x01 0xdf)
        ≡ false }
    ensures other_object { takes TPM_CONTEXTS false true (load_context (context_with 0x80000002 0))
        (refusal 0x01 0xdf)
        ≡ true }
    ensures loaded { takes TPM_CONTEXTS true true (load_context (context_with 0x80000002 0))
        (frame 0x8001 0 (u32 0x80000001))
        ≡ true }
    ensures maybe_kept { wrong TPM_CONTEXTS (load_context (context_with 0x80000002 0))
        (Some (refusal 0x01 0xdf))
        ≡ true }
    ensures random { takes TPM_CONTEXTS true true (get_random 0 4)
        (frame 0x8001 0 (0 ∷ 4 ∷ 0x76 ∷ 0xb8 ∷ 0xe0 ∷ 0xad ∷ []))
        ≡ true }
{}

// An error is ten bytes with the tag 0x8001, also of a command with authorizations.
fn errors_are_ten_bytes()
    ensures taken { takes PROFILE_CONTEXTS true true (get_random 0 4) (refusal 0x01 0xda) ≡ true }
    ensures other_tag { takes PROFILE_CONTEXTS false false (get_random 0 4) (frame 0x8002 0x1da [])
        ≡ false }
    ensures bad_tag { takes PROFILE_CONTEXTS false false (get_random 0 4) (frame 0x00c4 0x1e [])
        ≡ false }
    ensures eleven_bytes { takes PROFILE_CONTEXTS false false (get_random 0 4) (frame 0x8001 0x1da
        (0 ∷ [])) ≡ false }
    ensures of_authorized { takes PROFILE_CONTEXTS true true primary_asked (refusal 0x09 0xa2)
        ≡ true }
    ensures with_its_tag { takes PROFILE_CONTEXTS false false primary_asked (frame 0x8002 0x9a2 [])
        ≡ false }
{}

// An error has no code that a broker hides. Where no response came, none is wrong.
fn errors_have_codes_for_clients()
    ensures usual { codes_taken false
        (get_random 0 4) (0x1e ∷ 0x101 ∷ 0x143 ∷ 0x2da ∷ 0x905 ∷ 0x921 ∷ 0x922 ∷ 0x98e ∷ [])
        ≡ 0x1e ∷ 0x101 ∷ 0x143 ∷ 0x2da ∷ 0x905 ∷ 0x921 ∷ 0x922 ∷ 0x98e ∷ [] }
    ensures startup { codes_taken false (get_random 0 4) (0xff ∷ 0x100 ∷ 0x101 ∷ [])
        ≡ 0xff ∷ 0x101 ∷ [] }
    ensures memory { codes_taken false (get_random 0 4) (range_with_len 0x900 12)
        ≡ 0x900 ∷ 0x904 ∷ 0x905 ∷ 0x906 ∷ 0x907 ∷ 0x908 ∷ 0x90a ∷ 0x90b ∷ [] }
    ensures references { codes_taken false (get_random 0 4) (range_with_len 0x90f 17)
        ≡ 0x90f ∷ 0x917 ∷ 0x91f ∷ [] }
    ensures brokers_own { codes_taken false (get_random 0 4) (range_with_len 0x000b0000 6)
        ≡ 0x000b0000 ∷ 0x000b0005 ∷ [] }
    ensures maybe_wrong { wrong PROFILE_CONTEXTS (get_random 0 4) (Some (refusal 0x09 0x10))
        ≡ true }
    ensures none_came { wrong PROFILE_CONTEXTS (get_random 0 4) None ≡ false }
{}

// The broker's own commands have no errors, but that a device had started before. A ContextLoad of
// an object is its own where it keeps the context.
fn own_commands_succeed()
    ensures startup { codes_taken true
        startup_command (0 ∷ 0xff ∷ 0x100 ∷ 0x101 ∷ 0x143 ∷ 0x910 ∷ [])
        ≡ 0 ∷ 0x100 ∷ [] }
    ensures flush { codes_taken false (flush 0x80000000) (0 ∷ 0x100 ∷ 0x1cb ∷ 0x1c4 ∷ []) ≡ 0 ∷ [] }
    ensures session { codes_taken false
        (load_context (first_context 0xca)) (0x1df ∷ 0x1cb ∷ 0x903 ∷ 0x100 ∷ [])
        ≡ [] }
    ensures kept_object { codes_taken true
        (load_context (sealed_context 1 (0xdb ∷ []))) (0x1df ∷ 0x1d5 ∷ 0x100 ∷ 0x902 ∷ [])
        ≡ [] }
    ensures other_object { codes_taken false
        (load_context (sealed_context 1 (0xdb ∷ []))) (0x1df ∷ 0x1d5 ∷ 0x100 ∷ 0x902 ∷ [])
        ≡ 0x1df ∷ 0x1d5 ∷ [] }
    ensures maybe_kept { wrong PROFILE_CONTEXTS (load_context (sealed_context 1 (0xda ∷ [])))
        (Some (refusal 0x01 0xdf))
        ≡ true }
    ensures no_context { codes_taken true
        (load_context (context_with 0x80000001 0)) (0x1c4 ∷ 0x100 ∷ [])
        ≡ 0x1c4 ∷ [] }
{}

// What GetCapability asks of a client's tables is the broker's own.
fn lists_of_tables_have_no_errors()
    ensures objects { codes_taken false (ask 1 0x80000000 1) (0x1c4 ∷ 0x101 ∷ []) ≡ [] }
    ensures loaded { codes_taken false (ask 1 0x02000000 1) (0x1c4 ∷ 0x101 ∷ []) ≡ [] }
    ensures saved { codes_taken false (ask 1 0x03000000 1) (0x1c4 ∷ 0x101 ∷ []) ≡ [] }
    ensures properties { codes_taken false (ask 6 0x100 1) (0x1c4 ∷ 0x101 ∷ []) ≡ [] }
    ensures told { takes PROFILE_CONTEXTS true true (ask 1 0x80000000 1) (answer 0 1 (u32 0))
        ≡ true }
{}

// What else GetCapability asks for may be refused, and so may a command that is cut.
fn other_capabilities_have_errors()
    ensures indexes { codes_taken false (ask 1 0x01000000 1) (0x1c4 ∷ 0x101 ∷ 0x100 ∷ [])
        ≡ 0x1c4 ∷ 0x101 ∷ [] }
    ensures persistent { codes_taken false (ask 1 0x81000000 1) (0x1c4 ∷ 0x101 ∷ 0x100 ∷ [])
        ≡ 0x1c4 ∷ 0x101 ∷ [] }
    ensures commands { codes_taken false (ask 2 0 1) (0x1c4 ∷ 0x101 ∷ 0x100 ∷ [])
        ≡ 0x1c4 ∷ 0x101 ∷ [] }
    ensures pcrs { codes_taken false (ask 5 0 1) (0x1c4 ∷ 0x101 ∷ 0x100 ∷ []) ≡ 0x1c4 ∷ 0x101 ∷ [] }
    ensures cut { codes_taken false (take 17 (ask 1 0x80000000 1)) (0x2da ∷ 0x100 ∷ [])
        ≡ 0x2da ∷ [] }
{}

// Objects alone stand in the list of objects.
fn objects_are_listed_by_themselves()
    ensures objects { lists_taken 0x80000000 (0x80000000 ∷ 0x80fffffe ∷ []) ≡ true }
    ensures session_as_object { lists_taken 0x80000000 (0x80000000 ∷ 0x02000000 ∷ []) ≡ false }
    ensures persistent { lists_taken 0x80000000 (0x81000000 ∷ []) ≡ false }
{}

// Sessions of either type, and nothing else, stand in the two lists of sessions.
fn sessions_are_listed_by_themselves()
    ensures none { lists_taken 0x03000000 [] ≡ true }
    ensures loaded { lists_taken 0x02000000 (0x02000000 ∷ 0x0300003f ∷ []) ≡ true }
    ensures saved { lists_taken 0x03000000 (0x03000001 ∷ 0x02000040 ∷ []) ≡ true }
    ensures object_as_session { lists_taken 0x02000000 (0x80000000 ∷ []) ≡ false }
    ensures persistent_as_session { lists_taken 0x02000000 (0x81000000 ∷ []) ≡ false }
    ensures object_as_saved { lists_taken 0x03000000 (0x80000000 ∷ []) ≡ false }
    ensures permanent_as_saved { lists_taken 0x03000000 (0x40000007 ∷ []) ≡ false }
{}

// A list of handles counts them, and has no others behind them.
fn lists_of_handles_count_them()
    ensures one_too_few { takes PROFILE_CONTEXTS true true (ask 1 0x80000000 254) (answer 0 1
        (u32 1)) ≡ false }
    ensures one_too_many { takes PROFILE_CONTEXTS true true
        (ask 1 0x80000000 254) (answer 0 1 (u32 0 ++ u32 0x80000000))
        ≡ false }
    ensures a_byte_more { takes PROFILE_CONTEXTS true true (ask 1 0x80000000 254) (answer 0 1 (u32 0
        ++ 0 ∷ [])) ≡ false }
    ensures no_count { takes PROFILE_CONTEXTS true true (ask 1 0x80000000 254) (answer 0 1 (0 ∷ 0 ∷
        0 ∷ [])) ≡ false }
    ensures nothing { takes PROFILE_CONTEXTS true true (ask 1 0x80000000 254) (refusal 0 0)
        ≡ false }
{}

// A list of handles says that none is left over, whatever count was asked for. That of NV indexes
// may say that some are.
fn lists_of_handles_leave_none_over()
    ensures neither_yes_nor_no { takes PROFILE_CONTEXTS true true (ask 1 0x80000000 254) (answer 2 1
        (u32 0)) ≡ false }
    ensures more { takes PROFILE_CONTEXTS true true (ask 1 0x80000000 254) (answer 1 1 (u32 0))
        ≡ false }
    ensures other_capability { takes PROFILE_CONTEXTS true true (ask 1 0x80000000 254) (answer 0 6
        (u32 0)) ≡ false }
    ensures any_count { takes PROFILE_CONTEXTS true true (ask 1 0x03000000 1) (answer 1 1 (u32 1 ++
        u32 0x03000000)) ≡ false }
    ensures of_others { takes PROFILE_CONTEXTS true true (ask 1 0x01000000 1) (answer 1 1 (u32 9))
        ≡ true }
{}
