//! Worked examples of `tab_spec`: frames, shapes, values and keyed hashes. Each `ensures` is computed
//! by the definitions alone.
#![tactic(auto)]

mod limits;
mod sessions;

ghost use Rattle.std.specs.List.{filter, range_with_len};
ghost use Rattle.std.specs.Prelude.{◌≡◌, ◌==◌, ◌+◌, ◌-◌, ◌*◌, ◌^◌, not, bit_or, map, true, false};
ghost use Rattle.std.specs.Prelude.{[], ◌∷◌, ◌++◌, replicate, Ok, Err, Some, None, is_ok};
ghost use Rattle.tab_spec.specs.declared.Kind.TheVariants.{Absent, Object, Pcr, Nv, NvAuth};
ghost use Rattle.tab_spec.specs.declared.SessionKind.TheVariants.{Hmac};
ghost use Rattle.tab_spec.specs.declared.AuthNeeded.TheVariants.{Password};
ghost use Rattle.tab_spec.specs.declared.TheConstants.{CC_GET_RANDOM, CC_READ_PUBLIC, CC_NV_READ};
ghost use Rattle.tab_spec.specs.declared.TheConstants.{CC_PCR_EXTEND, CC_CONTEXT_SAVE};
ghost use Rattle.tab_spec.specs.declared.TheConstants.{CC_CONTEXT_LOAD, CC_POLICY_SECRET};
ghost use Rattle.tab_spec.specs.declared.TheConstants.{CC_POLICY_GET_DIGEST, CC_UNSEAL, CC_CREATE};
ghost use Rattle.tab_spec.specs.declared.TheConstants.{CC_CREATE_PRIMARY, CC_LOAD, RH_OWNER};
ghost use Rattle.tab_spec.specs.declared.TheConstants.{RH_NULL, RS_PW};
ghost use Rattle.tab_spec.specs.declared.contexts.TheConstants.{PROFILE_CONTEXTS, TPM_CONTEXTS};
ghost use Rattle.tab_spec.specs.Commands.{command_row, all_commands, row_of, startup_command};
ghost use Rattle.tab_spec.specs.Shape.{shape_of, makes_object};
ghost use Rattle.tab_spec.specs.Auths.{auths_of, no_auth};
ghost use Rattle.tab_spec.specs.Admission.{admitted};
ghost use Rattle.tab_spec.specs.Values.{has_known_bits, is_fixed_or_not, fits_form};
ghost use Rattle.tab_spec.specs.Values.{has_known_nv_bits, are_nv_attributes, is_nv_size};
ghost use Rattle.tab_spec.specs.Values.{is_policy, public_of, public_bytes, selection_of};
ghost use Rattle.tab_spec.specs.Values.{selection_bytes, nv_public_of, sensitive_of};
ghost use Rattle.tab_spec.specs.Persist.{fresh_persist, drawn};
ghost use Rattle.tab_spec.specs.Session.{session_bytes, session_of};
ghost use Rattle.tab_spec.specs.Hash.{hmac, kdfa, name_of};
ghost use Rattle.tab_spec.specs.Frame.{frames, command, cancel, whole, rest, bad};
ghost use Rattle.tab_examples.specs.Examples.{get_random, cancel_frame, u32, frame, plain_auth, area};
ghost use Rattle.tab_examples.specs.Examples.{random_shape, full_tables, counter, hmac_key};
ghost use Rattle.tab_examples.specs.Examples.{slot_needed};
ghost use Rattle.tab_examples.specs.Examples.{storage_parent, sealed_bytes, policy_session, sealed};

fn streams_are_cut_into_frames()
    ensures nothing { frames [] ≡ record { items = []; ending = whole } }
    ensures two { frames (get_random 0 8 ++ startup_command) ≡ record {
      items = command (get_random 0 8) ∷ command startup_command ∷ [];
      ending = whole;
    } }
    ensures a_cancel_between { frames (get_random 0 8 ++ cancel_frame ++ get_random 0 6) ≡ record {
      items = command (get_random 0 8) ∷ cancel ∷ command (get_random 0 6) ∷ [];
      ending = whole;
    } }
    ensures two_bytes_short { frames (0x80 ∷ 0x01 ∷ 0 ∷ 0 ∷ 0 ∷ 0x0c ∷ 0 ∷ 0 ∷ 0x01 ∷ 0x7b ∷ [])
        ≡ record { items = []; ending = rest } }
    ensures no_size { frames (0x80 ∷ 0x01 ∷ 0 ∷ 0 ∷ 0 ∷ 9 ∷ [])
        ≡ record { items = []; ending = bad 9 } }
{}

// RFC 4231, test case 2; and 40 bytes of OpenSSL's KBKDF of a key of one byte 5, the salt A and the
// info BC.
fn keyed_hashes_are_the_standards()
    ensures mac { hmac (0x4a ∷ 0x65 ∷ 0x66 ∷ 0x65 ∷ []) (0x77 ∷ 0x68 ∷ 0x61 ∷ 0x74 ∷ 0x20 ∷ 0x64
        ∷ 0x6f ∷ 0x20 ∷ 0x79 ∷ 0x61 ∷ 0x20 ∷ 0x77 ∷ 0x61 ∷ 0x6e ∷ 0x74 ∷ 0x20 ∷ 0x66 ∷ 0x6f ∷ 0x72
        ∷ 0x20 ∷ 0x6e ∷ 0x6f ∷ 0x74 ∷ 0x68 ∷ 0x69 ∷ 0x6e ∷ 0x67 ∷ 0x3f ∷ [])
        ≡ 0x5b ∷ 0xdc ∷ 0xc1 ∷ 0x46 ∷ 0xbf ∷ 0x60 ∷ 0x75 ∷ 0x4e ∷ 0x6a ∷ 0x04 ∷ 0x24 ∷ 0x26 ∷ 0x08
        ∷ 0x95 ∷ 0x75 ∷ 0xc7 ∷ 0x5a ∷ 0x00 ∷ 0x3f ∷ 0x08 ∷ 0x9d ∷ 0x27 ∷ 0x39 ∷ 0x83 ∷ 0x9d ∷ 0xec
        ∷ 0x58 ∷ 0xb9 ∷ 0x64 ∷ 0xec ∷ 0x38 ∷ 0x43 ∷ [] }
    ensures derived { kdfa (5 ∷ []) (0x41 ∷ []) (0x42 ∷ []) (0x43 ∷ []) 40
        ≡ 0x5d ∷ 0x4d ∷ 0x99 ∷ 0xfe ∷ 0xfa ∷ 0xf6 ∷ 0x91 ∷ 0x19 ∷ 0xd0 ∷ 0x7f ∷ 0x31 ∷ 0x9f ∷ 0x11
        ∷ 0x69 ∷ 0x25 ∷ 0xca ∷ 0x77 ∷ 0x6f ∷ 0xa2 ∷ 0xe3 ∷ 0x94 ∷ 0xf9 ∷ 0x71 ∷ 0x5b ∷ 0xd9 ∷ 0xec
        ∷ 0x98 ∷ 0xf8 ∷ 0x7c ∷ 0x12 ∷ 0x28 ∷ 0xdd ∷ 0xf3 ∷ 0x32 ∷ 0x59 ∷ 0x55 ∷ 0xc2 ∷ 0xf3 ∷ 0xfd
        ∷ 0xe5 ∷ [] }
    ensures name { name_of (0x61 ∷ 0x62 ∷ 0x63 ∷ [])
        ≡ 0x00 ∷ 0x0b ∷ 0xba ∷ 0x78 ∷ 0x16 ∷ 0xbf ∷ 0x8f ∷ 0x01 ∷ 0xcf ∷ 0xea ∷ 0x41 ∷ 0x41 ∷ 0x40
        ∷ 0xde ∷ 0x5d ∷ 0xae ∷ 0x22 ∷ 0x23 ∷ 0xb0 ∷ 0x03 ∷ 0x61 ∷ 0xa3 ∷ 0x96 ∷ 0x17 ∷ 0x7a ∷ 0x9c
        ∷ 0xb4 ∷ 0x10 ∷ 0xff ∷ 0x61 ∷ 0xf2 ∷ 0x00 ∷ 0x15 ∷ 0xad ∷ [] }
{}

// The public areas of an HMAC key and of a storage parent.
fn public_areas_are_read()
    ensures key { public_of (public_bytes hmac_key ++ 7 ∷ []) ≡ Ok (hmac_key, 7 ∷ []) }
    ensures key_bytes { public_bytes hmac_key
        ≡ 0 ∷ 8 ∷ 0 ∷ 0x0b ∷ 0 ∷ 4 ∷ 0 ∷ 0x72 ∷ 0 ∷ 0 ∷ 0 ∷ 5 ∷ 0 ∷ 0x0b ∷ 0 ∷ 0 ∷ [] }
    ensures parent_bytes { public_bytes storage_parent
        ≡ 0 ∷ 0x25 ∷ 0 ∷ 0x0b ∷ 0 ∷ 3 ∷ 0 ∷ 0x72 ∷ 0 ∷ 0 ∷ 0 ∷ 6 ∷ 0 ∷ 0x80 ∷ 0 ∷ 0x43 ∷ 0 ∷ 0
        ∷ [] }
    ensures parent { public_of (public_bytes storage_parent) ≡ Ok (storage_parent, []) }
{}

// What refuses other public areas.
fn public_areas_are_refused()
    ensures of_rsa { public_of (0 ∷ 1 ∷ []) ≡ Err 0x8a }
    ensures of_sha1 { public_of (0 ∷ 8 ∷ 0 ∷ 4 ∷ []) ≡ Err 0x83 }
    ensures cut { public_of (0 ∷ 8 ∷ 0 ∷ 0x0b ∷ 0 ∷ 4 ∷ 0 ∷ []) ≡ Err 0x95 }
    ensures a_key_that_decrypts { public_of (0 ∷ 8 ∷ 0 ∷ 0x0b ∷ 0 ∷ 6 ∷ 0 ∷ 0x72 ∷ []) ≡ Err 0x82 }
    ensures a_key_without_a_scheme { public_of (0 ∷ 8 ∷ 0 ∷ 0x0b ∷ 0 ∷ 4 ∷ 0 ∷ 0x72 ∷ 0 ∷ 0 ∷ 0
        ∷ 0x10 ∷ [])
        ≡ Err 0x84 }
{}

// Each bit of the attributes by itself, and beside those that an object of its kind has to have.
fn attributes_are_told_bit_by_bit()
    ensures known { filter (λ n. has_known_bits (2 ^ n)) (range_with_len 0 32)
        ≡ 1 ∷ 4 ∷ 5 ∷ 6 ∷ 7 ∷ 10 ∷ 16 ∷ 17 ∷ 18 ∷ [] }
    ensures fixed { filter (λ n. not (is_fixed_or_not (2 ^ n))) (range_with_len 0 32) ≡ 1 ∷ 4 ∷ [] }
    ensures sealed { filter (λ n. not (fits_form 0x08 (2 ^ n))) (range_with_len 0 32)
        ≡ 5 ∷ 16 ∷ 17 ∷ [] }
    ensures key { filter
        (λ n. not (fits_form 0x08 (bit_or 0x00040000 (2 ^ n)))) (range_with_len 0 32)
        ≡ 16 ∷ 17 ∷ [] }
    ensures parent { filter
        (λ n. not (fits_form 0x25 (bit_or 0x00030032 (2 ^ n)))) (range_with_len 0 32)
        ≡ 18 ∷ [] }
    ensures less { filter (λ n. fits_form 0x25 (0x00030032 - 2 ^ n)) (1 ∷ 4 ∷ 5 ∷ 16 ∷ 17 ∷ [])
        ≡ [] }
{}

// Each bit of an index's attributes by itself, and beside one that lets it be read or written.
fn nv_attributes_are_told_bit_by_bit()
    ensures nv_known { filter (λ n. has_known_nv_bits (2 ^ n)) (range_with_len 0 32)
        ≡ 1 ∷ 2 ∷ 4 ∷ 5 ∷ 6 ∷ 7 ∷ 17 ∷ 18 ∷ 25 ∷ 29 ∷ [] }
    ensures nv_writers { filter (λ n. are_nv_attributes (0x00020000 + 2 ^ n)) (range_with_len 0 16)
        ≡ 1 ∷ 2 ∷ [] }
    ensures nv_readers { filter (λ n. are_nv_attributes (0x02 + 2 ^ n)) (range_with_len 2 30)
        ≡ 17 ∷ 18 ∷ [] }
    ensures nv_types { filter (λ n. are_nv_attributes (0x00020002 + 16 * n)) (range_with_len 0 16)
        ≡ 0 ∷ 1 ∷ [] }
{}

// The longest fields, and those of one byte more.
fn fields_have_their_limits()
    ensures sealed { public_of (public_bytes (sealed_bytes (replicate 32 7)) ++ 9 ∷ [])
        ≡ Ok (sealed_bytes (replicate 32 7), 9 ∷ []) }
    ensures long_unique { public_of (public_bytes (sealed_bytes (replicate 33 7))) ≡ Err 0x95 }
    ensures content { sensitive_of (0 ∷ 0 ∷ 0 ∷ 128 ∷ replicate 128 7)
        ≡ Ok (record { auth = []; content = replicate 128 7 }, []) }
    ensures long_content { sensitive_of (0 ∷ 0 ∷ 0 ∷ 129 ∷ replicate 129 7) ≡ Err 0x95 }
    ensures auth { sensitive_of (0 ∷ 32 ∷ replicate 32 1 ++ 0 ∷ 0 ∷ [])
        ≡ Ok (record { auth = replicate 32 1; content = [] }, []) }
    ensures long_auth { sensitive_of (0 ∷ 33 ∷ replicate 33 1 ++ 0 ∷ 0 ∷ []) ≡ Err 0x95 }
    ensures policies { map (λ size. is_policy (replicate size 7)) (0 ∷ 1 ∷ 31 ∷ 32 ∷ 33 ∷ [])
        ≡ true ∷ false ∷ false ∷ true ∷ false ∷ [] }
{}

// An index has at most 2,048 bytes.
fn indexes_have_a_size()
    ensures index { is_nv_size 0x02 2048 ≡ true }
    ensures long_index { is_nv_size 0x02 2049 ≡ false }
{}

// The last words of the random stream.
fn words_have_a_last_place()
    ensures last_place { is_ok (drawn (record (fresh_persist []) { place = 2 ^ 62 - 2 }) 8) ≡ true }
    ensures past_it { drawn (record (fresh_persist []) { place = 2 ^ 62 - 1 }) 8 ≡ Err 0x101 }
{}

fn selections_are_read()
    ensures one { selection_of (0 ∷ 0 ∷ 0 ∷ 1 ∷ 0 ∷ 0x0b ∷ 3 ∷ 0x80 ∷ 0 ∷ 0 ∷ 9 ∷ [])
        ≡ Ok (record { bits = Some (0x80 ∷ 0 ∷ 0 ∷ []) }, 9 ∷ []) }
    ensures none { selection_of (0 ∷ 0 ∷ 0 ∷ 0 ∷ 9 ∷ []) ≡ Ok (record { bits = None }, 9 ∷ []) }
    ensures two { selection_of (0 ∷ 0 ∷ 0 ∷ 2 ∷ []) ≡ Err 0x95 }
    ensures of_sha1 { selection_of (0 ∷ 0 ∷ 0 ∷ 1 ∷ 0 ∷ 4 ∷ []) ≡ Err 0x83 }
    ensures of_four_bytes { selection_of (0 ∷ 0 ∷ 0 ∷ 1 ∷ 0 ∷ 0x0b ∷ 4 ∷ []) ≡ Err 0x84 }
    ensures cut { selection_of (0 ∷ 0 ∷ 0 ∷ 1 ∷ 0 ∷ 0x0b ∷ 3 ∷ 0x80 ∷ 0 ∷ []) ≡ Err 0x9a }
    ensures bytes { selection_bytes (record { bits = Some (0x80 ∷ 0 ∷ 0 ∷ []) })
        ≡ 0 ∷ 0 ∷ 0 ∷ 1 ∷ 0 ∷ 0x0b ∷ 3 ∷ 0x80 ∷ 0 ∷ 0 ∷ [] }
{}

// A counter's public area; and the trailing zeros of an auth value.
fn indexes_and_secrets_are_read()
    ensures counter { nv_public_of (1 ∷ 0 ∷ 0 ∷ 1 ∷ 0 ∷ 0x0b ∷ 2 ∷ 4 ∷ 0 ∷ 0x14 ∷ 0 ∷ 0 ∷ 0 ∷ 8
        ∷ [])
        ≡ Ok (record { index = 0x01000001; attributes = 0x02040014; policy = []; size = 8 }, []) }
    ensures counter_of_nine { nv_public_of (1 ∷ 0 ∷ 0 ∷ 1 ∷ 0 ∷ 0x0b ∷ 2 ∷ 4 ∷ 0 ∷ 0x14 ∷ 0 ∷ 0 ∷ 0
        ∷ 9 ∷ [])
        ≡ Err 0x95 }
    ensures of_no_writer { nv_public_of (1 ∷ 0 ∷ 0 ∷ 1 ∷ 0 ∷ 0x0b ∷ 2 ∷ 4 ∷ 0 ∷ 0x10 ∷ [])
        ≡ Err 0x82 }
    ensures of_another_octet { nv_public_of (2 ∷ 0 ∷ 0 ∷ 1 ∷ []) ≡ Err 0x84 }
    ensures zeros { sensitive_of (0 ∷ 4 ∷ 0 ∷ 1 ∷ 0 ∷ 0 ∷ 0 ∷ 1 ∷ 5 ∷ [])
        ≡ Ok (record { auth = 0 ∷ 1 ∷ []; content = 5 ∷ [] }, []) }
{}

// The codes of TPM 2.0 Part 2, section 6.5.2, by their numbers.
fn the_commands_are_these()
    ensures codes { map (λ r. r.code) all_commands
        ≡ 0x122 ∷ 0x12a ∷ 0x131 ∷ 0x134 ∷ 0x137 ∷ 0x143 ∷ 0x144 ∷ 0x14e ∷ 0x151 ∷ 0x153 ∷ 0x155
        ∷ 0x157 ∷ 0x15e ∷ 0x161 ∷ 0x162 ∷ 0x165 ∷ 0x169 ∷ 0x16b ∷ 0x16c ∷ 0x171 ∷ 0x173 ∷ 0x176
        ∷ 0x17a ∷ 0x17b ∷ 0x17e ∷ 0x17f ∷ 0x180 ∷ 0x182 ∷ 0x189 ∷ 0x18c ∷ [] }
    ensures with_a_response_handle { map
        (λ r. r.code) (filter (λ r. r.response_handle) all_commands)
        ≡ 0x131 ∷ 0x157 ∷ 0x161 ∷ 0x176 ∷ [] }
    ensures with_one_authorization { map
        (λ r. r.code) (filter (λ r. r.authorized == 1) all_commands)
        ≡ 0x122 ∷ 0x12a ∷ 0x131 ∷ 0x134 ∷ 0x137 ∷ 0x14e ∷ 0x151 ∷ 0x153 ∷ 0x155 ∷ 0x157 ∷ 0x15e
        ∷ 0x182 ∷ [] }
    ensures with_none { map (λ r. r.code) (filter (λ r. r.authorized == 0) all_commands)
        ≡ 0x143 ∷ 0x144 ∷ 0x161 ∷ 0x162 ∷ 0x165 ∷ 0x169 ∷ 0x16b ∷ 0x16c ∷ 0x171 ∷ 0x173 ∷ 0x176
        ∷ 0x17a ∷ 0x17b ∷ 0x17e ∷ 0x17f ∷ 0x180 ∷ 0x189 ∷ 0x18c ∷ [] }
{}

// A command's row, tag, handles and the place after them.
#[tactic(auto, unfolding(tab_spec::specs::Shape::shape_of))]
fn shapes_are_told()
    ensures one_handle { shape_of (frame 0x8001 CC_READ_PUBLIC (u32 0x80000000)) ≡ Ok (record {
      row = command_row CC_READ_PUBLIC Object Absent 0 false;
      tag = 0x8001;
      handles = 0x80000000 ∷ 0 ∷ [];
      count = 1;
      rest = 14;
    }) }
    ensures two_handles { shape_of (frame 0x8002 CC_NV_READ (u32 RH_OWNER ++ u32 0x01000001))
        ≡ Ok (record {
          row = command_row CC_NV_READ NvAuth Nv 1 false;
          tag = 0x8002;
          handles = RH_OWNER ∷ 0x01000001 ∷ [];
          count = 2;
          rest = 18;
        }) }
    ensures last_pcr { shape_of (frame 0x8002 CC_PCR_EXTEND (u32 23)) ≡ Ok (record {
      row = command_row CC_PCR_EXTEND Pcr Absent 1 false;
      tag = 0x8002;
      handles = 23 ∷ 0 ∷ [];
      count = 1;
      rest = 14;
    }) }
{}

// The first fault of a command's code and handles: each handle is whole before any is of its kind.
#[tactic(auto, unfolding(tab_spec::specs::Shape::shape_of))]
fn shapes_are_refused()
    ensures cut_handle { shape_of (frame 0x8001 CC_READ_PUBLIC (0x80 ∷ 0 ∷ 0 ∷ [])) ≡ Err 0x19a }
    ensures cut_second_handle { shape_of (frame 0x8002 CC_NV_READ (u32 7 ++ 0x01 ∷ 0 ∷ []))
        ≡ Err 0x29a }
    ensures no_index { shape_of (frame 0x8002 CC_NV_READ (u32 RH_OWNER ++ u32 RH_OWNER))
        ≡ Err 0x284 }
    ensures no_such_pcr { shape_of (frame 0x8002 CC_PCR_EXTEND (u32 24)) ≡ Err 0x184 }
    ensures persistent_object { shape_of (frame 0x8001 CC_CONTEXT_SAVE (u32 0x81000000))
        ≡ Err 0x18b }
    ensures persistent_entity { shape_of
        (frame 0x8002 CC_POLICY_SECRET (u32 0x81000000 ++ u32 0x03000000))
        ≡ Err 0x18b }
    ensures persistent_policy { shape_of
        (frame 0x8002 CC_POLICY_SECRET (u32 RH_OWNER ++ u32 0x81000000))
        ≡ Err 0x284 }
    ensures later_command { shape_of (frame 0x8001 0x15b []) ≡ Err 0x143 }
{}

// The places of the authorizations.
#[tactic(auto, unfolding(tab_spec::specs::Auths::auths_of, tab_spec::specs::Auths::auths_from))]
fn areas_are_told()
    ensures one { auths_of (frame 0x8002 CC_GET_RANDOM (area (plain_auth RS_PW) ++ 0 ∷ 8 ∷ []))
        (random_shape 0x8002)
        ≡ Ok (record {
          count = 1;
          auths = record { session = RS_PW; nonce = (20, 20); attributes = 0; hmac = (23, 23) }
              ∷ no_auth ∷ no_auth ∷ [];
          params = 23;
        }) }
    ensures a_nonce { auths_of (frame 0x8002 CC_GET_RANDOM
        (area (u32 0x02000000 ++ 0 ∷ 2 ∷ 5 ∷ 6 ∷ 1 ∷ 0 ∷ 1 ∷ 7 ∷ []) ++ 0 ∷ 8 ∷ []))
        (random_shape 0x8002)
        ≡ Ok (record {
          count = 1;
          auths = record { session = 0x02000000; nonce = (20, 22); attributes = 1; hmac = (25, 26) }
              ∷ no_auth ∷ no_auth ∷ [];
          params = 26;
        }) }
    ensures largest_nonce { is_ok (auths_of (frame 0x8002 CC_GET_RANDOM
        (area (u32 RS_PW ++ 0 ∷ 64 ∷ replicate 64 1 ++ 0 ∷ 0 ∷ 0 ∷ []))) (random_shape 0x8002))
        ≡ true }
    ensures none { auths_of (frame 0x8001 CC_GET_RANDOM (0 ∷ 8 ∷ [])) (random_shape 0x8001)
        ≡ Ok (record { count = 0; auths = no_auth ∷ no_auth ∷ no_auth ∷ []; params = 10 }) }
{}

// What cuts or overfills an area, and what needs one.
#[tactic(auto, unfolding(tab_spec::specs::Auths::auths_of, tab_spec::specs::Auths::auths_from))]
fn areas_are_refused()
    ensures four { auths_of (frame 0x8002 CC_GET_RANDOM
        (area (plain_auth RS_PW ++ plain_auth RS_PW ++ plain_auth RS_PW ++ plain_auth RS_PW)))
        (random_shape 0x8002)
        ≡ Err 0x144 }
    ensures size_of_eight { auths_of (frame 0x8002 CC_GET_RANDOM (u32 8 ++ plain_auth RS_PW))
        (random_shape 0x8002)
        ≡ Err 0x144 }
    ensures a_byte_over { auths_of
        (frame 0x8002 CC_GET_RANDOM (u32 10 ++ plain_auth RS_PW ++ 0 ∷ [])) (random_shape 0x8002)
        ≡ Err 0x144 }
    ensures past_the_end { auths_of (frame 0x8002 CC_GET_RANDOM (u32 10 ++ plain_auth RS_PW))
        (random_shape 0x8002)
        ≡ Err 0x144 }
    ensures larger_nonce { auths_of (frame 0x8002 CC_GET_RANDOM
        (area (u32 RS_PW ++ 0 ∷ 65 ∷ replicate 65 1 ++ 0 ∷ 0 ∷ 0 ∷ []))) (random_shape 0x8002)
        ≡ Err 0x144 }
    ensures missing { auths_of (frame 0x8001 CC_PCR_EXTEND (u32 7)) (record {
      row = command_row CC_PCR_EXTEND Pcr Absent 1 false;
      tag = 0x8001;
      handles = 7 ∷ 0 ∷ [];
      count = 1;
      rest = 14;
    }) ≡ Err 0x125 }
{}

// Over full tables with the object 80000000 and the policy session 03000001 in use: what a
// command's handles name has to be there, and an object that it makes needs room.
#[tactic(auto, unfolding(crate::proofs::Computing::admission))]
fn handles_are_admitted_in_order()
    ensures missing_object { admitted row_of full_tables
        (frame 0x8001 CC_READ_PUBLIC (u32 0x80000001))
        ≡ Err 0x910 }
    ensures missing_second { admitted row_of full_tables
        (frame 0x8002 CC_POLICY_SECRET (u32 0x80000000 ++ u32 0x03000000))
        ≡ Err 0x911 }
    ensures saved_session { admitted row_of full_tables
        (frame 0x8001 CC_POLICY_GET_DIGEST (u32 0x03000000))
        ≡ Err 0x910 }
    ensures no_room { admitted row_of full_tables
        (frame 0x8002 CC_CREATE_PRIMARY (u32 RH_OWNER ++ area (plain_auth RS_PW)))
        ≡ Err 0x902 }
{}

// Over the same tables: an authorization is by the password or by a session in use, once, and for a
// handle that needs one.
#[tactic(auto, unfolding(crate::proofs::Computing::admission))]
fn authorizations_are_admitted_in_order()
    ensures no_session { admitted row_of full_tables
        (frame 0x8002 CC_UNSEAL (u32 0x80000000 ++ area (plain_auth RH_OWNER)))
        ≡ Err 0x984 }
    ensures missing_session { admitted row_of full_tables (frame 0x8002 CC_UNSEAL
        (u32 0x80000000 ++ area (plain_auth RS_PW ++ plain_auth 0x02000000)))
        ≡ Err 0x919 }
    ensures session_twice { admitted row_of full_tables (frame 0x8002 CC_UNSEAL
        (u32 0x80000000 ++ area (plain_auth 0x03000001 ++ plain_auth 0x03000001)))
        ≡ Err 0xa8b }
    ensures session_as_handle { admitted row_of full_tables (frame 0x8002 CC_POLICY_SECRET
        (u32 0x80000000 ++ u32 0x03000001 ++ area (plain_auth 0x03000001)))
        ≡ Err 0x98b }
    ensures one_too_many { admitted row_of full_tables (frame 0x8002 CC_UNSEAL
        (u32 0x80000000 ++ area (plain_auth 0x03000001 ++ plain_auth RS_PW)))
        ≡ Err 0xa82 }
    ensures for_no_handle { admitted row_of full_tables
        (frame 0x8002 CC_GET_RANDOM (area (plain_auth RS_PW) ++ 0 ∷ 8 ∷ []))
        ≡ Err 0x982 }
    ensures passes { is_ok (admitted row_of full_tables
        (frame 0x8002 CC_UNSEAL (u32 0x80000000 ++ area (plain_auth 0x03000001))))
        ≡ true }
{}

fn some_commands_make_objects()
    ensures primary { makes_object PROFILE_CONTEXTS
        (frame 0x8002 CC_CREATE_PRIMARY (u32 RH_OWNER))
        ≡ true }
    ensures of_null { makes_object PROFILE_CONTEXTS
        (frame 0x8002 CC_CREATE_PRIMARY (u32 RH_NULL))
        ≡ false }
    ensures create { makes_object PROFILE_CONTEXTS (frame 0x8002 CC_CREATE (u32 0x80000000))
        ≡ false }
    ensures load { makes_object PROFILE_CONTEXTS (frame 0x8002 CC_LOAD (u32 0x80000000)) ≡ true }
    ensures context { makes_object PROFILE_CONTEXTS
        (frame 0x8001 CC_CONTEXT_LOAD (u32 0 ++ u32 5 ++ u32 0x80000000))
        ≡ true }
    ensures session_context { makes_object PROFILE_CONTEXTS
        (frame 0x8001 CC_CONTEXT_LOAD (u32 0 ++ u32 5 ++ u32 0x02000000))
        ≡ false }
    ensures short_context { makes_object PROFILE_CONTEXTS
        (frame 0x8001 CC_CONTEXT_LOAD (u32 0 ++ u32 5 ++ 0x80 ∷ 0 ∷ 0 ∷ []))
        ≡ false }
{}

// A TPM that isn't the profile's also makes one of the context of an object with stClear set.
#[tactic(auto, unfolding(tab_spec::specs::Shape::shape_of))]
fn contexts_make_objects_by_their_handles()
    ensures profile { filter (λ handle. makes_object PROFILE_CONTEXTS
        (frame 0x8001 CC_CONTEXT_LOAD (u32 0 ++ u32 5 ++ u32 handle)))
        (0x7fffffff ∷ 0x80000000 ∷ 0x80000001 ∷ 0x80000002 ∷ 0x80000003 ∷ [])
        ≡ 0x80000000 ∷ [] }
    ensures tpm { filter (λ handle. makes_object TPM_CONTEXTS
        (frame 0x8001 CC_CONTEXT_LOAD (u32 0 ++ u32 5 ++ u32 handle)))
        (0x7fffffff ∷ 0x80000000 ∷ 0x80000001 ∷ 0x80000002 ∷ 0x80000003 ∷ 0x02000000 ∷ [])
        ≡ 0x80000000 ∷ 0x80000002 ∷ [] }
    ensures short { makes_object TPM_CONTEXTS
        (frame 0x8001 CC_CONTEXT_LOAD (u32 0 ++ u32 5 ++ 0x80 ∷ 0 ∷ 0 ∷ []))
        ≡ false }
    ensures primary { makes_object TPM_CONTEXTS (frame 0x8002 CC_CREATE_PRIMARY (u32 RH_OWNER))
        ≡ true }
    ensures create { makes_object TPM_CONTEXTS (frame 0x8002 CC_CREATE (u32 0x80000000)) ≡ false }
    ensures random { makes_object TPM_CONTEXTS (get_random 0 8) ≡ false }
{}

// Create needs a slot on such a TPM alone, though it makes no object.
#[tactic(auto, unfolding(tab_spec::specs::Shape::shape_of))]
fn some_commands_need_a_slot()
    ensures profile { slot_needed PROFILE_CONTEXTS (frame 0x8002 CC_CREATE (u32 0x80000000))
        ≡ Some false }
    ensures tpm { slot_needed TPM_CONTEXTS (frame 0x8002 CC_CREATE (u32 0x80000000)) ≡ Some true }
    ensures load { slot_needed PROFILE_CONTEXTS (frame 0x8002 CC_LOAD (u32 0x80000000))
        ≡ Some true }
    ensures unseal { slot_needed TPM_CONTEXTS (frame 0x8002 CC_UNSEAL (u32 0x80000000))
        ≡ Some false }
    ensures st_clear { slot_needed TPM_CONTEXTS
        (frame 0x8001 CC_CONTEXT_LOAD (u32 0 ++ u32 5 ++ u32 0x80000002))
        ≡ Some true }
{}

// A session by its bytes: its kind, nonce and digest, the one command that it is for, and its flags
// and update count.
fn sessions_are_told()
    ensures policy_bytes { session_bytes (record policy_session {
      nonce = replicate 16 1;
      command_code = Some 0x15e;
      needed = Password;
      pcr_updates = Some 7;
    })
        ≡ 1 ∷ 0 ∷ 16 ∷ replicate 16 1 ++ replicate 32 0 ++ 0 ∷ 0 ∷ 1 ∷ 0x5e ∷ 6 ∷ 0 ∷ 0 ∷ 0 ∷ 7
        ∷ [] }
    ensures policy_read { session_of (1 ∷ 0 ∷ 16 ∷ replicate 16 1 ++ replicate 32 0 ++ 0 ∷ 0 ∷ 1
        ∷ 0x5e ∷ 6 ∷ 0 ∷ 0 ∷ 0 ∷ 7 ∷ 9 ∷ [])
        ≡ Ok (
          record policy_session {
            nonce = replicate 16 1;
            command_code = Some 0x15e;
            needed = Password;
            pcr_updates = Some 7;
          },
          9 ∷ [],
        ) }
    ensures hmac_bytes { session_bytes
        (record policy_session { kind = Hmac; nonce = replicate 16 1 })
        ≡ 0 ∷ 0 ∷ 16 ∷ replicate 16 1 ++ replicate 41 0 }
{}

// Bytes of another kind, with a nonce of another size, with other flags, with a count that isn't
// kept, and too few.
fn bytes_of_no_session_are_refused()
    ensures kind_2 { session_of (2 ∷ 0 ∷ 16 ∷ replicate 16 1 ++ replicate 41 0) ≡ Err 0x95 }
    ensures nonce_of_15 { session_of (0 ∷ 0 ∷ 15 ∷ replicate 15 1 ++ replicate 41 0) ≡ Err 0x95 }
    ensures nonce_of_33 { session_of (0 ∷ 0 ∷ 33 ∷ replicate 33 1 ++ replicate 41 0) ≡ Err 0x95 }
    ensures flags_3 { session_of (1 ∷ 0 ∷ 16 ∷ replicate 16 1 ++ replicate 36 0 ++ 3 ∷ 0 ∷ 0 ∷ 0 ∷ 0
        ∷ [])
        ≡ Err 0x95 }
    ensures flags_8 { session_of (1 ∷ 0 ∷ 16 ∷ replicate 16 1 ++ replicate 36 0 ++ 8 ∷ 0 ∷ 0 ∷ 0 ∷ 0
        ∷ [])
        ≡ Err 0x95 }
    ensures count_not_kept { session_of (1 ∷ 0 ∷ 16 ∷ replicate 16 1 ++ replicate 36 0 ++ 2 ∷ 0 ∷ 0
        ∷ 0 ∷ 1 ∷ [])
        ≡ Err 0x95 }
    ensures cut { session_of (0 ∷ 0 ∷ 16 ∷ replicate 16 1 ++ replicate 40 0) ≡ Err 0x95 }
{}
