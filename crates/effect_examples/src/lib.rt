//! Worked examples of `effect_spec`: what commands do, and in which bytes they answer. Each `ensures`
//! is computed by the definitions alone.
#![tactic(auto)]

mod hashes;
mod limits;
mod nv;
mod objects;
mod policies;
mod sessions;

ghost use Rattle.std.specs.Prelude.{◌≡◌, ◌+◌, ◌-◌, ◌^◌, true, false, [], ◌∷◌, ◌++◌, length};
ghost use Rattle.std.specs.Prelude.{replicate, Ok, Err, Some, None};
ghost use Rattle.tab_spec.specs.declared.Kind.TheVariants.{Absent, Entity, Policy, Pcr, Nv};
ghost use Rattle.tab_spec.specs.declared.TheConstants.{CC_PCR_EXTEND, RH_OWNER};
ghost use Rattle.tab_spec.specs.Commands.{command_row, all_commands};
ghost use Rattle.tab_spec.specs.Auths.{no_auth};
ghost use Rattle.tab_spec.specs.Values.{public_bytes, sized_bytes};
ghost use Rattle.effect_spec.specs.Operands.{absent, plain, an_object, a_session, is_operand};
ghost use Rattle.effect_spec.specs.Operands.{plain_operands};
ghost use Rattle.effect_spec.specs.Authorization.{entity_of};
ghost use Rattle.effect_spec.specs.Nv.{undefined_index, nv_define_row, nv_undefine_row};
ghost use Rattle.effect_spec.specs.Nv.{nv_read_public_row, nv_write_row, nv_increment_row};
ghost use Rattle.effect_spec.specs.Nv.{nv_read_row};
ghost use Rattle.effect_spec.specs.Objects.{create_primary_row, create_row, load_row, unseal_row};
ghost use Rattle.effect_spec.specs.Objects.{hmac_row, read_public_row, object_name};
ghost use Rattle.effect_spec.specs.Contexts.{object_context, opened_object};
ghost use Rattle.sha2.specs.Sha256.{sha256};
ghost use Rattle.tab_spec.specs.Numbers.{profile_numbers};
ghost use Rattle.effect_spec.specs.Capabilities.{capability_of, client_limits, device_limits};
ghost use Rattle.tab_examples.specs.Examples.{u32, random_shape, counter, counter_at, four_bytes};
ghost use Rattle.tab_examples.specs.Examples.{with_indexes, counter_definition, hmac_key, sealed_bytes};
ghost use Rattle.tab_examples.specs.Examples.{key_with, policy_session, template, no_secret, no_pcrs};
ghost use Rattle.tab_examples.specs.Examples.{hashed, sealed, sealed_private, sealed_context};
ghost use Rattle.effect_examples.specs.Examples.{storage_primary};

// A counter is defined, and counts from 1 to the last count.
fn counters_count()
    ensures defined { nv_define_row (with_indexes []) (counter_definition 0x02040014 [])
        ≡ Ok (with_indexes (counter ∷ [])) }
    ensures first { nv_increment_row (with_indexes (counter ∷ [])) 0x01000001 0x01000001 []
        ≡ Ok (with_indexes (counter_at 1 ∷ [])) }
    ensures read { nv_read_row (with_indexes (counter_at 1 ∷ [])) 0x01000001
        0x01000001 (0 ∷ 8 ∷ 0 ∷ 0 ∷ [])
        ≡ Ok (0 ∷ 8 ∷ 0 ∷ 0 ∷ 0 ∷ 0 ∷ 0 ∷ 0 ∷ 0 ∷ 1 ∷ []) }
    ensures last { nv_increment_row (with_indexes (counter_at 0xffffffffffffffff ∷ [])) 0x01000001
        0x01000001 []
        ≡ Err 0x146 }
{}

// What is refused of a counter: to read it before it counts, past its end or by another index, to
// count it by the owner, and to write it.
fn counters_have_faults()
    ensures unwritten { nv_read_row (with_indexes (counter ∷ [])) 0x01000001
        0x01000001 (0 ∷ 8 ∷ 0 ∷ 0 ∷ [])
        ≡ Err 0x14a }
    ensures by_owner { nv_increment_row (with_indexes (counter ∷ [])) RH_OWNER 0x01000001 []
        ≡ Err 0x149 }
    ensures written { nv_write_row (with_indexes (counter ∷ [])) 0x01000001
        0x01000001 (0 ∷ 0 ∷ 0 ∷ 0 ∷ [])
        ≡ Err 0x282 }
    ensures past_its_end { nv_read_row (with_indexes (counter_at 1 ∷ [])) 0x01000001
        0x01000001 (0 ∷ 8 ∷ 0 ∷ 1 ∷ [])
        ≡ Err 0x146 }
    ensures by_another { nv_read_row
        (with_indexes (counter ∷ four_bytes 0x00060006 (1 ∷ 2 ∷ 3 ∷ 4 ∷ []) ∷ [])) 0x01000002
        0x01000001 (0 ∷ 8 ∷ 0 ∷ 1 ∷ [])
        ≡ Err 0x149 }
{}

// The public area of a counter, and its Name.
#[tactic(auto, unfolding(tab_examples::proofs::Computing::hashes))]
fn counters_have_names()
    ensures named { nv_read_public_row (with_indexes (counter ∷ [])) 0x01000001 []
        ≡ Ok (0 ∷ 0x0e ∷ 0x01 ∷ 0x00 ∷ 0x00 ∷ 0x01 ∷ 0x00 ∷ 0x0b ∷ 0x02 ∷ 0x04 ∷ 0x00 ∷ 0x14 ∷ 0x00
        ∷ 0x00 ∷ 0x00 ∷ 0x08 ∷ []
        ++ 0 ∷ 0x22 ∷ 0x00 ∷ 0x0b ∷ 0x64 ∷ 0x34 ∷ 0xe9 ∷ 0xdd ∷ 0xc6 ∷ 0xbf ∷ 0xac ∷ 0x94 ∷ 0xee
        ∷ 0x4e ∷ 0x48 ∷ 0x8a ∷ 0x8b ∷ 0x41 ∷ 0xfd ∷ 0xff ∷ 0x74 ∷ 0xf9 ∷ 0x6c ∷ 0xaa ∷ 0x9a ∷ 0x25
        ∷ 0xdb ∷ 0x18 ∷ 0xdd ∷ 0x38 ∷ 0x12 ∷ 0x19 ∷ 0xb2 ∷ 0x66 ∷ 0xab ∷ 0xe9 ∷ []) }
{}

// An index is defined once, and 64 of them are defined at most.
fn indexes_are_defined_once()
    ensures again { nv_define_row (with_indexes (counter ∷ [])) (counter_definition 0x02040014 [])
        ≡ Err 0x14c }
    ensures too_many { nv_define_row (with_indexes (replicate 64 (four_bytes 0x00060006 [])))
        (counter_definition 0x02040014 [])
        ≡ Err 0x14b }
    ensures there_before_full { nv_define_row (with_indexes (counter
        ∷ replicate 63 (four_bytes 0x00060006 []))) (counter_definition 0x02040014 []) ≡ Err 0x14c }
{}

// A definition is refused if its auth value or its public area isn't whole, and if the area says
// that the index was written.
fn definitions_are_refused()
    ensures as_written { nv_define_row (with_indexes []) (counter_definition 0x22040014 [])
        ≡ Err 0x2c2 }
    ensures one_byte_within { nv_define_row (with_indexes [])
        (counter_definition 0x22040014 (0 ∷ []))
        ≡ Err 0x2d5 }
    ensures one_byte_behind { nv_define_row (with_indexes [])
        (counter_definition 0x22040014 [] ++ 0 ∷ [])
        ≡ Err 0x2c2 }
    ensures cut { nv_define_row (with_indexes []) (0 ∷ 0 ∷ 0 ∷ 14 ∷ 1 ∷ []) ≡ Err 0x2da }
    ensures no_auth { nv_define_row (with_indexes []) (0 ∷ 33 ∷ 0 ∷ []) ≡ Err 0x1da }
    ensures long_auth { nv_define_row (with_indexes []) (0 ∷ 33 ∷ replicate 33 0) ≡ Err 0x1d5 }
{}

// An index that is undefined is gone, and one that isn't there is told by its handle's place.
fn indexes_are_undefined()
    ensures gone { nv_undefine_row (with_indexes (counter ∷ four_bytes 0x00060006 [] ∷ []))
        0x01000002 [] ≡ Ok (with_indexes (counter ∷ [])) }
    ensures missing { undefined_index (counter ∷ []) 1 (RH_OWNER ∷ 0x01000002 ∷ []) ≡ Some 0x28b }
    ensures both_missing { undefined_index (counter ∷ []) 1 (0x01000003 ∷ 0x01000002 ∷ [])
        ≡ Some 0x18b }
    ensures undefined_twice { nv_undefine_row (with_indexes (counter ∷ [])) 0x01000002 (0 ∷ [])
        ≡ Err 0x28b }
    ensures there { undefined_index (counter ∷ []) 1 (0x01000001 ∷ 0x01000001 ∷ []) ≡ None }
{}

// Bytes are written over a part of an index, up to its end.
fn parts_of_indexes_are_written()
    ensures inside { nv_write_row
        (with_indexes (counter ∷ four_bytes 0x00060006 (1 ∷ 2 ∷ 3 ∷ 4 ∷ []) ∷ [])) RH_OWNER
        0x01000002 (0 ∷ 2 ∷ 8 ∷ 9 ∷ 0 ∷ 1 ∷ [])
        ≡ Ok (with_indexes (counter ∷ four_bytes 0x20060006 (1 ∷ 8 ∷ 9 ∷ 4 ∷ []) ∷ [])) }
    ensures past_its_end { nv_write_row (with_indexes (four_bytes 0x00060006 (1 ∷ 2 ∷ 3 ∷ 4 ∷ [])
        ∷ [])) RH_OWNER 0x01000002 (0 ∷ 2 ∷ 8 ∷ 9 ∷ 0 ∷ 3 ∷ []) ≡ Err 0x146 }
    ensures to_its_end { nv_write_row
        (with_indexes (four_bytes 0x00060006 (1 ∷ 2 ∷ 3 ∷ 4 ∷ []) ∷ [])) RH_OWNER
        0x01000002 (0 ∷ 2 ∷ 8 ∷ 9 ∷ 0 ∷ 2 ∷ [])
        ≡ Ok (with_indexes (four_bytes 0x20060006 (1 ∷ 2 ∷ 8 ∷ 9 ∷ []) ∷ [])) }
    ensures no_bytes { nv_write_row (with_indexes (four_bytes 0x00060006 (1 ∷ 2 ∷ 3 ∷ 4 ∷ []) ∷ []))
        RH_OWNER 0x01000002 (0 ∷ 0 ∷ 0 ∷ 4 ∷ [])
        ≡ Ok (with_indexes (four_bytes 0x20060006 (1 ∷ 2 ∷ 3 ∷ 4 ∷ []) ∷ [])) }
    ensures most_bytes { nv_write_row (with_indexes (four_bytes 0x00060006 (1 ∷ 2 ∷ 3 ∷ 4 ∷ [])
        ∷ [])) RH_OWNER 0x01000002 (8 ∷ 0 ∷ replicate 2048 7 ++ 0 ∷ 0 ∷ []) ≡ Err 0x146 }
    ensures more_bytes { nv_write_row (with_indexes (four_bytes 0x00060006 (1 ∷ 2 ∷ 3 ∷ 4 ∷ [])
        ∷ [])) RH_OWNER 0x01000002 (8 ∷ 1 ∷ replicate 2049 7 ++ 0 ∷ 0 ∷ []) ≡ Err 0x1d5 }
{}

// Whether an index is there is looked at before the parameters, and who may use it before what is
// done.
fn indexes_are_looked_at_before()
    ensures who_before_what { nv_write_row (with_indexes (counter ∷ [])) RH_OWNER
        0x01000001 (0 ∷ 0 ∷ 0 ∷ 0 ∷ [])
        ≡ Err 0x149 }
    ensures missing_before_parameters { nv_write_row (with_indexes (counter ∷ [])) RH_OWNER
        0x01000002 []
        ≡ Err 0x28b }
    ensures missing_itself { nv_read_row (with_indexes (counter ∷ [])) 0x01000002 0x01000002 []
        ≡ Err 0x18b }
    ensures missing_public { nv_read_public_row (with_indexes (counter ∷ [])) 0x01000002 (0 ∷ [])
        ≡ Err 0x18b }
{}

// A part of an index is read, if the index lets itself be read. It isn't a counter.
fn plain_indexes_are_read()
    ensures incremented { nv_increment_row (with_indexes
        (four_bytes 0x00060006 (1 ∷ 2 ∷ 3 ∷ 4 ∷ []) ∷ [])) RH_OWNER 0x01000002 [] ≡ Err 0x282 }
    ensures read { nv_read_row (with_indexes (four_bytes 0x20060006 (1 ∷ 2 ∷ 3 ∷ 4 ∷ []) ∷ []))
        0x01000002 0x01000002 (0 ∷ 2 ∷ 0 ∷ 2 ∷ []) ≡ Ok (0 ∷ 2 ∷ 3 ∷ 4 ∷ []) }
    ensures not_by_itself { nv_read_row (with_indexes (four_bytes 0x20020002 (1 ∷ 2 ∷ 3 ∷ 4 ∷ [])
        ∷ [])) 0x01000002 0x01000002 (0 ∷ 2 ∷ 0 ∷ 2 ∷ []) ≡ Err 0x149 }
{}

// What authorizes the use of an object, whose auth value is 5, by its userWithAuth, of a PCR, of an
// index and of the owner.
fn entities_have_auth_values()
    ensures user_with_auth { entity_of (with_indexes []) (an_object (key_with 0x00040072))
        ≡ record { auth = 5 ∷ []; user_with_auth = true; is_object = true; policy = 6 ∷ [] } }
    ensures by_policy { entity_of (with_indexes []) (an_object (key_with 0x00040032))
        ≡ record { auth = 5 ∷ []; user_with_auth = false; is_object = true; policy = 6 ∷ [] } }
    ensures pcr { entity_of (record (with_indexes []) { owner_auth = 1 ∷ [] }) (plain 7)
        ≡ record { auth = []; user_with_auth = true; is_object = false; policy = [] } }
    ensures of_index { entity_of (with_indexes (record counter { auth = 1 ∷ [] } ∷ []))
        (plain 0x01000001)
        ≡ record { auth = 1 ∷ []; user_with_auth = true; is_object = false; policy = [] } }
    ensures owner { entity_of (record (with_indexes []) { owner_auth = 1 ∷ [] }) (plain RH_OWNER)
        ≡ record { auth = 1 ∷ []; user_with_auth = true; is_object = false; policy = [] } }
{}

// What stands for which handle: the handle itself, or nothing where there is none.
fn operands_stand_for_handles()
    ensures index { is_operand Nv 0x01000001 (plain 0x01000001) ≡ true }
    ensures another_index { is_operand Nv 0x01000001 (plain 0x01000002) ≡ false }
    ensures none { is_operand Absent 0 absent ≡ true }
    ensures one_too_many { is_operand Absent 0 (plain 0) ≡ false }
    ensures one_too_few { is_operand Pcr 7 absent ≡ false }
    ensures plain { plain_operands (record (random_shape 0x8001) {
      row = command_row CC_PCR_EXTEND Pcr Absent 1 false;
      handles = 7 ∷ 0 ∷ [];
    }) ≡ record { handles = plain 7 ∷ absent ∷ []; session = None } }
{}

// An object stands for the handle of an object, and a session for its own.
fn objects_and_sessions_stand_for_handles()
    ensures key { is_operand Entity 0x80000000 (an_object (key_with 0x00040072)) ≡ true }
    ensures session { is_operand Policy 0x03000001 (a_session 0x03000001 policy_session) ≡ true }
    ensures another_session { is_operand Policy 0x03000001 (a_session 0x03000002 policy_session)
        ≡ false }
    ensures no_session { is_operand Pcr 7 (a_session 7 policy_session) ≡ false }
    ensures no_key { is_operand Entity RH_OWNER (an_object (key_with 0x00040072)) ≡ false }
{}

// The key of a device whose seed is zero. What is expected was computed by another program.
fn primaries_follow_from_the_seed()
    ensures key { create_primary_row (with_indexes []) (template no_secret hmac_key [] no_pcrs)
        ≡ Ok (
          record {
            public = record hmac_key {
              unique = 0x3b ∷ 0x2a ∷ 0xdc ∷ 0x3a ∷ 0x46 ∷ 0xac ∷ 0x28 ∷ 0x92 ∷ 0xa7 ∷ 0x16 ∷ 0xc4
                  ∷ 0xcb ∷ 0x0c ∷ 0x56 ∷ 0x34 ∷ 0x01 ∷ 0x55 ∷ 0x4c ∷ 0x7c ∷ 0xe2 ∷ 0xda ∷ 0x94
                  ∷ 0xdd ∷ 0x6d ∷ 0x70 ∷ 0x74 ∷ 0x45 ∷ 0x7a ∷ 0xb2 ∷ 0xd1 ∷ 0x20 ∷ 0xb2 ∷ [];
            };
            auth = [];
            seed = 0x61 ∷ 0xae ∷ 0xd4 ∷ 0xad ∷ 0x1f ∷ 0x49 ∷ 0x23 ∷ 0x03 ∷ 0xe9 ∷ 0x6f ∷ 0xb7 ∷ 0x19
                ∷ 0xa3 ∷ 0xae ∷ 0x22 ∷ 0x19 ∷ 0xb2 ∷ 0x60 ∷ 0x7c ∷ 0x9d ∷ 0xb0 ∷ 0x92 ∷ 0x41 ∷ 0x33
                ∷ 0xe7 ∷ 0x2a ∷ 0xac ∷ 0x46 ∷ 0x28 ∷ 0x6d ∷ 0xcf ∷ 0xb1 ∷ [];
            secret = 0x96 ∷ 0xbe ∷ 0x1c ∷ 0x07 ∷ 0xd9 ∷ 0x2b ∷ 0xc9 ∷ 0x44 ∷ 0xc9 ∷ 0x6f ∷ 0x43
                ∷ 0xf6 ∷ 0x2f ∷ 0x0e ∷ 0x1b ∷ 0x55 ∷ 0xf7 ∷ 0x8c ∷ 0xe7 ∷ 0x50 ∷ 0x8c ∷ 0x83 ∷ 0x35
                ∷ 0x4a ∷ 0xac ∷ 0xce ∷ 0x2c ∷ 0xa6 ∷ 0x56 ∷ 0xb2 ∷ 0x01 ∷ 0x9d ∷ [];
            qualified_name = 0x00 ∷ 0x0b ∷ 0x74 ∷ 0x50 ∷ 0x23 ∷ 0x9f ∷ 0xe9 ∷ 0xdc ∷ 0xb5 ∷ 0x00
                ∷ 0xfd ∷ 0xba ∷ 0x5e ∷ 0xed ∷ 0x5c ∷ 0x69 ∷ 0x32 ∷ 0x58 ∷ 0x24 ∷ 0x5a ∷ 0xb8 ∷ 0xd1
                ∷ 0x34 ∷ 0xa0 ∷ 0x4e ∷ 0x06 ∷ 0x0a ∷ 0x9f ∷ 0xfe ∷ 0xd7 ∷ 0xf4 ∷ 0xee ∷ 0x25 ∷ 0x57
                ∷ [];
          },
          0x00 ∷ 0x30 ∷ 0x00 ∷ 0x08 ∷ 0x00 ∷ 0x0b ∷ 0x00 ∷ 0x04 ∷ 0x00 ∷ 0x72 ∷ 0x00 ∷ 0x00 ∷ 0x00
              ∷ 0x05 ∷ 0x00 ∷ 0x0b ∷ 0x00 ∷ 0x20 ∷ 0x3b ∷ 0x2a ∷ 0xdc ∷ 0x3a ∷ 0x46 ∷ 0xac ∷ 0x28
              ∷ 0x92 ∷ 0xa7 ∷ 0x16 ∷ 0xc4 ∷ 0xcb ∷ 0x0c ∷ 0x56 ∷ 0x34 ∷ 0x01 ∷ 0x55 ∷ 0x4c ∷ 0x7c
              ∷ 0xe2 ∷ 0xda ∷ 0x94 ∷ 0xdd ∷ 0x6d ∷ 0x70 ∷ 0x74 ∷ 0x45 ∷ 0x7a ∷ 0xb2 ∷ 0xd1 ∷ 0x20
              ∷ 0xb2 ∷ 0x00 ∷ 0x37 ∷ 0x00 ∷ 0x00 ∷ 0x00 ∷ 0x00 ∷ 0x00 ∷ 0x20 ∷ 0xe3 ∷ 0xb0 ∷ 0xc4
              ∷ 0x42 ∷ 0x98 ∷ 0xfc ∷ 0x1c ∷ 0x14 ∷ 0x9a ∷ 0xfb ∷ 0xf4 ∷ 0xc8 ∷ 0x99 ∷ 0x6f ∷ 0xb9
              ∷ 0x24 ∷ 0x27 ∷ 0xae ∷ 0x41 ∷ 0xe4 ∷ 0x64 ∷ 0x9b ∷ 0x93 ∷ 0x4c ∷ 0xa4 ∷ 0x95 ∷ 0x99
              ∷ 0x1b ∷ 0x78 ∷ 0x52 ∷ 0xb8 ∷ 0x55 ∷ 0x01 ∷ 0x00 ∷ 0x10 ∷ 0x00 ∷ 0x04 ∷ 0x40 ∷ 0x00
              ∷ 0x00 ∷ 0x01 ∷ 0x00 ∷ 0x04 ∷ 0x40 ∷ 0x00 ∷ 0x00 ∷ 0x01 ∷ 0x00 ∷ 0x00 ∷ 0x00 ∷ 0x20
              ∷ 0x5d ∷ 0xa0 ∷ 0x41 ∷ 0xba ∷ 0xc0 ∷ 0xee ∷ 0x31 ∷ 0x35 ∷ 0xae ∷ 0xbb ∷ 0x0c ∷ 0xad
              ∷ 0xfb ∷ 0xa4 ∷ 0x97 ∷ 0xc6 ∷ 0xa1 ∷ 0x87 ∷ 0x7f ∷ 0xae ∷ 0x83 ∷ 0x2d ∷ 0xd3 ∷ 0xd1
              ∷ 0xf8 ∷ 0xf7 ∷ 0xa8 ∷ 0x71 ∷ 0xb8 ∷ 0x25 ∷ 0xe8 ∷ 0x54 ∷ 0x80 ∷ 0x21 ∷ 0x40 ∷ 0x00
              ∷ 0x00 ∷ 0x01 ∷ 0x00 ∷ 0x20 ∷ 0xd0 ∷ 0x4b ∷ 0x49 ∷ 0xcf ∷ 0x4f ∷ 0x72 ∷ 0xde ∷ 0x5a
              ∷ 0x07 ∷ 0xc0 ∷ 0xcb ∷ 0x3c ∷ 0x47 ∷ 0x5e ∷ 0xa9 ∷ 0x62 ∷ 0x74 ∷ 0x9c ∷ 0x32 ∷ 0xe8
              ∷ 0x5b ∷ 0x5e ∷ 0x09 ∷ 0x99 ∷ 0x5c ∷ 0x58 ∷ 0xd9 ∷ 0xb1 ∷ 0x64 ∷ 0x88 ∷ 0xe9 ∷ 0xe5
              ∷ 0x00 ∷ 0x22 ∷ 0x00 ∷ 0x0b ∷ 0x25 ∷ 0x79 ∷ 0x30 ∷ 0xa7 ∷ 0xfe ∷ 0xa3 ∷ 0x1e ∷ 0x50
              ∷ 0x00 ∷ 0xaf ∷ 0xe1 ∷ 0x8f ∷ 0x7a ∷ 0x75 ∷ 0x1a ∷ 0x45 ∷ 0x9e ∷ 0x49 ∷ 0xfe ∷ 0x07
              ∷ 0x64 ∷ 0x89 ∷ 0x57 ∷ 0xb7 ∷ 0xee ∷ 0x82 ∷ 0x5b ∷ 0x87 ∷ 0x45 ∷ 0xc5 ∷ 0x4d ∷ 0xa7
              ∷ [],
        ) }
    ensures parent { storage_primary.seed
        ≡ 0x55 ∷ 0x19 ∷ 0x63 ∷ 0x7a ∷ 0x5a ∷ 0xbc ∷ 0x9b ∷ 0x17 ∷ 0x74 ∷ 0xb6 ∷ 0xd9 ∷ 0x58 ∷ 0x24
        ∷ 0x27 ∷ 0xde ∷ 0xd1 ∷ 0xbc ∷ 0x1c ∷ 0x6e ∷ 0x92 ∷ 0x75 ∷ 0x61 ∷ 0xac ∷ 0xbb ∷ 0xf4 ∷ 0xf9
        ∷ 0x2c ∷ 0xa4 ∷ 0xa4 ∷ 0xf7 ∷ 0xd3 ∷ 0x61 ∷ [] }
    ensures with_data { create_primary_row (with_indexes [])
        (template (0 ∷ 0 ∷ 0 ∷ 1 ∷ 7 ∷ []) hmac_key [] no_pcrs)
        ≡ Err 0x1c2 }
    ensures no_data { create_primary_row (with_indexes [])
        (template no_secret (sealed_bytes []) [] no_pcrs)
        ≡ Err 0x1c2 }
    ensures secret_cut { create_primary_row (with_indexes []) (0 ∷ 3 ∷ 0 ∷ 0 ∷ 0 ∷ []) ≡ Err 0x1d5 }
    ensures public_cut { create_primary_row (with_indexes [])
        (sized_bytes no_secret ++ 0 ∷ 1 ∷ 0 ∷ [])
        ≡ Err 0x2d5 }
    ensures long_outside { create_primary_row (with_indexes [])
        (template no_secret hmac_key (replicate 65 0) no_pcrs)
        ≡ Err 0x3d5 }
    ensures no_selection { create_primary_row (with_indexes []) (template no_secret hmac_key [] [])
        ≡ Err 0x4da }
{}

// Sealed bytes and a key under a storage parent, by the hashes of what is told. The seed of each
// and the secret of a key are drawn.
#[tactic(auto, unfolding(crate::proofs::Computing::hashed))]
fn children_are_created()
    ensures sealed { hashed
        (create_row (with_indexes []) storage_primary (template (0 ∷ 1 ∷ 5 ∷ 0 ∷ 3 ∷ 1 ∷ 2 ∷ 3 ∷ [])
        (sealed_bytes []) (9 ∷ []) (u32 1 ++ 0 ∷ 0x0b ∷ 3 ∷ 0x80 ∷ 0 ∷ 0 ∷ [])))
        ≡ Ok (
          record (with_indexes []) { place = 8 },
          0xbd ∷ 0x57 ∷ 0xf2 ∷ 0x9f ∷ 0x3e ∷ 0x4d ∷ 0x84 ∷ 0x17 ∷ 0xe1 ∷ 0xcc ∷ 0x21 ∷ 0x82 ∷ 0xcb
              ∷ 0xb1 ∷ 0xea ∷ 0x64 ∷ 0xc7 ∷ 0x13 ∷ 0x6f ∷ 0x97 ∷ 0xbc ∷ 0xc2 ∷ 0x91 ∷ 0x7d ∷ 0xe8
              ∷ 0x26 ∷ 0xe0 ∷ 0x7d ∷ 0x7d ∷ 0xaa ∷ 0xe5 ∷ 0xe9 ∷ [],
        ) }
    ensures key { hashed
        (create_row (with_indexes []) storage_primary (template no_secret hmac_key [] no_pcrs))
        ≡ Ok (
          record (with_indexes []) { place = 16 },
          0x2d ∷ 0xae ∷ 0x96 ∷ 0x3c ∷ 0xbc ∷ 0xcf ∷ 0x25 ∷ 0x0c ∷ 0x2b ∷ 0x24 ∷ 0xd2 ∷ 0x16 ∷ 0xdc
              ∷ 0xc4 ∷ 0x96 ∷ 0x75 ∷ 0x21 ∷ 0x68 ∷ 0xe8 ∷ 0x0c ∷ 0xdc ∷ 0xd9 ∷ 0x6e ∷ 0x65 ∷ 0xb3
              ∷ 0xf0 ∷ 0x88 ∷ 0x8e ∷ 0xff ∷ 0xa9 ∷ 0x64 ∷ 0x19 ∷ [],
        ) }
    ensures under_a_key { create_row (with_indexes []) (key_with 0x00040072) [] ≡ Err 0x18a }
    ensures no_seed_is_left { create_row (record (with_indexes []) { place = 2 ^ 62 - 7 })
        storage_primary (template no_secret hmac_key [] no_pcrs)
        ≡ Err 0x101 }
    ensures no_secret_is_left { create_row (record (with_indexes []) { place = 2 ^ 62 - 8 })
        storage_primary (template no_secret hmac_key [] no_pcrs)
        ≡ Err 0x101 }
{}

// Sealed bytes are loaded under their parent alone, with their own public area.
#[tactic(auto, unfolding(crate::proofs::Computing::hashed))]
fn children_are_loaded()
    ensures loaded { load_row storage_primary
        (sized_bytes sealed_private ++ sized_bytes (public_bytes sealed.public))
        ≡ Ok (sealed, sized_bytes (object_name sealed.public)) }
    ensures of_another { load_row storage_primary
        (sized_bytes sealed_private ++ sized_bytes (public_bytes hmac_key))
        ≡ Err 0x1df }
    ensures cut { load_row storage_primary
        (0 ∷ 1 ∷ 0 ∷ [] ++ sized_bytes (public_bytes sealed.public))
        ≡ Err 0x1df }
    ensures load_under_a_key { load_row (key_with 0x00040072) [] ≡ Err 0x18a }
{}

// Sealed bytes are given. A parent and a key hold none.
#[tactic(auto, unfolding(crate::proofs::Computing::hashed))]
fn sealed_bytes_are_unsealed()
    ensures unsealed { unseal_row sealed [] ≡ Ok (0 ∷ 3 ∷ 1 ∷ 2 ∷ 3 ∷ []) }
    ensures one_byte_over { unseal_row sealed (0 ∷ []) ≡ Err 0x95 }
    ensures parent { unseal_row storage_primary (0 ∷ []) ≡ Err 0x18a }
    ensures key { unseal_row (key_with 0x00040072) (0 ∷ []) ≡ Err 0x182 }
{}

// A key gives the HMAC of a message, by SHA-256 alone.
#[tactic(auto, unfolding(crate::proofs::Computing::hashed))]
fn keys_make_hmacs()
    ensures mac { hmac_row (record (key_with 0x00040072) {
      secret = 0xda ∷ 0x41 ∷ 0x59 ∷ 0x7c ∷ 0x51 ∷ 0x57 ∷ 0x48 ∷ 0x8d ∷ 0x77 ∷ 0x24 ∷ 0xe0 ∷ 0x3f
          ∷ 0xb8 ∷ 0xd8 ∷ 0x4a ∷ 0x37 ∷ 0x6a ∷ 0x43 ∷ 0xb8 ∷ 0xf4 ∷ 0x15 ∷ 0x18 ∷ 0xa1 ∷ 0x1c ∷ 0xc3
          ∷ 0x87 ∷ 0xb6 ∷ 0x69 ∷ 0xb2 ∷ 0xee ∷ 0x65 ∷ 0x86 ∷ [];
    }) (0 ∷ 3 ∷ 0x61 ∷ 0x62 ∷ 0x63 ∷ 0 ∷ 0x10 ∷ [])
        ≡ Ok (sized_bytes (0x71 ∷ 0x0a ∷ 0xc4 ∷ 0xe1 ∷ 0x65 ∷ 0x1c ∷ 0xb1 ∷ 0x48 ∷ 0x06 ∷ 0x43
        ∷ 0xef ∷ 0x1f ∷ 0x8f ∷ 0x5a ∷ 0x00 ∷ 0x2c ∷ 0xd8 ∷ 0xef ∷ 0xe8 ∷ 0xa7 ∷ 0xc4 ∷ 0x21 ∷ 0x6b
        ∷ 0x05 ∷ 0x43 ∷ 0x79 ∷ 0x53 ∷ 0xf7 ∷ 0xad ∷ 0x8c ∷ 0xed ∷ 0x8e ∷ [])) }
    ensures another_hash { hmac_row (key_with 0x00040072) (0 ∷ 0 ∷ 0 ∷ 0x0c ∷ []) ≡ Err 0x2c4 }
    ensures with_a_parent { hmac_row storage_primary [] ≡ Err 0x18a }
    ensures with_sealed_bytes { hmac_row sealed [] ≡ Err 0x19c }
{}

// The public area of an object, its Name and its qualified name.
#[tactic(auto, unfolding(crate::proofs::Computing::hashed))]
fn objects_have_names()
    ensures public { read_public_row sealed []
        ≡ Ok (sized_bytes (public_bytes sealed.public) ++ sized_bytes (object_name sealed.public)
        ++ sized_bytes sealed.qualified_name) }
{}

// The contexts of sealed bytes, by their hashes and lengths.
#[tactic(auto, unfolding(crate::proofs::Computing::hashed))]
fn contexts_are_told()
    ensures first { sha256 (object_context (replicate 32 0) 0 sealed)
        ≡ 0x7e ∷ 0xb2 ∷ 0x4b ∷ 0x0e ∷ 0xa3 ∷ 0x58 ∷ 0x85 ∷ 0x94 ∷ 0x30 ∷ 0x85 ∷ 0x60 ∷ 0x16 ∷ 0x51
        ∷ 0x13 ∷ 0x2f ∷ 0x2a ∷ 0x9c ∷ 0x29 ∷ 0x61 ∷ 0x82 ∷ 0xa0 ∷ 0x0f ∷ 0xcd ∷ 0x28 ∷ 0xb2 ∷ 0xce
        ∷ 0xb4 ∷ 0xe9 ∷ 0x3d ∷ 0x85 ∷ 0xd0 ∷ 0x84 ∷ [] }
    ensures second { sha256 (object_context (replicate 32 0) 1 sealed)
        ≡ 0xc1 ∷ 0x35 ∷ 0xb4 ∷ 0x9c ∷ 0x5a ∷ 0x91 ∷ 0x35 ∷ 0x2c ∷ 0xe8 ∷ 0x29 ∷ 0xb8 ∷ 0x48 ∷ 0xb9
        ∷ 0x28 ∷ 0x5f ∷ 0x82 ∷ 0x65 ∷ 0x6f ∷ 0xf5 ∷ 0x2b ∷ 0x80 ∷ 0x3c ∷ 0x12 ∷ 0xca ∷ 0x21 ∷ 0x93
        ∷ 0x33 ∷ 0xbc ∷ 0x57 ∷ 0xd4 ∷ 0xff ∷ 0x84 ∷ [] }
    ensures bytes { length (object_context (replicate 32 0) 0 sealed) ≡ 178 }
    ensures as_many { length (object_context (replicate 32 0) 1 sealed) ≡ 178 }
{}

// What opens as the sealed bytes: no other bytes than their context do, and on no other device.
#[tactic(auto, unfolding(crate::proofs::Computing::hashed))]
fn contexts_are_opened()
    ensures opened { opened_object (replicate 32 0) (sealed_context 1 (0xdb ∷ [])) ≡ Some sealed }
    ensures flipped { opened_object (replicate 32 0) (sealed_context 1 (0xda ∷ [])) ≡ None }
    ensures one_byte_over { opened_object (replicate 32 0) (sealed_context 1 (0xdb ∷ 0 ∷ []))
        ≡ None }
    ensures cut { opened_object (replicate 32 0) (sealed_context 1 []) ≡ None }
    ensures under_null { opened_object (replicate 32 0) (sealed_context 7 (0xdb ∷ [])) ≡ None }
    ensures of_another { opened_object (replicate 32 1) (sealed_context 1 (0xdb ∷ [])) ≡ None }
{}

// By the property on, at most so many; what is left over is told.
fn capabilities_are_told()
    ensures handles { capability_of (client_limits 64) all_commands
        (with_indexes []) (0x80000000 ∷ 0x80000002 ∷ []) [] 4 (u32 1 ++ u32 0x80000000 ++ u32 8)
        ≡ Ok (0 ∷ u32 1 ++ u32 2 ++ u32 0x80000000 ++ u32 0x80000002) }
    ensures active { capability_of (client_limits 64) all_commands
        (with_indexes []) [] (record { handle = 0x02000000; in_use = true }
        ∷ record { handle = 0x03000001; in_use = false } ∷ []) 5 (u32 6 ++ u32 0x205 ++ u32 1)
        ≡ Ok (1 ∷ u32 6 ++ u32 1 ++ u32 0x205 ++ u32 2) }
    ensures saved { capability_of (client_limits 64) all_commands
        (with_indexes []) [] (record { handle = 0x02000000; in_use = true }
        ∷ record { handle = 0x02000001; in_use = false } ∷ []) 5 (u32 1 ++ u32 0x03000001 ++ u32 9)
        ≡ Ok (0 ∷ u32 1 ++ u32 1 ++ u32 0x02000001) }
    ensures indexes { capability_of (device_limits profile_numbers) all_commands
        (with_indexes (four_bytes 0 [] ∷ counter ∷ [])) [] [] 0 (u32 1 ++ u32 0x01000001 ++ u32 1)
        ≡ Ok (1 ∷ u32 1 ++ u32 1 ++ u32 0x01000001) }
    ensures pcrs { capability_of (device_limits profile_numbers) all_commands
        (with_indexes []) [] [] 0 (u32 1 ++ u32 23 ++ u32 9)
        ≡ Ok (0 ∷ u32 1 ++ u32 1 ++ u32 23) }
    ensures commands { capability_of (device_limits profile_numbers) all_commands
        (with_indexes []) [] [] 0 (u32 2 ++ u32 0x176 ++ u32 2)
        ≡ Ok (1 ∷ u32 2 ++ u32 2 ++ u32 0x14000176 ++ u32 0x0000017a) }
    ensures unknown { capability_of (device_limits profile_numbers) all_commands
        (with_indexes []) [] [] 0 (u32 3 ++ u32 0 ++ u32 1)
        ≡ Err 0x1c4 }
{}
