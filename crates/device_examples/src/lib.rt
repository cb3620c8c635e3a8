//! Worked examples of `device_spec`: what a device answers, and what it keeps. Each `ensures` is
//! computed by the definitions alone.
#![tactic(auto)]

mod answers;
mod objects;
mod sessions;

ghost use Rattle.std.specs.Prelude.{◌≡◌, ◌+◌, ◌^◌, [], ◌∷◌, ◌++◌, replicate, Some, None};
ghost use Rattle.tab_spec.specs.declared.TheConstants.{CC_STARTUP, CC_READ_PUBLIC, CC_NV_READ};
ghost use Rattle.tab_spec.specs.declared.TheConstants.{CC_PCR_READ, CC_PCR_EXTEND, CC_SELF_TEST};
ghost use Rattle.tab_spec.specs.declared.TheConstants.{CC_NV_DEFINE_SPACE, CC_NV_INCREMENT};
ghost use Rattle.tab_spec.specs.declared.TheConstants.{CC_CONTEXT_LOAD, CC_UNSEAL};
ghost use Rattle.tab_spec.specs.declared.TheConstants.{CC_CREATE_PRIMARY, CC_LOAD};
ghost use Rattle.tab_spec.specs.declared.TheConstants.{CC_FLUSH_CONTEXT, RH_OWNER, RH_NULL, RS_PW};
ghost use Rattle.tab_spec.specs.Values.{public_bytes, sized_bytes};
ghost use Rattle.effect_spec.specs.Pcr.{answered_pcrs, answered_selection};
ghost use Rattle.effect_spec.specs.Objects.{object_name};
ghost use Rattle.device_spec.specs.Slots.{object_at, slot_step};
ghost use Rattle.tab_spec.specs.Commands.{startup_command};
ghost use Rattle.device_examples.specs.Examples.{new_device, device_at, extended_device, device_with};
ghost use Rattle.device_examples.specs.Examples.{device_holding};
ghost use Rattle.tab_examples.specs.Examples.{get_random, extend, one_digest, read_pcrs, extend_reply};
ghost use Rattle.tab_examples.specs.Examples.{pcr_7_reply, refusal, u32, frame, plain_auth, password};
ghost use Rattle.tab_examples.specs.Examples.{area, counter, counter_at, counter_definition, hmac_key};
ghost use Rattle.tab_examples.specs.Examples.{template, no_secret, no_pcrs, sealed, sealed_private};
ghost use Rattle.tab_examples.specs.Examples.{sealed_context, flush, save};
ghost use Rattle.effect_examples.specs.Examples.{storage_primary};

// Eight bytes, then six, then four: the two that the second command has over are lost.
fn random_bytes_follow_one_another()
    ensures eight { slot_step (device_at 0) (get_random 0 8) ≡ (
      device_at 2,
      0x80 ∷ 0x01 ∷ 0 ∷ 0 ∷ 0 ∷ 0x14 ∷ 0 ∷ 0 ∷ 0 ∷ 0 ∷ 0 ∷ 8 ∷ 0x76 ∷ 0xb8 ∷ 0xe0 ∷ 0xad ∷ 0xa0
          ∷ 0xf1 ∷ 0x3d ∷ 0x90 ∷ [],
    ) }
    ensures six { slot_step (device_at 2) (get_random 0 6) ≡ (
      device_at 4,
      0x80 ∷ 0x01 ∷ 0 ∷ 0 ∷ 0 ∷ 0x12 ∷ 0 ∷ 0 ∷ 0 ∷ 0 ∷ 0 ∷ 6 ∷ 0x40 ∷ 0x5d ∷ 0x6a ∷ 0xe5 ∷ 0x53
          ∷ 0x86 ∷ [],
    ) }
    ensures four { slot_step (device_at 4) (get_random 0 4) ≡ (
      device_at 5,
      0x80 ∷ 0x01 ∷ 0 ∷ 0 ∷ 0 ∷ 0x10 ∷ 0 ∷ 0 ∷ 0 ∷ 0 ∷ 0 ∷ 4 ∷ 0xbd ∷ 0xd2 ∷ 0x19 ∷ 0xb8 ∷ [],
    ) }
{}

// No bytes, and more than the most at once, which gives the most.
fn random_bytes_are_none_or_at_most_32()
    ensures none { slot_step (device_at 0) (get_random 0 0)
        ≡ (device_at 0, 0x80 ∷ 0x01 ∷ 0 ∷ 0 ∷ 0 ∷ 0x0c ∷ 0 ∷ 0 ∷ 0 ∷ 0 ∷ 0 ∷ 0 ∷ []) }
    ensures most { slot_step (device_at 0) (get_random 0xff 0xff) ≡ (
      device_at 8,
      0x80 ∷ 0x01 ∷ 0 ∷ 0 ∷ 0 ∷ 0x2c ∷ 0 ∷ 0 ∷ 0 ∷ 0 ∷ 0 ∷ 0x20 ∷ 0x76 ∷ 0xb8 ∷ 0xe0 ∷ 0xad ∷ 0xa0
          ∷ 0xf1 ∷ 0x3d ∷ 0x90 ∷ 0x40 ∷ 0x5d ∷ 0x6a ∷ 0xe5 ∷ 0x53 ∷ 0x86 ∷ 0xbd ∷ 0x28
          ∷ 0xbd ∷ 0xd2 ∷ 0x19 ∷ 0xb8 ∷ 0xa0 ∷ 0x8d ∷ 0xed ∷ 0x1a ∷ 0xa8 ∷ 0x36 ∷ 0xef ∷ 0xcc ∷ 0x8b
          ∷ 0x77 ∷ 0x0d ∷ 0xc7 ∷ [],
    ) }
{}

fn faults_are_refused()
    ensures command_code { slot_step (device_at 0)
        (0x80 ∷ 0x01 ∷ 0 ∷ 0 ∷ 0 ∷ 0x0a ∷ 0 ∷ 0 ∷ 0x01 ∷ 0xff ∷ [])
        ≡ (device_at 0, refusal 0x01 0x43) }
    ensures bad_tag { slot_step (device_at 0)
        (0x80 ∷ 0x03 ∷ 0 ∷ 0 ∷ 0 ∷ 0x0a ∷ 0 ∷ 0 ∷ 0x01 ∷ 0x7b ∷ [])
        ≡ (device_at 0, 0x00 ∷ 0xc4 ∷ 0 ∷ 0 ∷ 0 ∷ 0x0a ∷ 0 ∷ 0 ∷ 0 ∷ 0x1e ∷ []) }
    ensures no_parameter { slot_step (device_at 0)
        (0x80 ∷ 0x01 ∷ 0 ∷ 0 ∷ 0 ∷ 0x0a ∷ 0 ∷ 0 ∷ 0x01 ∷ 0x7b ∷ [])
        ≡ (device_at 0, refusal 0x01 0xda) }
    ensures one_byte_over { slot_step (device_at 0)
        (0x80 ∷ 0x01 ∷ 0 ∷ 0 ∷ 0 ∷ 0x0d ∷ 0 ∷ 0 ∷ 0x01 ∷ 0x7b ∷ 0 ∷ 8 ∷ 0 ∷ [])
        ≡ (device_at 0, refusal 0x00 0x95) }
    ensures no_area { slot_step (device_at 0)
        (0x80 ∷ 0x02 ∷ 0 ∷ 0 ∷ 0 ∷ 0x0c ∷ 0 ∷ 0 ∷ 0x01 ∷ 0x7b ∷ 0 ∷ 8 ∷ [])
        ≡ (device_at 0, refusal 0x01 0x44) }
    ensures startup_with_an_area { slot_step (device_at 0)
        (frame 0x8002 CC_STARTUP (area (plain_auth RS_PW) ++ 0 ∷ 0 ∷ []))
        ≡ (device_at 0, refusal 0x01 0x45) }
{}

// PCR 7 is extended by 32 zeros, and read; an empty list of digests changes nothing.
fn pcrs_are_extended_and_read()
    ensures extended { slot_step (device_at 0)
        (extend (plain_auth RS_PW) (one_digest (replicate 32 0)))
        ≡ (extended_device, extend_reply) }
    ensures read { slot_step extended_device (read_pcrs (0x80 ∷ 0 ∷ 0 ∷ []))
        ≡ (extended_device, pcr_7_reply) }
    ensures by_nothing { slot_step (device_at 0) (extend (plain_auth RS_PW) (u32 0))
        ≡ (device_at 0, extend_reply) }
    ensures of_none { slot_step (device_at 0) (frame 0x8001 CC_PCR_READ (u32 0)) ≡ (
      device_at 0,
      0x80 ∷ 0x01 ∷ 0 ∷ 0 ∷ 0 ∷ 0x16 ∷ 0 ∷ 0 ∷ 0 ∷ 0 ∷ 0 ∷ 0 ∷ 0 ∷ 0 ∷ 0 ∷ 0 ∷ 0 ∷ 0 ∷ 0 ∷ 0 ∷ 0 ∷ 0
          ∷ [],
    ) }
    ensures first_eight { answered_selection (Some (0x01 ∷ 0xff ∷ 0xff ∷ []))
        ≡ record { bits = Some (0x01 ∷ 0x7f ∷ 0 ∷ []) } }
    ensures upwards { answered_pcrs (Some (0x81 ∷ 0 ∷ 0x80 ∷ [])) ≡ 0 ∷ 7 ∷ 23 ∷ [] }
{}

fn pcr_faults_are_refused()
    ensures no_area { slot_step (device_at 0)
        (frame 0x8001 CC_PCR_EXTEND (u32 7 ++ one_digest (replicate 32 0)))
        ≡ (device_at 0, refusal 0x01 0x25) }
    ensures two_digests { slot_step (device_at 0) (extend (plain_auth RS_PW) (u32 2))
        ≡ (device_at 0, refusal 0x01 0xd5) }
    ensures of_sha1 { slot_step (device_at 0) (extend (plain_auth RS_PW) (u32 1 ++ 0 ∷ 4 ∷ []))
        ≡ (device_at 0, refusal 0x01 0xc3) }
    ensures cut_digest { slot_step (device_at 0)
        (extend (plain_auth RS_PW) (one_digest (replicate 31 0)))
        ≡ (device_at 0, refusal 0x01 0xda) }
    ensures one_byte_over { slot_step (device_at 0)
        (extend (plain_auth RS_PW) (one_digest (replicate 33 0)))
        ≡ (device_at 0, refusal 0x00 0x95) }
    ensures two_selections { slot_step (device_at 0) (frame 0x8001 CC_PCR_READ (u32 2))
        ≡ (device_at 0, refusal 0x01 0xd5) }
    ensures cut_selection { slot_step (device_at 0) (read_pcrs (1 ∷ 0 ∷ []))
        ≡ (device_at 0, refusal 0x01 0xda) }
{}

// The same by whole commands; an index that isn't there is told before a password that is wrong.
fn counters_are_commanded()
    ensures defined { slot_step (device_with []) (frame 0x8002 CC_NV_DEFINE_SPACE
        (u32 RH_OWNER ++ area (plain_auth RS_PW) ++ counter_definition 0x02040014 []))
        ≡ (device_with (counter ∷ []), extend_reply) }
    ensures incremented { slot_step (device_with (counter ∷ []))
        (frame 0x8002 CC_NV_INCREMENT (u32 0x01000001 ++ u32 0x01000001 ++ area (plain_auth RS_PW)))
        ≡ (device_with (counter_at 1 ∷ []), extend_reply) }
    ensures read { slot_step (device_with (counter_at 1 ∷ [])) (frame 0x8002 CC_NV_READ
        (u32 0x01000001 ++ u32 0x01000001 ++ area (plain_auth RS_PW) ++ 0 ∷ 8 ∷ 0 ∷ 0 ∷ []))
        ≡ (
          device_with (counter_at 1 ∷ []),
          0x80 ∷ 0x02 ∷ 0 ∷ 0 ∷ 0 ∷ 0x1d ∷ 0 ∷ 0 ∷ 0 ∷ 0 ∷ 0 ∷ 0 ∷ 0 ∷ 0x0a ∷ 0 ∷ 8 ∷ 0 ∷ 0 ∷ 0 ∷ 0
              ∷ 0 ∷ 0 ∷ 0 ∷ 1 ∷ 0 ∷ 0 ∷ 1 ∷ 0 ∷ 0 ∷ [],
        ) }
    ensures undefined { slot_step (device_with []) (frame 0x8002 CC_NV_READ
        (u32 RH_OWNER ++ u32 0x01000001 ++ area (password [] 0 (1 ∷ [])) ++ 0 ∷ 8 ∷ 0 ∷ 0 ∷ []))
        ≡ (device_with [], refusal 0x02 0x8b) }
    ensures wrong_password { slot_step (device_with (counter ∷ [])) (frame 0x8002 CC_NV_READ
        (u32 0x01000001 ++ u32 0x01000001 ++ area (password [] 0 (1 ∷ []))))
        ≡ (device_with (counter ∷ []), refusal 0x09 0xa2) }
    ensures own_password { slot_step (device_with (record counter { auth = 1 ∷ [] } ∷ []))
        (frame 0x8002 CC_NV_READ (u32 0x01000001 ++ u32 0x01000001
        ++ area (password [] 0 (1 ∷ 0 ∷ [])) ++ 0 ∷ 8 ∷ 0 ∷ 0 ∷ []))
        ≡ (device_with (record counter { auth = 1 ∷ [] } ∷ []), refusal 0x01 0x4a) }
{}

// A password that is none of the owner's or a PCR's, in the order of its faults.
fn passwords_are_compared()
    ensures zeros { slot_step (device_at 0) (extend (password [] 1 (0 ∷ 0 ∷ [])) (u32 0))
        ≡ (device_at 0, extend_reply) }
    ensures another { slot_step (device_at 0) (extend (password [] 1 (0 ∷ 1 ∷ [])) (u32 0))
        ≡ (device_at 0, refusal 0x09 0xa2) }
    ensures nonce { slot_step (device_at 0) (extend (password (0 ∷ []) 1 (1 ∷ [])) (u32 0))
        ≡ (device_at 0, refusal 0x09 0x8f) }
    ensures attributes { slot_step (device_at 0) (extend (password (0 ∷ []) 2 (1 ∷ [])) (u32 0))
        ≡ (device_at 0, refusal 0x09 0x82) }
    ensures before_parameters { slot_step (device_at 0) (extend (password [] 0 (1 ∷ [])) [])
        ≡ (device_at 0, refusal 0x09 0xa2) }
{}

fn self_tests_do_nothing()
    ensures full { slot_step (device_at 0) (frame 0x8001 CC_SELF_TEST (1 ∷ []))
        ≡ (device_at 0, refusal 0 0) }
    ensures neither { slot_step (device_at 0) (frame 0x8001 CC_SELF_TEST (2 ∷ []))
        ≡ (device_at 0, refusal 0x01 0xc4) }
    ensures cut { slot_step (device_at 0) (frame 0x8001 CC_SELF_TEST [])
        ≡ (device_at 0, refusal 0x01 0xda) }
    ensures one_byte_over { slot_step (device_at 0) (frame 0x8001 CC_SELF_TEST (2 ∷ 0 ∷ []))
        ≡ (device_at 0, refusal 0x00 0x95) }
{}

fn startup_comes_first_and_once()
    ensures before { slot_step new_device (get_random 0 8) ≡ (new_device, refusal 0x01 0x00) }
    ensures first { slot_step new_device
        (0x80 ∷ 0x01 ∷ 0 ∷ 0 ∷ 0 ∷ 0x0c ∷ 0 ∷ 0 ∷ 0x01 ∷ 0x44 ∷ 0 ∷ 0 ∷ [])
        ≡ (device_at 0, 0x80 ∷ 0x01 ∷ 0 ∷ 0 ∷ 0 ∷ 0x0a ∷ 0 ∷ 0 ∷ 0 ∷ 0 ∷ []) }
    ensures again { slot_step (device_at 0) startup_command ≡ (device_at 0, refusal 0x01 0x00) }
    ensures with_an_area { slot_step new_device
        (frame 0x8002 CC_STARTUP (area (plain_auth RS_PW) ++ 0 ∷ 0 ∷ []))
        ≡ (new_device, refusal 0x01 0x45) }
    ensures of_state { slot_step new_device
        (0x80 ∷ 0x01 ∷ 0 ∷ 0 ∷ 0 ∷ 0x0c ∷ 0 ∷ 0 ∷ 0x01 ∷ 0x44 ∷ 0 ∷ 1 ∷ [])
        ≡ (new_device, refusal 0x01 0xc4) }
{}

// A command that makes an object needs a free slot. It is looked for after the authorizations are
// read and before a password is compared; a context is read before.
#[tactic(auto, unfolding(crate::proofs::Computing::steps, crate::proofs::Computing::contexts))]
fn objects_need_a_free_slot()
    ensures no_room { slot_step (device_holding (Some sealed) (Some sealed) (Some sealed) 0)
        (frame 0x8002 CC_CREATE_PRIMARY
        (u32 RH_OWNER ++ area (password [] 0 []) ++ template no_secret hmac_key [] no_pcrs))
        ≡ (device_holding (Some sealed) (Some sealed) (Some sealed) 0, refusal 0x09 0x02) }
    ensures room_before_the_password { (slot_step
        (device_holding (Some sealed) (Some sealed) (Some sealed) 0)
        (frame 0x8002 CC_CREATE_PRIMARY (u32 RH_OWNER ++ area (password [] 0 (6 ∷ []))))).1
        ≡ refusal 0x09 0x02 }
    ensures room_behind_the_authorizations { (slot_step
        (device_holding (Some sealed) (Some sealed) (Some sealed) 0) (frame 0x8002 CC_CREATE_PRIMARY
        (u32 RH_OWNER ++ area (password [] 0 [] ++ password [] 0 [])))).1
        ≡ refusal 0x0a 0x82 }
    ensures no_room_for_a_context { (slot_step (device_holding (Some sealed) (Some sealed)
        (Some sealed) 0) (frame 0x8001 CC_CONTEXT_LOAD (sealed_context 1 (0xdb ∷ [])))).1
        ≡ refusal 0x09 0x02 }
    ensures room_is_not_asked_first { (slot_step (device_holding (Some sealed) (Some sealed)
        (Some sealed) 0) (frame 0x8001 CC_CONTEXT_LOAD (u32 0 ++ u32 0 ++ u32 0x81000000))).1
        ≡ refusal 0x01 0xda }
{}

// An object is saved from its slot, and stays there until it is flushed.
#[tactic(auto, unfolding(crate::proofs::Computing::steps, crate::proofs::Computing::contexts))]
fn objects_are_saved()
    ensures saved { slot_step (device_holding None (Some sealed) None 0) (save 0x80000001) ≡ (
      device_holding None (Some sealed) None 1,
      frame 0x8001 0 (sealed_context 1 (0xdb ∷ [])),
    ) }
    ensures last_number { (slot_step (device_holding (Some sealed) None None (2 ^ 62))
        (save 0x80000000)).1
        ≡ refusal 0x01 0x01 }
    ensures empty { (slot_step (device_holding (Some sealed) None None 0) (save 0x80000001)).1
        ≡ refusal 0x09 0x10 }
    ensures no_session_is_saved { (slot_step (device_holding (Some sealed) None None 0)
        (save 0x02000000)).1
        ≡ refusal 0x09 0x10 }
{}

// A context is loaded to the least free slot, if it is one that the device made of an object.
#[tactic(auto, unfolding(crate::proofs::Computing::steps, crate::proofs::Computing::contexts))]
fn objects_are_loaded()
    ensures loaded { slot_step (device_holding (Some sealed) None (Some sealed) 5)
        (frame 0x8001 CC_CONTEXT_LOAD (sealed_context 1 (0xdb ∷ [])))
        ≡ (
          device_holding (Some sealed) (Some sealed) (Some sealed) 5,
          frame 0x8001 0 (u32 0x80000001),
        ) }
    ensures flipped { (slot_step (device_holding None None None 5)
        (frame 0x8001 CC_CONTEXT_LOAD (sealed_context 1 (0xda ∷ [])))).1
        ≡ refusal 0x01 0xdf }
    ensures one_byte_over { (slot_step (device_holding None None None 5)
        (frame 0x8001 CC_CONTEXT_LOAD (sealed_context 1 (0xdb ∷ 0 ∷ [])))).1
        ≡ refusal 0 0x95 }
    ensures session { (slot_step (device_holding None None None 5) (frame 0x8001 CC_CONTEXT_LOAD
        (u32 0 ++ u32 0 ++ u32 0x03000000 ++ u32 RH_NULL ++ 0 ∷ 0 ∷ []))).1
        ≡ refusal 0x01 0xdf }
    ensures other_handle { (slot_step (device_holding None None None 5) (frame 0x8001
        CC_CONTEXT_LOAD (u32 0 ++ u32 0 ++ u32 0x80000001 ++ u32 RH_OWNER ++ 0 ∷ 0 ∷ []))).1
        ≡ refusal 0x01 0xc4 }
{}

// It is in its slot, or in what ContextLoad would take.
fn objects_are_somewhere()
    ensures slot { object_at (device_holding None (Some sealed) None 0) (Some 1)
        (Some (sealed_context 1 (0xda ∷ [])))
        ≡ Some sealed }
    ensures empty { object_at (device_holding None (Some sealed) None 0) (Some 0)
        (Some (sealed_context 1 (0xdb ∷ [])))
        ≡ None }
    ensures context { object_at (device_holding None None None 0) None
        (Some (sealed_context 1 (0xdb ∷ [])))
        ≡ Some sealed }
    ensures flipped { object_at (device_holding None None None 0) None
        (Some (sealed_context 1 (0xda ∷ [])))
        ≡ None }
    ensures one_byte_over { object_at (device_holding None None None 0) None
        (Some (sealed_context 1 (0xdb ∷ 0 ∷ [])))
        ≡ None }
    ensures nowhere { object_at (device_holding None None None 0) None None ≡ None }
{}

fn objects_are_flushed()
    ensures flushed { slot_step (device_holding (Some sealed) (Some sealed) None 0)
        (flush 0x80000000)
        ≡ (device_holding None (Some sealed) None 0, frame 0x8001 0 []) }
    ensures empty { slot_step (device_holding (Some sealed) None None 0) (flush 0x80000002)
        ≡ (device_holding (Some sealed) None None 0, refusal 0x01 0xcb) }
    ensures beyond { (slot_step (device_holding (Some sealed) None None 0) (flush 0x80000003)).1
        ≡ refusal 0x01 0xcb }
    ensures persistent { (slot_step (device_holding (Some sealed) None None 0) (flush 0x81000000)).1
        ≡ refusal 0x01 0xc4 }
    ensures session { (slot_step (device_holding (Some sealed) None None 0) (flush 0x02000000)).1
        ≡ refusal 0x01 0xcb }
    ensures cut { (slot_step (device_holding (Some sealed) None None 0)
        (frame 0x8001 CC_FLUSH_CONTEXT (0x80 ∷ 0 ∷ 0 ∷ []))).1
        ≡ refusal 0x01 0xda }
    ensures one_byte_over { (slot_step (device_holding (Some sealed) None None 0)
        (frame 0x8001 CC_FLUSH_CONTEXT (u32 0x80000000 ++ 0 ∷ []))).1
        ≡ refusal 0 0x95 }
{}

// What a handle names is what stands in its slot; a command that makes an object tells its handle.
fn slots_are_named()
    ensures public { (slot_step (device_holding None (Some sealed) None 0)
        (frame 0x8001 CC_READ_PUBLIC (u32 0x80000001))).1
        ≡ frame 0x8001 0 (sized_bytes (public_bytes sealed.public)
        ++ sized_bytes (object_name sealed.public) ++ sized_bytes sealed.qualified_name) }
    ensures unsealed { (slot_step (device_holding None (Some sealed) None 0)
        (frame 0x8002 CC_UNSEAL (u32 0x80000001 ++ area (password [] 0 (5 ∷ []))))).1
        ≡ frame 0x8002 0 (u32 5 ++ 0 ∷ 3 ∷ 1 ∷ 2 ∷ 3 ∷ 0 ∷ 0 ∷ 1 ∷ 0 ∷ 0 ∷ []) }
    ensures another_password { (slot_step (device_holding None (Some sealed) None 0)
        (frame 0x8002 CC_UNSEAL (u32 0x80000001 ++ area (password [] 0 (6 ∷ []))))).1
        ≡ refusal 0x09 0xa2 }
    ensures nothing_there { (slot_step (device_holding None (Some sealed) None 0)
        (frame 0x8001 CC_READ_PUBLIC (u32 0x80000000))).1
        ≡ refusal 0x09 0x10 }
    ensures loaded_under_it { slot_step (device_holding (Some storage_primary) None None 0)
        (frame 0x8002 CC_LOAD (u32 0x80000000 ++ area (password [] 0 (1 ∷ []))
        ++ sized_bytes sealed_private ++ sized_bytes (public_bytes sealed.public)))
        ≡ (
          device_holding (Some storage_primary) (Some sealed) None 0,
          frame 0x8002 0 (u32 0x80000001 ++ u32 36 ++ sized_bytes (object_name sealed.public) ++ 0
              ∷ 0 ∷ 1 ∷ 0 ∷ 0 ∷ []),
        ) }
{}
