//! Worked examples of session numbers, and of the contexts of sessions. Bytes come from other
//! programs' runs.

ghost use Rattle.std.specs.Prelude.{◌≡◌, ◌-◌, ◌^◌, ◌∷◌, ◌++◌, [], replicate, true, false, Ok, Err};
ghost use Rattle.std.specs.Prelude.{Some, None, is_ok, length};
ghost use Rattle.tab_spec.specs.declared.SessionKind.TheVariants.{Trial};
ghost use Rattle.tab_spec.specs.declared.Kind.TheVariants.{Absent, Policy, Saved};
ghost use Rattle.tab_spec.specs.declared.TheConstants.{CC_GET_RANDOM, RH_OWNER, RS_PW};
ghost use Rattle.effect_spec.specs.Operands.{absent, plain, a_session};
ghost use Rattle.device_spec.specs.Slots.{inactive, loaded, saved, slot_step, room_for};
ghost use Rattle.device_spec.specs.Slots.{loaded_count, active_count, held, no_sessions};
ghost use Rattle.device_spec.specs.Slots.{slot_operands, oldest_saved, gap_of, context_save};
ghost use Rattle.device_spec.specs.Slots.{new_slots, placed, session_loaded, session_at};
ghost use Rattle.device_spec.specs.Slots.{slot_tables};
ghost use Rattle.device_spec.specs.Answers.{listed_handles};
ghost use Rattle.device_spec.specs.Remains.{emptied, handles_command, remains};
ghost use Rattle.tab_examples.specs.Examples.{u32, bytes_of, frame, refusal, flush, save, sealed};
ghost use Rattle.tab_examples.specs.Examples.{with_indexes};
ghost use Rattle.effect_examples.specs.Examples.{another_device};
ghost use Rattle.tab_examples.specs.SessionExamples.{hmac_session, next_32};
ghost use Rattle.effect_examples.specs.SessionExamples.{usual_start_parameters, start_parameter_bytes};
ghost use Rattle.effect_examples.specs.SessionExamples.{read_by_session, unsealed_by_policy};
ghost use Rattle.device_examples.specs.Examples.{device_at, device_holding, device_after, device_in};
ghost use Rattle.device_examples.specs.Examples.{one_saved, places_of, many, crowded, last_place};
ghost use Rattle.device_examples.specs.Examples.{first_session, first_in, second_nonce, second_session};
ghost use Rattle.device_examples.specs.Examples.{second_in, three_sessions, named_on, operand_on};
ghost use Rattle.device_examples.specs.Examples.{four_slots, many_sessions, of_another, room_of};
ghost use Rattle.device_examples.specs.Examples.{saved_from_5, start_session, start_reply, no_room};
ghost use Rattle.device_examples.specs.Examples.{first_context, second_context, load_context};
ghost use Rattle.device_examples.specs.Examples.{context_under, load_under, found, ask, answer};
ghost use Rattle.device_examples.specs.Examples.{secret_shape, secret_auths, later_session, later_in};
ghost use Rattle.device_examples.specs.Examples.{left_behind, left_by, reading_device};
ghost use Rattle.device_examples.specs.Examples.{unsealing_device};

// A session gets the least unused number, and a nonceTPM from the random stream.
#[tactic(auto, unfolding(crate::proofs::Computing::steps, tab_examples::proofs::Computing::draws))]
fn sessions_start()
    ensures hmac { slot_step (device_at 0) (start_session 0)
        ≡ (device_after 8 (first_in ∷ []) 0, start_reply 0x02000000 next_32) }
    ensures policy { slot_step (device_after 8 (first_in ∷ []) 0) (start_session 1)
        ≡ (device_after 16 (first_in ∷ second_in ∷ []) 0, start_reply 0x03000001 second_nonce) }
    ensures trial { slot_step (device_at 0) (start_session 3) ≡ (
      device_after 8 (loaded 0x03 (record first_session { kind = Trial }) ∷ []) 0,
      start_reply 0x03000000 next_32,
    ) }
    ensures between { slot_step (device_in (saved 0x03 0 ∷ inactive ∷ saved 0x03 1 ∷ []) 2)
        (start_session 0) ≡ (
          device_after 8 (saved 0x03 0 ∷ first_in ∷ saved 0x03 1 ∷ []) 2,
          start_reply 0x02000001 next_32,
        ) }
    ensures last_number { (slot_step (crowded 0 63) (start_session 0)).1
        ≡ start_reply 0x0200003f next_32 }
{}

// At most 64 sessions are active and three are loaded. The numbers are looked at before the places.
fn sessions_have_room()
    ensures two_loaded { no_room 2 0 ≡ None }
    ensures three_loaded { no_room 3 0 ≡ Some 0x903 }
    ensures one_number_left { no_room 2 61 ≡ None }
    ensures all_active { no_room 2 62 ≡ Some 0x905 }
    ensures all_saved { no_room 0 64 ≡ Some 0x905 }
    ensures last_number_and_no_place { no_room 3 60 ≡ Some 0x903 }
    ensures neither { no_room 3 61 ≡ Some 0x905 }
    ensures another_command { room_for (crowded 3 61) CC_GET_RANDOM
        (start_parameter_bytes usual_start_parameters) ≡ None }
{}

// A session without a number or a place is refused, after its parameters.
#[tactic(auto, unfolding(crate::proofs::Computing::steps))]
fn starts_need_room()
    ensures no_number { slot_step (crowded 3 61) (start_session 0)
        ≡ (crowded 3 61, refusal 0x09 0x05) }
    ensures no_place { slot_step (crowded 3 60) (start_session 0)
        ≡ (crowded 3 60, refusal 0x09 0x03) }
    ensures parameters_first { slot_step (crowded 3 61) (start_session 2)
        ≡ (crowded 3 61, refusal 0x03 0xc4) }
{}

// A device has as many slots as its numbers say, and an object gets the least free one.
fn devices_have_slots()
    ensures slots { length (new_slots another_device (with_indexes [])).slots ≡ 254 }
    ensures emptied { (emptied (of_another three_sessions)).slots ≡ replicate 254 None }
    ensures fourth { (placed (four_slots None) sealed (frame 0x8001 0 (u32 0))).1
        ≡ frame 0x8001 0 (u32 0x80000003) }
    ensures full { (slot_tables (four_slots (Some sealed))).is_full ≡ true }
    ensures not_full { (slot_tables (four_slots None)).is_full ≡ false }
{}

// It starts as many sessions as they say, of which some are loaded. There are no more than 64
// numbers of sessions on any device.
fn devices_have_places()
    ensures five_loaded { room_of another_device 5 0 ≡ None }
    ensures six_loaded { room_of another_device 6 0 ≡ Some 0x903 }
    ensures fifteen_active { room_of another_device 0 15 ≡ None }
    ensures sixteen_active { room_of another_device 0 16 ≡ Some 0x905 }
    ensures last_session_and_no_place { room_of another_device 6 9 ≡ Some 0x903 }
    ensures neither { room_of another_device 6 10 ≡ Some 0x905 }
    ensures last_number { room_of many_sessions 0 63 ≡ None }
    ensures no_number { room_of many_sessions 0 64 ≡ Some 0x905 }
{}

// It loads a session where one of its places is free, and saves one below its gap.
fn devices_have_a_gap()
    ensures load { load_under (of_another (device_in (saved 0x02 5 ∷ many 5 0) 6)) 0x02000000 5
        ≡ Ok (of_another (device_in (many 6 0) 6), frame 0x8001 0 (u32 0x02000000)) }
    ensures no_load { load_under (of_another (device_in (saved 0x02 5 ∷ many 6 0) 6)) 0x02000000 5
        ≡ Err 0x903 }
    ensures near { is_ok (context_save (of_another (saved_from_5 404)) 0x02000000 []) ≡ true }
    ensures far { context_save (of_another (saved_from_5 405)) 0x02000000 [] ≡ Err 0x901 }
{}

// What is held: objects, and loaded and saved sessions.
fn sessions_are_counted()
    ensures numbers { no_sessions ≡ replicate 64 inactive }
    ensures in_use { loaded_count (places_of (many 2 5)) ≡ 2 }
    ensures active { active_count (places_of (many 2 5)) ≡ 7 }
    ensures sessions { held (crowded 2 5) ≡ 7 }
    ensures objects_too { held (record (crowded 2 5) { slots = None ∷ Some sealed ∷ None ∷ [] })
        ≡ 8 }
    ensures none { held (device_at 0) ≡ 0 }
{}

// A handle names a loaded session by the octet of its type.
fn sessions_are_named_by_their_octets()
    ensures hmac { named_on three_sessions 0x02000000 ≡ Some (0x02000000, first_session) }
    ensures policy { named_on three_sessions 0x03000001 ≡ Some (0x03000001, second_session) }
    ensures other_octet { named_on three_sessions 0x03000000 ≡ None }
    ensures password { named_on three_sessions RS_PW ≡ None }
    ensures no_octet { named_on three_sessions 0x40000000 ≡ None }
{}

// A handle names a loaded session by its number, which is below 64 and takes the other three bytes.
fn sessions_are_named_by_their_numbers()
    ensures away { named_on three_sessions 0x03000002 ≡ None }
    ensures nobodys { named_on three_sessions 0x02000003 ≡ None }
    ensures number_63 { named_on (last_place first_in) 0x0200003f
        ≡ Some (0x0200003f, first_session) }
    ensures number_64 { named_on (last_place first_in) 0x02000040 ≡ None }
    ensures all_three_bytes { named_on three_sessions 0x02010000 ≡ None }
{}

// What stands for a handle that may name a session, and for all of a command.
fn sessions_are_operands()
    ensures operand { operand_on three_sessions Saved 0x02000000
        ≡ a_session 0x02000000 first_session }
    ensures operand_away { operand_on three_sessions Policy 0x03000002 ≡ plain 0x03000002 }
    ensures no_operand { operand_on three_sessions Absent 0x02000000 ≡ absent }
    ensures operands { slot_operands three_sessions secret_shape secret_auths ≡ record {
      handles = plain RH_OWNER ∷ a_session 0x03000001 second_session ∷ [];
      session = Some (0x02000000, first_session);
    } }
{}

// How far the next number is above the oldest one that is saved.
fn gaps_are_counted()
    ensures oldest { oldest_saved (saved_from_5 9).sessions ≡ Some 5 }
    ensures no_oldest { oldest_saved (crowded 3 0).sessions ≡ None }
    ensures gap { gap_of (saved_from_5 259) ≡ 254 }
    ensures no_gap { gap_of (device_in (many 3 0) 300) ≡ 0 }
{}

// A session isn't saved where the next number is 255 or more above the oldest.
fn saves_have_a_gap()
    ensures near { is_ok (context_save (saved_from_5 259) 0x02000000 []) ≡ true }
    ensures far { context_save (saved_from_5 260) 0x02000000 [] ≡ Err 0x901 }
    ensures none_away { is_ok (context_save (device_in (many 3 0) 300) 0x02000000 []) ≡ true }
    ensures a_byte_after { context_save (saved_from_5 260) 0x02000000 (0 ∷ []) ≡ Err 0x95 }
{}

// A session isn't saved where the next number is 2^62. Objects and sessions have numbers of their
// own.
fn saves_have_a_last_number()
    ensures last_number { is_ok (context_save (device_in (many 3 0) (2 ^ 62 - 1)) 0x02000000 [])
        ≡ true }
    ensures past_it { context_save (device_in (many 3 0) (2 ^ 62)) 0x02000000 [] ≡ Err 0x101 }
    ensures past_it_and_far { context_save (saved_from_5 (2 ^ 62)) 0x02000000 [] ≡ Err 0x101 }
    ensures objects_have_their_own { is_ok (context_save
        (record (device_holding (Some sealed) None None 0) { counter = 2 ^ 62 })
        0x80000000 []) ≡ true }
    ensures sessions_have_their_own { is_ok (context_save
        (record (crowded 1 0) { object_counter = 2 ^ 62 }) 0x02000000 []) ≡ true }
{}

// Whole commands that save no session: beyond the gap, and of one that is saved or has another
// octet.
#[tactic(auto, unfolding(crate::proofs::Computing::steps))]
fn saves_are_refused()
    ensures refused { slot_step (saved_from_5 260) (save 0x02000000)
        ≡ (saved_from_5 260, refusal 0x09 0x01) }
    ensures away { slot_step three_sessions (save 0x03000002)
        ≡ (three_sessions, refusal 0x09 0x10) }
    ensures other_octet { (slot_step three_sessions (save 0x03000000)).1 ≡ refusal 0x09 0x10 }
{}

// A session that is loaded is in its place again, and the response tells its handle.
fn loads_put_sessions_back()
    ensures last { load_under (device_in (saved 0x02 5 ∷ many 2 0) 6) 0x02000000 5
        ≡ Ok (device_in (many 3 0) 6, frame 0x8001 0 (u32 0x02000000)) }
    ensures number_63 { load_under (last_place (saved 0x02 5)) 0x0200003f 5
        ≡ Ok (last_place (loaded 0x02 hmac_session), frame 0x8001 0 (u32 0x0200003f)) }
    ensures policy { session_loaded (one_saved 0x03 5)
        (context_under 0x03000000 5) (Some second_session)
        ≡ Ok (device_in (second_in ∷ []) 6, frame 0x8001 0 (u32 0x03000000)) }
{}

// Only the last context of a saved session is loaded, and only under its own handle.
fn last_contexts_are_loaded()
    ensures older { load_under (one_saved 0x02 5) 0x02000000 4 ≡ Err 0x1cb }
    ensures newer { load_under (one_saved 0x02 5) 0x02000000 6 ≡ Err 0x1cb }
    ensures other_octet { load_under (one_saved 0x02 5) 0x03000000 5 ≡ Err 0x1cb }
    ensures other_number { load_under (one_saved 0x02 5) 0x02000001 5 ≡ Err 0x1cb }
    ensures in_use { load_under (crowded 1 0) 0x02000000 0 ≡ Err 0x1cb }
    ensures number_64 { load_under (last_place (saved 0x02 5)) 0x02000040 5 ≡ Err 0x1cb }
{}

// A session is loaded where there is room, which is looked at last.
fn loads_need_room()
    ensures three_loaded { load_under (device_in (saved 0x02 5 ∷ many 3 0) 6) 0x02000000 5
        ≡ Err 0x903 }
    ensures older_and_no_room { load_under (device_in (saved 0x02 5 ∷ many 3 0) 6) 0x02000000 4
        ≡ Err 0x1cb }
    ensures not_authentic { session_loaded (device_in (saved 0x02 5 ∷ many 3 0) 6)
        (context_under 0x02000000 4) None
        ≡ Err 0x1df }
{}

// Two sessions are saved, and one is loaded again, once.
#[tactic(auto, unfolding(crate::proofs::Computing::steps, crate::proofs::Computing::contexts))]
fn sessions_are_saved_and_loaded()
    ensures first { slot_step (device_in (first_in ∷ second_in ∷ []) 0) (save 0x02000000)
        ≡ (device_in (saved 0x02 0 ∷ second_in ∷ []) 1, frame 0x8001 0 (first_context 0xca)) }
    ensures second { slot_step (device_in (saved 0x02 0 ∷ second_in ∷ []) 1) (save 0x03000001)
        ≡ (device_in (saved 0x02 0 ∷ saved 0x03 1 ∷ []) 2, frame 0x8001 0 second_context) }
    ensures loaded { slot_step (device_in (saved 0x02 0 ∷ saved 0x03 1 ∷ []) 2)
        (load_context (first_context 0xca))
        ≡ (device_in (first_in ∷ saved 0x03 1 ∷ []) 2, frame 0x8001 0 (u32 0x02000000)) }
    ensures again { slot_step (device_in (first_in ∷ []) 2) (load_context (first_context 0xca))
        ≡ (device_in (first_in ∷ []) 2, refusal 0x01 0xcb) }
    ensures flipped { (slot_step (one_saved 0x02 0) (load_context (first_context 0xcb))).1
        ≡ refusal 0x01 0xdf }
{}

// A loaded session is in its place, whatever context there is.
#[tactic(auto, unfolding(crate::proofs::Computing::contexts))]
fn loaded_sessions_are_in_their_places()
    ensures in_use { session_at three_sessions 0x02000000 None ≡ Some first_session }
    ensures in_use_and_a_context { found (crowded 1 0) 0x02000000 0xca ≡ Some hmac_session }
    ensures other_octet { session_at three_sessions 0x03000000 None ≡ None }
    ensures nobodys { found (device_at 0) 0x02000000 0xca ≡ None }
{}

// A saved session is in the context that ContextLoad would take.
#[tactic(auto, unfolding(crate::proofs::Computing::contexts))]
fn saved_sessions_are_in_their_contexts()
    ensures away { found (one_saved 0x02 0) 0x02000000 0xca ≡ Some first_session }
    ensures no_context { session_at (one_saved 0x02 0) 0x02000000 None ≡ None }
    ensures away_with_other_octet { found (one_saved 0x03 0) 0x02000000 0xca ≡ None }
    ensures another_handle { found (one_saved 0x03 0) 0x03000000 0xca ≡ None }
    ensures older { found (one_saved 0x02 1) 0x02000000 0xca ≡ None }
    ensures flipped { found (one_saved 0x02 0) 0x02000000 0xcb ≡ None }
    ensures one_byte_over { session_at (one_saved 0x02 0) 0x02000000
        (Some (first_context 0xca ++ 0 ∷ [])) ≡ None }
{}

// A session ends, loaded or saved.
#[tactic(auto, unfolding(crate::proofs::Computing::steps))]
fn sessions_are_flushed()
    ensures in_use { slot_step three_sessions (flush 0x02000000)
        ≡ (device_in (inactive ∷ second_in ∷ saved 0x03 0 ∷ []) 1, frame 0x8001 0 []) }
    ensures away { slot_step three_sessions (flush 0x03000002)
        ≡ (device_in (first_in ∷ second_in ∷ []) 1, frame 0x8001 0 []) }
    ensures other_octet { slot_step three_sessions (flush 0x03000000)
        ≡ (three_sessions, refusal 0x01 0xcb) }
    ensures away_with_other_octet { slot_step three_sessions (flush 0x02000002)
        ≡ (three_sessions, refusal 0x01 0xcb) }
    ensures nobodys { (slot_step three_sessions (flush 0x02000003)).1 ≡ refusal 0x01 0xcb }
    ensures number_63 { slot_step (last_place (saved 0x02 5)) (flush 0x0200003f)
        ≡ (device_in [] 6, frame 0x8001 0 []) }
    ensures number_64 { (slot_step (last_place (saved 0x02 5)) (flush 0x02000040)).1
        ≡ refusal 0x01 0xcb }
    ensures permanent { (slot_step three_sessions (flush 0x40000000)).1 ≡ refusal 0x01 0xc4 }
{}

// Loaded sessions and saved ones by their own handles.
#[tactic(auto, unfolding(crate::proofs::Computing::steps, effect_examples::proofs::Computing::lists))]
fn sessions_are_listed()
    ensures in_use { slot_step three_sessions (ask 1 0x02000000 64)
        ≡ (three_sessions, answer 0 1 (u32 2 ++ u32 0x02000000 ++ u32 0x03000001)) }
    ensures away { (slot_step three_sessions (ask 1 0x03000000 64)).1
        ≡ answer 0 1 (u32 1 ++ u32 0x03000002) }
    ensures from_a_number { (slot_step three_sessions (ask 1 0x02000001 64)).1
        ≡ answer 0 1 (u32 1 ++ u32 0x03000001) }
    ensures one_alone { (slot_step three_sessions (ask 1 0x02000000 1)).1
        ≡ answer 1 1 (u32 1 ++ u32 0x02000000) }
    ensures last_number { (slot_step (last_place (saved 0x02 5)) (ask 1 0x0300003f 64)).1
        ≡ answer 0 1 (u32 1 ++ u32 0x0200003f) }
{}

// How many sessions there may be, and how many there are.
#[tactic(auto, unfolding(crate::proofs::Computing::steps, effect_examples::proofs::Computing::lists))]
fn properties_count_sessions()
    ensures of_another { (slot_step (of_another (crowded 0 16)) (ask 6 0x111 1)).1
        ≡ answer 1 6 (u32 1 ++ u32 0x111 ++ u32 16) }
    ensures limits { (slot_step three_sessions (ask 6 0x110 2)).1
        ≡ answer 1 6 (u32 2 ++ u32 0x110 ++ u32 3 ++ u32 0x111 ++ u32 64) }
    ensures gap { (slot_step three_sessions (ask 6 0x113 1)).1
        ≡ answer 1 6 (u32 1 ++ u32 0x114 ++ u32 255) }
    ensures loaded_counts { (slot_step three_sessions (ask 6 0x203 2)).1
        ≡ answer 1 6 (u32 2 ++ u32 0x203 ++ u32 2 ++ u32 0x204 ++ u32 1) }
    ensures active_counts { (slot_step three_sessions (ask 6 0x205 2)).1
        ≡ answer 1 6 (u32 2 ++ u32 0x205 ++ u32 3 ++ u32 0x206 ++ u32 61) }
{}

// A command leaves what it made of the sessions that it names; the one that authorizes it may end.
fn sessions_are_left()
    ensures policy { left_by (a_session 0x03000001 later_session) None false
        ≡ places_of (first_in ∷ later_in ∷ saved 0x03 0 ∷ []) }
    ensures goes_on { left_by absent (Some (0x02000000, hmac_session)) false
        ≡ places_of (loaded 0x02 hmac_session ∷ second_in ∷ saved 0x03 0 ∷ []) }
    ensures ended { left_by absent (Some (0x02000000, hmac_session)) true
        ≡ places_of (inactive ∷ second_in ∷ saved 0x03 0 ∷ []) }
    ensures both { left_by (a_session 0x03000001 later_session)
        (Some (0x02000000, hmac_session)) true
        ≡ places_of (inactive ∷ later_in ∷ saved 0x03 0 ∷ []) }
    ensures none { left_by absent None true ≡ three_sessions.sessions }
{}

// Whole commands that a session authorizes: an HMAC session ends, and a policy session goes on.
#[tactic(auto, unfolding(crate::proofs::Computing::commands))]
fn sessions_authorize()
    ensures read { slot_step (reading_device 104 (loaded 0x02 read_by_session.session))
        read_by_session.bytes ≡ (
          reading_device 109 inactive,
          bytes_of 26 0x80020000004e00000000000000070005dbf71d45d70014606edb
              ++ bytes_of 26 0x1162c6f71304bd4dffd541a11832d6c63b00002024c945e17b6b
              ++ bytes_of 26 0x110d4b7aa93c3fbdfd830ea28fc1d3838d376aa5ea2123334975,
        ) }
    ensures read_again { slot_step (reading_device 109 inactive) read_by_session.bytes
        ≡ (reading_device 109 inactive, refusal 0x09 0x18) }
    ensures another_nonce { slot_step (reading_device 104 first_in) read_by_session.bytes
        ≡ (reading_device 104 first_in, refusal 0x09 0xa2) }
    ensures unsealed { slot_step (unsealing_device 198 unsealed_by_policy.session)
        unsealed_by_policy.bytes ≡ (
          unsealing_device 203 (record second_session {
            nonce = bytes_of 20 0x8523177f3433adc43f04a356759ed95a9dcc89f5;
          }),
          bytes_of 27 0x800200000051000000000000000a0008f6881f739602db54001485
              ++ bytes_of 27 0x23177f3433adc43f04a356759ed95a9dcc89f5010020c91a22f972
              ++ bytes_of 27 0x258d250ab7878e670c68398d2948dfd1e9136ff738f8031edf2aa9,
        ) }
{}

// What a device holds is found by three lists: objects, loaded sessions and saved ones. Each handle
// is the one under which it is flushed, and then the next is the first.
#[tactic(auto, unfolding(crate::proofs::Computing::steps, effect_examples::proofs::Computing::lists))]
fn remains_are_listed_and_flushed()
    ensures command { handles_command 0x80000000
        ≡ bytes_of 22 0x8001000000160000017a0000000180000000000000fe }
    ensures none { remains (device_at 0) ≡ [] }
    ensures all { remains left_behind
        ≡ 0x80000000 ∷ 0x80000002 ∷ 0x02000000 ∷ 0x03000001 ∷ 0x03000002 ∷ [] }
    ensures loaded { listed_handles (slot_step left_behind (handles_command 0x02000000)).1
        ≡ 0x02000000 ∷ 0x03000001 ∷ [] }
    ensures saved { listed_handles (slot_step left_behind (handles_command 0x03000000)).1
        ≡ 0x03000002 ∷ [] }
    ensures flushed { remains (slot_step left_behind (flush 0x80000000)).0
        ≡ 0x80000002 ∷ 0x02000000 ∷ 0x03000001 ∷ 0x03000002 ∷ [] }
    ensures last { (slot_step (one_saved 0x03 5) (flush 0x03000000)).0
        ≡ emptied (one_saved 0x03 5) }
{}
