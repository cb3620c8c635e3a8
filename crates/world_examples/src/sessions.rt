//! Sessions of clients: each number is one client's, and which number a new session gets is a pick.

ghost use Rattle.std.specs.Prelude.{◌≡◌, ◌∷◌, ◌++◌, [], replicate, set, Some, None, is_some, true};
ghost use Rattle.tab_examples.specs.Examples.{area, flush, frame, plain_auth, refusal, u32};
ghost use Rattle.tab_spec.specs.declared.TheConstants.{CC_POLICY_AUTH_VALUE};
ghost use Rattle.history_spec.specs.declared.Pick.TheVariants.{Nothing, Session, Sequence};
ghost use Rattle.world_spec.specs.World.{closed_world, new_client, no_sessions, plain_step};
ghost use Rattle.world_spec.specs.World.{world_of};
ghost use Rattle.world_examples.specs.Examples.{begun_hmac, begun_policy, digest_reply, get_digest};
ghost use Rattle.world_examples.specs.Examples.{start_session, started_reply, taken_numbers};
ghost use Rattle.world_examples.specs.Examples.{of_16_sessions, world_of_sessions};

// A session that starts gets the number that is picked, below 64 and unused; its handle tells the
// octet of its type and that number.
fn sessions_get_a_number()
    ensures hmac { plain_step (world_of_sessions 0 no_sessions) 0 (start_session 0) (Session 0)
        ≡ Some
        (world_of_sessions 8 (set no_sessions 0 (Some (begun_hmac 0))), started_reply 0x02000000) }
    ensures policy { plain_step (world_of_sessions 0 no_sessions) 0 (start_session 1) (Session 63)
        ≡ Some (
          world_of_sessions 8 (set no_sessions 63 (Some (begun_policy 0))),
          started_reply 0x0300003f,
        ) }
    ensures no_pick { plain_step (world_of_sessions 0 no_sessions) 0 (start_session 1) Nothing
        ≡ None }
    ensures another_pick { plain_step (world_of_sessions 0 no_sessions) 0 (start_session 1)
        (Sequence 0)
        ≡ None }
    ensures past_the_end { plain_step (world_of_sessions 0 no_sessions) 0 (start_session 1)
        (Session 64)
        ≡ None }
    ensures taken { plain_step (world_of_sessions 0 (taken_numbers 1)) 0 (start_session 1)
        (Session 0)
        ≡ None }
    ensures last { plain_step (world_of_sessions 0 (taken_numbers 63)) 0 (start_session 1)
        (Session 63)
        ≡ Some (
          world_of_sessions 8 (set (taken_numbers 63) 63 (Some (begun_policy 0))),
          started_reply 0x0300003f,
        ) }
{}

// The 65th session is refused, after its parameters were read and tested; over a device of 16
// sessions the 17th is, whatever numbers these have.
#[tactic(auto, unfolding(crate::proofs::Computing::steps))]
fn sessions_are_bounded()
    ensures too_many { plain_step (world_of_sessions 0 (taken_numbers 64)) 0
        (start_session 1) Nothing
        ≡ Some (world_of_sessions 0 (taken_numbers 64), refusal 0x09 0x05) }
    ensures a_type { plain_step (world_of_sessions 0 (taken_numbers 64)) 0 (start_session 2) Nothing
        ≡ Some (world_of_sessions 0 (taken_numbers 64), refusal 0x03 0xc4) }
    ensures refused_pick { plain_step (world_of_sessions 0 (taken_numbers 64)) 0 (start_session 1)
        (Session 0)
        ≡ None }
    ensures seventeenth { plain_step (of_16_sessions (taken_numbers 16)) 0 (start_session 1) Nothing
        ≡ Some (of_16_sessions (taken_numbers 16), refusal 0x09 0x05) }
    ensures sixteenth { is_some
        (plain_step (of_16_sessions (taken_numbers 15)) 0 (start_session 1) (Session 63)) ≡ true }
    ensures unused { plain_step (of_16_sessions (taken_numbers 16)) 0 (start_session 1) (Session 20)
        ≡ None }
{}

// A client names its own sessions, by the handle that it was told.
#[tactic(auto, unfolding(crate::proofs::Computing::steps))]
fn clients_name_their_own_sessions()
    ensures own { plain_step (world_of_sessions 0 (taken_numbers 1)) 1
        (get_digest 0x03000000) Nothing
        ≡ Some (world_of_sessions 0 (taken_numbers 1), digest_reply) }
    ensures anothers { plain_step (world_of_sessions 0 (taken_numbers 1)) 0
        (get_digest 0x03000000) Nothing
        ≡ Some (world_of_sessions 0 (taken_numbers 1), refusal 0x09 0x10) }
    ensures unused { plain_step (world_of_sessions 0 (taken_numbers 1)) 1
        (get_digest 0x03000001) Nothing
        ≡ Some (world_of_sessions 0 (taken_numbers 1), refusal 0x09 0x10) }
    ensures past_the_end { plain_step (world_of_sessions 0 (taken_numbers 64)) 1
        (get_digest 0x03000040) Nothing
        ≡ Some (world_of_sessions 0 (taken_numbers 64), refusal 0x09 0x10) }
    ensures flushed { plain_step (world_of_sessions 0 (taken_numbers 2)) 1
        (flush 0x03000001) Nothing
        ≡ Some (
          world_of_sessions 0 (taken_numbers 1),
          0x80 ∷ 0x01 ∷ 0 ∷ 0 ∷ 0 ∷ 0x0a ∷ 0 ∷ 0 ∷ 0 ∷ 0 ∷ [],
        ) }
    ensures flushed_anothers { plain_step (world_of_sessions 0 (taken_numbers 2)) 0
        (flush 0x03000001) Nothing
        ≡ Some (world_of_sessions 0 (taken_numbers 2), refusal 0x01 0xcb) }
    ensures flushed_by_another_octet { plain_step (world_of_sessions 0 (taken_numbers 2)) 1
        (flush 0x02000001) Nothing
        ≡ Some (world_of_sessions 0 (taken_numbers 2), refusal 0x01 0xcb) }
{}

// What a closed client had in use is gone.
fn closes_end_sessions()
    ensures { closed_world (world_of_sessions 0 (set (taken_numbers 2) 0 (Some (begun_policy 0)))) 1
        ≡ record (world_of_sessions 0 (set no_sessions 0 (Some (begun_policy 0)))) {
          clients = new_client 0 ∷ [];
        } }
{}
