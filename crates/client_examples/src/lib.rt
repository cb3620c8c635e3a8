//! Worked examples of `client_laws`: which commands of a client are sent, on both sides of each
//! limit.
#![tactic(auto)]

ghost use Rattle.std.specs.Prelude.{◌≡◌, ◌∷◌, ◌++◌, [], true, false, Some, None};
ghost use Rattle.tab_spec.specs.declared.TheConstants.{CC_CONTEXT_LOAD, CC_CONTEXT_SAVE};
ghost use Rattle.tab_spec.specs.declared.TheConstants.{CC_GET_CAPABILITY};
ghost use Rattle.tab_examples.specs.Examples.{flush, frame, save, u32};
ghost use Rattle.tab_spec.specs.declared.contexts.TheConstants.{TPM_CONTEXTS};
ghost use Rattle.world_examples.specs.Examples.{ask};
ghost use Rattle.client_examples.specs.Examples.{is_sent_for, load_of, is_sent_to};

// ContextSave is sent, of objects and of sessions. FlushContext isn't.
#[tactic(auto, unfolding(tab_spec::specs::Auths::auths_of, tab_spec::specs::Admission::admitted))]
fn saves_are_sent()
    ensures object { is_sent_for (save 0x80000000) ≡ Some true }
    ensures session { is_sent_for (save 0x02000000) ≡ Some true }
    ensures followed { is_sent_for
        (frame 0x8001 CC_CONTEXT_SAVE (u32 0x80000000 ++ 0 ∷ [])) ≡ Some false }
    ensures flushed { is_sent_for (flush 0x80000000) ≡ Some false }
{}

// ContextLoad is sent if its context has the handle of an object.
#[tactic(auto, unfolding(tab_spec::specs::Auths::auths_of, tab_spec::specs::Admission::admitted))]
fn contexts_of_objects_are_sent()
    ensures loads_object { is_sent_for (load_of 0x80000000 (u32 0x40000001)) ≡ Some true }
    ensures nothing_behind { is_sent_for (load_of 0x80000000 ([])) ≡ Some true }
    ensures another_object { is_sent_for (load_of 0x80000001 (u32 0x40000001)) ≡ Some false }
    ensures loads_session { is_sent_for (load_of 0x02000000 (u32 0x40000007)) ≡ Some false }
    ensures st_clear { is_sent_for (load_of 0x80000002 (u32 0x40000001)) ≡ Some false }
    ensures cut { is_sent_for
        (frame 0x8001 CC_CONTEXT_LOAD (u32 0 ++ u32 7 ++ 0x80 ∷ 0 ∷ 0 ∷ [])) ≡ Some false }
{}

// To a TPM that isn't the profile's a context with the handle 0x80000002 is sent too.
#[tactic(auto, unfolding(tab_spec::specs::Auths::auths_of, tab_spec::specs::Admission::admitted))]
fn more_contexts_are_sent_to_other_tpms()
    ensures st_clear_to_a_tpm { is_sent_to TPM_CONTEXTS (load_of 0x80000002 (u32 0x40000001))
        ≡ Some true }
    ensures sequence_to_a_tpm { is_sent_to TPM_CONTEXTS (load_of 0x80000001 (u32 0x40000001))
        ≡ Some false }
    ensures session_to_a_tpm { is_sent_to TPM_CONTEXTS (load_of 0x02000000 (u32 0x40000007))
        ≡ Some false }
{}

// GetCapability is sent where it asks what is the same for all clients.
#[tactic(auto, unfolding(tab_spec::specs::Auths::auths_of, tab_spec::specs::Admission::admitted))]
fn lists_of_the_device_are_sent()
    ensures pcrs { is_sent_for (ask 1 0 24) ≡ Some true }
    ensures indexes { is_sent_for (ask 1 0x01000000 8) ≡ Some true }
    ensures permanent { is_sent_for (ask 1 0x40000000 8) ≡ Some true }
    ensures persistent { is_sent_for (ask 1 0x81000000 8) ≡ Some true }
    ensures unknown_handles { is_sent_for (ask 1 0x90000000 8) ≡ Some true }
    ensures commands { is_sent_for (ask 2 0x11f 8) ≡ Some true }
    ensures banks { is_sent_for (ask 5 0 8) ≡ Some true }
    ensures unknown { is_sent_for (ask 7 0x80000000 8) ≡ Some true }
{}

// GetCapability isn't sent where it asks of a client's own tables, or where its parameters aren't
// whole.
#[tactic(auto, unfolding(tab_spec::specs::Auths::auths_of, tab_spec::specs::Admission::admitted))]
fn lists_of_clients_are_not_sent()
    ensures objects { is_sent_for (ask 1 0x80000000 8) ≡ Some false }
    ensures sessions { is_sent_for (ask 1 0x02000000 8) ≡ Some false }
    ensures saved_sessions { is_sent_for (ask 1 0x03000000 8) ≡ Some false }
    ensures properties { is_sent_for (ask 6 0x100 8) ≡ Some false }
    ensures cut { is_sent_for
        (frame 0x8001 CC_GET_CAPABILITY (u32 2 ++ u32 0 ++ 0 ∷ 0 ∷ 0 ∷ [])) ≡ Some false }
    ensures followed { is_sent_for
        (frame 0x8001 CC_GET_CAPABILITY (u32 2 ++ u32 0 ++ u32 8 ++ 0 ∷ [])) ≡ Some false }
{}

// GetRandom is sent, and a Startup is refused before.
#[tactic(auto, unfolding(tab_spec::specs::Auths::auths_of, tab_spec::specs::Admission::admitted))]
fn other_commands_are_sent()
    ensures random { is_sent_for
        (0x80 ∷ 0x01 ∷ 0 ∷ 0 ∷ 0 ∷ 12 ∷ 0 ∷ 0 ∷ 0x01 ∷ 0x7b ∷ 0 ∷ 8 ∷ []) ≡ Some true }
    ensures startup { is_sent_for
        (0x80 ∷ 0x01 ∷ 0 ∷ 0 ∷ 0 ∷ 12 ∷ 0 ∷ 0 ∷ 0x01 ∷ 0x44 ∷ 0 ∷ 0 ∷ []) ≡ None }
{}
