ghost use Rattle.std.specs.Prelude.{◌≡◌, ◌==◌, ℕ, Bool, true, false, List, ◌<◌, ◌≤◌, ◌^◌, length};
ghost use Rattle.std.specs.Prelude.{set, Ok, Option, Some, None, IfSome};
ghost use Rattle.std.specs.List.{list_any};
ghost use Rattle.std.specs.Int.{w32, to_be_bytes};
ghost use Rattle.tab_spec.specs.declared.TheConstants.{CC_CONTEXT_LOAD, CC_FLUSH_CONTEXT};
ghost use Rattle.tab_spec.specs.declared.TheConstants.{CC_START_AUTH_SESSION, CC_STARTUP};
ghost use Rattle.tab_spec.specs.declared.TheConstants.{CONTEXT_LIMIT, HT_TRANSIENT};
ghost use Rattle.tab_spec.specs.declared.TheConstants.{RC_SUCCESS, ST_NO_SESSIONS, CC_CONTEXT_SAVE};
ghost use Rattle.tab_spec.specs.Frame.{code_of, is_frame};
ghost use Rattle.effect_spec.specs.Contexts.{Context, context_bytes, object_context, opened_object};
ghost use Rattle.effect_spec.specs.Contexts.{opened_session, session_context};
ghost use Rattle.tab_spec.specs.Object.{object_bytes, IsObject, Object};
ghost use Rattle.tab_spec.specs.Session.{session_bytes, IsSession, Session};
ghost use Rattle.effect_spec.specs.Operands.{Operands, new_object, new_session, nothing};
ghost use Rattle.effect_spec.specs.Effect.{Effect, effect_of, HasHandle};
ghost use Rattle.tab_spec.specs.Persist.{Persist, fresh_persist};
ghost use Rattle.tab_spec.specs.declared.Shape.{Shape};
ghost use Rattle.tab_spec.specs.declared.Auths.{Auths};
ghost use Rattle.tab_spec.specs.Reply.{response};
ghost use Rattle.tab_spec.specs.Shape.{IsShape, octet_of, row_in, number_of_session};
ghost use Rattle.tab_spec.specs.Admission.{is_session_handle, admitted_by};
ghost use Rattle.tab_spec.specs.declared.Admitted.{Admitted};
ghost use Rattle.device_spec.specs.Answers.{takes};
ghost use Rattle.device_spec.specs.ContextCommands.{context_load_command, context_save_command};
ghost use Rattle.device_spec.specs.ContextCommands.{flush_context_command};
ghost use Rattle.tab_spec.specs.declared.numbers.Numbers.{Numbers};
ghost use Rattle.tab_spec.specs.Numbers.{AreInRange};
ghost use Rattle.device_spec.specs.Slots.{SlotState, loaded, saved, IsSlots, new_slots, in_slot};
ghost use Rattle.device_spec.specs.Slots.{is_free, free_slot, effect_by, place_of, is_active_with};
ghost use Rattle.device_spec.specs.Slots.{gap_of, loaded_count, loaded_session, object_at};
ghost use Rattle.device_spec.specs.Slots.{session_at, object_saved, object_flushed, object_loaded};
ghost use Rattle.device_spec.specs.Slots.{session_saved, session_flushed, with_place, slot_tables};
ghost use Rattle.device_spec.specs.Slots.{slot_step, step_by};
ghost use Rattle.tab_spec.specs.Commands.{row_of, startup_command};
ghost use Rattle.device_laws.specs.Effects.{is_managed, is_of_effects};
ghost use Rattle.tab_spec.specs.Values.{AreBytes};
ghost use Rattle.tab_spec.specs.declared.contexts.TheConstants.{PROFILE_CONTEXTS};
ghost use Rattle.tab_spec.specs.declared.contexts.ContextLimits.{ContextLimits};

/// Whatever bytes a device is given, its reply is exactly one frame.
pub fn slot_replies_are_frames()
    ensures { (slots : SlotState) (bytes : List ℕ) → IsSlots slots
        → is_frame (slot_step slots bytes).1 ≡ true }
{}

/// A new device with numbers in range is in a sound state, and stays in one, whatever bytes it is
/// given.
pub fn devices_stay_sound()
    ensures fresh { (numbers : Numbers) (seed : List ℕ) → AreInRange numbers → length seed ≡ 32
        → IsSlots (new_slots numbers (fresh_persist seed)) }
    ensures stepped { (slots : SlotState) (bytes : List ℕ) → IsSlots slots → AreBytes bytes
        → IsSlots (slot_step slots bytes).0 }
{}

/// No command changes the seed of a device, or its numbers.
pub fn devices_keep_their_seed()
    ensures seed { (slots : SlotState) (bytes : List ℕ)
        → (slot_step slots bytes).0.persist.seed ≡ slots.persist.seed }
    ensures numbers { (slots : SlotState) (bytes : List ℕ)
        → (slot_step slots bytes).0.numbers ≡ slots.numbers }
{}

/// An object that a command made is in the least free slot. A session that it made leaves the slots
/// as they were, and so does a command that made nothing.
pub fn effects_fill_the_least_slot()
    ensures object { (slots : SlotState) (effect : Effect) (o : Object)
        → effect.outcome.created ≡ new_object o
        → (effect_by slots effect).0.slots ≡ set slots.slots (free_slot slots.slots) (Some o) }
    ensures session { (slots : SlotState) (effect : Effect) (s : Session)
        → effect.outcome.created ≡ new_session s → (effect_by slots effect).0.slots ≡ slots.slots }
    ensures none { (slots : SlotState) (effect : Effect) → effect.outcome.created ≡ nothing
        → (effect_by slots effect).0.slots ≡ slots.slots }
{}

/// The response to a command that made an object or a session has a place for its handle.
pub fn made_objects_have_a_handle()
    ensures { (persist : Persist) (operands : Operands) (shape : Shape) (auths : Auths)
        (bytes : List ℕ) → IsShape shape
        → (let effect = effect_of persist operands shape auths bytes in
        HasHandle effect.outcome.created effect.reply) }
{}

/// After Startup(TPM_SU_CLEAR) the device is started, whether it was before or not, and what it
/// keeps is as it was. A broker takes the reply as the answer to its own Startup.
pub fn startup_starts()
    ensures state { (slots : SlotState)
        → (slot_step slots startup_command).0 ≡ record slots { started = true } }
    ensures taken { (slots : SlotState)
        → takes PROFILE_CONTEXTS true true startup_command (slot_step slots startup_command).1
        ≡ true }
{}

/// A started device gives no wrong answer to a command that it admits, where that is one of those
/// that have effects alone: the error or the success is one that a broker takes, whatever it holds.
/// A client's command is of these, where it is neither Startup nor StartAuthSession, and none that
/// a resource manager carries out by itself.
pub fn devices_answer_rightly()
    ensures rightly { (slots : SlotState) (bytes : List ℕ) (a : Admitted) → IsSlots slots
        → slots.started ≡ true
        → admitted_by (slot_tables slots) (row_in row_of bytes) bytes ≡ Ok a
        → is_of_effects a.shape.row.code ≡ true
        → takes PROFILE_CONTEXTS false false bytes (slot_step slots bytes).1 ≡ true }
    ensures clients { (code : ℕ) → is_managed code ≡ false → (code == CC_STARTUP) ≡ false
        → (code == CC_START_AUTH_SESSION) ≡ false → is_of_effects code ≡ true }
{}

/// Which responses a broker takes depends on what it holds for ContextLoad and StartAuthSession
/// alone.
pub fn two_commands_are_answered_by_what_is_held()
    ensures { (contexts : ContextLimits) (is_kept is_taken : Bool) (asked last : List ℕ)
        → (code_of asked == CC_CONTEXT_LOAD) ≡ false
        → (code_of asked == CC_START_AUTH_SESSION) ≡ false
        → takes contexts is_kept is_taken asked last ≡ takes contexts true true asked last }
{}

/// A broker takes each response that some broker takes, where it doesn't keep the context that the
/// command loads, and no client has a session with the number of the response's handle, nor was one
/// left with it: by holding less it has less reason to call a response wrong.
pub fn brokers_that_hold_less_take_more()
    ensures { (contexts : ContextLimits) (is_kept is_taken : Bool) (asked last : List ℕ)
        → takes contexts is_kept is_taken asked last ≡ true → takes contexts false false asked last
        ≡ true }
{}

/// What the contexts of a device may be matters to the answers of ContextSave and ContextLoad
/// alone.
pub fn two_commands_are_answered_by_contexts()
    ensures { (contexts : ContextLimits) (is_kept is_taken : Bool) (asked last : List ℕ)
        → (code_of asked == CC_CONTEXT_SAVE) ≡ false
        → (code_of asked == CC_CONTEXT_LOAD) ≡ false
        → takes contexts is_kept is_taken asked last
        ≡ takes PROFILE_CONTEXTS is_kept is_taken asked last }
{}

/// No command lowers the number that the next context of an object gets, nor that of the next
/// context of a session (Part 1, "Context Management").
pub fn context_numbers_never_fall()
    ensures objects { (slots : SlotState) (bytes : List ℕ)
        → slots.object_counter ≤ (slot_step slots bytes).0.object_counter }
    ensures sessions { (slots : SlotState) (bytes : List ℕ)
        → slots.counter ≤ (slot_step slots bytes).0.counter }
{}

/// The context of an object is opened as that object, by the device that made it, and it takes at
/// most 370 bytes. No other bytes are opened as it than a head, the integrity value of the device,
/// and the encrypted bytes of that object.
pub fn contexts_are_opened()
    ensures object { (seed : List ℕ) (sequence : ℕ) (o : Object) → IsObject o → sequence < 2 ^ 64
        → opened_object seed (object_context seed sequence o) ≡ Some o }
    ensures most { (seed : List ℕ) (sequence : ℕ) (o : Object) → IsObject o
        → length (object_context seed sequence o) ≤ 370 }
    ensures sound { (seed : List ℕ) (bytes : List ℕ) (o : Object)
        → opened_object seed bytes ≡ Some o → IsObject o }
    ensures one_spelling { (seed : List ℕ) (bytes : List ℕ) (o : Object) → AreBytes bytes
        → opened_object seed bytes ≡ Some o
        → (c : Context) × (bytes
        ≡ context_bytes seed c.sequence c.saved_handle c.hierarchy (object_bytes o)) }
{}

/// The context of a session is opened as that session, by the device that made it, and it takes at
/// most 128 bytes. No other bytes are opened as it than a head, the integrity value of the device,
/// and the encrypted bytes of that session.
pub fn session_contexts_are_opened()
    ensures session { (seed : List ℕ) (handle sequence : ℕ) (s : Session) → IsSession s
        → handle < 2 ^ 32 → sequence < 2 ^ 64
        → opened_session seed (session_context seed handle sequence s) ≡ Some s }
    ensures most { (seed : List ℕ) (handle sequence : ℕ) (s : Session) → IsSession s
        → length (session_context seed handle sequence s) ≤ 128 }
    ensures sound { (seed : List ℕ) (bytes : List ℕ) (s : Session) → AreBytes bytes
        → opened_session seed bytes ≡ Some s → IsSession s }
    ensures one_spelling { (seed : List ℕ) (bytes : List ℕ) (s : Session) → AreBytes bytes
        → opened_session seed bytes ≡ Some s
        → (c : Context) × (bytes
        ≡ context_bytes seed c.sequence c.saved_handle c.hierarchy (session_bytes s)) }
{}

/// Where an object or a session is. A fresh context of the device's own stands for the object, and
/// for the session where that is saved under the context's handle and number. What is found is of
/// this profile. An object depends on the slots and the seed alone.
pub fn fresh_contexts_are_found()
    ensures object { (slots : SlotState) (sequence : ℕ) (o : Object) → IsObject o
        → sequence < 2 ^ 64
        → object_at slots None (Some (object_context slots.persist.seed sequence o)) ≡ Some o }
    ensures object_sound { (slots : SlotState) (slot : Option ℕ) (context : Option (List ℕ))
        → IsSlots slots → IfSome (object_at slots slot context) IsObject }
    ensures object_same { (slots other : SlotState) (slot : Option ℕ) (context : Option (List ℕ))
        → slots.slots ≡ other.slots → slots.persist.seed ≡ other.persist.seed
        → object_at slots slot context ≡ object_at other slot context }
    ensures session { (slots : SlotState) (handle number : ℕ) (s : Session) → IsSession s
        → handle < 2 ^ 32 → number < 2 ^ 64 → place_of slots handle ≡ saved (octet_of handle) number
        → (let context = session_context slots.persist.seed handle number s in
        session_at slots handle (Some context) ≡ Some s) }
    ensures session_sound { (slots : SlotState) (handle : ℕ) (context : Option (List ℕ))
        → IsSlots slots → IfSome context AreBytes
        → IfSome (session_at slots handle context) IsSession }
{}

/// A started device saves and flushes the object of a slot, and loads the object of a context where
/// a slot is free: the state and the reply are as the definitions of these commands say (Part 3,
/// "TPM2_ContextSave", "TPM2_FlushContext", "TPM2_ContextLoad").
pub fn objects_are_moved()
    ensures save { (slots : SlotState) (handle : ℕ) (o : Object) → slots.started ≡ true
        → handle < 2 ^ 32 → (octet_of handle == HT_TRANSIENT) ≡ true → in_slot slots handle ≡ Some o
        → slot_step slots (context_save_command handle)
        ≡ step_by slots (object_saved slots (Some o)) }
    ensures flush { (slots : SlotState) (handle : ℕ) (o : Object) → slots.started ≡ true
        → handle < 2 ^ 32 → (octet_of handle == HT_TRANSIENT) ≡ true → in_slot slots handle ≡ Some o
        → slot_step slots (flush_context_command handle)
        ≡ step_by slots (object_flushed slots handle (Some o)) }
    ensures load { (slots : SlotState) (context : List ℕ) (o : Object) → slots.started ≡ true
        → length context ≤ 4086 → list_any is_free slots.slots ≡ true
        → object_at slots None (Some context) ≡ Some o
        → slot_step slots (context_load_command context)
        ≡ step_by slots (object_loaded slots (Some o)) }
{}

/// A broker takes what a started device answers to the commands by which it moves objects itself,
/// though these may not fail: the context of an object in a slot, its flush, and the handle of the
/// object of a context, where a slot is free.
pub fn moved_objects_are_taken()
    ensures save { (slots : SlotState) (handle : ℕ) (o : Object) → IsSlots slots
        → slots.started ≡ true → handle < 2 ^ 32 → (octet_of handle == HT_TRANSIENT) ≡ true
        → in_slot slots handle ≡ Some o → slots.object_counter < CONTEXT_LIMIT
        → takes PROFILE_CONTEXTS true true (context_save_command handle)
        (slot_step slots (context_save_command handle)).1 ≡ true }
    ensures flush { (slots : SlotState) (handle : ℕ) (o : Object) → slots.started ≡ true
        → handle < 2 ^ 32 → (octet_of handle == HT_TRANSIENT) ≡ true → in_slot slots handle ≡ Some o
        → takes PROFILE_CONTEXTS true true (flush_context_command handle)
        (slot_step slots (flush_context_command handle)).1 ≡ true }
    ensures load { (slots : SlotState) (context : List ℕ) (o : Object) → IsSlots slots
        → slots.started ≡ true → length context ≤ 4086 → list_any is_free slots.slots ≡ true
        → object_at slots None (Some context) ≡ Some o
        → takes PROFILE_CONTEXTS true true (context_load_command context)
        (slot_step slots (context_load_command context)).1 ≡ true }
{}

/// A started device saves a loaded session, flushes a session whether it is loaded or saved, and
/// loads the last context of a saved one where it has a place for it.
pub fn sessions_are_moved()
    ensures save { (slots : SlotState) (handle : ℕ) (s : Session) → slots.started ≡ true
        → handle < 2 ^ 32 → is_session_handle handle ≡ true
        → loaded_session slots handle ≡ Some s
        → slot_step slots (context_save_command handle)
        ≡ step_by slots (session_saved slots handle (Some s)) }
    ensures flush { (slots : SlotState) (handle : ℕ) → slots.started ≡ true → handle < 2 ^ 32
        → is_session_handle handle ≡ true
        → slot_step slots (flush_context_command handle)
        ≡ step_by slots (session_flushed slots handle) }
    ensures load { (slots : SlotState) (context : List ℕ) (handle number : ℕ) (s : Session)
        → slots.started ≡ true → length context ≤ 4086 → is_session_handle handle ≡ true
        → place_of slots handle ≡ saved (octet_of handle) number
        → loaded_count slots.sessions < slots.numbers.loaded
        → session_at slots handle (Some context) ≡ Some s
        → slot_step slots (context_load_command context)
        ≡ (
          with_place slots (number_of_session handle) (loaded (octet_of handle) s),
          response ST_NO_SESSIONS RC_SUCCESS (to_be_bytes w32 handle),
        ) }
{}

/// A broker takes what a started device answers to the commands by which it moves sessions itself,
/// though these may not fail: the context of a loaded session, its flush, and the handle of the
/// session of its last context.
pub fn moved_sessions_are_taken()
    ensures save { (slots : SlotState) (handle : ℕ) (s : Session) → IsSlots slots
        → slots.started ≡ true → handle < 2 ^ 32 → is_session_handle handle ≡ true
        → loaded_session slots handle ≡ Some s → slots.counter < CONTEXT_LIMIT
        → gap_of slots < slots.numbers.gap
        → takes PROFILE_CONTEXTS true true (context_save_command handle)
        (slot_step slots (context_save_command handle)).1 ≡ true }
    ensures flush { (slots : SlotState) (handle : ℕ) → slots.started ≡ true → handle < 2 ^ 32
        → is_session_handle handle ≡ true
        → is_active_with (octet_of handle) (place_of slots handle) ≡ true
        → takes PROFILE_CONTEXTS true true (flush_context_command handle)
        (slot_step slots (flush_context_command handle)).1 ≡ true }
    ensures load { (slots : SlotState) (context : List ℕ) (handle number : ℕ) (s : Session)
        → IsSlots slots → slots.started ≡ true → length context ≤ 4086 → handle < 2 ^ 32
        → is_session_handle handle ≡ true
        → place_of slots handle ≡ saved (octet_of handle) number
        → loaded_count slots.sessions < slots.numbers.loaded
        → session_at slots handle (Some context) ≡ Some s
        → takes PROFILE_CONTEXTS true true (context_load_command context)
        (slot_step slots (context_load_command context)).1 ≡ true }
{}
