ghost use Rattle.std.specs.Prelude.{◌≡◌, ◌==◌, ◌+◌, ◌^◌, ◌<◌, ◌≤◌, ℕ, Bool, true, false, List};
ghost use Rattle.std.specs.Prelude.{length, get_or, set, take, drop, Some, Ok, Err};
ghost use Rattle.std.specs.Int.{w64, from_be_bytes};
ghost use Rattle.tab_spec.specs.declared.TheConstants.{CC_CONTEXT_LOAD, CC_CONTEXT_SAVE};
ghost use Rattle.tab_spec.specs.declared.TheConstants.{CC_GET_CAPABILITY, CONTEXT_LIMIT};
ghost use Rattle.tab_spec.specs.declared.TheConstants.{HT_TRANSIENT, RC_SUCCESS, ST_NO_SESSIONS};
ghost use Rattle.tab_spec.specs.declared.Admitted.{Admitted};
ghost use Rattle.tab_spec.specs.Admission.{Tables, client_admitted, is_session_handle};
ghost use Rattle.tab_spec.specs.Object.{IsObject, Object};
ghost use Rattle.tab_spec.specs.Reply.{error_reply, response};
ghost use Rattle.tab_spec.specs.Session.{Session};
ghost use Rattle.tab_spec.specs.Shape.{number_of_session, octet_of};
ghost use Rattle.tab_spec.specs.Values.{AreBytes};
ghost use Rattle.tab_spec.specs.declared.contexts.TheConstants.{PROFILE_CONTEXTS};
ghost use Rattle.tab_spec.specs.declared.contexts.ContextLimits.{ContextLimits};
ghost use Rattle.effect_spec.specs.Contexts.{Context, object_context, opened_object};
ghost use Rattle.effect_spec.specs.Contexts.{session_context};
ghost use Rattle.history_spec.specs.declared.Pick.TheVariants.{Nothing, Sequence};
ghost use Rattle.history_spec.specs.Table.{held_under};
ghost use Rattle.world_spec.specs.World.{ClientState, client_step, load_parameters, object_opened};
ghost use Rattle.world_spec.specs.World.{refused_step, saved_place, session_of, tables_of};
ghost use Rattle.device_spec.specs.Answers.{takes};
ghost use Rattle.device_spec.specs.ContextCommands.{context_save_command};
ghost use Rattle.device_spec.specs.Slots.{SlotState, object_loaded, slot_step, step_by};
ghost use Rattle.client_laws.specs.Ready.{IsReady, is_sent, sent_for};

/// A context that a client saves (Part 3, "TPM2_ContextSave"). What is sent for it is ContextSave
/// of the handle on the device. A device that is ready makes the context of the object under its
/// next number, and a broker takes it. The plain machine makes it, of an object or of a session in
/// use, under each sequence that is free; the session is saved then. The sequence is the first
/// eight bytes of the context.
pub fn clients_contexts_are_saved()
    ensures sent { (contexts : ContextLimits) (tables : Tables) (bytes : List ℕ) (a : Admitted)
        (first : ℕ) → client_admitted tables bytes ≡ Ok a
        → (a.shape.row.code == CC_CONTEXT_SAVE) ≡ true
        → is_sent contexts a bytes ≡ true → AreBytes bytes
        → sent_for bytes a first ≡ context_save_command first }
    ensures over { (slots : SlotState) (client : ℕ) (state : ClientState) (bytes : List ℕ)
        (a : Admitted) (first : ℕ) (o : Object)
        → client_admitted (tables_of client state) bytes ≡ Ok a
        → (a.shape.row.code == CC_CONTEXT_SAVE) ≡ true → is_sent PROFILE_CONTEXTS a bytes ≡ true
        → AreBytes bytes → IsReady slots client state a bytes first
        → (octet_of (get_or a.shape.handles 0 0) == HT_TRANSIENT) ≡ true
        → held_under state.objects (get_or a.shape.handles 0 0) ≡ Some o
        → slots.object_counter < CONTEXT_LIMIT
        → slot_step slots (sent_for bytes a first)
        ≡ (
          record slots { object_counter = slots.object_counter + 1 },
          response ST_NO_SESSIONS RC_SUCCESS
              (object_context slots.persist.seed slots.object_counter o),
        ) }
    ensures taken { (is_kept is_taken : Bool) (slots : SlotState) (client : ℕ) (state : ClientState)
        (bytes : List ℕ) (a : Admitted) (first : ℕ) (o : Object)
        → client_admitted (tables_of client state) bytes ≡ Ok a
        → (a.shape.row.code == CC_CONTEXT_SAVE) ≡ true → is_sent PROFILE_CONTEXTS a bytes ≡ true
        → AreBytes bytes → IsReady slots client state a bytes first
        → (octet_of (get_or a.shape.handles 0 0) == HT_TRANSIENT) ≡ true
        → held_under state.objects (get_or a.shape.handles 0 0) ≡ Some o
        → slots.object_counter < CONTEXT_LIMIT
        → takes PROFILE_CONTEXTS is_kept is_taken (sent_for bytes a first)
        (slot_step slots (sent_for bytes a first)).1 ≡ true }
    ensures object { (client : ℕ) (state : ClientState) (bytes : List ℕ) (a : Admitted)
        (sequence : ℕ) (o : Object) → client_admitted (tables_of client state) bytes ≡ Ok a
        → (a.shape.row.code == CC_CONTEXT_SAVE) ≡ true → is_sent PROFILE_CONTEXTS a bytes ≡ true
        → (octet_of (get_or a.shape.handles 0 0) == HT_TRANSIENT) ≡ true
        → held_under state.objects (get_or a.shape.handles 0 0) ≡ Some o
        → state.object_sequence ≤ sequence → sequence < CONTEXT_LIMIT
        → client_step client state bytes (Sequence sequence)
        ≡ Some (
          record state { object_sequence = sequence + 1 },
          response ST_NO_SESSIONS RC_SUCCESS (object_context state.persist.seed sequence o),
        ) }
    ensures session { (client : ℕ) (state : ClientState) (bytes : List ℕ) (a : Admitted)
        (sequence : ℕ) (s : Session) → client_admitted (tables_of client state) bytes ≡ Ok a
        → (a.shape.row.code == CC_CONTEXT_SAVE) ≡ true → is_sent PROFILE_CONTEXTS a bytes ≡ true
        → is_session_handle (get_or a.shape.handles 0 0) ≡ true
        → session_of state.sessions client (get_or a.shape.handles 0 0) ≡ Some s
        → state.session_sequence ≤ sequence → sequence < CONTEXT_LIMIT
        → (let handle = get_or a.shape.handles 0 0 in
        let context = session_context state.persist.seed handle sequence s in
        client_step client state bytes (Sequence sequence)
        ≡ Some (
          record state {
            sessions = set state.sessions (number_of_session handle)
                (saved_place client handle s context);
            session_sequence = sequence + 1;
          },
          response ST_NO_SESSIONS RC_SUCCESS context,
        )) }
    ensures object_sequence { (seed : List ℕ) (sequence : ℕ) (o : Object) → sequence < 2 ^ 64
        → (let last = response ST_NO_SESSIONS RC_SUCCESS (object_context seed sequence o) in
        from_be_bytes w64 (take 8 (drop 10 last)) ≡ sequence) }
    ensures session_sequence { (seed : List ℕ) (handle sequence : ℕ) (s : Session)
        → sequence < 2 ^ 64
        → (let last = response ST_NO_SESSIONS RC_SUCCESS (session_context seed handle sequence s) in
        from_be_bytes w64 (take 8 (drop 10 last)) ≡ sequence) }
{}

/// An object's context that a client loads (Part 3, "TPM2_ContextLoad"). A device that is ready
/// refuses it as the plain machine does, or loads what the context opens as, where the plain
/// machine puts that among the client's objects; it is an object of the profile. A broker takes
/// the response where it doesn't keep the context itself, and in any case where that opens as an
/// object.
pub fn clients_contexts_of_objects_are_loaded()
    ensures refused { (slots : SlotState) (client : ℕ) (state : ClientState) (bytes : List ℕ)
        (a : Admitted) (first code : ℕ) → client_admitted (tables_of client state) bytes ≡ Ok a
        → (a.shape.row.code == CC_CONTEXT_LOAD) ≡ true → AreBytes bytes
        → IsReady slots client state a bytes first
        → load_parameters (drop a.auths.params bytes) ≡ Err code
        → slot_step slots (sent_for bytes a first) ≡ (slots, error_reply code) }
    ensures plain_refused { (client : ℕ) (state : ClientState) (bytes : List ℕ) (a : Admitted)
        (code : ℕ) → client_admitted (tables_of client state) bytes ≡ Ok a
        → (a.shape.row.code == CC_CONTEXT_LOAD) ≡ true
        → load_parameters (drop a.auths.params bytes) ≡ Err code
        → client_step client state bytes Nothing ≡ Some (refused_step state code) }
    ensures loaded { (slots : SlotState) (client : ℕ) (state : ClientState) (bytes : List ℕ)
        (a : Admitted) (first : ℕ) (c : Context)
        → client_admitted (tables_of client state) bytes ≡ Ok a
        → (a.shape.row.code == CC_CONTEXT_LOAD) ≡ true → is_sent PROFILE_CONTEXTS a bytes ≡ true
        → AreBytes bytes → IsReady slots client state a bytes first
        → load_parameters (drop a.auths.params bytes) ≡ Ok c
        → (let opened = opened_object slots.persist.seed (drop a.auths.params bytes) in
        slot_step slots (sent_for bytes a first) ≡ step_by slots (object_loaded slots opened)) }
    ensures plain_loaded { (client : ℕ) (state : ClientState) (bytes : List ℕ) (a : Admitted)
        (c : Context) → client_admitted (tables_of client state) bytes ≡ Ok a
        → (a.shape.row.code == CC_CONTEXT_LOAD) ≡ true → is_sent PROFILE_CONTEXTS a bytes ≡ true
        → load_parameters (drop a.auths.params bytes) ≡ Ok c
        → (let opened = opened_object state.persist.seed (drop a.auths.params bytes) in
        client_step client state bytes Nothing ≡ Some (object_opened state opened)) }
    ensures taken { (is_taken : Bool) (slots : SlotState) (client : ℕ) (state : ClientState)
        (bytes : List ℕ) (a : Admitted) (first : ℕ)
        → client_admitted (tables_of client state) bytes ≡ Ok a
        → (a.shape.row.code == CC_CONTEXT_LOAD) ≡ true → is_sent PROFILE_CONTEXTS a bytes ≡ true
        → AreBytes bytes → IsReady slots client state a bytes first
        → takes PROFILE_CONTEXTS false is_taken (sent_for bytes a first)
        (slot_step slots (sent_for bytes a first)).1 ≡ true }
    ensures kept { (is_taken : Bool) (slots : SlotState) (client : ℕ) (state : ClientState)
        (bytes : List ℕ) (a : Admitted) (first : ℕ) (o : Object)
        → client_admitted (tables_of client state) bytes ≡ Ok a
        → (a.shape.row.code == CC_CONTEXT_LOAD) ≡ true → is_sent PROFILE_CONTEXTS a bytes ≡ true
        → AreBytes bytes → IsReady slots client state a bytes first
        → opened_object slots.persist.seed (drop a.auths.params bytes) ≡ Some o
        → takes PROFILE_CONTEXTS true is_taken (sent_for bytes a first)
        (slot_step slots (sent_for bytes a first)).1 ≡ true }
    ensures object { (seed : List ℕ) (bytes : List ℕ) (a : Admitted) (o : Object)
        → opened_object seed (drop a.auths.params bytes) ≡ Some o → IsObject o }
{}

/// A list that is the device's (Part 3, "TPM2_GetCapability"). A started device that keeps what the
/// plain machine keeps answers a client as the plain machine does, whatever is in the device's
/// slots and whoever has its sessions. Nothing changes, and a broker takes the response, whatever
/// it holds.
pub fn devices_list_for_clients()
    ensures told { (slots : SlotState) (client : ℕ) (state : ClientState) (bytes : List ℕ)
        (a : Admitted) (first : ℕ) → client_admitted (tables_of client state) bytes ≡ Ok a
        → (a.shape.row.code == CC_GET_CAPABILITY) ≡ true → is_sent PROFILE_CONTEXTS a bytes ≡ true
        → slots.started ≡ true → slots.persist ≡ state.persist
        → (reply : List ℕ)
        × ((slot_step slots (sent_for bytes a first) ≡ (slots, reply))
        × (client_step client state bytes Nothing ≡ Some (state, reply))) }
    ensures taken { (is_kept is_taken : Bool) (slots : SlotState) (client : ℕ) (state : ClientState)
        (bytes : List ℕ) (a : Admitted) (first : ℕ)
        → client_admitted (tables_of client state) bytes ≡ Ok a
        → (a.shape.row.code == CC_GET_CAPABILITY) ≡ true → is_sent PROFILE_CONTEXTS a bytes ≡ true
        → slots.started ≡ true → slots.persist ≡ state.persist
        → takes PROFILE_CONTEXTS is_kept is_taken (sent_for bytes a first)
        (slot_step slots (sent_for bytes a first)).1 ≡ true }
{}
