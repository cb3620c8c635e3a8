ghost use Rattle.std.specs.Prelude.{◌≡◌, ◌==◌, ◌≤◌, ◌<◌, ℕ, Bool, true, false, List, Option};
ghost use Rattle.std.specs.Prelude.{length, get_or, take, drop, Some, None, Ok, Err};
ghost use Rattle.std.specs.Int.{w32, from_be_bytes};
ghost use Rattle.tab_spec.specs.declared.TheConstants.{CC_CONTEXT_LOAD, CC_CONTEXT_SAVE};
ghost use Rattle.tab_spec.specs.declared.TheConstants.{CC_FLUSH_CONTEXT, CC_GET_CAPABILITY};
ghost use Rattle.tab_spec.specs.declared.TheConstants.{CC_STARTUP};
ghost use Rattle.tab_spec.specs.declared.TheConstants.{HT_TRANSIENT, SESSION_NUMBERS};
ghost use Rattle.tab_spec.specs.declared.Admitted.{Admitted};
ghost use Rattle.tab_spec.specs.Admission.{Tables, client_admitted, is_session_handle};
ghost use Rattle.tab_spec.specs.Commands.{row_of};
ghost use Rattle.tab_spec.specs.Frame.{code_of, is_frame};
ghost use Rattle.tab_spec.specs.Reply.{error_reply};
ghost use Rattle.tab_spec.specs.Shape.{makes_object_by, number_of_session, octet_of};
ghost use Rattle.tab_spec.specs.Values.{AreBytes};
ghost use Rattle.tab_spec.specs.declared.contexts.ContextLimits.{ContextLimits};
ghost use Rattle.tab_spec.specs.declared.contexts.TheConstants.{PROFILE_CONTEXTS};
ghost use Rattle.history_spec.specs.declared.Pick.{Pick};
ghost use Rattle.world_spec.specs.World.{ClientState, capability_step, choosing_nothing};
ghost use Rattle.world_spec.specs.World.{client_capability, client_step, effect_step, flush_handle};
ghost use Rattle.world_spec.specs.World.{flush_step, load_parameters, load_step, refused_step};
ghost use Rattle.world_spec.specs.World.{room_for, save_parameters, save_step, tables_of};
ghost use Rattle.device_spec.specs.Answers.{takes};
ghost use Rattle.device_spec.specs.Slots.{SlotState, effect_by, slot_step};
ghost use Rattle.device_laws.specs.Effects.{is_managed};
ghost use Rattle.client_laws.specs.Ready.{IsReady, TellsMade, client_effect, is_sent, sent_for};
ghost use Rattle.client_laws.specs.Ready.{tells_object, tells_session};

/// Whether a client's command is admitted depends on what is there under each handle, on whether
/// there is room for another object, and on what contexts may be, and on nothing else of the
/// tables.
pub fn admissions_look_things_up()
    ensures { (tables other : Tables) (bytes : List ℕ)
        → ((handle : ℕ) → tables.has_object handle ≡ other.has_object handle)
        → ((handle : ℕ) → tables.has_session handle ≡ other.has_session handle)
        → tables.is_full ≡ other.is_full → tables.contexts ≡ other.contexts
        → client_admitted tables bytes ≡ client_admitted other bytes }
{}

/// On the plain machine a client's command is refused, or goes by its code: FlushContext,
/// ContextSave, ContextLoad and GetCapability each do their own; any other finds no room for a
/// session, or does its effect over the client's objects and sessions.
pub fn clients_steps_go_by_their_code()
    ensures refused { (client : ℕ) (state : ClientState) (bytes : List ℕ) (pick : Pick) (code : ℕ)
        → client_admitted (tables_of client state) bytes ≡ Err code
        → client_step client state bytes pick ≡ choosing_nothing (refused_step state code) pick }
    ensures flushed { (client : ℕ) (state : ClientState) (bytes : List ℕ) (pick : Pick)
        (a : Admitted) → client_admitted (tables_of client state) bytes ≡ Ok a
        → (a.shape.row.code == CC_FLUSH_CONTEXT) ≡ true
        → (let params = drop a.auths.params bytes in
        client_step client state bytes pick
        ≡ choosing_nothing (flush_step client state (flush_handle params)) pick) }
    ensures saved { (client : ℕ) (state : ClientState) (bytes : List ℕ) (pick : Pick)
        (a : Admitted) → client_admitted (tables_of client state) bytes ≡ Ok a
        → (a.shape.row.code == CC_CONTEXT_SAVE) ≡ true
        → client_step client state bytes pick
        ≡ save_step client state (get_or a.shape.handles 0 0)
        (save_parameters (drop a.auths.params bytes)) pick }
    ensures loaded { (client : ℕ) (state : ClientState) (bytes : List ℕ) (pick : Pick)
        (a : Admitted) → client_admitted (tables_of client state) bytes ≡ Ok a
        → (a.shape.row.code == CC_CONTEXT_LOAD) ≡ true
        → (let params = drop a.auths.params bytes in
        client_step client state bytes pick
        ≡ choosing_nothing (load_step client state params (load_parameters params)) pick) }
    ensures listed { (client : ℕ) (state : ClientState) (bytes : List ℕ) (pick : Pick)
        (a : Admitted) → client_admitted (tables_of client state) bytes ≡ Ok a
        → (a.shape.row.code == CC_GET_CAPABILITY) ≡ true
        → (let params = drop a.auths.params bytes in
        client_step client state bytes pick
        ≡ choosing_nothing (capability_step state (client_capability client state params)) pick) }
    ensures full { (client : ℕ) (state : ClientState) (bytes : List ℕ) (pick : Pick) (a : Admitted)
        (code : ℕ) → client_admitted (tables_of client state) bytes ≡ Ok a
        → is_managed a.shape.row.code ≡ false
        → room_for state a.shape.row.code (drop a.auths.params bytes) ≡ Some code
        → client_step client state bytes pick ≡ choosing_nothing (refused_step state code) pick }
    ensures run { (client : ℕ) (state : ClientState) (bytes : List ℕ) (pick : Pick) (a : Admitted)
        → client_admitted (tables_of client state) bytes ≡ Ok a
        → is_managed a.shape.row.code ≡ false
        → room_for state a.shape.row.code (drop a.auths.params bytes) ≡ None
        → client_step client state bytes pick
        ≡ effect_step client state (client_effect client state a bytes) pick }
{}

/// A client's command that is admitted over the client's objects and sessions, and that is none of
/// those that a resource manager carries out by itself, does the same on a device that is ready
/// for it, with the handle of a slot in place of the client's: it is refused where as many sessions
/// are active as may be, or it does its effect over them. A broker takes the response if it knows
/// of fewer sessions than may be active, and of none with the number of a new one. The effect tells
/// the handle of what it made.
pub fn clients_commands_run_over_slots()
    ensures full { (slots : SlotState) (client : ℕ) (state : ClientState) (bytes : List ℕ)
        (a : Admitted) (first code : ℕ) → client_admitted (tables_of client state) bytes ≡ Ok a
        → is_managed a.shape.row.code ≡ false → AreBytes bytes
        → IsReady slots client state a bytes first
        → room_for state a.shape.row.code (drop a.auths.params bytes) ≡ Some code
        → slot_step slots (sent_for bytes a first) ≡ (slots, error_reply code) }
    ensures run { (slots : SlotState) (client : ℕ) (state : ClientState) (bytes : List ℕ)
        (a : Admitted) (first : ℕ) → client_admitted (tables_of client state) bytes ≡ Ok a
        → is_managed a.shape.row.code ≡ false → AreBytes bytes
        → IsReady slots client state a bytes first
        → room_for state a.shape.row.code (drop a.auths.params bytes) ≡ None
        → slot_step slots (sent_for bytes a first)
        ≡ effect_by slots (client_effect client state a bytes) }
    ensures taken { (slots : SlotState) (client : ℕ) (state : ClientState) (bytes : List ℕ)
        (a : Admitted) (first : ℕ) → client_admitted (tables_of client state) bytes ≡ Ok a
        → is_managed a.shape.row.code ≡ false → AreBytes bytes
        → IsReady slots client state a bytes first
        → takes PROFILE_CONTEXTS false false (sent_for bytes a first)
        (slot_step slots (sent_for bytes a first)).1
        ≡ true }
    ensures made { (client : ℕ) (state : ClientState) (bytes : List ℕ) (a : Admitted)
        → client_admitted (tables_of client state) bytes ≡ Ok a
        → is_managed a.shape.row.code ≡ false
        → TellsMade a bytes (client_effect client state a bytes).outcome.created
        (client_effect client state a bytes).reply }
{}

/// What is known of a client's command that is admitted, over whatever tables, and of a device with
/// whatever contexts. With another first
/// handle it is still a frame with the same code, which isn't Startup's, and its second handle is
/// of no object. The response to a command that is sent tells a new object's handle only where the
/// command makes an object. Where a broker takes a response that tells a handle, the handle is
/// there: an object's, or a session's with a number below 64.
pub fn clients_commands_go_over_other_handles()
    ensures frame { (tables : Tables) (bytes : List ℕ) (a : Admitted) (first : ℕ)
        → client_admitted tables bytes ≡ Ok a → is_frame (sent_for bytes a first) ≡ true }
    ensures second { (tables : Tables) (bytes : List ℕ) (a : Admitted)
        → client_admitted tables bytes ≡ Ok a
        → (octet_of (get_or a.shape.handles 1 0) == HT_TRANSIENT) ≡ false }
    ensures known { (tables : Tables) (bytes : List ℕ) (a : Admitted)
        → client_admitted tables bytes ≡ Ok a → (a.shape.row.code == CC_STARTUP) ≡ false }
    ensures row { (tables : Tables) (bytes : List ℕ) (a : Admitted)
        → client_admitted tables bytes ≡ Ok a → row_of a.shape.row.code ≡ Some a.shape.row }
    ensures code { (tables : Tables) (bytes : List ℕ) (a : Admitted)
        → client_admitted tables bytes ≡ Ok a → code_of bytes ≡ a.shape.row.code }
    ensures sent_code { (tables : Tables) (bytes : List ℕ) (a : Admitted) (first : ℕ)
        → client_admitted tables bytes ≡ Ok a → code_of (sent_for bytes a first) ≡ code_of bytes }
    ensures one_object { (contexts : ContextLimits) (tables : Tables) (bytes : List ℕ)
        (a : Admitted) (reply : List ℕ) → client_admitted tables bytes ≡ Ok a
        → is_sent contexts a bytes ≡ true → tells_object a reply ≡ true
        → makes_object_by contexts (Ok a.shape) bytes ≡ true }
    ensures object_fits { (contexts : ContextLimits) (is_taken : Bool) (tables : Tables)
        (bytes : List ℕ) (a : Admitted) (first : ℕ) (last : List ℕ)
        → client_admitted tables bytes ≡ Ok a → is_sent contexts a bytes ≡ true
        → takes contexts false is_taken (sent_for bytes a first) last ≡ true
        → tells_object a last ≡ true
        → (14 ≤ length last)
        × ((octet_of (from_be_bytes w32 (take 4 (drop 10 last))) == HT_TRANSIENT) ≡ true) }
    ensures session_fits { (contexts : ContextLimits) (is_taken : Bool) (tables : Tables)
        (bytes : List ℕ) (a : Admitted) (first : ℕ) (last : List ℕ)
        → client_admitted tables bytes ≡ Ok a
        → takes contexts false is_taken (sent_for bytes a first) last ≡ true
        → tells_session a last ≡ true
        → (is_taken ≡ false) × (14 ≤ length last)
        × (is_session_handle (from_be_bytes w32 (take 4 (drop 10 last))) ≡ true)
        × (number_of_session (from_be_bytes w32 (take 4 (drop 10 last))) < SESSION_NUMBERS) }
{}
