ghost use Rattle.std.specs.Prelude.{◌≡◌, ◌==◌, ℕ, true, false, List, [], ◌∷◌, get_or, take, Some};
ghost use Rattle.std.specs.Prelude.{None, Ok};
ghost use Rattle.std.specs.List.{list_any};
ghost use Rattle.tab_spec.specs.declared.TheConstants.{HT_TRANSIENT};
ghost use Rattle.tab_spec.specs.declared.Kind.TheVariants.{Absent};
ghost use Rattle.tab_spec.specs.declared.Auths.{Auths};
ghost use Rattle.tab_spec.specs.declared.Shape.{Shape};
ghost use Rattle.tab_spec.specs.Object.{Object};
ghost use Rattle.tab_spec.specs.declared.Admitted.{Admitted};
ghost use Rattle.tab_spec.specs.Commands.{row_of};
ghost use Rattle.tab_spec.specs.Persist.{Persist};
ghost use Rattle.tab_spec.specs.Shape.{is_present, octet_of, with_handles};
ghost use Rattle.tab_spec.specs.Admission.{Tables, admitted, is_session_handle, object_too_many};
ghost use Rattle.effect_spec.specs.Operands.{Operands, plain_operands, command_auth};
ghost use Rattle.effect_spec.specs.Effect.{effect_of};
ghost use Rattle.device_spec.specs.Slots.{SlotState, effect_by, in_slot, is_free, slot_operands};
ghost use Rattle.device_spec.specs.Slots.{slot_step, slot_tables};
ghost use Rattle.tab_laws.specs.OtherHandles.{AreHandlesOf, ArePasswords, HandlesAreThere, handled};
ghost use Rattle.device_laws.specs.Effects.{is_of_effects};
ghost use Rattle.device_laws.specs.OtherHandles.{LeavesSlots, effect_over, is_plain_handle};
ghost use Rattle.device_laws.specs.OtherHandles.{object_operands};

/// The effect of an admitted command doesn't depend on its handles, but on what it is given for
/// them: with other handles in its bytes it is the same.
pub fn effects_ignore_handles()
    ensures { (persist : Persist) (operands : Operands) (tables : Tables) (bytes : List ℕ)
        (a : Admitted) (first second : ℕ) → admitted row_of tables bytes ≡ Ok a
        → effect_of persist operands (handled a.shape first second) a.auths
        (with_handles bytes a.shape (first ∷ second ∷ []))
        ≡ effect_of persist operands a.shape a.auths bytes }
{}

/// A started device runs a command that does no more than its effect over other handles as that
/// command over what these handles stand for, where they and its sessions are there. It leaves all
/// but the sessions as it was, except for what it keeps and the slot of an object that was made,
/// and makes no session. It leaves the sessions as they were where it names none.
pub fn commands_run_over_other_handles()
    ensures run { (slots : SlotState) (tables : Tables) (bytes : List ℕ) (a : Admitted)
        (first second : ℕ) → slots.started ≡ true → admitted row_of tables bytes ≡ Ok a
        → AreHandlesOf a.shape first second
        → HandlesAreThere (slot_tables slots) bytes a first second
        → is_of_effects a.shape.row.code ≡ true
        → slot_step slots (with_handles bytes a.shape (first ∷ second ∷ []))
        ≡ effect_by slots (effect_over slots bytes a first second) }
    ensures kept { (slots : SlotState) (tables : Tables) (bytes : List ℕ) (a : Admitted)
        (first second : ℕ) → slots.started ≡ true → admitted row_of tables bytes ≡ Ok a
        → AreHandlesOf a.shape first second
        → HandlesAreThere (slot_tables slots) bytes a first second
        → is_of_effects a.shape.row.code ≡ true
        → LeavesSlots slots (effect_over slots bytes a first second)
        (slot_step slots (with_handles bytes a.shape (first ∷ second ∷ []))) }
    ensures sessions { (slots : SlotState) (tables : Tables) (bytes : List ℕ) (a : Admitted)
        (first second : ℕ) → slots.started ≡ true → admitted row_of tables bytes ≡ Ok a
        → AreHandlesOf a.shape first second
        → HandlesAreThere (slot_tables slots) bytes a first second
        → is_of_effects a.shape.row.code ≡ true
        → ArePasswords (take a.auths.count a.auths.auths) → is_session_handle first ≡ false
        → is_session_handle second ≡ false
        → (slot_step slots (with_handles bytes a.shape (first ∷ second ∷ []))).0.sessions
        ≡ slots.sessions }
{}

/// The handle of a slot stands for its object, and a handle of neither an object nor a session
/// stands for itself. So these are what a command names if its second handle is of neither sort and
/// its authorization names no session.
pub fn handles_stand_for_what_is_there()
    ensures object { (slots : SlotState) (shape : Shape) (auths : Auths) (first second : ℕ)
        (o : Object) → is_present (get_or shape.row.handles 0 Absent) ≡ true
        → (octet_of first == HT_TRANSIENT) ≡ true → in_slot slots first ≡ Some o
        → is_plain_handle second ≡ true → is_session_handle (command_auth auths).session ≡ false
        → slot_operands slots (handled shape first second) auths
        ≡ object_operands shape o second }
    ensures plain { (slots : SlotState) (shape : Shape) (auths : Auths) (first second : ℕ)
        → is_plain_handle first ≡ true → is_plain_handle second ≡ true
        → is_session_handle (command_auth auths).session ≡ false
        → slot_operands slots (handled shape first second) auths
        ≡ plain_operands (handled shape first second) }
{}

/// The handle of a slot with an object is there, and so is one of neither an object nor a session.
/// With passwords, and room for what the command makes, all is there that it names; a free slot is
/// room.
pub fn slots_have_what_is_named()
    ensures object { (slots : SlotState) (bytes : List ℕ) (a : Admitted) (first second : ℕ)
        (o : Object) → (octet_of first == HT_TRANSIENT) ≡ true → in_slot slots first ≡ Some o
        → is_plain_handle second ≡ true → ArePasswords (take a.auths.count a.auths.auths)
        → object_too_many (slot_tables slots) a.shape bytes ≡ None
        → HandlesAreThere (slot_tables slots) bytes a first second }
    ensures plain { (slots : SlotState) (bytes : List ℕ) (a : Admitted) (first second : ℕ)
        → is_plain_handle first ≡ true → is_plain_handle second ≡ true
        → ArePasswords (take a.auths.count a.auths.auths)
        → object_too_many (slot_tables slots) a.shape bytes ≡ None
        → HandlesAreThere (slot_tables slots) bytes a first second }
    ensures room { (slots : SlotState) (shape : Shape) (bytes : List ℕ)
        → list_any is_free slots.slots ≡ true
        → object_too_many (slot_tables slots) shape bytes ≡ None }
{}
