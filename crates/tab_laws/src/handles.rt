ghost use Rattle.std.specs.Prelude.{◌≡◌, ◌==◌, ◌<◌, ◌≤◌, ◌^◌, ℕ, true, false, List, [], ◌∷◌};
ghost use Rattle.std.specs.Prelude.{length, get_or, take, drop, Option, None, Ok};
ghost use Rattle.tab_spec.specs.declared.TheConstants.{CC_STARTUP};
ghost use Rattle.tab_spec.specs.declared.Auth.{Auth};
ghost use Rattle.tab_spec.specs.declared.Admitted.{Admitted};
ghost use Rattle.tab_spec.specs.Commands.{row_of};
ghost use Rattle.tab_spec.specs.Frame.{code_of, is_frame, tag_of};
ghost use Rattle.tab_spec.specs.declared.Kind.TheVariants.{Absent};
ghost use Rattle.tab_spec.specs.declared.Shape.{Shape};
ghost use Rattle.tab_spec.specs.Auths.{no_auth};
ghost use Rattle.tab_spec.specs.Shape.{is_of_kind, is_present, with_handles};
ghost use Rattle.tab_spec.specs.Values.{AreBytes};
ghost use Rattle.tab_spec.specs.Admission.{Tables, admitted, client_admitted, is_session_handle};
ghost use Rattle.tab_spec.specs.Admission.{missing_session, repeated_session};
ghost use Rattle.tab_laws.specs.OtherHandles.{admitted_handled, AreHandlesOf, ArePasswords};
ghost use Rattle.tab_laws.specs.OtherHandles.{HandlesAreThere};

/// A command that is admitted stays so with other handles of its kinds, over any tables in which
/// these and its sessions are there, each session is named once, and there is room for what it
/// makes. Whatever the other handles are, it is a frame of the same size, tag and code, and the
/// same bytes stand behind its handles.
pub fn handles_may_be_others()
    ensures admitted { (tables other : Tables) (bytes : List ℕ) (a : Admitted) (first second : ℕ)
        → admitted row_of tables bytes ≡ Ok a → AreHandlesOf a.shape first second
        → HandlesAreThere other bytes a first second
        → admitted row_of other (with_handles bytes a.shape (first ∷ second ∷ []))
        ≡ Ok (admitted_handled a first second) }
    ensures frame { (tables : Tables) (bytes : List ℕ) (a : Admitted) (first second : ℕ)
        → admitted row_of tables bytes ≡ Ok a
        → is_frame (with_handles bytes a.shape (first ∷ second ∷ [])) ≡ true }
    ensures size { (tables : Tables) (bytes : List ℕ) (a : Admitted) (first second : ℕ)
        → admitted row_of tables bytes ≡ Ok a
        → length (with_handles bytes a.shape (first ∷ second ∷ [])) ≡ length bytes }
    ensures tag { (tables : Tables) (bytes : List ℕ) (a : Admitted) (first second : ℕ)
        → admitted row_of tables bytes ≡ Ok a
        → tag_of (with_handles bytes a.shape (first ∷ second ∷ [])) ≡ tag_of bytes }
    ensures code { (tables : Tables) (bytes : List ℕ) (a : Admitted) (first second : ℕ)
        → admitted row_of tables bytes ≡ Ok a
        → code_of (with_handles bytes a.shape (first ∷ second ∷ [])) ≡ code_of bytes }
    ensures behind { (tables : Tables) (bytes : List ℕ) (a : Admitted) (first second place : ℕ)
        → admitted row_of tables bytes ≡ Ok a
        → a.shape.rest ≤ place
        → drop place (with_handles bytes a.shape (first ∷ second ∷ [])) ≡ drop place bytes }
{}

/// A client's command that is admitted is so on a device too, and no Startup. The code of its row
/// is the one in its header.
pub fn clients_commands_are_commands()
    ensures whole { (tables : Tables) (bytes : List ℕ) (a : Admitted)
        → client_admitted tables bytes ≡ Ok a → admitted row_of tables bytes ≡ Ok a }
    ensures other { (tables : Tables) (bytes : List ℕ) (a : Admitted)
        → client_admitted tables bytes ≡ Ok a → (a.shape.row.code == CC_STARTUP) ≡ false }
    ensures code { (tables : Tables) (bytes : List ℕ) (a : Admitted)
        → admitted row_of tables bytes ≡ Ok a → a.shape.row.code ≡ code_of bytes }
{}

/// The handles of an admitted command are two that it may have, and with these it is the command
/// that it was. They and its sessions are there, each session is named once, and there is room for
/// what it makes. The first may be another of its kind, and the second stay.
pub fn commands_have_their_handles()
    ensures two { (tables : Tables) (bytes : List ℕ) (a : Admitted)
        → admitted row_of tables bytes ≡ Ok a
        → a.shape.handles ≡ get_or a.shape.handles 0 0 ∷ get_or a.shape.handles 1 0 ∷ [] }
    ensures are { (tables : Tables) (bytes : List ℕ) (a : Admitted)
        → admitted row_of tables bytes ≡ Ok a → AreBytes bytes
        → AreHandlesOf a.shape (get_or a.shape.handles 0 0) (get_or a.shape.handles 1 0) }
    ensures there { (tables : Tables) (bytes : List ℕ) (a : Admitted)
        → admitted row_of tables bytes ≡ Ok a
        → HandlesAreThere tables bytes a (get_or a.shape.handles 0 0) (get_or a.shape.handles 1 0) }
    ensures same { (tables : Tables) (bytes : List ℕ) (a : Admitted)
        → admitted row_of tables bytes ≡ Ok a → AreBytes bytes
        → with_handles bytes a.shape a.shape.handles ≡ bytes }
    ensures first { (shape : Shape) (old first second : ℕ) → AreHandlesOf shape old second
        → first < 2 ^ 32 → is_present (get_or shape.row.handles 0 Absent) ≡ true
        → is_of_kind (get_or shape.row.handles 0 Absent) first ≡ true
        → AreHandlesOf shape first second }
{}

/// Authorizations that are passwords name no session that is missing, and none twice. Where there
/// are no sessions, an admitted command has no other authorizations. What stands in the place of
/// the first one then names no session, also where the command has none.
pub fn passwords_name_no_session()
    ensures missing { (tables : Tables) (index : ℕ) (auths : List Auth) → ArePasswords auths
        → missing_session tables index auths ≡ None }
    ensures repeated { (named : List ℕ) (number : ℕ) (auths : List Auth) → ArePasswords auths
        → repeated_session named number auths ≡ None }
    ensures only { (tables : Tables) (bytes : List ℕ) (a : Admitted)
        → ((handle : ℕ) → tables.has_session handle ≡ false)
        → admitted row_of tables bytes ≡ Ok a
        → ArePasswords (take a.auths.count a.auths.auths) }
    ensures first { (tables : Tables) (bytes : List ℕ) (a : Admitted)
        → admitted row_of tables bytes ≡ Ok a → ArePasswords (take a.auths.count a.auths.auths)
        → is_session_handle (get_or a.auths.auths 0 no_auth).session ≡ false }
{}
