ghost use Rattle.std.specs.Prelude.{◌≡◌, ◌≤◌, ℕ, true, false, List, [], length, Ok};
ghost use Rattle.std.specs.List.{AllByRecursion};
ghost use Rattle.tab_spec.specs.declared.Admitted.{Admitted};
ghost use Rattle.tab_spec.specs.Admission.{Tables, client_admitted};
ghost use Rattle.world_spec.specs.World.{ClientState, tables_of};
ghost use Rattle.client_laws.specs.Ready.{SessionsAreAmong, client_effect, ends_session};
ghost use Rattle.client_laws.specs.Ready.{named_sessions};
ghost use Rattle.client_laws.specs.Ready.{starts_session};

/// A client's command that is admitted names sessions of the client alone, and where it starts one,
/// none. Its effect leaves no other session than these, and the session of its authorization ends
/// where it succeeded and didn't continue it.
pub fn clients_commands_name_their_sessions()
    ensures own { (tables : Tables) (bytes : List ℕ) (a : Admitted)
        → client_admitted tables bytes ≡ Ok a
        → AllByRecursion (λ handle. tables.has_session handle ≡ true) (named_sessions a) }
    ensures none { (tables : Tables) (bytes : List ℕ) (a : Admitted)
        → client_admitted tables bytes ≡ Ok a → starts_session a ≡ true → named_sessions a ≡ [] }
    ensures few { (a : Admitted) → length (named_sessions a) ≤ 3 }
    ensures among { (client : ℕ) (state : ClientState) (bytes : List ℕ) (a : Admitted)
        → SessionsAreAmong (named_sessions a) (client_effect client state a bytes).operands }
    ensures ended { (client : ℕ) (state : ClientState) (bytes : List ℕ) (a : Admitted)
        → client_admitted (tables_of client state) bytes ≡ Ok a
        → (client_effect client state a bytes).outcome.auth_ended
        ≡ ends_session a (client_effect client state a bytes).reply }
{}
