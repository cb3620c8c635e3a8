ghost use Rattle.std.specs.Prelude.{◌≡◌, ◌≤◌, ◌==◌, ◌++◌, ◌∷◌, [], ℕ, true, false, List, Option};
ghost use Rattle.std.specs.Prelude.{map};
ghost use Rattle.std.specs.List.{count_by, list_any};
ghost use Rattle.tab_spec.specs.Object.{Object};
ghost use Rattle.tab_spec.specs.Persist.{Persist};
ghost use Rattle.history_spec.specs.Entry.{Entry, clients_of};
ghost use Rattle.world_spec.specs.World.{Client, new_client, table_in, with_table, without_client};
ghost use Rattle.world_spec.specs.World.{world_of};

/// The world of a history has the clients of that history: as many were opened, and the same are
/// open, in the same order and as often.
pub fn worlds_have_their_clients()
    ensures opened { (base : Persist) (most : ℕ) (history : List Entry)
        → (world_of base most history).opened ≡ (clients_of history).opened }
    ensures present { (base : Persist) (most : ℕ) (history : List Entry)
        → map (λ (c : Client). c.number) (world_of base most history).clients
        ≡ (clients_of history).present }
    ensures is_open { (base : Persist) (most : ℕ) (history : List Entry) (client : ℕ)
        → list_any (λ (c : Client). c.number == client) (world_of base most history).clients
        ≡ list_any (λ (n : ℕ). n == client) (clients_of history).present }
    ensures once { (base : Persist) (most : ℕ) (history : List Entry) (client : ℕ)
        → count_by (λ (c : Client). c.number == client) (world_of base most history).clients
        ≡ count_by (λ (n : ℕ). n == client) (clients_of history).present }
{}

/// An opening leaves each client the table that it had. Where an open client gets another table, it
/// has that one, and any other client the one that it had. So it is where a client is closed, which
/// has no objects afterwards, if it was open once at most.
pub fn tables_follow_their_clients()
    ensures opened { (clients : List Client) (number client : ℕ)
        → table_in (clients ++ new_client number ∷ []) client ≡ table_in clients client }
    ensures own { (clients : List Client) (client : ℕ) (objects : List (Option Object))
        → list_any (λ (c : Client). c.number == client) clients ≡ true
        → table_in (with_table client objects clients) client ≡ objects }
    ensures other { (clients : List Client) (client other : ℕ) (objects : List (Option Object))
        → (client == other) ≡ false
        → table_in (with_table client objects clients) other ≡ table_in clients other }
    ensures other_closed { (clients : List Client) (client other : ℕ) → (client == other) ≡ false
        → table_in (without_client client clients) other ≡ table_in clients other }
    ensures own_closed { (clients : List Client) (client : ℕ)
        → count_by (λ (c : Client). c.number == client) clients ≤ 1
        → table_in (without_client client clients) client ≡ [] }
{}
