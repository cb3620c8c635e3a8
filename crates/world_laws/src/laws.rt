ghost use Rattle.std.specs.Prelude.{◌≡◌, [], ◌∷◌, ◌++◌, ℕ, List};
ghost use Rattle.tab_spec.specs.Persist.{Persist};
ghost use Rattle.history_spec.specs.Entry.{Entry, clients_by, clients_of};
ghost use Rattle.world_spec.specs.World.{world_by, world_of};
ghost use Rattle.world_spec.specs.Legal.{MayFollow, Legal};

/// With one more entry, the clients of a history and its world go one step further, and it stays
/// legal where that entry may follow. How many sessions there may be stays.
pub fn histories_grow()
    ensures clients { (history : List Entry) (e : Entry)
        → clients_of (history ++ e ∷ []) ≡ clients_by (clients_of history) e }
    ensures world { (base : Persist) (most : ℕ) (history : List Entry) (e : Entry)
        → world_of base most (history ++ e ∷ []) ≡ world_by (world_of base most history) e }
    ensures most { (base : Persist) (most : ℕ) (history : List Entry)
        → (world_of base most history).most ≡ most }
    ensures legal { (base : Persist) (most : ℕ) (history : List Entry) (e : Entry)
        → Legal base most history → MayFollow base most history e
        → Legal base most (history ++ e ∷ []) }
{}
