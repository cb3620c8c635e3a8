ghost use Rattle.std.specs.Prelude.{◌≡◌, ◌≤◌, ◌==◌, ℕ, false, length, List, None};
ghost use Rattle.tab_spec.specs.Numbers.{leave_limit};
ghost use Rattle.tab_spec.specs.Persist.{Persist};
ghost use Rattle.history_spec.specs.Entry.{Entry};
ghost use Rattle.world_spec.specs.World.{World, closed_world, opened_world, owned_under};
ghost use Rattle.world_spec.specs.World.{world_of};
ghost use Rattle.world_laws.specs.Left.{LeftStands};

/// An opening leaves all sessions as they are. Where a client is closed, any other client has the
/// session that it had under each handle, in use or saved, if the list of left sessions stands. The
/// closed one has none.
pub fn sessions_follow_their_clients()
    ensures opened { (world : World) (client : ℕ)
        → (opened_world world client).sessions ≡ world.sessions }
    ensures other_closed { (world : World) (client other handle : ℕ)
        → LeftStands world.sessions world.left → (client == other) ≡ false
        → owned_under (closed_world world client).sessions other handle
        ≡ owned_under world.sessions other handle }
    ensures own_closed { (world : World) (client handle : ℕ)
        → owned_under (closed_world world client).sessions client handle ≡ None }
{}

/// In the world of any history the list of left sessions has the number of each session that is
/// nobody's, once, and no other; each of them is saved. There are no more of them than may be left.
pub fn left_sessions_are_listed()
    ensures stands { (base : Persist) (most : ℕ) (history : List Entry)
        → LeftStands (world_of base most history).sessions (world_of base most history).left }
    ensures few { (base : Persist) (most : ℕ) (history : List Entry)
        → length (world_of base most history).left ≤ leave_limit most }
{}
