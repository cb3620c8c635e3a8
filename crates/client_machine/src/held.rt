ghost use Rattle.std.specs.Prelude.{◌≡◌};
ghost use Rattle.client_machine.specs.Settled.{orphan_count};

use object_swap::Objects;
use session_swap::Sessions;

/// What is held in the device and beside it: the objects and the sessions of all clients, the
/// sessions that clients left, and orphans, whose flush failed when their client was closed.
#[derive(Drop)]
pub struct Held {
    pub objects: Objects,
    pub sessions: Sessions,
}

impl Held {
    /// How many objects and sessions are orphans.
    pub fn orphans(&self) -> u32
        ensures { result ≡ orphan_count self.now }
    {
        u32::from(self.objects.orphans()) + u32::from(self.sessions.orphans())
    }
}
