ghost use Rattle.std.specs.Prelude.{◌≡◌, true};

/// What a connection calls before each command, so that a test can hold a command until others
/// have come, and where the journal has no room or the device gave a wrong answer, before the
/// client is told. All connections share one gate.
///
/// A call takes no handle. A gate that waits has its handle as a field, and the bound `Wait` on its
/// own type, so a gate that doesn't wait needs none.
pub trait Gate: Sync {
    /// Returns when this command of this client may be run: `number` counts the client's commands
    /// from 1. The worker hasn't looked yet whether the command is canceled.
    fn before(&self, client: u32, number: u64);

    /// Whether no call of [`Gate::before`] waits. By default one may. The answer must not change: a
    /// connection decides by it whether it needs a second thread.
    fn is_open(&self) -> bool {
        false
    }

    /// The journal has no room for a command, whose client gets that reply next, or for a client.
    /// By default nothing is done.
    fn journal_full(&self) {}

    /// The device gave a wrong answer, here or before: a command's client gets that reply next, a
    /// client isn't opened, or one is closed. By default nothing is done.
    fn wrong_answer(&self) {}
}

/// The gate that is always open: it does nothing.
#[derive(Clone, Copy)]
pub struct OpenGate;

impl Gate for OpenGate {
    fn before(&self, _client: u32, _number: u64) {}

    fn is_open(&self) -> bool
        ensures { result ≡ true }
    {
        true
    }
}
