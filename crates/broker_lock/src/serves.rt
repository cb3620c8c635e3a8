ghost use Rattle.std.specs.Prelude.{◌≡◌, ◌≤◌, Bool, List, length};
ghost use Rattle.history_spec.specs.Entry.{Entry, IsOpen, IsNextNumber};
ghost use Rattle.broker_lock.specs.Known.{Fixed, IsLegalOver, Origin};
ghost use Rattle.broker_lock.specs.Serves.{IsClosed, Opens, Tells, TellsCanceled, TellsWrong};
ghost use Rattle.broker_lock.specs.Serves.{closes_wrong, opens_wrong, tells_wrong};

use crate::calls::{Closed, OpenClientError, Told};
use tab_bytes::Buffer;

/// A value with a history.
pub trait Recorded {
    /// Its entries, from the first on.
    ghost history: { Self → List Entry };

    /// Which histories are legal over what they begin from.
    ghost legal: { Origin → List Entry → Type 0 };

    /// What the history stands on. No call changes it.
    ghost fixed: { Self → Fixed };

    /// Whether the device gave a wrong answer.
    ghost wrong: { Self → Bool };

    /// How many entries the history has.
    fn entries(&self) -> u64
        ensures { result ≡ length (history self.now) };
}

/// A value that opens clients, runs or cancels their commands and closes them, and enters each such
/// call into its history. After any call the history is the one before, followed by one entry of
/// the call's client, or by none. The call in which the device gives a wrong answer says so, and so
/// does each later call; no earlier one does. A device that shows what the history begins from
/// gives no wrong answer.
pub trait Serves: Recorded {
    /// Opens the next client. An error enters nothing.
    fn open_client(&mut self) -> Result<u32, OpenClientError>
        ensures opens { Opens (Self.fixed self.old) (Self.history self.old) (Self.history self.new)
            result }
        // An opening meets no wrong answer.
        ensures wrong { TellsWrong (Self.wrong self.old) (Self.wrong self.new) (opens_wrong result)
            × (Self.wrong self.new ≡ Self.wrong self.old) }
        ensures fixed { Self.fixed self.new ≡ Self.fixed self.old };

    /// Runs an open client's command, and overwrites `reply` with the reply to it. The number is
    /// above those of the client's earlier commands, from 1 on. A command whose result isn't
    /// `Told::Entered` enters nothing.
    fn command(&mut self, client: u32, number: u64, bytes: &[u8], reply: &mut Buffer) -> Told
        requires present { IsOpen (Self.history self.old) client }
        requires number { IsNextNumber (Self.history self.old) client number }
        ensures told { Tells (Self.fixed self.old) (Self.history self.old) (Self.history self.new)
            client number bytes.now reply.new result }
        ensures wrong { TellsWrong (Self.wrong self.old) (Self.wrong self.new)
            (tells_wrong result) }
        ensures fixed { Self.fixed self.new ≡ Self.fixed self.old };

    /// Answers an open client's command that the client canceled, and runs nothing. `upto` is the
    /// number up to which the client canceled its commands. The rest is as for `command`.
    fn cancel(
        &mut self,
        client: u32,
        number: u64,
        bytes: &[u8],
        upto: u64,
        reply: &mut Buffer,
    ) -> Told
        requires present { IsOpen (Self.history self.old) client }
        requires number { IsNextNumber (Self.history self.old) client number }
        requires covers { number ≤ upto }
        ensures told { TellsCanceled (Self.fixed self.old) (Self.history self.old)
            (Self.history self.new) client number upto bytes.now reply.new result }
        ensures wrong { TellsWrong (Self.wrong self.old) (Self.wrong self.new)
            (tells_wrong result) }
        ensures fixed { Self.fixed self.new ≡ Self.fixed self.old };

    /// Closes an open client.
    fn close_client(&mut self, client: u32) -> Closed
        requires { IsOpen (Self.history self.old) client }
        ensures closed { IsClosed (Self.fixed self.old) (Self.history self.old)
            (Self.history self.new) client result }
        ensures wrong { TellsWrong (Self.wrong self.old) (Self.wrong self.new)
            (closes_wrong result) }
        ensures fixed { Self.fixed self.new ≡ Self.fixed self.old };

    /// Does nothing, and shows that the history is legal.
    fn show_legal(&self)
        ensures { IsLegalOver Self.legal (Self.fixed self.now).base (Self.history self.now) };
}
