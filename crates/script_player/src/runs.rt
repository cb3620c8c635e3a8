ghost use Rattle.std.specs.Prelude.{◌≡◌, ◌≤◌, ◌↔◌, Err, false, IsTrue, [], ◌∷◌, ◌++◌};
ghost use Rattle.history_spec.specs.Entry.{close_entry, IsOpen, IsNextNumber};
ghost use Rattle.broker_lock.specs.Serves.{Opens, Tells, TellsCanceled};
ghost use Rattle.broker_lock.specs.declared.calls.Closed.TheVariants as closes;
ghost use Rattle.broker_lock.specs.declared.calls.OpenClientError.TheVariants as open_errors;
ghost use Rattle.broker_lock.specs.declared.calls.Told.TheVariants as tolds;

use broker_lock::{Closed, OpenClientError, Recorded, Told};
use tab_bytes::Buffer;

/// A value with a history that runs the calls of a script. Its calls do what those of
/// [`broker_lock::Serves`] do. After a wrong answer of the device only closes are called.
pub trait Runs: Recorded {
    /// Opens the next client. An error enters nothing.
    fn open_client(&mut self) -> Result<u32, OpenClientError>
        requires sound { Self.wrong self.old ≡ false }
        ensures opens { Opens (Self.fixed self.old) (Self.history self.old) (Self.history self.new)
            result }
        // An opening meets no wrong answer.
        ensures sound { (result ≡ Err open_errors.Answer → ⊥) × (Self.wrong self.new ≡ false) }
        ensures fixed { Self.fixed self.new ≡ Self.fixed self.old };

    /// Runs an open client's command, and overwrites `reply` with the reply to it. The number is
    /// above those of the client's earlier commands, from 1 on. A command whose result isn't
    /// `Told::Entered` enters nothing.
    fn command(&mut self, client: u32, number: u64, bytes: &[u8], reply: &mut Buffer) -> Told
        requires present { IsOpen (Self.history self.old) client }
        requires number { IsNextNumber (Self.history self.old) client number }
        requires sound { Self.wrong self.old ≡ false }
        ensures told { Tells (Self.fixed self.old) (Self.history self.old) (Self.history self.new)
            client number bytes.now reply.new result }
        // The device gave a wrong answer to this command.
        ensures wrong { (result ≡ tolds.Answer) ↔ IsTrue (Self.wrong self.new) }
        ensures fixed { Self.fixed self.new ≡ Self.fixed self.old };

    /// Answers an open client's command that the client canceled, and runs nothing. `upto` is the
    /// number up to which the client canceled its commands. The rest is as for `command`.
    fn cancel(
        &mut self,
        client: u32,
        number: u64,
        bytes: &[u8],
        upto: u64,
        reply: &mut Buffer,
    ) -> Told
        requires present { IsOpen (Self.history self.old) client }
        requires number { IsNextNumber (Self.history self.old) client number }
        requires covers { number ≤ upto }
        requires sound { Self.wrong self.old ≡ false }
        ensures told { TellsCanceled (Self.fixed self.old) (Self.history self.old)
            (Self.history self.new) client number upto bytes.now reply.new result }
        // The device isn't asked.
        ensures sound { (result ≡ tolds.Answer → ⊥) × (Self.wrong self.new ≡ false) }
        ensures fixed { Self.fixed self.new ≡ Self.fixed self.old };

    /// Closes an open client. Whatever the answer is, the client is closed.
    fn close_client(&mut self, client: u32) -> Closed
        requires { IsOpen (Self.history self.old) client }
        ensures closed { Self.history self.new
            ≡ Self.history self.old ++ close_entry client ∷ [] }
        ensures wrong { (result ≡ closes.Answer) ↔ IsTrue (Self.wrong self.new) }
        // A wrong answer that came stays.
        ensures stays { IsTrue (Self.wrong self.old) → IsTrue (Self.wrong self.new) }
        ensures fixed { Self.fixed self.new ≡ Self.fixed self.old };
}
