//! A broker under a lock: its history is its journal's.
ghost use Rattle.std.specs.Prelude.{◌≡◌, ◌≤◌, None, IsSome, is_some};
ghost use Rattle.tab_spec.specs.Count.{largest_count};
ghost use Rattle.broker_lock.specs.Known.{IsLegalOver, origin_of};
ghost use Rattle.broker_core.specs.Broker.{FaultsCounted, LegalOver};

use crate::broker::Broker;
use broker_lock::{Closed, OpenClientError, Recorded, Serves, Told};
use device_port::Device;
use tab_bytes::Buffer;

impl<D: Device> Broker<D> {
    // A law about every broker. It does nothing when it runs.
    fn show_sound(&self)
        ensures legal { IsLegalOver LegalOver
            (origin_of (D.seen self.now.device).base self.now.held.sessions.numbers)
            self.now.journal }
        // If the device shows what it kept, no wrong answer came.
        ensures untold { IsSome self.now.wrong_code → (D.seen self.now.device).base ≡ None }
        ensures began { self.now.began ≤ largest_count }
        ensures faulted { FaultsCounted self.now.began (D.seen self.now.device).faults
            self.now.journal 0 }
    {
        let _began = self.began;
    }
}

impl<D: Device> Recorded for Broker<D> {
    ghost history = { λ b. b.journal };

    ghost legal = { LegalOver };

    ghost fixed = { λ b. record {
      base = origin_of (D.seen b.device).base b.held.sessions.numbers;
      limit = b.limit;
      began = b.began;
      contexts = D.CONTEXTS;
    } };

    ghost wrong = { λ b. is_some b.wrong_code };

    fn entries(&self) -> u64 {
        self.journal.len()
    }
}

impl<D: Device> Serves for Broker<D> {
    fn open_client(&mut self) -> Result<u32, OpenClientError> {
        self.show_sound();
        Broker::open_client(self)
    }

    fn command(&mut self, client: u32, number: u64, bytes: &[u8], reply: &mut Buffer) -> Told {
        self.show_sound();
        Broker::command(self, client, number, bytes, reply)
    }

    fn cancel(
        &mut self,
        client: u32,
        number: u64,
        bytes: &[u8],
        upto: u64,
        reply: &mut Buffer,
    ) -> Told {
        self.show_sound();
        Broker::cancel(self, client, number, bytes, upto, reply)
    }

    fn close_client(&mut self, client: u32) -> Closed {
        let closed = Broker::close_client(self, client);
        self.show_sound();
        closed
    }

    fn show_legal(&self) {
        self.show_sound();
    }
}

// Which histories the lock calls legal: those of worlds.
fn legal_histories_are_of_worlds<D: Device>(broker: &Broker<D>)
    ensures { IsLegalOver LegalOver
        (origin_of (D.seen broker.now.device).base broker.now.held.sessions.numbers)
        broker.now.journal }
{
    broker.show_legal();
}
