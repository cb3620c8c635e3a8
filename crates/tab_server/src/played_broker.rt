//! The broker that a script is played over.
ghost use Rattle.std.specs.Prelude.{◌≤◌, is_some};
ghost use Rattle.broker_lock.specs.Known.{origin_of};
ghost use Rattle.broker_core.specs.Broker.{LegalOver};

use broker_core::Broker;
use broker_lock::{Closed, OpenClientError, Recorded, Told};
use device_port::Device;
use script_player::Runs;
use tab_bytes::Buffer;

/// The broker that a script is played over. Its device's fault count hasn't fallen since the start.
pub struct PlayedBroker<D: Device> {
    /// The broker.
    pub broker: Broker<D>,
    ghost counted: { broker.began ≤ (D.seen broker.device).faults },
}

impl<D: Device> Recorded for PlayedBroker<D> {
    ghost history = { λ p. p.broker.journal };

    ghost legal = { LegalOver };

    ghost fixed = { λ p. record {
      base = origin_of (D.seen p.broker.device).base p.broker.held.sessions.numbers;
      limit = p.broker.limit;
      began = p.broker.began;
      contexts = D.CONTEXTS;
    } };

    ghost wrong = { λ p. is_some p.broker.wrong_code };

    fn entries(&self) -> u64 {
        self.broker.entries()
    }
}

impl<D: Device> Runs for PlayedBroker<D> {
    fn open_client(&mut self) -> Result<u32, OpenClientError> {
        self.broker.open_client()
    }

    fn command(&mut self, client: u32, number: u64, bytes: &[u8], reply: &mut Buffer) -> Told {
        self.broker.command(client, number, bytes, reply)
    }

    fn cancel(
        &mut self,
        client: u32,
        number: u64,
        bytes: &[u8],
        upto: u64,
        reply: &mut Buffer,
    ) -> Told {
        self.broker.cancel(client, number, bytes, upto, reply)
    }

    fn close_client(&mut self, client: u32) -> Closed {
        self.broker.close_client(client)
    }
}
