ghost use Rattle.std.specs.Prelude.{◌≡◌, ◌∷◌, ◌++◌, [], OnOk, OnErr, is_some};
ghost use Rattle.broker_lock.specs.Known.{origin_of};
ghost use Rattle.broker_core.specs.Broker.{LegalOver};
ghost use Rattle.device_port.specs.Device.{sent_of};
ghost use Rattle.client_machine.specs.Settled.{orphan_count};

use broker_lock::{Closed, OpenClientError, Recorded, Told};
use device_port::Device;
use script_player::Runs;
use std::alloc::AllocError;
use tab_bytes::Buffer;
use tab_server::PlayedBroker;

/// A command or a close that was played: how many commands the device was sent before it and after
/// it, and how many orphans are in it then.
#[derive(Clone, Copy)]
pub struct Call {
    pub is_close: bool,
    pub first: u64,
    pub last: u64,
    pub orphans: u32,
}

/// A broker as a script is played over it, and its calls.
pub struct Watched<D: Device> {
    pub played: PlayedBroker<D>,
    pub calls: Vec<Call>,
}

impl<D: Device> Watched<D> {
    // Notes a call that began at this count. Where memory lacks it isn't noted.
    fn note(&mut self, is_close: bool, first: u64) -> Result<(), AllocError>
        ensures played { self.new.played.broker ≡ self.old.played.broker }
        ensures noted { OnOk result (self.new.calls.items ≡ self.old.calls.items ++ (record {
          is_close = is_close;
          first = first;
          last = sent_of (D.seen self.old.played.broker.device);
          orphans = orphan_count self.old.played.broker.held;
        }) ∷ []) }
        ensures not { OnErr result (self.new.calls.items ≡ self.old.calls.items) }
    {
        self.calls.push(Call {
            is_close,
            first,
            last: self.played.broker.sent_count(),
            orphans: self.played.broker.orphans(),
        })?;
        Ok(())
    }
}

impl<D: Device> Recorded for Watched<D> {
    ghost history = { λ w. w.played.broker.journal };

    ghost legal = { LegalOver };

    ghost fixed = { λ w. record {
      base = origin_of (D.seen w.played.broker.device).base
          w.played.broker.held.sessions.numbers;
      limit = w.played.broker.limit;
      began = w.played.broker.began;
      contexts = D.CONTEXTS;
    } };

    ghost wrong = { λ w. is_some w.played.broker.wrong_code };

    fn entries(&self) -> u64 {
        self.played.entries()
    }
}

impl<D: Device> Runs for Watched<D> {
    fn open_client(&mut self) -> Result<u32, OpenClientError> {
        self.played.open_client()
    }

    fn command(&mut self, client: u32, number: u64, bytes: &[u8], reply: &mut Buffer) -> Told {
        let first = self.played.broker.sent_count();
        let told = self.played.command(client, number, bytes, reply);
        let _ = self.note(false, first);
        told
    }

    fn cancel(
        &mut self,
        client: u32,
        number: u64,
        bytes: &[u8],
        upto: u64,
        reply: &mut Buffer,
    ) -> Told {
        let first = self.played.broker.sent_count();
        let told = self.played.cancel(client, number, bytes, upto, reply);
        let _ = self.note(false, first);
        told
    }

    fn close_client(&mut self, client: u32) -> Closed {
        let first = self.played.broker.sent_count();
        let closed = self.played.close_client(client);
        let _ = self.note(true, first);
        closed
    }
}
