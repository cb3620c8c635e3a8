//! A broker over the device in memory, whose clients close in the order in which they were opened.
ghost use Rattle.std.specs.Prelude.{◌≤◌, IfOk, Some};
ghost use Rattle.broker_core.specs.Broker.{IsAtBase};
ghost use Rattle.history_spec.specs.declared.TheConstants.{JOURNAL_LEAST, JOURNAL_MOST};

use audit_journal::Journal;
use broker_core::{Broker, Closed, OpenClientError, Told};
use device_memory::MemoryDevice;
use std::alloc::{AllocError, Global};
use std::marker::Model;
use tab_bytes::Buffer;
use tab_spec::Numbers;

// A broker whose clients run commands that are numbered upwards, each with a number of its own.
pub(crate) struct Clients {
    broker: Broker<MemoryDevice>,
    // The clients from the one number up to the other are open.
    closed: u64,
    opened: u64,
    // The number of the next command.
    next: u64,
    reply: Buffer,
}

impl Model for Clients {
    ghost use Rattle.std.specs.Prelude.{ℕ};
    ghost use Rattle.broker_tests.specs.Driven.{IsDriven};

    ghost Value = { ℕ };

    ghost view = { λ c. c.opened };

    ghost invariant = { λ c. IsDriven c.broker.journal c.closed c.opened c.next };
}

// A device with the zero seed and these numbers, which fails at the listed transmissions. A broker
// may begin on it.
fn device_of(alloc: Global, numbers: Numbers, failing: Vec<u64>) -> Result<MemoryDevice, AllocError>
    ensures { IfOk result (λ device. IsAtBase (Some device.base) (Some device.state)) }
{
    MemoryDevice::with_numbers(alloc, [0; 32], numbers, failing)
}

impl Clients {
    // A broker over a device with the zero seed and these numbers, which fails at the listed
    // transmissions. There is none where the device fails at its start or no broker serves it, or
    // memory lacks.
    pub(crate) fn begin(
        alloc: Global,
        numbers: Numbers,
        failing: Vec<u64>,
        limit: u64,
    ) -> Option<Clients>
        requires least { JOURNAL_LEAST ≤ limit }
        requires most { limit ≤ JOURNAL_MOST }
    {
        let Ok(reply) = Buffer::new(alloc) else {
            return None;
        };
        let Ok(device) = device_of(alloc, numbers, failing) else {
            return None;
        };
        match Broker::begin(alloc, device, limit) {
            Ok(broker) => Some(Clients {
                broker,
                closed: 0,
                opened: 0,
                next: 1,
                reply,
            }),
            Err(_) => None,
        }
    }

    // Opens the next client.
    pub(crate) fn open(&mut self) -> Result<u32, OpenClientError> {
        if self.opened > u64::from(u32::MAX) {
            return Err(OpenClientError::Memory);
        }
        let client = self.broker.open_client()?;
        self.opened += 1;
        Ok(client)
    }

    // Runs a command of an open client.
    pub(crate) fn send(&mut self, client: u32, command: &[u8]) -> Option<Told> {
        let place = u64::from(client);
        if place < self.closed || place >= self.opened || self.next == u64::MAX {
            return None;
        }
        let number = self.next;
        self.next += 1;
        Some(
            self.broker
                .command(client, number, command, &mut self.reply),
        )
    }

    // Cancels a command of an open client before it runs.
    pub(crate) fn cancel(&mut self, client: u32, command: &[u8]) -> Option<Told> {
        let place = u64::from(client);
        if place < self.closed || place >= self.opened || self.next == u64::MAX {
            return None;
        }
        let number = self.next;
        self.next += 1;
        Some(
            self.broker
                .cancel(client, number, command, number, &mut self.reply),
        )
    }

    // What the last command was told.
    pub(crate) fn reply(&self) -> &[u8] {
        self.reply.as_slice()
    }

    // Closes the client that has been open for the longest.
    pub(crate) fn close(&mut self) -> Option<Closed> {
        if self.closed >= self.opened {
            return None;
        }
        let client = self.closed as u32;
        self.closed += 1;
        Some(self.broker.close_client(client))
    }

    // How many commands the device was sent.
    pub(crate) fn sent(&self) -> u64 {
        self.broker.sent_count()
    }

    // How many objects without a client are left.
    pub(crate) fn orphans(&self) -> u32 {
        self.broker.orphans()
    }

    // The device and the journal.
    pub(crate) fn finish(self) -> (MemoryDevice, Journal) {
        let Clients {
            broker,
            closed: _,
            opened: _,
            next: _,
            reply: _,
        } = self;
        broker.finish()
    }
}
