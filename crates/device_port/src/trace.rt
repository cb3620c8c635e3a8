// What was sent to a device and what came back, as contracts see it.
ghost use Rattle.std.specs.Prelude.{◌≡◌, ◌∷◌, [], Some, None, length, min};
ghost use Rattle.tab_spec.specs.Count.{largest_count};
ghost use Rattle.device_port.specs.Device.{count_of};

use ghost_lists::{Grows, grow};
use std::marker::{Model, PhantomData};
use std::snapshot::Snapshot;

// The transmissions so far, the newest one first, for contracts alone.
#[derive(Drop)]
struct Transmissions {
    of: PhantomData<()>,
}

impl Model for Transmissions {
    ghost use Rattle.std.specs.Prelude.{List, []};
    ghost use Rattle.device_port.specs.Device.{Transmission};

    ghost Value = { List Transmission };

    ghost view = { λ _. [] };
}

// A command that was answered.
#[derive(Clone, Copy)]
struct Answer<'a> {
    command: &'a [u8],
    reply: &'a [u8],
}

impl<'a> Grows<Answer<'a>> for Transmissions {
    ghost use Rattle.std.specs.Prelude.{◌∷◌, Some};

    ghost with = { λ trace a. record {
      command = a.command.now;
      response = Some a.reply.now;
    } ∷ trace };
}

// A command whose transmission failed.
#[derive(Clone, Copy)]
struct Failure<'a> {
    command: &'a [u8],
}

impl<'a> Grows<Failure<'a>> for Transmissions {
    ghost use Rattle.std.specs.Prelude.{◌∷◌, None};

    ghost with = { λ trace f. record {
      command = f.command.now;
      response = None;
    } ∷ trace };
}

/// Each command that was sent to a device and what came of it, the newest one first. Contracts see
/// them all; when it runs, it has only their count. A device enters each transmission once.
#[derive(Drop)]
pub struct Trace {
    transmissions: Snapshot<Transmissions>,
    sent: u64,
}

impl Model for Trace {
    ghost use Rattle.std.specs.Prelude.{◌≡◌, List};
    ghost use Rattle.device_port.specs.Device.{Transmission, count_of};

    ghost Value = { List Transmission };

    ghost view = { λ t. t.transmissions.value };

    ghost invariant = { λ t. t.sent ≡ count_of t.transmissions.value };
}

impl Trace {
    /// An empty trace: nothing was sent yet.
    pub fn new() -> Trace
        ensures { result ≡ [] }
    {
        Trace {
            transmissions: Snapshot::of(&Transmissions { of: PhantomData }),
            sent: 0,
        }
    }

    /// Enters a command that was sent, and the response that came.
    pub fn answered(&mut self, command: &[u8], reply: &[u8])
        ensures { self.new ≡ record { command = command.now; response = Some reply.now }
            ∷ self.old }
    {
        self.sent = self.sent.saturating_add(1);
        grow(&mut self.transmissions, &Answer { command, reply });
    }

    /// Enters a command that was sent, and whose transmission failed.
    pub fn failed(&mut self, command: &[u8])
        ensures { self.new ≡ record { command = command.now; response = None } ∷ self.old }
    {
        self.sent = self.sent.saturating_add(1);
        grow(&mut self.transmissions, &Failure { command });
    }

    /// How many commands were sent: the count stands still at the largest u64.
    pub fn sent(&self) -> u64
        ensures sent { result ≡ count_of self.now }
        ensures least { result ≡ min (length self.now) largest_count }
    {
        self.sent
    }
}
