ghost use Rattle.std.specs.Prelude.{◌≡◌, ◌≤◌, ◌<◌, ◌^◌, ◌↔◌, ℕ, true, None, Some, Err, length};
ghost use Rattle.std.specs.Prelude.{IfOk, OnOk, OnErr};
ghost use Rattle.world_spec.specs.World.{closed_world, empty_world, opened_world, plain_step};
ghost use Rattle.plain_machine.specs.declared.step_error.StepError.TheVariants.{PickRefused};
ghost use Rattle.plain_machine.specs.Clients.{is_open_in, place_in};

use crate::client::OpenClient;
use crate::left::Left;
use crate::sessions::unused_places;
use crate::shared::Shared;
use crate::step_error::StepError;
use history_spec::Pick;
use std::alloc::{AllocError, Global};
use std::marker::Model;
use tab_bytes::Buffer;
use tab_values::Persist;

/// The machine that all clients share as each of them sees it: what is kept, the sessions of all of
/// them and those that were left, which contexts may be handed out yet, how many clients were
/// opened, and the open ones, each with its own objects.
#[derive(Drop)]
pub struct World {
    alloc: Global,
    shared: Shared,
    opened: u64,
    // In the order of opening.
    clients: Vec<OpenClient>,
}

impl Model for World {
    ghost use Rattle.world_spec.specs.World as worlds;
    ghost use Rattle.plain_machine.specs.Owners.{owners_of};

    ghost Value = { worlds.World };

    ghost view = { λ w. record {
      persist = w.shared.persist;
      most = w.shared.most;
      opened = w.opened;
      clients = w.clients.items;
      sessions = owners_of w.shared.sessions.items;
      left = w.shared.left;
      object_sequence = w.shared.object_sequence;
      session_sequence = w.shared.session_sequence;
    } };
}

impl World {
    /// A world that keeps this, in which no client was opened, and at most so many sessions are
    /// active at once. It takes the memory of all session numbers and of the list of left ones now,
    /// and fails only for want of it.
    pub fn new(alloc: Global, base: Persist, most: u8) -> Result<World, AllocError>
        ensures { IfOk result (λ w. w ≡ empty_world base most) }
    {
        Ok(World {
            alloc,
            shared: Shared {
                persist: base,
                most,
                sessions: unused_places(alloc)?,
                left: Left::new(alloc)?,
                object_sequence: 0,
                session_sequence: 0,
            },
            opened: 0,
            clients: Vec::new(alloc),
        })
    }

    /// Opens a client that holds nothing, and gives its number. The numbers rise from 0, and none
    /// is given twice. It fails only for want of memory, and nothing changes then.
    pub fn open_client(&mut self) -> Result<u32, AllocError>
        requires { self.old.opened < 2 ^ 32 }
        ensures ok { IfOk result (λ client. (client ≡ self.old.opened)
            × (self.new ≡ opened_world self.old client)) }
        ensures err { OnErr result (self.new ≡ self.old) }
    {
        let client = self.opened as u32;
        self.clients.push(OpenClient::new(self.alloc, client))?;
        self.opened += 1;
        Ok(client)
    }

    /// Closes an open client. Its objects and its sessions in use go with it, and those that it
    /// saved are left. Of all that are left, at most the lesser of 8 and a quarter of how many may
    /// be active stay; what was left longest goes first. It takes no memory.
    pub fn close_client(&mut self, client: u32)
        requires open { is_open_in (self.old).clients client ≡ true }
        ensures { self.new ≡ closed_world self.old client }
    {
        let place = place_of(&self.clients, client);
        self.clients.remove(place);
        let shared = &mut self.shared;
        shared.left.close(&mut shared.sessions, client, shared.most);
    }

    /// How many clients were opened, which is the number of the next one.
    pub fn opened(&self) -> u64
        ensures { result ≡ self.now.opened }
    {
        self.opened
    }

    /// Whether a client is open.
    pub fn is_open(&self, client: u32) -> bool
        ensures { result ≡ is_open_in self.now.clients client }
    {
        self.clients.iter().any(|open| open.number() == client)
    }

    /// Runs a command of an open client, and writes its response over whatever the buffer holds. It
    /// takes any bytes. The pick is the number of the session that the command starts, or the
    /// sequence of the context that it hands out, and nothing for any other command. An error
    /// changes nothing.
    pub fn step(
        &mut self,
        client: u32,
        command: &[u8],
        pick: Pick,
        reply: &mut Buffer,
    ) -> Result<(), StepError>
        requires open { is_open_in (self.old).clients client ≡ true }
        ensures ok { OnOk result
            (plain_step self.old client command.now pick ≡ Some (self.new, reply.new)) }
        ensures refused { (result ≡ Err PickRefused)
            ↔ (plain_step self.old client command.now pick ≡ None) }
        ensures err { OnErr result ((self.new ≡ self.old) × (reply.new ≡ reply.old)) }
        ensures opened { (self.new).opened ≡ (self.old).opened }
        ensures clients { (other : ℕ)
            → is_open_in (self.new).clients other ≡ is_open_in (self.old).clients other }
    {
        let place = place_of(&self.clients, client);
        self.clients[place].step(&mut self.shared, command, pick, reply)
    }
}

// The place of a client among the open ones; their number where it isn't open.
fn place_of(clients: &[OpenClient], client: u32) -> usize
    ensures { result ≡ place_in clients.now client }
{
    for (place, open) in clients.iter().enumerate() {
        if open.number() == client {
            return place;
        }
    }
    clients.len()
}
