ghost use Rattle.std.specs.Prelude.{◌≡◌, OnErr};
ghost use Rattle.world_spec.specs.World.{client_step, new_client};
ghost use Rattle.plain_machine.specs.Views.{StepRan, state_of};

use crate::picks::is_nothing;
use crate::run::run;
use crate::seen::Seen;
use crate::shared::Shared;
use crate::step_error::StepError;
use history_spec::Pick;
use std::alloc::Global;
use std::marker::Model;
use tab_bytes::Buffer;
use tab_values::Object;
use tab_wire::{admit_client, error_reply};

// An open client, and its objects by number.
#[derive(Drop)]
pub(crate) struct OpenClient {
    number: u32,
    // The object of each number, up to the largest that was taken so far.
    places: Vec<Option<Object>>,
}

impl Model for OpenClient {
    ghost use Rattle.std.specs.Prelude.{◌≤◌, length};
    ghost use Rattle.history_spec.specs.declared.TheConstants.{CLIENT_OBJECTS};
    ghost use Rattle.world_spec.specs.World.{Client};
    ghost use Rattle.plain_machine.specs.Views.{objects_of};

    ghost Value = { Client };

    ghost view = { λ c. record { number = c.number; objects = objects_of c.places.items } };

    ghost invariant = { λ c. length c.places.items ≤ CLIENT_OBJECTS };
}

impl OpenClient {
    // A client with this number that holds nothing. It takes no memory.
    pub(crate) fn new(alloc: Global, number: u32) -> OpenClient
        ensures { result ≡ new_client number }
    {
        OpenClient {
            number,
            places: Vec::new(alloc),
        }
    }

    pub(crate) fn number(&self) -> u32
        ensures { result ≡ self.now.number }
    {
        self.number
    }

    // Runs a command of this client on what all share, and writes its response over whatever the
    // buffer holds. An error changes nothing.
    #[tactic(auto, unfolding(world_spec::specs::World::client_step))]
    pub(crate) fn step(
        &mut self,
        shared: &mut Shared,
        command: &[u8],
        pick: Pick,
        reply: &mut Buffer,
    ) -> Result<(), StepError>
        ensures ran { StepRan result
            (client_step self.old.number (state_of shared.old self.old.objects) command.now pick)
            (state_of shared.new self.new.objects, reply.new) }
        ensures err { OnErr result ((state_of shared.new self.new.objects
            ≡ state_of shared.old self.old.objects)
            × (self.new ≡ self.old) × (reply.new ≡ reply.old)) }
        ensures number { self.new.number ≡ self.old.number }
    {
        let seen = Seen {
            client: self.number,
            places: &self.places,
            sessions: &shared.sessions,
        };
        match admit_client(&seen, command) {
            Ok(admitted) => run(
                self.number,
                shared,
                &mut self.places,
                &admitted,
                command,
                pick,
                reply,
            ),
            Err(code) => {
                if !is_nothing(pick) {
                    return Err(StepError::PickRefused);
                }
                error_reply(code, reply);
                Ok(())
            }
        }
    }
}
