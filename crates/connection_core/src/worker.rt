//! The side of a connection that has commands run or canceled, and writes what its client is told.
ghost use Rattle.std.specs.Prelude.{◌≡◌, ◌<◌, ℕ, []};
ghost use Rattle.tab_spec.specs.Count.{largest_count};
ghost use Rattle.tab_spec.specs.Reply.{error_reply};
ghost use Rattle.tab_spec.specs.declared.TheConstants.{RC_COMMAND_SIZE};
ghost use Rattle.broker_lock.specs.declared.calls.Job.TheVariants as jobs;
ghost use Rattle.cancel_words.specs.View.{of_worker};
ghost use Rattle.connection_core.specs.Sides.{IsWorkers};
ghost use Rattle.connection_core.specs.Turns.{AsksInTurn, IsNextJob, IsPushed};
ghost use Rattle.connection_core.specs.Workers.{IsOpenWorker, TookUp};

use crate::between::{Between, Side};
use broker_lock::{Closed, Done, Job, Pass, Serves, Shared, Told};
use cancel_words::{CancelWord, WordSeat};
use link_port::{Failed, Gate, Sink, push_all};
use std::sync::Wait;
use tab_bytes::Buffer;
use tab_spec::RC_COMMAND_SIZE;
use tab_wire::error_reply;

// An open client, how many of its commands were taken up, and the worker's side of what is shared
// with the reader.
#[derive(Drop)]
pub(crate) struct Worker<B, K> {
    pub pass: Pass<B>,
    pub sink: K,
    pub client: u32,
    pub done: u64,
    pub side: Side,
}

impl<B: Serves, K: Sink> Worker<B, K> {
    // Waits for the gate, has the client's next command run, or only answered if it is canceled,
    // gives its buffer back, tells the gate of a full journal or a wrong answer, and writes the
    // reply.
    pub fn run<G: Gate, R: Wait>(
        &mut self,
        rt: &R,
        shared: &Shared<B>,
        gate: &G,
        between: &Between,
        command: Buffer,
        reply: &mut Buffer,
    ) -> Result<(), Failed>
        requires opened { IsOpenWorker shared.now self.old }
        requires more { self.old.done < largest_count }
        requires side { IsWorkers between.now self.old.side }
        ensures took { TookUp B.legal between.now self.old self.new command reply.new }
        ensures pushed { IsPushed K.written K.ended K.faults reply.new
            self.old.sink self.new.sink result }
    {
        self.done += 1;
        gate.before(self.client, self.done);
        let job = next_job(&between.word, &mut self.side.seat, self.client, self.done);
        let done = shared.act(rt, &mut self.pass, job, command.as_slice(), reply);
        between.spares.give(rt, &mut self.side.spare_pass, command);
        tell_gate(gate, done);
        push_all(&mut self.sink, reply.as_slice())
    }

    // Answers a size that no frame has.
    pub fn tell_bad_size(&mut self, reply: &mut Buffer) -> Result<(), Failed>
        ensures client { self.new.client ≡ self.old.client }
        ensures done { self.new.done ≡ self.old.done }
        ensures pass { self.new.pass ≡ self.old.pass }
        ensures side { self.new.side ≡ self.old.side }
        ensures pushed { IsPushed K.written K.ended K.faults (error_reply RC_COMMAND_SIZE)
            self.old.sink self.new.sink result }
    {
        error_reply(RC_COMMAND_SIZE, reply);
        push_all(&mut self.sink, reply.as_slice())
    }

    // Closes the client.
    pub fn close<G: Gate, R: Wait>(
        &mut self,
        rt: &R,
        shared: &Shared<B>,
        gate: &G,
        reply: &mut Buffer,
    )
        requires opened { IsOpenWorker shared.now self.old }
        ensures client { self.new.client ≡ self.old.client }
        ensures done { self.new.done ≡ self.old.done }
        ensures sink { self.new.sink ≡ self.old.sink }
        ensures side { self.new.side ≡ self.old.side }
        ensures acts { AsksInTurn B.legal self.old.pass (jobs.Close self.old.client)
            [] reply.new self.new.pass }
    {
        let job = Job::Close {
            client: self.client,
        };
        let done = shared.act(rt, &mut self.pass, job, &[], reply);
        tell_gate(gate, done);
    }
}

// Loads the word once, before the client's next command waits for its turn. If the word covers that
// command's number, the command isn't run.
fn next_job(word: &CancelWord, seat: &mut WordSeat, client: u32, number: u64) -> Job
    requires word { seat.old.word ≡ word.now }
    requires role { seat.old.role ≡ of_worker }
    ensures { (found : ℕ) × IsNextJob client number found seat.old seat.new result }
{
    match word.covers(seat, number) {
        Some(upto) => Job::Cancel {
            client,
            number,
            upto,
        },
        None => Job::Command { client, number },
    }
}

// Tells the gate if the journal had no room for a command, or if the device gave a wrong answer.
fn tell_gate<G: Gate>(gate: &G, done: Done) {
    match done {
        Done::Told(Told::JournalFull { kept: _, limit: _ }) => gate.journal_full(),
        Done::Told(Told::Answer) | Done::Closed(Closed::Answer) => gate.wrong_answer(),
        Done::Told(_) | Done::Opened(_) | Done::Closed(_) => {}
    }
}
