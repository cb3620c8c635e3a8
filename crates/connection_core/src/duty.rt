//! A worker's duty: to take up what its reader sends, one message after the other. One hand has it
//! at a time, the reader's or the helper's.
ghost use Rattle.std.specs.Prelude.{◌≡◌};
ghost use Rattle.connection_core.specs.declared.duty.Stage.TheVariants as stages;
ghost use Rattle.connection_core.specs.Duties.{FinishesTo, KeepsTo};
ghost use Rattle.connection_core.specs.Keeps.{IsBegun};

use crate::between::Between;
use crate::ends::Ending;
use crate::message::{Ended, Message};
use crate::way::Begins;
use crate::worker::Worker;
use broker_lock::{Serves, Shared};
use link_port::{Gate, Sink};
use std::sync::Wait;
use tab_bytes::Buffer;

// What became of the duty.
#[derive(Clone, Copy)]
pub(crate) enum Stage {
    // More commands may come.
    Going,
    // No more come.
    Over(Ended),
    // A reply wasn't written to its end. What still comes is dropped.
    Cut,
    // The same, and no more come.
    CutOver,
}

// The client's worker, and the state of its duty.
#[derive(Drop)]
pub(crate) struct Duty<B, K: Drop> {
    pub worker: Worker<B, K>,
    pub reply: Buffer,
    pub stage: Stage,
}

impl<B: Serves, K: Sink + Drop> Duty<B, K> {
    // Takes the next message, if there is one, and does what it says: it has a command run, or only
    // answered if it is canceled. It returns whether there was a message.
    pub fn take_up<J: Begins, G: Gate, R: Wait>(
        &mut self,
        rt: &R,
        shared: &Shared<B>,
        gate: &G,
        between: &Between,
    ) -> bool
        requires begun { IsBegun J.begun shared.now between.now }
        requires keeps { KeepsTo B.legal K.written K.ended K.faults J.begun self.old }
        ensures { KeepsTo B.legal K.written K.ended K.faults J.begun self.new }
    {
        match self.stage {
            Stage::Going => self.go_on::<J, G, R>(rt, shared, gate, between),
            Stage::Cut => self.drop_next::<J, R>(rt, shared, between),
            Stage::Over(_) | Stage::CutOver => false,
        }
    }

    // The same, as long as every reply was written.
    fn go_on<J: Begins, G: Gate, R: Wait>(
        &mut self,
        rt: &R,
        shared: &Shared<B>,
        gate: &G,
        between: &Between,
    ) -> bool
        requires begun { IsBegun J.begun shared.now between.now }
        requires keeps { KeepsTo B.legal K.written K.ended K.faults J.begun self.old }
        requires going { self.old.stage ≡ stages.Going }
        ensures { KeepsTo B.legal K.written K.ended K.faults J.begun self.new }
    {
        let Some(message) = between.line.try_take(rt, &mut self.worker.side.pass) else {
            return false;
        };
        match message {
            Message::Command(command) => {
                if self
                    .worker
                    .run(rt, shared, gate, between, command, &mut self.reply)
                    .is_err()
                {
                    // A peer that takes no reply isn't waited for: its end lets the reader end too.
                    self.worker.sink.end();
                    self.stage = Stage::Cut;
                    return true;
                }
                true
            }
            Message::End(ended) => {
                self.stage = Stage::Over(ended);
                true
            }
        }
    }

    // The same, after a reply wasn't written to its end.
    fn drop_next<J: Begins, R: Wait>(
        &mut self,
        rt: &R,
        shared: &Shared<B>,
        between: &Between,
    ) -> bool
        requires begun { IsBegun J.begun shared.now between.now }
        requires keeps { KeepsTo B.legal K.written K.ended K.faults J.begun self.old }
        requires cut { self.old.stage ≡ stages.Cut }
        ensures { KeepsTo B.legal K.written K.ended K.faults J.begun self.new }
    {
        let _ = shared;
        let Some(message) = between.line.try_take(rt, &mut self.worker.side.pass) else {
            return false;
        };
        match message {
            Message::Command(command) => {
                between
                    .spares
                    .give(rt, &mut self.worker.side.spare_pass, command);
                true
            }
            Message::End(_) => {
                self.stage = Stage::CutOver;
                true
            }
        }
    }

    // Takes up all that is left, once the last message was sent, and answers a bad size.
    pub fn finish<J: Begins, G: Gate, R: Wait>(
        &mut self,
        rt: &R,
        shared: &Shared<B>,
        gate: &G,
        between: &Between,
    ) -> Ending
        requires begun { IsBegun J.begun shared.now between.now }
        requires keeps { KeepsTo B.legal K.written K.ended K.faults J.begun self.old }
        ensures { FinishesTo B.legal K.written K.ended K.faults result J.begun self.new.worker }
    {
        for _ in rt.forever() {
            match self.stage {
                Stage::Over(ended) => return self.tell_end::<J>(ended),
                Stage::CutOver => return Ending::WriteFault,
                Stage::Going | Stage::Cut => {
                    self.take_up::<J, G, R>(rt, shared, gate, between);
                }
            }
        }
        unreachable!()
    }

    // Returns how a connection ends once all of its commands were answered.
    fn tell_end<J: Begins>(&mut self, ended: Ended) -> Ending
        requires keeps { KeepsTo B.legal K.written K.ended K.faults J.begun self.old }
        requires over { self.old.stage ≡ stages.Over ended }
        ensures { FinishesTo B.legal K.written K.ended K.faults result J.begun self.new.worker }
    {
        match ended {
            Ended::NoMore => Ending::EndOfInput,
            Ended::Fault => Ending::ReadFault,
            Ended::BadSize(size) => {
                if self.worker.tell_bad_size(&mut self.reply).is_err() {
                    self.worker.sink.end();
                    return Ending::WriteFault;
                }
                Ending::BadFrame(size)
            }
        }
    }
}
