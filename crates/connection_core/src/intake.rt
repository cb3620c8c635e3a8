//! Where a connection's bytes are pulled to, and cut into frames.
ghost use Rattle.std.specs.Prelude.{◌≡◌, ◌≤◌, [], vec_len, IfOk};
ghost use Rattle.connection_core.specs.Rounds.{HasNoFrame, IsRound, RoundCounts};

use crate::message::Ended;
use link_port::{Failed, Source};
use std::alloc::{AllocError, Global};
use tab_bytes::Buffer;
use tab_frame::{Frame, Framer};

// How many bytes are pulled at once, at most. A framer that gives out no frame has room for them.
const BLOCK_BYTES: usize = 4096;

// What came of one round.
#[derive(Clone, Copy)]
pub(crate) enum Round {
    // A command, whose bytes were given out.
    Command,
    // A cancel frame.
    Cancel,
    // Bytes were pulled, which may be only a part of a frame.
    Pulled,
    // No byte has come yet.
    Nothing,
    // No more commands come.
    End(Ended),
}

// Where bytes are pulled to, and what was pulled and not given out.
#[derive(Drop)]
pub(crate) struct Intake {
    pub framer: Framer,
    pub block: Vec<u8>,
    // Whether the last pull left room in the block, and so took all that had come.
    pub is_drained: bool,
    ghost sized: { vec_len block ≡ 4096 },
}

impl Intake {
    // It has pulled nothing. It fails only for want of memory, and takes none later.
    pub fn new(alloc: Global) -> Result<Intake, AllocError>
        ensures { IfOk result (λ intake. intake.framer ≡ []) }
    {
        Ok(Intake {
            framer: Framer::new(alloc)?,
            block: vec![in alloc; 0; BLOCK_BYTES]?,
            is_drained: false,
        })
    }

    // Gives out the next frame of what was pulled, and where there is none pulls once. If `ready`
    // is set, it pulls what has come, and returns `Nothing` if nothing has; else it waits for at
    // least one byte. A look right after a pull that took all that had come is spared.
    pub fn next<S: Source>(&mut self, source: &mut S, frame: &mut Buffer, ready: bool) -> Round
        ensures round { IsRound result (S.left source.old) (S.left source.new)
            self.old.framer self.new.framer frame.new }
        ensures counts { RoundCounts result (S.faults source.old) (S.faults source.new) }
    {
        match self.framer.next(frame) {
            Frame::Command => Round::Command,
            Frame::Cancel => Round::Cancel,
            Frame::BadSize(size) => Round::End(Ended::BadSize(size)),
            Frame::NotYet if ready && self.is_drained => {
                self.is_drained = false;
                Round::Nothing
            }
            Frame::NotYet if ready => self.pull_ready(source),
            Frame::NotYet => self.pull(source),
        }
    }

    // Pulls once what has come, where no whole frame and no bad size is there.
    fn pull_ready<S: Source>(&mut self, source: &mut S) -> Round
        requires { HasNoFrame self.old.framer }
        ensures round { (frame : _) → IsRound result (S.left source.old) (S.left source.new)
            self.old.framer self.new.framer frame }
        ensures counts { RoundCounts result (S.faults source.old) (S.faults source.new) }
    {
        match source.pull_ready(&mut self.block) {
            Err(Failed) => Round::End(Ended::Fault),
            Ok(None) => Round::Nothing,
            Ok(Some(0)) => Round::End(Ended::NoMore),
            Ok(Some(came)) => {
                self.is_drained = came < BLOCK_BYTES;
                self.framer.feed(&self.block[..came]);
                Round::Pulled
            }
        }
    }

    // The same, once some bytes have come.
    fn pull<S: Source>(&mut self, source: &mut S) -> Round
        requires { HasNoFrame self.old.framer }
        ensures round { (frame : _) → IsRound result (S.left source.old) (S.left source.new)
            self.old.framer self.new.framer frame }
        ensures counts { RoundCounts result (S.faults source.old) (S.faults source.new) }
    {
        match source.pull(&mut self.block) {
            Err(Failed) => Round::End(Ended::Fault),
            Ok(0) => Round::End(Ended::NoMore),
            Ok(count) => {
                self.is_drained = count < BLOCK_BYTES;
                self.framer.feed(&self.block[..count]);
                Round::Pulled
            }
        }
    }
}
