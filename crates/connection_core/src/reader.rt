//! The side of a connection that reads, and does the worker's duty itself where it may.
ghost use Rattle.std.specs.Prelude.{◌≡◌, ◌<◌, ◌≤◌, [], length};
ghost use Rattle.tab_spec.specs.Count.{largest_count};
ghost use Rattle.crossbeam_channel.specs.Claims.{view};
ghost use Rattle.connection_core.specs.declared.message.Message.TheVariants as messages;
ghost use Rattle.connection_core.specs.Duties.{KeepsTo};
ghost use Rattle.connection_core.specs.Hands.{HasReadAll, IsKeeper, MayRead, MaySend};
ghost use Rattle.connection_core.specs.Line.{with_held, with_sent};
ghost use Rattle.connection_core.specs.Rounds.{EndCounts, HasSent};
ghost use Rattle.connection_core.specs.Sides.{IsReaders};

use crate::between::Side;
use crate::duty::Duty;
use crate::hands::{Keeper, Link};
use crate::held::Held;
use crate::intake::{Intake, Round};
use crate::message::{Ended, Message};
use crate::way::Begins;
use broker_lock::{Serves, Shared};
use link_port::{Gate, Sink, Source};
use std::sync::Wait;
use tab_bytes::Buffer;

// A connection's source, the commands that came and weren't sent yet, and its side of what is
// shared with the worker.
#[derive(Drop)]
pub(crate) struct Reader<S> {
    pub source: S,
    pub intake: Intake,
    pub held: Held,
    pub side: Side,
}

impl<S: Source> Reader<S> {
    // Sends the commands that come, in order, and at each cancel raises the word to how many came
    // before it. Its last message says why no more come. While it may take commands up itself it
    // holds those that have come, and sends and takes up one where nothing more has come or no
    // more can be held. It ends with the duty.
    pub fn read<B: Serves, K: Sink + Drop, J: Begins, G: Gate, R: Wait>(
        &mut self,
        rt: &R,
        shared: &Shared<B>,
        gate: &G,
        link: &Link<B, K, J>,
        keeper: Keeper<B, K>,
        frame: Buffer,
    ) -> Duty<B, K>
        requires { MayRead B.legal K.written K.ended K.faults J.begun shared.now link.now keeper
            self.old }
        ensures reads { HasReadAll S.left S.faults link.now.between self.old self.new }
        ensures kept { KeepsTo B.legal K.written K.ended K.faults J.begun result }
    {
        let mut keeper = keeper;
        let ended = self.send_commands(rt, shared, gate, link, &mut keeper, frame);
        keeper.make_way(rt, link, true);
        link.between
            .line
            .send(rt, &mut self.side.pass, Message::End(ended));
        keeper.into_duty(rt, link)
    }

    // All but the last message.
    fn send_commands<B: Serves, K: Sink + Drop, J: Begins, G: Gate, R: Wait>(
        &mut self,
        rt: &R,
        shared: &Shared<B>,
        gate: &G,
        link: &Link<B, K, J>,
        keeper: &mut Keeper<B, K>,
        frame: Buffer,
    ) -> Ended
        requires { MayRead B.legal K.written K.ended K.faults J.begun shared.now link.now keeper.old
            self.old }
        ensures side { IsReaders link.now.between self.new.side }
        ensures sent { HasSent result (S.left self.old.source) (S.left self.new.source)
            (view self.new.side.pass).sent self.new.side.seat.raised }
        ensures few { length (view self.new.side.pass).sent < largest_count }
        ensures counts { EndCounts result (S.faults self.old.source) (S.faults self.new.source) }
        ensures keeper { IsKeeper B.legal K.written K.ended K.faults J.begun link.now keeper.new }
    {
        let mut frame = frame;
        let mut count = 0;
        for _ in rt.forever() {
            let alone = self.is_prompt(gate);
            let ready = !self.held.is_empty();
            match self.intake.next(&mut self.source, &mut frame, ready) {
                Round::Command => {
                    count += 1;
                    frame = keeper.put(
                        rt,
                        shared,
                        gate,
                        link,
                        &mut self.side,
                        &mut self.held,
                        frame,
                        alone,
                    );
                }
                Round::Cancel => link.between.word.raise(&mut self.side.seat, count),
                Round::Pulled => {}
                Round::Nothing => {
                    keeper.send_first(
                        rt,
                        shared,
                        gate,
                        link,
                        &mut self.side,
                        &mut self.held,
                        alone,
                    );
                }
                Round::End(ended) => {
                    keeper.send_held(
                        rt,
                        shared,
                        gate,
                        link,
                        &mut self.side,
                        &mut self.held,
                        alone,
                    );
                    return ended;
                }
            }
        }
        unreachable!()
    }

    // Whether it may take up commands itself: neither the gate nor a look for bytes keeps it
    // waiting.
    pub fn is_prompt<G: Gate>(&self, gate: &G) -> bool {
        gate.is_open() && self.source.is_prompt()
    }
}

impl<B: Serves, K: Sink + Drop> Keeper<B, K> {
    // Holds a command that came, where the reader may take it up itself, and else sends it. The
    // buffer for the next one.
    fn put<J: Begins, G: Gate, R: Wait>(
        &mut self,
        rt: &R,
        shared: &Shared<B>,
        gate: &G,
        link: &Link<B, K, J>,
        side: &mut Side,
        held: &mut Held,
        command: Buffer,
        alone: bool,
    ) -> Buffer
        requires may_send { MaySend B.legal K.written K.ended K.faults J.begun shared.now link.now
            self.old side.old }
        requires few { length (with_held (view side.old.pass) held.old).sent < largest_count }
        ensures may_send { MaySend B.legal K.written K.ended K.faults J.begun shared.now link.now
            self.new side.new }
        ensures sent { with_held (view side.new.pass) held.new
            ≡ with_sent (with_held (view side.old.pass) held.old) (messages.Command command) }
        ensures seat { side.new.seat ≡ side.old.seat }
    {
        if !alone {
            return self.send_behind(rt, shared, gate, link, side, held, command, alone);
        }
        for _ in rt.forever() {
            if held.push(&command) {
                return command;
            }
            if held.is_empty() {
                return self.send_behind(rt, shared, gate, link, side, held, command, alone);
            }
            self.send_first(rt, shared, gate, link, side, held, alone);
        }
        unreachable!()
    }

    // Sends a command behind those that are held. The buffer for the next one.
    fn send_behind<J: Begins, G: Gate, R: Wait>(
        &mut self,
        rt: &R,
        shared: &Shared<B>,
        gate: &G,
        link: &Link<B, K, J>,
        side: &mut Side,
        held: &mut Held,
        command: Buffer,
        alone: bool,
    ) -> Buffer
        requires may_send { MaySend B.legal K.written K.ended K.faults J.begun shared.now link.now
            self.old side.old }
        requires few { length (with_held (view side.old.pass) held.old).sent < largest_count }
        ensures may_send { MaySend B.legal K.written K.ended K.faults J.begun shared.now link.now
            self.new side.new }
        ensures sent { with_held (view side.new.pass) held.new
            ≡ with_sent (with_held (view side.old.pass) held.old) (messages.Command command) }
        ensures seat { side.new.seat ≡ side.old.seat }
    {
        self.send_held(rt, shared, gate, link, side, held, alone);
        self.send(rt, shared, gate, link, side, command, alone);
        link.between.spares.take(rt, &mut side.spare_pass)
    }

    // Sends all commands that are held.
    fn send_held<J: Begins, G: Gate, R: Wait>(
        &mut self,
        rt: &R,
        shared: &Shared<B>,
        gate: &G,
        link: &Link<B, K, J>,
        side: &mut Side,
        held: &mut Held,
        alone: bool,
    )
        requires may_send { MaySend B.legal K.written K.ended K.faults J.begun shared.now link.now
            self.old side.old }
        requires few { length (with_held (view side.old.pass) held.old).sent ≤ largest_count }
        ensures may_send { MaySend B.legal K.written K.ended K.faults J.begun shared.now link.now
            self.new side.new }
        ensures sent { view side.new.pass ≡ with_held (view side.old.pass) held.old }
        ensures none { held.new ≡ [] }
        ensures seat { side.new.seat ≡ side.old.seat }
    {
        for _ in rt.forever() {
            if held.is_empty() {
                return;
            }
            self.send_first(rt, shared, gate, link, side, held, alone);
        }
        unreachable!()
    }

    // Sends the first of them, where there is one.
    fn send_first<J: Begins, G: Gate, R: Wait>(
        &mut self,
        rt: &R,
        shared: &Shared<B>,
        gate: &G,
        link: &Link<B, K, J>,
        side: &mut Side,
        held: &mut Held,
        alone: bool,
    )
        requires may_send { MaySend B.legal K.written K.ended K.faults J.begun shared.now link.now
            self.old side.old }
        requires few { length (with_held (view side.old.pass) held.old).sent ≤ largest_count }
        ensures may_send { MaySend B.legal K.written K.ended K.faults J.begun shared.now link.now
            self.new side.new }
        ensures sent { with_held (view side.new.pass) held.new
            ≡ with_held (view side.old.pass) held.old }
        ensures seat { side.new.seat ≡ side.old.seat }
    {
        if held.is_empty() {
            return;
        }
        let mut command = link.between.spares.take(rt, &mut side.spare_pass);
        held.pop(&mut command);
        self.send(rt, shared, gate, link, side, command, alone);
    }
}
