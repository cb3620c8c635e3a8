//! Both hands of a connection: its reader, which does the worker's duty itself where nothing keeps
//! it waiting, and a helper in a thread of its own, which does it where something may. Over a
//! socket and with an open gate the reader does all, and no helper is made.
//!
//! No message is left lying. The reader counts a message before it sends it, and it is taken off
//! the count once its reply is written. If the reader counted others before it and hasn't the duty,
//! the helper is still at work and takes this one too. If it counted none, the duty is home or on
//! its way, and the reader waits for it. A helper that finds the line empty looks again: the reader
//! has counted and not sent yet. The helper brings the duty home when it takes off the last one.
ghost use Rattle.std.specs.Prelude.{◌≡◌, ◌<◌, length, IfOk};
ghost use Rattle.tab_spec.specs.Count.{largest_count};
ghost use Rattle.crossbeam_channel.specs.Claims.{view};
ghost use Rattle.connection_core.specs.declared.message.Message.TheVariants as messages;
ghost use Rattle.connection_core.specs.Duties.{KeepsTo};
ghost use Rattle.connection_core.specs.Hands.{IsHandOf, IsKeeper, MaySend};
ghost use Rattle.connection_core.specs.Keeps.{IsBegun};
ghost use Rattle.connection_core.specs.Line.{with_sent};

use crate::between::{Between, Side};
use crate::duty::Duty;
use crate::message::Message;
use crate::way::{Begins, Handed, Way, WayPass};
use broker_lock::{Recorded, Serves, Shared};
use link_port::{Gate, Sink};
use std::alloc::{AllocError, Global};
use std::sync::Wait;
use std::thread;
use tab_bytes::Buffer;

// What both hands use at once. The duty goes out to the helper, and comes home.
#[derive(Drop)]
pub(crate) struct Link<B: Recorded, K: Sink + Drop, J: Begins> {
    pub between: Between,
    pub out: Way<B, K, J>,
    pub home: Way<B, K, J>,
}

// What a hand shows to use both ways.
#[derive(Drop)]
pub(crate) struct Hand<B, K: Drop> {
    pub out: WayPass<B, K>,
    pub home: WayPass<B, K>,
}

// The reader's hand.
#[derive(Drop)]
pub(crate) struct Keeper<B, K: Drop> {
    pub hand: Hand<B, K>,
    // The duty, where the reader has it.
    pub duty: Option<Duty<B, K>>,
}

impl<B: Recorded, K: Sink + Drop, J: Begins> Link<B, K, J> {
    // With the reader's hand and the helper's. It fails only for want of memory, and takes none
    // later.
    pub fn new(
        alloc: Global,
        between: Between,
    ) -> Result<(Link<B, K, J>, Hand<B, K>, Hand<B, K>), AllocError>
        ensures between { IfOk result (λ r. r.0.between ≡ between) }
        ensures reader { IfOk result (λ r. IsHandOf r.0 r.1) }
        ensures helper { IfOk result (λ r. IsHandOf r.0 r.2) }
    {
        let (out, reader_out, helper_out) = Way::new(alloc)?;
        let (home, reader_home, helper_home) = Way::new(alloc)?;
        let link = Link { between, out, home };
        let reader = Hand {
            out: reader_out,
            home: reader_home,
        };
        let helper = Hand {
            out: helper_out,
            home: helper_home,
        };
        Ok((link, reader, helper))
    }

    // Waits for the duty, which is on its way home or will be.
    fn take_home<R: Wait>(&self, rt: &R, hand: &mut Hand<B, K>) -> Duty<B, K>
        requires { IsHandOf self.now hand.old }
        ensures hand { IsHandOf self.now hand.new }
        ensures kept { KeepsTo B.legal K.written K.ended K.faults J.begun result }
    {
        for _ in rt.forever() {
            if let Handed::Over(duty) = self.home.take(rt, &mut hand.home) {
                return duty;
            }
        }
        unreachable!()
    }
}

impl<B: Serves, K: Sink + Drop> Keeper<B, K> {
    // Sends a command, and takes it up if the reader has the duty then.
    pub fn send<J: Begins, G: Gate, R: Wait>(
        &mut self,
        rt: &R,
        shared: &Shared<B>,
        gate: &G,
        link: &Link<B, K, J>,
        side: &mut Side,
        command: Buffer,
        alone: bool,
    )
        requires may_send { MaySend B.legal K.written K.ended K.faults J.begun shared.now link.now
            self.old side.old }
        requires few { length (view side.old.pass).sent < largest_count }
        ensures may_send { MaySend B.legal K.written K.ended K.faults J.begun shared.now link.now
            self.new side.new }
        ensures sent { view side.new.pass
            ≡ with_sent (view side.old.pass) (messages.Command command) }
        ensures seat { side.new.seat ≡ side.old.seat }
    {
        self.make_way(rt, link, alone);
        link.between
            .line
            .send(rt, &mut side.pass, Message::Command(command));
        self.take_up(rt, shared, gate, link);
    }

    // Counts the next message before it is sent, and makes sure that it is taken up: by the reader
    // if it may do so alone, and by the helper if not.
    pub fn make_way<J: Begins, R: Wait>(&mut self, rt: &R, link: &Link<B, K, J>, alone: bool)
        requires { IsKeeper B.legal K.written K.ended K.faults J.begun link.now self.old }
        ensures { IsKeeper B.legal K.written K.ended K.faults J.begun link.now self.new }
    {
        let waiting = link.between.count_in();
        self.bring_home(rt, link, waiting);
        if !alone {
            self.give_out(rt, link);
        }
    }

    // Takes the duty home if no message waited before this one: the helper brings it then.
    fn bring_home<J: Begins, R: Wait>(&mut self, rt: &R, link: &Link<B, K, J>, waiting: u64)
        requires { IsKeeper B.legal K.written K.ended K.faults J.begun link.now self.old }
        ensures { IsKeeper B.legal K.written K.ended K.faults J.begun link.now self.new }
    {
        if waiting > 0 || self.duty.is_some() {
            return;
        }
        self.duty = Some(link.take_home(rt, &mut self.hand));
    }

    // Gives the duty to the helper, if the reader has it.
    fn give_out<J: Begins, R: Wait>(&mut self, rt: &R, link: &Link<B, K, J>)
        requires { IsKeeper B.legal K.written K.ended K.faults J.begun link.now self.old }
        ensures { IsKeeper B.legal K.written K.ended K.faults J.begun link.now self.new }
    {
        let Some(duty) = self.duty.take() else {
            return;
        };
        link.out.give(rt, &mut self.hand.out, Handed::Over(duty));
    }

    // Takes up the next message, if the reader has the duty.
    fn take_up<J: Begins, G: Gate, R: Wait>(
        &mut self,
        rt: &R,
        shared: &Shared<B>,
        gate: &G,
        link: &Link<B, K, J>,
    )
        requires begun { IsBegun J.begun shared.now link.now.between }
        requires keeper { IsKeeper B.legal K.written K.ended K.faults J.begun link.now self.old }
        ensures { IsKeeper B.legal K.written K.ended K.faults J.begun link.now self.new }
    {
        let Some(mut duty) = self.duty.take() else {
            return;
        };
        if duty.take_up::<J, G, R>(rt, shared, gate, &link.between) {
            link.between.count_out();
        }
        self.duty = Some(duty);
    }

    // Returns the duty, once the last message was sent, and makes the helper stop. The helper may
    // have had the duty till now. If it never began, for want of a thread, the duty is still on its
    // way out.
    pub fn into_duty<J: Begins, R: Wait>(self, rt: &R, link: &Link<B, K, J>) -> Duty<B, K>
        requires { IsKeeper B.legal K.written K.ended K.faults J.begun link.now self }
        ensures { KeepsTo B.legal K.written K.ended K.faults J.begun result }
    {
        let mut keeper = self;
        let duty = keeper.find_duty(rt, link);
        link.out.give(rt, &mut keeper.hand.out, Handed::Stop);
        duty
    }

    // The duty, wherever it is.
    fn find_duty<J: Begins, R: Wait>(&mut self, rt: &R, link: &Link<B, K, J>) -> Duty<B, K>
        requires { IsKeeper B.legal K.written K.ended K.faults J.begun link.now self.old }
        ensures hand { IsHandOf link.now self.new.hand }
        ensures kept { KeepsTo B.legal K.written K.ended K.faults J.begun result }
    {
        if let Some(duty) = self.duty.take() {
            return duty;
        }
        if let Some(Handed::Over(duty)) = link.out.try_take(rt, &mut self.hand.out) {
            return duty;
        }
        link.take_home(rt, &mut self.hand)
    }
}

// Runs the helper: each time that it has the duty it takes up all that waits.
pub(crate) fn help<B: Serves, K: Sink + Drop, J: Begins, G: Gate, R: Wait>(
    rt: &R,
    shared: &Shared<B>,
    gate: &G,
    link: &Link<B, K, J>,
    hand: Hand<B, K>,
)
    requires begun { IsBegun J.begun shared.now link.now.between }
    requires hand { IsHandOf link.now hand }
{
    let mut hand = hand;
    for _ in rt.forever() {
        match link.out.take(rt, &mut hand.out) {
            Handed::Over(duty) => {
                let duty = take_all::<B, K, J, G, R>(rt, shared, gate, &link.between, duty);
                link.home.give(rt, &mut hand.home, Handed::Over(duty));
            }
            Handed::Stop => return,
        }
    }
    unreachable!()
}

// Takes up all that waits.
fn take_all<B: Serves, K: Sink + Drop, J: Begins, G: Gate, R: Wait>(
    rt: &R,
    shared: &Shared<B>,
    gate: &G,
    between: &Between,
    duty: Duty<B, K>,
) -> Duty<B, K>
    requires begun { IsBegun J.begun shared.now between.now }
    requires keeps { KeepsTo B.legal K.written K.ended K.faults J.begun duty }
    ensures { KeepsTo B.legal K.written K.ended K.faults J.begun result }
{
    let mut duty = duty;
    for _ in rt.forever() {
        if duty.take_up::<J, G, R>(rt, shared, gate, between) {
            if between.count_out() {
                return duty;
            }
        } else {
            thread::yield_now();
        }
    }
    unreachable!()
}
