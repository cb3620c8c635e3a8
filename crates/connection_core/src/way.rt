//! The way on which the duty goes from hand to hand.
ghost use Rattle.std.specs.Prelude.{◌≡◌, IfOk, IfSome};
ghost use Rattle.crossbeam_channel.specs.Claims.{IsSeatAt};
ghost use Rattle.crossbeam_channel.specs.Ends.{sends_on, receives_on};

use crate::duty::Duty;
use broker_lock::Recorded;
use crossbeam_channel::protocol::{Lesson, Outcome, Protocol, Split};
use crossbeam_channel::{Pass, RuledReceiver, RuledSender, bounded_with};
use link_port::Sink;
use std::alloc::{AllocError, Global};
use std::marker::{Brand, PhantomData};
use std::sync::Wait;

// The most that is on a way: the duty, and that there is nothing more to be done.
const WAY_ITEMS: usize = 2;

/// With what a connection begins, for proofs alone. `serve_link` picks it where it calls
/// `serve_fitted` at `Brand`; what stands for `Brand` below is never used there.
pub(crate) trait Begins {
    ghost use Rattle.std.specs.Prelude.{Option};
    ghost use Rattle.connection_core.specs.Keeps.{Start};

    ghost begun: { Option Start };
}

impl Begins for Brand {
    ghost use Rattle.std.specs.Prelude.{None};

    ghost begun = { None };
}

// What goes on a way.
#[derive(Drop)]
pub(crate) enum Handed<B, K: Drop> {
    // The duty.
    Over(Duty<B, K>),
    // There is nothing more to be done.
    Stop,
}

/// The rule of a way: a duty that is on it was done so far as it should be.
pub(crate) struct Kept<J> {
    of: PhantomData<J>,
}

impl<B: Recorded, K: Sink + Drop, J: Begins> Protocol<Handed<B, K>, ()> for Kept<J> {
    ghost use Rattle.std.specs.Prelude.{All};
    ghost use Rattle.connection_core.specs.Handing.{KeepsHanded};

    ghost holds = { λ items views. All (KeepsHanded B.legal K.written K.ended K.faults J.begun)
        items };

    ghost first = { tt };
}

impl<B: Recorded, K: Sink + Drop, J: Begins> Outcome<Handed<B, K>, ()> for Kept<J> {
    ghost use Rattle.connection_core.specs.Handing.{KeepsHanded};

    ghost then = { λ v x w. KeepsHanded B.legal K.written K.ended K.faults J.begun x };
}

impl<B: Recorded, K: Sink + Drop, J: Begins> Lesson<Handed<B, K>, ()> for Kept<J> {
    ghost use Rattle.std.specs.Prelude.{⊤};

    ghost fact = { λ v items. ⊤ };
}

/// Both hands have the same pass.
struct Alike;

impl Split<()> for Alike {
    ghost left = { λ v. v };

    ghost right = { λ v. v };
}

/// What a hand shows to use a way.
pub(crate) type WayPass<B, K> = Pass<Handed<B, K>, ()>;

// A way in one direction.
#[derive(Drop)]
pub(crate) struct Way<B: Recorded, K: Sink + Drop, J: Begins> {
    pub sender: RuledSender<Handed<B, K>, (), Kept<J>>,
    receiver: RuledReceiver<Handed<B, K>, (), Kept<J>>,
    ghost one: { receives_on receiver ≡ sends_on sender },
}

impl<B: Recorded, K: Sink + Drop, J: Begins> Way<B, K, J> {
    ghost use Rattle.connection_core.specs.Handing.{KeepsHanded};

    // A way with nothing on it, with a pass for each hand. It fails only for want of memory, and
    // takes none later.
    pub fn new(alloc: Global) -> Result<(Way<B, K, J>, WayPass<B, K>, WayPass<B, K>), AllocError>
        ensures one { IfOk result (λ r. IsSeatAt (sends_on r.0.sender) r.1) }
        ensures other { IfOk result (λ r. IsSeatAt (sends_on r.0.sender) r.2) }
    {
        let (sender, receiver, mut one) = bounded_with(alloc, WAY_ITEMS)?;
        let other = sender.another::<Alike>(&mut one);
        Ok((Way { sender, receiver }, one, other))
    }

    // Puts this on the way. There is room.
    pub fn give<R: Wait>(&self, rt: &R, pass: &mut WayPass<B, K>, handed: Handed<B, K>)
        requires way { IsSeatAt (sends_on self.now.sender) pass.old }
        requires kept { KeepsHanded B.legal K.written K.ended K.faults J.begun handed }
        ensures { IsSeatAt (sends_on self.now.sender) pass.new }
    {
        let mut handed = handed;
        for _ in rt.forever() {
            match self.sender.send_as::<Kept<J>, R>(rt, pass, handed) {
                Ok(()) => return,
                Err(refused) => handed = refused.into_inner(),
            }
        }
        unreachable!()
    }

    // Takes what is on the way, once there is something.
    pub fn take<R: Wait>(&self, rt: &R, pass: &mut WayPass<B, K>) -> Handed<B, K>
        requires { IsSeatAt (sends_on self.now.sender) pass.old }
        ensures way { IsSeatAt (sends_on self.now.sender) pass.new }
        ensures kept { KeepsHanded B.legal K.written K.ended K.faults J.begun result }
    {
        for _ in rt.forever() {
            if let Ok(handed) = self.receiver.recv_as::<Kept<J>, R>(rt, pass) {
                return handed;
            }
        }
        unreachable!()
    }

    // Takes what is on the way, where there is something.
    pub fn try_take<R: Wait>(&self, rt: &R, pass: &mut WayPass<B, K>) -> Option<Handed<B, K>>
        requires { IsSeatAt (sends_on self.now.sender) pass.old }
        ensures way { IsSeatAt (sends_on self.now.sender) pass.new }
        ensures kept { IfSome result
            (λ handed. KeepsHanded B.legal K.written K.ended K.faults J.begun handed) }
    {
        self.receiver.try_recv_as::<Kept<J>, R>(rt, pass).ok()
    }
}
