//! The way on which the turn at an acceptor goes from server to server.
ghost use Rattle.std.specs.Prelude.{◌≡◌, ◌<◌, IfOk, IfSome, IfNone};
ghost use mathlib.Core.List.{IsPrefix};
ghost use Rattle.crossbeam_channel.specs.Claims.{view, IsSeatAt};
ghost use Rattle.crossbeam_channel.specs.Ends.{sends_on, receives_on};
ghost use Rattle.link_pool.specs.Hands.{HasNoTurn, WeighAlike, both_of, first_view, handed_on};
ghost use Rattle.link_pool.specs.Hands.{kept_back, with_more, with_turn, without_turn};
ghost use Rattle.link_pool.specs.Turns.{TurnAcceptedSince};

use crate::idle::Idle;
use crate::turn::{Begins, Turn, accept_next};
use accept_loop::Passed;
use crossbeam_channel::protocol::{Join, Lesson, Outcome, Protocol, Split};
use crossbeam_channel::{Pass, RuledReceiver, RuledSender, bounded_with};
use std::alloc::{AllocError, Global};
use std::marker::{Model, PhantomData};
use std::sync::Wait;

/// What a hand accepted. No value of it is made.
pub(crate) struct Accepting<S, K> {
    of: PhantomData<(S, K)>,
}

impl<S, K> Model for Accepting<S, K> {
    ghost use Rattle.link_pool.specs.Hands.{HandView, first_view};

    ghost Value = { HandView (S × K) };

    ghost view = { λ _. first_view };
}

/// The rule of a way: what all hands accepted is what was accepted.
pub(crate) struct Fair<J> {
    of: PhantomData<J>,
}

impl<A: Passed, J: Begins<A::In, A::Out>> Protocol<Turn<A, A::In, A::Out>, Accepting<A::In, A::Out>>
    for Fair<J> {
    ghost use Rattle.link_pool.specs.Hands.{IsFair, first_view};
    ghost use Rattle.link_pool.specs.Turns.{TurnAcceptedSince, accepted_of};

    ghost holds = { IsFair accepted_of (TurnAcceptedSince A.coming A.faults A.name J.begun) };

    ghost first = { first_view };
}

/// The turn is taken.
impl<A: Passed, J: Begins<A::In, A::Out>> Outcome<Turn<A, A::In, A::Out>, Accepting<A::In, A::Out>>
    for Fair<J> {
    ghost use Rattle.link_pool.specs.Hands.{Takes};
    ghost use Rattle.link_pool.specs.Turns.{TurnAcceptedSince, accepted_of};

    ghost then = { Takes accepted_of (TurnAcceptedSince A.coming A.faults A.name J.begun) };
}

impl<A: Passed, J: Begins<A::In, A::Out>> Lesson<Turn<A, A::In, A::Out>, Accepting<A::In, A::Out>>
    for Fair<J> {
    ghost use Rattle.std.specs.Prelude.{⊤};

    ghost fact = { λ v items. ⊤ };
}

/// The turn is given back.
struct Gives;

impl<A, S, K> Outcome<Turn<A, S, K>, Accepting<S, K>> for Gives {
    ghost use Rattle.std.specs.Prelude.{◌≡◌};
    ghost use Rattle.link_pool.specs.Hands.{without_turn};

    ghost then = { λ v turn w. w ≡ without_turn v turn.accepted.value };
}

impl<A, S, K> Lesson<Turn<A, S, K>, Accepting<S, K>> for Gives {
    ghost use Rattle.std.specs.Prelude.{⊤};

    ghost fact = { λ v items. ⊤ };
}

/// What a hand accepted goes with a new hand.
struct HandedOn;

impl<S, K> Split<Accepting<S, K>> for HandedOn {
    ghost use Rattle.link_pool.specs.Hands.{handed_on, kept_back};

    ghost left = { kept_back };

    ghost right = { handed_on };
}

/// What two hands accepted.
struct Both;

impl<S, K> Join<Accepting<S, K>> for Both {
    ghost use Rattle.link_pool.specs.Hands.{both_of, spent_view};

    ghost both = { both_of };

    ghost spent = { spent_view };
}

/// What a server shows to use a way.
pub(crate) type Hand<A, S, K> = Pass<Turn<A, S, K>, Accepting<S, K>>;

/// The way. There is one turn, on it or with one who has a hand.
#[derive(Drop)]
pub(crate) struct Way<A: Passed, J: Begins<A::In, A::Out>> {
    pub sender: RuledSender<Turn<A, A::In, A::Out>, Accepting<A::In, A::Out>, Fair<J>>,
    receiver: RuledReceiver<Turn<A, A::In, A::Out>, Accepting<A::In, A::Out>, Fair<J>>,
    pub idle: Idle,
    ghost one: { receives_on receiver ≡ sends_on sender },
}

impl<A: Passed, J: Begins<A::In, A::Out>> Way<A, J> {
    // A way with nothing on it, and a hand with all parts, which has to give the turn. It fails
    // only for want of memory, and takes none later.
    pub fn with_first_hand(alloc: Global) -> Result<(Way<A, J>, Hand<A, A::In, A::Out>), AllocError>
        ensures hand { IfOk result (λ r. IsSeatAt (sends_on r.0.sender) r.1
            × (view r.1 ≡ first_view)) }
    {
        let (sender, receiver, hand) = bounded_with(alloc, 1)?;
        let idle = Idle::nobody();
        Ok((
            Way {
                sender,
                receiver,
                idle,
            },
            hand,
        ))
    }

    // Splits off a hand that accepted what this one did. This one has accepted nothing then.
    pub fn split(&self, hand: &mut Hand<A, A::In, A::Out>) -> Hand<A, A::In, A::Out>
        requires way { IsSeatAt (sends_on self.now.sender) hand.old }
        requires parts { 1 < (view hand.old).parts }
        ensures way { IsSeatAt (sends_on self.now.sender) hand.new }
        ensures left { view hand.new ≡ kept_back (view hand.old) }
        ensures given_way { IsSeatAt (sends_on self.now.sender) result }
        ensures given { view result ≡ handed_on (view hand.old) }
    {
        self.sender.another::<HandedOn>(hand)
    }

    // Joins two hands: the hand accepted what both did then.
    pub fn join(&self, hand: &mut Hand<A, A::In, A::Out>, ended: Hand<A, A::In, A::Out>)
        requires way { IsSeatAt (sends_on self.now.sender) hand.old }
        requires ended { IsSeatAt (sends_on self.now.sender) ended }
        requires parts { 0 < (view hand.old).parts }
        ensures way { IsSeatAt (sends_on self.now.sender) hand.new }
        ensures both { view hand.new ≡ both_of (view hand.old) (view ended) }
    {
        self.sender.absorb::<Both>(hand, ended);
    }

    // Gives the turn back. There is room.
    pub fn give<R: Wait>(
        &self,
        rt: &R,
        hand: &mut Hand<A, A::In, A::Out>,
        turn: Turn<A, A::In, A::Out>,
    )
        requires way { IsSeatAt (sends_on self.now.sender) hand.old }
        requires parts { 0 < (view hand.old).parts }
        requires has { (view hand.old).turns ≡ 1 }
        requires more { IsPrefix (view hand.old).held turn.accepted.value }
        requires kept { TurnAcceptedSince A.coming A.faults A.name J.begun turn }
        ensures way { IsSeatAt (sends_on self.now.sender) hand.new }
        ensures given { view hand.new ≡ without_turn (view hand.old) turn.accepted.value }
    {
        let mut turn = turn;
        for _ in rt.forever() {
            match self.sender.send_as::<Gives, R>(rt, hand, turn) {
                Ok(()) => return,
                Err(refused) => turn = refused.into_inner(),
            }
        }
        unreachable!()
    }

    // Takes the turn, once it is there. The hand with all parts learns that what it accepted is
    // what was accepted.
    pub fn take<R: Wait>(&self, rt: &R, hand: &mut Hand<A, A::In, A::Out>) -> Turn<A, A::In, A::Out>
        requires way { IsSeatAt (sends_on self.now.sender) hand.old }
        requires rests { HasNoTurn (view hand.old) }
        ensures way { IsSeatAt (sends_on self.now.sender) hand.new }
        ensures kept { TurnAcceptedSince A.coming A.faults A.name J.begun result }
        ensures turn { view hand.new ≡ with_turn (view hand.old) result.accepted.value }
        ensures all { (view hand.old).parts ≡ 1024
            → WeighAlike (view hand.old).mine result.accepted.value }
    {
        for _ in rt.forever() {
            if let Ok(turn) = self.receiver.recv_as::<Fair<J>, R>(rt, hand) {
                return turn;
            }
        }
        unreachable!()
    }

    // Waits for the turn, and accepts the next connection, if one may still be accepted and one
    // comes.
    pub fn next<R: Wait>(
        &self,
        rt: &R,
        hand: &mut Hand<A, A::In, A::Out>,
    ) -> Option<(A::In, A::Out)>
        requires way { IsSeatAt (sends_on self.now.sender) hand.old }
        requires rests { HasNoTurn (view hand.old) }
        ensures way { IsSeatAt (sends_on self.now.sender) hand.new }
        ensures some { IfSome result (λ ends. view hand.new ≡ with_more (view hand.old) ends) }
        ensures none { IfNone result (view hand.new ≡ view hand.old) }
    {
        let mut turn = self.take(rt, hand);
        let ends = accept_next::<A, J>(&mut turn);
        self.give(rt, hand, turn);
        ends
    }
}
