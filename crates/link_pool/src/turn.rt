//! The turn at an acceptor: only the server that has it may accept the next connection.
ghost use Rattle.std.specs.Prelude.{◌≡◌, ◌++◌, ◌∷◌, [], false, true, IfSome, IfNone};
ghost use Rattle.link_pool.specs.Turns.{TurnAcceptedSince, is_over};

use accept_loop::Passed;
use ghost_lists::{Grows, grow};
use std::marker::{Brand, Model, PhantomData};
use std::snapshot::Snapshot;

/// With what accepting begins. Each call picks it.
pub(crate) trait Begins<S, K> {
    ghost use Rattle.link_pool.specs.Starts.{PoolStart};

    ghost begun: { PoolStart (S × K) };
}

impl<S, K> Begins<S, K> for Brand {
    ghost use Rattle.link_pool.specs.Starts.{nothing_begun};

    ghost begun = { nothing_begun };
}

/// The connections that were accepted, for contracts alone.
#[derive(Drop)]
pub(crate) struct Links<S, K> {
    of: PhantomData<(S, K)>,
}

impl<S, K> Model for Links<S, K> {
    ghost use Rattle.std.specs.Prelude.{List, []};

    ghost Value = { List (S × K) };

    ghost view = { λ _. [] };
}

impl<S, K> Grows<(S, K)> for Links<S, K> {
    ghost use Rattle.std.specs.Prelude.{◌++◌, ◌∷◌, []};

    ghost with = { λ links ends. links ++ ends ∷ [] };
}

impl<S, K> Links<S, K> {
    /// No connection was accepted.
    pub fn none() -> Snapshot<Links<S, K>>
        ensures { result.value ≡ [] }
    {
        Snapshot::of(&Links { of: PhantomData })
    }
}

/// How far accepting has come.
#[derive(Clone, Copy)]
pub(crate) enum Stage {
    /// More may come.
    Going,
    /// As many were accepted as were asked for, or all that came.
    Over,
    /// The acceptor failed, and no more are accepted.
    Failed,
}

impl Stage {
    /// Whether no more are accepted.
    pub fn is_over(self) -> bool
        ensures { result ≡ is_over self }
    {
        match self {
            Stage::Going => false,
            Stage::Over => true,
            Stage::Failed => true,
        }
    }
}

/// The turn at an acceptor.
#[derive(Drop)]
pub(crate) struct Turn<A, S, K> {
    pub acceptor: A,
    // How many connections may still be accepted.
    pub left: u32,
    pub stage: Stage,
    pub accepted: Snapshot<Links<S, K>>,
}

/// Accepts the next connection, if one may still be accepted and one comes.
pub(crate) fn accept_next<A: Passed, J: Begins<A::In, A::Out>>(
    turn: &mut Turn<A, A::In, A::Out>,
) -> Option<(A::In, A::Out)>
    requires kept { TurnAcceptedSince A.coming A.faults A.name J.begun turn.old }
    ensures kept { TurnAcceptedSince A.coming A.faults A.name J.begun turn.new }
    ensures some { IfSome result
        (λ ends. turn.new.accepted.value ≡ turn.old.accepted.value ++ ends ∷ []) }
    ensures going { IfSome result (λ _. is_over turn.new.stage ≡ false) }
    ensures none { IfNone result
        ((turn.new.accepted.value ≡ turn.old.accepted.value)
        × (is_over turn.new.stage ≡ true)) }
{
    if turn.stage.is_over() {
        return None;
    }
    if turn.left == 0 {
        turn.stage = Stage::Over;
        return None;
    }
    match turn.acceptor.next_link() {
        Ok(Some(ends)) => {
            turn.left -= 1;
            grow(&mut turn.accepted, &ends);
            Some(ends)
        }
        Ok(None) => {
            turn.stage = Stage::Over;
            None
        }
        Err(_) => {
            turn.stage = Stage::Failed;
            None
        }
    }
}
