//! A seat at a lock's table: what it knows, the rule of the table, and what each step tells.
use crate::serves::Recorded;
use atomic_table::{Join, Play, Split, TableRule};
use std::marker::{Model, PhantomData};
use std::snapshot::Snapshot;

/// What a seat knows. No value of it is made.
pub struct Standing {
    of: PhantomData<()>,
}

impl Model for Standing {
    ghost use Rattle.broker_lock.specs.View.{SeatView, spent_view};

    ghost Value = { SeatView };

    ghost view = { λ _. spent_view };
}

/// The rule of the table.
pub struct OneHistory;

impl<B: Recorded> TableRule<Option<B>, Standing, Snapshot<B>> for OneHistory {
    ghost use Rattle.broker_lock.specs.View.{first_view};
    ghost use Rattle.broker_lock.specs.Turn.{HasOneHistory};

    ghost holds = { λ key. HasOneHistory B.history B.fixed B.wrong };

    ghost first = { λ key. first_view (B.fixed key.value) };
}

/// A seat takes the turn, where it is free.
pub struct TakeTurn;

impl<B: Recorded> Play<Option<B>, Standing> for TakeTurn {
    ghost use Rattle.broker_lock.specs.Turn.{takes_turn};

    ghost then = { takes_turn B.history B.fixed B.wrong };
}

/// The history has what a call added.
pub struct RaiseCount;

impl<B: Recorded> Play<Option<B>, Standing> for RaiseCount {
    ghost use Rattle.broker_lock.specs.Turn.{raises_count};

    ghost then = { raises_count B.history B.wrong };
}

/// The turn is free again.
pub struct GiveBack;

impl<B: Recorded> Play<Option<B>, Standing> for GiveBack {
    ghost use Rattle.broker_lock.specs.Turn.{gives_back};

    ghost then = { gives_back };
}

/// A seat that was joined with another looks at the history again.
pub struct Settle;

impl<B: Recorded> Play<Option<B>, Standing> for Settle {
    ghost use Rattle.broker_lock.specs.Turn.{settles};

    ghost then = { settles };
}

/// One part goes to a new seat.
pub struct OnePart;

impl Split<Standing> for OnePart {
    ghost use Rattle.broker_lock.specs.Turn.{left_with, split_off};

    ghost left = { left_with };

    ghost right = { split_off };
}

/// All parts of another seat come to a seat.
pub struct AllParts;

impl Join<Standing> for AllParts {
    ghost use Rattle.broker_lock.specs.Turn.{together};
    ghost use Rattle.broker_lock.specs.View.{spent_view};

    ghost both = { together };

    ghost spent = { spent_view };
}
