ghost use Rattle.std.specs.Prelude.{◌≡◌, ◌<◌, ◌&&◌, not, true};
ghost use Rattle.tab_spec.specs.declared.TheConstants.{CONTEXT_LIMIT};
ghost use Rattle.world_spec.specs.World as worlds;
ghost use Rattle.plain_machine.specs.Owners.{owners_of};
ghost use Rattle.plain_machine.specs.Picks.{is_nothing, lacks_number, may_have, starts_session};

use crate::sessions::{Owned, active_count, is_unused};
use fx_sessions::{can_start, check_start};
use history_spec::Pick;
use tab_spec::{CC_START_AUTH_SESSION, CONTEXT_LIMIT};
use tab_values::Persist;

// Whether there is no pick.
pub(crate) fn is_nothing(pick: Pick) -> bool
    ensures { result ≡ is_nothing pick }
{
    match pick {
        Pick::Nothing => true,
        Pick::Session(_) | Pick::Sequence(_) => false,
    }
}

// Whether a context may be handed out under this sequence.
pub(crate) fn may_hand_out(least: u64, sequence: u64) -> bool
    ensures may { result ≡ worlds.may_hand_out least sequence }
    ensures below { result ≡ true → sequence < CONTEXT_LIMIT }
{
    least <= sequence && sequence < CONTEXT_LIMIT
}

// Whether a command would start a session, and as many as there may be are active.
pub(crate) fn lacks_number(most: u8, sessions: &[Option<Owned>], code: u32, params: &[u8]) -> bool
    ensures { result ≡ lacks_number most (owners_of sessions.now) code params.now }
{
    code == CC_START_AUTH_SESSION
        && check_start(params).is_ok()
        && active_count(sessions) >= usize::from(most)
}

// Whether a command starts a session, where one more may be active.
fn starts_session(persist: &Persist, code: u32, params: &[u8]) -> bool
    ensures { result ≡ starts_session persist.now code params.now }
{
    code == CC_START_AUTH_SESSION && can_start(persist, params)
}

// Whether a command starts a session, where one more may be active or not.
pub(crate) fn is_started(lacks: bool, persist: &Persist, code: u32, params: &[u8]) -> bool
    ensures { result ≡ (not lacks && starts_session persist.now code params.now) }
{
    !lacks && starts_session(persist, code, params)
}

// Whether a command that has an effect alone may have this pick: one that starts a session has an
// unused number, and any other nothing.
pub(crate) fn may_have(starts: bool, sessions: &[Option<Owned>], pick: Pick) -> bool
    ensures { result ≡ may_have starts (owners_of sessions.now) pick }
{
    match pick {
        Pick::Nothing => !starts,
        Pick::Session(number) => starts && is_unused(sessions, number),
        Pick::Sequence(_) => false,
    }
}
