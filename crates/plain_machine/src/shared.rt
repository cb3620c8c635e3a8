ghost use Rattle.std.specs.Prelude.{◌≤◌, length};
ghost use Rattle.tab_spec.specs.declared.TheConstants.{SESSION_NUMBERS};

use crate::left::Left;
use crate::sessions::Owned;
use tab_values::Persist;

// What all clients share: what is kept, how many sessions there may be, the sessions by number,
// which of them were left, and which contexts may be handed out yet.
#[derive(Drop)]
pub(crate) struct Shared {
    pub(crate) persist: Persist,
    // How many sessions may be active.
    pub(crate) most: u8,
    // As many as there are session numbers.
    pub(crate) sessions: Vec<Option<Owned>>,
    pub(crate) left: Left,
    // The least sequence under which the next context of an object, and of a session, may be handed
    // out.
    pub(crate) object_sequence: u64,
    pub(crate) session_sequence: u64,
    ghost numbers: { length sessions.items ≤ SESSION_NUMBERS },
}
