ghost use Rattle.std.specs.Prelude.{◌≡◌, ◌≤◌, None, Some, is_some, length, MatchOption};
ghost use Rattle.tab_spec.specs.declared.TheConstants.{SESSION_NUMBERS};
ghost use Rattle.history_spec.specs.declared.TheConstants.{CLIENT_OBJECTS};

use crate::sessions::{Owned, listed_session, owned_under, session_of};
use crate::table::{handle_from, held_count, held_under, is_full};
use fx_capability::{HeldSession, Holdings};
use tab_spec::{ContextLimits, PROFILE_CONTEXTS};
use tab_values::{Object, Session};
use tab_wire::Tables;

// What a client may name and is told of: its objects, and of the sessions of all clients its own.
#[derive(Clone, Copy)]
pub(crate) struct Seen<'a> {
    pub(crate) client: u32,
    pub(crate) places: &'a [Option<Object>],
    pub(crate) sessions: &'a [Option<Owned>],
    ghost few: { length places.now ≤ CLIENT_OBJECTS },
    ghost numbers: { length sessions.now ≤ SESSION_NUMBERS },
}

impl Seen<'_> {
    ghost use Rattle.tab_values.specs.Views.{object_of, session_of};
    ghost use Rattle.plain_machine.specs.Views.{object_seen, owned_seen, session_seen};

    // The object of a handle.
    pub(crate) fn object(&self, handle: u32) -> Option<&Object>
        ensures { MatchOption result
            (object_seen self.now handle ≡ None)
            (λ o. object_seen self.now handle ≡ Some (object_of o.now)) }
    {
        held_under(self.places, handle)
    }

    // The session in use of a handle.
    pub(crate) fn session(&self, handle: u32) -> Option<&Session>
        ensures { MatchOption result
            (session_seen self.now handle ≡ None)
            (λ s. session_seen self.now handle ≡ Some (session_of s.now)) }
    {
        session_of(self.sessions, self.client, handle)
    }

    // Whether a session of a handle is there, in use or saved.
    pub(crate) fn owns_session(&self, handle: u32) -> bool
        ensures { result ≡ is_some (owned_seen self.now handle) }
    {
        owned_under(self.sessions, self.client, handle).is_some()
    }
}

impl Tables for Seen<'_> {
    ghost use Rattle.plain_machine.specs.Views.{tables_seen};

    ghost tables = { λ seen. tables_seen seen };

    fn has_object(&self, handle: u32) -> bool {
        self.object(handle).is_some()
    }

    fn has_session(&self, handle: u32) -> bool {
        self.session(handle).is_some()
    }

    fn is_full(&self) -> bool {
        is_full(self.places)
    }

    fn contexts(&self) -> ContextLimits {
        PROFILE_CONTEXTS
    }
}

impl Holdings for Seen<'_> {
    ghost use Rattle.plain_machine.specs.Listed.{objects_listed, sessions_listed};
    ghost use Rattle.plain_machine.specs.Listed as laws;

    ghost objects = { λ seen. objects_listed seen };

    ghost sessions = { λ seen. sessions_listed seen };

    ghost objects_rise = { laws.objects_rise };

    ghost objects_fit = { laws.objects_fit };

    ghost sessions_rise = { laws.sessions_rise };

    ghost sessions_fit = { laws.sessions_fit };

    fn object_from(&self, least: u32) -> Option<u32> {
        handle_from(self.places, least)
    }

    fn object_count(&self) -> u32 {
        held_count(self.places) as u32
    }

    fn session(&self, number: u32) -> Option<HeldSession> {
        listed_session(self.sessions, self.client, number)
    }
}
