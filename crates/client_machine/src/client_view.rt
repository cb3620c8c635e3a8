ghost use Rattle.std.specs.Prelude.{◌≡◌, ◌≤◌, Some, None, length, MatchOption};
ghost use Rattle.fx_capability.specs.Views.{listed_of};
ghost use Rattle.session_swap.specs.Items.{is_owner, owner_in};
ghost use Rattle.history_spec.specs.declared.TheConstants.{CLIENT_OBJECTS};
ghost use Rattle.client_machine.specs.Listing as laws;
ghost use Rattle.client_machine.specs.Listing.{listed_under, objects_had, sessions_had};
ghost use Rattle.client_machine.specs.Tables.{tables_seen};

use fx_capability::{HeldSession, Holdings};
use session_swap::Sessions;
use tab_spec::{ContextLimits, HT_HMAC_SESSION, HT_POLICY_SESSION};
use tab_wire::Tables;
use virtual_handles::ClientTable;

/// What a client with this table has: its own objects, and its sessions, in use and saved.
#[derive(Clone, Copy)]
pub struct ClientView<'a> {
    pub client: u32,
    /// What the contexts of the device may be.
    pub contexts: ContextLimits,
    pub table: &'a ClientTable,
    /// The sessions of all clients.
    pub sessions: &'a Sessions,
    ghost short: { length table.now.items ≤ CLIENT_OBJECTS },
}

impl ClientView<'_> {
    // Whether the client has a session, in use or saved.
    pub(crate) fn owns_session(&self, handle: u32) -> bool
        ensures { result ≡ is_owner self.now.client (owner_in self.now.sessions.now.items handle) }
    {
        match self.sessions.owner_of(handle) {
            Some((client, _)) => client == self.client,
            None => false,
        }
    }

    // The session of the client that has this handle, as it is listed.
    fn listed(&self, handle: u32) -> Option<HeldSession>
        ensures { MatchOption result
            (listed_under self.now.client self.now.sessions.now.items handle ≡ None) (λ s.
            listed_under self.now.client self.now.sessions.now.items handle ≡ Some (listed_of s)) }
    {
        match self.sessions.owner_of(handle) {
            Some((client, in_use)) if client == self.client => Some(HeldSession { handle, in_use }),
            _ => None,
        }
    }
}

// What the client may name: its objects, and its sessions in use.
impl Tables for ClientView<'_> {
    ghost tables = { λ s. tables_seen s.contexts s.client s.table.now.items s.sessions.now.items };

    fn has_object(&self, handle: u32) -> bool {
        self.table.find(handle).is_some()
    }

    fn has_session(&self, handle: u32) -> bool {
        self.sessions.owner_of(handle) == Some((self.client, true))
    }

    fn is_full(&self) -> bool {
        self.table.least().is_none()
    }

    fn contexts(&self) -> ContextLimits {
        self.contexts
    }
}

// What GetCapability lists for the client. The laws hold of all values, not only of those of
// tables.
impl Holdings for ClientView<'_> {
    ghost objects = { λ s. objects_had s.table.now.items };

    ghost sessions = { λ s. sessions_had s.client s.sessions.now.items };

    ghost objects_rise = { λ s. laws.objects_rise s.table.now.items };

    ghost objects_fit = { λ s. laws.objects_fit s.table.now.items };

    ghost sessions_rise = { λ s. laws.sessions_rise s.client s.sessions.now.items };

    ghost sessions_fit = { λ s. laws.sessions_fit s.client s.sessions.now.items };

    fn object_from(&self, least: u32) -> Option<u32> {
        self.table.from(least)
    }

    fn object_count(&self) -> u32 {
        self.table.len()
    }

    fn session(&self, number: u32) -> Option<HeldSession> {
        let hmac = self.listed(HT_HMAC_SESSION * (1 << 24) + number);
        if hmac.is_some() {
            return hmac;
        }
        self.listed(HT_POLICY_SESSION * (1 << 24) + number)
    }
}
