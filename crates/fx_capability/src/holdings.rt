ghost use Rattle.std.specs.Prelude.{◌≡◌, ◌<◌, ◌^◌, ℕ, List, length, Some, None, true, MatchOption};
ghost use Rattle.effect_spec.specs.Capabilities.{Listed};
ghost use Rattle.tab_spec.specs.declared.TheConstants.{SESSION_NUMBERS};
ghost use Rattle.fx_capability.specs.Lists.{rises_from, all_below, number_from, session_numbers};
ghost use Rattle.fx_capability.specs.Lists.{session_in};
ghost use Rattle.fx_capability.specs.Views.{listed_of};

/// A session as it is listed (Part 1, "Session Handles").
#[derive(Clone, Copy)]
pub struct HeldSession {
    /// Its first octet is its kind; the other three are its number.
    pub handle: u32,
    /// Whether it is loaded; else it is saved.
    pub in_use: bool,
}

/// What there is to be listed: transient objects by their handles, and sessions by their numbers.
pub trait Holdings {
    /// The handles of the objects, upwards.
    ghost objects: { Self → List ℕ };

    /// The sessions, by their numbers upwards.
    ghost sessions: { Self → List Listed };

    /// The least handle of an object that isn't below `least`.
    fn object_from(&self, least: u32) -> Option<u32>
        ensures { result ≡ number_from least (objects self.now) };

    /// How many objects there are.
    fn object_count(&self) -> u32
        ensures { result ≡ length (objects self.now) };

    /// The session with this number, 0 to 63, in use or saved.
    fn session(&self, number: u32) -> Option<HeldSession>
        requires { number < SESSION_NUMBERS }
        ensures { MatchOption result (session_in number (sessions self.now) ≡ None)
            (λ s. session_in number (sessions self.now) ≡ Some (listed_of s)) };

    /// The handles rise.
    ghost objects_rise: { (held : Self) → rises_from 0 (objects held) ≡ true };

    /// Each handle is a UINT32.
    ghost objects_fit: { (held : Self) → all_below (2 ^ 32) (objects held) ≡ true };

    /// The numbers rise.
    ghost sessions_rise: { (held : Self)
        → rises_from 0 (session_numbers (sessions held)) ≡ true };

    /// Each number is one that a session may have.
    ghost sessions_fit: { (held : Self)
        → all_below SESSION_NUMBERS (session_numbers (sessions held)) ≡ true };
}
