ghost use Rattle.std.specs.Prelude.{◌≡◌, true};
ghost use Rattle.tab_spec.specs.Shape.{octet_of};
ghost use Rattle.tab_spec.specs.Admission as admission;
ghost use Rattle.tab_spec.specs.Admission.{is_session_handle};

use tab_spec::{ContextLimits, HT_TRANSIENT, PROFILE_CONTEXTS};

/// What a command may name beside what all clients share, and whether there is room for another
/// object.
pub trait Tables {
    /// What is there.
    ghost tables: { Self → admission.Tables };

    /// Whether a transient handle names an object.
    fn has_object(&self, handle: u32) -> bool
        requires { octet_of handle ≡ HT_TRANSIENT }
        ensures { result ≡ (tables self.now).has_object handle };

    /// Whether a session handle names a session that is in use.
    fn has_session(&self, handle: u32) -> bool
        requires { is_session_handle handle ≡ true }
        ensures { result ≡ (tables self.now).has_session handle };

    /// Whether there is no room for another object.
    fn is_full(&self) -> bool
        ensures { result ≡ (tables self.now).is_full };

    /// What the contexts of the device may be.
    fn contexts(&self) -> ContextLimits
        ensures { result ≡ (tables self.now).contexts };
}

/// Nothing is there.
#[derive(Clone, Copy)]
pub struct NoTables;

impl Tables for NoTables {
    ghost tables = { λ t. admission.no_tables };

    fn has_object(&self, _handle: u32) -> bool {
        false
    }

    fn has_session(&self, _handle: u32) -> bool {
        false
    }

    fn is_full(&self) -> bool {
        false
    }

    fn contexts(&self) -> ContextLimits {
        PROFILE_CONTEXTS
    }
}
