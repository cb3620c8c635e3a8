ghost use Rattle.std.specs.Prelude.{◌≡◌};
ghost use Rattle.tab_spec.specs.Numbers.{leave_limit, profile_numbers};

use crate::{ACTIVE_SESSIONS, CONTEXT_GAP, LOADED_SESSIONS, OBJECT_SLOTS};

/// How much of each a device has at once (Part 2, "TPM_PT").
#[derive(Clone, Copy)]
pub struct Numbers {
    /// Slots for objects. In range are 3 to 254: a list of handles has at most 254 of them.
    pub slots: u8,
    /// Places for loaded sessions. In range are 3 to 64.
    pub loaded: u8,
    /// Sessions, loaded and saved. In range are `loaded` to 64.
    pub active: u8,
    /// A session isn't saved where its context's number would be this much above that of the oldest
    /// saved one. In range is 255 or more.
    pub gap: u32,
}

impl Numbers {
    /// Those of a device of this project's profile.
    pub fn of_the_profile() -> Numbers
        ensures { result ≡ profile_numbers }
    {
        Numbers {
            slots: OBJECT_SLOTS as u8,
            loaded: LOADED_SESSIONS as u8,
            active: ACTIVE_SESSIONS as u8,
            gap: CONTEXT_GAP as u32,
        }
    }
}

/// How many sessions may be left by their clients at once, over a device that may have so many
/// active: the lesser of 8 and a quarter of these (the project's own).
pub fn leave_limit(active: u8) -> u8
    ensures { result ≡ leave_limit active }
{
    (active / 4).min(8)
}
