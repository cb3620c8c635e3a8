ghost use Rattle.std.specs.Prelude.{◌≡◌};
ghost use Rattle.effect_spec.specs.Capabilities.{client_limits, device_limits};
ghost use Rattle.fx_capability.specs.Views.{limits_of};

use tab_spec::Numbers;

/// How much there may be of what one caller sees (Part 2, "TPM_PT").
#[derive(Clone, Copy)]
pub struct Limits {
    /// How many transient objects there may be.
    pub objects: u32,
    /// How many sessions may be in use at once.
    pub loaded: u32,
    /// How many sessions may be active at once, in use and saved, over all callers.
    pub active: u32,
    /// How far apart the numbers of saved sessions' contexts may be.
    pub gap: u32,
    /// Whether every active session, also of others, takes a place for a session in use.
    pub counts_active: bool,
}

impl Limits {
    /// What a device of these numbers has.
    pub fn of_the_device(numbers: Numbers) -> Limits
        ensures { limits_of result ≡ device_limits numbers }
    {
        Limits {
            objects: u32::from(numbers.slots),
            loaded: u32::from(numbers.loaded),
            active: u32::from(numbers.active),
            gap: numbers.gap,
            counts_active: false,
        }
    }

    /// What a client of the broker sees, where so many sessions may be active over all clients.
    pub fn of_a_client(most: u8) -> Limits
        ensures { limits_of result ≡ client_limits most }
    {
        Limits {
            objects: 4096,
            loaded: u32::from(most),
            active: u32::from(most),
            gap: u32::MAX,
            counts_active: true,
        }
    }
}
