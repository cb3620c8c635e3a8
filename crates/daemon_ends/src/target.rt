ghost use Rattle.std.specs.Prelude.{◌≡◌, ◌≢◌, ◌↔◌, List, ℕ, IsTrue};
ghost use Rattle.daemon_ends.specs.declared.target.Target.TheVariants as targets;

use link_port::{Sink, Source};

/// Where the device is that the words name.
#[derive(Drop)]
pub enum Target<S: Source, K: Sink> {
    /// In memory, of this seed.
    Memory([u8; 32]),
    /// Behind these two ends of a connection.
    Link(S, K),
    /// The same, for a TPM that needn't be of this project's profile.
    Tpm(S, K),
    /// There is none: no connection to it is taken.
    Unreachable,
}

impl<S: Source + Drop, K: Sink + Drop> Target<S, K> {
    /// Whether there is a device.
    pub fn is_there(&self) -> bool
        ensures { IsTrue result ↔ (self.now ≢ targets.Unreachable) }
    {
        match self {
            Target::Memory(_) | Target::Link(_, _) | Target::Tpm(_, _) => true,
            Target::Unreachable => false,
        }
    }

    /// The device, if it is used. If not, a TPM is let alone, and a device in memory stands for it.
    pub fn used_where(self, is_used: bool) -> Target<S, K>
        ensures used { IsTrue is_used → result ≡ self }
        ensures memory { (seed : List ℕ) → self ≡ targets.Memory seed → result ≡ self }
    {
        match self {
            Target::Link(_, _) | Target::Tpm(_, _) if !is_used => Target::Memory([0; 32]),
            target => target,
        }
    }
}
