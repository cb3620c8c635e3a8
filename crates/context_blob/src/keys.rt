ghost use Rattle.std.specs.Prelude.{◌≡◌};

use std::marker::Model;
use tab_hash::Mac;

const CONTEXT_MAC: &[u8] = b"CONTEXT MAC";

/// The keys of the contexts of a device (Part 1, "Context Management"), each padded and hashed
/// once: a caller that saves and loads often makes them once, and keeps them. Contracts see the 32
/// bytes of the device's seed, from which they follow.
#[derive(Drop)]
pub struct ContextKeys {
    seed: [u8; 32],
    // By the seed, with nothing added: contexts are encrypted by what is derived from it.
    pub(crate) encryption: Mac,
    // By the key of integrity values, with nothing added.
    pub(crate) integrity: Mac,
}

impl Model for ContextKeys {
    ghost use Rattle.std.specs.Prelude.{ℕ, List, []};
    ghost use Rattle.tab_hash.specs.Adding.{HasKey};
    ghost use Rattle.effect_spec.specs.Contexts.{context_key};

    ghost Value = { List ℕ };

    ghost view = { λ k. k.seed };

    ghost invariant = { λ k. HasKey k.encryption k.seed []
        × HasKey k.integrity (context_key k.seed) [] };
}

impl ContextKeys {
    /// Those of a device with this seed.
    pub fn new(seed: &[u8; 32]) -> ContextKeys
        ensures { result ≡ seed.now }
    {
        let encryption = Mac::new(seed);
        let mut key = [0; 32];
        encryption.derive(CONTEXT_MAC, &[], &[], &mut key);
        ContextKeys {
            seed: *seed,
            encryption,
            integrity: Mac::new(&key),
        }
    }
}
