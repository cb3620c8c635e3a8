//! What came of the connections that were served.
ghost use Rattle.std.specs.Prelude.{◌≡◌, []};
ghost use Rattle.link_pool.specs.Endings.{lacks_memory};

use accept_loop::LinkDone;
use connection_core::Ending;
use ghost_lists::Grows;
use std::marker::{Model, PhantomData};
use std::snapshot::Snapshot;

/// A connection that was served.
#[derive(Drop)]
pub struct Service<S, K> {
    /// Both ends as they were when it was accepted, for contracts alone.
    pub given: Snapshot<(S, K)>,
    /// What became of it.
    pub link: LinkDone<S, K>,
}

/// The connections that were served, for contracts alone. Nothing is kept of them.
#[derive(Drop)]
pub struct Services<S, K> {
    of: PhantomData<(S, K)>,
}

impl<S, K> Model for Services<S, K> {
    ghost use Rattle.std.specs.Prelude.{List, []};
    ghost use Rattle.link_pool.specs.declared.done.Service.{Service};

    ghost Value = { List (Service S K) };

    ghost view = { λ _. [] };
}

impl<S, K> Grows<Service<S, K>> for Services<S, K> {
    ghost use Rattle.std.specs.Prelude.{◌++◌, ◌∷◌, []};

    ghost with = { λ served s. served ++ s ∷ [] };
}

impl<S, K> Grows<Snapshot<Services<S, K>>> for Services<S, K> {
    ghost use Rattle.std.specs.Prelude.{◌++◌};

    ghost with = { λ served more. served ++ more.value };
}

impl<S, K> Services<S, K> {
    /// No connection was served.
    pub fn none() -> Snapshot<Services<S, K>>
        ensures { result.value ≡ [] }
    {
        Snapshot::of(&Services { of: PhantomData })
    }
}

/// Whether a connection with this ending lacked memory.
pub fn lacks_memory(ending: Ending) -> bool
    ensures { result ≡ lacks_memory ending }
{
    match ending {
        Ending::Memory => true,
        Ending::EndOfInput => false,
        Ending::BadFrame(_) => false,
        Ending::ReadFault => false,
        Ending::WriteFault => false,
        Ending::JournalFull { kept: _, limit: _ } => false,
        Ending::Answer => false,
    }
}
