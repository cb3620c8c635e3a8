// An acceptor in memory, which fails at listed calls.
ghost use Rattle.std.specs.Prelude.{◌≡◌, ◌≤◌, ◌↔◌, Some, IfOk, OnOk, OnErr, IsErr, Contains};
ghost use Rattle.tab_spec.specs.Count.{Rose, one_more};
ghost use Rattle.link_port.specs.Port.{Accepted};
ghost use Rattle.link_port.specs.Memory.{new_arrivals};

use crate::memory::is_failing;
use crate::{Acceptor, Failed, MemorySink, MemorySource};
use std::collections::VecDeque;
use std::marker::Model;

/// An acceptor in memory that hands out listed connections in their order and fails at listed
/// calls. This project's own, for tests.
#[derive(Drop)]
pub struct MemoryAcceptor {
    links: VecDeque<(MemorySource, MemorySink)>,
    failing: Vec<u64>,
    calls: u64,
    faults: u64,
}

impl Model for MemoryAcceptor {
    ghost use Rattle.link_port.specs.Memory.{Arrivals};

    ghost Value = { Arrivals };

    ghost view = { λ a. record {
      coming = a.links.items;
      failing = a.failing.items;
      calls = a.calls;
      faults = a.faults;
    } };
}

impl MemoryAcceptor {
    /// An acceptor of these connections. It hands out each once, the first one first. It fails at
    /// the calls, counted from 0, whose numbers are in `failing`, and at no other. The call count
    /// stands still at the largest u64.
    pub fn new(links: Vec<(MemorySource, MemorySink)>, failing: Vec<u64>) -> MemoryAcceptor
        ensures { result ≡ new_arrivals links.items failing.items }
    {
        MemoryAcceptor {
            links: VecDeque::from(links),
            failing,
            calls: 0,
            faults: 0,
        }
    }
}

impl Acceptor for MemoryAcceptor {
    type In = MemorySource;

    type Out = MemorySink;

    ghost coming = { λ a. Some a.coming };

    ghost faults = { λ a. a.faults };

    fn next(&mut self) -> Result<Option<(MemorySource, MemorySink)>, Failed>
        ensures accepted { IfOk result
            (λ link. Accepted (Some self.old.coming) (Some self.new.coming) link) }
        ensures err { OnErr result (Some self.new.coming ≡ Some self.old.coming) }
        ensures fault { OnErr result (Rose self.old.faults self.new.faults) }
        ensures count { self.old.faults ≤ self.new.faults }

        // Which calls fail.
        ensures fails { IsErr result ↔ Contains self.old.failing self.old.calls }

        ensures calls { self.new.calls ≡ one_more self.old.calls }
        ensures quiet { OnOk result (self.new.faults ≡ self.old.faults) }
        ensures faults_err { OnErr result (self.new.faults ≡ one_more self.old.faults) }
        ensures failing { self.new.failing ≡ self.old.failing }
    {
        let call = self.calls;
        self.calls = call.saturating_add(1);
        if is_failing(&self.failing, call) {
            self.faults = self.faults.saturating_add(1);
            return Err(Failed);
        }
        Ok(self.links.pop_front())
    }

    fn fault_count(&self) -> u64 {
        self.faults
    }
}
