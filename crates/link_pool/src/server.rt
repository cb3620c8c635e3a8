//! One server: it waits for the turn, accepts a connection, serves it, and waits again.
ghost use Rattle.std.specs.Prelude.{◌≡◌, ◌<◌, ◌+◌, ◌∷◌, ◌||◌, []};
ghost use Rattle.std.specs.Option.{option_to_list};
ghost use Rattle.link_pool.specs.Endings.{lacks_memory};
ghost use Rattle.link_pool.specs.Servers.{IsOn, IsServerOfLinks, KeepsParts, MayServePool};
ghost use Rattle.link_pool.specs.Servers.{ServesOn};
ghost use Rattle.link_pool.specs.Servers.{one_part};

use crate::done::{Service, Services, lacks_memory};
use crate::idle::Fork;
use crate::turn::Begins;
use crate::way::{Hand, Way};
use accept_loop::{Passed, serve_ends};
use broker_lock::{Pass, Serves, Shared};
use connection_core::Ending;
use ghost_lists::grow;
use link_port::Gate;
use std::alloc::Global;
use std::snapshot::Snapshot;
use std::sync::Wait;
use std::thread::Threads;

/// One of the servers.
#[derive(Drop)]
pub(crate) struct Server<B, A, S, K> {
    // It has what the server accepted.
    pub hand: Hand<A, S, K>,
    // The pass that knows the clients of those that it served.
    pub pass: Pass<B>,
    pub served: Snapshot<Services<S, K>>,
    // Whether one of its connections ended for want of memory.
    pub lacked: bool,
}

// Whether memory lacked before, or for this connection.
fn has_lacked(lacked: bool, ending: Ending) -> bool
    ensures { result ≡ (lacked || lacks_memory ending) }
{
    if lacked {
        return true;
    }
    lacks_memory(ending)
}

// Waits for the turn, and accepts the next connection, if one comes. The newest server first waits
// until no other one waits for the turn.
pub(crate) fn accept_one<B: Serves, A: Passed, J: Begins<A::In, A::Out>, R: Wait>(
    rt: &R,
    way: &Way<A, J>,
    newest: bool,
    server: &mut Server<B, A, A::In, A::Out>,
) -> Option<(A::In, A::Out)>
    requires on { IsOn B.legal A.In.left A.Out.written A.In.faults A.Out.faults
        way.now server.old [] }
    ensures on { IsOn B.legal A.In.left A.Out.written A.In.faults A.Out.faults
        way.now server.new (option_to_list result) }
    ensures leaves { KeepsParts server.old server.new 0 }
    ensures served { server.new.served.value ≡ server.old.served.value }
    ensures pass { server.new.pass ≡ server.old.pass }
{
    way.idle.begin(rt, newest);
    let ends = way.next(rt, &mut server.hand);
    way.idle.end(newest);
    ends
}

// Serves a connection that it accepted, with a pass of the connection's own.
fn serve_one<B: Serves + Send, A: Passed, G: Gate, R: Threads + Wait + Sync>(
    rt: &R,
    alloc: Global,
    shared: &Shared<B>,
    gate: &G,
    server: &mut Server<B, A, A::In, A::Out>,
    pass: Pass<B>,
    ends: (A::In, A::Out),
)
    requires lock { server.old.pass.lock ≡ shared.now }
    requires beside { pass ≡ one_part server.old.pass }
    requires server { IsServerOfLinks B.legal A.In.left A.Out.written A.In.faults A.Out.faults
        server.old (ends ∷ []) }
    ensures server { IsServerOfLinks B.legal A.In.left A.Out.written A.In.faults A.Out.faults
        server.new [] }
    ensures leaves { KeepsParts server.old server.new 1 }
    ensures hand { server.new.hand ≡ server.old.hand }
{
    let given = Snapshot::of(&ends);
    let (pass, link) = serve_ends(rt, alloc, shared, gate, pass, ends);
    shared.join(&mut server.pass, pass);
    server.lacked = has_lacked(server.lacked, link.ending);
    let service = Service { given, link };
    grow(&mut server.served, &service);
}

// Serves a connection that it accepted.
fn serve_next<B: Serves + Send, A: Passed, G: Gate, R: Threads + Wait + Sync>(
    rt: &R,
    alloc: Global,
    shared: &Shared<B>,
    gate: &G,
    server: &mut Server<B, A, A::In, A::Out>,
    ends: (A::In, A::Out),
)
    requires lock { server.old.pass.lock ≡ shared.now }
    requires parts { 1 < server.old.pass.parts }
    requires server { IsServerOfLinks B.legal A.In.left A.Out.written A.In.faults A.Out.faults
        server.old (ends ∷ []) }
    ensures server { IsServerOfLinks B.legal A.In.left A.Out.written A.In.faults A.Out.faults
        server.new [] }
    ensures leaves { KeepsParts server.old server.new 0 }
    ensures hand { server.new.hand ≡ server.old.hand }
{
    let pass = shared.split(&mut server.pass);
    serve_one(rt, alloc, shared, gate, server, pass, ends);
}

// Serves connection after connection, until no more are accepted, or the server beside it is to
// begin in this thread.
pub(crate) fn serve_turns<
    B: Serves + Send,
    A: Passed,
    J: Begins<A::In, A::Out>,
    G: Gate,
    R: Threads + Wait + Sync,
>(
    rt: &R,
    alloc: Global,
    shared: &Shared<B>,
    gate: &G,
    way: &Way<A, J>,
    fork: &Fork,
    mut server: Server<B, A, A::In, A::Out>,
) -> Server<B, A, A::In, A::Out>
    requires on { IsOn B.legal A.In.left A.Out.written A.In.faults A.Out.faults
        way.now server [] }
    requires lock { server.pass.lock ≡ shared.now }
    requires parts { 1 < server.pass.parts }
    ensures { ServesOn B.legal A.In.left A.Out.written A.In.faults A.Out.faults
        way.now server result 0 }
{
    let mut served: u64 = 0;
    for _ in rt.forever() {
        if fork.is_due(served) {
            return server;
        }
        served = served.saturating_add(1);
        match accept_one(rt, way, false, &mut server) {
            Some(ends) => serve_next(rt, alloc, shared, gate, &mut server, ends),
            None => return server,
        }
    }
    unreachable!()
}

// Serves this connection first.
pub(crate) fn serve_from<
    B: Serves + Send,
    A: Passed,
    J: Begins<A::In, A::Out>,
    G: Gate,
    R: Threads + Wait + Sync,
>(
    rt: &R,
    alloc: Global,
    shared: &Shared<B>,
    gate: &G,
    way: &Way<A, J>,
    fork: &Fork,
    mut server: Server<B, A, A::In, A::Out>,
    pass: Pass<B>,
    ends: (A::In, A::Out),
) -> Server<B, A, A::In, A::Out>
    requires { MayServePool B.legal A.In.left A.Out.written A.In.faults A.Out.faults
        way.now shared.now server pass ends }
    ensures { ServesOn B.legal A.In.left A.Out.written A.In.faults A.Out.faults
        way.now server result 1 }
{
    serve_one(rt, alloc, shared, gate, &mut server, pass, ends);
    let server = serve_turns(rt, alloc, shared, gate, way, fork, server);
    fork.end();
    server
}
