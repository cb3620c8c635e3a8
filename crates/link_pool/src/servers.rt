//! Servers side by side: there are more of them as more connections are served at once.
ghost use Rattle.std.specs.Prelude.{◌≡◌, ◌<◌, ◌+◌, ◌*◌, ◌∷◌, ◌||◌, []};
ghost use Rattle.std.specs.Thread.{IsSync};
ghost use denote.Param.Send.{IsSend};
ghost use Rattle.crossbeam_channel.specs.Claims.{view};
ghost use Rattle.link_pool.specs.Servers.{HasBoth, IsOn, IsParted, MayGrow, MayServePool, ServesOn};

use crate::done::Services;
use crate::idle::Fork;
use crate::server::{Server, accept_one, serve_from, serve_turns};
use crate::turn::Begins;
use crate::way::Way;
use accept_loop::Passed;
use broker_lock::{Pass, Serves, Shared};
use ghost_lists::grow;
use link_port::Gate;
use std::alloc::Global;
use std::sync::Wait;
use std::thread;
use std::thread::Threads;

// Makes a server for a connection that this one accepted, with a pass of the connection's own. This
// one has accepted nothing then, and has the parts for one server less.
fn part<B: Serves, A: Passed, J: Begins<A::In, A::Out>>(
    shared: &Shared<B>,
    way: &Way<A, J>,
    more: u32,
    server: &mut Server<B, A, A::In, A::Out>,
    ends: &(A::In, A::Out),
) -> (Server<B, A, A::In, A::Out>, Pass<B>)
    requires room { (0 < more) × (more < (view server.old.hand).parts)
        × (2 * more + 1 < server.old.pass.parts) }
    requires on { IsOn B.legal A.In.left A.Out.written A.In.faults A.Out.faults
        way.now server.old (ends.now ∷ []) }
    requires lock { server.old.pass.lock ≡ shared.now }
    requires served { server.old.served.value ≡ [] }
    ensures on { IsOn B.legal A.In.left A.Out.written A.In.faults A.Out.faults
        way.now server.new [] × (server.new.served.value ≡ []) }
    ensures given { IsOn B.legal A.In.left A.Out.written A.In.faults A.Out.faults
        way.now result.0 (ends.now ∷ []) }
    ensures parted { IsParted more shared.now (view server.old.hand) (view server.new.hand)
        (view result.0.hand) server.old.pass server.new.pass result.0.pass result.1 }
{
    let _ = more;
    let _ = ends;
    let hand = way.split(&mut server.hand);
    let own = shared.split(&mut server.pass);
    let pass = shared.split(&mut server.pass);
    let served = Services::none();
    let given = Server {
        hand,
        pass: own,
        served,
        lacked: false,
    };
    (given, pass)
}

// Joins two servers into one that served what both served.
fn join_servers<B: Serves, A: Passed, J: Begins<A::In, A::Out>>(
    shared: &Shared<B>,
    way: &Way<A, J>,
    mut server: Server<B, A, A::In, A::Out>,
    ended: Server<B, A, A::In, A::Out>,
) -> Server<B, A, A::In, A::Out>
    requires on { IsOn B.legal A.In.left A.Out.written A.In.faults A.Out.faults
        way.now server [] }
    requires ended { IsOn B.legal A.In.left A.Out.written A.In.faults A.Out.faults
        way.now ended [] }
    requires lock { server.pass.lock ≡ shared.now }
    requires ended_lock { ended.pass.lock ≡ shared.now }
    requires fixed { ended.pass.fixed ≡ server.pass.fixed }
    ensures on { IsOn B.legal A.In.left A.Out.written A.In.faults A.Out.faults
        way.now result [] }
    ensures both { HasBoth (view server.hand) (view ended.hand) (view result.hand)
        server.pass ended.pass result.pass }
{
    let Server {
        hand,
        pass,
        served,
        lacked,
    } = ended;
    way.join(&mut server.hand, hand);
    shared.join(&mut server.pass, pass);
    grow(&mut server.served, &served);
    server.lacked = either(server.lacked, lacked);
    server
}

// Whether one of them is so.
fn either(one: bool, other: bool) -> bool
    ensures { result ≡ (one || other) }
{
    if one {
        return true;
    }
    other
}

// The newest server, and up to so many more. The newest one waits for the turn if no other one
// does. Once it has accepted a connection, a further one is made. If no thread can be made for that
// one, it begins in this thread once some connections were served, and tries again. `last` is how
// this one was made.
pub(crate) fn serve_as_needed<
    B: Serves + Send,
    A: Passed + Send,
    J: Begins<A::In, A::Out> + Send + Sync,
    G: Gate,
    R: Threads + Wait + Sync,
>(
    rt: &R,
    alloc: Global,
    shared: &Shared<B>,
    gate: &G,
    way: &Way<A, J>,
    last: &Fork,
    more: u32,
    mut server: Server<B, A, A::In, A::Out>,
) -> Server<B, A, A::In, A::Out>
    requires may_grow { MayGrow B.legal A.In.left A.Out.written A.In.faults A.Out.faults
        way.now shared.now more server }
    ensures { ServesOn B.legal A.In.left A.Out.written A.In.faults A.Out.faults
        way.now server result 0 }
{
    last.begin();
    if more == 0 {
        return serve_turns(rt, alloc, shared, gate, way, &Fork::none(), server);
    }
    let Some(ends) = accept_one(rt, way, true, &mut server) else {
        return server;
    };
    let (first, pass) = part(shared, way, more, &mut server, &ends);
    let rest = more - 1;
    let fork = &Fork::new(last);
    let (server, first) = thread::join(
        rt,
        move || -> Server<B, A, A::In, A::Out>
            requires { MayGrow B.legal A.In.left A.Out.written A.In.faults A.Out.faults
                way.now shared.now rest server }
            ensures { ServesOn B.legal A.In.left A.Out.written A.In.faults A.Out.faults
                way.entry.now server result 0 }
        { serve_as_needed(rt, alloc, shared, gate, way, fork, rest, server) },
        move || -> Server<B, A, A::In, A::Out>
            requires { MayServePool B.legal A.In.left A.Out.written A.In.faults A.Out.faults
                way.now shared.now first pass ends }
            ensures { ServesOn B.legal A.In.left A.Out.written A.In.faults A.Out.faults
                way.entry.now first result 1 }
        { serve_from(rt, alloc, shared, gate, way, fork, first, pass, ends) },
    );
    join_servers(shared, way, server, first)
}
