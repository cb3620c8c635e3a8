ghost use Rattle.std.specs.Prelude.{◌≡◌, ◌≤◌, ◌<◌, [], false, true, Err};
ghost use Rattle.crossbeam_channel.specs.Claims.{view};
ghost use Rattle.accept_loop.specs.declared.serving.AcceptError.TheVariants as errors;
ghost use Rattle.link_pool.specs.Servers.{HasEnded, IsOn, MayServeAll, PoolServesLinks};
ghost use Rattle.link_pool.specs.Services.{IsServed, client_of, given_of, is_lacking};
ghost use Rattle.link_pool.specs.Starts.{start_of};
ghost use Rattle.link_pool.specs.Outcomes.{outcome_of};
ghost use Rattle.link_pool.specs.Turns.{TurnAcceptedSince, is_over};

use crate::done::Services;
use crate::idle::Fork;
use crate::server::{Server, serve_turns};
use crate::servers::serve_as_needed;
use crate::turn::{Begins, Links, Stage, Turn};
use crate::way::Way;
use accept_loop::{AcceptError, Lent, Passed, take_back};
use broker_lock::{Pass, Serves, Shared};
use link_port::{Acceptor, Gate};
use std::alloc::Global;
use std::marker::Brand;
use std::snapshot::Snapshot;
use std::sync::Wait;
use std::thread::Threads;

/// The result of [`serve_all`].
pub struct ServedAll<B, S, K> {
    /// Whether as many connections were accepted as were asked for, or all that came.
    pub accepted: Result<(), AcceptError>,
    /// How many connections were served.
    pub count: u32,
    /// Whether one of them ended for want of memory.
    pub lacked: bool,
    /// What came of each, for contracts alone.
    pub served: Snapshot<Services<S, K>>,
    /// The value that was under the lock.
    pub value: B,
}

// The turn, and what all servers know, once no more connections are accepted.
#[derive(Drop)]
struct Ended<B, A, S, K> {
    turn: Turn<A, S, K>,
    pass: Pass<B>,
    served: Snapshot<Services<S, K>>,
    lacked: bool,
}

// Returns how accepting ended.
fn outcome(stage: Stage) -> Result<(), AcceptError>
    ensures { result ≡ outcome_of stage }
{
    match stage {
        Stage::Going => Ok(()),
        Stage::Over => Ok(()),
        Stage::Failed => Err(AcceptError::Failed),
    }
}

// The result if no connection was served, for want of memory.
fn serve_nobody<B, S, K>(value: B) -> ServedAll<B, S, K>
    ensures accepted { result.accepted ≡ Err errors.Memory }
    ensures count { result.count ≡ 0 }
    ensures lacked { result.lacked ≡ false }
    ensures served { result.served.value ≡ [] }
    ensures value { result.value ≡ value }
{
    ServedAll {
        accepted: Err(AcceptError::Memory),
        count: 0,
        lacked: false,
        served: Services::none(),
        value,
    }
}

// Takes the turn from the way, once all servers have ended. If more connections may be accepted, it
// serves them first.
fn end_all<
    B: Serves + Send,
    A: Passed,
    J: Begins<A::In, A::Out>,
    G: Gate,
    R: Threads + Wait + Sync,
>(
    rt: &R,
    alloc: Global,
    shared: &Shared<B>,
    gate: &G,
    way: &Way<A, J>,
    mut server: Server<B, A, A::In, A::Out>,
) -> Ended<B, A, A::In, A::Out>
    requires on { IsOn B.legal A.In.left A.Out.written A.In.faults A.Out.faults
        way.now server [] }
    requires lock { server.pass.lock ≡ shared.now }
    requires hand { (view server.hand).parts ≡ 1024 }
    requires parts { 1 < server.pass.parts }
    ensures kept { TurnAcceptedSince A.coming A.faults A.name J.begun result.turn }
    ensures over { is_over result.turn.stage ≡ true }
    ensures ended { HasEnded B.legal
        (IsServed A.In.left A.Out.written A.In.faults A.Out.faults) given_of client_of is_lacking
        server.pass result.pass result.turn.accepted.value result.served.value result.lacked }
{
    for _ in rt.forever() {
        let turn = way.take(rt, &mut server.hand);
        if turn.stage.is_over() {
            let Server {
                hand: _,
                pass,
                served,
                lacked,
            } = server;
            return Ended {
                turn,
                pass,
                served,
                lacked,
            };
        }
        way.give(rt, &mut server.hand, turn);
        let next = serve_turns(rt, alloc, shared, gate, way, &Fork::none(), server);
        server = next;
    }
    unreachable!()
}

// Serves all connections that come by an acceptor that goes from server to server.
fn serve_passed<
    B: Serves + Send,
    A: Passed + Send,
    J: Begins<A::In, A::Out> + Send + Sync,
    G: Gate,
    R: Threads + Wait + Sync,
>(
    rt: &R,
    alloc: Global,
    value: B,
    acceptor: A,
    gate: &G,
    connections: u32,
    servers: u32,
) -> (A, ServedAll<B, A::In, A::Out>)
    requires begun { J.begun ≡ start_of (A.coming acceptor) (A.faults acceptor) (A.name acceptor)
        connections }
    requires may_serve { MayServeAll B.legal (B.fixed value) (B.history value) servers }
    ensures name { A.name result.0 ≡ A.name acceptor }
    ensures serves { PoolServesLinks B.legal B.fixed B.wrong B.history A.coming A.faults
        A.In.left A.Out.written A.In.faults A.Out.faults connections
        value acceptor result.0 result.1 }
{
    let Ok((way, mut hand)) = Way::<A, J>::with_first_hand(alloc) else {
        return (acceptor, serve_nobody(value));
    };
    let (shared, pass) = match Shared::new(alloc, value) {
        Ok(made) => made,
        Err((_, value)) => return (acceptor, serve_nobody(value)),
    };
    let accepted = Links::none();
    let turn = Turn {
        acceptor,
        left: connections,
        stage: Stage::Going,
        accepted,
    };
    way.give(rt, &mut hand, turn);
    let served = Services::none();
    let server = Server {
        hand,
        pass,
        served,
        lacked: false,
    };
    let more = servers - 1;
    let server = serve_as_needed(rt, alloc, &shared, gate, &way, &Fork::none(), more, server);
    let ended = end_all(rt, alloc, &shared, gate, &way, server);
    let Ended {
        turn,
        pass,
        served,
        lacked,
    } = ended;
    let Turn {
        acceptor,
        left,
        stage,
        accepted: _,
    } = turn;
    let accepted = outcome(stage);
    let count = connections - left;
    let value = shared.close(pass);
    let all = ServedAll {
        accepted,
        count,
        lacked,
        served,
        value,
    };
    (acceptor, all)
}

// What `serve_all` does, over a value that each turn moves.
fn serve_under_lock<B: Serves + Send, A: Acceptor + Send, G: Gate, R: Threads + Wait + Sync>(
    rt: &R,
    alloc: Global,
    value: B,
    acceptor: &mut A,
    gate: &G,
    connections: u32,
    servers: u32,
) -> ServedAll<B, A::In, A::Out>
    requires may_serve { MayServeAll B.legal (B.fixed value) (B.history value) servers }
    ensures { PoolServesLinks B.legal B.fixed B.wrong B.history A.coming A.faults
        A.In.left A.Out.written A.In.faults A.Out.faults connections
        value acceptor.old acceptor.new result }
{
    let lent = Lent { acceptor };
    let (lent, all) = serve_passed::<B, _, Brand, G, R>(
        rt,
        alloc,
        value,
        lent,
        gate,
        connections,
        servers,
    );
    let Lent { acceptor } = lent;
    take_back(acceptor);
    all
}

// What `serve_all` does, over a value whose history is known to be legal.
fn serve_legal<B: Serves + Send, A: Acceptor + Send, G: Gate, R: Threads + Wait + Sync>(
    rt: &R,
    alloc: Global,
    value: B,
    acceptor: &mut A,
    gate: &G,
    connections: u32,
    servers: u32,
) -> ServedAll<B, A::In, A::Out>
    requires may_serve { MayServeAll B.legal (B.fixed value) (B.history value) servers }
    ensures { PoolServesLinks B.legal B.fixed B.wrong B.history A.coming A.faults
        A.In.left A.Out.written A.In.faults A.Out.faults connections
        value acceptor.old acceptor.new result }
{
    match Box::new(alloc, value) {
        Ok(value) => {
            let ServedAll {
                accepted,
                count,
                lacked,
                served,
                value,
            } = serve_under_lock(rt, alloc, value, acceptor, gate, connections, servers);
            let value = Box::into_inner(value);
            ServedAll {
                accepted,
                count,
                lacked,
                served,
                value,
            }
        }
        Err(refused) => serve_nobody(refused.value),
    }
}

/// Accepts so many connections, or as many as come, and serves each to its end. At most so many are
/// served at once, each by a thread of its own that then goes on to the next one. Further threads
/// are made as they are needed. If no thread can be made, those that there are serve all, and try
/// again later. After a failure of the acceptor no more are accepted. It takes memory before the
/// first connection, and then only what a connection takes; nothing is kept of one that is over.
pub fn serve_all<B: Serves + Send, A: Acceptor + Send, G: Gate, R: Threads + Wait + Sync>(
    rt: &R,
    alloc: Global,
    value: B,
    acceptor: &mut A,
    gate: &G,
    connections: u32,
    servers: u32,
) -> ServedAll<B, A::In, A::Out>
    requires empty { B.history value ≡ [] }
    requires some { 0 < servers }
    requires few { servers ≤ 256 }
    // The history is legal, if it is known what it begins from. Each connection that was accepted
    // was served once, and has its commands in the history, once and in order; the replies to them
    // were written to it. The history has no other client, and all clients are closed.
    ensures { PoolServesLinks B.legal B.fixed B.wrong B.history A.coming A.faults
        A.In.left A.Out.written A.In.faults A.Out.faults connections
        value acceptor.old acceptor.new result }
{
    value.show_legal();
    serve_legal(rt, alloc, value, acceptor, gate, connections, servers)
}
