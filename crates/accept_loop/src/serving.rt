ghost use Rattle.std.specs.Prelude.{◌≡◌, ◌<◌, [], Ok, IsErrAnd, MatchResult};
ghost use Rattle.std.specs.VecDeque.{deque_capacity};
ghost use Rattle.std.specs.Thread.{IsSync};
ghost use denote.Param.Send.{IsSend};
ghost use Rattle.broker_lock.specs.Known.{IsLegalOver};
ghost use Rattle.accept_loop.specs.Connections.{HasServed};
ghost use Rattle.accept_loop.specs.Passes.{ComesTo, HasRoomForLinks, ServesLinks};
ghost use Rattle.accept_loop.specs.declared.serving.AcceptError.TheVariants as errors;

use crate::passing::{Lent, Passed, take_back};
use broker_lock::{Pass, Serves, Shared};
use cancel_words::WordSeat;
use connection_core::{Ending, LinkEnd, serve_link};
use link_port::{Acceptor, Failed, Gate, Sink, Source};
use std::alloc::Global;
use std::collections::VecDeque;
use std::sync::Wait;
use std::thread;
use std::thread::Threads;

/// Why fewer connections were accepted than came.
#[derive(Clone, Copy, PartialEq, Eq)]
pub enum AcceptError {
    /// Memory lacked before the first one. No connection was accepted.
    Memory,
    /// The acceptor failed. The connections before were served.
    Failed,
}

/// A connection that was served.
#[derive(Drop)]
pub struct LinkDone<S, K> {
    /// The end that its commands came from.
    pub source: S,
    /// The end that its replies went to.
    pub sink: K,
    /// Its client, which is closed now. `None` if it wasn't opened.
    pub client: Option<u32>,
    /// What the word that cancels its commands was raised to, and what was loaded from it before
    /// each command. `None` if the connection has no client.
    pub word: Option<WordSeat>,
    /// How many commands were taken up.
    pub done: u64,
    pub ending: Ending,
}

/// The result of [`serve`].
pub struct Served<B, A: Acceptor> {
    /// Whether as many connections were accepted as were asked for, or all that came.
    pub accepted: Result<(), AcceptError>,
    /// The connections, in the order in which they were accepted.
    pub links: Vec<LinkDone<A::In, A::Out>>,
    /// The value that was under the lock.
    pub value: B,
}

// The connections that come, and what was served so far: the pass that knows their clients, and
// the connections.
#[derive(Drop)]
struct Coming<B, A: Passed> {
    acceptor: A,
    pass: Pass<B>,
    links: VecDeque<LinkDone<A::In, A::Out>>,
}

/// Serves a connection ([`serve_link`]), and tells what became of it, with the pass that knows its
/// client now.
pub fn serve_ends<
    B: Serves + Send,
    S: Source + Send + Drop,
    K: Sink + Send + Drop,
    G: Gate,
    R: Threads + Wait + Sync,
>(
    rt: &R,
    alloc: Global,
    shared: &Shared<B>,
    gate: &G,
    pass: Pass<B>,
    ends: (S, K),
) -> (Pass<B>, LinkDone<S, K>)
    requires lock { pass.lock ≡ shared.now }
    requires nobody { pass.known ≡ [] }
    ensures { ComesTo B.legal S.left K.written S.faults K.faults pass result.0 ends result.1 }
{
    let (end, word) = serve_link(rt, alloc, shared, pass, ends.0, ends.1, gate);
    let LinkEnd {
        source,
        sink,
        pass,
        client,
        done,
        ending,
    } = end;
    let link = LinkDone {
        source,
        sink,
        client,
        word,
        done,
        ending,
    };
    (pass, link)
}

// Accepts so many connections, or as many as come, and serves each by a thread of its own. If no
// thread can be made, it serves the connection itself, after the later ones.
fn serve_coming<B: Serves + Send, A: Passed, G: Gate, R: Threads + Wait + Sync>(
    rt: &R,
    alloc: Global,
    shared: &Shared<B>,
    gate: &G,
    most: u32,
    mut coming: Coming<B, A>,
) -> (Coming<B, A>, Result<(), Failed>)
    requires { HasRoomForLinks shared.now most coming.pass coming.links.items
        (deque_capacity coming.links) }
    ensures room { deque_capacity result.0.links ≡ deque_capacity coming.links }
    ensures name { A.name result.0.acceptor ≡ A.name coming.acceptor }
    ensures served { ServesLinks B.legal A.In.left A.Out.written A.In.faults A.Out.faults
        coming.pass result.0.pass (A.coming coming.acceptor) (A.coming result.0.acceptor)
        (A.faults coming.acceptor) (A.faults result.0.acceptor) most result.1
        result.0.links.items }
{
    if most == 0 {
        return (coming, Ok(()));
    }
    let ends = match coming.acceptor.next_link() {
        Ok(Some(ends)) => ends,
        Ok(None) => return (coming, Ok(())),
        Err(failed) => return (coming, Err(failed)),
    };
    let pass = shared.split(&mut coming.pass);
    let rest = most - 1;
    let ((pass, link), (mut coming, accepted)) = thread::join(
        rt,
        move || -> (Pass<B>, LinkDone<A::In, A::Out>)
            requires { (pass.lock ≡ shared.now) × (pass.known ≡ []) }
            ensures { ComesTo B.legal A.In.left A.Out.written A.In.faults A.Out.faults
                pass result.0 ends result.1 }
        { serve_ends(rt, alloc, shared, gate, pass, ends) },
        move || -> (Coming<B, A>, Result<(), Failed>)
            requires { HasRoomForLinks shared.now rest coming.pass coming.links.items
                (deque_capacity coming.links) }
            ensures { (deque_capacity result.0.links ≡ deque_capacity coming.links)
                × (A.name result.0.acceptor ≡ A.name coming.acceptor)
                × ServesLinks B.legal A.In.left A.Out.written A.In.faults A.Out.faults
                coming.pass result.0.pass (A.coming coming.acceptor) (A.coming result.0.acceptor)
                (A.faults coming.acceptor) (A.faults result.0.acceptor) rest result.1
                result.0.links.items }
        { serve_coming(rt, alloc, shared, gate, rest, coming) },
    );
    shared.join(&mut coming.pass, pass);
    coming.links.push_front_reserved(link);
    (coming, accepted)
}

// What accepting came to.
fn outcome(accepted: Result<(), Failed>) -> Result<(), AcceptError>
    ensures { MatchResult accepted (λ x. result ≡ Ok x)
        (λ _. IsErrAnd result (λ error. error ≡ errors.Failed)) }
{
    match accepted {
        Ok(()) => Ok(()),
        Err(Failed) => Err(AcceptError::Failed),
    }
}

// What `serve` does, over a value that each turn moves.
fn serve_under_lock<B: Serves + Send, A: Acceptor, G: Gate, R: Threads + Wait + Sync>(
    rt: &R,
    alloc: Global,
    value: B,
    acceptor: &mut A,
    gate: &G,
    connections: u32,
) -> Served<B, A>
    requires empty { B.history value ≡ [] }
    requires legal { IsLegalOver B.legal (B.fixed value).base (B.history value) }
    requires most { connections < 1024 }
    ensures { HasServed B.legal B.fixed B.wrong B.history A.coming A.faults
        A.In.left A.Out.written A.In.faults A.Out.faults connections
        value result.value acceptor.old acceptor.new result.accepted result.links.items }
{
    let Ok(links) = VecDeque::with_capacity(alloc, connections as usize) else {
        return Served {
            accepted: Err(AcceptError::Memory),
            links: Vec::new(alloc),
            value,
        };
    };
    let (shared, pass) = match Shared::new(alloc, value) {
        Ok(made) => made,
        Err((_, value)) => {
            return Served {
                accepted: Err(AcceptError::Memory),
                links: Vec::new(alloc),
                value,
            };
        }
    };
    let coming = Coming {
        acceptor: Lent { acceptor },
        pass,
        links,
    };
    let (coming, accepted) = serve_coming(rt, alloc, &shared, gate, connections, coming);
    let Coming {
        acceptor: Lent { acceptor },
        pass,
        links,
    } = coming;
    take_back(acceptor);
    Served {
        accepted: outcome(accepted),
        links: Vec::from(links),
        value: shared.close(pass),
    }
}

/// Accepts so many connections, at most 1,023, or as many as come, and serves each by a thread of
/// its own ([`serve_link`]). If no thread can be made, it serves the connection itself, after those
/// that come later. It returns when all have ended. After a failure of the acceptor it accepts no
/// more. It takes memory before the first connection, and then only what a connection takes.
pub fn serve<B: Serves + Send, A: Acceptor, G: Gate, R: Threads + Wait + Sync>(
    rt: &R,
    alloc: Global,
    value: B,
    acceptor: &mut A,
    gate: &G,
    connections: u32,
) -> Served<B, A>
    requires empty { B.history value ≡ [] }
    requires most { connections < 1024 }
    ensures { HasServed B.legal B.fixed B.wrong B.history A.coming A.faults
        A.In.left A.Out.written A.In.faults A.Out.faults connections
        value result.value acceptor.old acceptor.new result.accepted result.links.items }
{
    value.show_legal();
    match Box::new(alloc, value) {
        Ok(value) => {
            let Served {
                accepted,
                links,
                value,
            } = serve_under_lock(rt, alloc, value, acceptor, gate, connections);
            Served {
                accepted,
                links,
                value: Box::into_inner(value),
            }
        }
        Err(refused) => Served {
            accepted: Err(AcceptError::Memory),
            links: Vec::new(alloc),
            value: refused.value,
        },
    }
}
