//! A connection from its opening to its end.
ghost use Rattle.std.specs.Prelude.{◌≡◌, [], None, Some, Err, IfOk, IfErr};
ghost use Rattle.history_spec.specs.Entry.{HasRoomForClient};
ghost use Rattle.connection_core.specs.declared.ends.Ending.TheVariants as endings;
ghost use Rattle.connection_core.specs.Duties.{KeepsTo};
ghost use Rattle.connection_core.specs.Hands.{BothLeave, ClosesTo, IsHandOf, LinkLeaves, MayRead};
ghost use Rattle.connection_core.specs.Hands.{ServedTo};
ghost use Rattle.connection_core.specs.Keeps.{IsBegun, start_of};
ghost use Rattle.connection_core.specs.Leaves.{IsFresh};
ghost use Rattle.connection_core.specs.Links.{HasEndingCause, IsOpeningRefused, KnowsClient};
ghost use Rattle.connection_core.specs.Turns.{GoesOn};
ghost use Rattle.link_port.specs.Port.{at_end};

use crate::between::{Between, Side};
use crate::duty::{Duty, Stage};
use crate::ends::{Ending, LinkEnd};
use crate::hands::{Hand, Keeper, Link, help};
use crate::held::Held;
use crate::intake::Intake;
use crate::reader::Reader;
use crate::way::Begins;
use crate::worker::Worker;
use broker_lock::{Done, Job, OpenClientError, Pass, Serves, Shared};
use cancel_words::WordSeat;
use link_port::{Gate, Sink, Source};
use std::alloc::{AllocError, Global};
use std::marker::Brand;
use std::sync::Wait;
use std::thread;
use std::thread::Threads;
use tab_bytes::Buffer;

// All memory that a connection needs.
#[derive(Drop)]
struct Outfit {
    between: Between,
    reader: Side,
    worker: Side,
    intake: Intake,
    held: Held,
    frame: Buffer,
    reply: Buffer,
}

// Makes what the reader pulls into. If the reader runs the commands itself, those that wait are
// held together; if not, each waits in a buffer of its own.
fn make_intake(alloc: Global, alone: bool) -> Result<(Intake, Held), AllocError>
    ensures { IfOk result (λ made. (made.0.framer ≡ []) × (made.1 ≡ [])) }
{
    let intake = Intake::new(alloc)?;
    Ok((intake, Held::new(alloc, alone)?))
}

// Room for a frame, and for a reply.
fn make_buffers(alloc: Global) -> Result<(Buffer, Buffer), AllocError> {
    let frame = Buffer::new(alloc)?;
    Ok((frame, Buffer::new(alloc)?))
}

// Takes all that memory. Nothing was pulled yet.
fn make_outfit<R: Wait>(rt: &R, alloc: Global, alone: bool) -> Result<Outfit, AllocError>
    ensures { IfOk result (λ outfit. IsFresh outfit) }
{
    let (between, reader, worker) = Between::new(rt, alloc, alone)?;
    let (intake, held) = make_intake(alloc, alone)?;
    let (frame, reply) = make_buffers(alloc)?;
    Ok(Outfit {
        between,
        reader,
        worker,
        intake,
        held,
        frame,
        reply,
    })
}

// Opens the next client, or returns how the connection ends without one.
fn open_client<B: Serves, R: Wait>(
    rt: &R,
    shared: &Shared<B>,
    pass: &mut Pass<B>,
    reply: &mut Buffer,
) -> Result<u32, Ending>
    requires lock { pass.old.lock ≡ shared.now }
    requires nobody { pass.old.known ≡ [] }
    ensures ok { IfOk result (λ client. KnowsClient pass.new client 0 []) }
    ensures err { IfErr result (λ ending. IsOpeningRefused ending pass.new 0) }
    ensures memory { result ≡ Err endings.Memory
        → HasRoomForClient pass.new.fixed.limit pass.new.front }
    ensures goes_on { GoesOn B.legal pass.old pass.new }
{
    match shared.act(rt, pass, Job::Open, &[], reply) {
        Done::Opened(Ok(client)) => Ok(client),
        Done::Opened(Err(OpenClientError::Memory)) => Err(Ending::Memory),
        Done::Opened(Err(OpenClientError::JournalFull { kept, limit })) => {
            Err(Ending::JournalFull { kept, limit })
        }
        Done::Opened(Err(OpenClientError::Answer)) => Err(Ending::Answer),
        Done::Told(_) | Done::Closed(_) => unreachable!(),
    }
}

// Ends the duty: takes up what is left, and closes the client.
fn close_duty<B: Serves, K: Sink + Drop, J: Begins, G: Gate, R: Wait>(
    rt: &R,
    shared: &Shared<B>,
    gate: &G,
    link: &Link<B, K, J>,
    duty: Duty<B, K>,
) -> (Worker<B, K>, Ending)
    requires begun { IsBegun J.begun shared.now link.now.between }
    requires keeps { KeepsTo B.legal K.written K.ended K.faults J.begun duty }
    ensures { ClosesTo B.legal K.written K.ended K.faults result.1 J.begun result.0 }
{
    let mut duty = duty;
    let ending = duty.finish::<J, G, R>(rt, shared, gate, &link.between);
    let Duty {
        mut worker,
        mut reply,
        stage: _,
    } = duty;
    worker.close(rt, shared, gate, &mut reply);
    (worker, ending)
}

// The reader's thread, which has the duty at the end.
fn read_alone<B: Serves, S: Source, K: Sink + Drop, J: Begins, G: Gate, R: Wait>(
    rt: &R,
    shared: &Shared<B>,
    gate: &G,
    link: &Link<B, K, J>,
    reader: Reader<S>,
    keeper: Keeper<B, K>,
    frame: Buffer,
) -> (Reader<S>, Worker<B, K>, Ending)
    requires { MayRead B.legal K.written K.ended K.faults J.begun shared.now link.now keeper
        reader }
    ensures { BothLeave B.legal S.left S.faults K.written K.ended K.faults J.begun
        link.now.between reader result.0 result.1 result.2 }
{
    let mut reader = reader;
    let duty = reader.read(rt, shared, gate, link, keeper, frame);
    let (worker, ending) = close_duty(rt, shared, gate, link, duty);
    (reader, worker, ending)
}

// Runs both hands until both have ended. With a prompt source and an open gate, as in the daemon,
// there is one thread, and the helper is only told to stop. Else the helper gets a thread. If the
// system gives none, it runs after the reader, and the reader blocks for ever once more commands
// come than the line holds, which it may not run itself.
fn run_both<
    B: Serves + Send,
    S: Source + Send + Drop,
    K: Sink + Send + Drop,
    J: Begins + Send + Sync,
    G: Gate,
    R: Threads + Wait + Sync,
>(
    rt: &R,
    shared: &Shared<B>,
    gate: &G,
    link: &Link<B, K, J>,
    hands: (Keeper<B, K>, Hand<B, K>),
    reader: Reader<S>,
    frame: Buffer,
) -> (Reader<S>, Worker<B, K>, Ending)
    requires may_read { MayRead B.legal K.written K.ended K.faults J.begun shared.now link.now
        hands.0 reader }
    requires helper { IsHandOf link.now hands.1 }
    ensures { BothLeave B.legal S.left S.faults K.written K.ended K.faults J.begun
        link.now.between reader result.0 result.1 result.2 }
{
    let (keeper, helper) = hands;
    if reader.is_prompt(gate) {
        let ended = read_alone(rt, shared, gate, link, reader, keeper, frame);
        help(rt, shared, gate, link, helper);
        return ended;
    }
    let ((), ended) = thread::join(
        rt,
        move || -> ()
            requires { IsBegun J.begun shared.now link.now.between × IsHandOf link.now helper }
        { help(rt, shared, gate, link, helper) },
        move || -> (Reader<S>, Worker<B, K>, Ending)
            requires { MayRead B.legal K.written K.ended K.faults J.begun shared.now link.now
                keeper reader }
            ensures { BothLeave B.legal S.left S.faults K.written K.ended K.faults J.begun
                link.entry.now.between reader result.0 result.1 result.2 }
        { read_alone(rt, shared, gate, link, reader, keeper, frame) },
    );
    ended
}

// Serves an open client to its end.
fn serve_open<
    B: Serves + Send,
    S: Source + Send + Drop,
    K: Sink + Send + Drop,
    J: Begins + Send + Sync,
    G: Gate,
    R: Threads + Wait + Sync,
>(
    rt: &R,
    shared: &Shared<B>,
    gate: &G,
    link: Link<B, K, J>,
    hands: (Keeper<B, K>, Hand<B, K>),
    reader: Reader<S>,
    frame: Buffer,
) -> (LinkEnd<B, S, K>, WordSeat)
    requires may_read { MayRead B.legal K.written K.ended K.faults J.begun shared.now link hands.0
        reader }
    requires helper { IsHandOf link hands.1 }
    ensures { ServedTo B.legal S.left S.faults K.written K.ended K.faults J.begun
        reader.source result.0 result.1 }
{
    let (reader, mut worker, ending) = run_both(rt, shared, gate, &link, hands, reader, frame);
    let seat = link.between.finish(reader.side, worker.side);
    worker.sink.end();
    let end = LinkEnd {
        source: reader.source,
        sink: worker.sink,
        pass: worker.pass,
        client: Some(worker.client),
        done: worker.done,
        ending,
    };
    (end, seat)
}

// What is left of a connection whose client wasn't opened.
fn refuse<B: Serves, S: Source, K: Sink>(
    pass: Pass<B>,
    source: S,
    sink: K,
    ending: Ending,
) -> (LinkEnd<B, S, K>, Option<WordSeat>)
    requires refused { IsOpeningRefused ending pass 0 }
    ensures client { result.0.client ≡ None }
    ensures no_word { result.1 ≡ None }
    ensures pass { result.0.pass ≡ pass }
    ensures refused { IsOpeningRefused result.0.ending result.0.pass result.0.done }
    ensures source { result.0.source ≡ source }
    ensures sink { K.written result.0.sink ≡ K.written sink }
    ensures ended { K.ended result.0.sink ≡ at_end (K.ended sink) }
    ensures cause { HasEndingCause result.0.ending (S.faults source) (S.faults result.0.source)
        (K.faults sink) (K.faults result.0.sink) }
{
    let mut sink = sink;
    sink.end();
    let end = LinkEnd {
        source,
        sink,
        pass,
        client: None,
        done: 0,
        ending,
    };
    (end, None)
}

// Tells the gate if the journal had no room for the client, or if the device gave a wrong answer
// before.
fn tell_refused<G: Gate>(gate: &G, ending: Ending) {
    match ending {
        Ending::JournalFull { kept: _, limit: _ } => gate.journal_full(),
        Ending::Answer => gate.wrong_answer(),
        _ => {}
    }
}

// Makes both ways, opens the next client, and serves it to its end.
fn serve_fitted<
    B: Serves + Send,
    S: Source + Send + Drop,
    K: Sink + Send + Drop,
    J: Begins + Send + Sync,
    G: Gate,
    R: Threads + Wait + Sync,
>(
    rt: &R,
    alloc: Global,
    shared: &Shared<B>,
    gate: &G,
    outfit: Outfit,
    mut pass: Pass<B>,
    source: S,
    sink: K,
) -> (LinkEnd<B, S, K>, Option<WordSeat>)
    requires begun { J.begun ≡ Some (start_of outfit.between pass
        (K.written sink) (K.ended sink) (K.faults sink)) }
    requires lock { pass.lock ≡ shared.now }
    requires nobody { pass.known ≡ [] }
    requires fresh { IsFresh outfit }
    ensures { LinkLeaves B.legal S.left S.faults K.written K.ended K.faults pass source sink
        result.0 result.1 }
{
    let Outfit {
        between,
        reader: reader_side,
        worker: worker_side,
        intake,
        held,
        frame,
        mut reply,
    } = outfit;
    let Ok((link, hand, helper)) = Link::<B, K, J>::new(alloc, between) else {
        return refuse(pass, source, sink, Ending::Memory);
    };
    let client = match open_client(rt, shared, &mut pass, &mut reply) {
        Ok(client) => client,
        Err(ending) => {
            tell_refused(gate, ending);
            return refuse(pass, source, sink, ending);
        }
    };
    let reader = Reader {
        source,
        intake,
        held,
        side: reader_side,
    };
    let worker = Worker {
        pass,
        sink,
        client,
        done: 0,
        side: worker_side,
    };
    let duty = Duty {
        worker,
        reply,
        stage: Stage::Going,
    };
    let keeper = Keeper {
        hand,
        duty: Some(duty),
    };
    let hands = (keeper, helper);
    let (end, seat) = serve_open(rt, shared, gate, link, hands, reader, frame);
    (end, Some(seat))
}

/// Serves one connection: opens a client, has each command that comes run in a turn of its own,
/// writes its reply, closes the client, and then ends the sink. If reading or the gate may wait, a
/// second thread runs the commands, and this one reads on meanwhile. If neither may wait (a prompt
/// source and an open gate), one thread does both: before each command it reads what has come. A
/// cancel frame cancels the commands that came before it: one that wasn't taken up yet is answered
/// and not run. Before each command it waits for the gate, looks whether the command is canceled,
/// and then waits for the turn. It takes memory only before it opens the client.
///
/// The seat is for proofs: what the word that cancels commands was raised to, and what was loaded
/// from it, in reading and running together.
pub fn serve_link<
    B: Serves + Send,
    S: Source + Send + Drop,
    K: Sink + Send + Drop,
    G: Gate,
    R: Threads + Wait + Sync,
>(
    rt: &R,
    alloc: Global,
    shared: &Shared<B>,
    pass: Pass<B>,
    source: S,
    sink: K,
    gate: &G,
) -> (LinkEnd<B, S, K>, Option<WordSeat>)
    requires lock { pass.lock ≡ shared.now }
    requires nobody { pass.known ≡ [] }
    ensures { LinkLeaves B.legal S.left S.faults K.written K.ended K.faults pass source sink
        result.0 result.1 }
{
    let alone = gate.is_open() && source.is_prompt();
    let Ok(outfit) = make_outfit(rt, alloc, alone) else {
        return refuse(pass, source, sink, Ending::Memory);
    };
    serve_fitted::<B, S, K, Brand, G, R>(rt, alloc, shared, gate, outfit, pass, source, sink)
}
