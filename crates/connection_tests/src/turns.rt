//! Turns at a value in memory: what is answered, and what the history is in the end.

ghost use Rattle.std.specs.Prelude.{◌≡◌, [], IfOk};

use crate::book::{ASKED, Book};
use broker_lock::{Closed, Done, Job, OpenClientError, Pass, Serves, Shared, Told};
use std::alloc::{AllocError, Global};
use std::sync::Wait;
use std::test::Fail;
use tab_bytes::Buffer;

// The replies to a command without room, and to one that the value refuses.
const TOLD_FULL: [u8; 10] = [0x80, 0x01, 0, 0, 0, 10, 0, 0x0b, 0, 0x03];

const TOLD_ANSWER: [u8; 10] = [0x80, 0x01, 0, 0, 0, 10, 0, 0x0b, 0, 0x04];

// An empty history of this limit under a lock, and the pass to it.
fn locked(alloc: Global, limit: u32) -> Result<(Shared<Book>, Pass<Book>), AllocError>
    ensures lock { IfOk result (λ made. made.1.lock ≡ made.0) }
    ensures nobody { IfOk result (λ made. made.1.known ≡ []) }
    ensures parts { IfOk result (λ made. made.1.parts ≡ 1024) }
{
    match Shared::new(alloc, Book::new(alloc, limit)?) {
        Ok(made) => Ok(made),
        Err((error, _)) => Err(error),
    }
}

// A client, and the places of its three commands in the history, as it was told them.
#[derive(Drop)]
struct Visit {
    client: u32,
    places: [u8; 3],
}

// Opens a client, has three commands run for it, and closes it.
fn make_visit<R: Wait>(
    rt: &R,
    shared: &Shared<Book>,
    pass: &mut Pass<Book>,
    reply: &mut Buffer,
) -> Option<Visit>
    requires lock { pass.old.lock ≡ shared.now }
    requires nobody { pass.old.known ≡ [] }
    ensures lock { pass.new.lock ≡ pass.old.lock }
    ensures parts { pass.new.parts ≡ pass.old.parts }
{
    let Done::Opened(Ok(client)) = shared.act(rt, pass, Job::Open, &[], reply) else {
        return None;
    };
    let mut places = [0; 3];
    for i in 0..3 {
        let job = Job::Command {
            client,
            number: i as u64 + 1,
        };
        if shared.act(rt, pass, job, &ASKED, reply) != Done::Told(Told::Entered) {
            return None;
        }
        let Some(place) = reply.as_slice().last() else {
            return None;
        };
        places[i] = *place;
    }
    let closed = shared.act(rt, pass, Job::Close { client }, &[], reply);
    if closed != Done::Closed(Closed::Orphans(1)) {
        return None;
    }
    Some(Visit { client, places })
}

// Cuts a pass of a pass, visits with it, and has one pass again.
fn visit_in_parts<R: Wait>(
    rt: &R,
    shared: &Shared<Book>,
    pass: &mut Pass<Book>,
    reply: &mut Buffer,
) -> Option<Visit>
    requires lock { pass.old.lock ≡ shared.now }
    requires parts { pass.old.parts ≡ 1024 }
    ensures lock { pass.new.lock ≡ pass.old.lock }
    ensures parts { pass.new.parts ≡ pass.old.parts }
{
    let mut first = shared.split(pass);
    let second = shared.split(pass);
    shared.join(&mut first, second);
    let mut third = shared.split(&mut first);
    let visit = make_visit(rt, shared, &mut third, reply);
    shared.join(&mut first, third);
    shared.join(pass, first);
    visit
}

// Opens a client, and has its first command run or canceled.
fn ask_one<R: Wait>(
    rt: &R,
    shared: &Shared<Book>,
    pass: &mut Pass<Book>,
    reply: &mut Buffer,
    bytes: &[u8],
    is_canceled: bool,
) -> Done
    requires lock { pass.old.lock ≡ shared.now }
    requires nobody { pass.old.known ≡ [] }
    ensures lock { pass.new.lock ≡ pass.old.lock }
    ensures parts { pass.new.parts ≡ pass.old.parts }
{
    let opened = shared.act(rt, pass, Job::Open, &[], reply);
    let Done::Opened(Ok(client)) = opened else {
        return opened;
    };
    if is_canceled {
        let job = Job::Cancel {
            client,
            number: 1,
            upto: 1,
        };
        return shared.act(rt, pass, job, bytes, reply);
    }
    let job = Job::Command { client, number: 1 };
    shared.act(rt, pass, job, bytes, reply)
}

// What the last job is answered, its reply, and how many entries there are then, over a history of
// this limit.
fn ask_over<R: Wait>(
    rt: &R,
    alloc: Global,
    limit: u32,
    bytes: &[u8],
    is_canceled: bool,
) -> Result<(Done, Buffer, usize), AllocError> {
    let mut reply = Buffer::new(alloc)?;
    let (shared, mut pass) = locked(alloc, limit)?;
    let done = ask_one(rt, &shared, &mut pass, &mut reply, bytes, is_canceled);
    let book = shared.close(pass);
    Ok((done, reply, book.items().len()))
}

#[test]
fn what_is_refused_has_no_entry(rt: HostRuntime) -> Result<(), Fail> {
    let no_client = OpenClientError::JournalFull {
        kept: 0,
        limit: 127,
    };
    let no_room = Told::JournalFull {
        kept: 64,
        limit: 128,
    };
    let refused = Done::Told(Told::Answer);
    let rows: [(u32, &[u8], bool, Done, &[u8], usize); 4] = [
        (127, &ASKED, false, Done::Opened(Err(no_client)), &[], 0),
        (128, &ASKED, false, Done::Told(no_room), &TOLD_FULL, 1),
        (1_000_000, &[5, 6], false, refused, &TOLD_ANSWER, 1),
        (1_000_000, &[5], true, refused, &TOLD_ANSWER, 1),
    ];
    for (limit, bytes, is_canceled, want, told, count) in rows {
        let (done, reply, entries) = ask_over(&rt, rt.alloc(), limit, bytes, is_canceled)?;
        assert!(rt; done == want && reply.as_slice() == told && entries == count);
    }
    Ok(())
}

// What two commands of a client are answered, its close, and another opening, where the first
// command meets a wrong answer.
fn ask_after_wrong<R: Wait>(
    rt: &R,
    shared: &Shared<Book>,
    pass: &mut Pass<Book>,
    reply: &mut Buffer,
) -> [Done; 4]
    requires lock { pass.old.lock ≡ shared.now }
    requires nobody { pass.old.known ≡ [] }
    ensures lock { pass.new.lock ≡ pass.old.lock }
    ensures parts { pass.new.parts ≡ pass.old.parts }
{
    let mut told = [Done::Closed(Closed::Clean); 4];
    let Done::Opened(Ok(client)) = shared.act(rt, pass, Job::Open, &[], reply) else {
        return told;
    };
    let commands: [&[u8]; 2] = [&[5, 6], &ASKED];
    for i in 0..2 {
        let job = Job::Command {
            client,
            number: i as u64 + 1,
        };
        told[i] = shared.act(rt, pass, job, commands[i], reply);
    }
    told[2] = shared.act(rt, pass, Job::Close { client }, &[], reply);
    told[3] = shared.act(rt, pass, Job::Open, &[], reply);
    told
}

#[test]
fn a_wrong_answer_is_told_from_then_on(rt: HostRuntime) -> Result<(), Fail> {
    let alloc = rt.alloc();
    let mut reply = Buffer::new(alloc)?;
    let (shared, mut pass) = locked(alloc, 1_000_000)?;
    let told = ask_after_wrong(&rt, &shared, &mut pass, &mut reply);
    shared.close(pass);
    let command = Done::Told(Told::Answer);
    let opening = Done::Opened(Err(OpenClientError::Answer));
    assert!(rt; told == [command, command, Done::Closed(Closed::Answer), opening]);
    Ok(())
}

#[test]
fn a_pass_is_cut_from_a_pass(rt: HostRuntime) -> Result<(), Fail> {
    let alloc = rt.alloc();
    let mut reply = Buffer::new(alloc)?;
    let (shared, mut pass) = locked(alloc, 1_000_000)?;
    let visit = visit_in_parts(&rt, &shared, &mut pass, &mut reply);
    let book = shared.close(pass);
    let Visit { client, places } = visit.ok_or("it was refused")?;
    assert_eq!(rt; book.items().len(), 5);
    for i in 0..3 {
        assert!(rt; book.has_told(client, i as u64 + 1, places[i]));
    }
    Ok(())
}

fn cross<S: Send + Sync, P: Send>() {}

// A lock and its passes cross threads where the value does.
fn lock_crosses<B: Serves + Send>() {
    cross::<Shared<B>, Pass<B>>();
}

#[test]
fn a_lock_crosses_threads() {
    lock_crosses::<Book>();
}
