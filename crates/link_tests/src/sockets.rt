//! Connections over Unix stream sockets, with both ends in one process.
use link_port::{Acceptor, Failed, Sink, Source};
use std::fs::{File, Files};
use std::io::{ErrorKind, Write};
use std::net::Net;
use std::os::unix::net::{UnixListener, UnixStream};
use std::sync::Wait;
use std::test::Fail;
use std::time::Clock;
use std::{fs, io, process};
use unix_links::{ShutSink, Shuts, UnixAcceptor, UnixSink, UnixSource, connect};

// What listening at a path and waiting for connections needs of the system.
trait System: Files<File = File> + Net + Clock + Wait + Eprint + AllocGlobal {}

impl<R: Files<File = File> + Net + Clock + Wait + Eprint + AllocGlobal> System for R {}

// The ends of one connection: first those of the client, which its replies come from and its
// commands go to.
#[derive(Drop)]
struct Link {
    replies: UnixSource,
    commands: UnixSink,
    source: UnixSource,
    sink: UnixSink,
}

fn link_at<R: System>(
    rt: &R,
    acceptor: &mut UnixAcceptor<'_, R>,
    path: &str,
) -> Result<Link, Fail> {
    let (replies, commands) = connect(rt, path)?;
    let (source, sink) = acceptor.next()?.ok_or("no connection")?;
    Ok(Link {
        replies,
        commands,
        source,
        sink,
    })
}

// Whether these bytes, at most four, go in at one end and come out at the other.
fn carries(sink: &mut UnixSink, source: &mut UnixSource, bytes: &[u8]) -> bool {
    let mut into = [0; 4];
    sink.push(bytes) == Ok(bytes.len())
        && source.pull(&mut into) == Ok(bytes.len())
        && into.starts_with(bytes)
}

fn is_at_end(source: &mut UnixSource) -> bool {
    source.pull(&mut [0; 4]) == Ok(0)
}

// Uses both ends, and drops the client's: its going away is seen.
fn is_used(link: Link) -> bool {
    let Link {
        mut replies,
        mut commands,
        mut source,
        mut sink,
    } = link;
    let carried = carries(&mut commands, &mut source, &[1, 2, 3])
        && carries(&mut sink, &mut replies, &[4, 5]);
    drop(replies);
    drop(commands);
    carried && is_at_end(&mut source) && sink.push(&[6]) == Err(Failed) && sink.fault_count() == 1
}

fn carries_both_ways<R: System>(rt: &R, path: &str) -> Result<bool, Fail> {
    let mut acceptor = UnixAcceptor::bind(rt, path)?;
    Ok(is_used(link_at(rt, &mut acceptor, path)?))
}

#[test]
fn a_link_carries_bytes_both_ways(rt: HostRuntime) -> Result<(), Fail> {
    let path = format!(in rt.alloc(); "/tmp/link_tests_{}.link", process::id(rt.process()))?;
    assert!(rt; carries_both_ways(&rt, path.as_str())? && !fs::exists(&rt, path.as_str())?);
    Ok(())
}

// Ends the sink twice: its peer reads what was written, and then the end.
fn ends_once(link: &mut Link) -> bool {
    let taken = link.sink.push(&[4, 5]);
    link.sink.end();
    link.sink.end();
    taken == Ok(2)
        && link.replies.pull(&mut [0; 4]) == Ok(2)
        && is_at_end(&mut link.replies)
        && link.commands.push(&[1]) == Err(Failed)
        && is_at_end(&mut link.source)
        && link.sink.fault_count() == 0
}

fn ends<R: System>(rt: &R, path: &str) -> Result<bool, Fail> {
    let mut acceptor = UnixAcceptor::bind(rt, path)?;
    Ok(ends_once(&mut link_at(rt, &mut acceptor, path)?))
}

#[test]
fn an_end_is_seen_by_the_peer(rt: HostRuntime) -> Result<(), Fail> {
    let path = format!(in rt.alloc(); "/tmp/link_tests_{}.end", process::id(rt.process()))?;
    assert!(rt; ends(&rt, path.as_str())?);
    Ok(())
}

// What has come to this source, and whether that are these bytes.
fn has_come(source: &mut UnixSource, bytes: &[u8]) -> bool {
    let mut into = [0; 4];
    source.pull_ready(&mut into) == Ok(Some(bytes.len())) && into.starts_with(bytes)
}

// Whether nothing has come to this source, nor its end, and nothing comes where no room is.
fn is_quiet(source: &mut UnixSource) -> bool {
    source.pull_ready(&mut [0; 4]) == Ok(None) && source.pull_ready(&mut []) == Ok(None)
}

// Whether the source says at each moment what has come, and at last the end.
fn says_at_once(link: &mut Link) -> bool {
    let began = link.source.is_prompt() && is_quiet(&mut link.source);
    let taken = link.commands.push(&[1, 2, 3, 4, 5]);
    let come = has_come(&mut link.source, &[1, 2, 3, 4]) && has_come(&mut link.source, &[5]);
    let quiet = is_quiet(&mut link.source);
    link.commands.end();
    began
        && taken == Ok(5)
        && come
        && quiet
        && has_come(&mut link.source, &[])
        && has_come(&mut link.source, &[])
        && has_come(&mut link.replies, &[])
        && link.source.fault_count() == 0
}

fn has_said_at_once<R: System>(rt: &R, path: &str) -> Result<bool, Fail> {
    let mut acceptor = UnixAcceptor::bind(rt, path)?;
    Ok(says_at_once(&mut link_at(rt, &mut acceptor, path)?))
}

#[test]
fn a_source_says_at_once_what_has_come(rt: HostRuntime) -> Result<(), Fail> {
    let path = format!(in rt.alloc(); "/tmp/link_tests_{}.ready", process::id(rt.process()))?;
    assert!(rt; has_said_at_once(&rt, path.as_str())?);
    Ok(())
}

// What a peer hasn't read when it goes away resets the connection, behind what came before.
fn is_reset(link: Link) -> bool {
    let Link {
        replies,
        mut commands,
        mut source,
        mut sink,
    } = link;
    let taken = (commands.push(&[1]), sink.push(&[2]));
    drop(replies);
    drop(commands);
    taken == (Ok(1), Ok(1))
        && has_come(&mut source, &[1])
        && source.pull_ready(&mut [0; 4]) == Err(Failed)
        && source.fault_count() == 1
        && has_come(&mut source, &[])
        && source.fault_count() == 1
}

fn has_been_reset<R: System>(rt: &R, path: &str) -> Result<bool, Fail> {
    let mut acceptor = UnixAcceptor::bind(rt, path)?;
    Ok(is_reset(link_at(rt, &mut acceptor, path)?))
}

#[test]
fn a_failure_is_told_at_once(rt: HostRuntime) -> Result<(), Fail> {
    let path = format!(in rt.alloc(); "/tmp/link_tests_{}.reset", process::id(rt.process()))?;
    assert!(rt; has_been_reset(&rt, path.as_str())?);
    Ok(())
}

// Whether nobody can listen at this path, for this reason.
fn is_refused<R: System>(rt: &R, path: &str, reason: ErrorKind) -> bool {
    match UnixAcceptor::bind(rt, path) {
        Ok(_) => false,
        Err(e) => e.kind() == reason,
    }
}

// A socket that is left over is taken over, and one at which somebody listens isn't.
fn is_taken_over<R: System>(rt: &R, path: &str) -> Result<bool, Fail> {
    let acceptor = UnixAcceptor::bind(rt, path)?;
    let refused = is_refused(rt, path, ErrorKind::AddrInUse);
    let connected = connect(rt, path).is_ok();
    drop(acceptor);
    Ok(refused && connected)
}

#[test]
fn a_left_over_socket_alone_is_taken_over(rt: HostRuntime) -> Result<(), Fail> {
    let path = format!(in rt.alloc(); "/tmp/link_tests_{}.left", process::id(rt.process()))?;
    drop(UnixListener::bind(&rt, path.as_str())?);
    let left = fs::exists(&rt, path.as_str())?;
    assert!(rt; left && is_taken_over(&rt, path.as_str())?);
    fs::write(&rt, path.as_str(), "text")?;
    let refused = is_refused(&rt, path.as_str(), ErrorKind::AddrInUse);
    fs::remove_file(&rt, path.as_str())?;
    assert!(rt; refused && is_refused(&rt, "", ErrorKind::InvalidInput));
    Ok(())
}

#[test]
fn another_file_stays_at_the_end(rt: HostRuntime) -> Result<(), Fail> {
    let path = format!(in rt.alloc(); "/tmp/link_tests_{}.other", process::id(rt.process()))?;
    let acceptor = UnixAcceptor::bind(&rt, path.as_str())?;
    fs::remove_file(&rt, path.as_str())?;
    let _later = UnixListener::bind(&rt, path.as_str())?;
    drop(acceptor);
    connect(&rt, path.as_str())?;
    fs::remove_file(&rt, path.as_str())?;
    Ok(())
}

// Whether the lock file is there as long as somebody listens, and keeps others away.
fn is_locked<R: System>(rt: &R, path: &str, lock: &str) -> Result<bool, Fail> {
    let acceptor = UnixAcceptor::bind(rt, path)?;
    let is_file = fs::metadata(rt, lock)?.is_file();
    let refused = is_refused(rt, path, ErrorKind::AddrInUse);
    let connected = connect(rt, path).is_ok();
    drop(acceptor);
    Ok(is_file && refused && connected)
}

#[test]
fn a_lock_file_lives_as_long_as_its_acceptor(rt: HostRuntime) -> Result<(), Fail> {
    let path = format!(in rt.alloc(); "/tmp/link_tests_{}.locked", process::id(rt.process()))?;
    let lock = format!(in rt.alloc(); "{path}.lock")?;
    let locked = is_locked(&rt, path.as_str(), lock.as_str())?;
    assert!(rt; locked && !fs::exists(&rt, lock.as_str())?);
    Ok(())
}

// Whether nothing is taken over while another one has the lock.
fn stays_left_over<R: System>(rt: &R, path: &str, lock: &str) -> Result<bool, Fail> {
    let held = File::create(rt, lock)?;
    held.lock()?;
    let refused = is_refused(rt, path, ErrorKind::AddrInUse);
    drop(held);
    Ok(refused && fs::exists(rt, path)? && fs::exists(rt, lock)?)
}

#[test]
fn without_the_lock_nothing_is_taken_over(rt: HostRuntime) -> Result<(), Fail> {
    let path = format!(in rt.alloc(); "/tmp/link_tests_{}.held", process::id(rt.process()))?;
    let lock = format!(in rt.alloc(); "{path}.lock")?;
    drop(UnixListener::bind(&rt, path.as_str())?);
    assert!(rt; stays_left_over(&rt, path.as_str(), lock.as_str())?);
    drop(UnixAcceptor::bind(&rt, path.as_str())?);
    assert!(rt; !fs::exists(&rt, path.as_str())? && !fs::exists(&rt, lock.as_str())?);
    Ok(())
}

// Whether nobody can listen beside this listener, and nobody connected to find that out.
fn keeps_others_away<R: System>(rt: &R, path: &str) -> Result<bool, Fail> {
    let listener = UnixListener::bind(rt, path)?;
    listener.set_nonblocking(true)?;
    let refused = is_refused(rt, path, ErrorKind::AddrInUse);
    let nobody = listener.accept().err().map(|e| e.kind()) == Some(ErrorKind::WouldBlock);
    Ok(refused && nobody)
}

#[test]
fn a_refused_start_leaves_no_lock_file(rt: HostRuntime) -> Result<(), Fail> {
    let path = format!(in rt.alloc(); "/tmp/link_tests_{}.bound", process::id(rt.process()))?;
    let lock = format!(in rt.alloc(); "{path}.lock")?;
    let kept = keeps_others_away(&rt, path.as_str())?;
    assert!(rt; kept && !fs::exists(&rt, lock.as_str())?);
    fs::remove_file(&rt, path.as_str())?;
    Ok(())
}

fn has_no_more<R: System>(acceptor: &mut UnixAcceptor<'_, R>) -> bool {
    match acceptor.next() {
        Ok(link) => link.is_none(),
        Err(Failed) => false,
    }
}

// Whether these bytes had come, and nothing more comes: a later write fails.
fn ends_behind(link: &mut Link, count: usize) -> bool {
    link.source.pull(&mut [0; 4]) == Ok(count)
        && link.commands.push(&[9]) == Err(Failed)
        && is_at_end(&mut link.source)
}

// Asks for a stop while one connection has sent something and another nothing.
fn stops_both<R: System>(
    rt: &R,
    acceptor: &mut UnixAcceptor<'_, R>,
    stop: &str,
    busy: &mut Link,
    idle: &mut Link,
) -> Result<bool, Fail> {
    let sent = busy.commands.push(&[1, 2, 3]);
    let asking = UnixStream::connect(rt, stop)?;
    let none = has_no_more(acceptor) && has_no_more(acceptor);
    let ended = ends_behind(busy, 3) && is_at_end(&mut idle.source);
    drop(asking);
    // replies still come
    Ok(
        sent == Ok(3)
            && none
            && ended
            && idle.source.fault_count() == 0
            && carries(&mut busy.sink, &mut busy.replies, &[4, 5]),
    )
}

// The same, while a third connection waits to be accepted.
fn stops_beside<R: System>(
    rt: &R,
    acceptor: &mut UnixAcceptor<'_, R>,
    path: &str,
    stop: &str,
    busy: &mut Link,
) -> Result<bool, Fail> {
    let mut idle = link_at(rt, acceptor, path)?;
    let late = connect(rt, path)?;
    let stopped = stops_both(rt, acceptor, stop, busy, &mut idle);
    drop(late);
    stopped
}

fn stops<R: System>(rt: &R, path: &str, stop: &str) -> Result<bool, Fail> {
    let mut acceptor = UnixAcceptor::bind(rt, path)?;
    let mut busy = link_at(rt, &mut acceptor, path)?;
    let stopped = stops_beside(rt, &mut acceptor, path, stop, &mut busy)?;
    Ok(stopped && connect(rt, path).is_err())
}

#[test]
fn a_stop_ends_all_input_behind_what_has_come(rt: HostRuntime) -> Result<(), Fail> {
    let path = format!(in rt.alloc(); "/tmp/link_tests_{}.stopped", process::id(rt.process()))?;
    let stop = format!(in rt.alloc(); "{path}.stop")?;
    assert!(rt; stops(&rt, path.as_str(), stop.as_str())?);
    assert!(rt; !fs::exists(&rt, path.as_str())? && !fs::exists(&rt, stop.as_str())?);
    Ok(())
}

// A closer that is dropped ends nothing. After one that is used nobody more is accepted, and the
// connection that is open goes on.
fn closes<R: System>(rt: &R, path: &str) -> Result<bool, Fail> {
    let mut acceptor = UnixAcceptor::bind(rt, path)?;
    drop(acceptor.closer()?);
    let link = link_at(rt, &mut acceptor, path)?;
    acceptor.closer()?.close();
    let none = has_no_more(&mut acceptor) && has_no_more(&mut acceptor);
    Ok(none && connect(rt, path).is_err() && is_used(link))
}

#[test]
fn a_closer_ends_accepting_alone(rt: HostRuntime) -> Result<(), Fail> {
    let path = format!(in rt.alloc(); "/tmp/link_tests_{}.closed", process::id(rt.process()))?;
    assert!(rt; closes(&rt, path.as_str())?);
    Ok(())
}

// Asks for a stop. What had come is still given, a later write fails, and then comes the end.
fn sees_stop<R: System>(rt: &R, stop: &str, link: &mut Link) -> Result<bool, Fail> {
    let sent = link.commands.push(&[1, 2]);
    let asking = UnixStream::connect(rt, stop)?;
    let taken = link.source.pull_ready(&mut [0; 1]);
    let refused = link.commands.push(&[3]);
    let rest = link.source.pull_ready(&mut [0; 4]);
    let end = link.source.pull_ready(&mut [0; 4]);
    drop(asking);
    Ok(
        sent == Ok(2)
            && taken == Ok(Some(1))
            && refused == Err(Failed)
            && rest == Ok(Some(1))
            && end == Ok(Some(0)),
    )
}

fn is_stop_seen<R: System>(rt: &R, path: &str, stop: &str) -> Result<bool, Fail> {
    let mut acceptor = UnixAcceptor::bind(rt, path)?;
    sees_stop(rt, stop, &mut link_at(rt, &mut acceptor, path)?)
}

#[test]
fn a_stop_is_seen_without_waiting(rt: HostRuntime) -> Result<(), Fail> {
    let path = format!(in rt.alloc(); "/tmp/link_tests_{}.seen", process::id(rt.process()))?;
    let stop = format!(in rt.alloc(); "{path}.stop")?;
    assert!(rt; is_stop_seen(&rt, path.as_str(), stop.as_str())?);
    Ok(())
}

// Asks for a stop while much has come. Eight more reads see it.
fn stops_a_busy_one<R: System>(rt: &R, stop: &str, link: &mut Link) -> Result<bool, Fail> {
    let sent = link.commands.push(&[7; 12]);
    let mut come = link.source.pull(&mut [0; 1]) == Ok(1);
    let asking = UnixStream::connect(rt, stop)?;
    for _ in 0..8 {
        come = come && link.source.pull(&mut [0; 1]) == Ok(1);
    }
    let refused = link.commands.push(&[9]);
    drop(asking);
    Ok(sent == Ok(12) && come && refused == Err(Failed))
}

fn is_busy_one_stopped<R: System>(rt: &R, path: &str, stop: &str) -> Result<bool, Fail> {
    let mut acceptor = UnixAcceptor::bind(rt, path)?;
    stops_a_busy_one(rt, stop, &mut link_at(rt, &mut acceptor, path)?)
}

#[test]
fn a_busy_peer_does_not_put_a_stop_off(rt: HostRuntime) -> Result<(), Fail> {
    let path = format!(in rt.alloc(); "/tmp/link_tests_{}.busy", process::id(rt.process()))?;
    let stop = format!(in rt.alloc(); "{path}.stop")?;
    assert!(rt; is_busy_one_stopped(&rt, path.as_str(), stop.as_str())?);
    Ok(())
}

// A stream that keeps what it is given.
#[derive(Drop)]
struct Kept<'a> {
    bytes: &'a mut Vec<u8>,
}

impl<'a> Shuts for Kept<'a> {
    fn shut(&self) {}
}

impl<'a> Write for Kept<'a> {
    fn write(&mut self, buf: &[u8]) -> io::Result<usize> {
        self.bytes.extend_from_slice(buf)?;
        Ok(buf.len())
    }

    fn flush(&mut self) -> io::Result<()> {
        Ok(())
    }
}

#[test]
fn a_sink_writes_long_bytes_as_they_are(rt: HostRuntime) -> Result<(), Fail> {
    let alloc = rt.alloc();
    let mut kept = Vec::new(alloc);
    let bytes = vec![in alloc; 7; 2000]?;
    let mut sink = ShutSink::new(Kept { bytes: &mut kept });
    assert_eq!(rt; sink.push(bytes.as_slice()), Ok(2000));
    drop(sink);
    assert_eq!(rt; kept.as_slice(), bytes.as_slice());
    Ok(())
}
