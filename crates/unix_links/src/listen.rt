// A Unix stream socket that listens at a path.
ghost use Rattle.std.specs.Prelude.{◌≡◌, ◌≤◌, IfOk, IfSome, OnOk, OnErr, IsErr, IsNone};
ghost use Rattle.std.specs.Prelude.{false, true};
ghost use Rattle.tab_spec.specs.Count.{Rose, one_more};
ghost use Rattle.link_port.specs.Port.{Accepted};
ghost use Rattle.unix_links.specs.Listening.{HaveNoFaults, new_listening, untold};

use crate::lock::PathLock;
use crate::socket_file::SocketFile;
use crate::stop::{Closer, Closing, MODE, Stop, stop_path};
use crate::stream::ends_of;
use crate::want::Want;
use crate::{UnixSink, UnixSource};
use libc::net::{SHUT_RD, shutdown};
use link_port::{Acceptor, Failed};
use std::fs::{File, Files};
use std::io;
use std::io::ErrorKind;
use std::marker::Model;
use std::net::Net;
use std::os::fd::AsRawFd;
use std::os::unix::net::{SocketAddr, UnixListener, UnixStream};
use std::path::AsPath;
use std::sync::Wait;
use std::time::Clock;

// A socket that listens, and its file; what a stop is asked through, and its file; what shows that
// the closer was used; and the lock beside them.
struct Bound<'a, R: Files> {
    listener: UnixListener,
    file: SocketFile<'a, R>,
    stop: Stop,
    stop_file: SocketFile<'a, R>,
    closing: Closing,
    lock: PathLock<'a, R>,
}

/// An acceptor of the connections to a Unix stream socket, or one without a socket. It tells none
/// of them. They end where its [`Closer`] is used, and where a stop is asked (`ask_to_stop`); after
/// a stop the input of each connection ends too, behind what has come. Where it is dropped, or
/// fails, it removes the socket's file and that of the one by which a stop is asked, unless other
/// files stand at their paths by then. This project's own.
#[derive(Drop)]
pub struct UnixAcceptor<'a, R: Files + Net> {
    rt: &'a R,
    bound: Option<Bound<'a, R>>,
    faults: u64,
    // Whether standard error has said that a stop is asked.
    is_stop_told: bool,
}

impl<'a, R: Files + Net> Model for UnixAcceptor<'a, R> {
    ghost use Rattle.std.specs.Prelude.{is_some};
    ghost use Rattle.unix_links.specs.Listening.{Listening};

    ghost Value = { Listening };

    ghost view = { λ a. record { is_bound = is_some a.bound; faults = a.faults } };
}

impl<'a, R: Files<File = File> + Net + AllocGlobal> UnixAcceptor<'a, R> {
    /// Listens at this path, which has 1 to 102 bytes, and makes a socket file there, and another
    /// one at the path with `.stop` behind it, by which only its owner can ask for a stop. Beside
    /// them a file at the path with `.lock` behind it is locked as long as the acceptor has its
    /// socket. Where another process has that lock, the error is `AddrInUse`. A socket file to
    /// which no socket is bound any more is removed first. One to which a socket is bound, also one
    /// of another kind, and a file of another kind are left alone: the error is `AddrInUse`. Nobody
    /// sees a connection, and it doesn't wait. The other errors are the system's.
    pub fn bind<P: AsPath>(rt: &'a R, path: P) -> io::Result<UnixAcceptor<'a, R>>
        ensures { IfOk result (λ acceptor. acceptor ≡ new_listening true) }
    {
        let address = SocketAddr::from_pathname(path)?;
        let Some(path) = address.as_pathname() else {
            return Err(io::Error::from(ErrorKind::InvalidInput));
        };
        let path = path.path_text();
        let stop_address = SocketAddr::from_pathname(stop_path(rt, path)?.as_str())?;
        let lock = PathLock::take(rt, path)?;
        // It can be asked to stop before anybody can connect.
        let (stop_listener, stop_file) = SocketFile::listen(rt, stop_address, Some(MODE))?;
        let (listener, file) = SocketFile::listen(rt, address, None)?;
        let stop = Stop::at(stop_listener);
        let closing = Closing::new(rt)?;
        let bound = Bound {
            listener,
            file,
            stop,
            stop_file,
            closing,
            lock,
        };
        Ok(UnixAcceptor {
            rt,
            bound: Some(bound),
            faults: 0,
            is_stop_told: false,
        })
    }
}

impl<'a, R: Files + Net> UnixAcceptor<'a, R> {
    /// An acceptor without a socket, which fails each call.
    pub fn unbound(rt: &'a R) -> UnixAcceptor<'a, R>
        ensures { result ≡ new_listening false }
    {
        UnixAcceptor {
            rt,
            bound: None,
            faults: 0,
            is_stop_told: false,
        }
    }

    /// A closer of this acceptor; without a socket one that ends nothing. It fails where the system
    /// has no descriptor left.
    pub fn closer(&self) -> io::Result<Closer> {
        match &self.bound {
            Some(bound) => bound.closing.closer(),
            None => Ok(Closer::none()),
        }
    }
}

impl<'a, R: Files + Net + Eprint> UnixAcceptor<'a, R> {
    /// Says on standard error that a stop is asked, if one is and that wasn't said before.
    pub fn tell_stop(&mut self)
        ensures { self.new ≡ self.old }
    {
        if self.is_stop_told || !self.is_asked() {
            return;
        }
        let _ = eprintln!(self.rt; "tabrmd: was asked to stop");
        self.is_stop_told = true;
    }

    fn is_asked(&self) -> bool {
        match &self.bound {
            Some(bound) => bound.stop.is_asked(),
            None => false,
        }
    }
}

// The ends of the next connection, where there is a socket. A want that passes is waited out,
// before the connection is accepted and before its second descriptor is made.
fn accept_on<R: Files + Net + Clock + Wait + Eprint>(
    rt: &R,
    bound: &Option<Bound<'_, R>>,
) -> io::Result<Option<(UnixSource, UnixSink)>>
    ensures ends { IfOk result (λ link. IfSome link (λ ends. HaveNoFaults ends.0 ends.1)) }
    ensures unbound { IsNone bound.now → IsErr result }
{
    let Some(bound) = bound else {
        return Err(io::Error::from(ErrorKind::NotConnected));
    };
    let mut want = Want::new();
    let Some(reader) = accept_stream(rt, bound, &mut want)? else {
        return Ok(None);
    };
    let Some(writer) = clone_of(rt, &reader, bound.stop, &mut want)? else {
        refuse(&bound.listener);
        return Ok(None);
    };
    Ok(Some(ends_of(reader, writer, bound.stop)))
}

// The stream of the next connection. `None` where a stop was asked or the closer used before one
// came; clients are refused then.
fn accept_stream<R: Files + Clock + Wait + Eprint>(
    rt: &R,
    bound: &Bound<'_, R>,
    want: &mut Want,
) -> io::Result<Option<UnixStream>> {
    for _ in rt.forever() {
        let listener = &bound.listener;
        if bound
            .stop
            .wait_to_accept(listener.as_raw_fd(), &bound.closing)
        {
            refuse(listener);
            return Ok(None);
        }
        match listener.accept() {
            Ok((stream, _)) => return Ok(Some(stream)),
            Err(error) => want.wait_out(rt, error)?,
        }
    }
    unreachable!()
}

// Has clients refused from now on.
fn refuse(listener: &UnixListener) {
    shutdown(listener.as_raw_fd(), SHUT_RD);
}

// Another descriptor of this stream. `None` where there is none before a stop is asked.
fn clone_of<R: Clock + Wait + Eprint>(
    rt: &R,
    stream: &UnixStream,
    stop: Stop,
    want: &mut Want,
) -> io::Result<Option<UnixStream>> {
    for _ in rt.forever() {
        match stream.try_clone() {
            Ok(clone) => return Ok(Some(clone)),
            Err(error) => want.wait_out(rt, error)?,
        }
        if stop.is_asked() {
            return Ok(None);
        }
    }
    unreachable!()
}

impl<'a, R: Files + Net + Clock + Wait + Eprint> Acceptor for UnixAcceptor<'a, R> {
    type In = UnixSource;

    type Out = UnixSink;

    ghost coming = { λ _. untold };

    ghost faults = { λ a. a.faults };

    /// Waits for a connection. Once a stop is asked or the closer is used, each later call answers
    /// `None`; a call that has accepted a connection by then may still hand it out. That a stop was
    /// asked is told on standard error once. A want of the system's that passes, as of descriptors
    /// or of memory, is waited out, and told there once. Any other refusal is a failure: it is told
    /// there too, and the socket is closed and its files removed, so that clients are refused from
    /// then on.
    fn next(&mut self) -> Result<Option<(UnixSource, UnixSink)>, Failed>
        ensures accepted { IfOk result (λ link. Accepted untold untold link) }
        ensures err { OnErr result (untold ≡ untold) }
        ensures fault { OnErr result (Rose self.old.faults self.new.faults) }
        ensures quiet { OnOk result (self.new.faults ≡ self.old.faults) }
        ensures count { self.old.faults ≤ self.new.faults }

        // Without a socket there are none.
        ensures unbound { self.old.is_bound ≡ false → IsErr result }
        ensures ends { IfOk result (λ link. IfSome link (λ ends. HaveNoFaults ends.0 ends.1)) }

        ensures faults_err { OnErr result (self.new.faults ≡ one_more self.old.faults) }

        // After a failure there is no socket any more.
        ensures kept { OnOk result (self.new.is_bound ≡ self.old.is_bound) }
        ensures closed { OnErr result (self.new.is_bound ≡ false) }
    {
        match accept_on(self.rt, &self.bound) {
            Ok(Some(ends)) => Ok(Some(ends)),
            Ok(None) => {
                self.tell_stop();
                Ok(None)
            }
            Err(error) => {
                if self.bound.is_some() {
                    let _ = eprintln!(self.rt; "tabrmd: can't accept connections: {error}");
                }
                self.bound = None;
                self.faults = self.faults.saturating_add(1);
                Err(Failed)
            }
        }
    }

    fn fault_count(&self) -> u64 {
        self.faults
    }
}

// The files go before the socket closes: so nobody takes the place in between. The lock goes last.
impl<'a, R: Files> Drop for Bound<'a, R> {
    fn drop(self) {
        let Bound {
            listener,
            file,
            stop: _,
            stop_file,
            closing,
            lock,
        } = self;
        drop(file);
        drop(stop_file);
        drop(listener);
        drop(closing);
        drop(lock);
    }
}
