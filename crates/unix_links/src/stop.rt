// How a daemon is asked to end, and how it stops accepting. Beside the socket at its path it
// listens at a second one, and whoever connects there asks. No connection is accepted there: the
// first one stays in the queue, so that everybody who looks finds it, the acceptor and each end of
// a connection.

use libc::net::{POLLIN, SHUT_WR, poll, shutdown};
use libc::types::pollfd;
use std::io;
use std::io::{ErrorKind, Read};
use std::net::Net;
use std::os::fd::{AsRawFd, IntoRawFd, RawFd};
use std::os::unix::net::{UnixListener, UnixStream};

// No limit on a wait.
const FOREVER: i32 = -1;

// A descriptor that a wait passes over.
const NO_DESCRIPTOR: RawFd = -1;

/// The permissions of the second socket's file: only its owner may connect.
pub(crate) const MODE: u32 = 0o600;

/// The path of the second socket beside the one at this path. It fails only for want of memory.
pub(crate) fn stop_path<R: AllocGlobal>(rt: &R, path: &str) -> io::Result<String> {
    Ok(format!(in rt.alloc(); "{path}.stop")?)
}

/// Ends the accepting of connections from within the process. Those that are open go on.
#[derive(Drop)]
pub struct Closer {
    end: Option<UnixStream>,
}

impl Closer {
    /// Nothing is ended by it.
    pub fn none() -> Closer {
        Closer { end: None }
    }

    /// The acceptor accepts no more connections, even if it waits for one. Clients are refused once
    /// its `next` has seen that.
    pub fn close(&self) {
        if let Some(end) = &self.end {
            shutdown(end.as_raw_fd(), SHUT_WR);
        }
    }
}

/// What an acceptor waits on to see that its closer was used. It has both ends of a pair of
/// streams, so that a closer that is dropped ends nothing.
#[derive(Drop)]
pub(crate) struct Closing {
    far: UnixStream,
    end: UnixStream,
}

impl Closing {
    pub(crate) fn new<R: Net>(rt: &R) -> io::Result<Closing> {
        let (far, end) = UnixStream::pair(rt)?;
        Ok(Closing { far, end })
    }

    pub(crate) fn closer(&self) -> io::Result<Closer> {
        Ok(Closer {
            end: Some(self.far.try_clone()?),
        })
    }

    fn fd(&self) -> RawFd {
        self.end.as_raw_fd()
    }
}

/// What tells that a daemon is asked to end.
#[derive(Clone, Copy)]
pub(crate) struct Stop {
    listener: RawFd,
}

impl Stop {
    /// It is asked where somebody has connected to this listener, which is never closed: so its
    /// number is no other's later, and those who asked see an end only where the process ends.
    pub(crate) fn at(listener: UnixListener) -> Stop {
        Stop {
            listener: listener.into_raw_fd(),
        }
    }

    /// It is never asked.
    pub(crate) fn never() -> Stop {
        Stop {
            listener: NO_DESCRIPTOR,
        }
    }

    /// Whether it is asked.
    pub(crate) fn is_asked(self) -> bool {
        is_ready(self.listener, POLLIN, 0)
    }

    /// Waits until this descriptor is ready for these events, or until a stop is asked, and answers
    /// whether that is so.
    pub(crate) fn wait(self, fd: RawFd, events: i16) -> bool {
        let mut both = [asked(fd, events), asked(self.listener, POLLIN)];
        let _ = poll(&mut both, FOREVER);
        both[1].revents != 0
    }

    /// Waits until a connection comes to this listener, until a stop is asked or the closer is
    /// used, and answers whether one of the last two is so.
    pub(crate) fn wait_to_accept(self, listener: RawFd, closing: &Closing) -> bool {
        let mut all = [
            asked(listener, POLLIN),
            asked(self.listener, POLLIN),
            asked(closing.fd(), POLLIN),
        ];
        let _ = poll(&mut all, FOREVER);
        all[1].revents != 0 || all[2].revents != 0
    }
}

/// Waits at most so many milliseconds until this descriptor is ready for these events, and answers
/// whether it is.
pub(crate) fn is_ready(fd: RawFd, events: i16, millis: i32) -> bool {
    let mut one = [asked(fd, events)];
    let _ = poll(&mut one, millis);
    one[0].revents != 0
}

fn asked(fd: RawFd, events: i16) -> pollfd {
    pollfd {
        fd,
        events,
        revents: 0,
    }
}

/// Asks the daemon that listens at this path, which has 1 to 102 bytes, to end, and returns once
/// its process has. The errors are the system's: nobody listens there, or only others may ask. One
/// who answers anything is no such daemon: the error is `InvalidData`. This project's own.
pub fn ask_to_stop<R: Net + AllocGlobal>(rt: &R, path: &str) -> io::Result<()> {
    let path = stop_path(rt, path)?;
    let mut asking = UnixStream::connect(rt, path.as_str())?;
    match asking.read(&mut [0; 1]) {
        Ok(0) => Ok(()),
        Ok(_) => Err(io::Error::from(ErrorKind::InvalidData)),
        // So ends a connection that wasn't accepted.
        Err(e) if e.kind() == ErrorKind::ConnectionReset => Ok(()),
        Err(e) => Err(e),
    }
}
