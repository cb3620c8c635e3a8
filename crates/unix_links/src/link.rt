// The stream of a connection, which knows of a stop.
ghost use Rattle.std.specs.Prelude.{◌≤◌, length, IfOk, IfSome};
ghost use Rattle.std.specs.Io.{WritesAtMost};

use crate::stop::{Stop, is_ready};
use crate::{Readies, Shuts};
use libc::net::{MSG_DONTWAIT, MSG_NOSIGNAL, POLLIN, POLLOUT, send};
use std::io;
use std::io::{ErrorKind, Read, Write};
use std::net::Shutdown;
use std::os::fd::AsRawFd;
use std::os::unix::net::UnixStream;
use std::time::Duration;

// How many milliseconds a write waits for room once a stop is asked.
const LAST_WAIT: i32 = 5000;

// How many milliseconds a read waits for its peer before it waits for a stop too.
const BUSY_WAIT: u64 = 250;

// One read of so many looks for a stop, where bytes come at once.
const LOOK_EACH: u8 = 8;

/// A Unix stream that waits for its peer, but no longer for ever once a stop is asked: then its
/// input ends behind what has come, and a write that gets no room within five seconds fails. To
/// look for a stop costs a call, so while its peer is busy one read of eight looks, the first one
/// among them.
#[derive(Drop)]
pub struct LinkStream {
    stream: UnixStream,
    stop: Stop,
    // Whether a read of the stream waits `BUSY_WAIT` at most.
    is_timed: bool,
    // How many reads come before the next one that looks for a stop.
    until_look: u8,
}

impl LinkStream {
    pub(crate) fn new(stream: UnixStream, stop: Stop) -> LinkStream {
        LinkStream {
            stream,
            stop,
            is_timed: false,
            until_look: 0,
        }
    }

    // The same, whose reads wait a short time at most.
    pub(crate) fn timed(self) -> LinkStream {
        let wait = Some(Duration::from_millis(BUSY_WAIT));
        let is_timed = self.stream.set_read_timeout(wait).is_ok();
        LinkStream { is_timed, ..self }
    }

    // Whether this read has to look for a stop.
    fn has_to_look(&mut self) -> bool {
        if self.until_look > 0 {
            self.until_look -= 1;
            return false;
        }
        self.until_look = LOOK_EACH - 1;
        true
    }

    // What comes from a busy peer. `None` where nothing came within a short time, where a stop has
    // to be looked for, or where the process was stopped meanwhile and goes on.
    fn read_busy(&mut self, buf: &mut [u8]) -> io::Result<Option<usize>>
        ensures { IfOk result (λ r. IfSome r (λ k. k ≤ length buf.old)) }
    {
        if !self.is_timed || self.has_to_look() {
            return Ok(None);
        }
        match self.stream.read(buf) {
            Ok(count) => Ok(Some(count)),
            Err(e) => match e.kind() {
                ErrorKind::WouldBlock | ErrorKind::Interrupted => Ok(None),
                _ => Err(e),
            },
        }
    }

    // What has come can still be read. The peer's later writes fail.
    fn end_input(&self) {
        let _ = self.stream.shutdown(Shutdown::Read);
    }

    // Writes what there is room for now.
    fn write_now(&self, buf: &[u8]) -> io::Result<usize>
        ensures { WritesAtMost result buf.now }
    {
        let flags = MSG_DONTWAIT | MSG_NOSIGNAL;
        let count = unsafe { send(self.stream.as_raw_fd(), buf, flags) };
        if count < 0 {
            return Err(io::Error::from_raw_os_error(os::errno()));
        }
        Ok(count as usize)
    }
}

impl Read for LinkStream {
    // Where nothing comes for a short time, it waits for bytes and for a stop, and reads without
    // waiting behind each such wait: else a peer could make it wait where no stop is seen, by a
    // byte out of band, which ends a wait and isn't read.
    fn read(&mut self, buf: &mut [u8]) -> io::Result<usize> {
        if buf.is_empty() {
            return Ok(0);
        }
        if let Some(count) = self.read_busy(buf)? {
            return Ok(count);
        }
        for _ in 0..u64::MAX {
            if self.stop.wait(self.stream.as_raw_fd(), POLLIN) {
                self.end_input();
            }
            if let Some(count) = self.stream.read_ready(buf)? {
                return Ok(count);
            }
        }
        self.stream.read(buf)
    }
}

impl Readies for LinkStream {
    // A peer that goes on sending doesn't put a stop off for long.
    fn read_ready(&mut self, into: &mut [u8]) -> io::Result<Option<usize>> {
        let found = self.stream.read_ready(into)?;
        if found.is_some() && self.has_to_look() && self.stop.is_asked() {
            self.end_input();
        }
        Ok(found)
    }
}

impl Write for LinkStream {
    fn write(&mut self, buf: &[u8]) -> io::Result<usize> {
        match self.write_now(buf) {
            Err(e) if e.kind() == ErrorKind::WouldBlock => {}
            outcome => return outcome,
        }
        let fd = self.stream.as_raw_fd();
        if self.stop.wait(fd, POLLOUT) && !is_ready(fd, POLLOUT, LAST_WAIT) {
            // There may be some room where the system doesn't yet call it ready.
            return match self.write_now(buf) {
                Err(e) if e.kind() == ErrorKind::WouldBlock => {
                    Err(io::Error::from(ErrorKind::TimedOut))
                }
                outcome => outcome,
            };
        }
        self.stream.write(buf)
    }

    fn flush(&mut self) -> io::Result<()> {
        Ok(())
    }
}

impl Shuts for LinkStream {
    fn shut(&self) {
        let _ = self.stream.shutdown(Shutdown::Both);
    }
}
