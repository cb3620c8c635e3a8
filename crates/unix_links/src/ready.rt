// A source over a stream that says at once what has come.
ghost use Rattle.std.specs.Prelude.{◌≡◌, ◌<◌, ◌≤◌, length, take, true, IfOk, IfSome, IfNone, OnOk};
ghost use Rattle.std.specs.Prelude.{OnErr};
ghost use Rattle.std.specs.Io.KnownBytes.{ReadConsumes};
ghost use Rattle.tab_spec.specs.Count.{Rose, one_more};
ghost use Rattle.link_port.specs.Port.{Pulled, untold};
ghost use Rattle.link_port.specs.Standard.{new_counted};
ghost use Rattle.unix_links.specs.Ready.{ReadsReady};

use libc::net::{MSG_DONTWAIT, recv};
use link_port::{Failed, Source};
use std::io;
use std::io::Read;
use std::marker::Model;
use std::os::fd::AsRawFd;
use std::os::unix::net::UnixStream;

/// A stream that can be read without waiting.
pub trait Readies: Read {
    /// As a read, but it never waits: `None` where no byte has come yet, and where `into` has no
    /// room. A count of 0 is the end.
    fn read_ready(&mut self, into: &mut [u8]) -> io::Result<Option<usize>>
        ensures bound { IfOk result (λ r. IfSome r (λ k. k ≤ length into.old)) }
        ensures room { IfOk result (λ r. IfSome r (λ _. 0 < length into.old)) }
        ensures reads { ReadsReady (Self.remaining self.old) (Self.remaining self.new)
            result into.new };
}

impl Readies for UnixStream {
    // One call that doesn't wait. The flags of the descriptor stay: another pull may wait.
    fn read_ready(&mut self, into: &mut [u8]) -> io::Result<Option<usize>> {
        if into.is_empty() {
            return Ok(None);
        }
        let count = unsafe { recv(self.as_raw_fd(), into, MSG_DONTWAIT) };
        if count >= 0 {
            return Ok(Some(count as usize));
        }
        match os::errno() {
            libc::EAGAIN | libc::EINTR => Ok(None),
            error => Err(io::Error::from_raw_os_error(error)),
        }
    }
}

/// A prompt source over a stream. As a source it shows none of its bytes; contracts see the stream
/// and its fault count. This project's own.
#[derive(Drop)]
pub struct ReadySource<R: Readies + Drop> {
    stream: R,
    faults: u64,
}

impl<R: Readies + Drop> Model for ReadySource<R> {
    ghost use Rattle.link_port.specs.Standard.{Counted};

    ghost Value = { Counted R };

    ghost view = { λ s. record { stream = s.stream; faults = s.faults } };
}

impl<R: Readies + Drop> ReadySource<R> {
    /// A source over this stream that hasn't failed yet.
    pub fn new(stream: R) -> ReadySource<R>
        ensures { result ≡ new_counted stream }
    {
        ReadySource { stream, faults: 0 }
    }
}

impl<R: Readies + Drop> Source for ReadySource<R> {
    ghost left = { λ _. untold };

    ghost faults = { λ s. s.faults };

    /// Reads once. A read of no bytes into a buffer that isn't empty is the end.
    fn pull(&mut self, into: &mut [u8]) -> Result<usize, Failed>
        ensures bound { IfOk result (λ k. k ≤ length into.old) }
        ensures pulled { IfOk result
            (λ k. Pulled untold untold (length into.old) (take k into.new)) }
        ensures err { OnErr result (untold ≡ untold) }
        ensures fault { OnErr result (Rose self.old.faults self.new.faults) }
        ensures count { self.old.faults ≤ self.new.faults }

        // Where the stream tells its bytes, these are the next of them.
        ensures reads { ReadConsumes (R.remaining self.old.stream) (R.remaining self.new.stream)
            result into.new }

        ensures quiet { OnOk result (self.new.faults ≡ self.old.faults) }
        ensures faults_err { OnErr result (self.new.faults ≡ one_more self.old.faults) }
    {
        match self.stream.read(into) {
            Ok(count) => Ok(count),
            Err(_) => {
                self.faults = self.faults.saturating_add(1);
                Err(Failed)
            }
        }
    }

    /// Always: each stream that can be read without waiting says at once what has come.
    fn is_prompt(&self) -> bool
        ensures { result ≡ true }
    {
        true
    }

    /// Reads once, without waiting ([`Readies`]). `Some(0)` is the end; into a buffer without room
    /// the answer is `None`.
    fn pull_ready(&mut self, into: &mut [u8]) -> Result<Option<usize>, Failed>
        ensures bound { IfOk result (λ r. IfSome r (λ k. k ≤ length into.old)) }
        ensures pulled { IfOk result (λ r. IfSome r
            (λ k. Pulled untold untold (length into.old) (take k into.new))) }
        ensures none { IfOk result (λ r. IfNone r (untold ≡ untold)) }
        ensures err { OnErr result (untold ≡ untold) }
        ensures fault { OnErr result (Rose self.old.faults self.new.faults) }
        ensures count { self.old.faults ≤ self.new.faults }

        // Where the stream tells its bytes, these are the next of them.
        ensures room { IfOk result (λ r. IfSome r (λ _. 0 < length into.old)) }
        ensures reads { ReadsReady (R.remaining self.old.stream) (R.remaining self.new.stream)
            result into.new }

        ensures quiet { OnOk result (self.new.faults ≡ self.old.faults) }
        ensures faults_err { OnErr result (self.new.faults ≡ one_more self.old.faults) }
    {
        match self.stream.read_ready(into) {
            Ok(found) => Ok(found),
            Err(_) => {
                self.faults = self.faults.saturating_add(1);
                Err(Failed)
            }
        }
    }

    fn fault_count(&self) -> u64 {
        self.faults
    }
}
