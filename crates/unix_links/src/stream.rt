// The two ends of a connection over a Unix stream socket.
ghost use Rattle.std.specs.Prelude.{◌≡◌, ◌<◌, ◌≤◌, length, take, IfOk, OnOk, OnErr};
ghost use Rattle.std.specs.Io.KnownBytes.{WriteAppends};
ghost use Rattle.tab_spec.specs.Count.{Rose, one_more};
ghost use Rattle.link_port.specs.Port.{at_end, untold, untold_end, with_more};
ghost use Rattle.link_port.specs.Standard.{new_counted};
ghost use Rattle.unix_links.specs.Listening.{HaveNoFaults};

use crate::LinkStream;
use crate::ready::ReadySource;
use crate::stop::Stop;
use link_port::{Failed, Sink, StdSink};
use std::io;
use std::io::Write;
use std::marker::Model;
use std::net::Net;
use std::os::unix::net::UnixStream;
use std::path::AsPath;

/// The end of a connection that bytes come from. It tells none of them. A pull waits for bytes, and
/// gives 0 once the peer has closed its end, or once a stop was asked and seen and all that had
/// come till then was given; one by `pull_ready` says at once what has come. While bytes come, a
/// stop is seen by one pull of eight. A connection is closed where both its ends are dropped.
pub type UnixSource = ReadySource<LinkStream>;

/// A stream that can be ended in both directions while it is open.
pub trait Shuts {
    /// Ends it: the peer reads what was written and then the end, and its later writes fail. Where
    /// the system refuses, it had ended before.
    fn shut(&self);
}

/// A sink over a stream that is shut at the end. As a sink it shows none of its bytes; contracts
/// see the stream and its fault count. This project's own.
#[derive(Drop)]
pub struct ShutSink<W: Write + Shuts + Drop> {
    stream: StdSink<W>,
}

impl<W: Write + Shuts + Drop> Model for ShutSink<W> {
    ghost use Rattle.link_port.specs.Standard.{Counted};

    ghost Value = { Counted W };

    ghost view = { λ s. s.stream };
}

/// The end of a connection that bytes go to. It tells none of them. A push may take a part of the
/// bytes, and waits where the system has no room, but only for five seconds once a stop is asked.
/// Once the peer has closed its end a push fails, and the process gets no signal.
pub type UnixSink = ShutSink<LinkStream>;

impl<W: Write + Shuts + Drop> ShutSink<W> {
    /// A sink over this stream that hasn't failed yet.
    pub fn new(stream: W) -> ShutSink<W>
        ensures { result ≡ new_counted stream }
    {
        ShutSink {
            stream: StdSink::new(stream),
        }
    }
}

impl<W: Write + Shuts + Drop> Sink for ShutSink<W> {
    ghost written = { λ _. untold };

    ghost ended = { λ _. untold_end };

    ghost faults = { λ s. s.faults };

    /// Writes once, and nothing but the first of these bytes. A write that takes none of some bytes
    /// is a failure too.
    fn push(&mut self, bytes: &[u8]) -> Result<usize, Failed>
        ensures bound { IfOk result (λ k. k ≤ length bytes.now) }
        ensures some { IfOk result (λ k. 0 < length bytes.now → 0 < k) }
        ensures pushed { IfOk result (λ k. untold ≡ with_more untold (take k bytes.now)) }
        ensures err { OnErr result (untold ≡ untold) }
        ensures goes_on { untold_end ≡ untold_end }
        ensures fault { OnErr result (Rose self.old.faults self.new.faults) }
        ensures count { self.old.faults ≤ self.new.faults }

        // Where the stream tells its bytes, these are added to them.
        ensures writes { WriteAppends (W.contents self.old.stream) (W.contents self.new.stream)
            result bytes.now }

        ensures quiet { OnOk result (self.new.faults ≡ self.old.faults) }
        ensures faults_err { OnErr result (self.new.faults ≡ one_more self.old.faults) }
    {
        self.stream.push(bytes)
    }

    /// Shuts the stream ([`Shuts`]).
    fn end(&mut self)
        ensures written { untold ≡ untold }
        ensures end_told { untold_end ≡ at_end untold_end }
        ensures same { self.new ≡ self.old }
        ensures faults { self.new.faults ≡ self.old.faults }
    {
        self.stream.get_ref().shut();
    }

    fn fault_count(&self) -> u64 {
        self.stream.fault_count()
    }
}

/// Connects to the socket at this path, which has 1 to 107 bytes, and answers the two ends. The
/// errors are the system's. This project's own.
pub fn connect<N: Net, P: AsPath>(net: &N, path: P) -> io::Result<(UnixSource, UnixSink)>
    ensures { IfOk result (λ ends. HaveNoFaults ends.0 ends.1) }
{
    let stream = UnixStream::connect(net, path)?;
    let writer = stream.try_clone()?;
    Ok(ends_of(stream, writer, Stop::never()))
}

/// The ends of a connection over two descriptors of one stream, which are to know of this stop.
pub(crate) fn ends_of(reader: UnixStream, writer: UnixStream, stop: Stop) -> (UnixSource, UnixSink)
    ensures { HaveNoFaults result.0 result.1 }
{
    (
        ReadySource::new(LinkStream::new(reader, stop).timed()),
        ShutSink::new(LinkStream::new(writer, stop)),
    )
}
