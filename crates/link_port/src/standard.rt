// The standard streams as a source and a sink. What the system gives and takes no contract can say.
ghost use Rattle.std.specs.Prelude.{◌≡◌, ◌<◌, ◌≤◌, length, take, IfOk, OnOk, OnErr};
ghost use Rattle.tab_spec.specs.Count.{Rose, one_more};
ghost use Rattle.std.specs.Io.KnownBytes.{ReadConsumes, WriteAppends};
ghost use Rattle.link_port.specs.Port.{Pulled, untold, untold_end, with_more};
ghost use Rattle.link_port.specs.Standard.{new_counted};

use crate::{Failed, Sink, Source};
use std::io::{Read, Write};
use std::marker::Model;

/// A source over a reader, as standard input. As a source it shows none of its bytes; contracts see
/// the reader and its fault count. This project's own.
#[derive(Drop)]
pub struct StdSource<R: Read + Drop> {
    reader: R,
    faults: u64,
}

impl<R: Read + Drop> Model for StdSource<R> {
    ghost use Rattle.link_port.specs.Standard.{Counted};

    ghost Value = { Counted R };

    ghost view = { λ s. record { stream = s.reader; faults = s.faults } };
}

impl<R: Read + Drop> StdSource<R> {
    /// A source over this reader that hasn't failed yet.
    pub fn new(reader: R) -> StdSource<R>
        ensures { result ≡ new_counted reader }
    {
        StdSource { reader, faults: 0 }
    }
}

impl<R: Read + Drop> Source for StdSource<R> {
    ghost left = { λ _. untold };

    ghost faults = { λ s. s.faults };

    /// Reads once. A read of no bytes into a buffer that isn't empty is the end of the input.
    fn pull(&mut self, into: &mut [u8]) -> Result<usize, Failed>
        ensures bound { IfOk result (λ k. k ≤ length into.old) }
        ensures pulled { IfOk result
            (λ k. Pulled untold untold (length into.old) (take k into.new)) }
        ensures err { OnErr result (untold ≡ untold) }
        ensures fault { OnErr result (Rose self.old.faults self.new.faults) }
        ensures count { self.old.faults ≤ self.new.faults }

        // Where the reader tells its bytes, these are the next of them.
        ensures reads { ReadConsumes (R.remaining self.old.stream) (R.remaining self.new.stream)
            result into.new }

        ensures quiet { OnOk result (self.new.faults ≡ self.old.faults) }
        ensures faults_err { OnErr result (self.new.faults ≡ one_more self.old.faults) }
    {
        match self.reader.read(into) {
            Ok(count) => Ok(count),
            Err(_) => {
                self.faults = self.faults.saturating_add(1);
                Err(Failed)
            }
        }
    }

    fn fault_count(&self) -> u64 {
        self.faults
    }
}

/// A sink over a writer, as standard output. As a sink it shows none of its bytes; contracts see
/// the writer and its fault count. This project's own.
#[derive(Drop)]
pub struct StdSink<W: Write + Drop> {
    writer: W,
    faults: u64,
}

impl<W: Write + Drop> Model for StdSink<W> {
    ghost use Rattle.link_port.specs.Standard.{Counted};

    ghost Value = { Counted W };

    ghost view = { λ s. record { stream = s.writer; faults = s.faults } };
}

impl<W: Write + Drop> StdSink<W> {
    /// A sink over this writer that hasn't failed yet.
    pub fn new(writer: W) -> StdSink<W>
        ensures { result ≡ new_counted writer }
    {
        StdSink { writer, faults: 0 }
    }

    /// The writer.
    pub fn get_ref(&self) -> &W
        ensures { result.now ≡ self.now.stream }
    {
        &self.writer
    }
}

impl<W: Write + Drop> Sink for StdSink<W> {
    ghost written = { λ _. untold };

    ghost ended = { λ _. untold_end };

    ghost faults = { λ s. s.faults };

    /// Writes once, and flushes nothing. A write that takes none of some bytes is a failure too.
    fn push(&mut self, bytes: &[u8]) -> Result<usize, Failed>
        ensures bound { IfOk result (λ k. k ≤ length bytes.now) }
        ensures some { IfOk result (λ k. 0 < length bytes.now → 0 < k) }
        ensures pushed { IfOk result (λ k. untold ≡ with_more untold (take k bytes.now)) }
        ensures err { OnErr result (untold ≡ untold) }
        ensures goes_on { untold_end ≡ untold_end }
        ensures fault { OnErr result (Rose self.old.faults self.new.faults) }
        ensures count { self.old.faults ≤ self.new.faults }

        // Where the writer tells its bytes, these are added to them.
        ensures writes { WriteAppends (W.contents self.old.stream) (W.contents self.new.stream)
            result bytes.now }

        ensures quiet { OnOk result (self.new.faults ≡ self.old.faults) }
        ensures faults_err { OnErr result (self.new.faults ≡ one_more self.old.faults) }
    {
        match self.writer.write(bytes) {
            Ok(count) if count > 0 || bytes.is_empty() => Ok(count),
            _ => {
                self.faults = self.faults.saturating_add(1);
                Err(Failed)
            }
        }
    }

    /// Does nothing: a writer ends where it is dropped.
    fn end(&mut self) {}

    fn fault_count(&self) -> u64 {
        self.faults
    }
}
