//! Standard streams as a source and a sink, over readers and writers that fail.
use crate::told::{pulls, pushes};
use link_port::{Failed, Sink, StdSink, StdSource, push_all};
use std::io;
use std::io::{ErrorKind, Read, Write};
use std::test::Fail;

// Reads and writes two bytes a call, and fails at its call number 2, counted from 0.
#[derive(Drop)]
struct Narrow {
    bytes: Vec<u8>,
    calls: u64,
}

impl Narrow {
    fn count_call(&mut self) -> io::Result<()> {
        let call = self.calls;
        self.calls = call.saturating_add(1);
        if call == 2 {
            return Err(io::Error::from(ErrorKind::BrokenPipe));
        }
        Ok(())
    }
}

impl Read for Narrow {
    fn read(&mut self, buf: &mut [u8]) -> io::Result<usize> {
        self.count_call()?;
        let count = buf.len().min(2);
        buf[..count].fill(b'x');
        Ok(count)
    }
}

impl Write for Narrow {
    fn write(&mut self, buf: &[u8]) -> io::Result<usize> {
        self.count_call()?;
        let count = buf.len().min(2);
        self.bytes.extend_from_slice(&buf[..count])?;
        Ok(count)
    }

    fn flush(&mut self) -> io::Result<()> {
        Ok(())
    }
}

#[test]
fn a_source_reads_to_the_end(rt: HostRuntime) -> Result<(), Fail> {
    let mut source = StdSource::new(b"abc".as_slice());
    let told = pulls(rt.alloc(), &mut source, 2, 3)?;
    assert!(rt; told.as_slice() == b"2ab0 1cb0 0cb0 ".as_slice());
    Ok(())
}

#[test]
fn a_source_counts_a_failure(rt: HostRuntime) -> Result<(), Fail> {
    let alloc = rt.alloc();
    let mut source = StdSource::new(Narrow {
        bytes: Vec::new(alloc),
        calls: 0,
    });
    let told = pulls(alloc, &mut source, 3, 4)?;
    assert!(rt; told.as_slice() == b"2xx.0 2xx.0 !xx.1 2xx.1 ".as_slice());
    Ok(())
}

// Gives no byte at its first call, as a terminal does where its input is ended, and one at each
// later call.
#[derive(Drop)]
struct Paused {
    begun: bool,
}

impl Read for Paused {
    fn read(&mut self, buf: &mut [u8]) -> io::Result<usize> {
        if !self.begun || buf.is_empty() {
            self.begun = true;
            return Ok(0);
        }
        buf[0] = b'x';
        Ok(1)
    }
}

#[test]
fn a_source_reads_once_a_pull(rt: HostRuntime) -> Result<(), Fail> {
    let mut source = StdSource::new(Paused { begun: false });
    let told = pulls(rt.alloc(), &mut source, 3, 3)?;
    assert!(rt; told.as_slice() == b"0...0 1x..0 1x..0 ".as_slice());
    Ok(())
}

// Takes no byte at its first write, and one at each later write. Its flushes fail.
#[derive(Drop)]
struct Stuck {
    writes: u64,
    flushes: u64,
}

impl Write for Stuck {
    fn write(&mut self, buf: &[u8]) -> io::Result<usize> {
        self.writes = self.writes.saturating_add(1);
        Ok(if self.writes == 1 {
            0
        } else {
            buf.len().min(1)
        })
    }

    fn flush(&mut self) -> io::Result<()> {
        self.flushes = self.flushes.saturating_add(1);
        Err(io::Error::from(ErrorKind::BrokenPipe))
    }
}

#[test]
fn a_sink_writes_once_a_push(rt: HostRuntime) -> Result<(), Fail> {
    let mut stuck = Stuck {
        writes: 0,
        flushes: 0,
    };
    let mut sink = StdSink::new(&mut stuck);
    let told = pushes(rt.alloc(), &mut sink, &["abc", "abc", "abc"])?;
    drop(sink);
    assert!(rt; told.as_slice() == b"!1 11 11 ".as_slice());
    assert!(rt; stuck.writes == 3 && stuck.flushes == 0);
    Ok(())
}

#[test]
fn a_full_slice_is_a_failure(rt: HostRuntime) -> Result<(), Fail> {
    let mut store = [0; 3];
    let mut sink = StdSink::new(store.as_mut_slice());
    let told = pushes(rt.alloc(), &mut sink, &["ab", "cd", "d", ""])?;
    drop(sink);
    assert!(rt; told.as_slice() == b"20 10 !1 01 ".as_slice());
    assert!(rt; store == *b"abc");
    Ok(())
}

// The write that fails ends the push of all, and isn't tried again.
#[test]
fn a_front_is_written_before_a_failure(rt: HostRuntime) -> Result<(), Fail> {
    let mut narrow = Narrow {
        bytes: Vec::new(rt.alloc()),
        calls: 0,
    };
    let mut sink = StdSink::new(&mut narrow);
    let told = (push_all(&mut sink, b"abcde"), push_all(&mut sink, b"fgh"));
    let faults = sink.fault_count();
    drop(sink);
    assert!(rt; told == (Err(Failed), Ok(())) && faults == 1);
    assert!(rt; narrow.bytes.as_slice() == b"abcdfgh".as_slice());
    Ok(())
}
