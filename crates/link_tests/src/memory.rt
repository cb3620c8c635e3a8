//! Ends and connections in memory.
use crate::told::{pulls, pushes};
use link_port::{Acceptor, Failed, MemoryAcceptor, MemorySink, MemorySource, Source};
use std::alloc::{AllocError, Global};
use std::test::Fail;

#[test]
fn a_source_gives_its_pieces(rt: HostRuntime) -> Result<(), Fail> {
    let alloc = rt.alloc();
    let bytes = Vec::from_slice(alloc, b"abcdefghi")?;
    let pieces = vec![in alloc; 2, 9, 0, 3]?;
    let mut source = MemorySource::new(bytes, pieces, vec![in alloc; 1, 4]?);
    let told = pulls(alloc, &mut source, 4, 7)?;
    let wanted = b"2ab..0 !ab..1 1cb..1 3def.1 !def.2 3ghi.2 0ghi.2 ";
    assert!(rt; told.as_slice() == wanted.as_slice());
    Ok(())
}

#[test]
fn a_sink_takes_what_it_has_room_for(rt: HostRuntime) -> Result<(), Fail> {
    let alloc = rt.alloc();
    let mut sink = MemorySink::new(alloc, 6, vec![in alloc; 1]?)?;
    let told = pushes(alloc, &mut sink, &["aaaa", "bbbb", "bbbb", "c", ""])?;
    assert!(rt; told.as_slice() == b"40 !1 21 !2 02 ".as_slice());
    assert!(rt; sink.written() == b"aaaabb".as_slice());
    Ok(())
}

// A connection over which this one byte comes.
fn link_of(alloc: Global, byte: u8) -> Result<(MemorySource, MemorySink), AllocError> {
    let bytes = vec![in alloc; byte]?;
    let source = MemorySource::new(bytes, Vec::new(alloc), Vec::new(alloc));
    Ok((source, MemorySink::new(alloc, 0, Vec::new(alloc))?))
}

// The byte of the next connection, or a dash where none is left.
fn next_byte(acceptor: &mut MemoryAcceptor) -> Result<u8, Failed> {
    let mut byte = [b'-'];
    if let Some((mut source, _)) = acceptor.next()? {
        source.pull(&mut byte)?;
    }
    Ok(byte[0])
}

#[test]
fn an_acceptor_keeps_the_order(rt: HostRuntime) -> Result<(), Fail> {
    let alloc = rt.alloc();
    let links = vec![in alloc; link_of(alloc, b'a')?, link_of(alloc, b'b')?]?;
    let mut acceptor = MemoryAcceptor::new(links, vec![in alloc; 1, 3]?);
    let mut told = [0; 6];
    for byte in &mut told {
        *byte = next_byte(&mut acceptor).unwrap_or(b'0' + acceptor.fault_count().min(9) as u8);
    }
    assert!(rt; told == *b"a1b2--" && acceptor.fault_count() == 2);
    Ok(())
}
