//! An input that is cut into lines, the lines of replies, and a label whose opening is taken back.
//! What lines say is told by runs of the program (`tools/cases`).
use link_port::{Failed, MemorySource, Source};
use script_lines::{Labels, Line, LineReader, REPLY_LINE_BYTES, write_reply_line};
use script_spec::LINE_BYTES;
use std::alloc::{AllocError, Global};
use std::test::Fail;

// Whether this comes next of an input.
fn is_next(
    alloc: Global,
    lines: &mut LineReader,
    input: &mut MemorySource,
    line: Line,
    wanted: &str,
) -> Result<bool, AllocError> {
    let mut text = Vec::with_capacity(alloc, LINE_BYTES as usize)?;
    Ok(lines.next(input, &mut text) == Ok(line) && text.as_slice() == wanted.as_bytes())
}

// Whether four lines are cut from an input that comes in pieces of at most so many bytes, and then
// its end twice.
fn are_cut(alloc: Global, most: u32) -> Result<bool, AllocError> {
    let bytes = Vec::from_slice(alloc, b"a\nbb\n\nccc")?;
    let mut input = MemorySource::new(bytes, vec![in alloc; most; 9]?, Vec::new(alloc));
    let mut lines = LineReader::new(alloc)?;
    for wanted in ["a", "bb", "", "ccc"] {
        if !is_next(alloc, &mut lines, &mut input, Line::Text, wanted)? {
            return Ok(false);
        }
    }
    Ok(
        is_next(alloc, &mut lines, &mut input, Line::End, "")?
            && is_next(alloc, &mut lines, &mut input, Line::End, "")?,
    )
}

#[test]
fn lines_are_cut_in_whatever_pieces(rt: HostRuntime) -> Result<(), Fail> {
    for most in 1..12 {
        assert!(rt; are_cut(rt.alloc(), most)?, "at {most}");
    }
    Ok(())
}

#[test]
fn a_failure_within_a_line_is_told(rt: HostRuntime) -> Result<(), Fail> {
    let alloc = rt.alloc();
    let bytes = Vec::from_slice(alloc, b"a\nbb")?;
    let mut input = MemorySource::new(bytes, Vec::new(alloc), vec![in alloc; 1]?);
    let mut lines = LineReader::new(alloc)?;
    let mut text = Vec::with_capacity(alloc, LINE_BYTES as usize)?;
    let first = lines.next(&mut input, &mut text);
    let second = lines.next(&mut input, &mut text);
    assert!(rt; first == Ok(Line::Text) && second == Err(Failed) && input.fault_count() == 1);
    Ok(())
}

#[test]
fn the_lines_of_replies_are_written(rt: HostRuntime) -> Result<(), Fail> {
    let mut line = Vec::with_capacity(rt.alloc(), REPLY_LINE_BYTES)?;
    write_reply_line(4_294_967_295, &[0x80, 0x01, 0xab, 0xef], &mut line);
    assert!(rt; line.as_slice() == b"4294967295 8001abef\n".as_slice());
    write_reply_line(0, &[], &mut line);
    assert!(rt; line.as_slice() == b"0 \n".as_slice());
    write_reply_line(4_294_967_295, &[0; 4096], &mut line);
    assert!(rt; line.len() == REPLY_LINE_BYTES);
    Ok(())
}

#[test]
fn the_last_opening_is_taken_back(rt: HostRuntime) -> Result<(), Fail> {
    let mut labels = Labels::new(rt.alloc());
    labels.open(rt.alloc(), 7)?;
    labels.open(rt.alloc(), 0)?;
    labels.take_back();
    assert!(rt; labels.client(0).is_none() && labels.open(rt.alloc(), 5)? == 1);
    assert!(rt; labels.close_first() == Some(0) && labels.close_first() == Some(1));
    Ok(())
}
