//! Tests of `tab_frame`.

use std::alloc::{AllocError, Global};
use std::test::Fail;
use tab_bytes::Buffer;
use tab_frame::{Frame, Framer};

const GET_RANDOM: [u8; 12] = [0x80, 0x01, 0, 0, 0, 0x0c, 0, 0, 0x01, 0x7b, 0, 8];

const CANCEL: [u8; 10] = [0x80, 0x01, 0, 0, 0, 0x0a, 0x20, 0, 0, 0x01];

// A command, a cancel frame, and the command again.
const STREAM: [u8; 34] = [
    0x80, 0x01, 0, 0, 0, 0x0c, 0, 0, 0x01, 0x7b, 0, 8, 0x80, 0x01, 0, 0, 0, 0x0a, 0x20, 0, 0, 0x01,
    0x80, 0x01, 0, 0, 0, 0x0c, 0, 0, 0x01, 0x7b, 0, 8,
];

// Feeds pieces of at most so many bytes until a frame comes. What is then left to be fed.
fn next_in_pieces<'a>(
    framer: &mut Framer,
    bytes: &'a [u8],
    most: usize,
    out: &mut Buffer,
) -> (Frame, &'a [u8]) {
    let mut left = bytes;
    for _ in 0..35 {
        let frame = framer.next(out);
        if frame != Frame::NotYet {
            return (frame, left);
        }
        let (piece, rest) = left.split_at(most.min(left.len()));
        framer.feed(piece);
        left = rest;
    }
    (Frame::NotYet, left)
}

// Whether the three frames of the stream come out of pieces of at most so many bytes, and then
// none.
fn cuts_in_pieces(alloc: Global, most: usize, out: &mut Buffer) -> Result<bool, AllocError> {
    let mut framer = Framer::new(alloc)?;
    let (first, left) = next_in_pieces(&mut framer, &STREAM, most, out);
    if first != Frame::Command || out.as_slice() != GET_RANDOM.as_slice() {
        return Ok(false);
    }
    let (second, left) = next_in_pieces(&mut framer, left, most, out);
    if second != Frame::Cancel || out.as_slice() != CANCEL.as_slice() {
        return Ok(false);
    }
    let (third, left) = next_in_pieces(&mut framer, left, most, out);
    if third != Frame::Command || out.as_slice() != GET_RANDOM.as_slice() {
        return Ok(false);
    }
    Ok(next_in_pieces(&mut framer, left, most, out).0 == Frame::NotYet)
}

#[test]
fn cuts_frames_in_whatever_pieces(rt: HostRuntime) -> Result<(), Fail> {
    let mut out = Buffer::new(rt.alloc())?;
    for most in 1..35 {
        assert!(rt; cuts_in_pieces(rt.alloc(), most, &mut out)?, "at {most}");
    }
    Ok(())
}

#[test]
fn a_bad_size_comes_again(rt: HostRuntime) -> Result<(), Fail> {
    let mut out = Buffer::new(rt.alloc())?;
    let mut framer = Framer::new(rt.alloc())?;
    assert!(rt; framer.feed(&[0x80, 0x01, 0, 0, 0, 9]) == 6);
    for _ in 0..3 {
        assert!(rt; framer.next(&mut out) == Frame::BadSize(9));
    }
    Ok(())
}

#[test]
fn keeps_two_frames_and_no_more(rt: HostRuntime) -> Result<(), Fail> {
    let mut framer = Framer::new(rt.alloc())?;
    assert!(rt; framer.feed(&[0; 8192]) == 8192 && framer.feed(&[0]) == 0);
    Ok(())
}

#[test]
fn copies_what_another_keeps(rt: HostRuntime) -> Result<(), Fail> {
    let mut out = Buffer::new(rt.alloc())?;
    let mut framer = Framer::new(rt.alloc())?;
    framer.feed(&STREAM);
    framer.next(&mut out);
    let mut copy = Framer::new(rt.alloc())?;
    copy.feed(&CANCEL);
    copy.copy_from(&framer);
    for wanted in [Frame::Cancel, Frame::Command, Frame::NotYet] {
        assert!(rt; copy.next(&mut out) == wanted);
    }
    Ok(())
}
