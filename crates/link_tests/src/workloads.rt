//! The lines of workloads as `tools/workload_lines` writes them, and what is told of replies.
ghost use Rattle.std.specs.Prelude.{◌≤◌};

use hex::FromHex;
use link_port::{Sink, Source};
use std::alloc::Global;
use std::test::Fail;
use tab_hash::Sum;
use workload::{Tally, Workload};

// The first three lines of the workload of start 7.
const FIRST_LINES: &[u8] = b"7 80010000000e0000018903000007\n\
      2 800200000041000001820000000b0000000940000009000000000000000001000b0000000000000000000000\
      000000000000000000000000000000000000000000\n0 80010000000e0000018903000007\n";

// SHA-256 of its first 200 lines, and of those of the largest start.
const LINES_OF_7: &[u8] = b"6986b41d86aa1028bce529a017ef0ad3c7482c1aba2ad478fc9f715e69028d73";

const LINES_OF_LARGEST: &[u8] = b"2a5c1655a9a270a44d5490190d6800d9a7d7c99538001ef70d7e6687c2392681";

// Replies: two have the code 0, and one of the others is too short to have a code.
const REPLY_LINES: &[u8] =
    b"7 80010000001400000000000876b8e0ada0f13d90\n4294967295 80010000000a000b0003\n\
      0 80010000000a00000000\n12 800100000009000000\n12 80010000000a00000001\n\
      3 80010000000a00010000\n";

const SUMMARY: &[u8] = b"lines 30 replies 6 ok 2 entries 18446744073709551615 digest \
      f7fb95aa7c314df07e899b0573b7f5c01c97c63d63742fffc1c4d2ca02f3a8e3\n";

const SUMMARY_OF_NOTHING: &[u8] = b"lines 0 replies 0 ok 0 entries 0 digest \
      e3b0c44298fc1c149afbf4c8996fb92427ae41e4649b934ca495991b7852b855\n";

// What a workload gives where it is pulled so often into this much room. Nothing where it fails, or
// memory lacks.
fn pulled(alloc: Global, start: u64, lines: u32, room: usize, times: u32) -> Option<Vec<u8>>
    requires { room ≤ 200 }
{
    let mut workload = Workload::new(start, lines);
    let mut text = Vec::new(alloc);
    let mut into = [0; 200];
    for _ in 0..times {
        let count = workload.pull(&mut into[..room]).ok()?;
        text.extend_from_slice(&into[..count]).ok()?;
    }
    (workload.fault_count() == 0).then_some(text)
}

// Whether the 200 lines of a workload, pulled into this much room, have this SHA-256.
fn have_hash(alloc: Global, start: u64, room: usize, digits: &[u8]) -> bool
    requires { room ≤ 200 }
{
    let Some(text) = pulled(alloc, start, 200, room, 30_000) else {
        return false;
    };
    let mut sum = Sum::new();
    sum.add(&text);
    <[u8; 32] as FromHex>::from_hex(digits).ok() == Some(sum.end())
}

#[test]
fn a_workload_has_its_lines_however_it_is_pulled(rt: HostRuntime) -> Result<(), Fail> {
    let alloc = rt.alloc();
    let first = pulled(alloc, 7, 3, 10, 40).ok_or("a workload fails")?;
    assert!(rt; first.as_slice() == FIRST_LINES);
    assert!(rt; have_hash(alloc, 7, 200, LINES_OF_7) && have_hash(alloc, 7, 1, LINES_OF_7));
    assert!(rt; have_hash(alloc, u64::MAX, 30, LINES_OF_LARGEST));
    Ok(())
}

// Whether replies that are written in pieces of so many bytes have this summary.
fn is_summed_up(size: usize) -> bool {
    let mut tally = Tally::new();
    for piece in REPLY_LINES.chunks(size.max(1)) {
        if tally.push(piece).ok() != Some(piece.len()) {
            return false;
        }
    }
    tally.fault_count() == 0 && tally.summary(30, u64::MAX).as_slice() == SUMMARY
}

#[test]
fn a_tally_sums_up_replies(rt: HostRuntime) {
    assert!(rt; is_summed_up(1) && is_summed_up(1000));
    assert!(rt; Tally::new().summary(0, 0).as_slice() == SUMMARY_OF_NOTHING);
}
