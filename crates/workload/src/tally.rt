// The summary of the replies of a workload.
ghost use Rattle.std.specs.Prelude.{◌≡◌, ◌≤◌, ◌<◌, ◌+◌, ◌++◌, ◌^◌, ◌∷◌, [], List, ℕ, Some, length};
ghost use Rattle.std.specs.Prelude.{take};
ghost use Rattle.std.specs.Fmt.{decimal};
ghost use Rattle.link_port.specs.Port.{untold_end};
ghost use Rattle.script_spec.specs.Summary.{HaveBytes, Reply, has_code_0, numbers_line};
ghost use Rattle.script_spec.specs.Summary.{reply_lines, summary_line};
ghost use Rattle.workload.specs.Reading.{counted_if};

use crate::part::{Part, byte_of};
use crate::written::Written;
use link_port::{Failed, Sink};
use std::marker::Model;
use tab_fields::SmallBytes;
use tab_hash::Sum;

/// Counts the replies of a script as their lines are written to it, and hashes them. It keeps no
/// line, takes no memory, never fails, and is seen as the bytes that were written. The counts stand
/// still at the largest u64. This project's own.
#[derive(Drop)]
pub struct Tally {
    written: Written,
    sum: Sum,
    // The first ten bytes of the reply whose line was begun.
    front: SmallBytes<10>,
    part: Part,
    replies: u64,
    // How many of the replies have the code 0.
    with_code_0: u64,
}

impl Model for Tally {
    ghost use Rattle.std.specs.Prelude.{List, ℕ};
    ghost use Rattle.workload.specs.Reading.{IsTallied, read_of};

    ghost Value = { List ℕ };

    ghost view = { λ t. t.written.bytes };

    ghost invariant = { λ t.
        IsTallied t.sum t.front t.part t.replies t.with_code_0 (read_of t.written.bytes) };
}

impl Tally {
    /// Nothing was written.
    pub fn new() -> Tally
        ensures { result ≡ [] }
    {
        Tally {
            written: Written::new(),
            sum: Sum::new(),
            front: SmallBytes::new(),
            part: Part::Label,
            replies: 0,
            with_code_0: 0,
        }
    }

    /// The summary: how many lines a script has, how many replies were written, how many of them
    /// have the code 0, how many entries the journal has, and the SHA-256 of all replies. It has at
    /// most 181 bytes, its newline included.
    pub fn summary(self, lines: u32, entries: u64) -> SmallBytes<181>
        ensures { (replies : List Reply) → self ≡ reply_lines replies → HaveBytes replies
            → length replies < 2 ^ 64 → result ≡ summary_line lines replies entries }
    {
        let Tally {
            written: _,
            sum,
            front: _,
            part: _,
            replies,
            with_code_0,
        } = self;
        numbers_line(u64::from(lines), replies, with_code_0, entries, &sum.end())
    }

    // One byte more is written.
    fn take(&mut self, byte: u8)
        ensures { self.new ≡ self.old ++ byte ∷ [] }
    {
        let part = self.part;
        self.written = Written::with(&self.written, &[byte]);
        self.part = part.after(byte);
        match part {
            Part::Label => {}
            Part::High if byte == b'\n' => {
                self.replies = self.replies.saturating_add(1);
                self.with_code_0 = counted_if(has_code_0(self.front.as_slice()), self.with_code_0);
                self.front = SmallBytes::new();
            }
            Part::High => {}
            Part::Low(high) => {
                let spelled = byte_of(high, byte);
                self.sum.add(&[spelled]);
                add_front(spelled, &mut self.front);
            }
        }
    }
}

// The line of these numbers and this digest.
fn numbers_line(
    lines: u64,
    replies: u64,
    with_code_0: u64,
    entries: u64,
    digest: &[u8; 32],
) -> SmallBytes<181>
    ensures { result ≡ numbers_line lines replies with_code_0 entries digest.now }
{
    let mut digits = [0; 64];
    let spelled = hex::encode_to_slice(digest.as_slice(), &mut digits);
    prove!(spelled.is_ok());
    let mut line = SmallBytes::new();
    line.add(b"lines ");
    add_number(lines, &mut line);
    line.add(b" replies ");
    add_number(replies, &mut line);
    line.add(b" ok ");
    add_number(with_code_0, &mut line);
    line.add(b" entries ");
    add_number(entries, &mut line);
    line.add(b" digest ");
    line.add(&digits);
    line.add(b"\n");
    line
}

// Adds a number in decimal.
fn add_number(number: u64, line: &mut SmallBytes<181>)
    requires { length line.old ≤ 161 }
    ensures all { line.new ≡ line.old ++ decimal number }
    ensures most { length line.new ≤ length line.old + 20 }
{
    line.add(itoa::Buffer::new().format(number).as_bytes());
}

// A count, after one more where there is one.
fn counted_if(more: bool, count: u64) -> u64
    ensures { result ≡ counted_if more count }
{
    if more { count.saturating_add(1) } else { count }
}

// Whether a reply has the code 0, by its first ten bytes.
fn has_code_0(front: &[u8]) -> bool
    requires { length front.now ≤ 10 }
    ensures { result ≡ has_code_0 front.now }
{
    if front.len() < 10 {
        return false;
    }
    &front[6..] == [0; 4].as_slice()
}

// Adds a byte to the first ten of a reply.
fn add_front(byte: u8, front: &mut SmallBytes<10>)
    ensures { (reply : List ℕ) → front.old ≡ take 10 reply
        → front.new ≡ take 10 (reply ++ byte ∷ []) }
{
    if front.as_slice().len() < 10 {
        front.add(&[byte]);
    }
}

impl Sink for Tally {
    ghost written = { λ t. Some t };

    ghost ended = { λ _. untold_end };

    ghost faults = { λ _. 0 };

    /// Takes all of the bytes.
    fn push(&mut self, bytes: &[u8]) -> Result<usize, Failed> {
        for byte in bytes {
            self.take(*byte);
        }
        Ok(bytes.len())
    }

    fn end(&mut self) {}

    fn fault_count(&self) -> u64 {
        0
    }
}
