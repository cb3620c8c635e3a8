// Where a workload's script comes from.
ghost use Rattle.std.specs.Prelude.{◌≡◌, ◌≤◌, ◌<◌, ◌+◌, ◌*◌, ◌++◌, ◌^◌, Some, length};
ghost use Rattle.hex.specs.Hex.{encode_lower};
ghost use Rattle.rand_chacha.specs.ChaCha.{key_of};
ghost use Rattle.script_spec.specs.Workload.{line_at, line_of_words, workload_key, workload_action};
ghost use Rattle.script_spec.specs.Workload.{workload_text};

use crate::commands::command_of;
use link_port::{Failed, Source};
use rand_chacha::ChaCha8Rng;
use rand_core::SeedableRng;
use rand_core::utils::NextWord;
use std::marker::Model;
use tab_fields::SmallBytes;

/// The script of a workload, line by line as it is pulled. A line has at most 133 bytes, its
/// newline included. It takes no memory, never fails, and is seen as the bytes that are still to
/// come. This project's own.
#[derive(Drop)]
pub struct Workload {
    words: ChaCha8Rng,
    // How many lines are still to be made.
    lines: u32,
    // The line that is being given, and how many of its bytes were: not all, unless it is the last.
    line: SmallBytes<133>,
    given: usize,
}

impl Model for Workload {
    ghost use Rattle.std.specs.Prelude.{◌++◌, List, ℕ, drop, length};
    ghost use Rattle.workload.specs.Ready.{IsLineGiven};
    ghost use Rattle.script_spec.specs.Workload.{lines_from};

    ghost Value = { List ℕ };

    ghost view = { λ w. drop w.given w.line ++ lines_from w.words.key w.words.word_pos w.lines };

    ghost invariant = { λ w.
        IsLineGiven (length w.line) w.given w.words.stream w.words.word_pos w.lines };
}

impl Workload {
    /// The script of so many lines that this number stands for.
    pub fn new(start: u64, lines: u32) -> Workload
        ensures { result ≡ workload_text start lines }
    {
        let mut words = ChaCha8Rng::from_seed(key_of(start));
        if lines == 0 {
            return Workload {
                words,
                lines,
                line: SmallBytes::new(),
                given: 0,
            };
        }
        let line = next_line(&mut words);
        Workload {
            words,
            lines: lines - 1,
            line,
            given: 0,
        }
    }
}

// The eight bytes of a number four times, the highest first.
fn key_of(start: u64) -> [u8; 32]
    ensures { key_of result ≡ workload_key start }
{
    let eight = start.to_be_bytes();
    let mut key = [0; 32];
    key[..8].copy_from_slice(&eight);
    key[8..16].copy_from_slice(&eight);
    key[16..24].copy_from_slice(&eight);
    key[24..].copy_from_slice(&eight);
    key
}

// The line of the next three words.
fn next_line(words: &mut ChaCha8Rng) -> SmallBytes<133>
    requires stream { words.old.stream ≡ 0 }
    requires room { words.old.word_pos + 3 < 2 ^ 68 }
    ensures line { result ≡ line_at words.old.key words.old.word_pos }
    ensures some { 0 < length result }
    ensures words { words.new ≡ record words.old { word_pos = words.old.word_pos + 3 } }
{
    let a = words.next_word();
    let b = words.next_word();
    let c = words.next_word();
    line_of(a, b, c)
}

// The line of three words.
#[tactic(auto, using(std::proofs::lemmas::Fmt::decimal_digit), unfolding(crate::proofs::Row::line))]
fn line_of(a: u32, b: u32, c: u32) -> SmallBytes<133>
    ensures line { result ≡ line_of_words a b c }
    ensures some { 0 < length result }
{
    let mut line = SmallBytes::new();
    line.add(&[b'0' + (a % 8) as u8, b' ']);
    add_action(b % 8, c, &mut line);
    line.add(b"\n");
    line
}

// Adds what stands behind the label and the space: `close`, or a command's digits.
fn add_action(choice: u32, number: u32, line: &mut SmallBytes<133>)
    requires choice { choice < 8 }
    requires room { length line.old ≤ 2 }
    ensures all { line.new ≡ line.old ++ workload_action choice number }
    ensures most { length line.new ≤ 132 }
{
    if choice == 7 && number % 8 == 0 {
        line.add(b"close");
    } else {
        add_digits(command_of(choice, number).as_slice(), line);
    }
}

// Adds two digits for each byte.
fn add_digits(bytes: &[u8], line: &mut SmallBytes<133>)
    requires { length line.old + 2 * length bytes.now ≤ 132 }
    ensures all { line.new ≡ line.old ++ encode_lower bytes.now }
    ensures most { length line.new ≤ 132 }
{
    let mut digits = [0; 132];
    let front = &mut digits[..2 * bytes.len()];
    let written = hex::encode_to_slice(bytes, front);
    prove!(written.is_ok());
    line.add(front);
}

impl Source for Workload {
    ghost left = { λ w. Some w };

    ghost faults = { λ _. 0 };

    /// Gives at most the rest of one line.
    fn pull(&mut self, into: &mut [u8]) -> Result<usize, Failed> {
        let rest = &self.line.as_slice()[self.given..];
        let count = rest.len().min(into.len());
        into[..count].copy_from_slice(&rest[..count]);
        self.given += count;
        if self.given < self.line.as_slice().len() || self.lines == 0 {
            return Ok(count);
        }
        self.line = next_line(&mut self.words);
        self.lines -= 1;
        self.given = 0;
        Ok(count)
    }

    fn fault_count(&self) -> u64 {
        0
    }
}
