ghost use Rattle.std.specs.Prelude.{◌≡◌, ◌↔◌, [], length, IfOk, IfSome, IsSome, Ok};
ghost use Rattle.std.specs.Prelude.{MatchOption};
ghost use Rattle.hex.specs.Hex.{decode_of};
ghost use Rattle.device_words.specs.Words.{first_word, other_words};
ghost use Rattle.fault_runs.specs.Lines.{NumbersAreListed, HasNumbers, HasNoMark, behind_mark};

use anyhow::{Context, ensure};
use device_words::{numbers_of, seed_of};
use std::alloc::Global;
use tab_spec::Numbers;

// How many digits a seed has. No other first word of a line has as many.
const SEED_DIGITS: usize = 64;

/// A script, and the device that it is played over: its seed, its numbers, and the transmissions
/// that fail.
#[derive(Drop)]
pub struct Script {
    pub seed: [u8; 32],
    pub numbers: Numbers,
    pub failing: Vec<u64>,
    pub text: Vec<u8>,
}

/// A script that has no lines yet, where the line is the first one of a run.
pub fn read_seed(alloc: Global, text: &str) -> anyhow::Result<Option<Script>>
    ensures begins { IfOk result (λ found. IsSome found
        ↔ (length (first_word text.now) ≡ SEED_DIGITS)) }
    ensures seed { IfOk result (λ found. IfSome found
        (λ script. decode_of (first_word text.now) ≡ Ok script.seed)) }
    ensures numbers { IfOk result (λ found. IfSome found
        (λ script. HasNumbers (other_words text.now) script.numbers)) }
    ensures empty { IfOk result (λ found. IfSome found (λ script. script.text.items ≡ [])) }
{
    let (digits, words) = split_word(text);
    if digits.len() != SEED_DIGITS {
        return Ok(None);
    }
    let seed = seed_of(digits)?;
    let (numbers, failing) = read_words(alloc, words)?;
    Ok(Some(Script {
        seed,
        numbers,
        failing,
        text: Vec::new(alloc),
    }))
}

// The first word of a text, and what stands behind the space after it.
#[tactic(auto, using(std::proofs::lemmas::List::drop_all))]
fn split_word(text: &str) -> (&str, &str)
    ensures first { result.0.now ≡ first_word text.now }
    ensures others { result.1.now ≡ other_words text.now }
{
    match text.split_once(' ') {
        Some(words) => words,
        None => (text, ""),
    }
}

// The words behind a seed: the device's numbers, or none for those of the profile, and then the
// transmissions that fail.
fn read_words(alloc: Global, words: &str) -> anyhow::Result<(Numbers, Vec<u64>)>
    ensures { IfOk result (λ read. HasNumbers words.now read.0) }
{
    let (first, others) = split_word(words);
    match read_numbers(first)? {
        Some(numbers) => Ok((numbers, read_failing(alloc, others)?)),
        None => Ok((Numbers::of_the_profile(), read_failing(alloc, words)?)),
    }
}

// The numbers of a device, where a word names them.
fn read_numbers(word: &str) -> anyhow::Result<Option<Numbers>>
    ensures { IfOk result (λ found. MatchOption found (HasNoMark word.now)
        (λ numbers. NumbersAreListed (behind_mark word.now) numbers)) }
{
    let Some((name, list)) = word.split_once('=') else {
        return Ok(None);
    };
    ensure!(name == "numbers", "a device has numbers");
    Ok(Some(numbers_of(list, ',')?))
}

// Transmissions with spaces between them.
fn read_failing(alloc: Global, words: &str) -> anyhow::Result<Vec<u64>> {
    let mut failing = Vec::new(alloc);
    for word in words.split_ascii_whitespace() {
        failing.push(word.parse::<u64>().context("a transmission has a number")?)?;
    }
    Ok(failing)
}
