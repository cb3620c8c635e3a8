ghost use Rattle.std.specs.Prelude.{◌≡◌, ◌<◌, IfOk, Ok};
ghost use Rattle.hex.specs.Hex.{decode_of};
ghost use Rattle.device_words.specs.Words.{NumbersAreNamed, before, behind, decimal};

use anyhow::Context;
use tab_spec::Numbers;

/// A seed of 32 bytes, written in 64 hexadecimal digits. Other words are errors.
pub fn seed_of(digits: &str) -> anyhow::Result<[u8; 32]>
    ensures { IfOk result (λ seed. decode_of digits.now ≡ Ok seed) }
{
    let mut seed = [0; 32];
    hex::decode_to_slice(digits, &mut seed)?;
    Ok(seed)
}

/// The numbers of a device, written in decimal digits: slots, places, sessions and the gap, with
/// this ASCII character between each two. Fewer of them, and what is no number of its type, are
/// errors; whether they are in range isn't looked at.
pub fn numbers_of(list: &str, mark: char) -> anyhow::Result<Numbers>
    requires { mark < 128 }
    ensures { IfOk result (λ numbers. NumbersAreNamed mark list.now numbers) }
{
    let (slots, others) = first_of(list, mark)?;
    let (loaded, others) = first_of(others, mark)?;
    let (active, gap) = first_of(others, mark)?;
    Ok(Numbers {
        slots: count_of(slots)?,
        loaded: count_of(loaded)?,
        active: count_of(active)?,
        gap: gap_of(gap)?,
    })
}

// The first number of several, and the others.
fn first_of(list: &str, mark: char) -> anyhow::Result<(&str, &str)>
    requires { mark < 128 }
    ensures { IfOk result (λ parts. (parts.0.now ≡ before mark list.now)
        × (parts.1.now ≡ behind mark list.now)) }
{
    list.split_once(mark).context("a device has four numbers")
}

fn count_of(word: &str) -> anyhow::Result<u8>
    ensures { IfOk result (λ n. n ≡ decimal word.now) }
{
    Ok(word.parse::<u8>()?)
}

fn gap_of(word: &str) -> anyhow::Result<u32>
    ensures { IfOk result (λ n. n ≡ decimal word.now) }
{
    Ok(word.parse::<u32>()?)
}
