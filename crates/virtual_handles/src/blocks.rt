ghost use Rattle.std.specs.Prelude.{◌≡◌, ◌≤◌, ◌<◌, ℕ, get_or, length, drop, None, Some, IfSome};
ghost use Rattle.std.specs.Prelude.{MatchOption};
ghost use Rattle.history_spec.specs.Table.{least_free, first_taken};
ghost use Rattle.history_spec.specs.declared.TheConstants.{CLIENT_OBJECTS};
ghost use Rattle.virtual_handles.specs.Blocks.{CountsBlocks};

/// How many places a block has. For each block the table knows how many of its places are taken, so
/// a search goes over counts of blocks, and then over the places of one block.
pub(crate) const BLOCK: usize = 64;

/// How many blocks the places of a client make.
pub(crate) const BLOCKS: usize = 64;

// The first block with a place that isn't taken; the number of blocks where there is none.
fn first_open_block(taken: &[u8]) -> usize
    ensures within { result ≤ length taken.now }
    ensures full { (k : ℕ) → k < result → BLOCK ≤ get_or taken.now k 0 }
    ensures found { result < length taken.now → get_or taken.now result 0 < BLOCK }
{
    for (block, count) in taken.iter().enumerate() {
        if usize::from(*count) < BLOCK {
            return block;
        }
    }
    taken.len()
}

// The first block, from this one on, with a place that is taken; the number of blocks where there
// is none.
fn first_held_block(taken: &[u8], first: usize) -> usize
    requires { first ≤ length taken.now }
    ensures from { first ≤ result }
    ensures within { result ≤ length taken.now }
    ensures empty { (k : ℕ) → first ≤ k → k < result → get_or taken.now k 0 ≡ 0 }
    ensures found { result < length taken.now → 0 < get_or taken.now result 0 }
{
    for block in first..taken.len() {
        if taken[block] > 0 {
            return block;
        }
    }
    taken.len()
}

// The first place that isn't taken; the number of places where there is none.
fn first_free_of(places: &[Option<u32>]) -> usize
    ensures least { result ≡ least_free places.now }
    ensures within { result ≤ length places.now }
{
    for (number, place) in places.iter().enumerate() {
        if place.is_none() {
            return number;
        }
    }
    places.len()
}

// The first place that is taken, from one number up to another.
fn first_taken_between(places: &[Option<u32>], start: usize, end: usize) -> Option<usize>
    requires { start ≤ end }
    ensures least { MatchOption result
        (first_taken start (drop start places.now) ≡ first_taken end (drop end places.now))
        (λ number. first_taken start (drop start places.now) ≡ Some number) }
    ensures within { IfSome result (λ number. number < length places.now) }
{
    for number in start..end.min(places.len()) {
        if places[number].is_some() {
            return Some(number);
        }
    }
    None
}

/// The first place that isn't taken; the number of places where there is none. It looks at one
/// block alone.
pub(crate) fn first_free(places: &[Option<u32>], taken: &[u8; BLOCKS]) -> usize
    requires counts { CountsBlocks places.now taken.now }
    requires most { length places.now ≤ CLIENT_OBJECTS }
    ensures least { result ≡ least_free places.now }
    ensures within { result ≤ length places.now }
{
    let start = BLOCK * first_open_block(taken);
    let end = places.len().min(start + BLOCK);
    start + first_free_of(&places[start..end])
}

/// The first place that is taken, from this number on. It looks at the block of this number, and
/// then at one more alone.
pub(crate) fn first_taken(
    places: &[Option<u32>],
    taken: &[u8; BLOCKS],
    start: usize,
) -> Option<usize>
    requires counts { CountsBlocks places.now taken.now }
    requires most { length places.now ≤ CLIENT_OBJECTS }
    ensures least { result ≡ first_taken start (drop start places.now) }
    ensures within { IfSome result (λ number. number < length places.now) }
{
    if start >= places.len() {
        return None;
    }
    let next = start / BLOCK + 1;
    if let Some(number) = first_taken_between(places, start, BLOCK * next) {
        return Some(number);
    }
    let start = BLOCK * first_held_block(taken, next);
    first_taken_between(places, start, start + BLOCK)
}
