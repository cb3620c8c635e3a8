//! What the reader raises the word to is what the worker loads, in one thread and in two.

ghost use Rattle.std.specs.Prelude.{◌≡◌, [], ◌∷◌, IfOk};
ghost use Rattle.cancel_words.specs.View.{of_reader, of_worker, with_loaded};

use cancel_words::{CancelWord, WordSeat};
use std::alloc::{AllocError, Global};
use std::test::Fail;
use std::thread;
use std::thread::Threads;

// What the worker loads: every word is at least 0, so there is an answer.
fn loaded(word: &CancelWord, worker: &mut WordSeat) -> u64
    requires word { worker.old.word ≡ word.now }
    requires role { worker.old.role ≡ of_worker }
    ensures { worker.new ≡ with_loaded worker.old result }
{
    let Some(word) = word.covers(worker, 0) else {
        unreachable!()
    };
    word
}

// The word is loaded, raised to 3 and to 5, and loaded again: the seat of both, and what was
// loaded.
fn raise_twice(alloc: Global) -> Result<(WordSeat, u64, u64), AllocError>
    ensures raised { IfOk result (λ r. r.0.raised ≡ 3 ∷ 5 ∷ []) }
    ensures loaded { IfOk result (λ r. r.0.loaded ≡ r.1 ∷ r.2 ∷ []) }
{
    let (word, mut reader, mut worker) = CancelWord::new(alloc)?;
    let before = loaded(&word, &mut worker);
    word.raise(&mut reader, 3);
    word.raise(&mut reader, 5);
    let after = loaded(&word, &mut worker);
    Ok((word.finish(reader, worker), before, after))
}

// Raises the word to each number below the limit, from 1 on.
fn raise_to_each(word: &CancelWord, mut reader: WordSeat, limit: u64) -> WordSeat
    requires word { reader.word ≡ word.now }
    requires role { reader.role ≡ of_reader }
    requires fresh { reader.raised ≡ [] }
    ensures { (result.word ≡ reader.word) × (result.role ≡ reader.role) }
{
    for number in 1..limit {
        word.raise(&mut reader, number);
    }
    reader
}

// Loads the word so many times. Whether it never fell.
fn load_often(word: &CancelWord, mut worker: WordSeat, times: u64) -> (WordSeat, bool)
    requires word { worker.word ≡ word.now }
    requires role { worker.role ≡ of_worker }
    ensures { (result.0.word ≡ worker.word) × (result.0.role ≡ worker.role) }
{
    let mut last = 0;
    let mut never_fell = true;
    for _ in 0..times {
        let now = loaded(word, &mut worker);
        if now < last {
            never_fell = false;
        }
        last = now;
    }
    (worker, never_fell)
}

// One thread raises the word while another loads it. Whether it never fell, and what it is in the
// end.
fn raise_beside_loads<R: Threads + Sync>(
    rt: &R,
    alloc: Global,
    limit: u64,
) -> Result<(WordSeat, bool, u64), AllocError> {
    let (word, reader, worker) = CancelWord::new(alloc)?;
    let shared = &word;
    let (reader, (mut worker, never_fell)) = thread::join(
        rt,
        move || -> WordSeat
            requires { (reader.word ≡ shared.now) × (reader.role ≡ of_reader)
                × (reader.raised ≡ []) }
            ensures { (result.word ≡ shared.entry.now) × (result.role ≡ of_reader) }
        { raise_to_each(shared, reader, limit) },
        move || -> (WordSeat, bool)
            requires { (worker.word ≡ shared.now) × (worker.role ≡ of_worker) }
            ensures { (result.0.word ≡ shared.entry.now) × (result.0.role ≡ of_worker) }
        { load_often(shared, worker, limit) },
    );
    let last = loaded(&word, &mut worker);
    Ok((word.finish(reader, worker), never_fell, last))
}

#[test]
fn a_word_covers_the_commands_up_to_it(rt: HostRuntime) -> Result<(), Fail> {
    let (word, mut reader, mut worker) = CancelWord::new(rt.alloc())?;
    let before = word.covers(&mut worker, 1);
    word.raise(&mut reader, 3);
    let last = word.covers(&mut worker, 3);
    let next = word.covers(&mut worker, 4);
    assert!(rt; (before, last, next) == (None, Some(3), None));
    Ok(())
}

#[test]
fn a_seat_keeps_what_both_did(rt: HostRuntime) -> Result<(), Fail> {
    let (_, before, after) = raise_twice(rt.alloc())?;
    assert!(rt; before == 0 && after == 5);
    Ok(())
}

#[test]
fn a_word_is_raised_beside_loads(rt: HostRuntime) -> Result<(), Fail> {
    let (_, never_fell, last) = raise_beside_loads(&rt, rt.alloc(), 1000)?;
    assert!(rt; never_fell && last == 999);
    Ok(())
}

fn cross<S: Send + Sync, P: Send>() {}

#[test]
fn a_word_crosses_threads() {
    cross::<CancelWord, WordSeat>();
}
