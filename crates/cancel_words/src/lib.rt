//! A word by which one thread cancels commands that another runs. The reader of a connection counts
//! the commands that it cuts, and at a cancel raises the word to the number of those before it. The
//! worker loads the word before each command, and runs none that the word covers. This project's
//! own.
#![tactic(auto)]

mod seat;
mod word;

pub use word::{CancelWord, WordSeat};
