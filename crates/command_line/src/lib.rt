//! The program's options: their grammar, and the plan that they give.
#![tactic(auto)]

mod examples;
mod path_text;
#[cfg(test)]
mod tests;
mod words;

pub use path_text::{PATH_MOST, PathText};
pub use words::{CONNECTIONS_MOST, DeviceWord, LINES_MOST, Plan, Verb, WordsError, read_words};
