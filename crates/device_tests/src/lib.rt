//! Tests of the crates of the device, of the plain machine and of the tables of handles. They stand
//! apart so that these crates are proved once, and not again with their tests.
//!
//! Most are texts of lines, each with what is done and what has to come of it. A line that begins
//! with `#` is a comment.
#![tactic(auto)]

#[cfg(test)]
mod answers;
#[cfg(test)]
mod handles;
#[cfg(test)]
mod memory;
#[cfg(test)]
mod world;
