//! Tests of the words that cancel commands, of turns at a value, of one connection and of the loop
//! that accepts them, over one value in memory. They stand apart so that each of these crates is
//! proved once.
#![tactic(auto)]

#[cfg(test)]
mod accepts;
#[cfg(test)]
mod book;
#[cfg(test)]
mod connection_examples;
#[cfg(test)]
mod connections;
#[cfg(test)]
mod prompts;
#[cfg(test)]
mod turn_examples;
#[cfg(test)]
mod turns;
#[cfg(test)]
mod watch;
#[cfg(test)]
mod words;
