//! The cutting of a stream of commands that comes in pieces.
#![tactic(auto)]

mod framer;

pub use framer::{Frame, Framer};
