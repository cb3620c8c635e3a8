//! A device that shows proofs nothing, for tests: what answers its commands may be anything, as a
//! device in memory whose state isn't shown.
#![tactic(auto)]

mod hidden;

pub use hidden::{Answers, HiddenDevice, respond};
