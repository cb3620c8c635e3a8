//! Words that say of a device in memory which seed and which numbers it has, as the programs that
//! play stored lines read them.
#![tactic(auto)]

mod words;

pub use words::{numbers_of, seed_of};
