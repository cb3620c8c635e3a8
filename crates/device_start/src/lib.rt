//! How a device is started: Startup, and then a flush of all that an earlier broker left in it.
#![tactic(auto)]

mod lists;
mod starting;

pub use lists::Lists;
pub use starting::{StartError, start};
