//! Many connections side by side: they are accepted one after another, and each is served by a
//! thread of its own over one value under a lock.
#![tactic(auto)]

mod passing;
mod serving;

pub use passing::{Lent, Passed, take_back};
pub use serving::{AcceptError, LinkDone, Served, serve, serve_ends};
