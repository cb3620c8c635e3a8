//! One history under a lock: threads take turns at a value that keeps it, and each carries a pass,
//! which knows what the history has of its clients. This project's own.
#![tactic(auto)]

mod boxed;
mod calls;
mod pass;
mod seat;
mod serves;
mod turn;

pub use calls::{Closed, Done, Job, OpenClientError, Told};
pub use pass::{Pass, Shared};
pub use serves::{Recorded, Serves};
