//! The broker over any device: it runs the commands of many clients one at a time, and keeps the
//! journal of what happened.
#![tactic(auto)]

mod broker;
mod under_lock;

pub use broker::{BeginError, Broker};
pub use broker_lock::{Closed, OpenClientError, Told};
