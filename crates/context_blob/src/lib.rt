//! Contexts of objects and of sessions as they stand outside of a device (Part 1, "Context
//! Management"): how they are encrypted, and how the device that made a context knows it again.
#![tactic(auto)]

mod blob;
mod keys;
mod object;
mod session;

pub use keys::ContextKeys;
pub use object::{open_object, seal_object};
pub use session::{open_session, seal_session};
