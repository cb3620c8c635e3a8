//! Laws of worlds: what one more entry makes of a history and of its world, which clients it
//! leaves, whose sessions there are, and which were left.
#![tactic(auto)]

mod laws;
mod open_clients;
mod sessions;

pub use laws::histories_grow;
pub use open_clients::{tables_follow_their_clients, worlds_have_their_clients};
pub use sessions::{left_sessions_are_listed, sessions_follow_their_clients};
