//! The sessions of all clients: more of them than a device has places for loaded ones. Each is
//! loaded, or saved in a context that the device made of it (Part 1, "Session Context Management").
//! A client may save one of its own, and use it again once it gives the context back. Such a
//! session may outlive its client: it is left then, and whoever gives the context back gets it.
#![tactic(auto)]

mod clients;
mod gap;
mod items;
mod kept;
mod laws;
mod left;
mod moves;
mod order;
mod places;
mod record;
mod renewal;
mod sessions;

pub use device_port::SwapError;
pub use gap::{refresh, refresh_counted};
pub use laws::sessions_stand_on;
pub use sessions::Sessions;

/// The most sessions that one command needs at once, named and new ones.
pub const NEEDED_MOST: u32 = 3;
