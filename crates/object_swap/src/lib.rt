//! The objects of all clients: more of them than a device has slots. Each stands in a slot, in a
//! context that the device made of it, or in both (Part 1, "Context Management"), and in the list
//! of its client.
#![tactic(auto)]

mod items;
mod laws;
mod lists;
mod moves;
mod owners;
mod record;
mod residents;
mod swapper;
mod vacant;

pub use device_port::SwapError;
pub use laws::{adopted_objects_stand, orphaned_objects_stand};
pub use lists::{Uncounted, Visits};
pub use swapper::Objects;

/// How many places for objects there are at most, of all clients together, and how many lists of
/// clients.
pub const PLACES_MOST: u32 = 2_147_483_648;
