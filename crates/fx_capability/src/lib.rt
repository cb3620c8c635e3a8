//! The lists that GetCapability answers (Part 3, "TPM2_GetCapability"): handles, commands, PCRs and
//! properties. No list is held: each is walked from item to item, and takes no memory.
#![tactic(auto)]

mod asked;
mod commands;
mod get_capability;
mod handles;
mod holdings;
mod laws;
mod limits;
mod listing;
mod properties;
mod viewed;

pub use get_capability::{capability, client_capability};
pub use holdings::{HeldSession, Holdings};
pub use laws::a_device_lists_for_clients;
pub use limits::Limits;
pub use viewed::Viewed;
