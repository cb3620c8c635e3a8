//! The commands of objects (Part 1, "Protected Storage"). What tests that a handle stands for an
//! object, and the authorization, come before them.
#![tactic(auto)]

mod create_object;
mod creation_data;
mod derive;
mod load_object;
mod private_area;
mod public_area;
mod template;
mod use_object;

pub use create_object::{create, create_primary};
pub use load_object::load;
pub use use_object::{hmac_of, read_public_of, unseal};
