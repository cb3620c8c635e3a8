//! The effect of a command on what a device keeps, and its whole reply: a row for each command,
//! over what its handles stand for.
#![tactic(auto)]

mod authorization;
mod effects;
mod names;
mod objects;
mod operands;
mod policies;
mod response_auth;
mod rows;
mod shared;

pub use effects::effect;
pub use operands::{CommandOutcome, Created, Operand, Operands};
pub use shared::{creates, shared_effect};
