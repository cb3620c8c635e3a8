//! The device as a machine of few slots and session numbers: what it keeps, the objects and
//! sessions that are loaded, the sessions that are saved, and each command that it takes (Part 1,
//! "TPM Operational States" and "Object Slots").
#![tactic(auto)]

mod capability;
mod contexts;
mod machine;
mod operands;
mod sessions;
mod slots;

pub use machine::SlotMachine;
