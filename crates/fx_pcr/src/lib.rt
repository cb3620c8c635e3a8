//! The commands of platform configuration registers (Part 1, "PCR Operations").
#![tactic(auto)]

mod extend;
mod read;

pub use extend::{check_pcr_extend, pcr_extend};
pub use read::pcr_read;
