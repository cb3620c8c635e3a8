//! What a broker stands on: the trait [`Device`], one command to a TPM 2.0 device and one response
//! from it; [`Trace`], what contracts see of all that was sent; and which responses a broker takes.
#![tactic(auto)]

mod answers;
mod device;
mod own;
mod trace;

pub use answers::{takes, word_at};
pub use device::{Device, DeviceFailed};
pub use own::{SwapError, ask, command_of, handle_of, load_command, value_told};
pub use trace::Trace;
