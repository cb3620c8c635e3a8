//! What the program does around its top call: it finds the device that the words name, listens at
//! the socket that they name, asks a daemon to stop, says on standard error what went wrong, and
//! gives the exit status. It stands on no server, so both are proved side by side.
#![tactic(auto)]

mod device;
mod finished;
mod gate;
mod listening;
mod stopping;
mod target;
mod told;
mod words;

pub use device::{device_of, find_device, unreachable_device};
pub use finished::{Finished, hang_up};
pub use gate::{DaemonGate, DaemonWatcher};
pub use listening::{acceptor_of, unbound};
pub use stopping::{read_stop, stop};
pub use target::Target;
pub use told::{report, tell_wrong_answer};
pub use words::read_args;
