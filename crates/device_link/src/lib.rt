//! A TPM behind a byte stream, as a [`device_port::Device`]: one command goes out through a
//! [`link_port::Sink`], and one response comes in through a [`link_port::Source`]. After a failure
//! nothing more is written or read. A [`Watcher`] is told why it failed. A [`TpmLink`] is of a TPM
//! that needn't be the profile's.
#![tactic(auto)]

mod answered;
mod began;
mod device;
mod fault;
mod receive;
mod tpm;
mod watched;

pub use answered::Answered;
pub use began::Began;
pub use device::LinkDevice;
pub use fault::LinkFault;
pub use tpm::TpmLink;
pub use watched::{WatchedLink, Watcher};
