//! A device in memory, which is the project's profile byte for byte, as a [`device_port::Device`].
#![tactic(auto)]

mod memory;

pub use memory::MemoryDevice;
