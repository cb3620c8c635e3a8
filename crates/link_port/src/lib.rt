//! Where bytes come from and go to: the traits [`Source`] and [`Sink`], ends in memory that fail at
//! listed calls, and the standard streams. Where connections come from: the trait [`Acceptor`], and
//! one in memory. What a worker asks before a command: the trait [`Gate`].
#![tactic(auto)]

mod accept;
mod gates;
mod memory;
mod port;
mod push;
mod standard;

pub use accept::MemoryAcceptor;
pub use gates::{Gate, OpenGate};
pub use memory::{MemorySink, MemorySource};
pub use port::{Acceptor, Failed, Sink, Source};
pub use push::push_all;
pub use standard::{StdSink, StdSource};
