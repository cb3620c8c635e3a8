//! Connections over the system's Unix stream sockets: the ends of one as [`UnixSource`] and
//! [`UnixSink`], and [`UnixAcceptor`], which listens at a path, and can be asked to stop
//! ([`ask_to_stop`]) or told to accept nobody more ([`Closer`]). What the system gives and takes no
//! contract can say.
#![tactic(auto)]

mod link;
mod listen;
mod lock;
mod probe;
mod ready;
mod socket_file;
mod stop;
mod stream;
mod want;

pub use link::LinkStream;
pub use listen::UnixAcceptor;
pub use ready::{Readies, ReadySource};
pub use stop::{Closer, ask_to_stop};
pub use stream::{ShutSink, Shuts, UnixSink, UnixSource, connect};
