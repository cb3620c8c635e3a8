//! Connections without end over one value under a lock: so many servers take turns at accepting
//! them, and each serves what it accepted. Nothing is kept of a connection that is over.
#![tactic(auto)]

mod done;
mod idle;
mod server;
mod servers;
mod serving;
mod turn;
mod way;

pub use done::{Service, Services, lacks_memory};
pub use serving::{ServedAll, serve_all};
