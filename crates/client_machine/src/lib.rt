//! The device with the objects and sessions of all clients. A call carries out one command of one
//! client, or drops all that a client has.
#![tactic(auto)]

mod client_view;
mod closing;
mod held;
mod machine;
mod preparing;
mod replies;
mod responses;

pub use client_view::ClientView;
pub use held::Held;
pub use machine::Machine;
pub use responses::pick_of;
