//! The machine that all clients share, as each of them sees it: one state that is kept, for each
//! open client a table of its own, in which its objects stand by number, and 64 session numbers,
//! each of one client, left by one, or unused. A session is in use, or a client saved it. It has no
//! slots, moves nothing and never lacks a place. It is for checking histories, and not for speed.
#![tactic(auto)]

mod capability;
mod client;
mod contexts;
mod flush;
mod left;
mod operands;
mod picks;
mod run;
mod seen;
mod sessions;
mod shared;
mod step_error;
mod table;
mod world;

pub use step_error::StepError;
pub use world::World;
