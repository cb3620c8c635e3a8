//! The handles that a client holds: a table for each client, from handles of transient objects to
//! the items that stand for them.
#![tactic(auto)]

mod blocks;
mod table;

pub use table::ClientTable;
