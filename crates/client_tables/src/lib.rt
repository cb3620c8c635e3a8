//! The tables of handles of a broker's clients. Only those of open clients are kept.
#![tactic(auto)]

mod open_client;
mod tables;

pub use tables::ClientTables;
