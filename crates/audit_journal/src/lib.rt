//! The journal of a broker: a list of entries, for which room is taken before it is needed, and its
//! text.
#![tactic(auto)]

mod counts;
mod journal;
mod record;
mod region;
mod text;

pub use counts::Counts;
pub use history_spec::{EntryKind, Pick};
pub use journal::{Entry, Journal};
