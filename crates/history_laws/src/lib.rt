//! Laws of histories, whatever machine they are of: what stands in a client's table, and what is
//! counted in it; and that a journal which keeps its entries has numbers for its clients.
#![tactic(auto)]

mod numbers;
mod places;

pub use numbers::kept_journals_have_numbers;
pub use places::{places_are_counted, places_are_seen_through};
