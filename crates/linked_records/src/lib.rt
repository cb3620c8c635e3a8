//! Records threaded by index in lists, in one arena.
//!
//! Each list is doubly linked: a record keeps the indices of the records before and after it. So a
//! record goes into a list, out of it, to its back or to another list in a constant number of
//! records visited, and keeps its index until it is removed. Memory is taken by `new`, `reserve`
//! and `add_list` alone.
//!
//! The counted calls tell how many records they visit, by a counter that takes no bytes: a record
//! is visited each time its place is looked up, to read it, to write it or both, and the ends of a
//! list are no record. `front_counted` counts the record that it names.
#![tactic(auto)]

mod arena;
mod place;
mod records;
mod steps;

pub use records::Records;
pub use steps::Steps;
