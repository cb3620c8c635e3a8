//! A workload: the script that a number stands for, and the summary of its replies.
#![tactic(auto)]

mod commands;
mod laws;
mod part;
mod source;
mod tally;
mod written;

pub use laws::{replies_are_told, workloads_have_few_replies, workloads_have_no_bad_line};
pub use source::Workload;
pub use tally::Tally;
