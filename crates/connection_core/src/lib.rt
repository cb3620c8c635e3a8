//! One connection of a broker: its bytes are pulled and cut into commands, each is run in a turn of
//! its own at the value under the lock, and the replies are written in the order of the commands.
#![tactic(auto)]

mod between;
mod duty;
mod ends;
mod hands;
mod held;
mod intake;
mod line;
mod message;
mod reader;
mod serve;
mod way;
mod worker;

pub use ends::{Ending, LinkEnd};
pub use serve::serve_link;
