//! A script played over a value that keeps a history: its lines read, its labels opened, fed and
//! closed, and the replies written.
#![tactic(auto)]

mod player;
mod room;
mod runs;
mod stop;

pub use player::{PlayedScript, play_script};
pub use room::Room;
pub use runs::Runs;
pub use stop::Stop;
