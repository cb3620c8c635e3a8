//! A script played over a broker, connections served over a broker, and the top call, which does
//! all that the program's words ask for.
#![tactic(auto)]

mod cause;
mod counts;
mod ended_broker;
mod played_broker;
mod script;
mod server;
mod serving;
mod status;

pub use accept_loop::LinkDone;
pub use command_line::{
    CONNECTIONS_MOST, DeviceWord, LINES_MOST, PATH_MOST, PathText, Plan, Verb, WordsError,
    read_words,
};
pub use connection_core::Ending;
pub use link_pool::{Service, Services};
pub use played_broker::PlayedBroker;
pub use script::{Played, play};
pub use server::{Ran, tabrmd};
pub use serving::LINKS_MOST;
