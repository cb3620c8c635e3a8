//! The machine as clients see it, and which histories it can have. Definitions, each this project's
//! own.
#![tactic(auto)]
