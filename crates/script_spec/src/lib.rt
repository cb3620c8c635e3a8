//! What a script means: its grammar, the calls that it makes, and what journal and output these
//! lead to. Definitions, each this project's own.
#![tactic(auto)]

mod examples;

/// The most bytes of a line of a script, its newline left out.
pub const LINE_BYTES: u32 = 16_384;

/// The most bytes of a script.
pub const SCRIPT_BYTES: u32 = 1_073_741_824;
