//! The text of a script: an input cut into lines, a line read, the line of a reply, and the labels
//! that are open.
#![tactic(auto)]

mod label;
mod labels;
mod lines;
mod reader;

pub use label::Label;
pub use labels::Labels;
pub use lines::{LineItem, PIECE_BYTES, Piece, REPLY_LINE_BYTES, read_line, write_reply_line};
pub use reader::{Line, LineReader};
