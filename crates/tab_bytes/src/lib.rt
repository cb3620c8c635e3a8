//! Bytes of TPM commands and responses: a buffer to write one into, and a reader that takes one
//! apart. All numbers are big-endian (TPM 2.0 Library Specification, Part 1, "Data Transmission").
#![tactic(auto)]

mod buffer;
mod reader;

pub use buffer::{BUFFER_BYTES, Buffer, Full};
pub use reader::Reader;
