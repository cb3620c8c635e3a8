//! The commands of NV indexes (Part 1, "NV Memory"), and the test that comes before their
//! authorization: that each index which is named is defined.
#![tactic(auto)]

mod access;
mod define;
mod read;
mod write;

pub use access::indexes_are_there;
pub use define::{check_nv_define, check_nv_undefine, nv_define, nv_undefine};
pub use read::{nv_read, nv_read_public};
pub use write::{check_nv_increment, check_nv_write, nv_increment, nv_write};
