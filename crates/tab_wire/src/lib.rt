//! The wire forms of TPM 2.0 commands and responses: the shape and the authorizations of a command,
//! or the code of its first fault, and the making of responses.
#![tactic(auto)]

mod admission;
mod area;
mod examples;
mod rows;
mod shapes;
mod tables;
mod wire;

pub use admission::{
    admit, admit_client, is_saved_object, is_session_handle, makes_object, needs_slot,
};
pub use area::authorizations;
pub use rows::row_of;
pub use shapes::{command_row, handle_count, octet_of, shape, shape_with, with_handles};
pub use tab_spec::{Auth, Auths, CommandRow, Kind, Shape};
pub use tables::{NoTables, Tables};
pub use wire::{
    code_of, end_response, error_reply, is_frame, reported_code, response_handle,
    set_response_handle, size_of, start_response, tag_of,
};
