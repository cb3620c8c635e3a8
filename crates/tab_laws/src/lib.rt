//! Laws of wire forms and of values: how streams are cut, that what is written is read again, and
//! what a command is with other handles. Each is a function without a body, whose `ensures` is the
//! law; crates above cite their lemmas.
#![tactic(auto)]

mod handles;
mod laws;

pub use handles::{
    clients_commands_are_commands, commands_have_their_handles, handles_may_be_others,
    passwords_name_no_session,
};
pub use laws::{
    a_frame_comes_first, a_rest_has_no_frame, items_are_a_front, nv_public_areas_are_read_back,
    objects_are_read_back, one_frame_is_cut_whole, public_areas_are_read_back,
    selections_are_read_back, sessions_are_read_back, streams_go_on,
};
