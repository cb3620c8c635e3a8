//! Laws of the device: its replies are frames, it stays sound, its contexts are opened,
//! what the commands of contexts do, what a broker takes, and what a command does over other
//! handles. Each is a function without a body, whose `ensures` is the law; crates above cite their
//! lemmas.
#![tactic(auto)]

mod handles;
mod laws;
mod remains;

pub use handles::{
    commands_run_over_other_handles, effects_ignore_handles, handles_stand_for_what_is_there,
    slots_have_what_is_named,
};
pub use laws::{
    brokers_that_hold_less_take_more, context_numbers_never_fall, contexts_are_opened,
    devices_answer_rightly, devices_keep_their_seed, devices_stay_sound,
    effects_fill_the_least_slot, fresh_contexts_are_found, made_objects_have_a_handle,
    moved_objects_are_taken, moved_sessions_are_taken, objects_are_moved,
    session_contexts_are_opened, sessions_are_moved, slot_replies_are_frames, startup_starts,
    two_commands_are_answered_by_contexts, two_commands_are_answered_by_what_is_held,
};
pub use remains::{numbers_are_told, remains_are_flushed, remains_are_listed};
