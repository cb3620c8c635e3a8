//! Laws of clients' commands: what a device does with one over its slots, as the plain machine does
//! it over the client's objects and sessions, with contexts too. Each is a function without a body,
//! whose `ensures` is the law; crates above cite their lemmas.
#![tactic(auto)]

mod contexts;
mod laws;
mod sessions;

pub use contexts::{
    clients_contexts_are_saved, clients_contexts_of_objects_are_loaded, devices_list_for_clients,
};
pub use laws::{
    admissions_look_things_up, clients_commands_go_over_other_handles,
    clients_commands_run_over_slots, clients_steps_go_by_their_code,
};
pub use sessions::clients_commands_name_their_sessions;
