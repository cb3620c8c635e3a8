//! The commands of policies over a session (Part 3, "Enhanced Authorization (EA) Commands"). What
//! tests that a handle stands for such a session, and the authorization of PolicySecret, come
//! before them.
#![tactic(auto)]

mod branches;
mod digest;
mod pcrs;
mod secret;
mod simple;

pub use branches::policy_or;
pub use pcrs::policy_pcr;
pub use secret::policy_secret;
pub use simple::{
    policy_auth_value, policy_command_code, policy_get_digest, policy_password, policy_restart,
};
