//! Sessions (Part 1, "Session-Based Authorizations"): how they start, whether an authorization is
//! good for what a command names, and the authorization of the response.
#![tactic(auto)]

mod authorization;
mod entity;
mod fields;
mod password;
mod response_auth;
mod start;

pub use authorization::authorize;
pub use entity::Entity;
pub use fields::is_continued;
pub use password::authorize_by_password;
pub use response_auth::{put_password_response_auth, put_response_auth};
pub use start::{can_start, check_start, start_session};
