//! Tests of `Broker`, of `object_swap` and of `session_swap`, and worked examples of what
//! `broker_core` defines. Most go over the device in memory, and so cross nearly all crates below
//! the server. They stand apart so that these are proved while the tests are.
#![tactic(auto)]

#[cfg(test)]
mod clients;
#[cfg(test)]
mod contexts;
#[cfg(test)]
mod crowd;
#[cfg(test)]
mod driver;
#[cfg(test)]
mod examples;
#[cfg(test)]
mod fake;
#[cfg(test)]
mod given_back;
#[cfg(test)]
mod kept;
#[cfg(test)]
mod larger;
#[cfg(test)]
mod numbers;
#[cfg(test)]
mod objects;
#[cfg(test)]
mod pair;
#[cfg(test)]
mod sent;
#[cfg(test)]
mod sessions;
