//! Tests of effects and of contexts that no reply of the device shows: a counter at its end, what a
//! client is told, a buffer without room. What a reply shows is among the known answers.
#![tactic(auto)]

#[cfg(test)]
mod capabilities;
#[cfg(test)]
mod contexts;
#[cfg(test)]
mod counters;
