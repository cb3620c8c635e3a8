//! Tests of the links, of the journal and its text, of a script's lines and labels, and of
//! workloads. Their crates lie below nearly all others, so their tests stand apart.
#![tactic(auto)]

#[cfg(test)]
mod journals;
#[cfg(test)]
mod lines;
#[cfg(test)]
mod memory;
#[cfg(test)]
mod sockets;
#[cfg(test)]
mod streams;
#[cfg(test)]
mod told;
#[cfg(test)]
mod workloads;
