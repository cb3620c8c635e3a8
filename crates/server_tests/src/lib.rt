//! Tests of the program's one call, `tabrmd`, over a device, an input, an output and connections in
//! memory, some of which fail, and over a device behind a socket. They cross nearly all crates, and
//! stand apart so that these are proved while the tests are. What scripts, workloads and refused
//! words come to where nothing fails is shown by the cases in tools/cases.
#![tactic(auto)]

#[cfg(test)]
mod cancels;
#[cfg(test)]
mod faults;
#[cfg(test)]
mod linked;
#[cfg(test)]
mod mute;
#[cfg(test)]
mod numbers;
#[cfg(test)]
mod remains;
#[cfg(test)]
mod runs;
#[cfg(test)]
mod sent;
#[cfg(test)]
mod serving;
