//! Tests of the crates of bytes, lists, hashes, values, wire forms and frames, over their public
//! calls.
//! They stand apart so that these crates are proved once.
#![tactic(auto)]

#[cfg(test)]
mod bytes;
#[cfg(test)]
mod frames;
#[cfg(test)]
mod hashes;
#[cfg(test)]
mod lists;
#[cfg(test)]
mod objects;
#[cfg(test)]
mod parameters;
#[cfg(test)]
mod persists;
#[cfg(test)]
mod sessions;
#[cfg(test)]
mod wire;
