//! SHA-256, HMAC, KDFa and bytes that are hidden by it, and the Name of a public area.
#![tactic(auto)]

mod keyed;
mod sum;

pub use keyed::{Mac, kdfa, mask};
pub use sum::{Sum, name_of};
