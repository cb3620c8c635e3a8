//! The fields of commands and contexts: TPM2Bs, the codes of numbered parameters and handles, the
//! fields of a TPMS_CONTEXT, and bytes of at most so many.
#![tactic(auto)]

mod codes;
mod context;
mod fields;
mod small_bytes;

pub use codes::{end_parameters, in_handle, in_parameter};
pub use context::{Context, read_context};
pub use fields::{add_sized, put_sized, read_auth, read_sized, read_sized_exactly, without_zeros};
pub use small_bytes::SmallBytes;
