//! What the commands of a TPM 2.0 do: to what a device keeps, to the objects and sessions that they
//! name, and in which bytes they answer. Definitions alone, which contracts cite.
#![tactic(auto)]

/// The most bytes of parameters that the row of a command appends to a response (the project's own
/// bound: NV_Read has the most, a TPM2B of 2,048 bytes).
pub const MOST_PARAMETER_BYTES: u32 = 2060;

/// The most bytes of a response that has no authorization yet: its header, a handle, the size of
/// its parameters, and these (the project's own bound).
pub const MOST_BYTES_BEFORE_AUTH: u32 = 2100;
