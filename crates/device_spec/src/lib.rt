//! The device as a machine of few slots for objects and 64 session numbers: its state, and what a
//! command makes of it. Definitions alone, which contracts cite.
#![tactic(auto)]

/// The properties that are a device's numbers (Part 2, "TPM_PT"): its slots for objects.
pub const PT_HR_TRANSIENT_MIN: u32 = 0x10e;

/// The sessions that it can have loaded.
pub const PT_HR_LOADED_MIN: u32 = 0x110;

/// The sessions that may be active, loaded and saved.
pub const PT_ACTIVE_SESSIONS_MAX: u32 = 0x111;

/// How far apart the numbers of session contexts may be.
pub const PT_CONTEXT_GAP_MAX: u32 = 0x114;
