/// What the contexts of a device may be (Part 2, "TPMS_CONTEXT"), and which commands need a slot
/// there.
#[derive(Clone, Copy)]
pub struct ContextLimits {
    /// The most bytes of the context of an object.
    pub object_bytes: u16,
    /// The most bytes of the context of a session.
    pub session_bytes: u16,
    /// Whether an object's savedHandle may also be that of an object with stClear set, 0x80000002.
    pub st_clear: bool,
    /// Whether Create needs a free slot, since the object is built in one.
    pub create_takes_slot: bool,
}

/// Those of a device of this project's profile.
pub const PROFILE_CONTEXTS: ContextLimits = ContextLimits {
    object_bytes: 512,
    session_bytes: 256,
    st_clear: false,
    create_takes_slot: false,
};

/// Those of any other TPM that a broker serves (the project's own).
pub const TPM_CONTEXTS: ContextLimits = ContextLimits {
    object_bytes: 2048,
    session_bytes: 1024,
    st_clear: true,
    create_takes_slot: true,
};
