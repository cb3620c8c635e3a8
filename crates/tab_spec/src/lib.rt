//! The wire forms and values of TPM 2.0: the definitions that every contract of this workspace
//! stands on. The numbers below are those of the TPM 2.0 Library Specification, Part 2 ("TPM_ST",
//! "TPM_CC", "TPM_RC", "TPM_ALG_ID", "TPM_RH", "TPM_HT"), without their prefix `TPM_`.
#![tactic(auto)]

mod contexts;
mod numbers;

pub use contexts::{ContextLimits, PROFILE_CONTEXTS, TPM_CONTEXTS};
pub use numbers::{Numbers, leave_limit};

/// The fewest bytes of a command or a response: its header, of tag, size and code.
pub const HEADER_BYTES: u32 = 10;

/// The most bytes of a command or a response.
pub const MOST_BYTES: u32 = 4096;

/// The tag of a response to a command whose tag is none (`TPM_ST_RSP_COMMAND`).
pub const ST_RSP_COMMAND: u16 = 0x00C4;

/// The tag of a command or a response without an authorization area.
pub const ST_NO_SESSIONS: u16 = 0x8001;

/// The tag of a command or a response with an authorization area.
pub const ST_SESSIONS: u16 = 0x8002;

pub const CC_NV_UNDEFINE_SPACE: u32 = 0x122;

pub const CC_NV_DEFINE_SPACE: u32 = 0x12A;

pub const CC_CREATE_PRIMARY: u32 = 0x131;

pub const CC_NV_INCREMENT: u32 = 0x134;

pub const CC_NV_WRITE: u32 = 0x137;

pub const CC_SELF_TEST: u32 = 0x143;

pub const CC_STARTUP: u32 = 0x144;

pub const CC_NV_READ: u32 = 0x14E;

pub const CC_POLICY_SECRET: u32 = 0x151;

pub const CC_CREATE: u32 = 0x153;

pub const CC_HMAC: u32 = 0x155;

pub const CC_LOAD: u32 = 0x157;

pub const CC_UNSEAL: u32 = 0x15E;

pub const CC_CONTEXT_LOAD: u32 = 0x161;

pub const CC_CONTEXT_SAVE: u32 = 0x162;

pub const CC_FLUSH_CONTEXT: u32 = 0x165;

pub const CC_NV_READ_PUBLIC: u32 = 0x169;

pub const CC_POLICY_AUTH_VALUE: u32 = 0x16B;

pub const CC_POLICY_COMMAND_CODE: u32 = 0x16C;

pub const CC_POLICY_OR: u32 = 0x171;

pub const CC_READ_PUBLIC: u32 = 0x173;

pub const CC_START_AUTH_SESSION: u32 = 0x176;

pub const CC_GET_CAPABILITY: u32 = 0x17A;

pub const CC_GET_RANDOM: u32 = 0x17B;

pub const CC_PCR_READ: u32 = 0x17E;

pub const CC_POLICY_PCR: u32 = 0x17F;

pub const CC_POLICY_RESTART: u32 = 0x180;

pub const CC_PCR_EXTEND: u32 = 0x182;

pub const CC_POLICY_GET_DIGEST: u32 = 0x189;

pub const CC_POLICY_PASSWORD: u32 = 0x18C;

/// The code of a cancel frame, which is this project's own.
pub const CC_CANCEL: u32 = 0x2000_0001;

/// A command that succeeded.
pub const RC_SUCCESS: u32 = 0;

/// The tag is neither of a command's two.
pub const RC_BAD_TAG: u32 = 0x01E;

/// Added to a format-one code that is about a parameter.
pub const RC_P: u32 = 0x040;

/// Added to a format-one code that is about an authorization.
pub const RC_S: u32 = 0x800;

/// Added, times the number of the parameter, the handle or the authorization, from 1.
pub const RC_1: u32 = 0x100;

pub const RC_ATTRIBUTES: u32 = 0x082;

pub const RC_HASH: u32 = 0x083;

pub const RC_VALUE: u32 = 0x084;

pub const RC_TYPE: u32 = 0x08A;

pub const RC_HANDLE: u32 = 0x08B;

pub const RC_NONCE: u32 = 0x08F;

pub const RC_SIZE: u32 = 0x095;

pub const RC_INSUFFICIENT: u32 = 0x09A;

pub const RC_KEY: u32 = 0x09C;

pub const RC_POLICY_FAIL: u32 = 0x09D;

pub const RC_INTEGRITY: u32 = 0x09F;

pub const RC_BAD_AUTH: u32 = 0x0A2;

pub const RC_POLICY_CC: u32 = 0x0A4;

pub const RC_INITIALIZE: u32 = 0x100;

pub const RC_FAILURE: u32 = 0x101;

pub const RC_AUTH_MISSING: u32 = 0x125;

pub const RC_PCR_CHANGED: u32 = 0x128;

pub const RC_AUTH_UNAVAILABLE: u32 = 0x12F;

pub const RC_COMMAND_SIZE: u32 = 0x142;

pub const RC_COMMAND_CODE: u32 = 0x143;

pub const RC_AUTHSIZE: u32 = 0x144;

pub const RC_AUTH_CONTEXT: u32 = 0x145;

pub const RC_NV_RANGE: u32 = 0x146;

pub const RC_NV_AUTHORIZATION: u32 = 0x149;

pub const RC_NV_UNINITIALIZED: u32 = 0x14A;

pub const RC_NV_SPACE: u32 = 0x14B;

pub const RC_NV_DEFINED: u32 = 0x14C;

pub const RC_CONTEXT_GAP: u32 = 0x901;

pub const RC_OBJECT_MEMORY: u32 = 0x902;

pub const RC_SESSION_MEMORY: u32 = 0x903;

pub const RC_SESSION_HANDLES: u32 = 0x905;

pub const RC_CANCELED: u32 = 0x909;

/// Handle 0 of the handle area names nothing that is there; the handles count from it.
pub const RC_REFERENCE_H0: u32 = 0x910;

/// Authorization 0 names no session that is there; the authorizations count from it.
pub const RC_REFERENCE_S0: u32 = 0x918;

/// A broker's answer where memory lacks. This and the next three are this project's own codes.
pub const RC_MEMORY: u32 = 0x000B_0001;

/// A broker's answer where a transmission to the device failed.
pub const RC_DEVICE_FAULT: u32 = 0x000B_0002;

/// A broker's answer where its journal has no room for the command.
pub const RC_JOURNAL_FULL: u32 = 0x000B_0003;

/// A broker's answer where the device gave a wrong answer.
pub const RC_DEVICE_ANSWER: u32 = 0x000B_0004;

/// The most random bytes of one GetRandom.
pub const MOST_RANDOM_BYTES: u16 = 32;

/// The place in the random stream, in words of four bytes, that no command passes.
pub const LAST_PLACE: u64 = 1 << 62;

/// The most bytes of the nonce and of the hmac of an authorization.
pub const MOST_AUTH_BYTES: u32 = 64;

/// The most bytes of an NV index (the project's own).
pub const MOST_NV_BYTES: u32 = 2048;

/// How many NV indexes there may be (the project's own).
pub const NV_INDEXES: u32 = 64;

/// How many PCRs there are (the project's own).
pub const PCRS: u32 = 24;

/// The most PCRs of one PCR_Read.
pub const MOST_PCRS_READ: u32 = 8;

/// The scheme of a key that makes HMACs.
pub const ALG_HMAC: u16 = 0x0005;

/// The type of an HMAC key and of sealed bytes.
pub const ALG_KEYEDHASH: u16 = 0x0008;

/// The one hash of this profile.
pub const ALG_SHA256: u16 = 0x000B;

/// No scheme.
pub const ALG_NULL: u16 = 0x0010;

/// The type of a storage parent.
pub const ALG_SYMCIPHER: u16 = 0x0025;

/// The owner hierarchy (Part 2, "TPM_RH").
pub const RH_OWNER: u32 = 0x4000_0001;

pub const RH_NULL: u32 = 0x4000_0007;

/// What an authorization names whose hmac is a password.
pub const RS_PW: u32 = 0x4000_0009;

/// The bits of an object's attributes (Part 2, "TPMA_OBJECT"). An object with this one stays in its
/// TPM.
pub const OBJECT_FIXED_TPM: u32 = 0x0000_0002;

/// The object stays under its parent.
pub const OBJECT_FIXED_PARENT: u32 = 0x0000_0010;

/// The TPM makes the secret of the object.
pub const OBJECT_SENSITIVE_DATA_ORIGIN: u32 = 0x0000_0020;

/// The auth value of the object authorizes its use.
pub const OBJECT_USER_WITH_AUTH: u32 = 0x0000_0040;

/// The object is used only for what the TPM itself made, or for storage.
pub const OBJECT_RESTRICTED: u32 = 0x0001_0000;

/// The object decrypts.
pub const OBJECT_DECRYPT: u32 = 0x0002_0000;

/// The object signs.
pub const OBJECT_SIGN: u32 = 0x0004_0000;

/// All bits of TPMA_OBJECT that this profile knows: those above, adminWithPolicy (bit 7) and noDA
/// (bit 10).
pub const OBJECT_KNOWN: u32 = 0x0007_04F2;

/// fixedTPM and fixedParent, which are set together or not at all.
pub const OBJECT_FIXED: u32 = 0x0000_0012;

/// The bits of an NV index's attributes (Part 2, "TPMA_NV"). The owner may write the index.
pub const NV_OWNERWRITE: u32 = 0x0000_0002;

/// The auth value of the index authorizes writes.
pub const NV_AUTHWRITE: u32 = 0x0000_0004;

/// The bits that hold the type of the index (Part 2, "TPM_NT").
pub const NV_TYPE: u32 = 0x0000_00F0;

/// The type of a counter, in its place among the attributes.
pub const NV_COUNTER: u32 = 0x0000_0010;

/// The owner may read the index.
pub const NV_OWNERREAD: u32 = 0x0002_0000;

/// The auth value of the index authorizes reads.
pub const NV_AUTHREAD: u32 = 0x0004_0000;

/// The index was written since it was defined.
pub const NV_WRITTEN: u32 = 0x2000_0000;

/// All bits of TPMA_NV that this profile knows: those above, and NO_DA (bit 25).
pub const NV_KNOWN: u32 = 0x2206_00F6;

/// OWNERWRITE and AUTHWRITE, of which an index has one at least.
pub const NV_WRITERS: u32 = 0x0000_0006;

/// OWNERREAD and AUTHREAD, of which an index has one at least.
pub const NV_READERS: u32 = 0x0006_0000;

/// The first octet of a handle, its most significant byte, says what it is a handle of (Part 2,
/// "TPM_HT").
pub const HT_NV_INDEX: u32 = 0x01;

pub const HT_HMAC_SESSION: u32 = 0x02;

pub const HT_POLICY_SESSION: u32 = 0x03;

pub const HT_TRANSIENT: u32 = 0x80;

pub const HT_PERSISTENT: u32 = 0x81;

/// How many objects a device of this profile holds at once.
pub const OBJECT_SLOTS: u32 = 3;

/// How many sessions a device of this profile has loaded at once.
pub const LOADED_SESSIONS: u32 = 3;

/// How many sessions a device of this profile has at once, loaded and saved.
pub const ACTIVE_SESSIONS: u32 = 64;

/// The numbers of sessions are below this one, on any device that a broker can serve.
pub const SESSION_NUMBERS: u32 = 64;

/// On a device of this profile, a session isn't saved where its context's number would be this much
/// above that of the oldest saved one.
pub const CONTEXT_GAP: u64 = 255;

/// The largest blob of a context in bytes.
pub const MOST_BLOB_BYTES: u32 = 2048;

/// The number of each context that a device makes is below this one.
pub const CONTEXT_LIMIT: u64 = 1 << 62;

/// The most bytes of a context that a broker keeps, whatever the device (the project's own).
pub const MOST_CONTEXT_BYTES: u32 = 2048;

/// The first handle of a transient object (Part 2, "TPM_HC"), and the one that an object's context
/// is saved under (Part 2, "TPMS_CONTEXT").
pub const TRANSIENT_FIRST: u32 = 0x8000_0000;

/// What the context of an object is saved under that a restart clears (Part 2, "TPMS_CONTEXT").
pub const TRANSIENT_ST_CLEAR: u32 = 0x8000_0002;

/// What a handle of a command's handle area may name (Part 2, "Handles").
#[derive(Clone, Copy)]
pub enum Kind {
    /// There is no such handle.
    Absent,
    /// The owner hierarchy.
    Owner,
    /// A PCR, 0 to 23.
    Pcr,
    /// An NV index.
    Nv,
    /// The owner hierarchy or an NV index.
    NvAuth,
    /// A transient object.
    Object,
    /// A policy or a trial session.
    Policy,
    /// The owner hierarchy, a PCR, an NV index or a transient object.
    Entity,
    /// A transient object or a session.
    Saved,
    /// The null hierarchy.
    Null,
}

/// What is fixed for a command code (Part 3, the table of each command).
#[derive(Clone, Copy)]
pub struct CommandRow {
    pub code: u32,
    /// The kinds of its handles; an absent one stands after the others.
    pub handles: [Kind; 2],
    /// How many of its handles, from the first, have an authorization.
    pub authorized: u8,
    /// Whether its response has a handle.
    pub response_handle: bool,
}

/// A command whose code is known.
#[derive(Clone, Copy)]
pub struct Shape {
    pub row: CommandRow,
    pub tag: u16,
    /// Its handles; 0 for an absent one.
    pub handles: [u32; 2],
    /// How many handles it has.
    pub count: u8,
    /// Where the bytes after the handles begin, as a place in the command.
    pub rest: u32,
}

/// An authorization of a command (Part 2, "TPMS_AUTH_COMMAND"). Places are those of bytes in the
/// command: of the first one, and of the one after the last.
#[derive(Clone, Copy)]
pub struct Auth {
    pub session: u32,
    pub nonce: (u32, u32),
    pub attributes: u8,
    pub hmac: (u32, u32),
}

/// The authorization area of a command (Part 1, "Authorization Area").
#[derive(Clone, Copy)]
pub struct Auths {
    /// How many authorizations there are, at most three.
    pub count: u8,
    /// The authorizations, and after them empty ones.
    pub auths: [Auth; 3],
    /// Where the parameters begin, as a place in the command.
    pub params: u32,
}

/// A command that passed the checks that come before its own.
#[derive(Clone, Copy)]
pub struct Admitted {
    pub shape: Shape,
    pub auths: Auths,
}

/// What a session is for (Part 2, "TPM_SE").
#[derive(Clone, Copy)]
pub enum SessionKind {
    Hmac,
    Policy,
    Trial,
}

/// What a policy asks for beside its digest (Part 3, "TPM2_PolicyAuthValue",
/// "TPM2_PolicyPassword").
#[derive(Clone, Copy)]
pub enum AuthNeeded {
    Nothing,
    /// The hmac of the authorization has the object's auth value in its key.
    AuthValue,
    /// The authorization holds the auth value itself.
    Password,
}
