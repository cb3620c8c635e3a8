//! What a broker's journal says, whatever machine it is of: entries, their text, cancels, what a
//! client is answered, and the table of a client's handles. Definitions, each this project's own.
#![tactic(auto)]

mod examples;

/// How many objects a client may hold at once.
pub const CLIENT_OBJECTS: u32 = 4096;

/// What an entry of a journal keeps, beside the bytes of its command and its reply.
pub const ENTRY_BYTES: u64 = 64;

/// The least limit of a journal's size, in bytes.
pub const JOURNAL_LEAST: u64 = 8192;

/// The largest limit of a journal's size, in bytes.
pub const JOURNAL_MOST: u64 = 1_073_741_824;

/// The limit of a journal's size where none is given, in bytes.
pub const JOURNAL_LIMIT: u64 = 16_777_216;

/// The limit of a journal that only counts its entries, in bytes: 2^58.
pub const SILENT_LIMIT: u64 = 288_230_376_151_711_744;

/// How many clients are opened at most. Their numbers are below it.
pub const MOST_CLIENTS: u32 = 4_294_967_295;

/// A free choice that an entry records, where its command leaves one.
#[derive(Clone, Copy, PartialEq, Eq)]
pub enum Pick {
    /// The command leaves no choice.
    Nothing,
    /// The number of a new session, below 64.
    Session(u32),
    /// The sequence number of a context that is handed out.
    Sequence(u64),
}

/// What an entry of a journal records.
#[derive(Clone, Copy, PartialEq, Eq)]
pub enum EntryKind {
    /// A client was opened.
    Open,
    /// A command was run, or refused as its reply says.
    Command,
    /// The client's command was canceled before it ran. The word that covered it: the number up to
    /// which commands were canceled.
    Canceled(u64),
    /// A transmission to the device failed, and no response came. To the history the command has no
    /// effect.
    Fault,
    /// A client was closed.
    Close,
}
