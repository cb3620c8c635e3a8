//! What is asked of a value under a lock, and what answers.

/// Why a client wasn't opened.
#[derive(Clone, Copy, PartialEq, Eq)]
pub enum OpenClientError {
    /// There was no memory.
    Memory,
    /// The journal has no room for the entries of the client's opening and close: the bytes that
    /// it keeps, and its limit.
    JournalFull { kept: u64, limit: u64 },
    /// The device gave a wrong answer, and no client is opened any more.
    Answer,
}

/// What became of a command. The client's reply says the rest.
#[derive(Clone, Copy, PartialEq, Eq)]
pub enum Told {
    /// It has an entry, with that reply.
    Entered,
    /// There was no memory for the object that it makes, and nothing was sent (`RC_MEMORY`).
    Memory,
    /// The journal has no room for it, and nothing was sent (`RC_JOURNAL_FULL`): the bytes that
    /// the journal keeps, and its limit.
    JournalFull { kept: u64, limit: u64 },
    /// The device gave a wrong answer, to this command or before (`RC_DEVICE_ANSWER`).
    Answer,
}

/// What a client's close left.
#[derive(Clone, Copy, PartialEq, Eq)]
pub enum Closed {
    /// No orphan that wasn't there before.
    Clean,
    /// Some of the client's objects or sessions, since their flush failed: how many orphans are in
    /// the device now, at least one.
    Orphans(u32),
    /// The device gave a wrong answer, here or before, so nothing more is sent to it.
    Answer,
}

/// What is asked in one turn.
#[derive(Clone, Copy)]
pub enum Job {
    /// Open the next client.
    Open,
    /// Run a client's command. Its number is above those of the client's earlier commands, from
    /// 1 on.
    Command { client: u32, number: u64 },
    /// Answer a client's command, numbered as for `Command`, without running it: the client
    /// canceled its commands up to a number, which isn't below this one.
    Cancel { client: u32, number: u64, upto: u64 },
    /// Close a client.
    Close { client: u32 },
}

/// The answer to a job: that of the call that the job names.
#[derive(Clone, Copy, PartialEq, Eq)]
pub enum Done {
    /// Of `Job::Open`: the client's number, or why there is none.
    Opened(Result<u32, OpenClientError>),
    /// Of `Job::Command` and of `Job::Cancel`.
    Told(Told),
    /// Of `Job::Close`.
    Closed(Closed),
}
