use broker_lock::Pass;

/// Why a connection ended.
#[derive(Clone, Copy, PartialEq, Eq)]
pub enum Ending {
    /// The source had no more bytes. Each command that they spelled was answered.
    EndOfInput,
    /// The next frame had this size, which no frame has (Part 1, "Command/Response Structure").
    /// Each command before it was answered, and then the client was told `TPM_RC_COMMAND_SIZE`.
    BadFrame(u32),
    /// A pull failed. Each command that was pulled by then was answered.
    ReadFault,
    /// A reply wasn't written to its end. No later command was run.
    WriteFault,
    /// There was no memory for the connection or for its client, so there is no client.
    Memory,
    /// The journal had no room for the client, so there is no client. The values are the bytes that
    /// the journal keeps and its limit.
    JournalFull { kept: u64, limit: u64 },
    /// The device gave a wrong answer before, so there is no client.
    Answer,
}

/// What is left when a connection has ended.
pub struct LinkEnd<B, S, K> {
    /// The end that the commands came from.
    pub source: S,
    /// The end that the replies went to.
    pub sink: K,
    /// The pass, which knows the connection's client now.
    pub pass: Pass<B>,
    /// The connection's client, which is closed now. `None` if it wasn't opened.
    pub client: Option<u32>,
    /// How many commands were taken up.
    pub done: u64,
    pub ending: Ending,
}
