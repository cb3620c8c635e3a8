//! What the reader of a connection tells its worker.
use tab_bytes::Buffer;

/// Why no more commands come.
#[derive(Clone, Copy)]
pub(crate) enum Ended {
    // No byte is left.
    NoMore,
    // The next frame has this size, which no frame has.
    BadSize(u32),
    // A pull failed.
    Fault,
}

/// What the reader sends.
#[derive(Drop)]
pub(crate) enum Message {
    // The next command.
    Command(Buffer),
    // There are no more, and this is the last message.
    End(Ended),
}
