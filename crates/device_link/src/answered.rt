/// What a device answered to a command. This project's own.
#[derive(Clone, Copy, Debug, PartialEq, Eq)]
pub struct Answered {
    /// The command code.
    pub command: u32,
    /// The response code.
    pub response: u32,
    /// How many bytes the response had.
    pub size: usize,
}
