/// Where a session is.
#[derive(Clone, Copy)]
pub enum Place {
    /// There is none with this number.
    Unused,
    /// In the device.
    Loaded,
    /// In a context of this number.
    Saved(u64),
}

/// What is kept of a session number.
#[derive(Drop)]
pub struct Record {
    /// The client that owns it; `None` once that client is closed.
    pub client: Option<u32>,
    pub handle: u32,
    pub place: Place,
    /// Room for a context.
    pub context: Vec<u8>,
    /// Whether it is in use: its client didn't save it. True of an orphan too.
    pub in_use: bool,
    /// Room for the context that was handed out, if its client saved it.
    pub handed: Vec<u8>,
}
