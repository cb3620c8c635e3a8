use tab_frame::Framer;

/// An open label of a script.
#[derive(Drop)]
pub struct Label {
    pub label: u32,
    /// The client that the label opened.
    pub client: u32,
    /// How many commands came on the label so far.
    pub commands: u64,
    /// What came on the label and wasn't given out as a frame.
    pub kept: Framer,
}
