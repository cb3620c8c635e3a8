/// What a resource manager does with a client's GetCapability (Part 3, "TPM2_GetCapability").
#[derive(Clone, Copy, PartialEq, Eq)]
pub enum Viewed {
    /// It answers by itself, from what the client has.
    Answered,
    /// It refuses the parameters with this response code.
    Refused(u32),
    /// The device answers, since the list is the same for all.
    Device,
}
