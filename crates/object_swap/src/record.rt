/// What is kept of an object. A record is vacant if its object is in no slot and in no context:
/// another object may take it.
#[derive(Drop)]
pub struct Record {
    /// The client that owns the object, if any.
    pub client: Option<u32>,
    /// The device's handle, if the object is in a slot.
    pub handle: Option<u32>,
    /// Room for a context.
    pub blob: Vec<u8>,
    /// Whether `blob` holds a context of the object.
    pub kept: bool,
}
