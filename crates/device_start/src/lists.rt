use std::alloc::{AllocError, Global};
use tab_bytes::Buffer;

/// Room for the lists of handles that a device gives at its start.
#[derive(Drop)]
pub struct Lists {
    pub(crate) objects: Buffer,
    pub(crate) loaded: Buffer,
    pub(crate) saved: Buffer,
}

impl Lists {
    /// Takes 12,288 bytes.
    pub fn new(alloc: Global) -> Result<Lists, AllocError> {
        Ok(Lists {
            objects: Buffer::new(alloc)?,
            loaded: Buffer::new(alloc)?,
            saved: Buffer::new(alloc)?,
        })
    }
}
