use virtual_handles::ClientTable;

/// What is kept of an open client.
#[derive(Drop)]
pub(crate) struct OpenClient {
    /// Its table of handles.
    pub(crate) table: ClientTable,
    /// The number of the list that its objects stand in.
    pub(crate) list: u32,
}
