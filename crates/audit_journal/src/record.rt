use history_spec::{EntryKind, Pick};

// An entry of a journal as it is kept, in 64 bytes: its bytes lie in the journal's region, the
// command from `start` up to `middle` and the reply from there up to `end`.
#[derive(Clone, Copy)]
pub(crate) struct Record {
    pub(crate) client: u32,
    pub(crate) start: u32,
    pub(crate) middle: u32,
    pub(crate) end: u32,
    pub(crate) number: u64,
    pub(crate) faults: u64,
    pub(crate) kind: EntryKind,
    pub(crate) pick: Pick,
}
