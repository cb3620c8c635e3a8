ghost use Rattle.std.specs.Prelude.{◌≡◌, ◌≤◌, ◌+◌, ◌++◌, length, take, drop};
ghost use Rattle.tab_spec.specs.NvIndex as nv_index;
ghost use Rattle.tab_values.specs.Views.{nv_index_of};

use crate::public::NvPublic;
use tab_fields::SmallBytes;
use tab_spec::{NV_COUNTER, NV_TYPE, NV_WRITTEN};

/// An NV index (Part 1, "NV Memory"): its public area, its auth value, and its bytes, at most
/// 2,048.
#[derive(Drop)]
pub struct NvIndex {
    pub public: NvPublic,
    pub auth: SmallBytes<32>,
    pub bytes: SmallBytes<2048>,
}

impl NvIndex {
    /// Whether it counts, and isn't an ordinary index.
    pub fn is_counter(&self) -> bool
        ensures { result ≡ nv_index.is_counter (nv_index_of self.now) }
    {
        NV_TYPE & self.public.attributes == NV_COUNTER
    }

    /// Whether it was written since it was defined.
    pub fn is_written(&self) -> bool
        ensures { result ≡ nv_index.is_written (nv_index_of self.now) }
    {
        NV_WRITTEN & self.public.attributes == NV_WRITTEN
    }

    /// Writes bytes over those from a place on, after which it was written.
    pub fn write(&mut self, at: usize, bytes: &[u8])
        requires { at + length bytes.now ≤ length self.old.bytes }
        ensures { nv_index_of self.new
            ≡ nv_index.with_bytes (nv_index_of self.old)
            (take at self.old.bytes ++ bytes.now ++ drop (at + length bytes.now) self.old.bytes) }
    {
        self.public.attributes |= NV_WRITTEN;
        self.bytes.write(at, bytes);
    }
}
