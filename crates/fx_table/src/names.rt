ghost use Rattle.std.specs.Prelude.{◌≡◌};
ghost use Rattle.std.specs.Int.{w32, to_be_bytes};
ghost use Rattle.tab_spec.specs.Hash as hash;
ghost use Rattle.effect_spec.specs.SessionAuths.{cp_hash, operand_name, rp_hash};
ghost use Rattle.effect_spec.specs.Operands.{plain};
ghost use Rattle.fx_table.specs.Views.{operand_of, operands_of};

use crate::operands::{Operand, Operands};
use tab_hash::{Sum, name_of};
use tab_spec::{HT_NV_INDEX, RC_SUCCESS};
use tab_values::{Persist, SmallBytes, nv_public_octets, public_octets};

// The Name of what a handle stands for (Part 1, "Names"); no bytes where there is no handle, or no
// such NV index.
pub(crate) fn operand_name(persist: &Persist, operand: &Operand<'_>) -> SmallBytes<34>
    ensures { result ≡ operand_name persist.now (operand_of operand.now) }
{
    match operand {
        Operand::Absent => SmallBytes::new(),
        Operand::Plain(handle) => handle_name(persist, *handle),
        Operand::Object(object) => area_name(public_octets(&object.public).as_slice()),
        Operand::Session(handle, _) => handle_octets(*handle),
    }
}

// The Name of a hierarchy or a PCR, which is its handle, and of an NV index.
fn handle_name(persist: &Persist, handle: u32) -> SmallBytes<34>
    ensures { result ≡ operand_name persist.now (plain handle) }
{
    if handle >> 24 != HT_NV_INDEX {
        return handle_octets(handle);
    }
    match persist.index(handle) {
        Some(item) => area_name(nv_public_octets(&item.public).as_slice()),
        None => SmallBytes::new(),
    }
}

fn handle_octets(handle: u32) -> SmallBytes<34>
    ensures { result ≡ to_be_bytes w32 handle }
{
    SmallBytes::of(&handle.to_be_bytes()).unwrap()
}

// The Name of a public area.
fn area_name(area: &[u8]) -> SmallBytes<34>
    ensures { result ≡ hash.name_of area.now }
{
    SmallBytes::of(&name_of(area)).unwrap()
}

// cpHash (Part 1, "Command Parameter Hash"): of the command code, the Names of the handles and the
// parameters.
pub(crate) fn cp_hash(persist: &Persist, code: u32, ops: &Operands<'_>, params: &[u8]) -> [u8; 32]
    ensures { result ≡ cp_hash persist.now code (operands_of ops.now).handles params.now }
{
    let mut sum = Sum::new();
    sum.add(&code.to_be_bytes());
    sum.add(operand_name(persist, &ops.first).as_slice());
    sum.add(operand_name(persist, &ops.second).as_slice());
    sum.add(params);
    sum.end()
}

// rpHash (Part 1, "Response Parameter Hash"): of the response code, the command code and the
// parameters.
pub(crate) fn rp_hash(code: u32, params: &[u8]) -> [u8; 32]
    ensures { result ≡ rp_hash code params.now }
{
    let mut sum = Sum::new();
    sum.add(&RC_SUCCESS.to_be_bytes());
    sum.add(&code.to_be_bytes());
    sum.add(params);
    sum.end()
}
