ghost use Rattle.std.specs.Prelude.{◌≡◌, ◌+◌, ◌≤◌, ◌++◌, length, OnOk};
ghost use Rattle.tab_spec.specs.Hash.{name_of};
ghost use Rattle.effect_spec.specs.declared.TheConstants.{MOST_PARAMETER_BYTES};
ghost use Rattle.effect_spec.specs.Nv.{nv_read_public_row, nv_read_row};
ghost use Rattle.effect_spec.specs.Rows.{HasResponseRoom, Appends};
ghost use Rattle.tab_spec.specs.Values.{sized_bytes};

use crate::access::{find_index, indexes_are_there, is_undefined, may_read};
use tab_bytes::Buffer;
use tab_hash::name_of;
use tab_spec::{RC_HANDLE, RC_NV_AUTHORIZATION, RC_NV_RANGE, RC_NV_UNINITIALIZED};
use tab_values::{Parameters, Persist, in_handle, nv_public_octets, put_sized};

/// NV_ReadPublic (Part 3, "TPM2_NV_ReadPublic"): appends the public area and the Name of an index,
/// each a TPM2B. An error is the response code of the first fault, and appends nothing.
pub fn nv_read_public(p: &Persist, index: u32, params: &[u8], reply: &mut Buffer) -> Result<(), u32>
    requires room { HasResponseRoom reply.old }
    ensures row { Appends result (nv_read_public_row p.now index params.now) reply.old reply.new }
    ensures most { OnOk result (length reply.new ≤ length reply.old + MOST_PARAMETER_BYTES) }
{
    if is_undefined(p, index) {
        return Err(in_handle(1, RC_HANDLE));
    }
    Parameters::new(params).end()?;
    let item = find_index(p, index)?;
    put_area_and_name(nv_public_octets(&item.public).as_slice(), reply);
    Ok(())
}

// A public area and its Name, each a TPM2B.
fn put_area_and_name(area: &[u8], reply: &mut Buffer)
    requires size { length area.now ≤ 46 }
    requires room { HasResponseRoom reply.old }
    ensures put { reply.new
        ≡ reply.old ++ (sized_bytes area.now ++ sized_bytes (name_of area.now)) }
    ensures most { length reply.new ≤ length reply.old + 84 }
{
    put_sized(area, reply).unwrap();
    put_sized(&name_of(area), reply).unwrap();
}

/// NV_Read (Part 3, "TPM2_NV_Read"): appends the bytes of an index from an offset on as a TPM2B.
/// `by` is the handle that gave the authorization. An error is the response code of the first
/// fault, and appends nothing.
pub fn nv_read(
    p: &Persist,
    by: u32,
    index: u32,
    params: &[u8],
    reply: &mut Buffer,
) -> Result<(), u32>
    requires room { HasResponseRoom reply.old }
    ensures row { Appends result (nv_read_row p.now by index params.now) reply.old reply.new }
    ensures most { OnOk result (length reply.new ≤ length reply.old + MOST_PARAMETER_BYTES) }
{
    indexes_are_there(p, by, index)?;
    let mut given = Parameters::new(params);
    let size = given.u16()?;
    let offset = given.u16()?;
    given.end()?;
    let item = find_index(p, index)?;
    if !may_read(by, item) {
        return Err(RC_NV_AUTHORIZATION);
    }
    if !item.is_written() {
        return Err(RC_NV_UNINITIALIZED);
    }
    let at = usize::from(offset);
    let end = at + usize::from(size);
    if end > usize::from(item.public.size) {
        return Err(RC_NV_RANGE);
    }
    put_sized(&item.bytes.as_slice()[at..end], reply).unwrap();
    Ok(())
}
