ghost use Rattle.std.specs.Prelude.{◌≡◌, length, Err, MatchResult};
ghost use Rattle.std.specs.Int.{w64, from_be_bytes, to_be_bytes};
ghost use Rattle.effect_spec.specs.Nv.{nv_write_row, nv_increment_row};
ghost use Rattle.effect_spec.specs.Rows.{Changes, IsRefusedAs};
ghost use Rattle.fx_nv.specs.Writing.{WritesAt, WritesAll};

use crate::access::{find_index, indexes_are_there, may_write};
use tab_bytes::Reader;
use tab_spec::{MOST_NV_BYTES, RC_ATTRIBUTES, RC_NV_AUTHORIZATION, RC_NV_RANGE};
use tab_values::{NvIndex, Parameters, Persist, in_handle};

/// NV_Write (Part 3, "TPM2_NV_Write"): writes bytes over those of an index from an offset on. `by`
/// is the handle that gave the authorization. It has no response parameters. An error is the
/// response code of the first fault, and changes nothing.
pub fn nv_write(p: &mut Persist, by: u32, index: u32, params: &[u8]) -> Result<(), u32>
    ensures { Changes result (nv_write_row p.old by index params.now) p.old p.new }
{
    let (at, bytes) = writing(p, by, index, params)?;
    p.write_index(index, at, bytes);
    Ok(())
}

/// Finds the fault of an NV_Write, and changes nothing. It is refused exactly where [`nv_write`]
/// is, with the same response code.
pub fn check_nv_write(p: &Persist, by: u32, index: u32, params: &[u8]) -> Result<(), u32>
    ensures { IsRefusedAs result (nv_write_row p.now by index params.now) }
{
    writing(p, by, index, params)?;
    Ok(())
}

// The offset from which on an NV_Write writes, and its bytes. An error is the response code of its
// first fault.
fn writing<'a>(p: &Persist, by: u32, index: u32, params: &'a [u8]) -> Result<(usize, &'a [u8]), u32>
    ensures { let row = nv_write_row p.now by index params.now in MatchResult result
        (λ w. WritesAt w.0 w.1.now index p.now row) (λ code. row ≡ Err code) }
{
    indexes_are_there(p, by, index)?;
    let mut given = Parameters::new(params);
    let bytes = given.sized(MOST_NV_BYTES as usize)?;
    let offset = given.u16()?;
    given.end()?;
    let item = find_index(p, index)?;
    if !may_write(by, item) {
        return Err(RC_NV_AUTHORIZATION);
    }
    if item.is_counter() {
        return Err(in_handle(2, RC_ATTRIBUTES));
    }
    let at = usize::from(offset);
    if at + bytes.len() > usize::from(item.public.size) {
        return Err(RC_NV_RANGE);
    }
    Ok((at, bytes))
}

/// NV_Increment (Part 3, "TPM2_NV_Increment"): a counter rises by one, from 0 at first. `by` is the
/// handle that gave the authorization. It has no response parameters. An error is the response code
/// of the first fault, and changes nothing.
pub fn nv_increment(p: &mut Persist, by: u32, index: u32, params: &[u8]) -> Result<(), u32>
    ensures { Changes result (nv_increment_row p.old by index params.now) p.old p.new }
{
    let number = next_number(p, by, index, params)?;
    p.write_index(index, 0, &number.to_be_bytes());
    Ok(())
}

/// Finds the fault of an NV_Increment, and changes nothing. It is refused exactly where
/// [`nv_increment`] is, with the same response code.
pub fn check_nv_increment(p: &Persist, by: u32, index: u32, params: &[u8]) -> Result<(), u32>
    ensures { IsRefusedAs result (nv_increment_row p.now by index params.now) }
{
    next_number(p, by, index, params)?;
    Ok(())
}

// The number to which an NV_Increment counts. An error is the response code of its first fault.
fn next_number(p: &Persist, by: u32, index: u32, params: &[u8]) -> Result<u64, u32>
    ensures { let row = nv_increment_row p.now by index params.now in MatchResult result
        (λ number. WritesAll (to_be_bytes w64 number) index p.now row) (λ code. row ≡ Err code) }
{
    indexes_are_there(p, by, index)?;
    Parameters::new(params).end()?;
    let item = find_index(p, index)?;
    if !may_write(by, item) {
        return Err(RC_NV_AUTHORIZATION);
    }
    if !item.is_counter() {
        return Err(in_handle(2, RC_ATTRIBUTES));
    }
    let number = number_of(item);
    if number == u64::MAX {
        return Err(RC_NV_RANGE);
    }
    Ok(number + 1)
}

// At which number a counter stands.
fn number_of(item: &NvIndex) -> u64
    requires { length item.now.bytes ≡ 8 }
    ensures { result ≡ from_be_bytes w64 item.now.bytes }
{
    Reader::new(item.bytes.as_slice()).take_u64().unwrap()
}
