ghost use Rattle.std.specs.Prelude.{◌≡◌, ◌<◌, ◌≤◌, ◌+◌, ◌++◌, length, Some, IfErr, IsOk, OnOk};
ghost use Rattle.std.specs.Prelude.{OnErr};
ghost use Rattle.tab_spec.specs.Values.{is_selected, selection_of, selection_bytes, selected_bytes};
ghost use Rattle.tab_fields.specs.Taking.{TookValue};
ghost use Rattle.tab_values.specs.Views as shown;

use crate::fields::{number8, number16, number32};
use tab_bytes::{Buffer, Full, Reader};
use tab_fields::SmallBytes;
use tab_spec::{ALG_SHA256, PCRS, RC_HASH, RC_INSUFFICIENT, RC_SIZE, RC_VALUE};

/// A list of at most one selection of PCRs (Part 2, "TPML_PCR_SELECTION"): bit i of byte j is PCR 8
/// j + i.
#[derive(Clone, Copy, Drop)]
pub struct PcrSelection {
    pub bits: Option<[u8; 3]>,
}

/// Whether a selection with these bits has a PCR.
pub fn is_selected(bits: [u8; 3], pcr: u32) -> bool
    requires { pcr < PCRS }
    ensures { result ≡ is_selected bits pcr }
{
    (bits[(pcr / 8) as usize] >> (pcr % 8)) % 2 == 1
}

/// Reads a selection list. The error is the bare code of the first fault: INSUFFICIENT, more than
/// one selection SIZE, another hash HASH, another size than three VALUE. After an error the reader
/// stands anywhere.
pub(crate) fn read_selection(r: &mut Reader) -> Result<PcrSelection, u32>
    ensures took { TookValue shown.selection_of result r.new (selection_of r.old) }
    ensures bare { IfErr result (λ code. code < 256) }
{
    let count = number32(r, RC_INSUFFICIENT)?;
    if count > 1 {
        return Err(RC_SIZE);
    }
    if count == 0 {
        return Ok(PcrSelection { bits: None });
    }
    if number16(r, RC_INSUFFICIENT)? != ALG_SHA256 {
        return Err(RC_HASH);
    }
    if number8(r, RC_INSUFFICIENT)? != 3 {
        return Err(RC_VALUE);
    }
    let first = number8(r, RC_INSUFFICIENT)?;
    let second = number8(r, RC_INSUFFICIENT)?;
    let third = number8(r, RC_INSUFFICIENT)?;
    Ok(PcrSelection {
        bits: Some([first, second, third]),
    })
}

/// Writes a selection list. `Full` exactly where there is no room for all of it, and then nothing
/// is changed.
pub fn write_selection(v: &PcrSelection, out: &mut Buffer) -> Result<(), Full>
    ensures ok { OnOk result (out.new ≡ out.old ++ selection_bytes (shown.selection_of v.now)) }
    ensures err { OnErr result
        ((4096 < length out.old + length (selection_bytes (shown.selection_of v.now)))
        × (out.new ≡ out.old)) }
    ensures fits { length out.old + 10 ≤ 4096 → IsOk result }
{
    out.put_bytes(selection_octets(v).as_slice())
}

/// The bytes that [`write_selection`] writes, kept in place.
pub fn selection_octets(v: &PcrSelection) -> SmallBytes<10>
    ensures { result ≡ selection_bytes (shown.selection_of v.now) }
{
    match v.bits {
        Some(bits) => selected_octets(bits),
        None => SmallBytes::of(&0u32.to_be_bytes()).unwrap(),
    }
}

// The bytes of a list of one selection.
fn selected_octets(bits: [u8; 3]) -> SmallBytes<10>
    ensures { result ≡ selected_bytes (Some bits) }
{
    let mut bytes = SmallBytes::new();
    bytes.add(&1u32.to_be_bytes());
    bytes.add(&ALG_SHA256.to_be_bytes());
    bytes.add(&[3]);
    bytes.add(&bits);
    bytes
}
