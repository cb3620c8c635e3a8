ghost use Rattle.std.specs.Prelude.{◌≡◌, ◌+◌, ◌*◌, ◌<◌, ◌≤◌, ◌++◌, length, Some, OnOk};
ghost use Rattle.std.specs.List.{All};
ghost use Rattle.effect_spec.specs.Pcr as pcr_specs;
ghost use Rattle.effect_spec.specs.Pcr.{selecting, digests, pcr_values, pcr_read_row};
ghost use Rattle.effect_spec.specs.Rows.{HasResponseRoom, Appends};
ghost use Rattle.tab_values.specs.Views.{selection_of};

use tab_bytes::Buffer;
use tab_spec::{MOST_PCRS_READ, PCRS};
use tab_values::{
    Parameters, PcrSelection, Persist, SmallBytes, is_selected, put_sized, write_selection,
};

/// PCR_Read (Part 3, "TPM2_PCR_Read"): appends the update count, the first eight of the selected
/// PCRs as a selection, and their values. An error is the response code of the first fault of the
/// parameters, and appends nothing.
pub fn pcr_read(p: &Persist, params: &[u8], reply: &mut Buffer) -> Result<(), u32>
    requires room { HasResponseRoom reply.old }
    ensures row { Appends result (pcr_read_row p.now params.now) reply.old reply.new }
    ensures most { OnOk result (length reply.new ≤ length reply.old + 2000) }
{
    let mut given = Parameters::new(params);
    let selection = given.selection()?;
    given.end()?;
    put_values(p, selection, reply);
    Ok(())
}

// The update count, the selection of the PCRs that are read, and their values.
fn put_values(p: &Persist, selection: PcrSelection, reply: &mut Buffer)
    requires { HasResponseRoom reply.old }
    ensures put { reply.new ≡ reply.old ++ pcr_values p.now (selection_of selection) }
    ensures most { length reply.new ≤ length reply.old + 2000 }
{
    let numbers = answered_pcrs(selection);
    let pcrs = numbers.as_slice();
    let answered = answered_selection(selection, pcrs);
    reply.put_u32(p.updates()).unwrap();
    write_selection(&answered, reply).unwrap();
    reply.put_u32(pcrs.len() as u32).unwrap();
    put_digests(p, pcrs, reply);
}

// The first eight of the selected PCRs, upwards.
fn answered_pcrs(selection: PcrSelection) -> SmallBytes<8>
    ensures value { result ≡ pcr_specs.answered_pcrs selection.bits }
    ensures known { All (λ pcr. pcr < PCRS) result }
{
    match selection.bits {
        Some(bits) => first_selected(bits),
        None => SmallBytes::new(),
    }
}

fn first_selected(bits: [u8; 3]) -> SmallBytes<8>
    ensures { result ≡ pcr_specs.answered_pcrs (Some bits) }
{
    let mut pcrs = [0; PCRS as usize];
    let mut count = 0;
    for pcr in 0..PCRS as u8 {
        if is_selected(bits, u32::from(pcr)) {
            pcrs[count] = pcr;
            count += 1;
        }
    }
    let first = count.min(MOST_PCRS_READ as usize);
    SmallBytes::of(&pcrs[..first]).unwrap()
}

// The selection of those PCRs.
fn answered_selection(selection: PcrSelection, pcrs: &[u8]) -> PcrSelection
    requires known { All (λ pcr. pcr < PCRS) pcrs.now }
    requires those { pcrs.now ≡ pcr_specs.answered_pcrs selection.bits }
    ensures { selection_of result ≡ pcr_specs.answered_selection selection.bits }
{
    if selection.bits.is_none() {
        return selection;
    }
    PcrSelection {
        bits: Some(selecting(pcrs)),
    }
}

fn selecting(pcrs: &[u8]) -> [u8; 3]
    requires { All (λ pcr. pcr < PCRS) pcrs.now }
    ensures { result ≡ selecting pcrs.now }
{
    let mut bits = [0; 3];
    for pcr in pcrs {
        bits[usize::from(*pcr / 8)] |= 1 << (*pcr % 8);
    }
    bits
}

// The values of PCRs, each a TPM2B.
fn put_digests(p: &Persist, pcrs: &[u8], reply: &mut Buffer)
    requires known { All (λ pcr. pcr < PCRS) pcrs.now }
    requires room { length reply.old + 34 * length pcrs.now ≤ 4096 }
    ensures put { reply.new ≡ reply.old ++ digests p.now.pcrs pcrs.now }
    ensures size { length reply.new ≡ length reply.old + 34 * length pcrs.now }
{
    for pcr in pcrs {
        put_sized(p.pcr(u32::from(*pcr)), reply).unwrap();
    }
}
