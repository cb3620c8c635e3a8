ghost use Rattle.std.specs.Prelude.{◌≡◌, Some};
ghost use Rattle.tab_spec.specs.Persist as persists;

use crate::persist::Persist;
use crate::selection::{PcrSelection, is_selected};
use tab_hash::Sum;
use tab_spec::PCRS;

/// The hash of the selected PCRs, upwards (Part 1, "Selecting Multiple PCR"). Without a selection
/// it is that of no bytes.
pub fn selected_digest(p: &Persist, selection: PcrSelection) -> [u8; 32]
    ensures { result ≡ persists.selected_digest p.now.pcrs selection.bits }
{
    match selection.bits {
        Some(bits) => digest_of(p, bits),
        None => Sum::new().end(),
    }
}

fn digest_of(p: &Persist, bits: [u8; 3]) -> [u8; 32]
    ensures { result ≡ persists.selected_digest p.now.pcrs (Some bits) }
{
    let mut sum = Sum::new();
    for pcr in 0..PCRS {
        if is_selected(bits, pcr) {
            sum.add(p.pcr(pcr));
        }
    }
    sum.end()
}
