ghost use Rattle.std.specs.Prelude.{◌≡◌, Ok, Err, IfErr, MatchResult};
ghost use Rattle.effect_spec.specs.Contexts.{context_of};
ghost use Rattle.tab_fields.specs.Contexts as shown;

use crate::fields::read_sized;
use tab_bytes::Reader;
use tab_spec::RC_INSUFFICIENT;

/// What stands in the context of an object or a session (Part 2, "TPMS_CONTEXT").
#[derive(Drop)]
pub struct Context<'a> {
    /// The number that the device gave it.
    pub sequence: u64,
    /// Of a session its handle; of an object TRANSIENT_FIRST.
    pub saved_handle: u32,
    pub hierarchy: u32,
    /// The integrity value as a TPM2B, and then the encrypted bytes.
    pub blob: &'a [u8],
}

/// Reads one. The error is always INSUFFICIENT, the bare code; the reader then stands anywhere.
pub fn read_context<'a>(r: &mut Reader<'a>) -> Result<Context<'a>, u32>
    ensures took { MatchResult result
        (λ c. context_of r.old ≡ Ok (shown.context_of c, r.new))
        (λ code. context_of r.old ≡ Err code) }
    ensures code { IfErr result (λ code. code ≡ RC_INSUFFICIENT) }
{
    let sequence = r.take_u64().ok_or(RC_INSUFFICIENT)?;
    let saved_handle = r.take_u32().ok_or(RC_INSUFFICIENT)?;
    let hierarchy = r.take_u32().ok_or(RC_INSUFFICIENT)?;
    let blob = read_sized(r, RC_INSUFFICIENT)?;
    Ok(Context {
        sequence,
        saved_handle,
        hierarchy,
        blob,
    })
}
