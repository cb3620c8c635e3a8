ghost use Rattle.std.specs.Prelude.{◌≡◌, ◌<◌, Some, Ok, Err, IfErr, MatchResult};
ghost use Rattle.std.specs.Option.{option_map};
ghost use Rattle.effect_spec.specs.Pcr.{digest_of, extended, pcr_extend_row};
ghost use Rattle.effect_spec.specs.Rows.{Changes, IsRefusedAs};
ghost use Rattle.tab_spec.specs.declared.TheConstants.{PCRS};
ghost use Rattle.tab_values.specs.Views.{TookValue};

use tab_bytes::Reader;
use tab_hash::Sum;
use tab_spec::{ALG_SHA256, RC_HASH, RC_INSUFFICIENT, RC_SIZE};
use tab_values::{Parameters, Persist};

/// PCR_Extend (Part 3, "TPM2_PCR_Extend"): the PCR, numbered from 0, gets the hash of its value and
/// the digest; without a digest nothing changes. It has no response parameters. An error is the
/// response code of the first fault of the parameters, and changes nothing.
pub fn pcr_extend(p: &mut Persist, pcr: u32, params: &[u8]) -> Result<(), u32>
    requires pcr { pcr < PCRS }
    ensures { Changes result (pcr_extend_row p.old pcr params.now) p.old p.new }
{
    if let Some(digest) = read_extension(params)? {
        extend(p, pcr, digest);
    }
    Ok(())
}

/// Finds the fault of a PCR_Extend with these parameters, and changes nothing. It is refused
/// exactly where [`pcr_extend`] is, with the same response code.
pub fn check_pcr_extend(params: &[u8]) -> Result<(), u32>
    ensures { (persist : _) (pcr : _) → IsRefusedAs result (pcr_extend_row persist pcr params.now) }
{
    read_extension(params)?;
    Ok(())
}

// The digest that a PCR_Extend has as its parameter.
fn read_extension(params: &[u8]) -> Result<Option<&[u8]>, u32>
    ensures { MatchResult result
        (λ digest. (persist : _) (pcr : _) → pcr_extend_row persist pcr params.now
        ≡ Ok (extended persist pcr (option_map (λ bytes. bytes.now) digest)))
        (λ code. (persist : _) (pcr : _) → pcr_extend_row persist pcr params.now ≡ Err code) }
{
    let mut given = Parameters::new(params);
    let mut reader = given.reader();
    let digest = read_digest(&mut reader);
    let digest = given.close(reader, digest)?;
    given.end()?;
    Ok(digest)
}

// A list of at most one digest (Part 2, "TPML_DIGEST_VALUES").
fn read_digest<'a>(r: &mut Reader<'a>) -> Result<Option<&'a [u8]>, u32>
    ensures took { TookValue (λ digest. option_map (λ bytes. bytes.now) digest) result r.new
        (digest_of r.old) }
    ensures bare { IfErr result (λ code. code < 256) }
{
    let count = r.take_u32().ok_or(RC_INSUFFICIENT)?;
    if count > 1 {
        return Err(RC_SIZE);
    }
    if count == 0 {
        return Ok(None);
    }
    if r.take_u16().ok_or(RC_INSUFFICIENT)? != ALG_SHA256 {
        return Err(RC_HASH);
    }
    let digest = r.take_bytes(32).ok_or(RC_INSUFFICIENT)?;
    Ok(Some(digest))
}

// Gives a PCR the hash of its value and the digest.
fn extend(p: &mut Persist, pcr: u32, digest: &[u8])
    requires { pcr < PCRS }
    ensures { p.new ≡ extended p.old pcr (Some digest.now) }
{
    let mut sum = Sum::new();
    sum.add(p.pcr(pcr));
    sum.add(digest);
    p.set_pcr(pcr, sum.end());
}
