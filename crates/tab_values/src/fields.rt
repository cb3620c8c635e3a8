ghost use Rattle.std.specs.Prelude.{◌≡◌, ◌==◌, ◌<◌, length, nat_le, true, IfOk, IfErr};
ghost use Rattle.tab_spec.specs.Values.{number8, number16, number32, sized, require, is_policy};
ghost use Rattle.tab_fields.specs.Taking.{Took, TookValue};

use tab_bytes::Reader;
use tab_fields::{SmallBytes, read_sized};
use tab_spec::{RC_SIZE, RC_VALUE};

// Numbers, or this code where their bytes are lacking.
pub(crate) fn number8(r: &mut Reader, lacking: u32) -> Result<u8, u32>
    ensures took { Took result r.new (number8 lacking r.old) }
    ensures code { IfErr result (λ code. code ≡ lacking) }
{
    r.take_u8().ok_or(lacking)
}

pub(crate) fn number16(r: &mut Reader, lacking: u32) -> Result<u16, u32>
    ensures took { Took result r.new (number16 lacking r.old) }
    ensures code { IfErr result (λ code. code ≡ lacking) }
{
    r.take_u16().ok_or(lacking)
}

pub(crate) fn number32(r: &mut Reader, lacking: u32) -> Result<u32, u32>
    ensures took { Took result r.new (number32 lacking r.old) }
    ensures code { IfErr result (λ code. code ≡ lacking) }
{
    r.take_u32().ok_or(lacking)
}

// A TPM2B of at most N bytes.
pub(crate) fn sized_within<const N: usize>(r: &mut Reader) -> Result<SmallBytes<N>, u32>
    ensures took { Took result r.new
        (require (λ bytes. nat_le (length bytes) N) RC_SIZE (sized RC_SIZE r.old)) }
    ensures bare { IfErr result (λ code. code < 256) }
{
    let bytes = read_sized(r, RC_SIZE)?;
    SmallBytes::of(bytes).ok_or(RC_SIZE)
}

// A TPM2B of no bytes or of a digest's.
pub(crate) fn policy(r: &mut Reader) -> Result<SmallBytes<32>, u32>
    ensures took { Took result r.new (require is_policy RC_SIZE (sized RC_SIZE r.old)) }
    ensures known { IfOk result (λ policy. is_policy policy ≡ true) }
    ensures bare { IfErr result (λ code. code < 256) }
{
    let bytes = read_sized(r, RC_SIZE)?;
    if !bytes.is_empty() && bytes.len() != 32 {
        return Err(RC_SIZE);
    }
    Ok(SmallBytes::of(bytes).unwrap())
}

// This word.
pub(crate) fn word(r: &mut Reader, wanted: u16) -> Result<(), u32>
    ensures took { TookValue (λ done. wanted) result r.new
        (require (λ read. read == wanted) RC_VALUE (number16 RC_SIZE r.old)) }
    ensures bare { IfErr result (λ code. code < 256) }
{
    if number16(r, RC_SIZE)? != wanted {
        return Err(RC_VALUE);
    }
    Ok(())
}
