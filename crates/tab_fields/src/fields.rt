ghost use Rattle.std.specs.Prelude.{◌≡◌, ◌<◌, ◌≤◌, ◌+◌, ◌++◌, length, IfOk, IfErr, OnOk, OnErr};
ghost use Rattle.tab_spec.specs.Values.{sized_exactly, sized, auth_of, without_zeros, sized_bytes};
ghost use Rattle.tab_fields.specs.Taking.{Took, TookValue};

use crate::small_bytes::SmallBytes;
use tab_bytes::{BUFFER_BYTES, Buffer, Full, Reader};
use tab_spec::RC_SIZE;

/// Reads a TPM2B (Part 2, "TPM2B Types"): the bytes after its size. The error is this code, where
/// there are too few bytes, and then nothing is read.
pub fn read_sized<'a>(r: &mut Reader<'a>, lacking: u32) -> Result<&'a [u8], u32>
    ensures took { TookValue (λ bytes. bytes.now) result r.new (sized lacking r.old) }
    ensures code { IfErr result (λ code. code ≡ lacking) }
    ensures same { OnErr result (r.new ≡ r.old) }
{
    r.tpm2b().ok_or(lacking)
}

/// Reads a TPM2B of exactly N bytes. The error is the bare SIZE. After an error the reader stands
/// anywhere.
pub fn read_sized_exactly<const N: usize>(r: &mut Reader) -> Result<[u8; N], u32>
    ensures took { Took result r.new (sized_exactly N r.old) }
    ensures bare { IfErr result (λ code. code < 256) }
{
    let bytes = read_sized(r, RC_SIZE)?;
    if bytes.len() != N {
        return Err(RC_SIZE);
    }
    let mut kept = [0; N];
    kept.copy_from_slice(bytes);
    Ok(kept)
}

/// Reads an auth value in a TPM2B, without its trailing zeros. The error is this bare code where
/// there are too few bytes, and SIZE where it has more than 32. After an error the reader stands
/// anywhere.
pub fn read_auth(r: &mut Reader, lacking: u32) -> Result<SmallBytes<32>, u32>
    requires { lacking < 256 }
    ensures took { Took result r.new (auth_of lacking r.old) }
    ensures short { IfOk result (λ auth. length auth ≤ 32) }
    ensures bare { IfErr result (λ code. code < 256) }
{
    let bytes = read_sized(r, lacking)?;
    if bytes.len() > 32 {
        return Err(RC_SIZE);
    }
    Ok(SmallBytes::of(without_zeros(bytes)).unwrap())
}

/// An auth value without its trailing zeros, which don't count (Part 1, "Authorization Values").
pub fn without_zeros(bytes: &[u8]) -> &[u8]
    ensures value { result.now ≡ without_zeros bytes.now }
    ensures most { length result.now ≤ length bytes.now }
{
    let mut rest = bytes;
    while let Some((last, front)) = rest.split_last() {
        if *last != 0 {
            return rest;
        }
        rest = front;
    }
    rest
}

/// Puts a TPM2B of these bytes (Part 2, "TPM2B Types"). `Full` exactly where there is no room for
/// all of it, and then nothing is changed.
pub fn put_sized(bytes: &[u8], out: &mut Buffer) -> Result<(), Full>
    requires { length bytes.now < 65536 }
    ensures ok { OnOk result (out.new ≡ out.old ++ sized_bytes bytes.now) }
    ensures err { OnErr result
        ((4096 < length out.old + length (sized_bytes bytes.now)) × (out.new ≡ out.old)) }
{
    if 2 + bytes.len() > BUFFER_BYTES - out.as_slice().len() {
        return Err(Full);
    }
    out.put_u16(bytes.len() as u16).unwrap();
    out.put_bytes(bytes)
}

/// Adds a TPM2B of these bytes (Part 2, "TPM2B Types") behind those that there are.
pub fn add_sized<const N: usize>(bytes: &[u8], all: &mut SmallBytes<N>)
    requires few { length bytes.now < 65536 }
    requires room { length all.old + 2 + length bytes.now ≤ N }
    ensures all { all.new ≡ all.old ++ sized_bytes bytes.now }
    ensures count { length all.new ≡ length all.old + 2 + length bytes.now }
{
    let size = bytes.len() as u16;
    all.add(&size.to_be_bytes());
    all.add(bytes);
}
