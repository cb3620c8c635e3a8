ghost use Rattle.std.specs.Prelude.{◌≡◌, ◌<◌, ◌≤◌, ◌+◌, [], ◌++◌, length, true, IfOk, IfErr, OnOk};
ghost use Rattle.std.specs.Prelude.{OnErr};
ghost use Rattle.tab_spec.specs.Values.{makes_secret, public_of, public_bytes, enclosed};
ghost use Rattle.tab_spec.specs.Values.{sized_bytes, nv_public_of, nv_public_bytes, sensitive_of};
ghost use Rattle.tab_spec.specs.Values.{word_bytes, are_attributes, are_nv_attributes, is_nv_size};
ghost use Rattle.tab_spec.specs.Values.{is_policy, signs, words, parameter_words};
ghost use Rattle.tab_fields.specs.Taking.{TookValue};
ghost use Rattle.tab_values.specs.Views as shown;

use crate::fields::{number16, number32, policy, sized_within, word};
use tab_bytes::{Buffer, Full, Reader};
use tab_fields::{SmallBytes, add_sized, end_parameters, read_auth, read_sized};
use tab_spec::{
    ALG_HMAC, ALG_KEYEDHASH, ALG_NULL, ALG_SHA256, ALG_SYMCIPHER, HT_NV_INDEX, MOST_NV_BYTES,
    NV_COUNTER, NV_KNOWN, NV_READERS, NV_TYPE, NV_WRITERS, OBJECT_DECRYPT, OBJECT_FIXED,
    OBJECT_KNOWN, OBJECT_RESTRICTED, OBJECT_SENSITIVE_DATA_ORIGIN, OBJECT_SIGN, RC_ATTRIBUTES,
    RC_HASH, RC_SIZE, RC_TYPE, RC_VALUE,
};

/// A public area (Part 2, "TPMT_PUBLIC").
#[derive(Drop)]
pub struct Public {
    /// The type of the object.
    pub form: u16,
    pub attributes: u32,
    pub policy: SmallBytes<32>,
    pub unique: SmallBytes<32>,
}

/// What is wished for of an object's secret part (Part 2, "TPMS_SENSITIVE_CREATE").
#[derive(Drop)]
pub struct Sensitive {
    pub auth: SmallBytes<32>,
    pub content: SmallBytes<128>,
}

/// The public area of an NV index (Part 2, "TPMS_NV_PUBLIC").
#[derive(Drop)]
pub struct NvPublic {
    pub index: u32,
    pub attributes: u32,
    pub policy: SmallBytes<32>,
    pub size: u16,
}

// The bits of TPMA_OBJECT that decide of a storage parent, without sign.
const RESTRICTED_AND_DECRYPT: u32 = OBJECT_RESTRICTED | OBJECT_DECRYPT;

const PARENT: u32 = OBJECT_FIXED | OBJECT_SENSITIVE_DATA_ORIGIN | RESTRICTED_AND_DECRYPT;

/// Reads a public area. The error is the bare code of the first fault: another type TYPE, another
/// hash HASH, bits that are unknown or don't fit the type ATTRIBUTES, other parameters VALUE, all
/// else SIZE. After an error the reader stands anywhere.
fn read_public(r: &mut Reader) -> Result<Public, u32>
    ensures took { TookValue shown.public_of result r.new (public_of r.old) }
    ensures bare { IfErr result (λ code. code < 256) }
{
    let form = number16(r, RC_SIZE)?;
    if form != ALG_KEYEDHASH && form != ALG_SYMCIPHER {
        return Err(RC_TYPE);
    }
    if number16(r, RC_SIZE)? != ALG_SHA256 {
        return Err(RC_HASH);
    }
    let attributes = number32(r, RC_SIZE)?;
    if !are_attributes(form, attributes) {
        return Err(RC_ATTRIBUTES);
    }
    let policy = policy(r)?;
    parameters(r, form, attributes)?;
    let unique = sized_within(r)?;
    Ok(Public {
        form,
        attributes,
        policy,
        unique,
    })
}

// Whether the bit sign is set.
fn has_sign(attributes: u32) -> bool
    ensures { result ≡ signs attributes }
{
    OBJECT_SIGN & attributes == OBJECT_SIGN
}

/// Whether it is the public area of an HMAC key, where it is no storage parent's: its bit sign is
/// set (Part 2, "TPMA_OBJECT").
pub fn signs(public: &Public) -> bool
    ensures { result ≡ signs public.now.attributes }
{
    has_sign(public.attributes)
}

/// Whether the device makes the secret of the object: its bit sensitiveDataOrigin is set (Part 2,
/// "TPMA_OBJECT").
pub fn makes_secret(public: &Public) -> bool
    ensures { result ≡ makes_secret (shown.public_of public.now) }
{
    OBJECT_SENSITIVE_DATA_ORIGIN & public.attributes == OBJECT_SENSITIVE_DATA_ORIGIN
}

fn are_attributes(form: u16, attributes: u32) -> bool
    ensures { result ≡ are_attributes form attributes }
{
    if OBJECT_KNOWN & attributes != attributes {
        return false;
    }
    let fixed = OBJECT_FIXED & attributes;
    if fixed != 0 && fixed != OBJECT_FIXED {
        return false;
    }
    if form == ALG_SYMCIPHER {
        return (PARENT | OBJECT_SIGN) & attributes == PARENT;
    }
    if has_sign(attributes) {
        return RESTRICTED_AND_DECRYPT & attributes == 0;
    }
    (OBJECT_SENSITIVE_DATA_ORIGIN | RESTRICTED_AND_DECRYPT | OBJECT_SIGN) & attributes == 0
}

// The parameters of a type and these attributes.
fn parameters(r: &mut Reader, form: u16, attributes: u32) -> Result<(), u32>
    ensures took { TookValue (λ done. []) result r.new
        (words (parameter_words form attributes) r.old) }
    ensures bare { IfErr result (λ code. code < 256) }
{
    if form == ALG_SYMCIPHER {
        word(r, 0x0006)?;
        word(r, 0x0080)?;
        return word(r, 0x0043);
    }
    if has_sign(attributes) {
        word(r, ALG_HMAC)?;
        return word(r, ALG_SHA256);
    }
    word(r, ALG_NULL)
}

/// Reads the public area of an NV index. The error is the bare code of the first fault: another
/// handle than an index's VALUE, another hash HASH, attributes ATTRIBUTES, all else SIZE. After an
/// error the reader stands anywhere.
fn read_nv_public(r: &mut Reader) -> Result<NvPublic, u32>
    ensures took { TookValue shown.nv_public_of result r.new (nv_public_of r.old) }
    ensures policy { IfOk result (λ p. is_policy p.policy ≡ true) }
    ensures size { IfOk result (λ p. is_nv_size p.attributes p.size ≡ true) }
    ensures bare { IfErr result (λ code. code < 256) }
{
    let index = number32(r, RC_SIZE)?;
    if index >> 24 != HT_NV_INDEX {
        return Err(RC_VALUE);
    }
    if number16(r, RC_SIZE)? != ALG_SHA256 {
        return Err(RC_HASH);
    }
    let attributes = number32(r, RC_SIZE)?;
    if !are_nv_attributes(attributes) {
        return Err(RC_ATTRIBUTES);
    }
    let policy = policy(r)?;
    let size = number16(r, RC_SIZE)?;
    if !is_nv_size(attributes, size) {
        return Err(RC_SIZE);
    }
    Ok(NvPublic {
        index,
        attributes,
        policy,
        size,
    })
}

fn are_nv_attributes(attributes: u32) -> bool
    ensures { result ≡ are_nv_attributes attributes }
{
    NV_KNOWN & attributes == attributes
        && NV_TYPE & attributes <= NV_COUNTER
        && NV_WRITERS & attributes != 0
        && NV_READERS & attributes != 0
}

fn is_nv_size(attributes: u32, size: u16) -> bool
    ensures { result ≡ is_nv_size attributes size }
{
    if NV_TYPE & attributes == NV_COUNTER {
        return size == 8;
    }
    u32::from(size) <= MOST_NV_BYTES
}

/// Reads a secret part, without its own TPM2B. The error is the bare code SIZE. After an error the
/// reader stands anywhere.
fn read_sensitive(r: &mut Reader) -> Result<Sensitive, u32>
    ensures took { TookValue shown.sensitive_of result r.new (sensitive_of r.old) }
    ensures bare { IfErr result (λ code. code < 256) }
{
    let auth = read_auth(r, RC_SIZE)?;
    let content = sized_within(r)?;
    Ok(Sensitive { auth, content })
}

/// The bytes of a public area, in place.
pub fn public_octets(v: &Public) -> SmallBytes<82>
    ensures { result ≡ public_bytes (shown.public_of v.now) }
{
    let mut bytes = SmallBytes::new();
    bytes.add(&v.form.to_be_bytes());
    bytes.add(&ALG_SHA256.to_be_bytes());
    bytes.add(&v.attributes.to_be_bytes());
    add_sized(v.policy.as_slice(), &mut bytes);
    bytes.add(parameter_octets(v.form, v.attributes).as_slice());
    add_sized(v.unique.as_slice(), &mut bytes);
    bytes
}

fn parameter_octets(form: u16, attributes: u32) -> SmallBytes<6>
    ensures { result ≡ word_bytes (parameter_words form attributes) }
{
    if form == ALG_SYMCIPHER {
        return SmallBytes::of(&[0, 0x06, 0, 0x80, 0, 0x43]).unwrap();
    }
    if has_sign(attributes) {
        return SmallBytes::of(&[0, 0x05, 0, 0x0b]).unwrap();
    }
    SmallBytes::of(&[0, 0x10]).unwrap()
}

/// Reads a public area that fills a TPM2B. The error is the bare code of the first fault: this one
/// where there are too few bytes for the TPM2B, SIZE where bytes are left in it, and those of the
/// public area. After an error the reader stands anywhere.
pub(crate) fn read_sized_public(r: &mut Reader, lacking: u32) -> Result<Public, u32>
    requires { lacking < 256 }
    ensures took { TookValue shown.public_of result r.new (enclosed public_of lacking r.old) }
    ensures bare { IfErr result (λ code. code < 256) }
{
    let mut inside = Reader::new(read_sized(r, lacking)?);
    let public = read_public(&mut inside)?;
    end_parameters(&inside)?;
    Ok(public)
}

/// Reads a secret part that fills a TPM2B. The error is the bare code of the first fault: this one
/// where there are too few bytes for the TPM2B, and else SIZE. After an error the reader stands
/// anywhere.
pub(crate) fn read_sized_sensitive(r: &mut Reader, lacking: u32) -> Result<Sensitive, u32>
    requires { lacking < 256 }
    ensures took { TookValue shown.sensitive_of result r.new (enclosed sensitive_of lacking r.old) }
    ensures bare { IfErr result (λ code. code < 256) }
{
    let mut inside = Reader::new(read_sized(r, lacking)?);
    let sensitive = read_sensitive(&mut inside)?;
    end_parameters(&inside)?;
    Ok(sensitive)
}

/// Reads the public area of an NV index that fills a TPM2B. The error is the bare code of the first
/// fault: this one where there are too few bytes for the TPM2B, SIZE where bytes are left in it,
/// and those of the public area. After an error the reader stands anywhere.
pub(crate) fn read_sized_nv_public(r: &mut Reader, lacking: u32) -> Result<NvPublic, u32>
    requires { lacking < 256 }
    ensures took { TookValue shown.nv_public_of result r.new (enclosed nv_public_of lacking r.old) }
    ensures policy { IfOk result (λ p. is_policy p.policy ≡ true) }
    ensures size { IfOk result (λ p. is_nv_size p.attributes p.size ≡ true) }
    ensures bare { IfErr result (λ code. code < 256) }
{
    let mut inside = Reader::new(read_sized(r, lacking)?);
    let public = read_nv_public(&mut inside)?;
    end_parameters(&inside)?;
    Ok(public)
}

/// Writes a public area in a TPM2B, of at most 84 bytes. `Full` exactly where there is no room for
/// all of it, and then nothing is changed.
pub fn write_sized_public(v: &Public, out: &mut Buffer) -> Result<(), Full>
    ensures ok { OnOk result
        (out.new ≡ out.old ++ sized_bytes (public_bytes (shown.public_of v.now))) }
    ensures err { OnErr result
        ((4096 < length out.old + length (sized_bytes (public_bytes (shown.public_of v.now))))
        × (out.new ≡ out.old)) }
    ensures most { length (sized_bytes (public_bytes (shown.public_of v.now))) ≤ 84 }
{
    out.put_bytes(sized_public_octets(v).as_slice())
}

// The bytes of a public area in a TPM2B.
fn sized_public_octets(v: &Public) -> SmallBytes<84>
    ensures { result ≡ sized_bytes (public_bytes (shown.public_of v.now)) }
{
    let mut bytes = SmallBytes::new();
    add_sized(public_octets(v).as_slice(), &mut bytes);
    bytes
}

/// The bytes of the public area of an NV index, in place.
pub fn nv_public_octets(v: &NvPublic) -> SmallBytes<46>
    ensures { result ≡ nv_public_bytes (shown.nv_public_of v.now) }
{
    let mut bytes = SmallBytes::new();
    bytes.add(&v.index.to_be_bytes());
    bytes.add(&ALG_SHA256.to_be_bytes());
    bytes.add(&v.attributes.to_be_bytes());
    add_sized(v.policy.as_slice(), &mut bytes);
    bytes.add(&v.size.to_be_bytes());
    bytes
}
