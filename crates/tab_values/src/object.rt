ghost use Rattle.std.specs.Prelude.{◌≡◌, ◌<◌, bytes_eq, IfErr};
ghost use Rattle.tab_spec.specs.Object.{object_of, object_bytes};
ghost use Rattle.tab_spec.specs.Values.{sized_within, require, without_zeros};
ghost use Rattle.tab_fields.specs.Taking.{Took, TookValue};
ghost use Rattle.tab_values.specs.Views as shown;

use crate::fields::sized_within;
use crate::public::{Public, public_octets, read_sized_public};
use tab_bytes::Reader;
use tab_fields::{SmallBytes, add_sized, read_sized_exactly, without_zeros};
use tab_spec::RC_SIZE;

/// An object as a device holds it (Part 1, "Object Structure Elements"): its public area, its auth
/// value, the seed and the secret of its sensitive area, and its qualified Name.
#[derive(Drop)]
pub struct Object {
    pub public: Public,
    pub auth: SmallBytes<32>,
    pub seed: [u8; 32],
    pub secret: SmallBytes<128>,
    pub qualified_name: [u8; 34],
}

impl Object {
    /// The same object once more.
    pub fn copied(&self) -> Object
        ensures { shown.object_of result ≡ shown.object_of self.now }
    {
        Object {
            public: Public {
                form: self.public.form,
                attributes: self.public.attributes,
                policy: self.public.policy.copied(),
                unique: self.public.unique.copied(),
            },
            auth: self.auth.copied(),
            seed: self.seed,
            secret: self.secret.copied(),
            qualified_name: self.qualified_name,
        }
    }
}

/// Reads an object from the bytes of [`object_octets`]. The error is the bare code of the first
/// fault: those of a public area, and all else SIZE, also an auth value that ends in a zero byte.
/// After an error the reader stands anywhere.
pub fn read_object(r: &mut Reader) -> Result<Object, u32>
    ensures took { TookValue shown.object_of result r.new (object_of r.old) }
    ensures bare { IfErr result (λ code. code < 256) }
{
    let public = read_sized_public(r, RC_SIZE)?;
    let auth = bare_auth(r)?;
    let seed = read_sized_exactly(r)?;
    let secret = sized_within(r)?;
    let qualified_name = read_sized_exactly(r)?;
    Ok(Object {
        public,
        auth,
        seed,
        secret,
        qualified_name,
    })
}

// An auth value without trailing zeros, in a TPM2B.
fn bare_auth(r: &mut Reader) -> Result<SmallBytes<32>, u32>
    ensures took { Took result r.new
        (require (λ auth. bytes_eq (without_zeros auth) auth) RC_SIZE (sized_within 32 r.old)) }
    ensures bare { IfErr result (λ code. code < 256) }
{
    let auth: SmallBytes<32> = sized_within(r)?;
    if without_zeros(auth.as_slice()) != auth.as_slice() {
        return Err(RC_SIZE);
    }
    Ok(auth)
}

/// The bytes of an object, in place: its public area, auth value, seed, secret and qualified Name,
/// each a TPM2B (Part 2, "TPM2B Types"); that order is this project's own.
pub fn object_octets(v: &Object) -> SmallBytes<318>
    ensures { result ≡ object_bytes (shown.object_of v.now) }
{
    let mut bytes = SmallBytes::new();
    add_sized(public_octets(&v.public).as_slice(), &mut bytes);
    add_sized(v.auth.as_slice(), &mut bytes);
    add_sized(&v.seed, &mut bytes);
    add_sized(v.secret.as_slice(), &mut bytes);
    add_sized(&v.qualified_name, &mut bytes);
    bytes
}
