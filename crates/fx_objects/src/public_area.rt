ghost use Rattle.std.specs.Prelude.{◌≡◌, ◌+◌, ◌≤◌, ◌∷◌, ◌++◌, length};
ghost use Rattle.sha2.specs.Sha256.{sha256};
ghost use Rattle.effect_spec.specs.Objects as objects;
ghost use Rattle.tab_spec.specs.Values.{public_bytes, sized_bytes};
ghost use Rattle.tab_values.specs.Views.{public_of};

use tab_bytes::Buffer;
use tab_hash::{Sum, name_of};
use tab_spec::ALG_SYMCIPHER;
use tab_values::{Public, public_octets, write_sized_public};

// Whether it is a storage parent's.
pub(crate) fn is_parent(public: &Public) -> bool
    ensures { result ≡ objects.is_parent (public_of public.now) }
{
    public.form == ALG_SYMCIPHER
}

// How many bytes a secret has that the device makes.
pub(crate) fn secret_size(public: &Public) -> usize
    ensures size { result ≡ objects.secret_size (public_of public.now) }
    ensures most { result ≤ 32 }
{
    if is_parent(public) {
        return 16;
    }
    32
}

// The SHA-256 of bytes.
pub(crate) fn hash_of(bytes: &[u8]) -> [u8; 32]
    ensures { result ≡ sha256 bytes.now }
{
    let mut sum = Sum::new();
    sum.add(bytes);
    sum.end()
}

// The SHA-256 of a public area.
pub(crate) fn public_digest(public: &Public) -> [u8; 32]
    ensures { result ≡ sha256 (public_bytes (public_of public.now)) }
{
    hash_of(public_octets(public).as_slice())
}

// The Name with this hash (Part 1, "Names").
fn name_with(digest: [u8; 32]) -> [u8; 34]
    ensures { result ≡ 0 ∷ 0x0b ∷ digest }
{
    let mut name = [0; 34];
    name[1] = 0x0b;
    name[2..].copy_from_slice(&digest);
    name
}

// The Name of an object.
pub(crate) fn object_name(public: &Public) -> [u8; 34]
    ensures { result ≡ objects.object_name (public_of public.now) }
{
    name_of(public_octets(public).as_slice())
}

// The qualified Name of an object with this Name, under a parent with this qualified Name.
pub(crate) fn qualified_name(parent: &[u8], name: &[u8]) -> [u8; 34]
    ensures { result ≡ 0 ∷ 0x0b ∷ sha256 (parent.now ++ name.now) }
{
    let mut sum = Sum::new();
    sum.add(parent);
    sum.add(name);
    name_with(sum.end())
}

// Appends a public area as a TPM2B.
pub(crate) fn put_public(public: &Public, reply: &mut Buffer)
    requires { length reply.old + 84 ≤ 4096 }
    ensures put { reply.new ≡ reply.old ++ sized_bytes (public_bytes (public_of public.now)) }
    ensures most { length reply.new ≤ length reply.old + 84 }
{
    write_sized_public(public, reply).unwrap();
}
