ghost use Rattle.std.specs.Prelude.{◌≡◌, ◌+◌, ◌≤◌, ◌++◌, length, bytes_eq};
ghost use Rattle.effect_spec.specs.Objects as objects;
ghost use Rattle.tab_spec.specs.Values.{sized_bytes};
ghost use Rattle.tab_values.specs.Views.{object_of};

use crate::public_area::object_name;
use tab_bytes::Buffer;
use tab_hash::{Mac, kdfa, mask};
use tab_values::{Object, SmallBytes, add_sized, put_sized};

const STORAGE: &[u8] = b"STORAGE";

const INTEGRITY: &[u8] = b"INTEGRITY";

// The longest private area in bytes.
pub(crate) const MOST_PRIVATE: usize = 512;

// Bytes as a parent masks them under a Name; masked once more, they are as they were.
pub(crate) fn mask_private(parent: &Object, name: &[u8], bytes: &[u8]) -> SmallBytes<512>
    requires { length bytes.now ≤ 512 }
    ensures size { length result ≡ length bytes.now }
    ensures bytes { result ≡ objects.encrypted (object_of parent.now) name.now bytes.now }
{
    let mut masked = [0; MOST_PRIVATE];
    let part = &mut masked[..bytes.len()];
    mask(&parent.seed, STORAGE, name, &[], bytes, part);
    SmallBytes::of(part).unwrap()
}

// The HMAC by which a parent authenticates masked bytes under a Name.
fn integrity_hmac(parent: &Object, name: &[u8], bytes: &[u8]) -> [u8; 32]
    ensures { result ≡ objects.integrity_value (object_of parent.now) name.now bytes.now }
{
    let mut key = [0; 32];
    kdfa(&parent.seed, INTEGRITY, &[], &[], &mut key);
    let mut mac = Mac::new(&key);
    mac.add(bytes);
    mac.add(name);
    mac.end()
}

// Whether this code is that HMAC.
pub(crate) fn authenticates(parent: &Object, name: &[u8], bytes: &[u8], code: &[u8]) -> bool
    ensures { result
        ≡ bytes_eq code.now (objects.integrity_value (object_of parent.now) name.now bytes.now) }
{
    let wanted = integrity_hmac(parent, name, bytes);
    code == wanted.as_slice()
}

// Appends the private area of an object under a parent as a TPM2B.
pub(crate) fn put_private(parent: &Object, o: &Object, reply: &mut Buffer)
    requires { length reply.old + 240 ≤ 4096 }
    ensures put { reply.new
        ≡ reply.old
        ++ sized_bytes (objects.private_bytes (object_of parent.now) (object_of o.now)) }
    ensures most { length reply.new ≤ length reply.old + 240 }
{
    let name = object_name(&o.public);
    let plain = private_part_bytes(o);
    let bytes = mask_private(parent, &name, plain.as_slice());
    let code = integrity_hmac(parent, &name, bytes.as_slice());
    // The code as a TPM2B takes 34.
    reply.put_u16(34 + bytes.as_slice().len() as u16).unwrap();
    put_sized(&code, reply).unwrap();
    reply.put_bytes(bytes.as_slice()).unwrap();
}

// The private part before it is masked: the auth value, the seed and the secret.
fn private_part_bytes(o: &Object) -> SmallBytes<198>
    ensures { result
        ≡ sized_bytes o.now.auth ++ sized_bytes o.now.seed ++ sized_bytes o.now.secret }
{
    let mut part = SmallBytes::new();
    add_sized(o.auth.as_slice(), &mut part);
    add_sized(&o.seed, &mut part);
    add_sized(o.secret.as_slice(), &mut part);
    part
}
