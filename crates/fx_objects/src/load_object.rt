ghost use Rattle.std.specs.Prelude.{◌≡◌, ◌+◌, ◌≤◌, length, OnOk};
ghost use Rattle.effect_spec.specs.declared.TheConstants.{MOST_PARAMETER_BYTES};
ghost use Rattle.effect_spec.specs.Objects as objects;
ghost use Rattle.effect_spec.specs.Objects.{load_row, loaded_by, loaded_with};
ghost use Rattle.effect_spec.specs.Rows.{HasResponseRoom, MakesValue};
ghost use Rattle.tab_spec.specs.Values.{sized};
ghost use Rattle.tab_spec.specs.declared.TheConstants.{RC_SIZE};
ghost use Rattle.tab_values.specs.Views.{TookValue, object_of, public_of};
ghost use Rattle.fx_objects.specs.Views.{LoadsObject, loaded_object, private_part_of};

use crate::private_area::{MOST_PRIVATE, authenticates, mask_private};
use crate::public_area::{is_parent, object_name, qualified_name};
use tab_bytes::{Buffer, Reader};
use tab_spec::{RC_1, RC_INTEGRITY, RC_P, RC_SIZE, RC_TYPE};
use tab_values::{
    Object, Parameters, Public, SmallBytes, in_handle, put_sized, read_auth, read_sized,
    read_sized_exactly,
};

// The parent doesn't authenticate the private area, or no private part is hidden in it.
const BAD_PRIVATE: u32 = RC_INTEGRITY + RC_P + RC_1;

// The private part of an object: its auth value, its seed and its secret.
#[derive(Drop)]
struct PrivatePart {
    auth: SmallBytes<32>,
    seed: [u8; 32],
    secret: SmallBytes<128>,
}

/// Load (Part 3, "TPM2_Load"): returns the object of a private and a public area under a parent,
/// and appends its Name as a TPM2B. An error is the response code of the first fault: TYPE of the
/// parent where it is none, that of the parameters, or INTEGRITY of the private area where the
/// parent doesn't authenticate it under the public area; and appends nothing.
pub fn load(parent: &Object, params: &[u8], reply: &mut Buffer) -> Result<Object, u32>
    requires room { HasResponseRoom reply.old }
    ensures row { MakesValue result object_of (load_row (object_of parent.now) params.now)
        reply.old reply.new }
    ensures most { OnOk result (length reply.new ≤ length reply.old + MOST_PARAMETER_BYTES) }
{
    if !is_parent(&parent.public) {
        return Err(in_handle(1, RC_TYPE));
    }
    let mut given = Parameters::new(params);
    let private = given.sized(MOST_PRIVATE)?;
    let public = given.public()?;
    given.end()?;
    let object = open_private(parent, public, private)?;
    put_sized(&object_name(&object.public), reply).unwrap();
    Ok(object)
}

// The object of a private area, where its parent authenticates it under the public area.
fn open_private(parent: &Object, public: Public, private: &[u8]) -> Result<Object, u32>
    requires { length private.now ≤ 512 }
    ensures { LoadsObject result
        (loaded_by (object_of parent.now) (public_of public) (sized RC_SIZE private.now)) }
{
    let mut reader = Reader::new(private);
    let Ok(code) = read_sized(&mut reader, RC_SIZE) else {
        return Err(BAD_PRIVATE);
    };
    let bytes = reader.rest();
    let name = object_name(&public);
    if !authenticates(parent, &name, bytes, code) {
        return Err(BAD_PRIVATE);
    }
    unmask_object(parent, public, &name, bytes)
}

// The object of masked bytes, which are its private part and nothing else.
fn unmask_object(parent: &Object, public: Public, name: &[u8], bytes: &[u8]) -> Result<Object, u32>
    requires most { length bytes.now ≤ 512 }
    requires name { name.now ≡ objects.object_name (public_of public) }
    ensures { LoadsObject result (loaded_with
        (objects.plain_of (objects.encrypted (object_of parent.now) name.now bytes.now))
        (loaded_object (object_of parent.now) (public_of public))) }
{
    let plain = mask_private(parent, name, bytes);
    let mut reader = Reader::new(plain.as_slice());
    let Ok(private) = read_private_part(&mut reader) else {
        return Err(BAD_PRIVATE);
    };
    if !reader.rest().is_empty() {
        return Err(BAD_PRIVATE);
    }
    let qualified_name = qualified_name(&parent.qualified_name, name);
    let seed = private.seed;
    Ok(Object {
        public,
        auth: private.auth,
        seed,
        secret: private.secret,
        qualified_name,
    })
}

fn read_private_part(r: &mut Reader) -> Result<PrivatePart, u32>
    ensures { TookValue private_part_of result r.new (objects.plain_of r.old) }
{
    let auth = read_auth(r, RC_SIZE)?;
    let seed = read_sized_exactly(r)?;
    let secret = SmallBytes::of(read_sized(r, RC_SIZE)?).ok_or(RC_SIZE)?;
    Ok(PrivatePart { auth, seed, secret })
}
