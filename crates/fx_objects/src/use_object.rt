ghost use Rattle.std.specs.Prelude.{◌≡◌, ◌+◌, ◌≤◌, length, OnOk};
ghost use Rattle.tab_spec.specs.Hash.{hmac};
ghost use Rattle.effect_spec.specs.declared.TheConstants.{MOST_PARAMETER_BYTES};
ghost use Rattle.effect_spec.specs.Objects.{unseal_row, hmac_row, read_public_row};
ghost use Rattle.effect_spec.specs.Rows.{HasResponseRoom, Appends};
ghost use Rattle.tab_values.specs.Views.{object_of};

use crate::public_area::{is_parent, object_name, put_public};
use tab_bytes::Buffer;
use tab_hash::Mac;
use tab_spec::{ALG_NULL, ALG_SHA256, RC_ATTRIBUTES, RC_KEY, RC_TYPE, RC_VALUE};
use tab_values::{Object, Parameters, in_handle, in_parameter, put_sized, signs};

// The longest message of an HMAC command in bytes.
const MOST_MESSAGE: usize = 1024;

/// Unseal (Part 3, "TPM2_Unseal"): appends sealed bytes as a TPM2B. An error is the response code
/// of the first fault: TYPE of the object where it is a storage parent, ATTRIBUTES where it is a
/// key, or that of the parameters; and appends nothing.
pub fn unseal(item: &Object, params: &[u8], reply: &mut Buffer) -> Result<(), u32>
    requires room { HasResponseRoom reply.old }
    ensures row { Appends result (unseal_row (object_of item.now) params.now) reply.old reply.new }
    ensures most { OnOk result (length reply.new ≤ length reply.old + MOST_PARAMETER_BYTES) }
{
    if is_parent(&item.public) {
        return Err(in_handle(1, RC_TYPE));
    }
    if signs(&item.public) {
        return Err(in_handle(1, RC_ATTRIBUTES));
    }
    Parameters::new(params).end()?;
    put_sized(item.secret.as_slice(), reply).unwrap();
    Ok(())
}

/// HMAC (Part 3, "TPM2_HMAC"): appends the HMAC of the message with the object as key, as a TPM2B.
/// An error is the response code of the first fault: TYPE of the object where it is a storage
/// parent, KEY where it is no key, or that of the parameters; and appends nothing.
pub fn hmac_of(item: &Object, params: &[u8], reply: &mut Buffer) -> Result<(), u32>
    requires room { HasResponseRoom reply.old }
    ensures row { Appends result (hmac_row (object_of item.now) params.now) reply.old reply.new }
    ensures most { OnOk result (length reply.new ≤ length reply.old + MOST_PARAMETER_BYTES) }
{
    if is_parent(&item.public) {
        return Err(in_handle(1, RC_TYPE));
    }
    if !signs(&item.public) {
        return Err(in_handle(1, RC_KEY));
    }
    let mut given = Parameters::new(params);
    let message = given.sized(MOST_MESSAGE)?;
    let hash = given.u16()?;
    given.end()?;
    if hash != ALG_SHA256 && hash != ALG_NULL {
        return Err(in_parameter(2, RC_VALUE));
    }
    let code = hmac(item.secret.as_slice(), message);
    put_sized(&code, reply).unwrap();
    Ok(())
}

fn hmac(key: &[u8], message: &[u8]) -> [u8; 32]
    ensures { result ≡ hmac key.now message.now }
{
    let mut mac = Mac::new(key);
    mac.add(message);
    mac.end()
}

/// ReadPublic (Part 3, "TPM2_ReadPublic"): appends the public area, the Name and the qualified Name
/// of an object, each a TPM2B. The error is SIZE where there are parameters, and appends nothing.
pub fn read_public_of(item: &Object, params: &[u8], reply: &mut Buffer) -> Result<(), u32>
    requires room { HasResponseRoom reply.old }
    ensures row { Appends result (read_public_row (object_of item.now) params.now)
        reply.old reply.new }
    ensures most { OnOk result (length reply.new ≤ length reply.old + MOST_PARAMETER_BYTES) }
{
    Parameters::new(params).end()?;
    put_public(&item.public, reply);
    put_sized(&object_name(&item.public), reply).unwrap();
    put_sized(&item.qualified_name, reply).unwrap();
    Ok(())
}
