ghost use Rattle.std.specs.Prelude.{◌≡◌, [], List, ℕ, Bool, true, false, length};
ghost use Rattle.effect_spec.specs.Authorization as authorization;
ghost use Rattle.effect_spec.specs.Authorization.{password_fault};
ghost use Rattle.effect_spec.specs.Rows.{PassesUnless};
ghost use Rattle.tab_spec.specs.Auths.{IsAuthWithin};

use crate::fields::{has_other_attributes, hmac_field, nonce_caller};
use tab_spec::{Auth, RC_1, RC_ATTRIBUTES, RC_AUTH_UNAVAILABLE, RC_BAD_AUTH, RC_NONCE, RC_S};
use tab_values::without_zeros;

/// Tests that the first authorization of a command is the password (Part 1, "Password
/// Authorizations") of what is no object, by its auth value. `bytes` is the command, in which the
/// fields of the authorization have their places. The error is the response code of the first
/// fault, in the order of the profile.
pub fn authorize_by_password(value: &[u8], auth: &Auth, bytes: &[u8]) -> Result<(), u32>
    requires { IsAuthWithin (length bytes.now) auth.now }
    ensures { PassesUnless result (password_fault
        (record { auth = value.now; user_with_auth = true; is_object = false; policy = [] })
        auth.now bytes.now) }
{
    if has_other_attributes(auth) {
        return Err(RC_ATTRIBUTES + RC_S + RC_1);
    }
    by_password(value, true, auth, bytes)
}

// The same of anything, where no other attribute is set than a password may have.
pub(crate) fn by_password(
    value: &[u8],
    is_usable: bool,
    auth: &Auth,
    bytes: &[u8],
) -> Result<(), u32>
    requires within { IsAuthWithin (length bytes.now) auth.now }
    requires plain { authorization.has_other_attributes auth.now ≡ false }
    ensures { (is_object : Bool) (policy : List ℕ) → PassesUnless result (password_fault
        (record {
          auth = value.now;
          user_with_auth = is_usable;
          is_object = is_object;
          policy = policy;
        })
        auth.now bytes.now) }
{
    if !nonce_caller(auth, bytes).is_empty() {
        return Err(RC_NONCE + RC_S + RC_1);
    }
    if !is_usable {
        return Err(RC_AUTH_UNAVAILABLE);
    }
    if without_zeros(hmac_field(auth, bytes)) != value {
        return Err(RC_BAD_AUTH + RC_S + RC_1);
    }
    Ok(())
}
