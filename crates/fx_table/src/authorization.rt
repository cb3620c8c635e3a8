ghost use Rattle.std.specs.Prelude.{◌≡◌, ◌≤◌, ◌⊎◌, None, length};
ghost use Rattle.tab_spec.specs.Auths.{IsAuthWithin};
ghost use Rattle.effect_spec.specs.Authorization as authorization;
ghost use Rattle.effect_spec.specs.Authorization.{shared_entity};
ghost use Rattle.effect_spec.specs.Operands.{command_auth, named_session};
ghost use Rattle.effect_spec.specs.SessionAuths.{cp_hash};
ghost use Rattle.effect_spec.specs.Effect.{authorization_fault};
ghost use Rattle.effect_spec.specs.Rows.{PassesUnless};
ghost use Rattle.fx_sessions.specs.Views.{entity_of};
ghost use Rattle.fx_table.specs.Views.{operand_of, operands_of};

use crate::names::cp_hash;
use crate::operands::{Operand, Operands};
use fx_sessions::{Entity, authorize};
use tab_spec::{Auths, HT_NV_INDEX, RH_OWNER, Shape};
use tab_values::{Persist, SmallBytes, USER_WITH_AUTH};

// What is known of what an operand is.
pub(crate) fn entity_of(persist: &Persist, operand: &Operand<'_>) -> Entity
    ensures { entity_of result ≡ authorization.entity_of persist.now (operand_of operand.now) }
{
    match operand {
        Operand::Object(object) => Entity {
            auth: object.auth.copied(),
            user_with_auth: USER_WITH_AUTH & object.public.attributes == USER_WITH_AUTH,
            is_object: true,
            policy: object.public.policy.copied(),
        },
        other => shared_entity(persist, other.handle()),
    }
}

// The same of what all clients share: the owner hierarchy, an NV index, or a PCR.
fn shared_entity(persist: &Persist, handle: u32) -> Entity
    ensures { entity_of result ≡ shared_entity persist.now handle }
{
    Entity {
        auth: SmallBytes::of(auth_value(persist, handle)).unwrap(),
        user_with_auth: true,
        is_object: false,
        policy: SmallBytes::new(),
    }
}

// The auth value of the owner hierarchy, of an NV index that is there, and of a PCR.
pub(crate) fn auth_value(persist: &Persist, handle: u32) -> &[u8]
    ensures value { result.now ≡ (shared_entity persist.now handle).auth }
    ensures most { length result.now ≤ 32 }
{
    if handle == RH_OWNER {
        return persist.owner_auth();
    }
    if handle >> 24 != HT_NV_INDEX {
        return &[];
    }
    match persist.index(handle) {
        Some(item) => item.auth.as_slice(),
        None => &[],
    }
}

// The cpHash of a command that a session authorizes. A password needs none, so nothing is hashed
// for it.
fn hash_for_session(persist: &Persist, code: u32, ops: &Operands<'_>, params: &[u8]) -> [u8; 32]
    ensures { (named_session (operands_of ops.now).session ≡ None)
        ⊎ (result ≡ cp_hash persist.now code (operands_of ops.now).handles params.now) }
{
    match ops.authorizing_session() {
        Some(_) => cp_hash(persist, code, ops, params),
        None => [0; 32],
    }
}

// Tests the authorization of a command, where it needs one: by a password, or by the session that
// it names. An error is the response code of its first fault.
pub(crate) fn check_authorization(
    persist: &Persist,
    ops: &Operands<'_>,
    shape: &Shape,
    auths: &Auths,
    bytes: &[u8],
) -> Result<(), u32>
    requires params { auths.now.params ≤ length bytes.now }
    requires within { IsAuthWithin (length bytes.now) (command_auth auths.now) }
    ensures { PassesUnless result
        (authorization_fault persist.now (operands_of ops.now) shape.now auths.now bytes.now) }
{
    if shape.row.authorized == 0 {
        return Ok(());
    }
    let code = shape.row.code;
    let hash = hash_for_session(persist, code, ops, &bytes[auths.params as usize..]);
    authorize(
        &entity_of(persist, &ops.first),
        ops.authorizing_session(),
        &auths.auths[0],
        bytes,
        code,
        &hash,
        persist.updates(),
    )
}
