ghost use Rattle.std.specs.Prelude.{◌+◌, ◌≤◌, length, OnOk};
ghost use Rattle.effect_spec.specs.declared.TheConstants.{MOST_PARAMETER_BYTES};
ghost use Rattle.effect_spec.specs.Effect.{item_row, object_row};
ghost use Rattle.effect_spec.specs.Rows.{HasResponseRoom, ChangesAndAppends};
ghost use Rattle.tab_values.specs.Views.{object_of};
ghost use Rattle.fx_table.specs.Views.{LeavesOutcome};

use crate::operands::{Created, RowOutcome, making};
use fx_objects::{create, hmac_of, load, read_public_of, unseal};
use tab_bytes::Buffer;
use tab_spec::{CC_CREATE, CC_HMAC, CC_LOAD, CC_READ_PUBLIC, CC_UNSEAL, RC_COMMAND_CODE};
use tab_values::{Object, Persist};

// Runs the row of a command whose first handle stands for an object (Part 3, "Object Commands"):
// returns what was created, and appends the parameters of the response. An error is the response
// code of the first fault, and changes nothing.
pub(crate) fn object_row(
    code: u32,
    persist: &mut Persist,
    item: &Object,
    params: &[u8],
    reply: &mut Buffer,
) -> Result<RowOutcome, u32>
    requires room { HasResponseRoom reply.old }
    ensures row { LeavesOutcome result (object_row code persist.old (object_of item.now) params.now)
        persist.old persist.new reply.old reply.new }
    ensures most { OnOk result (length reply.new ≤ length reply.old + MOST_PARAMETER_BYTES) }
{
    if code == CC_LOAD {
        let object = load(item, params, reply)?;
        return Ok(making(Created::Object(object)));
    }
    item_row(code, persist, item, params, reply)?;
    Ok(making(Created::Nothing))
}

// The same for those of them that create nothing.
fn item_row(
    code: u32,
    persist: &mut Persist,
    item: &Object,
    params: &[u8],
    reply: &mut Buffer,
) -> Result<(), u32>
    requires room { HasResponseRoom reply.old }
    ensures row { ChangesAndAppends result
        (item_row code persist.old (object_of item.now) params.now)
        persist.old persist.new reply.old reply.new }
    ensures most { OnOk result (length reply.new ≤ length reply.old + MOST_PARAMETER_BYTES) }
{
    match code {
        CC_CREATE => create(persist, item, params, reply),
        CC_UNSEAL => unseal(item, params, reply),
        CC_HMAC => hmac_of(item, params, reply),
        CC_READ_PUBLIC => read_public_of(item, params, reply),
        _ => Err(RC_COMMAND_CODE),
    }
}
