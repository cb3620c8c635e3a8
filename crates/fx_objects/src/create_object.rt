ghost use Rattle.std.specs.Prelude.{◌+◌, ◌≤◌, length, OnOk};
ghost use Rattle.effect_spec.specs.declared.TheConstants.{MOST_PARAMETER_BYTES};
ghost use Rattle.effect_spec.specs.Objects.{create_primary_row, create_row};
ghost use Rattle.effect_spec.specs.Rows.{HasResponseRoom, MakesValue, ChangesAndAppends};
ghost use Rattle.tab_values.specs.Views.{object_of};

use crate::creation_data::{object_parentage, owner_parentage, put_creation};
use crate::derive::{child, primary};
use crate::private_area::put_private;
use crate::public_area::{is_parent, object_name};
use crate::template::{data_fits, read_template};
use tab_bytes::Buffer;
use tab_spec::{RC_ATTRIBUTES, RC_TYPE};
use tab_values::{Object, Parameters, Persist, in_handle, in_parameter, put_sized};

/// CreatePrimary (Part 3, "TPM2_CreatePrimary"): returns the object of a template under the owner,
/// which follows from the device's seed, and appends its public area, its creation data, their
/// hash, the creation ticket and its Name. An error is the response code of the first fault of the
/// parameters, and appends nothing.
pub fn create_primary(p: &Persist, params: &[u8], reply: &mut Buffer) -> Result<Object, u32>
    requires room { HasResponseRoom reply.old }
    ensures row { MakesValue result object_of (create_primary_row p.now params.now) reply.old
        reply.new }
    ensures most { OnOk result (length reply.new ≤ length reply.old + MOST_PARAMETER_BYTES) }
{
    let mut given = Parameters::new(params);
    let template = read_template(&mut given)?;
    given.end()?;
    if !data_fits(&template) {
        return Err(in_parameter(1, RC_ATTRIBUTES));
    }
    let object = primary(p, &template);
    put_creation(p, &owner_parentage(), &template, &object.public, reply);
    put_sized(&object_name(&object.public), reply).unwrap();
    Ok(object)
}

/// Create (Part 3, "TPM2_Create"): makes an object of a template under a parent, and appends its
/// private area, its public area, its creation data, their hash and the creation ticket. An error
/// is the response code of the first fault: TYPE of the parent where it is none, that of the
/// parameters, or that of a draw; and changes nothing.
pub fn create(
    p: &mut Persist,
    parent: &Object,
    params: &[u8],
    reply: &mut Buffer,
) -> Result<(), u32>
    requires room { HasResponseRoom reply.old }
    ensures row { ChangesAndAppends result (create_row p.old (object_of parent.now) params.now)
        p.old p.new reply.old reply.new }
    ensures most { OnOk result (length reply.new ≤ length reply.old + MOST_PARAMETER_BYTES) }
{
    if !is_parent(&parent.public) {
        return Err(in_handle(1, RC_TYPE));
    }
    let mut given = Parameters::new(params);
    let template = read_template(&mut given)?;
    given.end()?;
    if !data_fits(&template) {
        return Err(in_parameter(1, RC_ATTRIBUTES));
    }
    let object = child(p, parent, &template)?;
    put_private(parent, &object, reply);
    put_creation(
        p,
        &object_parentage(parent),
        &template,
        &object.public,
        reply,
    );
    Ok(())
}
