ghost use Rattle.std.specs.Prelude.{◌≡◌, ◌<◌, ◌++◌, ◌∷◌, [], length, Ok, Err, IfOk, OnOk};
ghost use Rattle.std.specs.Prelude.{MatchResult};
ghost use Rattle.effect_spec.specs.Nv.{nv_define_row, nv_undefine_row};
ghost use Rattle.effect_spec.specs.Rows.{Changes, IsRefusedAs};
ghost use Rattle.tab_spec.specs.NvIndex.{IsNvIndex, without_index};
ghost use Rattle.tab_spec.specs.declared.TheConstants.{NV_INDEXES};
ghost use Rattle.tab_values.specs.Views.{nv_index_of};

use crate::access::is_undefined;
use tab_spec::{NV_WRITTEN, RC_ATTRIBUTES, RC_HANDLE, RC_NV_DEFINED, RC_NV_SPACE};
use tab_values::{NvIndex, Parameters, Persist, SmallBytes, in_handle, in_parameter};

/// NV_DefineSpace (Part 3, "TPM2_NV_DefineSpace"): an index with this auth value and public area,
/// whose bytes are zero. It has no response parameters. An error is the response code of the first
/// fault, and changes nothing.
pub fn nv_define(p: &mut Persist, params: &[u8]) -> Result<(), u32>
    ensures { Changes result (nv_define_row p.old params.now) p.old p.new }
{
    let item = definition(p, params)?;
    p.define(item);
    Ok(())
}

/// Finds the fault of an NV_DefineSpace, and changes nothing. It is refused exactly where
/// [`nv_define`] is, with the same response code.
pub fn check_nv_define(p: &Persist, params: &[u8]) -> Result<(), u32>
    ensures { IsRefusedAs result (nv_define_row p.now params.now) }
{
    definition(p, params)?;
    Ok(())
}

// The index that an NV_DefineSpace defines. An error is the response code of its first fault.
fn definition(p: &Persist, params: &[u8]) -> Result<NvIndex, u32>
    ensures row { let row = nv_define_row p.now params.now in MatchResult result
        (λ item. row ≡ Ok (record p.now { nv = p.now.nv ++ nv_index_of item ∷ [] }))
        (λ code. row ≡ Err code) }
    ensures room { OnOk result (length p.now.nv < NV_INDEXES) }
    ensures sound { IfOk result (λ item. IsNvIndex (nv_index_of item)) }
{
    let mut given = Parameters::new(params);
    let auth = given.auth()?;
    let public = given.nv_public()?;
    if NV_WRITTEN & public.attributes != 0 {
        return Err(in_parameter(2, RC_ATTRIBUTES));
    }
    given.end()?;
    if p.index(public.index).is_some() {
        return Err(RC_NV_DEFINED);
    }
    if !p.has_room() {
        return Err(RC_NV_SPACE);
    }
    let bytes = SmallBytes::zeros(usize::from(public.size)).unwrap();
    Ok(NvIndex {
        public,
        auth,
        bytes,
    })
}

/// NV_UndefineSpace (Part 3, "TPM2_NV_UndefineSpace"). It has no response parameters. An error is
/// the response code of the first fault, and changes nothing.
pub fn nv_undefine(p: &mut Persist, index: u32, params: &[u8]) -> Result<(), u32>
    ensures { Changes result (nv_undefine_row p.old index params.now) p.old p.new }
{
    undefining(p, index, params)?;
    p.undefine(index);
    Ok(())
}

/// Finds the fault of an NV_UndefineSpace, and changes nothing. It is refused exactly where
/// [`nv_undefine`] is, with the same response code.
pub fn check_nv_undefine(p: &Persist, index: u32, params: &[u8]) -> Result<(), u32>
    ensures { IsRefusedAs result (nv_undefine_row p.now index params.now) }
{
    undefining(p, index, params)
}

// Tests an NV_UndefineSpace. The error is the response code of its first fault.
fn undefining(p: &Persist, index: u32, params: &[u8]) -> Result<(), u32>
    ensures { let row = nv_undefine_row p.now index params.now in MatchResult result
        (λ u. row ≡ Ok (record p.now { nv = without_index index p.now.nv }))
        (λ code. row ≡ Err code) }
{
    if is_undefined(p, index) {
        return Err(in_handle(2, RC_HANDLE));
    }
    Parameters::new(params).end()
}
