ghost use Rattle.std.specs.Prelude.{◌≡◌, ◌+◌, [], ◌∷◌, Some, None, MatchResult, IfOk};
ghost use Rattle.tab_spec.specs.NvIndex as nv_index;
ghost use Rattle.effect_spec.specs.Nv as nv;
ghost use Rattle.tab_spec.specs.NvIndex.{index_in, IsNvIndex};
ghost use Rattle.effect_spec.specs.Nv.{undefined_index};
ghost use Rattle.tab_spec.specs.declared.TheConstants.{RC_1, RC_HANDLE};
ghost use Rattle.tab_values.specs.Views.{nv_index_of};

use tab_spec::{
    HT_NV_INDEX, NV_AUTHREAD, NV_AUTHWRITE, NV_OWNERREAD, NV_OWNERWRITE, RC_HANDLE, RH_OWNER,
};
use tab_values::{NvIndex, Persist, in_handle};

/// Tests that each NV index that is named is defined, of a command with these two handles (own
/// order). The error is HANDLE of the first that isn't.
pub fn indexes_are_there(p: &Persist, first: u32, second: u32) -> Result<(), u32>
    ensures { MatchResult result
        (λ u. undefined_index p.now.nv 1 (first ∷ second ∷ []) ≡ None)
        (λ code. undefined_index p.now.nv 1 (first ∷ second ∷ []) ≡ Some code) }
{
    if is_undefined(p, first) {
        return Err(in_handle(1, RC_HANDLE));
    }
    if is_undefined(p, second) {
        return Err(in_handle(2, RC_HANDLE));
    }
    Ok(())
}

// Whether a handle names an NV index that isn't defined.
pub(crate) fn is_undefined(p: &Persist, handle: u32) -> bool
    ensures { result ≡ nv.is_undefined p.now.nv handle }
{
    handle >> 24 == HT_NV_INDEX && p.index(handle).is_none()
}

// The NV index of this handle. There is none where the handle names no index at all.
pub(crate) fn find_index(p: &Persist, index: u32) -> Result<&NvIndex, u32>
    ensures item { MatchResult result
        (λ item. index_in index p.now.nv ≡ Some (nv_index_of item.now))
        (λ code. (index_in index p.now.nv ≡ None) × (code ≡ RC_HANDLE + RC_1)) }
    ensures sound { IfOk result (λ item. IsNvIndex (nv_index_of item.now)) }
{
    match p.index(index) {
        Some(item) => Ok(item),
        None => Err(in_handle(1, RC_HANDLE)),
    }
}

// Whether an index may be written by the authorization of this handle, as OWNERWRITE and AUTHWRITE
// tell.
pub(crate) fn may_write(by: u32, item: &NvIndex) -> bool
    ensures { result ≡ nv.may_write by (nv_index_of item.now) }
{
    is_allowed(NV_OWNERWRITE, NV_AUTHWRITE, by, item)
}

// The same of reading, as OWNERREAD and AUTHREAD tell.
pub(crate) fn may_read(by: u32, item: &NvIndex) -> bool
    ensures { result ≡ nv.may_read by (nv_index_of item.now) }
{
    is_allowed(NV_OWNERREAD, NV_AUTHREAD, by, item)
}

fn is_allowed(owner_bit: u32, auth_bit: u32, by: u32, item: &NvIndex) -> bool
    ensures { result ≡ nv.is_allowed owner_bit auth_bit by (nv_index_of item.now) }
{
    if by == RH_OWNER {
        return has_bits(owner_bit, item);
    }
    item.public.index == by && has_bits(auth_bit, item)
}

fn has_bits(bits: u32, item: &NvIndex) -> bool
    ensures { result ≡ nv_index.has_bits bits (nv_index_of item.now) }
{
    bits & item.public.attributes == bits
}
