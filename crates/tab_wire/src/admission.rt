ghost use Rattle.std.specs.Prelude.{◌≡◌, ◌==◌, ◌≤◌, ◌||◌, ◌&&◌, not, [], ◌∷◌, true, length, get_or};
ghost use Rattle.std.specs.Prelude.{Ok, Some, None, IfOk, MatchResult};
ghost use Rattle.std.specs.List.{list_any};
ghost use Rattle.tab_spec.specs.Frame.{is_frame};
ghost use Rattle.tab_spec.specs.Commands.{row_of};
ghost use Rattle.tab_spec.specs.Contexts.{is_saved_object};
ghost use Rattle.tab_spec.specs.Shape.{IsShape, loads_object, makes_object_by, needs_slot};
ghost use Rattle.tab_spec.specs.Auths.{no_auth, IsAuthWithin};
ghost use Rattle.tab_spec.specs.Admission.{missing_handle, missing_session, repeated_session};
ghost use Rattle.tab_spec.specs.Admission.{spare_auth, is_missing, is_session_handle};
ghost use Rattle.tab_spec.specs.Admission.{object_too_many, admitted_by, client_admitted};

use crate::area::authorizations;
use crate::shapes::{command_row, octet_of, shape_with};
use crate::tables::Tables;
use crate::wire::u32_at;
use tab_spec::{
    Admitted, Auth, Auths, CC_CONTEXT_LOAD, CC_CREATE, CC_CREATE_PRIMARY, CC_LOAD, CC_STARTUP,
    CommandRow, ContextLimits, HT_HMAC_SESSION, HT_POLICY_SESSION, HT_TRANSIENT, RC_1,
    RC_ATTRIBUTES, RC_HANDLE, RC_INITIALIZE, RC_OBJECT_MEMORY, RC_REFERENCE_H0, RC_REFERENCE_S0,
    RC_S, RC_VALUE, RS_PW, Shape, TRANSIENT_FIRST, TRANSIENT_ST_CLEAR,
};

/// The shape and the authorizations of a frame, whose code has this row, over what is there. An
/// error is the response code that refuses the command before its own checks, in the order of the
/// profile: steps 4 to 11 of the refusals (docs/PROTOCOL.md).
pub fn admit<T: Tables>(tables: &T, row: CommandRow, bytes: &[u8]) -> Result<Admitted, u32>
    requires frame { is_frame bytes.now ≡ true }
    requires known { row_of row.code ≡ Some row }
    ensures value { result ≡ admitted_by (T.tables tables.now) (Ok row) bytes.now }
    ensures params { IfOk result (λ a. a.auths.params ≤ length bytes.now) }
    ensures shape { IfOk result (λ a. IsShape a.shape) }
    ensures within { IfOk result
        (λ a. IsAuthWithin (length bytes.now) (get_or a.auths.auths 0 no_auth)) }
{
    let shape = shape_with(row, bytes)?;
    named(tables, shape.handles)?;
    let auths = authorizations(bytes, &shape)?;
    let given = &auths.auths[..usize::from(auths.count)];
    sessions_are_there(tables, given)?;
    no_session_twice(shape.handles, given)?;
    no_spare(&shape, &auths)?;
    has_room(tables, &shape, bytes)?;
    Ok(Admitted { shape, auths })
}

/// The same of a client's command, whatever its bytes. Its device has started, so Startup is
/// refused.
#[tactic(auto, unfolding(tab_spec::specs::Admission::admitted))]
pub fn admit_client<T: Tables>(tables: &T, bytes: &[u8]) -> Result<Admitted, u32>
    ensures value { result ≡ client_admitted (T.tables tables.now) bytes.now }
    ensures params { IfOk result (λ a. a.auths.params ≤ length bytes.now) }
    ensures shape { IfOk result (λ a. IsShape a.shape) }
    ensures within { IfOk result
        (λ a. IsAuthWithin (length bytes.now) (get_or a.auths.auths 0 no_auth)) }
{
    let admitted = admit(tables, command_row(bytes)?, bytes)?;
    if admitted.shape.row.code == CC_STARTUP {
        return Err(RC_INITIALIZE);
    }
    Ok(admitted)
}

// Step 6: tests that each handle names what is there.
fn named<T: Tables>(tables: &T, handles: [u32; 2]) -> Result<(), u32>
    ensures { MatchResult result
        (λ u. missing_handle (T.tables tables.now) 0 handles ≡ None)
        (λ code. missing_handle (T.tables tables.now) 0 handles ≡ Some code) }
{
    let [first, second] = handles;
    if is_missing(tables, first) {
        return Err(RC_REFERENCE_H0);
    }
    if is_missing(tables, second) {
        return Err(RC_REFERENCE_H0 + 1);
    }
    Ok(())
}

// Whether a handle names an object or a session that isn't there.
fn is_missing<T: Tables>(tables: &T, handle: u32) -> bool
    ensures { result ≡ is_missing (T.tables tables.now) handle }
{
    if octet_of(handle) == HT_TRANSIENT {
        return !tables.has_object(handle);
    }
    is_session_handle(handle) && !tables.has_session(handle)
}

/// Whether a handle is one of a session, by its first octet (Part 2, "TPM_HT").
pub fn is_session_handle(handle: u32) -> bool
    ensures { result ≡ is_session_handle handle }
{
    let octet = octet_of(handle);
    octet == HT_HMAC_SESSION || octet == HT_POLICY_SESSION
}

// Step 8: tests that each authorization is a password, or names a session that is there.
fn sessions_are_there<T: Tables>(tables: &T, auths: &[Auth]) -> Result<(), u32>
    requires { length auths.now ≤ 3 }
    ensures { MatchResult result
        (λ u. missing_session (T.tables tables.now) 0 auths.now ≡ None)
        (λ code. missing_session (T.tables tables.now) 0 auths.now ≡ Some code) }
{
    for (index, auth) in auths.iter().enumerate() {
        session_is_there(tables, auth, index as u32)?;
    }
    Ok(())
}

// The same of the authorization with this index, from 0.
fn session_is_there<T: Tables>(tables: &T, auth: &Auth, index: u32) -> Result<(), u32>
    requires { index ≤ 2 }
    ensures { MatchResult result
        (λ u. missing_session (T.tables tables.now) index (auth.now ∷ []) ≡ None)
        (λ code. missing_session (T.tables tables.now) index (auth.now ∷ []) ≡ Some code) }
{
    if auth.session == RS_PW {
        return Ok(());
    }
    if !is_session_handle(auth.session) {
        return Err(RC_VALUE + RC_S + RC_1 * (index + 1));
    }
    if !tables.has_session(auth.session) {
        return Err(RC_REFERENCE_S0 + index);
    }
    Ok(())
}

// Step 9: tests that no authorization names a session of the handle area, or that of an
// authorization before it.
fn no_session_twice(handles: [u32; 2], auths: &[Auth]) -> Result<(), u32>
    requires { length auths.now ≤ 3 }
    ensures { MatchResult result
        (λ u. repeated_session handles 1 auths.now ≡ None)
        (λ code. repeated_session handles 1 auths.now ≡ Some code) }
{
    for (index, auth) in auths.iter().enumerate() {
        if is_named(auth.session, handles, &auths[..index]) {
            return Err(RC_HANDLE + RC_S + RC_1 * (index as u32 + 1));
        }
    }
    Ok(())
}

// Whether a session, and not a password, is one of these handles or that of one of these
// authorizations.
fn is_named(session: u32, handles: [u32; 2], auths: &[Auth]) -> bool
    ensures { result ≡ (not (session == RS_PW) && (list_any (λ handle. handle == session) handles
        || list_any (λ auth. auth.session == session) auths.now)) }
{
    session != RS_PW && (handles.contains(&session) || authorizes(session, auths))
}

// Whether a session is that of one of these authorizations.
fn authorizes(session: u32, auths: &[Auth]) -> bool
    ensures { result ≡ list_any (λ auth. auth.session == session) auths.now }
{
    auths.iter().any(|auth| auth.session == session)
}

// Step 10: tests that each authorization belongs to a handle.
fn no_spare(shape: &Shape, auths: &Auths) -> Result<(), u32>
    ensures { MatchResult result
        (λ u. spare_auth shape.now auths.now ≡ None)
        (λ code. spare_auth shape.now auths.now ≡ Some code) }
{
    let authorized = shape.row.authorized;
    if auths.count > authorized {
        return Err(RC_ATTRIBUTES + RC_S + RC_1 * (u32::from(authorized) + 1));
    }
    Ok(())
}

// Step 11: tests that there is room for the object that a command of this shape makes.
fn has_room<T: Tables>(tables: &T, shape: &Shape, bytes: &[u8]) -> Result<(), u32>
    ensures { MatchResult result
        (λ u. object_too_many (T.tables tables.now) shape.now bytes.now ≡ None)
        (λ code. object_too_many (T.tables tables.now) shape.now bytes.now ≡ Some code) }
{
    if tables.is_full() && makes_object(tables.contexts(), shape, bytes) {
        return Err(RC_OBJECT_MEMORY);
    }
    Ok(())
}

/// Whether a command of this shape makes an object where it succeeds, on a device with these
/// contexts.
pub fn makes_object(contexts: ContextLimits, shape: &Shape, bytes: &[u8]) -> bool
    ensures { result ≡ makes_object_by contexts (Ok shape.now) bytes.now }
{
    match shape.row.code {
        CC_CREATE_PRIMARY | CC_LOAD => true,
        CC_CONTEXT_LOAD => loads_object(contexts, bytes),
        _ => false,
    }
}

// Whether a ContextLoad has the savedHandle of an object. It stands after the header (10 bytes) and
// the sequence (8).
fn loads_object(contexts: ContextLimits, bytes: &[u8]) -> bool
    ensures { result ≡ loads_object contexts bytes.now }
{
    bytes.len() >= 22 && is_saved_object(contexts, u32_at(bytes, 18))
}

/// Whether a savedHandle is that of an object, on a device with these contexts (Part 2,
/// "TPMS_CONTEXT").
pub fn is_saved_object(contexts: ContextLimits, handle: u32) -> bool
    ensures { result ≡ is_saved_object contexts handle }
{
    (contexts.st_clear && handle == TRANSIENT_ST_CLEAR) || handle == TRANSIENT_FIRST
}

/// Whether a command of this shape needs a free slot, on a device with these contexts: it makes an
/// object, or it is Create where the device builds the object in a slot.
pub fn needs_slot(contexts: ContextLimits, shape: &Shape, bytes: &[u8]) -> bool
    ensures { result ≡ needs_slot contexts shape.now bytes.now }
{
    (contexts.create_takes_slot && shape.row.code == CC_CREATE)
        || makes_object(contexts, shape, bytes)
}
