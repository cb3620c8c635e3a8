ghost use Rattle.std.specs.Prelude.{◌≡◌, ◌+◌, ◌*◌, ◌≤◌, ◌&&◌, true, false, not, nat_lt, length};
ghost use Rattle.std.specs.Prelude.{take, drop, ◌++◌, Some, Ok, Err, IfOk, MatchResult};
ghost use Rattle.std.specs.Prelude.{if◌then◌else◌};
ghost use Rattle.tab_spec.specs.Frame.{is_frame, tag_of, code_of};
ghost use Rattle.tab_spec.specs.Commands.{row_of as row_for};
ghost use Rattle.tab_spec.specs.Shape.{count_in, is_command_tag, is_present, is_of_kind, kind_code};
ghost use Rattle.tab_spec.specs.Shape.{handle_at, octet_of, row_in, shape_with, shape_of};
ghost use Rattle.tab_spec.specs.Shape.{handle_bytes, with_handles};

use crate::rows::row_of;
use crate::wire::{code_of, is_frame, tag_of, u32_at};
use tab_bytes::Buffer;
use tab_spec::{
    CommandRow, HEADER_BYTES, HT_HMAC_SESSION, HT_NV_INDEX, HT_PERSISTENT, HT_POLICY_SESSION,
    HT_TRANSIENT, Kind, PCRS, RC_1, RC_BAD_TAG, RC_COMMAND_CODE, RC_COMMAND_SIZE, RC_HANDLE,
    RC_INSUFFICIENT, RC_VALUE, RH_NULL, RH_OWNER, ST_NO_SESSIONS, ST_SESSIONS, Shape,
};

// Tests a frame and its tag, and gives its command code.
fn checked_code(bytes: &[u8]) -> Result<u32, u32>
    ensures { result ≡ (if not (is_frame bytes.now) then Err RC_COMMAND_SIZE
        else if not (is_command_tag (tag_of bytes.now)) then Err RC_BAD_TAG
        else Ok (code_of bytes.now)) }
{
    if !is_frame(bytes) {
        return Err(RC_COMMAND_SIZE);
    }
    match tag_of(bytes) {
        ST_NO_SESSIONS | ST_SESSIONS => Ok(code_of(bytes)),
        _ => Err(RC_BAD_TAG),
    }
}

/// The row of a command among those of the profile. An error is the response code of the first
/// fault: of the size, of the tag, of the command code.
pub fn command_row(bytes: &[u8]) -> Result<CommandRow, u32>
    ensures value { result ≡ row_in row_for bytes.now }
    ensures known { IfOk result (λ row. row_for row.code ≡ Some row) }
{
    row_of(checked_code(bytes)?).ok_or(RC_COMMAND_CODE)
}

/// The shape of a command among all that the profile has. An error is the response code of the
/// first fault, in the order of the profile: of the size, of the tag, of the command code, of a
/// handle that isn't whole, of a handle of another kind.
#[tactic(auto, unfolding(tab_spec::specs::Shape::shape_of))]
pub fn shape(bytes: &[u8]) -> Result<Shape, u32>
    ensures { result ≡ shape_of bytes.now }
{
    shape_with(command_row(bytes)?, bytes)
}

/// The shape of a command with this row, which was found for its code.
pub fn shape_with(row: CommandRow, bytes: &[u8]) -> Result<Shape, u32>
    requires { 10 ≤ length bytes.now }
    ensures value { result ≡ shape_with row bytes.now }
    ensures within { IfOk result (λ shape. shape.rest ≤ length bytes.now) }
{
    let [first, second] = row.handles;
    whole(first, 1, bytes)?;
    whole(second, 2, bytes)?;
    of_kind(first, 1, bytes)?;
    of_kind(second, 2, bytes)?;
    let count = presence(first) + presence(second);
    Ok(Shape {
        row,
        tag: tag_of(bytes),
        handles: [handle_or_0(first, 1, bytes), handle_or_0(second, 2, bytes)],
        count,
        rest: HEADER_BYTES + 4 * u32::from(count),
    })
}

// Whether there is a handle of this kind.
fn is_present(kind: Kind) -> bool
    ensures { result ≡ is_present kind }
{
    kind != Kind::Absent
}

// How many handles of this kind there are: one, or none where it is absent.
fn presence(kind: Kind) -> u8
    ensures value { result ≡ (if is_present kind then 1 else 0) }
    ensures most { result ≤ 1 }
{
    if is_present(kind) { 1 } else { 0 }
}

/// How many handles a command of this row has, at most two (Part 1, "Handle Area").
pub fn handle_count(row: &CommandRow) -> u8
    ensures value { result ≡ count_in row.now.handles }
    ensures most { result ≤ 2 }
{
    let [first, second] = row.handles;
    presence(first) + presence(second)
}

// Tests that the handle of this number is whole.
fn whole(kind: Kind, number: u32, bytes: &[u8]) -> Result<(), u32>
    requires { number ≤ 2 }
    ensures { MatchResult result
        (λ u. (is_present kind && nat_lt (length bytes.now) (HEADER_BYTES + 4 * number)) ≡ false)
        (λ code. ((is_present kind && nat_lt (length bytes.now) (HEADER_BYTES + 4 * number)) ≡ true)
        × (code ≡ RC_INSUFFICIENT + RC_1 * number)) }
{
    if is_present(kind) && bytes.len() < (HEADER_BYTES + 4 * number) as usize {
        return Err(RC_INSUFFICIENT + RC_1 * number);
    }
    Ok(())
}

// Tests that the handle of this number is of its kind.
fn of_kind(kind: Kind, number: u32, bytes: &[u8]) -> Result<(), u32>
    requires number { number ≤ 2 }
    requires whole { (is_present kind && nat_lt (length bytes.now) (HEADER_BYTES + 4 * number))
        ≡ false }
    ensures { MatchResult result
        (λ u. is_of_kind kind (handle_at number bytes.now) ≡ true)
        (λ code. (is_of_kind kind (handle_at number bytes.now) ≡ false)
        × (code ≡ kind_code kind (handle_at number bytes.now) + RC_1 * number)) }
{
    if !is_present(kind) {
        return Ok(());
    }
    let handle = handle_at(number, bytes);
    if is_of_kind(kind, handle) {
        return Ok(());
    }
    Err(kind_code(kind, handle) + RC_1 * number)
}

// The handle of this number, from 1 (Part 1, "Handle Area").
fn handle_at(number: u32, bytes: &[u8]) -> u32
    requires number { number ≤ 2 }
    requires whole { HEADER_BYTES + 4 * number ≤ length bytes.now }
    ensures { result ≡ handle_at number bytes.now }
{
    u32_at(bytes, 6 + 4 * number as usize)
}

// The handle of this number and kind; 0 where it is absent.
fn handle_or_0(kind: Kind, number: u32, bytes: &[u8]) -> u32
    requires number { number ≤ 2 }
    requires whole { (is_present kind && nat_lt (length bytes.now) (HEADER_BYTES + 4 * number))
        ≡ false }
    ensures { result ≡ (if is_present kind then handle_at number bytes.now else 0) }
{
    if is_present(kind) {
        handle_at(number, bytes)
    } else {
        0
    }
}

// Whether a handle may stand where this kind is asked for (Part 2, "Handles").
fn is_of_kind(kind: Kind, handle: u32) -> bool
    ensures { result ≡ is_of_kind kind handle }
{
    let octet = octet_of(handle);
    match kind {
        Kind::Absent => true,
        Kind::Owner => handle == RH_OWNER,
        Kind::Pcr => handle < PCRS,
        Kind::Nv => octet == HT_NV_INDEX,
        Kind::NvAuth => handle == RH_OWNER || octet == HT_NV_INDEX,
        Kind::Object => octet == HT_TRANSIENT,
        Kind::Policy => octet == HT_POLICY_SESSION,
        Kind::Entity => {
            handle == RH_OWNER || handle < PCRS || octet == HT_NV_INDEX || octet == HT_TRANSIENT
        }
        Kind::Saved => {
            octet == HT_TRANSIENT || octet == HT_HMAC_SESSION || octet == HT_POLICY_SESSION
        }
        Kind::Null => handle == RH_NULL,
    }
}

// The code that refuses a handle of another kind, without its number.
fn kind_code(kind: Kind, handle: u32) -> u32
    ensures value { result ≡ kind_code kind handle }
    ensures most { result ≤ RC_HANDLE }
{
    match kind {
        Kind::Object | Kind::Entity | Kind::Saved if octet_of(handle) == HT_PERSISTENT => RC_HANDLE,
        _ => RC_VALUE,
    }
}

/// The first octet of a handle, its most significant byte, which says what it is a handle of (Part
/// 2, "TPM_HT").
pub fn octet_of(handle: u32) -> u32
    ensures { result ≡ octet_of handle }
{
    handle >> 24
}

/// Writes the command with other handles and all else equal, over whatever `out` holds.
pub fn with_handles(bytes: &[u8], shape: &Shape, handles: [u32; 2], out: &mut Buffer)
    requires { shape_of bytes.now ≡ Ok shape.now }
    ensures { out.new ≡ with_handles bytes.now shape.now handles }
{
    let given = &handles[..usize::from(shape.count)];
    join(bytes, given, shape.rest as usize, out);
}

// Writes a command's header, these handles, and the command's bytes from a place after its handles
// on.
fn join(bytes: &[u8], handles: &[u32], rest: usize, out: &mut Buffer)
    requires rest { rest ≡ 10 + 4 * length handles.now }
    requires within { rest ≤ length bytes.now }
    requires most { length bytes.now ≤ 4096 }
    ensures { out.new ≡ take 10 bytes.now ++ handle_bytes (length handles.now) handles.now
        ++ drop rest bytes.now }
{
    out.clear();
    out.put_bytes(&bytes[..10]).unwrap();
    for handle in handles {
        out.put_u32(*handle).unwrap();
    }
    out.put_bytes(&bytes[rest..]).unwrap();
}
