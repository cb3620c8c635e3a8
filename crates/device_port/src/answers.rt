//! Which responses a broker takes as the answer to a command that it sent.

ghost use Rattle.std.specs.Prelude.{◌==◌, ◌||◌, ◌+◌, ◌*◌, not, if◌then◌else◌, ◌≡◌, ◌≤◌, drop};
ghost use Rattle.std.specs.Prelude.{IsTrue, true, length};
ghost use Rattle.std.specs.Prelude.{false, Ok, Err, MatchResult, MatchOption};
ghost use Rattle.std.specs.List.{list_all};
ghost use Rattle.tab_spec.specs.declared.TheConstants.{CC_CONTEXT_SAVE, ST_SESSIONS};
ghost use Rattle.tab_spec.specs.Frame.{code_of, is_frame, tag_of};
ghost use Rattle.tab_spec.specs.Commands.{row_of};
ghost use Rattle.tab_spec.specs.Session.{is_kind_number, kind_of, kind_octet};
ghost use Rattle.effect_spec.specs.Contexts.{context_of};
ghost use Rattle.device_spec.specs.Answers as answers;

use tab_bytes::Reader;
use tab_fields::{read_context, read_sized};
use tab_spec::{
    CC_CONTEXT_LOAD, CC_CONTEXT_SAVE, CC_FLUSH_CONTEXT, CC_GET_CAPABILITY, CC_START_AUTH_SESSION,
    CC_STARTUP, ContextLimits, HEADER_BYTES, HT_HMAC_SESSION, HT_POLICY_SESSION, HT_TRANSIENT,
    RC_CANCELED, RC_CONTEXT_GAP, RC_DEVICE_ANSWER, RC_DEVICE_FAULT, RC_INITIALIZE, RC_INSUFFICIENT,
    RC_JOURNAL_FULL, RC_MEMORY, RC_OBJECT_MEMORY, RC_REFERENCE_H0, RC_REFERENCE_S0,
    RC_SESSION_MEMORY, RC_SUCCESS, SESSION_NUMBERS, ST_NO_SESSIONS, ST_SESSIONS,
};
use tab_wire::{code_of, is_saved_object, is_session_handle, octet_of, row_of, tag_of};

/// Whether a broker takes a response as the answer to the command that it sent to a device with
/// these contexts (Part 1, "Command/Response Structure"). A success has the command's tag, the
/// handle, the authorization and the context that the command asks for, each of them whole, and of
/// GetCapability the handles or the one property that it asks for. An error is ten bytes, and has
/// none of the codes that the broker sees to. Every other response is a wrong answer.
///
/// The broker adds two facts that no bytes show: whether a context that the command loads is one
/// that the broker kept itself, and whether no new session can have the number of the response's
/// handle: a client has one with it, one was left with it, or as many are active as may be.
pub fn takes(
    contexts: ContextLimits,
    asked: &[u8],
    last: &[u8],
    is_kept: bool,
    is_taken: bool,
) -> bool
    requires { IsTrue (is_frame asked.now) }
    ensures { result ≡ answers.takes contexts is_kept is_taken asked.now last.now }
{
    if !tab_wire::is_frame(last) {
        return false;
    }
    let code = code_of(last);
    if code == RC_SUCCESS {
        return is_success_form(contexts, asked, last, is_taken);
    }
    is_error_form(last) && may_refuse(contexts, asked, code, is_kept)
}

// ---- what was asked

/// The UINT32 at a place, where it is whole.
pub fn word_at(bytes: &[u8], at: usize) -> Option<u32>
    requires { at ≤ 4096 }
    ensures { result ≡ answers.word_at at bytes.now }
{
    if bytes.len() < at + 4 {
        return None;
    }
    Some(u32::from_be_bytes([bytes[at], bytes[at + 1], bytes[at + 2], bytes[at + 3]]))
}

// Where savedHandle stands in ContextLoad (Part 2, "TPMS_CONTEXT").
const SAVED_HANDLE_PLACE: usize = HEADER_BYTES as usize + 8;

// Where the count of a list of handles stands in a response, behind moreData and the capability,
// and where the first handle does.
const COUNT_PLACE: usize = HEADER_BYTES as usize + 5;

const LIST_PLACE: usize = HEADER_BYTES as usize + 9;

// Where the value of the first property stands, in a response that has properties.
const VALUE_PLACE: usize = LIST_PLACE + 4;

// Whether it is a ContextLoad of a session.
fn loads_session(asked: &[u8]) -> bool
    requires { IsTrue (is_frame asked.now) }
    ensures { result ≡ answers.loads_session asked.now }
{
    if code_of(asked) != CC_CONTEXT_LOAD {
        return false;
    }
    match word_at(asked, SAVED_HANDLE_PLACE) {
        None => false,
        Some(handle) => is_session_handle(handle),
    }
}

// Whether it is a ContextLoad of an object.
fn loads_object(contexts: ContextLimits, asked: &[u8]) -> bool
    requires { IsTrue (is_frame asked.now) }
    ensures { result ≡ answers.loads_object contexts asked.now }
{
    if code_of(asked) != CC_CONTEXT_LOAD {
        return false;
    }
    match word_at(asked, SAVED_HANDLE_PLACE) {
        None => false,
        Some(handle) => is_saved_object(contexts, handle),
    }
}

// Whether GetCapability asks for properties, or for handles of objects or sessions (Part 2,
// "TPM_CAP").
fn asks_of_tables(asked: &[u8]) -> bool
    requires { IsTrue (is_frame asked.now) }
    ensures { result ≡ answers.asks_of_tables asked.now }
{
    if code_of(asked) != CC_GET_CAPABILITY {
        return false;
    }
    match word_at(asked, HEADER_BYTES as usize) {
        Some(6) => true,
        Some(1) => asks_of_handles(asked),
        _ => false,
    }
}

// Whether the handles from property on are those of objects or sessions.
fn asks_of_handles(asked: &[u8]) -> bool
    ensures { result ≡ answers.is_word answers.is_of_tables (answers.word_at 14 asked.now) }
{
    match word_at(asked, HEADER_BYTES as usize + 4) {
        None => false,
        Some(property) => octet_of(property) == HT_TRANSIENT || is_session_handle(property),
    }
}

// Whether a command is the broker's own, so that the device has no reason to refuse it.
fn is_own(contexts: ContextLimits, asked: &[u8], is_kept: bool) -> bool
    requires { IsTrue (is_frame asked.now) }
    ensures { result ≡ answers.is_own contexts is_kept asked.now }
{
    let code = code_of(asked);
    code == CC_STARTUP
        || code == CC_CONTEXT_SAVE
        || code == CC_FLUSH_CONTEXT
        || loads_session(asked)
        || (loads_object(contexts, asked) && is_kept)
        || asks_of_tables(asked)
}

// ---- errors

// Whether a code says that a handle or an authorization names nothing.
fn is_reference(code: u32) -> bool
    ensures { result ≡ answers.is_reference code }
{
    (RC_REFERENCE_H0 <= code && code <= RC_REFERENCE_H0 + 6)
        || (RC_REFERENCE_S0 <= code && code <= RC_REFERENCE_S0 + 6)
}

// Whether a code is one that no client's command gets from a device.
fn is_hidden(code: u32) -> bool
    ensures { result ≡ answers.is_hidden code }
{
    match code {
        RC_INITIALIZE
        | RC_CANCELED
        | RC_CONTEXT_GAP
        | RC_OBJECT_MEMORY
        | RC_SESSION_MEMORY
        | RC_MEMORY
        | RC_DEVICE_FAULT
        | RC_JOURNAL_FULL
        | RC_DEVICE_ANSWER => true,
        _ => is_reference(code),
    }
}

// Whether a device may refuse a command with this code: a client's with any that isn't hidden, and
// of the broker's own Startup alone, where it had started before.
fn may_refuse(contexts: ContextLimits, asked: &[u8], code: u32, is_kept: bool) -> bool
    requires { IsTrue (is_frame asked.now) }
    ensures { result ≡ answers.may_refuse contexts is_kept asked.now code }
{
    if is_own(contexts, asked, is_kept) {
        return code_of(asked) == CC_STARTUP && code == RC_INITIALIZE;
    }
    !is_hidden(code)
}

// Whether a response has the form of an error.
fn is_error_form(last: &[u8]) -> bool
    requires { IsTrue (is_frame last.now) }
    ensures { result ≡ answers.is_error_form last.now }
{
    tag_of(last) == ST_NO_SESSIONS && last.len() == HEADER_BYTES as usize
}

// ---- successes

// Whether a command's response has a handle.
fn has_response_handle(code: u32) -> bool
    ensures { result ≡ answers.has_response_handle (row_of code) }
{
    match row_of(code) {
        None => false,
        Some(row) => row.response_handle,
    }
}

// The bytes from a place on; none where there are fewer.
fn after(bytes: &[u8], at: usize) -> &[u8]
    ensures { result.now ≡ drop at bytes.now }
{
    if bytes.len() < at {
        return &[];
    }
    bytes.split_at(at).1
}

// Reads the type of a session out of the parameters of StartAuthSession (Part 3,
// "TPM2_StartAuthSession"). The error is always INSUFFICIENT.
fn read_session_type(r: &mut Reader) -> Result<u8, u32>
    ensures { MatchResult result
        (λ kind. answers.session_type_of r.old ≡ Ok (kind, r.new))
        (λ code. answers.session_type_of r.old ≡ Err code) }
{
    read_sized(r, RC_INSUFFICIENT)?;
    read_sized(r, RC_INSUFFICIENT)?;
    r.take_u8().ok_or(RC_INSUFFICIENT)
}

// The first octet of the handle of a session of a type (Part 2, "TPM_SE"); nothing of no type.
fn octet_of_type(kind: u8) -> Option<u32>
    ensures { MatchOption result (is_kind_number kind ≡ false)
        (λ octet. (is_kind_number kind ≡ true) × (octet ≡ kind_octet (kind_of kind))) }
{
    match kind {
        0 => Some(HT_HMAC_SESSION),
        1 | 3 => Some(HT_POLICY_SESSION),
        _ => None,
    }
}

// Whether a handle is that of a session that StartAuthSession asked for, where neither a client's
// session nor a left one has its number.
fn is_started_handle(asked: &[u8], handle: u32, is_taken: bool) -> bool
    ensures { result ≡ answers.is_started_handle is_taken
        (answers.session_type_of (drop 18 asked.now)) handle }
{
    let mut r = Reader::new(after(asked, HEADER_BYTES as usize + 8));
    let Ok(kind) = read_session_type(&mut r) else {
        return false;
    };
    let Some(octet) = octet_of_type(kind) else {
        return false;
    };
    octet_of(handle) == octet && handle % 0x0100_0000 < SESSION_NUMBERS && !is_taken
}

// Whether a response may have this handle.
fn fits_handle(asked: &[u8], handle: u32, is_taken: bool) -> bool
    requires { IsTrue (is_frame asked.now) }
    ensures { result ≡ answers.fits_handle is_taken asked.now handle }
{
    if code_of(asked) == CC_START_AUTH_SESSION {
        return is_started_handle(asked, handle, is_taken);
    }
    if loads_session(asked) {
        return word_at(asked, SAVED_HANDLE_PLACE) == Some(handle);
    }
    octet_of(handle) == HT_TRANSIENT
}

// Whether the response has a handle that it may have, where it has one at all.
fn is_handled(named: bool, asked: &[u8], last: &[u8], is_taken: bool) -> bool
    requires { IsTrue (is_frame asked.now) }
    ensures { result ≡ (not named
        || answers.is_word (answers.fits_handle is_taken asked.now) (answers.word_at 10 last.now)) }
{
    if !named {
        return true;
    }
    match word_at(last, HEADER_BYTES as usize) {
        None => false,
        Some(handle) => fits_handle(asked, handle, is_taken),
    }
}

// Reads the size of the parameters, the parameters, and one authorization (Part 2,
// "TPMS_AUTH_RESPONSE"). The error is always INSUFFICIENT.
fn read_answer(r: &mut Reader) -> Result<u32, u32>
    ensures { MatchResult result
        (λ size. answers.answer_area r.old ≡ Ok (size, r.new))
        (λ code. answers.answer_area r.old ≡ Err code) }
{
    let size = r.take_u32().ok_or(RC_INSUFFICIENT)?;
    r.take_bytes(size as usize).ok_or(RC_INSUFFICIENT)?;
    read_sized(r, RC_INSUFFICIENT)?;
    r.take_u8().ok_or(RC_INSUFFICIENT)?;
    read_sized(r, RC_INSUFFICIENT)?;
    Ok(size)
}

// Whether parameters with their size and one authorization are there, and nothing else.
fn is_answer(bytes: &[u8]) -> bool
    ensures { result ≡ answers.is_whole (answers.answer_area bytes.now) }
{
    let mut r = Reader::new(bytes);
    if read_answer(&mut r).is_err() {
        return false;
    }
    r.rest().is_empty()
}

// Where the response's body begins, after the header and the handle.
fn body_place(named: bool) -> usize
    ensures { result ≡ (if named then 14 else 10) }
{
    if named {
        return HEADER_BYTES as usize + 4;
    }
    HEADER_BYTES as usize
}

// Whether the response is authorized, where the command was.
fn is_authorized(named: bool, asked: &[u8], last: &[u8]) -> bool
    requires { IsTrue (is_frame asked.now) }
    ensures { result ≡ (not (tag_of asked.now == ST_SESSIONS)
        || answers.is_whole (answers.answer_area (drop (if named then 14 else 10) last.now))) }
{
    if tag_of(asked) != ST_SESSIONS {
        return true;
    }
    is_answer(after(last, body_place(named)))
}

// Whether the bytes are one whole context of this object or session (Part 2, "TPMS_CONTEXT"), of
// the size and the savedHandle that it has.
fn is_context_of(contexts: ContextLimits, handle: u32, context: &[u8]) -> bool
    ensures { result
        ≡ answers.is_context_of contexts handle context.now (context_of context.now) }
{
    let mut r = Reader::new(context);
    let Ok(read) = read_context(&mut r) else {
        return false;
    };
    if !r.rest().is_empty() {
        return false;
    }
    if octet_of(handle) == HT_TRANSIENT {
        return is_saved_object(contexts, read.saved_handle)
            && context.len() <= usize::from(contexts.object_bytes);
    }
    read.saved_handle == handle && context.len() <= usize::from(contexts.session_bytes)
}

// Whether they are that of the handle that ContextSave names.
fn is_context(contexts: ContextLimits, asked: &[u8], context: &[u8]) -> bool
    ensures { result ≡ answers.is_context contexts asked.now context.now }
{
    match word_at(asked, HEADER_BYTES as usize) {
        None => false,
        Some(handle) => is_context_of(contexts, handle, context),
    }
}

// Whether the response has the context that was asked for, where one was.
fn is_saved(contexts: ContextLimits, asked: &[u8], last: &[u8]) -> bool
    requires { IsTrue (is_frame asked.now) }
    ensures { result ≡ (not (code_of asked.now == CC_CONTEXT_SAVE)
        || answers.is_context contexts asked.now (drop 10 last.now)) }
{
    if code_of(asked) != CC_CONTEXT_SAVE {
        return true;
    }
    is_context(contexts, asked, after(last, HEADER_BYTES as usize))
}

// Whether GetCapability asks for handles of objects or of sessions.
fn asks_of_handles_alone(asked: &[u8]) -> bool
    requires { IsTrue (is_frame asked.now) }
    ensures { result ≡ answers.asks_of_handles asked.now }
{
    if code_of(asked) != CC_GET_CAPABILITY {
        return false;
    }
    if word_at(asked, HEADER_BYTES as usize) != Some(1) {
        return false;
    }
    asks_of_handles(asked)
}

// Whether a handle may stand in the list of those from this one on.
fn may_be_listed(property: u32, handle: u32) -> bool
    ensures { result ≡ answers.may_be_listed property handle }
{
    if octet_of(property) == HT_TRANSIENT {
        return octet_of(handle) == HT_TRANSIENT;
    }
    is_session_handle(handle)
}

// Whether each handle of a response that counts so many may.
fn may_all_be_listed(property: u32, last: &[u8], count: usize) -> bool
    requires whole { length last.now ≡ 19 + 4 * count }
    requires few { length last.now ≤ 4096 }
    ensures { result ≡ list_all (answers.may_be_listed property)
        (answers.handles_from count (drop 19 last.now)) }
{
    for place in 0..count {
        let Some(handle) = word_at(last, LIST_PLACE + 4 * place) else {
            return false;
        };
        if !may_be_listed(property, handle) {
            return false;
        }
    }
    true
}

// Whether a response is the whole list of handles from this one on (Part 2,
// "TPMS_CAPABILITY_DATA").
fn is_list_from(last: &[u8], property: u32) -> bool
    requires { IsTrue (is_frame last.now) }
    ensures { result ≡ answers.is_list_from last.now property }
{
    let Some(count) = word_at(last, COUNT_PLACE) else {
        return false;
    };
    if last[HEADER_BYTES as usize] != 0 {
        return false;
    }
    if word_at(last, HEADER_BYTES as usize + 1) != Some(1) {
        return false;
    }
    if last.len() != LIST_PLACE + 4 * count as usize {
        return false;
    }
    may_all_be_listed(property, last, count as usize)
}

// Whether the response is the list of handles that was asked for, where one was.
fn lists_handles(asked: &[u8], last: &[u8]) -> bool
    requires asked { IsTrue (is_frame asked.now) }
    requires last { IsTrue (is_frame last.now) }
    ensures { result ≡ answers.lists_handles asked.now last.now }
{
    if !asks_of_handles_alone(asked) {
        return true;
    }
    match word_at(asked, HEADER_BYTES as usize + 4) {
        None => false,
        Some(property) => is_list_from(last, property),
    }
}

// Whether GetCapability asks for properties.
fn asks_of_properties(asked: &[u8]) -> bool
    requires { IsTrue (is_frame asked.now) }
    ensures { result ≡ answers.asks_of_properties asked.now }
{
    if code_of(asked) != CC_GET_CAPABILITY {
        return false;
    }
    word_at(asked, HEADER_BYTES as usize) == Some(6)
}

// Whether a response has this property and nothing else (Part 2, "TPMS_TAGGED_PROPERTY").
fn tells_property(last: &[u8], property: u32) -> bool
    ensures { result ≡ answers.tells_property last.now property }
{
    if word_at(last, HEADER_BYTES as usize + 1) != Some(6) {
        return false;
    }
    if word_at(last, COUNT_PLACE) != Some(1) {
        return false;
    }
    if word_at(last, LIST_PLACE) != Some(property) {
        return false;
    }
    last.len() == VALUE_PLACE + 4
}

// Whether the response has the property that was asked for, if one was.
fn tells_asked(asked: &[u8], last: &[u8]) -> bool
    requires { IsTrue (is_frame asked.now) }
    ensures { result ≡ answers.tells_asked asked.now last.now }
{
    if !asks_of_properties(asked) {
        return true;
    }
    match word_at(asked, HEADER_BYTES as usize + 4) {
        None => false,
        Some(property) => tells_property(last, property),
    }
}

// Whether the response has the handles or the property that was asked for, where any was.
fn lists_asked(asked: &[u8], last: &[u8]) -> bool
    requires asked { IsTrue (is_frame asked.now) }
    requires last { IsTrue (is_frame last.now) }
    ensures { result ≡ answers.lists_asked asked.now last.now }
{
    if !lists_handles(asked, last) {
        return false;
    }
    tells_asked(asked, last)
}

// Whether a response has the form of a success.
fn is_success_form(contexts: ContextLimits, asked: &[u8], last: &[u8], is_taken: bool) -> bool
    requires asked { IsTrue (is_frame asked.now) }
    requires last { IsTrue (is_frame last.now) }
    ensures { result ≡ answers.is_success_form contexts is_taken asked.now last.now }
{
    let named = has_response_handle(code_of(asked));
    lists_asked(asked, last)
        && tag_of(last) == tag_of(asked)
        && is_handled(named, asked, last, is_taken)
        && is_authorized(named, asked, last)
        && is_saved(contexts, asked, last)
}
