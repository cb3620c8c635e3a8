ghost use Rattle.std.specs.Prelude.{◌≡◌, ◌≤◌, ◌==◌, not, true, false, [], length, MatchBool};
ghost use Rattle.std.specs.Prelude.{MatchResult, Ok, Err};
ghost use Rattle.tab_spec.specs.declared.TheConstants.{CC_FLUSH_CONTEXT};
ghost use Rattle.tab_spec.specs.Frame.{is_frame};
ghost use Rattle.tab_spec.specs.Persist.{Persist};
ghost use Rattle.effect_spec.specs.Capabilities.{is_of_device};
ghost use Rattle.client_laws.specs.Ready.{is_sent};
ghost use Rattle.history_spec.specs.declared.TheConstants.{CLIENT_OBJECTS};
ghost use Rattle.world_spec.specs.World.{load_parameters, save_parameters};
ghost use Rattle.client_machine.specs.Replies.{StandsOn, after_given, given_back, handle_told};
ghost use Rattle.client_machine.specs.Replies.{nothing_told, own_answer, own_capability};
ghost use Rattle.client_machine.specs.Replies.{reply_of, view_given};

use crate::client_view::ClientView;
use fx_capability::{Viewed, client_capability};
use session_swap::Sessions;
use tab_bytes::{Buffer, Reader};
use tab_fields::{end_parameters, in_parameter, read_context};
use tab_spec::{
    Admitted, CC_CONTEXT_LOAD, CC_CONTEXT_SAVE, CC_GET_CAPABILITY, ContextLimits, MOST_BLOB_BYTES,
    RC_SIZE, RC_SUCCESS, RC_VALUE, ST_NO_SESSIONS,
};
use tab_wire::{end_response, error_reply, is_session_handle, makes_object, start_response};
use virtual_handles::ClientTable;

// Refuses a ContextSave that has bytes after its handle. It returns whether it did; if not, the
// reply stays.
fn refuse_surplus(params: &[u8], reply: &mut Buffer) -> bool
    ensures told { MatchBool result (((length params.now == 0) ≡ false)
        × (reply.new ≡ reply_of (nothing_told (save_parameters params.now))))
        (((length params.now == 0) ≡ true) × (reply.new ≡ reply.old)) }
    ensures whole { result ≡ true → is_frame reply.new ≡ true }
{
    match end_parameters(&Reader::new(params)) {
        Ok(()) => false,
        Err(code) => {
            error_reply(code, reply);
            true
        }
    }
}

// Takes back the context of a session that the client saved, or that was left. It returns the
// session's handle; an error is the code of the first fault, and changes nothing.
fn take_back_context(sessions: &mut Sessions, client: u32, params: &[u8]) -> Result<u32, u32>
    ensures given { MatchResult result (λ handle.
        given_back client sessions.old.items params.now (load_parameters params.now) ≡ Ok handle)
        (λ code.
        given_back client sessions.old.items params.now (load_parameters params.now) ≡ Err code) }
    ensures sessions { sessions.new ≡ after_given client sessions.old
        (given_back client sessions.old.items params.now (load_parameters params.now)) }
    ensures standing { StandsOn sessions.old sessions.new }
{
    let mut reader = Reader::new(params);
    let context = read_context(&mut reader).map_err(|code| in_parameter(1, code))?;
    if context.blob.len() > MOST_BLOB_BYTES as usize {
        return Err(in_parameter(1, RC_SIZE));
    }
    end_parameters(&reader)?;
    if !is_session_handle(context.saved_handle) {
        return Err(in_parameter(1, RC_VALUE));
    }
    sessions.client_load(client, params)
}

// Answers a ContextLoad of anything but an object's context.
fn load_context(sessions: &mut Sessions, client: u32, params: &[u8], reply: &mut Buffer)
    ensures reply { reply.new
        ≡ reply_of (handle_told
        (given_back client sessions.old.items params.now (load_parameters params.now))) }
    ensures whole { is_frame reply.new ≡ true }
    ensures sessions { sessions.new ≡ after_given client sessions.old
        (given_back client sessions.old.items params.now (load_parameters params.now)) }
    ensures standing { StandsOn sessions.old sessions.new }
{
    match take_back_context(sessions, client, params) {
        Ok(handle) => {
            start_response(ST_NO_SESSIONS, RC_SUCCESS, reply);
            reply.put_u32(handle).unwrap();
            end_response(reply);
        }
        Err(code) => error_reply(code, reply),
    }
}

// Answers GetCapability of what is the client's own. It returns whether the command asks for that.
fn tell_capability(seen: &ClientView<'_>, params: &[u8], reply: &mut Buffer) -> bool
    ensures told { MatchBool result
        ((is_of_device params.now ≡ false) × ((persist : Persist) → reply.new ≡ reply_of
        (own_capability persist seen.now.client seen.now.table.now.items seen.now.sessions.now
        params.now)))
        (is_of_device params.now ≡ true) }
    ensures whole { result ≡ true → is_frame reply.new ≡ true }
{
    start_response(ST_NO_SESSIONS, RC_SUCCESS, reply);
    match client_capability(
        seen,
        u32::from(seen.sessions.active()),
        seen.sessions.most(),
        params,
        reply,
    ) {
        Viewed::Answered => {
            end_response(reply);
            true
        }
        Viewed::Refused(code) => {
            error_reply(code, reply);
            true
        }
        Viewed::Device => false,
    }
}

// Answers a command that isn't sent to a device with these contexts, over what the client has. It
// returns whether the command is one of these. FlushContext is answered elsewhere.
pub(crate) fn answer_alone(
    contexts: ContextLimits,
    sessions: &mut Sessions,
    table: &ClientTable,
    client: u32,
    admitted: &Admitted,
    bytes: &[u8],
    reply: &mut Buffer,
) -> bool
    requires other { (admitted.now.shape.row.code == CC_FLUSH_CONTEXT) ≡ false }
    requires params { admitted.now.auths.params ≤ length bytes.now }
    requires short { length table.now.items ≤ CLIENT_OBJECTS }
    ensures sort { result ≡ not (is_sent contexts admitted.now bytes.now) }
    ensures reply { result ≡ true → (persist : Persist) → reply.new ≡ reply_of
        (own_answer persist client table.now.items sessions.old admitted.now bytes.now) }
    ensures whole { result ≡ true → is_frame reply.new ≡ true }
    ensures sessions { MatchBool result
        (sessions.new ≡ view_given client admitted.now bytes.now sessions.old)
        (sessions.new ≡ sessions.old) }
    ensures standing { StandsOn sessions.old sessions.new }
{
    let params = &bytes[admitted.auths.params as usize..];
    match admitted.shape.row.code {
        CC_CONTEXT_SAVE => refuse_surplus(params, reply),
        CC_CONTEXT_LOAD => {
            if makes_object(contexts, &admitted.shape, bytes) {
                return false;
            }
            load_context(sessions, client, params, reply);
            true
        }
        CC_GET_CAPABILITY => {
            let seen = ClientView {
                client,
                contexts,
                table,
                sessions,
            };
            tell_capability(&seen, params, reply)
        }
        _ => false,
    }
}
