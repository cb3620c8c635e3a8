//! What the broker reads from a response to a client's command, and what it holds after it.
ghost use Rattle.std.specs.Prelude.{◌≡◌, ◌≤◌, ◌+◌, ◌++◌, ◌∷◌, true, false};
ghost use Rattle.std.specs.Prelude.{ℕ, Some, None, [], length, set};
ghost use Rattle.effect_spec.specs.Operands.{command_auth};
ghost use Rattle.tab_spec.specs.Reply.{with_response_handle};
ghost use Rattle.tab_spec.specs.Shape.{number_of_session};
ghost use Rattle.object_swap.specs.Items as objects;
ghost use Rattle.object_swap.specs.Items.{owner_at};
ghost use Rattle.device_port.specs.Use.{without_one};
ghost use Rattle.session_swap.specs.Items.{is_owner, owner_in};
ghost use Rattle.client_laws.specs.Ready as ready;
ghost use Rattle.history_spec.specs.Table.{next_handle};
ghost use Rattle.client_machine.specs.Moves as moves;
ghost use Rattle.client_machine.specs.Moves.{Adopts, MayAdopt, MayStart, order_after};
ghost use Rattle.client_machine.specs.Moves.{saved_list_after, saves_session, sessions_held_after};

use fx_sessions::is_continued;
use history_spec::Pick;
use object_swap::Objects;
use session_swap::Sessions;
use tab_bytes::{Buffer, Reader};
use tab_spec::{
    Admitted, CC_CONTEXT_SAVE, CC_START_AUTH_SESSION, HEADER_BYTES, RC_SUCCESS, ST_SESSIONS,
};
use tab_wire::{is_session_handle, set_response_handle};
use virtual_handles::ClientTable;

// Whether a response has the handle of a new object; below, of a new session.
pub(crate) fn tells_object(admitted: &Admitted, reply: &[u8]) -> bool
    requires { 10 ≤ length reply.now }
    ensures { result ≡ ready.tells_object admitted.now reply.now }
{
    admitted.shape.row.code != CC_START_AUTH_SESSION
        && admitted.shape.row.response_handle
        && tab_wire::code_of(reply) == RC_SUCCESS
}

fn tells_session(admitted: &Admitted, reply: &[u8]) -> bool
    requires { 10 ≤ length reply.now }
    ensures { result ≡ ready.tells_session admitted.now reply.now }
{
    admitted.shape.row.code == CC_START_AUTH_SESSION && tab_wire::code_of(reply) == RC_SUCCESS
}

// Whether a response has a context that ContextSave made.
fn tells_context(admitted: &Admitted, reply: &[u8]) -> bool
    requires { 10 ≤ length reply.now }
    ensures { result ≡ moves.tells_context admitted.now reply.now }
{
    admitted.shape.row.code == CC_CONTEXT_SAVE && tab_wire::code_of(reply) == RC_SUCCESS
}

// Whether the session of the authorization ended with the command (Part 1, "Session-Based
// Authorizations").
fn ends_session(admitted: &Admitted, reply: &[u8]) -> bool
    requires { 10 ≤ length reply.now }
    ensures { result ≡ ready.ends_session admitted.now reply.now }
{
    let auth = &admitted.auths.auths[0];
    tab_wire::code_of(reply) == RC_SUCCESS
        && admitted.shape.tag == ST_SESSIONS
        && is_session_handle(auth.session)
        && !is_continued(auth)
}

// Whether a command saves a session.
pub(crate) fn saves_one(admitted: &Admitted) -> bool
    ensures { result ≡ moves.saves_one admitted.now }
{
    admitted.shape.row.code == CC_CONTEXT_SAVE && is_session_handle(admitted.shape.handles[0])
}

// The handle in a response.
fn told_handle(reply: &[u8]) -> u32
    requires { 14 ≤ length reply.now }
    ensures { result ≡ moves.told_handle reply.now }
{
    u32::from_be_bytes([reply[10], reply[11], reply[12], reply[13]])
}

// The sequence of the context in a response.
fn told_sequence(reply: &[u8]) -> u64
    requires { 18 ≤ length reply.now }
    ensures { result ≡ moves.told_sequence reply.now }
{
    Reader::new(&reply[HEADER_BYTES as usize..])
        .take_u64()
        .unwrap()
}

/// The value that the device chose: the number of a session that it started, or the sequence of a
/// context that it made; `Nothing` if it chose none.
pub fn pick_of(admitted: &Admitted, reply: &[u8]) -> Pick
    requires header { 10 ≤ length reply.now }
    requires long { ready.tells_session admitted.now reply.now ≡ true → 14 ≤ length reply.now }
    requires context { moves.tells_context admitted.now reply.now ≡ true → 18 ≤ length reply.now }
    ensures { result ≡ moves.pick_of admitted.now reply.now }
{
    if tells_session(admitted, reply) {
        return Pick::Session(told_handle(reply) % (1 << 24));
    }
    if tells_context(admitted, reply) {
        return Pick::Sequence(told_sequence(reply));
    }
    Pick::Nothing
}

// Holds a client's new object. The response has its handle in the device, and gets the client's own
// handle instead.
pub(crate) fn adopt(
    objects: &mut Objects,
    table: &mut ClientTable,
    client: u32,
    list: u32,
    reply: &mut Buffer,
)
    requires list { owner_at objects.old.owners list ≡ Some client }
    requires may { MayAdopt objects.old table.old.items table.old.spare reply.old }
    // The item is the last in the order of use.
    ensures adopted { (adopts : Adopts client (moves.told_handle reply.old) objects.old.items
        objects.new.items table.old.items table.new.items)
        × (objects.new.order ≡ objects.old.order ++ adopts.item ∷ []) }
    ensures rest { objects.new ≡ record objects.old {
      items = objects.new.items;
      order = objects.new.order;
    } }
    ensures reply { reply.new ≡ with_response_handle reply.old (next_handle table.old.items) }
{
    let handle = told_handle(reply.as_slice());
    let item = objects.adopt(client, list, handle);
    let own = table.add(item);
    set_response_handle(reply, own);
}

// Forgets a session of a client, which the device ended. Left sessions stay.
fn forget_session(sessions: &mut Sessions, handle: u32)
    requires { (client : ℕ) × (is_owner client (owner_in sessions.old.items handle) ≡ true) }
    ensures { sessions.new ≡ record sessions.old {
      items = set sessions.old.items (number_of_session handle) None;
      order = without_one (number_of_session handle) sessions.old.order;
      saved = without_one (number_of_session handle) sessions.old.saved;
    } }
{
    sessions.end_session(handle);
}

// Holds the session that a command started, and forgets the client's session that it ended.
pub(crate) fn keep_sessions(sessions: &mut Sessions, client: u32, admitted: &Admitted, reply: &[u8])
    requires long { 10 ≤ length reply.now }
    requires started { ready.tells_session admitted.now reply.now ≡ true
        → MayStart reply.now sessions.old }
    requires own { ready.ends_session admitted.now reply.now ≡ true → is_owner client
        (owner_in sessions.old.items (command_auth admitted.now.auths).session) ≡ true }
    requires saved { saves_session admitted.now reply.now ≡ false }
    ensures { sessions.new ≡ record sessions.old {
      items = sessions_held_after client admitted.now reply.now sessions.old.items;
      order = order_after admitted.now reply.now sessions.old.order;
      saved = saved_list_after admitted.now reply.now sessions.old.saved;
    } }
{
    if tells_session(admitted, reply) {
        sessions.adopt_session(client, told_handle(reply));
    } else if ends_session(admitted, reply) {
        forget_session(sessions, admitted.auths.auths[0].session);
    }
}
