ghost use Rattle.std.specs.Prelude.{◌≡◌, ◌⊎◌, ◌≤◌, ◌+◌, ◌++◌, ◌∷◌, ◌||◌, ℕ, true, false, Bool};
ghost use Rattle.std.specs.Prelude.{Some, None, Ok, [], length, IfOk, IfErr, IfSome, OnOk};
ghost use Rattle.std.specs.Prelude.{OnErr, is_some, nat_le};
ghost use Rattle.std.specs.List.{count_by, list_any};
ghost use Rattle.tab_spec.specs.declared.TheConstants.{CC_FLUSH_CONTEXT};
ghost use Rattle.tab_spec.specs.Admission.{client_admitted};
ghost use Rattle.tab_spec.specs.Frame.{is_frame};
ghost use Rattle.tab_spec.specs.Shape.{makes_object_by, number_of_session};
ghost use Rattle.tab_spec.specs.declared.contexts.ContextLimits.{ContextLimits};
ghost use Rattle.device_spec.specs.Answers.{profile_takes, takes};
ghost use Rattle.device_spec.specs.Slots.{slot_step};
ghost use Rattle.object_swap.specs.Items as objects;
ghost use Rattle.object_swap.specs.Items.{is_vacant, no_item};
ghost use Rattle.object_swap.specs.declared.TheConstants.{PLACES_MOST};
ghost use Rattle.session_swap.specs.Items.{is_held, item_at};
ghost use Rattle.client_laws.specs.Ready.{is_sent};
ghost use Rattle.world_spec.specs.World.{flush_handle, without_named};
ghost use Rattle.client_machine.specs.Moves as moves;
ghost use Rattle.client_machine.specs.Moves.{FlushesNamed, HasRoomFor, ServesCommand};
ghost use Rattle.client_machine.specs.Moves.{IsTaken, IsUnflushed, IsUntaken, LeavesState};
ghost use Rattle.client_machine.specs.Moves.{MayBegin, MayFlush, MayServe, Serves};
ghost use Rattle.client_machine.specs.Moves.{number_taken};
ghost use Rattle.client_machine.specs.Costs.{SendsUpTo};
ghost use Rattle.client_machine.specs.Settled.{call_contexts, orphan_count};
ghost use Rattle.client_machine.specs.Tables.{IsTable, flush_fault_of, tables_had, tables_seen};

use crate::client_view::ClientView;
use crate::held::Held;
use crate::preparing::{flush_orphans, prepare};
use crate::replies::answer_alone;
use crate::responses::{adopt, keep_sessions, saves_one, tells_object};
use device_port::{Device, DeviceFailed, SwapError, takes};
use object_swap::Objects;
use session_swap::Sessions;
use std::alloc::AllocError;
use tab_bytes::{Buffer, Reader};
use tab_fields::{end_parameters, in_parameter};
use tab_spec::{
    Admitted, CC_CONTEXT_LOAD, CC_FLUSH_CONTEXT, HEADER_BYTES, HT_TRANSIENT, RC_HANDLE,
    RC_INSUFFICIENT, RC_SUCCESS, RC_VALUE, ST_NO_SESSIONS,
};
use tab_wire::{Tables, error_reply, is_session_handle, octet_of, response_handle, start_response};
use virtual_handles::ClientTable;

/// The device with the objects and sessions of all clients.
pub struct Machine<D: Device> {
    pub device: D,
    /// The objects and the sessions of all clients.
    pub held: Held,
    /// The current command, with the device's handles.
    pub translated: Buffer,
    /// Room for responses to the broker's own commands.
    pub scratch: Buffer,
}

// Whether no new session can have the number of a handle: a session has it, or as many sessions as
// may be active are clients' or were left.
fn is_taken(sessions: &Sessions, handle: u32) -> bool
    ensures { result
        ≡ (nat_le sessions.now.numbers.active (count_by is_held sessions.now.items)
        || is_some (item_at sessions.now.items (number_of_session handle))) }
{
    if sessions.most() <= sessions.active() {
        return true;
    }
    sessions.has_number(handle)
}

// Whether no new session can have the handle of a response.
fn is_number_taken(sessions: &Sessions, reply: &[u8]) -> bool
    ensures { result ≡ number_taken sessions.now reply.now }
{
    match response_handle(reply) {
        Some(handle) => is_taken(sessions, handle),
        None => false,
    }
}

// Whether a command loads a context that is kept for an object.
fn loads_kept(objects: &Objects, command: &[u8]) -> bool
    requires { 10 ≤ length command.now }
    ensures { result ≡ moves.loads_kept objects.now.items command.now }
{
    tab_wire::code_of(command) == CC_CONTEXT_LOAD
        && objects.keeps_context(&command[HEADER_BYTES as usize..])
}

// Whether the response refuses a command that loads a context kept for an object. A success is
// taken in either case, so a load that succeeds doesn't walk the objects. This holds for any
// contexts that the device may have.
fn refuses_kept(objects: &Objects, command: &[u8], reply: &[u8]) -> bool
    requires { 10 ≤ length command.now }
    ensures { (contexts : ContextLimits) (is_taken : Bool)
        → takes contexts result is_taken command.now reply.now
        ≡ takes contexts (moves.loads_kept objects.now.items command.now)
        is_taken command.now reply.now }
{
    tab_wire::reported_code(reply) != RC_SUCCESS && loads_kept(objects, command)
}

// Sends a client's command, and takes the answer.
fn send<D: Device>(
    device: &mut D,
    held: &Held,
    command: &[u8],
    reply: &mut Buffer,
) -> Result<(), SwapError>
    requires frame { is_frame command.now ≡ true }
    requires told { IfSome (D.seen device.old).state
        (λ slots. let answer = (slot_step slots command.now).1 in
        profile_takes (moves.loads_kept held.now.objects.items command.now)
        (number_taken held.now.sessions answer) command.now answer ≡ true) }
    ensures ok { OnOk result
        (IsTaken D.CONTEXTS D.seen device.old device.new held.now command.now reply.new) }
    ensures whole { OnOk result ((is_frame reply.new ≡ true) × (10 ≤ length reply.new)) }
    ensures err { IfErr result
        (λ e. IsUntaken D.CONTEXTS D.seen device.old device.new command.now e) }
{
    if device.transmit(command, reply).is_err() {
        return Err(SwapError::Failed(DeviceFailed));
    }
    let is_kept = refuses_kept(&held.objects, command, reply.as_slice());
    let is_taken = is_number_taken(&held.sessions, reply.as_slice());
    if !takes(D::CONTEXTS, command, reply.as_slice(), is_kept, is_taken) {
        return Err(SwapError::Answer(tab_wire::reported_code(reply.as_slice())));
    }
    Ok(())
}

// Returns the handle of the client's object or session that FlushContext names. An error is the
// code of the first fault.
fn flushed(seen: &ClientView<'_>, params: &[u8]) -> Result<u32, u32>
    ensures ok { IfOk result (λ handle. (flush_handle params.now ≡ Ok handle)
        × (flush_fault_of (tables_had seen.now.client seen.now.table.now.items
        seen.now.sessions.now.items) handle ≡ None)) }
    ensures err { IfErr result (λ code. IsUnflushed
        (tables_had seen.now.client seen.now.table.now.items seen.now.sessions.now.items)
        (flush_handle params.now) code) }
{
    let mut reader = Reader::new(params);
    let handle = reader.take_u32().ok_or(in_parameter(1, RC_INSUFFICIENT))?;
    end_parameters(&reader)?;
    let is_there = if octet_of(handle) == HT_TRANSIENT {
        seen.has_object(handle)
    } else if is_session_handle(handle) {
        seen.owns_session(handle)
    } else {
        return Err(in_parameter(1, RC_VALUE));
    };
    if is_there {
        Ok(handle)
    } else {
        Err(in_parameter(1, RC_HANDLE))
    }
}

impl<D: Device> Machine<D> {
    /// Takes memory for an object that a command may make. An error leaves the items and the table
    /// as they were.
    pub fn reserve(
        &mut self,
        table: &mut ClientTable,
        admitted: &Admitted,
        bytes: &[u8],
    ) -> Result<(), AllocError>
        ensures most { length self.old.held.objects.items ≤ PLACES_MOST
            → length self.new.held.objects.items ≤ PLACES_MOST }
        ensures room { OnOk result
            (HasRoomFor D.CONTEXTS admitted.now bytes.now table.new.spare
            self.new.held.objects.items) }
        ensures items { (self.new.held.objects.items ≡ self.old.held.objects.items)
            ⊎ ((list_any is_vacant self.old.held.objects.items ≡ false)
            × (self.new.held.objects.items ≡ self.old.held.objects.items ++ no_item ∷ [])) }
        ensures none { makes_object_by D.CONTEXTS (Ok admitted.now.shape) bytes.now ≡ false
            → self.new.held.objects.items ≡ self.old.held.objects.items }
        ensures err { OnErr result (self.new.held.objects.items ≡ self.old.held.objects.items) }
        // It fails only for a command that may make an object, if its table had to grow or no place
        // is vacant.
        ensures grows { OnErr result
            ((makes_object_by D.CONTEXTS (Ok admitted.now.shape) bytes.now ≡ true)
            × ((table.old.spare ≡ 0) ⊎ (list_any is_vacant self.old.held.objects.items ≡ false))) }
        ensures same { (self.new.device ≡ self.old.device)
            × (self.new.held.objects ≡ record self.old.held.objects
            { items = self.new.held.objects.items })
            × (self.new.held.sessions ≡ self.old.held.sessions)
            × (table.new.items ≡ table.old.items) }
    {
        if !tab_wire::makes_object(D::CONTEXTS, &admitted.shape, bytes) {
            return Ok(());
        }
        table.reserve()?;
        self.held.objects.reserve()
    }

    /// Carries out a client's command that was admitted over its table and its sessions. If the
    /// command may make an object, there is room for it. After an error the client has what it had.
    pub fn answer(
        &mut self,
        table: &mut ClientTable,
        client: u32,
        list: u32,
        admitted: &Admitted,
        bytes: &[u8],
        reply: &mut Buffer,
    ) -> Result<(), SwapError>
        requires params { admitted.now.auths.params ≤ length bytes.now }
        requires may { MayServe D.CONTEXTS D.seen client list self.old.device self.old.held
            table.old.items table.old.spare admitted.now bytes.now }
        ensures { ServesCommand D.CONTEXTS D.seen client self.old.device self.new.device
            self.old.held self.new.held table.old.items table.new.items admitted.now bytes.now
            reply.new result }
    {
        if admitted.shape.row.code == CC_FLUSH_CONTEXT {
            return self.flush_context(table, client, admitted, bytes, reply);
        }
        if answer_alone(
            D::CONTEXTS,
            &mut self.held.sessions,
            table,
            client,
            admitted,
            bytes,
            reply,
        ) {
            return Ok(());
        }
        self.run(table, client, list, admitted, bytes, reply)
    }

    // Runs an admitted command of a client by sending it. ContextSave of a session goes by
    // `client_save` and not by `send`: the broker keeps its context too, so that it can renew it.
    fn run(
        &mut self,
        table: &mut ClientTable,
        client: u32,
        list: u32,
        admitted: &Admitted,
        bytes: &[u8],
        reply: &mut Buffer,
    ) -> Result<(), SwapError>
        requires sort { is_sent D.CONTEXTS admitted.now bytes.now ≡ true }
        requires may { MayServe D.CONTEXTS D.seen client list self.old.device self.old.held
            table.old.items table.old.spare admitted.now bytes.now }
        ensures { ServesCommand D.CONTEXTS D.seen client self.old.device self.new.device
            self.old.held self.new.held table.old.items table.new.items admitted.now bytes.now
            reply.new result }
    {
        prepare(
            &mut self.held,
            &mut self.device,
            table,
            admitted,
            bytes,
            &mut self.translated,
            &mut self.scratch,
        )?;
        if saves_one(admitted) {
            let handle = admitted.shape.handles[0];
            self.held
                .sessions
                .client_save(&mut self.device, handle, reply)?;
            return Ok(());
        }
        send(
            &mut self.device,
            &self.held,
            self.translated.as_slice(),
            reply,
        )?;
        keep_sessions(&mut self.held.sessions, client, admitted, reply.as_slice());
        if tells_object(admitted, reply.as_slice()) {
            adopt(&mut self.held.objects, table, client, list, reply);
        }
        Ok(())
    }

    // FlushContext (Part 3, "TPM2_FlushContext") of a client's own object or session. After an
    // error the client has what it had.
    fn flush_context(
        &mut self,
        table: &mut ClientTable,
        client: u32,
        admitted: &Admitted,
        bytes: &[u8],
        reply: &mut Buffer,
    ) -> Result<(), SwapError>
        requires admitted { client_admitted (tables_seen D.CONTEXTS client table.old.items
            self.old.held.sessions.items) bytes.now ≡ Ok admitted.now }
        requires code { admitted.now.shape.row.code ≡ CC_FLUSH_CONTEXT }
        requires params { admitted.now.auths.params ≤ length bytes.now }
        requires table { IsTable self.old.held.objects.items client table.old.items }
        requires may { MayBegin call_contexts D.CONTEXTS D.seen self.old.device self.old.held }
        ensures { ServesCommand D.CONTEXTS D.seen client self.old.device self.new.device
            self.old.held self.new.held table.old.items table.new.items admitted.now bytes.now
            reply.new result }
    {
        let seen = ClientView {
            client,
            contexts: D::CONTEXTS,
            table,
            sessions: &self.held.sessions,
        };
        match flushed(&seen, &bytes[admitted.auths.params as usize..]) {
            Ok(handle) => {
                self.flush(table, handle)?;
                start_response(ST_NO_SESSIONS, RC_SUCCESS, reply);
                Ok(())
            }
            Err(code) => {
                error_reply(code, reply);
                Ok(())
            }
        }
    }

    // Drops the object or the session of a client's handle. If anything has to be sent, orphans are
    // flushed first.
    fn flush(&mut self, table: &mut ClientTable, handle: u32) -> Result<(), SwapError>
        requires there { (client : ℕ) × MayFlush client handle self.old.held table.old.items }
        requires may { MayBegin call_contexts D.CONTEXTS D.seen self.old.device self.old.held }
        ensures serves { (client : ℕ) → MayFlush client handle self.old.held table.old.items
            → Serves D.CONTEXTS D.seen client self.old.device self.new.device self.old.held
            self.new.held table.old.items table.new.items result }
        ensures flushes { OnOk result (FlushesNamed D.CONTEXTS D.seen handle self.old.device
            self.new.device self.old.held self.new.held table.old.items table.new.items) }
        ensures left { (client : ℕ) → MayFlush client handle self.old.held table.old.items
            → OnOk result (LeavesState (λ state. without_named state handle)
            (D.seen self.old.device).state (D.seen self.new.device).state self.old.held
            self.new.held table.old.items table.new.items) }
        ensures costs { SendsUpTo D.seen (orphan_count self.old.held + 1)
            self.old.device self.new.device }
    {
        if octet_of(handle) != HT_TRANSIENT {
            flush_orphans(&mut self.held, &mut self.device, &mut self.scratch)?;
            self.held
                .sessions
                .drop_session(&mut self.device, handle, &mut self.scratch)?;
            return Ok(());
        }
        let item = table.find(handle).unwrap();
        if self.held.objects.slot_of(item).is_none() {
            self.held
                .objects
                .drop_object(&mut self.device, item, &mut self.scratch)?;
            table.remove(handle);
            return Ok(());
        }
        flush_orphans(&mut self.held, &mut self.device, &mut self.scratch)?;
        self.held
            .objects
            .drop_object(&mut self.device, item, &mut self.scratch)?;
        table.remove(handle);
        Ok(())
    }
}
