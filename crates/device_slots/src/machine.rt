ghost use Rattle.std.specs.Prelude.{◌≡◌, ◌≢◌, ◌≤◌, length, drop, Some, Ok, IfOk, true, MatchResult};
ghost use Rattle.tab_spec.specs.Auths.{IsAuthWithin};
ghost use Rattle.tab_spec.specs.Shape.{IsShape};
ghost use Rattle.effect_spec.specs.Sessions.{start_check};
ghost use Rattle.effect_spec.specs.Effect.{HasHandle};
ghost use Rattle.fx_table.specs.Views.{created_of};
ghost use Rattle.device_spec.specs.Slots.{made_by, session_too_many, unless_full, new_slots};
ghost use Rattle.device_spec.specs.Slots.{slot_tables, slot_operands, slot_step, slot_row};
ghost use Rattle.device_spec.specs.Slots.{slot_effect, effect_by, started_with, startup_code};
ghost use Rattle.tab_spec.specs.Commands.{row_of};
ghost use Rattle.tab_spec.specs.Frame.{is_frame};
ghost use Rattle.effect_spec.specs.Operands.{command_auth};
ghost use Rattle.effect_spec.specs.Effect.{effect_of};
ghost use Rattle.tab_spec.specs.Reply.{error_reply};

use crate::operands::{is_shared, operands, put_sessions};
use crate::sessions::{Place, active_count, inactive_places, loaded_count};
use crate::slots::{free_slots, is_full};
use context_blob::ContextKeys;
use fx_sessions::check_start;
use fx_table::{Created, effect, shared_effect};
use std::alloc::{AllocError, Global};
use std::marker::Model;
use tab_bytes::{Buffer, Reader};
use tab_spec::{
    Auths, CC_CONTEXT_LOAD, CC_CONTEXT_SAVE, CC_FLUSH_CONTEXT, CC_GET_CAPABILITY,
    CC_START_AUTH_SESSION, CC_STARTUP, CommandRow, ContextLimits, Numbers, PROFILE_CONTEXTS,
    RC_INITIALIZE, RC_INSUFFICIENT, RC_SESSION_HANDLES, RC_SESSION_MEMORY, RC_SUCCESS, RC_VALUE,
    SESSION_NUMBERS, ST_NO_SESSIONS, Shape,
};
use tab_values::{Object, Persist, end_parameters, in_parameter};
use tab_wire::{Tables, admit, command_row, error_reply, start_response};

// The only startup type of the project's own profile (Part 2, "TPM_SU").
const SU_CLEAR: u16 = 0;

/// The device as a machine: what it keeps, whether it is started (Part 1, "TPM Operational
/// States"), how much it has room for, the object in each slot, what each session number is, and
/// the numbers of the next contexts.
#[derive(Drop)]
pub struct SlotMachine {
    pub(crate) started: bool,
    pub(crate) persist: Persist,
    pub(crate) numbers: Numbers,
    pub(crate) slots: Vec<Option<Object>>,
    // As many as there are session numbers.
    pub(crate) sessions: Vec<Place>,
    pub(crate) object_counter: u64,
    pub(crate) counter: u64,
    // Of the seed that is kept, which no command changes.
    pub(crate) context_keys: ContextKeys,
}

impl Model for SlotMachine {
    ghost use Rattle.std.specs.Prelude.{◌≡◌, ◌≤◌, length};
    ghost use Rattle.tab_spec.specs.declared.TheConstants.{SESSION_NUMBERS};
    ghost use Rattle.device_spec.specs.Slots.{SlotState};
    ghost use Rattle.device_slots.specs.Listed.{MOST_SLOTS};
    ghost use Rattle.device_slots.specs.Views.{places_of, slots_of};

    ghost Value = { SlotState };

    ghost view = { λ m. record {
      started = m.started;
      persist = m.persist;
      numbers = m.numbers;
      slots = slots_of m.slots.items;
      sessions = places_of m.sessions.items;
      object_counter = m.object_counter;
      counter = m.counter;
    } };

    ghost invariant = { λ m. (length m.slots.items ≡ m.numbers.slots)
        × (length m.sessions.items ≡ SESSION_NUMBERS) × (m.context_keys ≡ m.persist.seed)
        × (m.numbers.slots ≤ MOST_SLOTS) };
}

impl SlotMachine {
    /// A machine of these numbers, which isn't started and holds nothing. It takes the memory of
    /// all its slots and of the 64 session numbers now, and fails only for want of it.
    pub fn new(alloc: Global, persist: Persist, numbers: Numbers) -> Result<SlotMachine, AllocError>
        ensures fresh { IfOk result (λ m. m ≡ new_slots numbers persist) }
    {
        let context_keys = ContextKeys::new(persist.seed());
        Ok(SlotMachine {
            started: false,
            persist,
            numbers,
            slots: free_slots(alloc, usize::from(numbers.slots))?,
            sessions: inactive_places(alloc, SESSION_NUMBERS as usize)?,
            object_counter: 0,
            counter: 0,
            context_keys,
        })
    }

    /// Runs one command, and writes its response over whatever the buffer holds. It takes any
    /// bytes.
    #[tactic(auto, unfolding(device_spec::specs::Slots::slot_step))]
    pub fn step(&mut self, command: &[u8], reply: &mut Buffer)
        ensures { (self.new, reply.new) ≡ slot_step self.old command.now }
    {
        match command_row(command) {
            Ok(row) => self.step_known(row, command, reply),
            Err(code) => error_reply(code, reply),
        }
    }

    // Before Startup every other command is refused once its code is known.
    fn step_known(&mut self, row: CommandRow, command: &[u8], reply: &mut Buffer)
        requires frame { is_frame command.now ≡ true }
        requires known { row_of row.code ≡ Some row }
        ensures { (self.new, reply.new) ≡ slot_row self.old (Ok row) command.now }
    {
        if !self.started && row.code != CC_STARTUP {
            return error_reply(RC_INITIALIZE, reply);
        }
        match admit(self, row, command) {
            Ok(admitted) => self.run(&admitted.shape, &admitted.auths, command, reply),
            Err(code) => error_reply(code, reply),
        }
    }

    // Runs a command that was admitted.
    fn run(&mut self, shape: &Shape, auths: &Auths, command: &[u8], reply: &mut Buffer)
        requires shape { IsShape shape.now }
        requires params { auths.now.params ≤ length command.now }
        requires within { IsAuthWithin (length command.now) (command_auth auths.now) }
        ensures { (self.new, reply.new) ≡ slot_effect self.old shape.now auths.now command.now }
    {
        let params = &command[auths.params as usize..];
        match shape.row.code {
            CC_STARTUP => self.startup(params, reply),
            CC_CONTEXT_SAVE => refuse(self.context_save(shape.handles[0], params, reply), reply),
            CC_CONTEXT_LOAD => refuse(self.context_load(params, reply), reply),
            CC_FLUSH_CONTEXT => refuse(self.flush_context(params, reply), reply),
            CC_GET_CAPABILITY => refuse(self.get_capability(params, reply), reply),
            CC_START_AUTH_SESSION => self.start_session(shape, auths, command, reply),
            _ => self.effect(shape, auths, command, reply),
        }
    }

    // StartAuthSession (Part 3, "TPM2_StartAuthSession"): whether there is room for a session is
    // asked after the command's own checks, and before its nonceTPM is drawn.
    fn start_session(&mut self, shape: &Shape, auths: &Auths, command: &[u8], reply: &mut Buffer)
        requires shape { IsShape shape.now }
        requires params { auths.now.params ≤ length command.now }
        requires within { IsAuthWithin (length command.now) (command_auth auths.now) }
        ensures { (self.new, reply.new) ≡ unless_full self.old
            (session_too_many self.old (start_check (drop auths.now.params command.now)))
            (effect_by self.old (effect_of (self.old).persist
            (slot_operands self.old shape.now auths.now) shape.now auths.now command.now)) }
    {
        if let Some(code) = self.session_too_many(&command[auths.params as usize..]) {
            return error_reply(code, reply);
        }
        self.named_effect(shape, auths, command, reply);
    }

    // The code that refuses a session which would start otherwise: as many are active as may be, or
    // no place is free.
    fn session_too_many(&self, params: &[u8]) -> Option<u32>
        ensures { result ≡ session_too_many self.now (start_check params.now) }
    {
        if check_start(params).is_err() {
            return None;
        }
        let active = active_count(&self.sessions);
        if active >= usize::from(self.numbers.active) || active >= SESSION_NUMBERS as usize {
            return Some(RC_SESSION_HANDLES);
        }
        if loaded_count(&self.sessions) >= usize::from(self.numbers.loaded) {
            return Some(RC_SESSION_MEMORY);
        }
        None
    }

    // Runs a command of what is kept and of loaded objects. What it made gets a place.
    fn effect(&mut self, shape: &Shape, auths: &Auths, command: &[u8], reply: &mut Buffer)
        requires shape { IsShape shape.now }
        requires params { auths.now.params ≤ length command.now }
        requires within { IsAuthWithin (length command.now) (command_auth auths.now) }
        ensures { (self.new, reply.new)
            ≡ effect_by self.old (effect_of (self.old).persist
            (slot_operands self.old shape.now auths.now) shape.now auths.now command.now) }
    {
        if is_shared(shape, auths) {
            return shared_effect(&mut self.persist, shape, auths, command, reply);
        }
        self.named_effect(shape, auths, command, reply);
    }

    // The same of any such command. It is never inlined, so that only a command which names or
    // creates an object or a session pays for the room on the stack that these take.
    #[inline(never)]
    fn named_effect(&mut self, shape: &Shape, auths: &Auths, command: &[u8], reply: &mut Buffer)
        requires shape { IsShape shape.now }
        requires params { auths.now.params ≤ length command.now }
        requires within { IsAuthWithin (length command.now) (command_auth auths.now) }
        ensures { (self.new, reply.new)
            ≡ effect_by self.old (effect_of (self.old).persist
            (slot_operands self.old shape.now auths.now) shape.now auths.now command.now) }
    {
        let mut ops = operands(&self.slots, &self.sessions, shape, auths);
        let made = effect(&mut self.persist, &mut ops, shape, auths, command, reply);
        put_sessions(&mut self.sessions, &ops, made.auth_ended);
        self.put_made(made.created, reply);
    }

    // What a command made gets a place, and the response has its handle.
    fn put_made(&mut self, created: Created, reply: &mut Buffer)
        requires { HasHandle (created_of created) reply.old }
        ensures { (self.new, reply.new) ≡ made_by self.old (created_of created) reply.old }
    {
        match created {
            Created::Nothing => {}
            Created::Object(object) => self.place(object, reply),
            Created::Session(session) => self.place_session(session, reply),
        }
    }

    // The whole of Startup.
    fn startup(&mut self, params: &[u8], reply: &mut Buffer)
        ensures { (self.new, reply.new)
            ≡ started_with self.old (startup_code (self.old).started params.now) }
    {
        match self.start(params) {
            Ok(()) => start_response(ST_NO_SESSIONS, RC_SUCCESS, reply),
            Err(code) => error_reply(code, reply),
        }
    }

    // Startup (Part 3, "TPM2_Startup"). An error is the response code of the first fault, and
    // changes nothing.
    fn start(&mut self, params: &[u8]) -> Result<(), u32>
        ensures { MatchResult result
            (λ _. (startup_code self.old.started params.now ≡ RC_SUCCESS)
            × (self.new ≡ record self.old { started = true }))
            (λ code. (startup_code self.old.started params.now ≡ code) × (code ≢ RC_SUCCESS)
            × (self.new ≡ self.old)) }
    {
        if self.started {
            return Err(RC_INITIALIZE);
        }
        let mut reader = Reader::new(params);
        let startup_type = reader.take_u16().ok_or(in_parameter(1, RC_INSUFFICIENT))?;
        end_parameters(&reader)?;
        if startup_type != SU_CLEAR {
            return Err(in_parameter(1, RC_VALUE));
        }
        self.started = true;
        Ok(())
    }
}

impl Tables for SlotMachine {
    ghost tables = { λ m. slot_tables m };

    fn has_object(&self, handle: u32) -> bool {
        self.object(handle).is_some()
    }

    fn has_session(&self, handle: u32) -> bool {
        self.session(handle).is_some()
    }

    fn is_full(&self) -> bool {
        is_full(&self.slots)
    }

    fn contexts(&self) -> ContextLimits {
        PROFILE_CONTEXTS
    }
}

// The response of a command that failed, over whatever the buffer holds.
fn refuse(done: Result<(), u32>, reply: &mut Buffer)
    ensures { MatchResult done (λ _. reply.new ≡ reply.old) (λ code. reply.new ≡ error_reply code) }
{
    if let Err(code) = done {
        error_reply(code, reply);
    }
}
