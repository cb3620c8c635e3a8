ghost use Rattle.std.specs.Prelude.{◌≡◌, ◌≤◌, ◌+◌, length, Ok, Err, MatchResult};
ghost use Rattle.device_spec.specs.Slots as slots;
ghost use Rattle.effect_spec.specs.Contexts as contexts;
ghost use Rattle.tab_values.specs.Contexts.{context_of};
ghost use Rattle.tab_values.specs.Views.{object_of, session_of};

use crate::machine::SlotMachine;
use crate::sessions::{
    Place, first_octet, free_number, gap, handle_of, is_active_session, is_saved_under, kind_octet,
    loaded_count, put_place,
};
use crate::slots::{free_slot, put_slot, slot_of};
use context_blob::{open_object, open_session, seal_object, seal_session};
use tab_bytes::{Buffer, Reader};
use tab_spec::{
    CONTEXT_LIMIT, HT_TRANSIENT, MOST_BLOB_BYTES, RC_CONTEXT_GAP, RC_FAILURE, RC_HANDLE,
    RC_INSUFFICIENT, RC_SESSION_MEMORY, RC_SIZE, RC_SUCCESS, RC_VALUE, ST_NO_SESSIONS,
    TRANSIENT_FIRST,
};
use tab_values::{Context, Object, Session, end_parameters, in_parameter, read_context};
use tab_wire::{end_response, is_session_handle, octet_of, set_response_handle, start_response};

impl SlotMachine {
    // ContextSave (Part 3, "TPM2_ContextSave"). An error is the response code of the first fault,
    // and changes nothing but the reply.
    pub(crate) fn context_save(
        &mut self,
        handle: u32,
        params: &[u8],
        reply: &mut Buffer,
    ) -> Result<(), u32>
        ensures { MatchResult result
            (λ _. slots.context_save self.old handle params.now ≡ Ok (self.new, reply.new))
            (λ code. (slots.context_save self.old handle params.now ≡ Err code)
            × (self.new ≡ self.old)) }
    {
        end_parameters(&Reader::new(params))?;
        if octet_of(handle) == HT_TRANSIENT {
            return self.save_object(handle, reply);
        }
        self.save_session(handle, reply)
    }

    // The context of an object under the next number; the object stays.
    fn save_object(&mut self, handle: u32, reply: &mut Buffer) -> Result<(), u32>
        ensures { let saved = slots.object_saved self.old (slots.in_slot self.old handle) in
            MatchResult result
            (λ _. saved ≡ Ok (self.new, reply.new))
            (λ code. (saved ≡ Err code) × (self.new ≡ self.old)) }
    {
        // A handle that names no object was refused before.
        let Some(object) = self.object(handle) else {
            return Err(RC_FAILURE);
        };
        if self.object_counter >= CONTEXT_LIMIT {
            return Err(RC_FAILURE);
        }
        start_response(ST_NO_SESSIONS, RC_SUCCESS, reply);
        seal_object(&self.context_keys, self.object_counter, object, reply).unwrap();
        end_response(reply);
        self.object_counter += 1;
        Ok(())
    }

    // The context of a session under the next number; the session isn't loaded afterwards.
    fn save_session(&mut self, handle: u32, reply: &mut Buffer) -> Result<(), u32>
        ensures { let saved =
            slots.session_saved self.old handle (slots.loaded_session self.old handle) in
            MatchResult result
            (λ _. saved ≡ Ok (self.new, reply.new))
            (λ code. (saved ≡ Err code) × (self.new ≡ self.old)) }
    {
        // A handle that names no loaded session was refused before.
        let Some(session) = self.session(handle) else {
            return Err(RC_FAILURE);
        };
        let number = self.counter;
        if number >= CONTEXT_LIMIT {
            return Err(RC_FAILURE);
        }
        if gap(&self.sessions, number) >= u64::from(self.numbers.gap) {
            return Err(RC_CONTEXT_GAP);
        }
        start_response(ST_NO_SESSIONS, RC_SUCCESS, reply);
        seal_session(&self.context_keys, handle, number, session, reply).unwrap();
        end_response(reply);
        let place = Place::Saved(first_octet(handle), number);
        put_place(&mut self.sessions, handle, place);
        self.counter += 1;
        Ok(())
    }

    // ContextLoad (Part 3, "TPM2_ContextLoad"): the object or the session of a context. An error is
    // the response code of the first fault, and changes nothing but the reply.
    pub(crate) fn context_load(&mut self, params: &[u8], reply: &mut Buffer) -> Result<(), u32>
        ensures { MatchResult result
            (λ _. slots.context_load self.old params.now ≡ Ok (self.new, reply.new))
            (λ code. (slots.context_load self.old params.now ≡ Err code) × (self.new ≡ self.old)) }
    {
        let mut reader = Reader::new(params);
        let context = read_context(&mut reader).map_err(|code| in_parameter(1, code))?;
        if context.blob.len() > MOST_BLOB_BYTES as usize {
            return Err(in_parameter(1, RC_SIZE));
        }
        end_parameters(&reader)?;
        if context.saved_handle == TRANSIENT_FIRST {
            return self.load_object(params, reply);
        }
        if is_session_handle(context.saved_handle) {
            return self.load_session(&context, params, reply);
        }
        Err(in_parameter(1, RC_VALUE))
    }

    // The object of a context goes to the least free slot.
    fn load_object(&mut self, params: &[u8], reply: &mut Buffer) -> Result<(), u32>
        ensures { let loaded =
            slots.object_loaded self.old
            (contexts.opened_object (self.old).persist.seed params.now) in
            MatchResult result
            (λ _. loaded ≡ Ok (self.new, reply.new))
            (λ code. (loaded ≡ Err code) × (self.new ≡ self.old)) }
    {
        let object = open_object(&self.context_keys, params)?;
        start_response(ST_NO_SESSIONS, RC_SUCCESS, reply);
        reply.put_u32(0).unwrap();
        end_response(reply);
        self.place(object, reply);
        Ok(())
    }

    // The session of a context is loaded under its own handle, where this is the context under
    // which it was saved last, and where there is room for it.
    fn load_session(
        &mut self,
        context: &Context,
        params: &[u8],
        reply: &mut Buffer,
    ) -> Result<(), u32>
        ensures { let loaded = slots.session_loaded self.old (context_of context.now)
            (contexts.opened_session (self.old).persist.seed params.now) in
            MatchResult result
            (λ _. loaded ≡ Ok (self.new, reply.new))
            (λ code. (loaded ≡ Err code) × (self.new ≡ self.old)) }
    {
        let handle = context.saved_handle;
        let session = open_session(&self.context_keys, params)?;
        if !is_saved_under(&self.sessions, handle, context.sequence) {
            return Err(in_parameter(1, RC_HANDLE));
        }
        if loaded_count(&self.sessions) >= usize::from(self.numbers.loaded) {
            return Err(RC_SESSION_MEMORY);
        }
        put_place(
            &mut self.sessions,
            handle,
            Place::Loaded(first_octet(handle), session),
        );
        start_response(ST_NO_SESSIONS, RC_SUCCESS, reply);
        reply.put_u32(handle).unwrap();
        end_response(reply);
        Ok(())
    }

    // FlushContext (Part 3, "TPM2_FlushContext"): an object leaves its slot, or a session ends,
    // also one that is saved. An error is the response code of the first fault, and changes nothing
    // but the reply.
    pub(crate) fn flush_context(&mut self, params: &[u8], reply: &mut Buffer) -> Result<(), u32>
        ensures { MatchResult result
            (λ _. slots.flush_context self.old params.now ≡ Ok (self.new, reply.new))
            (λ code. (slots.flush_context self.old params.now ≡ Err code) × (self.new ≡ self.old)) }
    {
        let mut reader = Reader::new(params);
        let handle = reader.take_u32().ok_or(in_parameter(1, RC_INSUFFICIENT))?;
        end_parameters(&reader)?;
        if octet_of(handle) == HT_TRANSIENT {
            return self.flush_object(handle, reply);
        }
        if is_session_handle(handle) {
            return self.flush_session(handle, reply);
        }
        Err(in_parameter(1, RC_VALUE))
    }

    fn flush_object(&mut self, handle: u32, reply: &mut Buffer) -> Result<(), u32>
        ensures { let flushed =
            slots.object_flushed self.old handle (slots.in_slot self.old handle) in
            MatchResult result
            (λ _. flushed ≡ Ok (self.new, reply.new))
            (λ code. (flushed ≡ Err code) × (self.new ≡ self.old)) }
    {
        if self.object(handle).is_none() {
            return Err(in_parameter(1, RC_HANDLE));
        }
        put_slot(&mut self.slots, slot_of(handle), None);
        start_response(ST_NO_SESSIONS, RC_SUCCESS, reply);
        Ok(())
    }

    fn flush_session(&mut self, handle: u32, reply: &mut Buffer) -> Result<(), u32>
        ensures { let flushed = slots.session_flushed self.old handle in MatchResult result
            (λ _. flushed ≡ Ok (self.new, reply.new))
            (λ code. (flushed ≡ Err code) × (self.new ≡ self.old)) }
    {
        if !is_active_session(&self.sessions, handle) {
            return Err(in_parameter(1, RC_HANDLE));
        }
        put_place(&mut self.sessions, handle, Place::Inactive);
        start_response(ST_NO_SESSIONS, RC_SUCCESS, reply);
        Ok(())
    }

    // An object goes to the least free slot, and the response has its handle. If no slot is free
    // the object is lost, but then no command that makes an object is admitted.
    pub(crate) fn place(&mut self, object: Object, reply: &mut Buffer)
        requires { 14 ≤ length reply.old }
        ensures { (self.new, reply.new) ≡ slots.placed self.old (object_of object) reply.old }
    {
        let slot = free_slot(&self.slots);
        put_slot(&mut self.slots, slot, Some(object));
        set_response_handle(reply, TRANSIENT_FIRST + slot as u32);
    }

    // A session that started gets the least unused number, and the response has its handle. If
    // every number is in use, no session starts.
    pub(crate) fn place_session(&mut self, session: Session, reply: &mut Buffer)
        requires { 14 ≤ length reply.old }
        ensures { (self.new, reply.new)
            ≡ slots.session_placed self.old (session_of session) reply.old }
    {
        let octet = kind_octet(session.kind);
        let handle = handle_of(octet, free_number(&self.sessions) as u32);
        put_place(&mut self.sessions, handle, Place::Loaded(octet, session));
        set_response_handle(reply, handle);
    }
}
