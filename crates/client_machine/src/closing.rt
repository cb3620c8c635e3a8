//! What becomes of a client's sessions and objects when it is closed.
ghost use Rattle.std.specs.Prelude.{◌≡◌, ◌≤◌, ◌+◌, ◌*◌, ℕ, false};
ghost use Rattle.std.specs.Prelude.{Some, IfOk, OnOk};
ghost use Rattle.std.specs.List.{count_by, list_any};
ghost use Rattle.tab_spec.specs.declared.TheConstants.{SESSION_NUMBERS};
ghost use Rattle.object_swap.specs.Items as objects;
ghost use Rattle.object_swap.specs.Items.{HasNone, owner_at};
ghost use Rattle.session_swap.specs.Items.{Names, is_owned, owner_in};
ghost use Rattle.client_machine.specs.Moves.{MayBegin};
ghost use Rattle.client_machine.specs.Costs.{SendsUpTo, own_objects, own_residents};
ghost use Rattle.client_machine.specs.Dropping.{ClosesSession, Disowns, Drops, DropsOne};
ghost use Rattle.client_machine.specs.Dropping.{DropsAll, DropsSession, IsDropped, IsLeastOf};
ghost use Rattle.client_machine.specs.Dropping.{KeepsOthers, is_used};
ghost use Rattle.client_machine.specs.Settled.{Settled, call_contexts};

use crate::machine::Machine;
use device_port::{Device, SwapError};
use linked_records::Steps;
use object_swap::{Uncounted, Visits};
use session_swap::Sessions;
use std::sync::ledger::Ledger;

// Whether a client's session is in use: the client didn't save it.
fn is_in_use(sessions: &Sessions, handle: u32) -> bool
    ensures { result ≡ is_used (owner_in sessions.now.items handle) }
{
    matches!(sessions.owner_of(handle), Some((_, true)))
}

impl<D: Device> Machine<D> {
    /// Drops all that the client of a list has. It flushes each session in use and each object in a
    /// slot (Part 3, "TPM2_FlushContext"). Sessions that the client saved are left, by rising
    /// number; while more are left than may be, the one that was left longest is flushed. What
    /// can't be flushed becomes an orphan. The list is free afterwards. It returns how many flushes
    /// failed. An error is the code of a wrong answer.
    pub fn drop_all(&mut self, client: u32, list: u32) -> Result<u32, u32>
        requires list { owner_at self.old.held.objects.owners list ≡ Some client }
        requires may { MayBegin call_contexts D.CONTEXTS D.seen self.old.device self.old.held }
        ensures { DropsAll D.CONTEXTS D.seen client list self.old.device self.new.device
            self.old.held self.new.held result }
    {
        self.drop_all_by(client, list, &mut Uncounted)
    }

    /// `drop_all`, with a count of the records that it visits: three to six for each object of the
    /// client, and no more than six if it fails.
    pub fn drop_all_counted<L: Ledger>(
        &mut self,
        client: u32,
        list: u32,
        steps: &mut Steps<L>,
    ) -> Result<u32, u32>
        requires list { owner_at self.old.held.objects.owners list ≡ Some client }
        requires may { MayBegin call_contexts D.CONTEXTS D.seen self.old.device self.old.held }
        ensures drops { DropsAll D.CONTEXTS D.seen client list self.old.device self.new.device
            self.old.held self.new.held result }
        ensures steps { steps.new
            ≤ steps.old + 6 * own_objects client self.old.held.objects.items }
        ensures counted { OnOk result
            (steps.old + 3 * own_objects client self.old.held.objects.items ≤ steps.new) }
    {
        self.drop_all_by(client, list, steps)
    }
}

impl<D: Device> Machine<D> {
    /// `drop_all`, which counts in `steps` the records that it visits.
    pub fn drop_all_by<C: Visits>(
        &mut self,
        client: u32,
        list: u32,
        steps: &mut C,
    ) -> Result<u32, u32>
        requires list { owner_at self.old.held.objects.owners list ≡ Some client }
        requires may { MayBegin call_contexts D.CONTEXTS D.seen self.old.device self.old.held }
        ensures drops { DropsAll D.CONTEXTS D.seen client list self.old.device self.new.device
            self.old.held self.new.held result }
        ensures steps { C.count steps.new
            ≤ C.count steps.old + 6 * own_objects client self.old.held.objects.items }
        ensures counted { OnOk result (C.count steps.old
            + 3 * (C.weight * own_objects client self.old.held.objects.items)
            ≤ C.count steps.new) }
    {
        let of_sessions = self.drop_sessions(client)?;
        let of_objects = self.drop_objects(list, steps)?;
        self.held.objects.end_client(list);
        Ok(of_sessions + u32::from(of_objects))
    }

    // The sessions of a client.
    fn drop_sessions(&mut self, client: u32) -> Result<u32, u32>
        requires may { MayBegin call_contexts D.CONTEXTS D.seen self.old.device self.old.held }
        ensures ok { IfOk result (λ failed. Drops D.CONTEXTS D.seen client self.old.device
            self.new.device self.old.held self.new.held self.old.held.objects.owners failed) }
        ensures none { OnOk result
            (list_any (is_owned client) self.new.held.sessions.items ≡ false) }
        ensures few { IfOk result (λ failed. failed ≤ SESSION_NUMBERS) }
        ensures rest { self.new.held.objects ≡ self.old.held.objects }
        ensures others { KeepsOthers client self.old.held.sessions.items
            self.new.held.sessions.items }
        // No more orphans are added than transmissions failed, also after a wrong answer.
        ensures disowns { Disowns D.CONTEXTS D.seen self.old.device self.new.device self.old.held
            self.new.held result }
        ensures costs { SendsUpTo D.seen (count_by (is_owned client) self.old.held.sessions.items)
            self.old.device self.new.device }
    {
        let mut failed = 0;
        for _number in 0..self.held.sessions.active() {
            let Some(handle) = self.held.sessions.of_client(client) else {
                return Ok(failed);
            };
            failed += self.close_session(client, handle)?;
        }
        Ok(failed)
    }

    // Closes the session of a client that has the least number. It drops one that is in use, and
    // leaves one that the client saved. If more are left than may be, it drops the one that was
    // left longest. It returns how many flushes failed, 0 or 1.
    fn close_session(&mut self, client: u32, handle: u32) -> Result<u32, u32>
        requires least { IsLeastOf client self.old.held.sessions handle }
        requires slots { self.old.held.objects.slots
            ≡ self.old.held.sessions.numbers.slots }
        requires settled { Settled (D.seen self.old.device).state self.old.held }
        ensures ok { IfOk result (λ failed. Drops D.CONTEXTS D.seen client self.old.device
            self.new.device self.old.held self.new.held self.old.held.objects.owners failed) }
        ensures closes { ClosesSession client self.old.held self.new.held result }
        ensures disowns { Disowns D.CONTEXTS D.seen self.old.device self.new.device self.old.held
            self.new.held result }
        ensures costs { SendsUpTo D.seen 1 self.old.device self.new.device }
    {
        if is_in_use(&self.held.sessions, handle) {
            return self.drop_session(handle);
        }
        match self.held.sessions.leave(handle) {
            Some(first) => self.drop_session(first),
            None => Ok(0),
        }
    }

    // Drops one session: one that its client has in use, or the one that was left longest if more
    // are left than may be. It returns how many flushes failed, 0 or 1.
    fn drop_session(&mut self, handle: u32) -> Result<u32, u32>
        requires named { Names self.old.held.sessions.items handle }
        requires slots { self.old.held.objects.slots
            ≡ self.old.held.sessions.numbers.slots }
        requires settled { Settled (D.seen self.old.device).state self.old.held }
        ensures ok { IfOk result (λ failed. (client : ℕ)
            → IsDropped client self.old.held.sessions handle
            → Drops D.CONTEXTS D.seen client self.old.device self.new.device self.old.held
            self.new.held self.old.held.objects.owners failed) }
        ensures drops { DropsSession handle self.old.held self.new.held result }
        // No more orphans are added than transmissions failed, also after a wrong answer.
        ensures disowns { Disowns D.CONTEXTS D.seen self.old.device self.new.device self.old.held
            self.new.held result }
        ensures costs { SendsUpTo D.seen 1 self.old.device self.new.device }
    {
        match self
            .held
            .sessions
            .drop_session(&mut self.device, handle, &mut self.scratch)
        {
            Ok(()) => Ok(0),
            Err(SwapError::Failed(_)) => {
                self.held.sessions.orphan_session(handle);
                Ok(1)
            }
            Err(SwapError::Answer(code)) => Err(code),
        }
    }

    // Drops the objects of the client of a list. It returns how many flushes failed.
    fn drop_objects<C: Visits>(&mut self, list: u32, steps: &mut C) -> Result<u8, u32>
        requires list { (client : ℕ) × (owner_at self.old.held.objects.owners list ≡ Some client) }
        requires slots { self.old.held.objects.slots
            ≡ self.old.held.sessions.numbers.slots }
        requires settled { Settled (D.seen self.old.device).state self.old.held }
        ensures ok { IfOk result (λ failed. (client : ℕ)
            → owner_at self.old.held.objects.owners list ≡ Some client
            → Drops D.CONTEXTS D.seen client self.old.device self.new.device self.old.held
            self.new.held self.old.held.objects.owners failed) }
        ensures none { OnOk result ((client : ℕ)
            → owner_at self.old.held.objects.owners list ≡ Some client
            → HasNone self.new.held.objects.items client) }
        ensures rest { (self.new.held.sessions ≡ self.old.held.sessions)
            × (self.new.held.objects.owners ≡ self.old.held.objects.owners) }
        // No more orphans are added than transmissions failed, also after a wrong answer.
        ensures disowns { Disowns D.CONTEXTS D.seen self.old.device self.new.device self.old.held
            self.new.held result }
        ensures costs { (client : ℕ) → owner_at self.old.held.objects.owners list ≡ Some client
            → SendsUpTo D.seen (own_residents client self.old.held.objects.items)
            self.old.device self.new.device }
        ensures steps { (client : ℕ) → owner_at self.old.held.objects.owners list ≡ Some client
            → C.count steps.new
            ≤ C.count steps.old + 6 * own_objects client self.old.held.objects.items }
        ensures counted { OnOk result ((client : ℕ)
            → owner_at self.old.held.objects.owners list ≡ Some client
            → C.count steps.old
            + 3 * (C.weight * own_objects client self.old.held.objects.items)
            ≤ C.count steps.new) }
    {
        let before = self.held.objects.orphans();
        while let Some(item) = self.held.objects.first_by(list, steps) {
            self.drop_object(item, steps)?;
        }
        Ok(self.held.objects.orphans() - before)
    }

    // Drops one object of a client. If its flush failed, it is an orphan.
    fn drop_object<C: Visits>(&mut self, item: u32, steps: &mut C) -> Result<(), u32>
        requires named { objects.Names self.old.held.objects.items item }
        requires slots { self.old.held.objects.slots
            ≡ self.old.held.sessions.numbers.slots }
        requires settled { Settled (D.seen self.old.device).state self.old.held }
        ensures ok { OnOk result ((client : ℕ)
            → (objects.item_at self.old.held.objects.items item).client ≡ Some client
            → DropsOne D.CONTEXTS D.seen client self.old.device self.new.device
            self.old.held self.new.held) }
        ensures rest { (self.new.held.sessions ≡ self.old.held.sessions)
            × (self.new.held.objects.owners ≡ self.old.held.objects.owners) }
        // No more orphans are added than transmissions failed, also after a wrong answer.
        ensures disowns { Disowns D.CONTEXTS D.seen self.old.device self.new.device self.old.held
            self.new.held result }
        ensures costs { (client : ℕ)
            → (objects.item_at self.old.held.objects.items item).client ≡ Some client
            → SendsUpTo D.seen (own_residents client self.old.held.objects.items)
            self.old.device self.new.device }
        ensures steps { (C.count steps.new ≤ C.count steps.old + 5)
            × OnOk result (C.count steps.old + 2 * C.weight ≤ C.count steps.new) }
    {
        match self
            .held
            .objects
            .drop_by(&mut self.device, item, &mut self.scratch, steps)
        {
            Ok(()) => Ok(()),
            Err(SwapError::Failed(_)) => {
                self.held.objects.orphan_by(item, steps);
                Ok(())
            }
            Err(SwapError::Answer(code)) => Err(code),
        }
    }
}
