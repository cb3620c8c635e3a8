ghost use Rattle.std.specs.Prelude.{◌≡◌, ◌≤◌, ◌<◌, ◌+◌, ◌==◌, ◌++◌, ◌∷◌, [], ℕ, List, map, set};
ghost use Rattle.std.specs.Prelude.{true, false, is_some, ◌*◌, length, None, Some, IfOk};
ghost use Rattle.std.specs.Prelude.{◌-◌, IfErr, IfSome, MatchOption, OnOk, OnErr};
ghost use Rattle.std.specs.List.{count_by, list_any};
ghost use Rattle.tab_spec.specs.Shape.{number_of_session};
ghost use Rattle.tab_spec.specs.declared.TheConstants.{CONTEXT_LIMIT, SESSION_NUMBERS};
ghost use Rattle.tab_spec.specs.declared.TheConstants.{RC_1, RC_HANDLE, RC_P};
ghost use Rattle.tab_spec.specs.Numbers.{AreInRange, leave_limit};
ghost use Rattle.device_port.specs.Device.{last_of};
ghost use Rattle.device_port.specs.Use.{without_one};
ghost use Rattle.session_swap.specs.declared.TheConstants.{NEEDED_MOST};
ghost use Rattle.tab_spec.specs.Admission.{is_session_handle};
ghost use Rattle.device_spec.specs.Answers.{word_at};
ghost use Rattle.device_spec.specs.Slots.{SlotState};
ghost use Rattle.device_spec.specs.ContextCommands.{context_save_command, flush_context_command};
ghost use Rattle.session_swap.specs.Items.{AreNeeded, Ends, HavePlaces, full_kept};
ghost use Rattle.session_swap.specs.Items.{HasGapRoom, IsFirst, IsLeftAt, IsNarrow, IsOldest};
ghost use Rattle.session_swap.specs.Items.{MakesNoContext, MayRenew};
ghost use Rattle.session_swap.specs.Items.{MakesRoom, MayHandOut, Moved, Names, RenewsOne};
ghost use Rattle.session_swap.specs.Items.{Rise, SavesForClient, SavesTold, SessionsStand};
ghost use Rattle.session_swap.specs.Items.{Stand, StillStand, counter_of, disowned, gap_first};
ghost use Rattle.session_swap.specs.Items.{ListsThose, flag, gap_in, gap_kept, numbers_along};
ghost use Rattle.session_swap.specs.Items.{is_handed_to, is_held, is_left, is_loaded_item};
ghost use Rattle.session_swap.specs.Items.{is_orphan, is_saved_for_owner, left_behind};
ghost use Rattle.session_swap.specs.Items.{is_owned, is_owner, item_at, item_of, item_session};
ghost use Rattle.session_swap.specs.Items.{loaded_items, may_take_back, new_item, no_items};
ghost use Rattle.session_swap.specs.Items.{owner_in, renewal_gap, saved_items, sessions_of};
ghost use Rattle.session_swap.specs.Items.{taken_back};
ghost use Rattle.session_swap.specs.Records.{IsSoundView};
ghost use Rattle.device_port.specs.Own.{Asks, AsksSome};

use crate::clients::save_for_client;
use crate::kept::{
    find_handed, find_orphan, find_owned, gap_above, has_number, owner_of, unused_records,
};
use crate::left::Left;
use crate::moves::flush;
use crate::order::{Order, Uncounted, Visits, list_saved};
use crate::places::swap_sessions;
use crate::record::{Place, Record};
use crate::renewal::renew_session;
use device_port::{Device, SwapError};
use linked_records::Steps;
use std::alloc::{AllocError, Global};
use std::marker::Model;
use std::sync::ledger::Ledger;
use tab_bytes::Buffer;
use tab_spec::{ContextLimits, Numbers, RC_1, RC_HANDLE, RC_P, leave_limit};

/// The number of a session handle (Part 2, "TPM_HC").
pub(crate) fn number_of(handle: u32) -> usize
    ensures { result ≡ number_of_session handle }
{
    (handle % (1 << 24)) as usize
}

// The count, or one less if one of them is gone.
fn less_one(count: u8, one: bool) -> u8
    requires { flag one ≤ count }
    ensures { result ≡ count - flag one }
{
    if one { count - 1 } else { count }
}

/// The sessions of all clients, under at most 64 numbers: more of them than the device has places
/// for loaded ones, and no more than may be active. Each is loaded, or saved in a context that the
/// device made of it. Each is a client's, or was left by a client that had saved it and closed, or
/// is an orphan, which still has to be flushed. Contracts see how much the device has room for; the
/// items, by number; the number that the next context gets; the numbers of the loaded sessions, the
/// least recently used first; those of the saved ones, in the order in which they were saved; those
/// of the left ones, in the order in which they were left; and what contexts there is room for.
#[derive(Drop)]
pub struct Sessions {
    records: Vec<Record>,
    order: Order,
    left: Left,
    next: u64,
    // How many of them clients have, or left. The others are orphans.
    held: u8,
    // How much the device has room for.
    numbers: Numbers,
    // What its contexts may be. Each record has room for two of the largest of a session.
    contexts: ContextLimits,
}

impl Model for Sessions {
    ghost use Rattle.session_swap.specs.Items.{SessionsView};
    ghost use Rattle.session_swap.specs.Records.{AreListed, whole_view};

    ghost Value = { SessionsView };

    ghost view = { λ s. whole_view s.numbers s.records.items s.next s.order s.left s.contexts };

    ghost invariant = { λ s. AreListed s.contexts s.numbers s.records.items s.order s.left
        s.held };
}

impl Sessions {
    /// The sessions of a device with these numbers and contexts: none yet. It takes memory for all
    /// 64 session numbers.
    pub fn new(
        alloc: Global,
        numbers: Numbers,
        contexts: ContextLimits,
    ) -> Result<Sessions, AllocError>
        requires range { AreInRange numbers }
        ensures { IfOk result (λ s. s ≡ record {
          numbers = numbers;
          items = no_items;
          next = 0;
          order = [];
          saved = [];
          left = [];
          contexts = contexts;
        }) }
    {
        let records = unused_records(alloc, contexts)?;
        let order = Order::new(alloc)?;
        let left = Left::new(alloc)?;
        Ok(Sessions {
            records,
            order,
            left,
            next: 0,
            held: 0,
            numbers,
            contexts,
        })
    }

    /// How many sessions may be active at once, over all clients.
    pub fn most(&self) -> u8
        ensures { result ≡ self.now.numbers.active }
    {
        self.numbers.active
    }

    /// The client that has the session of this handle, and whether the session is in use: not saved
    /// by that client. `None` if no client has it. A left session has no client.
    pub fn owner_of(&self, handle: u32) -> Option<(u32, bool)>
        ensures { result ≡ owner_in self.now.items handle }
    {
        owner_of(&self.records, handle)
    }

    /// Whether there is a session with the number of a handle, of any client or of none.
    pub fn has_number(&self, handle: u32) -> bool
        ensures { result ≡ is_some (item_at self.now.items (number_of_session handle)) }
    {
        has_number(&self.records, handle)
    }

    /// The handle of the session of this client that has the least number, in use or saved by it;
    /// `None` if it has none.
    pub fn of_client(&self, client: u32) -> Option<u32>
        ensures { MatchOption result (list_any (is_owned client) self.now.items ≡ false)
            (λ handle. Names self.now.items handle
            × (is_owner client (owner_in self.now.items handle) ≡ true)
            × ((lower : ℕ) → lower < number_of_session handle
            → is_owned client (item_at self.now.items lower) ≡ false)) }
    {
        find_owned(&self.records, client)
    }

    /// The handle of an orphan; `None` if there is none.
    pub fn orphan(&self) -> Option<u32>
        ensures { MatchOption result (list_any is_orphan self.now.items ≡ false)
            (λ handle. Names self.now.items handle
            × (is_orphan (item_at self.now.items (number_of_session handle)) ≡ true)) }
    {
        if self.orphans() == 0 {
            return None;
        }
        find_orphan(&self.records)
    }

    /// How many sessions clients have, in use or saved by them, or left. Orphans don't count.
    pub fn active(&self) -> u8
        ensures count { result ≡ count_by is_held self.now.items }
        ensures most { result ≤ self.now.numbers.active }
        // There is an item for each number.
        ensures numbers { length self.now.items ≡ SESSION_NUMBERS }
    {
        // So what holds of the fields is known here.
        let _ = &self.records;
        self.held
    }

    /// How many sessions are orphans.
    pub fn orphans(&self) -> u8
        ensures { result ≡ count_by is_orphan self.now.items }
    {
        // Each session is loaded or saved.
        self.order.loaded() as u8 + self.order.saved() - self.held
    }

    /// How many sessions are saved.
    pub fn saved(&self) -> u8
        ensures { result ≡ saved_items self.now.items }
    {
        self.order.saved()
    }

    /// The session that was saved first; `None` if none is saved. If the device shows its state,
    /// the context of this session has the least number.
    pub fn oldest(&self) -> Option<u32>
        ensures oldest { MatchOption result
            (self.now.saved ≡ []) (λ handle. IsFirst self.now handle) }
        ensures least { Rise (numbers_along self.now.items self.now.saved)
            → IfSome result (λ handle. IsOldest self.now.items handle) }
    {
        self.oldest_by(&mut Uncounted)
    }

    /// `oldest`, with a count of the records of the lists that it visits: one, or none if no
    /// session is saved.
    pub fn oldest_counted<L: Ledger>(&self, steps: &mut Steps<L>) -> Option<u32>
        ensures oldest { MatchOption result
            (self.now.saved ≡ []) (λ handle. IsFirst self.now handle) }
        ensures least { Rise (numbers_along self.now.items self.now.saved)
            → IfSome result (λ handle. IsOldest self.now.items handle) }
        ensures steps { MatchOption result
            (steps.new ≡ steps.old) (λ handle. steps.new ≡ steps.old + 1) }
    {
        self.oldest_by(steps)
    }

    fn oldest_by<C: Visits>(&self, steps: &mut C) -> Option<u32>
        ensures oldest { MatchOption result
            (self.now.saved ≡ []) (λ handle. IsFirst self.now handle) }
        ensures least { Rise (numbers_along self.now.items self.now.saved)
            → IfSome result (λ handle. IsOldest self.now.items handle) }
        ensures steps { C.count steps.new ≤ C.count steps.old + 1 }
        ensures rises { C.count steps.old ≤ C.count steps.new }
        ensures counted { MatchOption result (C.count steps.new ≡ C.count steps.old)
            (λ handle. C.count steps.old + C.weight ≤ C.count steps.new) }
    {
        let number = self.order.first_saved(steps)?;
        Some(self.records[number].handle)
    }

    /// How far the number of the next context is above that of the session that was saved first; 0
    /// if none is saved. If numbers rise in the order of saving, that session has the oldest
    /// context.
    pub fn gap(&self) -> u64
        ensures first { result ≡ gap_first self.now }
        ensures most { result ≤ gap_kept self.now }
        ensures rise { Rise (numbers_along self.now.items self.now.saved)
            → result ≡ gap_kept self.now }
    {
        let first = self.order.first_saved(&mut Uncounted);
        gap_above(&self.records, self.next, first)
    }

    /// The gap at which renewal is due: once the number of the next session context is as far as
    /// this above the oldest one, the oldest contexts are renewed before the next command of a
    /// client (the project's own). It is eight less than the gap at which the device refuses to
    /// save a session.
    pub fn renewal_gap(&self) -> u64
        ensures { result ≡ renewal_gap self.now.numbers }
    {
        // So what holds of the fields is known here.
        let _ = &self.records;
        u64::from(self.numbers.gap) - 8
    }

    /// The session that was saved first, if it is to be renewed; `None` if the gap is small enough.
    pub(crate) fn due<C: Visits>(&self, steps: &mut C) -> Option<u32>
        ensures due { MatchOption result (gap_first self.now < renewal_gap self.now.numbers)
            (λ handle. IsFirst self.now handle
            × (renewal_gap self.now.numbers ≤ gap_kept self.now)) }
        ensures sound { IsSoundView self.now }
        ensures steps { C.count steps.new ≤ C.count steps.old + 1 }
        ensures rises { C.count steps.old ≤ C.count steps.new }
        ensures counted { IfSome result (λ handle.
            C.count steps.old + C.weight ≤ C.count steps.new) }
    {
        // So what holds of the fields is known here.
        let _ = &self.records;
        let handle = self.oldest_by(steps)?;
        if gap_above(&self.records, self.next, Some(number_of(handle))) < self.renewal_gap() {
            return None;
        }
        Some(handle)
    }

    /// Loads all of these sessions, and frees so many places. If they are loaded and the places are
    /// free already, it sends nothing. It saves other loaded sessions only to make room, the least
    /// recently used first. Then it loads what is needed (Part 3, "TPM2_ContextSave",
    /// "TPM2_ContextLoad"), which counts as used. After an error the same sessions stand.
    pub fn make_sessions<D: Device>(
        &mut self,
        device: &mut D,
        needed: &[u32],
        new_places: u8,
        scratch: &mut Buffer,
    ) -> Result<(), SwapError>
        requires needed { AreNeeded needed.now new_places self.old.items }
        requires contexts { self.old.contexts ≡ D.CONTEXTS }
        requires stand { Stand (D.seen device.old).state self.old [] }
        requires may { IsNarrow (D.seen device.old).state
            × (counter_of (D.seen device.old).state + 1000 ≤ CONTEXT_LIMIT) }
        ensures ok { OnOk result
            (HavePlaces needed.now new_places (D.seen device.new).state self.new) }
        // A needed session that is loaded stays so, also after an error.
        ensures stay { (handle : ℕ) → list_any (λ one. one == handle) needed.now ≡ true
            → is_loaded_item (item_of self.old.items handle) ≡ true
            → item_of self.new.items handle ≡ item_of self.old.items handle }
        ensures moved { Moved D.seen device.old device.new self.old self.new
            × (gap_in (D.seen device.new).state < renewal_gap self.old.numbers + NEEDED_MOST)
            × (counter_of (D.seen device.new).state
            ≤ counter_of (D.seen device.old).state + NEEDED_MOST) }
        ensures room { MakesRoom D.seen device.old device.new
            needed.now new_places self.old self.new result }
        ensures asks { AsksSome D.CONTEXTS D.seen device.old device.new result }
    {
        swap_sessions(
            &mut self.records,
            &mut self.next,
            &mut self.order,
            needed,
            new_places,
            self.numbers,
            device,
            scratch,
        )
    }

    /// Holds a session for a client. It was started under this handle. It takes no memory.
    pub fn adopt_session(&mut self, client: u32, handle: u32)
        requires session { is_session_handle handle ≡ true }
        requires number { number_of_session handle < SESSION_NUMBERS }
        requires unused { item_at self.old.items (number_of_session handle) ≡ None }
        requires place { loaded_items self.old.items < self.old.numbers.loaded }
        requires few { count_by is_some self.old.items < self.old.numbers.active }
        ensures { self.new ≡ record self.old {
          items = set self.old.items (number_of_session handle) (Some (new_item client handle));
          order = self.old.order ++ number_of_session handle ∷ [];
        } }
    {
        let number = number_of(handle);
        let record = &mut self.records[number];
        record.client = Some(client);
        record.handle = handle;
        record.place = Place::Loaded;
        record.in_use = true;
        self.order.start(number);
        self.held += 1;
    }

    /// Leaves a session that its client saved, when that client closes. Nobody has the session
    /// then, and whoever gives back the context that was handed out gets it. If more are left than
    /// may be, the lesser of 8 and a quarter of the sessions that may be active, the result is the
    /// handle of the one that was left longest, which has to be dropped. It takes no memory.
    pub fn leave(&mut self, handle: u32) -> Option<u32>
        requires saved { is_saved_for_owner (item_of self.old.items handle) ≡ true }
        ensures left { self.new ≡ record self.old {
          items = set self.old.items (number_of_session handle)
              (left_behind (item_at self.old.items (number_of_session handle)));
          left = self.old.left ++ number_of_session handle ∷ [];
        } }
        ensures first { MatchOption result
            (length self.new.left ≤ leave_limit self.new.numbers.active)
            (λ first. (leave_limit self.new.numbers.active < length self.new.left)
            × IsLeftAt self.new 0 first) }
    {
        let number = number_of(handle);
        self.records[number].client = None;
        self.left.push(number);
        if self.left.count() <= leave_limit(self.numbers.active) {
            return None;
        }
        self.left_at(0)
    }

    /// How many sessions are left.
    pub fn left(&self) -> u8
        ensures count { result ≡ length self.now.left }
        // Each left session is listed, and once.
        ensures listed { ListsThose is_left self.now.left self.now.items }
    {
        // So what holds of the fields is known here.
        let _ = &self.records;
        self.left.count()
    }

    /// The handle of the session that was left at this place, from 0, in the order of leaving;
    /// `None` if no more were left.
    pub fn left_at(&self, place: u8) -> Option<u32>
        ensures { MatchOption result (length self.now.left ≤ place)
            (λ handle. IsLeftAt self.now place handle) }
    {
        let number = self.left.at(usize::from(place))?;
        let record = &self.records[number];
        Some(record.handle)
    }

    /// Makes a session an orphan, a client's or a left one, after its flush failed.
    pub fn orphan_session(&mut self, handle: u32)
        requires { Names self.old.items handle }
        ensures { self.new ≡ record self.old {
          items = set self.old.items (number_of_session handle)
              (disowned (item_at self.old.items (number_of_session handle)));
          left = without_one (number_of_session handle) self.old.left;
        } }
    {
        let number = number_of(handle);
        let record = &mut self.records[number];
        let was_held = record.is_held();
        record.client = None;
        record.in_use = true;
        self.left.remove(number);
        self.held = less_one(self.held, was_held);
    }

    /// Forgets a session, and sends nothing: the device ended it.
    pub fn end_session(&mut self, handle: u32)
        requires { Names self.old.items handle }
        ensures ended { self.new ≡ record self.old {
          items = set self.old.items (number_of_session handle) None;
          order = without_one (number_of_session handle) self.old.order;
          saved = without_one (number_of_session handle) self.old.saved;
          left = without_one (number_of_session handle) self.old.left;
        } }
        // Each left session was listed, and once.
        ensures listed { ListsThose is_left self.old.left self.old.items }
    {
        // So what holds of the fields is known here.
        let _ = &self.records;
        self.forget(number_of(handle));
    }

    // There is no session with this number any more.
    fn forget(&mut self, number: usize)
        requires { is_some (item_at self.old.items number) ≡ true }
        ensures { self.new ≡ record self.old {
          items = set self.old.items number None;
          order = without_one number self.old.order;
          saved = without_one number self.old.saved;
          left = without_one number self.old.left;
        } }
    {
        let record = &mut self.records[number];
        let is_loaded = record.is_loaded();
        let was_held = record.is_held();
        record.place = Place::Unused;
        self.order.end(number, is_loaded);
        self.left.remove(number);
        self.held = less_one(self.held, was_held);
    }

    /// Ends a session on the device, loaded or saved, and forgets it (Part 3, "TPM2_FlushContext").
    /// An error changes nothing.
    pub fn drop_session<D: Device>(
        &mut self,
        device: &mut D,
        handle: u32,
        scratch: &mut Buffer,
    ) -> Result<(), SwapError>
        requires named { Names self.old.items handle }
        requires stand { (others : List ℕ) × Stand (D.seen device.old).state self.old others }
        ensures ok { OnOk result (Ends (D.seen device.old).state (D.seen device.new).state handle
            self.old self.new) }
        ensures err { OnErr result (self.new ≡ self.old) }
        ensures stands { StillStand D.seen device.old device.new self.old self.new }
        ensures counts { MakesNoContext (D.seen device.old).state (D.seen device.new).state }
        // Each left session was listed, and once.
        ensures listed { ListsThose is_left self.old.left self.old.items }
        // Exactly one FlushContext is sent.
        ensures asks { Asks D.CONTEXTS D.seen device.old device.new (flush_context_command handle)
            result }
    {
        // So what holds of the fields is known here.
        let _ = &self.records;
        flush(device, handle, scratch)?;
        self.forget(number_of(handle));
        Ok(())
    }

    /// Saves a session for its client (Part 3, "TPM2_ContextSave"): the device makes a context of
    /// it, which is the reply's parameters. The session is saved then; its client can't use it
    /// until it gives these bytes back. An error changes nothing.
    pub fn client_save<D: Device>(
        &mut self,
        device: &mut D,
        handle: u32,
        reply: &mut Buffer,
    ) -> Result<(), SwapError>
        requires may { MayHandOut (D.seen device.old).state handle self.old.items }
        requires contexts { self.old.contexts ≡ D.CONTEXTS }
        requires stand { (others : List ℕ) × Stand (D.seen device.old).state self.old others }
        ensures ok { OnOk result
            (SavesForClient D.CONTEXTS (last_of (D.seen device.new)) reply.new handle self.old
            self.new × SavesTold (D.seen device.old).state (D.seen device.new).state reply.new
            handle self.old.items) }
        ensures err { OnErr result (self.new ≡ self.old) }
        // Every session stands as before.
        ensures sessions { sessions_of (D.seen device.new).state self.new.items
            ≡ sessions_of (D.seen device.old).state self.old.items }
        ensures stands { StillStand D.seen device.old device.new self.old self.new }
        ensures room { HasGapRoom (D.seen device.new).state }
        // Exactly one ContextSave is sent.
        ensures asks { Asks D.CONTEXTS D.seen device.old device.new (context_save_command handle)
            result }
    {
        let saved = save_for_client(&mut self.records, &mut self.next, handle, device, reply);
        list_saved(&mut self.order, number_of(handle), &saved, &mut Uncounted);
        saved
    }

    /// Takes back the context that was handed out for a session of this client, or for one that was
    /// left. The session is this client's then, and in use again. It returns the session's handle.
    /// It sends nothing, and takes no memory. An error is the response code 0x1CB (HANDLE of
    /// parameter 1): these bytes were handed out for no session that this client saved or that was
    /// left. It changes nothing.
    pub fn client_load(&mut self, client: u32, context: &[u8]) -> Result<u32, u32>
        // The handle stands in the context.
        ensures handle { IfOk result (λ handle. word_at 8 context.now ≡ Some handle) }
        ensures handed { IfOk result (λ handle.
            is_handed_to client context.now (item_of self.old.items handle) ≡ true) }
        ensures ok { IfOk result (λ handle. self.new ≡ record self.old {
          items = set self.old.items (number_of_session handle)
              (taken_back client (item_at self.old.items (number_of_session handle)));
          left = without_one (number_of_session handle) self.old.left;
        }) }
        ensures refused { OnErr result (may_take_back self.old.items client context.now ≡ false) }
        ensures code { IfErr result (λ code. code ≡ RC_HANDLE + RC_P + RC_1) }
        ensures err { OnErr result (self.new ≡ self.old) }
        // The session stands on, and is what it was.
        ensures stand { (slots : SlotState) → SessionsStand slots self.old []
            → SessionsStand slots self.new [] }
        ensures sessions { (slots : SlotState)
            → map (item_session slots) self.new.items ≡ map (item_session slots) self.old.items }
    {
        let Some(handle) = find_handed(&self.records, client, context) else {
            return Err(RC_HANDLE + RC_P + RC_1);
        };
        let record = &mut self.records[number_of(handle)];
        record.client = Some(client);
        record.in_use = true;
        self.left.remove(number_of(handle));
        Ok(handle)
    }

    /// Loads the session that was saved first and saves it again, so that its context gets the next
    /// number. Where no place is free, the loaded session that was used least recently is saved
    /// before. After an error the same sessions stand.
    pub fn renew<D: Device>(
        &mut self,
        device: &mut D,
        handle: u32,
        scratch: &mut Buffer,
    ) -> Result<(), SwapError>
        requires oldest { IsFirst self.old handle }
        requires may { MayRenew D.CONTEXTS (D.seen device.old).state self.old 900 }
        ensures { RenewsOne D.CONTEXTS D.seen handle device.old device.new self.old self.new
            result }
    {
        self.renew_by(device, handle, scratch, &mut Uncounted)
    }

    /// `renew`, which visits ten records of the lists at most, and six more where no place is free.
    /// Where it succeeds, it visits four at least.
    pub fn renew_counted<D: Device, L: Ledger>(
        &mut self,
        device: &mut D,
        handle: u32,
        scratch: &mut Buffer,
        steps: &mut Steps<L>,
    ) -> Result<(), SwapError>
        requires oldest { IsFirst self.old handle }
        requires may { MayRenew D.CONTEXTS (D.seen device.old).state self.old 900 }
        ensures renews { RenewsOne D.CONTEXTS D.seen handle device.old device.new self.old self.new
            result }
        ensures steps { steps.new ≤ steps.old + 10 + 6 * full_kept self.old }
        ensures counted { OnOk result (steps.old + 4 ≤ steps.new) }
    {
        self.renew_by(device, handle, scratch, steps)
    }

    pub(crate) fn renew_by<D: Device, C: Visits>(
        &mut self,
        device: &mut D,
        handle: u32,
        scratch: &mut Buffer,
        steps: &mut C,
    ) -> Result<(), SwapError>
        requires oldest { IsFirst self.old handle }
        requires may { MayRenew D.CONTEXTS (D.seen device.old).state self.old 900 }
        ensures renews { RenewsOne D.CONTEXTS D.seen handle device.old device.new self.old self.new
            result }
        ensures steps { C.count steps.new ≤ C.count steps.old + 10 + 6 * full_kept self.old }
        ensures counted { OnOk result (C.count steps.old + 4 * C.weight ≤ C.count steps.new) }
    {
        renew_session(
            &mut self.records,
            &mut self.next,
            &mut self.order,
            number_of(handle),
            self.numbers,
            device,
            scratch,
            steps,
        )
    }
}
