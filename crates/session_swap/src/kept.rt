ghost use Rattle.std.specs.Prelude.{◌≡◌, ◌≤◌, ◌<◌, length, vec_capacity, is_some, IfOk, IfSome};
ghost use Rattle.std.specs.Prelude.{MatchOption, Some, false, true, ℕ};
ghost use Rattle.std.specs.List.{count_by, list_any};
ghost use Rattle.tab_spec.specs.Shape.{number_of_session};
ghost use Rattle.tab_spec.specs.declared.contexts.ContextLimits.{ContextLimits};
ghost use Rattle.device_spec.specs.Answers.{word_at};
ghost use Rattle.device_spec.specs.Slots.{gap_from};
ghost use Rattle.session_swap.specs.Items.{Names, equals_handed};
ghost use Rattle.session_swap.specs.Items.{is_handed_to, is_held, is_left, is_loaded_item};
ghost use Rattle.session_swap.specs.Items.{is_orphan, is_owned, item_at, item_of};
ghost use Rattle.session_swap.specs.Items.{may_take_back, no_items, number_of_item, is_owner};
ghost use Rattle.session_swap.specs.Items.{number_at, owner_in, owner_of_item};
ghost use Rattle.session_swap.specs.Records.{AreRecords, handed_by, item_of_record};
ghost use Rattle.session_swap.specs.Records.{items_of};

use crate::record::{Place, Record};
use crate::sessions::number_of;
use std::alloc::{AllocError, Global};
use tab_spec::{ContextLimits, SESSION_NUMBERS};

impl Record {
    /// Whether there is a session with its number.
    pub fn is_active(&self) -> bool
        ensures { result ≡ is_some (item_of_record self.now) }
    {
        match self.place {
            Place::Unused => false,
            _ => true,
        }
    }

    /// Whether its session is loaded.
    pub fn is_loaded(&self) -> bool
        ensures { result ≡ is_loaded_item (item_of_record self.now) }
    {
        match self.place {
            Place::Loaded => true,
            _ => false,
        }
    }

    /// Whether it has a session of this client.
    pub fn is_of(&self, client: u32) -> bool
        ensures { result ≡ is_owned client (item_of_record self.now) }
    {
        match self.place {
            Place::Unused => false,
            _ => self.client == Some(client),
        }
    }

    /// The client that has its session, and whether the session is in use; `None` if no client has
    /// it.
    pub fn owner(&self) -> Option<(u32, bool)>
        ensures { result ≡ owner_of_item (item_of_record self.now) }
    {
        match self.place {
            Place::Unused => None,
            _ => Some((self.client?, self.in_use)),
        }
    }

    /// Whether its session was left by a client.
    pub fn is_left(&self) -> bool
        ensures { result ≡ is_left (item_of_record self.now) }
    {
        match self.place {
            Place::Unused => false,
            _ => self.client.is_none() && !self.in_use,
        }
    }

    /// Whether it has a session of a client, or one that was left.
    pub fn is_held(&self) -> bool
        ensures { result ≡ is_held (item_of_record self.now) }
    {
        match self.place {
            Place::Unused => false,
            _ => self.client.is_some() || !self.in_use,
        }
    }

    /// Whether its session is an orphan.
    pub fn is_orphan(&self) -> bool
        ensures { result ≡ is_orphan (item_of_record self.now) }
    {
        match self.place {
            Place::Unused => false,
            _ => self.client.is_none() && self.in_use,
        }
    }

    /// Whether these bytes were handed out for its session, and it is this client's or was left.
    pub fn is_handed_to(&self, client: u32, context: &[u8]) -> bool
        ensures { result ≡ is_handed_to client context.now (item_of_record self.now) }
    {
        (self.is_of(client) || self.is_left()) && self.is_handed(context)
    }

    // Whether these bytes were handed out.
    fn is_handed(&self, context: &[u8]) -> bool
        ensures { result
            ≡ equals_handed context.now (handed_by self.now.in_use self.now.handed.items) }
    {
        !self.in_use && context == self.handed.as_slice()
    }

    /// Marks its session as saved by its client: the kept context was handed out.
    pub fn hand_out(&mut self)
        requires { length self.old.context.items ≤ vec_capacity self.old.handed }
        ensures handed { self.new.handed.items ≡ self.old.context.items }
        ensures saved { self.new ≡ record self.old { in_use = false; handed = self.new.handed } }
        ensures room { vec_capacity self.old.handed ≤ vec_capacity self.new.handed }
    {
        self.in_use = false;
        self.handed.clear();
        self.handed.extend_from_slice(&self.context).unwrap();
    }

    /// The number of its session's context, if the session is saved.
    pub fn saved_number(&self) -> Option<u64>
        ensures { result ≡ number_of_item (item_of_record self.now) }
    {
        match self.place {
            Place::Saved(number) => Some(number),
            _ => None,
        }
    }
}

/// The records of all 64 session numbers, without sessions, and with memory for such contexts.
pub fn unused_records(alloc: Global, contexts: ContextLimits) -> Result<Vec<Record>, AllocError>
    ensures sound { IfOk result (λ records. AreRecords contexts records.items) }
    ensures none { IfOk result (λ records. items_of records.items ≡ no_items) }
{
    let mut records = Vec::with_capacity(alloc, SESSION_NUMBERS as usize)?;
    for _ in 0..SESSION_NUMBERS {
        let context = Vec::with_capacity(alloc, usize::from(contexts.session_bytes))?;
        let handed = Vec::with_capacity(alloc, usize::from(contexts.session_bytes))?;
        records
            .push(Record {
                client: None,
                handle: 0,
                place: Place::Unused,
                context,
                in_use: true,
                handed,
            })
            .unwrap();
    }
    Ok(records)
}

/// The client that has the session of a handle, and whether the session is in use; `None` if no
/// client has it.
pub fn owner_of(records: &[Record], handle: u32) -> Option<(u32, bool)>
    ensures { result ≡ owner_in (items_of records.now) handle }
{
    let record = records.get(number_of(handle))?;
    if record.handle != handle {
        return None;
    }
    record.owner()
}

/// Whether there is a session with the number of a handle.
pub fn has_number(records: &[Record], handle: u32) -> bool
    ensures { result ≡ is_some (item_at (items_of records.now) (number_of_session handle)) }
{
    match records.get(number_of(handle)) {
        Some(record) => record.is_active(),
        None => false,
    }
}

/// The handle of the session of this client that has the least number; `None` if it has none.
pub fn find_owned(records: &[Record], client: u32) -> Option<u32>
    requires { (contexts : ContextLimits) × AreRecords contexts records.now }
    ensures { MatchOption result (list_any (is_owned client) (items_of records.now) ≡ false)
        (λ handle. Names (items_of records.now) handle
        × (is_owner client (owner_in (items_of records.now) handle) ≡ true)
        × ((lower : ℕ) → lower < number_of_session handle
        → is_owned client (item_at (items_of records.now) lower) ≡ false)) }
{
    for record in records {
        if record.is_of(client) {
            return Some(record.handle);
        }
    }
    None
}

/// The handle of an orphan; `None` if there is none.
pub fn find_orphan(records: &[Record]) -> Option<u32>
    requires { (contexts : ContextLimits) × AreRecords contexts records.now }
    ensures { MatchOption result (list_any is_orphan (items_of records.now) ≡ false)
        (λ handle. Names (items_of records.now) handle
        × (is_orphan (item_at (items_of records.now) (number_of_session handle)) ≡ true)) }
{
    for record in records {
        if record.is_orphan() {
            return Some(record.handle);
        }
    }
    None
}

// The handle that stands in a context (Part 2, "TPMS_CONTEXT").
fn saved_handle(context: &[u8]) -> Option<u32>
    ensures { result ≡ word_at 8 context.now }
{
    if context.len() < 12 {
        return None;
    }
    Some(u32::from_be_bytes([context[8], context[9], context[10], context[11]]))
}

/// The handle of the session for which these bytes were handed out, if it is this client's or was
/// left; `None` if there is none.
pub fn find_handed(records: &[Record], client: u32, context: &[u8]) -> Option<u32>
    ensures { MatchOption result (may_take_back (items_of records.now) client context.now ≡ false)
        (λ handle. (word_at 8 context.now ≡ Some handle)
        × (is_handed_to client context.now (item_of (items_of records.now) handle) ≡ true)) }
{
    let handle = saved_handle(context)?;
    let record = records.get(number_of(handle))?;
    if record.handle != handle {
        return None;
    }
    if !record.is_handed_to(client, context) {
        return None;
    }
    Some(handle)
}

/// How far the number of the next context is above that of a session, if there is one that is
/// saved.
pub fn gap_above(records: &[Record], next: u64, number: Option<usize>) -> u64
    requires { IfSome number (λ n. n < length records.now) }
    ensures { result ≡ gap_from next (number_at (items_of records.now) number) }
{
    let Some(number) = number else {
        return 0;
    };
    match records[number].saved_number() {
        Some(last) => next.saturating_sub(last),
        None => 0,
    }
}
