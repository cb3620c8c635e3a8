ghost use Rattle.std.specs.Prelude.{◌≡◌, ◌≤◌, ◌<◌, ◌+◌, ◌*◌, ◌-◌, ◌⊎◌, ◌==◌, [], ◌∷◌, ◌++◌, List};
ghost use Rattle.std.specs.Prelude.{ℕ, Some, None, length, set, true, false, Ok, IfOk, OnOk, OnErr};
ghost use Rattle.std.specs.Prelude.{MatchOption};
ghost use Rattle.std.specs.List.{list_any};
ghost use Rattle.tab_spec.specs.declared.TheConstants.{HT_TRANSIENT, TRANSIENT_FIRST};
ghost use Rattle.tab_spec.specs.Shape.{octet_of};
ghost use Rattle.device_spec.specs.ContextCommands.{flush_context_command};
ghost use Rattle.device_port.specs.Own.{Asks, AsksSome};
ghost use Rattle.object_swap.specs.Items.{AreNeeded, DropsObject, FindsFirst, HasNone, HasSlots};
ghost use Rattle.object_swap.specs.Items.{HaveSlots, KeepsRest, KeepsSlots, LosesOrphan, MakesRoom};
ghost use Rattle.object_swap.specs.Items.{MayMove, Moved, Names, OrphansObject, Stand, handle_in};
ghost use Rattle.object_swap.specs.Items.{has_free_list, has_list, is_resident, is_vacant, item_at};
ghost use Rattle.object_swap.specs.Items.{keeps_context, new_item, no_item, owner_at, residents};
ghost use Rattle.object_swap.specs.declared.TheConstants.{PLACES_MOST};

use crate::PLACES_MOST;
use crate::lists::{Uncounted, Visits, release};
use crate::moves::flush;
use crate::owners::Owners;
use crate::record::Record;
use crate::residents::{any_keeps, swap_objects};
use crate::vacant::{list_last, unlist};
use device_port::{Device, SwapError};
use linked_records::{Records, Steps};
use std::alloc::{AllocError, Global};
use std::marker::Model;
use std::sync::ledger::Ledger;
use tab_bytes::Buffer;
use tab_spec::ContextLimits;

/// The objects of all clients: more of them than the device has slots. Each is in a slot, in a
/// context that the device made of it, or in both. Contracts see the items, by index. A vacant item
/// is in neither, and another object may take its place. Each client has a list of its objects. Of
/// orphans only the slots are kept, apart from the items.
#[derive(Drop)]
pub struct Objects {
    alloc: Global,
    records: Vec<Record>,
    // How many of the records are vacant.
    vacant: u32,
    // The indices of the records of each client, and the owner of each of these lists, if it has
    // one.
    lists: Records<()>,
    owners: Owners,
    // The indices of the records that are in a slot, the least recently used first.
    loaded: Vec<u32>,
    // The device's handles of the orphans.
    left: Vec<u32>,
    slots: u8,
    // What the contexts of the device may be. Each record has room for the largest of an object.
    contexts: ContextLimits,
}

impl Model for Objects {
    ghost use Rattle.std.specs.Prelude.{vec_capacity};
    ghost use Rattle.object_swap.specs.Items.{ObjectsView};
    ghost use Rattle.object_swap.specs.Records.{ObjectsHold, view_with};

    ghost Value = { ObjectsView };

    ghost view = { λ o. view_with o.records.items o.loaded.items o.slots
        o.owners.owners o.left.items o.contexts };

    ghost invariant = { λ o. ObjectsHold o.contexts o.records.items o.lists o.owners.owners o.vacant
        o.loaded.items o.left.items (vec_capacity o.loaded) (vec_capacity o.left) o.slots };
}

impl Objects {
    /// The objects of a device with so many slots, whose contexts may be these: none yet.
    pub fn new(alloc: Global, slots: u8, contexts: ContextLimits) -> Result<Objects, AllocError>
        ensures { IfOk result (λ o. o ≡ record {
          items = [];
          slots = slots;
          order = [];
          owners = [];
          left = [];
          contexts = contexts;
        }) }
    {
        let lists = Records::new(alloc, 0)?;
        let left = Vec::with_capacity(alloc, usize::from(slots))?;
        Ok(Objects {
            alloc,
            records: Vec::new(alloc),
            vacant: 0,
            lists,
            owners: Owners::new(alloc),
            loaded: Vec::new(alloc),
            left,
            slots,
            contexts,
        })
    }

    /// Gives a client a list for its objects, a free one or a new one, and returns its number. Only
    /// a new list takes memory. It fails only if no list is free, for want of memory or because
    /// there are 2,147,483,648 lists already. An error changes nothing.
    pub fn add_client(&mut self, client: u32) -> Result<u32, AllocError>
        requires new { has_list self.old.owners client ≡ false }
        ensures owner { IfOk result (λ list. owner_at self.new.owners list ≡ Some client) }
        ensures again { has_free_list self.old.owners ≡ true → IfOk result (λ list.
            (list < length self.old.owners) × (owner_at self.old.owners list ≡ None)
            × (self.new ≡ record self.old
            { owners = set self.old.owners list (Some client) })) }
        ensures more { has_free_list self.old.owners ≡ false → IfOk result (λ list.
            (list ≡ length self.old.owners)
            × (self.new ≡ record self.old { owners = self.old.owners ++ Some client ∷ [] })) }
        ensures err { OnErr result (self.new ≡ self.old) }
        ensures none { OnErr result (has_free_list self.old.owners ≡ false) }
    {
        if let Some(list) = self.owners.take_free(client) {
            return Ok(list);
        }
        if self.owners.len() >= PLACES_MOST as usize {
            return Err(AllocError);
        }
        self.owners.reserve()?;
        let list = self.lists.add_list()?;
        self.owners.push(client);
        Ok(list)
    }

    /// Frees the list of a client that is closed and has no object left.
    pub fn end_client(&mut self, list: u32)
        requires { (client : ℕ) × (owner_at self.old.owners list ≡ Some client)
            × HasNone self.old.items client }
        ensures { self.new ≡ record self.old { owners = set self.old.owners list None } }
    {
        self.owners.end(list);
    }

    /// Takes memory for one more object, if there is none yet. It fails only if no place is vacant,
    /// for want of memory or because there are 2,147,483,648 places already. An error changes
    /// nothing.
    pub fn reserve(&mut self) -> Result<(), AllocError>
        ensures most { length self.old.items ≤ PLACES_MOST → length self.new.items ≤ PLACES_MOST }
        ensures ok { OnOk result (list_any is_vacant self.new.items ≡ true) }
        ensures same { (self.new.items ≡ self.old.items)
            ⊎ (list_any is_vacant self.old.items ≡ false)
            × (self.new.items ≡ self.old.items ++ no_item ∷ []) }
        ensures rest { self.new ≡ record self.old { items = self.new.items } }
        ensures err { OnErr result (self.new ≡ self.old) }
        ensures grows { OnErr result (list_any is_vacant self.old.items ≡ false) }
    {
        if self.vacant > 0 {
            return Ok(());
        }
        if self.records.len() >= PLACES_MOST as usize {
            return Err(AllocError);
        }
        let count = self.records.len() + 1;
        self.lists.reserve()?;
        self.loaded.reserve(count - self.loaded.len())?;
        let blob = Vec::with_capacity(self.alloc, usize::from(self.contexts.object_bytes))?;
        self.records.push(Record {
            client: None,
            handle: None,
            blob,
            kept: false,
        })?;
        self.vacant = 1;
        Ok(())
    }

    /// Brings all of these objects into slots, and frees so many slots. If that is so already, it
    /// sends nothing. Others leave their slots only to make room, the least recently used first:
    /// each is saved, unless a context of it is kept, and flushed. Then what is needed is loaded
    /// (Part 3, "TPM2_ContextSave", "TPM2_FlushContext", "TPM2_ContextLoad"), and counts as used.
    /// After an error the same objects stand.
    pub fn make_objects<D: Device>(
        &mut self,
        device: &mut D,
        needed: &[u32],
        new_slots: u8,
        scratch: &mut Buffer,
    ) -> Result<(), SwapError>
        requires needed { AreNeeded needed.now new_slots self.old }
        requires contexts { self.old.contexts ≡ D.CONTEXTS }
        requires may { MayMove (D.seen device.old).state self.old.slots }
        requires nobodys { self.old.left ≡ [] }
        requires stand { Stand (D.seen device.old).state self.old.items [] }
        ensures ok { OnOk result
            (HaveSlots needed.now new_slots (D.seen device.new).state self.new) }
        ensures stay { KeepsSlots needed.now self.old.items self.new.items }
        ensures moved { Moved D.seen device.old device.new self.old self.new }
        ensures room { MakesRoom D.seen device.old device.new
            needed.now new_slots self.old self.new result }
        ensures asks { AsksSome D.CONTEXTS D.seen device.old device.new result }
    {
        swap_objects(
            &mut self.records,
            &mut self.loaded,
            needed,
            self.slots,
            new_slots,
            device,
            scratch,
        )
    }

    /// The device's handle of an object; `None` if it is in no slot.
    pub fn slot_of(&self, item: u32) -> Option<u32>
        ensures { result ≡ handle_in (item_at self.now.items item).slot }
    {
        let index = item as usize;
        if index >= self.records.len() {
            return None;
        }
        self.records[index].handle
    }

    /// Holds a new object, which is in the slot of this handle, for the client of this list, and
    /// returns its index. The object counts as used. It takes no memory.
    pub fn adopt(&mut self, client: u32, list: u32, handle: u32) -> u32
        requires list { owner_at self.old.owners list ≡ Some client }
        requires room { list_any is_vacant self.old.items ≡ true }
        requires slot { residents self.old.items + length self.old.left < self.old.slots }
        requires handle { (octet_of handle == HT_TRANSIENT) ≡ true }
        ensures inside { result < length self.old.items }
        ensures vacant { is_vacant (item_at self.old.items result) ≡ true }
        ensures held { self.new ≡ record self.old {
          items = set self.old.items result (new_item client (handle - TRANSIENT_FIRST));
          order = self.old.order ++ result ∷ [];
        } }
    {
        let item = self.lists.insert_back(list, ());
        self.vacant -= 1;
        let record = &mut self.records[item as usize];
        record.client = Some(client);
        record.handle = Some(handle);
        list_last(&mut self.loaded, item);
        item
    }

    /// An object of the client of a list; `None` if it has none.
    pub fn first(&self, list: u32) -> Option<u32>
        requires { (client : ℕ) × (owner_at self.now.owners list ≡ Some client) }
        ensures { FindsFirst self.now list result }
    {
        self.first_by(list, &mut Uncounted)
    }

    /// `first`, with a count of the records that it visits: one, or none if the client has none.
    pub fn first_counted<L: Ledger>(&self, list: u32, steps: &mut Steps<L>) -> Option<u32>
        requires { (client : ℕ) × (owner_at self.now.owners list ≡ Some client) }
        ensures first { FindsFirst self.now list result }
        ensures steps { MatchOption result
            (steps.new ≡ steps.old) (λ item. steps.new ≡ steps.old + 1) }
    {
        self.first_by(list, steps)
    }

    /// Whether these bytes are a context that is kept for an object of any client. It goes over all
    /// objects.
    pub fn keeps_context(&self, context: &[u8]) -> bool
        ensures { result ≡ keeps_context self.now.items context.now }
    {
        any_keeps(&self.records, context)
    }

    /// Forgets an object. If the object is in a slot, it is flushed (Part 3, "TPM2_FlushContext");
    /// if not, nothing is sent. An error changes nothing.
    pub fn drop_object<D: Device>(
        &mut self,
        device: &mut D,
        item: u32,
        scratch: &mut Buffer,
    ) -> Result<(), SwapError>
        requires named { Names self.old.items item }
        requires numbers { HasSlots (D.seen device.old).state self.old.slots }
        requires stand { (others : List ℕ) × Stand (D.seen device.old).state self.old.items others }
        ensures { DropsObject D.CONTEXTS D.seen device.old device.new item
            self.old self.new result }
    {
        self.drop_by(device, item, scratch, &mut Uncounted)
    }

    /// `drop_object`, which visits two to five records, and one or two where it fails.
    pub fn drop_object_counted<D: Device, L: Ledger>(
        &mut self,
        device: &mut D,
        item: u32,
        scratch: &mut Buffer,
        steps: &mut Steps<L>,
    ) -> Result<(), SwapError>
        requires named { Names self.old.items item }
        requires numbers { HasSlots (D.seen device.old).state self.old.slots }
        requires stand { (others : List ℕ) × Stand (D.seen device.old).state self.old.items others }
        ensures drops { DropsObject D.CONTEXTS D.seen device.old device.new item
            self.old self.new result }
        ensures steps { OnOk result (steps.old + 2 ≤ steps.new)
            × (steps.new ≤ steps.old + 5) }
        ensures few { OnErr result ((steps.old + 1 ≤ steps.new)
            × (steps.new ≤ steps.old + 2)) }
    {
        self.drop_by(device, item, scratch, steps)
    }

    /// Makes an object an orphan: its client is closed, and its flush failed. Its record is free.
    pub fn orphan_object(&mut self, item: u32)
        requires named { Names self.old.items item }
        requires slot { is_resident (item_at self.old.items item) ≡ true }
        ensures { OrphansObject item self.old self.new }
    {
        self.orphan_by(item, &mut Uncounted);
    }

    /// `orphan_object`, which visits one to three records.
    pub fn orphan_object_counted<L: Ledger>(&mut self, item: u32, steps: &mut Steps<L>)
        requires named { Names self.old.items item }
        requires slot { is_resident (item_at self.old.items item) ≡ true }
        ensures left { OrphansObject item self.old self.new }
        ensures steps { (steps.old + 1 ≤ steps.new) × (steps.new ≤ steps.old + 3) }
    {
        self.orphan_by(item, steps);
    }

    /// How many orphans are in slots.
    pub fn orphans(&self) -> u8
        ensures { result ≡ length self.now.left }
    {
        // There are no more of them than slots.
        let count = self.left.len();
        prove!(count <= usize::from(self.slots));
        count as u8
    }

    /// A law: a place without a client is vacant. It does nothing when it runs.
    pub fn show_vacant(&self)
        ensures { (index : ℕ) → (item_at self.now.items index).client ≡ None
            → is_vacant (item_at self.now.items index) ≡ true }
    {
        let _slots = self.slots;
    }

    /// Flushes one orphan, if there is one (Part 3, "TPM2_FlushContext"), and returns whether there
    /// was. If there is none, nothing is sent. An error changes nothing.
    pub fn flush_orphan<D: Device>(
        &mut self,
        device: &mut D,
        scratch: &mut Buffer,
    ) -> Result<bool, SwapError>
        requires stand { Stand (D.seen device.old).state self.old.items self.old.left }
        ensures none { IfOk result (λ some. some ≡ false → (self.old.left ≡ [])
            × (self.new ≡ self.old) × (device.new ≡ device.old)) }
        ensures flushed { IfOk result (λ some. some ≡ true → LosesOrphan
            (D.seen device.old).state (D.seen device.new).state self.old self.new) }
        ensures err { OnErr result ((self.new ≡ self.old)
            × ((D.seen device.new).state ≡ (D.seen device.old).state)) }
        ensures some { OnErr result (1 ≤ length self.old.left) }
        // If there are orphans, exactly one FlushContext is sent, of the handle of the last one.
        ensures sent { (left : List ℕ) (slot : ℕ) → self.old.left ≡ left ++ slot ∷ []
            → Asks D.CONTEXTS D.seen device.old device.new
            (flush_context_command (TRANSIENT_FIRST + slot)) result }
        ensures rest { KeepsRest D.seen device.old device.new }
        ensures asks { AsksSome D.CONTEXTS D.seen device.old device.new result }
    {
        let Some(handle) = self.left.last() else {
            return Ok(false);
        };
        flush(device, *handle, scratch)?;
        self.left.pop();
        Ok(true)
    }
}

impl Objects {
    /// `first`, which counts in `steps` the records that it visits.
    pub fn first_by<C: Visits>(&self, list: u32, steps: &mut C) -> Option<u32>
        requires { (client : ℕ) × (owner_at self.now.owners list ≡ Some client) }
        ensures first { FindsFirst self.now list result }
        ensures steps { MatchOption result (C.count steps.new ≡ C.count steps.old)
            (λ item. C.count steps.new ≡ C.count steps.old + C.weight) }
        ensures few { C.count steps.new ≤ C.count steps.old + 1 }
    {
        steps.first(&self.lists, list)
    }

    /// `drop_object`, which counts in `steps` the records that it visits.
    pub fn drop_by<D: Device, C: Visits>(
        &mut self,
        device: &mut D,
        item: u32,
        scratch: &mut Buffer,
        steps: &mut C,
    ) -> Result<(), SwapError>
        requires named { Names self.old.items item }
        requires numbers { HasSlots (D.seen device.old).state self.old.slots }
        requires stand { (others : List ℕ) × Stand (D.seen device.old).state self.old.items others }
        ensures drops { DropsObject D.CONTEXTS D.seen device.old device.new item
            self.old self.new result }
        ensures steps { OnOk result (C.count steps.old + 2 * C.weight ≤ C.count steps.new)
            × (C.count steps.new ≤ C.count steps.old + 5) }
        ensures few { OnErr result ((C.count steps.old + C.weight ≤ C.count steps.new)
            × (C.count steps.new ≤ C.count steps.old + 2)) }
    {
        let Some(handle) = steps.look_up(&self.records, item).handle else {
            release(
                &mut self.records,
                &mut self.lists,
                &mut self.vacant,
                item,
                steps,
            );
            return Ok(());
        };
        flush(device, handle, scratch)?;
        unlist(&mut self.loaded, item);
        release(
            &mut self.records,
            &mut self.lists,
            &mut self.vacant,
            item,
            steps,
        );
        Ok(())
    }

    /// `orphan_object`, which counts in `steps` the records that it visits.
    pub fn orphan_by<C: Visits>(&mut self, item: u32, steps: &mut C)
        requires named { Names self.old.items item }
        requires slot { is_resident (item_at self.old.items item) ≡ true }
        ensures left { OrphansObject item self.old self.new }
        ensures steps { (C.count steps.old + C.weight ≤ C.count steps.new)
            × (C.count steps.new ≤ C.count steps.old + 3) }
    {
        let handle = self.records[item as usize].handle.unwrap();
        unlist(&mut self.loaded, item);
        release(
            &mut self.records,
            &mut self.lists,
            &mut self.vacant,
            item,
            steps,
        );
        list_last(&mut self.left, handle);
    }
}
