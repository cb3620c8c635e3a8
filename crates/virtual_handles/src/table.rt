ghost use Rattle.std.specs.Prelude.{◌≡◌, ◌+◌, ◌-◌, ◌≤◌, ◌<◌, [], false, None, Some, OnOk, OnErr};
ghost use Rattle.std.specs.Prelude.{vec_len, vec_capacity, if◌then◌else◌};
ghost use Rattle.history_spec.specs.Table.{is_full, next_handle, put_least, held_under};
ghost use Rattle.history_spec.specs.Table.{without_handle, count_held, handle_from, least_free};
ghost use Rattle.history_spec.specs.Table.{number_of_object};

use crate::blocks::{BLOCK, BLOCKS, first_free, first_taken};
use history_spec::CLIENT_OBJECTS;
use std::alloc::{AllocError, Global};
use std::marker::Model;
use tab_spec::TRANSIENT_FIRST;

/// What a client holds: for each handle of a transient object the item that stands for it, which is
/// the number of something that its owner keeps.
///
/// A client has at most 4,096 objects. Their handles are 0x80000000 to 0x80000FFF (Part 1,
/// "Handles"; Part 2, "TPM_HC"), and a new object gets the least that the client doesn't hold. No
/// call walks over the objects: each looks at no more than 64 counts and 128 places. Only where
/// `reserve` takes memory does it move all that there is, each time to twice the room.
#[derive(Drop)]
pub struct ClientTable {
    // The item of each number, up to the largest that was taken so far.
    places: Vec<Option<u32>>,
    // How many places of each block are taken.
    taken: [u8; BLOCKS],
    // How many places are taken.
    held: u32,
}

impl Model for ClientTable {
    ghost use Rattle.std.specs.Prelude.{◌-◌, vec_len, vec_capacity};
    ghost use Rattle.virtual_handles.specs.View.{TableView};
    ghost use Rattle.virtual_handles.specs.Blocks.{PlacesAreCounted};

    ghost Value = { TableView };

    ghost view = { λ t. record {
      items = t.places.items;
      spare = vec_capacity t.places - vec_len t.places;
    } };

    ghost invariant = { λ t. PlacesAreCounted t.places.items t.taken t.held };
}

impl ClientTable {
    /// The table of a client that holds nothing. It takes no memory.
    pub fn new(alloc: Global) -> ClientTable
        ensures { result.items ≡ [] }
    {
        ClientTable {
            places: Vec::new(alloc),
            taken: [0; BLOCKS],
            held: 0,
        }
    }

    /// How many objects the client has, 0 to 4,096.
    pub fn len(&self) -> u32
        ensures count { result ≡ count_held self.now.items }
        ensures most { result ≤ CLIENT_OBJECTS }
    {
        self.held
    }

    /// The handle that a new object gets, the least that the client doesn't hold; `None` if it has
    /// as many objects as it may.
    pub fn least(&self) -> Option<u32>
        ensures { result
            ≡ (if is_full self.now.items then None else Some (next_handle self.now.items)) }
    {
        if self.held >= CLIENT_OBJECTS {
            return None;
        }
        let number = first_free(&self.places, &self.taken);
        Some(TRANSIENT_FIRST + number as u32)
    }

    /// Takes memory for one more object, where it isn't there yet. It fails only for want of
    /// memory, and nothing changes then.
    pub fn reserve(&mut self) -> Result<(), AllocError>
        ensures ok { OnOk result (1 ≤ self.new.spare) }
        ensures err { OnErr result (self.old.spare ≡ 0) }
        ensures same { self.new.items ≡ self.old.items }
        ensures spare { self.old.spare ≤ self.new.spare }
    {
        self.places.reserve(1)
    }

    /// Adds an object with this item, and gives its handle, the least that the client didn't hold.
    /// There is room for it, and the client has fewer objects than it may. It takes no memory.
    pub fn add(&mut self, item: u32) -> u32
        requires room { 1 ≤ self.old.spare }
        requires open { is_full self.old.items ≡ false }
        ensures items { self.new.items ≡ put_least item self.old.items }
        ensures handle { result ≡ next_handle self.old.items }
        ensures spare { self.old.spare ≤ self.new.spare + 1 }
    {
        let number = first_free(&self.places, &self.taken);
        put(&mut self.places, number, item);
        self.taken[number / BLOCK] += 1;
        self.held += 1;
        TRANSIENT_FIRST + number as u32
    }

    /// The item that stands for a handle; `None` if the client doesn't hold it.
    pub fn find(&self, handle: u32) -> Option<u32>
        ensures { result ≡ held_under self.now.items handle }
    {
        item_under(&self.places, handle)
    }

    /// Takes an object out, and returns its item; `None` if the client doesn't hold this handle.
    pub fn remove(&mut self, handle: u32) -> Option<u32>
        ensures item { result ≡ held_under self.old.items handle }
        ensures items { self.new.items ≡ without_handle self.old.items handle }
        ensures spare { self.old.spare ≤ self.new.spare }
    {
        let item = item_under(&self.places, handle)?;
        let number = number_of(handle);
        self.places[number] = None;
        self.taken[number / BLOCK] -= 1;
        self.held -= 1;
        Some(item)
    }

    /// The least handle that the client holds and that isn't below this one.
    pub fn from(&self, handle: u32) -> Option<u32>
        ensures { result ≡ handle_from self.now.items handle }
    {
        let number = first_taken(&self.places, &self.taken, number_of(handle))?;
        Some(TRANSIENT_FIRST + number as u32)
    }
}

// The number of a handle, from 0; 0 for a handle below those of objects.
fn number_of(handle: u32) -> usize
    ensures { result ≡ number_of_object handle }
{
    handle.saturating_sub(TRANSIENT_FIRST) as usize
}

// The item under a handle.
fn item_under(places: &[Option<u32>], handle: u32) -> Option<u32>
    ensures { result ≡ held_under places.now handle }
{
    if handle < TRANSIENT_FIRST {
        return None;
    }
    match places.get(number_of(handle)) {
        Some(place) => *place,
        None => None,
    }
}

// Puts an item into the first free place, which is this one. Where it is a new place, there is room
// for it.
fn put(places: &mut Vec<Option<u32>>, number: usize, item: u32)
    requires least { number ≡ least_free places.old.items }
    requires room { vec_len places.old < vec_capacity places.old }
    ensures items { places.new.items ≡ put_least item places.old.items }
    ensures spare { vec_capacity places.old - vec_len places.old
        ≤ vec_capacity places.new - vec_len places.new + 1 }
{
    if number < places.len() {
        places[number] = Some(item);
    } else {
        places.push(Some(item)).unwrap();
    }
}
