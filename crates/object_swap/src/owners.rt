//! The owner of each list of objects.
ghost use Rattle.std.specs.Prelude.{◌≡◌, ◌≤◌, ◌<◌, [], ◌∷◌, ◌++◌, length, set, Some, None};
ghost use Rattle.std.specs.Prelude.{ℕ, false, MatchOption, OnErr, OnOk};
ghost use Rattle.object_swap.specs.Items.{has_free_list, owner_at};

use std::alloc::{AllocError, Global};
use std::marker::Model;

/// The owner of each list, if it has one. No call walks the lists.
#[derive(Drop)]
pub struct Owners {
    owners: Vec<Option<u32>>,
    // The numbers of the free lists, with room for the number of each list.
    free: Vec<u32>,
}

impl Model for Owners {
    ghost use Rattle.std.specs.Prelude.{◌-◌, length, min, vec_capacity};
    ghost use Rattle.object_swap.specs.Records.{ListsFree, OwnersView};

    ghost Value = { OwnersView };

    ghost view = { λ o. record {
      owners = o.owners.items;
      spare = min (vec_capacity o.owners) (vec_capacity o.free) - length o.owners.items;
    } };

    ghost invariant = { λ o. ListsFree o.owners.items o.free.items (vec_capacity o.free) };
}

impl Owners {
    /// No lists yet. It takes no memory.
    pub fn new(alloc: Global) -> Owners
        ensures { result.owners ≡ [] }
    {
        Owners {
            owners: Vec::new(alloc),
            free: Vec::new(alloc),
        }
    }

    /// How many lists there are.
    pub fn len(&self) -> usize
        ensures { result ≡ length self.now.owners }
    {
        self.owners.len()
    }

    /// Gives a client a free list, and returns its number; nothing changes if no list is free.
    pub fn take_free(&mut self, client: u32) -> Option<u32>
        ensures { MatchOption result
            ((has_free_list self.old.owners ≡ false) × (self.new.owners ≡ self.old.owners))
            (λ list. (list < length self.old.owners) × (owner_at self.old.owners list ≡ None)
            × (self.new.owners ≡ set self.old.owners list (Some client))) }
    {
        let list = self.free.pop()?;
        self.owners[list as usize] = Some(client);
        Some(list)
    }

    /// Takes memory for one more list, if there is none yet. It fails only if it has to take some.
    pub fn reserve(&mut self) -> Result<(), AllocError>
        ensures ok { OnOk result (1 ≤ self.new.spare) }
        ensures err { OnErr result (self.old.spare ≡ 0) }
        ensures owners { self.new.owners ≡ self.old.owners }
    {
        self.owners.reserve(1)?;
        self.free.reserve(self.owners.len() - self.free.len() + 1)
    }

    /// Adds a list for this client. It takes no memory.
    pub fn push(&mut self, client: u32)
        requires { 1 ≤ self.old.spare }
        ensures { self.new.owners ≡ self.old.owners ++ Some client ∷ [] }
    {
        self.owners.push_reserved(Some(client));
    }

    /// Frees a client's list. It takes no memory.
    pub fn end(&mut self, list: u32)
        requires { (client : ℕ) × (owner_at self.old.owners list ≡ Some client) }
        ensures { self.new.owners ≡ set self.old.owners list None }
    {
        self.owners[list as usize] = None;
        self.free.push_reserved(list);
    }
}
