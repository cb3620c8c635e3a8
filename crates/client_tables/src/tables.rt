ghost use Rattle.std.specs.Prelude.{◌≡◌, ◌+◌, ◌≤◌, ◌<◌, ℕ, [], ◌∷◌, ◌++◌, false, IsTrue};
ghost use Rattle.std.specs.Prelude.{OnOk, OnErr, get_or, length, set};
ghost use Rattle.std.specs.Borrow.{sem};
ghost use Rattle.history_spec.specs.declared.TheConstants.{MOST_CLIENTS};
ghost use Rattle.history_spec.specs.Entry.{without};
ghost use Rattle.client_tables.specs.Kept.{is_among};
ghost use Rattle.client_tables.specs.Lent.{LendsTable};

use crate::open_client::OpenClient;
use std::alloc::{AllocError, Global};
use std::collections::HashMap;
use std::marker::Model;
use virtual_handles::ClientTable;

/// The tables of the open clients, by number, and beside each table the number of the list that the
/// client's objects stand in. Both are taken out when the client is closed, and nothing is kept of
/// it then.
///
/// A client is found by the hash of its number, so that no call but `reserve` goes over the others.
/// Memory is taken by `reserve` alone, which then moves all that is kept.
#[derive(Drop)]
pub struct ClientTables {
    // The open clients, by number.
    clients: HashMap<u32, OpenClient>,
    // How many clients were opened.
    opened: u32,
    alloc: Global,
}

impl Model for ClientTables {
    ghost use Rattle.std.specs.Prelude.{nat_eq};
    ghost use Rattle.std.specs.HashMap.{get, spare as room};
    ghost use Rattle.client_tables.specs.View.{TablesView};
    ghost use Rattle.client_tables.specs.Kept.{view_of};

    ghost Value = { TablesView };

    ghost view = { λ t. view_of (get nat_eq t.clients) t.opened (room t.clients) };
}

impl ClientTables {
    /// No client was opened. It takes no memory.
    pub fn new(alloc: Global) -> ClientTables
        ensures items { result.items ≡ [] }
        ensures lists { result.lists ≡ [] }
        ensures present { result.present ≡ [] }
    {
        ClientTables {
            clients: HashMap::new(alloc),
            opened: 0,
            alloc,
        }
    }

    /// How many clients were opened.
    pub fn len(&self) -> u32
        ensures count { result ≡ length self.now.items }
        // A client that isn't open holds nothing.
        ensures closed { (client : ℕ) → is_among client self.now.present ≡ false
            → get_or self.now.items client [] ≡ [] }
    {
        self.opened
    }

    /// Takes memory for one more open client, where it isn't there yet. It fails only for want of
    /// memory, and nothing changes then.
    pub fn reserve(&mut self) -> Result<(), AllocError>
        ensures ok { OnOk result (1 ≤ self.new.spare) }
        ensures err { OnErr result (self.old.spare ≡ 0) }
        ensures items { self.new.items ≡ self.old.items }
        ensures lists { self.new.lists ≡ self.old.lists }
        ensures present { self.new.present ≡ self.old.present }
        ensures spare { self.old.spare ≤ self.new.spare }
    {
        self.clients.reserve(1)
    }

    /// Opens the next client, which holds nothing and has the list of this number, and gives the
    /// client's number. There is room for it. It takes no memory.
    pub fn open(&mut self, list: u32) -> u32
        requires room { 1 ≤ self.old.spare }
        requires few { length self.old.items < MOST_CLIENTS }
        ensures number { result ≡ length self.old.items }
        ensures items { self.new.items ≡ self.old.items ++ [] ∷ [] }
        ensures lists { self.new.lists ≡ self.old.lists ++ list ∷ [] }
        ensures present { self.new.present ≡ self.old.present ++ result ∷ [] }
        ensures spare { self.old.spare ≤ self.new.spare + 1 }
    {
        let number = self.opened;
        let table = ClientTable::new(self.alloc);
        // This can't fail where there is room.
        let put: Result<_, _> = self.clients.insert(number, OpenClient { table, list });
        put.unwrap();
        self.opened += 1;
        number
    }

    /// The table of an open client.
    pub fn table(&self, client: u32) -> &ClientTable
        requires { IsTrue (is_among client self.now.present) }
        ensures { result.now.items ≡ get_or self.now.items client [] }
    {
        &self.clients[&client].table
    }

    /// The table of an open client, to change it.
    pub fn table_mut(&mut self, client: u32) -> &mut ClientTable
        requires { IsTrue (is_among client self.old.present) }
        ensures* writes_back { sem 𝓛 (LendsTable self.entry client result) }
        ensures value { result.now.items ≡ get_or self.old.items client [] }
    {
        let kept = self.clients.get_mut(&client).unwrap();
        &mut kept.table
    }

    /// The number of the list of an open client.
    pub fn list(&self, client: u32) -> u32
        requires { IsTrue (is_among client self.now.present) }
        ensures { result ≡ get_or self.now.lists client 0 }
    {
        self.clients[&client].list
    }

    /// Closes an open client, which holds nothing afterwards, and gives the number of the list that
    /// it had. There is no less room than before.
    pub fn close(&mut self, client: u32) -> u32
        requires { IsTrue (is_among client self.old.present) }
        ensures list { result ≡ get_or self.old.lists client 0 }
        ensures items { self.new.items ≡ set self.old.items client [] }
        ensures lists { self.new.lists ≡ set self.old.lists client 0 }
        ensures present { self.new.present ≡ without client self.old.present }
        ensures spare { self.old.spare ≤ self.new.spare }
    {
        self.clients.remove(&client).unwrap().list
    }
}
