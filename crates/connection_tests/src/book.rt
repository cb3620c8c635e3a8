//! The value of the tests: it keeps a history in memory, and there is no device.

ghost use Rattle.std.specs.Prelude.{◌≡◌, ◌≤◌, [], ◌++◌, ◌∷◌, false, length, IfOk};
ghost use Rattle.tab_spec.specs.declared.contexts.TheConstants.{PROFILE_CONTEXTS};
ghost use Rattle.connection_tests.specs.Book.{answer};

use broker_lock::{Closed, OpenClientError, Recorded, Serves, Told};
use history_spec::{ENTRY_BYTES, EntryKind};
use std::alloc::{AllocError, Global};
use std::marker::Model;
use tab_bytes::Buffer;
use tab_spec::{RC_CANCELED, RC_DEVICE_ANSWER, RC_JOURNAL_FULL};
use tab_wire::error_reply;

/// GetRandom of eight bytes (Part 3, "TPM2_GetRandom").
pub const ASKED: [u8; 12] = [0x80, 0x01, 0, 0, 0, 12, 0, 0, 0x01, 0x7b, 0, 8];

// What an entry of it takes at most: its own bytes, the largest reply, and the command.
const COMMAND_ROOM: u64 = 64 + 4096 + 12;

/// An entry.
#[derive(Clone, Copy)]
pub struct Item {
    pub client: u32,
    pub number: u64,
    pub kind: EntryKind,
    /// Of a command that was run, the last byte of its reply: the entry's place in the history. Of
    /// one that was canceled, 0.
    pub place: Option<u8>,
}

/// A history that answers GetRandom of eight bytes with the place of its entry, cancels it where
/// that is asked, and takes every other command as one that met a wrong answer: from then on each
/// call tells of that. Before, it says at each close that something is left.
#[derive(Drop)]
pub struct Book {
    items: Vec<Item>,
    opened: u32,
    present: u64,
    bytes: u64,
    limit: u32,
    is_wrong: bool,
}

impl Model for Book {
    ghost use Rattle.std.specs.Prelude.{◌*◌, ◌<◌, ◌≤◌, map, vec_capacity, vec_len};
    ghost use Rattle.connection_tests.specs.Book.{BookView, IsCounted, book_entry};

    ghost Value = { BookView };

    ghost view = { λ b. record {
      entries = map (λ i. book_entry i.client i.number i.kind i.place) b.items.items;
      limit = b.limit;
      wrong = b.is_wrong;
    } };

    // There is room for as many entries as the limit allows.
    ghost invariant = { λ b. IsCounted
        (map (λ i. book_entry i.client i.number i.kind i.place) b.items.items)
        b.opened b.present b.bytes b.limit
        × (64 * vec_len b.items ≤ b.bytes) × (b.limit < 64 * vec_capacity b.items) };
}

// Writes the reply that ends with this byte, over whatever the buffer holds.
fn write_answer(place: u8, reply: &mut Buffer)
    ensures { reply.new ≡ answer place }
{
    reply.clear();
    let bytes = [
        0x80, 0x01, 0, 0, 0, 20, 0, 0, 0, 0, 0, 8, 0, 0, 0, 0, 0, 0, 0, place,
    ];
    reply.put_bytes(&bytes).unwrap();
}

impl Book {
    /// An empty history, which takes all its memory here.
    pub fn new(alloc: Global, limit: u32) -> Result<Book, AllocError>
        ensures empty { IfOk result (λ b. b.entries ≡ []) }
        ensures limit { IfOk result (λ b. (b.limit ≡ limit) × (b.wrong ≡ false)) }
    {
        let most = limit as usize / ENTRY_BYTES as usize + 1;
        Ok(Book {
            items: Vec::with_capacity(alloc, most)?,
            opened: 0,
            present: 0,
            bytes: 0,
            limit,
            is_wrong: false,
        })
    }

    pub fn items(&self) -> &[Item] {
        &self.items
    }

    // Whether a command met a wrong answer.
    pub fn is_wrong(&self) -> bool {
        self.is_wrong
    }

    // Whether it has entries of these kinds.
    pub fn has_kinds(&self, kinds: &[EntryKind]) -> bool {
        if self.items.len() != kinds.len() {
            return false;
        }
        for i in 0..kinds.len() {
            if self.items[i].kind != kinds[i] {
                return false;
            }
        }
        true
    }

    // Whether a client that was told this place has its command of this number there.
    pub fn has_told(&self, client: u32, number: u64, place: u8) -> bool {
        match self.items.get(usize::from(place)) {
            Some(item) => item.client == client
                && item.number == number
                && item.place == Some(place),
            None => false,
        }
    }
}

impl Recorded for Book {
    ghost use Rattle.std.specs.Prelude.{None};

    ghost history = { λ b. b.entries };

    ghost legal = { λ _ _. ⊥ };

    ghost fixed = { λ b. record {
      base = None;
      limit = b.limit;
      began = 0;
      contexts = PROFILE_CONTEXTS;
    } };

    ghost wrong = { λ b. b.wrong };

    fn entries(&self) -> u64 {
        self.items.len() as u64
    }
}

impl Serves for Book {
    fn open_client(&mut self) -> Result<u32, OpenClientError> {
        if self.is_wrong {
            return Err(OpenClientError::Answer);
        }
        let reserved = self.bytes + ENTRY_BYTES * self.present;
        if reserved + 2 * ENTRY_BYTES > u64::from(self.limit) {
            return Err(OpenClientError::JournalFull {
                kept: self.bytes,
                limit: u64::from(self.limit),
            });
        }
        let client = self.opened;
        self.items.push_reserved(Item {
            client,
            number: 0,
            kind: EntryKind::Open,
            place: None,
        });
        self.opened += 1;
        self.present += 1;
        self.bytes += ENTRY_BYTES;
        Ok(client)
    }

    fn command(&mut self, client: u32, number: u64, bytes: &[u8], reply: &mut Buffer) -> Told {
        if self.is_wrong {
            error_reply(RC_DEVICE_ANSWER, reply);
            return Told::Answer;
        }
        if bytes != ASKED.as_slice() {
            self.is_wrong = true;
            error_reply(RC_DEVICE_ANSWER, reply);
            return Told::Answer;
        }
        let reserved = self.bytes + ENTRY_BYTES * self.present;
        if reserved + COMMAND_ROOM > u64::from(self.limit) {
            error_reply(RC_JOURNAL_FULL, reply);
            return Told::JournalFull {
                kept: self.bytes,
                limit: u64::from(self.limit),
            };
        }
        let place = (self.items.len() % 256) as u8;
        self.items.push_reserved(Item {
            client,
            number,
            kind: EntryKind::Command,
            place: Some(place),
        });
        self.bytes += ENTRY_BYTES + 32;
        write_answer(place, reply);
        Told::Entered
    }

    fn cancel(
        &mut self,
        client: u32,
        number: u64,
        bytes: &[u8],
        upto: u64,
        reply: &mut Buffer,
    ) -> Told {
        if self.is_wrong {
            error_reply(RC_DEVICE_ANSWER, reply);
            return Told::Answer;
        }
        if bytes != ASKED.as_slice() {
            self.is_wrong = true;
            error_reply(RC_DEVICE_ANSWER, reply);
            return Told::Answer;
        }
        let reserved = self.bytes + ENTRY_BYTES * self.present;
        if reserved + COMMAND_ROOM > u64::from(self.limit) {
            error_reply(RC_JOURNAL_FULL, reply);
            return Told::JournalFull {
                kept: self.bytes,
                limit: u64::from(self.limit),
            };
        }
        self.items.push_reserved(Item {
            client,
            number,
            kind: EntryKind::Canceled(upto),
            place: Some(0),
        });
        self.bytes += ENTRY_BYTES + 22;
        error_reply(RC_CANCELED, reply);
        Told::Entered
    }

    fn close_client(&mut self, client: u32) -> Closed {
        self.items.push_reserved(Item {
            client,
            number: 0,
            kind: EntryKind::Close,
            place: None,
        });
        self.present -= 1;
        self.bytes += ENTRY_BYTES;
        if self.is_wrong {
            return Closed::Answer;
        }
        Closed::Orphans(1)
    }

    fn show_legal(&self) {
        let _ = &self.items;
    }
}
