ghost use Rattle.std.specs.Prelude.{IsTrue};
ghost use Rattle.std.specs.Prelude.{◌≡◌, true, false, ◌≤◌, ◌<◌, ◌+◌, ◌*◌, ◌↔◌, ℕ, [], ◌∷◌, ◌++◌};
ghost use Rattle.std.specs.Prelude.{Some, None, Ok, Err, length};
ghost use Rattle.std.specs.Prelude.{IsSome, IfOk, IfErr, OnOk, OnErr, IfSome};
ghost use Rattle.tab_spec.specs.declared.TheConstants.{RC_CANCELED, RC_DEVICE_FAULT};
ghost use Rattle.tab_spec.specs.Numbers.{AreInRange};
ghost use Rattle.tab_spec.specs.Reply.{error_reply};
ghost use Rattle.device_spec.specs.Answers.{IsWrongAnswer};
ghost use Rattle.device_port.specs.Device.{asked_of, last_of, sent_of};
ghost use Rattle.device_start.specs.Start.{ClearedIf, HoldsNoMoreIf, IsStarted};
ghost use Rattle.session_swap.specs.Items.{no_items};
ghost use Rattle.client_machine.specs.Settled.{orphan_count};
ghost use Rattle.history_spec.specs.declared.TheConstants.{ENTRY_BYTES, SILENT_LIMIT};
ghost use Rattle.history_spec.specs.Entry.{open_entry, close_entry, canceled_entry, command_entry};
ghost use Rattle.history_spec.specs.Entry.{fault_entry, clients_of, HasRoom, HasRoomForClient};
ghost use Rattle.history_spec.specs.Entry.{IsLimit};
ghost use Rattle.history_spec.specs.Entry.{kept, IsOpen, IsNextNumber};
ghost use Rattle.history_spec.specs.declared.Pick.TheVariants.{Nothing};
ghost use Rattle.broker_lock.specs.declared.calls.OpenClientError.TheVariants as open_errors;
ghost use Rattle.broker_lock.specs.declared.calls.Told.TheVariants as tolds;
ghost use Rattle.broker_lock.specs.declared.calls.Closed.TheVariants as closes;
ghost use Rattle.broker_core.specs.Broker.{AnswersHold, AreWhole, Closes, Commands, FaultsCounted};
ghost use Rattle.broker_core.specs.Broker.{HasBeginCause, HoldsLeft, IsAtBase, IsReadyFor};
ghost use Rattle.broker_core.specs.Broker.{StandsAfterIf};
ghost use Rattle.broker_core.specs.Broker.{BrokerTellsCanceled, TellsNoRoom};
ghost use Rattle.broker_core.specs.Tables.{AddsList, with_owners};
ghost use Rattle.client_machine.specs.Costs.{own_objects};
ghost use Rattle.client_machine.specs.Moves as moves;
ghost use Rattle.client_machine.specs.Moves.{Keeps, tells_context};
ghost use Rattle.client_laws.specs.Ready.{tells_session};

use audit_journal::{Entry, Journal};
use broker_lock::{Closed, OpenClientError, Told};
use client_machine::{ClientView, Held, Machine, pick_of};
use client_tables::ClientTables;
use device_port::{Device, SwapError};
use device_start::{Lists, StartError, start};
use history_spec::{EntryKind, MOST_CLIENTS, Pick};
use linked_records::Steps;
use object_swap::{Objects, Uncounted, Visits};
use session_swap::Sessions;
use std::alloc::Global;
use std::marker::Model;
use std::sync::ledger::Ledger;
use tab_bytes::Buffer;
use tab_spec::{
    Admitted, RC_CANCELED, RC_DEVICE_ANSWER, RC_DEVICE_FAULT, RC_JOURNAL_FULL, RC_MEMORY,
};

/// Why a broker didn't begin.
#[derive(Clone, Copy)]
pub enum BeginError {
    /// A transmission failed; the device's fault count afterwards.
    Device(u64),
    /// The device gave a wrong answer; its code.
    Answer(u32),
    /// Memory lacked, either before anything was sent or once the device was started and flushed.
    Memory,
    /// One of the device's numbers is out of range: the property (Part 2, "TPM_PT") and its value.
    Numbers { property: u32, value: u32 },
}

/// The broker over a device: it runs the commands of many clients one at a time, holds their
/// objects and sessions, and keeps a journal of what happened. Each client has handles of its own
/// for its objects. There may be many more objects than the device has slots, and more sessions
/// than it has places for loaded ones. A broker has to be finished, since its device is handed
/// back.
pub struct Broker<D: Device> {
    machine: Machine<D>,
    pub(crate) journal: Journal,
    // The table of each open client, and the number of its list of objects. A closed client has
    // neither.
    tables: ClientTables,
    // How many clients are open.
    present: u64,
    wrong_code: Option<u64>,
    // The device's fault count before Startup was sent.
    pub(crate) began: u64,
}

impl<D: Device> Model for Broker<D> {
    ghost use Rattle.std.specs.Prelude.{◌≡◌};
    ghost use Rattle.history_spec.specs.Entry.{clients_of};
    ghost use Rattle.broker_core.specs.Broker.{BrokerView, Holds};

    ghost Value = { BrokerView D };

    ghost view = { λ b. record {
      device = b.machine.device;
      journal = b.journal.entries;
      limit = b.journal.limit;
      tables = b.tables.items;
      held = b.machine.held;
      wrong_code = b.wrong_code;
      began = b.began;
    } };

    // The tables that are kept are those of the open clients.
    ghost invariant = { λ b.
        Holds D.CONTEXTS b.began (D.seen b.machine.device) b.journal.entries b.journal.limit
        b.tables.items b.tables.lists b.machine.held b.present b.wrong_code
        × (b.tables.present ≡ (clients_of b.journal.entries).present) };
}

// Checks that the journal has room for the entry of a command with the largest reply, and for the
// close of each open client. If it hasn't, the reply says so.
fn find_room(journal: &Journal, present: u64, bytes: &[u8], reply: &mut Buffer) -> Result<(), Told>
    requires present { present ≡ length (clients_of journal.now.entries).present }
    requires most { journal.now.limit ≤ SILENT_LIMIT }
    ensures ok { OnOk result (HasRoom journal.now.limit journal.now.entries bytes.now
        × IsReadyFor journal.now bytes.now) }
    ensures err { IfErr result (λ told.
        TellsNoRoom told journal.now.limit journal.now.entries bytes.now reply.new) }
{
    if journal.room(bytes.len() as u64, present) {
        return Ok(());
    }
    tab_wire::error_reply(RC_JOURNAL_FULL, reply);
    Err(Told::JournalFull {
        kept: journal.kept(),
        limit: journal.limit(),
    })
}

// Whether the journal has room for one more client, and there is a number left for it.
fn has_room_for_client(journal: &Journal, present: u64, opened: u32) -> bool
    requires present { present ≡ length (clients_of journal.now.entries).present }
    requires opened { opened ≡ (clients_of journal.now.entries).opened }
    ensures { IsTrue result ↔ HasRoomForClient journal.now.limit journal.now.entries }
{
    if opened >= MOST_CLIENTS {
        return false;
    }
    journal.room_for_client(present)
}

// Answers a client's command with the code that refuses it, and adds its entry.
fn enter_refusal(
    journal: &mut Journal,
    client: u32,
    number: u64,
    code: u32,
    bytes: &[u8],
    reply: &mut Buffer,
)
    requires ready { IsReadyFor journal.old bytes.now }
    ensures reply { reply.new ≡ error_reply code }
    ensures entered { journal.new.entries ≡ journal.old.entries
        ++ command_entry client number Nothing bytes.now reply.new ∷ [] }
    ensures limit { journal.new.limit ≡ journal.old.limit }
{
    tab_wire::error_reply(code, reply);
    journal.push(&Entry {
        client,
        number,
        kind: EntryKind::Command,
        pick: Pick::Nothing,
        faults: 0,
        command: bytes,
        reply: reply.as_slice(),
    });
}

// Adds the entry of a client's command that was carried out, with its reply.
fn enter_reply(
    journal: &mut Journal,
    client: u32,
    number: u64,
    admitted: &Admitted,
    bytes: &[u8],
    reply: &Buffer,
)
    requires ready { IsReadyFor journal.old bytes.now }
    requires header { 10 ≤ length reply.now }
    requires long { tells_session admitted.now reply.now ≡ true → 14 ≤ length reply.now }
    requires context { tells_context admitted.now reply.now ≡ true → 18 ≤ length reply.now }
    ensures entered { journal.new.entries ≡ journal.old.entries
        ++ command_entry client number (moves.pick_of admitted.now reply.now)
        bytes.now reply.now ∷ [] }
    ensures limit { journal.new.limit ≡ journal.old.limit }
{
    journal.push(&Entry {
        client,
        number,
        kind: EntryKind::Command,
        pick: pick_of(admitted, reply.as_slice()),
        faults: 0,
        command: bytes,
        reply: reply.as_slice(),
    });
}

// Answers a client's command whose transmission failed, and adds its entry with the device's fault
// count.
fn enter_fault(
    journal: &mut Journal,
    client: u32,
    number: u64,
    faults: u64,
    bytes: &[u8],
    reply: &mut Buffer,
)
    requires ready { IsReadyFor journal.old bytes.now }
    ensures reply { reply.new ≡ error_reply RC_DEVICE_FAULT }
    ensures entered { journal.new.entries ≡ journal.old.entries
        ++ fault_entry client number faults bytes.now reply.new ∷ [] }
    ensures limit { journal.new.limit ≡ journal.old.limit }
{
    tab_wire::error_reply(RC_DEVICE_FAULT, reply);
    journal.push(&Entry {
        client,
        number,
        kind: EntryKind::Fault,
        pick: Pick::Nothing,
        faults,
        command: bytes,
        reply: reply.as_slice(),
    });
}

// Answers a client's command that was canceled, and adds its entry with the number up to which
// commands were canceled.
fn enter_canceled(
    journal: &mut Journal,
    client: u32,
    number: u64,
    upto: u64,
    bytes: &[u8],
    reply: &mut Buffer,
)
    requires ready { IsReadyFor journal.old bytes.now }
    ensures reply { reply.new ≡ error_reply RC_CANCELED }
    ensures entered { journal.new.entries ≡ journal.old.entries
        ++ canceled_entry client number upto bytes.now reply.new ∷ [] }
    ensures limit { journal.new.limit ≡ journal.old.limit }
{
    tab_wire::error_reply(RC_CANCELED, reply);
    journal.push(&Entry {
        client,
        number,
        kind: EntryKind::Canceled(upto),
        pick: Pick::Nothing,
        faults: 0,
        command: bytes,
        reply: reply.as_slice(),
    });
}

// Adds the entry of a client's close, for which the journal has room.
fn enter_close(journal: &mut Journal, client: u32)
    requires { kept journal.old.entries + ENTRY_BYTES ≤ journal.old.limit }
    ensures entered { journal.new.entries ≡ journal.old.entries ++ close_entry client ∷ [] }
    ensures limit { journal.new.limit ≡ journal.old.limit }
{
    journal.push(&Entry {
        client,
        number: 0,
        kind: EntryKind::Close,
        pick: Pick::Nothing,
        faults: 0,
        command: &[],
        reply: &[],
    });
}

impl<D: Device> Broker<D> {
    /// Starts the device, asks for its numbers, and flushes what an earlier broker left in it. The
    /// journal is empty, and keeps at most `limit` bytes, 8,192 to 1,073,741,824; with the limit
    /// 2^58 it only counts its entries. Memory for the journal is taken before anything is sent,
    /// and memory for objects and sessions once the device was started and flushed. An error hands
    /// the device back.
    pub fn begin(alloc: Global, device: D, limit: u64) -> Result<Broker<D>, (BeginError, D)>
        requires at_base { IsAtBase (D.seen device).base (D.seen device).state }
        requires limit { IsLimit limit }
        ensures empty { IfOk result
            (λ b. (b.journal ≡ []) × (b.tables ≡ []) × (b.held.objects.items ≡ [])
            × (b.held.sessions.items ≡ no_items) × (b.wrong_code ≡ None)) }
        ensures fixed { IfOk result (λ b. (b.began ≡ (D.seen device).faults) × (b.limit ≡ limit)) }
        // The device was asked for its numbers, and flushed of all that it listed.
        ensures started { IfOk result (λ b. IsStarted (D.seen device).trace (D.seen b.device).trace
            b.held.sessions.numbers × AreInRange b.held.sessions.numbers) }
        ensures numbers { IfOk result (λ b. IfSome (D.seen device).state
            (λ slots. slots.numbers ≡ b.held.sessions.numbers)) }
        ensures cleared { IfOk result
            (λ b. ClearedIf (D.seen device).state (D.seen b.device).state) }
        ensures keeps { IfOk result (λ b. Keeps D.seen device b.device) }
        ensures cause { IfErr result (λ e. HasBeginCause D.CONTEXTS D.seen e.0 device e.1) }
        // It holds no more than it did, and keeps what it kept.
        ensures keeps_err { IfErr result (λ e. Keeps D.seen device e.1
            × HoldsNoMoreIf (D.seen device).state (D.seen e.1).state) }
    {
        let mut device = device;
        let began = device.fault_count();
        let Ok(journal) = Journal::new(alloc, limit) else {
            return Err((BeginError::Memory, device));
        };
        let Ok(mut scratch) = Buffer::new(alloc) else {
            return Err((BeginError::Memory, device));
        };
        let Ok(translated) = Buffer::new(alloc) else {
            return Err((BeginError::Memory, device));
        };
        let Ok(mut lists) = Lists::new(alloc) else {
            return Err((BeginError::Memory, device));
        };
        let numbers = match start(&mut device, &mut lists, &mut scratch) {
            Ok(numbers) => numbers,
            Err(StartError::Unanswered(SwapError::Failed(_))) => {
                let count = device.fault_count();
                return Err((BeginError::Device(count), device));
            }
            Err(StartError::Unanswered(SwapError::Answer(code))) => {
                return Err((BeginError::Answer(code), device));
            }
            Err(StartError::Numbers { property, value }) => {
                return Err((BeginError::Numbers { property, value }, device));
            }
        };
        let Ok(objects) = Objects::new(alloc, numbers.slots, D::CONTEXTS) else {
            return Err((BeginError::Memory, device));
        };
        let Ok(sessions) = Sessions::new(alloc, numbers, D::CONTEXTS) else {
            return Err((BeginError::Memory, device));
        };
        Ok(Broker {
            machine: Machine {
                device,
                held: Held { objects, sessions },
                translated,
                scratch,
            },
            journal,
            tables: ClientTables::new(alloc),
            present: 0,
            wrong_code: None,
            began,
        })
    }

    /// Opens the next client, which holds nothing, gives it a list for its objects, and returns its
    /// number, from 0. An error changes nothing.
    pub fn open_client(&mut self) -> Result<u32, OpenClientError>
        ensures ok { IfOk result (λ client. (client ≡ (clients_of self.old.journal).opened)
            × HasRoomForClient self.old.limit self.old.journal × (self.new ≡ record self.old {
              journal = self.old.journal ++ open_entry client ∷ [];
              tables = self.old.tables ++ [] ∷ [];
              held = with_owners self.old.held self.new.held.objects.owners;
            })) }
        ensures lists { IfOk result
            (λ _. AddsList self.old.held.objects.owners self.new.held.objects.owners) }
        ensures err { OnErr result (self.new ≡ self.old) }
        ensures full { (count limit : ℕ) → result ≡ Err (open_errors.JournalFull count limit)
            → (HasRoomForClient self.old.limit self.old.journal → ⊥)
            × (count ≡ kept self.old.journal) × (limit ≡ self.old.limit) }
        ensures room { result ≡ Err open_errors.Memory
            → HasRoomForClient self.old.limit self.old.journal }
        ensures answer { (result ≡ Err open_errors.Answer) ↔ IsSome self.old.wrong_code }
    {
        if self.wrong_code.is_some() {
            return Err(OpenClientError::Answer);
        }
        let opened = self.tables.len();
        if !has_room_for_client(&self.journal, self.present, opened) {
            return Err(OpenClientError::JournalFull {
                kept: self.journal.kept(),
                limit: self.journal.limit(),
            });
        }
        if self.tables.reserve().is_err() {
            return Err(OpenClientError::Memory);
        }
        // It comes last, so that no list is left over.
        let Ok(list) = self.machine.held.objects.add_client(opened) else {
            return Err(OpenClientError::Memory);
        };
        let client = self.tables.open(list);
        self.journal.push(&Entry {
            client,
            number: 0,
            kind: EntryKind::Open,
            pick: Pick::Nothing,
            faults: 0,
            command: &[],
            reply: &[],
        });
        self.present += 1;
        Ok(client)
    }

    /// Runs a client's command, and overwrites `reply` with the reply to it. `number` counts the
    /// client's commands from 1. Handles of objects are the client's own (Part 1, "Handles"). Other
    /// clients see nothing of a command but its changes to what all share. After a wrong answer of
    /// the device the result is `Answer` for each command of any client. Only a command that makes
    /// an object takes memory, so no other can lack it.
    pub fn command(&mut self, client: u32, number: u64, bytes: &[u8], reply: &mut Buffer) -> Told
        requires present { IsOpen self.old.journal client }
        requires number { IsNextNumber self.old.journal client number }
        ensures { Commands D.CONTEXTS D.seen result self.old self.new client number
            bytes.now reply.new }
    {
        if self.wrong_code.is_some() {
            tab_wire::error_reply(RC_DEVICE_ANSWER, reply);
            return Told::Answer;
        }
        if let Err(told) = find_room(&self.journal, self.present, bytes, reply) {
            return told;
        }
        let seen = ClientView {
            client,
            contexts: D::CONTEXTS,
            table: self.tables.table(client),
            sessions: &self.machine.held.sessions,
        };
        let admitted = match tab_wire::admit_client(&seen, bytes) {
            Ok(admitted) => admitted,
            Err(code) => {
                enter_refusal(&mut self.journal, client, number, code, bytes, reply);
                return Told::Entered;
            }
        };
        let list = self.tables.list(client);
        let table = self.tables.table_mut(client);
        if self.machine.reserve(table, &admitted, bytes).is_err() {
            tab_wire::error_reply(RC_MEMORY, reply);
            return Told::Memory;
        }
        match self
            .machine
            .answer(table, client, list, &admitted, bytes, reply)
        {
            Ok(()) => {
                enter_reply(&mut self.journal, client, number, &admitted, bytes, reply);
                Told::Entered
            }
            Err(SwapError::Failed(_)) => {
                let faults = self.machine.device.fault_count();
                enter_fault(&mut self.journal, client, number, faults, bytes, reply);
                Told::Entered
            }
            Err(SwapError::Answer(code)) => {
                self.wrong_code = Some(u64::from(code));
                tab_wire::error_reply(RC_DEVICE_ANSWER, reply);
                Told::Answer
            }
        }
    }

    /// Answers a client's command that was canceled before it ran (0x909, `TPM_RC_CANCELED`), and
    /// overwrites `reply` with the reply to it. `upto` is the number up to which the client
    /// canceled its commands. The device isn't asked, and nothing changes but the journal. It takes
    /// no memory.
    pub fn cancel(
        &mut self,
        client: u32,
        number: u64,
        bytes: &[u8],
        upto: u64,
        reply: &mut Buffer,
    ) -> Told
        requires present { IsOpen self.old.journal client }
        requires number { IsNextNumber self.old.journal client number }
        requires covers { number ≤ upto }
        ensures told { BrokerTellsCanceled result self.old self.new client number upto
            bytes.now reply.new }
        // `Answer` comes exactly after a wrong answer.
        ensures answer { (result ≡ tolds.Answer) ↔ IsSome self.old.wrong_code }
        // Whatever the result is, the device, the tables and all that is held are as before.
        ensures unchanged { self.new ≡ record self.old { journal = self.new.journal } }
    {
        if self.wrong_code.is_some() {
            tab_wire::error_reply(RC_DEVICE_ANSWER, reply);
            return Told::Answer;
        }
        if let Err(told) = find_room(&self.journal, self.present, bytes, reply) {
            return told;
        }
        enter_canceled(&mut self.journal, client, number, upto, bytes, reply);
        Told::Entered
    }

    /// Closes a client. It flushes the client's sessions in use and those of its objects that are
    /// in the device, and forgets its other objects. The sessions that the client saved are left,
    /// by rising number: whoever gives back the context that was handed out for one gets it. At
    /// most 8, and at most a quarter of the sessions that may be active, stay left: while there are
    /// more, the one that was left longest is flushed. What can't be flushed becomes an orphan, and
    /// the next command that needs the device flushes it first. Objects of other clients aren't
    /// visited. It takes no memory.
    pub fn close_client(&mut self, client: u32) -> Closed
        requires { IsOpen self.old.journal client }
        ensures { Closes D.CONTEXTS D.seen client result self.old self.new }
    {
        self.close_by(client, &mut Uncounted)
    }

    /// `close_client`, with a count of the records that it visits: three to six for each object of
    /// the client, and no more than six after a wrong answer.
    pub fn close_client_counted<L: Ledger>(&mut self, client: u32, steps: &mut Steps<L>) -> Closed
        requires { IsOpen self.old.journal client }
        ensures closes { Closes D.CONTEXTS D.seen client result self.old self.new }
        ensures steps { (steps.new ≤ steps.old + 6 * own_objects client self.old.held.objects.items)
            × ((result ≡ closes.Answer → ⊥)
            → steps.old + 3 * own_objects client self.old.held.objects.items ≤ steps.new) }
    {
        self.close_by(client, steps)
    }

    /// How many orphans are in the device: objects and sessions of closed clients whose flush
    /// failed.
    pub fn orphans(&self) -> u32
        ensures { result ≡ orphan_count self.now.held }
    {
        self.machine.held.orphans()
    }

    /// How many commands the device was sent, answered or not: clients' commands and the broker's
    /// own.
    pub fn sent_count(&self) -> u64
        ensures { result ≡ sent_of (D.seen self.now.device) }
    {
        self.machine.device.sent_count()
    }

    /// The code of the device's wrong answer, if one came: bytes 6 to 9 of it, or 0 if it has fewer
    /// than ten bytes.
    pub fn wrong_answer(&self) -> Option<u64>
        ensures code { result ≡ self.now.wrong_code }
        ensures cause { IfSome result (IsWrongAnswer D.CONTEXTS
            (asked_of (D.seen self.now.device)) (last_of (D.seen self.now.device))) }
    {
        self.wrong_code
    }

    /// Ends the broker, and returns the device and the journal.
    pub fn finish(self) -> (D, Journal)
        ensures device { result.0 ≡ self.device }
        ensures journal { (result.1.entries ≡ self.journal) × (result.1.limit ≡ self.limit) }
        ensures stands { StandsAfterIf (D.seen self.device).base (D.seen self.device).state
            self.journal
            self.tables self.held }
        ensures faulted { FaultsCounted self.began (D.seen self.device).faults self.journal 0 }
        // If no client is open, the device holds only left sessions and orphans, and no more
        // orphans than transmissions failed.
        ensures held { (clients_of self.journal).present ≡ []
            → IfSome (D.seen self.device).state (λ slots.
            HoldsLeft self.began (D.seen self.device).faults self.journal slots
            self.held.sessions.left) }
        ensures whole { AreWhole self.journal }
        ensures last_answer { AnswersHold D.CONTEXTS (D.seen self.device) self.wrong_code }
    {
        self.machine.held.objects.show_vacant();
        // This call is for proofs: it makes known which sessions are left.
        let _ = self.machine.held.sessions.left();
        let Broker {
            machine,
            journal,
            tables: _,
            present: _,
            wrong_code: _,
            began: _,
        } = self;
        let Machine {
            device,
            held: _,
            translated: _,
            scratch: _,
        } = machine;
        (device, journal)
    }
}

impl<D: Device> Broker<D> {
    // `close_client`, which counts in `steps` the records that it visits.
    fn close_by<C: Visits>(&mut self, client: u32, steps: &mut C) -> Closed
        requires { IsOpen self.old.journal client }
        ensures closes { Closes D.CONTEXTS D.seen client result self.old self.new }
        ensures steps { (C.count steps.new
            ≤ C.count steps.old + 6 * own_objects client self.old.held.objects.items)
            × ((result ≡ closes.Answer → ⊥) → C.count steps.old
            + 3 * (C.weight * own_objects client self.old.held.objects.items)
            ≤ C.count steps.new) }
    {
        let list = self.tables.close(client);
        enter_close(&mut self.journal, client);
        self.present -= 1;
        if self.wrong_code.is_some() {
            return Closed::Answer;
        }
        match self.machine.drop_all_by(client, list, steps) {
            Ok(0) => Closed::Clean,
            Ok(_) => Closed::Orphans(self.machine.held.orphans()),
            Err(code) => {
                self.wrong_code = Some(u64::from(code));
                Closed::Answer
            }
        }
    }
}
