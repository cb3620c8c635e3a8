ghost use Rattle.std.specs.Prelude.{◌≡◌, ◌+◌, ◌-◌, ◌<◌, ◌≤◌, ◌^◌, ℕ, List, [], ◌∷◌, ◌++◌, Some};
ghost use Rattle.std.specs.Prelude.{None, length, min, take, IsTrue, IsSome, IfOk, OnErr};
ghost use Rattle.std.specs.Prelude.{IsSomeAnd, MatchOption};
ghost use Rattle.std.specs.Option.{option_map};
ghost use Rattle.tab_spec.specs.Count.{largest_count};
ghost use Rattle.tab_spec.specs.Frame.{command, frames};
ghost use Rattle.history_spec.specs.Cancels.{canceled_up_to};
ghost use Rattle.tab_frame.specs.Framing.{Gave};
ghost use Rattle.script_lines.specs.declared.label.Label.{Label};
ghost use Rattle.script_lines.specs.Labels.{no_labels, label_in, new_label, counted, replaced};
ghost use Rattle.script_lines.specs.Labels.{without_label};
ghost use Rattle.script_lines.specs.Places.{item_at};

use crate::label::Label;
use std::alloc::{AllocError, Global};
use std::collections::BTreeMap;
use std::marker::Model;
use tab_bytes::Buffer;
use tab_frame::{Frame, Framer};
use tab_spec::{HEADER_BYTES, MOST_BYTES};
use tab_wire::size_of;

/// The open labels of a script, in the order of opening, and how many were opened so far. A look-up
/// takes time by the logarithm of the number of those that are open.
#[derive(Drop)]
pub struct Labels {
    // By client; `None` if the label was closed.
    items: Vec<Option<Label>>,
    // No label before this client is open.
    first: usize,
    // The client of each open label.
    clients: BTreeMap<u32, u32>,
}

impl Model for Labels {
    ghost use Rattle.std.specs.Prelude.{length};
    ghost use Rattle.std.specs.Ordering.{nat_cmp};
    ghost use Rattle.std.specs.BTreeMap as tree;
    ghost use Rattle.script_lines.specs.Labels.{LabelsView};

    ghost Value = { LabelsView };

    ghost use Rattle.script_lines.specs.Places.{somes, LabelsAreKept};

    ghost view = { λ l. record { present = somes l.items.items; opened = length l.items.items } };

    ghost invariant = { λ l. LabelsAreKept l.items.items l.first (tree.get nat_cmp l.clients) };
}

impl Labels {
    /// No labels. It takes no memory.
    pub fn new(alloc: Global) -> Labels
        ensures { result ≡ no_labels }
    {
        Labels {
            items: Vec::new(alloc),
            first: 0,
            clients: BTreeMap::new(alloc),
        }
    }

    /// The client of a label, where it is open.
    pub fn client(&self, label: u32) -> Option<u32>
        ensures { result ≡ option_map (λ x. x.client) (label_in self.now.present label) }
    {
        self.clients.get(&label).copied()
    }

    /// Opens a label that isn't open; it gets the next client, numbered from 0. It fails only for
    /// want of memory, and then changes nothing.
    pub fn open(&mut self, alloc: Global, label: u32) -> Result<u32, AllocError>
        requires new { label_in self.old.present label ≡ None }
        requires few { self.old.opened < 2 ^ 32 }
        ensures ok { IfOk result (λ client. (client ≡ self.old.opened) × (self.new ≡ record {
          present = self.old.present ++ new_label label client ∷ [];
          opened = self.old.opened + 1;
        })) }
        ensures err { OnErr result (self.new ≡ self.old) }
    {
        self.items.reserve(1)?;
        let kept = Framer::new(alloc)?;
        let client = self.items.len() as u32;
        self.clients.insert(label, client)?;
        self.items.push_reserved(Some(Label {
            label,
            client,
            commands: 0,
            kept,
        }));
        Ok(client)
    }

    /// Takes back the label that was opened last, and isn't closed.
    pub fn take_back(&mut self)
        requires { (xs : List Label) × (x : Label) × (self.old.present ≡ xs ++ x ∷ [])
            × (x.client + 1 ≡ self.old.opened) }
        ensures { (xs : List Label) (x : Label) → self.old.present ≡ xs ++ x ∷ []
            → self.new ≡ record { present = xs; opened = self.old.opened - 1 } }
    {
        let last = self.items.pop().unwrap().unwrap();
        self.clients.remove(&last.label);
    }

    /// Keeps as many of the first bytes of a piece on an open label as there is room for, and says
    /// how many.
    pub fn feed(&mut self, label: u32, piece: &[u8]) -> usize
        requires { IsSome (label_in self.old.present label) }
        ensures { (x : Label) → label_in self.old.present label ≡ Some x
            → (result ≡ min (length piece.now) (8192 - length x.kept))
            × (self.new ≡ record self.old {
              present =
                  replaced (record x { kept = x.kept ++ take result piece.now }) self.old.present;
            }) }
    {
        let place = self.clients.get(&label).copied().unwrap() as usize;
        feed_item(&mut self.items[place], piece)
    }

    /// Gives out the next frame of an open label, as [`Framer::next`] does.
    pub fn next(&mut self, label: u32, out: &mut Buffer) -> Frame
        requires { IsSome (label_in self.old.present label) }
        ensures { (x : Label) → label_in self.old.present label ≡ Some x
            → (kept : List ℕ) × Gave result x.kept kept out.new
            × (self.new
            ≡ record self.old { present = replaced (record x { kept = kept }) self.old.present }) }
    {
        let place = self.clients.get(&label).copied().unwrap() as usize;
        next_of_item(&mut self.items[place], out)
    }

    /// Up to which number an open label's commands are canceled by the cancels that the piece
    /// completes: the number of its commands before the last cancel, if there is one. The label
    /// doesn't change. What `ahead` and `frame` hold afterwards isn't said.
    pub fn canceled_up_to(
        &self,
        label: u32,
        piece: &[u8],
        ahead: &mut Framer,
        frame: &mut Buffer,
    ) -> Option<u64>
        requires { IsSomeAnd (label_in self.now.present label)
            (λ x. x.commands + length x.kept + length piece.now < largest_count) }
        ensures { (x : Label) → label_in self.now.present label ≡ Some x
            → result ≡ canceled_up_to x.commands (frames (x.kept ++ piece.now)).items }
    {
        let place = self.clients.get(&label).copied().unwrap() as usize;
        item_canceled_up_to(&self.items[place], piece, ahead, frame)
    }

    /// Counts one more command of an open label. The label's client, and the command's number.
    pub fn count(&mut self, label: u32) -> (u32, u64)
        requires { IsSomeAnd (label_in self.old.present label) (λ x. x.commands < largest_count) }
        ensures { (x : Label) → label_in self.old.present label ≡ Some x
            → (result ≡ (x.client, x.commands + 1))
            × (self.new ≡ record self.old { present = replaced (counted x) self.old.present }) }
    {
        let client = self.clients.get(&label).copied().unwrap();
        (client, count_item(&mut self.items[client as usize]))
    }

    /// Closes an open label. Its client.
    pub fn close(&mut self, label: u32) -> u32
        requires { IsSome (label_in self.old.present label) }
        ensures { (x : Label) → label_in self.old.present label ≡ Some x → (result ≡ x.client)
            × (self.new ≡ record self.old { present = without_label label self.old.present }) }
    {
        let client = self.clients.remove(&label).unwrap();
        self.items[client as usize] = None;
        client
    }

    /// Closes the open label that was opened first, and returns its client; `None` if no label is
    /// open.
    pub fn close_first(&mut self) -> Option<u32>
        ensures { MatchOption result ((self.old.present ≡ []) × (self.new ≡ self.old))
            (λ client. (x : Label) × (xs : List Label) × (self.old.present ≡ x ∷ xs)
            × (client ≡ x.client) × (self.new ≡ record self.old { present = xs })) }
    {
        self.first = first_open(&self.items, self.first);
        let label = label_at(&self.items, self.first)?;
        Some(self.close(label))
    }
}

// Keeps as many of the first bytes of a piece as the label has room for, and says how many.
fn feed_item(item: &mut Option<Label>, piece: &[u8]) -> usize
    requires { IsSome item.old }
    ensures { (x : Label) → item.old ≡ Some x
        → (result ≡ min (length piece.now) (8192 - length x.kept))
        × (item.new ≡ Some (record x { kept = x.kept ++ take result piece.now })) }
{
    match item {
        Some(x) => x.kept.feed(piece),
        None => 0,
    }
}

// Gives out the next frame of the label.
fn next_of_item(item: &mut Option<Label>, out: &mut Buffer) -> Frame
    requires { IsSome item.old }
    ensures { (x : Label) → item.old ≡ Some x → (kept : List ℕ) × Gave result x.kept kept out.new
        × (item.new ≡ Some (record x { kept = kept })) }
{
    match item {
        Some(x) => x.kept.next(out),
        None => Frame::NotYet,
    }
}

// Up to which number commands of the label are canceled by the last cancel that the piece
// completes.
fn item_canceled_up_to(
    item: &Option<Label>,
    piece: &[u8],
    ahead: &mut Framer,
    frame: &mut Buffer,
) -> Option<u64>
    requires { IsSomeAnd item.now
        (λ x. x.commands + length x.kept + length piece.now < largest_count) }
    ensures { (x : Label) → item.now ≡ Some x
        → result ≡ canceled_up_to x.commands (frames (x.kept ++ piece.now)).items }
{
    match item {
        Some(x) => {
            if is_one_command(&x.kept, piece) {
                return None;
            }
            ahead.copy_from(&x.kept);
            last_cancel(x.commands, piece, ahead, frame)
        }
        None => None,
    }
}

// Whether what is kept and the piece are one command, as on most lines, and longer than a cancel.
// So nothing is to be copied to look ahead.
fn is_one_command(kept: &Framer, piece: &[u8]) -> bool
    ensures { IsTrue result → (frames (kept.now ++ piece.now)).items ≡ command piece.now ∷ [] }
{
    let length = piece.len();
    if !kept.is_empty() || length <= HEADER_BYTES as usize || length > MOST_BYTES as usize {
        return false;
    }
    size_of(piece) as usize == length
}

// How many commands come before the last cancel among the frames of what `ahead` keeps and of the
// piece behind it, so many before them included; nothing where none of them is a cancel. A framer
// keeps the bytes of two frames alone, so the piece is fed in parts.
fn last_cancel(commands: u64, piece: &[u8], ahead: &mut Framer, frame: &mut Buffer) -> Option<u64>
    requires { commands + length ahead.old + length piece.now < largest_count }
    ensures { result ≡ canceled_up_to commands (frames (ahead.old ++ piece.now)).items }
{
    let mut count = commands;
    let mut upto = None;
    let mut rest = piece;
    loop {
        match ahead.next(frame) {
            Frame::Command => count += 1,
            Frame::Cancel => upto = Some(count),
            Frame::BadSize(_) => return upto,
            Frame::NotYet => {
                if rest.is_empty() {
                    return upto;
                }
                let fed = ahead.feed(rest);
                rest = &rest[fed..];
            }
        }
    }
}

// Counts one more command of the label. The command's number.
fn count_item(item: &mut Option<Label>) -> u64
    requires { IsSomeAnd item.old (λ x. x.commands < largest_count) }
    ensures { (x : Label) → item.old ≡ Some x
        → (result ≡ x.commands + 1) × (item.new ≡ Some (counted x)) }
{
    match item {
        Some(x) => {
            x.commands += 1;
            x.commands
        }
        None => 0,
    }
}

// The place of the first item from `from` on that is there, or the end.
fn first_open(items: &[Option<Label>], from: usize) -> usize
    requires { from ≤ length items.now }
    ensures behind { from ≤ result }
    ensures within { result ≤ length items.now }
    ensures closed { (place : ℕ) → from ≤ place → place < result → item_at items.now place ≡ None }
    ensures there { result < length items.now → IsSome (item_at items.now result) }
{
    let mut place = from;
    while place < items.len() && items[place].is_none() {
        place += 1;
    }
    place
}

// The name of the label that stands at this place.
fn label_at(items: &[Option<Label>], place: usize) -> Option<u32>
    ensures { result ≡ option_map (λ x. x.label) (item_at items.now place) }
{
    match items.get(place) {
        Some(Some(x)) => Some(x.label),
        _ => None,
    }
}
