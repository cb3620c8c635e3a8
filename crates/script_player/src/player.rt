ghost use Rattle.std.specs.Prelude.{◌≡◌, ◌<◌, ◌≤◌, ◌+◌, ◌^◌, [], ◌∷◌, length, Some};
ghost use Rattle.std.specs.Prelude.{None, false, map, ◌↔◌, IfErr, IfSome, IsSome, IsSomeAnd};
ghost use Rattle.std.specs.Prelude.{IsTrue, OnOk, OnErr, vec_capacity};
ghost use Rattle.tab_spec.specs.Count.{Rose, largest_count};
ghost use Rattle.link_port.specs.Port.{with_more};
ghost use Rattle.history_spec.specs.Cancels.{cover};
ghost use Rattle.history_spec.specs.Entry.{clients_of, IsOpen, IsNextNumber};
ghost use Rattle.script_spec.specs.Calls.{command, bad_size, closing};
ghost use Rattle.script_spec.specs.Plays.{reply_line};
ghost use Rattle.broker_lock.specs.declared.calls.Told.TheVariants as tolds;
ghost use Rattle.broker_lock.specs.Known.{limits_of};
ghost use Rattle.script_lines.specs.declared.label.Label.{Label};
ghost use Rattle.script_lines.specs.Labels.{label_in, counted, replaced, without_label};
ghost use Rattle.script_player.specs.declared.stop.Stop.TheVariants as stops;
ghost use Rattle.script_player.specs.Ends.{IsCaused, LeavesBy};
ghost use Rattle.script_player.specs.Play.{Fits, size_of_label, Leads, opened_labels};
ghost use Rattle.script_player.specs.Play.{opening_calls, fed_calls, fed_labels, IsPlayed};
ghost use Rattle.script_player.specs.Play.{IsEven, IsOfOpening, IsOfRun, PlayedUpTo};
ghost use Rattle.script_player.specs.Play.{IsPulledUpTo, HasStopCause, TellsFull, most_pulled};
ghost use Rattle.script_player.specs.Steps.{IsFreshRun, MayRun, IsBehind, KeepsFit, TellsOf};
ghost use Rattle.script_player.specs.Steps.{Counts, Outcome, AreMade, EndsAt};
ghost use Rattle.script_player.specs.Stops.{CutsLastLine, StoppedAt, StoppedIn};

use crate::room::Room;
use crate::runs::Runs;
use crate::stop::{Stop, after_closed, after_told, unopened};
use broker_lock::Told;
use link_port::{Sink, Source, push_all};
use script_lines::{Labels, Line, LineItem, LineReader, Piece, read_line, write_reply_line};
use script_spec::{LINE_BYTES, SCRIPT_BYTES};
use std::alloc::Global;
use tab_bytes::Buffer;
use tab_frame::{Frame, Framer};
use tab_spec::RC_COMMAND_SIZE;
use tab_wire::error_reply;

// The number up to which commands are canceled, if it covers this command: if it isn't below the
// command's own.
fn cover(upto: Option<u64>, number: u64) -> Option<u64>
    ensures { result ≡ cover upto number }
{
    match upto {
        Some(upto) if number <= upto => Some(upto),
        _ => None,
    }
}

// A value over which the lines of a script are played.
struct Player<B: Runs> {
    value: B,
    labels: Labels,
    // The present command.
    frame: Buffer,
    reply: Buffer,
    // The line of a reply.
    line: Vec<u8>,
    // The framer that looks ahead in a label's stream.
    ahead: Framer,
    ghost wide: { 8204 ≤ vec_capacity line },
}

impl<B: Runs> Player<B> {
    // Opens a label, unless it is open.
    fn open_label(&mut self, alloc: Global, label: u32) -> Result<(), Stop>
        requires ready { MayRun self.old.labels (B.history self.old.value)
            (B.wrong self.old.value) }
        requires few { self.old.labels.opened < 2 ^ 32 }
        ensures labels { OnOk result (self.new.labels
            ≡ opened_labels (label_in self.old.labels.present label) self.old.labels label) }
        ensures leads { OnOk result (Leads (limits_of (B.fixed self.old.value))
            self.old.labels.present (B.history self.old.value)
            (opening_calls (label_in self.old.labels.present label) label)
            self.new.labels.present (B.history self.new.value) []) }
        ensures err { IfErr result (λ stop. IsOfOpening stop × (self.new.labels ≡ self.old.labels)
            × (B.history self.new.value ≡ B.history self.old.value)
            × (label_in self.old.labels.present label ≡ None)) }
        ensures full { IfErr result
            (λ stop. TellsFull (B.fixed self.old.value).limit stop (B.history self.old.value)) }
        ensures sound { B.wrong self.new.value ≡ false }
        ensures kept { KeepsFit (B.fixed self.old.value) (B.fixed self.new.value)
            self.new.labels (B.history self.new.value) }
    {
        if self.labels.client(label).is_some() {
            return Ok(());
        }
        if self.labels.open(alloc, label).is_err() {
            return Err(Stop::Memory);
        }
        match self.value.open_client() {
            Ok(_) => Ok(()),
            Err(error) => {
                self.labels.take_back();
                Err(unopened(error))
            }
        }
    }

    // Writes the present reply as a line of a label.
    fn write_reply<O: Sink>(&mut self, label: u32, output: &mut O) -> Result<(), Stop>
        ensures value { self.new.value ≡ self.old.value }
        ensures labels { self.new.labels ≡ self.old.labels }
        ensures written { OnOk result (O.written output.new
            ≡ with_more (O.written output.old) (reply_line label self.old.reply)) }
        ensures front { OnErr result (CutsLastLine (reply_line label self.old.reply)
            (O.written output.old) (O.written output.new)) }
        ensures err { IfErr result (λ stop. (stop ≡ stops.Output (O.faults output.new))
            × Rose (O.faults output.old) (O.faults output.new)) }
        ensures counts { Counts result (O.faults output.old) (O.faults output.new) }
    {
        write_reply_line(label, self.reply.as_slice(), &mut self.line);
        if push_all(output, &self.line).is_err() {
            return Err(Stop::Output(output.fault_count()));
        }
        Ok(())
    }

    // Answers the current frame as this command of an open client: runs it, or answers that it is
    // canceled up to a number.
    fn answer(&mut self, client: u32, number: u64, covered: Option<u64>) -> Told
        requires present { IsOpen (B.history self.old.value) client }
        requires number { IsNextNumber (B.history self.old.value) client number }
        requires covers { IfSome covered (λ upto. number ≤ upto) }
        requires sound { B.wrong self.old.value ≡ false }
        ensures told { TellsOf covered (B.fixed self.old.value) (B.history self.old.value)
            (B.history self.new.value) client number self.old.frame self.new.reply result }
        ensures wrong { (result ≡ tolds.Answer) ↔ IsTrue (B.wrong self.new.value) }
        ensures run { result ≡ tolds.Answer → covered ≡ None }
        ensures labels { self.new.labels ≡ self.old.labels }
        ensures fixed { B.fixed self.new.value ≡ B.fixed self.old.value }
    {
        let Some(upto) = covered else {
            return self
                .value
                .command(client, number, self.frame.as_slice(), &mut self.reply);
        };
        self.value.cancel(client, number, self.frame.as_slice(), upto, &mut self.reply)
    }

    // Answers the current frame as the next command of an open label, and writes the reply.
    // Commands up to `upto` are canceled, if there is such a number.
    fn run<O: Sink>(&mut self, label: u32, upto: Option<u64>, output: &mut O) -> Result<(), Stop>
        requires ready { MayRun self.old.labels (B.history self.old.value)
            (B.wrong self.old.value) }
        requires is_open { IsSomeAnd (label_in self.old.labels.present label)
            (λ x. x.commands < largest_count) }
        ensures labels { (x : Label) → label_in self.old.labels.present label ≡ Some x
            → self.new.labels
            ≡ record self.old.labels { present = replaced (counted x) self.old.labels.present } }
        ensures ok { OnOk result ((x : Label) → label_in self.old.labels.present label ≡ Some x →
            AreMade (limits_of (B.fixed self.old.value)) (command label (x.commands + 1)
            self.old.frame (cover upto (x.commands + 1)) ∷ []) self.old.labels self.new.labels
            (B.history self.old.value) (B.history self.new.value) (O.written output.old)
            (O.written output.new)) }
        ensures err { IfErr result IsOfRun }
        ensures stopped { IfErr result (λ stop. (x : Label) → label_in self.old.labels.present label
            ≡ Some x → StoppedIn (limits_of (B.fixed self.old.value)) stop (command label
            (x.commands + 1) self.old.frame (cover upto (x.commands + 1)) ∷ [])
            self.old.labels.present (B.history self.old.value)
            self.new.labels.present (B.history self.new.value)
            (O.written output.old) (O.written output.new) (B.wrong self.new.value)) }
        ensures outcome { Outcome result (O.faults output.old)
            (O.faults output.new) (B.wrong self.new.value) }
        ensures kept { KeepsFit (B.fixed self.old.value) (B.fixed self.new.value) self.new.labels
            (B.history self.new.value) }
    {
        let (client, number) = self.labels.count(label);
        let covered = cover(upto, number);
        let told = self.answer(client, number, covered);
        self.write_reply(label, output)?;
        after_told(told)
    }

    // Closes an open label and its client. An error is a wrong answer of the device; both are
    // closed even then.
    fn close_label(&mut self, label: u32) -> Result<(), Stop>
        requires fits { Fits self.old.labels (B.history self.old.value) }
        requires is_open { IsSome (label_in self.old.labels.present label) }
        ensures labels { self.new.labels
            ≡ record self.old.labels { present = without_label label self.old.labels.present } }
        ensures leads { Leads (limits_of (B.fixed self.old.value)) self.old.labels.present
            (B.history self.old.value) (closing label ∷ []) self.new.labels.present
            (B.history self.new.value) [] }
        ensures sound { OnOk result (B.wrong self.new.value ≡ false) }
        ensures err { IfErr result (λ stop. (stop ≡ stops.Answer)
            × IsTrue (B.wrong self.new.value)) }
        ensures kept { KeepsFit (B.fixed self.old.value) (B.fixed self.new.value) self.new.labels
            (B.history self.new.value) }
    {
        let client = self.labels.close(label);
        after_closed(self.value.close_client(client))
    }

    // Answers a bad size on an open label, and closes the label.
    fn end_label<O: Sink>(&mut self, label: u32, output: &mut O) -> Result<(), Stop>
        requires ready { MayRun self.old.labels (B.history self.old.value)
            (B.wrong self.old.value) }
        requires is_open { IsSome (label_in self.old.labels.present label) }
        ensures labels { OnOk result (self.new.labels
            ≡ record self.old.labels { present = without_label label self.old.labels.present }) }
        ensures ok { OnOk result (AreMade (limits_of (B.fixed self.old.value))
            (bad_size label ∷ closing label ∷ []) self.old.labels self.new.labels
            (B.history self.old.value) (B.history self.new.value) (O.written output.old)
            (O.written output.new)) }
        ensures err { IfErr result IsOfRun }
        ensures stopped { IfErr result (λ stop. StoppedIn (limits_of (B.fixed self.old.value)) stop
            (bad_size label ∷ closing label ∷ []) self.old.labels.present (B.history self.old.value)
            self.new.labels.present (B.history self.new.value) (O.written output.old)
            (O.written output.new) (B.wrong self.new.value)) }
        ensures outcome { Outcome result (O.faults output.old)
            (O.faults output.new) (B.wrong self.new.value) }
        ensures kept { KeepsFit (B.fixed self.old.value) (B.fixed self.new.value) self.new.labels
            (B.history self.new.value) }
    {
        error_reply(RC_COMMAND_SIZE, &mut self.reply);
        self.write_reply(label, output)?;
        self.close_label(label)
    }

    // Plays a piece on an open label: runs the commands that it completes, up to a bad size. Those
    // before its last cancel are canceled.
    fn play_piece<O: Sink>(&mut self, label: u32, piece: &[u8], output: &mut O) -> Result<(), Stop>
        requires ready { MayRun self.old.labels (B.history self.old.value)
            (B.wrong self.old.value) }
        requires is_open { IsSomeAnd (label_in self.old.labels.present label)
            (λ x. size_of_label x + length piece.now < largest_count) }
        ensures labels { OnOk result ((x : Label) → label_in self.old.labels.present label ≡ Some x
            → self.new.labels ≡ fed_labels x piece.now self.old.labels) }
        ensures ok { OnOk result ((x : Label) → label_in self.old.labels.present label ≡ Some x →
            AreMade (limits_of (B.fixed self.old.value)) (fed_calls x piece.now) self.old.labels
            self.new.labels (B.history self.old.value) (B.history self.new.value)
            (O.written output.old) (O.written output.new)) }
        ensures err { IfErr result IsOfRun }
        ensures stopped { IfErr result (λ stop. (x : Label) → label_in self.old.labels.present label
            ≡ Some x → StoppedIn (limits_of (B.fixed self.old.value)) stop (fed_calls x piece.now)
            self.old.labels.present (B.history self.old.value) self.new.labels.present
            (B.history self.new.value) (O.written output.old) (O.written output.new)
            (B.wrong self.new.value)) }
        ensures outcome { Outcome result (O.faults output.old)
            (O.faults output.new) (B.wrong self.new.value) }
        ensures kept { KeepsFit (B.fixed self.old.value) (B.fixed self.new.value) self.new.labels
            (B.history self.new.value) }
    {
        let upto = self
            .labels
            .canceled_up_to(label, piece, &mut self.ahead, &mut self.frame);
        let mut rest = piece;
        loop {
            match self.labels.next(label, &mut self.frame) {
                Frame::Command => self.run(label, upto, output)?,
                Frame::Cancel => {}
                Frame::BadSize(_) => return self.end_label(label, output),
                Frame::NotYet => {
                    if rest.is_empty() {
                        return Ok(());
                    }
                    let fed = self.labels.feed(label, rest);
                    rest = &rest[fed..];
                }
            }
        }
    }

    // Plays one line, without its newline, after so many others.
    fn play_line<O: Sink>(
        &mut self,
        alloc: Global,
        played: u64,
        text: &[u8],
        piece: &mut Piece,
        output: &mut O,
    ) -> Result<(), Stop>
        requires behind { IsBehind played self.old.labels (B.history self.old.value)
            (B.wrong self.old.value) }
        requires more { played < SCRIPT_BYTES }
        ensures played { OnOk result (IsPlayed (limits_of (B.fixed self.old.value)) text.now
            self.old.labels (B.history self.old.value) self.new.labels (B.history self.new.value)
            (O.written output.old) (O.written output.new)) }
        ensures behind { OnOk result (IsBehind (played + 1) self.new.labels
            (B.history self.new.value) (B.wrong self.new.value)) }
        ensures ends { IfErr result (λ stop. EndsAt (limits_of (B.fixed self.old.value)) stop
            text.now played self.old.labels self.new.labels (B.history self.old.value)
            (B.history self.new.value) (O.written output.old) (O.written output.new)
            (B.wrong self.new.value)) }
        ensures outcome { Outcome result (O.faults output.old)
            (O.faults output.new) (B.wrong self.new.value) }
        ensures kept { KeepsFit (B.fixed self.old.value) (B.fixed self.new.value) self.new.labels
            (B.history self.new.value) }
    {
        match read_line(text, piece) {
            None => Err(Stop::BadLine(played + 1)),
            Some(LineItem::Close(label)) => {
                if self.labels.client(label).is_none() {
                    return Ok(());
                }
                self.close_label(label)
            }
            Some(LineItem::Piece(label)) => {
                self.open_label(alloc, label)?;
                self.play_piece(label, piece.as_slice(), output)
            }
        }
    }

    // Plays the lines of an input, up to a reason to stop.
    fn play_lines<I: Source, O: Sink>(
        &mut self,
        alloc: Global,
        lines: &mut LineReader,
        text: &mut Vec<u8>,
        piece: &mut Piece,
        input: &mut I,
        output: &mut O,
    ) -> Stop
        requires starts { IsFreshRun self.old.labels (B.history self.old.value)
            (B.wrong self.old.value) }
        requires fresh { lines.old ≡ record { pending = []; room = SCRIPT_BYTES } }
        requires text { LINE_BYTES ≤ vec_capacity text.old }
        ensures played { IsEven result
            → PlayedUpTo (limits_of (B.fixed self.old.value)) result self.new.labels.present
            (B.history self.new.value)
            (I.left input.old) (I.left input.new) (O.written output.old) (O.written output.new) }
        ensures stopped { IsOfRun result → StoppedAt (limits_of (B.fixed self.old.value)) result
            self.new.labels.present (B.history self.new.value) (I.left input.old)
            (O.written output.old) (O.written output.new) (B.wrong self.new.value) }
        ensures pulled { IsPulledUpTo (most_pulled result) (I.left input.old) (I.left input.new) }
        ensures cause { HasStopCause result (I.faults input.old) (I.faults input.new)
            (O.faults output.old) (O.faults output.new) (B.wrong self.new.value) }
        ensures kept { KeepsFit (B.fixed self.old.value) (B.fixed self.new.value) self.new.labels
            (B.history self.new.value) }
    {
        let mut played = 0;
        loop {
            match lines.next(input, text) {
                Err(_) => return Stop::Input(input.fault_count()),
                Ok(Line::End) => return Stop::End,
                Ok(Line::TooLong) => return Stop::BadLine(played + 1),
                Ok(Line::Text) => {}
            }
            if let Err(stop) = self.play_line(alloc, played, text, piece, output) {
                return stop;
            }
            played += 1;
        }
    }

    // Closes the clients of all labels, in the order of opening.
    fn close_all(&mut self)
        requires fits { Fits self.old.labels (B.history self.old.value) }
        ensures leads { Leads (limits_of (B.fixed self.old.value)) self.old.labels.present
            (B.history self.old.value) (map closing (map (λ x. x.label) self.old.labels.present)) []
            (B.history self.new.value) [] }
        ensures none { self.new.labels.present ≡ [] }
        ensures stays { IsTrue (B.wrong self.old.value) → IsTrue (B.wrong self.new.value) }
        ensures kept { KeepsFit (B.fixed self.old.value) (B.fixed self.new.value) self.new.labels
            (B.history self.new.value) }
    {
        while let Some(client) = self.labels.close_first() {
            self.value.close_client(client);
        }
    }
}

/// The result of a script that was played. Its clients are closed.
pub struct PlayedScript<B: Runs> {
    /// Why no more of it was played. A wrong answer may have come in the closes afterwards, too.
    pub stop: Stop,
    pub value: B,
}

/// Plays the lines of an input over a value that has opened no client yet, up to a reason to stop,
/// and then closes all clients, in the order of opening. Each line is a label, a space, and
/// hexadecimal digits, a piece of that label's stream of commands, or the word `close`. A label
/// that isn't open opens a client, and each reply is written as a line.
pub fn play_script<B: Runs, I: Source, O: Sink>(
    alloc: Global,
    room: Room,
    value: B,
    input: &mut I,
    output: &mut O,
) -> PlayedScript<B>
    requires empty { B.history value ≡ [] }
    requires sound { B.wrong value ≡ false }
    // Why no more was played, and what the run leaves then.
    ensures leaves { LeavesBy result.stop (limits_of (B.fixed value)) (B.wrong result.value)
        (I.left input.old) (I.left input.new) (O.written output.old) (O.written output.new)
        (B.history result.value) }
    ensures cause { IsCaused result.stop (I.faults input.old) (I.faults input.new)
        (O.faults output.old) (O.faults output.new) (B.wrong result.value) }
    ensures pulled { IsPulledUpTo (most_pulled result.stop) (I.left input.old) (I.left input.new) }
    ensures closed { (clients_of (B.history result.value)).present ≡ [] }
    ensures fixed { B.fixed result.value ≡ B.fixed value }
{
    let Room {
        lines,
        text,
        piece,
        frame,
        reply,
        line,
        ahead,
    } = room;
    let mut lines = lines;
    let mut text = text;
    let mut piece = piece;
    let mut player = Player {
        value,
        labels: Labels::new(alloc),
        frame,
        reply,
        line,
        ahead,
    };
    let stop = player.play_lines(alloc, &mut lines, &mut text, &mut piece, input, output);
    player.close_all();
    let Player {
        value,
        labels: _,
        frame: _,
        reply: _,
        line: _,
        ahead: _,
    } = player;
    PlayedScript { stop, value }
}
