ghost use Rattle.std.specs.Prelude.{◌≡◌, ◌≤◌, ◌<◌, ◌^◌, ℕ, List, Option, Bool, [], Some, None};
ghost use Rattle.std.specs.Prelude.{false, length, IfErr, IfNone, IfOk, IsTrue, IsFalse};
ghost use Rattle.std.specs.Option.{option_map};
ghost use Rattle.history_spec.specs.declared.TheConstants.{JOURNAL_MOST};
ghost use Rattle.history_spec.specs.AuditText.{audit_text};
ghost use Rattle.history_spec.specs.Entry.{IsLimit};
ghost use Rattle.script_spec.specs.Summary.{HaveBytes, Reply, reply_lines, summary_line};
ghost use Rattle.broker_lock.specs.Known.{origin_of};
ghost use Rattle.broker_core.specs.Broker.{IsAtBase, told_origin};
ghost use Rattle.tab_server.specs.Status.{EndsStart, status_of, detail_of};
ghost use Rattle.tab_server.specs.Run.{Begins, Leaves, after, after_of, before, before_of, limits};
ghost use Rattle.tab_server.specs.Endings.{StandsToEnd, WroteBehind, is_end};
ghost use Rattle.tab_server.specs.Workload.{LeavesWorkload};
ghost use Rattle.command_line.specs.Words.{IsServe};
ghost use Rattle.tab_server.specs.Done.{LeavesPlan};

use crate::cause::{Cause, cause_of, status};
use crate::ended_broker::end_broker;
use crate::played_broker::PlayedBroker;
use crate::status::{NO_MEMORY, OUT_OF_RANGE, OUTPUT_FAILED, START_FAILED, WRONG_ANSWER};
use audit_journal::Journal;
use broker_core::{BeginError, Broker};
use command_line::{LINES_MOST, Plan, Verb};
use device_port::Device;
use link_port::{Sink, Source, push_all};
use script_player::{PlayedScript, Room, Stop, play_script};
use std::alloc::Global;
use workload::{Tally, Workload};

/// The result of playing a script.
pub struct Played<D: Device> {
    /// 0: the script was played whole. 4: the output failed. 5: memory lacked. 6: the device failed
    /// at its start. 7: the device gave a wrong answer. 8: a line was bad. 9: the input failed. 10:
    /// the journal has no room for another client. 11: one of the device's numbers is out of range.
    pub status: u8,
    /// The fault count at 4, 6 and 9, the answer's code at 7, the line's number from 1 at 8, the
    /// bytes that the journal keeps at 10, the property at 11, else 0.
    pub detail: u64,
    pub device: D,
    /// The broker's journal. `None` if the broker didn't begin.
    pub journal: Option<Journal>,
}

// How a script that was played ended.
struct Ended<D: Device> {
    cause: Cause,
    // Whether all of its lines were played, and none was bad.
    whole: bool,
    device: D,
    journal: Journal,
}

// Whether the script stopped because its input ended.
fn is_end(stop: Stop) -> bool
    ensures { result ≡ is_end stop }
{
    match stop {
        Stop::End => true,
        _ => false,
    }
}

// Begins the broker over a device, or returns why it didn't begin.
pub(crate) fn begin_broker<D: Device>(
    alloc: Global,
    limit: u64,
    device: D,
) -> Result<Broker<D>, Played<D>>
    requires at_base { IsAtBase (D.seen device).base (D.seen device).state }
    requires limit { IsLimit limit }
    ensures broker { IfOk result (λ b. Begins (D.seen device) limit b (D.seen b.device)) }
    ensures leaves { IfErr result (λ played. (audit : Bool) (left written : Option (List ℕ))
        (input output : ℕ) → Leaves limit audit
        (before_of D.CONTEXTS (told_origin (D.seen device).base (D.seen device).state)
        (D.seen device).faults left input written output)
        (after_of (D.seen played.device) left input written output)
        played.status played.detail None) }
    ensures none { IfErr result (λ played. (played.journal ≡ None)
        × EndsStart D.CONTEXTS D.seen played.status played.detail device played.device) }
{
    match Broker::begin(alloc, device, limit) {
        Ok(broker) => Ok(broker),
        Err((BeginError::Device(count), device)) => Err(unplayed(START_FAILED, count, device)),
        Err((BeginError::Answer(code), device)) => Err(unplayed(
            WRONG_ANSWER,
            u64::from(code),
            device,
        )),
        Err((BeginError::Memory, device)) => Err(unplayed(NO_MEMORY, 0, device)),
        Err((BeginError::Numbers { property, value: _ }, device)) => Err(unplayed(
            OUT_OF_RANGE,
            u64::from(property),
            device,
        )),
    }
}

// Makes the room and the broker of a run. If that fails, it returns how the run ended: nothing was
// played.
fn begin<D: Device>(alloc: Global, limit: u64, device: D) -> Result<(Room, Broker<D>), Played<D>>
    requires at_base { IsAtBase (D.seen device).base (D.seen device).state }
    requires limit { IsLimit limit }
    ensures broker { IfOk result (λ b. Begins (D.seen device) limit b.1 (D.seen b.1.device)) }
    ensures leaves { IfErr result (λ played. (audit : Bool) (left written : Option (List ℕ))
        (input output : ℕ) → Leaves limit audit
        (before_of D.CONTEXTS (told_origin (D.seen device).base (D.seen device).state)
        (D.seen device).faults left input written output)
        (after_of (D.seen played.device) left input written output)
        played.status played.detail None) }
    ensures none { IfErr result (λ played. (played.journal ≡ None)
        × EndsStart D.CONTEXTS D.seen played.status played.detail device played.device) }
{
    let Ok(room) = Room::new(alloc) else {
        return Err(unplayed(NO_MEMORY, 0, device));
    };
    match begin_broker(alloc, limit, device) {
        Ok(broker) => Ok((room, broker)),
        Err(unbegun) => Err(unbegun),
    }
}

// Plays an input over a broker that has opened no client yet, and then closes all clients.
fn play_over<D: Device, I: Source, O: Sink>(
    alloc: Global,
    room: Room,
    broker: Broker<D>,
    input: &mut I,
    output: &mut O,
) -> Ended<D>
    requires journal { broker.journal ≡ [] }
    requires sound { broker.wrong_code ≡ None }
    requires counted { broker.began ≤ (D.seen broker.device).faults }
    ensures leaves { Leaves broker.limit false
        (before_of D.CONTEXTS
        (origin_of (D.seen broker.device).base broker.held.sessions.numbers)
        broker.began (I.left input.old) (I.faults input.old)
        (O.written output.old) (O.faults output.old))
        (after D.seen I.left I.faults O.written O.faults result.device input.new output.new)
        (status_of result.cause) (detail_of result.cause) (Some result.journal.entries) }
    ensures limit { result.journal.limit ≡ broker.limit }
    ensures to_end { StandsToEnd result.whole (limits D.CONTEXTS broker.limit)
        (status_of result.cause) (I.left input.old) (O.written output.old) (O.written output.new)
        result.journal.entries }
{
    let played = PlayedBroker { broker };
    let PlayedScript { stop, value } = play_script(alloc, room, played, input, output);
    let PlayedBroker { broker } = value;
    let (device, journal, wrong_answer) = end_broker(broker);
    Ended {
        cause: cause_of(stop, wrong_answer),
        whole: is_end(stop),
        device,
        journal,
    }
}

// Writes the summary of a workload, if it was played whole. It returns why the run ended.
fn write_summary<O: Sink>(
    whole: bool,
    cause: Cause,
    lines: u32,
    tally: Tally,
    journal: &Journal,
    output: &mut O,
) -> Cause
    ensures early { IsFalse whole → (result ≡ cause) × (output.new ≡ output.old) }
    ensures summary { IsTrue whole → (told : List Reply) → tally ≡ reply_lines told → HaveBytes told
        → length told < 2 ^ 64
        → WroteBehind cause result (summary_line lines told (length journal.now.entries))
        (O.written output.old) (O.written output.new) (O.faults output.old) (O.faults output.new) }
{
    if !whole {
        return cause;
    }
    let line = tally.summary(lines, journal.len());
    match push_all(output, line.as_slice()) {
        Ok(()) => cause,
        Err(_) => Cause::Output(output.fault_count()),
    }
}

// Writes the audit text of a journal, if it is asked for and no write has failed. It returns why
// the run ended.
fn write_audit<O: Sink>(audit: bool, cause: Cause, journal: &Journal, output: &mut O) -> Cause
    requires { IsTrue audit → journal.now.limit ≤ JOURNAL_MOST }
    ensures unasked { IsFalse audit → (result ≡ cause) × (output.new ≡ output.old) }
    ensures failed { status_of cause ≡ OUTPUT_FAILED
        → (result ≡ cause) × (output.new ≡ output.old) }
    ensures text { IsTrue audit → (status_of cause ≡ OUTPUT_FAILED → ⊥)
        → WroteBehind cause result (audit_text journal.now.entries)
        (O.written output.old) (O.written output.new) (O.faults output.old) (O.faults output.new) }
{
    if !audit {
        return cause;
    }
    match cause {
        Cause::Output(_) => cause,
        _ => match journal.write_all(output) {
            Ok(()) => cause,
            Err(_) => Cause::Output(output.fault_count()),
        },
    }
}

// Plays the input as a script.
fn play_input<D: Device, I: Source, O: Sink>(
    alloc: Global,
    plan: &Plan,
    device: D,
    input: &mut I,
    output: &mut O,
) -> Played<D>
    requires at_base { IsAtBase (D.seen device).base (D.seen device).state }
    requires limit { IsLimit plan.now.limit }
    requires audit { IsTrue plan.now.audit → plan.now.limit ≤ JOURNAL_MOST }
    ensures leaves { Leaves plan.now.limit plan.now.audit
        (before D.CONTEXTS D.seen I.left I.faults O.written O.faults device input.old output.old)
        (after D.seen I.left I.faults O.written O.faults result.device input.new output.new)
        result.status result.detail (option_map (λ journal. journal.entries) result.journal) }
    ensures none { IfNone result.journal
        (EndsStart D.CONTEXTS D.seen result.status result.detail device result.device
        × (input.new ≡ input.old) × (output.new ≡ output.old)) }
{
    match begin(alloc, plan.limit, device) {
        Ok((room, broker)) => {
            let Ended {
                cause,
                whole: _,
                device,
                journal,
            } = play_over(alloc, room, broker, input, output);
            let cause = write_audit(plan.audit, cause, &journal, output);
            finished(cause, device, journal)
        }
        Err(unplayed) => unplayed,
    }
}

// Plays the script of a workload.
fn play_workload<D: Device, O: Sink>(
    alloc: Global,
    plan: &Plan,
    device: D,
    output: &mut O,
) -> Played<D>
    requires at_base { IsAtBase (D.seen device).base (D.seen device).state }
    requires limit { IsLimit plan.now.limit }
    requires audit { IsTrue plan.now.audit → plan.now.limit ≤ JOURNAL_MOST }
    requires lines { plan.now.lines ≤ LINES_MOST }
    ensures leaves { (left : Option (List ℕ)) (input : ℕ) → LeavesWorkload plan.now.limit
        plan.now.audit plan.now.start plan.now.lines
        (before_of D.CONTEXTS (told_origin (D.seen device).base (D.seen device).state)
        (D.seen device).faults left input (O.written output.old) (O.faults output.old))
        (after_of (D.seen result.device) left input (O.written output.new) (O.faults output.new))
        result.status result.detail (option_map (λ journal. journal.entries) result.journal) }
    ensures none { IfNone result.journal
        (EndsStart D.CONTEXTS D.seen result.status result.detail device result.device
        × (output.new ≡ output.old)) }
{
    match begin(alloc, plan.limit, device) {
        Ok((room, broker)) => {
            let mut script = Workload::new(plan.start, plan.lines);
            let mut tally = Tally::new();
            let Ended {
                cause,
                whole,
                device,
                journal,
            } = play_over(alloc, room, broker, &mut script, &mut tally);
            journal.replies_are_bytes();
            let cause = write_summary(whole, cause, plan.lines, tally, &journal, output);
            let cause = write_audit(plan.audit, cause, &journal, output);
            finished(cause, device, journal)
        }
        Err(unplayed) => unplayed,
    }
}

/// Does what the plan says, over a device, an input and an output: it plays the input as a script,
/// or the script of a workload. Each line is a label, a space, and hexadecimal digits, a piece of
/// that label's stream of commands, or the word `close`. A label that isn't open opens a client. At
/// the end the clients are closed in the order of opening. The journal keeps within the plan's
/// limit. Each reply to the input's script is written as a line. A workload doesn't read the input,
/// and its replies aren't written: if it was played whole, one line sums them up. If the plan asks
/// for it, the journal's audit text is written last, unless a write failed before. If a write
/// fails, the status is 4.
pub fn play<D: Device, I: Source, O: Sink>(
    alloc: Global,
    plan: &Plan,
    device: D,
    input: &mut I,
    output: &mut O,
) -> Played<D>
    // The device's history begins from what it keeps.
    requires at_base { IsAtBase (D.seen device).base (D.seen device).state }
    // The plan is one that the program's words can give.
    requires limit { IsLimit plan.now.limit }
    requires audit { IsTrue plan.now.audit → plan.now.limit ≤ JOURNAL_MOST }
    requires lines { plan.now.lines ≤ LINES_MOST }
    // `serve` goes by another call.
    requires job { IsServe plan.now.job → ⊥ }

    ensures leaves { LeavesPlan plan.now
        (before D.CONTEXTS D.seen I.left I.faults O.written O.faults device input.old output.old)
        (after D.seen I.left I.faults O.written O.faults result.device input.new output.new)
        result.status result.detail (option_map (λ journal. journal.entries) result.journal) }
    // If the broker didn't begin, there is no journal, the device holds no more than it did, and
    // nothing was read or written. The status shows how far the start came. At 5 nothing was sent,
    // or the device was started and flushed. Each number that the device reported before the last
    // command is in range. At 11 the number that it reported last isn't.
    ensures none { IfNone result.journal
        (EndsStart D.CONTEXTS D.seen result.status result.detail device result.device
        × (input.new ≡ input.old) × (output.new ≡ output.old)) }
{
    match plan.job {
        Verb::Run => play_input(alloc, plan, device, input, output),
        Verb::Workload => play_workload(alloc, plan, device, output),
        Verb::Serve => unreachable!(),
    }
}

// The result of a run that ended for this cause.
fn finished<D: Device>(cause: Cause, device: D, journal: Journal) -> Played<D>
    ensures { result ≡ record {
      status = status_of cause;
      detail = detail_of cause;
      device = device;
      journal = Some journal;
    } }
{
    let (status, detail) = status(cause);
    Played {
        status,
        detail,
        device,
        journal: Some(journal),
    }
}

// The result of a run that ended before the broker began.
fn unplayed<D: Device>(status: u8, detail: u64, device: D) -> Played<D>
    ensures { result
        ≡ record { status = status; detail = detail; device = device; journal = None } }
{
    Played {
        status,
        detail,
        device,
        journal: None,
    }
}
