ghost use Rattle.std.specs.Prelude.{◌≡◌, ◌≤◌, [], IfOk, None, Some};
ghost use Rattle.broker_core.specs.Broker.{IsAtBase};
ghost use Rattle.device_port.specs.Device.{sent_of};

use crate::held::count_held;
use crate::script::Script;
use crate::watched::{Call, Watched};
use anyhow::{Context, bail, ensure};
use audit_journal::Journal;
use broker_core::{BeginError, Broker};
use device_memory::MemoryDevice;
use device_port::Device;
use history_spec::JOURNAL_MOST;
use link_port::{MemorySource, StdSink};
use script_player::{PlayedScript, Room, Stop, play_script};
use std::alloc::{AllocError, Global};
use std::io::Write;
use tab_server::PlayedBroker;
use tab_spec::Numbers;

// What came of a script.
#[derive(Drop)]
struct Played<D: Device + Drop> {
    // How many commands the device was sent before the first line.
    begun: u64,
    stop: Stop,
    calls: Vec<Call>,
    device: D,
    journal: Journal,
}

/// Plays a script, and writes what came of it.
pub fn play<W: Write>(alloc: Global, script: &Script, output: &mut W) -> anyhow::Result<()> {
    let room = Room::new(alloc)?;
    let text = script.text.to_vec(alloc)?;
    let device = device_of(
        alloc,
        script.seed,
        script.numbers,
        script.failing.to_vec(alloc)?,
    )?;
    match Broker::begin(alloc, device, JOURNAL_MOST) {
        Ok(broker) => {
            let mut played = play_over(alloc, room, broker, text, output);
            tell(alloc, &mut played, script.failing.len(), output)
        }
        Err((BeginError::Device(faults), device)) => {
            writeln!(output, "failed {faults} {}", device.sent_count())?;
            Ok(())
        }
        Err((BeginError::Numbers { property, value }, device)) => {
            let sent = device.sent_count();
            writeln!(output, "out of range {property} {value} {sent}")?;
            Ok(())
        }
        Err((BeginError::Answer(_), _)) => bail!("the device gave a wrong answer"),
        Err((BeginError::Memory, _)) => bail!("there is no memory for a broker"),
    }
}

// A device of this seed and these numbers, which fails at these transmissions. A broker may begin
// on it.
fn device_of(
    alloc: Global,
    seed: [u8; 32],
    numbers: Numbers,
    failing: Vec<u64>,
) -> Result<MemoryDevice, AllocError>
    ensures { IfOk result (λ device. IsAtBase (Some device.base) (Some device.state)) }
{
    MemoryDevice::with_numbers(alloc, seed, numbers, failing)
}

// Plays the lines of a script over a broker that has opened no client yet, and then closes all
// clients. Each reply is written as a line.
fn play_over<D: Device + Drop, W: Write>(
    alloc: Global,
    room: Room,
    broker: Broker<D>,
    text: Vec<u8>,
    output: &mut W,
) -> Played<D>
    requires journal { broker.journal ≡ [] }
    requires sound { broker.wrong_code ≡ None }
    requires counted { broker.began ≤ (D.seen broker.device).faults }
    ensures begun { result.begun ≡ sent_of (D.seen broker.device) }
{
    let begun = broker.sent_count();
    let value = Watched {
        played: PlayedBroker { broker },
        calls: Vec::new(alloc),
    };
    let mut input = MemorySource::new(text, Vec::new(alloc), Vec::new(alloc));
    let mut sink = StdSink::new(output);
    let PlayedScript { stop, value } = play_script(alloc, room, value, &mut input, &mut sink);
    let Watched { played, calls } = value;
    let PlayedBroker { broker } = played;
    let (device, journal) = broker.finish();
    Played {
        begun,
        stop,
        calls,
        device,
        journal,
    }
}

// Writes what came of a script behind its replies.
fn tell<W: Write>(
    alloc: Global,
    played: &mut Played<MemoryDevice>,
    failing: usize,
    output: &mut W,
) -> anyhow::Result<()> {
    match played.stop {
        Stop::End => {}
        _ => bail!("the script wasn't played to its end"),
    }
    writeln!(output, "begun {}", played.begun)?;
    for call in &played.calls {
        write_call(call, output)?;
    }
    write_journal(&played.journal, output)?;
    write_end(alloc, &mut played.device, failing, output)
}

// Writes what a call was, and its counts.
fn write_call<W: Write>(call: &Call, output: &mut W) -> anyhow::Result<()> {
    let name = if call.is_close { "close" } else { "command" };
    writeln!(
        output,
        "{name} {} {} {}",
        call.first, call.last, call.orphans
    )?;
    Ok(())
}

// Writes the audit text of a journal.
fn write_journal<W: Write>(journal: &Journal, output: &mut W) -> anyhow::Result<()> {
    ensure!(journal.limit() <= JOURNAL_MOST, "a journal has a limit");
    let mut sink = StdSink::new(output);
    journal
        .write_all(&mut sink)
        .ok()
        .context("the journal can't be written")
}

// Writes what is left in a device that fails at so many transmissions at most.
fn write_end<W: Write>(
    alloc: Global,
    device: &mut MemoryDevice,
    failing: usize,
    output: &mut W,
) -> anyhow::Result<()> {
    let sent = device.sent_count();
    let faults = device.fault_count();
    let held = count_held(alloc, device, failing)?;
    writeln!(output, "end {sent} {faults} {held}")?;
    Ok(())
}
