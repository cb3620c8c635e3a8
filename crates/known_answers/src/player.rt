ghost use Rattle.std.specs.Prelude.{◌≡◌, ◌&&◌, [], bytes_eq, replicate, IsTrue, IfOk, OnOk};
ghost use Rattle.std.specs.Prelude.{OnErr, if◌then◌else◌};
ghost use Rattle.tab_spec.specs.Count.{one_more};
ghost use Rattle.tab_spec.specs.Frame.{is_frame};
ghost use Rattle.tab_spec.specs.Numbers.{profile_numbers};
ghost use Rattle.device_spec.specs.Slots.{slot_step};
ghost use Rattle.known_answers.specs.Line.{IsPlayedOnDevice, is_pair, started_state};

use anyhow::{Context, ensure};
use device_memory::MemoryDevice;
use device_port::Device;
use device_words::{numbers_of, seed_of};
use std::alloc::Global;
use tab_bytes::Buffer;
use tab_spec::Numbers;
use tab_wire::is_frame;

const STARTUP: [u8; 12] = [0x80, 0x01, 0, 0, 0, 12, 0, 0, 0x01, 0x44, 0, 0];

/// Plays one line after another, and counts.
#[derive(Drop)]
pub struct Player {
    alloc: Global,
    device: MemoryDevice,
    // The seed that was named last.
    seed: [u8; 32],
    reply: Buffer,
    lines: u64,
    agree: u64,
    differ: u64,
    ghost never_fails: { device.failing ≡ [] },
}

impl Player {
    /// Before the first line, with a device whose seed is zeros. It fails only for want of memory.
    pub fn new(alloc: Global) -> anyhow::Result<Player>
        ensures device { IfOk result (λ p.
            p.device.state ≡ started_state profile_numbers (replicate 32 0)) }
        ensures seed { IfOk result (λ p. p.seed ≡ replicate 32 0) }
        ensures counts { IfOk result (λ p. (p.lines ≡ 0) × (p.agree ≡ 0) × (p.differ ≡ 0)) }
    {
        Ok(Player {
            alloc,
            device: started(alloc, [0; 32], Numbers::of_the_profile())?,
            seed: [0; 32],
            reply: Buffer::new(alloc)?,
            lines: 0,
            agree: 0,
            differ: 0,
        })
    }

    /// How many lines were played.
    pub fn lines(&self) -> u64
        ensures { result ≡ self.now.lines }
    {
        self.lines
    }

    /// How many replies were the known ones.
    pub fn agree(&self) -> u64
        ensures { result ≡ self.now.agree }
    {
        self.agree
    }

    /// How many replies were others.
    pub fn differ(&self) -> u64
        ensures { result ≡ self.now.differ }
    {
        self.differ
    }

    /// Plays a line, and says whether its reply is the known one, as it is of a line that begins a
    /// device. It fails for want of memory, and where the line is none.
    pub fn play(&mut self, line: &str) -> anyhow::Result<bool>
        // Whether the reply is the known one, and the device's state after it.
        ensures played { IfOk result (λ agrees.
            IsPlayedOnDevice line.now self.old.seed self.new.seed
            self.old.device.state self.new.device.state agrees) }

        // The line is counted, and a pair among those that agree or among those that differ.
        ensures lines { self.new.lines ≡ one_more self.old.lines }
        ensures agree { IfOk result (λ agrees. self.new.agree ≡
            (if agrees && is_pair line.now then one_more self.old.agree else self.old.agree)) }
        ensures differ { IfOk result (λ agrees. self.new.differ ≡
            (if agrees then self.old.differ else one_more self.old.differ)) }
        ensures err { OnErr result ((self.new.device ≡ self.old.device)
            × (self.new.seed ≡ self.old.seed)
            × (self.new.agree ≡ self.old.agree) × (self.new.differ ≡ self.old.differ)) }
    {
        self.lines = self.lines.saturating_add(1);
        let (first, second) = line.split_once(' ').context("a line has two words")?;
        if first == "seed" {
            let seed = seed_of(second)?;
            begin(
                &mut self.device,
                self.alloc,
                seed,
                Numbers::of_the_profile(),
            )?;
            self.seed = seed;
            return Ok(true);
        }
        if first == "numbers" {
            let numbers = numbers_of(second, ' ')?;
            begin(&mut self.device, self.alloc, self.seed, numbers)?;
            return Ok(true);
        }
        let command = hex::decode(self.alloc, first)?;
        let known = hex::decode(self.alloc, second)?;
        ensure!(is_frame(command.as_slice()), "a command is one frame");
        if !agrees(
            &mut self.device,
            command.as_slice(),
            known.as_slice(),
            &mut self.reply,
        ) {
            self.differ = self.differ.saturating_add(1);
            return Ok(false);
        }
        self.agree = self.agree.saturating_add(1);
        Ok(true)
    }
}

// Runs a command, and says whether its reply is the known one.
fn agrees(device: &mut MemoryDevice, command: &[u8], known: &[u8], reply: &mut Buffer) -> bool
    requires frame { IsTrue (is_frame command.now) }
    requires never_fails { device.old.failing ≡ [] }
    ensures compared { result ≡ bytes_eq (slot_step device.old.state command.now).1 known.now }
    ensures stepped { device.new.state ≡ (slot_step device.old.state command.now).0 }
    ensures failing { device.new.failing ≡ [] }
{
    device.transmit(command, reply).is_ok() && reply.as_slice() == known
}

// Puts a new device of this seed and these numbers in the place of another one.
fn begin(
    device: &mut MemoryDevice,
    alloc: Global,
    seed: [u8; 32],
    numbers: Numbers,
) -> anyhow::Result<()>
    ensures state { OnOk result (device.new.state ≡ started_state numbers seed) }
    ensures never_fails { OnOk result (device.new.failing ≡ []) }
    ensures err { OnErr result (device.new ≡ device.old) }
{
    *device = started(alloc, seed, numbers)?;
    Ok(())
}

// A device of this seed and these numbers, after Startup, which fails nowhere.
fn started(alloc: Global, seed: [u8; 32], numbers: Numbers) -> anyhow::Result<MemoryDevice>
    ensures state { IfOk result (λ device. device.state ≡ started_state numbers seed) }
    ensures never_fails { IfOk result (λ device. device.failing ≡ []) }
{
    let mut device = MemoryDevice::with_numbers(alloc, seed, numbers, Vec::new(alloc))?;
    let mut reply = Buffer::new(alloc)?;
    device
        .transmit(&STARTUP, &mut reply)
        .ok()
        .context("a new device starts")?;
    Ok(device)
}
