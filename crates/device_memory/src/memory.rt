ghost use Rattle.std.specs.Prelude.{refl, ◌≡◌, ◌↔◌, IsErr, IsTrue, IfOk, OnOk, OnErr, Contains};
ghost use Rattle.tab_spec.specs.Count.{one_more};
ghost use Rattle.tab_spec.specs.Frame.{is_frame};
ghost use Rattle.tab_spec.specs.Numbers.{profile_numbers};
ghost use Rattle.tab_spec.specs.Persist.{IsPersist};
ghost use Rattle.tab_spec.specs.declared.contexts.TheConstants.{PROFILE_CONTEXTS};
ghost use Rattle.device_spec.specs.Slots.{slot_step};
ghost use Rattle.device_port.specs.Device.{Transmits, count_of};
ghost use Rattle.device_memory.specs.Memory.{fresh_device, told_by};

use device_port::{Device, DeviceFailed, Trace};
use device_slots::SlotMachine;
use std::alloc::{AllocError, Global};
use std::marker::Model;
use tab_bytes::Buffer;
use tab_spec::{ContextLimits, Numbers, PROFILE_CONTEXTS};
use tab_values::Persist;

/// A device in memory, which is the project's profile byte for byte, with any numbers of slots,
/// places and sessions. It shows its state.
#[derive(Drop)]
pub struct MemoryDevice {
    machine: SlotMachine,
    base: Persist,
    failing: Vec<u64>,
    faults: u64,
    trace: Trace,
}

impl Model for MemoryDevice {
    ghost use Rattle.device_memory.specs.Memory.{DeviceInMemory};

    ghost Value = { DeviceInMemory };

    ghost view = { λ d. record {
      state = d.machine;
      base = d.base;
      failing = d.failing.items;
      faults = d.faults;
      trace = d.trace;
    } };
}

impl MemoryDevice {
    /// A device of this project's profile with this seed of 32 bytes, which was never used, and
    /// fails at the transmissions with these numbers, from 0, and at no others. It fails only for
    /// want of memory.
    pub fn new(alloc: Global, seed: [u8; 32], failing: Vec<u64>) -> Result<MemoryDevice, AllocError>
        ensures fresh { IfOk result (λ d. d ≡ fresh_device profile_numbers seed failing.items) }
        ensures sound { IfOk result (λ d. IsPersist d.base) }
    {
        MemoryDevice::with_numbers(alloc, seed, Numbers::of_the_profile(), failing)
    }

    /// The same with room for as much as these numbers say, also where no broker serves them. A gap
    /// of 0 refuses each save of a session.
    pub fn with_numbers(
        alloc: Global,
        seed: [u8; 32],
        numbers: Numbers,
        failing: Vec<u64>,
    ) -> Result<MemoryDevice, AllocError>
        ensures fresh { IfOk result (λ d. d ≡ fresh_device numbers seed failing.items) }
        ensures sound { IfOk result (λ d. IsPersist d.base) }
    {
        Ok(MemoryDevice {
            machine: SlotMachine::new(alloc, Persist::new(alloc, seed)?, numbers)?,
            base: Persist::new(alloc, seed)?,
            failing,
            faults: 0,
            trace: Trace::new(),
        })
    }
}

impl Device for MemoryDevice {
    ghost seen = { told_by };

    ghost CONTEXTS = { PROFILE_CONTEXTS };

    const CONTEXTS: ContextLimits = PROFILE_CONTEXTS;

    ghost told_together = { λ d. refl };

    ghost profile = { λ d. refl };

    ghost short = { refl };

    // The trait's clauses, and that it fails exactly at the listed transmissions.
    fn transmit(&mut self, command: &[u8], reply: &mut Buffer) -> Result<(), DeviceFailed>
        requires { IsTrue (is_frame command.now) }
        ensures fails { IsErr result ↔ Contains self.old.failing (count_of self.old.trace) }
        ensures failing { self.new.failing ≡ self.old.failing }
        ensures stepped { OnOk result
            ((self.new.state, reply.new) ≡ slot_step self.old.state command.now) }
        ensures faults_ok { OnOk result (self.new.faults ≡ self.old.faults) }
        ensures faults_err { OnErr result (self.new.faults ≡ one_more self.old.faults) }
        ensures transmits { Transmits (told_by self.old) command.now result reply.new
            (told_by self.new) }
    {
        let fails = self.failing.contains(&self.trace.sent());
        if fails {
            self.faults = self.faults.saturating_add(1);
            self.trace.failed(command);
            reply.clear();
            return Err(DeviceFailed);
        }
        self.machine.step(command, reply);
        self.trace.answered(command, reply.as_slice());
        Ok(())
    }

    fn fault_count(&self) -> u64 {
        self.faults
    }

    fn sent_count(&self) -> u64 {
        self.trace.sent()
    }
}
