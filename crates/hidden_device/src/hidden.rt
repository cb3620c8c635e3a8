ghost use Rattle.std.specs.Prelude.{◌≡◌, ◌≤◌, [], IsTrue, None, length, refl};
ghost use Rattle.tab_spec.specs.Frame.{is_frame};
ghost use Rattle.tab_spec.specs.declared.contexts.TheConstants.{PROFILE_CONTEXTS};

use device_memory::MemoryDevice;
use device_port::{Device, DeviceFailed, Trace};
use tab_bytes::Buffer;
use tab_spec::{ContextLimits, PROFILE_CONTEXTS};

/// What answers the commands of a hidden device.
pub trait Answers {
    /// Writes the response to a command over whatever `reply` holds; `number` is how many commands
    /// came before it. `false` where the transmission fails.
    fn answer(&mut self, number: u64, command: &[u8], reply: &mut Buffer) -> bool
        requires { IsTrue (is_frame command.now) };
}

impl Answers for MemoryDevice {
    fn answer(&mut self, _number: u64, command: &[u8], reply: &mut Buffer) -> bool {
        self.transmit(command, reply).is_ok()
    }
}

/// A device of the profile's contexts that shows proofs neither its state nor its base.
#[derive(Drop)]
pub struct HiddenDevice<A: Answers + Drop> {
    /// What answers its commands.
    pub answers: A,
    /// How many transmissions failed.
    pub faults: u64,
    /// What was sent.
    pub trace: Trace,
}

impl<A: Answers + Drop> HiddenDevice<A> {
    /// A device that was sent nothing.
    pub fn new(answers: A) -> HiddenDevice<A>
        ensures { result ≡ record { answers = answers; faults = 0; trace = [] } }
    {
        HiddenDevice {
            answers,
            faults: 0,
            trace: Trace::new(),
        }
    }
}

impl<A: Answers + Drop> Device for HiddenDevice<A> {
    ghost seen = { λ d. record {
      base = None;
      state = None;
      faults = d.faults;
      trace = d.trace;
    } };

    ghost CONTEXTS = { PROFILE_CONTEXTS };

    const CONTEXTS: ContextLimits = PROFILE_CONTEXTS;

    ghost told_together = { λ _. refl };

    ghost profile = { λ _. tt };

    ghost short = { refl };

    fn transmit(&mut self, command: &[u8], reply: &mut Buffer) -> Result<(), DeviceFailed> {
        if !self.answers.answer(self.trace.sent(), command, reply) {
            self.faults = self.faults.saturating_add(1);
            self.trace.failed(command);
            reply.clear();
            return Err(DeviceFailed);
        }
        self.trace.answered(command, reply.as_slice());
        Ok(())
    }

    fn fault_count(&self) -> u64 {
        self.faults
    }

    fn sent_count(&self) -> u64 {
        self.trace.sent()
    }
}

/// Writes a response over whatever `reply` holds.
pub fn respond(response: &[u8], reply: &mut Buffer)
    requires { length response.now ≤ 4096 }
    ensures { reply.new ≡ response.now }
{
    reply.clear();
    reply.put_bytes(response).unwrap();
}
