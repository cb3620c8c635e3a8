ghost use Rattle.std.specs.Prelude.{◌≡◌, is_some, true, IfSome, IsTrue};
ghost use Rattle.tab_spec.specs.Contexts.{are_short};
ghost use Rattle.tab_spec.specs.Frame.{is_frame};
ghost use Rattle.device_port.specs.Device.{Seen, Transmits, sent_of};

use tab_bytes::Buffer;
use tab_spec::ContextLimits;

/// A transmission to the device failed: its fault count rose, and no response came. A device that
/// shows its state didn't run the command. A TPM at the other end of a link may have run it.
#[derive(Clone, Copy, Debug, PartialEq, Eq)]
pub struct DeviceFailed;

/// A TPM 2.0 device: one command goes to it, and one response comes back.
pub trait Device {
    ghost use Rattle.tab_spec.specs.declared.contexts.ContextLimits.{ContextLimits};
    ghost use Rattle.tab_spec.specs.declared.contexts.TheConstants.{PROFILE_CONTEXTS};

    /// What it shows of itself, and what was sent to it.
    ghost seen: { Self → Seen };

    ghost CONTEXTS: { ContextLimits };

    /// What its contexts may be: an answer that has a larger one is wrong.
    const CONTEXTS: ContextLimits;

    /// Sends one whole command, and overwrites `reply` with the response. It returns `DeviceFailed`
    /// only if the fault count rose. Then `reply` is empty, and a state that the device shows is as
    /// before.
    fn transmit(&mut self, command: &[u8], reply: &mut Buffer) -> Result<(), DeviceFailed>
        requires { IsTrue (is_frame command.now) }
        ensures { Transmits (seen self.old) command.now result reply.new (seen self.new) };

    /// The fault count.
    fn fault_count(&self) -> u64
        ensures { result ≡ (seen self.now).faults };

    /// The count of the commands that were sent.
    fn sent_count(&self) -> u64
        ensures { result ≡ sent_of (seen self.now) };

    /// A device shows both the state and the base, or neither.
    ghost told_together: { (device : Self)
        → is_some (seen device).state ≡ is_some (seen device).base };

    /// A device that shows its state is of the profile.
    ghost profile: { (device : Self)
        → IfSome (seen device).state (λ slots. CONTEXTS ≡ PROFILE_CONTEXTS) };

    /// A broker can keep the longest of its contexts.
    ghost short: { are_short CONTEXTS ≡ true };
}
