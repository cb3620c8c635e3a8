ghost use Rattle.std.specs.Prelude.{refl, ◌≡◌, IfSome, IsTrue};
ghost use Rattle.tab_spec.specs.Frame.{is_frame};
ghost use Rattle.tab_spec.specs.declared.contexts.TheConstants.{PROFILE_CONTEXTS};
ghost use Rattle.device_port.specs.Device.{Transmits};
ghost use Rattle.device_link.specs.Carried.{HasCarried};
ghost use Rattle.device_link.specs.Link.{TransmitsAtLink, ends_of, new_device, told_by};

use crate::receive::exchange;
use crate::{Began, LinkFault};
use device_port::{Device, DeviceFailed, Trace};
use link_port::{Sink, Source};
use std::marker::{Brand, Model, PhantomData};
use tab_bytes::Buffer;
use tab_spec::{ContextLimits, PROFILE_CONTEXTS};

/// A TPM behind a byte stream: commands go to the sink, and responses come from the source (Part 1,
/// "Command/Response Structure"). It shows no state. Of a response it reads the tag and the size
/// first, then the rest, and no byte more. After a failure nothing more is written or read, since
/// the next bytes could belong to an earlier command, and each further transmission fails too. What
/// its ends told when it was made is `J`'s: so contracts know all that went over them since.
#[derive(Drop)]
pub struct LinkDevice<S: Source, K: Sink, J: Began = Brand> {
    source: S,
    sink: K,
    fault: LinkFault,
    faults: u64,
    trace: Trace,
    of: PhantomData<J>,
}

impl<S: Source, K: Sink, J: Began> Model for LinkDevice<S, K, J> {
    ghost use Rattle.std.specs.Prelude.{IfSome};
    ghost use Rattle.device_link.specs.Link.{DeviceAtLink, ends_of};
    ghost use Rattle.device_link.specs.Carried.{HasCarried};

    ghost Value = { DeviceAtLink S K };

    ghost view = { λ d. record {
      source = d.source;
      sink = d.sink;
      fault = d.fault;
      faults = d.faults;
      trace = d.trace;
    } };

    ghost invariant = { λ d. IfSome J.began (λ began. HasCarried d.fault began d.faults d.trace
        (ends_of S.left S.faults K.written K.faults d.source d.sink)) };
}

impl<S: Source, K: Sink> LinkDevice<S, K> {
    /// A device whose responses come from this source and whose commands go to this sink. Nothing
    /// was sent to it yet.
    pub fn new(source: S, sink: K) -> LinkDevice<S, K>
        ensures { result ≡ new_device source sink }
    {
        LinkDevice {
            source,
            sink,
            fault: LinkFault::Absent,
            faults: 0,
            trace: Trace::new(),
            of: PhantomData,
        }
    }
}

impl<S: Source, K: Sink, J: Began> LinkDevice<S, K, J> {
    /// The same, where `J` is what the two ends tell now.
    pub fn begun(source: S, sink: K) -> LinkDevice<S, K, J>
        requires { IfSome J.began
            (λ began. began ≡ ends_of S.left S.faults K.written K.faults source sink) }
        ensures { result ≡ new_device source sink }
    {
        LinkDevice {
            source,
            sink,
            fault: LinkFault::Absent,
            faults: 0,
            trace: Trace::new(),
            of: PhantomData,
        }
    }

    /// Gives the two ends back: what went over them since the device was made is what was sent to
    /// it.
    pub fn into_ends(self) -> (S, K)
        ensures ends { (result.0 ≡ self.source) × (result.1 ≡ self.sink) }
        ensures carried { IfSome J.began
            (λ began. HasCarried self.fault began self.faults self.trace
            (ends_of S.left S.faults K.written K.faults result.0 result.1)) }
    {
        let LinkDevice {
            source,
            sink,
            fault: _,
            faults: _,
            trace: _,
            of: _,
        } = self;
        (source, sink)
    }

    /// Why a transmission failed first, and `Absent` before one did.
    pub fn fault(&self) -> LinkFault
        ensures { result ≡ self.now.fault }
    {
        self.fault
    }
}

impl<S: Source, K: Sink, J: Began> Device for LinkDevice<S, K, J> {
    ghost seen = { told_by };

    ghost CONTEXTS = { PROFILE_CONTEXTS };

    const CONTEXTS: ContextLimits = PROFILE_CONTEXTS;

    ghost told_together = { λ d. refl };

    ghost profile = { λ d. tt };

    ghost short = { refl };

    // The trait's clause, and what goes over the two ends.
    fn transmit(&mut self, command: &[u8], reply: &mut Buffer) -> Result<(), DeviceFailed>
        requires { IsTrue (is_frame command.now) }
        ensures carries { TransmitsAtLink (ends_of S.left S.faults K.written K.faults) K.ended
            self.old command.now result reply.new self.new }
        ensures transmits { Transmits (told_by self.old) command.now result reply.new
            (told_by self.new) }
    {
        let outcome = match self.fault {
            LinkFault::Absent => exchange(&mut self.source, &mut self.sink, command, reply),
            fault => Err(fault),
        };
        match outcome {
            Ok(()) => {
                self.trace.answered(command, reply.as_slice());
                Ok(())
            }
            Err(fault) => {
                self.fault = fault;
                self.faults = self.faults.saturating_add(1);
                self.trace.failed(command);
                reply.clear();
                Err(DeviceFailed)
            }
        }
    }

    fn fault_count(&self) -> u64 {
        self.faults
    }

    fn sent_count(&self) -> u64 {
        self.trace.sent()
    }
}

#[cfg(test)]
mod tests;
