ghost use Rattle.std.specs.Prelude.{refl, ◌≡◌, IfSome, IsTrue, OnOk, OnErr, None, Some};
ghost use Rattle.tab_spec.specs.Frame.{is_frame};
ghost use Rattle.tab_spec.specs.declared.contexts.TheConstants.{PROFILE_CONTEXTS};
ghost use Rattle.device_port.specs.Device.{Transmits};
ghost use Rattle.device_link.specs.Carried.{HasCarried};
ghost use Rattle.device_link.specs.Link.{TransmitsAtLink, ends_of, has_failed, told_by};
ghost use Rattle.device_link.specs.Watched.{answer_of, new_watched};

use crate::{Answered, Began, LinkDevice, LinkFault};
use device_port::{Device, DeviceFailed};
use link_port::{Sink, Source};
use std::marker::{Brand, Model};
use tab_bytes::Buffer;
use tab_spec::{ContextLimits, PROFILE_CONTEXTS};
use tab_wire::code_of;

/// Is called when a link to a device has failed.
pub trait Watcher: Sync {
    /// The first transmission over a link has failed, for this reason.
    fn link_failed(&self, fault: LinkFault)
        requires { IsTrue (has_failed fault) };
}

impl<W: Watcher> Watcher for &W {
    fn link_failed(&self, fault: LinkFault) {
        (**self).link_failed(fault);
    }
}

/// A [`LinkDevice`] that tells a watcher of its first failure, once, and keeps what it answered to
/// the newest command.
#[derive(Drop)]
pub struct WatchedLink<S: Source, K: Sink, W: Watcher, J: Began = Brand> {
    device: LinkDevice<S, K, J>,
    watcher: W,
    newest: Option<Answered>,
}

impl<S: Source, K: Sink, W: Watcher, J: Began> Model for WatchedLink<S, K, W, J> {
    ghost use Rattle.device_link.specs.Watched.{WatchedAtLink};

    ghost Value = { WatchedAtLink S K };

    ghost view = { λ w. record { device = w.device; newest = w.newest } };
}

impl<S: Source, K: Sink, W: Watcher, J: Began> WatchedLink<S, K, W, J> {
    /// This device, with this watcher.
    pub fn new(device: LinkDevice<S, K, J>, watcher: W) -> WatchedLink<S, K, W, J>
        ensures { result ≡ new_watched device }
    {
        WatchedLink {
            device,
            watcher,
            newest: None,
        }
    }

    /// What the device answered to the newest command. `None` if that one failed, and before the
    /// first.
    pub fn newest(&self) -> Option<Answered>
        ensures { result ≡ self.now.newest }
    {
        self.newest
    }

    /// Gives the two ends of the device back, and lets the watcher go.
    pub fn into_ends(self) -> (S, K)
    where
        W: Drop,
        ensures ends { (result.0 ≡ self.device.source) × (result.1 ≡ self.device.sink) }
        ensures carried { IfSome J.began
            (λ began. HasCarried self.device.fault began self.device.faults self.device.trace
            (ends_of S.left S.faults K.written K.faults result.0 result.1)) }
    {
        let WatchedLink {
            device,
            watcher: _,
            newest: _,
        } = self;
        device.into_ends()
    }
}

impl<S: Source, K: Sink, W: Watcher, J: Began> Device for WatchedLink<S, K, W, J> {
    ghost seen = { λ w. told_by w.device };

    ghost CONTEXTS = { PROFILE_CONTEXTS };

    const CONTEXTS: ContextLimits = PROFILE_CONTEXTS;

    ghost told_together = { λ w. refl };

    ghost profile = { λ w. tt };

    ghost short = { refl };

    // The trait's clause, that of the device within, and what is kept of the answer.
    fn transmit(&mut self, command: &[u8], reply: &mut Buffer) -> Result<(), DeviceFailed>
        requires { IsTrue (is_frame command.now) }
        ensures carries { TransmitsAtLink (ends_of S.left S.faults K.written K.faults) K.ended
            self.old.device command.now result reply.new self.new.device }
        ensures answered { OnOk result
            (self.new.newest ≡ Some (answer_of command.now reply.new)) }
        ensures unanswered { OnErr result (self.new.newest ≡ None) }
        ensures transmits { Transmits (told_by self.old.device) command.now result reply.new
            (told_by self.new.device) }
    {
        let is_first = self.device.fault() == LinkFault::Absent;
        match self.device.transmit(command, reply) {
            Ok(()) => {
                self.newest = Some(answered(command, reply.as_slice()));
                Ok(())
            }
            Err(DeviceFailed) => {
                self.newest = None;
                if is_first {
                    self.watcher.link_failed(self.device.fault());
                }
                Err(DeviceFailed)
            }
        }
    }

    fn fault_count(&self) -> u64 {
        self.device.fault_count()
    }

    fn sent_count(&self) -> u64 {
        self.device.sent_count()
    }
}

// What a command was answered.
fn answered(command: &[u8], response: &[u8]) -> Answered
    requires command { IsTrue (is_frame command.now) }
    requires response { IsTrue (is_frame response.now) }
    ensures { result ≡ answer_of command.now response.now }
{
    Answered {
        command: code_of(command),
        response: code_of(response),
        size: response.len(),
    }
}

#[cfg(test)]
mod tests;
