ghost use Rattle.std.specs.Prelude.{refl, ◌≡◌, IfSome, IsTrue, OnOk, OnErr, None, Some};
ghost use Rattle.tab_spec.specs.declared.contexts.TheConstants.{TPM_CONTEXTS};
ghost use Rattle.tab_spec.specs.Frame.{is_frame};
ghost use Rattle.device_port.specs.Device.{Transmits};
ghost use Rattle.device_link.specs.Carried.{HasCarried};
ghost use Rattle.device_link.specs.Link.{TransmitsAtLink, ends_of, told_by};
ghost use Rattle.device_link.specs.Watched.{answer_of};

use crate::{Answered, Began, WatchedLink, Watcher};
use device_port::{Device, DeviceFailed};
use link_port::{Sink, Source};
use std::marker::{Brand, Model};
use tab_bytes::Buffer;
use tab_spec::{ContextLimits, TPM_CONTEXTS};

/// A [`WatchedLink`] to a TPM that needn't be of this project's profile: contexts may be larger,
/// and Create may need a slot. All else is as it is.
#[derive(Drop)]
pub struct TpmLink<S: Source, K: Sink, W: Watcher, J: Began = Brand> {
    link: WatchedLink<S, K, W, J>,
}

impl<S: Source, K: Sink, W: Watcher, J: Began> Model for TpmLink<S, K, W, J> {
    ghost use Rattle.device_link.specs.Watched.{WatchedAtLink};

    ghost Value = { WatchedAtLink S K };

    ghost view = { λ t. t.link };
}

impl<S: Source, K: Sink, W: Watcher, J: Began> TpmLink<S, K, W, J> {
    /// The TPM at this link.
    pub fn new(link: WatchedLink<S, K, W, J>) -> TpmLink<S, K, W, J>
        ensures { result ≡ link }
    {
        TpmLink { link }
    }

    /// What it answered to the newest command. `None` if that one failed, and before the first.
    pub fn newest(&self) -> Option<Answered>
        ensures { result ≡ self.now.newest }
    {
        self.link.newest()
    }

    /// Gives the two ends of the link back, and lets the watcher go.
    pub fn into_ends(self) -> (S, K)
    where
        W: Drop,
        ensures ends { (result.0 ≡ self.device.source) × (result.1 ≡ self.device.sink) }
        ensures carried { IfSome J.began
            (λ began. HasCarried self.device.fault began self.device.faults self.device.trace
            (ends_of S.left S.faults K.written K.faults result.0 result.1)) }
    {
        let TpmLink { link } = self;
        link.into_ends()
    }
}

impl<S: Source, K: Sink, W: Watcher, J: Began> Device for TpmLink<S, K, W, J> {
    ghost seen = { λ t. told_by t.device };

    ghost CONTEXTS = { TPM_CONTEXTS };

    const CONTEXTS: ContextLimits = TPM_CONTEXTS;

    ghost told_together = { λ t. refl };

    ghost profile = { λ t. tt };

    ghost short = { refl };

    // What the link within does.
    fn transmit(&mut self, command: &[u8], reply: &mut Buffer) -> Result<(), DeviceFailed>
        requires { IsTrue (is_frame command.now) }
        ensures carries { TransmitsAtLink (ends_of S.left S.faults K.written K.faults) K.ended
            self.old.device command.now result reply.new self.new.device }
        ensures answered { OnOk result
            (self.new.newest ≡ Some (answer_of command.now reply.new)) }
        ensures unanswered { OnErr result (self.new.newest ≡ None) }
        ensures transmits { Transmits (told_by self.old.device) command.now result reply.new
            (told_by self.new.device) }
    {
        self.link.transmit(command, reply)
    }

    fn fault_count(&self) -> u64 {
        self.link.fault_count()
    }

    fn sent_count(&self) -> u64 {
        self.link.sent_count()
    }
}
