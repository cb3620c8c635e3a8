ghost use Rattle.std.specs.Prelude.{◌≡◌, ◌<◌, ◌≤◌, ℕ, Bool, List, Option, length, take, IfOk, OnOk};
ghost use Rattle.std.specs.Prelude.{OnErr, IfSome, IfNone};
ghost use Rattle.tab_spec.specs.Count.{Rose};
ghost use Rattle.link_port.specs.Port.{Accepted, Pulled, at_end, with_more};

/// A source, a sink or an acceptor failed in this call. Its fault count rose.
#[derive(Clone, Copy, Debug, PartialEq, Eq)]
pub struct Failed;

/// Where bytes come from: a script, or one end of a connection.
pub trait Source {
    /// The bytes that are still to come, if the source shows them.
    ghost left: { Self → Option (List ℕ) };

    /// How often it has failed. The count never falls, and stands still at the largest u64.
    ghost faults: { Self → ℕ };

    /// Writes the next bytes to the front of `into`, and answers how many; the fault count stays
    /// then. It answers 0 only where none is left or `into` is empty. `Failed` comes only where the
    /// fault count rose, and then no byte is taken.
    fn pull(&mut self, into: &mut [u8]) -> Result<usize, Failed>
        ensures bound { IfOk result (λ k. k ≤ length into.old) }
        ensures pulled { IfOk result
            (λ k. Pulled (left self.old) (left self.new) (length into.old) (take k into.new)) }
        ensures err { OnErr result (left self.new ≡ left self.old) }
        ensures fault { OnErr result (Rose (faults self.old) (faults self.new)) }
        ensures quiet { OnOk result (faults self.new ≡ faults self.old) }
        ensures count { faults self.old ≤ faults self.new };

    /// Whether [`Source::pull_ready`] can say at once what has come. By default it can't. The
    /// answer must not change: a connection decides by it whether it needs a second thread.
    fn is_prompt(&self) -> bool {
        false
    }

    /// As [`Source::pull`], but it never waits: `None` where no byte has come yet, and then nothing
    /// changed. By default that is its answer each time.
    fn pull_ready(&mut self, into: &mut [u8]) -> Result<Option<usize>, Failed>
        ensures bound { IfOk result (λ r. IfSome r (λ k. k ≤ length into.old)) }
        ensures pulled { IfOk result (λ r. IfSome r
            (λ k. Pulled (left self.old) (left self.new) (length into.old) (take k into.new))) }
        ensures none { IfOk result (λ r. IfNone r (left self.new ≡ left self.old)) }
        ensures err { OnErr result (left self.new ≡ left self.old) }
        ensures fault { OnErr result (Rose (faults self.old) (faults self.new)) }
        ensures quiet { OnOk result (faults self.new ≡ faults self.old) }
        ensures count { faults self.old ≤ faults self.new }
    {
        let _ = into;
        Ok(None)
    }

    /// The fault count.
    fn fault_count(&self) -> u64
        ensures { result ≡ faults self.now };
}

/// Where bytes go to: the replies of a script, or one end of a connection.
pub trait Sink {
    /// The bytes that were written, if the sink shows them.
    ghost written: { Self → Option (List ℕ) };

    /// Whether the sink was ended, if it shows that.
    ghost ended: { Self → Option Bool };

    /// How often it has failed. The count never falls, and stands still at the largest u64.
    ghost faults: { Self → ℕ };

    /// Appends the first bytes of `bytes`, and answers how many: at least one where `bytes` isn't
    /// empty, and then the fault count stays. `Failed` comes only where it rose, and then no byte
    /// is written.
    fn push(&mut self, bytes: &[u8]) -> Result<usize, Failed>
        ensures bound { IfOk result (λ k. k ≤ length bytes.now) }
        ensures some { IfOk result (λ k. 0 < length bytes.now → 0 < k) }
        ensures pushed { IfOk result
            (λ k. written self.new ≡ with_more (written self.old) (take k bytes.now)) }
        ensures err { OnErr result (written self.new ≡ written self.old) }
        ensures goes_on { ended self.new ≡ ended self.old }
        ensures fault { OnErr result (Rose (faults self.old) (faults self.new)) }
        ensures quiet { OnOk result (faults self.new ≡ faults self.old) }
        ensures count { faults self.old ≤ faults self.new };

    /// Says that nothing more will be written: a peer that waits for more sees the end. It writes
    /// nothing, and is no failure.
    fn end(&mut self)
        ensures written { written self.new ≡ written self.old }
        ensures end_told { ended self.new ≡ at_end (ended self.old) }
        ensures faults { faults self.new ≡ faults self.old };

    /// The fault count.
    fn fault_count(&self) -> u64
        ensures { result ≡ faults self.now };
}

/// Where connections come from. Both ends of one may be used by a thread of its own.
pub trait Acceptor {
    /// The end that a client's commands come from.
    type In: Source + Send + Drop;

    /// The end that its replies go to.
    type Out: Sink + Send + Drop;

    /// The connections that are still to come, if the acceptor shows them.
    ghost coming: { Self → Option (List (Self.In × Self.Out)) };

    /// How often it has failed. The count never falls, and stands still at the largest u64.
    ghost faults: { Self → ℕ };

    /// Hands out the next connection, and may wait for one; the fault count stays then. `None`
    /// comes only where none is left. `Failed` comes only where the fault count rose, and then no
    /// connection is taken.
    fn next(&mut self) -> Result<Option<(Self::In, Self::Out)>, Failed>
        ensures accepted { IfOk result (λ link. Accepted (coming self.old) (coming self.new) link) }
        ensures err { OnErr result (coming self.new ≡ coming self.old) }
        ensures fault { OnErr result (Rose (faults self.old) (faults self.new)) }
        ensures quiet { OnOk result (faults self.new ≡ faults self.old) }
        ensures count { faults self.old ≤ faults self.new };

    /// The fault count.
    fn fault_count(&self) -> u64
        ensures { result ≡ faults self.now };
}
