//! An acceptor that goes from thread to thread, and comes back.
ghost use Rattle.std.specs.Prelude.{◌≡◌, ℕ, IfOk, OnOk, OnErr};
ghost use Rattle.tab_spec.specs.Count.{Rose};
ghost use Rattle.link_port.specs.Port.{Accepted};

use link_port::{Acceptor, Failed};

/// An acceptor that goes from thread to thread, and stays the one that it is.
pub trait Passed: Acceptor + Drop {
    ghost name: { Self → ℕ };

    // What `next` does.
    fn next_link(&mut self) -> Result<Option<(Self::In, Self::Out)>, Failed>
        ensures accepted { IfOk result
            (λ link. Accepted (Self.coming self.old) (Self.coming self.new) link) }
        ensures err { OnErr result (Self.coming self.new ≡ Self.coming self.old) }
        ensures fault { OnErr result (Rose (Self.faults self.old) (Self.faults self.new)) }
        ensures quiet { OnOk result (Self.faults self.new ≡ Self.faults self.old) }
        ensures name { name self.new ≡ name self.old };
}

/// An acceptor that is lent.
#[derive(Drop)]
pub struct Lent<'a, A> {
    pub acceptor: &'a mut A,
}

impl<'a, A: Acceptor> Acceptor for Lent<'a, A> {
    type In = A::In;

    type Out = A::Out;

    ghost coming = { λ l. A.coming l.acceptor.now };

    ghost faults = { λ l. A.faults l.acceptor.now };

    fn next(&mut self) -> Result<Option<(A::In, A::Out)>, Failed> {
        self.acceptor.next()
    }

    fn fault_count(&self) -> u64 {
        self.acceptor.fault_count()
    }
}

impl<'a, A: Acceptor> Passed for Lent<'a, A> {
    ghost name = { λ l. l.acceptor.ghost_name };

    fn next_link(&mut self) -> Result<Option<(A::In, A::Out)>, Failed> {
        self.acceptor.next()
    }
}

/// Does nothing. It uses the lent reference once more, which shows that the reference came back.
pub fn take_back<A>(acceptor: &mut A)
    ensures { acceptor.new ≡ acceptor.old }
{}
