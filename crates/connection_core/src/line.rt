//! The line by which the reader of a connection sends commands to its worker, and the one by which
//! empty buffers come back.
ghost use Rattle.std.specs.Prelude.{◌≡◌, ◌<◌, List, ◌++◌, [], true, length, IfOk, IfNone, IfSome};
ghost use Rattle.tab_spec.specs.Count.{largest_count};
ghost use Rattle.crossbeam_channel.specs.Claims.{view, IsSeatAt};
ghost use Rattle.crossbeam_channel.specs.Ends.{sends_on, receives_on, ruled_capacity};
ghost use Rattle.connection_core.specs.Line.{HasTaken, IsWholeLine, both_of, sending, taking};
ghost use Rattle.connection_core.specs.Line.{with_sent};
ghost use Rattle.connection_core.specs.declared.message.Message.{Message};

use crate::message::Message;
use crossbeam_channel::protocol::{Free, Join, Lesson, Outcome, Protocol, Split};
use crossbeam_channel::{Pass, RuledReceiver, RuledSender, bounded_with};
use std::alloc::{AllocError, Global};
use std::marker::{Model, PhantomData};
use std::sync::Wait;
use tab_bytes::Buffer;

// How many messages wait at most between the reader and the worker.
const LINE_MESSAGES: usize = 16;

// A connection's buffers at most: one for each command that waits, the reader's and the worker's.
const LINK_BUFFERS: usize = LINE_MESSAGES + 2;

// Those where the reader runs the commands itself: its own, and one for the command that it runs.
const LONE_BUFFERS: usize = 2;

/// What a pass of a line did. No value of it is made.
pub(crate) struct LineHistory {
    of: PhantomData<()>,
}

impl Model for LineHistory {
    ghost use Rattle.connection_core.specs.Line.{LineView, first_view};

    ghost Value = { LineView };

    ghost view = { λ _. first_view };
}

/// The rule of a line: what was sent is what was taken, and then what it holds.
pub(crate) struct InOrder;

impl Protocol<Message, LineHistory> for InOrder {
    ghost use Rattle.connection_core.specs.Line.{IsInOrder, first_view};

    ghost holds = { IsInOrder };

    ghost first = { first_view };
}

/// The worker's pass is split from the reader's.
struct Roles;

impl Split<LineHistory> for Roles {
    ghost use Rattle.connection_core.specs.Line.{sending, taking};

    ghost left = { λ v. sending v.sent };

    ghost right = { λ v. taking v.taken };
}

impl Join<LineHistory> for Roles {
    ghost use Rattle.connection_core.specs.Line.{both_of, spent_view};

    ghost both = { both_of };

    ghost spent = { spent_view };
}

/// A message is sent, or taken.
struct Sends;

impl Outcome<Message, LineHistory> for Sends {
    ghost use Rattle.connection_core.specs.Line.{with_sent};

    ghost then = { λ v message w. w ≡ with_sent v message };
}

impl Lesson<Message, LineHistory> for Sends {
    ghost use Rattle.std.specs.Prelude.{⊤};

    ghost fact = { λ v items. ⊤ };
}

struct Takes;

impl Outcome<Message, LineHistory> for Takes {
    ghost use Rattle.connection_core.specs.Line.{HasTaken};

    ghost then = { HasTaken };
}

impl Lesson<Message, LineHistory> for Takes {
    ghost use Rattle.std.specs.Prelude.{⊤};

    ghost fact = { λ v items. ⊤ };
}

/// A pass that may do both learns what the line holds.
struct Total;

impl Lesson<Message, LineHistory> for Total {
    ghost use Rattle.connection_core.specs.Line.{IsWholeLine};

    ghost fact = { IsWholeLine };
}

/// What a thread knows of a line.
pub(crate) type LinePass = Pass<Message, LineHistory>;

/// The line from the reader to the worker.
#[derive(Drop)]
pub(crate) struct Line {
    pub sender: RuledSender<Message, LineHistory, InOrder>,
    receiver: RuledReceiver<Message, LineHistory, InOrder>,
    ghost one: { receives_on receiver ≡ sends_on sender },
}

impl Line {
    // A line that holds nothing, with the reader's pass and the worker's. It fails only for want of
    // memory, and takes none later.
    pub fn new(alloc: Global) -> Result<(Line, LinePass, LinePass), AllocError>
        ensures reader { IfOk result (λ r. IsSeatAt (sends_on r.0.sender) r.1
            × (view r.1 ≡ sending [])) }
        ensures worker { IfOk result (λ r. IsSeatAt (sends_on r.0.sender) r.2
            × (view r.2 ≡ taking [])) }
        ensures room { IfOk result (λ r. ruled_capacity (sends_on r.0.sender) ≡ 16) }
    {
        let (sender, receiver, mut reader) = bounded_with(alloc, LINE_MESSAGES)?;
        let worker = sender.another::<Roles>(&mut reader);
        Ok((Line { sender, receiver }, reader, worker))
    }

    // Sends a message, once there is room for it.
    pub fn send<R: Wait>(&self, rt: &R, pass: &mut LinePass, message: Message)
        requires line { IsSeatAt (sends_on self.now.sender) pass.old }
        requires sends { (view pass.old).sends ≡ true }
        requires few { length (view pass.old).sent < largest_count }
        ensures line { IsSeatAt (sends_on self.now.sender) pass.new }
        ensures sent { view pass.new ≡ with_sent (view pass.old) message }
    {
        let mut message = message;
        for _ in rt.forever() {
            match self.sender.send_as::<Sends, R>(rt, pass, message) {
                Ok(()) => return,
                Err(refused) => message = refused.into_inner(),
            }
        }
        unreachable!()
    }

    // Takes the next message, where there is one. No more were taken then than can be counted.
    pub fn try_take<R: Wait>(&self, rt: &R, pass: &mut LinePass) -> Option<Message>
        requires line { IsSeatAt (sends_on self.now.sender) pass.old }
        requires takes { (view pass.old).takes ≡ true }
        ensures line { IsSeatAt (sends_on self.now.sender) pass.new }
        ensures some { IfSome result (λ message. HasTaken (view pass.old) message (view pass.new)) }
        ensures none { IfNone result (view pass.new ≡ view pass.old) }
    {
        self.receiver.try_recv_as::<Takes, R>(rt, pass).ok()
    }

    // Once both sides are done: what was sent is what was taken, and then what the line holds.
    pub fn finish(&self, reader: LinePass, worker: LinePass)
        requires reader { IsSeatAt (sends_on self.now.sender) reader
            × ((view reader).sends ≡ true) }
        requires worker { IsSeatAt (sends_on self.now.sender) worker
            × ((view worker).takes ≡ true) }
        ensures { (items : List Message) × ((view reader).sent ≡ (view worker).taken ++ items) }
    {
        let mut both = reader;
        self.sender.absorb::<Roles>(&mut both, worker);
        self.sender.learn_as::<Total>(&mut both);
    }
}

/// Each thread has the same pass of the spare buffers.
struct Alike;

impl Split<()> for Alike {
    ghost left = { λ v. v };

    ghost right = { λ v. v };
}

/// What a thread shows to use the spare buffers.
pub(crate) type SparePass = Pass<Buffer, ()>;

/// Buffers that no command is in.
#[derive(Drop)]
pub(crate) struct Spares {
    pub sender: RuledSender<Buffer, (), Free>,
    receiver: RuledReceiver<Buffer, (), Free>,
    ghost one: { receives_on receiver ≡ sends_on sender },
}

impl Spares {
    // All buffers of a connection but the reader's, with the reader's pass and the worker's. Where
    // the reader runs the commands itself, none has to wait in a buffer of its own. It fails only
    // for want of memory, and takes none later.
    pub fn new<R: Wait>(
        rt: &R,
        alloc: Global,
        alone: bool,
    ) -> Result<(Spares, SparePass, SparePass), AllocError>
        ensures reader { IfOk result (λ r. IsSeatAt (sends_on r.0.sender) r.1) }
        ensures worker { IfOk result (λ r. IsSeatAt (sends_on r.0.sender) r.2) }
        ensures room { IfOk result (λ r. ruled_capacity (sends_on r.0.sender) ≡ 18) }
    {
        let (sender, receiver, mut reader) = bounded_with(alloc, LINK_BUFFERS)?;
        let worker = sender.another::<Alike>(&mut reader);
        let spares = Spares { sender, receiver };
        let buffers = if alone { LONE_BUFFERS } else { LINK_BUFFERS };
        spares.fill(rt, alloc, &mut reader, buffers)?;
        Ok((spares, reader, worker))
    }

    // Gives all of so many buffers but the reader's.
    fn fill<R: Wait>(
        &self,
        rt: &R,
        alloc: Global,
        pass: &mut SparePass,
        buffers: usize,
    ) -> Result<(), AllocError>
        requires { IsSeatAt (sends_on self.now.sender) pass.old }
        ensures { IsSeatAt (sends_on self.now.sender) pass.new }
    {
        for _ in 1..buffers {
            self.give(rt, pass, Buffer::new(alloc)?);
        }
        Ok(())
    }

    // Gives a buffer. There is room for all of a connection.
    pub fn give<R: Wait>(&self, rt: &R, pass: &mut SparePass, buffer: Buffer)
        requires { IsSeatAt (sends_on self.now.sender) pass.old }
        ensures { IsSeatAt (sends_on self.now.sender) pass.new }
    {
        let mut buffer = buffer;
        for _ in rt.forever() {
            match self.sender.send_as::<Free, R>(rt, pass, buffer) {
                Ok(()) => return,
                Err(refused) => buffer = refused.into_inner(),
            }
        }
        unreachable!()
    }

    // Takes a buffer, once there is one.
    pub fn take<R: Wait>(&self, rt: &R, pass: &mut SparePass) -> Buffer
        requires { IsSeatAt (sends_on self.now.sender) pass.old }
        ensures { IsSeatAt (sends_on self.now.sender) pass.new }
    {
        for _ in rt.forever() {
            if let Ok(buffer) = self.receiver.recv_as::<Free, R>(rt, pass) {
                return buffer;
            }
        }
        unreachable!()
    }
}
