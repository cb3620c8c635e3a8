ghost use Rattle.std.specs.Prelude.{◌≡◌, Some, None, option_map, MatchOption};
ghost use Rattle.effect_spec.specs.Operands.{StandFor, handles_left, named_session, number_of};
ghost use Rattle.effect_spec.specs.Operands.{object_in, plain_operand, plain_operands};
ghost use Rattle.effect_spec.specs.Operands.{policy_session_in, session_in, with_session};
ghost use Rattle.tab_values.specs.Views.{object_of, session_of};
ghost use Rattle.fx_table.specs.Views.{operand_of, operands_of};

use tab_spec::{Kind, Shape};
use tab_values::{Object, Session};

/// What a handle of a command stands for.
#[derive(Drop)]
pub enum Operand<'a> {
    /// There is no such handle.
    Absent,
    /// A hierarchy, a PCR or an NV index, by its handle.
    Plain(u32),
    Object(&'a Object),
    /// A session and its handle.
    Session(u32, Session),
}

/// What the two handles of a command stand for, and the session that its authorization names, with
/// its handle.
#[derive(Drop)]
pub struct Operands<'a> {
    pub first: Operand<'a>,
    pub second: Operand<'a>,
    pub session: Option<(u32, Session)>,
}

/// What a command created.
#[derive(Drop)]
pub enum Created {
    Nothing,
    Object(Object),
    Session(Session),
}

// What the row of a command left beside the parameters of the response: what it created, and the
// policy session that a handle names.
#[derive(Drop)]
pub(crate) struct RowOutcome {
    pub(crate) created: Created,
    pub(crate) policy: Option<Session>,
}

// A row that names no policy session, and what it created.
pub(crate) fn making(created: Created) -> RowOutcome
    ensures { result ≡ record { created = created; policy = None } }
{
    RowOutcome {
        created,
        policy: None,
    }
}

/// What a command left beside its reply.
#[derive(Drop)]
pub struct CommandOutcome {
    pub created: Created,
    /// Whether the session of the authorization ended.
    pub auth_ended: bool,
}

impl Operand<'_> {
    /// The handle that it holds; 0 where it holds none.
    pub fn handle(&self) -> u32
        ensures { result ≡ number_of (operand_of self.now) }
    {
        match self {
            Operand::Plain(handle) => *handle,
            Operand::Session(handle, _) => *handle,
            _ => 0,
        }
    }

    /// The object that it stands for.
    pub fn object(&self) -> Option<&Object>
        ensures { MatchOption result
            (object_in (operand_of self.now) ≡ None)
            (λ o. object_in (operand_of self.now) ≡ Some (object_of o.now)) }
    {
        match self {
            Operand::Object(object) => Some(*object),
            _ => None,
        }
    }

    /// The session that it stands for.
    pub fn session(&self) -> Option<&Session>
        ensures { MatchOption result
            (session_in (operand_of self.now) ≡ None)
            (λ s. session_in (operand_of self.now) ≡ Some (session_of s.now)) }
    {
        match self {
            Operand::Session(_, session) => Some(session),
            _ => None,
        }
    }

    // The same handle with another session, where it stands for one.
    fn put_session(&mut self, session: &Session)
        ensures { operand_of self.new
            ≡ with_session (session_of session.now) (operand_of self.old) }
    {
        if let Operand::Session(_, kept) = self {
            *kept = session.copied();
        }
    }
}

impl Operands<'_> {
    // The policy session that a handle names.
    pub(crate) fn policy_session(&self) -> Option<&Session>
        ensures { MatchOption result
            (policy_session_in (operands_of self.now).handles ≡ None)
            (λ s. policy_session_in (operands_of self.now).handles ≡ Some (session_of s.now)) }
    {
        match self.first.session() {
            Some(session) => Some(session),
            None => self.second.session(),
        }
    }

    // The session that the authorization names.
    pub(crate) fn authorizing_session(&self) -> Option<&Session>
        ensures { MatchOption result
            (named_session (operands_of self.now).session ≡ None)
            (λ s. named_session (operands_of self.now).session ≡ Some (session_of s.now)) }
    {
        match &self.session {
            Some((_, session)) => Some(session),
            None => None,
        }
    }

    // A policy session as a command left it, in the place of the one that a handle names.
    pub(crate) fn put_policy_session(&mut self, left: Option<Session>)
        ensures handles { (operands_of self.new).handles
            ≡ handles_left (option_map session_of left) (operands_of self.old).handles }
        ensures session { (operands_of self.new).session ≡ (operands_of self.old).session }
    {
        if let Some(session) = left {
            self.first.put_session(&session);
            self.second.put_session(&session);
        }
    }

    /// The operands of a command that names no object and no session: each handle stands for
    /// itself.
    pub fn plain(shape: &Shape) -> Operands<'static>
        ensures value { operands_of result ≡ plain_operands shape.now }
        ensures stands { StandFor shape.now (operands_of result) }
    {
        let [first, second] = shape.row.handles;
        Operands {
            first: plain_operand(first, shape.handles[0]),
            second: plain_operand(second, shape.handles[1]),
            session: None,
        }
    }
}

// A handle that stands for itself, where it is there.
fn plain_operand(kind: Kind, handle: u32) -> Operand<'static>
    ensures { operand_of result ≡ plain_operand kind handle }
{
    match kind {
        Kind::Absent => Operand::Absent,
        _ => Operand::Plain(handle),
    }
}
