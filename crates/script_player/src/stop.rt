ghost use Rattle.std.specs.Prelude.{◌≡◌, OnOk, IfErr};
ghost use Rattle.broker_lock.specs.declared.calls.Closed.TheVariants as closes;
ghost use Rattle.broker_lock.specs.declared.calls.Told.TheVariants as tolds;
ghost use Rattle.script_player.specs.declared.stop.Stop.TheVariants as stops;
ghost use Rattle.script_player.specs.Play.{stop_unopened};

use broker_lock::{Closed, OpenClientError, Told};

/// Why no more of a script is played.
#[derive(Clone, Copy)]
pub enum Stop {
    /// The input ended.
    End,
    /// The number of a bad line, from 1.
    BadLine(u64),
    /// There was no memory to open a label.
    Memory,
    /// The journal had no room for another client when a label was to be opened. The value is the
    /// number of bytes that the journal keeps.
    Full(u64),
    /// The output failed; its fault count.
    Output(u64),
    /// The input failed; its fault count.
    Input(u64),
    /// The device gave a wrong answer.
    Answer,
}

// The stop for a client that couldn't be opened.
pub(crate) fn unopened(error: OpenClientError) -> Stop
    ensures { result ≡ stop_unopened error }
{
    match error {
        OpenClientError::Memory | OpenClientError::Answer => Stop::Memory,
        OpenClientError::JournalFull { kept, limit: _ } => Stop::Full(kept),
    }
}

// Goes on after a command, but not after a wrong answer.
pub(crate) fn after_told(told: Told) -> Result<(), Stop>
    ensures ok { OnOk result (told ≡ tolds.Answer → ⊥) }
    ensures err { IfErr result (λ stop. (stop ≡ stops.Answer) × (told ≡ tolds.Answer)) }
{
    match told {
        Told::Answer => Err(Stop::Answer),
        Told::Entered => Ok(()),
        Told::Memory => Ok(()),
        Told::JournalFull { kept: _, limit: _ } => Ok(()),
    }
}

// Goes on after a close, but not after a wrong answer.
pub(crate) fn after_closed(closed: Closed) -> Result<(), Stop>
    ensures ok { OnOk result (closed ≡ closes.Answer → ⊥) }
    ensures err { IfErr result (λ stop. (stop ≡ stops.Answer) × (closed ≡ closes.Answer)) }
{
    match closed {
        Closed::Answer => Err(Stop::Answer),
        Closed::Clean => Ok(()),
        Closed::Orphans(_) => Ok(()),
    }
}
