ghost use Rattle.std.specs.Prelude.{◌≡◌, IfOk, IsErr, OnErr, Ok};

use link_port::{Sink, Source};
use std::alloc::AllocError;

/// What the words came to.
#[derive(Drop)]
pub struct Finished<S: Source, K: Sink> {
    /// The status with which the program ends.
    pub status: u8,
    /// What there is to tell of that status, as a count or the number of a line.
    pub detail: u64,
    /// The two ends of the link to the device, if there was one.
    pub ends: Option<(S, K)>,
}

/// The status with its detail. The ends are let go, which closes the connection to the device. It
/// fails only if the outcome is an error.
pub fn hang_up<S: Source + Drop, K: Sink + Drop>(
    outcome: Result<Finished<S, K>, AllocError>,
) -> Result<(u8, u64), AllocError>
    ensures ok { IfOk outcome (λ finished. result ≡ Ok (finished.status, finished.detail)) }
    ensures err { OnErr outcome (IsErr result) }
{
    let Finished {
        status,
        detail,
        ends: _,
    } = outcome?;
    Ok((status, detail))
}
