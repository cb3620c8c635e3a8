// What is told at the end.
ghost use Rattle.std.specs.Prelude.{◌≡◌, IfOk, OnErr};
ghost use Rattle.std.specs.Process.{exit_status};

use device_link::Answered;
use std::alloc::AllocError;
use std::process::ExitCode;

// The status if memory lacked before the top call could be made.
const NO_MEMORY: u8 = 5;

// The status after a wrong answer of the device.
const WRONG_ANSWER: u8 = 7;

/// Writes to standard error which answer of the device was wrong, if the top call ended for that.
pub fn tell_wrong_answer(rt: &impl Eprint, status: u8, newest: Option<Answered>) {
    if status != WRONG_ANSWER {
        return;
    }
    if let Some(answered) = newest {
        let Answered {
            command,
            response,
            size,
        } = answered;
        let _ = eprint!(rt; "tabrmd: the device's answer to command {command:#010x} is wrong: ");
        let _ = eprintln!(rt; "response code {response:#010x}, {size} bytes");
    }
}

/// Ends with the status, and writes one that isn't 0 to standard error with its detail. If standard
/// error takes nothing, only the exit status says it. An outcome that is an error is status 5.
pub fn report(rt: &impl Eprint, outcome: Result<(u8, u64), AllocError>) -> ExitCode
    ensures ends { IfOk outcome (λ told. exit_status result ≡ told.0) }
    ensures memory { OnErr outcome (exit_status result ≡ 5) }
{
    let (status, detail) = match outcome {
        Ok(told) => told,
        Err(AllocError) => (NO_MEMORY, 0),
    };
    if status != 0 {
        let _ = eprintln!(rt; "tabrmd: status {status} detail {detail}");
    }
    ExitCode::from(status)
}
