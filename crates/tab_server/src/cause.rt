// Why a run ended.
ghost use Rattle.std.specs.Prelude.{◌≡◌};
ghost use Rattle.tab_server.specs.Status.{cause_of, detail_of, status_of};

use crate::status::{
    BAD_LINE, DONE, INPUT_FAILED, JOURNAL_FULL, NO_MEMORY, OUTPUT_FAILED, WRONG_ANSWER,
};
use script_player::Stop;

// Why a run ended once its broker had begun. It has the detail of the status.
#[derive(Clone, Copy)]
pub(crate) enum Cause {
    // The script was played whole.
    End,
    // The number of a bad line, from 1.
    BadLine(u64),
    // There was no memory to open a label.
    Memory,
    // The journal had no room for another client. The value is the number of bytes that it keeps.
    Full(u64),
    // The output failed; its fault count.
    Output(u64),
    // The input failed; its fault count.
    Input(u64),
    // The device gave a wrong answer; its code.
    Answer(u64),
}

// Returns why a run ended, from why its script stopped and from the code of a wrong answer, if one
// came. A stop for a wrong answer always has a code.
pub(crate) fn cause_of(stop: Stop, wrong_answer: Option<u64>) -> Cause
    ensures { result ≡ cause_of stop wrong_answer }
{
    match stop {
        Stop::End => match wrong_answer {
            Some(code) => Cause::Answer(code),
            None => Cause::End,
        },
        Stop::BadLine(number) => Cause::BadLine(number),
        Stop::Memory => Cause::Memory,
        Stop::Full(count) => Cause::Full(count),
        Stop::Output(count) => Cause::Output(count),
        Stop::Input(count) => Cause::Input(count),
        Stop::Answer => Cause::Answer(wrong_answer.unwrap_or(0)),
    }
}

// The status of a run that ended so, and its detail.
pub(crate) fn status(cause: Cause) -> (u8, u64)
    ensures { (result.0 ≡ status_of cause) × (result.1 ≡ detail_of cause) }
{
    match cause {
        Cause::End => (DONE, 0),
        Cause::BadLine(number) => (BAD_LINE, number),
        Cause::Memory => (NO_MEMORY, 0),
        Cause::Full(count) => (JOURNAL_FULL, count),
        Cause::Output(count) => (OUTPUT_FAILED, count),
        Cause::Input(count) => (INPUT_FAILED, count),
        Cause::Answer(code) => (WRONG_ANSWER, code),
    }
}
