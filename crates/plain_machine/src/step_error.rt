/// Why a command wasn't run.
#[derive(Clone, Copy, PartialEq, Eq)]
pub enum StepError {
    /// The command doesn't leave the choice that the pick tells, or not that number.
    PickRefused,
    /// There was no memory for another object.
    Memory,
}
