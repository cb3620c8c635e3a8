// The numbers of the statuses that a run ends with, which the program exits with.

// All was done: a script was played whole, or connections were served.
pub(crate) const DONE: u8 = 0;

// The words were refused.
pub(crate) const REFUSED: u8 = 2;

// The acceptor failed.
pub(crate) const ACCEPTOR_FAILED: u8 = 3;

// The output failed.
pub(crate) const OUTPUT_FAILED: u8 = 4;

// Memory lacked.
pub(crate) const NO_MEMORY: u8 = 5;

// The device failed at its start.
pub(crate) const START_FAILED: u8 = 6;

// The device gave a wrong answer.
pub(crate) const WRONG_ANSWER: u8 = 7;

// A line was bad.
pub(crate) const BAD_LINE: u8 = 8;

// The input failed.
pub(crate) const INPUT_FAILED: u8 = 9;

// The journal has no room for another client.
pub(crate) const JOURNAL_FULL: u8 = 10;

// One of the device's numbers is out of range.
pub(crate) const OUT_OF_RANGE: u8 = 11;
