use std::fmt;

/// Why a link to a device failed first. This project's own.
#[derive(Clone, Copy, Debug, PartialEq, Eq)]
pub enum LinkFault {
    /// It hasn't failed.
    Absent,
    /// A read failed: the fault count of the source rose.
    Source,
    /// A write failed: the fault count of the sink rose.
    Sink,
    /// The source ended before the response did.
    End,
    /// A response had this size in its header, which is below 10 or above 4,096 bytes.
    Size(u32),
}

impl fmt::Display for LinkFault {
    fn fmt<W: fmt::Write>(&self, f: &mut fmt::Formatter<W>) -> fmt::Result {
        match self {
            LinkFault::Absent => write!(f, "it hasn't failed"),
            LinkFault::Source => write!(f, "it can't be read"),
            LinkFault::Sink => write!(f, "it can't be written"),
            LinkFault::End => write!(f, "it was closed"),
            LinkFault::Size(size) => write!(f, "a response of {size} bytes"),
        }
    }
}
