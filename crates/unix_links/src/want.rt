// What the system lacks for a while.
use std::time::{Clock, Duration};
use std::{io, thread};

// How many milliseconds a want is waited out before the next try.
const PAUSE: u64 = 250;

// Linux's numbers for a system that has too many open files, and for one without room for a socket.
const ENFILE: i32 = 23;

const ENOBUFS: i32 = 105;

/// What the system lacks for the next connection, and whether standard error has said so.
#[derive(Drop)]
pub(crate) struct Want {
    is_told: bool,
}

impl Want {
    /// Nothing lacks so far.
    pub(crate) fn new() -> Want {
        Want { is_told: false }
    }

    /// Reports this error on standard error, if none was reported, and waits for a quarter of a
    /// second. If the error is no want that passes, it is handed back at once.
    pub(crate) fn wait_out<R: Clock + Eprint>(
        &mut self,
        rt: &R,
        error: io::Error,
    ) -> io::Result<()> {
        if !passes(&error) {
            return Err(error);
        }
        if !self.is_told {
            let _ = eprintln!(rt; "tabrmd: waits to accept a connection: {error}");
            self.is_told = true;
        }
        thread::sleep(rt, Duration::from_millis(PAUSE));
        Ok(())
    }
}

// Whether this is a want of descriptors or of memory, a connection that went away before it was
// accepted, or an interrupted call: the next try may succeed.
fn passes(error: &io::Error) -> bool {
    match error.raw_os_error() {
        Some(code) => matches!(
            code,
            ENFILE | ENOBUFS | libc::EINTR | libc::ENOMEM | libc::EMFILE | libc::ECONNABORTED
        ),
        None => false,
    }
}
