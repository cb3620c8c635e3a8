// The lock file beside a socket.

use std::fs::{File, Files, OpenOptions, TryLockError};
use std::io::ErrorKind;
use std::os::unix::fs::{MetadataExt, OpenOptionsExt};
use std::{fs, io};

// How often a lock file is opened that others remove in between.
const TRIES: u32 = 100;

// The permissions of a lock file: nobody else can take the lock.
const MODE: u32 = 0o600;

/// The exclusive lock of the file at a path with `.lock` behind it. Nobody else has it while this
/// lives, also where its folder goes by another name. The file is removed where this is dropped. It
/// stays where the process is killed, and the lock is free then.
pub(crate) struct PathLock<'a, R: Files> {
    rt: &'a R,
    path: String,
    file: File,
}

impl<'a, R: Files<File = File> + AllocGlobal> PathLock<'a, R> {
    /// Takes the lock, and makes its file where there is none. Where another process has it, or
    /// where what stands there isn't a file, the error is `AddrInUse`. The other errors are the
    /// system's.
    pub(crate) fn take(rt: &'a R, path: &str) -> io::Result<PathLock<'a, R>> {
        let path = format!(in rt.alloc(); "{path}.lock")?;
        for _ in 0..TRIES {
            let Some(file) = open(rt, path.as_str())? else {
                continue;
            };
            match file.try_lock() {
                Ok(()) => {}
                Err(TryLockError::WouldBlock) => return Err(held()),
                Err(TryLockError::Error(e)) => return Err(e),
            }
            if is_at(rt, path.as_str(), &file) {
                return Ok(PathLock { rt, path, file });
            }
        }
        Err(held())
    }
}

// That another process has the lock.
fn held() -> io::Error {
    io::Error::new(
        ErrorKind::AddrInUse,
        "another process holds the lock file beside it",
    )
}

// Opens the lock file, and makes it where there is none. `None` where it went in between. It
// follows no symlink: so nothing is made or opened elsewhere.
fn open<R: Files<File = File>>(rt: &R, path: &str) -> io::Result<Option<File>> {
    let mut made = OpenOptions::new();
    made.read(true).write(true).create_new(true).mode(MODE);
    match made.open(rt, path) {
        Ok(file) => return Ok(Some(file)),
        Err(e) if e.kind() == ErrorKind::AlreadyExists => {}
        Err(e) => return Err(e),
    }
    match fs::symlink_metadata(rt, path) {
        Ok(found) if !found.is_file() => {
            let words = "what stands at the path of its lock file isn't a file";
            return Err(io::Error::new(ErrorKind::AddrInUse, words));
        }
        Err(e) if e.kind() != ErrorKind::NotFound => return Err(e),
        _ => {}
    }
    match OpenOptions::new().read(true).write(true).open(rt, path) {
        Ok(file) => Ok(Some(file)),
        Err(e) if e.kind() == ErrorKind::NotFound => Ok(None),
        Err(e) => Err(e),
    }
}

// Whether this file still stands at this path. Only then does its lock count: who had it before may
// have removed it after it was opened here.
fn is_at<R: Files>(rt: &R, path: &str, file: &File) -> bool {
    match (fs::symlink_metadata(rt, path), file.metadata()) {
        (Ok(there), Ok(ours)) => (there.dev(), there.ino()) == (ours.dev(), ours.ino()),
        _ => false,
    }
}

// The file goes before the lock does: so whoever opened it by then finds that it isn't there any
// more.
impl<'a, R: Files> Drop for PathLock<'a, R> {
    fn drop(self) {
        if is_at(self.rt, self.path.as_str(), &self.file) {
            let _ = fs::remove_file(self.rt, self.path.as_str());
        }
        let PathLock {
            rt: _,
            path: _,
            file: _,
        } = self;
    }
}
