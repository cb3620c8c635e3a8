// A socket that listens at a path, and its file there.

use crate::probe::is_left_over;
use libc::net::listen;
use std::fs::{Files, Permissions};
use std::io::ErrorKind;
use std::net::Net;
use std::os::fd::{AsFd, AsRawFd, OwnedFd};
use std::os::unix::fs::{FileTypeExt, MetadataExt, PermissionsExt};
use std::os::unix::net::{SocketAddr, UnixListener};
use std::path::AsPath;
use std::{fs, io};

// As many connections may wait as the system allows.
const BACKLOG: i32 = -1;

/// The file of a socket that listens. It is removed where this is dropped, unless another file
/// stands at its path by then.
pub(crate) struct SocketFile<'a, R: Files> {
    rt: &'a R,
    address: SocketAddr,
    file: Option<(u64, u64)>,
}

impl<'a, R: Files + Net> SocketFile<'a, R> {
    /// Listens at this address, whose lock is held, and makes a file there. Its mode is the one
    /// that is given, before anybody can connect, or else what the umask leaves. A socket file to
    /// which no socket is bound any more is removed first.
    pub(crate) fn listen(
        rt: &'a R,
        address: SocketAddr,
        mode: Option<u32>,
    ) -> io::Result<(UnixListener, SocketFile<'a, R>)> {
        let socket = bind(rt, &address)?;
        let file = file_at(rt, &address);
        let file = SocketFile { rt, address, file };
        file.set_mode(mode)?;
        if listen(socket.as_raw_fd(), BACKLOG) < 0 {
            return Err(io::Error::from_raw_os_error(os::errno()));
        }
        Ok((UnixListener::from(socket), file))
    }

    fn set_mode(&self, mode: Option<u32>) -> io::Result<()> {
        match (mode, self.address.as_pathname()) {
            (Some(mode), Some(path)) => {
                fs::set_permissions(self.rt, path, Permissions::from_mode(mode))
            }
            _ => Ok(()),
        }
    }
}

// A socket that is bound to this address, also where a socket file is left over there, and that
// doesn't listen yet.
fn bind<R: Files + Net>(rt: &R, address: &SocketAddr) -> io::Result<OwnedFd> {
    let socket = rt.unix_socket()?;
    match rt.bind_unix(socket.as_fd(), address) {
        Err(e) if e.kind() == ErrorKind::AddrInUse && has_left_over(rt, address) => {
            remove_file_of(rt, address)?;
            rt.bind_unix(socket.as_fd(), address)?;
        }
        outcome => outcome?,
    }
    Ok(socket)
}

// Whether the file at this address is a socket's to which no socket is bound any more.
fn has_left_over<R: Files + Net>(rt: &R, address: &SocketAddr) -> bool {
    let Some(path) = address.as_pathname() else {
        return false;
    };
    match fs::symlink_metadata(rt, path) {
        Ok(found) if found.file_type().is_socket() => is_left_over(rt, path.path_text()),
        _ => false,
    }
}

// Which file stands at this address: the number of its device, and its own number there.
fn file_at<R: Files>(rt: &R, address: &SocketAddr) -> Option<(u64, u64)> {
    let found = fs::symlink_metadata(rt, address.as_pathname()?).ok()?;
    Some((found.dev(), found.ino()))
}

// Removes the file at this address.
fn remove_file_of<R: Files>(rt: &R, address: &SocketAddr) -> io::Result<()> {
    match address.as_pathname() {
        Some(path) => fs::remove_file(rt, path),
        None => Ok(()),
    }
}

impl<'a, R: Files> Drop for SocketFile<'a, R> {
    fn drop(self) {
        if self.file.is_some() && file_at(self.rt, &self.address) == self.file {
            let _ = remove_file_of(self.rt, &self.address);
        }
        let SocketFile {
            rt: _,
            address: _,
            file: _,
        } = self;
    }
}
