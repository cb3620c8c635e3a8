// Whether a socket is bound to a socket file, found out without a connection and without waiting.
ghost use Rattle.std.specs.Prelude.{◌≤◌, IfSome};

use libc::net::{_SS_SIZE, AF_UNIX, SOCK_CLOEXEC, SOCK_DGRAM, connect, socket};
use os::FromRawFd;
use std::io;
use std::io::ErrorKind;
use std::net::Net;
use std::os::fd::{AsRawFd, OwnedFd};

// The bytes of an address before its path, and those that a path may have.
const FAMILY_BYTES: usize = 2;

const MOST_PATH_BYTES: usize = 107;

/// Whether no socket of any kind is bound any more to the socket file at this path. It asks by a
/// datagram socket: the system refuses to connect it if no socket is bound, and has another error
/// if one of another kind is. So no one sees a connection, and a full queue doesn't keep it
/// waiting. If the system doesn't say, as when it lets no one write to the file, the answer is no.
pub(crate) fn is_left_over<N: Net>(_net: &N, path: &str) -> bool {
    match probe(path.as_bytes()) {
        Err(e) => e.kind() == ErrorKind::ConnectionRefused,
        Ok(()) => false,
    }
}

// Connects a datagram socket to the socket at this path, and closes it again.
fn probe(path: &[u8]) -> io::Result<()> {
    let mut address = [0; _SS_SIZE];
    let Some(length) = put_address(&mut address, path) else {
        return Err(io::Error::from(ErrorKind::InvalidInput));
    };
    let fd = unsafe { socket(AF_UNIX, SOCK_DGRAM | SOCK_CLOEXEC, 0) };
    if fd < 0 {
        return Err(io::Error::from_raw_os_error(os::errno()));
    }
    let asking = unsafe { OwnedFd::from_raw_fd(fd) };
    if unsafe { connect(asking.as_raw_fd(), &address, length) } < 0 {
        return Err(io::Error::from_raw_os_error(os::errno()));
    }
    Ok(())
}

// Puts the address of this path, which has 1 to 107 bytes, as C's `sockaddr_un`, and answers how
// many of its bytes count. A zero ends the path.
fn put_address(address: &mut [u8; _SS_SIZE], path: &[u8]) -> Option<u32>
    ensures { IfSome result (λ length. length ≤ 110) }
{
    if path.is_empty() || path.len() > MOST_PATH_BYTES {
        return None;
    }
    address.fill(0);
    address[..FAMILY_BYTES].copy_from_slice(&(AF_UNIX as u16).to_ne_bytes());
    address[FAMILY_BYTES..FAMILY_BYTES + path.len()].copy_from_slice(path);
    Some((FAMILY_BYTES + path.len() + 1) as u32)
}
