//! The file of a socket.

ghost use Rattle.std.specs.Prelude.{◌↔◌, pos, ◌≤ℤ◌, IsOk};

use crate::teller::Teller;
use mio::net::{UnixListener, UnixStream};
use std::fs::{Files, Permissions};
use std::net::Net;
use std::os::fd::{AsFd, AsRawFd, OwnedFd};
use std::os::unix::fs::{FileTypeExt, PermissionsExt};
use std::os::unix::net;
use std::{fs, io};

/// The mode of a socket's file: its owner and its group may connect, which needs leave to write.
const MODE: u32 = 0o660;

/// How many connections may wait until they are accepted: as many as the system allows.
const BACKLOG: i32 = -1;

/// Listens at a path, whose file is this listener's own, and asks the system to report each
/// connection that comes.
///
/// # Errors
/// The system's error; the path is left then as it was, or free.
pub(crate) fn listen_at<R: Files + Net>(
    rt: &R,
    path: &str,
    teller: &Teller,
) -> io::Result<UnixListener> {
    let address = net::SocketAddr::from_pathname(path)?;
    let socket = new_socket(rt)?;
    if is_stale(rt, path) {
        fs::remove_file(rt, path)?;
    }
    rt.bind_unix(socket.as_fd(), &address)?;
    let listener = begin(rt, path, socket, teller);
    if listener.is_err() {
        // If it can't be removed, it is a file at which no process listens.
        let _ = fs::remove_file(rt, path);
    }
    listener
}

/// A socket with the mode of its file to be: the system makes the file with that mode, less what
/// the umask takes away, so that there is no time at which others may connect.
///
/// # Errors
/// The system's error.
fn new_socket<R: Net>(rt: &R) -> io::Result<OwnedFd> {
    let socket = rt.unix_socket()?;
    check(libc::fchmod(socket.as_raw_fd(), MODE))?;
    Ok(socket)
}

/// Whether there is a socket's file at a path at which no process listens.
fn is_stale<R: Files + Net>(rt: &R, path: &str) -> bool {
    let found = fs::symlink_metadata(rt, path);
    found.is_ok_and(|found| found.file_type().is_socket()) && is_deserted(rt, path)
}

/// Whether nothing is at a path.
pub(crate) fn is_gone<R: Files>(rt: &R, path: &str) -> bool {
    let found = fs::symlink_metadata(rt, path);
    found.is_err_and(|error| error.kind() == io::ErrorKind::NotFound)
}

/// Whether no process listens at a socket's file.
fn is_deserted<R: Net>(rt: &R, path: &str) -> bool {
    let stream = UnixStream::connect(rt, path);
    stream.is_err_and(|error| error.kind() == io::ErrorKind::ConnectionRefused)
}

/// Listens at a socket that is bound, once its file has the whole mode.
///
/// # Errors
/// The system's error.
fn begin<R: Files>(
    rt: &R,
    path: &str,
    socket: OwnedFd,
    teller: &Teller,
) -> io::Result<UnixListener> {
    fs::set_permissions(rt, path, Permissions::from_mode(MODE))?;
    check(libc::net::listen(socket.as_raw_fd(), BACKLOG))?;
    let listener = net::UnixListener::from(socket);
    listener.set_nonblocking(true)?;
    let mut listener = UnixListener::from_std(listener);
    teller.watch(&mut listener)?;
    Ok(listener)
}

/// Ok if the call that has just answered this status succeeded.
///
/// # Errors
/// The system's error at that call.
fn check(status: i32) -> io::Result<()>
    ensures { IsOk result ↔ (pos 0 ≤ℤ status) }
{
    if status < 0 {
        Err(io::Error::from_raw_os_error(os::errno()))
    } else {
        Ok(())
    }
}
