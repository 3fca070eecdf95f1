//! The path of a control port's socket.

ghost use Rattle.std.specs.Prelude.{◌≡◌, ◌≤◌, length, string_bytes, IfOk, IfErr};
ghost use Rattle.trdp_controls.specs.Paths.{path_of};

use crate::listen_fault::ListenFault;
use std::alloc::Global;

/// The most bytes of a socket's path that the system accepts.
const PATH_MAX: usize = 107;

/// The path of a control port's socket: the file in the folder that has the port's number as its
/// name.
///
/// # Errors
/// `Refused` if it has more than 107 bytes; `OutOfMemory` if an allocation fails.
pub fn socket_path(alloc: Global, folder: &str, number: u16) -> Result<String, ListenFault>
    ensures path { IfOk result (λ path. string_bytes path ≡ path_of folder.now number) }
    ensures fits { IfOk result (λ path. length (string_bytes path) ≤ 107) }
    ensures refused { length (path_of folder.now number) ≤ 107
        → IfErr result (λ fault. fault ≡ ListenFault.OutOfMemory) }
{
    match format!(in alloc; "{folder}/{number}") {
        Ok(path) if path.len() > PATH_MAX => Err(ListenFault::Refused),
        Ok(path) => Ok(path),
        Err(_) => Err(ListenFault::OutOfMemory),
    }
}
