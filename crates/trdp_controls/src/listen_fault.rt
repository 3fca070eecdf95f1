//! Why no process listens at a path.

use std::io;
use thiserror::Error;

/// Why no process listens at a path.
#[derive(Clone, Copy, Debug, PartialEq, Eq, Error)]
pub enum ListenFault {
    /// The system refuses the path, or it has too many bytes.
    #[error("the path of a socket is refused")]
    Refused = 1,
    /// An allocation for it fails, or the system is out of memory.
    #[error("there is no memory for a socket")]
    OutOfMemory = 2,
}

impl From<io::Error> for ListenFault {
    ghost use Rattle.std.specs.Prelude.{◌≡◌};
    ghost use Rattle.std.specs.IoError.{error_kind};
    ghost use Rattle.trdp_controls.specs.Answers.{listen_fault_of};

    ghost from_gives = { λ error fault. fault ≡ listen_fault_of (error_kind error) };

    /// What it means that the system refuses a path.
    fn from(error: io::Error) -> ListenFault {
        match error.kind() {
            io::ErrorKind::OutOfMemory => ListenFault::OutOfMemory,
            _ => ListenFault::Refused,
        }
    }
}
