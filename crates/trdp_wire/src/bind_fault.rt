//! Why a service can't open its ports.

use thiserror::Error;

/// Why a service can't open its ports.
#[derive(Clone, Copy, Debug, PartialEq, Eq, Error)]
pub enum BindFault {
    /// The system refuses to bind or to watch a port, or refuses a path.
    #[error("a port of the node can't be bound")]
    Bind = 1,
    /// An allocation fails, or the system is out of memory.
    #[error("there is no memory for the sockets")]
    OutOfMemory = 2,
}
