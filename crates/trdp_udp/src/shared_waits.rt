//! Sockets whose waits can also end for something else.

use mio::Registry;
use std::io;

/// Sockets whose waits also end for something else, if the system is asked for that.
pub trait SharedWaits {
    /// Where the system is asked to end a wait for something else too, by the number of a socket;
    /// None until a socket is watched.
    ///
    /// # Errors
    /// The system's error.
    fn registry(&self) -> io::Result<Option<Registry>>;
}
