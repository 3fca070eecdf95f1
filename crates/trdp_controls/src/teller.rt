//! What reports that something comes at a path.

use mio::event::Source;
use mio::{Interest, Registry, Token};
use std::io;

/// Where the system is asked to report a path, and by which number it does.
#[derive(Default, Drop)]
pub struct Teller {
    /// Where it is asked; None if it reports nothing.
    pub registry: Option<Registry>,
    /// The number of the socket that the path's port would have.
    pub socket: usize,
}

impl Teller {
    /// Asks the system to report when a source has something to read.
    ///
    /// # Errors
    /// The system's error.
    pub(crate) fn watch<S: Source>(&self, source: &mut S) -> io::Result<()> {
        match &self.registry {
            Some(registry) => registry.register(source, Token(self.socket), Interest::READABLE),
            None => Ok(()),
        }
    }

    /// Asks the system to report a source that is watched, from now on, when it has something to
    /// read and, if `room` is true, when it has room for what is written.
    pub(crate) fn watch_room<S: Source>(&self, source: &mut S, room: bool) {
        let mut interest = Interest::READABLE;
        if room {
            interest = interest | Interest::WRITABLE;
        }
        if let Some(registry) = &self.registry {
            // If the system refuses it, what waits goes out at the next news of the path.
            let _ = registry.reregister(source, Token(self.socket), interest);
        }
    }
}
