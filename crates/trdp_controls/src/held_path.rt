//! A path that is held while others are asked for.

use crate::socket_file::listen_at;
use crate::teller::Teller;
use mio::net::UnixListener;
use std::fs::Files;
use std::net::Net;
use std::{fs, io};

/// A path at which this process listens, to see whether the system grants it.
#[derive(Drop)]
pub struct HeldPath {
    /// The path, whose file is the listener's own.
    path: String,
    /// The listener.
    _listener: UnixListener,
}

impl HeldPath {
    /// Listens at a path as a node does.
    ///
    /// # Errors
    /// Why the system refuses it, in its own words, for example `Address already in use (os error
    /// 98)`; the path is left then as it was, or free.
    pub fn hold<R: Files + Net>(rt: &R, path: String) -> io::Result<HeldPath> {
        let listener = listen_at(rt, path.as_str(), &Teller::default())?;
        Ok(HeldPath {
            path,
            _listener: listener,
        })
    }

    /// Gives the path back, and leaves nothing behind.
    pub fn give_back<R: Files>(self, rt: &R) {
        // The file goes first: no one else takes it for one at which no process listens. If it
        // can't be removed, the next node replaces it.
        let _ = fs::remove_file(rt, self.path.as_str());
    }
}
