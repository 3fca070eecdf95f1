//! A folder of the system.

ghost use Rattle.std.specs.Prelude.{◌≡◌};

use crate::folder::Folder;
use crate::listen_fault::ListenFault;
use crate::system_connections::SystemConnections;
use crate::teller::Teller;
use mio::Registry;
use std::alloc::Global;
use std::fs::Files;
use std::net::Net;

/// A folder of the system, in which each path is the file of a Unix stream socket. It reports
/// nothing.
#[derive(Drop)]
pub struct SystemFolder<'a, R: Files + Net> {
    /// The system, which has the files and the sockets.
    rt: &'a R,
    /// Where memory comes from.
    alloc: Global,
    /// The path of the folder.
    path: &'a str,
    /// Where the system reports that a connection, bytes, room or an end came; None if it
    /// doesn't.
    registry: Option<Registry>,
}

impl<'a, R: Files + Net> SystemFolder<'a, R> {
    /// The folder at a path, at whose files no process listens yet.
    pub fn new(rt: &'a R, alloc: Global, path: &'a str) -> SystemFolder<'a, R>
        ensures { result.path.now ≡ path.now }
    {
        SystemFolder {
            rt,
            alloc,
            path,
            registry: None,
        }
    }
}

impl<'a, R: Files + Net> Folder<SystemConnections<'a, R>> for SystemFolder<'a, R> {
    ghost use Rattle.std.specs.Prelude.{None, string_bytes};

    ghost listenings = { λ _. None };

    ghost path = { λ folder. folder.path.now };

    ghost file_of = { λ connections. string_bytes connections.path };

    fn report_to(&mut self, registry: Option<Registry>) {
        self.registry = registry;
    }

    fn listen(
        &mut self,
        number: u16,
        socket: usize,
    ) -> Result<SystemConnections<'a, R>, ListenFault> {
        let registry = self.registry.as_ref().map(|r| r.try_clone()).transpose()?;
        let teller = Teller { registry, socket };
        SystemConnections::listen(self.rt, self.alloc, self.path, number, teller)
    }
}
