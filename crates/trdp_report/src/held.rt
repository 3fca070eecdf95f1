//! What is held while the ports of a node are asked for.

use crate::ports::Site;
use mio::{Poll, Registry};
use std::alloc::{AllocError, Global};
use std::fs::Files;
use std::io;
use std::net::{Net, SocketAddr, UdpSocket};
use trdp_controls::HeldPath;

/// The ports that the system granted.
#[derive(Drop)]
pub(crate) struct HeldPorts {
    /// The UDP ports.
    sockets: Vec<UdpSocket>,
    /// The paths of control sockets.
    paths: Vec<HeldPath>,
    /// Where the system reports what came, for each path and for their folder.
    registries: Vec<Registry>,
}

impl HeldPorts {
    /// Nothing yet, and room for that many ports.
    ///
    /// # Errors
    /// `AllocError` if an allocation fails.
    pub(crate) fn with_room(alloc: Global, ports: usize) -> Result<HeldPorts, AllocError> {
        Ok(HeldPorts {
            sockets: Vec::with_capacity(alloc, ports)?,
            paths: Vec::with_capacity(alloc, ports)?,
            registries: Vec::with_capacity(alloc, ports)?,
        })
    }

    /// Asks the system for a port, and holds it. `path` is how the port is printed.
    ///
    /// # Errors
    /// Why the system refuses it.
    pub(crate) fn ask<R: Files + Net>(
        &mut self,
        rt: &R,
        site: Site,
        path: String,
    ) -> io::Result<()> {
        match site {
            Site::Udp(place) => {
                let socket = UdpSocket::bind(rt, SocketAddr::V4(place))?;
                Ok(self.sockets.push(socket)?)
            }
            Site::File(..) => {
                let path = HeldPath::hold(rt, path)?;
                Ok(self.paths.push(path)?)
            }
        }
    }

    /// Asks the system for what a node needs besides to wait at these ports: where the system
    /// reports what came and, if there are paths, a descriptor of that for each path and for their
    /// folder.
    ///
    /// # Errors
    /// Why the system refuses it.
    pub(crate) fn ask_to_wait<R: Net>(&mut self, rt: &R) -> io::Result<()> {
        let poll = Poll::new(rt)?;
        let folders = usize::from(!self.paths.is_empty());
        for _ in 0..self.paths.len() + folders {
            self.registries.push(poll.registry().try_clone()?)?;
        }
        Ok(())
    }

    /// Gives all back.
    pub(crate) fn give_back<R: Files>(self, rt: &R) {
        for path in self.paths {
            path.give_back(rt);
        }
    }
}
