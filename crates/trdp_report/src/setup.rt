//! A node as it is to be set up.

use crate::address::shown;
use crate::ports::{NamedPort, Site};
use std::alloc::{AllocError, Global};
use std::net::SocketAddrV4;
use trdp_dataset::NodeConfig;
use trdp_wire::{Port, place_of_port, ports_of};

/// A node as it is to be set up.
#[derive(Clone, Copy)]
pub(crate) struct Setup<'a> {
    /// Its configuration.
    pub(crate) config: &'a NodeConfig,
    /// The folder whose files the ports for lines are; None if these are UDP ports.
    pub(crate) folder: Option<&'a str>,
}

impl<'a> Setup<'a> {
    /// Where a port is; None if the configuration names none.
    pub(crate) fn site(self, port: Port) -> Option<Site<'a>> {
        let place = place_of_port(self.config, port);
        match (port, self.folder) {
            _ if place.port == 0 => None,
            (Port::Operator | Port::Control(_), Some(folder)) => {
                Some(Site::File(folder, place.port))
            }
            _ => Some(Site::Udp(SocketAddrV4::new(shown(place.ip), place.port))),
        }
    }

    /// The ports, in the order in which they are bound.
    ///
    /// # Errors
    /// `AllocError` if an allocation fails.
    pub(crate) fn ports(self, alloc: Global) -> Result<Vec<NamedPort<'a>>, AllocError> {
        let mut ports = Vec::new(alloc);
        for port in ports_of(alloc, self.config)? {
            if let Some(site) = self.site(port) {
                ports.push(NamedPort {
                    config: self.config,
                    port,
                    site,
                })?;
            }
        }
        Ok(ports)
    }
}
