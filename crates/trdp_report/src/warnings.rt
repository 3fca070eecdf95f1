//! What the author of a configuration may not have meant.

use crate::address::shown;
use crate::ports::{NamedPort, Site};
use crate::setup::Setup;
use std::alloc::{AllocError, Global};
use std::fmt::Write;
use std::net::Ipv4Addr;
use trdp_base::Quotas;
use trdp_controls::{ListenFault, socket_path};
use trdp_head::PD_PAYLOAD_MAX;
use trdp_wire::Port;

impl<'a> Setup<'a> {
    /// Adds a warning, a line, for each thing of a configuration that its author may not have
    /// meant.
    ///
    /// # Errors
    /// `AllocError` if an allocation fails.
    pub(crate) fn push_warnings(self, text: &mut String, alloc: Global) -> Result<(), AllocError> {
        let config = self.config;
        let ports = self.ports(alloc)?;
        push_address(text, "address", shown(config.address()))?;
        if ports.iter().any(|it| it.takes_lines()) && self.folder.is_none() {
            self.push_control_address(text)?;
        }
        if self.site(Port::Operator).is_none() {
            text.push_str(
                "warning: the node has no operator_port: nobody can make it lead a redundancy \
                 group, set its topology counters or add a slot\n",
            )?;
        }
        push_collisions(text, &ports)?;
        push_long_paths(text, alloc, &ports)?;
        for slot in 0..config.slots() as u16 {
            self.push_useless_slot(text, slot)?;
        }
        self.push_long_datasets(text)
    }

    /// Adds a warning if the control ports are at an address that the network reaches.
    ///
    /// # Errors
    /// `AllocError` if an allocation fails.
    fn push_control_address(self, text: &mut String) -> Result<(), AllocError> {
        let config = self.config;
        let address = shown(config.control_address());
        if address.is_loopback() {
            return Ok(());
        }
        if config.control_address() != config.address() {
            push_address(text, "control_address", address)?;
        }
        writeln!(
            text,
            "warning: the network reaches the control ports at {address}: a stranger's datagram, \
             an empty one too, takes a slot's indications, and his lines are its calls, of which \
             `reset` ends all its objects; control_address = \"127.0.0.1\" keeps him out"
        )
    }

    /// Adds a warning if no application can use a slot, and one if it can hold nothing.
    ///
    /// # Errors
    /// `AllocError` if an allocation fails.
    fn push_useless_slot(self, text: &mut String, slot: u16) -> Result<(), AllocError> {
        if self.site(Port::Control(slot)).is_none() {
            writeln!(
                text,
                "warning: slot {slot} has no control_port: no application can use it"
            )?;
        }
        if self.config.quotas(usize::from(slot)) == Quotas::new([0; 6]) {
            writeln!(
                text,
                "warning: slot {slot} can hold nothing: each of its quotas is 0"
            )?;
        }
        Ok(())
    }

    /// Adds a warning for each dataset that is longer than process data carries.
    ///
    /// # Errors
    /// `AllocError` if an allocation fails.
    fn push_long_datasets(self, text: &mut String) -> Result<(), AllocError> {
        let registry = self.config.registry();
        for index in 0..registry.len() {
            let id = registry.id_at(index).unwrap_or(0);
            let size = registry.zero_size(id).unwrap_or(0);
            if size > PD_PAYLOAD_MAX {
                writeln!(
                    text,
                    "warning: no telegram of process data carries dataset {id}: it has {size} \
                     bytes or more, and {PD_PAYLOAD_MAX} fit"
                )?;
            }
        }
        Ok(())
    }
}

/// Adds a warning if an address is none of a device's own.
///
/// # Errors
/// `AllocError` if an allocation fails.
fn push_address(text: &mut String, key: &str, address: Ipv4Addr) -> Result<(), AllocError> {
    if address.is_unspecified() {
        return writeln!(
            text,
            "warning: {key} is 0.0.0.0: its ports are at every interface, and a telegram counts as \
             sent to 0.0.0.0"
        );
    }
    let (kind, whom) = if address.is_multicast() {
        ("group", "the group")
    } else if address.is_broadcast() {
        ("broadcast", "all")
    } else {
        return Ok(());
    };
    writeln!(
        text,
        "warning: {key} is the {kind} {address}: what is sent to {whom} alone comes in, and \
         what goes out bears another address"
    )
}

/// Adds a warning for each port that is named before.
///
/// # Errors
/// `AllocError` if an allocation fails.
fn push_collisions(text: &mut String, ports: &[NamedPort]) -> Result<(), AllocError> {
    for (index, port) in ports.iter().enumerate() {
        if let Some(first) = port.first_among(ports, index) {
            write!(text, "warning: {first} and {port} both name ")?;
            match first.site.shared_with(port.site) {
                Site::Udp(place) => {
                    writeln!(text, "port {} at {}", place.port(), place.ip())?;
                }
                site => writeln!(text, "{site}")?,
            }
        }
    }
    Ok(())
}

/// Adds a warning for each path that is longer than the system accepts.
///
/// # Errors
/// `AllocError` if an allocation fails.
fn push_long_paths(
    text: &mut String,
    alloc: Global,
    ports: &[NamedPort],
) -> Result<(), AllocError> {
    for port in ports.iter() {
        let Site::File(folder, number) = port.site else {
            continue;
        };
        if let Err(ListenFault::Refused) = socket_path(alloc, folder, number) {
            writeln!(
                text,
                "warning: {folder}/{number} has more than 107 bytes: the system refuses it"
            )?;
        }
    }
    Ok(())
}
