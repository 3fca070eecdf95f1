//! Which port of a node the system refuses.

use crate::held::HeldPorts;
use crate::ports::NamedPort;
use crate::setup::Setup;
use std::alloc::{AllocError, Global};
use std::fmt::Write;
use std::fs::Files;
use std::net::Net;
use trdp_dataset::NodeConfig;

/// A line for each port of a node that the system refuses, with its reason: those for lines are
/// files of a folder, if there is one. A port that is named before would be refused too: its line
/// names both keys. Each other port is asked for once more. All that the system grants are held
/// until the last one was asked for, as a node holds them, and then given back. So a line also says
/// what runs out, for example descriptors.
///
/// # Errors
/// `AllocError` if an allocation fails.
pub fn refused_ports<R: Files + Net>(
    rt: &R,
    alloc: Global,
    config: &NodeConfig,
    folder: Option<&str>,
) -> Result<String, AllocError> {
    let ports = Setup { config, folder }.ports(alloc)?;
    let mut held = HeldPorts::with_room(alloc, ports.len())?;
    let text = refusals(rt, alloc, &ports, &mut held);
    held.give_back(rt);
    text
}

/// A line for each of these ports that the system refuses; else one about what a node needs besides
/// to wait at them, if the system refuses that.
///
/// # Errors
/// `AllocError` if an allocation fails.
fn refusals<R: Files + Net>(
    rt: &R,
    alloc: Global,
    ports: &[NamedPort],
    held: &mut HeldPorts,
) -> Result<String, AllocError> {
    let mut text = String::new(alloc);
    for (index, port) in ports.iter().enumerate() {
        let site = port.site;
        match port.first_among(ports, index) {
            Some(first) => writeln!(text, "port {site}: {first} and {port} both name it")?,
            None => {
                if let Err(error) = held.ask(rt, site, format!(in alloc; "{site}")?) {
                    writeln!(text, "port {site}: {error}")?;
                }
            }
        }
    }
    if text.is_empty() {
        if let Err(error) = held.ask_to_wait(rt) {
            writeln!(text, "a wait at the ports: {error}")?;
        }
    }
    Ok(text)
}
