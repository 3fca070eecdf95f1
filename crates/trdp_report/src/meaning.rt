//! What a configuration means, in a screen.

use crate::address::shown;
use crate::setup::Setup;
use std::alloc::AllocError;
use std::fmt::Write;
use trdp_base::{Ip, Quotas};
use trdp_wire::Port;

/// The names of what a slot may hold, in the order of its quotas.
const KINDS: [&str; 6] = [
    "publishers",
    "subscriptions",
    "requesters",
    "listeners",
    "callers",
    "repliers",
];

impl<'a> Setup<'a> {
    /// Adds what a configuration means: a line for the node, one for each group, one for each
    /// slot, one for the spare control ports, and one for each dataset.
    ///
    /// # Errors
    /// `AllocError` if an allocation fails.
    pub(crate) fn push_meaning(self, text: &mut String) -> Result<(), AllocError> {
        self.push_node(text)?;
        self.push_groups(text)?;
        for slot in 0..self.config.slots() as u16 {
            self.push_slot(text, slot)?;
        }
        self.push_spare_ports(text)?;
        self.push_datasets(text)
    }

    /// Adds the line of the node, and the one of its operator's port.
    ///
    /// # Errors
    /// `AllocError` if an allocation fails.
    fn push_node(self, text: &mut String) -> Result<(), AllocError> {
        let config = self.config;
        let (address, pd, md) = (shown(config.address()), config.pd_port(), config.md_port());
        writeln!(
            text,
            "node {address}: process data at port {pd}, message data at port {md}"
        )?;
        match self.site(Port::Operator) {
            Some(operator) => writeln!(text, "operator at {operator}"),
            None => Ok(()),
        }
    }

    /// Adds the line of each group, with the command by which a link joins it.
    ///
    /// # Errors
    /// `AllocError` if an allocation fails.
    fn push_groups(self, text: &mut String) -> Result<(), AllocError> {
        for group in self.config.groups() {
            let group = shown(Ip(*group));
            writeln!(
                text,
                "group {group}: a link joins it by `ip address add {group}/32 dev LINK autojoin`"
            )?;
        }
        Ok(())
    }

    /// Adds the line of a slot.
    ///
    /// # Errors
    /// `AllocError` if an allocation fails.
    fn push_slot(self, text: &mut String, slot: u16) -> Result<(), AllocError> {
        write!(text, "slot {slot}")?;
        match self.site(Port::Control(slot)) {
            Some(control) => write!(text, " at {control}")?,
            None => text.push_str(", no control port")?,
        }
        if let Some(quotas) = self.config.quotas(usize::from(slot)) {
            push_quotas(text, quotas)?;
        }
        text.push_str("\n")
    }

    /// Adds the line of the spare control ports, if there are any.
    ///
    /// # Errors
    /// `AllocError` if an allocation fails.
    fn push_spare_ports(self, text: &mut String) -> Result<(), AllocError> {
        let config = self.config;
        if config.spare_control_ports() == 0 {
            return Ok(());
        }
        match self.folder {
            Some(folder) => write!(text, "slots that are added have, in {folder}, the files")?,
            None => {
                let address = shown(config.control_address());
                write!(text, "slots that are added have, at {address}, the ports")?;
            }
        }
        for added in 0..config.spare_control_ports() {
            let port = config.spare_control_port(added).unwrap_or(0);
            write!(text, " {port}")?;
        }
        text.push_str("\n")
    }

    /// Adds the lines of the datasets.
    ///
    /// # Errors
    /// `AllocError` if an allocation fails.
    fn push_datasets(self, text: &mut String) -> Result<(), AllocError> {
        let registry = self.config.registry();
        for index in 0..registry.len() {
            let id = registry.id_at(index).unwrap_or(0);
            let elements = registry.elements(id).map_or(0, |elements| elements.len());
            let size = registry.zero_size(id).unwrap_or(0);
            let more = registry.fixed_size(id).map_or(" and more", |_| "");
            writeln!(
                text,
                "dataset {id}: elements {elements}, bytes {size}{more}"
            )?;
        }
        Ok(())
    }
}

/// Adds the quotas of a slot.
///
/// # Errors
/// `AllocError` if an allocation fails.
fn push_quotas(text: &mut String, quotas: Quotas) -> Result<(), AllocError> {
    let mut mark = ":";
    for (kind, name) in KINDS.iter().enumerate() {
        let count = quotas.get(kind);
        write!(text, "{mark} {count} {name}")?;
        mark = ",";
    }
    Ok(())
}
