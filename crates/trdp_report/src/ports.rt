//! The ports of a node, by the keys that name them.

use std::fmt;
use std::net::SocketAddrV4;
use trdp_dataset::NodeConfig;
use trdp_wire::Port;

/// Where a port is.
#[derive(Clone, Copy)]
pub(crate) enum Site<'a> {
    /// A UDP port; the address 0.0.0.0 is every address.
    Udp(SocketAddrV4),
    /// The file of a socket: its folder, and its name, which is a number.
    File(&'a str, u16),
}

impl<'a> Site<'a> {
    /// Whether another port is the same one, at some address.
    fn meets(self, other: Site<'a>) -> bool {
        match (self, other) {
            (Site::Udp(place), Site::Udp(other)) => {
                let is_everywhere = place.ip().is_unspecified() || other.ip().is_unspecified();
                place.port() == other.port() && (is_everywhere || place.ip() == other.ip())
            }
            (Site::File(_, number), Site::File(_, other)) => number == other,
            _ => false,
        }
    }

    /// The site that both ports share: the other port's if this one is at every address, else this
    /// one's.
    pub(crate) fn shared_with(self, other: Site<'a>) -> Site<'a> {
        match self {
            Site::Udp(place) if place.ip().is_unspecified() => other,
            _ => self,
        }
    }
}

impl<'a> fmt::Display for Site<'a> {
    fn fmt<W: fmt::Write>(&self, f: &mut fmt::Formatter<W>) -> fmt::Result {
        match *self {
            Site::Udp(place) => write!(f, "{place}"),
            Site::File(folder, number) => write!(f, "{folder}/{number}"),
        }
    }
}

/// A port of a node. As text it is the key of the configuration that names it.
#[derive(Clone, Copy)]
pub(crate) struct NamedPort<'a> {
    /// The configuration that names it.
    pub(crate) config: &'a NodeConfig,
    /// Which port it is.
    pub(crate) port: Port,
    /// Where it is.
    pub(crate) site: Site<'a>,
}

impl<'a> NamedPort<'a> {
    /// Whether lines come there.
    pub(crate) fn takes_lines(self) -> bool {
        matches!(self.port, Port::Operator | Port::Control(_))
    }

    /// The first of the ports before an index that is the same one as this, at some address.
    pub(crate) fn first_among(
        self,
        ports: &[NamedPort<'a>],
        index: usize,
    ) -> Option<NamedPort<'a>> {
        let mut before = ports.iter().take(index).copied();
        before.find(|earlier| earlier.site.meets(self.site))
    }
}

impl<'a> fmt::Display for NamedPort<'a> {
    fn fmt<W: fmt::Write>(&self, f: &mut fmt::Formatter<W>) -> fmt::Result {
        match self.port {
            Port::Pd => f.write_str("pd_port"),
            Port::Md => f.write_str("md_port"),
            Port::PdGroup(group) | Port::MdGroup(group) => {
                let index = self.config.groups().iter().position(|it| *it == group);
                write!(f, "groups[{}]", index.unwrap_or(0))
            }
            Port::Operator => f.write_str("operator_port"),
            Port::Control(slot) => match usize::from(slot).checked_sub(self.config.slots()) {
                None => write!(f, "slot {slot}, control_port"),
                Some(added) => write!(f, "spare_control_ports[{added}]"),
            },
        }
    }
}
