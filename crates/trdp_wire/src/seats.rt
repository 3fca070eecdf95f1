//! Where the socket of a port is bound.

ghost use Rattle.std.specs.Prelude.{◌≡◌};
ghost use Rattle.trdp_wire.specs.Ports.{group_place, place_of_port};

use crate::configured_ports::control_number;
use crate::port::Port;
use trdp_base::{Ip, Place};
use trdp_dataset::NodeConfig;

/// Where the socket of a port is bound: at the node's address, at a group's, or, if lines come to
/// it, at the control address; at number 0 if the configuration names none.
pub fn place_of_port(config: &NodeConfig, port: Port) -> Place
    ensures { result ≡ place_of_port config.now port }
{
    let own = config.address();
    let control = config.control_address();
    let (ip, port) = match port {
        Port::Pd => (own, config.pd_port()),
        Port::Md => (own, config.md_port()),
        Port::PdGroup(group) => (Ip(group), config.pd_port()),
        Port::MdGroup(group) => (Ip(group), config.md_port()),
        Port::Operator => (control, config.operator_port()),
        Port::Control(slot) => {
            let number = control_number(config, usize::from(slot));
            (control, number.unwrap_or(0))
        }
    };
    Place { ip, port }
}

/// The socket address of a group's address, in host order, and a port of that number.
pub fn group_place(group: u32, port: u16) -> Place
    ensures { result ≡ group_place group port }
{
    Place {
        ip: Ip(group),
        port,
    }
}
