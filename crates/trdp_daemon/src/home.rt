//! The destinations of telegrams that come to a node.

ghost use Rattle.trdp_daemon.specs.Services.{IsHome};

use trdp_base::Place;
use trdp_dataset::NodeConfig;
use trdp_wire::{Port, place_of_port};

/// Where datagrams of process data and of message data that come to a node were sent to.
#[derive(Clone, Copy)]
pub(crate) struct HomePlaces {
    /// The node's address with its port of process data.
    pub(crate) pd: Place,
    /// The node's address with its port of message data.
    pub(crate) md: Place,
}

/// The destinations at the node of a configuration: where the sockets of these ports are bound.
pub(crate) fn home_of(config: &NodeConfig) -> HomePlaces
    ensures { IsHome config.now result }
{
    HomePlaces {
        pd: place_of_port(config, Port::Pd),
        md: place_of_port(config, Port::Md),
    }
}
