//! Why a step of a network is rejected.

use std::alloc::AllocError;
use thiserror::Error;
use trdp_engine::NodeFault;

/// Why a step is rejected: the first of these that applies. The network stays as it was.
#[derive(Clone, Copy, Debug, PartialEq, Eq, Error)]
pub enum NetworkFault {
    /// The event is a datagram that comes in, and only what was sent is delivered.
    #[error("only what was sent is delivered")]
    Unsent,
    /// The network has no node of that number.
    #[error("the network has no node of that number")]
    NoNode,
    /// No telegram of that number was sent.
    #[error("no telegram of that number was sent")]
    NoTelegram,
    /// The telegram was sent to a place that is not the node's.
    #[error("the telegram was sent to a place that is not the node's")]
    Elsewhere,
    /// The node rejects the event, or an allocation fails; the latter may come in place of any
    /// other.
    #[error("the node does not take the event")]
    Node(NodeFault),
}

impl From<NodeFault> for NetworkFault {
    ghost use Rattle.std.specs.Prelude.{◌≡◌};
    ghost use Rattle.trdp_net.specs.declared.fault.NetworkFault.TheVariants.{Node};

    ghost from_gives = { λ fault result. result ≡ Node fault };

    fn from(fault: NodeFault) -> NetworkFault {
        NetworkFault::Node(fault)
    }
}

impl From<AllocError> for NetworkFault {
    ghost use Rattle.std.specs.Prelude.{◌≡◌};
    ghost use Rattle.trdp_model.specs.declared.fault.NodeFault.TheVariants.{OutOfMemory};
    ghost use Rattle.trdp_net.specs.declared.fault.NetworkFault.TheVariants.{Node};

    ghost from_gives = { λ _ fault. fault ≡ Node OutOfMemory };

    fn from(_: AllocError) -> NetworkFault {
        NetworkFault::Node(NodeFault::OutOfMemory)
    }
}
