//! What a service begins with.

use crate::wires::ServiceWire;
use trdp_dataset::NodeConfig;
use trdp_lines::Connections;
use trdp_wire::{BindFault, WatchedWire};

/// What a service begins with.
#[derive(Drop)]
pub(crate) struct ServiceStart<N: WatchedWire, L: Connections, K> {
    /// The wire, or why there is none.
    pub(crate) wire: Result<ServiceWire<N, L>, BindFault>,
    /// The configuration of the node.
    pub(crate) config: NodeConfig,
    /// The lease of the slots in microseconds; None if there is none.
    pub(crate) lease: Option<u64>,
    /// The clock of the turns.
    pub(crate) clock: K,
}
