//! What a node works with as it processes an event.

use std::alloc::Global;
use trdp_dataset::NodeConfig;
use trdp_filter::Globals;

/// What a node works with as it processes an event.
#[derive(Clone, Copy)]
pub struct Setting<'a> {
    /// The allocator that new objects take their memory from.
    pub alloc: Global,
    /// The datasets, and the port that answers to pull requests are sent to.
    pub config: &'a NodeConfig,
    /// The time, the topology counters and the redundancy groups that the node leads.
    pub globals: &'a Globals,
}
