//! The two topology counters of a train's network.

/// The topology counters of IEC 61375-2-3. A counter of 0 matches any.
#[derive(Clone, Copy, Debug, PartialEq, Eq)]
pub struct Topo {
    /// etbTopoCnt: the counter of the train network directory.
    pub etb: u32,
    /// opTrnTopoCnt: the counter of the operational train directory.
    pub op_trn: u32,
}
