//! What a node lets in: the match of topology counters, and both receive filters, which use it.

ghost use Rattle.std.specs.Prelude.{◌≡◌};
ghost use Rattle.trdp_filter.specs.Counts.{counts_valid, topo_valid as topo_match};
ghost use Rattle.trdp_filter.specs.PdFilters.{pd_passes};
ghost use Rattle.trdp_filter.specs.MdFilters.{is_com_id, matches_uri, md_passes};

use trdp_base::{Ip, Place, Topo, Uri};
use trdp_head::{MdHead, PdHead};

/// Whether two topology counters match: one of them is 0, which matches any, or they are equal
/// (IEC 61375-2-3).
pub fn valid(a: u32, b: u32) -> bool
    ensures { result ≡ counts_valid a b }
{
    a == 0 || b == 0 || a == b
}

/// Whether two pairs of topology counters match, each counter with its own (IEC 61375-2-3).
pub fn topo_valid(a: Topo, b: Topo) -> bool
    ensures { result ≡ topo_match a b }
{
    valid(a.etb, b.etb) && valid(a.op_trn, b.op_trn)
}

/// A receive filter for process data (profile).
#[derive(Clone, Copy, Debug, PartialEq, Eq)]
pub struct PdFilter {
    /// The one comId that passes.
    pub com_id: u32,
    /// The lowest source address that passes; 0 with a `high` of 0 for any source (profile).
    pub low: Ip,
    /// The highest source address that passes; it passes too.
    pub high: Ip,
    /// The destination address that passes; 0 for any.
    pub dest: Ip,
    /// The topology counters that those of a telegram must match; each is 0 for any.
    pub topo: Topo,
}

impl PdFilter {
    /// Whether a telegram from `src` to `dst` with this header passes, at a node with the topology
    /// counters `node` (profile).
    ///
    /// It passes by the comId, the source address, the destination address, and its topology
    /// counters, which must match the filter's and the node's. Ports, the message type and the
    /// reply fields are not looked at.
    #[tactic(auto, unfolding(crate::specs::PdFilters::pd_passes, crate::specs::Addresses::in_source_range, crate::specs::Addresses::is_destination))]
    pub fn passes(&self, src: Place, dst: Place, head: &PdHead, node: Topo) -> bool
        ensures { result ≡ pd_passes self.now src dst head.now node }
    {
        let any_source = self.low == Ip(0) && self.high == Ip(0);
        self.com_id == head.com_id
            && (any_source || (self.low <= src.ip && src.ip <= self.high))
            && (self.dest == Ip(0) || self.dest == dst.ip)
            && topo_valid(head.topo, self.topo)
            && topo_valid(head.topo, node)
    }
}

/// A receive filter for message data (profile).
#[derive(Clone, Copy, Debug, PartialEq, Eq)]
pub struct MdFilter {
    /// The one comId that passes; None for any.
    pub com_id: Option<u32>,
    /// The lowest source address that passes; 0 with a `high` of 0 for any source (profile).
    pub low: Ip,
    /// The highest source address that passes; it passes too.
    pub high: Ip,
    /// The destination address that passes; 0 for any.
    pub dest: Ip,
    /// The destination URI that passes; an empty one for any.
    pub uri: Uri,
    /// The topology counters that those of a telegram must match; each is 0 for any.
    pub topo: Topo,
}

/// Whether the comId is the wanted one; None matches any.
#[tactic(auto, unfolding(crate::specs::MdFilters::is_com_id))]
fn is_com_id(wanted: Option<u32>, com_id: u32) -> bool
    ensures { result ≡ is_com_id wanted com_id }
{
    match wanted {
        Some(wanted) => wanted == com_id,
        None => true,
    }
}

/// Whether the URI is the wanted one; an empty one matches any.
#[tactic(auto, unfolding(crate::specs::MdFilters::matches_uri))]
fn is_uri(wanted: &Uri, uri: &Uri) -> bool
    ensures { result ≡ matches_uri wanted.now uri.now }
{
    wanted.is_empty() || wanted == uri
}

impl MdFilter {
    /// Whether a telegram from `src` to `dst` with this header passes, at a node with the topology
    /// counters `node` (profile).
    ///
    /// It passes by the comId, the source address, the destination address, the destination URI,
    /// and its topology counters, which must match the filter's and the node's. Ports, the source
    /// URI, the message type and the other fields are not looked at.
    #[tactic(auto, unfolding(crate::specs::MdFilters::md_passes, crate::specs::Addresses::in_source_range, crate::specs::Addresses::is_destination))]
    pub fn passes(&self, src: Place, dst: Place, head: &MdHead, node: Topo) -> bool
        ensures { result ≡ md_passes self.now src dst head.now node }
    {
        let any_source = self.low == Ip(0) && self.high == Ip(0);
        is_com_id(self.com_id, head.com_id)
            && (any_source || (self.low <= src.ip && src.ip <= self.high))
            && (self.dest == Ip(0) || self.dest == dst.ip)
            && is_uri(&self.uri, &head.dest_uri)
            && topo_valid(head.topo, self.topo)
            && topo_valid(head.topo, node)
    }
}
