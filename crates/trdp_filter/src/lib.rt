//! What a node lets in: the match of topology counters, and receive filters.
//!
//! A [`PdFilter`] says which telegrams a subscription receives, an [`MdFilter`] which a listener
//! hears. [`Globals`] are the time, the topology counters and the redundancy groups that the node
//! leads; all objects see them alike. A [`Telegram`] is what reaches the objects.
//!
//! ```text
//! topo_valid(telegram_topo, node_topo) // each counter with its own; 0 matches any
//! filter.passes(src, dst, &view.head, globals.topo)
//! ```
//!
//! The topology counters are those of IEC 61375-2-3:2015, Annex A; what a filter looks at is our
//! own choice (profile). Nothing here takes memory, and no call is refused. The objects of
//! `trdp_pd` and `trdp_md` filter with it.
//!
//! Proved: a telegram passes exactly by these rules. That these are the filters that a train needs
//! no contract can say.
#![tactic(auto)]

mod filters;
mod globals;
mod telegram;

pub use filters::{MdFilter, PdFilter, topo_valid, valid};
pub use globals::{Globals, Groups};
pub use telegram::Telegram;
