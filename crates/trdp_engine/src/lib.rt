//! The node: events come in, and each slot gets its answers and telegrams.
//!
//! A [`Node`] is made of a configuration ([`Node::new`]) and processes [`Event`]s: the calls of
//! its slots, datagrams, moments, topology counters, redundancy roles and new slots
//! ([`Node::step`], [`Node::run`]). It appends the resulting [`Record`]s to an [`Outbox`]:
//! answers, indications and telegrams, each with the number of its slot. A node has no socket, no
//! clock and no thread of its own: `trdp_daemon` runs one over sockets.
//!
//! ```text
//! let mut node = Node::new(alloc, config)?;
//! let mut out = Outbox::new(alloc);
//! let events = [
//!     Event::Call { slot: 0, call: Call::Publish(terms) },
//!     Event::Call { slot: 0, call: Call::Put { handle: 1, bytes: b"\x0a\x0b" } },
//!     Event::Moment(100_000),
//! ];
//! node.run(&events, &mut out);                    // 3: all were processed
//! out.get(2);                                     // Send { .. }: the publisher's first telegram
//! ```
//!
//! [`Node::put_value`] puts a value that is passed as an item. [`Node::peek`] and
//! [`Node::value_of`] show a subscription, [`Node::counts`] what the latest event cost, and
//! [`Node::next_due`] when something is due next.
//!
//! It is proved that a node follows the rules of `trdp_model`: each slot gets what it would get
//! alone (the clause `alone` of [`Node::run`]). What is counted of an event is within its bounds
//! (the clause `cost` of [`Node::step`]). [`run_both`] says that two nodes serve a slot alike
//! where they differ only in other slots. A step fails with `OutOfMemory` only at the events that
//! [`Node::step`] lists.
#![tactic(auto)]

mod laws;
mod moment;
mod node;
mod run;
mod start;

pub use laws::run_both;
pub use node::Node;

// What callers pass in and get back, and the laws of the rules, so that a program names this crate
// alone.
pub use trdp_model::{
    Answer, Call, Event, Indication, Kind, Message, NodeFault, PeekFault, Protocol, Record,
    Refusal, Reply, SLOTS_MAX, ValueFault, What, error_telegrams_are_inert,
    malformed_datagrams_are_inert, requests_are_for_listeners, same_view, view_drops_nothing,
};
pub use trdp_outbox::Outbox;

// What callers pass in and get back, so that a program names this crate alone.
pub use trdp_base::{
    IP_LENGTH, Ip, MOMENT_MAX, Moment, NUMBER_LENGTH, PLACE_LENGTH, Place, QUOTA_LIMIT, Quotas,
    SessionId, TextFault, Topo, Uri, push_hex, push_ip, push_number, push_place, read_hex, read_ip,
    read_number, read_place, read_uri,
};
pub use trdp_dataset::{ConfigFault, Key, NodeConfig, Registry};
pub use trdp_filter::{MdFilter, PdFilter};
pub use trdp_head::MdKind;
pub use trdp_marshal::Item;
pub use trdp_md::{CallerTerms, NotifyTerms};
pub use trdp_pd::{
    Behaviour, Peek, PublisherTerms, Reason, RequesterTerms, SubscriptionTerms, ValueState,
};
