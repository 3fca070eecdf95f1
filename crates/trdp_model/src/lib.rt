//! The rules of a node: its events and records, what an object of any kind does, and what a call,
//! a moment or a datagram does to a slot.
//!
//! An [`Event`] is what happens to a node; one of them is a [`Call`] of a slot's application. A
//! [`Record`] is what a slot gets. An [`AnyObject`] is an object of one of six [`Kind`]s.
//!
//! ```text
//! Event::Call { slot: 0, call: Call::Put { handle: 1, bytes: &[0x0a] } }
//! Record { slot: 0, what: What::Answer(Answer::Done) }
//! ```
//!
//! The types of this crate are what a program hands to a node and gets from it. Its definitions
//! (`specs/`) say what each slot gets. They know no pool, no index, no heap and no outbox, so a
//! reader who asks what a node promises reads this crate alone. The crates above, up to the node
//! of `trdp_engine`, state their contracts with these definitions.
//!
//! Proved: laws over the definitions, as functions that do nothing when they run
//! ([`same_view`], [`view_drops_nothing`] and others). That a node keeps these rules is stated by
//! its own contracts, in the crates above.
#![tactic(auto)]

mod any_object;
mod carried;
mod event;
mod fault;
mod kind;
mod laws;
mod look;
mod record;

pub use any_object::AnyObject;
pub use event::{Call, Event, SLOTS_MAX};
pub use fault::{NodeFault, Refusal, is_out_of_memory};
pub use kind::Kind;
pub use laws::{
    error_telegrams_are_inert, kind_stays, malformed_datagrams_are_inert,
    requests_are_for_listeners, same_view, view_drops_nothing,
};
pub use look::{LookFault, PeekFault, ValueFault};
pub use record::{Answer, Indication, Message, Protocol, Record, Reply, What};
