//! A network of nodes, to prove what holds of all of them together: no exchange is invented. Among
//! any number of nodes, whatever the network between them loses, repeats or reorders, no value,
//! message, reply or confirmation is indicated that an application did not make. Only
//! `trdp_node_tests` uses this crate.
//!
//! # The network
//!
//! A network has nodes, each as `trdp_engine::Node` opens it, and every telegram that any of them
//! ever sent, with the `Place`s of its sender and its destination. Its history is each event that
//! a node accepted, with the node as it was before. A step is an event of one node (a call, a
//! moment, topology counters, a role, a new slot) or the delivery of a telegram. Any telegram that
//! was ever sent may be delivered at any node that its destination reaches: again, in any order,
//! at any later time, or never. A group address reaches every node of its port. Nothing else is
//! delivered. A node rejects an event, and then nothing changes, or accepts it, and then its slots
//! do what `trdp_model` says that each does alone. A call is *granted* where its answer is other
//! than a refusal.
//!
//! # The promises
//!
//! [`no_invented_value`], [`no_invented_request`], [`no_invented_reply`], [`no_invented_confirm`]
//! and [`no_early_done`] are proved of every list of steps from nodes that were just opened, under
//! the premises that each names:
//!
//! - `Ever P past`: some earlier move was so. `P` gets the moves before that one.
//! - `Always P history`: each move was so, given the moves before it.
//! - Who made what: `IsPut`, `IsRequested`, `IsAsked`, `IsAnswered`, `IsReplied` and `IsConfirmed`
//!   name node, slot, handle, call and contents of a granted call or an indication.
//!
//! [`the_promises_are_not_empty`] computes a run of two nodes (specs/Example.antt): the premises
//! of the promises hold in it, and each thing that they speak of happens.
//!
//! # A network that runs
//!
//! [`Network`] holds real nodes. [`Network::take`] gives one of them an event of its own, and
//! [`Network::deliver`] a telegram that any of them sent. It *shows* a network of the definitions:
//! after each step, that network after the same step. So what holds of every run of the
//! definitions holds of what a user sees here.
//!
//! # What is not promised
//!
//! - That anything arrives.
//! - That a request is asked once: one that comes again after its session has closed, from the
//!   network or since its caller sent it again, is asked again.
//! - Anything about telegrams that no node of the network sent: telegrams carry no proof of
//!   origin, so a peer that does not follow the rules can invent any.
#![tactic(auto)]

mod example;
mod fault;
mod laws;
mod network;
mod node;
mod station;
mod told;

pub use example::the_promises_are_not_empty;
pub use fault::NetworkFault;
pub use laws::{
    faults_change_nothing, history_is_the_run, no_early_done, no_invented_confirm,
    no_invented_reply, no_invented_request, no_invented_value, nodes_move_so,
};
pub use network::Network;
pub use node::step;
pub use told::Sent;
