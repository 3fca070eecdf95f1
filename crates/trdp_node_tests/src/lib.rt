//! Worked examples of a node, of a network of nodes and of a daemon, which no script can show:
//!
//! - calls over the libraries, values as items, and what a datagram costs;
//! - calls for which memory is refused;
//! - an exchange of running nodes, with the steps that their network rejects;
//! - turns over a wire and a clock in memory, where receiving, sending or memory fails;
//! - wires over sockets in memory, and over a folder in memory;
//! - the end of an application, at a path over connections in memory and over a wire in memory;
//! - a wire and a clock of one's own, with no more than the calls that each has to have.
//!
//! What a script can show is in the folder `rows` of the repository, with its output. Ports,
//! readers and writers that fail, and services are tested over the program. The values come from
//! outside: telegrams from the standard's layout with zlib's CRC-32, and answers according to the
//! profile, computed by hand.
#![tactic(auto)]

#[cfg(test)]
mod connections;
#[cfg(test)]
mod counts;
#[cfg(test)]
mod daemon;
#[cfg(test)]
mod ends;
#[cfg(test)]
mod folder;
#[cfg(test)]
mod items;
#[cfg(test)]
mod lines;
#[cfg(test)]
mod network;
#[cfg(test)]
mod node;
#[cfg(test)]
mod node_bench;
#[cfg(test)]
mod own_wire;
#[cfg(test)]
mod questions;
#[cfg(test)]
mod refused;
#[cfg(test)]
mod resting;
#[cfg(test)]
mod same;
#[cfg(test)]
mod sockets;
#[cfg(test)]
mod spare_port;
#[cfg(test)]
mod totals;
#[cfg(test)]
mod turns;
#[cfg(test)]
mod two_slots;
mod views;

pub use views::{
    foreign_datagram_drops_out, number_without_slot_sees_what_all_see, refused_call_stays,
    stale_telegram_stays,
};
