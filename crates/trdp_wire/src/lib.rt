//! What a daemon needs of the world around its node: a wire, a clock, and the sockets of a system.
//! It has these as traits, so that a daemon is proved for each wire and each clock. It also lists
//! the ports that a configuration names, and where the socket of each port is bound.
//!
//! - [`Wire`] is what datagrams come from and go to, each at a [`Port`] of the node. A
//!   [`WatchedWire`] is one at which a daemon rests. [`Clock`] is what time is read from. A
//!   [`Sleeper`] is a clock that can sleep. [`Sockets`] are the datagram sockets of a system.
//! - [`ports_of`] lists the ports of a configuration in the order of a turn, and [`place_of_port`]
//!   has the socket address of each. [`GroupAddresses`] gives each port the number of its socket.
//! - [`WireFault`], [`SocketFault`] and [`BindFault`] say what failed. A wire keeps the latest
//!   [`GiveRefusal`] and the latest [`Unread`] take, and names the files that are [`Missing`].
//!
//! ```text
//! let ports = ports_of(alloc, &config)?;
//! let found = wire.take(ports[0], &mut room)?;   // where a datagram came from, and its length
//! ```
//!
//! `trdp_udp` has a wire over UDP sockets, and the system's sockets and clock. `trdp_memory` has
//! all three in memory. `trdp_controls` has a wire over control sockets. `trdp_daemon` runs a node
//! over any wire and any clock.
//!
//! A wire, a clock and sockets may record their calls (`specs/Told`, `specs/Sockets`): each trait
//! says what one call adds to this record. The system's record nothing, so they meet these
//! contracts.
//!
//! **Proved**: which ports a configuration names, in which order; where the socket of each is
//! bound, and which number it has; how the failures of a wire are counted.
//!
//! **Tested**: that the text of a `SocketFault` is what the system calls its error
//! (`trdp_node_tests`).
//!
//! **Trusted**: nothing; no call of the system is made here.
#![tactic(auto)]

mod bind_fault;
mod clock;
mod configured_ports;
mod fault;
mod groups;
mod missing;
mod news;
mod port;
mod refusal;
mod seats;
mod sleeper;
mod socket_fault;
mod sockets;
mod unread;
mod watched_wire;
mod wire;

pub use bind_fault::BindFault;
pub use clock::Clock;
pub use configured_ports::{control_number, ports_of, slot_number};
pub use fault::{WireFault, fail};
pub use groups::GroupAddresses;
pub use missing::Missing;
pub use news::{has_news, note_told, set_news};
pub use port::Port;
pub use refusal::GiveRefusal;
pub use seats::{group_place, place_of_port};
pub use sleeper::Sleeper;
pub use socket_fault::SocketFault;
pub use sockets::Sockets;
pub use unread::Unread;
pub use watched_wire::WatchedWire;
pub use wire::Wire;
