//! A wire, sockets, connections, a folder and a clock in memory, for tests. What arrives is laid
//! down before, and so is what ends and what fails. All of them record their calls, so all that is
//! proved about a wire, sockets, connections, a folder or a clock that records holds for them.
//!
//! - [`MemoryWire`] is a wire over which datagrams arrive at given takes, and the ends of
//!   applications. [`Offers`] walks over what it was given, and a [`Rest`] is one that it was asked
//!   for.
//! - [`MemorySockets`] are sockets at which datagrams wait. A [`SocketRow`] is one of their calls.
//! - [`MemoryConnections`] are connections of one path, which come, speak and end at given calls.
//!   A [`ConnectionRow`] is one of their calls.
//! - [`MemoryFolder`] is a folder that refuses given files, with [`MemoryConnections`] at the
//!   others. A [`ListenRow`] is one file at which a process was to listen.
//! - [`MemoryClock`] is a clock that reads a list.
//!
//! ```text
//! let mut wire = MemoryWire::new(alloc, 100, 100, 10_000)?;  // room for takes, gives and bytes
//! wire.arrive(Port::Pd, 2, from, &bytes)?;                   // at the second take there
//! wire.end(Port::Control(0), 3, from)?;                      // slot 0's application has ended
//! let clock = MemoryClock::new(alloc, &[0, 10_000])?;
//!
//! let mut connections = MemoryConnections::new(alloc, "/run/trdpd", 18000);
//! connections.come(1)?;                                      // at the first accept
//! connections.say(1, 2, b"reset\n")?;                        // at the second read from it
//! ```
//!
//! **Proved**: what each call answers and records, as a function of what was laid down and of the
//! calls before. No contract says when a call that allocates finds no memory. It fails then, or the
//! clock reports no more sleeps, or the sockets, the connections or the folder report nothing more.
//!
//! **Tested** in `trdp_node_tests`: the wires of `trdp_udp` over sockets in memory; a daemon over a
//! wire with an end, a path over connections, and a wire over control sockets that is opened in a
//! folder.
//!
//! **Trusted**: nothing; no call of the system is made here.
#![tactic(auto)]

mod arrivals;
mod connection_log;
mod connection_rows;
mod memory_clock;
mod memory_connections;
mod memory_folder;
mod memory_sockets;
mod memory_wire;
mod no_way;
mod offers;
mod rows;
mod stream_arrival;
mod waiting;
mod within_rooms;

pub use connection_rows::ConnectionRow;
pub use memory_clock::MemoryClock;
pub use memory_connections::MemoryConnections;
pub use memory_folder::{ListenRow, MemoryFolder};
pub use memory_sockets::{MemorySockets, SocketRow};
pub use memory_wire::MemoryWire;
pub use offers::Offers;
pub use rows::Rest;
