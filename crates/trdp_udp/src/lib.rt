//! The UDP ports of a node over the sockets of a system, and the system's clock. A wire here is a
//! function of its sockets: each take and each give is one call of them. One wire never waits; the
//! other waits in a rest until something comes.
//!
//! - [`UdpWire`], which never rests, and [`RestingWire`], which does, are wires over
//!   [`Sockets`](trdp_wire::Sockets).
//!   [`BoundPorts`] says which ports of a configuration have sockets.
//! - [`SystemSockets`] and [`RunClock`] are the system's. If [`SharedWaits`] are asked, a wait also
//!   ends for something else.
//!
//! ```text
//! let wire = UdpWire::bind(&rt, &config)?;
//! let clock = RunClock::new(&rt);
//! let sockets = SystemSockets::new(&rt);
//! let resting = RestingWire::open(alloc, sockets, clock, &config, BoundPorts::All)?;
//! ```
//!
//! **Proved**, for any sockets that record their calls: which sockets are bound and watched, where
//! and in which order; which datagrams a wire returns, when it fails, and which refusal and which
//! failed take it keeps. Of [`RestingWire`]: when and how long it waits or sleeps, and at which
//! ports it asks. Of [`RunClock`]: which numbers it makes of the system's times.
//!
//! **Tested**: both wires over sockets in memory, and over loopback (`trdp_node_tests`).
//!
//! **Trusted**: the system, behind the functions of [`SystemSockets`] and [`RunClock`] that only
//! make its calls. A socket is bound where it is asked for and never waits; what came is taken
//! whole, and what is given is sent; a wait ends when a datagram comes, and reports each that did;
//! the time is now. A system at which nothing ever comes meets the contracts. The tests over
//! loopback try these calls.
#![tactic(auto)]

mod bound_ports;
mod opening;
mod rest_step;
mod resting_wire;
mod run_clock;
mod shared_waits;
mod system_sockets;
mod udp_wire;

pub use bound_ports::BoundPorts;
pub use resting_wire::RestingWire;
pub use run_clock::RunClock;
pub use shared_waits::SharedWaits;
pub use system_sockets::SystemSockets;
pub use udp_wire::UdpWire;
