//! A node as a device on a network: datagrams come from a wire, time from a clock.
//!
//! - [`Daemon`] takes turns. A turn is one reading of its [`Clock`], which is a moment of the
//!   node, and then one take at each port of its [`Wire`]. What a take finds is an event, a
//!   question, a line with a fault or one that is skipped, or the end of an application. What the
//!   node gives, the daemon offers to the wire. [`Daemon::run`] takes a number of turns;
//!   [`Daemon::attend`] goes on until a given time, and rests while nothing is due. [`Totals`] is
//!   what a daemon counts.
//! - What a wire, a port and a clock are is in `trdp_wire`. [`UdpWire`], which never rests,
//!   [`RestingWire`], which does, and [`RunClock`] are in `trdp_udp`. [`MemoryWire`] and
//!   [`MemoryClock`], for tests, are in `trdp_memory`. This crate exports their names too.
//!
//! ```text
//! let wire = UdpWire::bind(&rt, &config)?;
//! let clock = RunClock::new(&rt);
//! let mut daemon = Daemon::new(alloc, config, wire, clock)?;
//! let totals = daemon.run(1_000_000);            // what came, went and was lost in these turns
//! ```
//!
//! The operator can ask two questions, which are no events: `totals`, what was counted, that line
//! included; and `slots`, what each slot holds and may hold, and how long ago its latest line
//! came. An answer changes nothing and never allocates (`specs/Questions`, `specs/Counted`).
//!
//! A slot is reset when its application ends. A wire whose applications have connections reports
//! their ends ([`Wire::find`]), and nothing is sent for such a reset. Over another wire a lease
//! ([`Daemon::with_lease`]) resets a slot once for each silence that is too long, by the clock of
//! the turns. Any line at the slot's control port counts as a sign of life, also one with a fault.
//!
//! `trdp_controls` puts connections in the place of control ports; `trdp_program` runs the daemon.
//!
//! **Proved**, for each wire and clock that report their calls: what a turn takes, offers and
//! counts; and that between two turns the wire rests once, for as long as nothing is due, as it
//! says itself what a rest does ([`WatchedWire`]).
//!
//! **Tested**: that with ample memory nothing is lost (`trdp_node_tests`).
//!
//! **Trusted**: nothing here. What a wire and a clock of the system do is trusted in `trdp_udp`.
#![tactic(auto)]

mod answer;
mod contact;
mod daemon;
mod hearing;
mod home;
mod laws;
mod lease;
mod link;
mod lists;
mod question;
mod service;
mod telling;
mod totals;

pub use daemon::Daemon;
pub use laws::{
    an_end_tells_nobody, each_port_is_taken_from, lost_only_where_memory_is_taken, nothing_missed,
    silence_resets_once,
};
pub use totals::Totals;
pub use trdp_memory::{MemoryClock, MemorySockets, MemoryWire, Offers, Rest, SocketRow};
pub use trdp_udp::{BoundPorts, RestingWire, RunClock, SystemSockets, UdpWire};
pub use trdp_wire::{
    BindFault, Clock, GiveRefusal, GroupAddresses, Missing, Port, Sleeper, SocketFault, Sockets,
    Unread, WatchedWire, Wire, WireFault, control_number, fail,
};
