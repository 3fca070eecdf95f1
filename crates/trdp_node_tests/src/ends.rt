//! A daemon over a wire that hands in the end of an application: its slot is reset.

use crate::daemon::{MemoryDaemon, lend, totals, turns_give};
use std::alloc::Global;
use std::process::Abort;
use trdp_base::{Ip, Place};
use trdp_daemon::{MemoryWire, Port};

/// A node of one slot, which may have one publisher.
const NODE: &[u8] = b"
[node]
address = \"10.0.0.1\"
[[slot]]
publishers = 1
control_port = 18000
";

/// The application that ends.
const FIRST: Place = Place {
    ip: Ip(0x0000_0000),
    port: 1,
};

/// The application after it.
const SECOND: Place = Place {
    ip: Ip(0x0000_0000),
    port: 2,
};

/// What the slot's port offered after each of three turns: the first application's publisher has
/// the handle 1. Nobody is informed of the end. The second application's publisher has the next
/// handle, and finds room.
static OFFERS: [&[u8]; 3] = [
    b"0 handle 1\n",
    b"0 handle 1\n",
    b"0 handle 1\n0 handle 2\n",
];

/// A daemon whose slot's application publishes and ends, and the one after it publishes; None
/// where an allocation fails.
fn ending(alloc: Global) -> Option<MemoryDaemon> {
    let publish = b"publish 100 0 100000 0 0 0 10.0.0.2:17224";
    let mut wire = MemoryWire::new(alloc, 100, 100, 4096).ok()?;
    wire.arrive(Port::Control(0), 1, FIRST, publish).ok()?;
    wire.end(Port::Control(0), 2, FIRST).ok()?;
    wire.arrive(Port::Control(0), 3, SECOND, publish).ok()?;
    MemoryDaemon::new(alloc, NODE, wire, &[0])
}

/// Asserts what each turn offers and counts.
fn resets(rt: &(impl Abort + AllocGlobal), daemon: &mut MemoryDaemon) {
    let counts = [totals(1, 1, 0, 0), totals(2, 1, 0, 0), totals(3, 2, 0, 0)];
    for (turn, offers) in OFFERS.iter().enumerate() {
        turns_give(rt, turn, daemon, 1, (offers, counts[turn]));
    }
}

// rule: slot.end: the slot of an application that has ended is reset, and nobody is informed
#[test]
fn an_end_resets_the_slot(rt: HostRuntime) {
    let is_there = lend(ending(rt.alloc()), |daemon| resets(&rt, daemon));
    assert!(rt; is_there, "no memory");
}
