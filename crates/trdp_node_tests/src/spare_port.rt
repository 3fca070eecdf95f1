//! A daemon that opens a slot, whose application calls from a spare control port.

use crate::daemon::{MemoryDaemon, lend, offers_are, totals, turns_give};
use std::alloc::Global;
use std::process::Abort;
use trdp_base::{Ip, Place};
use trdp_daemon::{MemoryWire, Port};

/// A node of two slots without quotas, an operator and one spare control port.
const CONFIG: &[u8] = b"
[node]
address = \"10.0.0.1\"
operator_port = 18100
spare_control_ports = [18002]
[[slot]]
[[slot]]
";

/// The operator.
const OPERATOR: Place = Place {
    ip: Ip(0x0a00_0008),
    port: 9001,
};

/// The application of the slot that is opened.
const APPLICATION: Place = Place {
    ip: Ip(0x0a00_0008),
    port: 9000,
};

/// A daemon whose operator opens a slot, and whose application makes a call there in the same
/// turn; None where an allocation fails.
fn opening(alloc: Global) -> Option<MemoryDaemon> {
    let publish = b"publish 100 0 100000 0 0 0 10.0.0.2:17224";
    let mut wire = MemoryWire::new(alloc, 100, 100, 4096).ok()?;
    wire.arrive(Port::Operator, 1, OPERATOR, b"addslot 1 0 0 0 0 0")
        .ok()?;
    wire.arrive(Port::Control(2), 1, APPLICATION, publish).ok()?;
    MemoryDaemon::new(alloc, CONFIG, wire, &[0])
}

/// Asserts what one turn offers and counts, from where and to where.
fn opens(rt: &(impl Abort + AllocGlobal), daemon: &mut MemoryDaemon) {
    turns_give(rt, 0, daemon, 1, (b"ok\n2 handle 1\n", totals(2, 2, 0, 0)));
    let wanted: [(Port, Place, &[u8]); 2] = [
        (Port::Operator, OPERATOR, b"ok\n"),
        (Port::Control(2), APPLICATION, b"2 handle 1\n"),
    ];
    offers_are(rt, daemon.wire(), &wanted);
}

// rule: slot.port: the added slot answers at the spare port
#[test]
fn an_opened_slot_has_the_spare_port(rt: HostRuntime) {
    let is_there = lend(opening(rt.alloc()), |daemon| opens(&rt, daemon));
    assert!(rt; is_there, "no memory");
}
