//! A daemon that rests between its turns, over a wire that remembers each rest.

use crate::daemon::{MemoryDaemon, lend, totals};
use crate::same::same;
use std::alloc::Global;
use std::process::Abort;
use trdp_base::{Ip, Place};
use trdp_daemon::{MemoryWire, Port, Rest};

/// A node of one slot that publishes. A turn receives at three ports.
const PUBLISHER: &[u8] = b"
[node]
address = \"10.0.0.1\"
[[slot]]
publishers = 1
control_port = 18000
";

/// The publisher's application.
const APPLICATION: Place = Place {
    ip: Ip(0x0a00_0008),
    port: 9000,
};

/// What the clock reads at the turns. Something is due at 100,000.
const READINGS: [u64; 6] = [0, 100, 40_000, 100_000, 100_010, 150_000];

/// The rests between these turns, where the daemon runs until 150,000: up to 100,000, and then not
/// up to 200,000.
static RESTS: [Rest; 5] = [
    Rest {
        takes: 3,
        most: 100_000,
    },
    Rest {
        takes: 6,
        most: 99_900,
    },
    Rest {
        takes: 9,
        most: 60_000,
    },
    Rest {
        takes: 12,
        most: 50_000,
    },
    Rest {
        takes: 15,
        most: 49_990,
    },
];

/// A daemon whose slot publishes every 100,000 microseconds from its first turn on; None where an
/// allocation fails.
fn publishing(alloc: Global) -> Option<MemoryDaemon> {
    let publish = b"publish 100 0 100000 0 0 0 10.0.0.2:17224";
    let mut wire = MemoryWire::new(alloc, 100, 100, 4096).ok()?;
    wire.arrive(Port::Control(0), 1, APPLICATION, publish).ok()?;
    MemoryDaemon::new(alloc, PUBLISHER, wire, &READINGS)
}

/// Runs a daemon until its end, and asserts what it received and how it rested.
fn attends(rt: &(impl Abort + AllocGlobal), daemon: &mut MemoryDaemon) {
    // The answer of the call; nothing is sent, since the publisher has no value.
    same(rt, "totals", daemon.attend(150_000), totals(1, 1, 0, 0));
    same(rt, "rests", daemon.wire().rests(), RESTS.as_slice());
}

#[test]
fn rests_until_something_is_due(rt: HostRuntime) {
    let is_there = lend(publishing(rt.alloc()), |daemon| attends(&rt, daemon));
    assert!(rt; is_there, "no memory");
}
