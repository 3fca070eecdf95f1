//! A daemon over a wire and a clock of one's own, which have no calls but those that each has to
//! have: this wire keeps no news, never rests and ends no connection.

use crate::daemon::totals;
use crate::same::same;
use std::alloc::Global;
use std::process::Abort;
use trdp_base::{Ip, Place};
use trdp_daemon::{Clock, Daemon, Port, Wire, WireFault};
use trdp_dataset::NodeConfig;

/// A node of one slot, with an operator's port.
const OPERATED: &[u8] = b"
[node]
address = \"10.0.0.1\"
operator_port = 17300
[[slot]]
publishers = 1
control_port = 18000
";

/// What the operator asks.
const QUESTION: &[u8] = b"totals";

/// Where the operator is.
const OPERATOR: Place = Place {
    ip: Ip(0x0a00_0009),
    port: 9000,
};

/// A wire at whose operator's port a question waits, and which remembers how many bytes it was
/// given.
#[derive(Drop)]
struct OwnWire {
    asks: bool,
    given: usize,
}

impl Wire for OwnWire {
    ghost faults = { λ _. 0 };

    fn take(&mut self, port: Port, room: &mut [u8]) -> Result<Option<(Place, usize)>, WireFault> {
        if port != Port::Operator || !self.asks || room.len() < QUESTION.len() {
            return Ok(None);
        }
        self.asks = false;
        let (front, _) = room.split_at_mut(QUESTION.len());
        front.copy_from_slice(QUESTION);
        Ok(Some((OPERATOR, QUESTION.len())))
    }

    fn give(&mut self, _port: Port, _to: Place, bytes: &[u8]) -> Result<(), WireFault> {
        self.given = bytes.len();
        Ok(())
    }

    fn failures(&self) -> u64 {
        0
    }
}

/// A clock at which no time passes.
#[derive(Drop)]
struct OwnClock;

impl Clock for OwnClock {
    fn now(&mut self) -> u64 {
        0
    }
}

/// A daemon over these; None where an allocation fails.
fn own_daemon(alloc: Global) -> Option<Daemon<OwnWire, OwnClock>> {
    let config = NodeConfig::from_toml(alloc, OPERATED).ok()?;
    let wire = OwnWire {
        asks: true,
        given: 0,
    };
    Daemon::new(alloc, config, wire, OwnClock).ok()
}

/// Runs a daemon for two turns, and asserts that it answered the question.
fn answers(rt: &(impl Abort + AllocGlobal), daemon: &mut Daemon<OwnWire, OwnClock>) {
    same(rt, "totals", daemon.run(2), totals(1, 1, 0, 0));
    assert!(rt; daemon.wire().given > 0, "no answer");
}

#[test]
fn a_daemon_runs_over_a_wire_of_its_own(rt: HostRuntime) {
    match own_daemon(rt.alloc()) {
        Some(mut daemon) => answers(&rt, &mut daemon),
        None => assert!(rt; false, "no memory"),
    }
}
