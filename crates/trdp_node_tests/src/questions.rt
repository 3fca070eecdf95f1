//! A daemon that the operator asks what it has counted and what its slots hold.

use crate::daemon::{MemoryDaemon, lend, offers_are};
use std::alloc::{AllocError, Global};
use std::process::Abort;
use trdp_base::{Ip, Place};
use trdp_daemon::{MemoryWire, Port};

/// A node of two slots with an operator; one slot has a quota and a control port.
const CONFIG: &[u8] = b"
[node]
address = \"10.0.0.1\"
operator_port = 18100
[[slot]]
publishers = 4
control_port = 18000
[[slot]]
";

/// The operator.
const OPERATOR: Place = Place {
    ip: Ip(0x0a00_0008),
    port: 9001,
};

/// The application of slot 0.
const APPLICATION: Place = Place {
    ip: Ip(0x0a00_0008),
    port: 9000,
};

/// In each turn the reading of the clock, what the operator says, and the answer. In the second
/// turn, after the operator's line, the application publishes.
static TURNS: [(u64, &[u8], &[u8]); 6] = [
    (
        5,
        b"totals",
        b"taken 1 offered 0 lost 0 unread 0 memory 0\n",
    ),
    (
        100,
        b"slots\n",
        b"0 0/4 0/0 0/0 0/0 0/0 0/0 -\n1 0/0 0/0 0/0 0/0 0/0 0/0 -\n",
    ),
    (
        350,
        b"slots",
        b"0 1/4 0/0 0/0 0/0 0/0 0/0 250\n1 0/0 0/0 0/0 0/0 0/0 0/0 -\n",
    ),
    (
        50,
        b"slots",
        b"0 1/4 0/0 0/0 0/0 0/0 0/0 0\n1 0/0 0/0 0/0 0/0 0/0 0/0 -\n",
    ),
    (400, b"totals 1", b"line fault Count\n"),
    (
        500,
        b"totals",
        b"taken 7 offered 6 lost 0 unread 0 memory 0\n",
    ),
];

/// Sets up what the operator and the application say.
fn lay_down(wire: &mut MemoryWire) -> Result<(), AllocError> {
    for (i, (_, line, _)) in TURNS.iter().enumerate() {
        wire.arrive(Port::Operator, i + 1, OPERATOR, line)?;
    }
    let publish = b"publish 100 0 100000 0 0 0 10.0.0.2:17224";
    wire.arrive(Port::Control(0), 2, APPLICATION, publish)
}

/// A daemon with this set up; None where an allocation fails.
fn daemon(alloc: Global) -> Option<MemoryDaemon> {
    let mut wire = MemoryWire::new(alloc, 100, 100, 4096).ok()?;
    lay_down(&mut wire).ok()?;
    MemoryDaemon::new(alloc, CONFIG, wire, &TURNS.map(|(reading, _, _)| reading))
}

/// Asserts the answers to the operator, and that to the application after the second one.
fn answers(rt: &(impl Abort + AllocGlobal), daemon: &mut MemoryDaemon) {
    daemon.run(6);
    let [first, second, third, fourth, fifth, sixth] = TURNS.map(|(_, _, answer)| (
        Port::Operator,
        OPERATOR,
        answer,
    ));
    let told: (Port, Place, &[u8]) = (Port::Control(0), APPLICATION, b"0 handle 1\n");
    let wanted = [first, second, told, third, fourth, fifth, sixth];
    offers_are(rt, daemon.wire(), &wanted);
}

// rule: control.question: totals, objects, quotas and silence at six times
#[test]
fn a_question_is_answered(rt: HostRuntime) {
    let is_there = lend(daemon(rt.alloc()), |daemon| answers(&rt, daemon));
    assert!(rt; is_there, "no memory");
}
