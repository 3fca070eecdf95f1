//! A daemon over a wire and a clock in memory, where receiving, sending and memory fail in turn.

use crate::daemon::{MemoryDaemon, lend, offers_are, totals, turns_give};
use std::alloc::{AllocError, Global};
use std::process::Abort;
use trdp_base::{Ip, Place};
use trdp_daemon::{MemoryWire, Port, Totals};

/// A node with three ports of its own, and the control port of slot 0.
const CONFIG: &[u8] = b"
[node]
address = \"10.0.0.1\"
operator_port = 18100
[[slot]]
publishers = 4
control_port = 18000
[[slot]]
";

/// The application of slot 0.
const APPLICATION: Place = Place {
    ip: Ip(0x0a00_0008),
    port: 9000,
};

/// What three turns offer where nothing is lost that comes: two answers and a telegram.
const THREE_TURNS: &[u8] = b"0 handle 1\n0 done\n\
    \0\0\0\0\x01\0\x50\x64\0\0\0\x64\0\0\0\0\0\0\0\0\0\0\0\x02\
    \0\0\0\0\0\0\0\0\0\0\0\0\xec\x17\x9c\x94\x0a\x0b\0\0";

/// What four turns offer then: the publisher's next telegram too.
const FOUR_TURNS: &[u8] = b"0 handle 1\n0 done\n\
    \0\0\0\0\x01\0\x50\x64\0\0\0\x64\0\0\0\0\0\0\0\0\0\0\0\x02\
    \0\0\0\0\0\0\0\0\0\0\0\0\xec\x17\x9c\x94\x0a\x0b\0\0\
    \0\0\0\x01\x01\0\x50\x64\0\0\0\x64\0\0\0\0\0\0\0\0\0\0\0\x02\
    \0\0\0\0\0\0\0\0\0\0\0\0\x1f\x87\x6e\xa2\x0a\x0b\0\0";

/// What three turns offer and count where the `take` of that number fails, counted from 1, 0 for
/// none. Each turn receives at process data, message data, the operator's port and the control
/// port of slot 0: the fourth and the eighth `take` find the application's lines.
fn without_take(take: usize) -> (&'static [u8], Totals) {
    match take {
        0 => (THREE_TURNS, totals(2, 3, 0, 0)),
        4 => (b"0 refused NoHandle\n", totals(1, 1, 0, 1)),
        8 => (b"0 handle 1\n", totals(1, 1, 0, 1)),
        _ => (THREE_TURNS, totals(2, 3, 0, 1)),
    }
}

/// What four turns offer, how many datagrams that is, and how often an allocation failed: never,
/// for the publisher, for the value, and for the moment of the first telegram, which the next turn
/// makes up for.
static LOSSES: [(&[u8], u64, u64); 4] = [
    (FOUR_TURNS, 4, 0),
    (b"0 refused NoHandle\n", 1, 1),
    (b"0 handle 1\n", 1, 1),
    (THREE_TURNS, 3, 1),
];

/// Sets up that the application publishes in the first turn and puts a value in the second, and
/// that the `take` and the `give` of these numbers fail, counted from 1, 0 for none.
fn lay_down(
    wire: &mut MemoryWire,
    failing_take: usize,
    failing_give: usize,
) -> Result<(), AllocError> {
    let publish = b"publish 100 0 100000 0 0 0 10.0.0.2:17224";
    wire.arrive(Port::Control(0), 1, APPLICATION, publish)?;
    wire.arrive(Port::Control(0), 2, APPLICATION, b"put 1 0a0b\n")?;
    wire.fail_take(failing_take)?;
    wire.fail_give(failing_give)
}

/// A daemon with this set up; None where an allocation fails.
fn daemon(alloc: Global, failing_take: usize, failing_give: usize) -> Option<MemoryDaemon> {
    let mut wire = MemoryWire::new(alloc, 100, 100, 4096).ok()?;
    lay_down(&mut wire, failing_take, failing_give).ok()?;
    MemoryDaemon::new(alloc, CONFIG, wire, &[0, 1, 100_000, 200_000])
}

/// Asserts what that many turns offer and count where this `take` and this `give` fail.
fn failing(
    rt: &(impl Abort + AllocGlobal),
    (take, give): (usize, usize),
    turns: u32,
    wanted: (&[u8], Totals),
) {
    let daemon = daemon(rt.alloc(), take, give);
    let is_there = lend(daemon, |daemon| turns_give(rt, take, daemon, turns, wanted));
    assert!(rt; is_there, "no memory");
}

#[test]
fn takes_and_gives_fail_in_turn(rt: HostRuntime) {
    for take in 0..13 {
        failing(&rt, (take, 0), 3, without_take(take));
    }
    for give in 1..4 {
        failing(&rt, (0, give), 3, (THREE_TURNS, totals(2, 3, 1, 0)));
    }
    failing(&rt, (0, 3), 4, (FOUR_TURNS, totals(2, 4, 1, 0)));
}

/// Whether the result of a run is one of the losses.
fn is_among(offers: &[u8], counts: Totals) -> bool {
    for (text, offered, memory) in LOSSES {
        let wanted = Totals {
            memory,
            ..totals(2, offered, 0, 0)
        };
        if offers == text && counts == wanted {
            return true;
        }
    }
    false
}

/// Asserts that the result of four turns is one of the losses.
fn counts_its_loss(rt: &(impl Abort + AllocGlobal), daemon: &mut MemoryDaemon) {
    let counts = daemon.run(4);
    assert!(rt; is_among(daemon.wire().bytes(), counts), "{counts:?}");
}

/// Passes whichever single request for memory is refused: bench/refused_memory.py refuses each in
/// turn.
#[test]
fn refused_memory_is_counted(rt: HostRuntime) {
    lend(
        daemon(rt.alloc(), 0, 0),
        |daemon| counts_its_loss(&rt, daemon),
    );
}

/// Asserts from where to where the offers of three turns went.
fn leave_from_their_ports(rt: &(impl Abort + AllocGlobal), wire: &MemoryWire) {
    let device = Place {
        ip: Ip(0x0a00_0002),
        port: 17224,
    };
    let (answers, telegram) = THREE_TURNS.split_at(18);
    let (handle, done) = answers.split_at(11);
    let wanted = [
        (Port::Control(0), APPLICATION, handle),
        (Port::Control(0), APPLICATION, done),
        (Port::Pd, device, telegram),
    ];
    offers_are(rt, wire, &wanted);
}

/// Asserts from where to where the offers of three turns go, one of which runs by itself.
fn three_turns(rt: &(impl Abort + AllocGlobal), daemon: &mut MemoryDaemon) {
    daemon.turn();
    turns_give(rt, 0, daemon, 2, (THREE_TURNS, totals(2, 3, 0, 0)));
    leave_from_their_ports(rt, daemon.wire());
}

#[test]
fn offers_leave_from_their_ports(rt: HostRuntime) {
    let is_there = lend(daemon(rt.alloc(), 0, 0), |daemon| three_turns(&rt, daemon));
    assert!(rt; is_there, "no memory");
}
