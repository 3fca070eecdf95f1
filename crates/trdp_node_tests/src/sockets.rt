//! Wires over sockets in memory: which sockets are bound and watched, what a few calls ask of
//! them, and which refused sending (`Wire::give`) a wire keeps.

use crate::same::same;
use std::alloc::Global;
use std::process::Abort;
use std::test::Fail;
use trdp_base::{Ip, Place};
use trdp_daemon::{
    BoundPorts, GiveRefusal, MemoryClock, MemorySockets, Port, RestingWire, SocketFault, SocketRow,
    UdpWire, WatchedWire, Wire, WireFault,
};
use trdp_dataset::NodeConfig;

/// A node with a group, an operator's port, one slot, and a spare port for the second of two that
/// may be added.
const NODE: &[u8] = b"
[node]
address = \"10.0.0.1\"
control_address = \"127.0.0.1\"
groups = [\"239.192.0.1\"]
operator_port = 18100
spare_control_ports = [0, 18002]
[[slot]]
control_port = 18000
";

/// The sockets that the node's ports have: process data and message data, those of the group, the
/// operator's, that of slot 0 and that of slot 2.
const SOCKETS: [usize; 7] = [0, 1, 34, 35, 2, 3, 5];

/// The places where these are bound.
static PLACES: [Place; 7] = [
    Place {
        ip: Ip(0x0a00_0001),
        port: 17224,
    },
    Place {
        ip: Ip(0x0a00_0001),
        port: 17225,
    },
    Place {
        ip: Ip(0xefc0_0001),
        port: 17224,
    },
    Place {
        ip: Ip(0xefc0_0001),
        port: 17225,
    },
    Place {
        ip: Ip(0x7f00_0001),
        port: 18100,
    },
    Place {
        ip: Ip(0x7f00_0001),
        port: 18000,
    },
    Place {
        ip: Ip(0x7f00_0001),
        port: 18002,
    },
];

/// Where datagrams come from and go to.
const PEER: Place = Place {
    ip: Ip(0x0a00_0002),
    port: 9000,
};

/// A place that no route leads to.
const FAR: Place = Place {
    ip: Ip(0x0a00_0003),
    port: 9000,
};

/// One call of `Wire::give`.
struct Give {
    /// The port that it leaves from.
    port: Port,
    /// Where it goes.
    to: Place,
    /// What the wire returns.
    answer: Result<(), WireFault>,
    /// The port of the latest `give` that was refused, after this one; None before the first.
    refused: Option<Port>,
}

/// A `give` that is sent, one without a route, one that is sent, and again one without a route.
static GIVES: [Give; 4] = [
    Give {
        port: Port::Pd,
        to: PEER,
        answer: Ok(()),
        refused: None,
    },
    Give {
        port: Port::Md,
        to: FAR,
        answer: Err(WireFault),
        refused: Some(Port::Md),
    },
    Give {
        port: Port::Operator,
        to: PEER,
        answer: Ok(()),
        refused: Some(Port::Md),
    },
    Give {
        port: Port::Control(0),
        to: FAR,
        answer: Err(WireFault),
        refused: Some(Port::Control(0)),
    },
];

/// The refusal of a `give` to a place without a route; 101 is the system's ENETUNREACH.
fn without_way(port: Port) -> GiveRefusal {
    GiveRefusal {
        port,
        to: FAR,
        fault: SocketFault { code: Some(101) },
    }
}

/// The sockets at which `uses` receives and sends, and how many bytes each datagram has.
const USES: [(usize, usize); 5] = [(0, 0), (1, 16), (2, 16), (3, 5), (1, 7)];

/// A datagram at each of four sockets: an empty one, one like an answer, an answer, and a
/// line.
fn sockets(alloc: Global) -> Option<MemorySockets> {
    let mut sockets = MemorySockets::new(alloc);
    let datagrams = [
        b"".as_slice(),
        b"line fault Count\n",
        b"line fault Count\n",
        b"get 1",
    ];
    for (socket, bytes) in datagrams.iter().enumerate() {
        sockets.arrive(socket, PEER, bytes).ok()?;
    }
    Some(sockets)
}

/// The node's configuration.
fn config(alloc: Global) -> Option<NodeConfig> {
    NodeConfig::from_toml(alloc, NODE).ok()
}

/// What a wire receives at these ports, and how it sends a message.
fn uses<W: Wire>(rt: &(impl Abort + AllocGlobal), wire: &mut W) {
    let mut room = [0; 16];
    let empty = wire.take(Port::Pd, &mut room);
    same(rt, "an empty datagram", empty, Ok(Some((PEER, 0))));
    let message = wire.take(Port::Md, &mut room);
    same(
        rt,
        "a message like an answer",
        message,
        Ok(Some((PEER, 16))),
    );
    let answer = wire.take(Port::Operator, &mut room);
    same(rt, "an answer", answer, Ok(None));
    let line = wire.take(Port::Control(0), &mut room);
    same(rt, "a line", line, Ok(Some((PEER, 5))));
    let sent = wire.give(Port::Md, PEER, b"message");
    same(rt, "a message", sent, Ok(()));
}

/// Whether a row says that this socket was bound at that place.
fn is_bound(row: Option<&SocketRow>, socket: usize, place: Place) -> bool {
    match row {
        Some(SocketRow::Bound(number, at, _)) => *number == socket && *at == place,
        _ => false,
    }
}

/// Whether a row says that something was received or sent at this socket, with that many bytes.
fn is_used(row: Option<&SocketRow>, socket: usize, len: usize) -> bool {
    match row {
        Some(SocketRow::Taken(number, 16, Some((from, bytes)))) => {
            *number == socket && *from == PEER && bytes.len() == len
        }
        Some(SocketRow::Given(number, to, bytes)) => {
            *number == socket && *to == PEER && bytes.len() == len
        }
        _ => false,
    }
}

/// Asserts that these rows begin with the sockets that were bound.
fn assert_bound(rt: &(impl Abort + AllocGlobal), rows: &[SocketRow]) {
    for (i, place) in PLACES.iter().enumerate() {
        same(rt, i, is_bound(rows.get(i), SOCKETS[i], *place), true);
    }
}

/// Asserts that the rows from that index on are those of `uses`.
fn assert_used(rt: &(impl Abort + AllocGlobal), rows: &[SocketRow], first: usize) {
    for (i, (socket, len)) in USES.iter().enumerate() {
        let row = rows.get(i.saturating_add(first));
        same(rt, i, is_used(row, *socket, *len), true);
    }
}

/// A wire over the sockets of the node; None where an allocation fails.
fn plain(alloc: Global) -> Option<UdpWire<MemorySockets>> {
    let config = config(alloc)?;
    UdpWire::open(sockets(alloc)?, &config, BoundPorts::All).ok()
}

/// A wire that rests.
type Resting = RestingWire<MemorySockets, MemoryClock>;

/// The readings of its clock where each rest begins and where a sleep or a wait ends: a turn of
/// 400 microseconds comes before the third rest, and no other turn takes time.
const READINGS: [u64; 4] = [7, 7, 7, 407];

/// A wire that rests over these sockets, with a clock of these readings; None where an allocation
/// fails.
fn over(alloc: Global, sockets: MemorySockets, readings: &[u64]) -> Option<Resting> {
    let config = config(alloc)?;
    let clock = MemoryClock::new(alloc, readings).ok()?;
    RestingWire::open(alloc, sockets, clock, &config, BoundPorts::All).ok()
}

/// A wire that rests over the sockets of the node; None where an allocation fails.
fn resting(alloc: Global) -> Option<Resting> {
    over(alloc, sockets(alloc)?, &READINGS)
}

/// The same with a clock that reads 50 milliseconds more from the third rest on.
fn busy(alloc: Global) -> Option<Resting> {
    over(alloc, sockets(alloc)?, &[7, 7, 50_007])
}

/// Whether a row says that a wait of that many milliseconds reported these sockets.
fn is_wait(row: Option<&SocketRow>, millis: u64, sockets: &[usize]) -> bool {
    match row {
        Some(SocketRow::Waited(most, told)) => *most == millis && told.as_slice() == sockets,
        _ => false,
    }
}

/// A wire that doesn't rest binds its sockets, and receives and sends at them.
fn works(rt: &(impl Abort + AllocGlobal), wire: &mut UdpWire<MemorySockets>) {
    uses(rt, wire);
    same(rt, "failed takes", wire.unread(), None);
    wire.rest(1_000_000);
    let rows = wire.sockets().rows();
    same(rt, "calls", rows.len(), 12);
    assert_bound(rt, rows);
    assert_used(rt, rows, 7);
}

/// A wire that rests watches its sockets too, and waits or sleeps where nothing was heard: for
/// what is left of the rest after the turn before it.
fn works_and_rests(rt: &(impl Abort + AllocGlobal), wire: &mut Resting) {
    uses(rt, wire);
    for most in [10_000, 10_000, 1_599, 1_200] {
        wire.rest(most);
    }
    let rows = wire.sockets().rows();
    same(rt, "calls", rows.len(), 22);
    assert_bound(rt, rows);
    for (i, socket) in SOCKETS.iter().enumerate() {
        let row = rows.get(i.saturating_add(7));
        same(rt, i, row == Some(&SocketRow::Watched(*socket)), true);
    }
    assert_used(rt, rows, 14);
    for (i, millis) in [9, 0, 1].iter().enumerate() {
        let row = rows.get(i.saturating_add(19));
        same(rt, i, is_wait(row, *millis, &[]), true);
    }
    same(rt, "sleeps", wire.clock().sleeps(), [1_199].as_slice());
}

/// A wire that rests reads no port again where it found nothing, before the system reports it. It
/// asks the system in each rest, and at the end of each turn without one, except the first of all
/// and the first after a rest. It sleeps for a moment where there was no rest for 50 milliseconds.
fn asks_where_news_are(rt: &(impl Abort + AllocGlobal), wire: &mut Resting) {
    let mut room = [0; 16];
    for found in [true, false, false] {
        let taken = wire.take(Port::Control(0), &mut room);
        same(rt, "a line", taken != Ok(None), found);
    }
    for _turn in 0..3 {
        wire.rest(0);
    }
    for (port, found) in [
        (Port::Pd, true),
        (Port::Control(0), false),
        (Port::Control(0), false),
    ] {
        let taken = wire.take(port, &mut room);
        same(rt, "in one turn", taken != Ok(None), found);
    }
    for (most, calls) in [(0, 20), (1_000, 21), (0, 21), (0, 22)] {
        wire.rest(most);
        same(rt, "calls", wire.sockets().rows().len(), calls);
    }
    let rows = wire.sockets().rows();
    for i in [16, 17] {
        same(rt, i, is_wait(rows.get(i), 0, &[0, 1, 2]), true);
    }
    for i in [19, 20, 21] {
        same(rt, i, is_wait(rows.get(i), 0, &[1, 2]), true);
    }
    same(rt, "sleeps", wire.clock().sleeps(), [50, 1_000].as_slice());
}

#[test]
fn a_wire_takes_and_gives_at_its_sockets(rt: HostRuntime) {
    match plain(rt.alloc()) {
        Some(mut wire) => works(&rt, &mut wire),
        None => assert!(rt; false, "no memory"),
    }
}

#[test]
fn a_wire_that_rests_waits_at_its_sockets(rt: HostRuntime) {
    match resting(rt.alloc()) {
        Some(mut wire) => works_and_rests(&rt, &mut wire),
        None => assert!(rt; false, "no memory"),
    }
}

#[test]
fn a_wire_that_rests_asks_where_news_are(rt: HostRuntime) {
    match busy(rt.alloc()) {
        Some(mut wire) => asks_where_news_are(&rt, &mut wire),
        None => assert!(rt; false, "no memory"),
    }
}

/// What a wire returns from `give`, and the latest refusal that it keeps after each call.
fn keeps_refusals<W: Wire>(rt: &(impl Abort + AllocGlobal), wire: &mut W) {
    same(rt, "before the first give", wire.refusal(), None);
    for (i, give) in GIVES.iter().enumerate() {
        let answer = wire.give(give.port, give.to, b"data");
        same(rt, i, answer, give.answer);
        same(rt, i, wire.refusal(), give.refused.map(without_way));
    }
}

/// A wire that rests, over sockets without a route to one address; None where an allocation fails.
fn cut_off(alloc: Global) -> Option<Resting> {
    let mut sockets = MemorySockets::new(alloc);
    sockets.cut_off(FAR.ip);
    over(alloc, sockets, &READINGS)
}

#[test]
fn a_wire_keeps_its_latest_refusal(rt: HostRuntime) {
    match cut_off(rt.alloc()) {
        Some(mut wire) => keeps_refusals(&rt, &mut wire),
        None => assert!(rt; false, "no memory"),
    }
}

#[test]
fn a_fault_is_shown_as_the_system_calls_it(rt: HostRuntime) -> Result<(), Fail> {
    let told = format!(in rt.alloc(); "{}", SocketFault { code: Some(101) })?;
    same(
        &rt,
        "101",
        told.as_str(),
        "Network is unreachable (os error 101)",
    );
    let cut = format!(in rt.alloc(); "{}", SocketFault { code: None })?;
    same(
        &rt,
        "none",
        cut.as_str(),
        "the system did not send it whole",
    );
    Ok(())
}
