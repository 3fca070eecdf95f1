//! The node's calls that no line makes.

use crate::node_bench::{NodeBench, lend};
use crate::same::same;
use crate::two_slots::CONFIG;
use std::process::Abort;
use std::test::Fail;
use trdp_base::{Ip, Place, Topo};
use trdp_engine::{Call, Event, run_both, same_view, view_drops_nothing};
use trdp_pd::PublisherTerms;

/// A publisher of comId 100 with a cycle of 100 ms, to 10.0.0.2.
const TERMS: PublisherTerms = PublisherTerms {
    com_id: 100,
    dataset: 0,
    cycle: 100_000,
    group: 0,
    topo: Topo { etb: 0, op_trn: 0 },
    to: Place {
        ip: Ip(0x0a00_0002),
        port: 17224,
    },
};

/// That publisher is made in a slot.
fn publish(slot: u16) -> Event<'static> {
    let call = Call::Publish(TERMS);
    Event::Call { slot, call }
}

/// The first object of slot 0 gets a value.
fn put() -> Event<'static> {
    let call = Call::Put {
        handle: 1,
        bytes: b"\x0a\x0b",
    };
    Event::Call { slot: 0, call }
}

/// The publisher is made, gets its value, and is due.
fn events() -> [Event<'static>; 3] {
    [publish(0), put(), Event::Moment(100_000)]
}

/// The same for slot 0, with a call of slot 1, a moment that changes nothing and a last one that
/// is rejected.
fn other_events() -> [Event<'static>; 6] {
    [
        publish(1),
        publish(0),
        Event::Moment(0),
        put(),
        Event::Moment(100_000),
        Event::Moment(7),
    ]
}

/// What they record.
static FIRST_TELEGRAM: &str = "\
    0 handle 1\n\
    0 done\n\
    0 send pd 10.0.0.2:17224 \
    000000000100506400000064000000000000000000000002000000000000000000000000ec179c94\
    0a0b0000\n";

/// The datasets, the address and the ports of the other configuration, the same slot 0, and a
/// slot 1 that holds nothing.
static OTHER_CONFIG: &[u8] = b"\
[node]
address = \"10.0.0.1\"
[[slot]]
publishers = 4
subscriptions = 4
requesters = 1
listeners = 2
callers = 2
repliers = 1
[[slot]]
publishers = 0
subscriptions = 0
requesters = 0
listeners = 0
callers = 0
repliers = 0
[[dataset]]
id = 1001
element = [{ type = \"UINT8\" }, { type = \"UINT16\", size = 0 }]
[[dataset]]
id = 1002
element = [{ type = \"INT16\" }, { type = 15 }, { type = 1001 }]
";

/// What slot 1 of that one answers, and then what slot 0 records.
static OTHER_TELEGRAM: &str = "\
    1 refused Quota\n\
    0 handle 1\n\
    0 done\n\
    0 send pd 10.0.0.2:17224 \
    000000000100506400000064000000000000000000000002000000000000000000000000ec179c94\
    0a0b0000\n";

/// Runs both lists of events, and returns how many of each were processed.
fn run_lists(first: &mut NodeBench, second: &mut NodeBench) -> (usize, usize) {
    run_both(
        &mut first.node,
        &mut second.node,
        &events(),
        &other_events(),
        &mut first.out,
        &mut second.out,
    )
}

/// Asserts what both lists of events record at two new nodes.
fn run_two(
    rt: &(impl Abort + AllocGlobal),
    first: &mut NodeBench,
    second: &mut NodeBench,
) -> Result<(), Fail> {
    same(rt, "taken", run_lists(first, second), (3, 6));
    same_view();
    view_drops_nothing();
    first.tells(rt, FIRST_TELEGRAM)?;
    second.tells(rt, OTHER_TELEGRAM)
}

/// Runs the first node beside one of the other configuration.
fn run_beside(rt: &(impl Abort + AllocGlobal), first: &mut NodeBench) -> Result<(), Fail> {
    let mut second = NodeBench::new(rt.alloc(), OTHER_CONFIG)?;
    run_two(rt, first, &mut second)
}

#[test]
fn two_nodes_run_alike(rt: HostRuntime) -> Result<(), Fail> {
    let first = NodeBench::new(rt.alloc(), CONFIG);
    lend(first, |first| run_beside(&rt, first))
}
