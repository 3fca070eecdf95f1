//! What datagrams and a moment cost a node, counted exactly.
//!
//! A search in the index by comId halves the rows: it compares the middle one, and goes on in the
//! half before it or after it. The rows of a comId are found by two searches, for the first of
//! them, and for the first after them among the rows from there on.
//!
//! The orders of the due objects are in a heap, in which none comes before the one above it. The
//! room that a moment needs is found from the top down, as far as something is due, by a
//! comparison of each order with the moment. Before each object that fires, and at the end, the
//! top is compared with the moment. A later order, or the last one where another is taken out, is
//! compared with the one that was there before. It goes down to the end, where of two below it the
//! sooner one is found by a comparison, and from there up again as long as it is sooner than the
//! one above it.

use crate::node_bench::{NodeBench, lend};
use crate::same::same;
use crate::two_slots::CONFIG;
use std::alloc::Global;
use std::test::Fail;

/// A subscription of comId 100 in the first of the two slots.
const FIRST: &str = "call 0 subscribe 100 0 0.0.0.0 0.0.0.0 0.0.0.0 0 0 0 zero";

/// The same in the second slot.
const SECOND: &str = "call 1 subscribe 100 0 0.0.0.0 0.0.0.0 0.0.0.0 0 0 0 zero";

/// A listener to comId 300 in the first slot.
const LISTENER: &str = "call 0 listen 300 0.0.0.0 0.0.0.0 0.0.0.0 - 0 0";

/// A listener to any comId in the first slot.
const LISTENER_TO_ANY: &str = "call 0 listen any 0.0.0.0 0.0.0.0 0.0.0.0 - 0 0";

/// The same in the second slot.
const SECOND_TO_ANY: &str = "call 1 listen any 0.0.0.0 0.0.0.0 0.0.0.0 - 0 0";

/// Pd c=7 com=100 | 0102
const DATA: &str = "\
    pd 10.0.0.2:17224 10.0.0.1:17224 \
    00000007010050640000006400000000000000000000000200000000000000000000000035e54114\
    01020000";

/// Pd c=7 com=7 | 0102
const OTHER_DATA: &str = "\
    pd 10.0.0.2:17224 10.0.0.1:17224 \
    0000000701005064000000070000000000000000000000020000000000000000000000004386af2a\
    01020000";

/// Mp s=1 com=301 | 0c
const REPLY: &str = "\
    md 10.0.0.2:17225 10.0.0.1:17225 \
    0000000001004d700000012d00000000000000000000000100000000000000000000000000000000\
    00000001000000000000000000000000000000000000000000000000000000000000000000000000\
    00000000000000000000000000000000000000000000000000000000000000004488c7480c000000";

/// Mn com=300 | 0d
const NOTIFICATION: &str = "\
    md 10.0.0.2:17225 10.0.0.1:17225 \
    0000000001004d6e0000012c00000000000000000000000100000000000000000000000000000000\
    00000000000000000000000000000000000000000000000000000000000000000000000000000000\
    00000000000000000000000000000000000000000000000000000000000000006d6f3c7c0d000000";

/// A publisher in the first slot, due at 100,000.
const PUBLISHER: &str = "call 0 publish 100 0 100000 0 0 0 10.0.0.2:17224";

/// One in the second slot, due at 300,000.
const SLOWER_PUBLISHER: &str = "call 1 publish 100 0 300000 0 0 0 10.0.0.2:17224";

/// A subscription in the second slot, due at 50,000 and then no more.
const SUPERVISED: &str = "call 1 subscribe 100 0 0.0.0.0 0.0.0.0 0.0.0.0 0 0 50000 zero";

/// A caller in the first slot, which ends at 100,000.
const CALLER: &str = "\
    call 0 request 300 00000000-0000-0000-0000-000000000001 1 100000 - - 0 0 10.0.0.2:17225 0d";

/// What an event costs a node that has processed lines: comparisons, filter tests and look-ups by
/// session.
struct Costing {
    name: &'static str,
    before: &'static [&'static str],
    event: &'static str,
    counts: [u64; 3],
}

static COSTINGS: [Costing; 5] = [
    // The first search compares the second row and the first, the other one the second row alone,
    // since both rows come before the end that it looks for. Two objects are tested, and both
    // receive the telegram.
    Costing {
        name: "data that a subscription in each slot takes",
        before: &[FIRST, SECOND],
        event: DATA,
        counts: [3, 4, 0],
    },
    // Both searches compare the second row and the first.
    Costing {
        name: "data of a comId that nobody has",
        before: &[FIRST, SECOND, DATA],
        event: OTHER_DATA,
        counts: [4, 0, 0],
    },
    // The rows are those of any, of the first slot and the second, and then that of comId 300,
    // which is found by 2 comparisons and 1, those of any by 2 and 2. All three are tested, and
    // the first listener of each slot receives the telegram.
    Costing {
        name: "a notification for two listeners of one slot and one of the other",
        before: &[LISTENER, LISTENER_TO_ANY, SECOND_TO_ANY],
        event: NOTIFICATION,
        counts: [7, 5, 0],
    },
    // Its session is looked for in each slot.
    Costing {
        name: "a reply that nobody waits for",
        before: &[],
        event: REPLY,
        counts: [0, 0, 2],
    },
    // The heap is the subscription on top, below it the publisher and the caller, and the slower
    // publisher below the other. All 4 are compared with the moment for the room; then the top is 4
    // times, since 3 are due. The subscription goes: the slower publisher is compared with it, the
    // two below with each other, and the slower one with the publisher, 3. The publisher is due
    // later: it is compared with what it was, the two below with each other, and it with the caller
    // above it, 3. The caller goes, which is a look-up: the publisher is compared with it, goes
    // below the slower one without a comparison, and up again by one, 2.
    Costing {
        name: "a moment by which three objects of four are due, and one ends",
        before: &[PUBLISHER, SUPERVISED, CALLER, SLOWER_PUBLISHER],
        event: "moment 100000",
        counts: [16, 0, 1],
    },
];

/// What a line costs the node.
fn cost(bench: &mut NodeBench, alloc: Global, line: &str) -> Result<[u64; 3], Fail> {
    bench.take(alloc, line)?;
    Ok(bench.node.counts())
}

/// What the event of the row costs the node.
fn counts_of(alloc: Global, row: &Costing) -> Result<[u64; 3], Fail> {
    let bench = NodeBench::after(alloc, CONFIG, row.before);
    lend(bench, |bench| cost(bench, alloc, row.event))
}

#[test]
fn events_cost_what_they_concern(rt: HostRuntime) -> Result<(), Fail> {
    for row in &COSTINGS {
        same(&rt, row.name, counts_of(rt.alloc(), row)?, row.counts);
    }
    Ok(())
}
