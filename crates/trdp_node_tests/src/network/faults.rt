//! Steps that a network rejects, and that they change nothing.

use super::{Act, NetworkBench, Step};
use crate::same::same;
use std::test::Fail;
use trdp_engine::NodeFault;
use trdp_net::NetworkFault;

/// What is reported of the telegram of process data.
const TOLD: &str = "\
    0 send pd 239.0.0.1:17224 \
    000000000100506400000064000000000000000000000002000000000000000000000000ec179c94\
    0a0b0000\n";

/// A message to one node, and process data to a group.
static BEGINS: [Step; 4] = [
    Step {
        node: 0,
        act: Act::Take("call 0 notify 300 - - 0 0 10.0.0.2:17225 0d"),
        tells: "\
            0 done\n\
            0 send md 10.0.0.2:17225 \
            0000000001004d6e0000012c00000000000000000000000100000000000000000000000000000000\
            00000000000000000000000000000000000000000000000000000000000000000000000000000000\
            00000000000000000000000000000000000000000000000000000000000000006d6f3c7c0d000000\n",
    },
    Step {
        node: 0,
        act: Act::Take("call 0 publish 100 0 1000 0 0 0 239.0.0.1:17224"),
        tells: "0 handle 1\n",
    },
    Step {
        node: 0,
        act: Act::Take("call 0 put 1 0a0b"),
        tells: "0 done\n",
    },
    Step {
        node: 0,
        act: Act::Take("moment 1000"),
        tells: TOLD,
    },
];

/// Steps that are rejected, at the nodes of these numbers, and why.
static REFUSED: [(usize, Act, NetworkFault); 12] = [
    (
        4,
        Act::Take("md 10.0.0.2:17225 10.0.0.1:17225 -"),
        NetworkFault::Unsent,
    ),
    (4, Act::Take("call 2 get 1"), NetworkFault::NoNode),
    (4, Act::Deliver(2), NetworkFault::NoNode),
    (0, Act::Deliver(2), NetworkFault::NoTelegram),
    (1, Act::Deliver(usize::MAX), NetworkFault::NoTelegram),
    (0, Act::Deliver(0), NetworkFault::Elsewhere),
    (2, Act::Deliver(0), NetworkFault::Elsewhere),
    (3, Act::Deliver(1), NetworkFault::Elsewhere),
    (
        0,
        Act::Take("call 2 get 1"),
        NetworkFault::Node(NodeFault::NoSlot),
    ),
    (
        0,
        Act::Take("moment 999"),
        NetworkFault::Node(NodeFault::Past),
    ),
    (
        1,
        Act::Take("moment 4611686018427387905"),
        NetworkFault::Node(NodeFault::TooLate),
    ),
    (
        0,
        Act::Take("role 0 leader"),
        NetworkFault::Node(NodeFault::NoGroup),
    ),
];

/// What was sent to a group arrives wherever the port is the same, at its sender too.
static GOES_ON: [Step; 4] = [
    Step {
        node: 0,
        act: Act::Deliver(1),
        tells: "",
    },
    Step {
        node: 1,
        act: Act::Take("call 0 listen any 0.0.0.0 0.0.0.0 0.0.0.0 - 0 0"),
        tells: "0 handle 1\n",
    },
    Step {
        node: 1,
        act: Act::Deliver(0),
        tells: "0 notified 1 10.0.0.1:17225 300 - - 0d\n",
    },
    Step {
        node: 1,
        act: Act::Deliver(1),
        tells: "",
    },
];

#[test]
fn a_step_that_is_not_taken_changes_nothing(rt: HostRuntime) -> Result<(), Fail> {
    let mut bench = NetworkBench::new(rt.alloc())?;
    same(&rt, "the nodes", bench.network.nodes(), 4);
    bench.play(&rt, "before", &BEGINS)?;
    for (node, act, fault) in &REFUSED {
        same(&rt, "refused", bench.act(*node, act), Some(Err(*fault)));
        bench.tells(&rt, "what was told before", TOLD)?;
        same(&rt, "the end", bench.network.sent(2).is_none(), true);
    }
    bench.play(&rt, "after", &GOES_ON)
}
