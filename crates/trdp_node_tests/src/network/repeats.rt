//! A request that is sent again, and what each of its telegrams does at the other node.

use super::{Act, NetworkBench, Step};
use std::test::Fail;

/// The repeat is delivered while the first telegram's session is open, and nothing is reported.
/// The reply comes twice, and is reported once. The first telegram comes again once its session is
/// over, and is a request like any other.
static STEPS: [Step; 9] = [
    Step {
        node: 1,
        act: Act::Take("call 0 listen 300 0.0.0.0 0.0.0.0 0.0.0.0 - 0 0"),
        tells: "0 handle 1\n",
    },
    Step {
        node: 0,
        act: Act::Take(
            "\
                call 0 request 300 00000000-0000-0000-0000-000000000001 1 1000 - - 0 0 \
                10.0.0.2:17225 0d 2",
        ),
        tells: "\
            0 handle 1\n\
            0 send md 10.0.0.2:17225 \
            0000000001004d720000012c00000000000000000000000100000000000000000000000000000000\
            00000001000003e80000000000000000000000000000000000000000000000000000000000000000\
            0000000000000000000000000000000000000000000000000000000000000000e2d25e9e0d000000\n",
    },
    Step {
        node: 1,
        act: Act::Deliver(0),
        tells: "\
            0 asked 1 2 00000000-0000-0000-0000-000000000001 10.0.0.1:17225 300 - - 0d\n",
    },
    Step {
        node: 0,
        act: Act::Take("moment 1000"),
        tells: "\
            0 send md 10.0.0.2:17225 \
            0000000101004d720000012c00000000000000000000000100000000000000000000000000000000\
            00000001000003e80000000000000000000000000000000000000000000000000000000000000000\
            00000000000000000000000000000000000000000000000000000000000000009ca3225b0d000000\n",
    },
    Step {
        node: 1,
        act: Act::Deliver(1),
        tells: "",
    },
    Step {
        node: 1,
        act: Act::Take("call 0 reply 2 301 0 0c"),
        tells: "\
            0 done\n\
            0 send md 10.0.0.1:17225 \
            0000000001004d700000012d00000000000000000000000100000000000000000000000000000000\
            00000001000000000000000000000000000000000000000000000000000000000000000000000000\
            00000000000000000000000000000000000000000000000000000000000000004488c7480c000000\n",
    },
    Step {
        node: 0,
        act: Act::Deliver(2),
        tells: "\
            0 replied 1 10.0.0.2:17225 Mp 0 301 0c\n\
            0 closed 1 Done\n",
    },
    Step {
        node: 0,
        act: Act::Deliver(2),
        tells: "",
    },
    Step {
        node: 1,
        act: Act::Deliver(0),
        tells: "\
            0 asked 1 3 00000000-0000-0000-0000-000000000001 10.0.0.1:17225 300 - - 0d\n",
    },
];

// rule: replier.repeat: the repeat of an open request does nothing
// rule: replier.again: the request after the reply is asked again
#[test]
fn a_repeat_is_no_second_request(rt: HostRuntime) -> Result<(), Fail> {
    let mut bench = NetworkBench::new(rt.alloc())?;
    bench.play(&rt, "a request and its repeat", &STEPS)
}
