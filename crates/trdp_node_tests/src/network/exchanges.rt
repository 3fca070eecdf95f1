//! A request to a group address, which two nodes answer: one by a reply, the other by a query.

use super::{Act, NetworkBench, Step};
use crate::same::same;
use std::test::Fail;
use trdp_base::Ip;
use trdp_net::Sent;

/// Two nodes hear what is sent to the group; the first is asked once and replies, and is asked
/// again when the request comes again. The reply comes twice, and is reported once. The second
/// answers by a query, which is confirmed.
static STEPS: [Step; 13] = [
    Step {
        node: 1,
        act: Act::Take("call 0 listen 300 0.0.0.0 0.0.0.0 0.0.0.0 - 0 0"),
        tells: "0 handle 1\n",
    },
    Step {
        node: 2,
        act: Act::Take("call 0 listen 300 0.0.0.0 0.0.0.0 0.0.0.0 - 0 0"),
        tells: "0 handle 1\n",
    },
    Step {
        node: 0,
        act: Act::Take(
            "\
                call 0 request 300 00000000-0000-0000-0000-000000000001 2 1000000 - - 0 0 \
                239.0.0.1:17225 0d",
        ),
        tells: "\
            0 handle 1\n\
            0 send md 239.0.0.1:17225 \
            0000000001004d720000012c00000000000000000000000100000000000000000000000000000000\
            00000001000f42400000000000000000000000000000000000000000000000000000000000000000\
            00000000000000000000000000000000000000000000000000000000000000002e7f5d0e0d000000\n",
    },
    Step {
        node: 1,
        act: Act::Deliver(0),
        tells: "\
            0 asked 1 2 00000000-0000-0000-0000-000000000001 10.0.0.1:17225 300 - - 0d\n",
    },
    Step {
        node: 1,
        act: Act::Take("call 0 reply 2 301 0 0c"),
        tells: "\
            0 done\n\
            0 send md 10.0.0.1:17225 \
            0000000001004d700000012d00000000000000000000000100000000000000000000000000000000\
            00000001000000000000000000000000000000000000000000000000000000000000000000000000\
            00000000000000000000000000000000000000000000000000000000000000004488c7480c000000\n",
    },
    Step {
        node: 0,
        act: Act::Deliver(1),
        tells: "0 replied 1 10.0.0.2:17225 Mp 0 301 0c\n",
    },
    Step {
        node: 0,
        act: Act::Deliver(1),
        tells: "",
    },
    Step {
        node: 1,
        act: Act::Deliver(0),
        tells: "\
            0 asked 1 3 00000000-0000-0000-0000-000000000001 10.0.0.1:17225 300 - - 0d\n",
    },
    Step {
        node: 2,
        act: Act::Deliver(0),
        tells: "\
            0 asked 1 2 00000000-0000-0000-0000-000000000001 10.0.0.1:17225 300 - - 0d\n",
    },
    Step {
        node: 2,
        act: Act::Take("call 0 query 2 301 0 500000 0e"),
        tells: "\
            0 done\n\
            0 send md 10.0.0.1:17225 \
            0000000001004d710000012d00000000000000000000000100000000000000000000000000000000\
            000000010007a1200000000000000000000000000000000000000000000000000000000000000000\
            0000000000000000000000000000000000000000000000000000000000000000911382c70e000000\n",
    },
    Step {
        node: 0,
        act: Act::Deliver(2),
        tells: "0 replied 1 10.0.0.3:17225 Mq 0 301 0e\n",
    },
    Step {
        node: 0,
        act: Act::Take("call 0 confirm 1 10.0.0.3:17225 0"),
        tells: "\
            0 done\n\
            0 send md 10.0.0.3:17225 \
            0000000001004d630000012c00000000000000000000000000000000000000000000000000000000\
            00000001000000000000000000000000000000000000000000000000000000000000000000000000\
            000000000000000000000000000000000000000000000000000000000000000067cd809c\n\
            0 closed 1 Done\n",
    },
    Step {
        node: 2,
        act: Act::Deliver(3),
        tells: "0 confirmed 2 0\n",
    },
];

/// From where to where the telegrams went, and that there are no more.
static WAYS: [Option<(Ip, Ip)>; 5] = [
    Some((Ip(0x0a00_0001), Ip(0xef00_0001))),
    Some((Ip(0x0a00_0002), Ip(0x0a00_0001))),
    Some((Ip(0x0a00_0003), Ip(0x0a00_0001))),
    Some((Ip(0x0a00_0001), Ip(0x0a00_0003))),
    None,
];

/// From where to where a telegram went.
fn way(sent: Option<Sent<'_>>) -> Option<(Ip, Ip)> {
    match sent {
        Some(sent) => Some((sent.from.ip, sent.to.ip)),
        None => None,
    }
}

#[test]
fn a_group_answers(rt: HostRuntime) -> Result<(), Fail> {
    let mut bench = NetworkBench::new(rt.alloc())?;
    bench.play(&rt, "a request to a group", &STEPS)?;
    for (which, wanted) in WAYS.iter().enumerate() {
        same(&rt, which, way(bench.network.sent(which)), *wanted);
    }
    Ok(())
}
