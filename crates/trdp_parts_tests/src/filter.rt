//! Which topology counters match, what passes at the ends of a range, and which groups a node
//! leads. Scripts show what else passes the filters of objects (`rows`).

use crate::same::same;
use trdp_base::{Ip, Place, SessionId, Topo, Uri};
use trdp_filter::{Groups, MdFilter, PdFilter, topo_valid, valid};
use trdp_head::{MdHead, MdKind, PdHead, PdKind};

const ANY: Topo = Topo { etb: 0, op_trn: 0 };

/// Two topology counters, and whether they match.
static COUNTS: [(u32, u32, bool); 4] = [(7, 8, false), (7, 0, true), (0, 8, true), (7, 7, true)];

/// Whether the counters match, by themselves and as either counter of a node.
fn matches(a: u32, b: u32) -> [bool; 3] {
    let first = topo_valid(Topo { etb: a, op_trn: 1 }, Topo { etb: b, op_trn: 1 });
    let last = topo_valid(Topo { etb: 1, op_trn: a }, Topo { etb: 1, op_trn: b });
    [valid(a, b), first, last]
}

// rule: topology.match: equal counters match, and 0 matches any
#[test]
fn counts_match(rt: HostRuntime) {
    for (index, (a, b, wanted)) in COUNTS.iter().enumerate() {
        same(&rt, index, matches(*a, *b), [*wanted; 3]);
    }
}

/// The place at an address.
fn place(ip: u32) -> Place {
    Place {
        ip: Ip(ip),
        port: 17224,
    }
}

/// Whether process data from the source passes a filter for the addresses from `low` to `high`.
fn data_passes(low: u32, high: u32, source: u32) -> bool {
    let filter = PdFilter {
        com_id: 100,
        low: Ip(low),
        high: Ip(high),
        dest: Ip(0),
        topo: ANY,
    };
    let head = PdHead {
        counter: 0,
        kind: PdKind::Data,
        com_id: 100,
        topo: ANY,
        reply_com_id: 0,
        reply_ip: Ip(0),
    };
    filter.passes(place(source), place(1), &head, ANY)
}

/// Whether a message from the source passes such a filter.
fn message_passes(low: u32, high: u32, source: u32) -> bool {
    let filter = MdFilter {
        com_id: None,
        low: Ip(low),
        high: Ip(high),
        dest: Ip(0),
        uri: Uri::empty(),
        topo: ANY,
    };
    let head = MdHead {
        counter: 0,
        kind: MdKind::Notify,
        com_id: 300,
        topo: ANY,
        status: 0,
        session: SessionId(0),
        timeout: 0,
        source_uri: Uri::empty(),
        dest_uri: Uri::empty(),
    };
    filter.passes(place(source), place(1), &head, ANY)
}

/// The ends of a range, a source, and whether what comes from there passes. No script has a range
/// whose end is below its start.
static RANGES: [(u32, u32, u32, bool); 4] = [
    (0, 0, 9, true),
    (0, 4, 4, true),
    (0, 4, 5, false),
    (2, 0, 3, false),
];

// rule: filter.source: 0 to 0 takes any, and the high end passes
#[test]
fn ranges_have_both_their_ends(rt: HostRuntime) {
    for (index, (low, high, source, wanted)) in RANGES.iter().enumerate() {
        let data = data_passes(*low, *high, *source);
        let message = message_passes(*low, *high, *source);
        same(&rt, index, (data, message), (*wanted, *wanted));
    }
}

/// Whether the first group and the last one are led.
fn ends(led: &Groups) -> (bool, bool) {
    (led.leads(1), led.leads(255))
}

// rule: role.group: the first and the last group are set one by one
#[test]
fn a_node_leads_groups_1_to_255(rt: HostRuntime) {
    let mut led = Groups::none();
    let at_first = ends(&led);
    led.set(1, true);
    let the_first = ends(&led);
    led.set(255, true);
    led.set(1, false);
    same(&rt, "none", at_first, (false, false));
    same(&rt, "the first", the_first, (true, false));
    same(&rt, "the last", ends(&led), (false, true));
}
