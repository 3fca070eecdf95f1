//! Calls for which memory is refused: each changes nothing, and the same call again does what it
//! should.
//!
//! These tests pass whichever single request for memory is refused, one of their own too;
//! `bench/refused_memory.py` refuses each in turn. Since at most one is refused, a call that
//! reports `OutOfMemory` for ever fails its test.

ghost use Rattle.std.specs.Prelude.{◌≡◌};

use crate::node_bench::step;
use crate::same::same;
use crate::two_slots;
use std::alloc::{AllocError, Global};
use std::fmt::Debug;
use std::process::Abort;
use std::test::Fail;
use trdp_base::Ip;
use trdp_dataset::{ConfigFault, NodeConfig, Registry};
use trdp_engine::{Call, Event, Node, NodeFault, Outbox};
use trdp_marshal::{Item, MarshalFault, decode, encode};
use trdp_text::{LineFault, print_record, read_event, read_line};

/// What a call returns, or the same call once more where it reports that an allocation failed.
fn again<T, E: PartialEq + Debug + Copy, F: Fn() -> Result<T, E>>(
    rt: &(impl Abort + AllocGlobal),
    call: F,
    no_memory: E,
) -> Result<T, Fail>
    requires { F.IsAlwaysCallable call }
{
    match call() {
        Ok(value) => Ok(value),
        Err(fault) => {
            same(rt, "the first time", fault, no_memory);
            Ok(call()?)
        }
    }
}

/// An event that takes memory.
struct Row {
    name: &'static str,
    /// What the node has processed before.
    before: &'static [&'static str],
    line: &'static str,
    /// What the node records at that line, slot by slot.
    gives: &'static str,
}

/// Two slots, of which the first may have no replier.
static CONFIG: &[u8] = b"\
[node]
address = \"10.0.0.1\"
[[slot]]
publishers = 4
subscriptions = 4
listeners = 2
callers = 2
[[slot]]
publishers = 4
listeners = 2
repliers = 1
";

static ROWS: [Row; 7] = [
    Row {
        name: "a slot",
        before: &[],
        line: "addslot 256 256 256 256 256 256",
        gives: "2 opened\n",
    },
    Row {
        name: "a publisher",
        before: &[],
        line: "call 0 publish 100 0 100000 0 0 0 10.0.0.2:17224",
        gives: "0 handle 1\n",
    },
    Row {
        name: "a subscription",
        before: &[],
        line: "call 0 subscribe 100 0 0.0.0.0 0.0.0.0 0.0.0.0 0 0 50000 zero",
        gives: "0 handle 1\n",
    },
    Row {
        name: "a listener",
        before: &[],
        line: "call 0 listen 300 0.0.0.0 0.0.0.0 0.0.0.0 - 0 0",
        gives: "0 handle 1\n",
    },
    // Mr s=1 com=300 t=1000000 | 0d
    Row {
        name: "a caller, and its request",
        before: &[],
        line: "\
            call 0 request 300 00000000-0000-0000-0000-000000000001 1 1000000 - - 0 0 \
            10.0.0.2:17225 0d",
        gives: "\
            0 handle 1\n\
            0 send md 10.0.0.2:17225 \
            0000000001004d720000012c00000000000000000000000100000000000000000000000000000000\
            00000001000f42400000000000000000000000000000000000000000000000000000000000000000\
            00000000000000000000000000000000000000000000000000000000000000002e7f5d0e0d000000\n",
    },
    // Mr s=1 com=300 t=1000000 | 0d
    Row {
        name: "a request that comes to both slots",
        before: &[
            "call 0 listen 300 0.0.0.0 0.0.0.0 0.0.0.0 - 0 0",
            "call 1 listen 300 0.0.0.0 0.0.0.0 0.0.0.0 - 0 0",
        ],
        line: "\
            md 10.0.0.2:17225 10.0.0.1:17225 \
            0000000001004d720000012c00000000000000000000000100000000000000000000000000000000\
            00000001000f42400000000000000000000000000000000000000000000000000000000000000000\
            00000000000000000000000000000000000000000000000000000000000000002e7f5d0e0d000000",
        gives: "\
            0 overrun 1\n\
            1 asked 1 2 00000000-0000-0000-0000-000000000001 10.0.0.2:17225 300 - - 0d\n",
    },
    Row {
        name: "a moment by which three publishers are due",
        before: &[
            "call 0 publish 1 0 100000 0 0 0 10.0.0.2:17224",
            "call 1 publish 2 0 50000 0 0 0 10.0.0.2:17224",
            "call 0 publish 3 0 100000 0 0 0 10.0.0.2:17224",
            "call 0 put 1 00",
            "call 1 put 1 00",
            "call 0 put 2 00",
        ],
        line: "moment 100000",
        gives: "\
            0 send pd 10.0.0.2:17224 \
            000000000100506400000001000000000000000000000001000000000000000000000000f274637c\
            00000000\n\
            0 send pd 10.0.0.2:17224 \
            000000000100506400000003000000000000000000000001000000000000000000000000af5205ec\
            00000000\n\
            1 send pd 10.0.0.2:17224 \
            000000000100506400000002000000000000000000000001000000000000000000000000a1c28e49\
            00000000\n",
    },
];

/// Gives the event of a line to a node, and returns whether every allocation succeeded.
fn take(alloc: Global, node: &mut Node, line: &str, out: &mut Outbox) -> bool {
    let mut buffer = Vec::new(alloc);
    match read_event(&mut buffer, line.as_bytes()) {
        Ok(Some(event)) => step(node, &event, out).is_ok(),
        Ok(None) | Err(_) => false,
    }
}

/// Gives the events of lines to a node, and returns whether every allocation succeeded.
fn take_all(alloc: Global, node: &mut Node, lines: &[&str]) -> bool {
    let mut out = Outbox::new(alloc);
    for line in lines {
        if !take(alloc, node, line, &mut out) {
            return false;
        }
    }
    true
}

/// A node that has processed these lines; None where an allocation fails.
fn node_after(alloc: Global, lines: &[&str]) -> Option<Node> {
    let config = NodeConfig::from_toml(alloc, CONFIG).ok()?;
    let mut node = Node::new(alloc, config).ok()?;
    if take_all(alloc, &mut node, lines) {
        Some(node)
    } else {
        None
    }
}

/// The node's moment, and how many records there are.
fn state(node: &Node, out: &Outbox) -> (u64, usize) {
    (node.now(), out.len())
}

/// Gives an event to a node, and once more where it reports `OutOfMemory`.
fn step_again(
    rt: &(impl Abort + AllocGlobal),
    name: &str,
    node: &mut Node,
    event: &Event<'_>,
    out: &mut Outbox,
) {
    let before = state(node, out);
    match step(node, event, out) {
        Err(NodeFault::OutOfMemory) => {
            same(rt, name, state(node, out), before);
            same(rt, name, step(node, event, out), Ok(()));
        }
        taken => same(rt, name, taken, Ok(())),
    }
}

/// Appends the lines of one slot's records.
fn push_slot(text: &mut Vec<u8>, out: &Outbox, slot: u16) -> Result<(), AllocError> {
    for index in 0..out.len() {
        match out.get(index) {
            Some(record) if record.slot == slot => print_record(text, &record)?,
            _ => {}
        }
    }
    Ok(())
}

/// The lines of all records, slot by slot.
fn lines_of(alloc: Global, out: &Outbox) -> Result<Vec<u8>, AllocError> {
    let mut text = Vec::new(alloc);
    for slot in 0..16 {
        push_slot(&mut text, out, slot)?;
    }
    Ok(text)
}

/// Reads a line for the first time, when the allocation of its bytes may fail.
fn read_first(rt: &(impl Abort + AllocGlobal), buffer: &mut Vec<u8>, line: &[u8]) {
    match read_event(buffer, line) {
        Ok(_) => {}
        Err(fault) => same(rt, "the first time", fault, LineFault::OutOfMemory),
    }
}

/// Gives the event of a row's line to a node.
fn take_again(
    rt: &(impl Abort + AllocGlobal),
    row: &Row,
    node: &mut Node,
    out: &mut Outbox,
) -> Result<(), Fail> {
    let mut buffer = Vec::new(rt.alloc());
    read_first(rt, &mut buffer, row.line.as_bytes());
    match read_event(&mut buffer, row.line.as_bytes()) {
        Ok(None) => Ok(()),
        Ok(Some(event)) => {
            step_again(rt, row.name, node, &event, out);
            Ok(())
        }
        Err(fault) => Err(fault.into()),
    }
}

/// Asserts that the records are the lines of a row.
fn tells_again(rt: &(impl Abort + AllocGlobal), row: &Row, out: &Outbox) -> Result<(), Fail> {
    let text = again(rt, || lines_of(rt.alloc(), out), AllocError)?;
    same(rt, row.name, str::from_utf8(&text)?, row.gives);
    Ok(())
}

/// Asserts the records of a row's event at a node whose outbox has no room.
fn gives_again(rt: &(impl Abort + AllocGlobal), row: &Row, node: &mut Node) -> Result<(), Fail> {
    let mut out = Outbox::new(rt.alloc());
    take_again(rt, row, node, &mut out)?;
    tells_again(rt, row, &out)
}

/// Asserts the records of a row's event at a node that has processed the lines before it.
fn row_again(rt: &(impl Abort + AllocGlobal), row: &Row) -> Result<(), Fail> {
    let before = || node_after(rt.alloc(), row.before).ok_or("no memory");
    let mut node = again(rt, before, "no memory")?;
    gives_again(rt, row, &mut node)
}

#[test]
fn an_event_is_given_again(rt: HostRuntime) -> Result<(), Fail> {
    for row in &ROWS {
        row_again(&rt, row)?;
    }
    Ok(())
}

/// A configuration that is read again where memory for it is refused.
fn config_again(rt: &(impl Abort + AllocGlobal)) -> Result<NodeConfig, Fail> {
    let read = || NodeConfig::from_toml(rt.alloc(), two_slots::CONFIG);
    again(rt, read, ConfigFault::OutOfMemory)
}

#[test]
fn a_configuration_is_read_again(rt: HostRuntime) -> Result<(), Fail> {
    let config = config_again(&rt)?;
    same(&rt, "the slots", config.slots(), 2);
    same(&rt, "the address", config.address(), Ip(0x0a00_0001));
    let registry = config.registry();
    same(&rt, "the datasets", registry.len(), 2);
    same(&rt, "dataset 1001", registry.zero_size(1001), Some(1));
    same(&rt, "dataset 1002", registry.zero_size(1002), Some(9));
    Ok(())
}

/// Whether the item is 2 and the list of 1 and 2.
fn is_counted(item: &Item) -> bool {
    match item {
        Item::List(items) => match items.as_slice() {
            [Item::U(2), Item::List(numbers)] => {
                matches!(numbers.as_slice(), [Item::U(1), Item::U(2)])
            }
            _ => false,
        },
        _ => false,
    }
}

/// Whether the item is -2, a time of 1 second and 2 ticks, and the list of 0 and no number.
fn is_timed(item: &Item) -> bool {
    match item {
        Item::List(items) => match items.as_slice() {
            [Item::S(-2), Item::T48(1, 2), Item::List(last)] => match last.as_slice() {
                [Item::U(0), Item::List(numbers)] => numbers.is_empty(),
                _ => false,
            },
            _ => false,
        },
        _ => false,
    }
}

/// The item that these bytes spell, which spells them.
fn spells_again(
    rt: &(impl Abort + AllocGlobal),
    registry: &Registry,
    dataset: u32,
    bytes: &[u8],
) -> Result<Item, Fail> {
    let alloc = rt.alloc();
    let read = || decode(alloc, registry, dataset, bytes);
    let item = again(rt, read, MarshalFault::OutOfMemory)?;
    let spell = || encode(alloc, registry, dataset, &item);
    let spelled = again(rt, spell, MarshalFault::OutOfMemory)?;
    same(rt, dataset, spelled.as_slice(), bytes);
    Ok(item)
}

#[test]
fn values_are_spelled_again(rt: HostRuntime) -> Result<(), Fail> {
    let config = config_again(&rt)?;
    let registry = config.registry();
    let counted = spells_again(&rt, registry, 1001, b"\x02\0\x01\0\x02")?;
    assert!(rt; is_counted(&counted));
    let timed = spells_again(&rt, registry, 1002, b"\xff\xfe\0\0\0\x01\0\x02\0")?;
    assert!(rt; is_timed(&timed));
    Ok(())
}

/// Whether the event puts 0a0b in the object 1 of slot 0.
fn is_put(event: &Event<'_>) -> bool {
    matches!(
        *event,
        Event::Call {
            slot: 0,
            call: Call::Put {
                handle: 1,
                bytes: [0x0a, 0x0b],
            },
        }
    )
}

#[test]
fn a_line_is_read_again(rt: HostRuntime) -> Result<(), Fail> {
    let alloc = rt.alloc();
    let read = || read_line(alloc, b"call 0 put 1 0a0b");
    let line = again(&rt, read, LineFault::OutOfMemory)?;
    let is_put = match line.event() {
        Some(event) => is_put(&event),
        None => false,
    };
    same(&rt, "the line", is_put, true);
    Ok(())
}
