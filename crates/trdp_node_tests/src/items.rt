//! Values that are passed and shown as items, and the look at a subscription from outside.

use crate::node_bench::{NodeBench, lend};
use crate::same::same;
use std::alloc::{AllocError, Global};
use std::process::Abort;
use std::test::Fail;
use trdp_engine::{Node, NodeFault, Outbox, Peek, PeekFault, ValueFault, ValueState};
use trdp_marshal::Item;

/// A slot, and two datasets: a count and that many 16-bit numbers, and a longer count and that
/// many bytes.
static CONFIG: &[u8] = b"\
[node]
address = \"10.0.0.1\"
[[slot]]
publishers = 3
subscriptions = 2
[[dataset]]
id = 1001
element = [{ type = \"UINT8\" }, { type = \"UINT16\", size = 0 }]
[[dataset]]
id = 2001
element = [{ type = \"UINT16\" }, { type = \"UINT8\", size = 0 }]
";

/// Publishers of dataset 1001, of dataset 2001 and of dataset 0, and subscriptions of dataset 1001
/// and of dataset 0.
static OBJECTS: [&str; 5] = [
    "call 0 publish 100 1001 0 0 0 0 10.0.0.2:17224",
    "call 0 publish 200 2001 0 0 0 0 10.0.0.2:17224",
    "call 0 publish 300 0 0 0 0 0 10.0.0.2:17224",
    "call 0 subscribe 100 1001 0.0.0.0 0.0.0.0 0.0.0.0 0 0 50000 zero",
    "call 0 subscribe 200 0 0.0.0.0 0.0.0.0 0.0.0.0 0 0 0 keep",
];

/// The item of a number n and of n numbers of 1 to 250, which it counts.
fn counted(alloc: Global, n: u16) -> Result<Item, AllocError> {
    let mut numbers = Vec::new(alloc);
    for index in 0..n {
        numbers.push(Item::U(u64::from(index % 250) + 1))?;
    }
    let items = Vec::from_array(alloc, [Item::U(u64::from(n)), Item::List(numbers)])?;
    Ok(Item::List(items))
}

/// The slot and the object that an item is put into, how many numbers the item counts, and what
/// the node answers.
static PUTTINGS: [(u16, u32, u16, &str); 7] = [
    (0, 1, 256, "0 refused Shape\n"),
    (0, 1, 2, "0 done\n"),
    (0, 2, 1431, "0 refused TooLong\n"),
    (0, 2, 1430, "0 done\n"),
    (0, 3, 0, "0 refused NoDataset\n"),
    (0, 4, 0, "0 refused WrongKind\n"),
    (0, 9, 0, "0 refused NoHandle\n"),
];

/// The pull request for comId 100, from 10.0.0.2.
static PULL: &str = "\
    pd 10.0.0.2:17224 10.0.0.1:17224 \
    0000000001005072000000640000000000000000000000000000000000000000000000003bff69e3";

/// The pull reply of comId 100 with counter 0, which carries 2 and the 16-bit numbers 1 and 2.
static PULLED: &str = "\
    0 send pd 10.0.0.2:17224 \
    00000000010050700000006400000000000000000000000500000000000000000000000060fe4938\
    0200010002000000\n";

/// Gives an item to a publisher. Its contract says nothing of what [`Node::put_value`] does, so
/// that its callers have less to prove.
fn put_item(
    node: &mut Node,
    alloc: Global,
    slot: u16,
    handle: u32,
    item: &Item,
    out: &mut Outbox,
) -> Result<(), NodeFault> {
    node.put_value(alloc, slot, handle, item, out)
}

/// Puts an item that counts that many numbers.
fn put(
    bench: &mut NodeBench,
    alloc: Global,
    (slot, handle): (u16, u32),
    count: u16,
) -> Result<Result<(), NodeFault>, Fail> {
    let item = counted(alloc, count)?;
    let NodeBench { node, out } = bench;
    Ok(put_item(node, alloc, slot, handle, &item, out))
}

/// Puts each item, and compares what the node answers.
fn put_each(rt: &(impl Abort + AllocGlobal), bench: &mut NodeBench) -> Result<(), Fail> {
    for (slot, handle, count, answer) in PUTTINGS {
        let ending = put(bench, rt.alloc(), (slot, handle), count)?;
        same(rt, answer, ending, Ok(()));
        bench.tells(rt, answer)?;
    }
    let ending = put(bench, rt.alloc(), (2, 1), 0)?;
    same(rt, "no slot", ending, Err(NodeFault::NoSlot));
    bench.tells(rt, "")
}

/// Puts each item, and asserts how a pull request is answered then.
fn put_and_pull(rt: &(impl Abort + AllocGlobal), bench: &mut NodeBench) -> Result<(), Fail> {
    put_each(rt, bench)?;
    bench.take(rt.alloc(), PULL)?;
    bench.tells(rt, PULLED)
}

#[test]
fn items_are_put_as_their_bytes(rt: HostRuntime) -> Result<(), Fail> {
    let bench = NodeBench::after(rt.alloc(), CONFIG, &OBJECTS);
    lend(bench, |bench| put_and_pull(&rt, bench))
}

/// The data of comId 100 with counter 7, which carries the same.
const DATA: &str = "\
    pd 10.0.0.2:17224 10.0.0.1:17224 \
    0000000701005064000000640000000000000000000000050000000000000000000000006de33269\
    0200010002000000";

/// Whether a subscription shows that.
fn is_data(peek: Result<Peek<'_>, PeekFault>) -> bool {
    match peek {
        Ok(
            Peek {
                state: ValueState::Valid,
                counter: 7,
                bytes,
            },
        ) => bytes == b"\x02\0\x01\0\x02".as_slice(),
        _ => false,
    }
}

/// The slot and the object that aren't shown as an item, and why; and why the bytes aren't shown,
/// where they aren't.
static UNSEEN: [(u16, u32, ValueFault, Option<PeekFault>); 4] = [
    (2, 4, ValueFault::NoSlot, Some(PeekFault::NoSlot)),
    (0, 9, ValueFault::NoHandle, Some(PeekFault::NoHandle)),
    (0, 1, ValueFault::WrongKind, Some(PeekFault::WrongKind)),
    (0, 5, ValueFault::NoDataset, None),
];

/// Asserts where no item is shown, and why.
fn unseen(rt: &(impl Abort + AllocGlobal), node: &Node) {
    for (slot, handle, fault, peek) in UNSEEN {
        let item = node.value_of(rt.alloc(), slot, handle);
        same(rt, "no item", item.err(), Some(fault));
        same(rt, "no bytes", node.peek(slot, handle).err(), peek);
    }
}

/// Asserts that the subscription of dataset 1001 shows an item that counts that many numbers.
fn shows(rt: &(impl Abort + AllocGlobal), node: &Node, count: u16) -> Result<(), Fail> {
    let shown = node.value_of(rt.alloc(), 0, 4)? == counted(rt.alloc(), count)?;
    same(rt, count, shown, true);
    Ok(())
}

/// Asserts what a node shows before the data has come, and then.
fn show_data(rt: &(impl Abort + AllocGlobal), bench: &mut NodeBench) -> Result<(), Fail> {
    unseen(rt, &bench.node);
    shows(rt, &bench.node, 0)?;
    bench.take(rt.alloc(), DATA)?;
    same(rt, "its bytes", is_data(bench.node.peek(0, 4)), true);
    shows(rt, &bench.node, 2)
}

#[test]
fn a_subscription_shows_its_bytes_and_their_item(rt: HostRuntime) -> Result<(), Fail> {
    let bench = NodeBench::after(rt.alloc(), CONFIG, &OBJECTS);
    lend(bench, |bench| show_data(&rt, bench))
}
