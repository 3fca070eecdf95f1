//! A wire over control sockets that is opened in a folder in memory: at which files a process
//! listens, and which fault ends that.

use crate::same::same;
use std::alloc::Global;
use std::process::Abort;
use trdp_controls::{ControlWire, ListenFault};
use trdp_dataset::NodeConfig;
use trdp_memory::{ListenRow, MemoryConnections, MemoryFolder, MemoryWire};

/// A node with an operator's port, a slot with a control port, one without, and a spare port.
const NODE: &[u8] = b"
[node]
address = \"10.0.0.1\"
operator_port = 18100
spare_control_ports = [18002]
[[slot]]
control_port = 18000
[[slot]]
";

/// The file of that number, at which a process listens.
const fn granted(number: u16) -> ListenRow {
    ListenRow {
        number,
        fault: None,
    }
}

/// The file of that number, which is refused.
const fn refused(number: u16, fault: ListenFault) -> ListenRow {
    ListenRow {
        number,
        fault: Some(fault),
    }
}

/// Opens a wire in a folder that refuses the file of that number. Returns the folder then, and why
/// it has no wire; None where an allocation fails.
fn open(
    alloc: Global,
    number: u16,
    fault: ListenFault,
) -> Option<(MemoryFolder, Option<ListenFault>)> {
    let config = NodeConfig::from_toml(alloc, NODE).ok()?;
    let mut folder = MemoryFolder::new(alloc, "/run/trdpd");
    folder.refuse(number, fault).ok()?;
    let network = MemoryWire::new(alloc, 0, 0, 0).ok()?;
    let wire: Result<ControlWire<MemoryWire, MemoryConnections>, ListenFault> = ControlWire::open(
        alloc,
        &mut folder,
        network,
        &config,
    );
    Some((folder, wire.err()))
}

/// Asserts at which files a process listens, where the file of that number is refused.
fn listens(
    rt: &(impl Abort + AllocGlobal),
    alloc: Global,
    (number, fault): (u16, ListenFault),
    asked: &[ListenRow],
) {
    let is_there = match open(alloc, number, fault) {
        Some((folder, found)) => {
            same(rt, number, folder.rows(), asked);
            same(rt, number, found, asked.last().and_then(|row| row.fault));
            true
        }
        None => false,
    };
    assert!(rt; is_there, "no memory");
}

#[test]
fn listens_in_turn(rt: HostRuntime) {
    let cases: [(u16, ListenFault, &[ListenRow]); 3] = [
        (
            18001,
            ListenFault::Refused,
            &[granted(18100), granted(18000), granted(18002)],
        ),
        (
            18000,
            ListenFault::Refused,
            &[granted(18100), refused(18000, ListenFault::Refused)],
        ),
        (
            18002,
            ListenFault::OutOfMemory,
            &[
                granted(18100),
                granted(18000),
                refused(18002, ListenFault::OutOfMemory),
            ],
        ),
    ];
    for (number, fault, asked) in cases.iter() {
        listens(&rt, rt.alloc(), (*number, *fault), asked);
    }
}
