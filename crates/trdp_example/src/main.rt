//! A program over the node's library, as README.md shows it: the doors of a train publish their
//! state, and the node gives the telegram that a transport is to send.
//!
//! What a node gives is proved by `trdp_engine`; of this program it is proved that it is safe and
//! ends. The gate runs it and compares what it prints.
#![tactic(auto)]

use std::io;
use trdp_engine::{
    Answer, Call, Event, Ip, Node, NodeConfig, Outbox, Place, PublisherTerms, Record, Topo, What,
};

/// A node with one slot, which may have one publisher.
const CONFIG: &[u8] = b"[node]\naddress = \"10.0.0.1\"\n[[slot]]\npublishers = 1\n";

/// The state of the doors: comId 100, any bytes, every 100 ms, to one device.
const DOOR_STATE: PublisherTerms = PublisherTerms {
    com_id: 100,
    dataset: 0,
    cycle: 100_000,
    group: 0,
    topo: Topo { etb: 0, op_trn: 0 },
    to: Place {
        ip: Ip(0x0a00_0002),
        port: 17224,
    },
};

fn main(rt: HostRuntime) -> io::Result<()> {
    let alloc = rt.alloc();
    let Ok(config) = NodeConfig::from_toml(alloc, CONFIG) else {
        return println!(rt; "the configuration is rejected");
    };
    let Ok(mut node) = Node::new(alloc, config) else {
        return println!(rt; "out of memory");
    };
    let mut out = Outbox::new(alloc);
    let events = [
        Event::Call {
            slot: 0,
            call: Call::Publish(DOOR_STATE),
        },
        Event::Call {
            slot: 0,
            call: Call::Put {
                handle: 1,
                bytes: b"\x0a\x0b",
            },
        },
        Event::Moment(100_000),
    ];
    let processed = node.run(&events, &mut out);
    println!(rt; "{processed} events processed")?;
    for index in 0..out.len() {
        if let Some(record) = out.get(index) {
            print_record(&rt, &record)?;
        }
    }
    Ok(())
}

/// Prints what a slot got.
fn print_record(rt: &HostRuntime, record: &Record<'_>) -> io::Result<()> {
    let slot = record.slot;
    match &record.what {
        What::Answer(Answer::Handle(handle)) => println!(rt; "slot {slot}: handle {handle}"),
        What::Answer(Answer::Done) => println!(rt; "slot {slot}: done"),
        What::Answer(_) => println!(rt; "slot {slot}: another answer"),
        What::Indication(_) => println!(rt; "slot {slot}: an indication"),
        What::Send { telegram, .. } => {
            println!(rt; "slot {slot}: a telegram of {} bytes", telegram.len())
        }
    }
}
