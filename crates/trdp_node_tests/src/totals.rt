//! The lines of totals that a service writes, over a wire, a clock and a stream in memory.

use std::alloc::Global;
use trdp_base::{Ip, Place};
use trdp_daemon::{Daemon, MemoryClock, MemoryWire, Port};
use trdp_dataset::NodeConfig;
use trdp_program::{Stream, attend_lines};

/// A node of one slot.
const NODE: &[u8] = b"[node]\naddress = \"10.0.0.1\"\n[[slot]]\n";

/// Where the datagrams come from.
const SENDER: Place = Place {
    ip: Ip(0x0a00_0002),
    port: 17224,
};

/// A second, in microseconds.
const SECOND: u64 = 1_000_000;

/// The readings of a clock that comes on time.
const STEADY: [u64; 6] = [0, 999_999, 1_000_000, 1_999_999, 2_000_000, 3_000_000];

/// The readings of a clock that jumps ten minutes.
const JUMP: [u64; 6] = [
    0,
    600_000_000,
    600_500_000,
    601_000_000,
    601_500_000,
    602_000_000,
];

/// A stream in memory.
#[derive(Drop)]
struct Page {
    /// What was written to it.
    text: Vec<u8>,
    /// How many bytes it accepts at the first write, at most; it accepts all at the others.
    first: usize,
}

impl Stream for Page {
    ghost use Rattle.std.specs.Prelude.{None};

    ghost attempts = { λ _. None };

    fn try_write(&mut self, bytes: &[u8]) -> usize {
        let count = bytes.len().min(self.first);
        self.first = usize::MAX;
        let (taken, _) = bytes.split_at(count);
        match self.text.extend_from_slice(taken) {
            Ok(()) => count,
            Err(_) => 0,
        }
    }
}

/// What a stream accepts of the first two lines of the node, one a second, where it accepts
/// `first` bytes of the first one, and the clock reads these; at each of the first six turns a
/// datagram comes. None where an allocation fails.
fn page_of(alloc: Global, readings: &[u64], first: usize) -> Option<Page> {
    let config = NodeConfig::from_toml(alloc, NODE).ok()?;
    let mut wire = MemoryWire::new(alloc, 100, 0, 0).ok()?;
    for take in 1..7usize {
        wire.arrive(Port::Pd, take, SENDER, b"x").ok()?;
    }
    let clock = MemoryClock::new(alloc, readings).ok()?;
    let mut daemon = Daemon::new(alloc, config, wire, clock).ok()?;
    let mut page = Page {
        text: Vec::new(alloc),
        first,
    };
    let mut room = [0; 10];
    let mut errors = room.as_mut_slice();
    attend_lines(alloc, &mut daemon, SECOND, 2, &mut page, &mut errors).ok()?;
    Some(page)
}

/// A line that is rejected is left out, one that was cut is ended before the next, and a pause
/// results in one line.
#[test]
fn each_line_is_whole_cut_or_left_out(rt: HostRuntime) {
    let rows: [([u64; 6], usize, &[u8]); 4] = [
        (
            STEADY,
            1_000,
            b"taken 3 offered 0 lost 0 unread 0 memory 0\n\
            taken 5 offered 0 lost 0 unread 0 memory 0\n",
        ),
        (
            JUMP,
            1_000,
            b"taken 2 offered 0 lost 0 unread 0 memory 0\n\
            taken 4 offered 0 lost 0 unread 0 memory 0\n",
        ),
        (STEADY, 0, b"taken 5 offered 0 lost 0 unread 0 memory 0\n"),
        (
            STEADY,
            7,
            b"taken 3\ntaken 5 offered 0 lost 0 unread 0 memory 0\n",
        ),
    ];
    for (readings, first, text) in rows {
        let page = page_of(rt.alloc(), &readings, first);
        assert!(rt; matches!(&page, Some(page) if page.text.as_slice() == text));
    }
}
