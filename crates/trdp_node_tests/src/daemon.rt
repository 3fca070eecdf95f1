//! A daemon in memory, and the expected results of its turns.

use crate::same::same;
use std::alloc::Global;
use std::process::Abort;
use trdp_base::Place;
use trdp_daemon::{Daemon, MemoryClock, MemoryWire, Port, Totals};
use trdp_dataset::NodeConfig;

/// A daemon in memory. Its contracts say nothing of what [`Daemon`] does, so that its callers have
/// less to prove.
#[derive(Drop)]
pub struct MemoryDaemon {
    daemon: Daemon<MemoryWire, MemoryClock>,
}

impl MemoryDaemon {
    /// A daemon over a wire, whose clock reads these moments; None where an allocation fails.
    pub fn new(
        alloc: Global,
        config: &[u8],
        wire: MemoryWire,
        moments: &[u64],
    ) -> Option<MemoryDaemon> {
        let config = NodeConfig::from_toml(alloc, config).ok()?;
        let clock = MemoryClock::new(alloc, moments).ok()?;
        let daemon = Daemon::new(alloc, config, wire, clock).ok()?;
        Some(MemoryDaemon { daemon })
    }

    /// Its wire.
    pub fn wire(&self) -> &MemoryWire {
        self.daemon.wire()
    }

    /// One turn.
    pub fn turn(&mut self) {
        self.daemon.turn();
    }

    /// That many turns, and what it has counted then.
    pub fn run(&mut self, turns: u32) -> Totals {
        self.daemon.run(turns)
    }

    /// Its turns and rests until a moment, and what it has counted then.
    pub fn attend(&mut self, until: u64) -> Totals {
        self.daemon.attend(until);
        self.daemon.totals()
    }
}

/// Lends a daemon to a call, and returns whether there was one. The owner of a daemon has to drop
/// it, which takes long to prove: this is the only function that does.
pub fn lend<F: Fn(&mut MemoryDaemon)>(daemon: Option<MemoryDaemon>, call: F) -> bool
    requires { F.IsAlwaysCallable call }
{
    match daemon {
        Some(mut daemon) => {
            call(&mut daemon);
            true
        }
        None => false,
    }
}

/// Totals where no allocation failed.
pub const fn totals(taken: u64, offered: u64, lost: u64, unread: u64) -> Totals {
    Totals {
        taken,
        offered,
        lost,
        unread,
        memory: 0,
    }
}

/// Asserts what that many turns offer and count; the text of a failure has the case's number.
pub fn turns_give(
    rt: &(impl Abort + AllocGlobal),
    case: usize,
    daemon: &mut MemoryDaemon,
    turns: u32,
    (offers, counts): (&[u8], Totals),
) {
    same(rt, case, daemon.run(turns), counts);
    same(rt, case, daemon.wire().bytes(), offers);
}

/// A datagram that a daemon offered: the port that it left from, its destination, and its bytes.
type Offer<'a> = (Port, Place, &'a [u8]);

/// Whether the wire was offered this.
fn is_offer(offer: Option<Offer>, (port, place, bytes): Offer) -> bool {
    match offer {
        Some((from, to, offered)) => from == port && to == place && offered == bytes,
        None => false,
    }
}

/// Asserts that the wire was offered these and no more, in this order.
pub fn offers_are(rt: &(impl Abort + AllocGlobal), wire: &MemoryWire, wanted: &[Offer]) {
    let mut offers = wire.offers();
    for (give, offer) in wanted.iter().enumerate() {
        assert!(rt; is_offer(offers.next(), *offer), "at {give}");
    }
    assert!(rt; offers.next().is_none());
}
