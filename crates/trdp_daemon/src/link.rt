//! A wire, with the totals of what came and went.

ghost use Rattle.std.specs.Prelude.{◌≡◌, ◌≤◌, ℕ, Bool, List, [], ◌∷◌, length, IfOk, IfSome};
ghost use Rattle.trdp_base.specs.declared.place.Place.{Place};
ghost use Rattle.trdp_wire.specs.declared.port.Port.{Port};
ghost use Rattle.trdp_wire.specs.Told.{Give, taking_of};
ghost use Rattle.trdp_daemon.specs.Counting.{counted, no_totals, totals_after};
ghost use Rattle.trdp_daemon.specs.Effects.{missing, offering, silence};
ghost use Rattle.trdp_daemon.specs.Links.{Carries};

use crate::totals::Totals;
use trdp_base::Place;
use trdp_wire::{Port, WatchedWire, Wire, WireFault};

/// A wire, with the totals of what came and went.
#[derive(Drop)]
pub(crate) struct Link<W: Wire> {
    /// The wire.
    pub(crate) wire: W,
    /// What came, went and was lost so far.
    pub(crate) totals: Totals,
    /// How long the latest rest was asked for, in microseconds; 0 before the first.
    pub(crate) asked: u64,
}

impl<W: Wire> Link<W> {
    /// A link over which nothing came and went, and that was asked for no rest.
    pub(crate) fn new(wire: W) -> Link<W>
        ensures wire { result.wire ≡ wire }
        ensures totals { result.totals ≡ no_totals }
        ensures asked { result.asked ≡ 0 }
    {
        Link {
            wire,
            totals: Totals::default(),
            asked: 0,
        }
    }

    /// Takes the next datagram at a port, if one is there. It is put at the front of the room; the
    /// answer is where it came from and how many bytes it has there, and whether it is the end of
    /// the application there. What came is counted. If `anew` is true, the wire looks for one
    /// whatever news it has of the port.
    ///
    /// # Errors
    /// `WireFault` if the wire fails, which is counted.
    pub(crate) fn take(
        &mut self,
        port: Port,
        anew: bool,
        room: &mut [u8],
    ) -> (Result<Option<(Place, usize)>, WireFault>, bool)
        ensures within { IfOk result.0 (λ found. IfSome found (λ f. f.1 ≤ length room.new)) }
        ensures takes { Carries W.takings W.gives self.old self.new
            (taking_of port (λ _. result.1) result.0 room.new ∷ []) silence }
        ensures asked { self.new.asked ≡ self.old.asked }
    {
        let (taken, is_end) = self.wire.find(port, anew, room);
        count_take(&mut self.totals, taken);
        (taken, is_end)
    }

    /// Offers a datagram to the wire. One at which the wire fails is counted, and lost.
    pub(crate) fn give(&mut self, port: Port, to: Place, bytes: &[u8])
        ensures carried { Carries W.takings W.gives self.old self.new []
            (offering port to bytes.now) }
        ensures asked { self.new.asked ≡ self.old.asked }
    {
        let given = self.wire.give(port, to, bytes);
        count_give(&mut self.totals, given.is_err());
    }

    /// Counts something that was lost because an allocation failed.
    pub(crate) fn miss(&mut self)
        ensures carried { Carries W.takings W.gives self.old self.new [] missing }
        ensures asked { self.new.asked ≡ self.old.asked }
    {
        self.totals.memory = one_more(self.totals.memory);
    }
}

impl<W: WatchedWire> Link<W> {
    ghost use Rattle.std.specs.Prelude.{◌≡◌};

    /// Asks the wire once for a rest until a datagram may be there, of at most `most` microseconds,
    /// and notes that length.
    pub(crate) fn rest(&mut self, most: u64)
        ensures asked { self.new.asked ≡ most }
        ensures rests { W.rested self.old.wire self.new.wire self.new.asked }
        ensures takes_nothing { W.takings self.new.wire ≡ W.takings self.old.wire }
        ensures gives_nothing { W.gives self.new.wire ≡ W.gives self.old.wire }
        ensures totals { self.new.totals ≡ self.old.totals }
    {
        self.asked = most;
        self.wire.rest(self.asked);
    }
}

/// Counts a take that answered this.
fn count_take(totals: &mut Totals, taken: Result<Option<(Place, usize)>, WireFault>)
    ensures { (port : Port) (ended : Place → Bool) (room : List ℕ)
        → totals.new ≡ totals_after totals.old (taking_of port ended taken room ∷ []) [] 0 }
{
    match taken {
        Ok(Some(_)) => totals.taken = one_more(totals.taken),
        Ok(None) => {}
        Err(_) => totals.unread = one_more(totals.unread),
    }
}

/// Counts a give, at which the wire failed or not.
fn count_give(totals: &mut Totals, failed: bool)
    ensures { (give : Give) → give.failed ≡ failed
        → totals.new ≡ totals_after totals.old [] (give ∷ []) 0 }
{
    if failed {
        totals.lost = one_more(totals.lost);
    }
    totals.offered = one_more(totals.offered);
}

/// A count that is one higher; it stops at its last value.
fn one_more(count: u64) -> u64
    ensures { result ≡ counted count 1 }
{
    count.saturating_add(1)
}
