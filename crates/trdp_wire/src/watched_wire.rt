//! What a daemon rests at.

ghost use Rattle.std.specs.Prelude.{◌≡◌, true};
ghost use Rattle.trdp_wire.specs.News.{IsNoted};
ghost use Rattle.trdp_wire.specs.Ports.{are_apart};

use crate::port::Port;
use crate::wire::Wire;

/// A wire whose ports are watched: a daemon can rest until a datagram may be there. A wire that
/// never waits rests by coming back at once, and has news of each port at any time.
pub trait WatchedWire: Wire {
    ghost use Rattle.std.specs.Prelude.{ℕ, Bool};
    ghost use Rattle.trdp_wire.specs.declared.port.Port.{Port};

    /// Whether something may be at a port, as far as the wire knows; true if it keeps no news.
    ghost news: { Self → Port → Bool };

    /// What a rest of at most that many microseconds makes of the wire.
    ghost rested: { Self → Self → ℕ → Type 0 };

    /// Waits until a datagram may be at one of the ports, at most that many microseconds. Nothing
    /// is taken or given.
    fn rest(&mut self, most: u64)
        ensures rests { rested self.old self.new most }
        ensures takes_nothing { Self.takings self.new ≡ Self.takings self.old }
        ensures gives_nothing { Self.gives self.new ≡ Self.gives self.old }
        ensures fault { Self.faults self.new ≡ Self.faults self.old };

    /// Whether something may be at a port; always true if the wire keeps no news.
    fn has_news(&self, port: Port) -> bool
        ensures { result ≡ news self.now port };

    /// Sets whether something may be at a port, if the wire keeps news of it, until the system next
    /// reports news of it. Ports of another kind keep their news.
    fn set_news(&mut self, port: Port, may_be: bool)
        ensures noted { IsNoted may_be (news self.old port) (news self.new port) }
        ensures others { (other : Port) → are_apart port other ≡ true
            → news self.new other ≡ news self.old other }
        ensures takes_nothing { Self.takings self.new ≡ Self.takings self.old }
        ensures gives_nothing { Self.gives self.new ≡ Self.gives self.old }
        ensures fault { Self.faults self.new ≡ Self.faults self.old };
}
