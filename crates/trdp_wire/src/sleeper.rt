//! What sleeps by a clock.

ghost use Rattle.std.specs.Prelude.{◌≡◌, [], ◌∷◌};
ghost use Rattle.trdp_base.specs.Reported.{TellsMore};

use crate::clock::Clock;

/// A clock by which its owner can sleep. It may report its sleeps.
pub trait Sleeper: Clock {
    /// Sleeps for `micros` microseconds, whatever comes meanwhile.
    fn sleep(&mut self, micros: u64)
        ensures told { TellsMore (Self.sleeps self.old) (Self.sleeps self.new) (micros ∷ []) }
        ensures reads_nothing { Self.readings self.new ≡ Self.readings self.old };
}
