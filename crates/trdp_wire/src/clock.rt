//! What time is read from.

ghost use Rattle.std.specs.Prelude.{◌≡◌, [], ◌∷◌};
ghost use Rattle.trdp_base.specs.Reported.{TellsMore};

/// A clock, in microseconds from a time of its own. It may report its readings.
pub trait Clock {
    ghost use Rattle.std.specs.Prelude.{ℕ, List, Option, None};

    /// What it has read, in order; None if this clock reports nothing.
    ghost readings: { Self → Option (List ℕ) } = { λ _. None };

    /// How long its owner has slept by it, in microseconds and in order; None if this clock
    /// reports no sleeps.
    ghost sleeps: { Self → Option (List ℕ) } = { λ _. None };

    /// Reads the clock, in microseconds.
    fn now(&mut self) -> u64
        ensures told { TellsMore (readings self.old) (readings self.new) (result ∷ []) }
        ensures sleeps_nothing { sleeps self.new ≡ sleeps self.old };
}
