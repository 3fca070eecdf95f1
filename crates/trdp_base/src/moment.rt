//! Moments: microseconds since the node began.

ghost use Rattle.std.specs.Prelude.{◌≡◌, ℕ, ◌≤◌, ◌↔◌, IsSome, IfSome};
ghost use Rattle.trdp_base.specs.Moments.{last_moment};

use std::marker::Model;

/// The last moment in microseconds, 2^62 (profile).
pub const MOMENT_MAX: u64 = 4_611_686_018_427_387_904;

/// A moment, in microseconds since the node began (profile).
#[derive(Clone, Copy, Debug, PartialEq, Eq)]
pub struct Moment {
    /// Microseconds since the node began, 0 to [`MOMENT_MAX`].
    microseconds: u64,
}

impl Model for Moment {
    ghost Value = { ℕ };

    ghost view = { λ m. m.microseconds };

    ghost invariant = { λ m. m.microseconds ≤ last_moment };

    ghost inverse = { λ n. record { microseconds = n } };
}

impl Moment {
    /// The moment of that many microseconds; None above [`MOMENT_MAX`].
    pub fn new(microseconds: u64) -> Option<Self>
        ensures valid { IsSome result ↔ (microseconds ≤ last_moment) }
        ensures value { IfSome result (λ m. m ≡ microseconds) }
    {
        if microseconds <= MOMENT_MAX {
            Some(Moment { microseconds })
        } else {
            None
        }
    }

    /// Its microseconds, 0 to [`MOMENT_MAX`].
    pub fn get(self) -> u64
        ensures value { result ≡ self }
        ensures within { result ≤ last_moment }
    {
        self.microseconds
    }
}
