//! The frame check of bytes that come in pieces.

ghost use Rattle.std.specs.Prelude.{◌≡◌, ℕ, List, [], ◌++◌};
ghost use Rattle.trdp_fcs.specs.FrameCheck.{frame_check_of};

use crate::register::past;
use std::marker::Model;

/// The frame check of bytes that come in pieces: [`Running::start`], a [`Running::feed`] for each
/// piece, and [`Running::finish`]. How the bytes are cut into pieces doesn't matter.
#[derive(Clone, Copy, Debug, PartialEq, Eq)]
pub struct Running {
    /// The frame check of the bytes so far, which is the register with each bit inverted.
    check: u32,
}

impl Model for Running {
    ghost Value = { ℕ };

    ghost view = { λ r. r.check };

    ghost inverse = { λ n. record { check = n } };
}

impl Running {
    /// The frame check of no bytes.
    pub fn start() -> Running
        ensures { result ≡ frame_check_of [] }
    {
        Running { check: 0 }
    }

    /// Adds the next piece: the check is then that of all bytes before and of the piece.
    pub fn feed(&mut self, bytes: &[u8])
        ensures { (before : List ℕ) → self.old ≡ frame_check_of before
            → self.new ≡ frame_check_of (before ++ bytes.now) }
    {
        let before = !self.check;
        let after = past(before, bytes);
        *self = Running { check: !after };
    }

    /// The frame check of the bytes so far, all the pieces joined. More may follow.
    pub fn finish(&self) -> u32
        ensures { result ≡ self.now }
    {
        self.check
    }
}
