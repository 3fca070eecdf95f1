//! Why a line can't be done.

use std::alloc::AllocError;
use thiserror::Error;

/// Why a line has no event and no question: the first of these that applies (profile).
#[derive(Clone, Copy, Debug, PartialEq, Eq, Error)]
pub enum LineFault {
    /// The line has more than [`LINE_MAX`](crate::LINE_MAX) bytes.
    #[error("the line is too long")]
    TooLong = 1,
    /// The first word is missing or unknown; or the third is, after `call`.
    #[error("the line begins with no known word")]
    Unknown = 2,
    /// The number of words isn't that of the line's form.
    #[error("the line has too few words or too many")]
    Count = 3,
    /// A word isn't the written form of a value in its range.
    #[error("a word of the line can't be read or is out of its range")]
    BadWord = 4,
    /// The line is good and carries bytes, and an allocation for them fails.
    #[error("there is no memory for the bytes of the line")]
    OutOfMemory = 5,
}

impl From<AllocError> for LineFault {
    ghost use Rattle.std.specs.Prelude.{◌≡◌};
    ghost use Rattle.trdp_text.specs.declared.fault.LineFault.TheVariants.{OutOfMemory};

    ghost from_gives = { λ _ fault. fault ≡ OutOfMemory };

    fn from(_: AllocError) -> LineFault {
        LineFault::OutOfMemory
    }
}
