//! Why a text can't be read.

use std::alloc::AllocError;
use thiserror::Error;

/// Why a text has no value.
#[derive(Clone, Copy, Debug, PartialEq, Eq, Error)]
pub enum TextFault {
    /// The text is not the written form of a value in the range.
    #[error("the text is not the written form of a value in the range")]
    BadText = 1,
    /// The text is good, and there is no memory for its value.
    #[error("there is no memory for the text's value")]
    OutOfMemory = 2,
}

impl From<AllocError> for TextFault {
    ghost use Rattle.std.specs.Prelude.{◌≡◌};
    ghost use Rattle.trdp_base.specs.declared.text.TextFault.TheVariants.{OutOfMemory};

    ghost from_gives = { λ _ fault. fault ≡ OutOfMemory };

    fn from(_: AllocError) -> Self {
        TextFault::OutOfMemory
    }
}
