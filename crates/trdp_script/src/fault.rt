//! Why a script ends.

use std::alloc::AllocError;
use thiserror::Error;
use trdp_text::LineFault;

/// Why a script ends before the end of its input.
#[derive(Clone, Copy, Debug, PartialEq, Eq, Error)]
pub enum ScriptFault {
    /// The line of that number has that fault. Lines are counted from 1, skipped ones included.
    #[error("line {0} of the script: {1}")]
    Line(u64, LineFault),
    /// The reader fails, or was read [`READS_MAX`](crate::READS_MAX) times.
    #[error("the script can't be read further")]
    Read,
    /// The writer fails, or was interrupted [`WRITE_TRIES`](crate::WRITE_TRIES) times in a row.
    #[error("the output can't be written")]
    Write,
    /// An allocation fails.
    #[error("there is no memory for the script")]
    OutOfMemory,
}

impl From<AllocError> for ScriptFault {
    ghost use Rattle.std.specs.Prelude.{◌≡◌};
    ghost use Rattle.trdp_script.specs.declared.fault.ScriptFault.TheVariants.{OutOfMemory};

    ghost from_gives = { λ _ fault. fault ≡ OutOfMemory };

    fn from(_: AllocError) -> ScriptFault {
        ScriptFault::OutOfMemory
    }
}
