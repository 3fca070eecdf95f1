//! Why a slot takes no further object, and why a table takes no further slot.

use std::alloc::AllocError;
use thiserror::Error;
use trdp_model::Refusal;

/// Why a slot takes no further object, the first that applies of `Quota` and `Exhausted`, or why a
/// table takes no further slot, of `SlotsFull` and `OutOfMemory` (profile).
#[derive(Clone, Copy, Debug, PartialEq, Eq, Error)]
pub enum TableFault {
    /// The slot has as many objects of the kind as its quota allows.
    #[error("the slot has as many objects of the kind as its quota allows")]
    Quota = 1,
    /// The slot has given out its last handle, 4,294,967,295 (profile).
    #[error("the slot has given out its last handle")]
    Exhausted = 2,
    /// The table has as many slots as it may have, 16.
    #[error("the table has as many slots as it may have")]
    SlotsFull = 3,
    /// There is no memory for the objects of a further slot.
    #[error("there is no memory for the objects of a further slot")]
    OutOfMemory = 4,
}

impl From<AllocError> for TableFault {
    ghost use Rattle.std.specs.Prelude.{◌≡◌};
    ghost use Rattle.trdp_table.specs.declared.fault.TableFault.TheVariants.{OutOfMemory};

    ghost from_gives = { λ _ fault. fault ≡ OutOfMemory };

    fn from(_: AllocError) -> TableFault {
        TableFault::OutOfMemory
    }
}

impl From<TableFault> for Refusal {
    ghost use Rattle.std.specs.Prelude.{◌≡◌};
    ghost use Rattle.trdp_table.specs.Refusals.{table_refusal};

    ghost from_gives = { λ fault refusal. refusal ≡ table_refusal fault };

    fn from(fault: TableFault) -> Refusal {
        match fault {
            TableFault::Quota => Refusal::Quota,
            TableFault::Exhausted | TableFault::SlotsFull | TableFault::OutOfMemory => {
                Refusal::Exhausted
            }
        }
    }
}
