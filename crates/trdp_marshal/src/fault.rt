//! Why an item has no bytes, or bytes have no item.

use std::alloc::{AllocError, AllocFailed};
use thiserror::Error;

/// Why an item has no bytes, or bytes have no item. The first that holds is returned.
#[derive(Clone, Copy, Debug, PartialEq, Eq, Error)]
pub enum MarshalFault {
    /// No dataset has that identifier, or it is 0, of which any bytes are a payload.
    #[error("no dataset with items has that identifier")]
    NoDataset = 1,
    /// The item is no value of the dataset, or the bytes are those of none.
    #[error("the item is no value of the dataset, or the bytes are those of none")]
    Shape = 2,
    /// The item has more than 65,388 bytes, the most that one message carries.
    #[error("the item has more than 65,388 bytes")]
    TooLong = 3,
    /// There is no memory for the answer.
    #[error("there is no memory for the answer")]
    OutOfMemory = 4,
}

impl From<AllocError> for MarshalFault {
    ghost use Rattle.std.specs.Prelude.{◌≡◌};
    ghost use Rattle.trdp_marshal.specs.declared.fault.MarshalFault.TheVariants.{OutOfMemory};

    ghost from_gives = { λ _ e. e ≡ OutOfMemory };

    fn from(_: AllocError) -> MarshalFault {
        MarshalFault::OutOfMemory
    }
}

impl<T: Drop> From<AllocFailed<T>> for MarshalFault {
    ghost use Rattle.std.specs.Prelude.{◌≡◌};
    ghost use Rattle.trdp_marshal.specs.declared.fault.MarshalFault.TheVariants.{OutOfMemory};

    ghost from_gives = { λ _ e. e ≡ OutOfMemory };

    fn from(_: AllocFailed<T>) -> MarshalFault {
        MarshalFault::OutOfMemory
    }
}
