//! Why a configuration is rejected.

ghost use Rattle.std.specs.Prelude.{◌≡◌};
ghost use Rattle.trdp_dataset.specs.Faults.{rank, least_of_two};

use crate::key::Key;
use std::alloc::AllocError;
use thiserror::Error;

/// Why a configuration is rejected (profile). The faults are listed in the order of their
/// precedence: of several in one file the uppermost here counts, and of that one the first
/// position in the file.
#[derive(Clone, Copy, Debug, PartialEq, Eq, Error)]
pub enum ConfigFault {
    /// The bytes aren't UTF-8 or not TOML.
    #[error("the bytes are not UTF-8 or not TOML")]
    Toml,
    /// A required key isn't there, or the array under it is empty.
    #[error("the key {0} is missing, or its array is empty")]
    Missing(Key),
    /// The value of a key isn't of the kind that the key needs, or is out of range; an array of
    /// addresses also where one is there twice.
    #[error("the value of the key {0} is of the wrong kind or out of range")]
    WrongType(Key),
    /// An element is a real number, which this profile leaves out.
    #[error("an element is a real number")]
    Real,
    /// The identifier of a dataset is out of range, or a type is none of the known ones.
    #[error("the identifier of a dataset is out of range, or a type is unknown")]
    BadId,
    /// Two datasets have one identifier.
    #[error("two datasets have one identifier")]
    TwiceId,
    /// An element is of a dataset that isn't there.
    #[error("an element is of the dataset {0}, which is not there")]
    NoDataset(u32),
    /// An array of size 0 doesn't come after an element that counts its items.
    #[error("an array of size 0 does not come after an element that counts its items")]
    NoCount,
    /// Datasets nest deeper than 5.
    #[error("datasets nest deeper than 5")]
    TooDeep,
    /// The zero value of a dataset is longer than 65,388 bytes.
    #[error("the zero value of a dataset is longer than 65388 bytes")]
    TooBig,
    /// There are more than 16 slots, 15 spare control ports, 32 groups, 256 datasets or 256
    /// elements of a dataset, or a quota is above 256.
    #[error("there are more than 16 slots, 15 spare control ports, 32 groups, 256 datasets or 256 \
         elements, or a quota above 256")]
    TooMany,
    /// Memory ran out.
    #[error("memory ran out")]
    OutOfMemory,
}

impl ConfigFault {
    /// The number of the fault in the order of the faults, 1 to 12. A variant that carries a value
    /// can have no number of its own in the enum, so this says it.
    pub fn rank(self) -> u8
        ensures value { result ≡ rank self }
    {
        match self {
            ConfigFault::Toml => 1,
            ConfigFault::Missing(_) => 2,
            ConfigFault::WrongType(_) => 3,
            ConfigFault::Real => 4,
            ConfigFault::BadId => 5,
            ConfigFault::TwiceId => 6,
            ConfigFault::NoDataset(_) => 7,
            ConfigFault::NoCount => 8,
            ConfigFault::TooDeep => 9,
            ConfigFault::TooBig => 10,
            ConfigFault::TooMany => 11,
            ConfigFault::OutOfMemory => 12,
        }
    }
}

/// Of two faults the one of the lower number, and of two of one number the first.
pub(crate) fn least_of_two(
    former: Option<ConfigFault>,
    later: Option<ConfigFault>,
) -> Option<ConfigFault>
    ensures value { result ≡ least_of_two former later }
{
    let Some(fault) = former else {
        return later;
    };
    match later {
        Some(other) if other.rank() < fault.rank() => later,
        _ => former,
    }
}

impl From<AllocError> for ConfigFault {
    ghost use Rattle.std.specs.Prelude.{◌≡◌};
    ghost use Rattle.trdp_dataset.specs.declared.fault.ConfigFault.TheVariants.{OutOfMemory};

    ghost from_gives = { λ _ fault. fault ≡ OutOfMemory };

    fn from(_: AllocError) -> Self {
        ConfigFault::OutOfMemory
    }
}
