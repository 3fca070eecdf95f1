//! A fault of a file at its place.

use crate::fault::ConfigFault;
use crate::key::Key;
use crate::lines::Spot;
use crate::place::FileTable;
use toml::Value;

/// What is wrong at a place of a file.
#[derive(Clone, Copy)]
pub(crate) enum Cause<'a> {
    /// A required key isn't there.
    Absent(Key),
    /// The value at a key isn't what the key needs.
    Unwanted(Key, &'a Value),
    /// The member of that index of the array at a key isn't what the key needs.
    UnwantedMember(Key, usize, &'a Value),
    /// The array at a key has that many members, the first number; the second is the most allowed.
    TooMany(Key, usize, u16),
    /// An earlier dataset has the same identifier.
    TwiceId,
    /// The element is of that dataset, which isn't there.
    NoDataset(u32),
    /// The element is an array of size 0, and no count comes before it.
    NoCount,
    /// Datasets nest too deep in this one.
    TooDeep,
    /// The zero value of the dataset has that many bytes.
    TooBig(u64),
}

/// A fault of a file at its place.
#[derive(Clone, Copy)]
pub(crate) struct Finding<'a> {
    /// The fault.
    pub(crate) fault: ConfigFault,
    /// The table.
    pub(crate) place: FileTable,
    /// What is wrong there.
    pub(crate) cause: Cause<'a>,
}

impl Finding<'_> {
    /// The part of the file at fault. Of an array that is too long it is the first member that
    /// is too many; of a key that is missing, and where several statements are at fault together,
    /// the table.
    pub(crate) fn spot(&self) -> Spot {
        let (key, members) = match self.cause {
            Cause::Unwanted(key, _) | Cause::UnwantedMember(key, ..) => (Some(key), 0),
            Cause::TooMany(key, _, most) => (Some(key), usize::from(most) + 1),
            Cause::NoDataset(_) => (Some(Key::ElementType), 0),
            Cause::NoCount => (Some(Key::ElementSize), 0),
            Cause::Absent(_) | Cause::TwiceId | Cause::TooDeep | Cause::TooBig(_) => (None, 0),
        };
        Spot {
            place: self.place,
            key: key.map(|key| key.text()),
            members,
        }
    }
}
