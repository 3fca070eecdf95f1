//! The fault of a position of a key, and of all positions of a file the fault that counts.

ghost use Rattle.std.specs.Prelude.{◌≡◌, map, option_map};
ghost use Rattle.toml.specs.View.{view};
ghost use Rattle.trdp_dataset.specs.Keys.{wanted_by};
ghost use Rattle.trdp_dataset.specs.Values.{natural_in};
ghost use Rattle.trdp_dataset.specs.Seen.{position_seen, positions_seen};
ghost use Rattle.trdp_dataset.specs.Faults.{wrong_unless, count_fault, tables_fault, numbers_fault};
ghost use Rattle.trdp_dataset.specs.Faults.{addresses_fault, again_fault, quota_fault, bad_unless};
ghost use Rattle.trdp_dataset.specs.Faults.{identifier_fault};
ghost use Rattle.trdp_dataset.specs.Faults.{kind_fault, value_fault, found_fault, fault_at};
ghost use Rattle.trdp_dataset.specs.Faults.{least_fault};

use crate::fault::{ConfigFault, least_of_two};
use crate::key::{Key, Wanted};
use crate::position::Position;
use crate::value::{
    address, are_addresses, has_again, identifier, is_numbers, is_real, is_tables, items, kind,
    natural,
};
use toml::Value;

/// The value of a key has to be of the key's kind.
fn wrong_unless(key: Key, is_right: bool) -> Option<ConfigFault>
    ensures value { result ≡ wrong_unless key is_right }
{
    if is_right {
        None
    } else {
        Some(ConfigFault::WrongType(key))
    }
}

/// The fault of an array of `count` members, of which the key allows at most `most`.
fn count_fault(key: Key, most: u16, count: usize) -> Option<ConfigFault>
    ensures value { result ≡ count_fault key most count }
{
    if key.is_required() && count == 0 {
        Some(ConfigFault::Missing(key))
    } else if count > usize::from(most) {
        Some(ConfigFault::TooMany)
    } else {
        None
    }
}

/// The fault of a value where an array of at most `most` tables is expected.
fn tables_fault(key: Key, most: u16, value: &Value) -> Option<ConfigFault>
    ensures value { result ≡ tables_fault key most (view value.now) }
{
    if is_tables(value) {
        count_fault(key, most, items(value).len())
    } else {
        Some(ConfigFault::WrongType(key))
    }
}

/// The fault of a value where an array of at most `most` numbers in a range is expected.
fn numbers_fault(
    key: Key,
    most: u16,
    least: u16,
    greatest: u16,
    value: &Value,
) -> Option<ConfigFault>
    ensures value { result ≡ numbers_fault key most least greatest (view value.now) }
{
    if is_numbers(value, least, greatest) {
        count_fault(key, most, items(value).len())
    } else {
        Some(ConfigFault::WrongType(key))
    }
}

/// The fault of an array without another, in which something is twice or not.
fn again_fault(key: Key, again: bool) -> Option<ConfigFault>
    ensures value { result ≡ again_fault key again None }
{
    if again {
        Some(ConfigFault::WrongType(key))
    } else {
        None
    }
}

/// The fault of a value where an array of at most `most` addresses in a range is expected, none of
/// them twice.
fn addresses_fault(
    key: Key,
    most: u16,
    least: u32,
    greatest: u32,
    value: &Value,
) -> Option<ConfigFault>
    ensures value { result ≡ addresses_fault key most least greatest (view value.now) }
{
    if !are_addresses(value, least, greatest) {
        return Some(ConfigFault::WrongType(key));
    }
    let members = items(value);
    match count_fault(key, most, members.len()) {
        Some(fault) => Some(fault),
        // There are no more than may be, which are compared with each other in no time.
        None => again_fault(key, has_again(members, least, greatest)),
    }
}

/// The fault of a value where a quota of at most `most` is expected.
fn quota_fault(key: Key, most: u16, value: &Value) -> Option<ConfigFault>
    ensures value { result ≡ quota_fault key most (natural_in (view value.now)) }
{
    match natural(value) {
        Some(number) if number > u64::from(most) => Some(ConfigFault::TooMany),
        Some(_) => None,
        None => Some(ConfigFault::WrongType(key)),
    }
}

/// An identifier has to be in range, and a type has to be known.
fn bad_unless(is_good: bool) -> Option<ConfigFault>
    ensures value { result ≡ bad_unless is_good }
{
    if is_good {
        None
    } else {
        Some(ConfigFault::BadId)
    }
}

/// The fault of a value where the identifier of a dataset is expected.
fn identifier_fault(key: Key, value: &Value) -> Option<ConfigFault>
    ensures value { result ≡ identifier_fault key (view value.now) }
{
    if value.is_integer() {
        bad_unless(identifier(value).is_some())
    } else {
        Some(ConfigFault::WrongType(key))
    }
}

/// The fault of a value where the type of an element is expected.
fn kind_fault(key: Key, value: &Value) -> Option<ConfigFault>
    ensures value { result ≡ kind_fault key (view value.now) }
{
    if !value.is_str() && !value.is_integer() {
        Some(ConfigFault::WrongType(key))
    } else if is_real(value) {
        Some(ConfigFault::Real)
    } else {
        bad_unless(kind(value).is_some())
    }
}

/// The fault of a value at a key, by what the key needs.
fn value_fault(key: Key, value: &Value) -> Option<ConfigFault>
    ensures value { result ≡ value_fault key (wanted_by key) (view value.now) }
{
    let wanted = key.wanted();
    match wanted {
        Wanted::Table => wrong_unless(key, value.is_table()),
        Wanted::Tables(most) => tables_fault(key, most, value),
        Wanted::Address => wrong_unless(key, address(value).is_some()),
        Wanted::Number(..) => wrong_unless(key, wanted.number(value).is_some()),
        Wanted::Numbers(most, least, greatest) => {
            numbers_fault(key, most, least, greatest, value)
        }
        Wanted::Addresses(most, least, greatest) => {
            addresses_fault(key, most, least, greatest, value)
        }
        Wanted::Quota(most) => quota_fault(key, most, value),
        Wanted::Identifier(..) => identifier_fault(key, value),
        Wanted::Kind => kind_fault(key, value),
    }
}

impl Key {
    /// The fault of what a table has at the key: of a value that isn't what the key needs, or of a
    /// required key that isn't there.
    pub(crate) fn fault(self, found: Option<&Value>) -> Option<ConfigFault>
        ensures value { result ≡ found_fault self (option_map (λ v. view v.now) found.entry) }
    {
        match found {
            Some(value) => value_fault(self, value),
            None if self.is_required() => Some(ConfigFault::Missing(self)),
            None => None,
        }
    }
}

impl Position<'_> {
    /// The fault of this position.
    fn fault(&self) -> Option<ConfigFault>
        ensures value { result ≡ fault_at (position_seen self.now) }
    {
        self.key.fault(self.value)
    }
}

/// Of the faults of all positions the one of the lowest number, and of several of that number the
/// first.
pub(crate) fn least_fault(positions: &[Position<'_>]) -> Option<ConfigFault>
    ensures value { result ≡ least_fault (map fault_at (positions_seen positions.now)) }
{
    let mut least = None;
    for position in positions {
        least = least_of_two(least, position.fault());
    }
    least
}
