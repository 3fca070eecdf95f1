//! What the values of a configuration file mean.

ghost use Rattle.std.specs.Prelude.{◌≡◌, ◌≤◌, IfSome, option_map, is_some, map, Some};
ghost use Rattle.std.specs.List.{list_all, list_any};
ghost use Rattle.toml.specs.View.{view};
ghost use Rattle.trdp_dataset.specs.Types.{in_range, identifier_of, type_named};
ghost use Rattle.trdp_dataset.specs.Types.{type_numbered, is_real_name, is_real_number};
ghost use Rattle.trdp_dataset.specs.Values.{items_in, address_of, address_in, natural_in};
ghost use Rattle.trdp_dataset.specs.Values.{natural_within, number_in, member_in, IsAllowed};
ghost use Rattle.trdp_dataset.specs.Values.{identifier_in, kind_in, is_real, is_table, is_tables};
ghost use Rattle.trdp_dataset.specs.Values.{is_number, is_numbers, address_within, is_address};
ghost use Rattle.trdp_dataset.specs.Values.{member_address_in, gives, has_again};
ghost use Rattle.trdp_dataset.specs.Values.{addresses_among, are_addresses};

use crate::element::ElementKind;
use crate::key::{Key, Wanted};
use toml::Value;
use trdp_base::{Ip, read_ip};

/// The members of an array; none of any other value.
pub(crate) fn items(value: &Value) -> &[Value]
    ensures value { map view result.now ≡ items_in (view value.now) }
{
    match value.as_array() {
        Some(array) => array.as_slice(),
        None => &[],
    }
}

/// The whole number that a value is, from 0 on.
pub(crate) fn natural(value: &Value) -> Option<u64>
    ensures value { result ≡ natural_in (view value.now) }
{
    match value {
        Value::Integer(n) if *n >= 0 => Some(*n as u64),
        _ => None,
    }
}

/// The number, if it is in the range, ends included.
fn in_range(number: u64, least: u32, most: u32) -> Option<u32>
    ensures value { result ≡ in_range least most number }
    ensures range { IfSome result (λ n. (least ≤ n) × (n ≤ most)) }
{
    if u64::from(least) <= number && number <= u64::from(most) {
        Some(number as u32)
    } else {
        None
    }
}

/// The whole number that a value is, if it is in the range, ends included.
fn natural_within(value: &Value, least: u16, most: u16) -> Option<u16>
    ensures value { result ≡ natural_within least most (view value.now) }
    ensures range { IfSome result (λ n. (least ≤ n) × (n ≤ most)) }
{
    match natural(value) {
        Some(number) => match in_range(number, u32::from(least), u32::from(most)) {
            Some(number) => Some(number as u16),
            None => None,
        },
        None => None,
    }
}

impl Wanted {
    /// The number that a value is, if a number is expected and this one is in range.
    pub(crate) fn number(self, value: &Value) -> Option<u16>
        ensures value { result ≡ number_in self (view value.now) }
        ensures range { IfSome result (λ n. IsAllowed self n) }
    {
        match self {
            Wanted::Number(least, most) => natural_within(value, least, most),
            Wanted::Quota(most) => natural_within(value, 0, most),
            _ => None,
        }
    }

    /// The number that a member of an array is, if an array of numbers is expected and this one is
    /// in range.
    pub(crate) fn member(self, member: &Value) -> Option<u16>
        ensures value { result ≡ member_in self (view member.now) }
    {
        match self {
            Wanted::Numbers(_, least, greatest) => natural_within(member, least, greatest),
            _ => None,
        }
    }

    /// The address that a member of an array is, in host order, if an array of addresses is
    /// expected and this one is in range.
    pub(crate) fn member_address(self, member: &Value) -> Option<u32>
        ensures value { result ≡ member_address_in self (view member.now) }
    {
        match self {
            Wanted::Addresses(_, least, greatest) => address_within(member, least, greatest),
            _ => None,
        }
    }
}

/// The identifier of a dataset that a number is, if it is in the range that the table of keys
/// says.
fn identifier_of(number: u64) -> Option<u32>
    ensures value { result ≡ identifier_of number }
{
    match Key::DatasetId.wanted() {
        Wanted::Identifier(least, most) => in_range(number, least, most),
        _ => None,
    }
}

/// The identifier of a dataset that a value is.
pub(crate) fn identifier(value: &Value) -> Option<u32>
    ensures value { result ≡ identifier_in (view value.now) }
{
    match natural(value) {
        Some(number) => identifier_of(number),
        None => None,
    }
}

/// The address of a text.
#[tactic(auto, unfolding(crate::specs::Values::address_of))]
fn address_of(text: &str) -> Option<Ip>
    ensures value { option_map (λ ip. ip.0) result ≡ address_of text.now }
{
    match read_ip(text.as_bytes()) {
        Ok(ip) => Some(ip),
        Err(_) => None,
    }
}

/// The address that a value is the text of.
pub(crate) fn address(value: &Value) -> Option<Ip>
    ensures value { option_map (λ ip. ip.0) result ≡ address_in (view value.now) }
{
    match value.as_str() {
        Some(text) => address_of(text),
        None => None,
    }
}

/// The address that a value is the text of, in host order, if it is in the range, ends included.
pub(crate) fn address_within(value: &Value, least: u32, greatest: u32) -> Option<u32>
    ensures value { result ≡ address_within least greatest (view value.now) }
{
    match address(value) {
        Some(address) => in_range(u64::from(address.0), least, greatest),
        None => None,
    }
}

/// The basic type of that name.
fn kind_named(name: &str) -> Option<ElementKind>
    ensures value { result ≡ type_named name.now }
{
    match name {
        "BOOL8" | "BITSET8" => Some(ElementKind::Bool8),
        "CHAR8" => Some(ElementKind::Char8),
        "UTF16" => Some(ElementKind::Utf16),
        "INT8" => Some(ElementKind::Int8),
        "INT16" => Some(ElementKind::Int16),
        "INT32" => Some(ElementKind::Int32),
        "INT64" => Some(ElementKind::Int64),
        "UINT8" => Some(ElementKind::Uint8),
        "UINT16" => Some(ElementKind::Uint16),
        "UINT32" => Some(ElementKind::Uint32),
        "UINT64" => Some(ElementKind::Uint64),
        "TIMEDATE32" => Some(ElementKind::Timedate32),
        "TIMEDATE48" => Some(ElementKind::Timedate48),
        "TIMEDATE64" => Some(ElementKind::Timedate64),
        _ => None,
    }
}

/// The type of that number: a basic one, or the dataset of that identifier.
fn kind_numbered(number: u64) -> Option<ElementKind>
    ensures value { result ≡ type_numbered number }
{
    match number {
        1 => Some(ElementKind::Bool8),
        2 => Some(ElementKind::Char8),
        3 => Some(ElementKind::Utf16),
        4 => Some(ElementKind::Int8),
        5 => Some(ElementKind::Int16),
        6 => Some(ElementKind::Int32),
        7 => Some(ElementKind::Int64),
        8 => Some(ElementKind::Uint8),
        9 => Some(ElementKind::Uint16),
        10 => Some(ElementKind::Uint32),
        11 => Some(ElementKind::Uint64),
        14 => Some(ElementKind::Timedate32),
        15 => Some(ElementKind::Timedate48),
        16 => Some(ElementKind::Timedate64),
        _ => match identifier_of(number) {
            Some(id) => Some(ElementKind::Nested(id)),
            None => None,
        },
    }
}

/// The type that a value names or numbers.
pub(crate) fn kind(value: &Value) -> Option<ElementKind>
    ensures value { result ≡ kind_in (view value.now) }
{
    match value.as_str() {
        Some(name) => kind_named(name),
        None => match natural(value) {
            Some(number) => kind_numbered(number),
            None => None,
        },
    }
}

/// Whether a value names or numbers the type of a real number.
pub(crate) fn is_real(value: &Value) -> bool
    ensures value { result ≡ is_real (view value.now) }
{
    match value.as_str() {
        Some(name) => name == "REAL32" || name == "REAL64",
        None => match natural(value) {
            Some(number) => number == 12 || number == 13,
            None => false,
        },
    }
}

/// Whether each value is a table.
fn all_tables(items: &[Value]) -> bool
    ensures value { result ≡ list_all (λ item. is_table (view item)) items.now }
{
    items.iter().all(|item| item.is_table())
}

/// Whether a value is an array of tables.
pub(crate) fn is_tables(value: &Value) -> bool
    ensures value { result ≡ is_tables (view value.now) }
{
    value.is_array() && all_tables(items(value))
}

/// Whether each value is a whole number in the range, ends included.
fn all_numbers(items: &[Value], least: u16, greatest: u16) -> bool
    ensures value { result ≡ list_all (λ item. is_number least greatest (view item)) items.now }
{
    items
        .iter()
        .all(|item| natural_within(item, least, greatest).is_some())
}

/// Whether a value is an array of whole numbers in the range, ends included.
pub(crate) fn is_numbers(value: &Value, least: u16, greatest: u16) -> bool
    ensures value { result ≡ is_numbers least greatest (view value.now) }
{
    value.is_array() && all_numbers(items(value), least, greatest)
}

/// Whether each value is an address in the range, ends included.
fn all_addresses(items: &[Value], least: u32, greatest: u32) -> bool
    ensures value { result ≡ list_all (λ item. is_address least greatest (view item)) items.now }
{
    items
        .iter()
        .all(|item| address_within(item, least, greatest).is_some())
}

/// Whether a value is the text of that address, of those in the range, ends included.
fn gives(value: &Value, least: u32, greatest: u32, wanted: u32) -> bool
    ensures value { result ≡ gives least greatest wanted (view value.now) }
{
    match address_within(value, least, greatest) {
        Some(address) => wanted == address,
        None => false,
    }
}

/// Whether a value is an array of addresses in the range, ends included.
pub(crate) fn are_addresses(value: &Value, least: u32, greatest: u32) -> bool
    ensures value { result ≡ are_addresses least greatest (view value.now) }
{
    value.is_array() && all_addresses(items(value), least, greatest)
}

/// Whether one of the values is the text of that address, of those in the range, ends included.
pub(crate) fn any_gives(items: &[Value], least: u32, greatest: u32, wanted: u32) -> bool
    ensures value { result
        ≡ list_any (λ item. gives least greatest wanted (view item)) items.now }
{
    items
        .iter()
        .any(|item| gives(item, least, greatest, wanted))
}

/// Whether two of the values are texts of one address, of those in the range, ends included.
pub(crate) fn has_again(items: &[Value], least: u32, greatest: u32) -> bool
    ensures value { result ≡ has_again (addresses_among least greatest (map view items.now)) }
{
    for index in 0..items.len() {
        if let Some(address) = address_within(&items[index], least, greatest) {
            let (_, behind) = items.split_at(index + 1);
            if any_gives(behind, least, greatest, address) {
                return true;
            }
        }
    }
    false
}
