//! What is expected in place of a value.

use crate::key::{Key, Wanted};
use crate::reading::Reading;
use crate::value::{items, natural};
use std::alloc::AllocError;
use std::fmt::Write;
use std::net::Ipv4Addr;
use toml::Value;

/// The names of the types.
const TYPE_NAMES: [&str; 15] = [
    "BOOL8",
    "BITSET8",
    "CHAR8",
    "UTF16",
    "INT8",
    "INT16",
    "INT32",
    "INT64",
    "UINT8",
    "UINT16",
    "UINT32",
    "UINT64",
    "TIMEDATE32",
    "TIMEDATE48",
    "TIMEDATE64",
];

/// The names of the types that are left out.
const REAL_NAMES: [&str; 2] = ["REAL32", "REAL64"];

/// Adds what a key needs in place of the value that it has.
///
/// # Errors
/// [`AllocError`] where there is no memory.
pub(crate) fn push_wish(text: &mut String, key: Key, value: &Value) -> Result<(), AllocError> {
    match key.wanted() {
        Wanted::Table if value.is_array() => write!(text, "[{key}] is wanted, with one bracket"),
        Wanted::Table => write!(text, "[{key}] is wanted, a table"),
        Wanted::Tables(_) => push_tables_wish(text, key, value),
        Wanted::Address => text.push_str("an IPv4 address as \"10.0.0.1\" is wanted"),
        Wanted::Number(least, most) => write!(text, "a number of {least} to {most}"),
        Wanted::Numbers(_, least, most) => {
            write!(text, "an array of numbers of {least} to {most}")
        }
        Wanted::Addresses(_, least, most) => write!(
            text,
            "an array of IPv4 addresses of {} to {}, each once",
            Ipv4Addr::from_bits(least),
            Ipv4Addr::from_bits(most)
        ),
        Wanted::Quota(most) => write!(text, "a number of 0 to {most}"),
        Wanted::Identifier(least, most) => write!(text, "a number of {least} to {most}"),
        Wanted::Kind => push_kind_wish(text, value),
    }
}

/// Adds what a key of an array of numbers or of addresses needs in place of a member.
///
/// # Errors
/// [`AllocError`] where there is no memory.
pub(crate) fn push_member_wish(text: &mut String, key: Key) -> Result<(), AllocError> {
    match key.wanted() {
        Wanted::Numbers(_, least, most) => write!(text, "a number of {least} to {most}"),
        Wanted::Addresses(_, least, most) => write!(
            text,
            "an IPv4 address of {} to {}, each once",
            Ipv4Addr::from_bits(least),
            Ipv4Addr::from_bits(most)
        ),
        _ => Ok(()),
    }
}

/// Adds what a key of an array of tables needs in place of the value that it has.
///
/// # Errors
/// [`AllocError`] where there is no memory.
fn push_tables_wish(text: &mut String, key: Key, value: &Value) -> Result<(), AllocError> {
    if value.is_array() && items(value).is_empty() {
        text.push_str("one at least is wanted")
    } else if key == Key::Elements {
        text.push_str("an array of tables is wanted, as [{ type = 8 }]")
    } else {
        write!(text, "[[{key}]] is wanted, with two brackets")
    }
}

/// Adds which type is expected in place of a value.
///
/// # Errors
/// [`AllocError`] where there is no memory.
fn push_kind_wish(text: &mut String, value: &Value) -> Result<(), AllocError> {
    if let Some(real) = real_meant(value) {
        text.push_str(real.wish())
    } else if let Some(name) = name_among(&TYPE_NAMES, value) {
        write!(text, "{name} is wanted")
    } else {
        push_kinds(text)
    }
}

/// Adds which types there are.
///
/// # Errors
/// [`AllocError`] where there is no memory.
fn push_kinds(text: &mut String) -> Result<(), AllocError> {
    text.push_str("a type is ")?;
    for name in &TYPE_NAMES {
        write!(text, "{name}, ")?;
    }
    text.push_str("the number of one of these, or the identifier of a dataset")?;
    match Key::DatasetId.wanted() {
        Wanted::Identifier(least, most) => write!(text, ", {least} to {most}"),
        _ => Ok(()),
    }
}

/// The real number that a value is meant as the type of; None where it is none.
fn real_meant(value: &Value) -> Option<Reading> {
    match natural(value) {
        Some(12) => Some(Reading::Real32),
        Some(13) => Some(Reading::Real64),
        _ => Reading::named(name_among(&REAL_NAMES, value)?),
    }
}

/// The name that a value is but for small letters, and blanks before and after.
fn name_among(names: &[&'static str], value: &Value) -> Option<&'static str> {
    let text = value.as_str()?.trim();
    names
        .iter()
        .copied()
        .find(|name| name.eq_ignore_ascii_case(text))
}
