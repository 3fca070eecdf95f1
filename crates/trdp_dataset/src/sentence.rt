//! The line that reports a fault of a file.

use crate::check::VALUE_MAX;
use crate::depth::DEPTH_MAX;
use crate::finding::{Cause, Finding};
use crate::key::Key;
use crate::place::FileTable;
use crate::wish::{push_member_wish, push_wish};
use std::alloc::{AllocError, Global};
use std::fmt::Write;
use toml::Value;

/// How many characters of a value are shown at most.
const SHOWN_MAX: usize = 60;

/// Adds the line of a fault.
///
/// # Errors
/// [`AllocError`] where there is no memory.
pub(crate) fn push_finding(
    alloc: Global,
    text: &mut String,
    line: Option<usize>,
    finding: &Finding<'_>,
) -> Result<(), AllocError> {
    push_place(text, line, finding.place)?;
    push_cause(alloc, text, finding.cause)?;
    text.push_str("\n")
}

/// Adds a place as a line begins with it; that of the file's line where it is known.
///
/// # Errors
/// [`AllocError`] where there is no memory.
pub(crate) fn push_place(
    text: &mut String,
    line: Option<usize>,
    place: FileTable,
) -> Result<(), AllocError> {
    match line {
        Some(line) => write!(text, "line {line}, {place}: "),
        None => write!(text, "{place}: "),
    }
}

/// Adds what is wrong at a place.
///
/// # Errors
/// [`AllocError`] where there is no memory.
fn push_cause(alloc: Global, text: &mut String, cause: Cause<'_>) -> Result<(), AllocError> {
    match cause {
        Cause::Absent(key) => write!(text, "the key {key} is missing"),
        Cause::Unwanted(key, value) => {
            push_value(alloc, text, key.text(), value)?;
            push_wish(text, key, value)
        }
        Cause::UnwantedMember(key, index, value) => {
            write!(text, "{key}[{index}]")?;
            push_value(alloc, text, "", value)?;
            push_member_wish(text, key)
        }
        Cause::TooMany(key, count, most) => {
            write!(text, "{key} has {count} members: {most} are the most")
        }
        Cause::TwiceId => text.push_str("an earlier dataset has the same identifier"),
        Cause::NoDataset(id) => write!(
            text,
            "{} = {id}: no dataset has the identifier {id}",
            Key::ElementType
        ),
        Cause::NoCount => write!(
            text,
            "{} = 0: no count stands before it, a single UINT8, UINT16 or UINT32",
            Key::ElementSize
        ),
        Cause::TooDeep => write!(
            text,
            "datasets nest deeper than {DEPTH_MAX} in it, or in a circle"
        ),
        Cause::TooBig(size) => write!(
            text,
            "its zero value takes {size} bytes: {VALUE_MAX} are the most"
        ),
    }
}

/// Adds a key and its value as a file has them.
///
/// # Errors
/// [`AllocError`] where there is no memory.
pub(crate) fn push_value(
    alloc: Global,
    text: &mut String,
    key: &str,
    value: &Value,
) -> Result<(), AllocError> {
    write!(text, "{key} = ")?;
    push_shown(alloc, text, value)?;
    text.push_str(": ")
}

/// Adds a value as a file has it: its first characters, and `..` where there are more.
///
/// # Errors
/// [`AllocError`] where there is no memory.
fn push_shown(alloc: Global, text: &mut String, value: &Value) -> Result<(), AllocError> {
    let whole = format!(in alloc; "{value}")?;
    for (index, letter) in whole.chars().enumerate() {
        if index == SHOWN_MAX {
            return text.push_str("..");
        }
        push_letter(text, letter)?;
    }
    Ok(())
}

/// Adds a character, a control character as a basic string of TOML has it.
///
/// # Errors
/// [`AllocError`] where there is no memory.
fn push_letter(text: &mut String, letter: char) -> Result<(), AllocError> {
    match letter {
        '\n' => text.push_str("\\n"),
        '\r' => text.push_str("\\r"),
        '\t' => text.push_str("\\t"),
        _ if letter.is_control() => write!(text, "\\u{:04X}", u32::from(letter)),
        _ => text.push(letter),
    }
}
