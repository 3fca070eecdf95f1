//! Values of a file that its author may not have meant.

use crate::client_key::client_keys;
use crate::lines::{Lines, Spot};
use crate::place::FileTable;
use crate::sentence::{push_place, push_value};
use std::alloc::{AllocError, Global};
use toml::{Table, Value};

/// A value at a key that its author may not have meant.
#[derive(Clone, Copy)]
pub(crate) struct Doubt<'a> {
    /// The table.
    pub(crate) place: FileTable,
    /// The key.
    pub(crate) key: &'static str,
    /// Its value.
    pub(crate) value: &'a Value,
    /// What there is to say of it.
    pub(crate) words: &'static str,
}

/// Adds a doubt for each key of the clients in a table that has a value which doesn't fit it.
///
/// # Errors
/// [`AllocError`] where there is no memory.
pub(crate) fn push_unfit<'a>(
    doubts: &mut Vec<Doubt<'a>>,
    table: &'a Table,
    place: FileTable,
) -> Result<(), AllocError> {
    for key in client_keys(place) {
        if let Some(value) = table.get(key.text()) {
            if let Some(words) = key.wish(value) {
                doubts.push(Doubt {
                    place,
                    key: key.text(),
                    value,
                    words,
                })?;
            }
        }
    }
    Ok(())
}

/// Adds a warning for each doubt, with the line of the file.
///
/// # Errors
/// [`AllocError`] where there is no memory.
pub(crate) fn push_doubts(
    alloc: Global,
    text: &mut String,
    file: &[u8],
    doubts: &[Doubt<'_>],
) -> Result<(), AllocError> {
    if doubts.is_empty() {
        return Ok(());
    }
    let mut lines = Lines::new(alloc, file)?;
    for doubt in doubts {
        let line = lines.line_of(Spot {
            place: doubt.place,
            key: Some(doubt.key),
            members: 0,
        })?;
        text.push_str("warning: ")?;
        push_place(text, line, doubt.place)?;
        push_value(alloc, text, doubt.key, doubt.value)?;
        text.push_str(doubt.words)?;
        text.push_str("\n")?;
    }
    Ok(())
}
