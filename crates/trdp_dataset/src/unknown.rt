//! Keys of a file that mean nothing.

use crate::client_key::client_keys;
use crate::key::Key;
use crate::place::{DatasetName, FileTable, TELEGRAM_KEY, telegrams_in};
use crate::position::{DATASET_KEYS, ELEMENT_KEYS, NODE_KEYS, SLOT_KEYS, members_at, node_in};
use std::alloc::AllocError;
use std::fmt::Write;
use toml::Table;

/// The keys of the root.
const ROOT_KEYS: [Key; 3] = [Key::Node, Key::Slot, Key::Dataset];

/// Adds a warning for each key of a file that means nothing.
///
/// # Errors
/// [`AllocError`] where there is no memory.
pub(crate) fn push_unknown(text: &mut String, top: &Table) -> Result<(), AllocError> {
    push_unknown_in(text, top, FileTable::Root, &ROOT_KEYS)?;
    if let Some(node) = node_in(top) {
        push_unknown_in(text, node, FileTable::Node, &NODE_KEYS)?;
    }
    push_unknown_in_slots(text, top)?;
    push_unknown_in_datasets(text, top)?;
    push_unknown_in_telegrams(text, top)
}

/// Adds a warning for each key of a table that is neither one of these nor one of the clients.
///
/// # Errors
/// [`AllocError`] where there is no memory.
fn push_unknown_in(
    text: &mut String,
    table: &Table,
    place: FileTable,
    keys: &[Key],
) -> Result<(), AllocError> {
    for (name, _) in table {
        if !is_known(place, keys, name) {
            writeln!(text, "warning: {place}: the key {name} means nothing")?;
        }
    }
    Ok(())
}

/// Whether a name is one of the keys of a table, or one that the clients read there.
fn is_known(place: FileTable, keys: &[Key], name: &str) -> bool {
    keys.iter().any(|key| key.text() == name) || is_clients(place, name)
}

/// Whether a name is a key of a table that the clients read: at the root that of the telegrams.
fn is_clients(place: FileTable, name: &str) -> bool {
    match place {
        FileTable::Root => name == TELEGRAM_KEY,
        _ => client_keys(place).iter().any(|key| key.text() == name),
    }
}

/// Adds the warnings of the slots.
///
/// # Errors
/// [`AllocError`] where there is no memory.
fn push_unknown_in_slots(text: &mut String, top: &Table) -> Result<(), AllocError> {
    for (slot, member) in members_at(top, Key::Slot).iter().enumerate() {
        if let Some(table) = member.as_table() {
            push_unknown_in(text, table, FileTable::Slot(slot), &SLOT_KEYS)?;
        }
    }
    Ok(())
}

/// Adds the warnings of the datasets and their elements.
///
/// # Errors
/// [`AllocError`] where there is no memory.
fn push_unknown_in_datasets(text: &mut String, top: &Table) -> Result<(), AllocError> {
    for (index, member) in members_at(top, Key::Dataset).iter().enumerate() {
        if let Some(table) = member.as_table() {
            let name = DatasetName::of(table, index);
            push_unknown_in(text, table, FileTable::Dataset(name), &DATASET_KEYS)?;
            push_unknown_in_elements(text, table, name)?;
        }
    }
    Ok(())
}

/// Adds the warnings of the elements of a dataset.
///
/// # Errors
/// [`AllocError`] where there is no memory.
fn push_unknown_in_elements(
    text: &mut String,
    dataset: &Table,
    name: DatasetName,
) -> Result<(), AllocError> {
    for (index, member) in members_at(dataset, Key::Elements).iter().enumerate() {
        if let Some(table) = member.as_table() {
            push_unknown_in(text, table, FileTable::Element(name, index), &ELEMENT_KEYS)?;
        }
    }
    Ok(())
}

/// Adds the warnings of the telegrams.
///
/// # Errors
/// [`AllocError`] where there is no memory.
fn push_unknown_in_telegrams(text: &mut String, top: &Table) -> Result<(), AllocError> {
    for (index, member) in telegrams_in(top).iter().enumerate() {
        if let Some(table) = member.as_table() {
            push_unknown_in(text, table, FileTable::Telegram(index), &[])?;
        }
    }
    Ok(())
}
