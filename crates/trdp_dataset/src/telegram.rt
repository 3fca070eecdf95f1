//! What the clients read of telegrams, and the node ignores: the dataset of each comId, and times.

use crate::client_key::ClientKey;
use crate::doubt::{Doubt, push_doubts, push_unfit};
use crate::place::{FileTable, TELEGRAM_KEY, telegrams_in};
use crate::registry::Registry;
use std::alloc::{AllocError, Global};
use std::collections::BTreeMap;
use toml::{Table, Value};

/// Adds a warning for each telegram whose dataset isn't there or whose comId an earlier one has, and
/// for each name and time of a telegram that can't be meant.
///
/// # Errors
/// [`AllocError`] where there is no memory.
pub(crate) fn push_telegrams(
    alloc: Global,
    text: &mut String,
    file: &[u8],
    top: &Table,
    registry: &Registry,
) -> Result<(), AllocError> {
    let doubts = doubts_of(alloc, top, registry)?;
    push_doubts(alloc, text, file, &doubts)
}

/// The keys of telegrams that their author may not have meant.
///
/// # Errors
/// [`AllocError`] where there is no memory.
fn doubts_of<'a>(
    alloc: Global,
    top: &'a Table,
    registry: &Registry,
) -> Result<Vec<Doubt<'a>>, AllocError> {
    let mut doubts = Vec::new(alloc);
    push_bracket(&mut doubts, top)?;
    let mut seen = BTreeMap::new(alloc);
    for (index, member) in telegrams_in(top).iter().enumerate() {
        if let Some(table) = member.as_table() {
            push_com_id(&mut doubts, &mut seen, table, index)?;
            push_dataset(&mut doubts, registry, table, index)?;
            push_unfit(&mut doubts, table, FileTable::Telegram(index))?;
        }
    }
    Ok(doubts)
}

/// Adds the telegrams where they are one table, and no array of tables.
///
/// # Errors
/// [`AllocError`] where there is no memory.
fn push_bracket<'a>(doubts: &mut Vec<Doubt<'a>>, top: &'a Table) -> Result<(), AllocError> {
    if let Some(value) = top.get(TELEGRAM_KEY) {
        if value.is_table() {
            doubts.push(Doubt {
                place: FileTable::Root,
                key: TELEGRAM_KEY,
                value,
                words: "[[telegram]] is wanted, with two brackets",
            })?;
        }
    }
    Ok(())
}

/// Adds the comId of a telegram where an earlier one has it; `seen` has the earlier ones with their
/// indexes.
///
/// # Errors
/// [`AllocError`] where there is no memory.
fn push_com_id<'a>(
    doubts: &mut Vec<Doubt<'a>>,
    seen: &mut BTreeMap<i64, usize>,
    telegram: &'a Table,
    index: usize,
) -> Result<(), AllocError> {
    let key = ClientKey::ComId.text();
    let Some(value) = telegram.get(key) else {
        return Ok(());
    };
    let Some(com_id) = value.as_integer() else {
        return Ok(());
    };
    if seen.insert(com_id, index)?.is_some() {
        doubts.push(Doubt {
            place: FileTable::Telegram(index),
            key,
            value,
            words: "an earlier telegram has the same",
        })?;
    }
    Ok(())
}

/// Adds the dataset of a telegram where it isn't there.
///
/// # Errors
/// [`AllocError`] where there is no memory.
fn push_dataset<'a>(
    doubts: &mut Vec<Doubt<'a>>,
    registry: &Registry,
    telegram: &'a Table,
    index: usize,
) -> Result<(), AllocError> {
    let key = ClientKey::TelegramDataset.text();
    if let Some(value) = telegram.get(key) {
        if !is_there(registry, value) {
            doubts.push(Doubt {
                place: FileTable::Telegram(index),
                key,
                value,
                words: "no dataset has this identifier",
            })?;
        }
    }
    Ok(())
}

/// Whether a value is the identifier of a dataset, or the 0 that means bytes.
fn is_there(registry: &Registry, value: &Value) -> bool {
    match value.as_integer() {
        Some(0) => true,
        Some(number) => match u32::try_from(number) {
            Ok(id) => registry.elements(id).is_some(),
            Err(_) => false,
        },
        None => false,
    }
}
