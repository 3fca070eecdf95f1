//! What the clients read of slots, datasets and elements, and the node ignores: names, units, and
//! as what values are read.

use crate::client_key::{ClientKey, reading_of};
use crate::doubt::{Doubt, push_doubts, push_unfit};
use crate::key::Key;
use crate::place::{DatasetName, FileTable};
use crate::position::{members_at, value_at};
use crate::read::number_at;
use std::alloc::{AllocError, Global};
use std::collections::BTreeMap;
use toml::{Table, Value};

/// Adds a warning for each name, unit, scale, offset and reading that can't be meant.
///
/// # Errors
/// [`AllocError`] where there is no memory.
pub(crate) fn push_names(
    alloc: Global,
    text: &mut String,
    file: &[u8],
    top: &Table,
) -> Result<(), AllocError> {
    let mut doubts = Vec::new(alloc);
    push_slots(&mut doubts, top)?;
    push_datasets(alloc, &mut doubts, top)?;
    push_doubts(alloc, text, file, &doubts)
}

/// Adds the doubts of the slots.
///
/// # Errors
/// [`AllocError`] where there is no memory.
fn push_slots<'a>(doubts: &mut Vec<Doubt<'a>>, top: &'a Table) -> Result<(), AllocError> {
    for (slot, member) in members_at(top, Key::Slot).iter().enumerate() {
        if let Some(table) = member.as_table() {
            push_unfit(doubts, table, FileTable::Slot(slot))?;
        }
    }
    Ok(())
}

/// Adds the doubts of the datasets and their elements.
///
/// # Errors
/// [`AllocError`] where there is no memory.
fn push_datasets<'a>(
    alloc: Global,
    doubts: &mut Vec<Doubt<'a>>,
    top: &'a Table,
) -> Result<(), AllocError> {
    for (index, member) in members_at(top, Key::Dataset).iter().enumerate() {
        if let Some(table) = member.as_table() {
            let name = DatasetName::of(table, index);
            push_unfit(doubts, table, FileTable::Dataset(name))?;
            push_elements(alloc, doubts, members_at(table, Key::Elements), name)?;
        }
    }
    Ok(())
}

/// Adds the doubts of the elements of a dataset.
///
/// # Errors
/// [`AllocError`] where there is no memory.
fn push_elements<'a>(
    alloc: Global,
    doubts: &mut Vec<Doubt<'a>>,
    members: &'a [Value],
    name: DatasetName,
) -> Result<(), AllocError> {
    let mut seen = BTreeMap::new(alloc);
    for (index, member) in members.iter().enumerate() {
        if let Some(table) = member.as_table() {
            let place = FileTable::Element(name, index);
            push_unfit(doubts, table, place)?;
            push_name_again(doubts, &mut seen, table, place)?;
            push_reading(doubts, table, place, counts_next(members, index))?;
        }
    }
    Ok(())
}

/// Adds the name of an element if an earlier element of the dataset has it; `seen` has the names of
/// these, with their places.
///
/// # Errors
/// [`AllocError`] where there is no memory.
fn push_name_again<'a>(
    doubts: &mut Vec<Doubt<'a>>,
    seen: &mut BTreeMap<&'a str, FileTable>,
    element: &'a Table,
    place: FileTable,
) -> Result<(), AllocError> {
    let key = ClientKey::Name.text();
    let Some(value) = element.get(key) else {
        return Ok(());
    };
    let Some(name) = value.as_str() else {
        return Ok(());
    };
    if seen.insert(name, place)?.is_some() {
        doubts.push(Doubt {
            place,
            key,
            value,
            words: "an earlier element has the same",
        })?;
    }
    Ok(())
}

/// Adds as what an element is read if that stands over another type, or at a count.
///
/// # Errors
/// [`AllocError`] where there is no memory.
fn push_reading<'a>(
    doubts: &mut Vec<Doubt<'a>>,
    element: &'a Table,
    place: FileTable,
    is_count: bool,
) -> Result<(), AllocError> {
    let key = ClientKey::As.text();
    let Some(value) = element.get(key) else {
        return Ok(());
    };
    let Some(reading) = reading_of(value) else {
        return Ok(());
    };
    let is_over = value_at(element, Key::ElementType).is_some_and(|it| reading.is_over(it));
    let words = if !is_over {
        reading.wish()
    } else if is_count {
        "the count of an array stays a whole number"
    } else {
        return Ok(());
    };
    doubts.push(Doubt {
        place,
        key,
        value,
        words,
    })?;
    Ok(())
}

/// Whether the element after that of an index is an array that it counts.
fn counts_next(members: &[Value], index: usize) -> bool {
    match members.get(index.saturating_add(1)) {
        Some(next) => is_counted(next),
        None => false,
    }
}

/// Whether a member is an array of as many values as the element before it says.
fn is_counted(member: &Value) -> bool {
    match member.as_table() {
        Some(element) => number_at(element, Key::ElementSize) == 0,
        None => false,
    }
}
