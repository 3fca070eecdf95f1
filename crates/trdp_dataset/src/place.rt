//! The tables of a configuration file, as its author reads their names.

use crate::key::Key;
use crate::position::{members_at, node_in};
use crate::read::identifier_of;
use crate::value::items;
use std::fmt;
use toml::{Table, Value};

/// The key of the root that the clients read and the node ignores: the dataset of each comId.
pub(crate) const TELEGRAM_KEY: &str = "telegram";

/// A dataset of a file, by its name.
#[derive(Clone, Copy)]
pub(crate) struct DatasetName {
    /// Its index among the datasets of the file, from 0.
    pub(crate) index: usize,
    /// Its identifier; None where it has none, and its index is its name.
    id: Option<u32>,
}

impl DatasetName {
    /// The name of the dataset that a table is, at an index among the datasets of the file.
    pub(crate) fn of(table: &Table, index: usize) -> Self {
        DatasetName {
            index,
            id: identifier_of(table),
        }
    }
}

impl fmt::Display for DatasetName {
    fn fmt<W: fmt::Write>(&self, f: &mut fmt::Formatter<W>) -> fmt::Result {
        match self.id {
            Some(id) => write!(f, "dataset {id}"),
            None => write!(f, "the dataset at index {}", self.index),
        }
    }
}

/// A table of a file. Slots, elements, telegrams and indexes count from 0.
#[derive(Clone, Copy)]
pub(crate) enum FileTable {
    /// The file's root.
    Root,
    /// The table of the node.
    Node,
    /// The table of a slot, by its number.
    Slot(usize),
    /// The table of a dataset.
    Dataset(DatasetName),
    /// The table of an element of a dataset, by its index there.
    Element(DatasetName, usize),
    /// The table of a telegram, by its index.
    Telegram(usize),
}

impl FileTable {
    /// The table at the place in the first lines of a file; None where it isn't there yet.
    pub(crate) fn table_in(self, top: &Table) -> Option<&Table> {
        match self {
            FileTable::Root => Some(top),
            FileTable::Node => node_in(top),
            FileTable::Slot(slot) => members_at(top, Key::Slot).get(slot)?.as_table(),
            FileTable::Dataset(name) => dataset_in(top, name),
            FileTable::Element(name, index) => element_in(top, name, index),
            FileTable::Telegram(index) => telegrams_in(top).get(index)?.as_table(),
        }
    }
}

impl fmt::Display for FileTable {
    fn fmt<W: fmt::Write>(&self, f: &mut fmt::Formatter<W>) -> fmt::Result {
        match *self {
            FileTable::Root => f.write_str("the file's root"),
            FileTable::Node => f.write_str("node"),
            FileTable::Slot(slot) => write!(f, "slot {slot}"),
            FileTable::Dataset(dataset) => write!(f, "{dataset}"),
            FileTable::Element(dataset, index) => write!(f, "{dataset}, element {index}"),
            FileTable::Telegram(index) => write!(f, "telegram {index}"),
        }
    }
}

/// The table of a dataset, if it is there.
fn dataset_in(top: &Table, name: DatasetName) -> Option<&Table> {
    members_at(top, Key::Dataset).get(name.index)?.as_table()
}

/// The table of an element, if it is there.
fn element_in(top: &Table, name: DatasetName, index: usize) -> Option<&Table> {
    let dataset = dataset_in(top, name)?;
    members_at(dataset, Key::Elements).get(index)?.as_table()
}

/// The members of the array of telegrams; none where there is no array.
pub(crate) fn telegrams_in(top: &Table) -> &[Value] {
    match top.get(TELEGRAM_KEY) {
        Some(value) => items(value),
        None => &[],
    }
}
