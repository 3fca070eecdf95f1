//! The positions of a configuration file at which a key is present or missing.

ghost use Rattle.std.specs.Prelude.{◌≡◌, ◌++◌, IfOk, OnOk, option_map, map, Some};
ghost use Rattle.std.specs.List.{filter_map};
ghost use Rattle.toml.specs.View.{view, table_view};
ghost use Rattle.trdp_dataset.specs.Positions.{value_at, tables_at, items_at, position_at};
ghost use Rattle.trdp_dataset.specs.Positions.{positions_at};
ghost use Rattle.trdp_dataset.specs.Positions.{positions_of_all, node_in, positions_of_node};
ghost use Rattle.trdp_dataset.specs.Positions.{node_positions, slot_positions, element_positions};
ghost use Rattle.trdp_dataset.specs.Positions.{dataset_positions, all_positions};
ghost use Rattle.trdp_dataset.specs.Seen.{position_seen, positions_seen, tables_seen};

use crate::key::Key;
use crate::value::items;
use std::alloc::{AllocError, Global};
use toml::{Table, Value};

/// The keys of the table of the node, in the order in which faults are looked for.
pub(crate) const NODE_KEYS: [Key; 8] = [
    Key::Address,
    Key::PdPort,
    Key::MdPort,
    Key::OperatorPort,
    Key::SpareControlPorts,
    Key::ControlAddress,
    Key::Groups,
    Key::Ttl,
];

/// The keys of the table of a slot, in that order.
pub(crate) const SLOT_KEYS: [Key; 7] = [
    Key::Publishers,
    Key::Subscriptions,
    Key::Requesters,
    Key::Listeners,
    Key::Callers,
    Key::Repliers,
    Key::ControlPort,
];

/// The keys of the table of a dataset, in that order.
pub(crate) const DATASET_KEYS: [Key; 2] = [Key::DatasetId, Key::Elements];

/// The keys of the table of an element, in that order.
pub(crate) const ELEMENT_KEYS: [Key; 2] = [Key::ElementType, Key::ElementSize];

/// A key, and what the file has there.
#[derive(Clone, Copy)]
pub(crate) struct Position<'a> {
    /// The key.
    pub(crate) key: Key,
    /// What the table has at the key; None where the key isn't there.
    pub(crate) value: Option<&'a Value>,
}

/// What a table has at a key.
pub(crate) fn value_at(table: &Table, key: Key) -> Option<&Value>
    ensures value { option_map (λ v. view v.now) result ≡ value_at key (table_view table.now) }
{
    table.get(key.text())
}

/// The members of the array at a key of a table.
#[tactic(auto, unfolding(crate::specs::Positions::tables_at, crate::specs::Positions::items_at))]
pub(crate) fn members_at(table: &Table, key: Key) -> &[Value]
    ensures value { tables_seen result.now ≡ tables_at key (table_view table.now) }
    ensures items { map view result.now ≡ items_at key (table_view table.now) }
{
    match value_at(table, key) {
        Some(value) => items(value),
        None => &[],
    }
}

/// Adds the positions of keys in a table.
#[tactic(auto, unfolding(crate::specs::Positions::positions_at))]
fn push_positions<'a>(
    positions: &mut Vec<Position<'a>>,
    table: &'a Table,
    keys: &[Key],
) -> Result<(), AllocError>
    ensures { OnOk result (positions_seen positions.new.items ≡ positions_seen positions.old.items
        ++ positions_at keys.now (table_view table.now)) }
{
    for key in keys {
        positions.push(Position {
            key: *key,
            value: value_at(table, *key),
        })?;
    }
    Ok(())
}

/// Adds the positions of keys in each table of an array.
#[tactic(auto, unfolding(crate::specs::Positions::positions_of_all))]
fn push_all<'a>(
    positions: &mut Vec<Position<'a>>,
    members: &'a [Value],
    keys: &[Key],
) -> Result<(), AllocError>
    ensures { OnOk result (positions_seen positions.new.items ≡ positions_seen positions.old.items
        ++ positions_of_all keys.now (tables_seen members.now)) }
{
    for member in members {
        if let Some(table) = member.as_table() {
            push_positions(positions, table, keys)?;
        }
    }
    Ok(())
}

/// Adds the positions of the elements of datasets.
#[tactic(auto, unfolding(crate::specs::Positions::element_positions))]
fn push_elements<'a>(
    positions: &mut Vec<Position<'a>>,
    datasets: &'a [Value],
) -> Result<(), AllocError>
    ensures { OnOk result (positions_seen positions.new.items ≡ positions_seen positions.old.items
        ++ element_positions (tables_seen datasets.now)) }
{
    for dataset in datasets {
        if let Some(table) = dataset.as_table() {
            push_all(positions, members_at(table, Key::Elements), &ELEMENT_KEYS)?;
        }
    }
    Ok(())
}

/// Adds the positions of the datasets, and then those of all elements.
#[tactic(auto, unfolding(crate::specs::Positions::dataset_positions))]
fn push_datasets<'a>(positions: &mut Vec<Position<'a>>, top: &'a Table) -> Result<(), AllocError>
    ensures { OnOk result (positions_seen positions.new.items ≡ positions_seen positions.old.items
        ++ dataset_positions (table_view top.now)) }
{
    push_positions(positions, top, &[Key::Dataset])?;
    let datasets = members_at(top, Key::Dataset);
    push_all(positions, datasets, &DATASET_KEYS)?;
    push_elements(positions, datasets)
}

/// Adds the positions of the slots.
#[tactic(auto, unfolding(crate::specs::Positions::slot_positions))]
fn push_slots<'a>(positions: &mut Vec<Position<'a>>, top: &'a Table) -> Result<(), AllocError>
    ensures { OnOk result (positions_seen positions.new.items ≡ positions_seen positions.old.items
        ++ slot_positions (table_view top.now)) }
{
    push_positions(positions, top, &[Key::Slot])?;
    push_all(positions, members_at(top, Key::Slot), &SLOT_KEYS)
}

/// The table of the node.
pub(crate) fn node_in(top: &Table) -> Option<&Table>
    ensures value { option_map (λ t. table_view t.now) result ≡ node_in (table_view top.now) }
{
    match value_at(top, Key::Node) {
        Some(value) => value.as_table(),
        None => None,
    }
}

/// Adds the positions of the node.
#[tactic(auto, unfolding(crate::specs::Positions::node_positions))]
fn push_node<'a>(positions: &mut Vec<Position<'a>>, top: &'a Table) -> Result<(), AllocError>
    ensures { OnOk result (positions_seen positions.new.items ≡ positions_seen positions.old.items
        ++ node_positions (table_view top.now)) }
{
    push_positions(positions, top, &[Key::Node])?;
    match node_in(top) {
        Some(node) => push_positions(positions, node, &NODE_KEYS),
        None => Ok(()),
    }
}

/// The positions of the datasets of a file, in the order in which faults are looked for.
pub(crate) fn dataset_positions(alloc: Global, top: &Table) -> Result<Vec<Position<'_>>, AllocError>
    ensures { IfOk result (λ positions.
        positions_seen positions.items ≡ dataset_positions (table_view top.now)) }
{
    let mut positions = Vec::new(alloc);
    push_datasets(&mut positions, top)?;
    Ok(positions)
}

/// All positions of a file, in the order in which faults are looked for.
#[tactic(auto, unfolding(crate::specs::Positions::all_positions))]
pub(crate) fn all_positions(alloc: Global, top: &Table) -> Result<Vec<Position<'_>>, AllocError>
    ensures { IfOk result (λ positions.
        positions_seen positions.items ≡ all_positions (table_view top.now)) }
{
    let mut positions = Vec::new(alloc);
    push_node(&mut positions, top)?;
    push_slots(&mut positions, top)?;
    push_datasets(&mut positions, top)?;
    Ok(positions)
}
