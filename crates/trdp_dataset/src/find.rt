//! All faults of a file.

ghost use Rattle.std.specs.Prelude.{◌≡◌, ◌++◌, option_map, IfOk, OnOk};
ghost use Rattle.toml.specs.View.{view, table_view};
ghost use Rattle.toml.specs.Data.{as_table};
ghost use Rattle.trdp_dataset.specs.Keys.{slot_keys, dataset_keys, element_keys};
ghost use Rattle.trdp_dataset.specs.Positions.{position_at, positions_at, node_positions};
ghost use Rattle.trdp_dataset.specs.Positions.{slot_positions, positions_of_all, tables_at};
ghost use Rattle.trdp_dataset.specs.Positions.{element_positions, dataset_positions};
ghost use Rattle.trdp_dataset.specs.Configs.{config_fault_of};
ghost use Rattle.trdp_dataset.specs.Findings.{faults_of, least_of, faults_at, all_faults};
ghost use Rattle.trdp_dataset.specs.Findings.{key_faults, positions_if, elements_if};

use crate::fault::ConfigFault;
use crate::finding::{Cause, Finding};
use crate::key::{Key, Wanted};
use crate::members::{array_in, most_members, push_members};
use crate::misfit::push_misfits;
use crate::place::{DatasetName, FileTable};
use crate::position::{
    DATASET_KEYS, ELEMENT_KEYS, NODE_KEYS, SLOT_KEYS, members_at, node_in, value_at,
};
use crate::value::items;
use std::alloc::{AllocError, Global};
use toml::{Table, Value};

/// The faults of a file, in the order in which faults are looked for. The first of the lowest
/// number is the fault for which the file is refused.
///
/// # Errors
/// [`AllocError`] where there is no memory.
pub(crate) fn find_all(alloc: Global, top: &Table) -> Result<Vec<Finding<'_>>, AllocError>
    ensures first { IfOk result (λ found.
        least_of (faults_of found.items) ≡ config_fault_of (table_view top.now)) }
{
    let mut found = Vec::new(alloc);
    push_node(&mut found, top)?;
    push_slots(&mut found, top)?;
    push_datasets(&mut found, top)?;
    push_misfits(alloc, &mut found, top)?;
    Ok(found)
}

/// Adds the faults at some keys of a table.
///
/// # Errors
/// [`AllocError`] where there is no memory.
fn push_table<'a>(
    found: &mut Vec<Finding<'a>>,
    table: &'a Table,
    place: FileTable,
    keys: &[Key],
) -> Result<(), AllocError>
    ensures faults { OnOk result (faults_of found.new.items ≡ faults_of found.old.items
        ++ all_faults (positions_at keys.now (table_view table.now))) }
{
    for key in keys {
        push_position(found, table, place, *key)?;
    }
    Ok(())
}

/// Adds the faults at a key of a table, if there are any.
///
/// # Errors
/// [`AllocError`] where there is no memory.
fn push_position<'a>(
    found: &mut Vec<Finding<'a>>,
    table: &'a Table,
    place: FileTable,
    key: Key,
) -> Result<(), AllocError>
    ensures faults { OnOk result (faults_of found.new.items ≡ faults_of found.old.items
        ++ faults_at (position_at (table_view table.now) key)) }
{
    let value = value_at(table, key);
    match key.fault(value) {
        Some(fault) => push_key(found, fault, place, key, value),
        None => Ok(()),
    }
}

/// Adds the faults at a key that has one: those of the members where an array of numbers or of
/// addresses is expected and there is an array.
///
/// # Errors
/// [`AllocError`] where there is no memory.
#[tactic(auto, unfolding(crate::specs::Findings::key_faults))]
fn push_key<'a>(
    found: &mut Vec<Finding<'a>>,
    fault: ConfigFault,
    place: FileTable,
    key: Key,
    value: Option<&'a Value>,
) -> Result<(), AllocError>
    ensures faults { OnOk result (faults_of found.new.items ≡ faults_of found.old.items
        ++ key_faults key (option_map (λ v. view v.now) value.entry) fault) }
{
    if let Some(most) = most_members(key) {
        if let Some(members) = array_in(value) {
            return push_members(found, place, key, most, members);
        }
    }
    found.push(Finding {
        fault,
        place,
        cause: cause_at(key, fault, value),
    })?;
    Ok(())
}

/// What is wrong at a key with that fault.
fn cause_at(key: Key, fault: ConfigFault, value: Option<&Value>) -> Cause<'_> {
    match (value, key.wanted()) {
        (None, _) => Cause::Absent(key),
        (Some(value), Wanted::Tables(most)) if fault == ConfigFault::TooMany => {
            Cause::TooMany(key, items(value).len(), most)
        }
        (Some(value), _) => Cause::Unwanted(key, value),
    }
}

/// Adds the faults at the keys of the node.
///
/// # Errors
/// [`AllocError`] where there is no memory.
fn push_node<'a>(found: &mut Vec<Finding<'a>>, top: &'a Table) -> Result<(), AllocError>
    ensures faults { OnOk result (faults_of found.new.items ≡ faults_of found.old.items
        ++ all_faults (node_positions (table_view top.now))) }
{
    push_table(found, top, FileTable::Root, &[Key::Node])?;
    match node_in(top) {
        Some(node) => push_table(found, node, FileTable::Node, &NODE_KEYS),
        None => Ok(()),
    }
}

/// Adds the faults at the keys of the slots.
///
/// # Errors
/// [`AllocError`] where there is no memory.
fn push_slots<'a>(found: &mut Vec<Finding<'a>>, top: &'a Table) -> Result<(), AllocError>
    ensures faults { OnOk result (faults_of found.new.items ≡ faults_of found.old.items
        ++ all_faults (slot_positions (table_view top.now))) }
{
    push_table(found, top, FileTable::Root, &[Key::Slot])?;
    push_slot_tables(found, top)
}

/// Adds the faults at the keys of each slot.
///
/// # Errors
/// [`AllocError`] where there is no memory.
fn push_slot_tables<'a>(found: &mut Vec<Finding<'a>>, top: &'a Table) -> Result<(), AllocError>
    ensures faults { OnOk result (faults_of found.new.items ≡ faults_of found.old.items
        ++ all_faults (positions_of_all slot_keys (tables_at Key.Slot (table_view top.now)))) }
{
    let members = members_at(top, Key::Slot);
    for (slot, member) in members.iter().enumerate() {
        push_slot(found, member, slot)?;
    }
    Ok(())
}

/// Adds the faults at the keys of a slot, if the member of the array is a table.
///
/// # Errors
/// [`AllocError`] where there is no memory.
fn push_slot<'a>(
    found: &mut Vec<Finding<'a>>,
    member: &'a Value,
    slot: usize,
) -> Result<(), AllocError>
    ensures faults { OnOk result (faults_of found.new.items ≡ faults_of found.old.items
        ++ all_faults (positions_if slot_keys (as_table (view member.now)))) }
{
    match member.as_table() {
        Some(table) => push_table(found, table, FileTable::Slot(slot), &SLOT_KEYS),
        None => Ok(()),
    }
}

/// Adds the faults at the keys of the datasets, and then those of their elements.
///
/// # Errors
/// [`AllocError`] where there is no memory.
fn push_datasets<'a>(found: &mut Vec<Finding<'a>>, top: &'a Table) -> Result<(), AllocError>
    ensures faults { OnOk result (faults_of found.new.items ≡ faults_of found.old.items
        ++ all_faults (dataset_positions (table_view top.now))) }
{
    push_table(found, top, FileTable::Root, &[Key::Dataset])?;
    push_dataset_tables(found, top)?;
    push_elements(found, top)
}

/// Adds the faults at the keys of each dataset, those of its elements left out.
///
/// # Errors
/// [`AllocError`] where there is no memory.
fn push_dataset_tables<'a>(found: &mut Vec<Finding<'a>>, top: &'a Table) -> Result<(), AllocError>
    ensures faults { OnOk result (faults_of found.new.items ≡ faults_of found.old.items
        ++ all_faults (positions_of_all dataset_keys
        (tables_at Key.Dataset (table_view top.now)))) }
{
    let members = members_at(top, Key::Dataset);
    for (index, member) in members.iter().enumerate() {
        push_dataset(found, member, index)?;
    }
    Ok(())
}

/// Adds the faults at the keys of a dataset, if the member of the array is a table.
///
/// # Errors
/// [`AllocError`] where there is no memory.
fn push_dataset<'a>(
    found: &mut Vec<Finding<'a>>,
    member: &'a Value,
    index: usize,
) -> Result<(), AllocError>
    ensures faults { OnOk result (faults_of found.new.items ≡ faults_of found.old.items
        ++ all_faults (positions_if dataset_keys (as_table (view member.now)))) }
{
    match member.as_table() {
        Some(table) => {
            let place = FileTable::Dataset(DatasetName::of(table, index));
            push_table(found, table, place, &DATASET_KEYS)
        }
        None => Ok(()),
    }
}

/// Adds the faults at the keys of the elements of all datasets.
///
/// # Errors
/// [`AllocError`] where there is no memory.
fn push_elements<'a>(found: &mut Vec<Finding<'a>>, top: &'a Table) -> Result<(), AllocError>
    ensures faults { OnOk result (faults_of found.new.items ≡ faults_of found.old.items
        ++ all_faults (element_positions (tables_at Key.Dataset (table_view top.now)))) }
{
    let members = members_at(top, Key::Dataset);
    for (index, member) in members.iter().enumerate() {
        push_elements_at(found, member, index)?;
    }
    Ok(())
}

/// Adds the faults at the keys of the elements of a dataset, if the member of the array is a table.
///
/// # Errors
/// [`AllocError`] where there is no memory.
fn push_elements_at<'a>(
    found: &mut Vec<Finding<'a>>,
    member: &'a Value,
    index: usize,
) -> Result<(), AllocError>
    ensures faults { OnOk result (faults_of found.new.items ≡ faults_of found.old.items
        ++ all_faults (elements_if (as_table (view member.now)))) }
{
    match member.as_table() {
        Some(table) => push_elements_of(found, table, DatasetName::of(table, index)),
        None => Ok(()),
    }
}

/// Adds the faults at the keys of the elements of a dataset.
///
/// # Errors
/// [`AllocError`] where there is no memory.
fn push_elements_of<'a>(
    found: &mut Vec<Finding<'a>>,
    dataset: &'a Table,
    name: DatasetName,
) -> Result<(), AllocError>
    ensures faults { OnOk result (faults_of found.new.items ≡ faults_of found.old.items
        ++ all_faults (positions_of_all element_keys
        (tables_at Key.Elements (table_view dataset.now)))) }
{
    let members = members_at(dataset, Key::Elements);
    for (index, member) in members.iter().enumerate() {
        push_element(found, member, name, index)?;
    }
    Ok(())
}

/// Adds the faults at the keys of an element, if the member of the array is a table.
///
/// # Errors
/// [`AllocError`] where there is no memory.
fn push_element<'a>(
    found: &mut Vec<Finding<'a>>,
    member: &'a Value,
    name: DatasetName,
    index: usize,
) -> Result<(), AllocError>
    ensures faults { OnOk result (faults_of found.new.items ≡ faults_of found.old.items
        ++ all_faults (positions_if element_keys (as_table (view member.now)))) }
{
    match member.as_table() {
        Some(table) => push_table(found, table, FileTable::Element(name, index), &ELEMENT_KEYS),
        None => Ok(()),
    }
}
