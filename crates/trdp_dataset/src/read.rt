//! Numbers, addresses and datasets as a file has them.

ghost use Rattle.std.specs.Prelude.{◌≡◌, ◌≤◌, ◌++◌, false, map, option_map};
ghost use Rattle.std.specs.Prelude.{option_and_then, None, IfOk, OnOk, IfErr};
ghost use Rattle.std.specs.List.{filter_map};
ghost use Rattle.toml.specs.Data.{as_table};
ghost use Rattle.toml.specs.View.{view, table_view};
ghost use Rattle.trdp_dataset.specs.Keys.{wanted_by, default_of};
ghost use Rattle.trdp_dataset.specs.Values.{IsAllowed, member_in, member_address_in};
ghost use Rattle.trdp_dataset.specs.Values.{identifier_in};
ghost use Rattle.trdp_dataset.specs.Positions.{value_at, tables_at};
ghost use Rattle.trdp_dataset.specs.Seen.{tables_seen};
ghost use Rattle.trdp_dataset.specs.Faults.{has_twice, IsFaultOf, twice_id_in};
ghost use Rattle.trdp_dataset.specs.Adding.{AddsDataset, twice_fault};
ghost use Rattle.trdp_dataset.specs.Configs.{number_of, numbers_of, addresses_of, natural_at};
ghost use Rattle.trdp_dataset.specs.Configs.{element_in};
ghost use Rattle.trdp_dataset.specs.Configs.{elements_in, dataset_in, datasets_in};

use crate::datasets::Datasets;
use crate::element::Element;
use crate::fault::ConfigFault;
use crate::key::Key;
use crate::position::{members_at, value_at};
use crate::value::{identifier, items, kind};
use std::alloc::{AllocError, Global};
use toml::{Table, Value};

/// The number of a key whose value was looked for: the key's default where there is no number in
/// the key's range.
#[tactic(auto, unfolding(crate::specs::Configs::number_of))]
pub(crate) fn number_of(key: Key, found: Option<&Value>) -> u16
    ensures value { result ≡ number_of key (option_map (λ v. view v.now) found.entry) }
    ensures range { IsAllowed (wanted_by key) (default_of key) → IsAllowed (wanted_by key) result }
{
    match found {
        Some(value) => match key.wanted().number(value) {
            Some(number) => number,
            None => key.default_number(),
        },
        None => key.default_number(),
    }
}

/// The numbers of an array at a key: its members that are in the key's range.
fn numbers_among(alloc: Global, key: Key, members: &[Value]) -> Result<Vec<u16>, AllocError>
    ensures value { IfOk result (λ numbers.
        numbers.items ≡ filter_map (member_in (wanted_by key)) (map view members.now)) }
{
    let mut numbers = Vec::new(alloc);
    for member in members {
        if let Some(number) = key.wanted().member(member) {
            numbers.push(number)?;
        }
    }
    Ok(numbers)
}

/// The numbers of a key whose array was looked for: its members that are in the key's range; there
/// are none where there is no array.
#[tactic(auto, unfolding(crate::specs::Configs::numbers_of))]
pub(crate) fn numbers_of(
    alloc: Global,
    key: Key,
    found: Option<&Value>,
) -> Result<Vec<u16>, AllocError>
    ensures value { IfOk result (λ numbers.
        numbers.items ≡ numbers_of key (option_map (λ v. view v.now) found.entry)) }
{
    match found {
        Some(value) => numbers_among(alloc, key, items(value)),
        None => Ok(Vec::new(alloc)),
    }
}

/// The addresses of an array at a key, in host order: its members that are in the key's range.
fn addresses_among(alloc: Global, key: Key, members: &[Value]) -> Result<Vec<u32>, AllocError>
    ensures value { IfOk result (λ addresses.
        addresses.items ≡ filter_map (member_address_in (wanted_by key)) (map view members.now)) }
{
    let mut addresses = Vec::new(alloc);
    for member in members {
        if let Some(address) = key.wanted().member_address(member) {
            addresses.push(address)?;
        }
    }
    Ok(addresses)
}

/// The addresses of a key whose array was looked for, in host order: its members that are in the
/// key's range; there are none where there is no array.
#[tactic(auto, unfolding(crate::specs::Configs::addresses_of))]
pub(crate) fn addresses_of(
    alloc: Global,
    key: Key,
    found: Option<&Value>,
) -> Result<Vec<u32>, AllocError>
    ensures value { IfOk result (λ addresses.
        addresses.items ≡ addresses_of key (option_map (λ v. view v.now) found.entry)) }
{
    match found {
        Some(value) => addresses_among(alloc, key, items(value)),
        None => Ok(Vec::new(alloc)),
    }
}

/// The number at a key of a table.
pub(crate) fn number_at(table: &Table, key: Key) -> u16
    ensures value { result ≡ natural_at key (table_view table.now) }
    ensures range { IsAllowed (wanted_by key) (default_of key) → IsAllowed (wanted_by key) result }
{
    number_of(key, value_at(table, key))
}

/// The element of a dataset that a table is; None where its type isn't known. A size that is no
/// number in range counts as 1.
#[tactic(auto, unfolding(crate::specs::Configs::element_in))]
pub(crate) fn element_in(table: &Table) -> Option<Element>
    ensures value { result ≡ element_in (table_view table.now) }
{
    match value_at(table, Key::ElementType) {
        Some(value) => match kind(value) {
            Some(kind) => Some(Element {
                kind,
                size: number_at(table, Key::ElementSize),
            }),
            None => None,
        },
        None => None,
    }
}

/// The element that a member of an array is.
pub(crate) fn element_of(member: &Value) -> Option<Element>
    ensures value { result ≡ option_and_then element_in (as_table (view member.now)) }
{
    match member.as_table() {
        Some(table) => element_in(table),
        None => None,
    }
}

/// The elements of a dataset.
#[tactic(auto, unfolding(crate::specs::Configs::elements_in))]
fn elements_in(alloc: Global, dataset: &Table) -> Result<Vec<Element>, AllocError>
    ensures value { IfOk result (λ elements.
        elements.items ≡ elements_in (table_view dataset.now)) }
{
    let mut elements = Vec::new(alloc);
    for member in members_at(dataset, Key::Elements) {
        if let Some(element) = element_of(member) {
            elements.push(element)?;
        }
    }
    Ok(elements)
}

/// The identifier of the dataset that a table is; None where it has none that is in range.
pub(crate) fn identifier_of(dataset: &Table) -> Option<u32>
    ensures value { result
        ≡ option_and_then identifier_in (value_at Key.DatasetId (table_view dataset.now)) }
{
    match value_at(dataset, Key::DatasetId) {
        Some(value) => identifier(value),
        None => None,
    }
}

/// Adds the dataset that a member of an array is, if it is a table with an identifier.
#[tactic(auto, unfolding(crate::specs::Configs::dataset_in))]
fn push_dataset(alloc: Global, datasets: &mut Datasets, member: &Value) -> Result<(), ConfigFault>
    ensures added { OnOk result (AddsDataset datasets.old datasets.new
        (option_and_then dataset_in (as_table (view member.now)))) }
    ensures fault { IfErr result (λ fault. IsFaultOf fault
        (twice_fault datasets.old (option_and_then dataset_in (as_table (view member.now))))) }
{
    let Some(dataset) = member.as_table() else {
        return Ok(());
    };
    let Some(id) = identifier_of(dataset) else {
        return Ok(());
    };
    let elements = elements_in(alloc, dataset)?;
    if datasets.push(id, elements)? {
        Ok(())
    } else {
        Err(ConfigFault::TwiceId)
    }
}

/// The datasets of a file, if no two have one identifier.
#[tactic(auto, unfolding(crate::specs::Configs::datasets_in, crate::specs::Faults::twice_id_in))]
pub(crate) fn datasets_in(alloc: Global, top: &Table) -> Result<Datasets, ConfigFault>
    ensures value { IfOk result (λ datasets. datasets ≡ datasets_in (table_view top.now)) }
    ensures once { OnOk result (twice_id_in (datasets_in (table_view top.now)) ≡ None) }
    ensures fault { IfErr result (λ fault.
        IsFaultOf fault (twice_id_in (datasets_in (table_view top.now)))) }
{
    let mut datasets = Datasets::new(alloc);
    for member in members_at(top, Key::Dataset) {
        push_dataset(alloc, &mut datasets, member)?;
    }
    Ok(datasets)
}
