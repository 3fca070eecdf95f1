//! The datasets of a file, which may have faults.

ghost use Rattle.std.specs.Prelude.{◌≡◌, map, IfOk};
ghost use Rattle.toml.specs.View.{table_view};
ghost use Rattle.trdp_dataset.specs.Elements.{form_of};
ghost use Rattle.trdp_dataset.specs.Datasets.{is_known, passes};
ghost use Rattle.trdp_dataset.specs.Positions.{items_at};
ghost use Rattle.trdp_dataset.specs.Misfits.{element_from, row_in, row_seen, file_rows};
ghost use Rattle.trdp_dataset.specs.Misfits.{rows_seen, known_among, sound_among, sound_elements};

use crate::datasets::Datasets;
use crate::element::{Element, Form};
use crate::fault::ConfigFault;
use crate::finding::{Cause, Finding};
use crate::key::Key;
use crate::place::{DatasetName, FileTable};
use crate::position::members_at;
use crate::read::{element_of, identifier_of};
use std::alloc::{AllocError, Global};
use toml::Table;

/// A dataset of a file, which may have faults.
#[derive(Drop)]
pub(crate) struct FileRow {
    /// Its name.
    pub(crate) name: DatasetName,
    /// Its identifier; None where it has none.
    pub(crate) id: Option<u32>,
    /// Its elements in order; None where the type isn't known.
    pub(crate) elements: Vec<Option<Element>>,
}

impl FileRow {
    ghost use Rattle.std.specs.Prelude.{◌≡◌, IfOk};
    ghost use Rattle.trdp_dataset.specs.Misfits.{row_seen, sound_elements};

    /// A fault of the dataset.
    pub(crate) fn finding<'a>(&self, fault: ConfigFault, cause: Cause<'a>) -> Finding<'a>
        ensures fault { result.fault ≡ fault }
    {
        Finding {
            fault,
            place: FileTable::Dataset(self.name),
            cause,
        }
    }

    /// A fault of one of its elements.
    pub(crate) fn element_finding<'a>(
        &self,
        index: usize,
        fault: ConfigFault,
        cause: Cause<'a>,
    ) -> Finding<'a>
        ensures fault { result.fault ≡ fault }
    {
        Finding {
            fault,
            place: FileTable::Element(self.name, index),
            cause,
        }
    }

    /// Its elements that are known, without those that are of datasets which aren't there.
    ///
    /// # Errors
    /// [`AllocError`] where there is no memory.
    #[tactic(auto, unfolding(crate::specs::Misfits::sound_elements))]
    pub(crate) fn sound(&self, alloc: Global, known: &Datasets) -> Result<Vec<Element>, AllocError>
        ensures value { IfOk result (λ elements.
            elements.items ≡ sound_elements known.now (row_seen self.now)) }
    {
        let elements = known_among(alloc, &self.elements)?;
        sound_among(alloc, known, &elements)
    }
}

/// The elements that are known.
///
/// # Errors
/// [`AllocError`] where there is no memory.
pub(crate) fn known_among(
    alloc: Global,
    elements: &[Option<Element>],
) -> Result<Vec<Element>, AllocError>
    ensures value { IfOk result (λ known. known.items ≡ known_among elements.now) }
{
    let mut known = Vec::new(alloc);
    for element in elements {
        if let Some(element) = element {
            known.push(*element)?;
        }
    }
    Ok(known)
}

/// Whether an element is no dataset, or is of one that is there.
fn is_sound(known: &Datasets, element: Element) -> bool
    ensures value { result ≡ passes (is_known known.now) (form_of element.kind) }
{
    match element.kind.form() {
        Form::Nested(id) => known.has(id),
        _ => true,
    }
}

/// The elements that are no datasets, or that are of datasets which are there.
///
/// # Errors
/// [`AllocError`] where there is no memory.
fn sound_among(
    alloc: Global,
    known: &Datasets,
    elements: &[Element],
) -> Result<Vec<Element>, AllocError>
    ensures value { IfOk result (λ sound. sound.items ≡ sound_among known.now elements.now) }
{
    let mut sound = Vec::new(alloc);
    for element in elements {
        if is_sound(known, *element) {
            sound.push(*element)?;
        }
    }
    Ok(sound)
}

/// The elements of a dataset; None where the type isn't known.
///
/// # Errors
/// [`AllocError`] where there is no memory.
fn read_elements(alloc: Global, dataset: &Table) -> Result<Vec<Option<Element>>, AllocError>
    ensures value { IfOk result (λ elements.
        elements.items ≡ map element_from (items_at Key.Elements (table_view dataset.now))) }
{
    let mut elements = Vec::new(alloc);
    for member in members_at(dataset, Key::Elements) {
        elements.push(element_of(member))?;
    }
    Ok(elements)
}

/// The dataset that a table is, at an index among the datasets of the file.
///
/// # Errors
/// [`AllocError`] where there is no memory.
#[tactic(auto, unfolding(crate::specs::Misfits::row_in))]
fn read_row(alloc: Global, table: &Table, index: usize) -> Result<FileRow, AllocError>
    ensures value { IfOk result (λ row. row_seen row ≡ row_in (table_view table.now)) }
{
    Ok(FileRow {
        name: DatasetName::of(table, index),
        id: identifier_of(table),
        elements: read_elements(alloc, table)?,
    })
}

/// The datasets of a file.
///
/// # Errors
/// [`AllocError`] where there is no memory.
#[tactic(auto, unfolding(crate::specs::Misfits::file_rows))]
pub(crate) fn read_rows(alloc: Global, top: &Table) -> Result<Vec<FileRow>, AllocError>
    ensures value { IfOk result (λ rows. rows_seen rows.items ≡ file_rows (table_view top.now)) }
{
    let mut rows = Vec::new(alloc);
    let members = members_at(top, Key::Dataset);
    for (index, member) in members.iter().enumerate() {
        if let Some(table) = member.as_table() {
            rows.push(read_row(alloc, table, index)?)?;
        }
    }
    Ok(rows)
}
