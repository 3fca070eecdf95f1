//! Where the datasets of a file don't fit together.

ghost use Rattle.std.specs.Prelude.{◌≡◌, ◌++◌, [], not, false, map, flat_map, IfOk, OnOk};
ghost use Rattle.toml.specs.View.{table_view};
ghost use Rattle.trdp_dataset.specs.declared.fault.ConfigFault.TheVariants.{NoCount};
ghost use Rattle.trdp_dataset.specs.Findings.{faults_of, listed_unless};
ghost use Rattle.trdp_dataset.specs.Misfits.{row_seen, rows_seen, file_rows, row_dataset};
ghost use Rattle.trdp_dataset.specs.Misfits.{added, firsts, twice_at, twices, known_in};
ghost use Rattle.trdp_dataset.specs.Misfits.{missing_of, is_uncounted, may_count, counts_missing};
ghost use Rattle.trdp_dataset.specs.Misfits.{unfit_of, sound_dataset};
ghost use Rattle.trdp_dataset.specs.Misfits.{sound_in, deep_of, big_of, misfits};

use crate::check::lacks_count;
use crate::datasets::Datasets;
use crate::element::Element;
use crate::fault::ConfigFault;
use crate::finding::{Cause, Finding};
use crate::nested::Nested;
use crate::row::{FileRow, known_among, read_rows};
use std::alloc::{AllocError, Global};
use toml::Table;

/// Adds the faults of the datasets of a file that belong to no key.
///
/// # Errors
/// [`AllocError`] where there is no memory.
pub(crate) fn push_misfits<'a>(
    alloc: Global,
    found: &mut Vec<Finding<'a>>,
    top: &'a Table,
) -> Result<(), AllocError>
    ensures faults { OnOk result (faults_of found.new.items
        ≡ faults_of found.old.items ++ misfits (file_rows (table_view top.now))) }
{
    let rows = read_rows(alloc, top)?;
    push_misfits_of(alloc, found, &rows)?;
    Ok(())
}

/// Adds the faults of datasets that belong to no key.
///
/// # Errors
/// [`AllocError`] where there is no memory.
fn push_misfits_of(
    alloc: Global,
    found: &mut Vec<Finding<'_>>,
    rows: &[FileRow],
) -> Result<(), AllocError>
    ensures faults { OnOk result (faults_of found.new.items
        ≡ faults_of found.old.items ++ misfits (rows_seen rows.now)) }
{
    let known = push_twice(alloc, found, rows)?;
    push_unfit(found, &known, rows)?;
    let datasets = sound_datasets(alloc, &known, rows)?;
    let sound = Nested::new(alloc, datasets)?;
    push_too_deep(alloc, found, &known, &sound, rows)?;
    push_too_big(alloc, found, &known, &sound, rows)?;
    Ok(())
}

/// Adds each dataset whose identifier an earlier one has. The first of each identifier, with their
/// known elements.
///
/// # Errors
/// [`AllocError`] where there is no memory.
#[tactic(auto, unfolding(crate::specs::Misfits::known_in))]
fn push_twice(
    alloc: Global,
    found: &mut Vec<Finding<'_>>,
    rows: &[FileRow],
) -> Result<Datasets, AllocError>
    ensures known { IfOk result (λ known. known ≡ known_in (rows_seen rows.now)) }
    ensures faults { OnOk result (faults_of found.new.items
        ≡ faults_of found.old.items ++ twices [] (map row_dataset (rows_seen rows.now))) }
{
    let mut known = Datasets::new(alloc);
    for row in rows {
        push_if_twice(alloc, found, &mut known, row)?;
    }
    Ok(known)
}

/// Adds a dataset to those that are known, or its fault where its identifier is there.
///
/// # Errors
/// [`AllocError`] where there is no memory.
fn push_if_twice(
    alloc: Global,
    found: &mut Vec<Finding<'_>>,
    known: &mut Datasets,
    row: &FileRow,
) -> Result<(), AllocError>
    ensures known { OnOk result (known.new ≡ added known.old (row_dataset (row_seen row.now))) }
    ensures faults { OnOk result (faults_of found.new.items
        ≡ faults_of found.old.items ++ twice_at known.old (row_dataset (row_seen row.now))) }
{
    let Some(id) = row.id else {
        return Ok(());
    };
    if !known.push(id, known_among(alloc, &row.elements)?)? {
        found.push(row.finding(ConfigFault::TwiceId, Cause::TwiceId))?;
    }
    Ok(())
}

/// Adds the faults of the elements of each dataset.
///
/// # Errors
/// [`AllocError`] where there is no memory.
fn push_unfit(
    found: &mut Vec<Finding<'_>>,
    known: &Datasets,
    rows: &[FileRow],
) -> Result<(), AllocError>
    ensures faults { OnOk result (faults_of found.new.items
        ≡ faults_of found.old.items ++ flat_map (unfit_of known.now) (rows_seen rows.now)) }
{
    for row in rows {
        push_unfit_of(found, known, row)?;
    }
    Ok(())
}

/// Adds the faults of the elements of a dataset.
///
/// # Errors
/// [`AllocError`] where there is no memory.
#[tactic(auto, unfolding(crate::specs::Misfits::unfit_of))]
fn push_unfit_of(
    found: &mut Vec<Finding<'_>>,
    known: &Datasets,
    row: &FileRow,
) -> Result<(), AllocError>
    ensures faults { OnOk result (faults_of found.new.items
        ≡ faults_of found.old.items ++ unfit_of known.now (row_seen row.now)) }
{
    push_unknown(found, known, row)?;
    push_uncounted(found, row)
}

/// Adds each element of a dataset that is of a dataset which isn't there.
///
/// # Errors
/// [`AllocError`] where there is no memory.
fn push_unknown(
    found: &mut Vec<Finding<'_>>,
    known: &Datasets,
    row: &FileRow,
) -> Result<(), AllocError>
    ensures faults { OnOk result (faults_of found.new.items ≡ faults_of found.old.items
        ++ flat_map (missing_of known.now) (row_seen row.now).elements) }
{
    let elements = row.elements.as_slice();
    for (index, element) in elements.iter().enumerate() {
        push_if_unknown(found, known, row, index, element)?;
    }
    Ok(())
}

/// Adds the element of a dataset at an index, if it is of a dataset which isn't there.
///
/// # Errors
/// [`AllocError`] where there is no memory.
fn push_if_unknown(
    found: &mut Vec<Finding<'_>>,
    known: &Datasets,
    row: &FileRow,
    index: usize,
    element: &Option<Element>,
) -> Result<(), AllocError>
    ensures faults { OnOk result (faults_of found.new.items
        ≡ faults_of found.old.items ++ missing_of known.now element.now) }
{
    let Some(element) = element else {
        return Ok(());
    };
    if let Some(id) = element.nested() {
        if !known.has(id) {
            let fault = ConfigFault::NoDataset(id);
            found.push(row.element_finding(index, fault, Cause::NoDataset(id)))?;
        }
    }
    Ok(())
}

/// Adds each element of a dataset that is an array of size 0 and has no count before it. One whose
/// type isn't known may be meant as a count.
///
/// # Errors
/// [`AllocError`] where there is no memory.
fn push_uncounted(found: &mut Vec<Finding<'_>>, row: &FileRow) -> Result<(), AllocError>
    ensures faults { OnOk result (faults_of found.new.items
        ≡ faults_of found.old.items ++ counts_missing false (row_seen row.now).elements) }
{
    let elements = row.elements.as_slice();
    let mut is_counted = false;
    for (index, element) in elements.iter().enumerate() {
        push_if_uncounted(found, row, index, is_counted, element)?;
        is_counted = may_count(element);
    }
    Ok(())
}

/// Adds the element of a dataset at an index, if it is known to be an array of size 0 without a
/// count before it.
///
/// # Errors
/// [`AllocError`] where there is no memory.
fn push_if_uncounted(
    found: &mut Vec<Finding<'_>>,
    row: &FileRow,
    index: usize,
    is_counted: bool,
    element: &Option<Element>,
) -> Result<(), AllocError>
    ensures faults { OnOk result (faults_of found.new.items ≡ faults_of found.old.items
        ++ listed_unless (not (is_uncounted is_counted element.now)) NoCount) }
{
    let Some(element) = element else {
        return Ok(());
    };
    if lacks_count(is_counted, *element) {
        found.push(row.element_finding(index, ConfigFault::NoCount, Cause::NoCount))?;
    }
    Ok(())
}

/// Whether an element counts the items of an array after it, or isn't known and so may be meant to.
fn may_count(element: &Option<Element>) -> bool
    ensures value { result ≡ may_count element.now }
{
    match element {
        Some(element) => element.is_count(),
        None => true,
    }
}

/// The first dataset of each identifier, with those of its elements that are known, and of datasets
/// which are there. How deep they nest, and how long their zero values are, can be said of these.
///
/// # Errors
/// [`AllocError`] where there is no memory.
#[tactic(auto, unfolding(crate::specs::Misfits::sound_in))]
fn sound_datasets(alloc: Global, known: &Datasets, rows: &[FileRow]) -> Result<Datasets, AllocError>
    ensures value { IfOk result (λ sound. sound ≡ sound_in known.now (rows_seen rows.now)) }
{
    let mut sound = Datasets::new(alloc);
    for row in rows {
        push_sound(alloc, &mut sound, known, row)?;
    }
    Ok(sound)
}

/// Adds a dataset, if it has an identifier that isn't there.
///
/// # Errors
/// [`AllocError`] where there is no memory.
fn push_sound(
    alloc: Global,
    sound: &mut Datasets,
    known: &Datasets,
    row: &FileRow,
) -> Result<(), AllocError>
    ensures value { OnOk result
        (sound.new ≡ added sound.old (sound_dataset known.now (row_seen row.now))) }
{
    let Some(id) = row.id else {
        return Ok(());
    };
    sound.push(id, row.sound(alloc, known)?)?;
    Ok(())
}

/// Adds each dataset that nests too deep.
///
/// # Errors
/// [`AllocError`] where there is no memory.
fn push_too_deep(
    alloc: Global,
    found: &mut Vec<Finding<'_>>,
    known: &Datasets,
    sound: &Nested,
    rows: &[FileRow],
) -> Result<(), AllocError>
    ensures faults { OnOk result (faults_of found.new.items ≡ faults_of found.old.items
        ++ flat_map (deep_of known.now sound.now) (rows_seen rows.now)) }
{
    for row in rows {
        push_if_deep(alloc, found, known, sound, row)?;
    }
    Ok(())
}

/// Adds a dataset, if it nests too deep.
///
/// # Errors
/// [`AllocError`] where there is no memory.
#[tactic(auto, unfolding(crate::specs::Misfits::deep_of))]
fn push_if_deep(
    alloc: Global,
    found: &mut Vec<Finding<'_>>,
    known: &Datasets,
    sound: &Nested,
    row: &FileRow,
) -> Result<(), AllocError>
    ensures faults { OnOk result (faults_of found.new.items
        ≡ faults_of found.old.items ++ deep_of known.now sound.now (row_seen row.now)) }
{
    let elements = row.sound(alloc, known)?;
    if !sound.is_shallow(&elements) {
        found.push(row.finding(ConfigFault::TooDeep, Cause::TooDeep))?;
    }
    Ok(())
}

/// Adds each dataset whose zero value is too long, of those that nest no deeper than they may.
///
/// # Errors
/// [`AllocError`] where there is no memory.
fn push_too_big(
    alloc: Global,
    found: &mut Vec<Finding<'_>>,
    known: &Datasets,
    sound: &Nested,
    rows: &[FileRow],
) -> Result<(), AllocError>
    ensures faults { OnOk result (faults_of found.new.items ≡ faults_of found.old.items
        ++ flat_map (big_of known.now sound.now) (rows_seen rows.now)) }
{
    for row in rows {
        push_if_big(alloc, found, known, sound, row)?;
    }
    Ok(())
}

/// Adds a dataset, if its zero value is too long and it nests no deeper than it may.
///
/// # Errors
/// [`AllocError`] where there is no memory.
#[tactic(auto, unfolding(crate::specs::Misfits::big_of))]
fn push_if_big(
    alloc: Global,
    found: &mut Vec<Finding<'_>>,
    known: &Datasets,
    sound: &Nested,
    row: &FileRow,
) -> Result<(), AllocError>
    ensures faults { OnOk result (faults_of found.new.items
        ≡ faults_of found.old.items ++ big_of known.now sound.now (row_seen row.now)) }
{
    let elements = row.sound(alloc, known)?;
    if sound.is_big(&elements) {
        let size = sound.size(&elements);
        found.push(row.finding(ConfigFault::TooBig, Cause::TooBig(size)))?;
    }
    Ok(())
}
