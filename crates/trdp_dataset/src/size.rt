//! How many bytes the zero values of datasets have.

ghost use Rattle.std.specs.Prelude.{◌≡◌, ◌+◌, ◌*◌, ℕ, suc, min, length, replicate, IfOk};
ghost use Rattle.trdp_dataset.specs.Elements.{width_len, form_of};
ghost use Rattle.trdp_dataset.specs.ZeroSizes.{form_size, entries_size, dataset_size};
ghost use Rattle.trdp_dataset.specs.Limits.{size_cap};
ghost use Rattle.trdp_dataset.specs.Stored.{size_row};

use crate::datasets::Datasets;
use crate::depth::NESTED_MAX;
use crate::element::{Element, Form};
use std::alloc::{AllocError, Global};

/// The sum with `count` times a size, at most 2^64 - 1.
fn added(total: u64, count: u16, size: u64) -> u64
    ensures { result ≡ min (total + count * size) size_cap }
{
    total.saturating_add(u64::from(count).saturating_mul(size))
}

/// The zero value of a type; `sizes` has those of the datasets in order.
#[tactic(auto, unfolding(crate::specs::ZeroSizes::form_size))]
fn form_size(datasets: &Datasets, sizes: &[u64], form: Form) -> u64
    requires { length sizes.now ≡ length datasets.now }
    ensures { (depth : ℕ) → sizes.now ≡ size_row datasets.now depth
        → result ≡ min (form_size (dataset_size datasets.now depth) form) size_cap }
{
    match form {
        Form::Unsigned(width) | Form::Signed(width) => width.len() as u64,
        Form::Time48 => 6,
        Form::Time64 => 8,
        Form::Nested(id) => match datasets.index_of(id) {
            Some(i) => sizes[i],
            None => 0,
        },
    }
}

/// The zero values of elements, one after the other.
pub(crate) fn entries_size(datasets: &Datasets, sizes: &[u64], elements: &[Element]) -> u64
    requires { length sizes.now ≡ length datasets.now }
    ensures { (depth : ℕ) → sizes.now ≡ size_row datasets.now depth
        → result
        ≡ min (entries_size (form_size (dataset_size datasets.now depth)) elements.now) size_cap }
{
    let mut total = 0;
    for element in elements {
        let size = form_size(datasets, sizes, element.kind.form());
        total = added(total, element.size, size);
    }
    total
}

/// The zero value of a dataset, down to a depth one larger than that of `sizes`.
#[tactic(auto, unfolding(crate::specs::ZeroSizes::dataset_size))]
fn dataset_size(datasets: &Datasets, sizes: &[u64], id: u32) -> u64
    requires { length sizes.now ≡ length datasets.now }
    ensures { (depth : ℕ) → sizes.now ≡ size_row datasets.now depth
        → result ≡ min (dataset_size datasets.now (suc depth) id) size_cap }
{
    match datasets.elements(id) {
        Some(elements) => entries_size(datasets, sizes, elements),
        None => 0,
    }
}

/// The zero values of the datasets, down to a depth one larger than that of `sizes`.
fn one_deeper(alloc: Global, datasets: &Datasets, sizes: &[u64]) -> Result<Vec<u64>, AllocError>
    requires { length sizes.now ≡ length datasets.now }
    ensures len { IfOk result (λ next. length next.items ≡ length datasets.now) }
    ensures row { IfOk result
        (λ next. (depth : ℕ) → sizes.now ≡ size_row datasets.now depth
        → next.items ≡ size_row datasets.now (suc depth)) }
{
    let mut next = Vec::new(alloc);
    for i in 0..datasets.len() {
        next.push(dataset_size(datasets, sizes, datasets.id_at(i)))?;
    }
    Ok(next)
}

/// At depth 0 nothing counts.
fn no_sizes(alloc: Global, datasets: &Datasets) -> Result<Vec<u64>, AllocError>
    ensures { IfOk result (λ sizes. sizes.items ≡ replicate (length datasets.now) 0) }
{
    vec![in alloc; 0; datasets.len()]
}

/// The zero values of the datasets in order, where they are nested in others: down to a depth one
/// smaller than the greatest.
pub(crate) fn nested_sizes(alloc: Global, datasets: &Datasets) -> Result<Vec<u64>, AllocError>
    ensures len { IfOk result (λ sizes. length sizes.items ≡ length datasets.now) }
    ensures row { IfOk result (λ sizes. sizes.items ≡ size_row datasets.now 4) }
{
    let mut sizes = no_sizes(alloc, datasets)?;
    for _ in 0..NESTED_MAX {
        sizes = one_deeper(alloc, datasets, &sizes)?;
    }
    Ok(sizes)
}

/// How many bytes the zero values of the datasets have, in order; at most 2^64 - 1 each.
pub(crate) fn zero_sizes(alloc: Global, datasets: &Datasets) -> Result<Vec<u64>, AllocError>
    ensures { IfOk result (λ sizes. sizes.items ≡ size_row datasets.now 5) }
{
    let nested = nested_sizes(alloc, datasets)?;
    one_deeper(alloc, datasets, &nested)
}
