//! Which datasets have values that all have the same number of bytes.

ghost use Rattle.std.specs.Prelude.{◌≡◌, ℕ, suc, length, replicate, false, IfOk};
ghost use Rattle.trdp_dataset.specs.Datasets.{passes};
ghost use Rattle.trdp_dataset.specs.FixedSizes.{all_fixed, is_fixed, fixed_row};

use crate::datasets::Datasets;
use crate::element::{Element, Form};
use std::alloc::{AllocError, Global};

/// Whether all values of a type have one length; `fixed` says it of each dataset in order.
fn form_fixed(datasets: &Datasets, fixed: &[bool], form: Form) -> bool
    requires { length fixed.now ≡ length datasets.now }
    ensures { (depth : ℕ) → fixed.now ≡ fixed_row datasets.now depth
        → result ≡ passes (is_fixed datasets.now depth) form }
{
    match form {
        Form::Nested(id) => match datasets.index_of(id) {
            Some(i) => fixed[i],
            None => false,
        },
        _ => true,
    }
}

/// Whether no element is an array of size 0, and all values of each one's type have one length.
fn all_fixed(datasets: &Datasets, fixed: &[bool], elements: &[Element]) -> bool
    requires { length fixed.now ≡ length datasets.now }
    ensures { (depth : ℕ) → fixed.now ≡ fixed_row datasets.now depth
        → result ≡ all_fixed (is_fixed datasets.now depth) elements.now }
{
    for element in elements {
        if element.size == 0 || !form_fixed(datasets, fixed, element.kind.form()) {
            return false;
        }
    }
    true
}

/// Whether all values of a dataset have one length, down to a depth one larger than that of
/// `fixed`.
#[tactic(auto, unfolding(crate::specs::FixedSizes::is_fixed))]
fn is_fixed(datasets: &Datasets, fixed: &[bool], id: u32) -> bool
    requires { length fixed.now ≡ length datasets.now }
    ensures { (depth : ℕ) → fixed.now ≡ fixed_row datasets.now depth
        → result ≡ is_fixed datasets.now (suc depth) id }
{
    match datasets.elements(id) {
        Some(elements) => all_fixed(datasets, fixed, elements),
        None => false,
    }
}

/// The same of each dataset in order.
fn one_deeper(alloc: Global, datasets: &Datasets, fixed: &[bool]) -> Result<Vec<bool>, AllocError>
    requires { length fixed.now ≡ length datasets.now }
    ensures len { IfOk result (λ next. length next.items ≡ length datasets.now) }
    ensures row { IfOk result (λ next. (depth : ℕ) → fixed.now ≡ fixed_row datasets.now depth
        → next.items ≡ fixed_row datasets.now (suc depth)) }
{
    let mut next = Vec::new(alloc);
    for i in 0..datasets.len() {
        next.push(is_fixed(datasets, fixed, datasets.id_at(i)))?;
    }
    Ok(next)
}

/// At depth 0 there is no value.
fn none_fixed(alloc: Global, datasets: &Datasets) -> Result<Vec<bool>, AllocError>
    ensures { IfOk result (λ fixed. fixed.items ≡ replicate (length datasets.now) false) }
{
    vec![in alloc; false; datasets.len()]
}

/// Of each dataset in order whether all its values have one length.
pub(crate) fn fixed_datasets(alloc: Global, datasets: &Datasets) -> Result<Vec<bool>, AllocError>
    ensures { IfOk result (λ fixed. fixed.items ≡ fixed_row datasets.now 5) }
{
    let mut fixed = none_fixed(alloc, datasets)?;
    for _ in 0..5u8 {
        fixed = one_deeper(alloc, datasets, &fixed)?;
    }
    Ok(fixed)
}
