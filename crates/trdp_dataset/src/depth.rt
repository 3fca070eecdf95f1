//! How deep datasets nest.

ghost use Rattle.std.specs.Prelude.{◌≡◌, ℕ, suc, None, Some, length};
ghost use Rattle.std.specs.Prelude.{replicate, false, IfOk, if◌then◌else◌};
ghost use Rattle.std.specs.List.{list_all};
ghost use Rattle.trdp_dataset.specs.Datasets.{passes, all_pass};
ghost use Rattle.trdp_dataset.specs.Depths.{is_within};
ghost use Rattle.trdp_dataset.specs.Stored.{within_row};
ghost use Rattle.trdp_dataset.specs.Faults.{too_deep_in};
ghost use Rattle.trdp_dataset.specs.declared.fault.ConfigFault.TheVariants.{TooDeep};

use crate::datasets::Datasets;
use crate::element::{Element, Form};
use std::alloc::{AllocError, Global};

/// How deep datasets may nest, the outermost included (profile).
pub const DEPTH_MAX: u8 = 5;

/// How deep a dataset may nest that is nested in another one.
pub(crate) const NESTED_MAX: u8 = DEPTH_MAX - 1;

/// Whether the dataset of a nested type passes; `within` says it of each dataset in order. Basic
/// types pass.
fn passes(datasets: &Datasets, within: &[bool], form: Form) -> bool
    requires { length within.now ≡ length datasets.now }
    ensures { (depth : ℕ) → within.now ≡ within_row datasets.now depth
        → result ≡ passes (is_within datasets.now depth) form }
{
    match form {
        Form::Nested(id) => match datasets.index_of(id) {
            Some(i) => within[i],
            None => false,
        },
        _ => true,
    }
}

/// Whether each dataset that the elements are of passes.
pub(crate) fn all_pass(datasets: &Datasets, within: &[bool], elements: &[Element]) -> bool
    requires { length within.now ≡ length datasets.now }
    ensures { (depth : ℕ) → within.now ≡ within_row datasets.now depth
        → result ≡ all_pass (is_within datasets.now depth) elements.now }
{
    for element in elements {
        if !passes(datasets, within, element.kind.form()) {
            return false;
        }
    }
    true
}

/// Whether a dataset is of a depth one larger than that of which `within` says it.
#[tactic(auto, unfolding(crate::specs::Depths::is_within))]
fn is_within(datasets: &Datasets, within: &[bool], id: u32) -> bool
    requires { length within.now ≡ length datasets.now }
    ensures { (depth : ℕ) → within.now ≡ within_row datasets.now depth
        → result ≡ is_within datasets.now (suc depth) id }
{
    match datasets.elements(id) {
        Some(elements) => all_pass(datasets, within, elements),
        None => false,
    }
}

/// Of each dataset whether it is of a depth one larger than that of which `within` says it.
fn one_deeper(alloc: Global, datasets: &Datasets, within: &[bool]) -> Result<Vec<bool>, AllocError>
    requires { length within.now ≡ length datasets.now }
    ensures len { IfOk result (λ next. length next.items ≡ length datasets.now) }
    ensures row { IfOk result (λ next. (depth : ℕ) → within.now ≡ within_row datasets.now depth
        → next.items ≡ within_row datasets.now (suc depth)) }
{
    let mut next = Vec::new(alloc);
    for i in 0..datasets.len() {
        next.push(is_within(datasets, within, datasets.id_at(i)))?;
    }
    Ok(next)
}

/// At depth 0 there is no dataset.
fn none_within(alloc: Global, datasets: &Datasets) -> Result<Vec<bool>, AllocError>
    ensures { IfOk result (λ within. within.items ≡ replicate (length datasets.now) false) }
{
    vec![in alloc; false; datasets.len()]
}

/// Whether each is true.
fn all_true(within: &[bool]) -> bool
    ensures { result ≡ list_all (λ is_within. is_within) within.now }
{
    within.iter().all(|is_within| *is_within)
}

/// Of each dataset whether it may be nested in another one: whether it is of a depth one smaller than
/// the greatest.
pub(crate) fn nestable(alloc: Global, datasets: &Datasets) -> Result<Vec<bool>, AllocError>
    ensures len { IfOk result (λ within. length within.items ≡ length datasets.now) }
    ensures row { IfOk result (λ within. within.items ≡ within_row datasets.now 4) }
{
    let mut within = none_within(alloc, datasets)?;
    for _ in 0..NESTED_MAX {
        within = one_deeper(alloc, datasets, &within)?;
    }
    Ok(within)
}

/// Whether a dataset nests deeper than 5.
#[tactic(auto, unfolding(crate::specs::Faults::too_deep_in))]
pub(crate) fn too_deep(alloc: Global, datasets: &Datasets) -> Result<bool, AllocError>
    ensures value { IfOk result (λ deep.
        too_deep_in datasets.now ≡ (if deep then Some TooDeep else None)) }
{
    let nestable = nestable(alloc, datasets)?;
    let within = one_deeper(alloc, datasets, &nestable)?;
    Ok(!all_true(&within))
}
