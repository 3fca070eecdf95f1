//! Whether datasets fit together.

ghost use Rattle.std.specs.Prelude.{◌≡◌, false, not, nat_le, find, IfOk};
ghost use Rattle.std.specs.List.{list_all};
ghost use Rattle.trdp_dataset.specs.Stored.{zero_sizes_of};
ghost use Rattle.trdp_dataset.specs.Datasets.{is_known, all_counted};
ghost use Rattle.trdp_dataset.specs.Misfits.{lacks_count};
ghost use Rattle.trdp_dataset.specs.Limits.{value_limit};
ghost use Rattle.trdp_dataset.specs.Faults.{nested_ids, no_dataset_in, no_count_in};
ghost use Rattle.trdp_dataset.specs.Faults.{too_big_in, fit_fault, RefusedAs};

use crate::datasets::Datasets;
use crate::depth::too_deep;
use crate::element::Element;
use crate::fault::ConfigFault;
use crate::size::zero_sizes;
use std::alloc::Global;
use trdp_base::MD_PAYLOAD_MAX;

/// The most bytes of a dataset's zero value: what a message carries (IEC 61375-2-3:2015, Annex A).
pub(crate) const VALUE_MAX: u64 = MD_PAYLOAD_MAX as u64;

/// The first dataset that the elements are of and that isn't there.
fn unknown_in(datasets: &Datasets, elements: &[Element]) -> Option<u32>
    ensures value { result
        ≡ find (λ id. not (is_known datasets.now id)) (nested_ids elements.now) }
{
    elements
        .iter()
        .filter_map(|element| element.nested())
        .find(|id| !datasets.has(*id))
}

/// The first dataset that is nested somewhere and isn't there.
#[tactic(auto, unfolding(crate::specs::Faults::no_dataset_in))]
pub(crate) fn no_dataset(datasets: &Datasets) -> Option<ConfigFault>
    ensures value { result ≡ no_dataset_in datasets.now }
{
    for i in 0..datasets.len() {
        match unknown_in(datasets, datasets.elements_at(i)) {
            Some(id) => return Some(ConfigFault::NoDataset(id)),
            None => {}
        }
    }
    None
}

/// Whether an element is an array of size 0 without a count of its items before it.
pub(crate) fn lacks_count(is_counted: bool, element: Element) -> bool
    ensures { result ≡ lacks_count is_counted element }
{
    element.size == 0 && !is_counted
}

/// Whether each array of size 0 comes after an element that counts its items.
fn is_counted(elements: &[Element]) -> bool
    ensures value { result ≡ all_counted false elements.now }
{
    let mut counted = false;
    for element in elements {
        if lacks_count(counted, *element) {
            return false;
        }
        counted = element.is_count();
    }
    true
}

/// Whether an array of size 0 anywhere doesn't come after an element that counts its items.
#[tactic(auto, unfolding(crate::specs::Faults::no_count_in))]
pub(crate) fn no_count(datasets: &Datasets) -> Option<ConfigFault>
    ensures value { result ≡ no_count_in datasets.now }
{
    for i in 0..datasets.len() {
        if !is_counted(datasets.elements_at(i)) {
            return Some(ConfigFault::NoCount);
        }
    }
    None
}

/// Whether a zero value of that many bytes is small enough.
pub(crate) fn is_small(size: u64) -> bool
    ensures { result ≡ nat_le size value_limit }
{
    size <= VALUE_MAX
}

/// Whether each size is small enough.
fn all_small(sizes: &[u64]) -> bool
    ensures { result ≡ list_all (λ size. nat_le size value_limit) sizes.now }
{
    sizes.iter().all(|size| is_small(*size))
}

/// The zero sizes of datasets in order, if each is small enough.
#[tactic(auto, unfolding(crate::specs::Faults::too_big_in))]
fn small_sizes(alloc: Global, datasets: &Datasets) -> Result<Vec<u64>, ConfigFault>
    ensures sizes { IfOk result (λ sizes. sizes.items ≡ zero_sizes_of datasets.now) }
    ensures answers { RefusedAs (too_big_in datasets.now) result }
{
    let sizes = zero_sizes(alloc, datasets)?;
    if all_small(&sizes) {
        Ok(sizes)
    } else {
        Err(ConfigFault::TooBig)
    }
}

/// The zero sizes of datasets that fit together, in order.
pub(crate) fn fit_together(alloc: Global, datasets: &Datasets) -> Result<Vec<u64>, ConfigFault>
    ensures sizes { IfOk result (λ sizes. sizes.items ≡ zero_sizes_of datasets.now) }
    ensures answers { RefusedAs (fit_fault datasets.now) result }
{
    match no_dataset(datasets) {
        Some(fault) => return Err(fault),
        None => {}
    }
    match no_count(datasets) {
        Some(fault) => return Err(fault),
        None => {}
    }
    if too_deep(alloc, datasets)? {
        return Err(ConfigFault::TooDeep);
    }
    small_sizes(alloc, datasets)
}
