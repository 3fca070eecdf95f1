//! Whether bytes are a payload of a dataset. Nothing is built, and no memory is allocated.

ghost use Rattle.std.specs.Prelude.{◌≡◌, ◌↔◌, ℕ, ◌*◌, true, false};
ghost use Rattle.std.specs.Prelude.{drop, option_map, IsTrue, is_some};
ghost use Rattle.trdp_dataset.specs.Elements.{form_of, is_count};
ghost use Rattle.trdp_dataset.specs.Datasets.{passes, all_pass, all_counted};
ghost use Rattle.trdp_dataset.specs.Depths.{is_within};
ghost use Rattle.trdp_dataset.specs.Registries.{IsRegistry};
ghost use Rattle.trdp_marshal.specs.Items.{ItemModel};
ghost use Rattle.trdp_marshal.specs.Spells.{Fits};
ghost use Rattle.trdp_marshal.specs.Faults.{has_items};
ghost use Rattle.trdp_marshal.specs.Lengths.{rest_after, starts_counted};
ghost use Rattle.trdp_marshal.specs.Reading.{Reader, form_at, repeated_at, element_at, entries_at};
ghost use Rattle.trdp_marshal.specs.Reading.{dataset_at, count_after, skipped, reading};
ghost use Rattle.trdp_marshal.specs.Reading.{is_fitting_in};

use crate::number::{item_count, number};
use trdp_dataset::{DEPTH_MAX, Element, Form, Registry};

/// The bytes after `count` values of `size` bytes each, which aren't looked at; None where there
/// are fewer bytes.
#[tactic(auto, unfolding(crate::specs::Lengths::rest_after))]
fn skip_fixed(size: usize, count: u64, bytes: &[u8]) -> Option<&[u8]>
    ensures { option_map (λ rest. rest.now) result ≡ rest_after (count * size) bytes.now }
{
    let len = count.checked_mul(size as u64)?;
    if len > bytes.len() as u64 {
        return None;
    }
    let (_, rest) = bytes.split_at(len as usize);
    Some(rest)
}

/// Whether there is an element of that index and it is an array of size 0, whose items the entry
/// before it counts.
fn is_counted(elements: &[Element], index: usize) -> bool
    ensures { result ≡ starts_counted (drop index elements.now) }
{
    match elements.get(index) {
        Some(element) => element.size == 0,
        None => false,
    }
}

/// The number in the entry of an element that counts items, and the bytes after it.
fn read_count(element: Element, bytes: &[u8]) -> Option<(u64, &[u8])>
    requires { is_count element ≡ true }
    ensures { (nested : ℕ → Reader ItemModel) (count : ℕ)
        → option_map (λ x. (x.0, x.1.now)) result
        ≡ count_after
        (element_at (form_at nested (form_of element.kind)) element.size count bytes.now) }
{
    match element.kind.form() {
        Form::Unsigned(width) => number(width.len(), bytes),
        _ => None,
    }
}

/// The bytes after that many values of a type. Those of a basic type aren't looked at.
#[cycle(skip)]
fn skip_values<'a>(
    registry: &Registry,
    depth: u8,
    form: Form,
    count: u64,
    bytes: &'a [u8],
) -> Option<&'a [u8]>
    requires sound { IsRegistry registry.now }
    requires deep { passes (is_within registry.now depth) form ≡ true }
    ensures { option_map (λ rest. rest.now) result
        ≡ skipped (repeated_at (form_at (dataset_at registry.now depth) form) count bytes.now) }
{
    match form {
        Form::Unsigned(width) => skip_fixed(width.len(), count, bytes),
        Form::Signed(width) => skip_fixed(width.len(), count, bytes),
        Form::Time48 => skip_fixed(6, count, bytes),
        Form::Time64 => skip_fixed(8, count, bytes),
        Form::Nested(id) => skip_datasets(registry, depth, id, count, bytes),
    }
}

/// The bytes after that many values of a dataset, down to a depth; it is looked up once for all of
/// them. Each has a byte, so that a count beyond the bytes stops there.
#[cycle(skip)]
fn skip_datasets<'a>(
    registry: &Registry,
    depth: u8,
    id: u32,
    count: u64,
    bytes: &'a [u8],
) -> Option<&'a [u8]>
    requires sound { IsRegistry registry.now }
    requires deep { is_within registry.now depth id ≡ true }
    ensures { option_map (λ rest. rest.now) result
        ≡ skipped (repeated_at (dataset_at registry.now depth id) count bytes.now) }
{
    if let Some(size) = registry.fixed_size(id) {
        return skip_fixed(size, count, bytes);
    }
    let elements = registry.elements(id).unwrap();
    let mut rest = bytes;
    for _ in 0..count {
        rest = skip_elements(registry, depth - 1, elements, rest)?;
    }
    Some(rest)
}

/// The bytes after the entries of elements. A number in them is read only where it counts the
/// items of the entry after it.
#[cycle(skip)]
fn skip_elements<'a>(
    registry: &Registry,
    depth: u8,
    elements: &[Element],
    bytes: &'a [u8],
) -> Option<&'a [u8]>
    requires sound { IsRegistry registry.now }
    requires deep { all_pass (is_within registry.now depth) elements.now ≡ true }
    requires counted { all_counted false elements.now ≡ true }
    ensures { option_map (λ rest. rest.now) result
        ≡ skipped (entries_at (form_at (dataset_at registry.now depth)) elements.now 0 bytes.now) }
{
    let mut count = 0;
    let mut rest = bytes;
    for (i, element) in elements.iter().enumerate() {
        if is_counted(elements, i + 1) {
            let (number, next) = read_count(*element, rest)?;
            count = number;
            rest = next;
        } else {
            let values = item_count(*element, count);
            rest = skip_values(registry, depth, element.kind.form(), values, rest)?;
        }
    }
    Some(rest)
}

/// Whether the payloads of a dataset are items: where the registry has it, and it is not dataset
/// 0.
pub(crate) fn has_items(registry: &Registry, id: u32) -> bool
    ensures { result ≡ has_items registry.now id }
{
    id != 0 && registry.has(id)
}

/// Whether the bytes are those of an item of a dataset that the registry has. Where all its values
/// have one length, only the number of bytes is looked at.
pub(crate) fn fits_dataset(registry: &Registry, id: u32, bytes: &[u8]) -> bool
    ensures { result ≡ is_some (reading registry.now id bytes.now) }
{
    registry.sound();
    if let Some(size) = registry.fixed_size(id) {
        return bytes.len() == size;
    }
    let Some(elements) = registry.elements(id) else {
        return false;
    };
    match skip_elements(registry, DEPTH_MAX - 1, elements, bytes) {
        Some(rest) => rest.is_empty(),
        None => false,
    }
}

/// Whether the bytes are a payload of the dataset: any are of dataset 0, none are of an unknown
/// dataset, and else they must be those of some item, with none left over. No item is built and no
/// memory allocated; a count in the bytes is believed no further than the bytes go.
pub fn fits(registry: &Registry, id: u32, bytes: &[u8]) -> bool
    ensures value { result ≡ is_fitting_in registry.now id bytes.now }
    ensures meaning { IsTrue result ↔ Fits registry.now id bytes.now }
{
    id == 0 || fits_dataset(registry, id, bytes)
}
