//! How many bytes an item has.

ghost use Rattle.std.specs.Prelude.{◌≡◌, ◌+◌, min};
ghost use Rattle.trdp_dataset.specs.Elements.{width_len, form_of};
ghost use Rattle.trdp_marshal.specs.Items.{model_of, models_in};
ghost use Rattle.trdp_marshal.specs.Spelling.{unsigned_spelling, signed_spelling, time48_spelling};
ghost use Rattle.trdp_marshal.specs.Spelling.{time64_spelling, form_spelling, repeated_spelling};
ghost use Rattle.trdp_marshal.specs.Spelling.{entry_spelling, entries_spelling, dataset_spelling};
ghost use Rattle.trdp_marshal.specs.Lengths.{measured};

use crate::code::{signed_code, unsigned_code};
use crate::item::Item;
use crate::number::item_count;
use trdp_dataset::{Element, Form, Registry, Width};

/// The length of an unsigned number of that width.
fn measure_unsigned(width: Width, item: &Item) -> Option<usize>
    ensures { result ≡ measured (unsigned_spelling (width_len width) (model_of item.now)) }
{
    match unsigned_code(width, item) {
        Some(_) => Some(width.len()),
        None => None,
    }
}

/// The length of a signed number of that width.
fn measure_signed(width: Width, item: &Item) -> Option<usize>
    ensures { result ≡ measured (signed_spelling (width_len width) (model_of item.now)) }
{
    match signed_code(width, item) {
        Some(_) => Some(width.len()),
        None => None,
    }
}

/// The length of seconds and ticks.
#[tactic(auto, unfolding(crate::specs::Spelling::time48_spelling, crate::specs::Spelling::number_spelling))]
fn measure_time48(item: &Item) -> Option<usize>
    ensures { result ≡ measured (time48_spelling (model_of item.now)) }
{
    match item {
        Item::T48(seconds, ticks) => {
            let _ranges = (*seconds, *ticks);
            Some(6)
        }
        _ => None,
    }
}

/// The length of seconds and microseconds.
#[tactic(auto, unfolding(crate::specs::Spelling::time64_spelling, crate::specs::Spelling::number_spelling))]
fn measure_time64(item: &Item) -> Option<usize>
    ensures { result ≡ measured (time64_spelling (model_of item.now)) }
{
    match item {
        Item::T64(seconds, micros) => {
            let _ranges = (*seconds, *micros);
            Some(8)
        }
        _ => None,
    }
}

/// The length in place of all that are too long: one more than the most bytes that one message
/// carries.
pub(crate) const TOO_LONG: usize = 65_389;

/// The sum of two lengths, or `TOO_LONG` where it is greater.
fn added(total: usize, len: usize) -> usize
    ensures { result ≡ min (total + len) 65389 }
{
    if total >= TOO_LONG || len >= TOO_LONG || total + len >= TOO_LONG {
        TOO_LONG
    } else {
        total + len
    }
}

/// The length of one value of a type.
#[cycle(measure)]
#[tactic(auto, unfolding(crate::specs::Spelling::form_spelling))]
fn measure_form(registry: &Registry, depth: u8, form: Form, item: &Item) -> Option<usize>
    ensures { result
        ≡ measured (form_spelling (dataset_spelling registry.now depth) form (model_of item.now)) }
{
    match form {
        Form::Unsigned(width) => measure_unsigned(width, item),
        Form::Signed(width) => measure_signed(width, item),
        Form::Time48 => measure_time48(item),
        Form::Time64 => measure_time64(item),
        Form::Nested(id) => measure_dataset(registry, depth, id, item),
    }
}

/// The length of exactly `count` values of a type.
#[cycle(measure)]
fn measure_repeated(
    registry: &Registry,
    depth: u8,
    form: Form,
    count: u64,
    items: &[Item],
) -> Option<usize>
    ensures { result
        ≡ measured (repeated_spelling (form_spelling (dataset_spelling registry.now depth) form)
        count (models_in items.now)) }
{
    if items.len() as u64 != count {
        return None;
    }
    let mut total = 0;
    for item in items {
        let len = measure_form(registry, depth, form, item)?;
        total = added(total, len);
    }
    Some(total)
}

/// The length of the entry of an element, where the entry before it counts `count` items.
#[cycle(measure)]
fn measure_entry(
    registry: &Registry,
    depth: u8,
    element: Element,
    count: u64,
    item: &Item,
) -> Option<usize>
    ensures { result
        ≡ measured (entry_spelling
        (form_spelling (dataset_spelling registry.now depth) (form_of element.kind))
        element.size count (model_of item.now)) }
{
    let form = element.kind.form();
    if element.size == 1 {
        return measure_form(registry, depth, form, item);
    }
    let count = item_count(element, count);
    match item.items() {
        Some(items) => measure_repeated(registry, depth, form, count, items),
        None => None,
    }
}

/// The length of the entries of elements, one of each.
#[cycle(measure)]
fn measure_entries(
    registry: &Registry,
    depth: u8,
    elements: &[Element],
    items: &[Item],
) -> Option<usize>
    ensures { result
        ≡ measured (entries_spelling (form_spelling (dataset_spelling registry.now depth))
        elements.now 0 (models_in items.now)) }
{
    if elements.len() != items.len() {
        return None;
    }
    let mut total = 0;
    let mut count = 0;
    for (i, element) in elements.iter().enumerate() {
        let item = &items[i];
        let len = measure_entry(registry, depth, *element, count, item)?;
        count = item.count();
        total = added(total, len);
    }
    Some(total)
}

/// How many bytes an item of a dataset down to a depth has, or `TOO_LONG` for more; None where
/// it has none.
#[cycle(measure)]
pub(crate) fn measure_dataset(registry: &Registry, depth: u8, id: u32, item: &Item) -> Option<usize>
    ensures { result ≡ measured (dataset_spelling registry.now depth id (model_of item.now)) }
{
    if depth == 0 {
        return None;
    }
    match registry.elements(id) {
        Some(elements) => match item.items() {
            Some(items) => measure_entries(registry, depth - 1, elements, items),
            None => None,
        },
        None => None,
    }
}
