//! Bytes of items.

ghost use Rattle.std.specs.Prelude.{◌≡◌, ◌≤◌, ◌↔◌, ◌++◌, length, IfOk, OnOk, Some, Err, IsTrue};
ghost use Rattle.byteorder.specs.Endian.{big_bytes};
ghost use Rattle.trdp_dataset.specs.Elements.{width_len, form_of};
ghost use Rattle.trdp_marshal.specs.Items.{model_of, models_in};
ghost use Rattle.trdp_marshal.specs.Spelling.{unsigned_spelling, signed_spelling};
ghost use Rattle.trdp_marshal.specs.Spelling.{time48_spelling, time64_spelling, form_spelling};
ghost use Rattle.trdp_marshal.specs.Spelling.{repeated_spelling, entry_spelling};
ghost use Rattle.trdp_marshal.specs.Spelling.{entries_spelling, dataset_spelling, spelling};
ghost use Rattle.trdp_marshal.specs.Spells.{Spells, HasBytes, IsTooLong};
ghost use Rattle.trdp_marshal.specs.Lengths.{AppendsSpelling};
ghost use Rattle.trdp_marshal.specs.Faults.{has_items, FailsAs, encode_fault};

use crate::code::{signed_code, unsigned_code};
use crate::fault::MarshalFault;
use crate::item::Item;
use crate::measure::{TOO_LONG, measure_dataset};
use crate::number::item_count;
use crate::payload::has_items;
use std::alloc::{AllocError, Global};
use trdp_dataset::{DEPTH_MAX, Element, Form, Registry, Width};

/// Appends the lowest bytes of a number, the highest of them first.
fn push_number(out: &mut Vec<u8>, n: u64, len: usize) -> Result<(), AllocError>
    requires { len ≤ 8 }
    ensures { OnOk result (out.new.items ≡ out.old.items ++ big_bytes len n) }
{
    let bytes = n.to_be_bytes();
    let (_, low) = bytes.split_at(8 - len);
    out.extend_from_slice(low)
}

/// An unsigned number.
fn write_unsigned(width: Width, item: &Item, out: &mut Vec<u8>) -> Result<(), AllocError>
    ensures { OnOk result
        (AppendsSpelling (unsigned_spelling (width_len width) (model_of item.now))
        out.old.items out.new.items) }
{
    match unsigned_code(width, item) {
        Some(n) => push_number(out, n, width.len()),
        None => Ok(()),
    }
}

/// A signed number.
fn write_signed(width: Width, item: &Item, out: &mut Vec<u8>) -> Result<(), AllocError>
    ensures { OnOk result
        (AppendsSpelling (signed_spelling (width_len width) (model_of item.now))
        out.old.items out.new.items) }
{
    match signed_code(width, item) {
        Some(n) => push_number(out, n, width.len()),
        None => Ok(()),
    }
}

/// Seconds and ticks.
#[tactic(auto, unfolding(crate::specs::Spelling::time48_spelling, crate::specs::Spelling::number_spelling))]
fn write_time48(item: &Item, out: &mut Vec<u8>) -> Result<(), AllocError>
    ensures { OnOk result
        (AppendsSpelling (time48_spelling (model_of item.now))
        out.old.items out.new.items) }
{
    match item {
        Item::T48(seconds, ticks) => {
            push_number(out, u64::from(*seconds), 4)?;
            push_number(out, u64::from(*ticks), 2)
        }
        _ => Ok(()),
    }
}

/// Seconds and microseconds.
#[tactic(auto, unfolding(crate::specs::Spelling::time64_spelling, crate::specs::Spelling::number_spelling))]
fn write_time64(item: &Item, out: &mut Vec<u8>) -> Result<(), AllocError>
    ensures { OnOk result
        (AppendsSpelling (time64_spelling (model_of item.now))
        out.old.items out.new.items) }
{
    match item {
        Item::T64(seconds, micros) => {
            push_number(out, u64::from(*seconds), 4)?;
            push_number(out, u64::from(*micros), 4)
        }
        _ => Ok(()),
    }
}

/// One value of a type. Like the functions below, it writes nothing of use where the item is no
/// such value: its caller has measured the whole item first.
#[cycle(write)]
#[tactic(auto, unfolding(crate::specs::Spelling::form_spelling))]
fn write_form(
    registry: &Registry,
    depth: u8,
    form: Form,
    item: &Item,
    out: &mut Vec<u8>,
) -> Result<(), AllocError>
    ensures { OnOk result
        (AppendsSpelling
        (form_spelling (dataset_spelling registry.now depth) form (model_of item.now))
        out.old.items out.new.items) }
{
    match form {
        Form::Unsigned(width) => write_unsigned(width, item, out),
        Form::Signed(width) => write_signed(width, item, out),
        Form::Time48 => write_time48(item, out),
        Form::Time64 => write_time64(item, out),
        Form::Nested(id) => write_dataset(registry, depth, id, item, out),
    }
}

/// The values of an array, one after the other.
#[cycle(write)]
fn write_repeated(
    registry: &Registry,
    depth: u8,
    form: Form,
    count: u64,
    items: &[Item],
    out: &mut Vec<u8>,
) -> Result<(), AllocError>
    ensures { OnOk result
        (AppendsSpelling
        (repeated_spelling (form_spelling (dataset_spelling registry.now depth) form)
        count (models_in items.now))
        out.old.items out.new.items) }
{
    for item in items {
        write_form(registry, depth, form, item, out)?;
    }
    Ok(())
}

/// The entry of an element, where the entry before it counts `count` items.
#[cycle(write)]
fn write_entry(
    registry: &Registry,
    depth: u8,
    element: Element,
    count: u64,
    item: &Item,
    out: &mut Vec<u8>,
) -> Result<(), AllocError>
    ensures { OnOk result
        (AppendsSpelling (entry_spelling
        (form_spelling (dataset_spelling registry.now depth) (form_of element.kind))
        element.size count (model_of item.now))
        out.old.items out.new.items) }
{
    let form = element.kind.form();
    if element.size == 1 {
        return write_form(registry, depth, form, item, out);
    }
    let count = item_count(element, count);
    match item.items() {
        Some(items) => write_repeated(registry, depth, form, count, items, out),
        None => Ok(()),
    }
}

/// The entries of elements, one of each.
#[cycle(write)]
fn write_entries(
    registry: &Registry,
    depth: u8,
    elements: &[Element],
    items: &[Item],
    out: &mut Vec<u8>,
) -> Result<(), AllocError>
    requires { length elements.now ≡ length items.now }
    ensures { OnOk result
        (AppendsSpelling (entries_spelling (form_spelling (dataset_spelling registry.now depth))
        elements.now 0 (models_in items.now))
        out.old.items out.new.items) }
{
    let mut count = 0;
    for (i, element) in elements.iter().enumerate() {
        let item = &items[i];
        write_entry(registry, depth, *element, count, item, out)?;
        count = item.count();
    }
    Ok(())
}

/// An item of a dataset, down to a depth.
#[cycle(write)]
fn write_dataset(
    registry: &Registry,
    depth: u8,
    id: u32,
    item: &Item,
    out: &mut Vec<u8>,
) -> Result<(), AllocError>
    ensures { OnOk result
        (AppendsSpelling (dataset_spelling registry.now depth id (model_of item.now))
        out.old.items out.new.items) }
{
    if depth == 0 {
        return Ok(());
    }
    match registry.elements(id) {
        Some(elements) => match item.items() {
            Some(items) => {
                if elements.len() != items.len() {
                    return Ok(());
                }
                write_entries(registry, depth - 1, elements, items, out)
            }
            None => Ok(()),
        },
        None => Ok(()),
    }
}

/// What [`encode`] returns. The item is measured before any allocation.
fn encoded(
    alloc: Global,
    registry: &Registry,
    id: u32,
    item: &Item,
) -> Result<Vec<u8>, MarshalFault>
    ensures value { IfOk result (λ bytes. Spells registry.now id (model_of item.now) bytes.items) }
    ensures spelling { IfOk result (λ bytes. spelling registry.now id (model_of item.now)
        ≡ Some bytes.items) }
    ensures fault { FailsAs result (encode_fault registry.now id (model_of item.now)) }
{
    if !has_items(registry, id) {
        return Err(MarshalFault::NoDataset);
    }
    match measure_dataset(registry, DEPTH_MAX, id, item) {
        Some(len) => {
            if len == TOO_LONG {
                return Err(MarshalFault::TooLong);
            }
            let mut bytes = Vec::with_capacity(alloc, len)?;
            write_dataset(registry, DEPTH_MAX, id, item, &mut bytes)?;
            Ok(bytes)
        }
        None => Err(MarshalFault::Shape),
    }
}

/// The bytes of an item of a dataset, at most 65,388, packed as IEC 61375-2-3 sends them.
///
/// # Errors
///
/// Each is found before any allocation, in this order:
/// - `NoDataset`: no dataset has that identifier, or it is 0, of which any bytes are a payload.
/// - `Shape`: the item is no value of the dataset. An entry is of another kind or out of its
///   type's range, or a list has not as many items as it should; an array of size 0 should have
///   as many as the entry before it says.
/// - `TooLong`: there are more than 65,388 bytes.
/// - `OutOfMemory`: there is no memory for the bytes.
pub fn encode(
    alloc: Global,
    registry: &Registry,
    id: u32,
    item: &Item,
) -> Result<Vec<u8>, MarshalFault>
    ensures value { IfOk result (λ bytes. Spells registry.now id (model_of item.now) bytes.items) }
    ensures spelling { IfOk result (λ bytes. spelling registry.now id (model_of item.now)
        ≡ Some bytes.items) }
    ensures unknown { (result ≡ Err MarshalFault.NoDataset)
        ↔ (¬ IsTrue (has_items registry.now id)) }
    ensures shape { (result ≡ Err MarshalFault.Shape)
        ↔ (IsTrue (has_items registry.now id) × ¬ HasBytes registry.now id (model_of item.now)) }
    ensures long { (result ≡ Err MarshalFault.TooLong)
        ↔ (IsTrue (has_items registry.now id) × IsTooLong registry.now id (model_of item.now)) }
    ensures fault { FailsAs result (encode_fault registry.now id (model_of item.now)) }
{
    encoded(alloc, registry, id, item)
}
