//! Items from bytes.

ghost use Rattle.std.specs.Prelude.{◌≡◌, ◌≤◌, ◌<◌, ◌^◌, ◌↔◌, IfOk, IsTrue, Some, Err};
ghost use Rattle.trdp_dataset.specs.Elements.{width_len, form_of};
ghost use Rattle.trdp_marshal.specs.Items.{model_of, models_in};
ghost use Rattle.trdp_marshal.specs.Numbers.{signed_number};
ghost use Rattle.trdp_marshal.specs.Spells.{Spells, IsSpelled};
ghost use Rattle.trdp_marshal.specs.Reading.{number_at, unsigned_at, signed_at};
ghost use Rattle.trdp_marshal.specs.Reading.{time48_at, time64_at, form_at, repeated_at};
ghost use Rattle.trdp_marshal.specs.Reading.{element_at, entries_at, dataset_at, reading};
ghost use Rattle.trdp_marshal.specs.Faults.{has_items, GivesFound, FailsAs, decode_fault};

use crate::fault::MarshalFault;
use crate::item::Item;
use crate::number::{half, item_count, number};
use crate::payload::{fits_dataset, has_items};
use std::alloc::Global;
use trdp_dataset::{DEPTH_MAX, Element, Form, Registry, Width};

/// The signed number that a number of this width is as two's complement.
#[tactic(auto, unfolding(crate::specs::Numbers::signed_number))]
fn signed(width: Width, n: u64) -> i64
    requires { n < 256 ^ width_len width }
    ensures { result ≡ signed_number (width_len width) n }
{
    let half = half(width);
    if n < half {
        n as i64
    } else {
        -1 - (half - 1 - (n - half)) as i64
    }
}

/// The big-endian number in the first `len` bytes, and the bytes after them.
fn take_number(len: usize, bytes: &[u8]) -> Result<(u64, &[u8]), MarshalFault>
    requires low { 1 ≤ len }
    requires high { len ≤ 8 }
    ensures value { GivesFound (λ x. (x.0, x.1.now)) result (number_at len bytes.now) }
    ensures bound { IfOk result (λ x. x.0 < 256 ^ len) }
{
    match number(len, bytes) {
        Some((n, rest)) => Ok((n, rest)),
        None => Err(MarshalFault::Shape),
    }
}

/// An unsigned number.
#[tactic(auto, unfolding(crate::specs::Reading::unsigned_at))]
fn read_unsigned(width: Width, bytes: &[u8]) -> Result<(Item, &[u8]), MarshalFault>
    ensures { GivesFound (λ x. (model_of x.0, x.1.now)) result
        (unsigned_at (width_len width) bytes.now) }
{
    let (n, rest) = take_number(width.len(), bytes)?;
    Ok((Item::U(n), rest))
}

/// A signed number.
#[tactic(auto, unfolding(crate::specs::Reading::signed_at))]
fn read_signed(width: Width, bytes: &[u8]) -> Result<(Item, &[u8]), MarshalFault>
    ensures { GivesFound (λ x. (model_of x.0, x.1.now)) result
        (signed_at (width_len width) bytes.now) }
{
    let (n, rest) = take_number(width.len(), bytes)?;
    Ok((Item::S(signed(width, n)), rest))
}

/// Seconds and ticks.
#[tactic(auto, unfolding(crate::specs::Reading::time48_at))]
fn read_time48(bytes: &[u8]) -> Result<(Item, &[u8]), MarshalFault>
    ensures { GivesFound (λ x. (model_of x.0, x.1.now)) result (time48_at bytes.now) }
{
    let (seconds, rest) = take_number(4, bytes)?;
    let (ticks, rest) = take_number(2, rest)?;
    Ok((Item::T48(seconds as u32, ticks as u16), rest))
}

/// Seconds and microseconds.
#[tactic(auto, unfolding(crate::specs::Reading::time64_at))]
fn read_time64(bytes: &[u8]) -> Result<(Item, &[u8]), MarshalFault>
    ensures { GivesFound (λ x. (model_of x.0, x.1.now)) result (time64_at bytes.now) }
{
    let (seconds, rest) = take_number(4, bytes)?;
    let (micros, rest) = take_number(4, rest)?;
    Ok((Item::T64(seconds as u32, micros as u32), rest))
}

/// One value of a type.
#[cycle(read)]
#[tactic(auto, unfolding(crate::specs::Reading::form_at))]
fn read_form<'a>(
    alloc: Global,
    registry: &Registry,
    depth: u8,
    form: Form,
    bytes: &'a [u8],
) -> Result<(Item, &'a [u8]), MarshalFault>
    ensures { GivesFound (λ x. (model_of x.0, x.1.now)) result
        (form_at (dataset_at registry.now depth) form bytes.now) }
{
    match form {
        Form::Unsigned(width) => read_unsigned(width, bytes),
        Form::Signed(width) => read_signed(width, bytes),
        Form::Time48 => read_time48(bytes),
        Form::Time64 => read_time64(bytes),
        Form::Nested(id) => read_dataset(alloc, registry, depth, id, bytes),
    }
}

/// That many values of a type, one after the other. The list grows as they are read, not by the
/// count.
#[cycle(read)]
fn read_repeated<'a>(
    alloc: Global,
    registry: &Registry,
    depth: u8,
    form: Form,
    count: u64,
    bytes: &'a [u8],
) -> Result<(Vec<Item>, &'a [u8]), MarshalFault>
    ensures { GivesFound (λ x. (models_in x.0.items, x.1.now)) result
        (repeated_at (form_at (dataset_at registry.now depth) form) count bytes.now) }
{
    let mut items = Vec::new(alloc);
    let mut rest = bytes;
    for _ in 0..count {
        let (item, next) = read_form(alloc, registry, depth, form, rest)?;
        items.push(item)?;
        rest = next;
    }
    Ok((items, rest))
}

/// The entry of an element, where the entry before it counts `count` items.
#[cycle(read)]
fn read_entry<'a>(
    alloc: Global,
    registry: &Registry,
    depth: u8,
    element: Element,
    count: u64,
    bytes: &'a [u8],
) -> Result<(Item, &'a [u8]), MarshalFault>
    ensures { GivesFound (λ x. (model_of x.0, x.1.now)) result
        (element_at (form_at (dataset_at registry.now depth) (form_of element.kind))
        element.size count bytes.now) }
{
    let form = element.kind.form();
    if element.size == 1 {
        return read_form(alloc, registry, depth, form, bytes);
    }
    let count = item_count(element, count);
    let (items, rest) = read_repeated(alloc, registry, depth, form, count, bytes)?;
    Ok((Item::list(items), rest))
}

/// The entries of elements.
#[cycle(read)]
fn read_entries<'a>(
    alloc: Global,
    registry: &Registry,
    depth: u8,
    elements: &[Element],
    bytes: &'a [u8],
) -> Result<(Vec<Item>, &'a [u8]), MarshalFault>
    ensures { GivesFound (λ x. (models_in x.0.items, x.1.now)) result
        (entries_at (form_at (dataset_at registry.now depth)) elements.now 0 bytes.now) }
{
    let mut items = Vec::new(alloc);
    let mut count = 0;
    let mut rest = bytes;
    for element in elements {
        let (item, next) = read_entry(alloc, registry, depth, *element, count, rest)?;
        count = item.count();
        items.push(item)?;
        rest = next;
    }
    Ok((items, rest))
}

/// A value of a dataset, down to a depth.
#[cycle(read)]
fn read_dataset<'a>(
    alloc: Global,
    registry: &Registry,
    depth: u8,
    id: u32,
    bytes: &'a [u8],
) -> Result<(Item, &'a [u8]), MarshalFault>
    ensures { GivesFound (λ x. (model_of x.0, x.1.now)) result
        (dataset_at registry.now depth id bytes.now) }
{
    if depth == 0 {
        return Err(MarshalFault::Shape);
    }
    match registry.elements(id) {
        Some(elements) => {
            let (items, rest) = read_entries(alloc, registry, depth - 1, elements, bytes)?;
            Ok((Item::list(items), rest))
        }
        None => Err(MarshalFault::Shape),
    }
}

/// What [`decode`] returns. The bytes are looked at before any allocation.
fn decoded(alloc: Global, registry: &Registry, id: u32, bytes: &[u8]) -> Result<Item, MarshalFault>
    ensures value { IfOk result (λ item. Spells registry.now id (model_of item) bytes.now) }
    ensures reading { IfOk result (λ item. reading registry.now id bytes.now
        ≡ Some (model_of item)) }
    ensures fault { FailsAs result (decode_fault registry.now id bytes.now) }
{
    if !has_items(registry, id) {
        return Err(MarshalFault::NoDataset);
    }
    if !fits_dataset(registry, id, bytes) {
        return Err(MarshalFault::Shape);
    }
    let (item, _) = read_dataset(alloc, registry, DEPTH_MAX, id, bytes)?;
    Ok(item)
}

/// The item of a dataset that these bytes spell, packed as IEC 61375-2-3 sends them. No memory is
/// reserved according to a count in the bytes.
///
/// # Errors
///
/// The first two are found before any allocation, in this order:
/// - `NoDataset`: no dataset has that identifier, or it is 0, of which any bytes are a payload.
/// - `Shape`: the bytes are those of no item: too few, or some left over.
/// - `OutOfMemory`: there is no memory for the item.
pub fn decode(
    alloc: Global,
    registry: &Registry,
    id: u32,
    bytes: &[u8],
) -> Result<Item, MarshalFault>
    ensures value { IfOk result (λ item. Spells registry.now id (model_of item) bytes.now) }
    ensures reading { IfOk result (λ item. reading registry.now id bytes.now
        ≡ Some (model_of item)) }
    ensures unknown { (result ≡ Err MarshalFault.NoDataset)
        ↔ (¬ IsTrue (has_items registry.now id)) }
    ensures shape { (result ≡ Err MarshalFault.Shape)
        ↔ (IsTrue (has_items registry.now id) × ¬ IsSpelled registry.now id bytes.now) }
    ensures fault { FailsAs result (decode_fault registry.now id bytes.now) }
{
    decoded(alloc, registry, id, bytes)
}
