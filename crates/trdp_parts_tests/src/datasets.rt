//! Datasets of a file: their elements, the types by name and by number, what counts the items of
//! an array, values of one length, and the sentences of faults. The program shows what a
//! configuration means, and which fault one has (`rows`, `bench/config_words.py`).

use crate::same::same;
use std::alloc::Global;
use std::process::Abort;
use std::test::Fail;
use trdp_dataset::{ConfigFault, Element, ElementKind, Key, Registry};

/// Two datasets of one length, of which the second holds three of the first, and two with an array
/// of a counted size, of which the second holds the first.
const LENGTHS: &[u8] = br#"
[[dataset]]
id = 1001
element = [{ type = "TIMEDATE48" }, { type = "UINT16", size = 4 }]
[[dataset]]
id = 1002
element = [{ type = "UINT8" }, { type = 1001, size = 3 }]
[[dataset]]
id = 1003
element = [{ type = "UINT8" }, { type = "UINT16", size = 0 }]
[[dataset]]
id = 1004
element = [{ type = 1001 }, { type = 1003 }]
"#;

/// Identifiers, and how many bytes each value of their datasets takes.
static SIZES: [(u32, Option<usize>); 5] = [
    (1001, Some(14)),
    (1002, Some(43)),
    (1003, None),
    (1004, None),
    (1005, None),
];

/// Identifiers and indexes, and the element's type and size; None where there is none.
static ELEMENTS: [(u32, usize, Option<(ElementKind, u16)>); 4] = [
    (1003, 1, Some((ElementKind::Uint16, 0))),
    (1002, 1, Some((ElementKind::Nested(1001), 3))),
    (1001, 2, None),
    (0, 0, None),
];

/// The type and the size of an element.
fn element(registry: &Registry, id: u32, index: usize) -> Option<(ElementKind, u16)> {
    let element = registry.element(id, index)?;
    Some((element.kind, element.size))
}

/// The datasets have these sizes and elements.
fn tells(rt: &(impl Abort + AllocGlobal), registry: &Registry) {
    registry.sound();
    assert!(rt; !registry.is_empty() && !registry.has(0) && registry.zero_size(0).is_none());
    for (id, size) in &SIZES {
        same(rt, *id, registry.fixed_size(*id), *size);
    }
    for (id, index, wanted) in &ELEMENTS {
        same(rt, *id, element(registry, *id, *index), *wanted);
    }
}

/// Why these bytes are no datasets.
fn fault_of(rt: &(impl Abort + AllocGlobal), bytes: &[u8]) -> Option<ConfigFault> {
    Registry::from_toml(rt.alloc(), bytes).err()
}

/// The file of datasets alone is read, whatever else a node needs.
#[test]
fn reads_datasets(rt: HostRuntime) {
    let faults = [fault_of(&rt, &[0xff]), fault_of(&rt, b"node = 5\nslot = 5")];
    same(&rt, "ff", faults, [Some(ConfigFault::Toml), None]);
    match Registry::from_toml(rt.alloc(), LENGTHS) {
        Ok(registry) => tells(&rt, &registry),
        Err(fault) => same(&rt, "lengths", Some(fault), None),
    }
}

/// The names of all types, a pair of names for the first.
const NAMES: &str = "dataset = [{ id = 4294967295, element = [
{ type = 'BOOL8' }, { type = 'BITSET8' }, { type = 'CHAR8' }, { type = 'UTF16' },
{ type = 'INT8' }, { type = 'INT16' }, { type = 'INT32' }, { type = 'INT64' },
{ type = 'UINT8' }, { type = 'UINT16' }, { type = 'UINT32' }, { type = 'UINT64' },
{ type = 'TIMEDATE32' }, { type = 'TIMEDATE48' }, { type = 'TIMEDATE64' }] }]";

/// The numbers of all types, and that of the first once more.
const NUMBERS: &str = "dataset = [{ id = 4294967295, element = [
{ type = 1 }, { type = 1 }, { type = 2 }, { type = 3 }, { type = 4 }, { type = 5 }, { type = 6 },
{ type = 7 }, { type = 8 }, { type = 9 }, { type = 10 }, { type = 11 }, { type = 14 },
{ type = 15 }, { type = 16 }] }]";

/// The types that these are.
static KINDS: [ElementKind; 15] = [
    ElementKind::Bool8,
    ElementKind::Bool8,
    ElementKind::Char8,
    ElementKind::Utf16,
    ElementKind::Int8,
    ElementKind::Int16,
    ElementKind::Int32,
    ElementKind::Int64,
    ElementKind::Uint8,
    ElementKind::Uint16,
    ElementKind::Uint32,
    ElementKind::Uint64,
    ElementKind::Timedate32,
    ElementKind::Timedate48,
    ElementKind::Timedate64,
];

/// The type of an element of the one dataset of such a file.
fn kind_at(alloc: Global, text: &str, index: usize) -> Option<ElementKind> {
    match Registry::from_toml(alloc, text.as_bytes()) {
        Ok(registry) => kind_in(&registry, index),
        Err(_) => None,
    }
}

/// The type of an element of that dataset.
fn kind_in(registry: &Registry, index: usize) -> Option<ElementKind> {
    Some(registry.element(4_294_967_295, index)?.kind)
}

#[test]
fn reads_each_type(rt: HostRuntime) {
    for (index, kind) in KINDS.iter().enumerate() {
        same(&rt, index, kind_at(rt.alloc(), NAMES, index), Some(*kind));
        same(&rt, index, kind_at(rt.alloc(), NUMBERS, index), Some(*kind));
    }
}

/// Elements, and whether the value of each counts the items of an array after it.
static COUNTS: [(ElementKind, u16, bool); 4] = [
    (ElementKind::Uint32, 1, true),
    (ElementKind::Uint8, 2, false),
    (ElementKind::Uint64, 1, false),
    (ElementKind::Bool8, 1, false),
];

// rule: dataset.counted: a UINT32 counts items; a UINT64 and a BOOL8 do not
#[test]
fn counts_items(rt: HostRuntime) {
    for (index, (kind, size, counts)) in COUNTS.iter().enumerate() {
        let element = Element {
            kind: *kind,
            size: *size,
        };
        same(&rt, index, element.is_count(), *counts);
    }
}

/// Faults, and the sentence of each.
static SENTENCES: [(ConfigFault, &str); 5] = [
    (
        ConfigFault::Missing(Key::Elements),
        "the key element is missing, or its array is empty",
    ),
    (
        ConfigFault::WrongType(Key::PdPort),
        "the value of the key pd_port is of the wrong kind or out of range",
    ),
    (
        ConfigFault::NoDataset(1003),
        "an element is of the dataset 1003, which is not there",
    ),
    (
        ConfigFault::TooMany,
        "there are more than 16 slots, 15 spare control ports, 32 groups, 256 datasets or 256 \
         elements, or a quota above 256",
    ),
    (ConfigFault::OutOfMemory, "memory ran out"),
];

#[test]
fn tells_faults(rt: HostRuntime) -> Result<(), Fail> {
    let alloc = rt.alloc();
    for (fault, sentence) in &SENTENCES {
        let told = format!(in alloc; "{fault}")?;
        same(&rt, "its sentence", told.as_str(), *sentence);
    }
    Ok(())
}
