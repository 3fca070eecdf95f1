//! Values beside their bytes by the standard's layout, and what is refused.

use crate::same::same;
use std::alloc::{AllocError, Global};
use std::process::Abort;
use std::test::Fail;
use trdp_dataset::Registry;
use trdp_marshal::{Item, MarshalFault, decode, encode, fits, write_zero};

/// Datasets of one length (1004, 1005) and with arrays of a counted size, of which 1006 has one of
/// values that have one themselves, and 1007 one of values of one length.
const DATASETS: &[u8] = br#"
[[dataset]]
id = 1001
element = [{ type = "UINT8" }, { type = "UINT16", size = 0 }]
[[dataset]]
id = 1002
element = [{ type = "INT16" }, { type = 15 }, { type = 1001 }]
[[dataset]]
id = 1003
element = [{ type = "UINT32" }, { type = "UINT8", size = 0 }]
[[dataset]]
id = 1004
element = [{ type = "TIMEDATE64" }, { type = "CHAR8", size = 2 }, { type = "INT64" }]
[[dataset]]
id = 1005
element = [{ type = 1004, size = 2 }]
[[dataset]]
id = 1006
element = [{ type = "BOOL8", size = 3 }, { type = "UINT16" }, { type = 1001, size = 0 }]
[[dataset]]
id = 1007
element = [{ type = "UINT8" }, { type = 1004, size = 0 }, { type = "INT32" }]
"#;

/// A list of two items.
fn pair(alloc: Global, first: Item, second: Item) -> Result<Item, AllocError> {
    let mut items = Vec::new(alloc);
    items.push(first)?;
    items.push(second)?;
    Ok(Item::List(items))
}

/// A list of three items.
fn triple(alloc: Global, first: Item, second: Item, third: Item) -> Result<Item, AllocError> {
    let mut items = Vec::new(alloc);
    items.push(first)?;
    items.push(second)?;
    items.push(third)?;
    Ok(Item::List(items))
}

/// A value of dataset 1001 with two items in its array.
fn counted(alloc: Global) -> Result<Item, AllocError> {
    let array = pair(alloc, Item::U(1), Item::U(2))?;
    pair(alloc, Item::U(2), array)
}

/// A value of dataset 1001 without its first entry, with no item in its array.
fn uncounted(alloc: Global, first: Item) -> Result<Item, AllocError> {
    pair(alloc, first, Item::List(Vec::new(alloc)))
}

/// A value of dataset 1003 with that many items in its array.
fn long(alloc: Global, count: u32) -> Result<Item, AllocError> {
    let mut array = Vec::new(alloc);
    for _ in 0..count {
        array.push(Item::U(7))?;
    }
    pair(alloc, Item::U(u64::from(count)), Item::List(array))
}

/// The 65,388 bytes of the longest value of dataset 1003: 65,384 as the count, and as many sevens.
fn longest_bytes(alloc: Global) -> Result<Vec<u8>, AllocError> {
    let mut bytes = Vec::new(alloc);
    bytes.extend_from_slice(b"\0\0\xff\x68")?;
    bytes.resize(65_388, 7)?;
    Ok(bytes)
}

/// These bytes decode to the item, and its clone is equal to it.
fn spells(
    rt: &(impl Abort + AllocGlobal),
    registry: &Registry,
    id: u32,
    item: Item,
    bytes: &[u8],
) -> Result<(), Fail> {
    assert!(rt; fits(registry, id, bytes), "at {id}");
    let decoded = decode(rt.alloc(), registry, id, bytes)?;
    assert!(rt; decoded == item, "at {id}");
    is_written(rt, registry, id, &item, bytes)
}

/// The item encodes to these bytes, and its clone is equal to it.
fn is_written(
    rt: &(impl Abort + AllocGlobal),
    registry: &Registry,
    id: u32,
    item: &Item,
    bytes: &[u8],
) -> Result<(), Fail> {
    let encoded = encode(rt.alloc(), registry, id, item)?;
    same(rt, id, encoded.as_slice(), bytes);
    let copy = item.try_clone(rt.alloc())?;
    assert!(rt; copy == *item, "at {id}");
    Ok(())
}

/// A value of dataset 1002.
fn nested(alloc: Global) -> Result<Item, AllocError> {
    let last = uncounted(alloc, Item::U(0))?;
    triple(alloc, Item::S(-2), Item::T48(1, 2), last)
}

/// A value of dataset 1004.
fn dated(alloc: Global) -> Result<Item, AllocError> {
    let text = pair(alloc, Item::U(0x4f), Item::U(0x4b))?;
    triple(alloc, Item::T64(1, u32::MAX), text, Item::S(i64::MIN))
}

/// A counted array, a nested dataset, times and a text, and the longest value.
fn spell_all(rt: &(impl Abort + AllocGlobal), registry: &Registry) -> Result<(), Fail> {
    let alloc = rt.alloc();
    spells(rt, registry, 1001, counted(alloc)?, &[2, 0, 1, 0, 2])?;
    let bytes = b"\xff\xfe\0\0\0\x01\0\x02\0";
    spells(rt, registry, 1002, nested(alloc)?, bytes)?;
    let bytes = b"\0\0\0\x01\xff\xff\xff\xffOK\x80\0\0\0\0\0\0\0";
    spells(rt, registry, 1004, dated(alloc)?, bytes)?;
    let bytes = longest_bytes(alloc)?;
    spells(rt, registry, 1003, long(alloc, 65_384)?, &bytes)
}

/// Datasets and bytes that may be their payload, and why these have no item.
static PAYLOADS: [(u32, &[u8], Option<MarshalFault>); 17] = [
    (5, b"\x02\0", Some(MarshalFault::NoDataset)),
    (1001, b"", Some(MarshalFault::Shape)),
    (1001, b"\x02\0", Some(MarshalFault::Shape)),
    (1001, b"\x01\0\x01\0", Some(MarshalFault::Shape)),
    (1003, b"\xff\xff\xff\xff\0\0\0\0", Some(MarshalFault::Shape)),
    (1004, b"seventeen bytes..", Some(MarshalFault::Shape)),
    (1004, b"eighteen bytes ...", None),
    (1004, b"nineteen bytes ....", Some(MarshalFault::Shape)),
    (
        1005,
        b"thirty-five bytes, all of them text",
        Some(MarshalFault::Shape),
    ),
    (1005, b"thirty-six bytes, all of them texts.", None),
    (1006, b"any\0\x02\x01\0\x01\0", None),
    (1006, b"any\0\x02\x01\0\x01", Some(MarshalFault::Shape)),
    (1006, b"any\0\x01\x01\0\x01\0", Some(MarshalFault::Shape)),
    (1006, b"any\xff\xff\0\0\0", Some(MarshalFault::Shape)),
    (1007, b"\x01eighteen bytes ...last", None),
    (
        1007,
        b"\x02eighteen bytes ...last",
        Some(MarshalFault::Shape),
    ),
    (1007, b"\0last", None),
];

/// The bytes are a payload and have an item, or neither.
fn judges(
    rt: &(impl Abort + AllocGlobal),
    registry: &Registry,
    id: u32,
    bytes: &[u8],
    fault: Option<MarshalFault>,
) {
    same(rt, id, fits(registry, id, bytes), fault.is_none());
    same(rt, id, decode(rt.alloc(), registry, id, bytes).err(), fault);
}

/// The same of all payloads; any bytes fit dataset 0, and have no item.
fn judge_all(rt: &(impl Abort + AllocGlobal), registry: &Registry) {
    for (id, bytes, fault) in &PAYLOADS {
        judges(rt, registry, *id, bytes, *fault);
    }
    assert!(rt; fits(registry, 0, b"any"));
    let fault = decode(rt.alloc(), registry, 0, b"any").err();
    same(rt, "dataset 0", fault, Some(MarshalFault::NoDataset));
}

/// First entries that with an empty array are no value of a dataset, and why not.
static REFUSED: [(u32, u64, MarshalFault); 5] = [
    (0, 0, MarshalFault::NoDataset),
    (5, 0, MarshalFault::NoDataset),
    (1001, 1, MarshalFault::Shape),
    (1001, 256, MarshalFault::Shape),
    (1001, u64::MAX, MarshalFault::Shape),
];

/// The item is no value of the dataset, for that fault.
fn refuses(
    rt: &(impl Abort + AllocGlobal),
    registry: &Registry,
    id: u32,
    item: Item,
    fault: MarshalFault,
) {
    let found = encode(rt.alloc(), registry, id, &item).err();
    same(rt, id, found, Some(fault));
}

/// The same of these entries, of a signed count, and of an array with one item more than the
/// longest.
fn refuse_all(rt: &(impl Abort + AllocGlobal), registry: &Registry) -> Result<(), AllocError> {
    let alloc = rt.alloc();
    for (id, first, fault) in &REFUSED {
        let item = uncounted(alloc, Item::U(*first))?;
        refuses(rt, registry, *id, item, *fault);
    }
    let signed = uncounted(alloc, Item::S(0))?;
    refuses(rt, registry, 1001, signed, MarshalFault::Shape);
    let longer = long(alloc, 65_385)?;
    refuses(rt, registry, 1003, longer, MarshalFault::TooLong);
    Ok(())
}

/// The zero value of dataset 1002 has nine bytes, and is one of its values.
fn write_zeros(rt: &(impl Abort + AllocGlobal), registry: &Registry) {
    let mut room = [0xaa; 10];
    assert!(rt; registry.has(1002) && registry.zero_size(1002) == Some(9));
    assert!(rt; write_zero(registry, 1002, &mut room) == 9);
    same(rt, "zeros", room, [0, 0, 0, 0, 0, 0, 0, 0, 0, 0xaa]);
    assert!(rt; fits(registry, 1002, &[0; 9]));
}

// rule: dataset.packed: numbers are big-endian, without a gap
// rule: dataset.array: fewer or more items than the count are Shape
// rule: dataset.whole: one byte after the value is Shape
// rule: dataset.form: a TIMEDATE64 has any 32 bits in each half
// rule: dataset.zero: the zero value of a nested dataset is nine zeros
// rule: dataset.any: any bytes fit dataset 0
#[test]
fn values_have_their_bytes(rt: HostRuntime) -> Result<(), Fail> {
    let registry = Registry::from_toml(rt.alloc(), DATASETS)?;
    write_zeros(&rt, &registry);
    judge_all(&rt, &registry);
    refuse_all(&rt, &registry)?;
    spell_all(&rt, &registry)
}
