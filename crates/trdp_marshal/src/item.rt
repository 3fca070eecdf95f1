//! Values of datasets.

use std::alloc::{AllocError, Global};

/// A value of a dataset, of an element or of one entry of an array.
#[derive(Debug, PartialEq, Eq, Drop)]
pub enum Item {
    /// A value of BOOL8, BITSET8, CHAR8, UTF16, an unsigned type or TIMEDATE32 (seconds).
    U(u64),
    /// A value of a signed type.
    S(i64),
    /// A TIMEDATE48: seconds and ticks of 1/65536 second.
    T48(u32, u16),
    /// A TIMEDATE64: seconds and microseconds. Every 32-bit value of either half is accepted
    /// (profile).
    T64(u32, u32),
    /// The values of an array, or the entries of a dataset's elements, in order.
    List(Vec<Item>),
}

impl Item {
    ghost use Rattle.std.specs.Prelude.{◌≡◌, option_map, IfOk};
    ghost use Rattle.trdp_marshal.specs.Items.{model_of, models_in, told_count, list, models_under};

    /// An equal item in memory of its own. It calls itself as deep as the item nests; an item of a
    /// dataset nests no deeper than its registry allows.
    ///
    /// # Errors
    ///
    /// The one error is that there is no memory for the copy.
    pub fn try_clone(&self, alloc: Global) -> Result<Item, AllocError>
        ensures equal { IfOk result (λ copy. model_of copy ≡ model_of self.now) }
    {
        match self {
            Item::U(number) => Ok(Item::U(*number)),
            Item::S(number) => Ok(Item::S(*number)),
            Item::T48(seconds, ticks) => Ok(Item::T48(*seconds, *ticks)),
            Item::T64(seconds, micros) => Ok(Item::T64(*seconds, *micros)),
            Item::List(items) => {
                let mut copies = Vec::new(alloc);
                for item in items {
                    copies.push(item.try_clone(alloc)?)?;
                }
                Ok(Item::List(copies))
            }
        }
    }

    /// These items as one.
    pub(crate) fn list(items: Vec<Item>) -> Item
        ensures { model_of result ≡ list (models_in items.items) }
    {
        Item::List(items)
    }

    /// How many values the array of size 0 after this entry has: this entry's number.
    pub(crate) fn count(&self) -> u64
        ensures { result ≡ told_count (model_of self.now) }
    {
        match self {
            Item::U(number) => *number,
            _ => 0,
        }
    }

    /// The items of a list; None where it is none.
    pub(crate) fn items(&self) -> Option<&[Item]>
        ensures { option_map (λ items. models_in items.now) result
            ≡ models_under (model_of self.now) }
    {
        match self {
            Item::List(items) => Some(items.as_slice()),
            _ => None,
        }
    }
}
