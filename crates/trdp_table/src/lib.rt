//! The objects of all slots of a node, of any kind, each under a handle of its slot.
//!
//! A [`Table`] finds an object by its slot and handle and returns a key, by which the object is
//! reached without a further search. An object keeps its key, shared with no other, until its
//! removal. `trdp_store` keeps its objects in a table.
//!
//! ```text
//! let mut table = Table::new(alloc, &quotas)?;        // a slot for each of the quotas
//! let handle = table.add(0, object)?;                 // or the object back, with a TableFault
//! let key = table.find(0, handle)?;
//! table.get_mut(key)                                  // the object
//! table.remove(0, handle)                             // the object, and its key is free again
//! ```
//!
//! `Table::new` takes the memory for all objects that the quotas of its slots allow.
//! `Table::add_slot` takes that for one more slot. Nothing else takes memory.
//!
//! No contract says that a known key is used: a [`Table::find_near`] that searches as `find` does
//! meets its contract, and costs a search.
#![tactic(auto)]

mod counts;
mod entry;
mod fault;
mod held;
mod pool;
mod search;
mod slot;
mod table;

pub use fault::TableFault;
pub use slot::room_of;
pub use table::Table;

// What callers pass in and get back.
pub use trdp_model::{AnyObject, Kind};
