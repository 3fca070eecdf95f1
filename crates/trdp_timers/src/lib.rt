//! The due moments of a node's objects, of all slots in one heap.
//!
//! [`Timers`] keep an [`Order`] for some of the keys below a room.
//!
//! ```text
//! let mut timers = Timers::with_room(alloc, 256)?;
//! timers.set(7, Order { due: 100_000, slot: 0, handle: 1 });
//! timers.first()                                      // (7, that order)
//! timers.clear(7);
//! ```
//!
//! Each object has a key, a number below the room, under which its order is set and cleared. The
//! order says when the object acts: the least due moment first, then the least slot, then the
//! least handle. The heap keeps the place of each key, so an order in the middle is replaced or
//! cleared as cheaply as the first is removed. `trdp_store` keeps its objects' due moments here.
//!
//! Proved: timers are a finite map from keys to orders (`specs/Contents.antt`), and each call
//! stays within its bound of comparisons.
//!
//! No contract says that `set`, `clear` and `pop` count every comparison: for these the number has
//! an upper bound alone, and `set` counts at least one. How many there are depends on places in
//! the heap, which are no part of the map. The worked example `calls_have_their_comparisons` of
//! `trdp_parts_tests` has the number of each call. Nor does a clause see whether `first` is called
//! once or twice, or in which order two places are exchanged.
#![tactic(auto)]

mod due;
mod entries;
mod heap;
mod laws;
mod order;
mod path;
mod timers;

pub use laws::{first_is_due_first, one_fewer_is_due};
pub use order::Order;
pub use timers::Timers;
