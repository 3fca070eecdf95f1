//! The outbox of a node: records for its slots, in order, with the bytes of all in one list.
//!
//! An [`Outbox`] holds the records, and [`Outbox::by_slot`] walks over them slot by slot. A
//! [`Room`] is the largest number of records and bytes that an object or a call may add.
//!
//! ```text
//! let mut out = Outbox::new(alloc);
//! let room = Room::of_call(&call);
//! out.reserve(room.rows, room.bytes)?;             // before anything changes
//! out.push_plain_answer(0, PlainAnswer::Done);     // takes no memory
//! out.get(0)                                       // Record { slot: 0, what: Answer(Done) }
//! ```
//!
//! The node makes room before an event changes anything ([`Outbox::reserve`]): as much as the
//! objects that act may need at most. No push takes memory.
#![tactic(auto)]

mod by_slot;
mod outbox;
mod room;
mod row;

pub use by_slot::{BySlot, is_rising, place_of_next};
pub use outbox::Outbox;
pub use room::Room;
pub use row::{Heading, PlainAnswer, ReplyHeading, RowForm};
