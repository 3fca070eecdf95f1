//! The calls of a slot: what each does to the slot that makes it, and to no other.
//!
//! [`serve`] takes a call and records its answer. A call makes an object, asks something of one,
//! or concerns none. Every refusal is found before memory is taken, and all memory is taken before
//! the first change. [`put_value`] puts a value that the caller passes as an item.
//! [`subscription_at`] finds what a subscription shows, and [`item_shown`] makes it an item.
//!
//! ```text
//! serve(&mut store, slot, &call, &setting, &mut out)?;    // the answer, then what it sends
//! ```
//!
//! The rules are those of `trdp_model`. `trdp_engine` serves the calls of a node with these
//! functions.
#![tactic(auto)]

mod asked;
mod callers;
mod calls;
mod listeners;
mod look;
mod notices;
mod opening;
mod publishers;
mod repliers;
mod requesters;
mod shown;
mod subscriptions;
mod value;

pub use calls::{put_value, serve};
pub use look::subscription_at;
pub use shown::item_shown;
