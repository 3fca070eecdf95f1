//! A telegram that comes in: the objects that it is for, and what they do with it.
//!
//! [`note_all`] lists the objects that act at a telegram, by slot and handle, each as an
//! [`Addressee`], and returns the room for what they may record. Then [`take_all`] gives each of
//! them the telegram, or [`ask_all`] a request, which is for listeners alone. `trdp_engine` uses
//! them at each datagram.
//!
//! ```text
//! let room = note_all(&store, &telegram, &globals, &mut noted, &mut counts);
//! out.reserve(room.rows, room.bytes)?;
//! take_all(&mut store, &noted, &telegram, &setting, &mut out, &mut counts);
//! ```
//!
//! The rules are those of `trdp_model`. None of these functions takes memory. The contract of each
//! bounds its cost in comparisons, filter tests and look-ups. No contract says that each of these
//! is counted: one that counts fewer meets its contract too.
#![tactic(auto)]

mod addressees;
mod first_listeners;
mod handing;
mod messages;
mod pull;
mod requests;

pub use addressees::{Addressee, note_all};
pub use handing::take_all;
pub use requests::ask_all;
