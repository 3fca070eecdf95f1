//! The objects of all slots of a node, with the indexes by which a telegram finds those that it may
//! be for, and the heap by which a moment finds those that are due.
//!
//! A [`Store`] is seen as the slots of its table. The index by comId, the index by session and the
//! schedule are private. Each is proved to be the image of the slots' objects, so that no row, key
//! or order outlives its object. A [`Deed`] is what is done to one object ([`Store::act`]):
//! `trdp_calls`, `trdp_datagrams` and `trdp_engine` define deeds, and the store keeps its four
//! structures together.
//!
//! ```text
//! let mut store = Store::new(alloc, &quotas)?;                 // a slot for each of the quotas
//! let handle = store.add(0, object, &mut counts)?;             // its handle in slot 0
//! let rows = store.run(Some(com_id), &mut comparisons);        // whom a telegram may be for
//! let sought = Sought { slot: 0, handle, key: None };           // by its handle alone
//! count_act(store.act(sought, &deed, &mut out), &mut counts);
//! ```
//!
//! No contract says how often an implementation looks: one that asks twice for what is due next,
//! or dismisses an object from the schedule twice, meets its contract, though it reports the
//! comparisons of one call alone.
#![tactic(auto)]

mod by_com;
mod by_session;
mod counts;
mod deed;
mod objects;
mod schedule;
mod sessions;
mod setting;
mod sought;
mod store;

pub use by_com::com_of;
pub use by_session::session_of;
pub use counts::Counts;
pub use deed::{Deed, Left};
pub use objects::object_of;
pub use sessions::has_session;
pub use setting::Setting;
pub use sought::Sought;
pub use store::{Store, count_act};
