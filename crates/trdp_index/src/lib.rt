//! The two indexes of a node: which objects telegrams of a comId may be for ([`ComIndex`]), and
//! which objects are open for a session ([`SessionIndex`]). `trdp_store` uses both.
//!
//! ```text
//! let mut index = ComIndex::with_room(alloc, 256)?;
//! index.insert(ComRow { com_id: Some(100), slot: 0, handle: 1, key: 7 });
//! let rows = index.run(Some(100), &mut comparisons);    // the rows of comId 100
//! index.remove(Some(100), 0, 1);                        // true: there was one
//! ```
//!
//! Each index is a set of rows, sorted, in a list whose memory is taken when the index is made and
//! when it grows; nothing else here takes memory. A run by comId is in the order of slot and
//! handle. A look-up halves the list: it is proved to compare no more often than the number of
//! rows has binary digits, at each of the two ends of a run.
#![tactic(auto)]

mod com_index;
mod com_row;
mod rank;
mod ranked;
mod row_list;
mod search;
mod session_index;
mod session_row;

pub use com_index::ComIndex;
pub use com_row::ComRow;
pub use session_index::SessionIndex;
pub use session_row::{Role, SessionRow};
