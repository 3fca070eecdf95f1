//! The small types of a TRDP node and their texts. Most crates of the node use them.
//!
//! An [`Ip`] is an IPv4 address, a [`Place`] an address with a UDP port, and [`Topo`] the two
//! topology counters. A [`Moment`] is a time since the node began. [`Quotas`] say how many objects
//! of each kind a slot may have. Message data has [`Uri`]s, [`SessionId`]s and statuses.
//! [`LINE_MAX`] and [`MD_PAYLOAD_MAX`] are limits that several crates keep.
//!
//! ```text
//! let place = read_place(b"10.0.0.2:17224")?;    // Place { ip: Ip(0x0a00_0002), port: 17224 }
//! push_place(&mut text, place)?;                 // 10.0.0.2:17224
//! ```
//!
//! Proved: each `read_..` accepts exactly the written forms of its values, with their value, and
//! each `push_..` appends the written form or leaves the list. What is printed is read back.
#![tactic(auto)]

mod address;
mod hex;
mod limits;
mod moment;
mod number;
mod place;
mod quotas;
mod session;
mod status;
mod text;
mod topo;
mod uri;

pub use address::{IP_LENGTH, PLACE_LENGTH, push_ip, push_place, read_ip, read_place};
pub use hex::{push_hex, read_hex, read_hex_into};
pub use limits::{LINE_MAX, MD_PAYLOAD_MAX};
pub use moment::{MOMENT_MAX, Moment};
pub use number::{NUMBER_LENGTH, push_number, read_number};
pub use place::{Ip, Place};
pub use quotas::{QUOTA_LIMIT, Quotas};
pub use session::{SESSION_LENGTH, SessionId, push_session, read_session};
pub use status::{STATUS_LENGTH, push_status, read_status};
pub use text::TextFault;
pub use topo::Topo;
pub use uri::{URI_LIMIT, Uri, read_uri};
