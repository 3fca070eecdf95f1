//! Headers of TRDP telegrams, read and written: IEC 61375-2-3:2015, Annex A. Wherever this crate
//! names the standard, it means that edition and that annex.
//!
//! [`read_pd`] and [`read_md`] return the header ([`PdHead`], [`MdHead`]) and the payload of bytes
//! that were received, or the first [`HeadFault`]. [`write_pd`] and [`write_md`] write a telegram
//! at the front of a given room, [`push_pd`] and [`push_md`] at the end of a list that has room.
//!
//! ```text
//! let length = write_pd(&head, b"doors open", &mut room);
//! let view = read_pd(&room[..length])?;
//! view.head                            // head
//! view.payload                         // b"doors open"
//! ```
//!
//! A telegram that is read lends its payload. Nothing here takes memory. Numbers are big-endian;
//! only the frame check has its least significant byte first.
//!
//! Proved: bytes are read exactly where they are a telegram, what is written is read back, and one
//! damaged byte of a header is found. That the layout is the standard's no proof can show: it is
//! written down once in `specs/`, and tests compare it with telegrams that others made.
#![tactic(auto)]

mod fault;
mod fields;
mod laws;
mod md;
mod payload;
mod pd;
mod prefix;

pub use fault::HeadFault;
pub use laws::one_damaged_byte_is_found;
pub use md::reading::read_md;
pub use md::writing::{md_length, push_md, write_md};
pub use md::{MD_HEAD, MD_TELEGRAM_MAX, MdHead, MdKind, MdView};
pub use pd::reading::read_pd;
pub use pd::writing::{pd_length, push_pd, write_pd};
pub use pd::{PD_HEAD, PD_PAYLOAD_MAX, PD_TELEGRAM_MAX, PdHead, PdKind, PdView};
pub use trdp_base::MD_PAYLOAD_MAX;
