//! Values of datasets and the bytes that they are sent as.
//!
//! A dataset's value is an [`Item`]. [`encode`] returns its bytes, [`decode`] the item of bytes,
//! and [`fits`] says whether bytes are a value at all. What fails is a [`MarshalFault`].
//!
//! ```text
//! let bytes = encode(alloc, &registry, 1001, &item)?;
//! fits(&registry, 1001, &bytes)        // true
//! decode(alloc, &registry, 1001, &bytes)?    // item
//! ```
//!
//! Bytes are packed (profile): numbers are big-endian, as those of a header are
//! (IEC 61375-2-3:2015, Annex A), and follow one another without alignment. A node checks payloads
//! with [`fits`]; it encodes and decodes where its program works with items.
//!
//! Proved: one item has at most one list of bytes, and one list of bytes is that of at most one
//! item; the functions of [`laws`] say so for every registry. `encode` and `decode` compute just
//! these, and each fault but `OutOfMemory` is returned exactly where it applies.
#![tactic(auto)]

mod code;
mod fault;
mod item;
pub mod laws;
mod measure;
mod number;
mod payload;
mod reader;
mod writer;
mod zero;

pub use fault::MarshalFault;
pub use item::Item;
pub use payload::fits;
pub use reader::decode;
pub use writer::encode;
pub use zero::write_zero;
