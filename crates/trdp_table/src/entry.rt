//! What a slot's list holds of one of its objects.

use trdp_model::Kind;

/// An object of a slot: its handle, the kind that it counts for, and its key.
#[derive(Clone, Copy)]
pub struct Entry {
    /// Its handle in its slot, from 1.
    pub handle: u32,
    /// The kind that it was added with, for whose quota it counts, even where it was exchanged
    /// since.
    pub kind: Kind,
    /// Its key in the table, under which the pool holds it.
    pub key: usize,
}
