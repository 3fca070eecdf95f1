//! An object that is sought.

/// An object that is sought by its handle, and the key under which it is looked for first.
#[derive(Clone, Copy)]
pub struct Sought {
    /// The number of its slot.
    pub slot: u16,
    /// Its handle there.
    pub handle: u32,
    /// The key that it is known to have had; None where none is known. The object that is found is
    /// that of the slot and the handle, whatever this key is: a right one saves a search.
    pub key: Option<usize>,
}
