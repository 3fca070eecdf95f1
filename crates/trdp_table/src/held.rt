//! An object as the pool holds it.

use trdp_model::AnyObject;

/// An object, with its slot and its handle there.
#[derive(Drop)]
pub struct Held {
    /// The number of its slot.
    pub slot: u16,
    /// Its handle in that slot, from 1.
    pub handle: u32,
    /// The object itself.
    pub object: AnyObject,
}
