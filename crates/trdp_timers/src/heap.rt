//! A binary heap of keys, which knows the place of each key in it.
//!
//! The orders of the keys are kept outside of it and passed in. The key at a place acts no sooner
//! than the key at half of it, `(place - 1) / 2`.

ghost use Rattle.std.specs.Prelude.{◌≡◌, ◌<◌, ◌≤◌, ◌+◌, ◌*◌, ◌^◌, ℕ, length, vec_capacity};
ghost use Rattle.trdp_timers.specs.Heap.{order_at, IsHeap, FitsAt, IsPlaced};

use crate::order::{Order, acts_before};
use crate::path::{order_of, rise, sink};

/// Keys in the order of a heap, and the place of each.
#[derive(Drop)]
pub struct Heap {
    /// The keys that have an order, by their places.
    pub keys: Vec<usize>,
    /// The place of each key that has an order; a number without meaning for any other key.
    pub places: Vec<usize>,
}

impl Heap {
    /// Makes it a heap again once the key at a place has another order than `was`, which fitted
    /// there.
    pub fn settle(
        &mut self,
        orders: &Vec<Option<Order>>,
        place: usize,
        was: Option<Order>,
        probes: &mut u64,
    )
        requires place { place < length self.old.keys.items }
        requires placed { IsPlaced orders.now.items self.old.keys.items self.old.places.items }
        requires order { FitsAt (length self.old.keys.items)
            (order_at orders.now.items self.old.keys.items) place was }
        requires probes { probes.old ≡ 0 }
        ensures placed { IsPlaced orders.now.items self.new.keys.items self.new.places.items }
        ensures order { IsHeap (length self.new.keys.items)
            (order_at orders.now.items self.new.keys.items) }
        ensures count { length self.new.keys.items ≡ length self.old.keys.items }
        ensures places { length self.new.places.items ≡ length self.old.places.items }
        ensures capacity { vec_capacity self.new.keys ≡ vec_capacity self.old.keys }
        ensures cost { (b : ℕ) → length self.old.keys.items < 2 ^ b → probes.new ≤ 2 * b + 1 }
        ensures least { 1 ≤ probes.new }
    {
        let own = order_of(&self.keys, orders, place);
        let mut count = *probes;
        if acts_before(Some(own), was, &mut count) {
            rise(&mut self.keys, &mut self.places, orders, place, &mut count);
        } else {
            let end = sink(&mut self.keys, &mut self.places, orders, place, &mut count);
            rise(&mut self.keys, &mut self.places, orders, end, &mut count);
        }
        *probes = count;
    }
}
