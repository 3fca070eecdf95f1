//! The sizes of the keys that are due, found by a walk of the top of a heap.

ghost use Rattle.std.specs.Prelude.{◌≡◌, ◌<◌, ◌≤◌, ◌+◌, ◌*◌, ◌^◌, ℕ, length, false};
ghost use Rattle.std.specs.Prelude.{IfSome, OnSome, IfNone};
ghost use Rattle.trdp_timers.specs.Orders.{is_due_by};
ghost use Rattle.trdp_timers.specs.Contents.{due_sizes, due_ones};
ghost use Rattle.trdp_timers.specs.Heap.{order_at, IsHeap, IsPlaced};
ghost use Rattle.trdp_timers.specs.Levels.{weight_at, below, CanAdd, CanCountDue};

use crate::heap::Heap;
use crate::order::{Order, is_due};
use crate::path::order_of;

impl Heap {
    /// The two sizes of the key at a place, if it is due by t.
    fn due_at(
        &self,
        orders: &Vec<Option<Order>>,
        sizes: (&[usize], &[usize]),
        t: u64,
        place: usize,
        probes: &mut u64,
    ) -> Option<(u64, u64)>
        requires placed { IsPlaced orders.now.items self.now.keys.items self.now.places.items }
        requires place { place < length self.now.keys.items }
        requires first { length orders.now.items ≤ length sizes.0.now }
        requires second { length orders.now.items ≤ length sizes.1.now }
        requires probes { probes.old + 1 < 2 ^ 64 }
        ensures first { IfSome result (λ its.
            weight_at (due_sizes t orders.now.items sizes.entry.0.now) self.now.keys.items place
            ≡ its.0) }
        ensures second { IfSome result (λ its.
            weight_at (due_sizes t orders.now.items sizes.entry.1.now) self.now.keys.items place
            ≡ its.1) }
        ensures one { OnSome result
            (weight_at (due_ones t orders.now.items) self.now.keys.items place ≡ 1) }
        ensures none { IfNone result
            (is_due_by t (order_at orders.now.items self.now.keys.items place) ≡ false) }
        ensures counted { probes.new ≡ probes.old + 1 }
    {
        if !is_due(Some(order_of(&self.keys, orders, place)), t, probes) {
            return None;
        }
        let key = self.keys[place];
        Some((sizes.0[key] as u64, sizes.1[key] as u64))
    }

    /// The sums, by either list of sizes, of the keys at a place and below it that are due by t.
    /// Nothing is due below a key that isn't, so that it goes no further there.
    pub fn due_below(
        &self,
        orders: &Vec<Option<Order>>,
        sizes: (&[usize], &[usize]),
        t: u64,
        place: usize,
        probes: &mut u64,
    ) -> (u64, u64)
        requires placed { IsPlaced orders.now.items self.now.keys.items self.now.places.items }
        requires order { IsHeap (length self.now.keys.items)
            (order_at orders.now.items self.now.keys.items) }
        requires first { length orders.now.items ≤ length sizes.0.now }
        requires second { length orders.now.items ≤ length sizes.1.now }
        requires first_fits { CanAdd (length self.now.keys.items)
            (weight_at (due_sizes t orders.now.items sizes.0.now) self.now.keys.items) place }
        requires second_fits { CanAdd (length self.now.keys.items)
            (weight_at (due_sizes t orders.now.items sizes.1.now) self.now.keys.items) place }
        requires probes { CanCountDue (length self.now.keys.items)
            (weight_at (due_ones t orders.now.items) self.now.keys.items) place probes.old }
        ensures first_total { (d : ℕ) → length self.now.keys.items < (place + 1) * 2 ^ d
            → result.0
            ≡ below (weight_at (due_sizes t orders.now.items sizes.entry.0.now) self.now.keys.items)
            d place }
        ensures second_total { (d : ℕ) → length self.now.keys.items < (place + 1) * 2 ^ d
            → result.1
            ≡ below (weight_at (due_sizes t orders.now.items sizes.entry.1.now) self.now.keys.items)
            d place }
        ensures cost { (d : ℕ) → length self.now.keys.items < (place + 1) * 2 ^ d
            → probes.new ≤ probes.old
            + 2 * below (weight_at (due_ones t orders.now.items) self.now.keys.items) d place
            + 1 }
        ensures least { (d : ℕ) → length self.now.keys.items < (place + 1) * 2 ^ d
            → probes.old
            + below (weight_at (due_ones t orders.now.items) self.now.keys.items) d place
            ≤ probes.new }
    {
        if place >= self.keys.len() {
            return (0, 0);
        }
        match self.due_at(orders, sizes, t, place, probes) {
            None => (0, 0),
            Some((first, second)) => {
                let left = self.due_below(orders, sizes, t, 2 * place + 1, probes);
                let right = self.due_below(orders, sizes, t, 2 * place + 2, probes);
                (first + left.0 + right.0, second + left.1 + right.1)
            }
        }
    }
}
