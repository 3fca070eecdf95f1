//! The orders of keys, and which key acts first.

ghost use Rattle.std.specs.Prelude.{◌≡◌, ◌<◌, ◌≤◌, ◌+◌, ◌-◌, ◌*◌, ◌^◌, ◌++◌, ℕ, length, replicate};
ghost use Rattle.std.specs.Prelude.{Some, None, is_some, IfOk, is_ok, MatchOption, count_by, sum};
ghost use Rattle.std.specs.Prelude.{slice_index_or, slice_set, vec_capacity, if◌then◌else◌};
ghost use Rattle.trdp_timers.specs.Orders.{is_due_by};
ghost use Rattle.trdp_timers.specs.Contents.{TimersState, IsFirst, IsUnset, without, due_sizes};
ghost use Rattle.trdp_timers.specs.Heap.{IsKept};

use crate::heap::Heap;
use crate::order::Order;
use std::alloc::{AllocError, Global};
use std::marker::Model;

/// When the objects of a node act: an order for some of the keys below the room.
///
/// Every call but `peek`, `room` and `probes` sets the number of comparisons that `probes`
/// returns.
#[derive(Drop)]
pub struct Timers {
    /// The order of each key below the room; None for a key that has none.
    orders: Vec<Option<Order>>,
    /// The keys that have an order, the first to act on top.
    heap: Heap,
    /// The comparisons of the latest call.
    probes: u64,
}

impl Model for Timers {
    ghost Value = { TimersState };

    ghost view = { λ t. record { orders = t.orders.items; probes = t.probes } };

    ghost invariant = { λ t. IsKept t.orders.items
        t.heap.keys.items t.heap.places.items (vec_capacity t.heap.keys) };
}

/// No order, for each key below the room.
fn no_orders(alloc: Global, room: usize) -> Result<Vec<Option<Order>>, AllocError>
    ensures { IfOk result (λ orders. orders.items ≡ replicate room None) }
{
    vec![in alloc; None; room]
}

/// A place without meaning, for each key below the room.
fn no_places(alloc: Global, room: usize) -> Result<Vec<usize>, AllocError>
    ensures { IfOk result (λ places. places.items ≡ replicate room 0) }
{
    vec![in alloc; 0; room]
}

impl Timers {
    /// Timers for the keys below `room`, none of which has an order; `probes` returns 0.
    ///
    /// # Errors
    /// [`AllocError`] where there is no memory for that many keys.
    pub fn with_room(alloc: Global, room: usize) -> Result<Timers, AllocError>
        ensures room { IfOk result (λ timers. timers.orders ≡ replicate room None) }
        ensures cost { IfOk result (λ timers. timers.probes ≡ 0) }
    {
        let orders = no_orders(alloc, room)?;
        let places = no_places(alloc, room)?;
        let keys = Vec::with_capacity(alloc, room)?;
        Ok(Timers {
            orders,
            heap: Heap { keys, places },
            probes: 0,
        })
    }

    /// Makes the room at least `room`; it never falls. All orders stay, whatever the answer. It
    /// makes no comparison.
    ///
    /// # Errors
    /// [`AllocError`] where there is no memory for that many keys; the room has not changed.
    pub fn grow(&mut self, room: usize) -> Result<(), AllocError>
        ensures orders { self.new.orders
            ≡ (if is_ok result
            then self.old.orders ++ replicate (room - length self.old.orders) None
            else self.old.orders) }
        ensures cost { self.new.probes ≡ 0 }
    {
        self.probes = 0;
        if room <= self.orders.len() {
            return Ok(());
        }
        self.heap.make_room(room)?;
        self.orders.resize(room, None)?;
        self.heap.add_places(room);
        Ok(())
    }

    /// Sets the order of a key below the room, in place of the one that it had. It takes no
    /// memory, and makes at most `2 * b + 2` comparisons where fewer than `2^b` keys have an order
    /// then.
    pub fn set(&mut self, key: usize, order: Order)
        requires { key < length self.old.orders }
        ensures orders { self.new.orders ≡ slice_set self.old.orders key (Some order) }
        ensures cost { (b : ℕ) → count_by is_some self.new.orders < 2 ^ b
            → self.new.probes ≤ 2 * b + 2 }
        ensures least { 1 ≤ self.new.probes }
    {
        let was = self.orders[key];
        self.orders[key] = Some(order);
        self.probes = 0;
        let place = self.heap.admit(&self.orders, key, was);
        self.heap.settle(&self.orders, place, was, &mut self.probes);
    }

    /// Removes the order of a key, if it has one; for any other key it does nothing, also for one
    /// that isn't below the room. It makes at most `2 * b + 2` comparisons where fewer than `2^b`
    /// keys had an order, and none where the key had none.
    pub fn clear(&mut self, key: usize)
        ensures orders { self.new.orders ≡ slice_set self.old.orders key None }
        ensures idle { slice_index_or self.old.orders key None ≡ None → self.new.probes ≡ 0 }
        ensures cost { (b : ℕ) → count_by is_some self.old.orders < 2 ^ b
            → self.new.probes ≤ 2 * b + 2 }
    {
        self.probes = 0;
        if key >= self.orders.len() {
            return;
        }
        let was = self.orders[key];
        if was.is_none() {
            return;
        }
        let place = self.heap.withdraw(&self.orders, key);
        self.orders[key] = None;
        if place >= self.heap.keys.len() {
            return;
        }
        self.heap.settle(&self.orders, place, was, &mut self.probes);
    }

    /// A key that acts first, with its order, the least by due moment, slot and handle: of several
    /// keys with that order any one. None where no key has an order. It makes no comparison.
    pub fn first(&mut self) -> Option<(usize, Order)>
        ensures first { MatchOption result (IsUnset self.old.orders)
            (λ found. IsFirst self.old.orders found.0 found.1) }
        ensures kept { self.new.orders ≡ self.old.orders }
        ensures cost { self.new.probes ≡ 0 }
    {
        self.probes = 0;
        self.peek()
    }

    /// What [`Timers::first`] returns. The number that `probes` returns stays.
    pub fn peek(&self) -> Option<(usize, Order)>
        ensures { MatchOption result (IsUnset self.now.orders)
            (λ found. IsFirst self.now.orders found.0 found.1) }
    {
        if self.heap.keys.is_empty() {
            return None;
        }
        let key = self.heap.keys[0];
        let order = self.orders[key]?;
        Some((key, order))
    }

    /// Removes the order of a key that acts first, and returns both; of several keys with that
    /// order any one. None where no key has an order. It makes at most `2 * b + 2` comparisons
    /// where fewer than `2^b` keys had an order.
    pub fn pop(&mut self) -> Option<(usize, Order)>
        ensures first { MatchOption result (IsUnset self.old.orders)
            (λ found. IsFirst self.old.orders found.0 found.1) }
        ensures orders { self.new.orders ≡ without self.old.orders result }
        ensures cost { (b : ℕ) → count_by is_some self.old.orders < 2 ^ b
            → self.new.probes ≤ 2 * b + 2 }
    {
        let (key, order) = self.first()?;
        self.clear(key);
        Some((key, order))
    }

    /// The sizes, together, of the keys that are due by the moment t; a key has the size of its
    /// index. It takes no memory, and makes at most `2 * k + 1` comparisons for k keys that are
    /// due.
    pub fn due_total(&mut self, t: u64, sizes: &[usize]) -> u64
        requires sizes { length self.old.orders ≤ length sizes.now }
        requires fits { sum sizes.now < 2 ^ 64 }
        ensures total { result ≡ sum (due_sizes t self.old.orders sizes.now) }
        ensures kept { self.new.orders ≡ self.old.orders }
        ensures cost { self.new.probes ≤ 2 * count_by (is_due_by t) self.old.orders + 1 }
        ensures least { count_by (is_due_by t) self.old.orders ≤ self.new.probes }
    {
        self.due_totals(t, sizes, sizes).0
    }

    /// The same for two lists of sizes, in one walk.
    pub fn due_totals(&mut self, t: u64, first: &[usize], second: &[usize]) -> (u64, u64)
        requires first { length self.old.orders ≤ length first.now }
        requires first_fits { sum first.now < 2 ^ 64 }
        requires second { length self.old.orders ≤ length second.now }
        requires second_fits { sum second.now < 2 ^ 64 }
        ensures first { result.0 ≡ sum (due_sizes t self.old.orders first.now) }
        ensures second { result.1 ≡ sum (due_sizes t self.old.orders second.now) }
        ensures kept { self.new.orders ≡ self.old.orders }
        ensures cost { self.new.probes ≤ 2 * count_by (is_due_by t) self.old.orders + 1 }
        ensures least { count_by (is_due_by t) self.old.orders ≤ self.new.probes }
    {
        self.probes = 0;
        let sizes = (first, second);
        self.heap
            .due_below(&self.orders, sizes, t, 0, &mut self.probes)
    }

    /// The room: the keys below it can have an order.
    pub fn room(&self) -> usize
        ensures { result ≡ length self.now.orders }
    {
        self.orders.len()
    }

    /// The comparisons of the latest call that sets this number. For `set`, `clear` and `pop` it
    /// has an upper bound alone, and for `set` it is at least 1.
    pub fn probes(&self) -> u64
        ensures { result ≡ self.now.probes }
    {
        self.probes
    }
}
