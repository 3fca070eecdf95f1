//! Keys come into a heap and leave it; it gets room for more.

ghost use Rattle.std.specs.Prelude.{◌≡◌, ◌<◌, ◌≤◌, ◌+◌, ◌-◌, ◌++◌, length, replicate, None};
ghost use Rattle.std.specs.Prelude.{IsSome, is_some, OnOk, count_by, slice_index_or, slice_set};
ghost use Rattle.std.specs.Prelude.{vec_len, vec_capacity};
ghost use Rattle.trdp_timers.specs.Heap.{order_at, IsHeap, FitsAt, IsPlaced, IsKept};

use crate::heap::Heap;
use crate::order::Order;
use std::alloc::AllocError;

impl Heap {
    /// Makes room for this many keys.
    ///
    /// # Errors
    /// [`AllocError`] where there is no memory for them; no key and no place has changed.
    pub fn make_room(&mut self, room: usize) -> Result<(), AllocError>
        requires keys { vec_len self.old.keys ≤ room }
        requires places { vec_len self.old.places ≤ room }
        ensures keys { self.new.keys.items ≡ self.old.keys.items }
        ensures places { self.new.places.items ≡ self.old.places.items }
        ensures capacity { vec_capacity self.old.keys ≤ vec_capacity self.new.keys }
        ensures keys_room { OnOk result (room ≤ vec_capacity self.new.keys) }
        ensures places_room { OnOk result (room ≤ vec_capacity self.new.places) }
    {
        self.keys.reserve(room - self.keys.len())?;
        self.places.reserve(room - self.places.len())
    }

    /// Lets each key below `room` have a place, within the room that was made.
    pub fn add_places(&mut self, room: usize)
        requires longer { vec_len self.old.places ≤ room }
        requires room { room ≤ vec_capacity self.old.places }
        ensures keys { self.new.keys ≡ self.old.keys }
        ensures places { self.new.places.items
            ≡ self.old.places.items ++ replicate (room - length self.old.places.items) 0 }
    {
        self.places.resize(room, 0).unwrap();
    }

    /// The place of a key that has an order now and had `was` before; one that had none comes in,
    /// at the end.
    pub fn admit(&mut self, orders: &Vec<Option<Order>>, key: usize, was: Option<Order>) -> usize
        requires key { key < length orders.now.items }
        requires set { IsSome (slice_index_or orders.now.items key None) }
        requires kept { IsKept (slice_set orders.now.items key was)
            self.old.keys.items self.old.places.items (vec_capacity self.old.keys) }
        ensures place { result < length self.new.keys.items }
        ensures placed { IsPlaced orders.now.items self.new.keys.items self.new.places.items }
        ensures order { FitsAt (length self.new.keys.items)
            (order_at orders.now.items self.new.keys.items) result was }
        ensures count { length self.new.keys.items ≡ count_by is_some orders.now.items }
        ensures places { length self.new.places.items ≡ length self.old.places.items }
        ensures capacity { vec_capacity self.new.keys ≡ vec_capacity self.old.keys }
    {
        if was.is_some() {
            return self.places[key];
        }
        let place = self.keys.len();
        self.places[key] = place;
        self.keys.push_reserved(key);
        place
    }

    /// Removes a key that has an order, and returns the place where it was: the last key is there
    /// now, unless it was itself the last.
    pub fn withdraw(&mut self, orders: &Vec<Option<Order>>, key: usize) -> usize
        requires set { IsSome (slice_index_or orders.now.items key None) }
        requires kept { IsKept orders.now.items
            self.old.keys.items self.old.places.items (vec_capacity self.old.keys) }
        ensures placed { IsPlaced (slice_set orders.now.items key None)
            self.new.keys.items self.new.places.items }
        ensures order { result < length self.new.keys.items
            → FitsAt (length self.new.keys.items)
            (order_at (slice_set orders.now.items key None) self.new.keys.items)
            result (slice_index_or orders.now.items key None) }
        ensures heap { length self.new.keys.items ≤ result
            → IsHeap (length self.new.keys.items)
            (order_at (slice_set orders.now.items key None) self.new.keys.items) }
        ensures count { length self.new.keys.items
            ≡ count_by is_some (slice_set orders.now.items key None) }
        ensures fewer { length self.new.keys.items + 1 ≡ length self.old.keys.items }
        ensures places { length self.new.places.items ≡ length self.old.places.items }
        ensures capacity { vec_capacity self.new.keys ≡ vec_capacity self.old.keys }
    {
        let place = self.places[key];
        let _ = self.keys.swap_remove(place);
        if place < self.keys.len() {
            let moved = self.keys[place];
            self.places[moved] = place;
        }
        place
    }
}
