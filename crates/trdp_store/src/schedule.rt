//! When the objects of all slots fire, in one heap, and the room that each may need then.

ghost use Rattle.std.specs.Prelude.{◌≡◌, ◌<◌, ◌≤◌, ◌+◌, ◌-◌, ◌*◌, ◌^◌, ◌++◌, ℕ, length, None};
ghost use Rattle.std.specs.Prelude.{IfOk, OnOk, is_ok, if◌then◌else◌};
ghost use Rattle.std.specs.Prelude.{MatchOption, slice_index_or, slice_set, sum, replicate};
ghost use Rattle.std.specs.Prelude.{count_by, is_some};
ghost use Rattle.trdp_table.specs.TableLaws.{object_limit};
ghost use Rattle.trdp_timers.specs.Orders.{is_due_by};
ghost use Rattle.trdp_timers.specs.Contents.{due_sizes, IsUnset};
ghost use Rattle.trdp_store.specs.Timed.{empty_schedule, due_order};
ghost use Rattle.trdp_store.specs.Timed.{IsKeptSchedule, IsNoneDue, IsFirstDue, IsSoonest};
ghost use Rattle.trdp_outbox.specs.Rooms.{room_rows_limit, room_bytes_limit};

use std::alloc::{AllocError, Global};
use std::marker::Model;
use trdp_outbox::Room;
use trdp_timers::{Order, Timers};

/// When the objects of all slots fire, by their keys, and the room that each may need then.
#[derive(Drop)]
pub struct Schedule {
    /// The due moments, each with its slot and handle. A key has none where it has no object, or
    /// one that is never due.
    timers: Timers,
    /// How many records the object of each key adds at most as it fires; where a key has no object
    /// it says nothing.
    rows: Vec<usize>,
    /// How many bytes these records have at most, likewise.
    bytes: Vec<usize>,
}

impl Model for Schedule {
    ghost use Rattle.trdp_store.specs.Timed.{ScheduleState, IsSchedule};

    ghost Value = { ScheduleState };

    ghost view = { λ s. record {
      orders = s.timers.orders;
      rows = s.rows.items;
      bytes = s.bytes.items;
    } };

    ghost invariant = { λ s. IsSchedule s.timers.orders s.rows.items s.bytes.items };
}

/// `count` zeros.
///
/// # Errors
/// [`AllocError`] where there is no memory for them.
fn zeros(alloc: Global, count: usize) -> Result<Vec<usize>, AllocError>
    ensures { IfOk result (λ zeros. zeros.items ≡ replicate count 0) }
{
    vec![in alloc; 0; count]
}

/// Appends zeros to the sizes of the keys until each key below `room` has one.
///
/// # Errors
/// [`AllocError`] where there is no memory; the sizes have not changed.
fn lengthen(sizes: &mut Vec<usize>, room: usize) -> Result<(), AllocError>
    ensures { sizes.new.items
        ≡ (if is_ok result
        then sizes.old.items ++ replicate (room - length sizes.old.items) 0
        else sizes.old.items) }
{
    if room <= sizes.len() {
        return Ok(());
    }
    sizes.resize(room, 0)
}

impl Schedule {
    /// A schedule for the keys below `room`, none of which has an object. It takes the memory for
    /// all of them.
    ///
    /// # Errors
    /// [`AllocError`] where there is no such memory.
    pub fn with_room(alloc: Global, room: usize) -> Result<Schedule, AllocError>
        requires { room ≤ 16 * object_limit }
        ensures { IfOk result (λ schedule. schedule ≡ empty_schedule room) }
    {
        let timers = Timers::with_room(alloc, room)?;
        let rows = zeros(alloc, room)?;
        let bytes = zeros(alloc, room)?;
        Ok(Schedule {
            timers,
            rows,
            bytes,
        })
    }

    /// Makes room for the keys below `room`; the room never falls. Each key keeps its order, and
    /// the room that its object may need, whatever the result.
    ///
    /// # Errors
    /// [`AllocError`] where there is no memory for that many keys.
    pub fn grow(&mut self, room: usize) -> Result<(), AllocError>
        requires { room ≤ 16 * object_limit }
        ensures room { OnOk result (room ≤ length self.new.orders) }
        ensures rows { OnOk result (room ≤ length self.new.rows) }
        ensures bytes { OnOk result (room ≤ length self.new.bytes) }
        ensures kept { IsKeptSchedule self.old self.new }
    {
        lengthen(&mut self.rows, room)?;
        lengthen(&mut self.bytes, room)?;
        self.timers.grow(room)
    }

    /// Notes the room that the object of a key may need as it fires.
    pub fn admit(&mut self, key: usize, room: Room)
        requires key { key < length self.old.orders }
        requires rows { room.rows ≤ room_rows_limit }
        requires bytes { room.bytes ≤ room_bytes_limit }
        ensures orders { self.new.orders ≡ self.old.orders }
        ensures rows { self.new.rows ≡ slice_set self.old.rows key room.rows }
        ensures bytes { self.new.bytes ≡ slice_set self.old.bytes key room.bytes }
    {
        self.rows[key] = room.rows;
        self.bytes[key] = room.bytes;
    }

    /// Sets the due moment of a key's object from `before` to `due`, in microseconds; None where
    /// the object is never due. It returns how often it compared two orders: 0 where the moment
    /// stays.
    pub fn change(
        &mut self,
        key: usize,
        slot: u16,
        handle: u32,
        before: Option<u64>,
        due: Option<u64>,
    ) -> u64
        requires key { key < length self.old.orders }
        requires before { slice_index_or self.old.orders key None ≡ due_order slot handle before }
        ensures orders { self.new.orders
            ≡ slice_set self.old.orders key (due_order slot handle due) }
        ensures rows { self.new.rows ≡ self.old.rows }
        ensures bytes { self.new.bytes ≡ self.old.bytes }
        ensures cost { (b : ℕ) → count_by is_some self.old.orders < 2 ^ b
            → count_by is_some self.new.orders < 2 ^ b → result ≤ 2 * b + 2 }
        ensures still { due ≡ before → result ≡ 0 }
    {
        if before == due {
            return 0;
        }
        match due {
            None => self.timers.clear(key),
            Some(due) => self.timers.set(key, Order { due, slot, handle }),
        }
        self.timers.probes()
    }

    /// Removes the order of a key, if it has one. It returns how often it compared two orders: 0
    /// where the key had none.
    pub fn dismiss(&mut self, key: usize) -> u64
        ensures orders { self.new.orders ≡ slice_set self.old.orders key None }
        ensures rows { self.new.rows ≡ self.old.rows }
        ensures bytes { self.new.bytes ≡ self.old.bytes }
        ensures cost { (b : ℕ) → count_by is_some self.old.orders < 2 ^ b → result ≤ 2 * b + 2 }
        ensures idle { slice_index_or self.old.orders key None ≡ None → result ≡ 0 }
    {
        self.timers.clear(key);
        self.timers.probes()
    }

    /// The key of the first order of those that are due by `t`, in microseconds, and the order: the
    /// least by due moment, slot and handle. None where no order is due by then. It compares one
    /// due moment with `t`.
    pub fn first_due(&mut self, t: u64) -> Option<(usize, Order)>
        ensures first { MatchOption result (IsNoneDue t self.old.orders)
            (λ found. IsFirstDue t self.old.orders found.0 found.1) }
        ensures kept { self.new ≡ self.old }
    {
        let (key, order) = self.timers.first()?;
        if order.due > t {
            return None;
        }
        Some((key, order))
    }

    /// The order that comes first of all: the least by due moment, slot and handle. None where no
    /// key has one.
    pub fn soonest(&self) -> Option<Order>
        ensures first { MatchOption result (IsUnset self.now.orders)
            (λ order. IsSoonest self.now.orders order) }
    {
        let (_, order) = self.timers.peek()?;
        Some(order)
    }

    /// Room for the records of all objects that are due by `t`, in microseconds, as they fire, and
    /// how often an order was compared with `t`.
    pub fn due_room(&mut self, t: u64) -> (Room, u64)
        ensures rows { result.0.rows ≡ sum (due_sizes t self.old.orders self.old.rows) }
        ensures bytes { result.0.bytes ≡ sum (due_sizes t self.old.orders self.old.bytes) }
        ensures kept { self.new ≡ self.old }
        ensures cost { result.1 ≤ 2 * count_by (is_due_by t) self.old.orders + 1 }
    {
        let (rows, bytes) = self.timers.due_totals(t, &self.rows, &self.bytes);
        let room = Room {
            rows: rows as usize,
            bytes: bytes as usize,
        };
        (room, self.timers.probes())
    }
}
