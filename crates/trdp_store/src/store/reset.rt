//! A slot loses all objects at once.

ghost use Rattle.std.specs.Prelude.{◌≡◌, ℕ, ◌+◌, ◌*◌, ◌^◌, ◌<◌, ◌≤◌, length, slice_set};
ghost use Rattle.std.specs.Prelude.{IfSome, slice_get};
ghost use Rattle.trdp_model.specs.Slots.{emptied};
ghost use Rattle.trdp_table.specs.Tables.{slot_in, room_of, changed_at};
ghost use Rattle.trdp_table.specs.Tables.{without_handle, without_objects};
ghost use Rattle.trdp_store.specs.Acting.{slot_at};
ghost use Rattle.trdp_store.specs.TableSlots.{slots_of};
ghost use Rattle.trdp_store.specs.Timed.{IsScheduled};

use crate::schedule::Schedule;
use crate::store::Store;
use trdp_table::Table;

/// Takes a slot's object of that index, by rising handle from 0, out of the table and the
/// schedule; all others stay. It returns how often it compared two orders.
fn take_at(table: &mut Table, schedule: &mut Schedule, slot: u16, index: usize) -> u64
    requires slot { slot < length table.old }
    requires index { index < length (slot_in slot table.old).objects }
    requires scheduled { IsScheduled table.old schedule.old }
    ensures scheduled { IsScheduled table.new schedule.new }
    ensures table { IfSome (slice_get (slot_in slot table.old).objects index)
        (λ keyed. table.new ≡ changed_at slot (without_handle keyed.handle) table.old) }
    ensures fewer { length (slot_in slot table.old).objects
        ≡ length (slot_in slot table.new).objects + 1 }
    ensures others { changed_at slot without_objects table.new
        ≡ changed_at slot without_objects table.old }
    ensures cost { (b : ℕ) → room_of table.old < 2 ^ b → result ≤ 2 * b + 2 }
{
    table.sound();
    let Some(key) = table.at(slot, index) else {
        return 0;
    };
    let Some((_, handle)) = table.owner(key) else {
        return 0;
    };
    let comparisons = schedule.dismiss(key);
    table.remove(slot, handle);
    comparisons
}

/// Takes a slot's objects, the last first, out of the table and the schedule; all others stay. It
/// returns how often it compared two orders.
fn take_all(table: &mut Table, schedule: &mut Schedule, slot: u16) -> u64
    requires slot { slot < length table.old }
    requires scheduled { IsScheduled table.old schedule.old }
    ensures table { table.new ≡ changed_at slot without_objects table.old }
    ensures scheduled { IsScheduled table.new schedule.new }
    ensures cost { (b : ℕ) → room_of table.old < 2 ^ b
        → result ≤ length (slot_in slot table.old).objects * (2 * b + 2) }
{
    let mut comparisons = 0u64;
    let mut left = table.count(slot);
    while left > 0 {
        left -= 1;
        comparisons = comparisons.saturating_add(take_at(table, schedule, slot, left));
    }
    comparisons
}

impl Store {
    /// Takes all objects of a slot out of the store; its next handle stays, and every other slot
    /// is as it was. It goes once through each index, and takes the slot's objects, the last
    /// first, out of the table and the schedule. It returns how often it compared two orders.
    pub fn reset(&mut self, slot: u16) -> u64
        requires slot { slot < length self.old }
        ensures table { self.new ≡ changed_at slot without_objects self.old }
        ensures slots { slots_of self.new
            ≡ slice_set (slots_of self.old) slot (emptied (slot_at slot self.old)) }
        ensures cost { (b : ℕ) → room_of self.old < 2 ^ b
            → result ≤ length (slot_in slot self.old).objects * (2 * b + 2) }
    {
        self.table.sound();
        self.sessions.sound();
        self.coms.remove_slot(slot);
        self.sessions.remove_slot(slot);
        take_all(&mut self.table, &mut self.schedule, slot)
    }
}
