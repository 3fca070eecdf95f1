//! The table of objects of all slots.

ghost use Rattle.std.specs.Prelude.{◌≡◌, ℕ, ◌+◌, ◌<◌, ◌≤◌, ◌↔◌, [], ◌∷◌, ◌++◌, length, map};
ghost use Rattle.std.specs.Prelude.{sum_by, All, Some, None, Err, IfOk, IfErr, OnOk, OnErr};
ghost use Rattle.std.specs.Prelude.{IfSome, is_some, slice_get, slice_index, option_map};
ghost use Rattle.std.specs.Prelude.{option_copied};
ghost use Rattle.std.specs.Option.{option_copied_mut};
ghost use Rattle.std.specs.Borrow.{sem};
ghost use Rattle.trdp_model.specs.declared.any_object.AnyObject.{AnyObject};
ghost use Rattle.trdp_model.specs.declared.kind.Kind.{Kind};
ghost use Rattle.trdp_base.specs.QuotaLimits.{quota_limit};
ghost use Rattle.trdp_model.specs.Kinds.{kind_index, kind_of};
ghost use Rattle.trdp_table.specs.Tables.{Keyed, opened_slot, slot_in, all_quotas};
ghost use Rattle.trdp_model.specs.Slots.{slot_limit};
ghost use Rattle.trdp_table.specs.Tables.{all_objects, by_handle, by_key, refusal, Adds};
ghost use Rattle.trdp_table.specs.Tables.{changed_at, without_handle, with_next, exchanged};
ghost use Rattle.trdp_table.specs.Tables.{count_of, room_of};
ghost use Rattle.trdp_table.specs.Tables.{with_other_by_handle};
ghost use Rattle.trdp_table.specs.TableLaws.{AreLimited, object_limit, IsTable};
ghost use Rattle.trdp_table.specs.Entries.{opened_entries};

use crate::fault::TableFault;
use crate::held::Held;
use crate::pool::Pool;
use crate::slot::{Slot, room_of};
use std::alloc::{AllocError, Global};
use std::marker::Model;
use trdp_base::Quotas;
use trdp_model::{AnyObject, Kind, SLOTS_MAX};

/// The objects of all slots of a node, at most 16, each object under a handle of its slot and a key
/// of the table.
#[derive(Drop)]
pub struct Table {
    /// The allocator that a further slot takes its memory from.
    alloc: Global,
    /// The slots by their numbers, from 0.
    slots: Vec<Slot>,
    /// The objects of all slots, each under the key that its slot names.
    pool: Pool,
}

impl Model for Table {
    ghost use Rattle.trdp_table.specs.Tables.{TableState};
    ghost use Rattle.trdp_table.specs.TableKept.{table_seen, IsKeptTable};

    ghost Value = { TableState };

    ghost view = { λ t. table_seen t.pool t.slots.items };

    ghost invariant = { λ t. IsKeptTable t.slots.items t.pool };
}

/// An empty slot for each of the quotas.
fn opened(alloc: Global, quotas: &[Quotas]) -> Result<Vec<Slot>, AllocError>
    ensures slots { IfOk result (λ slots. slots.items ≡ map opened_entries quotas.now) }
    ensures limited { OnOk result (All AreLimited quotas.now) }
{
    let mut slots = Vec::with_capacity(alloc, quotas.len())?;
    for slot_quotas in quotas {
        slots.push_reserved(Slot::new(alloc, *slot_quotas)?);
    }
    Ok(slots)
}

/// How many objects all of the quotas allow together, at most 24,576.
fn total_room(quotas: &[Quotas]) -> usize
    requires { length quotas.now ≤ slot_limit }
    ensures { result ≡ sum_by all_quotas quotas.now }
{
    let mut room = 0;
    for slot_quotas in quotas {
        room += room_of(*slot_quotas);
    }
    room
}

impl Table {
    /// A table with an empty slot for each of the quotas, in their order, at most 16. It takes the
    /// memory for all objects that they allow.
    ///
    /// # Errors
    /// [`AllocError`] where there is no such memory.
    pub fn new(alloc: Global, quotas: &[Quotas]) -> Result<Table, AllocError>
        requires { length quotas.now ≤ slot_limit }
        ensures { IfOk result (λ table. table ≡ map opened_slot quotas.now) }
    {
        let slots = opened(alloc, quotas)?;
        let pool = Pool::new(alloc, total_room(quotas))?;
        Ok(Table { alloc, slots, pool })
    }

    /// Opens one more slot, empty, under the next number, and returns that number. It takes the
    /// memory for all objects that the quotas allow; present objects keep their handles and keys.
    ///
    /// # Errors
    /// The first that applies of `SlotsFull`, where there are 16 slots, and `OutOfMemory`; nothing
    /// has changed.
    pub fn add_slot(&mut self, quotas: Quotas) -> Result<u16, TableFault>
        ensures slot { IfOk result (λ slot. slot ≡ length self.old) }
        ensures added { OnOk result (self.new ≡ self.old ++ opened_slot quotas ∷ []) }
        ensures room { OnOk result (room_of self.new ≡ room_of self.old + all_quotas quotas) }
        ensures full { (result ≡ Err TableFault.SlotsFull) ↔ (slot_limit ≤ length self.old) }
        ensures memory { length self.old < slot_limit
            → OnErr result (result ≡ Err TableFault.OutOfMemory) }
        ensures kept { OnErr result (self.new ≡ self.old) }
    {
        let number = self.slots.len();
        if number >= SLOTS_MAX {
            return Err(TableFault::SlotsFull);
        }
        self.slots.reserve_exact(1)?;
        let slot = Slot::new(self.alloc, quotas)?;
        self.pool.grow(room_of(quotas))?;
        self.slots.push_reserved(slot);
        Ok(number as u16)
    }

    /// How many slots there are, at most 16.
    pub fn slots(&self) -> usize
        ensures count { result ≡ length self.now }
        ensures within { result ≤ slot_limit }
    {
        self.slots.len()
    }

    /// How many objects all slots together can have, which is the total of their quotas. Each key
    /// is below this number. Only a slot that is added changes it: it rises.
    pub fn room(&self) -> usize
        ensures { result ≡ room_of self.now }
    {
        self.pool.room()
    }

    /// How many objects a slot has, at most 1,536.
    pub fn count(&self, slot: u16) -> usize
        requires { slot < length self.now }
        ensures count { result ≡ length (slot_in slot self.now).objects }
        ensures within { result ≤ object_limit }
    {
        self.slots[usize::from(slot)].count()
    }

    /// The key of a slot's object of that index, by rising handle from 0; None past the last one.
    pub fn at(&self, slot: u16, index: usize) -> Option<usize>
        requires { slot < length self.now }
        ensures { result
            ≡ option_map (λ keyed. keyed.key) (slice_get (slot_in slot self.now).objects index) }
    {
        let entry = self.slots[usize::from(slot)].entry_at(index)?;
        Some(entry.key)
    }

    /// The key of a slot's object of that handle; None where the slot has none.
    pub fn find(&self, slot: u16, handle: u32) -> Option<usize>
        requires { slot < length self.now }
        ensures { result
            ≡ option_map (λ keyed. keyed.key)
            (by_handle handle (slot_in slot self.now).objects) }
    {
        self.slots[usize::from(slot)].find(handle)
    }

    /// What [`Table::find`] returns. It looks first under the key that the object is known to have
    /// had, and searches only where the object has another one, or none is known.
    pub fn find_near(&self, slot: u16, handle: u32, known: Option<usize>) -> Option<usize>
        requires { slot < length self.now }
        ensures { result
            ≡ option_map (λ keyed. keyed.key)
            (by_handle handle (slot_in slot self.now).objects) }
    {
        if let Some(key) = known
            && let Some(held) = self.pool.get(key)
            && held.slot == slot
            && held.handle == handle
        {
            return Some(key);
        }
        self.find(slot, handle)
    }

    /// The object of that key; None where no slot has one.
    pub fn get(&self, key: usize) -> Option<&AnyObject>
        ensures { option_copied result
            ≡ option_map (λ keyed. keyed.object) (by_key key (all_objects self.now)) }
    {
        match self.pool.get(key) {
            Some(held) => Some(&held.object),
            None => None,
        }
    }

    /// The slot and the handle of the object of that key; None where no slot has one.
    pub fn owner(&self, key: usize) -> Option<(u16, u32)>
        ensures owner { IfSome result
            (λ owner. by_handle owner.1 (slot_in owner.0 self.now).objects
            ≡ by_key key (all_objects self.now)) }
        ensures variant { is_some result ≡ is_some (by_key key (all_objects self.now)) }
    {
        match self.pool.get(key) {
            Some(held) => Some((held.slot, held.handle)),
            None => None,
        }
    }

    /// Why a slot takes no further object of a kind: the first that applies of its quota and its
    /// handles, as [`Table::add`] reports it. None where it takes one.
    pub fn refuses(&self, slot: u16, kind: Kind) -> Option<TableFault>
        requires { slot < length self.now }
        ensures { result ≡ refusal (slot_in slot self.now) kind }
    {
        self.slots[usize::from(slot)].refuses(kind)
    }

    /// How many objects of a kind a slot has, and how many it may have, each at most 256.
    pub fn usage(&self, slot: u16, kind: Kind) -> (u16, u16)
        requires { slot < length self.now }
        ensures count { result.0 ≡ count_of kind (slot_in slot self.now).objects }
        ensures quota { result.1 ≡ slice_index (slot_in slot self.now).quotas (kind_index kind) }
        ensures full { result.0 ≤ result.1 }
        ensures within { result.1 ≤ quota_limit }
    {
        self.slots[usize::from(slot)].usage(kind)
    }

    /// Adds an object that the slot doesn't refuse, and returns its handle.
    fn install(&mut self, slot: u16, object: AnyObject) -> u32
        requires slot { slot < length self.old }
        requires granted { refusal (slot_in slot self.old) (kind_of object) ≡ None }
        ensures handle { result ≡ (slot_in slot self.old).next }
        ensures added { Adds slot object self.old self.new }
    {
        let kind = Kind::of(&object);
        let handle = self.slots[usize::from(slot)].next_handle();
        let held = Held {
            slot,
            handle,
            object,
        };
        let key = self.pool.insert(held);
        self.slots[usize::from(slot)].add(kind, key);
        handle
    }

    /// Adds an object to a slot, last, under the slot's next handle, and returns that handle. It
    /// takes no memory.
    ///
    /// # Errors
    /// The object, and the first that applies of `Quota` and `Exhausted`; nothing has changed.
    pub fn add(&mut self, slot: u16, object: AnyObject) -> Result<u32, (AnyObject, TableFault)>
        requires { slot < length self.old }
        ensures handle { IfOk result (λ handle. handle ≡ (slot_in slot self.old).next) }
        ensures granted { OnOk result
            (refusal (slot_in slot self.old) (kind_of object) ≡ None) }
        ensures added { OnOk result (Adds slot object self.old self.new) }
        ensures returned { IfErr result (λ refused. refused.0 ≡ object) }
        ensures fault { IfErr result
            (λ refused. refusal (slot_in slot self.old) (kind_of object) ≡ Some refused.1) }
        ensures kept { OnErr result (self.new ≡ self.old) }
    {
        match self.refuses(slot, Kind::of(&object)) {
            Some(fault) => Err((object, fault)),
            None => Ok(self.install(slot, object)),
        }
    }

    /// Takes a slot's object of that handle out of the table; all other objects keep their keys.
    /// None where the slot has no such object; nothing has changed.
    pub fn remove(&mut self, slot: u16, handle: u32) -> Option<AnyObject>
        requires { slot < length self.old }
        ensures object { result
            ≡ option_map (λ keyed. keyed.object)
            (by_handle handle (slot_in slot self.old).objects) }
        ensures table { self.new ≡ changed_at slot (without_handle handle) self.old }
    {
        let key = self.slots[usize::from(slot)].remove(handle)?;
        let held = self.pool.remove(key);
        Some(held.object)
    }

    /// Makes a slot's next handle at least this; for tests of the last handles.
    pub fn raise(&mut self, slot: u16, next: u32)
        requires { slot < length self.old }
        ensures { self.new ≡ changed_at slot (with_next next) self.old }
    {
        self.slots[usize::from(slot)].raise(next);
    }
}

impl Table {
    ghost use Rattle.trdp_table.specs.Lending.{LendsAtKey};

    /// Lends the object of that key alone; None where no slot has one. Whatever the caller makes
    /// of it, its handle and its key stay, and it counts for the quota of the kind that it was
    /// added with.
    pub fn get_mut(&mut self, key: usize) -> Option<&mut AnyObject>
        ensures* writes_back { sem 𝓛 (LendsAtKey self.entry key result) }
        ensures value { option_copied_mut result
            ≡ option_map (λ keyed. keyed.object) (by_key key (all_objects self.old)) }
    {
        if self.pool.get(key).is_some() {
            Some(self.pool.object_mut(key))
        } else {
            None
        }
    }
}

impl Table {
    /// What holds of every table: a law for callers, which does nothing when it runs. Handles
    /// rise, quotas are kept, and no key is that of two objects. The object of a handle, or of an
    /// index, is that of its key; where it is exchanged for another one, all other objects stay.
    /// The room is for all objects, and for one more while a slot takes one.
    pub fn sound(&self)
        ensures sound { IsTable self.now }
        ensures found { (s handle : ℕ) (keyed : Keyed)
            → by_handle handle (slot_in s self.now).objects ≡ Some keyed
            → by_key keyed.key (all_objects self.now) ≡ Some keyed }
        ensures listed { (s index : ℕ) (keyed : Keyed)
            → slice_get (slot_in s self.now).objects index ≡ Some keyed
            → by_handle keyed.handle (slot_in s self.now).objects ≡ Some keyed }
        ensures exchanged { (s handle : ℕ) (keyed : Keyed) (object : AnyObject)
            → by_handle handle (slot_in s self.now).objects ≡ Some keyed
            → exchanged keyed.key self.now object
            ≡ changed_at s (with_other_by_handle handle object) self.now }
        ensures room { length (all_objects self.now) ≤ room_of self.now }
        ensures spare { (s : ℕ) (kind : Kind)
            → s < length self.now
            → refusal (slot_in s self.now) kind ≡ None
            → length (all_objects self.now) < room_of self.now }
    {
        let _ = &self.slots;
    }
}
