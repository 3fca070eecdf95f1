//! The objects of all slots, the indexes by which a telegram finds those that it may be for, and
//! the heap by which a moment finds those that are due.

ghost use Rattle.std.specs.Prelude.{◌≡◌, ℕ, ◌<◌, ◌≤◌, length, map, Some, None, IfOk, IfErr, OnOk};
ghost use Rattle.std.specs.Prelude.{OnErr, IfNone, IfSome, slice_get};
ghost use Rattle.std.specs.Prelude.{◌+◌, ◌-◌, ◌*◌, ◌^◌, Option, is_some, option_map, option_copied};
ghost use Rattle.trdp_model.specs.declared.any_object.AnyObject.{AnyObject};
ghost use Rattle.trdp_model.specs.Kinds.{kind_of};
ghost use Rattle.trdp_model.specs.Objects.{due_of};
ghost use Rattle.trdp_table.specs.Tables.{Keyed, opened_slot, slot_in};
ghost use Rattle.trdp_model.specs.Slots.{slot_limit};
ghost use Rattle.trdp_table.specs.Tables.{by_handle, Adds, changed_at, without_handle};
ghost use Rattle.trdp_table.specs.Tables.{all_objects, by_key, refusal, room_of};
ghost use Rattle.trdp_table.specs.TableLaws.{object_limit};
ghost use Rattle.trdp_model.specs.Slots.{entry_under};
ghost use Rattle.trdp_model.specs.Openings.{opening_refusal};
ghost use Rattle.trdp_table.specs.Refusals.{table_refusal};
ghost use Rattle.trdp_model.specs.Calls.{at_object};
ghost use Rattle.trdp_store.specs.TableSlots.{slots_of};
ghost use Rattle.trdp_store.specs.Firing.{ComesNext};
ghost use Rattle.trdp_model.specs.NodeModels.{due_in};
ghost use Rattle.trdp_outbox.specs.Rooms.{moment_room};
ghost use Rattle.trdp_store.specs.Acting.{slot_at, Becomes};
ghost use Rattle.trdp_store.specs.Indexed.{com_found, rows_from};
ghost use Rattle.trdp_base.specs.declared.session.SessionId.{SessionId};
ghost use Rattle.trdp_index.specs.declared.session_row.Role.{Role};
ghost use Rattle.trdp_model.specs.Requests.{has_session};
ghost use Rattle.trdp_store.specs.InSession.{own_session, session_in, session_found, kind_as};
ghost use Rattle.trdp_store.specs.InSession.{IsNewInSession, HasPart};
ghost use Rattle.trdp_store.specs.Counting.{compared_for, looked_up_for};

use crate::by_com::{com_of, delist, enlist};
use crate::by_session::{enter, leave, session_of};
use crate::counts::Counts;
use crate::deed::{Deed, Left};
use crate::schedule::Schedule;
use crate::sought::Sought;
use std::alloc::{AllocError, Global};
use std::marker::Model;
use trdp_base::{Quotas, SessionId};
use trdp_index::{ComIndex, ComRow, Role, SessionIndex};
use trdp_model::AnyObject;
use trdp_outbox::{Outbox, Room};
use trdp_pd::Object;
use trdp_table::{Table, TableFault};

mod added;
mod reads;
mod reset;

/// The objects of all slots of a node, with an index of those that telegrams of a comId may be
/// for, one of those that are in a session, and a schedule of when each is due.
#[derive(Drop)]
pub struct Store {
    /// The objects, each under a handle of its slot and a key.
    table: Table,
    /// A row for each publisher, subscription and listener.
    coms: ComIndex,
    /// The callers and repliers, by identifier, slot and role.
    sessions: SessionIndex,
    /// The due moments, and the room that each object may need.
    schedule: Schedule,
}

impl Model for Store {
    ghost use Rattle.trdp_table.specs.Tables.{TableState};
    ghost use Rattle.trdp_store.specs.Timed.{IsStore};

    ghost Value = { TableState };

    ghost view = { λ s. s.table };

    ghost invariant = { λ s. IsStore s.table s.coms s.sessions s.schedule };
}

impl Store {
    /// A store with an empty slot for each of the quotas, in their order, at most 16. It takes the
    /// memory for all objects that they allow.
    ///
    /// # Errors
    /// [`AllocError`] where there is no such memory.
    pub fn new(alloc: Global, quotas: &[Quotas]) -> Result<Store, AllocError>
        requires { length quotas.now ≤ slot_limit }
        ensures { IfOk result (λ store. store ≡ map opened_slot quotas.now) }
    {
        let table = Table::new(alloc, quotas)?;
        table.sound();
        let room = table.room();
        let coms = ComIndex::with_room(alloc, room)?;
        let sessions = SessionIndex::with_room(alloc, room)?;
        let schedule = Schedule::with_room(alloc, room)?;
        Ok(Store {
            table,
            coms,
            sessions,
            schedule,
        })
    }

    /// The rows of the objects that telegrams look for under that comId, or under any, by slot and
    /// handle. It adds its comparisons of two rows to the number.
    pub fn run(&self, com_id: Option<u32>, comparisons: &mut u64) -> &[ComRow]
        requires { comparisons.old ≤ 2 ^ 32 }
        ensures rows { result.now ≡ rows_from 0 com_id self.now }
        ensures few { length result.now ≤ 16 * object_limit }
        ensures cost { (b : ℕ) → room_of self.now < 2 ^ b
            → comparisons.new ≤ comparisons.old + 2 * b }
    {
        self.table.sound();
        self.coms.run(com_id, comparisons)
    }

    /// The object of that key; None where no slot has one.
    pub fn get(&self, key: usize) -> Option<&AnyObject>
        ensures { option_copied result
            ≡ option_map (λ keyed. keyed.object) (by_key key (all_objects self.now)) }
    {
        self.table.get(key)
    }

    /// The key of a slot's object that is in a session in that role; None where there is none.
    pub fn session(&self, slot: u16, session: SessionId, role: Role) -> Option<usize>
        ensures key { IfSome result
            (λ key. HasPart (slot_in slot self.now).objects (session, role) key) }
        ensures variant { is_some result
            ≡ has_session (kind_as role) session (slot_at slot self.now).objects }
    {
        self.table.sound();
        self.sessions.get(session, slot, role)
    }

    /// The handle and the key of a slot's object that is in a session in that role; None where
    /// there is none.
    pub fn find_in(&self, slot: u16, session: SessionId, role: Role) -> Option<(u32, usize)>
        ensures found { IfSome result
            (λ found. session_in slot found.0 self.now ≡ Some (session, role)) }
        ensures key { IfSome result (λ found. Some found.1
            ≡ option_map (λ keyed. keyed.key)
            (by_handle found.0 (slot_in slot self.now).objects)) }
        ensures alone { (index : ℕ) (keyed : Keyed)
            → slice_get (slot_in slot self.now).objects index ≡ Some keyed
            → own_session keyed.object ≡ Some (session, role)
            → option_map (λ found. found.0) result ≡ Some keyed.handle }
    {
        self.table.sound();
        let key = self.sessions.get(session, slot, role)?;
        let (_, handle) = self.table.owner(key)?;
        Some((handle, key))
    }

    /// Adds an object to a slot, last, under the slot's next handle, and returns that handle. It
    /// takes no memory, and counts how often it compared two orders.
    ///
    /// # Errors
    /// The object, and the first that applies of `Quota` and `Exhausted`; nothing has changed.
    pub fn add(
        &mut self,
        slot: u16,
        object: AnyObject,
        counts: &mut Counts,
    ) -> Result<u32, (AnyObject, TableFault)>
        requires slot { slot < length self.old }
        requires fresh { IsNewInSession object (slot_at slot self.old).objects }
        ensures handle { IfOk result (λ handle. handle ≡ (slot_in slot self.old).next) }
        ensures granted { OnOk result
            (opening_refusal (slot_at slot self.old) (kind_of object) ≡ None) }
        ensures added { OnOk result (Adds slot object self.old self.new) }
        ensures returned { IfErr result (λ refused. refused.0 ≡ object) }
        ensures fault { IfErr result
            (λ refused. opening_refusal (slot_at slot self.old) (kind_of object)
            ≡ Some (table_refusal refused.1)) }
        ensures table_fault { IfErr result
            (λ refused. refusal (slot_in slot self.old) (kind_of object) ≡ Some refused.1) }
        ensures kept { OnErr result (self.new ≡ self.old) }
        ensures comparisons { (b : ℕ) → room_of self.old < 2 ^ b
            → counts.new.comparisons ≤ counts.old.comparisons + (2 * b + 2) }
        ensures tests { counts.new.tests ≡ counts.old.tests }
        ensures look_ups { counts.new.look_ups ≡ counts.old.look_ups }
    {
        let sought = com_of(&object);
        let own = session_of(&object);
        let due = object.due();
        let room = Room::of(&object);
        self.table.sound();
        self.coms.sound();
        match self.table.add(slot, object) {
            Err(refused) => Err(refused),
            Ok(handle) => {
                self.table.sound();
                if let Some(key) = self.table.find(slot, handle) {
                    enlist(&mut self.coms, sought, slot, handle, key);
                    enter(&mut self.sessions, own, slot, key);
                    self.schedule.admit(key, room);
                    // A new object has no order yet.
                    counts.compared(self.schedule.change(key, slot, handle, None, due));
                }
                Ok(handle)
            }
        }
    }

    /// The comId, or any, under which telegrams look for the object of a key; None where they look
    /// for none there by comId.
    fn com_at(&self, key: usize) -> Option<Option<u32>>
        ensures { result ≡ com_found (by_key key (all_objects self.now)) }
    {
        com_of(self.table.get(key)?)
    }

    /// The session of the object of a key, and its role there; None where it is in none.
    fn session_at(&self, key: usize) -> Option<(SessionId, Role)>
        ensures { result ≡ session_found (by_key key (all_objects self.now)) }
    {
        session_of(self.table.get(key)?)
    }

    /// Takes a slot's object of that handle, whose key this is, out of the store; all other
    /// objects keep their keys. It returns how often it compared two orders.
    fn remove(&mut self, slot: u16, handle: u32, key: usize) -> u64
        requires slot { slot < length self.old }
        requires key { option_map (λ keyed. keyed.key)
            (by_handle handle (slot_in slot self.old).objects) ≡ Some key }
        ensures table { self.new ≡ changed_at slot (without_handle handle) self.old }
        ensures cost { (b : ℕ) → room_of self.old < 2 ^ b → result ≤ 2 * b + 2 }
        ensures idle { (keyed : Keyed)
            → by_handle handle (slot_in slot self.old).objects ≡ Some keyed
            → due_of keyed.object ≡ None → result ≡ 0 }
    {
        self.table.sound();
        let sought = self.com_at(key);
        let own = self.session_at(key);
        delist(&mut self.coms, sought, slot, handle);
        leave(&mut self.sessions, own, slot);
        let comparisons = self.schedule.dismiss(key);
        self.table.remove(slot, handle);
        comparisons
    }
}

impl Store {
    /// The object that fires next of those that are due by `t`, in microseconds, of all slots, with
    /// the key of its order. None where nothing is due by then.
    pub fn next_due(&mut self, t: u64) -> Option<Sought>
        ensures next { ComesNext t self.old result }
        ensures key { IfSome result (λ sought. sought.key
            ≡ option_map (λ keyed. keyed.key)
            (by_handle sought.handle (slot_in sought.slot self.old).objects)) }
        ensures kept { self.new ≡ self.old }
    {
        self.table.sound();
        let (key, order) = self.schedule.first_due(t)?;
        Some(Sought {
            slot: order.slot,
            handle: order.handle,
            key: Some(key),
        })
    }

    /// Room for the records of what fires in all slots by `t`, in microseconds, and how often an
    /// order was compared with `t`.
    pub fn due_room(&mut self, t: u64) -> (Room, u64)
        ensures room { result.0 ≡ moment_room t (slots_of self.old) }
        ensures kept { self.new ≡ self.old }
        ensures cost { result.1 ≤ 2 * due_in t (slots_of self.old) + 1 }
    {
        self.table.sound();
        self.schedule.due_room(t)
    }

    /// Does a deed to the object that is sought, if there is one; an object that ends leaves the
    /// store. It returns whether the object stays, and how often two orders were compared; None
    /// where there is no such object, and nothing was done.
    pub fn act<D: Deed>(
        &mut self,
        sought: Sought,
        deed: &D,
        out: &mut Outbox,
    ) -> Option<(Left, u64)>
        requires slot { sought.slot < length self.old }
        requires may { IfSome (entry_under sought.handle (slot_at sought.slot self.old).objects)
            (λ entry. D.may deed.now sought.handle entry.object out.old) }
        ensures done { IfSome result (λ _. Becomes sought.slot
            (at_object (slot_at sought.slot self.old) sought.handle
            (D.act deed.now sought.handle)) self.old self.new out.old out.new) }
        ensures spends { IfSome result
            (λ _. IfSome (entry_under sought.handle (slot_at sought.slot self.old).objects)
            (λ entry. D.spends deed.now entry.object out.old out.new)) }
        ensures found { is_some result
            ≡ is_some (entry_under sought.handle (slot_at sought.slot self.old).objects) }
        ensures kept { IfNone result (self.new ≡ self.old) }
        ensures unrecorded { IfNone result (out.new ≡ out.old) }
        ensures comparisons { IfSome result (λ did. (b : ℕ) → room_of self.old < 2 ^ b
            → did.1 ≤ 4 * b + 4) }
        ensures still { IfSome result (λ did. D.ends_still deed.now → (b : ℕ)
            → room_of self.old < 2 ^ b → did.1 ≤ 2 * b + 2) }
    {
        let Sought { slot, handle, .. } = sought;
        self.table.sound();
        let key = self.table.find_near(slot, handle, sought.key)?;
        let object = self.table.get_mut(key)?;
        let before = object.due();
        let left = deed.on(object, handle, slot, out);
        let due = object.due();
        let changed = self.schedule.change(key, slot, handle, before, due);
        match left {
            Left::Stays => Some((left, changed)),
            Left::Ended => Some((left, changed.saturating_add(self.remove(slot, handle, key)))),
        }
    }
}

/// Counts what a deed cost: its comparisons, and a look-up where the object ended.
pub fn count_act(did: Option<(Left, u64)>, counts: &mut Counts)
    ensures comparisons { counts.new.comparisons ≤ counts.old.comparisons + compared_for did }
    ensures all_comparisons { counts.new.comparisons < 2 ^ 64 - 1
        → counts.new.comparisons ≡ counts.old.comparisons + compared_for did }
    ensures tests { counts.new.tests ≡ counts.old.tests }
    ensures look_ups { counts.new.look_ups ≤ counts.old.look_ups + looked_up_for did }
    ensures all_look_ups { counts.new.look_ups < 2 ^ 64 - 1
        → counts.new.look_ups ≡ counts.old.look_ups + looked_up_for did }
{
    let Some((left, comparisons)) = did else {
        return;
    };
    counts.compared(comparisons);
    if let Left::Ended = left {
        counts.looked_up();
    }
}
