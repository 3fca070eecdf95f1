//! What a store shows: its slots, the keys of their objects, and when something is due next.

ghost use Rattle.std.specs.Prelude.{◌≡◌, ℕ, ◌<◌, ◌≤◌, ◌*◌, length, Some};
ghost use Rattle.std.specs.Prelude.{slice_get, slice_index, option_map};
ghost use Rattle.trdp_base.specs.QuotaLimits.{quota_limit};
ghost use Rattle.trdp_model.specs.declared.any_object.AnyObject.{AnyObject};
ghost use Rattle.trdp_table.specs.Tables.{Keyed, refusal, slot_in, all_objects, room_of};
ghost use Rattle.trdp_model.specs.Kinds.{kind_index};
ghost use Rattle.trdp_model.specs.Slots.{kind_count, slot_limit};
ghost use Rattle.trdp_table.specs.Tables.{by_handle, by_key, changed_at};
ghost use Rattle.trdp_table.specs.Tables.{exchanged, with_other_by_handle};
ghost use Rattle.trdp_table.specs.TableLaws.{IsTable, object_limit};
ghost use Rattle.trdp_model.specs.Openings.{opening_refusal};
ghost use Rattle.trdp_table.specs.Refusals.{table_refusal};
ghost use Rattle.trdp_store.specs.Acting.{slot_at};
ghost use Rattle.trdp_model.specs.NodeModels.{IsNextDue};
ghost use Rattle.trdp_store.specs.TableSlots.{slots_of};

use crate::store::Store;
use trdp_model::Kind;
use trdp_table::TableFault;

impl Store {
    /// How many slots there are, at most 16.
    pub fn slots(&self) -> usize
        ensures count { result ≡ length self.now }
        ensures within { result ≤ slot_limit }
    {
        self.table.slots()
    }

    /// How many objects all slots together can have, which is the total of their quotas, at most
    /// 24,576. Only a slot that is opened changes it: it rises.
    pub fn room(&self) -> usize
        ensures room { result ≡ room_of self.now }
        ensures within { result ≤ 16 * object_limit }
    {
        self.table.sound();
        self.table.room()
    }

    /// The key of a slot's object of that handle; None where the slot has none.
    pub fn find(&self, slot: u16, handle: u32) -> Option<usize>
        requires { slot < length self.now }
        ensures { result
            ≡ option_map (λ keyed. keyed.key)
            (by_handle handle (slot_in slot self.now).objects) }
    {
        self.table.find(slot, handle)
    }

    /// The least moment by which something is due in any slot, in microseconds; None where nothing
    /// ever will be.
    pub fn soonest(&self) -> Option<u64>
        ensures { IsNextDue (slots_of self.now) result }
    {
        self.table.sound();
        let order = self.schedule.soonest()?;
        Some(order.due)
    }

    /// Why a slot takes no further object of a kind: the first that applies of its quota and its
    /// handles, as [`Store::add`] reports it. None where it takes one.
    #[tactic(auto, using(crate::proofs::StoreLemmas::Kinds::refused_alike))]
    pub fn refuses(&self, slot: u16, kind: Kind) -> Option<TableFault>
        requires { slot < length self.now }
        ensures table_fault { result ≡ refusal (slot_in slot self.now) kind }
        ensures refusal { option_map table_refusal result
            ≡ opening_refusal (slot_at slot self.now) kind }
    {
        self.table.refuses(slot, kind)
    }

    /// How many objects of a kind a slot has, and how many it may have, each at most 256.
    pub fn usage(&self, slot: u16, kind: Kind) -> (u16, u16)
        requires { slot < length self.now }
        ensures count { result.0 ≡ kind_count kind (slot_at slot self.now).objects }
        ensures quota { result.1 ≡ slice_index (slot_at slot self.now).quotas (kind_index kind) }
        ensures full { result.0 ≤ result.1 }
        ensures within { result.1 ≤ quota_limit }
    {
        self.table.usage(slot, kind)
    }

    /// What holds of every store: a law, which does nothing when it runs. It is that of the table.
    pub fn sound(&self)
        ensures sound { IsTable self.now }
        ensures found { (s handle : ℕ) (keyed : Keyed)
            → by_handle handle (slot_in s self.now).objects ≡ Some keyed
            → by_key keyed.key (all_objects self.now) ≡ Some keyed }
        ensures listed { (s index : ℕ) (keyed : Keyed)
            → slice_get (slot_in s self.now).objects index ≡ Some keyed
            → by_handle keyed.handle (slot_in s self.now).objects ≡ Some keyed }
        ensures exchanged { (s handle : ℕ) (keyed : Keyed) (object : AnyObject)
            → by_handle handle (slot_in s self.now).objects ≡ Some keyed
            → exchanged keyed.key self.now object
            ≡ changed_at s (with_other_by_handle handle object) self.now }
        ensures room { length (all_objects self.now) ≤ room_of self.now }
    {
        self.table.sound();
    }
}
