//! The handles of one slot.

ghost use Rattle.std.specs.Prelude.{◌≡◌, ◌≤◌, length, None, IfOk, IfSome, slice_get, slice_index};
ghost use Rattle.trdp_base.specs.QuotaLimits.{quota_limit};
ghost use Rattle.trdp_model.specs.Kinds.{kind_index};
ghost use Rattle.trdp_table.specs.Tables.{last_handle, all_quotas};
ghost use Rattle.trdp_table.specs.TableLaws.{AreLimited, object_limit};
ghost use Rattle.trdp_table.specs.Entries.{opened_entries, refusal_of, entry_of, key_of};
ghost use Rattle.trdp_table.specs.Entries.{entries_of};
ghost use Rattle.trdp_table.specs.Entries.{with_entry, without_entry, with_next_handle};
ghost use Rattle.trdp_table.specs.SlotKept.{IsIndexOfHandle};

use crate::counts::KindCounts;
use crate::entry::Entry;
use crate::fault::TableFault;
use crate::search::index_of;
use std::alloc::{AllocError, Global};
use std::marker::Model;
use trdp_base::Quotas;
use trdp_model::Kind;

/// The last handle of a slot (profile).
const HANDLE_MAX: u64 = 4_294_967_295;

/// The handles of one slot, each with the key of its object.
#[derive(Drop)]
pub struct Slot {
    /// How many objects of each kind it may hold.
    quotas: Quotas,
    /// How many objects count for each quota.
    counts: KindCounts,
    /// The handle of its next new object, from 1; 2^32 once all handles are used up.
    next: u64,
    /// Its objects by rising handle, in a list that has room for all that the quotas allow and
    /// never grows.
    entries: Vec<Entry>,
}

impl Model for Slot {
    ghost use Rattle.std.specs.Prelude.{vec_capacity};
    ghost use Rattle.trdp_table.specs.Entries.{SlotEntries};
    ghost use Rattle.trdp_table.specs.SlotKept.{IsKeptSlot};

    ghost Value = { SlotEntries };

    ghost view = { λ s. record { quotas = s.quotas; next = s.next; entries = s.entries.items } };

    ghost invariant = { λ s. IsKeptSlot
        (record { quotas = s.quotas; next = s.next; entries = s.entries.items })
        s.counts.numbers (vec_capacity s.entries) };
}

/// How many objects the quotas allow together, at most 1,536.
pub fn room_of(quotas: Quotas) -> usize
    ensures room { result ≡ all_quotas quotas }
    ensures limited { AreLimited quotas }
    ensures within { result ≤ object_limit }
{
    usize::from(quotas.get(Kind::Publisher.index()))
        + usize::from(quotas.get(Kind::Subscription.index()))
        + usize::from(quotas.get(Kind::Requester.index()))
        + usize::from(quotas.get(Kind::Listener.index()))
        + usize::from(quotas.get(Kind::Caller.index()))
        + usize::from(quotas.get(Kind::Replier.index()))
}

impl Slot {
    /// An empty slot.
    ///
    /// # Errors
    /// [`AllocError`] where there is no memory for the entries of all objects that the quotas
    /// allow.
    pub fn new(alloc: Global, quotas: Quotas) -> Result<Slot, AllocError>
        ensures slot { IfOk result (λ slot. slot ≡ opened_entries quotas) }
        ensures limited { AreLimited quotas }
    {
        let entries = Vec::with_capacity(alloc, room_of(quotas))?;
        Ok(Slot {
            quotas,
            counts: KindCounts::new(),
            next: 1,
            entries,
        })
    }

    /// How many objects it has, at most 1,536.
    pub fn count(&self) -> usize
        ensures count { result ≡ length self.now.entries }
        ensures within { result ≤ object_limit }
    {
        self.entries.len()
    }

    /// Its object of that index, by rising handle from 0; None past the last one.
    pub fn entry_at(&self, index: usize) -> Option<Entry>
        ensures { result ≡ slice_get self.now.entries index }
    {
        self.entries.get(index).copied()
    }

    /// The index of its object of that handle; None where there is none.
    fn index_of(&self, handle: u32) -> Option<usize>
        ensures found { IfSome result (IsIndexOfHandle handle self.now.entries) }
        ensures absent { result ≡ None → entry_of handle self.now.entries ≡ None }
    {
        index_of(&self.entries, handle)
    }

    /// The key of its object of that handle; None where there is none.
    pub fn find(&self, handle: u32) -> Option<usize>
        ensures { result ≡ key_of handle self.now.entries }
    {
        let index = self.index_of(handle)?;
        self.entry_at(index).map(|entry| entry.key)
    }

    /// How many objects of a kind it has, and how many it may have, each at most 256.
    pub fn usage(&self, kind: Kind) -> (u16, u16)
        ensures count { result.0 ≡ entries_of kind self.now.entries }
        ensures quota { result.1 ≡ slice_index self.now.quotas (kind_index kind) }
        ensures full { result.0 ≤ result.1 }
        ensures within { result.1 ≤ quota_limit }
    {
        (self.counts.get(kind), self.quotas.get(kind.index()))
    }

    /// Why it takes no further object of a kind: its quota is used up, or its handles are. None
    /// where it takes one.
    pub fn refuses(&self, kind: Kind) -> Option<TableFault>
        ensures { result ≡ refusal_of self.now kind }
    {
        if self.quotas.get(kind.index()) <= self.counts.get(kind) {
            Some(TableFault::Quota)
        } else if self.next > HANDLE_MAX {
            Some(TableFault::Exhausted)
        } else {
            None
        }
    }

    /// The handle of its next new object.
    pub fn next_handle(&self) -> u32
        requires { self.now.next ≤ last_handle }
        ensures { result ≡ self.now.next }
    {
        self.next as u32
    }

    /// Adds an object of a kind under the next handle and the key that the pool gave it.
    pub fn add(&mut self, kind: Kind, key: usize)
        requires { refusal_of self.old kind ≡ None }
        ensures { self.new ≡ with_entry kind key self.old }
    {
        let handle = self.next_handle();
        self.counts.add(kind);
        self.next += 1;
        self.entries.push_reserved(Entry { handle, kind, key });
    }

    /// Removes the entry of that handle, and returns its key; None where there is none.
    pub fn remove(&mut self, handle: u32) -> Option<usize>
        ensures key { result ≡ key_of handle self.old.entries }
        ensures slot { self.new ≡ without_entry handle self.old }
    {
        let index = self.index_of(handle)?;
        let entry = self.entries.remove(index);
        self.counts.remove(entry.kind);
        Some(entry.key)
    }

    /// Makes the next handle at least this.
    pub fn raise(&mut self, next: u32)
        ensures { self.new ≡ with_next_handle next self.old }
    {
        self.next = self.next.max(u64::from(next));
    }
}
