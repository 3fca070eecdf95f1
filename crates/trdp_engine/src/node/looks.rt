//! What a node shows: its slots, its subscriptions, and what an event cost.

ghost use Rattle.std.specs.Prelude.{◌≡◌, ◌<◌, ◌≤◌, ◌∷◌, [], length, slice_get, slice_index};
ghost use Rattle.std.specs.Prelude.{slice_index_or};
ghost use Rattle.trdp_base.specs.QuotaLimits.{quota_limit};
ghost use Rattle.trdp_model.specs.Kinds.{kind_index};
ghost use Rattle.trdp_model.specs.Slots.{empty_slot, kind_count, slot_limit};
ghost use Rattle.trdp_model.specs.Configs.{setup_of};
ghost use Rattle.trdp_model.specs.NodeModels.{IsNextDue};
ghost use Rattle.trdp_model.specs.Peeks.{peeked, peek_in};
ghost use Rattle.trdp_model.specs.ShownItems.{showing_in, ShowsItem};

use crate::node::Node;
use std::alloc::Global;
use trdp_calls::{item_shown, subscription_at};
use trdp_marshal::Item;
use trdp_model::{Kind, PeekFault, ValueFault};
use trdp_pd::Peek;

impl Node {
    /// How many slots it has, 1 to 16.
    pub fn slots(&self) -> usize
        ensures count { result ≡ length self.now.slots }
        ensures within { result ≤ slot_limit }
    {
        self.store.slots()
    }

    /// How many objects of a kind a slot has, and how many it may have, each at most 256.
    pub fn usage(&self, slot: u16, kind: Kind) -> (u16, u16)
        requires { slot < length self.now.slots }
        ensures count { result.0
            ≡ kind_count kind (slice_index_or self.now.slots slot (empty_slot [])).objects }
        ensures quota { result.1
            ≡ slice_index (slice_index_or self.now.slots slot (empty_slot [])).quotas
            (kind_index kind) }
        ensures full { result.0 ≤ result.1 }
        ensures within { result.1 ≤ quota_limit }
    {
        self.store.usage(slot, kind)
    }

    /// The least moment by which something is due, in microseconds; no object fires before it.
    /// None where nothing is due at any moment.
    pub fn next_due(&self) -> Option<u64>
        ensures { IsNextDue self.now.slots result }
    {
        self.store.soonest()
    }

    /// What the latest event cost that the node accepted: how often two rows or two orders were
    /// compared, or an order with the moment; filter tests; and look-ups of sessions, in this
    /// order. A number that would be 2^64 - 1 or more is 2^64 - 1. All are 0 for a new node and
    /// after a call. An event that is rejected leaves them.
    pub fn counts(&self) -> [u64; 3]
        ensures { result ≡ self.now.counts.comparisons ∷ self.now.counts.tests
            ∷ self.now.counts.look_ups ∷ [] }
    {
        [
            self.counts.comparisons,
            self.counts.tests,
            self.counts.look_ups,
        ]
    }

    /// What the subscription of that handle shows, in every state of it. It takes no memory.
    ///
    /// # Errors
    /// The first that applies of `NoSlot`, `NoHandle`, and `WrongKind` (the object is no
    /// subscription).
    pub fn peek(&self, slot: u16, handle: u32) -> Result<Peek<'_>, PeekFault>
        ensures { peeked result ≡ peek_in (slice_get self.now.slots slot) handle }
    {
        if usize::from(slot) >= self.store.slots() {
            return Err(PeekFault::NoSlot);
        }
        Ok(subscription_at(&self.store, slot, handle)?.peek())
    }

    /// The item that the subscription of that handle shows, in every state of it: it spells, as a
    /// value of the subscription's dataset, the bytes that `peek` shows.
    ///
    /// # Errors
    /// The first that applies of `NoSlot`, `NoHandle`, `WrongKind` (the object is no
    /// subscription), `NoDataset` (it is one of dataset 0), and last `OutOfMemory`.
    pub fn value_of(&self, alloc: Global, slot: u16, handle: u32) -> Result<Item, ValueFault>
        ensures { ShowsItem (setup_of self.now.config)
            (showing_in (slice_get self.now.slots slot) handle) result }
    {
        if usize::from(slot) >= self.store.slots() {
            return Err(ValueFault::NoSlot);
        }
        let subscription = subscription_at(&self.store, slot, handle)?;
        item_shown(alloc, &self.config, subscription)
    }
}
