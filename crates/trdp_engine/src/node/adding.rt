//! A slot is opened while the node runs.

ghost use Rattle.std.specs.Prelude.{◌≡◌, ◌++◌, [], ◌∷◌, length, OnOk, OnErr};
ghost use Rattle.trdp_model.specs.Alone.{FaultIs, refused_as};
ghost use Rattle.trdp_model.specs.Events.{AddSlotIs};
ghost use Rattle.trdp_store.specs.Counting.{no_counts};
ghost use Rattle.trdp_model.specs.Records.{Answers, OpenedIs, labelled};
ghost use Rattle.trdp_model.specs.Slots.{empty_slot};

use crate::node::Node;
use trdp_base::Quotas;
use trdp_model::{NodeFault, SLOTS_MAX};
use trdp_outbox::{Outbox, PlainAnswer};
use trdp_store::Counts;
use trdp_table::room_of;

impl Node {
    /// Opens the next slot, empty, with these quotas, and records that it is open. Room to note its
    /// objects, for the objects and for the record is made first.
    ///
    /// # Errors
    /// The first that applies of `SlotsFull` and `OutOfMemory`.
    pub(crate) fn step_add_slot(
        &mut self,
        quotas: Quotas,
        out: &mut Outbox,
    ) -> Result<(), NodeFault>
        ensures fault { FaultIs
            (refused_as (length self.old.slots) self.old.globals (AddSlotIs quotas)) result }
        ensures kept { OnErr result (self.new ≡ self.old) }
        ensures unrecorded { OnErr result (out.new.records ≡ out.old.records) }
        ensures config { self.new.config ≡ self.old.config }
        ensures globals { self.new.globals ≡ self.old.globals }
        ensures slots { OnOk result (self.new.slots ≡ self.old.slots ++ empty_slot quotas ∷ []) }
        ensures told { OnOk result (out.new.records
            ≡ out.old.records ++ labelled (length self.old.slots) (Answers OpenedIs ∷ [])) }
        ensures counts { OnOk result (self.new.counts ≡ no_counts) }
    {
        if self.store.slots() >= SLOTS_MAX {
            return Err(NodeFault::SlotsFull);
        }
        let room = self.store.room() + room_of(quotas);
        self.noted.clear();
        self.noted.reserve_exact(room)?;
        let slot = self.store.open_slot(quotas, out)?;
        out.push_plain_answer(slot, PlainAnswer::Opened);
        self.counts = Counts::none();
        Ok(())
    }
}
