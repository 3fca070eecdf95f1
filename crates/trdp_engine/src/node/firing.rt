//! What a node does at a moment: it tests the moment, makes room, and fires what is due.

ghost use Rattle.std.specs.Prelude.{◌≡◌, ℕ, length, OnOk, OnErr, Err, Some, slice_get};
ghost use Rattle.trdp_model.specs.Configs.{setup_of};
ghost use Rattle.trdp_model.specs.Slots.{SlotState};
ghost use Rattle.trdp_model.specs.Alone.{FaultIs, refused_as, globals_after, plain_effect};
ghost use Rattle.trdp_model.specs.Events.{MomentIs};
ghost use Rattle.trdp_model.specs.NodeModels.{GetsOutcome, Appends, MayTakeMemory};
ghost use Rattle.trdp_outbox.specs.Rooms.{MayLackMemory};
ghost use Rattle.trdp_engine.specs.Costs.{IsBounded};
ghost use Rattle.trdp_engine.specs.NodeStates.{uncounted};

use crate::moment::fire_all;
use crate::node::Node;
use trdp_base::MOMENT_MAX;
use trdp_model::NodeFault;
use trdp_outbox::Outbox;
use trdp_store::Counts;

impl Node {
    /// Processes the moment `t`, in microseconds: it makes room for all records first, then each
    /// due object fires.
    ///
    /// # Errors
    /// The first that applies of `Past`, `TooLate` and `OutOfMemory`.
    pub(crate) fn step_moment(&mut self, t: u64, out: &mut Outbox) -> Result<(), NodeFault>
        ensures fault { FaultIs (refused_as (length self.old.slots) self.old.globals (MomentIs t))
            result }
        ensures kept { OnErr result (self.new ≡ self.old) }
        ensures unrecorded { OnErr result (out.new.records ≡ out.old.records) }
        ensures memory { result ≡ Err NodeFault.OutOfMemory
            → MayTakeMemory (uncounted self.old) (MomentIs t) }
        ensures full { result ≡ Err NodeFault.OutOfMemory
            → MayLackMemory (uncounted self.old) out.old (MomentIs t) }
        ensures still { result ≡ Err NodeFault.OutOfMemory
            → MayLackMemory (uncounted self.old) out.new (MomentIs t) }
        ensures config { self.new.config ≡ self.old.config }
        ensures globals { OnOk result (self.new.globals
            ≡ globals_after self.old.globals (MomentIs t)) }
        ensures count { length self.new.slots ≡ length self.old.slots }
        ensures outcomes { OnOk result ((s : ℕ) (slot : SlotState)
            → slice_get self.old.slots s ≡ Some slot
            → GetsOutcome (uncounted self.new) out.old.records out.new.records s
            (plain_effect (setup_of self.old.config) s slot self.old.globals (MomentIs t))) }
        ensures appends { Appends self.old.slots out.old.records out.new.records }
        ensures cost { OnOk result (IsBounded self.old.slots (MomentIs t) self.new.counts) }
    {
        if t < self.globals.now {
            return Err(NodeFault::Past);
        }
        if t > MOMENT_MAX {
            return Err(NodeFault::TooLate);
        }
        let mut cost = Counts::none();
        let (room, comparisons) = self.store.due_room(t);
        cost.compared(comparisons);
        out.reserve(room.rows, room.bytes)?;
        self.globals.now = t;
        fire_all(&mut self.store, &self.globals, out, &mut cost);
        self.counts = cost;
        Ok(())
    }
}
