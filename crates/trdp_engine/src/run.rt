//! Many events of a node, one after another.

ghost use Rattle.trdp_engine.specs.NodeStates.{uncounted};
ghost use Rattle.std.specs.Prelude.{◌≡◌, ℕ, ◌≤◌, length, IfSome, slice_get, map, take};
ghost use Rattle.trdp_model.specs.Events.{event_model};
ghost use Rattle.trdp_model.specs.NodeModels.{RunsAsAlone, Appends, MayTakeMemory};
ghost use Rattle.trdp_outbox.specs.Rooms.{MayLackMemory};
ghost use Rattle.trdp_engine.specs.NodeRuns.{CountsLatest, slots_through};

use crate::node::Node;
use trdp_model::{Event, is_out_of_memory};
use trdp_outbox::Outbox;

impl Node {
    /// Processes events in turn, and returns how many. It goes on after an event that is rejected
    /// for a fault of its own, and stops before the first for which an allocation fails. That can
    /// only be a call, a moment by which something is due, a datagram that concerns a slot, or
    /// AddSlot. Where the outbox has room for the most that such a call, or objects of the kinds
    /// that act, may record, it can only be Publish, Subscribe, Request or AddSlot.
    pub fn run(&mut self, events: &[Event<'_>], out: &mut Outbox) -> usize
        ensures within { result ≤ length events.now }
        ensures stops { IfSome (slice_get events.now result)
            (λ event. MayTakeMemory (uncounted self.new) (event_model event)) }
        ensures lacks { IfSome (slice_get events.now result)
            (λ event. MayLackMemory (uncounted self.new) out.new (event_model event)) }
        ensures config { self.new.config ≡ self.old.config }
        ensures count { length self.new.slots
            ≡ slots_through (length self.old.slots) (map event_model (take result events.now)) }
        ensures alone { (s : ℕ) → RunsAsAlone (uncounted self.old) (uncounted self.new)
            out.old.records out.new.records (map event_model (take result events.now)) s }
        ensures appends { Appends self.new.slots out.old.records out.new.records }
        ensures counted { CountsLatest self.old self.new
            (map event_model (take result events.now)) }
    {
        let mut taken = 0;
        for event in events {
            let result = self.step(event, out);
            if is_out_of_memory(&result) {
                return taken;
            }
            taken += 1;
        }
        taken
    }
}
