//! A running node as one of the network.

ghost use Rattle.std.specs.Prelude.{◌≡◌, length, OnOk, OnErr};
ghost use Rattle.trdp_engine.specs.NodeStates.{uncounted};
ghost use Rattle.trdp_model.specs.Alone.{FaultIs, refused_as};
ghost use Rattle.trdp_model.specs.Events.{event_model};
ghost use Rattle.trdp_net.specs.Ties.{MovesSo};

use trdp_engine::{Event, Node, NodeFault, Outbox};

/// Gives an event to a node: it moves as a node of the network does, or it rejects the event and
/// stays as it was.
///
/// # Errors
/// Those of [`Node::step`].
pub fn step(node: &mut Node, event: &Event<'_>, out: &mut Outbox) -> Result<(), NodeFault>
    ensures moves { OnOk result (MovesSo (uncounted node.old) (uncounted node.new)
        out.old.records out.new.records (event_model event.now)) }
    ensures kept { OnErr result (node.new ≡ node.old) }
    ensures fault { FaultIs
        (refused_as (length node.old.slots) node.old.globals (event_model event.now)) result }
{
    node.step(event, out)
}
