//! An event's way through the node, and its text.

ghost use Rattle.std.specs.Prelude.{◌≡◌, ◌++◌, OnOk, OnErr};
ghost use Rattle.trdp_model.specs.Events.{event_model};
ghost use Rattle.trdp_engine.specs.NodeStates.{uncounted};
ghost use Rattle.trdp_text.specs.EventText.{event_text};
ghost use Rattle.trdp_model.specs.NodeModels.{node_after};
ghost use Rattle.trdp_script.specs.Wants.{EventMayWant};

use std::alloc::AllocError;
use trdp_engine::{Event, Node, NodeFault, Outbox};
use trdp_text::{print_fault, print_records};

/// Lets the node take an event, and appends the text of its records: slot by slot, slots rising,
/// each slot's in their order; or the line of the event's fault (profile).
///
/// # Errors
/// `AllocError` where an allocation for the event or for its text fails; the list's items are as
/// before. An event that needs no memory and gives no text is always played.
pub fn play(
    node: &mut Node,
    event: &Event<'_>,
    records: &mut Outbox,
    text: &mut Vec<u8>,
) -> Result<(), AllocError>
    ensures node { OnOk result
        (uncounted node.new ≡ node_after (uncounted node.old) (event_model event.now)) }
    ensures text { OnOk result (text.new.items
        ≡ text.old.items ++ event_text (uncounted node.old) (event_model event.now)) }
    ensures err { OnErr result (text.new.items ≡ text.old.items) }
    ensures wanting { OnErr result
        (EventMayWant (uncounted node.old) (event_model event.now)) }
{
    records.clear();
    match node.step(event, records) {
        Ok(()) => print_records(text, records),
        Err(NodeFault::OutOfMemory) => Err(AllocError),
        Err(fault) => print_fault(text, fault),
    }
}
