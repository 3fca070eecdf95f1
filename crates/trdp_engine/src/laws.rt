//! Two nodes serve a slot alike where it sees the same in both.

ghost use Rattle.trdp_engine.specs.NodeStates.{uncounted};
ghost use Rattle.std.specs.Prelude.{◌≡◌, ℕ, slice_get, map, take};
ghost use Rattle.std.specs.Prelude.{length};
ghost use Rattle.trdp_model.specs.Configs.{setup_of};
ghost use Rattle.trdp_model.specs.Events.{event_model};
ghost use Rattle.trdp_model.specs.Alone.{view};
ghost use Rattle.trdp_model.specs.NodeModels.{GetsTheSame};
ghost use Rattle.trdp_engine.specs.NodeRuns.{HasRun};

use crate::node::Node;
use trdp_model::Event;
use trdp_outbox::Outbox;

/// Runs two nodes over two lists of events, and returns how many each processed. Its contract
/// holds all that [`Node::run`] says of each node, and more. Let the nodes have equal datasets,
/// address, ports and globals, let a number have the same in both (a slot, or none), and let it
/// see the same of the events that were processed. Then it has the same afterwards, and got the
/// same records. The nodes may differ in everything about the other numbers.
pub fn run_both(
    first: &mut Node,
    second: &mut Node,
    events: &[Event<'_>],
    others: &[Event<'_>],
    out: &mut Outbox,
    other_out: &mut Outbox,
) -> (usize, usize)
    ensures first { HasRun first.old first.new out.old out.new events.now result.0 }
    ensures second { HasRun second.old second.new other_out.old other_out.new others.now result.1 }
    ensures alike { setup_of first.old.config ≡ setup_of second.old.config
        → first.old.globals ≡ second.old.globals
        → (s : ℕ) → slice_get first.old.slots s ≡ slice_get second.old.slots s
        → view (setup_of first.old.config) s (length first.old.slots)
        (slice_get first.old.slots s) first.old.globals
        (map event_model (take result.0 events.now))
        ≡ view (setup_of first.old.config) s (length second.old.slots)
        (slice_get first.old.slots s) first.old.globals
        (map event_model (take result.1 others.now))
        → GetsTheSame (uncounted first.new) (uncounted second.new) out.old.records
        out.new.records other_out.old.records other_out.new.records s }
{
    let taken = first.run(events, out);
    let others_taken = second.run(others, other_out);
    (taken, others_taken)
}
