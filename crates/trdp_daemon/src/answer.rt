//! The texts that answer a line.

ghost use Rattle.std.specs.Prelude.{◌≡◌, []};
ghost use Rattle.trdp_daemon.specs.Links.{Carries};
ghost use Rattle.trdp_daemon.specs.Visits.{fault_telling, operator_text};

use crate::link::Link;
use trdp_base::Place;
use trdp_engine::NodeFault;
use trdp_text::LineFault;
use trdp_wire::{Port, Wire};

/// Answers a datagram that is no line with its fault, from the port that it came to. One for which
/// an allocation failed is counted, and lost.
#[tactic(auto, unfolding(crate::specs::Visits::fault_telling))]
pub(crate) fn refuse<W: Wire>(port: Port, from: Place, fault: LineFault, link: &mut Link<W>)
    ensures { Carries W.takings W.gives link.old link.new [] (fault_telling port from fault) }
{
    match fault {
        LineFault::TooLong => link.give(port, from, b"line fault TooLong\n"),
        LineFault::Unknown => link.give(port, from, b"line fault Unknown\n"),
        LineFault::Count => link.give(port, from, b"line fault Count\n"),
        LineFault::BadWord => link.give(port, from, b"line fault BadWord\n"),
        LineFault::OutOfMemory => link.miss(),
    }
}

/// The answer to a line of the operator whose event has that fault, or none.
#[tactic(auto, unfolding(crate::specs::Visits::operator_text))]
pub(crate) fn operator_text(fault: Option<NodeFault>) -> &'static [u8]
    ensures { result.now ≡ operator_text fault }
{
    match fault {
        None => b"ok\n",
        Some(NodeFault::NoSlot) => b"fault NoSlot\n",
        Some(NodeFault::Past) => b"fault Past\n",
        Some(NodeFault::TooLate) => b"fault TooLate\n",
        Some(NodeFault::NoGroup) => b"fault NoGroup\n",
        Some(NodeFault::OutOfMemory) => b"fault OutOfMemory\n",
        Some(NodeFault::SlotsFull) => b"fault SlotsFull\n",
    }
}
