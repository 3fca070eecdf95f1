//! Why a wire and sockets in memory refuse a give.

ghost use Rattle.std.specs.Prelude.{◌≡◌, is_err};
ghost use Rattle.trdp_wire.specs.Refusals.{refusal_after};
ghost use Rattle.trdp_memory.specs.MemoryWires.{no_way_if};

use trdp_base::Place;
use trdp_wire::{GiveRefusal, Port, SocketFault, WireFault};

/// The system's number of its error if no way leads to a network (ENETUNREACH).
const NETWORK_UNREACHABLE: i32 = 101;

/// Why a wire and sockets in memory refuse a give: as if no way led to its network.
pub(crate) const NO_WAY: SocketFault = SocketFault {
    code: Some(NETWORK_UNREACHABLE),
};

/// Keeps a give at a wire in memory as the latest refusal, if it failed.
pub(crate) fn keep_refusal(
    refusal: &mut Option<GiveRefusal>,
    port: Port,
    to: Place,
    answer: Result<(), WireFault>,
)
    ensures { refusal.new ≡ refusal_after port to (no_way_if (is_err answer)) refusal.old }
{
    if answer.is_err() {
        *refusal = Some(GiveRefusal {
            port,
            to,
            fault: NO_WAY,
        });
    }
}
