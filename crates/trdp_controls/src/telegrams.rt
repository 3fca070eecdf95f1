//! The telegrams of a node whose lines come over control sockets: they go over the wire of the
//! network. It is only a [`Wire`] here, so no function here can call its `rest` or `set_news`.

use crate::control_wire::ControlWire;
use crate::path_calls::nothing;
use trdp_base::Place;
use trdp_lines::Connections;
use trdp_wire::{Port, SocketFault, Unread, Wire, WireFault, fail};

impl<N: Wire, C: Connections> ControlWire<N, C> {
    ghost use Rattle.std.specs.Prelude.{◌≡◌, ◌<◌, ◌≤◌, length, is_err, IfOk, IfSome};
    ghost use Rattle.std.specs.Prelude.{OnOk, OnErr, Some, []};
    ghost use Rattle.std.specs.Option.{option_map};
    ghost use Rattle.trdp_base.specs.Reported.{TellsMore};
    ghost use Rattle.trdp_controls.specs.ControlWires.{GivesOverNetwork, TakesOverNetwork};
    ghost use Rattle.trdp_wire.specs.Failures.{one_more_if};

    /// Takes the next datagram at a port of the network, as [`Wire::find`] does.
    ///
    /// # Errors
    /// `WireFault` if the network fails, and the count of failures rose.
    #[tactic(auto, unfolding(trdp_wire::specs::Failures::one_more_if))]
    pub(crate) fn find_telegram(
        &mut self,
        port: Port,
        anew: bool,
        room: &mut [u8],
    ) -> (Result<Option<(Place, usize)>, WireFault>, bool)
        ensures within { IfOk result.0 (λ found. IfSome found (λ f. f.1 ≤ length room.new)) }
        ensures takes { TakesOverNetwork (N.takings self.old.network) (N.takings self.new.network)
            port result.1 result.0 room.new self.old.failures }
        ensures gives_nothing { TellsMore (N.gives self.old.network) (N.gives self.new.network) [] }
        ensures fault { OnErr result.0 (self.old.failures < self.new.failures) }
        ensures count { self.new.failures ≡ one_more_if (is_err result.0) self.old.failures }
        ensures operator { self.new.operator ≡ self.old.operator }
        ensures controls { self.new.controls ≡ self.old.controls }
        ensures heard { self.new.heard ≡ self.old.heard }
        ensures kept { OnOk result.0 (self.new.unread ≡ self.old.unread) }
        ensures failed { OnErr result.0 (option_map (λ u. u.port) self.new.unread ≡ Some port) }
        ensures refusal { self.new.refusal ≡ self.old.refusal }
    {
        let (found, ended) = self.network.find(port, anew, room);
        if let Ok(found) = found {
            return (Ok(found), ended);
        }
        let found = nothing(&mut self.failures);
        if found.is_err() {
            let unread = self.network.unread();
            let fault = unread.map_or(SocketFault { code: None }, |unread| unread.fault);
            self.unread = Some(Unread { port, fault });
        }
        (found, ended)
    }

    /// Gives a datagram to the network.
    ///
    /// # Errors
    /// `WireFault` if the network fails, and the count of failures rose.
    #[tactic(auto, unfolding(trdp_wire::specs::Failures::one_more_if))]
    pub(crate) fn give_telegram(
        &mut self,
        port: Port,
        to: Place,
        bytes: &[u8],
    ) -> Result<(), WireFault>
        ensures gives { GivesOverNetwork (N.gives self.old.network) (N.gives self.new.network)
            port to bytes.now result self.old.failures }
        ensures takes_nothing { TellsMore (N.takings self.old.network)
            (N.takings self.new.network) [] }
        ensures fault { OnErr result (self.old.failures < self.new.failures) }
        ensures count { self.new.failures ≡ one_more_if (is_err result) self.old.failures }
        ensures operator { self.new.operator ≡ self.old.operator }
        ensures controls { self.new.controls ≡ self.old.controls }
        ensures heard { self.new.heard ≡ self.old.heard }
        ensures unread { self.new.unread ≡ self.old.unread }
    {
        match self.network.give(port, to, bytes) {
            Ok(()) => Ok(()),
            Err(_) => {
                self.refusal = self.network.refusal();
                fail(&mut self.failures)
            }
        }
    }
}
