//! The UDP ports of a node.

ghost use Rattle.std.specs.Prelude.{◌≡◌, ◌<◌, ◌≤◌, ◌∷◌, [], length, None, Some};
ghost use Rattle.std.specs.Prelude.{IfOk, IfErr, IfSome, OnErr, Bool, false, true};
ghost use Rattle.trdp_wire.specs.Sockets.{MadeInTurn};
ghost use Rattle.trdp_udp.specs.Openings.{binds_of};
ghost use Rattle.trdp_udp.specs.SocketWires.{GivesAtSocket, TakesAtSocket};
ghost use Rattle.trdp_udp.specs.SocketWires.{is_answer_at};

use crate::bound_ports::BoundPorts;
use crate::opening::{PortRequest, ask_for_ports};
use crate::system_sockets::SystemSockets;
use std::net::Net;
use trdp_base::Place;
use trdp_dataset::NodeConfig;
use trdp_wire::{
    BindFault, GiveRefusal, GroupAddresses, Port, Sockets, Unread, WatchedWire, Wire, WireFault,
    fail,
};

/// How each answer begins to a datagram that is no line of its port.
const FAULT_FRONT: &[u8] = b"line fault ";

/// The UDP ports of a node, which neither wait nor rest. The wire reports no takes and gives; its
/// contracts say what it makes of the calls of its sockets.
///
/// At the control ports and the operator's it drops a datagram that begins with `line fault `: that
/// is an answer, no line. Two ports that answered such datagrams would answer each other for ever.
#[derive(Drop)]
pub struct UdpWire<S> {
    /// The sockets of the ports.
    pub(crate) sockets: S,
    /// The groups of the node, by which each port has its socket.
    pub(crate) groups: GroupAddresses,
    /// Which ports of its configuration have sockets.
    pub(crate) bound: BoundPorts,
    /// How often a take or a give failed, at most 2^64 - 1.
    pub(crate) failures: u64,
    /// The latest give that was refused; None before the first.
    pub(crate) refusal: Option<GiveRefusal>,
    /// The latest take that failed; None before the first.
    pub(crate) unread: Option<Unread>,
}

impl<'a, R: Net> UdpWire<SystemSockets<'a, R>> {
    /// Binds the system's sockets at all ports that a configuration names, as [`UdpWire::open`]
    /// does. It allocates nothing of its own, so that a port which can't be bound is found
    /// whatever memory is there.
    ///
    /// # Errors
    /// At the first port that isn't bound: `OutOfMemory` if the system is out of memory for it, and
    /// else `Bind`.
    pub fn bind(rt: &'a R, config: &NodeConfig) -> Result<UdpWire<SystemSockets<'a, R>>, BindFault>
        ensures all { IfOk result (λ wire. wire.bound ≡ BoundPorts.All) }
        ensures groups { IfOk result (λ wire. wire.groups ≡ config.now.groups) }
        ensures failures { IfOk result (λ wire. wire.failures ≡ 0) }
        ensures refusal { IfOk result (λ wire. wire.refusal ≡ None) }
        ensures unread { IfOk result (λ wire. wire.unread ≡ None) }
    {
        match UdpWire::open(SystemSockets::new(rt), config, BoundPorts::All) {
            Ok(wire) => Ok(wire),
            Err((fault, _)) => Err(fault),
        }
    }
}

impl<S: Sockets> UdpWire<S> {
    /// Binds sockets at ports that a configuration names, one after another: process data and
    /// message data at its address and at those of its groups, and with `BoundPorts::All` the
    /// operator's and the control ports of the slots at its control address. Nothing ever comes at
    /// a port that has no socket.
    ///
    /// # Errors
    /// At the first port that isn't bound: its fault, and the sockets.
    pub fn open(
        mut sockets: S,
        config: &NodeConfig,
        which: BoundPorts,
    ) -> Result<UdpWire<S>, (BindFault, S)>
        ensures bound { IfOk result (λ wire. MadeInTurn (binds_of which config.now) None
            (S.calls sockets) (S.calls wire.sockets)) }
        ensures refused { IfErr result (λ back. MadeInTurn (binds_of which config.now)
            (Some back.0) (S.calls sockets) (S.calls back.1)) }
        ensures which { IfOk result (λ wire. wire.bound ≡ which) }
        ensures groups { IfOk result (λ wire. wire.groups ≡ config.now.groups) }
        ensures failures { IfOk result (λ wire. wire.failures ≡ 0) }
        ensures refusal { IfOk result (λ wire. wire.refusal ≡ None) }
        ensures unread { IfOk result (λ wire. wire.unread ≡ None) }
    {
        match ask_for_ports(&mut sockets, config, which, PortRequest::Bind) {
            Ok(()) => Ok(UdpWire::over(sockets, GroupAddresses::of(config), which)),
            Err(fault) => Err((fault, sockets)),
        }
    }

    /// Its sockets.
    pub fn sockets(&self) -> &S
        ensures { result.now ≡ self.now.sockets }
    {
        &self.sockets
    }

    /// A wire over sockets that are bound, before its first take.
    pub(crate) fn over(sockets: S, groups: GroupAddresses, bound: BoundPorts) -> UdpWire<S>
        ensures sockets { result.sockets ≡ sockets }
        ensures groups { result.groups ≡ groups }
        ensures bound { result.bound ≡ bound }
        ensures failures { result.failures ≡ 0 }
        ensures refusal { result.refusal ≡ None }
        ensures unread { result.unread ≡ None }
    {
        UdpWire {
            sockets,
            groups,
            bound,
            failures: 0,
            refusal: None,
            unread: None,
        }
    }

    /// Takes the next datagram at a port. Also returns whether something was heard there: a
    /// datagram, also one that is dropped, or a failure.
    pub(crate) fn ask(
        &mut self,
        port: Port,
        room: &mut [u8],
    ) -> (Result<Option<(Place, usize)>, WireFault>, bool)
        ensures within { IfOk result.0 (λ found. IfSome found (λ f. f.1 ≤ length room.new)) }
        ensures fault { OnErr result.0 (self.old.failures < self.new.failures) }
        ensures takes { TakesAtSocket self.old.groups
            (S.calls self.old.sockets) (S.calls self.new.sockets)
            port room.new result.0 self.old.failures self.new.failures result.1
            self.old.unread self.new.unread }
        ensures kept { self.new ≡ record self.old {
          sockets = self.new.sockets;
          failures = self.new.failures;
          unread = self.new.unread;
        } }
        ensures groups { self.new.groups ≡ self.old.groups }
        ensures refusal { self.new.refusal ≡ self.old.refusal }
    {
        match self.sockets.take(self.groups.socket_of(port), room) {
            Ok(None) => (Ok(None), false),
            Ok(Some((from, len))) => {
                let (bytes, _) = room.split_at(len);
                if is_answer(port, bytes) {
                    return (Ok(None), true);
                }
                (Ok(Some((from, len))), true)
            }
            Err(fault) => {
                self.unread = Some(Unread { port, fault });
                match fail(&mut self.failures) {
                    Ok(()) => (Ok(None), true),
                    Err(fault) => (Err(fault), true),
                }
            }
        }
    }
}

impl<S: Sockets> Wire for UdpWire<S> {
    ghost takings = { λ _. None };

    ghost gives = { λ _. None };

    ghost faults = { λ wire. wire.failures };

    fn take(&mut self, port: Port, room: &mut [u8]) -> Result<Option<(Place, usize)>, WireFault>
        ensures within { IfOk result (λ found. IfSome found (λ f. f.1 ≤ length room.new)) }
        ensures fault { OnErr result (self.old.failures < self.new.failures) }
        ensures takes { (heard : Bool) × TakesAtSocket self.old.groups
            (S.calls self.old.sockets) (S.calls self.new.sockets)
            port room.new result self.old.failures self.new.failures heard
            self.old.unread self.new.unread }
        ensures kept { self.new ≡ record self.old {
          sockets = self.new.sockets;
          failures = self.new.failures;
          unread = self.new.unread;
        } }
        ensures groups { self.new.groups ≡ self.old.groups }
        ensures refusal { self.new.refusal ≡ self.old.refusal }
    {
        let (found, _) = self.ask(port, room);
        found
    }

    fn find(
        &mut self,
        port: Port,
        _anew: bool,
        room: &mut [u8],
    ) -> (Result<Option<(Place, usize)>, WireFault>, bool)
        ensures within { IfOk result.0 (λ found. IfSome found (λ f. f.1 ≤ length room.new)) }
        ensures fault { OnErr result.0 (self.old.failures < self.new.failures) }
        ensures takes { (heard : Bool) × TakesAtSocket self.old.groups
            (S.calls self.old.sockets) (S.calls self.new.sockets)
            port room.new result.0 self.old.failures self.new.failures heard
            self.old.unread self.new.unread }
        ensures ends_nothing { result.1 ≡ false }
        ensures kept { self.new ≡ record self.old {
          sockets = self.new.sockets;
          failures = self.new.failures;
          unread = self.new.unread;
        } }
        ensures groups { self.new.groups ≡ self.old.groups }
        ensures refusal { self.new.refusal ≡ self.old.refusal }
    {
        (self.take(port, room), false)
    }

    fn give(&mut self, port: Port, to: Place, bytes: &[u8]) -> Result<(), WireFault>
        ensures fault { OnErr result (self.old.failures < self.new.failures) }
        ensures gives { GivesAtSocket self.old.groups
            (S.calls self.old.sockets) (S.calls self.new.sockets)
            port to bytes.now result self.old.failures self.new.failures
            self.old.refusal self.new.refusal }
        ensures kept { self.new ≡ record self.old {
          sockets = self.new.sockets;
          failures = self.new.failures;
          refusal = self.new.refusal;
        } }
        ensures groups { self.new.groups ≡ self.old.groups }
        ensures unread { self.new.unread ≡ self.old.unread }
    {
        match self.sockets.give(self.groups.socket_of(port), to, bytes) {
            Ok(()) => Ok(()),
            Err(fault) => {
                self.refusal = Some(GiveRefusal { port, to, fault });
                fail(&mut self.failures)
            }
        }
    }

    fn failures(&self) -> u64 {
        self.failures
    }

    fn refusal(&self) -> Option<GiveRefusal>
        ensures { result ≡ self.now.refusal }
    {
        self.refusal
    }

    fn unread(&self) -> Option<Unread>
        ensures { result ≡ self.now.unread }
    {
        self.unread
    }
}

impl<S: Sockets> WatchedWire for UdpWire<S> {
    ghost news = { λ _ _. true };

    ghost rested = { λ old new _. new ≡ old };

    fn rest(&mut self, _most: u64)
        ensures { self.new ≡ self.old }
    {}

    fn has_news(&self, _port: Port) -> bool {
        true
    }

    fn set_news(&mut self, _port: Port, _may_be: bool)
        ensures { self.new ≡ self.old }
    {}
}

/// Whether a datagram at a port is an answer to one that was no line: each begins alike.
#[tactic(auto, unfolding(crate::specs::SocketWires::is_answer_at, crate::specs::SocketWires::begins_as_answer))]
fn is_answer(port: Port, bytes: &[u8]) -> bool
    ensures { result ≡ is_answer_at port bytes.now }
{
    matches!(port, Port::Operator | Port::Control(_)) && bytes.starts_with(FAULT_FRONT)
}
