//! What is asked of a system's sockets before the first turn: one after another, those of the ports
//! that a configuration names.

ghost use Rattle.std.specs.Prelude.{◌≡◌, ◌∷◌, [], ◌++◌, map};
ghost use Rattle.trdp_udp.specs.Openings.{binds_of, bound_ports, call_of_request, watches_of};
ghost use Rattle.trdp_wire.specs.Ports.{line_ports, network_ports, place_of_port, port_unless_0};
ghost use Rattle.trdp_wire.specs.Sockets.{MadeInTurn, fault_of_result, ttl_of};

use crate::bound_ports::BoundPorts;
use std::alloc::Global;
use trdp_dataset::NodeConfig;
use trdp_wire::{BindFault, GroupAddresses, Port, Sockets, place_of_port, slot_number};

/// What is asked for a port.
#[derive(Clone, Copy)]
pub(crate) enum PortRequest {
    /// Its socket is bound at its place.
    Bind,
    /// A wait ends when a datagram comes there; this may allocate.
    Watch(Global),
}

/// Binds the sockets of a configuration's ports, one after another, and then has waits end when a
/// datagram comes at one of them.
///
/// # Errors
/// At the first call that is refused: its fault.
pub(crate) fn bind_and_watch_ports<S: Sockets>(
    sockets: &mut S,
    alloc: Global,
    config: &NodeConfig,
    which: BoundPorts,
) -> Result<(), BindFault>
    ensures { MadeInTurn (binds_of which config.now ++ watches_of which config.now)
        (fault_of_result result) (S.calls sockets.old) (S.calls sockets.new) }
{
    ask_for_ports(sockets, config, which, PortRequest::Bind)?;
    ask_for_ports(sockets, config, which, PortRequest::Watch(alloc))
}

/// Asks the same for each port that is to have a socket, in the order of a turn.
///
/// # Errors
/// At the first one that is refused: its fault.
pub(crate) fn ask_for_ports<S: Sockets>(
    sockets: &mut S,
    config: &NodeConfig,
    which: BoundPorts,
    request: PortRequest,
) -> Result<(), BindFault>
    ensures { MadeInTurn (map (call_of_request config.now request) (bound_ports which config.now))
        (fault_of_result result) (S.calls sockets.old) (S.calls sockets.new) }
{
    ask_for_network(sockets, config, request)?;
    match which {
        BoundPorts::All => ask_for_lines(sockets, config, request),
        BoundPorts::Network => Ok(()),
    }
}

/// Asks the same for each port at which telegrams come, in the order of a turn.
///
/// # Errors
/// At the first one that is refused: its fault.
fn ask_for_network<S: Sockets>(
    sockets: &mut S,
    config: &NodeConfig,
    request: PortRequest,
) -> Result<(), BindFault>
    ensures { MadeInTurn (map (call_of_request config.now request) (network_ports config.now))
        (fault_of_result result) (S.calls sockets.old) (S.calls sockets.new) }
{
    ask(sockets, config, request, Port::Pd)?;
    ask(sockets, config, request, Port::Md)?;
    for group in config.groups() {
        ask(sockets, config, request, Port::PdGroup(*group))?;
        ask(sockets, config, request, Port::MdGroup(*group))?;
    }
    Ok(())
}

/// Asks the same for each port at which lines come, in the order of a turn.
///
/// # Errors
/// At the first one that is refused: its fault.
fn ask_for_lines<S: Sockets>(
    sockets: &mut S,
    config: &NodeConfig,
    request: PortRequest,
) -> Result<(), BindFault>
    ensures { MadeInTurn (map (call_of_request config.now request) (line_ports config.now))
        (fault_of_result result) (S.calls sockets.old) (S.calls sockets.new) }
{
    ask_unless_0(sockets, config, request, Port::Operator)?;
    for slot in 0..config.slots() + config.spare_control_ports() {
        ask_unless_0(sockets, config, request, Port::Control(slot_number(slot)))?;
    }
    Ok(())
}

/// Asks for a port, unless its number is 0.
///
/// # Errors
/// As the sockets answer.
#[tactic(auto, unfolding(trdp_wire::specs::Ports::port_unless_0))]
fn ask_unless_0<S: Sockets>(
    sockets: &mut S,
    config: &NodeConfig,
    request: PortRequest,
    port: Port,
) -> Result<(), BindFault>
    ensures { MadeInTurn (map (call_of_request config.now request)
        (port_unless_0 (place_of_port config.now port).port port))
        (fault_of_result result) (S.calls sockets.old) (S.calls sockets.new) }
{
    if place_of_port(config, port).port == 0 {
        return Ok(());
    }
    ask(sockets, config, request, port)
}

/// Asks for a port.
///
/// # Errors
/// As the sockets answer.
fn ask<S: Sockets>(
    sockets: &mut S,
    config: &NodeConfig,
    request: PortRequest,
    port: Port,
) -> Result<(), BindFault>
    ensures { MadeInTurn (call_of_request config.now request port ∷ []) (fault_of_result result)
        (S.calls sockets.old) (S.calls sockets.new) }
{
    let socket = GroupAddresses::of(config).socket_of(port);
    match request {
        PortRequest::Bind => {
            sockets.bind(socket, place_of_port(config, port), ttl_of(config, port))
        }
        PortRequest::Watch(alloc) => sockets.watch(alloc, socket),
    }
}

/// The time to live of the telegrams that leave from a port; None if none do.
fn ttl_of(config: &NodeConfig, port: Port) -> Option<u8>
    ensures { result ≡ ttl_of config.now port }
{
    match port {
        Port::Pd | Port::Md => Some(config.ttl()),
        Port::PdGroup(_) | Port::MdGroup(_) | Port::Operator | Port::Control(_) => None,
    }
}
