//! The wire of a service: only UDP ports, or the UDP ports of the network and a folder of control
//! sockets.

ghost use Rattle.std.specs.Prelude.{◌≡◌, IfOk, IfErr};
ghost use Rattle.std.specs.Option.{option_map};
ghost use Rattle.trdp_program.specs.ServiceWires.{IsBeside, IsRefusedBeside, ports_beside};

use mio::Registry;
use std::alloc::Global;
use std::fs::Files;
use std::io;
use std::net::Net;
use trdp_controls::{ControlWire, Folder, ListenFault, SystemFolder};
use trdp_dataset::NodeConfig;
use trdp_lines::Connections;
use trdp_udp::{BoundPorts, RestingWire, SharedWaits, UdpWire};
use trdp_wire::{BindFault, Sleeper, Sockets, WatchedWire};

/// The wire of a service.
#[derive(Drop)]
pub(crate) enum ServiceWire<N: WatchedWire, C: Connections> {
    /// All ports are UDP ports.
    Udp(N),
    /// Lines come in at the paths of a folder.
    Controls(ControlWire<N, C>),
}

/// A wire of the network, with sockets for all ports or only for the network's.
pub(crate) trait NetworkWire: WatchedWire {
    ghost use Rattle.std.specs.Prelude.{IfErr};
    ghost use Rattle.trdp_udp.specs.declared.bound_ports.BoundPorts.{BoundPorts};
    ghost use Rattle.trdp_wire.specs.declared.bind_fault.BindFault.{BindFault};

    /// Which ports of a configuration have sockets.
    ghost bound: { Self → BoundPorts };

    /// Whether it has refused a registry with this fault.
    ghost refuses: { Self → BindFault → Type 0 };

    /// Where the system is asked to end a rest also for something else; None if this wire never
    /// waits.
    ///
    /// # Errors
    /// `OutOfMemory` if the system is out of memory for it, and else `Bind`.
    fn path_registry(&self) -> Result<Option<Registry>, BindFault>
        ensures { IfErr result (refuses self.now) };
}

impl<S: Sockets> NetworkWire for UdpWire<S> {
    ghost bound = { λ wire. wire.bound };

    ghost refuses = { λ _ _. ⊥ };

    fn path_registry(&self) -> Result<Option<Registry>, BindFault> {
        Ok(None)
    }
}

impl<S: Sockets + SharedWaits, K: Sleeper + Drop> NetworkWire for RestingWire<S, K> {
    ghost bound = { λ wire. wire.wire.bound };

    ghost refuses = { λ _ _. Unit {0} };

    fn path_registry(&self) -> Result<Option<Registry>, BindFault> {
        match self.sockets().registry() {
            Ok(registry) => Ok(registry),
            Err(error) if error.kind() == io::ErrorKind::OutOfMemory => Err(BindFault::OutOfMemory),
            Err(_) => Err(BindFault::Bind),
        }
    }
}

/// The folder of the system at a path, if there is one.
pub(crate) fn folder_at<'a, H: Files + Net + AllocGlobal>(
    rt: &'a H,
    path: Option<&'a str>,
) -> Option<SystemFolder<'a, H>>
    ensures { option_map (λ folder. folder.path.now) result
        ≡ option_map (λ path. path.now) path.entry }
{
    Some(SystemFolder::new(rt, rt.alloc(), path?))
}

/// Which ports of a configuration have sockets, with or without a folder of control sockets.
pub(crate) fn ports_beside<F>(folder: &Option<F>) -> BoundPorts
    ensures { result ≡ ports_beside folder.now }
{
    match folder {
        Some(_) => BoundPorts::Network,
        None => BoundPorts::All,
    }
}

/// The wire of a service over its network's wire, if this was opened: beside a folder it listens
/// there at the paths of a configuration.
///
/// # Errors
/// The network's fault. `Bind` if the folder refuses a path or the network a registry, and
/// `OutOfMemory`.
pub(crate) fn wire_over<N: NetworkWire + Drop, S: Drop, C: Connections + Drop, F: Folder<C> + Drop>(
    alloc: Global,
    network: Result<N, (BindFault, S)>,
    folder: Option<F>,
    config: &NodeConfig,
) -> Result<ServiceWire<N, C>, BindFault>
    requires bound { IfOk network (λ network. N.bound network ≡ ports_beside folder) }
    ensures beside { IfOk result (IsBeside N.bound F.path F.file_of config.now network folder) }
    ensures refused { IfErr result
        (IsRefusedBeside N.refuses F.listenings config.now network folder) }
{
    let network = match network {
        Ok(network) => network,
        Err((fault, _)) => return Err(fault),
    };
    let Some(mut folder) = folder else {
        return Ok(ServiceWire::Udp(network));
    };
    folder.report_to(network.path_registry()?);
    match ControlWire::open(alloc, &mut folder, network, config) {
        Ok(wire) => Ok(ServiceWire::Controls(wire)),
        Err(ListenFault::Refused) => Err(BindFault::Bind),
        Err(ListenFault::OutOfMemory) => Err(BindFault::OutOfMemory),
    }
}
