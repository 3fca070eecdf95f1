//! The paths of a node, at which it listens before the first turn: one after another, in the order
//! of a turn.

ghost use Rattle.std.specs.Prelude.{◌≡◌, ◌∷◌, [], ◌++◌, map, IfOk, IfSome, OnOk};
ghost use Rattle.std.specs.Option.{option_map};
ghost use Rattle.std.specs.List.{flat_map};
ghost use Rattle.trdp_wire.specs.Ports.{control_numbers, place_of_port};
ghost use Rattle.trdp_wire.specs.Sockets.{fault_of_result};
ghost use Rattle.trdp_controls.specs.Folders.{ListensInTurn, control_file, control_files};
ghost use Rattle.trdp_controls.specs.Folders.{file_unless_0, path_unless_0};

use crate::control_wire::ControlWire;
use crate::folder::Folder;
use crate::listen_fault::ListenFault;
use std::alloc::Global;
use trdp_dataset::NodeConfig;
use trdp_lines::{Connections, ControlPath, Path, Policy};
use trdp_wire::{GroupAddresses, Port, WatchedWire, place_of_port, slot_number};

impl<N: WatchedWire + Drop, C: Connections + Drop> ControlWire<N, C> {
    ghost use Rattle.std.specs.Prelude.{◌≡◌, map, IfOk, None, false};
    ghost use Rattle.trdp_wire.specs.Ports.{control_numbers};
    ghost use Rattle.trdp_wire.specs.Sockets.{fault_of_result};
    ghost use Rattle.trdp_controls.specs.Folders.{ListensInTurn, control_file, control_files};
    ghost use Rattle.trdp_controls.specs.Folders.{files_of, path_unless_0};

    /// Listens at the paths of a configuration, one after another in the order of a turn: the file
    /// of the operator's port, and those of the control ports of the slots and of the spare ones.
    /// They are the paths of a wire over that network. A port of the number 0 has no path.
    ///
    /// # Errors
    /// The fault of the first file at which it can't listen. `OutOfMemory` also if an allocation
    /// for a path fails.
    pub fn open<F: Folder<C>>(
        alloc: Global,
        folder: &mut F,
        network: N,
        config: &NodeConfig,
    ) -> Result<ControlWire<N, C>, ListenFault>
        ensures listens { ListensInTurn (files_of config.now) (fault_of_result result)
            (F.listenings folder.old) (F.listenings folder.new) }
        ensures operator { IfOk result (λ wire. control_file F.file_of wire.operator
            ≡ path_unless_0 (F.path folder.old) config.now.operator_port) }
        ensures controls { IfOk result (λ wire. control_files F.file_of wire.controls.items
            ≡ map (path_unless_0 (F.path folder.old)) (control_numbers config.now)) }
        ensures network { IfOk result (λ wire. wire.network ≡ network) }
        ensures failures { IfOk result (λ wire. wire.failures ≡ 0) }
        ensures refusal { IfOk result (λ wire. wire.refusal ≡ None) }
        ensures unread { IfOk result (λ wire. wire.unread ≡ None) }
        ensures heard { IfOk result (λ wire. wire.heard ≡ false) }
    {
        let operator = path_at(alloc, folder, config, Port::Operator)?;
        let controls = control_paths(alloc, folder, config)?;
        Ok(ControlWire {
            network,
            operator,
            controls,
            failures: 0,
            refusal: None,
            unread: None,
            heard: false,
        })
    }
}

/// Listens at the files of the control ports of the slots, and of the spare ones.
///
/// # Errors
/// The fault of the first that is refused; `OutOfMemory` if an allocation fails.
fn control_paths<C: Connections + Drop, F: Folder<C>>(
    alloc: Global,
    folder: &mut F,
    config: &NodeConfig,
) -> Result<Vec<Option<ControlPath<C>>>, ListenFault>
    ensures listens { ListensInTurn (flat_map file_unless_0 (control_numbers config.now))
        (fault_of_result result) (F.listenings folder.old) (F.listenings folder.new) }
    ensures files { IfOk result (λ paths. control_files F.file_of paths.items
        ≡ map (path_unless_0 (F.path folder.old)) (control_numbers config.now)) }
{
    let mut paths = Vec::new(alloc);
    for slot in 0..config.slots() + config.spare_control_ports() {
        let path = path_at(alloc, folder, config, Port::Control(slot_number(slot)))?;
        match paths.push(path) {
            Ok(()) => {}
            Err(_) => return Err(ListenFault::OutOfMemory),
        }
    }
    Ok(paths)
}

/// Listens at the file of a port, unless its number is 0: the path of the port.
///
/// # Errors
/// The folder's fault; `OutOfMemory` if an allocation fails.
fn path_at<C: Connections + Drop, P: Policy + Drop, F: Folder<C>>(
    alloc: Global,
    folder: &mut F,
    config: &NodeConfig,
    port: Port,
) -> Result<Option<Path<C, P>>, ListenFault>
    ensures listens { ListensInTurn (file_unless_0 (place_of_port config.now port).port)
        (fault_of_result result) (F.listenings folder.old) (F.listenings folder.new) }
    ensures file { IfOk result (λ path. control_file F.file_of path
        ≡ path_unless_0 (F.path folder.old) (place_of_port config.now port).port) }
    ensures stays { F.path folder.new ≡ F.path folder.old }
{
    let number = place_of_port(config, port).port;
    if number == 0 {
        return Ok(None);
    }
    let socket = GroupAddresses::of(config).socket_of(port);
    let connections = folder.listen(number, socket)?;
    match Path::new(alloc, connections) {
        Ok(path) => Ok(Some(path)),
        Err(_) => Err(ListenFault::OutOfMemory),
    }
}
