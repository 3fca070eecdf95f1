//! The ports that a configuration names.

ghost use Rattle.std.specs.Prelude.{◌≡◌, ◌<◌, ◌≤◌, ◌+◌, ◌++◌, drop, length, IfOk, OnOk};
ghost use Rattle.std.specs.Prelude.{slice_get};
ghost use Rattle.trdp_wire.specs.Ports.{control_numbers, control_ports, group_ports};
ghost use Rattle.trdp_wire.specs.Ports.{port_unless_0, ports_of};

use crate::port::Port;
use std::alloc::{AllocError, Global};
use trdp_dataset::NodeConfig;

/// The ports of a turn, in its order.
///
/// # Errors
/// `AllocError` if an allocation for their list fails.
pub fn ports_of(alloc: Global, config: &NodeConfig) -> Result<Vec<Port>, AllocError>
    ensures { IfOk result (λ ports. ports.items ≡ ports_of config.now) }
{
    let mut ports = vec![in alloc; Port::Pd, Port::Md]?;
    push_groups(&mut ports, config.groups())?;
    push_unless_0(&mut ports, config.operator_port(), Port::Operator)?;
    for slot in 0..config.slots() + config.spare_control_ports() {
        push_control(&mut ports, config, slot)?;
    }
    Ok(ports)
}

/// Adds the ports of these groups, two for each.
///
/// # Errors
/// `AllocError` if the list can't grow.
fn push_groups(ports: &mut Vec<Port>, groups: &[u32]) -> Result<(), AllocError>
    ensures { OnOk result (ports.new.items ≡ ports.old.items ++ group_ports groups.now) }
{
    for group in groups.iter() {
        ports.push(Port::PdGroup(*group))?;
        ports.push(Port::MdGroup(*group))?;
    }
    Ok(())
}

/// The number of the control port of a slot: of one that the configuration has, or of one that is
/// added after these. 0 is no port; None if the configuration names neither the slot nor a spare
/// port for it.
pub fn control_number(config: &NodeConfig, slot: usize) -> Option<u16>
    ensures { result ≡ slice_get (control_numbers config.now) slot }
{
    let slots = config.slots();
    if slot < slots {
        config.control_port(slot)
    } else {
        config.spare_control_port(slot - slots)
    }
}

/// Adds the control port of a slot, unless its number is 0.
///
/// # Errors
/// `AllocError` if the list can't grow.
fn push_control(ports: &mut Vec<Port>, config: &NodeConfig, slot: usize) -> Result<(), AllocError>
    requires slot { slot < length (control_numbers config.now) }
    requires few { length (control_numbers config.now) ≤ 31 }
    ensures { OnOk result
        (ports.new.items ++ control_ports (slot + 1) (drop (slot + 1) (control_numbers config.now))
        ≡ ports.old.items ++ control_ports slot (drop slot (control_numbers config.now))) }
{
    match control_number(config, slot) {
        Some(number) => {
            let slot = slot_number(slot);
            push_unless_0(ports, number, Port::Control(slot))
        }
        None => Ok(()),
    }
}

/// The index of a slot, from 0 to 30, as its number.
pub fn slot_number(slot: usize) -> u16
    requires { slot < 31 }
    ensures { result ≡ slot }
{
    slot as u16
}

/// Adds a port, unless its number is 0.
///
/// # Errors
/// `AllocError` if the list can't grow.
#[tactic(auto, unfolding(crate::specs::Ports::port_unless_0))]
fn push_unless_0(ports: &mut Vec<Port>, number: u16, port: Port) -> Result<(), AllocError>
    ensures { OnOk result (ports.new.items ≡ ports.old.items ++ port_unless_0 number port) }
{
    if number != 0 {
        ports.push(port)?;
    }
    Ok(())
}
