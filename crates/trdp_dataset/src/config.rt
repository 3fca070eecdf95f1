//! The configuration of a node.

ghost use Rattle.std.specs.Prelude.{◌≡◌, ◌≤◌, length, option_map, IfOk};
ghost use Rattle.toml.specs.Data.{as_table};
ghost use Rattle.toml.specs.View.{view, table_view};
ghost use Rattle.trdp_dataset.specs.Keys.{wanted_by, default_of};
ghost use Rattle.trdp_dataset.specs.Values.{IsAllowed};
ghost use Rattle.trdp_dataset.specs.Positions.{value_at};
ghost use Rattle.trdp_dataset.specs.Seen.{tables_seen};
ghost use Rattle.trdp_dataset.specs.Configs.{number_of, node_value, address_at, config_in};
ghost use Rattle.trdp_dataset.specs.Configs.{datasets_in, spare_control_ports_in, groups_in};
ghost use Rattle.trdp_dataset.specs.Configs.{quotas_in, slot_config, slots_in};
ghost use Rattle.trdp_dataset.specs.StoredSlots.{slot_model, slot_models};
ghost use Rattle.trdp_dataset.specs.Groups.{AreGroups};

use crate::fault::ConfigFault;
use crate::key::Key;
use crate::load::load;
use crate::parse::parse;
use crate::position::{all_positions, members_at, node_in, value_at};
use crate::read::{addresses_of, number_at, number_of, numbers_of};
use crate::registry::Registry;
use crate::value::address;
use std::alloc::{AllocError, Global};
use std::marker::Model;
use toml::{Table, Value};
use trdp_base::{Ip, Quotas};

/// An application slot as a configuration has it.
#[derive(Clone, Copy, Drop)]
struct SlotConfig {
    /// How many objects of each kind the slot may hold, each 0 to 256.
    quotas: Quotas,
    /// The UDP port for the slot's calls, in host order; 0 for none.
    control_port: u16,
}

/// The configuration of a node: its datasets, its address and ports, its groups, and the quotas and
/// control port of each slot.
#[derive(Drop)]
pub struct NodeConfig {
    /// The datasets.
    registry: Registry,
    /// The node's IPv4 address, in host order.
    address: Ip,
    /// The UDP port of process data, 1 to 65535.
    pd_port: u16,
    /// The UDP port of message data, 1 to 65535.
    md_port: u16,
    /// The UDP port of the operator, 1 to 65535; 0 for none.
    operator_port: u16,
    /// The UDP ports for the calls of slots that are added while the node runs, in the order in
    /// which they are added, at most 15, each in host order; 0 for none.
    spare_control_ports: Vec<u16>,
    /// The IPv4 address of the control ports and the operator's port, in host order.
    control_address: Ip,
    /// The addresses of the groups, in the order of the file, at most 32, each in host order and of
    /// 224.0.0.0 to 239.255.255.255, none there twice.
    groups: Vec<u32>,
    /// The time to live of telegrams that the node sends: at most that many hops, 1 to 255.
    ttl: u8,
    /// The application slots in the order of the file, 1 to 16.
    slots: Vec<SlotConfig>,
}

impl Model for NodeConfig {
    ghost use Rattle.std.specs.Prelude.{◌≡◌, ◌≤◌, ◌<◌, length};
    ghost use Rattle.trdp_dataset.specs.Configs.{ConfigModel};
    ghost use Rattle.trdp_dataset.specs.StoredSlots.{slot_models};
    ghost use Rattle.trdp_dataset.specs.Groups.{AreGroups};

    ghost Value = { ConfigModel };

    ghost view = { λ c. record {
      registry = c.registry;
      address = c.address.0;
      pd_port = c.pd_port;
      md_port = c.md_port;
      operator_port = c.operator_port;
      spare_control_ports = c.spare_control_ports.items;
      control_address = c.control_address.0;
      groups = c.groups.items;
      ttl = c.ttl;
      slots = slot_models c.slots.items;
    } };

    ghost invariant = { λ c. (1 ≤ c.pd_port) × (1 ≤ c.md_port) × (1 ≤ length c.slots.items)
        × (length c.slots.items ≤ 16) × (length c.spare_control_ports.items ≤ 15)
        × AreGroups c.groups.items × (1 ≤ c.ttl) };
}

/// The quotas of a slot.
#[tactic(auto, unfolding(crate::specs::Configs::quotas_in))]
fn quotas_in(slot: &Table) -> Quotas
    ensures value { result ≡ quotas_in (table_view slot.now) }
{
    let counts = [
        number_at(slot, Key::Publishers),
        number_at(slot, Key::Subscriptions),
        number_at(slot, Key::Requesters),
        number_at(slot, Key::Listeners),
        number_at(slot, Key::Callers),
        number_at(slot, Key::Repliers),
    ];
    Quotas::new(counts).unwrap()
}

/// The slot that a table is.
#[tactic(auto, unfolding(crate::specs::Configs::slot_config))]
fn slot_in(slot: &Table) -> SlotConfig
    ensures value { slot_model result ≡ slot_config (table_view slot.now) }
{
    SlotConfig {
        quotas: quotas_in(slot),
        control_port: number_at(slot, Key::ControlPort),
    }
}

/// The slots of a file.
#[tactic(auto, unfolding(crate::specs::Configs::slots_in))]
fn slots_in(alloc: Global, top: &Table) -> Result<Vec<SlotConfig>, AllocError>
    ensures value { IfOk result (λ slots. slot_models slots.items ≡ slots_in (table_view top.now)) }
{
    let mut slots = Vec::new(alloc);
    for member in members_at(top, Key::Slot) {
        if let Some(table) = member.as_table() {
            slots.push(slot_in(table))?;
        }
    }
    Ok(slots)
}

/// What the table of the node has at a key.
#[tactic(auto, unfolding(crate::specs::Configs::node_value))]
fn node_value(top: &Table, key: Key) -> Option<&Value>
    ensures value { option_map (λ v. view v.now) result ≡ node_value key (table_view top.now) }
{
    match node_in(top) {
        Some(node) => value_at(node, key),
        None => None,
    }
}

/// The number that the table of the node has at a key.
fn node_number(top: &Table, key: Key) -> u16
    ensures value { result ≡ number_of key (node_value key (table_view top.now)) }
    ensures range { IsAllowed (wanted_by key) (default_of key) → IsAllowed (wanted_by key) result }
{
    number_of(key, node_value(top, key))
}

/// The spare control ports of a file.
#[tactic(auto, unfolding(crate::specs::Configs::spare_control_ports_in))]
fn spare_control_ports_in(alloc: Global, top: &Table) -> Result<Vec<u16>, AllocError>
    ensures value { IfOk result (λ ports.
        ports.items ≡ spare_control_ports_in (table_view top.now)) }
{
    let found = node_value(top, Key::SpareControlPorts);
    numbers_of(alloc, Key::SpareControlPorts, found)
}

/// The groups of a file, in host order.
#[tactic(auto, unfolding(crate::specs::Configs::groups_in))]
fn groups_in(alloc: Global, top: &Table) -> Result<Vec<u32>, AllocError>
    ensures value { IfOk result (λ groups. groups.items ≡ groups_in (table_view top.now)) }
{
    let found = node_value(top, Key::Groups);
    addresses_of(alloc, Key::Groups, found)
}

/// The address that the table of the node has at a key; `absent` where it has none.
fn address_at(top: &Table, key: Key, absent: Ip) -> Ip
    ensures value { result.0 ≡ address_at key absent.0 (table_view top.now) }
{
    match node_value(top, key) {
        Some(value) => match address(value) {
            Some(address) => address,
            None => absent,
        },
        None => absent,
    }
}

/// The configuration that a file without a fault means.
#[tactic(auto, unfolding(crate::specs::Configs::config_in))]
fn config_in(
    top: &Table,
    registry: Registry,
    spare_control_ports: Vec<u16>,
    groups: Vec<u32>,
    slots: Vec<SlotConfig>,
) -> NodeConfig
    requires registry { registry ≡ datasets_in (table_view top.now) }
    requires spare { spare_control_ports.items ≡ spare_control_ports_in (table_view top.now) }
    requires few_spare { length (spare_control_ports_in (table_view top.now)) ≤ 15 }
    requires groups { groups.items ≡ groups_in (table_view top.now) }
    requires sound_groups { AreGroups (groups_in (table_view top.now)) }
    requires slots { slot_models slots.items ≡ slots_in (table_view top.now) }
    requires some { 1 ≤ length (slots_in (table_view top.now)) }
    requires few { length (slots_in (table_view top.now)) ≤ 16 }
    ensures value { result ≡ config_in (table_view top.now) }
{
    let address = address_at(top, Key::Address, Ip(0));
    NodeConfig {
        registry,
        address,
        pd_port: node_number(top, Key::PdPort),
        md_port: node_number(top, Key::MdPort),
        operator_port: node_number(top, Key::OperatorPort),
        spare_control_ports,
        control_address: address_at(top, Key::ControlAddress, address),
        groups,
        ttl: node_number(top, Key::Ttl) as u8,
        slots,
    }
}

impl NodeConfig {
    ghost use Rattle.std.specs.Prelude.{◌≡◌, ◌≤◌, length, option_map, slice_get, All};
    ghost use Rattle.trdp_dataset.specs.Configs.{ReadsToml, config_of};
    ghost use Rattle.trdp_dataset.specs.Groups.{IsGroup, NoTwoAlike};

    /// The configuration of a file in TOML.
    ///
    /// # Errors
    /// The faults of [`ConfigFault`]; `Toml` is that of bytes that aren't UTF-8 or not TOML. Any
    /// file may give `OutOfMemory` in place of its own fault.
    pub fn from_toml(alloc: Global, bytes: &[u8]) -> Result<Self, ConfigFault>
        ensures reads { ReadsToml config_of bytes.now result }
    {
        let top = parse(alloc, bytes)?;
        let positions = all_positions(alloc, &top)?;
        let registry = load(alloc, &top, &positions)?;
        let spare_control_ports = spare_control_ports_in(alloc, &top)?;
        let groups = groups_in(alloc, &top)?;
        let slots = slots_in(alloc, &top)?;
        Ok(config_in(&top, registry, spare_control_ports, groups, slots))
    }

    /// The datasets.
    pub fn registry(&self) -> &Registry
        ensures value { result.now ≡ self.now.registry }
    {
        &self.registry
    }

    /// The IPv4 address of the node.
    pub fn address(&self) -> Ip
        ensures value { result.0 ≡ self.now.address }
    {
        self.address
    }

    /// The UDP port of process data, 1 to 65535.
    pub fn pd_port(&self) -> u16
        ensures value { result ≡ self.now.pd_port }
        ensures least { 1 ≤ result }
    {
        self.pd_port
    }

    /// The UDP port of message data, 1 to 65535.
    pub fn md_port(&self) -> u16
        ensures value { result ≡ self.now.md_port }
        ensures least { 1 ≤ result }
    {
        self.md_port
    }

    /// The UDP port of the operator; 0 for none.
    pub fn operator_port(&self) -> u16
        ensures value { result ≡ self.now.operator_port }
    {
        self.operator_port
    }

    /// How many spare control ports there are, at most 15.
    pub fn spare_control_ports(&self) -> usize
        ensures value { result ≡ length self.now.spare_control_ports }
        ensures most { result ≤ 15 }
    {
        self.spare_control_ports.len()
    }

    /// The UDP port for the calls of a slot that is added while the node runs, 0 for none, by its
    /// index from 0 among the added ones; None where no spare control port is left for it.
    pub fn spare_control_port(&self, added: usize) -> Option<u16>
        ensures value { result ≡ slice_get self.now.spare_control_ports added }
    {
        self.spare_control_ports.get(added).copied()
    }

    /// The IPv4 address of the control ports and the operator's port; the node's own where the
    /// file names no other.
    pub fn control_address(&self) -> Ip
        ensures value { result.0 ≡ self.now.control_address }
    {
        self.control_address
    }

    /// The addresses of the multicast groups that the operating system joins for the node, in the
    /// order of the file, each in host order: at most 32, each of 224.0.0.0 to 239.255.255.255,
    /// none there twice.
    pub fn groups(&self) -> &[u32]
        ensures value { result.now ≡ self.now.groups }
        ensures most { length result.now ≤ 32 }
        ensures range { All IsGroup result.now }
        ensures apart { NoTwoAlike result.now }
    {
        &self.groups
    }

    /// The time to live of the telegrams that the node sends: at most that many hops, 1 to 255.
    pub fn ttl(&self) -> u8
        ensures value { result ≡ self.now.ttl }
        ensures least { 1 ≤ result }
    {
        self.ttl
    }

    /// How many application slots there are, 1 to 16.
    pub fn slots(&self) -> usize
        ensures value { result ≡ length self.now.slots }
        ensures least { 1 ≤ result }
        ensures most { result ≤ 16 }
    {
        self.slots.len()
    }

    /// How many objects of each kind a slot may hold, by its number from 0; None where there is no
    /// such slot.
    pub fn quotas(&self, slot: usize) -> Option<Quotas>
        ensures value { result ≡ option_map (λ s. s.quotas) (slice_get self.now.slots slot) }
    {
        match self.slots.get(slot) {
            Some(slot) => Some(slot.quotas),
            None => None,
        }
    }

    /// The UDP port for the calls of a slot, 0 for none; None where there is no such slot.
    pub fn control_port(&self, slot: usize) -> Option<u16>
        ensures value { result ≡ option_map (λ s. s.control_port) (slice_get self.now.slots slot) }
    {
        match self.slots.get(slot) {
            Some(slot) => Some(slot.control_port),
            None => None,
        }
    }
}
