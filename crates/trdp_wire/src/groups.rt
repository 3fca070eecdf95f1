//! The groups of a node.

ghost use Rattle.std.specs.Prelude.{◌≡◌, ◌<◌, ◌≤◌, ◌==◌, length, IfSome};
ghost use Rattle.std.specs.List.{position};
ghost use Rattle.trdp_wire.specs.Sockets.{group_index, socket_of};

use crate::port::Port;
use arrayvec::ArrayVec;
use std::marker::Model;
use trdp_dataset::NodeConfig;

/// The most groups that a configuration names (profile).
const GROUPS_MAX: usize = 32;

/// The addresses of the groups whose telegrams come to a node, in the order of its configuration
/// and in host order. They decide which socket each port of a group has.
#[derive(Drop)]
pub struct GroupAddresses {
    /// The addresses, at most 32; empty if the node is in no group.
    addresses: ArrayVec<u32, GROUPS_MAX>,
}

impl Model for GroupAddresses {
    ghost use Rattle.std.specs.Prelude.{◌≤◌, ℕ, List, length};

    ghost Value = { List ℕ };

    ghost view = { λ g. g.addresses.items };

    ghost invariant = { λ g. length g.addresses.items ≤ 32 };
}

impl GroupAddresses {
    /// The groups of a configuration.
    pub fn of(config: &NodeConfig) -> GroupAddresses
        ensures { result ≡ config.now.groups }
    {
        let mut addresses = ArrayVec::new();
        addresses.try_extend_from_slice(config.groups()).unwrap();
        GroupAddresses { addresses }
    }

    /// The number of a port's socket, and of its news: 0 to 2 for process data, message data and
    /// the operator, then the control ports by slot, and from 34 on two for each group.
    pub fn socket_of(&self, port: Port) -> usize
        ensures { result ≡ socket_of self.now port }
    {
        match port {
            Port::Pd => 0,
            Port::Md => 1,
            Port::Operator => 2,
            Port::Control(slot) => 3 + usize::from(slot),
            Port::PdGroup(group) => 34 + 2 * self.index(group),
            Port::MdGroup(group) => 35 + 2 * self.index(group),
        }
    }

    /// The index of a group, from 0; the number of groups if it is none of them.
    fn index(&self, group: u32) -> usize
        ensures value { result ≡ group_index self.now group }
        ensures most { result ≤ 32 }
    {
        let groups = self.addresses.as_slice();
        place_among(groups, group).unwrap_or(groups.len())
    }
}

/// The index of a group among these, from 0; None if it is none of them.
fn place_among(groups: &[u32], group: u32) -> Option<usize>
    ensures value { result ≡ position (λ g. g == group) groups.now }
    ensures within { IfSome result (λ place. place < length groups.now) }
{
    groups.iter().position(|g| *g == group)
}
