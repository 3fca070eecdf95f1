//! A running node of a network.

ghost use Rattle.std.specs.Prelude.{◌≡◌, length, OnErr, IfOk, IfErr};
ghost use Rattle.trdp_model.specs.Alone.{refused_as};
ghost use Rattle.trdp_model.specs.Events.{event_model};
ghost use Rattle.trdp_model.specs.NodeModels.{opened_model};
ghost use Rattle.trdp_net.specs.Networks.{net_node, place_of, reaches, is_group};
ghost use Rattle.trdp_net.specs.Running.{TakesEvent, MayFault, node_fault};

use crate::fault::NetworkFault;
use crate::told::{Home, Sent, Told};
use std::alloc::{AllocError, Global};
use std::marker::Model;
use trdp_engine::{Event, Ip, Node, NodeConfig, Outbox, Place};

/// A node with its places.
#[derive(Drop)]
pub(crate) struct Station {
    /// The node.
    node: Node,
    /// Its places (address and port).
    home: Home,
}

impl Model for Station {
    ghost use Rattle.trdp_model.specs.Configs.{setup_of};
    ghost use Rattle.trdp_engine.specs.NodeStates.{uncounted};
    ghost use Rattle.trdp_net.specs.Networks.{NetNode, net_node};
    ghost use Rattle.trdp_net.specs.Tellings.{IsOwnHome};

    ghost Value = { NetNode };

    ghost view = { λ s. net_node (uncounted s.node) };

    ghost invariant = { λ s. IsOwnHome s.home (setup_of s.node.config) };
}

/// A group address: 224.0.0.0 to 239.255.255.255.
fn is_group(ip: Ip) -> bool
    ensures { result ≡ is_group ip.0 }
{
    0xe000_0000 <= ip.0 && ip.0 <= 0xefff_ffff
}

/// Whether a telegram that was sent to the first place may be delivered at the second.
fn reaches(to: Place, place: Place) -> bool
    ensures { result ≡ reaches to place }
{
    to.ip.0 == place.ip.0 && to.port == place.port || is_group(to.ip) && to.port == place.port
}

impl Station {
    /// A node that is just opened.
    ///
    /// # Errors
    /// [`AllocError`] where there is no memory for it.
    pub(crate) fn new(alloc: Global, config: NodeConfig) -> Result<Station, AllocError>
        ensures { IfOk result (λ station. station ≡ net_node (opened_model config)) }
    {
        let home = Home::of(&config);
        match Node::new(alloc, config) {
            Err(_) => Err(AllocError),
            Ok(node) => Ok(Station { node, home }),
        }
    }

    /// Whether the telegram may be delivered here.
    pub(crate) fn is_reached(&self, sent: &Sent<'_>) -> bool
        ensures { result ≡ reaches sent.now.to (place_of sent.now.protocol self.now.setup) }
    {
        reaches(sent.to, self.home.place(sent.protocol))
    }

    /// Gives an event to the node, and returns what it reported.
    ///
    /// # Errors
    /// Those of [`Node::step`]; the node is as before.
    pub(crate) fn take(&mut self, alloc: Global, event: &Event<'_>) -> Result<Told, NetworkFault>
        ensures taken { IfOk result (λ told.
            TakesEvent self.old self.new (event_model event.now) told) }
        ensures kept { OnErr result (self.new ≡ self.old) }
        ensures fault { IfErr result (λ fault. MayFault (node_fault
            (refused_as (length self.old.slots) self.old.globals (event_model event.now)))
            fault) }
    {
        let slots = self.node.slots();
        let mut out = Outbox::new(alloc);
        self.node.step(event, &mut out)?;
        Ok(Told {
            home: self.home,
            slots,
            out,
        })
    }
}
