//! A network that runs: real nodes, and every telegram that any of them ever sent.

ghost use Rattle.std.specs.Prelude.{◌≡◌, length, None, OnOk, OnErr, IfOk, IfErr, slice_get};
ghost use Rattle.std.specs.Prelude.{option_map};
ghost use Rattle.trdp_model.specs.Events.{event_model, DatagramIs};
ghost use Rattle.trdp_model.specs.Records.{record_model};
ghost use Rattle.trdp_net.specs.Networks.{DeliveryAt, opened_network, moves_at};
ghost use Rattle.trdp_net.specs.Networks.{Network as AnyNetwork};
ghost use Rattle.trdp_net.specs.Running.{Shows, Follows, TakesEventAt, DeliversAt, MayFault};
ghost use Rattle.trdp_net.specs.Running.{AnswerIs};
ghost use Rattle.trdp_net.specs.Running.{event_fault, delivery_fault, step_fault, FollowsIf};
ghost use Rattle.trdp_net.specs.Running.{is_arrival, own_step_of, own_fault};
ghost use Rattle.trdp_net.specs.Tellings.{sent_model};

use crate::fault::NetworkFault;
use crate::station::Station;
use crate::told::{Sent, Told, find, latest};
use std::alloc::{AllocError, Global};
use std::marker::Model;
use trdp_engine::{Call, Event, NodeConfig, Record};

/// Real nodes with a network between them that loses, repeats and reorders as its user says: what
/// any node sent may be delivered at any node that it reaches, any number of times, at any later
/// time, or never. It keeps all that was sent, so its memory grows with every event.
#[derive(Drop)]
pub struct Network {
    /// The allocator that nodes and records take their memory from.
    alloc: Global,
    /// The nodes, in the order of their configurations.
    stations: Vec<Station>,
    /// What was reported at each event that a node accepted, the latest last.
    events: Vec<Told>,
}

impl Model for Network {
    ghost use Rattle.trdp_net.specs.Running.{NetworkState};
    ghost use Rattle.trdp_net.specs.Tellings.{all_sent, latest};

    ghost Value = { NetworkState };

    ghost view = { λ n. record {
      nodes = n.stations.items;
      sent = all_sent n.events.items;
      told = latest n.events.items;
    } };
}

/// Gives an event to the node of that number, and returns what the node reported.
fn take_at(
    stations: &mut Vec<Station>,
    node: usize,
    alloc: Global,
    event: &Event<'_>,
) -> Result<Told, NetworkFault>
    ensures taken { IfOk result (λ told. TakesEventAt stations.old.items stations.new.items node
        (event_model event.now) told) }
    ensures kept { OnErr result (stations.new.items ≡ stations.old.items) }
    ensures fault { IfErr result (λ fault. MayFault
        (event_fault (slice_get stations.old.items node) (event_model event.now)) fault) }
{
    if node >= stations.len() {
        return Err(NetworkFault::NoNode);
    }
    let station = &mut stations[node];
    station.take(alloc, event)
}

/// Whether the event is a datagram that comes in.
fn is_arrival(event: &Event<'_>) -> bool
    ensures { result ≡ is_arrival (event_model event.now) }
{
    match event {
        Event::Datagram { .. } => true,
        Event::Moment(_) => false,
        Event::Topology(_) => false,
        Event::Role { .. } => false,
        Event::Call { .. } => false,
        Event::AddSlot(_) => false,
    }
}

/// Gives a telegram to the node of that number, and returns what the node reported.
fn arrive(
    stations: &mut Vec<Station>,
    node: usize,
    alloc: Global,
    sent: &Sent<'_>,
) -> Result<Told, NetworkFault>
    ensures taken { IfOk result (λ told. TakesEventAt stations.old.items stations.new.items node
        (DatagramIs sent.now.protocol sent.now.from sent.now.to sent.now.bytes.now) told) }
    ensures kept { OnErr result (stations.new.items ≡ stations.old.items) }
    ensures fault { IfErr result (λ fault. MayFault
        (event_fault (slice_get stations.old.items node)
        (DatagramIs sent.now.protocol sent.now.from sent.now.to sent.now.bytes.now)) fault) }
{
    // The checker drops an event only where it has seen a call: this one is never made.
    let _call = Call::Get { handle: 0 };
    let event = Event::Datagram {
        kind: sent.protocol,
        src: sent.from,
        dst: sent.to,
        bytes: sent.bytes,
    };
    take_at(stations, node, alloc, &event)
}

/// Delivers a telegram, if there is one, at the node of that number, and returns what the node
/// reported.
fn deliver_at(
    stations: &mut Vec<Station>,
    node: usize,
    alloc: Global,
    sent: Option<Sent<'_>>,
) -> Result<Told, NetworkFault>
    ensures taken { IfOk result (λ told. DeliversAt stations.old.items stations.new.items node
        (option_map sent_model sent.entry) told) }
    ensures kept { OnErr result (stations.new.items ≡ stations.old.items) }
    ensures fault { IfErr result (λ fault. MayFault
        (delivery_fault (slice_get stations.old.items node) (option_map sent_model sent.entry))
        fault) }
{
    if node >= stations.len() {
        return Err(NetworkFault::NoNode);
    }
    match sent {
        None => Err(NetworkFault::NoTelegram),
        Some(sent) => {
            if !stations[node].is_reached(&sent) {
                return Err(NetworkFault::Elsewhere);
            }
            arrive(stations, node, alloc, &sent)
        }
    }
}

impl Network {
    /// A network of nodes that are just opened. Nothing was sent.
    ///
    /// # Errors
    /// [`AllocError`] where there is no memory for them.
    pub fn new(alloc: Global, configs: Vec<NodeConfig>) -> Result<Network, AllocError>
        ensures { IfOk result (λ network. Shows network (opened_network configs.items)) }
    {
        let mut stations = Vec::new(alloc);
        for config in configs {
            stations.push(Station::new(alloc, config)?)?;
        }
        Ok(Network {
            alloc,
            stations,
            events: Vec::new(alloc),
        })
    }

    /// How many nodes there are; they are numbered from 0.
    pub fn nodes(&self) -> usize
        ensures { result ≡ length self.now.nodes }
    {
        self.stations.len()
    }

    /// The telegram of that number, from 0, of those that were ever sent: event by event, and
    /// within an event slot by slot. None past the last.
    pub fn sent(&self, which: usize) -> Option<Sent<'_>>
        ensures { option_map sent_model result ≡ slice_get self.now.sent which }
    {
        find(&self.events, which)
    }

    /// The i-th record, from 0, of the latest event that a node accepted; None past the last.
    pub fn told(&self, i: usize) -> Option<Record<'_>>
        ensures { option_map record_model result ≡ slice_get self.now.told i }
    {
        latest(&self.events, i)
    }

    /// Gives an event of any kind to the node of that number.
    ///
    /// # Errors
    /// `NoNode`, and those of [`trdp_engine::Node::step`].
    fn take_any(&mut self, node: usize, event: &Event<'_>) -> Result<(), NetworkFault>
        ensures follows { OnOk result ((w : AnyNetwork) → Shows self.old w
            → Shows self.new (moves_at w node (slice_get w.nodes node) (event_model event.now))) }
        ensures kept { OnErr result (self.new ≡ self.old) }
        ensures fault { AnswerIs
            (event_fault (slice_get self.old.nodes node) (event_model event.now)) result }
    {
        self.events.reserve(1)?;
        let told = take_at(&mut self.stations, node, self.alloc, event)?;
        self.events.push_reserved(told);
        Ok(())
    }

    /// Gives the node of that number an event of its own: a call, a moment, topology counters, a
    /// role or a slot that is opened.
    ///
    /// # Errors
    /// The first that applies of `Unsent` (the event is a datagram), `NoNode` and the node's own;
    /// or `OutOfMemory` in place of any. The network stays as it was.
    pub fn take(&mut self, node: usize, event: &Event<'_>) -> Result<(), NetworkFault>
        ensures follows { OnOk result
            (FollowsIf self.old (own_step_of node (event_model event.now)) self.new) }
        ensures kept { OnErr result (self.new ≡ self.old) }
        ensures fault { AnswerIs
            (own_fault self.old (own_step_of node (event_model event.now))) result }
    {
        if is_arrival(event) {
            return Err(NetworkFault::Unsent);
        }
        self.take_any(node, event)
    }

    /// Delivers the telegram of that number, of those that [`Network::sent`] shows, at the node of
    /// that number: for the first time or again.
    ///
    /// # Errors
    /// The first that applies of `NoNode`, `NoTelegram` and `Elsewhere`; or `OutOfMemory` in place
    /// of any. The network stays as it was.
    pub fn deliver(&mut self, which: usize, node: usize) -> Result<(), NetworkFault>
        ensures follows { OnOk result (Follows self.old (DeliveryAt node which) self.new) }
        ensures kept { OnErr result (self.new ≡ self.old) }
        ensures fault { AnswerIs (step_fault self.old (DeliveryAt node which)) result }
    {
        self.events.reserve(1)?;
        let sent = find(&self.events, which);
        let told = deliver_at(&mut self.stations, node, self.alloc, sent)?;
        self.events.push_reserved(told);
        Ok(())
    }
}
