//! The node: one event after another.

ghost use Rattle.trdp_engine.specs.NodeStates.{uncounted};
ghost use Rattle.std.specs.Prelude.{nat_le, if◌then◌else◌, None, ◌≡◌, ◌≢◌, ℕ, ◌<◌, ◌≤◌};
ghost use Rattle.std.specs.Prelude.{length, OnOk, OnErr, IfOk, IfErr, Err, Some, slice_get};
ghost use Rattle.trdp_model.specs.Events.{DatagramIs, TopologyIs, RoleIs, CallIs};
ghost use Rattle.trdp_model.specs.Events.{call_model, event_model};
ghost use Rattle.trdp_model.specs.Slots.{SlotState};
ghost use Rattle.trdp_marshal.specs.Items.{model_of};
ghost use Rattle.trdp_model.specs.Values.{valued_at};
ghost use Rattle.trdp_model.specs.Configs.{setup_of};

use crate::start::parts;
use std::alloc::Global;
use std::marker::Model;
use trdp_base::{Place, Topo};
use trdp_calls::{put_value, serve};
use trdp_datagrams::{Addressee, ask_all, note_all, take_all};
use trdp_dataset::NodeConfig;
use trdp_filter::{Globals, Groups, Telegram, topo_valid};
use trdp_head::{MdKind, read_md, read_pd};
use trdp_marshal::Item;
use trdp_model::{Call, Event, NodeFault, Protocol};
use trdp_outbox::Outbox;
use trdp_store::{Counts, Setting, Store};

mod adding;
mod firing;
mod looks;

/// The communication node of one end device. It serves each slot of its configuration, and those
/// that are added.
#[derive(Drop)]
pub struct Node {
    /// The allocator that new objects take their memory from.
    alloc: Global,
    /// The node's address and ports, its datasets, and the quotas of the slots that it starts
    /// with.
    config: NodeConfig,
    /// Its latest moment in microseconds, its topology counters, and the redundancy groups that it
    /// leads.
    globals: Globals,
    /// The objects of its slots, 1 to 16, in the order of the configuration, then those that were
    /// added.
    store: Store,
    /// The objects that act at the telegram that is being handled; between events it says nothing.
    /// It has room for as many objects as all quotas allow, so that no telegram takes memory for it.
    noted: Vec<Addressee>,
    /// What the latest event that it accepted cost.
    counts: Counts,
}

impl Model for Node {
    ghost use Rattle.std.specs.Prelude.{◌≤◌, vec_capacity};
    ghost use Rattle.trdp_base.specs.Moments.{last_moment};
    ghost use Rattle.trdp_dataset.specs.Registries.{IsRegistry};
    ghost use Rattle.trdp_model.specs.Configs.{setup_of};
    ghost use Rattle.trdp_engine.specs.NodeStates.{NodeState};
    ghost use Rattle.trdp_table.specs.Tables.{room_of};
    ghost use Rattle.trdp_store.specs.TableSlots.{slots_of};
    ghost use Rattle.trdp_model.specs.Fitting.{EachFits};

    ghost Value = { NodeState };

    ghost view = { λ n. record {
      config = n.config;
      globals = n.globals;
      slots = slots_of n.store;
      counts = n.counts;
    } };

    ghost invariant = { λ n. (n.globals.now ≤ last_moment) × IsRegistry n.config.registry
        × EachFits (setup_of n.config) (slots_of n.store)
        × (room_of n.store ≤ vec_capacity n.noted) };
}

impl Node {
    ghost use Rattle.trdp_engine.specs.NodeStates.{NodeState};
    ghost use Rattle.trdp_model.specs.NodeModels.{GetsOutcome, StepsAsAlone};
    ghost use Rattle.trdp_model.specs.NodeModels.{Appends, MayTakeMemory};
    ghost use Rattle.trdp_engine.specs.NodeStates.{opened_node};
    ghost use Rattle.trdp_store.specs.Counting.{no_counts};
    ghost use Rattle.trdp_engine.specs.Costs.{IsBounded};
    ghost use Rattle.trdp_outbox.specs.Rooms.{MayLackMemory};
    ghost use Rattle.trdp_model.specs.Alone.{FaultIs, refused_as, globals_after, plain_effect};
    ghost use Rattle.trdp_model.specs.Alone.{slots_then};

    /// A node at moment 0 that leads no group, with an empty slot for each of the configuration, 1
    /// to 16.
    ///
    /// # Errors
    /// The configuration, where an allocation fails.
    pub fn new(alloc: Global, config: NodeConfig) -> Result<Node, NodeConfig>
        ensures opened { IfOk result (λ node. node ≡ opened_node config) }
        ensures few { IfOk result (λ node. length node.slots ≤ 16) }
        ensures returned { IfErr result (λ back. back ≡ config) }
    {
        config.registry().sound();
        match parts(alloc, &config) {
            Err(_) => Err(config),
            Ok((store, noted)) => {
                let globals = Globals {
                    now: 0,
                    topo: Topo { etb: 0, op_trn: 0 },
                    led: Groups::none(),
                };
                Ok(Node {
                    alloc,
                    config,
                    globals,
                    store,
                    noted,
                    counts: Counts::none(),
                })
            }
        }
    }

    /// The node's latest moment, in microseconds, at most 2^62.
    pub fn now(&self) -> u64
        ensures { result ≡ self.now.globals.now }
    {
        self.globals.now
    }

    /// Sets the topology counters (etbTopoCnt and opTrnTopoCnt).
    fn step_topology(&mut self, topo: Topo)
        ensures globals { self.new.globals ≡ globals_after self.old.globals (TopologyIs topo) }
        ensures slots { self.new.slots ≡ self.old.slots }
        ensures config { self.new.config ≡ self.old.config }
        ensures counts { self.new.counts ≡ no_counts }
    {
        self.globals.topo = topo;
        self.counts = Counts::none();
    }

    /// Sets the node's role in a redundancy group, 1 to 255 (profile).
    ///
    /// # Errors
    /// `NoGroup` for group 0.
    fn step_role(&mut self, group: u8, leader: bool) -> Result<(), NodeFault>
        ensures fault { FaultIs
            (refused_as (length self.old.slots) self.old.globals (RoleIs group leader)) result }
        ensures kept { OnErr result (self.new ≡ self.old) }
        ensures memory { result ≢ Err NodeFault.OutOfMemory }
        ensures config { self.new.config ≡ self.old.config }
        ensures globals { OnOk result (self.new.globals
            ≡ globals_after self.old.globals (RoleIs group leader)) }
        ensures slots { self.new.slots ≡ self.old.slots }
        ensures group { OnOk result (0 < group) }
        ensures counts { OnOk result (self.new.counts ≡ no_counts) }
    {
        if group == 0 {
            return Err(NodeFault::NoGroup);
        }
        self.globals.led.set(group, leader);
        self.counts = Counts::none();
        Ok(())
    }

    /// Processes a call: it makes room for the answer first.
    ///
    /// # Errors
    /// The first that applies of `NoSlot` and `OutOfMemory`.
    fn step_call(&mut self, s: u16, call: &Call<'_>, out: &mut Outbox) -> Result<(), NodeFault>
        ensures fault { FaultIs
            (refused_as (length self.old.slots) self.old.globals (CallIs s (call_model call.now)))
            result }
        ensures kept { OnErr result (self.new ≡ self.old) }
        ensures unrecorded { OnErr result (out.new.records ≡ out.old.records) }
        ensures full { result ≡ Err NodeFault.OutOfMemory
            → MayLackMemory (uncounted self.old) out.old (CallIs s (call_model call.now)) }
        ensures still { result ≡ Err NodeFault.OutOfMemory
            → MayLackMemory (uncounted self.old) out.new (CallIs s (call_model call.now)) }
        ensures config { self.new.config ≡ self.old.config }
        ensures globals { OnOk result (self.new.globals
            ≡ globals_after self.old.globals (CallIs s (call_model call.now))) }
        ensures count { length self.new.slots ≡ length self.old.slots }
        ensures outcomes { OnOk result ((r : ℕ) (slot : SlotState)
            → slice_get self.old.slots r ≡ Some slot
            → GetsOutcome (uncounted self.new) out.old.records out.new.records r
            (plain_effect (setup_of self.old.config) r slot self.old.globals
            (CallIs s (call_model call.now)))) }
        ensures appends { Appends self.old.slots out.old.records out.new.records }
        ensures cost { OnOk result (IsBounded self.old.slots (CallIs s (call_model call.now))
            self.new.counts) }
    {
        if usize::from(s) >= self.store.slots() {
            return Err(NodeFault::NoSlot);
        }
        let setting = Setting {
            alloc: self.alloc,
            config: &self.config,
            globals: &self.globals,
        };
        serve(&mut self.store, s, call, &setting, out)?;
        self.counts = Counts::none();
        Ok(())
    }

    /// Processes a datagram. One that is no telegram, or whose topology counters don't match the
    /// node's, changes nothing.
    ///
    /// # Errors
    /// `OutOfMemory`, where it concerns a slot.
    fn step_datagram(
        &mut self,
        protocol: Protocol,
        src: Place,
        dst: Place,
        bytes: &[u8],
        out: &mut Outbox,
    ) -> Result<(), NodeFault>
        ensures fault { FaultIs
            (refused_as (length self.old.slots) self.old.globals
            (DatagramIs protocol src dst bytes.now)) result }
        ensures kept { OnErr result (self.new ≡ self.old) }
        ensures unrecorded { OnErr result (out.new.records ≡ out.old.records) }
        ensures memory { result ≡ Err NodeFault.OutOfMemory
            → MayTakeMemory (uncounted self.old) (DatagramIs protocol src dst bytes.now) }
        ensures full { result ≡ Err NodeFault.OutOfMemory
            → MayLackMemory (uncounted self.old) out.old (DatagramIs protocol src dst bytes.now) }
        ensures still { result ≡ Err NodeFault.OutOfMemory
            → MayLackMemory (uncounted self.old) out.new (DatagramIs protocol src dst bytes.now) }
        ensures config { self.new.config ≡ self.old.config }
        ensures globals { OnOk result (self.new.globals
            ≡ globals_after self.old.globals (DatagramIs protocol src dst bytes.now)) }
        ensures count { length self.new.slots ≡ length self.old.slots }
        ensures outcomes { OnOk result ((s : ℕ) (slot : SlotState)
            → slice_get self.old.slots s ≡ Some slot
            → GetsOutcome (uncounted self.new) out.old.records out.new.records s
            (plain_effect (setup_of self.old.config) s slot self.old.globals
            (DatagramIs protocol src dst bytes.now))) }
        ensures appends { Appends self.old.slots out.old.records out.new.records }
        ensures cost { OnOk result (IsBounded self.old.slots
            (DatagramIs protocol src dst bytes.now) self.new.counts) }
    {
        let globals = &self.globals;
        let telegram = match protocol {
            Protocol::Pd => match read_pd(bytes) {
                Ok(view) if topo_valid(view.head.topo, globals.topo) => {
                    Some(Telegram::Pd { src, dst, view })
                }
                _ => None,
            },
            Protocol::Md => match read_md(bytes) {
                Ok(view) if topo_valid(view.head.topo, globals.topo) => {
                    Some(Telegram::Md { src, dst, view })
                }
                _ => None,
            },
        };
        let mut counts = Counts::none();
        if let Some(telegram) = &telegram {
            let setting = Setting {
                alloc: self.alloc,
                config: &self.config,
                globals,
            };
            let store = &mut self.store;
            let noted = &mut self.noted;
            let room = note_all(store, telegram, globals, noted, &mut counts);
            out.reserve(room.rows, room.bytes)?;
            match telegram {
                Telegram::Md { view, .. } if view.head.kind == MdKind::Request => {
                    ask_all(store, noted, telegram, globals, out, &mut counts);
                }
                _ => take_all(store, noted, telegram, &setting, out, &mut counts),
            }
        }
        self.counts = counts;
        Ok(())
    }

    /// Processes one event, and appends its records to the outbox.
    ///
    /// # Errors
    /// The event's own fault, as [`Event`] lists it. `OutOfMemory` comes last, and only at a call,
    /// at a moment by which something is due, at a datagram that concerns a slot, or at AddSlot.
    /// Where the outbox has room for the most that such a call, or objects of the kinds that act,
    /// may record, it comes only at Publish, Subscribe, Request and AddSlot. Node and outbox are
    /// as before.
    pub fn step(&mut self, event: &Event<'_>, out: &mut Outbox) -> Result<(), NodeFault>
        ensures fault { FaultIs
            (refused_as (length self.old.slots) self.old.globals (event_model event.now)) result }
        ensures kept { OnErr result (self.new ≡ self.old) }
        ensures unrecorded { OnErr result (out.new.records ≡ out.old.records) }
        ensures memory { result ≡ Err NodeFault.OutOfMemory
            → MayTakeMemory (uncounted self.old) (event_model event.now) }
        ensures full { result ≡ Err NodeFault.OutOfMemory
            → MayLackMemory (uncounted self.old) out.old (event_model event.now) }
        ensures still { result ≡ Err NodeFault.OutOfMemory
            → MayLackMemory (uncounted self.old) out.new (event_model event.now) }
        ensures config { self.new.config ≡ self.old.config }
        ensures globals { OnOk result (self.new.globals
            ≡ globals_after self.old.globals (event_model event.now)) }
        ensures count { OnOk result (length self.new.slots
            ≡ slots_then (length self.old.slots) (event_model event.now)) }
        ensures steps { OnOk result ((s : ℕ)
            → StepsAsAlone (uncounted self.old) (uncounted self.new) out.old.records out.new.records
            (event_model event.now) s) }
        ensures appends { Appends self.new.slots out.old.records out.new.records }
        ensures cost { OnOk result (IsBounded self.old.slots (event_model event.now)
            self.new.counts) }
    {
        match event {
            Event::Moment(t) => self.step_moment(*t, out),
            Event::Topology(topo) => {
                self.step_topology(*topo);
                Ok(())
            }
            Event::Role { group, leader } => self.step_role(*group, *leader),
            Event::Datagram {
                kind,
                src,
                dst,
                bytes,
            } => self.step_datagram(*kind, *src, *dst, bytes, out),
            Event::Call { slot, call } => self.step_call(*slot, call, out),
            Event::AddSlot(quotas) => self.step_add_slot(*quotas, out),
        }
    }

    /// Gives the publisher of that handle in slot `slot` a value that is passed as an item. It is
    /// the call Put with the bytes of the item as a value of the publisher's dataset. For an item
    /// without such bytes the one record is Refused.
    ///
    /// # Errors
    /// `NoSlot`, and last `OutOfMemory`; node and outbox are as before. Refused: the first that
    /// applies of `NoHandle`, `WrongKind`, `NoDataset` (dataset 0), `Shape` and `TooLong`.
    pub fn put_value(
        &mut self,
        alloc: Global,
        slot: u16,
        handle: u32,
        item: &Item,
        out: &mut Outbox,
    ) -> Result<(), NodeFault>
        ensures fault { FaultIs (if nat_le (length self.old.slots) slot then Some NodeFault.NoSlot
            else None) result }
        ensures kept { OnErr result (self.new ≡ self.old) }
        ensures unrecorded { OnErr result (out.new.records ≡ out.old.records) }
        ensures config { self.new.config ≡ self.old.config }
        ensures globals { self.new.globals ≡ self.old.globals }
        ensures count { length self.new.slots ≡ length self.old.slots }
        ensures values { OnOk result ((s : ℕ) (state : SlotState)
            → slice_get self.old.slots s ≡ Some state
            → GetsOutcome (uncounted self.new) out.old.records out.new.records s
            (valued_at (setup_of self.old.config) slot s state handle (model_of item.now))) }
        ensures appends { Appends self.old.slots out.old.records out.new.records }
        ensures counts { OnOk result (self.new.counts ≡ no_counts) }
    {
        if usize::from(slot) >= self.store.slots() {
            return Err(NodeFault::NoSlot);
        }
        let setting = Setting {
            alloc,
            config: &self.config,
            globals: &self.globals,
        };
        put_value(&mut self.store, slot, handle, item, &setting, out)?;
        self.counts = Counts::none();
        Ok(())
    }
}
