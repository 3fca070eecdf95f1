//! A node, and when and from where its slots' lines came; the effect of a take at one of the
//! ports.

ghost use Rattle.std.specs.Prelude.{◌≡◌, ◌<◌, ◌≤◌, ◌∷◌, [], length, false};
ghost use Rattle.std.specs.Prelude.{IfOk, IfErr, OnOk, OnErr};
ghost use Rattle.trdp_model.specs.Alone.{refused_as};
ghost use Rattle.trdp_model.specs.Events.{CallIs, DatagramIs, ResetCall, event_model};
ghost use Rattle.trdp_model.specs.NodeModels.{MayTakeMemory};
ghost use Rattle.trdp_engine.specs.NodeStates.{uncounted};
ghost use Rattle.trdp_model.specs.NodeModels.{node_after};
ghost use Rattle.trdp_text.specs.PortLines.{control_line_of, operator_line_of};
ghost use Rattle.trdp_daemon.specs.Effects.{event_effect, is_reset, missing, telling_only};
ghost use Rattle.trdp_daemon.specs.Resting.{IsIdleTime};
ghost use Rattle.trdp_daemon.specs.Services.{Comes, ComesTold, ComesWith, IsSoundService};
ghost use Rattle.trdp_daemon.specs.Services.{TakesAtPorts, service_state};
ghost use Rattle.trdp_daemon.specs.Questions.{frame_room, text_of_question};
ghost use Rattle.trdp_daemon.specs.Turns.{begun, opened_service, take_room};
ghost use Rattle.trdp_daemon.specs.Visits.{control_effect, datagram_effect};
ghost use Rattle.trdp_daemon.specs.Visits.{operator_effect, question_effect};

use crate::answer::{operator_text, refuse};
use crate::contact::Contact;
use crate::home::{HomePlaces, home_of};
use crate::link::Link;
use crate::lists::Lists;
use crate::question::put_answer;
use crate::telling::tell_records;
use std::alloc::{AllocError, Global};
use trdp_base::Place;
use trdp_dataset::NodeConfig;
use trdp_engine::{Call, Event, Node, NodeFault, Outbox, Protocol};
use trdp_text::{OperatorLine, Question, read_control_event, read_operator};
use trdp_wire::{Port, Wire, group_place};

/// A node, with the latest lines of its slots and the lists that are used again from event to
/// event.
#[derive(Drop)]
pub(crate) struct Service {
    /// The node.
    pub(crate) node: Node,
    /// Where telegrams go to at the node.
    pub(crate) home: HomePlaces,
    /// The latest line of each of the slots that a node has at most; None before the first, and
    /// from the end of an application or of its lease up to the next.
    pub(crate) contacts: Vec<Option<Contact>>,
    /// The reading of the clock of the latest turn, in microseconds; 0 before the first.
    pub(crate) reading: u64,
    /// How many microseconds the application of a slot may be silent; None is no bound.
    pub(crate) lease: Option<u64>,
    /// The records of one event.
    records: Outbox,
    /// The answer to the reset of a slot. It has room for one from the start, so that no such call
    /// is ever lost.
    pub(crate) resets: Outbox,
    /// The line of one record.
    text: Vec<u8>,
    /// The answer to a question of the operator, with room for any, so that none allocates.
    pub(crate) answer: Vec<u8>,
}

impl Service {
    /// The service of a configuration before its first event, with a lease of that many
    /// microseconds.
    ///
    /// # Errors
    /// The configuration comes back if an allocation fails.
    pub(crate) fn new(
        alloc: Global,
        config: NodeConfig,
        lease: Option<u64>,
    ) -> Result<Service, NodeConfig>
        ensures opened { IfOk result (λ service.
            service_state service ≡ opened_service config lease) }
        ensures sound { IfOk result (λ service. IsSoundService service) }
        ensures returned { IfErr result (λ back. back ≡ config) }
    {
        let Ok(lists) = Lists::new(alloc) else {
            return Err(config);
        };
        let home = home_of(&config);
        match Node::new(alloc, config) {
            Err(config) => Err(config),
            Ok(node) => Ok(Service {
                node,
                home,
                contacts: lists.contacts,
                reading: 0,
                lease,
                records: Outbox::new(alloc),
                resets: lists.resets,
                text: lists.text,
                answer: lists.answer,
            }),
        }
    }

    /// How many microseconds from a reading of the clock nothing is due, up to `until`; 0 if
    /// something is due already.
    pub(crate) fn idle_time(&self, reading: u64, until: u64) -> u64
        ensures { IsIdleTime self.now.node.slots reading until result }
    {
        let next = self.node.next_due().map_or(until, |due| due.min(until));
        next.saturating_sub(reading)
    }

    /// Takes once at a port, unless it is the control port of a slot that isn't open, and handles
    /// what came.
    pub(crate) fn visit<W: Wire>(
        &mut self,
        buffer: &mut Vec<u8>,
        port: Port,
        room: &mut [u8],
        link: &mut Link<W>,
    )
        requires sound { IsSoundService self.old }
        requires room { length room.old ≡ take_room }
        ensures sound { IsSoundService self.new }
        ensures config { self.new.node.config ≡ self.old.node.config }
        ensures takes { TakesAtPorts W.takings W.gives self.old self.new link.old link.new
            (port ∷ []) }
    {
        // A control port has to be that of an open slot.
        let is_there = match port {
            Port::Control(slot) => usize::from(slot) < self.node.slots(),
            _ => true,
        };
        if !is_there {
            return;
        }
        // If a take that finds nothing would reset the slot, the wire has to look: the daemon
        // itself may have been stopped since the system last reported news.
        let anew = self.is_silent_at(port);
        let (found, is_end) = link.take(port, anew, room);
        match found {
            Ok(Some(_)) if is_end => self.take_end(port, link),
            Ok(Some((from, len))) => {
                let (bytes, _) = room.split_at(len);
                self.take_datagram(buffer, port, from, bytes, link);
            }
            Ok(None) if anew => self.take_end(port, link),
            Ok(None) => {}
            Err(_) => {}
        }
    }

    /// Takes a datagram that came to a port.
    fn take_datagram<W: Wire>(
        &mut self,
        buffer: &mut Vec<u8>,
        port: Port,
        from: Place,
        bytes: &[u8],
        link: &mut Link<W>,
    )
        requires sound { IsSoundService self.old }
        ensures sound { IsSoundService self.new }
        ensures config { self.new.node.config ≡ self.old.node.config }
        ensures comes { ComesWith W.takings W.gives self.old self.new link.old link.new
            (datagram_effect (service_state self.old) link.old.totals port from bytes.now) }
    {
        match port {
            Port::Pd => self.take_telegram(Protocol::Pd, from, self.home.pd, bytes, link),
            Port::Md => self.take_telegram(Protocol::Md, from, self.home.md, bytes, link),
            Port::PdGroup(group) => {
                let to = group_place(group, self.home.pd.port);
                self.take_telegram(Protocol::Pd, from, to, bytes, link);
            }
            Port::MdGroup(group) => {
                let to = group_place(group, self.home.md.port);
                self.take_telegram(Protocol::Md, from, to, bytes, link);
            }
            Port::Operator => self.take_operator(from, bytes, link),
            Port::Control(slot) => self.take_control(buffer, slot, from, bytes, link),
        }
    }

    /// Takes a datagram that was sent to the node at that socket address.
    fn take_telegram<W: Wire>(
        &mut self,
        kind: Protocol,
        from: Place,
        to: Place,
        bytes: &[u8],
        link: &mut Link<W>,
    )
        requires sound { IsSoundService self.old }
        ensures sound { IsSoundService self.new }
        ensures config { self.new.node.config ≡ self.old.node.config }
        ensures comes { ComesWith W.takings W.gives self.old self.new link.old link.new
            (event_effect (service_state self.old) (DatagramIs kind from to bytes.now)) }
    {
        let event = Event::Datagram {
            kind,
            src: from,
            dst: to,
            bytes,
        };
        let _ = self.take_event(&event, link);
    }

    /// Takes a datagram that came to the operator's port. An event's answer goes back after what
    /// its records send; one for which an allocation fails is lost, and has no answer. A question
    /// is always answered.
    fn take_operator<W: Wire>(&mut self, from: Place, bytes: &[u8], link: &mut Link<W>)
        requires sound { IsSoundService self.old }
        ensures sound { IsSoundService self.new }
        ensures config { self.new.node.config ≡ self.old.node.config }
        ensures comes { ComesWith W.takings W.gives self.old self.new link.old link.new
            (operator_effect (service_state self.old) from link.old.totals
            (operator_line_of bytes.now)) }
    {
        match read_operator(bytes) {
            Ok(Some(OperatorLine::Event(event))) => {
                if let Ok(fault) = self.take_event(&event, link) {
                    link.give(Port::Operator, from, operator_text(fault));
                }
            }
            Ok(Some(OperatorLine::Question(question))) => {
                self.answer_question(question, from, link);
            }
            Ok(None) => {}
            Err(fault) => refuse(Port::Operator, from, fault, link),
        }
    }

    /// Answers a question of the operator. It allocates nothing, and changes nothing.
    fn answer_question<W: Wire>(&mut self, question: Question, from: Place, link: &mut Link<W>)
        requires sound { IsSoundService self.old }
        ensures sound { IsSoundService self.new }
        ensures node { self.new.node ≡ self.old.node }
        ensures short { length (text_of_question (service_state self.old) link.old.totals question)
            ≤ frame_room }
        ensures comes { Comes W.takings W.gives self.old self.new link.old link.new []
            (question_effect (service_state self.old) from link.old.totals question) }
    {
        put_answer(
            &mut self.answer,
            question,
            link.totals,
            &self.node,
            &self.contacts,
            self.reading,
        );
        link.give(Port::Operator, from, &self.answer);
    }

    /// Takes a datagram that came to the control port of a slot.
    fn take_control<W: Wire>(
        &mut self,
        buffer: &mut Vec<u8>,
        slot: u16,
        from: Place,
        bytes: &[u8],
        link: &mut Link<W>,
    )
        requires sound { IsSoundService self.old }
        ensures sound { IsSoundService self.new }
        ensures config { self.new.node.config ≡ self.old.node.config }
        ensures comes { ComesWith W.takings W.gives self.old self.new link.old link.new
            (control_effect (service_state self.old) slot from (control_line_of slot bytes.now)) }
    {
        match read_control_event(buffer, slot, bytes) {
            Ok(Some(event)) => {
                self.hear(slot, from);
                let _ = self.take_event(&event, link);
            }
            Ok(None) => self.hear(slot, from),
            Err(fault) => {
                self.hear_again(slot);
                refuse(Port::Control(slot), from, fault, link);
            }
        }
    }

    /// Lets the node take an event, and offers what its records send. Returns the event's fault if
    /// the node rejected it, and else None.
    ///
    /// # Errors
    /// `AllocError` if an allocation fails, which it can only if the event may need memory: the
    /// event is counted, and lost.
    pub(crate) fn take_event<W: Wire>(
        &mut self,
        event: &Event<'_>,
        link: &mut Link<W>,
    ) -> Result<Option<NodeFault>, AllocError>
        requires sound { IsSoundService self.old }
        ensures sound { IsSoundService self.new }
        ensures config { self.new.node.config ≡ self.old.node.config }
        ensures comes { ComesWith W.takings W.gives self.old self.new link.old link.new
            (event_effect (service_state self.old) (event_model event.now)) }
        ensures fault { IfOk result (λ fault. fault ≡ refused_as
            (length self.old.node.slots) self.old.node.globals (event_model event.now)) }
        ensures told { OnOk result (ComesTold W.takings W.gives self.old self.new link.old link.new
            (event_model event.now)) }
        ensures node { OnOk result (uncounted self.new.node
            ≡ node_after (uncounted self.old.node) (event_model event.now)) }
        ensures lost { OnErr result (Comes W.takings W.gives self.old self.new link.old link.new []
            (telling_only (service_state self.old) missing)) }
        ensures kept { OnErr result (self.new.node ≡ self.old.node) }
        ensures memory { OnErr result
            (MayTakeMemory (uncounted self.old.node) (event_model event.now)) }
        ensures reset { OnErr result (is_reset (event_model event.now) ≡ false) }
    {
        if let Event::Call {
            slot,
            call: Call::Reset,
        } = event
        {
            return Ok(self.take_reset(*slot, link));
        }
        self.records.clear();
        match self.node.step(event, &mut self.records) {
            Ok(()) => {
                tell_records(&self.records, &self.contacts, &mut self.text, link);
                Ok(None)
            }
            Err(NodeFault::OutOfMemory) => {
                link.miss();
                Err(AllocError)
            }
            Err(fault) => Ok(Some(fault)),
        }
    }

    /// Resets a slot, and offers its answer, for which there always is room. Returns None, or the
    /// event's fault if the node has no such slot and rejects it.
    fn take_reset<W: Wire>(&mut self, slot: u16, link: &mut Link<W>) -> Option<NodeFault>
        requires sound { IsSoundService self.old }
        ensures sound { IsSoundService self.new }
        ensures config { self.new.node.config ≡ self.old.node.config }
        ensures fault { result
            ≡ refused_as (length self.old.node.slots) self.old.node.globals
            (CallIs slot ResetCall) }
        ensures told { ComesTold W.takings W.gives self.old self.new link.old link.new
            (CallIs slot ResetCall) }
        ensures node { uncounted self.new.node
            ≡ node_after (uncounted self.old.node) (CallIs slot ResetCall) }
    {
        if usize::from(slot) >= self.node.slots() {
            return Some(NodeFault::NoSlot);
        }
        self.resets.clear();
        let event = Event::Call {
            slot,
            call: Call::Reset,
        };
        match self.node.step(&event, &mut self.resets) {
            Ok(()) => tell_records(&self.resets, &self.contacts, &mut self.text, link),
            Err(_) => unreachable!(),
        }
        None
    }

    /// Begins a turn at a reading of the clock.
    pub(crate) fn begin(&mut self, reading: u64)
        requires sound { IsSoundService self.old }
        ensures sound { IsSoundService self.new }
        ensures node { self.new.node ≡ self.old.node }
        ensures begun { service_state self.new ≡ begun (service_state self.old) reading }
    {
        self.reading = reading;
    }
}
