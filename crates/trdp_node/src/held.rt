//! A node with the lists that it uses from event to event.

ghost use Rattle.std.specs.Prelude.{◌≡◌, [], IfOk, IfErr, Ok, slice_get};
ghost use Rattle.trdp_model.specs.Events.{CallIs, GetCall, PutCall, event_model};
ghost use Rattle.trdp_outbox.specs.SlotOrder.{by_slot};
ghost use Rattle.trdp_node.specs.EventOf.{event_of};
ghost use Rattle.trdp_node.specs.Outcomes.{Lends, PlaysEvent, Prints, Steps, StepsTo};
ghost use Rattle.trdp_node.specs.Outcomes.{TakesInLine, TellsOf, status_of as status_of_answer};
ghost use Rattle.trdp_node.specs.Openings.{Opens, Refuses};
ghost use Rattle.trdp_node.specs.RecordOf.{record_numbers};

use crate::event::EventNumbers;
use crate::event_numbers::{GET, PUT};
use crate::latest::Records;
use crate::numbers::{OK, OUT_OF_MEMORY, TEXT_LOST, fault_number, line_fault_number};
use crate::record::RecordNumbers;
use crate::results::{Done, State, Text};
use std::alloc::Global;
use trdp_engine::{Call, ConfigFault, Event, Node, NodeConfig, NodeFault};
use trdp_text::{print_fault, print_records, read_event};

/// A node with the lists that it uses from event to event.
#[derive(Drop)]
pub struct HeldNode {
    /// The node.
    node: Node,
    /// The records of the latest event.
    records: Records,
    /// The bytes that a line carries.
    bytes: Vec<u8>,
    /// The text of the latest line.
    text: Vec<u8>,
}

impl HeldNode {
    /// A node that was just opened with the configuration of a file in TOML.
    ///
    /// # Errors
    /// The fault of the configuration; `OutOfMemory` also where there is no memory for the node.
    pub fn open(alloc: Global, config: &[u8]) -> Result<Box<HeldNode, Global>, ConfigFault>
        ensures opened { IfOk result (λ held. Opens config.now held.value) }
        ensures refused { IfErr result (λ fault. Refuses config.now fault) }
    {
        let config = NodeConfig::from_toml(alloc, config)?;
        let node = match Node::new(alloc, config) {
            Ok(node) => node,
            Err(_) => return Err(ConfigFault::OutOfMemory),
        };
        let held = HeldNode {
            node,
            records: Records::new(alloc),
            bytes: Vec::new(alloc),
            text: Vec::new(alloc),
        };
        match Box::new(alloc, held) {
            Ok(held) => Ok(held),
            Err(_) => Err(ConfigFault::OutOfMemory),
        }
    }

    /// Processes the event of these numbers.
    pub fn step(&mut self, event: &EventNumbers, bytes: &[u8], done: &mut Done)
        ensures { Steps self.old self.new event.now bytes.now done.new }
    {
        self.records.clear();
        done.status = self.answer(event, bytes);
        done.records = self.records.len();
    }

    /// Processes an event, and returns the status. A put and a get, which a main loop makes again
    /// and again, have functions of their own: each makes its event in place, which is copied where
    /// all kinds of events meet.
    #[tactic(auto, unfolding(crate::specs::EventOf::event_of, crate::specs::EventOf::call_meant))]
    fn answer(&mut self, event: &EventNumbers, bytes: &[u8]) -> u32
        requires { self.old.records.records ≡ [] }
        ensures { StepsTo (event_of event.now bytes.now) self.old.node self.new.node
            self.new.records.records result }
    {
        match event.what {
            PUT => self.put(event, bytes),
            GET => self.get(event),
            _ => self.any(event, bytes),
        }
    }

    /// Processes a put, and returns the status.
    fn put(&mut self, event: &EventNumbers, bytes: &[u8]) -> u32
        requires { self.old.records.records ≡ [] }
        ensures { StepsTo (Ok (CallIs event.now.slot (PutCall event.now.handle bytes.now)))
            self.old.node self.new.node self.new.records.records result }
    {
        let handle = event.handle;
        self.process(&Event::Call {
            slot: event.slot,
            call: Call::Put { handle, bytes },
        })
    }

    /// Processes a get, and returns the status.
    fn get(&mut self, event: &EventNumbers) -> u32
        requires { self.old.records.records ≡ [] }
        ensures { StepsTo (Ok (CallIs event.now.slot (GetCall event.now.handle))) self.old.node
            self.new.node self.new.records.records result }
    {
        let handle = event.handle;
        self.process(&Event::Call {
            slot: event.slot,
            call: Call::Get { handle },
        })
    }

    /// Processes an event of any kind, and returns the status.
    fn any(&mut self, event: &EventNumbers, bytes: &[u8]) -> u32
        requires { self.old.records.records ≡ [] }
        ensures { StepsTo (event_of event.now bytes.now) self.old.node self.new.node
            self.new.records.records result }
    {
        match event.read(bytes) {
            Ok(event) => self.process(&event),
            Err(status) => status,
        }
    }

    /// Lets the node process an event, and returns the status.
    fn process(&mut self, event: &Event<'_>) -> u32
        requires { self.old.records.records ≡ [] }
        ensures { StepsTo (Ok (event_model event.now)) self.old.node self.new.node
            self.new.records.records result }
    {
        status_of(self.records.process(&mut self.node, event))
    }

    /// Writes the record of that index, slot by slot. What it keeps of the way there is no part of
    /// the node.
    pub fn record(&mut self, index: usize, numbers: &mut RecordNumbers)
        ensures stays { self.new ≡ self.old }
        ensures says { numbers.new ≡ record_numbers numbers.new.bytes
            (slice_get (by_slot self.old.records.records) index) }
    {
        let place = self.records.place_of(index);
        match self.records.outbox().get(place) {
            Some(record) => numbers.put(&record),
            None => numbers.clear(),
        }
    }

    /// Processes the event of a line.
    pub fn line(&mut self, line: &[u8], text: &mut Text)
        ensures { TakesInLine self.old self.new line.now text.new }
    {
        self.text.clear();
        self.records.clear();
        text.status = match read_event(&mut self.bytes, line) {
            Ok(None) => OK,
            Ok(Some(event)) => play(&mut self.node, &event, &mut self.records, &mut self.text),
            Err(fault) => line_fault_number(fault),
        };
        self.lend(text);
    }

    /// Prints the records of the latest event.
    pub fn print(&mut self, text: &mut Text)
        ensures { Prints self.old self.new text.new }
    {
        self.text.clear();
        text.status = match print_records(&mut self.text, self.records.outbox()) {
            Ok(()) => OK,
            Err(_) => TEXT_LOST,
        };
        self.lend(text);
    }

    /// Tells where the text lies, and how many records there are.
    fn lend(&self, text: &mut Text)
        ensures lends { Lends self.now text.new }
        ensures status { text.new.status ≡ text.old.status }
    {
        text.text = self.text.as_ptr();
        text.len = self.text.len();
        text.records = self.records.len();
    }

    /// Tells of the node.
    pub fn state(&self, state: &mut State)
        ensures { TellsOf self.now.node state.new }
    {
        state.now = self.node.now();
        state.next_due = match self.node.next_due() {
            Some(moment) => moment,
            None => u64::MAX,
        };
        state.slots = self.node.slots();
    }
}

/// Lets the node process an event, and prints its text. Returns the status.
fn play(node: &mut Node, event: &Event<'_>, records: &mut Records, text: &mut Vec<u8>) -> u32
    requires records { records.old.records ≡ [] }
    requires text { text.old.items ≡ [] }
    ensures { PlaysEvent node.old node.new records.new.records (event_model event.now) text.new.items
        result }
{
    match records.process(node, event) {
        Ok(()) => match print_records(text, records.outbox()) {
            Ok(()) => OK,
            Err(_) => TEXT_LOST,
        },
        Err(NodeFault::OutOfMemory) => OUT_OF_MEMORY,
        Err(fault) => match print_fault(text, fault) {
            Ok(()) => fault_number(fault),
            Err(_) => OUT_OF_MEMORY,
        },
    }
}

/// The status of an event with this answer.
fn status_of(answer: Result<(), NodeFault>) -> u32
    ensures { result ≡ status_of_answer answer }
{
    match answer {
        Ok(()) => OK,
        Err(fault) => fault_number(fault),
    }
}
