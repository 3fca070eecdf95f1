//! The records of the latest event, and how far they were read.

ghost use Rattle.std.specs.Prelude.{◌≡◌, [], length, slice_get};
ghost use Rattle.trdp_model.specs.Events.{event_model};
ghost use Rattle.trdp_outbox.specs.SlotOrder.{by_slot};
ghost use Rattle.trdp_node.specs.Outcomes.{AnswersEvent};

use crate::cursor::Cursor;
use std::alloc::Global;
use std::marker::Model;
use trdp_engine::{Event, Node, NodeFault, Outbox};

/// The records of the latest event, and how far they were read. Only the records count: the rest
/// spares a walk from the first one for each index.
#[derive(Drop)]
pub struct Records {
    /// The records.
    outbox: Outbox,
    /// How far they were read.
    cursor: Cursor,
}

impl Model for Records {
    ghost use Rattle.trdp_outbox.specs.Outboxes.{OutboxState};
    ghost use Rattle.trdp_node.specs.Reading.{IsReadTo};

    ghost Value = { OutboxState };

    ghost view = { λ it. it.outbox };

    ghost invariant = { λ it. IsReadTo it.outbox.records it.cursor };
}

impl Records {
    /// No records. They take no memory yet.
    pub fn new(alloc: Global) -> Records
        ensures { result.records ≡ [] }
    {
        Records {
            outbox: Outbox::new(alloc),
            cursor: Cursor::start(),
        }
    }

    /// The records, in the order in which they came.
    pub fn outbox(&self) -> &Outbox
        ensures { result.now ≡ self.now }
    {
        &self.outbox
    }

    /// How many they are.
    pub fn len(&self) -> usize
        ensures { result ≡ length self.now.records }
    {
        self.outbox.len()
    }

    /// Drops all of them.
    pub fn clear(&mut self)
        ensures { self.new.records ≡ [] }
    {
        self.cursor = Cursor::start();
        self.outbox.clear();
    }

    /// Lets a node process an event, whose records these become.
    ///
    /// # Errors
    /// The node's fault; node and records are as before.
    pub fn process(&mut self, node: &mut Node, event: &Event<'_>) -> Result<(), NodeFault>
        requires { self.old.records ≡ [] }
        ensures { AnswersEvent node.old node.new self.new.records (event_model event.now) result }
    {
        self.cursor = Cursor::start();
        node.step(event, &mut self.outbox)
    }

    /// The index in the outbox of the record that has this index slot by slot. It is no record's
    /// past the last.
    #[tactic(auto, using(crate::proofs::ReadLemmas::past_both))]
    pub fn place_of(&mut self, index: usize) -> usize
        ensures stays { self.new ≡ self.old }
        ensures place { slice_get self.old.records result
            ≡ slice_get (by_slot self.old.records) index }
    {
        match self.cursor.moved_to(&self.outbox, index) {
            Some((cursor, at)) => {
                self.cursor = cursor;
                at
            }
            None => self.outbox.len(),
        }
    }
}
