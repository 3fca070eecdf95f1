//! How far records were read, slot by slot.

ghost use Rattle.std.specs.Prelude.{◌≡◌, ◌≤◌, List, IfSome, IfNone, None, slice_get};
ghost use Rattle.trdp_model.specs.Records.{RecordModel};
ghost use Rattle.trdp_outbox.specs.SlotOrder.{by_slot};
ghost use Rattle.trdp_node.specs.Reading.{IsReadTo};

use trdp_engine::Outbox;
use trdp_outbox::{is_rising, place_of_next};

/// How far the records of an outbox were read, slot by slot: a walk that begins after the records
/// that were passed.
#[derive(Clone, Copy)]
pub struct Cursor {
    /// How many records come before the next one.
    pub passed: usize,
    /// Whether the records are in that order already, so that none has to be looked for.
    pub rising: bool,
    /// The slot whose records are walked, if they aren't; else it says nothing.
    pub slot: u16,
    /// The index in the outbox from which on the next record is.
    pub at: usize,
}

impl Cursor {
    /// Before the first record, of any outbox.
    pub fn start() -> Cursor
        ensures passed { result.passed ≡ 0 }
        ensures reads { (records : List RecordModel) → IsReadTo records result }
    {
        Cursor {
            passed: 0,
            rising: false,
            slot: 0,
            at: 0,
        }
    }

    /// Before the record of that index, slot by slot, and the index of this record in the outbox;
    /// None past the last. It goes on from here, or from the start to a record before this.
    pub fn moved_to(self, outbox: &Outbox, index: usize) -> Option<(Cursor, usize)>
        requires { IsReadTo outbox.now.records self }
        ensures reads { IfSome result (λ it. IsReadTo outbox.now.records it.0) }
        ensures there { IfSome result (λ it. slice_get outbox.now.records it.1
            ≡ slice_get (by_slot outbox.now.records) index) }
        ensures none { IfNone result (slice_get (by_slot outbox.now.records) index ≡ None) }
    {
        let mut cursor = self.no_further(outbox, index);
        for passed in cursor.passed..index {
            let (slot, at) = place_of_next(outbox, cursor.rising, cursor.slot, cursor.at)?;
            cursor = Cursor {
                passed: passed + 1,
                rising: cursor.rising,
                slot,
                at: at + 1,
            };
        }
        let (_, at) = place_of_next(outbox, cursor.rising, cursor.slot, cursor.at)?;
        Some((cursor, at))
    }

    /// This, or the start if the record of that index comes before, or if nothing was passed: then
    /// it is not known yet whether the records are in order.
    fn no_further(self, outbox: &Outbox, index: usize) -> Cursor
        requires { IsReadTo outbox.now.records self }
        ensures before { result.passed ≤ index }
        ensures reads { IsReadTo outbox.now.records result }
    {
        if self.passed == 0 || index < self.passed {
            Cursor::front_of(outbox)
        } else {
            self
        }
    }

    /// Before the first record of an outbox.
    fn front_of(outbox: &Outbox) -> Cursor
        ensures passed { result.passed ≡ 0 }
        ensures reads { IsReadTo outbox.now.records result }
    {
        Cursor {
            passed: 0,
            rising: is_rising(outbox),
            slot: 0,
            at: 0,
        }
    }
}
