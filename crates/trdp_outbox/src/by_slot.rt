//! The order in which the records of an event go out: slot by slot.

ghost use Rattle.std.specs.Prelude.{◌≡◌, ◌+◌, ◌^◌, ◌<◌, ◌++◌, ◌∷◌, [], List, true, drop};
ghost use Rattle.std.specs.Prelude.{IfSome, IfNone};
ghost use Rattle.trdp_model.specs.Records.{RecordModel};
ghost use Rattle.trdp_outbox.specs.SlotOrder.{by_slot, slots_own};
ghost use Rattle.trdp_outbox.specs.SlotWalk.{IsNext, NextSlotIs, left_of};

use crate::outbox::Outbox;
use std::marker::Model;
use trdp_model::Record;

/// The records of an outbox that are still to come, slot by slot, slots rising, each slot's in
/// their order.
#[derive(Drop)]
pub struct BySlot<'a> {
    /// The outbox whose records they are.
    outbox: &'a Outbox,
    /// Whether they are in that order already, so that the list is walked once, in its own order.
    rising: bool,
    /// The slot whose records are walked, if they aren't; else it says nothing.
    slot: u16,
    /// The index of the first record that may come next: of any slot if `rising`, else of `slot`.
    at: usize,
}

impl<'a> Model for BySlot<'a> {
    ghost use Rattle.std.specs.Prelude.{List};
    ghost use Rattle.trdp_model.specs.Records.{RecordModel};
    ghost use Rattle.trdp_outbox.specs.SlotWalk.{left_of};

    ghost Value = { List RecordModel };

    ghost view = { λ w. left_of w.rising w.slot w.at w.outbox.now.records };
}

impl<'a> BySlot<'a> {
    /// All records of the outbox.
    pub(crate) fn new(outbox: &'a Outbox) -> BySlot<'a>
        ensures { result ≡ by_slot outbox.now.records }
    {
        BySlot {
            outbox,
            rising: is_rising(outbox),
            slot: 0,
            at: 0,
        }
    }
}

impl<'a> Iterator for BySlot<'a> {
    ghost use Rattle.std.specs.Iterator.{YieldsFirstBy, item_count};
    ghost use Rattle.trdp_model.specs.Records.{record_model};

    type Item = Record<'a>;

    ghost next_gives = { YieldsFirstBy record_model (λ records. records) };

    ghost remaining = { item_count (λ records. records) };

    fn next(&mut self) -> Option<Record<'a>> {
        let outbox = self.outbox;
        let (slot, at) = place_of_next(outbox, self.rising, self.slot, self.at)?;
        self.slot = slot;
        self.at = at + 1;
        outbox.get(at)
    }
}

/// The slot and the index of the record that comes next in a walk that borrows nothing, for a
/// caller that goes on later: from that index on, of all records if `rising` (see [`is_rising`]),
/// else of that slot and then of those above. None if no record is left. It goes on from the slot
/// and the index that come back, plus 1; a walk begins at slot 0 and index 0.
pub fn place_of_next(outbox: &Outbox, rising: bool, slot: u16, at: usize) -> Option<(u16, usize)>
    ensures some { IfSome result (λ place. IsNext place.1
        (left_of rising slot at outbox.now.records)
        (left_of rising place.0 (place.1 + 1) outbox.now.records) outbox.now.records) }
    ensures none { IfNone result (left_of rising slot at outbox.now.records ≡ []) }
    ensures room { IfSome result (λ place. place.1 + 1 < 2 ^ 64) }
{
    if rising {
        return if at < outbox.len() {
            Some((slot, at))
        } else {
            None
        };
    }
    if let Some(own) = next_of_slot(outbox, slot, at) {
        return Some((slot, own));
    }
    let above = slot_above(outbox, slot)?;
    let first = next_of_slot(outbox, above, 0)?;
    Some((above, first))
}

/// The index of a slot's next record from an index on.
fn next_of_slot(outbox: &Outbox, slot: u16, at: usize) -> Option<usize>
    ensures some { IfSome result (λ next. IsNext next
        (slots_own slot (drop at outbox.now.records))
        (slots_own slot (drop (next + 1) outbox.now.records)) outbox.now.records) }
    ensures none { IfNone result (slots_own slot (drop at outbox.now.records) ≡ []) }
    ensures room { IfSome result (λ next. next + 1 < 2 ^ 64) }
{
    for i in at..outbox.len() {
        if outbox.slot_at(i) == slot {
            return Some(i);
        }
    }
    None
}

/// The least slot above `slot` that has a record; None where none has.
fn slot_above(outbox: &Outbox, slot: u16) -> Option<u16>
    ensures { NextSlotIs slot outbox.now.records result }
{
    let mut least = None;
    for i in 0..outbox.len() {
        least = nearer(slot, least, outbox.slot_at(i));
    }
    least
}

/// The least slot above `slot` that has a record, of some records and one more of slot `other`.
fn nearer(slot: u16, least: Option<u16>, other: u16) -> Option<u16>
    ensures { (records : List RecordModel) (r : RecordModel) → r.slot ≡ other
        → NextSlotIs slot records least → NextSlotIs slot (records ++ r ∷ []) result }
{
    if other <= slot {
        return least;
    }
    match least {
        Some(near) if near <= other => least,
        _ => Some(other),
    }
}

/// Whether no record is of a lower slot than the one before it: such records go out in their
/// order, so that a walk ([`place_of_next`]) need not look for slots.
pub fn is_rising(outbox: &Outbox) -> bool
    ensures { result ≡ true → by_slot outbox.now.records ≡ outbox.now.records }
{
    let mut slot = 0;
    for i in 0..outbox.len() {
        let next = outbox.slot_at(i);
        if next < slot {
            return false;
        }
        slot = next;
    }
    true
}
