//! What the records of an event send.

ghost use Rattle.std.specs.Prelude.{◌≡◌};
ghost use Rattle.trdp_model.specs.Records.{record_model};
ghost use Rattle.trdp_outbox.specs.SlotOrder.{by_slot};
ghost use Rattle.trdp_text.specs.RecordText.{text_of_record};
ghost use Rattle.trdp_daemon.specs.Effects.{contact_place, port_of};
ghost use Rattle.trdp_daemon.specs.Tellings.{Tells, TellsRecord, TellsText};

use crate::contact::{Contact, contact_of};
use crate::link::Link;
use trdp_base::Place;
use trdp_engine::{Outbox, Protocol, Record, What};
use trdp_text::print_record;
use trdp_wire::{Port, Wire};

/// Offers what the records send, slot by slot, slots rising, each slot's in their order.
pub(crate) fn tell_records<W: Wire>(
    records: &Outbox,
    contacts: &[Option<Contact>],
    text: &mut Vec<u8>,
    link: &mut Link<W>,
)
    ensures { Tells W.takings W.gives contacts.now link.old link.new
        (by_slot records.now.records) }
{
    if records.is_empty() {
        return; // most turns of a node at rest: an order of nothing isn't looked for
    }
    for record in records.by_slot() {
        tell_record(&record, contacts, text, link);
    }
}

/// Offers what a record sends: its telegram, or its line at the slot's control port.
fn tell_record<W: Wire>(
    record: &Record<'_>,
    contacts: &[Option<Contact>],
    text: &mut Vec<u8>,
    link: &mut Link<W>,
)
    ensures { TellsRecord W.takings W.gives contacts.now link.old link.new
        (record_model «record».now) }
{
    match record.what {
        What::Send { kind, to, telegram } => link.give(port_of(kind), to, telegram),
        What::Answer(_) => tell_text(record, place_of(contacts, record.slot), text, link),
        What::Indication(_) => tell_text(record, place_of(contacts, record.slot), text, link),
    }
}

/// Offers a record's line at the slot's control port. Without a control place it is dropped; one
/// for which an allocation fails is counted, and lost.
fn tell_text<W: Wire>(
    record: &Record<'_>,
    to: Option<Place>,
    text: &mut Vec<u8>,
    link: &mut Link<W>,
)
    ensures { TellsText W.takings W.gives link.old link.new «record».now.slot to
        (text_of_record (record_model «record».now)) }
{
    let Some(to) = to else {
        return;
    };
    text.clear();
    match print_record(text, record) {
        Ok(()) => link.give(Port::Control(record.slot), to, text),
        Err(_) => link.miss(),
    }
}

/// The control place of a slot; None if it has none.
fn place_of(contacts: &[Option<Contact>], slot: u16) -> Option<Place>
    ensures { result ≡ contact_place contacts.now slot }
{
    Some(contact_of(contacts, slot)?.place)
}

/// The port that telegrams of a protocol leave from.
fn port_of(protocol: Protocol) -> Port
    ensures { result ≡ port_of protocol }
{
    match protocol {
        Protocol::Pd => Port::Pd,
        Protocol::Md => Port::Md,
    }
}
