//! When a slot's latest line came, and from where.

ghost use Rattle.std.specs.Prelude.{◌≡◌, option_map, slice_set};
ghost use Rattle.trdp_daemon.specs.Effects.{contact_of, read_again};

use trdp_base::Place;

/// The latest line of a slot.
#[derive(Clone, Copy)]
pub(crate) struct Contact {
    /// The source of the datagram that read as the line: the slot's control place.
    pub(crate) place: Place,
    /// The reading of the clock, in microseconds, of the turn that took it, or of a later turn
    /// with a line that had a fault.
    pub(crate) reading: u64,
}

/// The latest line of the slot of that number; None if it had none, or it was forgotten.
pub(crate) fn contact_of(contacts: &[Option<Contact>], slot: u16) -> Option<Contact>
    ensures { result ≡ contact_of contacts.now slot }
{
    *contacts.get(usize::from(slot))?
}

/// The latest line of a slot, if it had one, as if it had come in the turn of this reading.
pub(crate) fn read_again(contact: Option<Contact>, reading: u64) -> Option<Contact>
    ensures { result ≡ option_map (read_again reading) contact }
{
    contact.map(|contact| Contact { reading, ..contact })
}

/// Sets the latest line of the slot of that number, if there is such a slot.
pub(crate) fn set_contact(contacts: &mut Vec<Option<Contact>>, slot: u16, contact: Option<Contact>)
    ensures { contacts.new.items ≡ slice_set contacts.old.items slot contact }
{
    let index = usize::from(slot);
    if index < contacts.len() {
        contacts[index] = contact;
    }
}
