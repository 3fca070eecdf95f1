//! What a service notes of a slot's application: when its line came, and from where.

ghost use Rattle.std.specs.Prelude.{◌≡◌};
ghost use Rattle.trdp_daemon.specs.Effects.{with_contact};
ghost use Rattle.trdp_daemon.specs.Services.{IsSoundService, service_state};
ghost use Rattle.trdp_daemon.specs.Visits.{heard_from, lives_still};

use crate::contact::{Contact, contact_of, read_again, set_contact};
use crate::service::Service;
use trdp_base::Place;

impl Service {
    /// Notes a line of a slot, which came from `from` in this turn, if there is such a slot.
    pub(crate) fn hear(&mut self, slot: u16, from: Place)
        requires sound { IsSoundService self.old }
        ensures sound { IsSoundService self.new }
        ensures node { self.new.node ≡ self.old.node }
        ensures heard { service_state self.new ≡ heard_from (service_state self.old) slot from }
    {
        let contact = Contact {
            place: from,
            reading: self.reading,
        };
        self.note(slot, Some(contact));
    }

    /// Notes that the application of a slot lives, if it had a line before, by a line with a fault
    /// in this turn: its control place stays as it was.
    pub(crate) fn hear_again(&mut self, slot: u16)
        requires sound { IsSoundService self.old }
        ensures sound { IsSoundService self.new }
        ensures node { self.new.node ≡ self.old.node }
        ensures heard { service_state self.new ≡ lives_still (service_state self.old) slot }
    {
        let contact = contact_of(&self.contacts, slot);
        self.note(slot, read_again(contact, self.reading));
    }

    /// Notes the latest line of a slot, or that it had none, if there is such a slot.
    pub(crate) fn note(&mut self, slot: u16, contact: Option<Contact>)
        requires sound { IsSoundService self.old }
        ensures sound { IsSoundService self.new }
        ensures node { self.new.node ≡ self.old.node }
        ensures noted { service_state self.new
            ≡ with_contact (service_state self.old) slot contact }
    {
        set_contact(&mut self.contacts, slot, contact);
    }
}
