//! The end of a slot's application: the wire reports it, or a lease has run out, which is how long
//! the application may be silent.

ghost use Rattle.std.specs.Prelude.{◌≡◌};
ghost use Rattle.trdp_daemon.specs.Leases.{end_effect, ended_effect, has_run_out, is_silent};
ghost use Rattle.trdp_daemon.specs.Leases.{is_silent_at};
ghost use Rattle.trdp_daemon.specs.Services.{ComesWith, IsSoundService, service_state};

use crate::contact::{Contact, contact_of};
use crate::link::Link;
use crate::service::Service;
use trdp_engine::{Call, Event};
use trdp_wire::{Port, Wire};

impl Service {
    /// Whether the lease of the port's slot has run out by the reading of the turn; false at other
    /// ports. It also runs out if the daemon itself was stopped for that long.
    #[tactic(auto, unfolding(crate::specs::Leases::is_silent_at))]
    pub(crate) fn is_silent_at(&self, port: Port) -> bool
        ensures { result ≡ is_silent_at (service_state self.now) port }
    {
        match port {
            Port::Control(slot) => self.is_silent(slot),
            Port::Pd | Port::Md | Port::PdGroup(_) | Port::MdGroup(_) | Port::Operator => false,
        }
    }

    /// Whether the lease has run out for a slot by the reading of the turn.
    fn is_silent(&self, slot: u16) -> bool
        ensures { result ≡ is_silent (service_state self.now) slot }
    {
        has_run_out(self.lease, self.reading, contact_of(&self.contacts, slot))
    }

    /// Handles the end of an application, or a silence that is too long: at a control port that
    /// slot's has ended.
    pub(crate) fn take_end<W: Wire>(&mut self, port: Port, link: &mut Link<W>)
        requires sound { IsSoundService self.old }
        ensures sound { IsSoundService self.new }
        ensures config { self.new.node.config ≡ self.old.node.config }
        ensures comes { ComesWith W.takings W.gives self.old self.new link.old link.new
            (ended_effect (service_state self.old) port) }
    {
        if let Port::Control(slot) = port {
            self.end(slot, link);
        }
    }

    /// Resets a slot whose application has ended. Its latest line is forgotten before, so that its
    /// answer belongs to no one, and no lease runs out for it before its next line.
    fn end<W: Wire>(&mut self, slot: u16, link: &mut Link<W>)
        requires sound { IsSoundService self.old }
        ensures sound { IsSoundService self.new }
        ensures config { self.new.node.config ≡ self.old.node.config }
        ensures comes { ComesWith W.takings W.gives self.old self.new link.old link.new
            (end_effect (service_state self.old) slot) }
    {
        self.note(slot, None);
        let reset = Event::Call {
            slot,
            call: Call::Reset,
        };
        let _ = self.take_event(&reset, link);
    }
}

/// Whether a lease of that many microseconds has run out after the latest line of a slot, by this
/// reading of the clock.
#[tactic(auto, unfolding(crate::specs::Leases::has_run_out))]
fn has_run_out(lease: Option<u64>, reading: u64, contact: Option<Contact>) -> bool
    ensures { result ≡ has_run_out lease reading contact }
{
    match (lease, contact) {
        (Some(lease), Some(contact)) => lease < reading.saturating_sub(contact.reading),
        _ => false,
    }
}
