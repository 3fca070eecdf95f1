//! A listener: waits for notifications and requests.

ghost use Rattle.std.specs.Prelude.{◌≡◌};
ghost use Rattle.trdp_md.specs.Listeners.{is_for_listener, is_unasked, listening};

use trdp_base::Place;
use trdp_filter::{Globals, MdFilter, Telegram};
use trdp_head::{MdHead, MdKind};
use trdp_pd::{Fired, Object, Taken};

/// A listener.
#[derive(Clone, Copy, Debug, PartialEq, Eq)]
pub struct Listener {
    /// Which messages it hears; never changed.
    filter: MdFilter,
}

/// Whether a message of this type comes unasked: no others are for a listener.
#[tactic(auto, unfolding(crate::specs::Listeners::is_unasked))]
fn is_unasked(kind: MdKind) -> bool
    ensures { result ≡ is_unasked kind }
{
    match kind {
        MdKind::Notify | MdKind::Request => true,
        MdKind::Reply | MdKind::Query | MdKind::Confirm | MdKind::Error => false,
    }
}

impl Listener {
    /// A listener to the messages that the filter passes.
    pub fn new(filter: &MdFilter) -> Listener
        ensures { result ≡ listening filter.now }
    {
        Listener { filter: *filter }
    }

    /// The comId of the messages that it hears; None for any.
    pub fn com_id(&self) -> Option<u32>
        ensures { result ≡ self.now.filter.com_id }
    {
        self.filter.com_id
    }

    /// Whether the message is a notification or a request that the filter passes.
    #[tactic(auto, unfolding(crate::specs::Listeners::is_for_listener))]
    fn is_for(&self, src: Place, dst: Place, head: &MdHead, globals: &Globals) -> bool
        ensures { result ≡ is_for_listener self.now src dst head.now globals.entry.now }
    {
        is_unasked(head.kind) && self.filter.passes(src, dst, head, globals.topo)
    }
}

impl Object for Listener {
    ghost use Rattle.std.specs.Prelude.{true};
    ghost use Rattle.trdp_md.specs.Listeners.{listener_due, listener_addressed};
    ghost use Rattle.trdp_md.specs.Listeners.{listener_taking, listener_firing};
    ghost use Rattle.trdp_md.specs.ListenerLaws.{listener_taking-unaddressed};
    ghost use Rattle.trdp_md.specs.ListenerLaws.{listener_due-firing, listener_due-taking};

    ghost due_of = { listener_due };

    ghost is_sound = { λ _. true };

    ghost is_addressed = { listener_addressed };

    ghost taking = { listener_taking };

    ghost firing = { listener_firing };

    ghost unaddressed = { listener_taking-unaddressed };

    ghost later = { λ l globals _. listener_due-firing l globals };

    ghost undue = { λ l telegram globals fits _. listener_due-taking l telegram globals fits };

    ghost kept_sound_by_taking = { λ _ _ _ _ sound. sound };

    ghost kept_sound_by_firing = { λ _ _ sound. sound };

    /// A listener is never due.
    fn due(&self) -> Option<u64> {
        None
    }

    /// Notifications and requests that its filter passes are for it.
    fn addressed(&self, telegram: &Telegram<'_>, globals: &Globals) -> bool {
        match telegram {
            Telegram::Pd { .. } => false,
            Telegram::Md { src, dst, view } => self.is_for(*src, *dst, &view.head, globals),
        }
    }

    /// Hears what is for it, and stays as it is.
    fn take(&mut self, telegram: &Telegram<'_>, globals: &Globals, _fits: bool) -> Taken {
        if self.addressed(telegram, globals) {
            Taken::Heard
        } else {
            Taken::Nothing
        }
    }

    /// A listener does nothing by itself.
    fn fire(&mut self, _globals: &Globals) -> Fired
        ensures state { self.new ≡ self.old }
        ensures outcome { result ≡ Fired.Nothing }
    {
        Fired::Nothing
    }
}
