//! A requester: sends pull requests when its application asks for it.

ghost use Rattle.std.specs.Prelude.{◌≡◌};

use crate::object::{Fired, Object, Taken};
use crate::terms::RequesterTerms;
use std::marker::Model;
use trdp_base::{Ip, Place, Topo};
use trdp_filter::{Globals, Telegram};
use trdp_head::{PdHead, PdKind};

/// A requester.
#[derive(Drop)]
pub struct Requester {
    /// What it asks for, and where; never changed.
    terms: RequesterTerms,
    /// The sequence counter that its next pull request carries.
    counter: u32,
}

impl Model for Requester {
    ghost use Rattle.trdp_pd.specs.Requesters.{RequesterState};

    ghost Value = { RequesterState };

    ghost view = { λ r. record { terms = r.terms; counter = r.counter } };
}

impl Requester {
    ghost use Rattle.trdp_pd.specs.Requesters.{RequesterState, opened, pulling};

    /// A requester that has sent nothing.
    pub fn new(terms: &RequesterTerms) -> Requester
        ensures { result ≡ opened terms.now }
    {
        Requester {
            terms: *terms,
            counter: 0,
        }
    }

    /// The header of its next pull request, which is counted and has no payload.
    pub fn pull(&mut self) -> PdHead
        ensures state { self.new ≡ (pulling self.old).object }
        ensures head { result ≡ (pulling self.old).head }
    {
        let counter = self.counter;
        self.counter = counter.wrapping_add(1);
        PdHead {
            counter,
            kind: PdKind::PullRequest,
            com_id: self.terms.com_id,
            topo: self.terms.topo,
            reply_com_id: self.terms.reply_com_id,
            reply_ip: self.terms.reply_ip,
        }
    }

    /// The comId that its pull requests carry.
    pub fn com_id(&self) -> u32
        ensures { result ≡ self.now.terms.com_id }
    {
        self.terms.com_id
    }

    /// The topology counters that its pull requests carry.
    pub fn topo(&self) -> Topo
        ensures { result ≡ self.now.terms.topo }
    {
        self.terms.topo
    }

    /// Where its pull requests go.
    pub fn to(&self) -> Place
        ensures { result ≡ self.now.terms.to }
    {
        self.terms.to
    }
}

impl Object for Requester {
    ghost use Rattle.std.specs.Prelude.{true};
    ghost use Rattle.trdp_pd.specs.Requesters.{requester_due, requester_addressed};
    ghost use Rattle.trdp_pd.specs.Requesters.{requester_taking, requester_firing};
    ghost use Rattle.trdp_pd.specs.RequesterLaws.{requester_taking-unaddressed};
    ghost use Rattle.trdp_pd.specs.RequesterLaws.{requester_due-firing, requester_due-taking};

    ghost due_of = { requester_due };

    ghost is_sound = { λ _. true };

    ghost is_addressed = { requester_addressed };

    ghost taking = { requester_taking };

    ghost firing = { requester_firing };

    ghost unaddressed = { requester_taking-unaddressed };

    ghost later = { λ r globals _. requester_due-firing r globals };

    ghost undue = { λ r telegram globals fits _. requester_due-taking r telegram globals fits };

    ghost kept_sound_by_taking = { λ _ _ _ _ sound. sound };

    ghost kept_sound_by_firing = { λ _ _ sound. sound };

    /// A requester is never due.
    fn due(&self) -> Option<u64> {
        None
    }

    /// No telegram is for a requester.
    fn addressed(&self, _telegram: &Telegram<'_>, _globals: &Globals) -> bool {
        false
    }

    /// A requester accepts no telegram.
    fn take(&mut self, _telegram: &Telegram<'_>, _globals: &Globals, _fits: bool) -> Taken {
        Taken::Nothing
    }

    /// A requester does nothing by itself.
    fn fire(&mut self, _globals: &Globals) -> Fired
        ensures state { self.new ≡ self.old }
        ensures outcome { result ≡ Fired.Nothing }
    {
        Fired::Nothing
    }
}
