//! A publisher: cyclic process data of one value.

ghost use Rattle.std.specs.Prelude.{◌≡◌, ℕ, ◌≤◌, length, Some, IfOk, IfSome, option_copied};
ghost use Rattle.trdp_base.specs.Moments.{last_moment};
ghost use Rattle.trdp_pd.specs.Publishers.{asks_for_value, asked_com_id};

use crate::object::{Fired, Object, Taken};
use crate::terms::PublisherTerms;
use std::alloc::{AllocError, Global};
use std::marker::Model;
use trdp_base::{Ip, Place, Topo};
use trdp_filter::{Globals, Telegram, topo_valid};
use trdp_head::{PD_PAYLOAD_MAX, PdHead, PdKind};

/// A publisher, with room for the longest value.
#[derive(Drop)]
pub struct Publisher {
    /// What it is to send, where to and how often; never changed.
    terms: PublisherTerms,
    /// When its cycle is next due, in microseconds since the node began; without meaning for a
    /// cycle of 0.
    due: u64,
    /// The bytes of its value, with room for the longest; empty before the first put.
    buffer: Vec<u8>,
    /// Whether a value was put: a value may be empty.
    has_value: bool,
    /// The sequence counter that its next telegram carries, data or pull reply.
    counter: u32,
}

impl Model for Publisher {
    ghost use Rattle.std.specs.Prelude.{Some, None, if◌then◌else◌, ◌^◌, ◌≤◌};
    ghost use Rattle.std.specs.Prelude.{vec_len, vec_capacity};
    ghost use Rattle.trdp_pd.specs.Publishers.{PublisherState};
    ghost use Rattle.trdp_head.specs.Limits.{pd_payload_limit};

    ghost Value = { PublisherState };

    ghost view = { λ p. record {
      terms = p.terms;
      due = p.due;
      value = if p.has_value then Some p.buffer.items else None;
      counter = p.counter;
    } };

    ghost invariant = { λ p. (p.due ≤ 2 ^ 63) × (vec_len p.buffer ≤ pd_payload_limit)
        × (pd_payload_limit ≤ vec_capacity p.buffer) };
}

/// Whether telegrams of this type ask for a value.
#[tactic(auto, unfolding(crate::specs::Publishers::asks_for_value))]
fn asks_for_value(kind: PdKind) -> bool
    ensures { result ≡ asks_for_value kind }
{
    match kind {
        PdKind::PullRequest => true,
        PdKind::Data | PdKind::PullReply | PdKind::Error => false,
    }
}

/// The comId that a pull request asks for.
#[tactic(auto, unfolding(crate::specs::Publishers::asked_com_id))]
fn asked_com_id(head: &PdHead) -> u32
    ensures { result ≡ asked_com_id head.now }
{
    if head.reply_com_id == 0 {
        head.com_id
    } else {
        head.reply_com_id
    }
}

impl Publisher {
    ghost use Rattle.trdp_pd.specs.Publishers.{PublisherState, published, may_send, is_asked};
    ghost use Rattle.trdp_pd.specs.Publishers.{is_answered, head_as, next_counter};
    ghost use Rattle.trdp_head.specs.Limits.{pd_payload_limit};

    /// A publisher without a value, first due one cycle after `now`, in microseconds (profile).
    ///
    /// # Errors
    /// [`AllocError`] where there is no memory for the longest value.
    pub fn new(alloc: Global, terms: &PublisherTerms, now: u64) -> Result<Publisher, AllocError>
        requires { now ≤ last_moment }
        ensures { IfOk result (λ p. p ≡ published terms.now now) }
    {
        let buffer = Vec::with_capacity(alloc, PD_PAYLOAD_MAX)?;
        let due = now + u64::from(terms.cycle);
        Ok(Publisher {
            terms: *terms,
            due,
            buffer,
            has_value: false,
            counter: 0,
        })
    }

    /// Sets its value, of at most 1432 bytes.
    pub fn put(&mut self, bytes: &[u8])
        requires { length bytes.now ≤ pd_payload_limit }
        ensures { self.new ≡ record self.old { value = Some bytes.now } }
    {
        self.buffer.clear();
        self.buffer.extend_from_slice(bytes).unwrap();
        self.has_value = true;
    }

    /// Its value, at most 1432 bytes; None before the first put.
    pub fn value(&self) -> Option<&[u8]>
        ensures value { option_copied result ≡ self.now.value }
        ensures within { IfSome result (λ bytes. length bytes.now ≤ pd_payload_limit) }
    {
        if self.has_value {
            Some(self.buffer.as_slice())
        } else {
            None
        }
    }

    /// The comId that its telegrams carry.
    pub fn com_id(&self) -> u32
        ensures { result ≡ self.now.terms.com_id }
    {
        self.terms.com_id
    }

    /// The dataset that its value is one of; 0 for any bytes.
    pub fn dataset(&self) -> u32
        ensures { result ≡ self.now.terms.dataset }
    {
        self.terms.dataset
    }

    /// Where its telegrams go.
    pub fn to(&self) -> Place
        ensures { result ≡ self.now.terms.to }
    {
        self.terms.to
    }

    /// Whether it may send: it has a value, the node leads its group if it has one, and its
    /// topology counters match the node's.
    fn may_send(&self, globals: &Globals) -> bool
        ensures { result ≡ may_send self.now globals.entry.now }
    {
        let group = self.terms.group;
        self.has_value
            && (group == 0 || globals.led.leads(group))
            && topo_valid(self.terms.topo, globals.topo)
    }

    /// Whether the telegram is a pull request for its comId, with topology counters that match its
    /// own.
    #[tactic(auto, unfolding(crate::specs::Publishers::is_asked))]
    fn is_asked(&self, head: &PdHead) -> bool
        ensures { result ≡ is_asked self.now head.now }
    {
        asks_for_value(head.kind)
            && asked_com_id(head) == self.terms.com_id
            && topo_valid(head.topo, self.terms.topo)
    }

    /// Whether it answers the telegram.
    #[tactic(auto, unfolding(crate::specs::Publishers::is_answered))]
    fn answers(&self, head: &PdHead, globals: &Globals) -> bool
        ensures { result ≡ is_answered self.now head.now globals.entry.now }
    {
        self.is_asked(head) && self.may_send(globals)
    }

    /// The header of its next telegram, as one of this type, which is counted.
    fn send(&mut self, kind: PdKind) -> PdHead
        ensures head { result ≡ head_as kind self.old }
        ensures state { self.new ≡ record self.old { counter = next_counter self.old.counter } }
    {
        let counter = self.counter;
        self.counter = counter.wrapping_add(1);
        PdHead {
            counter,
            kind,
            com_id: self.terms.com_id,
            topo: self.terms.topo,
            reply_com_id: 0,
            reply_ip: Ip(0),
        }
    }
}

impl Object for Publisher {
    ghost use Rattle.std.specs.Prelude.{true};
    ghost use Rattle.trdp_pd.specs.Publishers.{publisher_due, publisher_addressed};
    ghost use Rattle.trdp_pd.specs.Publishers.{publisher_taking, publisher_firing};
    ghost use Rattle.trdp_pd.specs.PublisherLaws.{publisher_taking-unaddressed};
    ghost use Rattle.trdp_pd.specs.PublisherLaws.{publisher_due-firing, publisher_due-taking};

    ghost due_of = { publisher_due };

    ghost is_sound = { λ _. true };

    ghost is_addressed = { publisher_addressed };

    ghost taking = { publisher_taking };

    ghost firing = { publisher_firing };

    ghost unaddressed = { publisher_taking-unaddressed };

    ghost later = { λ p globals _. publisher_due-firing p globals };

    ghost undue = { λ p telegram globals fits _. publisher_due-taking p telegram globals fits };

    ghost kept_sound_by_taking = { λ _ _ _ _ sound. sound };

    ghost kept_sound_by_firing = { λ _ _ sound. sound };

    /// When it is next due, in microseconds since the node began; None for a cycle of 0.
    fn due(&self) -> Option<u64> {
        if self.terms.cycle == 0 {
            None
        } else {
            Some(self.due)
        }
    }

    /// Pull requests that ask for its comId are for it, with topology counters that match its own.
    fn addressed(&self, telegram: &Telegram<'_>, _globals: &Globals) -> bool {
        match *telegram {
            Telegram::Pd { view, .. } => self.is_asked(&view.head),
            Telegram::Md { .. } => false,
        }
    }

    /// Answers a pull request if it may send, and changes nothing by any other telegram.
    fn take(&mut self, telegram: &Telegram<'_>, globals: &Globals, _fits: bool) -> Taken {
        match *telegram {
            Telegram::Pd { view, .. } => {
                if self.answers(&view.head, globals) {
                    Taken::Pulled(self.send(PdKind::PullReply))
                } else {
                    Taken::Nothing
                }
            }
            Telegram::Md { .. } => Taken::Nothing,
        }
    }

    /// Sends at most one telegram, and is next due at the first of its moments after now.
    fn fire(&mut self, globals: &Globals) -> Fired {
        let cycle = u64::from(self.terms.cycle);
        let missed = (globals.now - self.due) / cycle;
        let may_send = self.may_send(globals);
        self.due += (missed + 1) * cycle;
        if may_send {
            Fired::Data(self.send(PdKind::Data))
        } else {
            Fired::Nothing
        }
    }
}
