//! A subscription: the latest process data of one comId, and whether it is still good.

ghost use Rattle.std.specs.Prelude.{◌≡◌, ℕ, ◌≤◌, length, IfOk};
ghost use Rattle.trdp_base.specs.Moments.{last_moment};
ghost use Rattle.trdp_pd.specs.Subscriptions.{first_size, deadline_from, is_stale};
ghost use Rattle.trdp_head.specs.Limits.{pd_payload_limit};

use crate::object::{Fired, Object, Taken};
use crate::terms::{Behaviour, Latest, Peek, SubscriptionTerms, ValueState};
use std::alloc::{AllocError, Global};
use std::marker::Model;
use trdp_base::Ip;
use trdp_filter::{Globals, Telegram};
use trdp_head::{PD_PAYLOAD_MAX, PdHead, PdKind};

/// A telegram whose counter is less than this much below the latest one's is stale (profile).
const STALE_WINDOW: u32 = 16;

/// A subscription, with room for the longest value.
#[derive(Drop)]
pub struct Subscription {
    /// Which telegrams it accepts, and for how long a value is good; never changed.
    terms: SubscriptionTerms,
    /// The length of its dataset's zero value in bytes, 0 to 1432; 0 for dataset 0, which has
    /// none; never changed.
    zero_size: usize,
    /// When its value times out, in microseconds since the node began; None for a supervision time
    /// of 0, and from a time-out to the next telegram that it accepts.
    deadline: Option<u64>,
    /// How good its value is.
    state: ValueState,
    /// The sequence counter of the latest telegram that it accepted; 0 before the first.
    counter: u32,
    /// The latest telegram that it accepted, for comparison with the next one; None before the
    /// first, and from a time-out to the next one that it accepts.
    latest: Option<Latest>,
    /// The bytes of its value, with room for the longest: of the latest telegram that it accepted,
    /// or zeros.
    value: Vec<u8>,
}

impl Model for Subscription {
    ghost use Rattle.std.specs.Prelude.{◌≤◌, vec_len, vec_capacity};
    ghost use Rattle.trdp_pd.specs.Subscriptions.{SubscriptionState};
    ghost use Rattle.trdp_head.specs.Limits.{pd_payload_limit};

    ghost Value = { SubscriptionState };

    ghost view = { λ s. record {
      terms = s.terms;
      zero_size = s.zero_size;
      deadline = s.deadline;
      state = s.state;
      counter = s.counter;
      latest = s.latest;
      value = s.value.items;
    } };

    ghost invariant = { λ s. (s.zero_size ≤ pd_payload_limit) × (vec_len s.value ≤ pd_payload_limit)
        × (pd_payload_limit ≤ vec_capacity s.value) };
}

/// The length of a new subscription's value in bytes: `zero_size`, that of its dataset's zero
/// value, and 0 for dataset 0.
#[tactic(auto, unfolding(crate::specs::Subscriptions::first_size))]
fn first_size(terms: &SubscriptionTerms, zero_size: usize) -> usize
    requires { zero_size ≤ pd_payload_limit }
    ensures size { result ≡ first_size terms.now zero_size }
    ensures within { result ≤ pd_payload_limit }
{
    if terms.dataset == 0 { 0 } else { zero_size }
}

/// The deadline of a supervision time that begins now, in microseconds; None for one of 0.
#[tactic(auto, unfolding(crate::specs::Subscriptions::deadline_from))]
fn deadline_from(supervision: u32, now: u64) -> Option<u64>
    requires { now ≤ last_moment }
    ensures { result ≡ deadline_from supervision now }
{
    if supervision == 0 {
        None
    } else {
        Some(now + u64::from(supervision))
    }
}

/// Whether a telegram is stale against the latest one that was accepted.
#[tactic(auto, unfolding(crate::specs::Subscriptions::is_stale))]
fn is_stale(latest: Option<Latest>, source: Ip, head: &PdHead) -> bool
    ensures { result ≡ is_stale latest source head.now }
{
    match latest {
        None => false,
        Some(latest) => {
            latest.source == source
                && latest.kind == head.kind
                && latest.counter.wrapping_sub(head.counter) < STALE_WINDOW
        }
    }
}

impl Subscription {
    ghost use Rattle.trdp_pd.specs.Subscriptions.{SubscriptionState, subscribed};
    ghost use Rattle.trdp_pd.specs.Subscriptions.{value_after_time_out};
    ghost use Rattle.trdp_pd.specs.Peeks.{peek_model, shown};
    ghost use Rattle.trdp_head.specs.Limits.{pd_payload_limit};

    /// A subscription that shows the zero value of its dataset, supervised from `now` on, in
    /// microseconds (profile).
    ///
    /// `zero_size` is the number of bytes of that zero value; for dataset 0, whose values are any
    /// bytes, it has no effect and the value is empty.
    ///
    /// # Errors
    /// [`AllocError`] where there is no memory for the longest value.
    pub fn new(
        alloc: Global,
        terms: &SubscriptionTerms,
        zero_size: usize,
        now: u64,
    ) -> Result<Subscription, AllocError>
        requires zero_size { zero_size ≤ pd_payload_limit }
        requires now { now ≤ last_moment }
        ensures { IfOk result (λ s. s ≡ subscribed terms.now zero_size now) }
    {
        let zero_size = first_size(terms, zero_size);
        let mut value = Vec::with_capacity(alloc, PD_PAYLOAD_MAX)?;
        value.resize(zero_size, 0).unwrap();
        Ok(Subscription {
            terms: *terms,
            zero_size,
            deadline: deadline_from(terms.supervision, now),
            state: ValueState::Never,
            counter: 0,
            latest: None,
            value,
        })
    }

    /// The comId that it receives.
    pub fn com_id(&self) -> u32
        ensures { result ≡ self.now.terms.filter.com_id }
    {
        self.terms.filter.com_id
    }

    /// The dataset that its value is one of; 0 for any bytes.
    pub fn dataset(&self) -> u32
        ensures { result ≡ self.now.terms.dataset }
    {
        self.terms.dataset
    }

    /// What it shows, in every state.
    pub fn peek(&self) -> Peek<'_>
        ensures shown { peek_model result ≡ shown self.now }
        ensures within { length result.bytes.now ≤ pd_payload_limit }
    {
        Peek {
            state: self.state,
            counter: self.counter,
            bytes: self.value.as_slice(),
        }
    }

    /// What a time-out does to the value.
    #[tactic(auto, unfolding(crate::specs::Subscriptions::value_after_time_out))]
    fn time_out_value(&mut self)
        ensures { self.new ≡ record self.old {
          value = value_after_time_out self.old.terms self.old.zero_size self.old.value;
        } }
    {
        match self.terms.behaviour {
            Behaviour::Keep => {}
            Behaviour::Zero => {
                let size = if self.terms.dataset == 0 {
                    self.value.len()
                } else {
                    self.zero_size
                };
                self.value.clear();
                self.value.resize(size, 0).unwrap();
            }
        }
    }
}

impl Object for Subscription {
    ghost use Rattle.std.specs.Prelude.{true};
    ghost use Rattle.trdp_pd.specs.Subscriptions.{subscription_addressed, subscription_taking};
    ghost use Rattle.trdp_pd.specs.Subscriptions.{subscription_firing};
    ghost use Rattle.trdp_pd.specs.SubscriptionLaws.{subscription_taking-unaddressed};
    ghost use Rattle.trdp_pd.specs.SubscriptionLaws.{subscription_due-firing};
    ghost use Rattle.trdp_pd.specs.SubscriptionLaws.{subscription_due-taking};

    ghost due_of = { λ s. s.deadline };

    ghost is_sound = { λ _. true };

    ghost is_addressed = { subscription_addressed };

    ghost taking = { subscription_taking };

    ghost firing = { subscription_firing };

    ghost unaddressed = { subscription_taking-unaddressed };

    ghost later = { λ s globals _. subscription_due-firing s globals };

    ghost undue = { λ s telegram globals fits _. subscription_due-taking s telegram globals fits };

    ghost kept_sound_by_taking = { λ _ _ _ _ sound. sound };

    ghost kept_sound_by_firing = { λ _ _ sound. sound };

    /// Its deadline, in microseconds since the node began; None where no supervision time runs.
    fn due(&self) -> Option<u64> {
        self.deadline
    }

    /// Data and pull replies that its filter passes are for it.
    #[tactic(auto, unfolding(crate::specs::Subscriptions::is_for_subscription))]
    fn addressed(&self, telegram: &Telegram<'_>, globals: &Globals) -> bool {
        match *telegram {
            Telegram::Pd { src, dst, view } => {
                matches!(view.head.kind, PdKind::Data | PdKind::PullReply)
                    && self.terms.filter.passes(src, dst, &view.head, globals.topo)
            }
            Telegram::Md { .. } => false,
        }
    }

    /// Stores a telegram that is for it, fits and isn't stale; changes nothing by any other.
    #[tactic(auto, unfolding(crate::specs::Subscriptions::is_accepted_value))]
    fn take(&mut self, telegram: &Telegram<'_>, globals: &Globals, fits: bool) -> Taken {
        let Telegram::Pd { src, view, .. } = *telegram else {
            return Taken::Nothing;
        };
        let head = &view.head;
        let accepts = self.addressed(telegram, globals)
            && fits
            && !is_stale(self.latest, src.ip, head);
        if !accepts {
            return Taken::Nothing;
        }
        let taken = match self.state {
            ValueState::Silent => Taken::Alive,
            ValueState::Never | ValueState::Valid => Taken::Stored,
        };
        self.deadline = deadline_from(self.terms.supervision, globals.now);
        self.state = ValueState::Valid;
        self.counter = head.counter;
        self.latest = Some(Latest {
            source: src.ip,
            kind: head.kind,
            counter: head.counter,
        });
        self.value.clear();
        self.value.extend_from_slice(view.payload).unwrap();
        taken
    }

    /// Times out: it is silent until the next telegram that it accepts.
    fn fire(&mut self, _globals: &Globals) -> Fired {
        self.time_out_value();
        self.deadline = None;
        self.state = ValueState::Silent;
        self.latest = None;
        Fired::Silent
    }
}
