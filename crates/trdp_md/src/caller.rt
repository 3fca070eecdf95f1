//! A caller: a request that waits for its answers.
//!
//! ```text
//! the request is sent
//!   |
//!   v
//! waits --+-- an answer, or the confirmation of one, and not all is there --> waits
//!         +-- its deadline, no answer came, a retry is left: sent again ----> waits
//!         +-- all expected answers are there, all queries confirmed: Done --> over
//!         +-- its deadline, else: NoReply, NotAllReplies, NotConfirmed, Done > over
//!         +-- an abort -----------------------------------------------------> over
//! ```

ghost use Rattle.std.specs.Prelude.{◌≡◌, ◌<◌, ◌≤◌, length, IsTrue, IfOk};
ghost use Rattle.trdp_base.specs.Moments.{last_moment};
ghost use Rattle.trdp_md.specs.Answers.{awaits};
ghost use Rattle.trdp_md.specs.Callers.{new_caller, request_of, confirm_of, is_answer, is_query};
ghost use Rattle.trdp_md.specs.Callers.{is_for_caller, has_place, is_accepted_answer};
ghost use Rattle.trdp_md.specs.Callers.{deadline_after};
ghost use Rattle.trdp_md.specs.Callers.{answering, is_complete, answer_taken, reason_of};
ghost use Rattle.trdp_md.specs.Callers.{confirming};
ghost use Rattle.trdp_md.specs.Callers.{closed_of, is_repeating, repeating};
ghost use Rattle.trdp_base.specs.Limits.{md_payload_limit};

use crate::answers::{self, Answers, PLACES_MAX, RequestAnswer};
use crate::payload::Payload;
use crate::terms::CallerTerms;
use crate::waiting::reply_by;
use std::alloc::{AllocError, Global};
use trdp_base::{Place, SessionId};
use trdp_filter::{Globals, Telegram, topo_valid};
use trdp_head::{MdHead, MdKind};
use trdp_pd::{Fired, Object, Reason, Taken};

/// A caller, with room for the answers of eight places.
#[derive(Drop)]
pub struct Caller {
    /// What its request is and where it goes; never changed.
    terms: CallerTerms,
    /// The answers that it accepted, each from a place of its own.
    answers: Answers,
    /// When it sends its request again or closes, in microseconds since the node began; None once
    /// it closed.
    deadline: Option<u64>,
    /// What its request carries; never changed.
    payload: Payload,
    /// How many repeats of its request are left.
    left: u8,
    /// The sequence counter that its next request carries: how many it has sent.
    counter: u32,
}

/// Whether messages of this type answer a request.
#[tactic(auto, unfolding(crate::specs::Callers::is_answer))]
fn is_answer(kind: MdKind) -> bool
    ensures { result ≡ is_answer kind }
{
    match kind {
        MdKind::Reply | MdKind::Query | MdKind::Error => true,
        MdKind::Notify | MdKind::Request | MdKind::Confirm => false,
    }
}

/// Whether messages of this type expect a confirmation.
#[tactic(auto, unfolding(crate::specs::Callers::is_query))]
fn is_query(kind: MdKind) -> bool
    ensures { result ≡ is_query kind }
{
    match kind {
        MdKind::Query => true,
        MdKind::Notify | MdKind::Request | MdKind::Reply => false,
        MdKind::Confirm | MdKind::Error => false,
    }
}

/// The deadline after an answer, in microseconds.
#[tactic(auto, unfolding(crate::specs::Callers::deadline_after))]
fn deadline_after(deadline: Option<u64>, head: &MdHead, now: u64) -> Option<u64>
    requires { now ≤ last_moment }
    ensures { result ≡ deadline_after deadline head.now now }
{
    if !is_query(head.kind) {
        return deadline;
    }
    match deadline {
        Some(moment) => Some(moment.max(reply_by(head.timeout, now))),
        None => None,
    }
}

/// The header of the request of a caller, of that sequence counter and with status 0 (profile).
#[tactic(auto, unfolding(crate::specs::Callers::request_of))]
pub fn request_head(terms: &CallerTerms, counter: u32) -> MdHead
    ensures { result ≡ request_of terms.now counter }
{
    MdHead {
        counter,
        kind: MdKind::Request,
        com_id: terms.com_id,
        topo: terms.topo,
        status: 0,
        session: terms.session,
        timeout: terms.timeout,
        source_uri: terms.source_uri,
        dest_uri: terms.dest_uri,
    }
}

impl Caller {
    /// A caller without answers, whose timeout begins now, in microseconds. It keeps the request's
    /// payload; the first request is sent by the code that makes it.
    ///
    /// # Errors
    /// [`AllocError`] where there is no memory for the payload.
    pub fn new(
        alloc: Global,
        terms: &CallerTerms,
        payload: &[u8],
        now: u64,
    ) -> Result<Caller, AllocError>
        requires now { now ≤ last_moment }
        requires payload { length payload.now ≤ md_payload_limit }
        ensures { IfOk result (λ caller. caller ≡ new_caller terms.now payload.now now) }
    {
        let payload = Payload::new(alloc, payload)?;
        Ok(Caller {
            terms: *terms,
            answers: Answers::none(),
            deadline: Some(now + u64::from(terms.timeout)),
            payload,
            left: terms.retries,
            counter: 1,
        })
    }

    /// Where its request goes.
    pub fn to(&self) -> Place
        ensures { result ≡ self.now.terms.to }
    {
        self.terms.to
    }

    /// What its request carries, at most 65,388 bytes.
    pub fn payload(&self) -> &[u8]
        ensures value { result.now ≡ self.now.payload }
        ensures within { length result.now ≤ md_payload_limit }
    {
        self.payload.bytes()
    }

    /// The session of its request, its answers and its confirmations.
    pub fn session(&self) -> SessionId
        ensures { result ≡ self.now.terms.session }
    {
        self.terms.session
    }

    /// The answers that it accepted, each from a place of its own, in the order in which they
    /// came.
    pub fn answers(&self) -> &[RequestAnswer]
        ensures value { result.now ≡ self.now.answers }
        ensures within { length result.now ≤ 8 }
    {
        self.answers.as_slice()
    }

    /// Whether an answer from the place awaits a confirmation.
    pub fn awaits(&self, place: Place) -> bool
        ensures { result ≡ awaits self.now.answers place }
    {
        answers::awaits(self.answers.as_slice(), place)
    }

    /// Marks the answers from the place as confirmed, so that a confirmation is to be sent; false,
    /// and nothing changes, where none from there awaits one.
    #[tactic(auto, unfolding(crate::specs::Callers::confirming))]
    pub fn confirm(&mut self, place: Place) -> bool
        ensures found { result ≡ awaits self.old.answers place }
        ensures state { self.new ≡ confirming self.old place }
    {
        if !self.awaits(place) {
            return false;
        }
        self.answers.confirm(place);
        true
    }

    /// The header of a confirmation with this status, 0 or more: the request's comId, topology
    /// counters, session and URIs, as they were, and timeout 0 (profile).
    #[tactic(auto, unfolding(crate::specs::Callers::confirm_of))]
    pub fn confirm_head(&self, status: i32) -> MdHead
        ensures { result ≡ confirm_of self.now.terms status }
    {
        MdHead {
            counter: 0,
            kind: MdKind::Confirm,
            com_id: self.terms.com_id,
            topo: self.terms.topo,
            status,
            session: self.terms.session,
            timeout: 0,
            source_uri: self.terms.source_uri,
            dest_uri: self.terms.dest_uri,
        }
    }

    /// Why it is over before its deadline: `Done` once as many places as expected answered and
    /// none awaits a confirmation; None until then, and always where any number is expected
    /// (profile).
    #[tactic(auto, unfolding(crate::specs::Callers::closed_of))]
    pub fn closed(&self) -> Option<Reason>
        ensures { result ≡ closed_of self.now }
    {
        if self.is_complete() {
            Some(Reason::Done)
        } else {
            None
        }
    }

    /// Whether a number of answers was expected, that many came, and none awaits a confirmation.
    #[tactic(auto, unfolding(crate::specs::Callers::is_complete))]
    fn is_complete(&self) -> bool
        ensures { result ≡ is_complete self.now }
    {
        let answers = self.answers.as_slice();
        let expected = usize::from(self.terms.expected);
        0 < expected && expected <= answers.len() && !answers::awaits_any(answers)
    }

    /// Whether the message answers a request of its session, with topology counters that match its
    /// own.
    #[tactic(auto, unfolding(crate::specs::Callers::is_for_caller))]
    fn is_for(&self, head: &MdHead) -> bool
        ensures { result ≡ is_for_caller self.now head.now }
    {
        is_answer(head.kind)
            && head.session == self.terms.session
            && topo_valid(head.topo, self.terms.topo)
    }

    /// Whether there is room for one more answer.
    #[tactic(auto, unfolding(crate::specs::Callers::has_place))]
    fn has_place(&self) -> bool
        ensures value { result ≡ has_place self.now }
        ensures room { IsTrue result → length self.now.answers < 8 }
    {
        let count = self.answers.as_slice().len();
        let expected = usize::from(self.terms.expected);
        count < PLACES_MAX && (expected == 0 || count < expected)
    }

    /// Whether it accepts the answer from that place.
    #[tactic(auto, unfolding(crate::specs::Callers::is_accepted_answer))]
    fn accepts(&self, src: Place, head: &MdHead) -> bool
        ensures value { result ≡ is_accepted_answer self.now src head.now }
        ensures room { IsTrue result → length self.now.answers < 8 }
    {
        self.is_for(head)
            && self.has_place()
            && !answers::has_answered(self.answers.as_slice(), src)
    }

    /// Adds an answer that it accepts, and returns whether it was the last.
    #[tactic(auto, unfolding(crate::specs::Callers::answer_taken))]
    fn add(&mut self, src: Place, head: &MdHead, now: u64) -> Taken
        requires now { now ≤ last_moment }
        requires room { length self.old.answers < 8 }
        ensures state { self.new ≡ answering self.old src head.now now }
        ensures outcome { result ≡ answer_taken (answering self.old src head.now now) }
    {
        self.answers.add(RequestAnswer {
            place: src,
            kind: head.kind,
            confirm_owed: is_query(head.kind),
        });
        self.deadline = deadline_after(self.deadline, head, now);
        if self.is_complete() {
            Taken::RepliedLast
        } else {
            Taken::Replied
        }
    }

    /// Whether its request may be sent again: no answer came, and a repeat is left.
    #[tactic(auto, unfolding(crate::specs::Callers::is_repeating))]
    fn is_repeating(&self) -> bool
        ensures value { result ≡ is_repeating self.now }
        ensures left { IsTrue result → 0 < self.now.left }
    {
        self.answers.as_slice().is_empty() && self.left > 0
    }

    /// Waits once more, and sends its request again where its topology counters match the node's.
    fn repeat(&mut self, globals: &Globals) -> Fired
        requires left { 0 < self.old.left }
        requires now { globals.now.now ≤ last_moment }
        ensures state { self.new ≡ (repeating self.old globals.entry.now).object }
        ensures outcome { result ≡ (repeating self.old globals.entry.now).fired }
    {
        self.left -= 1;
        self.deadline = Some(globals.now + u64::from(self.terms.timeout));
        if !topo_valid(self.terms.topo, globals.topo) {
            return Fired::Nothing;
        }
        let head = request_head(&self.terms, self.counter);
        self.counter = self.counter.wrapping_add(1);
        Fired::Again(head)
    }

    /// Why it closes at its deadline.
    #[tactic(auto, unfolding(crate::specs::Callers::reason_of))]
    fn reason(&self) -> Reason
        ensures { result ≡ reason_of self.now }
    {
        let answers = self.answers.as_slice();
        if answers.is_empty() {
            Reason::NoReply
        } else if answers.len() < usize::from(self.terms.expected) {
            Reason::NotAllReplies
        } else if answers::awaits_any(answers) {
            Reason::NotConfirmed
        } else {
            Reason::Done
        }
    }
}

impl Object for Caller {
    ghost use Rattle.trdp_md.specs.Callers.{caller_due, caller_addressed};
    ghost use Rattle.trdp_md.specs.Callers.{caller_taking, caller_firing};
    ghost use Rattle.trdp_md.specs.CallerLaws.{caller_taking-unaddressed};
    ghost use Rattle.trdp_md.specs.Callers.{is_sound_caller};
    ghost use Rattle.trdp_md.specs.CallerLaws.{caller_due-firing, caller_due-taking};
    ghost use Rattle.trdp_md.specs.CallerLaws.{caller_sound-firing, caller_sound-taking};

    ghost due_of = { caller_due };

    ghost is_sound = { is_sound_caller };

    ghost is_addressed = { caller_addressed };

    ghost taking = { caller_taking };

    ghost firing = { caller_firing };

    ghost unaddressed = { caller_taking-unaddressed };

    ghost later = { caller_due-firing };

    ghost undue = { λ c telegram globals fits _. caller_due-taking c telegram globals fits };

    ghost kept_sound_by_taking = { caller_sound-taking };

    ghost kept_sound_by_firing = { caller_sound-firing };

    /// When it sends its request again or closes, in microseconds since the node began; None once
    /// it closed.
    fn due(&self) -> Option<u64> {
        self.deadline
    }

    /// The answers of its session are for it, with topology counters that match its own.
    fn addressed(&self, telegram: &Telegram<'_>, _globals: &Globals) -> bool {
        match telegram {
            Telegram::Pd { .. } => false,
            Telegram::Md { view, .. } => self.is_for(&view.head),
        }
    }

    /// Takes an answer that it accepts, and changes nothing by any other telegram.
    fn take(&mut self, telegram: &Telegram<'_>, globals: &Globals, _fits: bool) -> Taken {
        match telegram {
            Telegram::Pd { .. } => Taken::Nothing,
            Telegram::Md { src, view, .. } => {
                if self.accepts(*src, &view.head) {
                    self.add(*src, &view.head, globals.now)
                } else {
                    Taken::Nothing
                }
            }
        }
    }

    /// Sends its request again at its deadline, or closes.
    fn fire(&mut self, globals: &Globals) -> Fired {
        if self.is_repeating() {
            return self.repeat(globals);
        }
        let reason = self.reason();
        self.deadline = None;
        Fired::Closed(reason)
    }
}
