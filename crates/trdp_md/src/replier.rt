//! A replier: a request that was heard, and waits for its answer.
//!
//! ```text
//! a request is heard
//!   |
//!   v
//! Asked --+-- a reply or an error is sent -------> over
//!         +-- a query is sent -------------------> AwaitConfirm
//!         +-- its deadline: ReplyMissed ---------> over
//!         +-- an abort --------------------------> over
//!
//! AwaitConfirm --+-- its peer's confirmation ----> over
//!                +-- its deadline: NoConfirm ----> over
//!                +-- an abort -------------------> over
//! ```

ghost use Rattle.std.specs.Prelude.{◌≡◌, ◌≤◌, pos};
ghost use Rattle.trdp_base.specs.Moments.{last_moment};
ghost use Rattle.trdp_head.specs.declared.md.MdKind.TheVariants.{Reply, Query, Error};
ghost use Rattle.trdp_md.specs.Repliers.{asked_by, answer_with, queried, awaits_confirm};
ghost use Rattle.trdp_md.specs.Repliers.{is_confirm, is_for_replier, missed};

use crate::waiting::reply_by;
use trdp_base::{Place, SessionId, Topo, Uri};
use trdp_filter::{Globals, Telegram, topo_valid};
use trdp_head::{MdHead, MdKind};
use trdp_pd::{Fired, Object, Reason, Taken};

/// How far the answer to a request is.
#[derive(Clone, Copy, Debug, PartialEq, Eq)]
pub enum Stage {
    /// The request isn't answered yet.
    Asked,
    /// It was answered by a query, which awaits its confirmation.
    AwaitConfirm,
}

/// A replier.
#[derive(Clone, Copy, Debug, PartialEq, Eq)]
pub struct Replier {
    /// The address and port that the request came from; never changed.
    peer: Place,
    /// The request's session; never changed.
    session: SessionId,
    /// The request's topology counters; never changed.
    topo: Topo,
    /// The request's source URI; never changed.
    source_uri: Uri,
    /// The request's destination URI; never changed.
    dest_uri: Uri,
    /// How far the answer is.
    stage: Stage,
    /// When it closes, in microseconds since the node began; None once it is over.
    deadline: Option<u64>,
}

/// Whether a confirmation is awaited in this stage.
#[tactic(auto, unfolding(crate::specs::Repliers::awaits_confirm))]
fn awaits_confirm(stage: Stage) -> bool
    ensures { result ≡ awaits_confirm stage }
{
    match stage {
        Stage::Asked => false,
        Stage::AwaitConfirm => true,
    }
}

/// Whether messages of this type confirm.
#[tactic(auto, unfolding(crate::specs::Repliers::is_confirm))]
fn is_confirm(kind: MdKind) -> bool
    ensures { result ≡ is_confirm kind }
{
    match kind {
        MdKind::Confirm => true,
        MdKind::Notify | MdKind::Request | MdKind::Reply => false,
        MdKind::Query | MdKind::Error => false,
    }
}

/// Why a replier in this stage closes at its deadline.
#[tactic(auto, unfolding(crate::specs::Repliers::missed))]
fn missed(stage: Stage) -> Reason
    ensures { result ≡ missed stage }
{
    match stage {
        Stage::Asked => Reason::ReplyMissed,
        Stage::AwaitConfirm => Reason::NoConfirm,
    }
}

impl Replier {
    /// A replier to a request with this header from the peer, whose replyTimeout begins now, in
    /// microseconds; a replyTimeout of 0 means 5,000,000 (profile).
    pub fn new(peer: Place, head: &MdHead, now: u64) -> Replier
        requires { now ≤ last_moment }
        ensures { result ≡ asked_by peer head.now now }
    {
        Replier {
            peer,
            session: head.session,
            topo: head.topo,
            source_uri: head.source_uri,
            dest_uri: head.dest_uri,
            stage: Stage::Asked,
            deadline: Some(reply_by(head.timeout, now)),
        }
    }

    /// How far its answer is.
    pub fn state(&self) -> Stage
        ensures { result ≡ self.now.stage }
    {
        self.stage
    }

    /// The address and port that the request came from, and its answers go to.
    pub fn peer(&self) -> Place
        ensures { result ≡ self.now.peer }
    {
        self.peer
    }

    /// The request's session.
    pub fn session(&self) -> SessionId
        ensures { result ≡ self.now.session }
    {
        self.session
    }

    /// The header of a reply that expects no confirmation, with this status, 0 or more.
    pub fn reply_head(&self, com_id: u32, status: i32) -> MdHead
        ensures { result ≡ answer_with self.now Reply com_id status 0 }
    {
        self.answer(MdKind::Reply, com_id, status, 0)
    }

    /// The header of a reply that expects a confirmation within `timeout` microseconds, with this
    /// status, 0 or more.
    pub fn query_head(&self, com_id: u32, status: i32, timeout: u32) -> MdHead
        ensures { result ≡ answer_with self.now Query com_id status timeout }
    {
        self.answer(MdKind::Query, com_id, status, timeout)
    }

    /// The header of an error in place of a reply, with this status, below 0.
    pub fn error_head(&self, com_id: u32, status: i32) -> MdHead
        ensures { result ≡ answer_with self.now Error com_id status 0 }
    {
        self.answer(MdKind::Error, com_id, status, 0)
    }

    /// Waits for the confirmation of its query, for `timeout` microseconds from now on.
    pub fn query(&mut self, now: u64, timeout: u32)
        requires asked { self.old.stage ≡ Stage.Asked }
        requires now { now ≤ last_moment }
        ensures { self.new ≡ queried self.old now timeout }
    {
        *self = Replier {
            stage: Stage::AwaitConfirm,
            deadline: Some(now + u64::from(timeout)),
            ..*self
        };
    }

    /// The header of an answer of this type: of the request's session and topology counters, with
    /// the request's URIs swapped and sequence counter 0 (profile).
    #[tactic(auto, unfolding(crate::specs::Repliers::answer_with))]
    fn answer(&self, kind: MdKind, com_id: u32, status: i32, timeout: u32) -> MdHead
        ensures { result ≡ answer_with self.now kind com_id status timeout }
    {
        MdHead {
            counter: 0,
            kind,
            com_id,
            topo: self.topo,
            status,
            session: self.session,
            timeout,
            source_uri: self.dest_uri,
            dest_uri: self.source_uri,
        }
    }

    /// Whether the message is the confirmation that it awaits.
    #[tactic(auto, unfolding(crate::specs::Repliers::is_for_replier))]
    fn is_for(&self, src: Place, head: &MdHead) -> bool
        ensures { result ≡ is_for_replier self.now src head.now }
    {
        awaits_confirm(self.stage)
            && is_confirm(head.kind)
            && head.session == self.session
            && src.ip == self.peer.ip
            && topo_valid(head.topo, self.topo)
    }
}

impl Object for Replier {
    ghost use Rattle.std.specs.Prelude.{true};
    ghost use Rattle.trdp_md.specs.Repliers.{replier_due, replier_addressed};
    ghost use Rattle.trdp_md.specs.Repliers.{replier_taking, replier_firing};
    ghost use Rattle.trdp_md.specs.ReplierLaws.{replier_taking-unaddressed};
    ghost use Rattle.trdp_md.specs.ReplierLaws.{replier_due-firing, replier_due-taking};

    ghost due_of = { replier_due };

    ghost is_sound = { λ _. true };

    ghost is_addressed = { replier_addressed };

    ghost taking = { replier_taking };

    ghost firing = { replier_firing };

    ghost unaddressed = { replier_taking-unaddressed };

    ghost later = { λ r globals _. replier_due-firing r globals };

    ghost undue = { λ r telegram globals fits _. replier_due-taking r telegram globals fits };

    ghost kept_sound_by_taking = { λ _ _ _ _ sound. sound };

    ghost kept_sound_by_firing = { λ _ _ sound. sound };

    /// When it closes, in microseconds since the node began; None once it is over.
    fn due(&self) -> Option<u64> {
        self.deadline
    }

    /// The confirmation that it awaits is for it.
    fn addressed(&self, telegram: &Telegram<'_>, _globals: &Globals) -> bool {
        match telegram {
            Telegram::Pd { .. } => false,
            Telegram::Md { src, view, .. } => self.is_for(*src, &view.head),
        }
    }

    /// The confirmation that it awaits ends it, and any other telegram changes nothing.
    fn take(&mut self, telegram: &Telegram<'_>, _globals: &Globals, _fits: bool) -> Taken {
        match telegram {
            Telegram::Pd { .. } => Taken::Nothing,
            Telegram::Md { src, view, .. } => {
                if self.is_for(*src, &view.head) {
                    self.deadline = None;
                    Taken::Confirmed(view.head.status)
                } else {
                    Taken::Nothing
                }
            }
        }
    }

    /// Closes at its deadline.
    fn fire(&mut self, _globals: &Globals) -> Fired {
        self.deadline = None;
        Fired::Closed(missed(self.stage))
    }
}
