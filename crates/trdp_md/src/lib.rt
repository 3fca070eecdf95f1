//! The message data objects of a slot, and notifications, which need none.
//!
//! A [`Caller`] is a request that waits for its answers, a [`Listener`] hears notifications and
//! requests, and a [`Replier`] is a request that was heard and waits for its answer. Each is an
//! `Object`, as those of process data are. `caller.rt` and `replier.rt` begin with a picture of
//! their states.
//!
//! ```text
//! caller asks        Mr -->  a listener hears it, and a replier is made
//! caller accepts    <-- Mq   the replier queries, and awaits a confirmation
//! caller confirms    Mc -->  the replier is over
//! ```
//!
//! Message types, sessions and header fields are those of IEC 61375-2-3:2015, Annex A; which
//! answers count, how often a request is sent again and when an object is over is our own choice
//! where the text says *profile*. A new caller allocates its payload; nothing else here allocates.
//! `trdp_model` joins these objects with those of process data.
//!
//! Proved: each object is one state, and what a telegram or a moment does to it is a function of
//! this state, the telegram and the node's globals alone. No contract here says that a message
//! arrives, or that the node calls `fire` when an object is due.
#![tactic(auto)]

mod answers;
mod caller;
mod laws;
mod listener;
mod notify;
mod payload;
mod replier;
mod terms;
mod waiting;

pub use answers::RequestAnswer;
pub use caller::{Caller, request_head};
pub use laws::{
    caller_accepts_its_session, caller_answers_stay_apart, caller_awaits_queries_only,
    caller_confirms_one_place, caller_confirms_what_awaits, caller_hears_each_place_once,
    caller_is_done_with_all, caller_keeps, caller_repeats_its_request, caller_tells_its_answers,
    listener_hears_its_own, listener_stays, replier_is_confirmed_by_its_peer, replier_keeps,
    session_ends_later,
};
pub use listener::Listener;
pub use notify::notification;
pub use replier::{Replier, Stage};
pub use terms::{CallerTerms, NotifyTerms};
