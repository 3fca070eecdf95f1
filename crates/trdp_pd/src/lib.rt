//! The process data objects of a slot: publishers, subscriptions and requesters.
//!
//! A [`Publisher`] sends its value in its cycle and as a pull reply, a [`Subscription`] receives
//! the values of one comId, and a [`Requester`] sends pull requests. Each is an [`Object`]:
//! `addressed` says which telegrams are for it, `take` hands it one, `due` says when it acts by
//! itself, and `fire` lets it act.
//!
//! ```text
//! let mut publisher = Publisher::new(alloc, &terms, now)?;
//! publisher.put(b"doors open");
//! publisher.due()                      // Some(now + cycle)
//! publisher.fire(&globals)             // Fired::Data(head): to be sent with its value
//! ```
//!
//! Headers and message types are those of IEC 61375-2-3:2015, Annex A; when an object sends,
//! accepts and times out is our own choice where the text says *profile*. A new publisher or
//! subscription allocates room for one payload; nothing later allocates. `trdp_model` joins these
//! objects with those of message data.
//!
//! Proved: each object is one state, and what a telegram or a moment does to it is a function of
//! this state, the telegram and the node's globals alone. That the node calls `fire` when an
//! object is due no contract here can say.
#![tactic(auto)]

mod laws;
mod object;
mod publisher;
mod requester;
mod subscription;
mod terms;

pub use laws::{
    new_is_later, publisher_keeps, publisher_sends_its_own, subscription_keeps,
    subscription_shows_what_it_took,
};
pub use object::{Fired, Object, Reason, Taken};
pub use publisher::Publisher;
pub use requester::Requester;
pub use subscription::Subscription;
pub use terms::{Behaviour, Peek, PublisherTerms, RequesterTerms, SubscriptionTerms, ValueState};
