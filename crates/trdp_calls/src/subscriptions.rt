//! Calls about subscriptions.

ghost use Rattle.std.specs.Prelude.{◌≡◌, ◌<◌, ◌≤◌, ◌++◌, length, slice_set, OnErr, IfOk, IfErr};
ghost use Rattle.std.specs.Prelude.{None, Some};
ghost use Rattle.trdp_base.specs.Moments.{last_moment};
ghost use Rattle.trdp_head.specs.Limits.{pd_payload_limit};
ghost use Rattle.trdp_model.specs.declared.kind.Kind.TheVariants.{Subscription as Subscribing};
ghost use Rattle.trdp_model.specs.Configs.{setup_of, zero_size_of};
ghost use Rattle.trdp_model.specs.Events.{SubscribeCall};
ghost use Rattle.trdp_store.specs.TableSlots.{slots_of};
ghost use Rattle.trdp_model.specs.Records.{labelled};
ghost use Rattle.trdp_model.specs.Calls.{shows, subscribe_refusal, called};
ghost use Rattle.trdp_model.specs.Openings.{answered};
ghost use Rattle.trdp_outbox.specs.Outboxes.{plain_answer_model};
ghost use Rattle.trdp_outbox.specs.Rooms.{HasRoom, answer_room};
ghost use Rattle.trdp_store.specs.Acting.{slot_at};

use crate::look::as_subscription;
use crate::opening::{is_span, open, opening_refusal, value_size};
use std::alloc::{AllocError, Global};
use trdp_dataset::NodeConfig;
use trdp_filter::Globals;
use trdp_model::{AnyObject, Kind, Refusal};
use trdp_outbox::{Outbox, PlainAnswer};
use trdp_pd::{Subscription, SubscriptionTerms};
use trdp_store::{Counts, Store};

/// How many bytes the zero value of a subscription of these terms in slot `s` takes.
///
/// # Errors
/// Why the slot refuses it: the first that applies of `Timeout`, `Range`, `NoDataset`, `TooLong`,
/// `Quota` and `Exhausted`.
fn subscribed_size(
    store: &Store,
    s: u16,
    config: &NodeConfig,
    terms: &SubscriptionTerms,
) -> Result<usize, Refusal>
    requires { s < length store.now }
    ensures refused { IfErr result
        (λ refusal. subscribe_refusal (setup_of config.now) (slot_at s store.now) terms.now
        ≡ Some refusal) }
    ensures accepted { IfOk result
        (λ size. subscribe_refusal (setup_of config.now) (slot_at s store.now) terms.now
        ≡ None) }
    ensures size { IfOk result
        (λ size. size ≡ zero_size_of (setup_of config.now) terms.now.dataset) }
    ensures within { IfOk result (λ size. size ≤ pd_payload_limit) }
{
    if !is_span(terms.supervision) {
        return Err(Refusal::Timeout);
    }
    if terms.filter.low > terms.filter.high {
        return Err(Refusal::Range);
    }
    match value_size(config, terms.dataset) {
        Err(refusal) => Err(refusal),
        Ok(size) => match opening_refusal(store, s, Kind::Subscription) {
            Some(refusal) => Err(refusal),
            None => Ok(size),
        },
    }
}

/// Makes a subscription in slot `s`. Every refusal is found first, then memory is taken, and then
/// the slot changes.
///
/// # Errors
/// [`AllocError`] where there is no memory for the subscription.
pub fn subscribe(
    store: &mut Store,
    s: u16,
    alloc: Global,
    config: &NodeConfig,
    terms: &SubscriptionTerms,
    globals: &Globals,
) -> Result<PlainAnswer, AllocError>
    requires slot { s < length store.old }
    requires now { globals.now.now ≤ last_moment }
    ensures outcome { IfOk result
        (λ answer.
        called (setup_of config.now) (slot_at s store.old) globals.entry.now
        (SubscribeCall terms.now)
        ≡ answered (slot_at s store.new) (plain_answer_model answer)) }
    ensures others { slots_of store.new ≡ slice_set (slots_of store.old) s (slot_at s store.new) }
    ensures kept { OnErr result (store.new ≡ store.old) }
{
    match subscribed_size(store, s, config, terms) {
        Err(refusal) => Ok(PlainAnswer::Refused(refusal)),
        Ok(size) => {
            let subscription = Subscription::new(alloc, terms, size, globals.now)?;
            Ok(open(
                store,
                s,
                AnyObject::Subscription(subscription),
                &mut Counts::none(),
            ))
        }
    }
}

/// Records the answer to a look at the object.
pub fn show(object: &AnyObject, s: u16, out: &mut Outbox)
    requires { HasRoom out.old answer_room }
    ensures { out.new.records ≡ out.old.records ++ labelled s (shows object.now).records }
{
    match as_subscription(object) {
        Err(fault) => out.push_plain_answer(s, PlainAnswer::Refused(Refusal::from(fault))),
        Ok(subscription) => out.push_value(s, subscription.peek()),
    }
}
