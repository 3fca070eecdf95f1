//! Calls about publishers.

ghost use Rattle.std.specs.Prelude.{◌≡◌, ◌<◌, ◌≤◌, length, slice_set, OnErr, IfOk};
ghost use Rattle.trdp_base.specs.Moments.{last_moment};
ghost use Rattle.trdp_model.specs.Kinds.{kind_of};
ghost use Rattle.trdp_model.specs.Configs.{setup_of};
ghost use Rattle.trdp_model.specs.Events.{PublishCall};
ghost use Rattle.trdp_store.specs.TableSlots.{slots_of};
ghost use Rattle.trdp_model.specs.Calls.{puts, publish_refusal, called};
ghost use Rattle.trdp_model.specs.Openings.{answered};
ghost use Rattle.trdp_model.specs.Acts.{answers};
ghost use Rattle.trdp_outbox.specs.Outboxes.{plain_answer_model};
ghost use Rattle.trdp_store.specs.Acting.{slot_at};
ghost use Rattle.trdp_store.specs.Indexed.{com_of};
ghost use Rattle.trdp_store.specs.InSession.{own_session};

use crate::opening::{is_span, open, opening_refusal, value_size};
use std::alloc::{AllocError, Global};
use trdp_dataset::NodeConfig;
use trdp_filter::Globals;
use trdp_head::PD_PAYLOAD_MAX;
use trdp_marshal::fits;
use trdp_model::{AnyObject, Kind, Refusal};
use trdp_outbox::PlainAnswer;
use trdp_pd::{Publisher, PublisherTerms};
use trdp_store::{Counts, Store};

/// Why slot `s` refuses a publisher of these terms; None where it doesn't.
fn publish_refusal(
    store: &Store,
    s: u16,
    config: &NodeConfig,
    terms: &PublisherTerms,
) -> Option<Refusal>
    requires { s < length store.now }
    ensures { result ≡ publish_refusal (setup_of config.now) (slot_at s store.now) terms.now }
{
    if !is_span(terms.cycle) {
        return Some(Refusal::Cycle);
    }
    match value_size(config, terms.dataset) {
        Err(refusal) => Some(refusal),
        Ok(_) => opening_refusal(store, s, Kind::Publisher),
    }
}

/// Makes a publisher in slot `s`. Every refusal is found first, then memory is taken, and then the
/// slot changes.
///
/// # Errors
/// [`AllocError`] where there is no memory for the publisher.
pub fn publish(
    store: &mut Store,
    s: u16,
    alloc: Global,
    config: &NodeConfig,
    terms: &PublisherTerms,
    globals: &Globals,
) -> Result<PlainAnswer, AllocError>
    requires slot { s < length store.old }
    requires now { globals.now.now ≤ last_moment }
    ensures outcome { IfOk result
        (λ answer.
        called (setup_of config.now) (slot_at s store.old) globals.entry.now
        (PublishCall terms.now)
        ≡ answered (slot_at s store.new) (plain_answer_model answer)) }
    ensures others { slots_of store.new ≡ slice_set (slots_of store.old) s (slot_at s store.new) }
    ensures kept { OnErr result (store.new ≡ store.old) }
{
    if let Some(refusal) = publish_refusal(store, s, config, terms) {
        return Ok(PlainAnswer::Refused(refusal));
    }
    let publisher = Publisher::new(alloc, terms, globals.now)?;
    Ok(open(
        store,
        s,
        AnyObject::Publisher(publisher),
        &mut Counts::none(),
    ))
}

/// Gives the object a new value, or records why not.
pub fn put(object: &mut AnyObject, config: &NodeConfig, bytes: &[u8]) -> PlainAnswer
    ensures answers { puts (setup_of config.now) bytes.now object.old
        ≡ answers object.new (plain_answer_model result) }
    ensures kind { kind_of object.new ≡ kind_of object.old }
    ensures sought { com_of object.new ≡ com_of object.old }
    ensures session { own_session object.new ≡ own_session object.old }
{
    match object {
        AnyObject::Publisher(publisher) => {
            if bytes.len() > PD_PAYLOAD_MAX {
                return PlainAnswer::Refused(Refusal::TooLong);
            }
            if !fits(config.registry(), publisher.dataset(), bytes) {
                return PlainAnswer::Refused(Refusal::Shape);
            }
            publisher.put(bytes);
            PlainAnswer::Done
        }
        _ => PlainAnswer::Refused(Refusal::WrongKind),
    }
}
