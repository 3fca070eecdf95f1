//! Calls that make an object in a slot.

ghost use Rattle.std.specs.Prelude.{◌≡◌, ◌<◌, ◌≤◌, ◌+◌, ◌*◌, ◌^◌, ℕ, length, slice_set, Option};
ghost use Rattle.std.specs.Prelude.{IfOk, IfErr, Some};
ghost use Rattle.trdp_head.specs.Limits.{pd_payload_limit};
ghost use Rattle.trdp_model.specs.Kinds.{kind_of};
ghost use Rattle.trdp_table.specs.Tables.{room_of};
ghost use Rattle.trdp_model.specs.declared.fault.Refusal.{Refusal};
ghost use Rattle.trdp_model.specs.Configs.{setup_of, zero_size_of};
ghost use Rattle.trdp_store.specs.TableSlots.{slots_of};
ghost use Rattle.trdp_model.specs.Calls.{is_span, dataset_refusal};
ghost use Rattle.trdp_model.specs.Openings.{opening_refusal};
ghost use Rattle.trdp_model.specs.Openings.{opened_unless, answered};
ghost use Rattle.trdp_outbox.specs.Outboxes.{plain_answer_model};
ghost use Rattle.trdp_store.specs.Acting.{slot_at};
ghost use Rattle.trdp_store.specs.InSession.{IsNewInSession};

use trdp_dataset::NodeConfig;
use trdp_head::PD_PAYLOAD_MAX;
use trdp_model::{AnyObject, Kind, Refusal};
use trdp_outbox::PlainAnswer;
use trdp_store::{Counts, Store};

/// The shortest cycle or supervision time but 0, in microseconds (profile).
const SPAN_MIN: u32 = 1_000;

/// Why slot `s` takes no new object of the kind; None where it takes one.
pub fn opening_refusal(store: &Store, s: u16, kind: Kind) -> Option<Refusal>
    requires { s < length store.now }
    ensures { result ≡ opening_refusal (slot_at s store.now) kind }
{
    match store.refuses(s, kind) {
        None => None,
        Some(fault) => Some(Refusal::from(fault)),
    }
}

/// Adds an object to slot `s`, which has none in the same session and role, and returns the
/// answer: its handle, or why not. It counts how often two orders were compared.
pub fn open(store: &mut Store, s: u16, object: AnyObject, counts: &mut Counts) -> PlainAnswer
    requires slot { s < length store.old }
    requires fresh { IsNewInSession object (slot_at s store.old).objects }
    ensures outcome { opened_unless (opening_refusal (slot_at s store.old) (kind_of object))
        (slot_at s store.old) object
        ≡ answered (slot_at s store.new) (plain_answer_model result) }
    ensures others { slots_of store.new ≡ slice_set (slots_of store.old) s (slot_at s store.new) }
    ensures room { room_of store.new ≡ room_of store.old }
    ensures comparisons { (b : ℕ) → room_of store.old < 2 ^ b
        → counts.new.comparisons ≤ counts.old.comparisons + (2 * b + 2) }
    ensures tests { counts.new.tests ≡ counts.old.tests }
    ensures look_ups { counts.new.look_ups ≡ counts.old.look_ups }
{
    match store.add(s, object, counts) {
        Ok(handle) => PlainAnswer::Handle(handle),
        Err((_, fault)) => PlainAnswer::Refused(Refusal::from(fault)),
    }
}

/// Whether a cycle or supervision time is 0 or at least 1,000 microseconds.
pub fn is_span(span: u32) -> bool
    ensures { result ≡ is_span span }
{
    span == 0 || span >= SPAN_MIN
}

/// How many bytes the zero value of a dataset takes.
///
/// # Errors
/// Why no object can be of it: the first that applies of `NoDataset` and `TooLong` (above 1,432
/// bytes).
pub fn value_size(config: &NodeConfig, dataset: u32) -> Result<usize, Refusal>
    ensures refused { IfErr result (λ refusal. (later : Option Refusal)
        → dataset_refusal (setup_of config.now) dataset later ≡ Some refusal) }
    ensures accepted { IfOk result (λ size. (later : Option Refusal)
        → dataset_refusal (setup_of config.now) dataset later ≡ later) }
    ensures size { IfOk result (λ size. size ≡ zero_size_of (setup_of config.now) dataset) }
    ensures within { IfOk result (λ size. size ≤ pd_payload_limit) }
{
    if dataset == 0 {
        return Ok(0);
    }
    match config.registry().zero_size(dataset) {
        None => Err(Refusal::NoDataset),
        Some(size) => {
            if size > PD_PAYLOAD_MAX {
                Err(Refusal::TooLong)
            } else {
                Ok(size)
            }
        }
    }
}
