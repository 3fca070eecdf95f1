//! Calls of callers: how a request is sent, and how a query is confirmed.

ghost use Rattle.std.specs.Prelude.{◌≡◌, ◌<◌, ◌≤◌, ◌++◌, ◌∷◌, [], length, OnOk, OnErr, true};
ghost use Rattle.std.specs.Prelude.{IfNone};
ghost use Rattle.trdp_base.specs.Moments.{last_moment};
ghost use Rattle.trdp_base.specs.Limits.{md_payload_limit};
ghost use Rattle.trdp_md.specs.Callers.{new_caller};
ghost use Rattle.trdp_model.specs.declared.any_object.AnyObject.TheVariants.{Caller as Asking};
ghost use Rattle.trdp_model.specs.Kinds.{kind_of};
ghost use Rattle.trdp_model.specs.Records.{labelled};
ghost use Rattle.trdp_model.specs.Events.{RequestCall};
ghost use Rattle.trdp_model.specs.Openings.{opened_with};
ghost use Rattle.trdp_model.specs.Requests.{request_refusal, request_sent};
ghost use Rattle.trdp_model.specs.Replies.{confirm_refusal, confirms_unless, confirms};
ghost use Rattle.trdp_outbox.specs.Rooms.{HasRoom, message_room, confirm_room, makes_buffer};
ghost use Rattle.trdp_store.specs.Acting.{slot_at, Becomes};
ghost use Rattle.trdp_store.specs.Deeds.{object_left};
ghost use Rattle.trdp_store.specs.Indexed.{com_of};
ghost use Rattle.trdp_store.specs.InSession.{own_session};

use crate::opening::{open, opening_refusal};
use std::alloc::AllocError;
use trdp_base::Place;
use trdp_filter::{Globals, topo_valid};
use trdp_head::MD_PAYLOAD_MAX;
use trdp_md::{Caller, CallerTerms, request_head};
use trdp_model::{AnyObject, Kind, Refusal};
use trdp_outbox::{Outbox, PlainAnswer, RowForm};
use trdp_store::{Counts, Left, Setting, Store, has_session};

/// The shortest timeout of a request or query, in microseconds (profile).
pub const TIMEOUT_MIN: u32 = 1_000;

/// The most places (address and port) that a request may expect answers from (profile).
const EXPECTED_MAX: u8 = 8;

/// How often a request may be sent again at most (profile).
const RETRIES_MAX: u8 = 2;

/// Why slot `s` doesn't send a request; None where it does.
fn request_refusal(
    store: &Store,
    s: u16,
    terms: &CallerTerms,
    payload: &[u8],
    globals: &Globals,
) -> Option<Refusal>
    requires { s < length store.now }
    ensures value { result
        ≡ request_refusal (slot_at s store.now) globals.entry.now terms.now payload.now }
    ensures within { IfNone result (length payload.now ≤ md_payload_limit) }
{
    if !topo_valid(terms.topo, globals.topo) {
        return Some(Refusal::State);
    }
    if terms.timeout < TIMEOUT_MIN {
        return Some(Refusal::Timeout);
    }
    if terms.expected > EXPECTED_MAX {
        return Some(Refusal::Expected);
    }
    if payload.len() > MD_PAYLOAD_MAX {
        return Some(Refusal::TooLong);
    }
    if has_session(store, s, Kind::Caller, terms.session) {
        return Some(Refusal::SessionOpen);
    }
    if let Some(refusal) = opening_refusal(store, s, Kind::Caller) {
        return Some(refusal);
    }
    if terms.retries > RETRIES_MAX {
        return Some(Refusal::Retries);
    }
    None
}

/// Makes a caller in slot `s`, and records the answer and its request. Every refusal is found
/// first, then memory is taken, and then the slot changes.
///
/// # Errors
/// [`AllocError`] where there is no memory for the caller, which keeps its payload; nothing has
/// changed.
pub fn request(
    store: &mut Store,
    s: u16,
    terms: &CallerTerms,
    payload: &[u8],
    setting: &Setting<'_>,
    out: &mut Outbox,
) -> Result<(), AllocError>
    requires slot { s < length store.old }
    requires now { setting.now.globals.now.now ≤ last_moment }
    requires room { HasRoom out.old (message_room (length payload.now)) }
    ensures becomes { OnOk result (Becomes s
        (opened_with
        (request_refusal (slot_at s store.old) setting.now.globals.now terms.now payload.now)
        (slot_at s store.old)
        (Asking (new_caller terms.now payload.now setting.now.globals.now.now))
        (request_sent terms.now payload.now ∷ [])) store.old store.new out.old out.new) }
    ensures kept { OnErr result (store.new ≡ store.old) }
    ensures same { OnErr result (out.new ≡ out.old) }
    ensures makes { OnErr result (makes_buffer (RequestCall terms.now payload.now) ≡ true) }
{
    if let Some(refusal) = request_refusal(store, s, terms, payload, setting.globals) {
        out.push_plain_answer(s, PlainAnswer::Refused(refusal));
        return Ok(());
    }
    let caller = Caller::new(setting.alloc, terms, payload, setting.globals.now)?;
    let answer = open(store, s, AnyObject::Caller(caller), &mut Counts::none());
    out.push_plain_answer(s, answer);
    out.push_md(s, terms.to, &request_head(terms, 0), payload);
    Ok(())
}

/// Why a caller doesn't confirm the query from that `Place`; None where it does.
fn confirm_refusal(caller: &Caller, place: Place, status: i32) -> Option<Refusal>
    ensures { result ≡ confirm_refusal caller.now place status }
{
    if !caller.awaits(place) {
        return Some(Refusal::State);
    }
    if status < 0 {
        return Some(Refusal::Status);
    }
    None
}

/// Lets a caller of that handle confirm the query from that `Place`, and adds its records.
fn confirm_by(
    caller: &mut Caller,
    handle: u32,
    place: Place,
    status: i32,
    s: u16,
    out: &mut Outbox,
) -> Left
    requires { HasRoom out.old confirm_room }
    ensures left { object_left result (Asking caller.new)
        ≡ (confirms_unless (confirm_refusal caller.old place status) handle place status
        caller.old).left }
    ensures records { out.new.records
        ≡ out.old.records
        ++ labelled s (confirms_unless (confirm_refusal caller.old place status) handle place
        status caller.old).records }
    ensures terms { caller.new.terms ≡ caller.old.terms }
{
    if let Some(refusal) = confirm_refusal(caller, place, status) {
        out.push_plain_answer(s, PlainAnswer::Refused(refusal));
        return Left::Stays;
    }
    let head = caller.confirm_head(status);
    caller.confirm(place);
    out.push_plain_answer(s, PlainAnswer::Done);
    out.push_md(s, place, &head, b"");
    match caller.closed() {
        None => Left::Stays,
        Some(reason) => {
            out.push(s, RowForm::Closed(handle, reason));
            Left::Ended
        }
    }
}

/// Lets the object of that handle confirm the query from that `Place`, and adds its records.
pub fn confirm(
    object: &mut AnyObject,
    handle: u32,
    place: Place,
    status: i32,
    s: u16,
    out: &mut Outbox,
) -> Left
    requires { HasRoom out.old confirm_room }
    ensures left { object_left result object.new ≡ (confirms handle place status object.old).left }
    ensures records { out.new.records
        ≡ out.old.records ++ labelled s (confirms handle place status object.old).records }
    ensures kind { kind_of object.new ≡ kind_of object.old }
    ensures sought { com_of object.new ≡ com_of object.old }
    ensures session { own_session object.new ≡ own_session object.old }
{
    match object {
        AnyObject::Caller(caller) => confirm_by(caller, handle, place, status, s, out),
        _ => {
            out.push_plain_answer(s, PlainAnswer::Refused(Refusal::WrongKind));
            Left::Stays
        }
    }
}
