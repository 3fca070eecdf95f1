//! Calls of repliers: replies, queries and errors.

ghost use Rattle.std.specs.Prelude.{◌≡◌, ◌≤◌, ◌++◌, ◌∷◌, [], Some, length};
ghost use Rattle.trdp_base.specs.Moments.{last_moment};
ghost use Rattle.trdp_base.specs.Limits.{md_payload_limit};
ghost use Rattle.trdp_head.specs.MdBytes.{md_bytes};
ghost use Rattle.trdp_model.specs.Kinds.{kind_of};
ghost use Rattle.trdp_model.specs.declared.record.Protocol.TheVariants.{Md};
ghost use Rattle.trdp_model.specs.Records.{Answers, DoneIs, Sends, labelled};
ghost use Rattle.trdp_model.specs.Replies.{reply_refusal, query_refusal, error_refusal};
ghost use Rattle.trdp_model.specs.Replies.{replies, queries, reply_errors};
ghost use Rattle.trdp_outbox.specs.Rooms.{HasRoom, message_room};
ghost use Rattle.trdp_store.specs.Deeds.{object_left};
ghost use Rattle.trdp_store.specs.Indexed.{com_of};
ghost use Rattle.trdp_store.specs.InSession.{own_session};

use crate::callers::TIMEOUT_MIN;
use trdp_filter::Globals;
use trdp_head::{MD_PAYLOAD_MAX, MdHead};
use trdp_md::{Replier, Stage};
use trdp_model::{AnyObject, Refusal};
use trdp_outbox::{Outbox, PlainAnswer};
use trdp_store::Left;

/// A query as a call describes it; one that can't be sent is refused.
#[derive(Clone, Copy)]
pub struct Inquiry<'a> {
    /// The comId of its telegram.
    pub com_id: u32,
    /// Its status; a query with a negative one is refused.
    pub status: i32,
    /// Within how many microseconds it must be confirmed; none below 1,000 is sent.
    pub timeout: u32,
    /// What it carries; no more than 65,388 bytes are sent.
    pub payload: &'a [u8],
}

/// Why a replier doesn't reply; None where it does.
fn reply_refusal(replier: &Replier, status: i32, payload: &[u8]) -> Option<Refusal>
    ensures { result ≡ reply_refusal replier.now status payload.now }
{
    if replier.state() == Stage::AwaitConfirm {
        return Some(Refusal::State);
    }
    if status < 0 {
        return Some(Refusal::Status);
    }
    if payload.len() > MD_PAYLOAD_MAX {
        return Some(Refusal::TooLong);
    }
    None
}

/// Why a replier sends no query; None where it sends one.
fn query_refusal(replier: &Replier, status: i32, timeout: u32, payload: &[u8]) -> Option<Refusal>
    ensures { result ≡ query_refusal replier.now status timeout payload.now }
{
    if replier.state() == Stage::AwaitConfirm {
        return Some(Refusal::State);
    }
    if timeout < TIMEOUT_MIN {
        return Some(Refusal::Timeout);
    }
    reply_refusal(replier, status, payload)
}

/// Why a replier sends no error; None where it sends one.
fn error_refusal(replier: &Replier, status: i32) -> Option<Refusal>
    ensures { result ≡ error_refusal replier.now status }
{
    if replier.state() == Stage::AwaitConfirm {
        return Some(Refusal::State);
    }
    if status >= 0 {
        return Some(Refusal::Status);
    }
    None
}

/// Records an answer of a replier that isn't refused.
fn push_reply(replier: &Replier, head: &MdHead, payload: &[u8], s: u16, out: &mut Outbox)
    requires payload { length payload.now ≤ md_payload_limit }
    requires room { HasRoom out.old (message_room (length payload.now)) }
    ensures { out.new.records
        ≡ out.old.records
        ++ labelled s
        (Answers DoneIs ∷ Sends Md replier.now.peer (md_bytes head.now payload.now) ∷ []) }
{
    out.push_plain_answer(s, PlainAnswer::Done);
    out.push_md(s, replier.peer(), head, payload);
}

/// Lets the object reply, and adds its records.
pub fn reply(
    object: &mut AnyObject,
    com_id: u32,
    status: i32,
    payload: &[u8],
    s: u16,
    out: &mut Outbox,
) -> Left
    requires { HasRoom out.old (message_room (length payload.now)) }
    ensures left { object_left result object.new
        ≡ (replies com_id status payload.now object.old).left }
    ensures records { out.new.records
        ≡ out.old.records ++ labelled s (replies com_id status payload.now object.old).records }
    ensures kind { kind_of object.new ≡ kind_of object.old }
    ensures sought { com_of object.new ≡ com_of object.old }
    ensures session { own_session object.new ≡ own_session object.old }
{
    let AnyObject::Replier(replier) = object else {
        out.push_plain_answer(s, PlainAnswer::Refused(Refusal::WrongKind));
        return Left::Stays;
    };
    if let Some(refusal) = reply_refusal(replier, status, payload) {
        out.push_plain_answer(s, PlainAnswer::Refused(refusal));
        return Left::Stays;
    }
    push_reply(
        replier,
        &replier.reply_head(com_id, status),
        payload,
        s,
        out,
    );
    Left::Ended
}

/// Lets the object reply by a query, and adds its records.
pub fn query(
    object: &mut AnyObject,
    inquiry: &Inquiry<'_>,
    globals: &Globals,
    s: u16,
    out: &mut Outbox,
)
    requires now { globals.now.now ≤ last_moment }
    requires room { HasRoom out.old (message_room (length inquiry.now.payload.now)) }
    ensures left { Some object.new
        ≡ (queries globals.entry.now.now inquiry.now.com_id inquiry.now.status
        inquiry.now.timeout inquiry.now.payload.now object.old).left }
    ensures records { out.new.records
        ≡ out.old.records
        ++ labelled s
        (queries globals.entry.now.now inquiry.now.com_id inquiry.now.status
        inquiry.now.timeout inquiry.now.payload.now object.old).records }
    ensures kind { kind_of object.new ≡ kind_of object.old }
    ensures sought { com_of object.new ≡ com_of object.old }
    ensures session { own_session object.new ≡ own_session object.old }
{
    let Inquiry {
        com_id,
        status,
        timeout,
        payload,
    } = *inquiry;
    let AnyObject::Replier(replier) = object else {
        out.push_plain_answer(s, PlainAnswer::Refused(Refusal::WrongKind));
        return;
    };
    if let Some(refusal) = query_refusal(replier, status, timeout, payload) {
        out.push_plain_answer(s, PlainAnswer::Refused(refusal));
        return;
    }
    push_reply(
        replier,
        &replier.query_head(com_id, status, timeout),
        payload,
        s,
        out,
    );
    replier.query(globals.now, timeout);
}

/// Lets the object send an error, and adds its records.
pub fn reply_error(
    object: &mut AnyObject,
    com_id: u32,
    status: i32,
    s: u16,
    out: &mut Outbox,
) -> Left
    requires { HasRoom out.old (message_room 0) }
    ensures left { object_left result object.new ≡ (reply_errors com_id status object.old).left }
    ensures records { out.new.records
        ≡ out.old.records ++ labelled s (reply_errors com_id status object.old).records }
    ensures kind { kind_of object.new ≡ kind_of object.old }
    ensures sought { com_of object.new ≡ com_of object.old }
    ensures session { own_session object.new ≡ own_session object.old }
{
    let AnyObject::Replier(replier) = object else {
        out.push_plain_answer(s, PlainAnswer::Refused(Refusal::WrongKind));
        return Left::Stays;
    };
    if let Some(refusal) = error_refusal(replier, status) {
        out.push_plain_answer(s, PlainAnswer::Refused(refusal));
        return Left::Stays;
    }
    push_reply(replier, &replier.error_head(com_id, status), b"", s, out);
    Left::Ended
}
