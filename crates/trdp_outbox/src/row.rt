//! The rows of an outbox: records whose bytes are in a list of their own.

ghost use Rattle.std.specs.Prelude.{◌≡◌, ◌+◌, ◌<◌, ◌≤◌, ◌++◌, ◌∷◌, [], vec_len, vec_capacity};
ghost use Rattle.trdp_model.specs.Records.{answer_model, content_model, message_model};
ghost use Rattle.trdp_model.specs.Records.{reply_model, record_model};
ghost use Rattle.trdp_outbox.specs.Outboxes.{plain_answer_model, row_content, headed};
ghost use Rattle.trdp_outbox.specs.Outboxes.{replied_under};

use trdp_base::{Place, SessionId, Uri};
use trdp_head::MdKind;
use trdp_model::{Answer, Indication, Message, Protocol, Record, Refusal, Reply, What};
use trdp_pd::{Peek, Reason, ValueState};

/// An answer without bytes.
#[derive(Clone, Copy)]
pub enum PlainAnswer {
    /// A new object has this handle.
    Handle(u32),
    /// The call took effect.
    Done,
    /// The call was refused for this reason.
    Refused(Refusal),
    /// The slot was opened.
    Opened,
}

/// What a slot receives of a message, without its payload.
#[derive(Clone, Copy)]
pub struct Heading {
    /// The address and port that it came from.
    pub src: Place,
    /// Its comId.
    pub com_id: u32,
    /// Its source URI.
    pub source_uri: Uri,
    /// Its destination URI.
    pub dest_uri: Uri,
}

/// What a caller's slot receives of an answer, without its payload.
#[derive(Clone, Copy)]
pub struct ReplyHeading {
    /// The address and port that it came from.
    pub src: Place,
    /// Its message type.
    pub kind: MdKind,
    /// Its status.
    pub status: i32,
    /// Its comId.
    pub com_id: u32,
}

/// What a row says, without its bytes.
#[derive(Clone, Copy)]
pub enum RowForm {
    /// An answer without bytes.
    PlainAnswer(PlainAnswer),
    /// What a subscription shows: the state of its value and the sequence counter that came with
    /// it.
    Value(ValueState, u32),
    /// The subscription of this handle fell silent.
    Silent(u32),
    /// The subscription of this handle has a telegram again.
    Alive(u32),
    /// The listener of this handle heard a notification under that heading.
    Notified(u32, Heading),
    /// The listener of this handle heard a request of that session, under that heading, which the
    /// replier of the second handle must answer.
    Asked(u32, u32, SessionId, Heading),
    /// The listener of this handle heard a request, and there is no room for its replier.
    Overrun(u32),
    /// The caller of this handle received an answer under that heading.
    Replied(u32, ReplyHeading),
    /// The replier of this handle was confirmed with this status.
    Confirmed(u32, i32),
    /// The caller or replier of this handle is over, for this reason.
    Closed(u32, Reason),
    /// A telegram of the protocol, to be sent to that `Place`.
    Send(Protocol, Place),
}

/// A record whose bytes are in the outbox's list.
#[derive(Clone, Copy)]
pub struct Row {
    /// The number of the slot that it is for, from 0.
    pub slot: u16,
    /// What it says, without its bytes.
    pub form: RowForm,
    /// The index of its first byte in the outbox's list.
    pub at: usize,
    /// How many bytes it has; 0 where it has none.
    pub len: usize,
}

/// A plain answer as an answer.
fn answer<'a>(plain: PlainAnswer) -> Answer<'a>
    ensures { answer_model result ≡ plain_answer_model plain }
{
    match plain {
        PlainAnswer::Handle(handle) => Answer::Handle(handle),
        PlainAnswer::Done => Answer::Done,
        PlainAnswer::Refused(refusal) => Answer::Refused(refusal),
        PlainAnswer::Opened => Answer::Opened,
    }
}

/// A message of that heading with these bytes as payload.
fn message<'a>(heading: &Heading, bytes: &'a [u8]) -> Message<'a>
    ensures { message_model result ≡ headed heading.now bytes.now }
{
    Message {
        src: heading.src,
        com_id: heading.com_id,
        source_uri: heading.source_uri,
        dest_uri: heading.dest_uri,
        payload: bytes,
    }
}

/// An answer of that heading with these bytes as payload.
fn reply<'a>(heading: &ReplyHeading, bytes: &'a [u8]) -> Reply<'a>
    ensures { reply_model result ≡ replied_under heading.now bytes.now }
{
    Reply {
        src: heading.src,
        kind: heading.kind,
        status: heading.status,
        com_id: heading.com_id,
        payload: bytes,
    }
}

/// What a row says with these bytes.
fn content<'a>(form: &RowForm, bytes: &'a [u8]) -> What<'a>
    ensures { content_model result ≡ row_content form.now bytes.now }
{
    match form {
        RowForm::PlainAnswer(plain) => What::Answer(answer(*plain)),
        RowForm::Value(state, counter) => What::Answer(Answer::Value(Peek {
            state: *state,
            counter: *counter,
            bytes,
        })),
        RowForm::Silent(handle) => What::Indication(Indication::Silent(*handle)),
        RowForm::Alive(handle) => What::Indication(Indication::Alive(*handle)),
        RowForm::Notified(handle, heading) => {
            What::Indication(Indication::Notified(*handle, message(heading, bytes)))
        }
        RowForm::Asked(listener, replier, session, heading) => What::Indication(
            Indication::Asked {
                listener: *listener,
                replier: *replier,
                session: *session,
                message: message(heading, bytes),
            },
        ),
        RowForm::Overrun(handle) => What::Indication(Indication::Overrun(*handle)),
        RowForm::Replied(handle, heading) => {
            What::Indication(Indication::Replied(*handle, reply(heading, bytes)))
        }
        RowForm::Confirmed(handle, status) => {
            What::Indication(Indication::Confirmed(*handle, *status))
        }
        RowForm::Closed(handle, reason) => What::Indication(Indication::Closed(*handle, *reason)),
        RowForm::Send(protocol, to) => What::Send {
            kind: *protocol,
            to: *to,
            telegram: bytes,
        },
    }
}

/// The record of a row with its bytes.
pub fn record<'a>(row: &Row, bytes: &'a [u8]) -> Record<'a>
    ensures { record_model result
        ≡ record { slot = row.now.slot; content = row_content row.now.form bytes.now } }
{
    Record {
        slot: row.slot,
        what: content(&row.form, bytes),
    }
}

/// Adds a row at the end, within the room.
pub fn push_row(rows: &mut Vec<Row>, slot: u16, form: RowForm, at: usize, len: usize)
    requires { vec_len rows.old < vec_capacity rows.old }
    ensures items { rows.new.items
        ≡ rows.old.items ++ record { slot = slot; form = form; at = at; len = len } ∷ [] }
    ensures len { vec_len rows.new ≡ vec_len rows.old + 1 }
    ensures capacity { vec_capacity rows.old ≤ vec_capacity rows.new }
{
    rows.push_reserved(Row {
        slot,
        form,
        at,
        len,
    });
}
