//! The lines of a node's records and faults.

ghost use Rattle.std.specs.Prelude.{◌≡◌, ◌≤◌, ◌+◌, ◌*◌, ◌++◌, length, OnOk, OnErr};
ghost use Rattle.std.specs.Prelude.{codes, vec_len, vec_capacity};
ghost use Rattle.trdp_pd.specs.Peeks.{peek_model};
ghost use Rattle.trdp_model.specs.Records.{record_model, content_model, answer_model};
ghost use Rattle.trdp_model.specs.Records.{indication_model};
ghost use Rattle.trdp_text.specs.declared.print.TheConstants.{CONTENT_ROOM};
ghost use Rattle.trdp_text.specs.RecordText.{text_of_peek, text_of_answer, text_of_indication};
ghost use Rattle.trdp_text.specs.RecordText.{words_of_send, text_of_send, text_of_content};
ghost use Rattle.trdp_text.specs.RecordText.{text_of_record, text_of_fault};
ghost use Rattle.trdp_text.specs.RecordText.{bytes_of, answer_bytes, indication_bytes};

use crate::names::{fault_name, reason_name, refusal_name, state_name};
use crate::print_message::{ASKED_ROOM, put_asked, put_message, put_reply};
use crate::print_words::{
    put_character, put_handle, put_hex, put_number, put_place, put_status, put_word,
};
use std::alloc::AllocError;
use trdp_base::{NUMBER_LENGTH, Place};
use trdp_model::{Answer, Indication, NodeFault, Protocol, Record, What};
use trdp_pd::Peek;

/// Room in bytes for what a record says, without the digits of its bytes: the longest is a request
/// that came in.
const CONTENT_ROOM: usize = ASKED_ROOM;

/// Room in bytes for a whole line, without the digits of its bytes.
const LINE_ROOM: usize = NUMBER_LENGTH + CONTENT_ROOM + 1;

/// Appends a record's line: the slot's number, a space, what the record says and a newline
/// (profile).
///
/// Room for the whole line is reserved first.
///
/// # Errors
/// `AllocError` where that fails; the list's items are as before.
#[tactic(auto, unfolding(crate::specs::RecordText::text_of_record))]
pub fn print_record(text: &mut Vec<u8>, record: &Record<'_>) -> Result<(), AllocError>
    ensures ok { OnOk result (text.new.items
        ≡ text.old.items ++ text_of_record (record_model «record».now)) }
    ensures err { OnErr result (text.new.items ≡ text.old.items) }
{
    let digits = 2 * bytes_in(&record.what).len();
    text.reserve(digits.saturating_add(LINE_ROOM))?;
    put_number(text, u64::from(record.slot));
    put_content(text, &record.what);
    put_character(text, b'\n');
    Ok(())
}

/// Appends the line of an event that the node rejected: `fault` and the fault's name (profile).
///
/// # Errors
/// `AllocError` where there is no room for it; the list's items are as before.
#[tactic(auto, unfolding(crate::specs::RecordText::text_of_fault))]
pub fn print_fault(text: &mut Vec<u8>, fault: NodeFault) -> Result<(), AllocError>
    ensures ok { OnOk result (text.new.items ≡ text.old.items ++ text_of_fault fault) }
    ensures err { OnErr result (text.new.items ≡ text.old.items) }
{
    text.reserve(LINE_ROOM)?;
    put_word(text, b"fault ");
    put_word(text, fault_name(fault));
    put_character(text, b'\n');
    Ok(())
}

/// The bytes that a record shows at its end in hexadecimal: a value, a payload or a telegram.
pub fn bytes_in<'a>(what: &What<'a>) -> &'a [u8]
    ensures { result.now ≡ bytes_of (content_model what.now) }
{
    match what {
        What::Answer(Answer::Value(peek)) => peek.bytes,
        What::Indication(indication) => payload_in(indication),
        What::Answer(_) => &[],
        What::Send { telegram, .. } => telegram,
    }
}

/// The payload that an indication shows; none of no message.
fn payload_in<'a>(indication: &Indication<'a>) -> &'a [u8]
    ensures { result.now ≡ indication_bytes (indication_model indication.now) }
{
    match indication {
        Indication::Notified(_, message) | Indication::Asked { message, .. } => message.payload,
        Indication::Replied(_, reply) => reply.payload,
        _ => &[],
    }
}

/// Appends what a record says, with a space before it, to a list that has room for it.
#[tactic(auto, unfolding(crate::specs::RecordText::text_of_content))]
fn put_content(text: &mut Vec<u8>, what: &What<'_>)
    requires room { vec_len text.old
        + (CONTENT_ROOM + 2 * length (bytes_of (content_model what.now)))
        ≤ vec_capacity text.old }
    ensures items { text.new.items ≡ text.old.items ++ text_of_content (content_model what.now) }
    ensures len { vec_len text.new
        ≤ vec_len text.old + (CONTENT_ROOM + 2 * length (bytes_of (content_model what.now))) }
    ensures capacity { vec_capacity text.old ≤ vec_capacity text.new }
{
    match what {
        What::Answer(answer) => put_answer(text, *answer),
        What::Indication(indication) => put_indication(text, indication),
        What::Send { kind, to, telegram } => put_send(text, *kind, *to, telegram),
    }
}

/// Appends the result of a call, with a space before it, to a list that has room for it.
#[tactic(auto, unfolding(crate::specs::RecordText::text_of_answer))]
fn put_answer(text: &mut Vec<u8>, answer: Answer<'_>)
    requires room { vec_len text.old
        + (CONTENT_ROOM + 2 * length (answer_bytes (answer_model answer)))
        ≤ vec_capacity text.old }
    ensures items { text.new.items ≡ text.old.items ++ text_of_answer (answer_model answer.entry) }
    ensures len { vec_len text.new
        ≤ vec_len text.old
        + (CONTENT_ROOM + 2 * length (answer_bytes (answer_model answer.entry))) }
    ensures capacity { vec_capacity text.old ≤ vec_capacity text.new }
{
    match answer {
        Answer::Handle(handle) => put_handle(text, b" handle ", handle),
        Answer::Done => put_word(text, b" done"),
        Answer::Value(peek) => put_peek(text, peek),
        Answer::Refused(refusal) => {
            put_word(text, b" refused ");
            put_word(text, refusal_name(refusal));
        }
        Answer::Opened => put_word(text, b" opened"),
    }
}

/// Appends what a subscription shows, with a space before it, to a list that has room for it.
#[tactic(auto, unfolding(crate::specs::RecordText::text_of_peek))]
fn put_peek(text: &mut Vec<u8>, peek: Peek<'_>)
    requires room { vec_len text.old + (CONTENT_ROOM + 2 * length peek.bytes.now)
        ≤ vec_capacity text.old }
    ensures items { text.new.items ≡ text.old.items ++ text_of_peek (peek_model peek.entry) }
    ensures len { vec_len text.new
        ≤ vec_len text.old + (CONTENT_ROOM + 2 * length peek.entry.bytes.now) }
    ensures capacity { vec_capacity text.old ≤ vec_capacity text.new }
{
    put_word(text, b" value ");
    put_word(text, state_name(peek.state));
    put_character(text, b' ');
    put_number(text, u64::from(peek.counter));
    put_character(text, b' ');
    put_hex(text, peek.bytes);
}

/// Appends what a node reports of its own accord, with a space before it, to a list that has room
/// for it.
#[tactic(auto, unfolding(crate::specs::RecordText::text_of_indication))]
fn put_indication(text: &mut Vec<u8>, indication: &Indication<'_>)
    requires room { vec_len text.old
        + (CONTENT_ROOM + 2 * length (indication_bytes (indication_model indication.now)))
        ≤ vec_capacity text.old }
    ensures items { text.new.items ≡ text.old.items
        ++ text_of_indication (indication_model indication.now) }
    ensures len { vec_len text.new
        ≤ vec_len text.old
        + (CONTENT_ROOM + 2 * length (indication_bytes (indication_model indication.now))) }
    ensures capacity { vec_capacity text.old ≤ vec_capacity text.new }
{
    match indication {
        Indication::Silent(handle) => put_handle(text, b" silent ", *handle),
        Indication::Alive(handle) => put_handle(text, b" alive ", *handle),
        Indication::Notified(handle, message) => {
            put_handle(text, b" notified ", *handle);
            put_message(text, message);
        }
        Indication::Asked {
            listener,
            replier,
            session,
            message,
        } => put_asked(text, *listener, *replier, *session, message),
        Indication::Overrun(handle) => put_handle(text, b" overrun ", *handle),
        Indication::Replied(handle, reply) => {
            put_handle(text, b" replied ", *handle);
            put_reply(text, reply);
        }
        Indication::Confirmed(handle, status) => {
            put_handle(text, b" confirmed ", *handle);
            put_character(text, b' ');
            put_status(text, *status);
        }
        Indication::Closed(handle, reason) => {
            put_handle(text, b" closed ", *handle);
            put_character(text, b' ');
            put_word(text, reason_name(*reason));
        }
    }
}

/// Appends a telegram to be sent, with a space before it, to a list that has room for it.
#[tactic(auto, unfolding(crate::specs::RecordText::text_of_send))]
fn put_send(text: &mut Vec<u8>, protocol: Protocol, to: Place, telegram: &[u8])
    requires room { vec_len text.old + (CONTENT_ROOM + 2 * length telegram.now)
        ≤ vec_capacity text.old }
    ensures items { text.new.items ≡ text.old.items ++ text_of_send protocol to telegram.now }
    ensures len { vec_len text.new
        ≤ vec_len text.old + (CONTENT_ROOM + 2 * length telegram.now) }
    ensures capacity { vec_capacity text.old ≤ vec_capacity text.new }
{
    put_word(text, send_words(protocol));
    put_place(text, to);
    put_character(text, b' ');
    put_hex(text, telegram);
}

/// The words before a telegram's destination.
fn send_words(protocol: Protocol) -> &'static [u8]
    ensures words { result.now ≡ words_of_send protocol }
    ensures length { length result.now ≡ 9 }
{
    match protocol {
        Protocol::Pd => b" send pd ",
        Protocol::Md => b" send md ",
    }
}
