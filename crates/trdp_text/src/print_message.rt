//! The lines of messages that came in: of notifications, of requests and of their answers.

ghost use Rattle.std.specs.Prelude.{◌≡◌, ◌≤◌, ◌+◌, ◌*◌, ◌++◌, length, codes};
ghost use Rattle.std.specs.Prelude.{vec_len, vec_capacity};
ghost use Rattle.trdp_model.specs.Records.{AskedIs, message_model, reply_model};
ghost use Rattle.trdp_text.specs.RecordText.{text_of_indication, text_of_message, text_of_reply};
ghost use Rattle.trdp_text.specs.declared.print_message.TheConstants.{ASKED_ROOM, MESSAGE_ROOM};
ghost use Rattle.trdp_text.specs.declared.print_message.TheConstants.{REPLY_ROOM};

use crate::names::kind_letters;
use crate::print_words::{
    URI_ROOM, put_character, put_handle, put_hex, put_number, put_place, put_session, put_status,
    put_uri, put_word,
};
use trdp_base::{NUMBER_LENGTH, PLACE_LENGTH, SESSION_LENGTH, STATUS_LENGTH, SessionId};
use trdp_model::{Message, Reply};

/// Room in bytes for a message, without the digits of its payload.
const MESSAGE_ROOM: usize = PLACE_LENGTH + NUMBER_LENGTH + 2 * URI_ROOM + 6;

/// Room in bytes for an answer to a request, without the digits of its payload.
const REPLY_ROOM: usize = PLACE_LENGTH + STATUS_LENGTH + NUMBER_LENGTH + 8;

/// Room in bytes for a request that a listener heard, without the digits of its payload.
pub(crate) const ASKED_ROOM: usize = 9 + 2 * NUMBER_LENGTH + SESSION_LENGTH + MESSAGE_ROOM;

/// Appends a message that came in, with a space before it, to a list that has room for it.
#[tactic(auto, unfolding(crate::specs::RecordText::text_of_message))]
pub(crate) fn put_message(text: &mut Vec<u8>, message: &Message<'_>)
    requires room { vec_len text.old + (MESSAGE_ROOM + 2 * length message.now.payload.now)
        ≤ vec_capacity text.old }
    ensures items { text.new.items ≡ text.old.items
        ++ text_of_message (message_model message.now) }
    ensures len { vec_len text.new
        ≤ vec_len text.old + (MESSAGE_ROOM + 2 * length message.now.payload.now) }
    ensures capacity { vec_capacity text.old ≤ vec_capacity text.new }
{
    put_character(text, b' ');
    put_place(text, message.src);
    put_character(text, b' ');
    put_number(text, u64::from(message.com_id));
    put_character(text, b' ');
    put_uri(text, message.source_uri);
    put_character(text, b' ');
    put_uri(text, message.dest_uri);
    put_character(text, b' ');
    put_hex(text, message.payload);
}

/// Appends a request that a listener heard and that the replier is to answer, with a space before
/// it, to a list that has room for it.
#[tactic(auto, unfolding(crate::specs::RecordText::text_of_indication))]
pub(crate) fn put_asked(
    text: &mut Vec<u8>,
    listener: u32,
    replier: u32,
    session: SessionId,
    message: &Message<'_>,
)
    requires room { vec_len text.old + (ASKED_ROOM + 2 * length message.now.payload.now)
        ≤ vec_capacity text.old }
    ensures items { text.new.items ≡ text.old.items
        ++ text_of_indication (AskedIs listener replier session (message_model message.now)) }
    ensures len { vec_len text.new
        ≤ vec_len text.old + (ASKED_ROOM + 2 * length message.now.payload.now) }
    ensures capacity { vec_capacity text.old ≤ vec_capacity text.new }
{
    put_handle(text, b" asked ", listener);
    put_handle(text, b" ", replier);
    put_character(text, b' ');
    put_session(text, session);
    put_message(text, message);
}

/// Appends an answer to a request that came in, with a space before it, to a list that has room for
/// it.
#[tactic(auto, unfolding(crate::specs::RecordText::text_of_reply))]
pub(crate) fn put_reply(text: &mut Vec<u8>, reply: &Reply<'_>)
    requires room { vec_len text.old + (REPLY_ROOM + 2 * length reply.now.payload.now)
        ≤ vec_capacity text.old }
    ensures items { text.new.items ≡ text.old.items ++ text_of_reply (reply_model reply.now) }
    ensures len { vec_len text.new
        ≤ vec_len text.old + (REPLY_ROOM + 2 * length reply.now.payload.now) }
    ensures capacity { vec_capacity text.old ≤ vec_capacity text.new }
{
    put_character(text, b' ');
    put_place(text, reply.src);
    put_character(text, b' ');
    put_word(text, kind_letters(reply.kind));
    put_character(text, b' ');
    put_status(text, reply.status);
    put_character(text, b' ');
    put_number(text, u64::from(reply.com_id));
    put_character(text, b' ');
    put_hex(text, reply.payload);
}
