//! The forms that a line can have: each has a word of its own, and a reader.

ghost use Rattle.trdp_text.specs.Forms.{forms};
ghost use Rattle.trdp_text.specs.FormWords.{form_of_call};
ghost use Rattle.trdp_text.specs.Lines.{say_among, words_say, ReadsEvent};
ghost use Rattle.trdp_text.specs.PortLines.{operator_forms};
ghost use Rattle.trdp_text.specs.Words.{third_word};
ghost use Rattle.trdp_text.specs.WordsLeft.{words_left};
ghost use Rattle.std.specs.Prelude.{◌≡◌};
ghost use Rattle.std.specs.Str.{bytes_eq};

use crate::fault::LineFault;
use crate::read::{
    read_add_slot, read_close_pull, read_datagram, read_get, read_moment, read_open_pull,
    read_publish, read_pull, read_put, read_reset, read_role, read_subscribe, read_topology,
    read_unpublish, read_unsubscribe,
};
use crate::read_message::{read_listen, read_notify, read_unlisten};
use crate::read_session::{
    read_abort, read_confirm, read_query, read_reply, read_reply_error, read_request,
};
use crate::words::{CALL, Words};
use trdp_model::{Event, Protocol};

/// Reads the words of a line. The first word selects the form; where it is `call`, the third does.
///
/// # Errors
/// `Unknown` where no form is selected; else as the reader of the form.
#[tactic(auto, unfolding(crate::specs::Lines::say_among, crate::specs::Forms::forms, crate::specs::PortLines::operator_forms))]
pub(crate) fn read_words<'b>(
    buffer: &'b mut Vec<u8>,
    words: Words<'_, '_>,
) -> Result<Event<'b>, LineFault>
    ensures { ReadsEvent (say_among forms (words_left words.entry)) result }
{
    match words.first() {
        first if is_word(first, CALL) => read_call(buffer, words),
        first if is_word(first, b"moment") => read_moment(words),
        first if is_word(first, b"pd") => read_datagram(Protocol::Pd, buffer, words),
        first if is_word(first, b"md") => read_datagram(Protocol::Md, buffer, words),
        _ => read_operators(words),
    }
}

/// Reads the words of a line that the operator may send.
///
/// # Errors
/// As [`read_words`].
#[tactic(auto, unfolding(crate::specs::Lines::say_among, crate::specs::PortLines::operator_forms))]
pub(crate) fn read_operators<'b>(words: Words<'_, '_>) -> Result<Event<'b>, LineFault>
    ensures { ReadsEvent (say_among operator_forms (words_left words.entry)) result }
{
    match words.first() {
        first if is_word(first, b"topology") => read_topology(words),
        first if is_word(first, b"role") => read_role(words),
        first if is_word(first, b"addslot") => read_add_slot(words),
        _ => Err(LineFault::Unknown),
    }
}

/// Reads the words of a call, whose first is `call`.
///
/// # Errors
/// As [`read_words`].
#[tactic(auto, unfolding(crate::specs::FormWords::form_of_call, crate::specs::Lines::words_say))]
fn read_call<'b>(buffer: &'b mut Vec<u8>, words: Words<'_, '_>) -> Result<Event<'b>, LineFault>
    ensures { ReadsEvent
        (words_say (form_of_call (third_word (words_left words.entry))) (words_left words.entry))
        result }
{
    match words.third() {
        own if is_word(own, b"publish") => read_publish(words),
        own if is_word(own, b"put") => read_put(buffer, words),
        own if is_word(own, b"unpublish") => read_unpublish(words),
        own if is_word(own, b"subscribe") => read_subscribe(words),
        own if is_word(own, b"get") => read_get(words),
        own if is_word(own, b"unsubscribe") => read_unsubscribe(words),
        own if is_word(own, b"openpull") => read_open_pull(words),
        own if is_word(own, b"pull") => read_pull(words),
        own if is_word(own, b"closepull") => read_close_pull(words),
        own if is_word(own, b"listen") => read_listen(words),
        own if is_word(own, b"unlisten") => read_unlisten(words),
        own if is_word(own, b"notify") => read_notify(buffer, words),
        own if is_word(own, b"request") => read_request(buffer, words),
        own if is_word(own, b"reply") => read_reply(buffer, words),
        own if is_word(own, b"query") => read_query(buffer, words),
        own if is_word(own, b"replyerror") => read_reply_error(words),
        own if is_word(own, b"confirm") => read_confirm(words),
        own if is_word(own, b"abort") => read_abort(words),
        own if is_word(own, b"reset") => read_reset(words),
        _ => Err(LineFault::Unknown),
    }
}

/// Whether a word is this one.
fn is_word(word: &[u8], other: &[u8]) -> bool
    ensures { result ≡ bytes_eq word.now other.now }
{
    word == other
}
