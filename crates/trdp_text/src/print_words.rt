//! The written forms of the values in a line, each appended to a list that has room for it.

ghost use Rattle.std.specs.Prelude.{◌≡◌, ◌<◌, ◌≤◌, ◌+◌, ◌*◌, ◌++◌, ◌∷◌, [], length};
ghost use Rattle.std.specs.Prelude.{vec_len, vec_capacity};
ghost use Rattle.trdp_base.specs.AddressText.{text_of_place};
ghost use Rattle.trdp_base.specs.HexText.{text_of_hex};
ghost use Rattle.trdp_base.specs.NumberText.{text_of_number};
ghost use Rattle.trdp_base.specs.SessionText.{text_of_session};
ghost use Rattle.trdp_base.specs.StatusText.{text_of_status};
ghost use Rattle.trdp_base.specs.declared.address.TheConstants.{PLACE_LENGTH};
ghost use Rattle.trdp_base.specs.declared.number.TheConstants.{NUMBER_LENGTH};
ghost use Rattle.trdp_base.specs.declared.session.TheConstants.{SESSION_LENGTH};
ghost use Rattle.trdp_base.specs.declared.status.TheConstants.{STATUS_LENGTH};
ghost use Rattle.trdp_text.specs.declared.print_words.TheConstants.{URI_ROOM};

use trdp_base::{
    NUMBER_LENGTH, PLACE_LENGTH, Place, SESSION_LENGTH, STATUS_LENGTH, SessionId, URI_LIMIT, Uri,
    push_hex, push_number, push_place, push_session, push_status,
};

/// Room in bytes for the written form of a URI.
pub(crate) const URI_ROOM: usize = 1 + 2 * URI_LIMIT;

/// Appends bytes to a list that has room for them.
pub(crate) fn put_word(text: &mut Vec<u8>, word: &[u8])
    requires room { vec_len text.old + length word.now ≤ vec_capacity text.old }
    ensures items { text.new.items ≡ text.old.items ++ word.now }
    ensures len { vec_len text.new ≡ vec_len text.old + length word.now }
    ensures capacity { vec_capacity text.old ≤ vec_capacity text.new }
{
    text.extend_from_slice(word).unwrap();
}

/// Appends one character to a list that has room for it.
pub(crate) fn put_character(text: &mut Vec<u8>, character: u8)
    requires room { vec_len text.old < vec_capacity text.old }
    ensures items { text.new.items ≡ text.old.items ++ character ∷ [] }
    ensures len { vec_len text.new ≡ vec_len text.old + 1 }
    ensures capacity { vec_capacity text.old ≤ vec_capacity text.new }
{
    text.push_reserved(character);
}

/// Appends the written form of a number to a list that has room for the longest.
pub(crate) fn put_number(text: &mut Vec<u8>, number: u64)
    requires room { vec_len text.old + NUMBER_LENGTH ≤ vec_capacity text.old }
    ensures items { text.new.items ≡ text.old.items ++ text_of_number number }
    ensures len { vec_len text.new ≤ vec_len text.old + NUMBER_LENGTH }
    ensures capacity { vec_capacity text.old ≤ vec_capacity text.new }
{
    push_number(text, number).unwrap();
}

/// Appends words and the written form of a handle to a list that has room for the longest.
pub(crate) fn put_handle(text: &mut Vec<u8>, words: &[u8], handle: u32)
    requires room { vec_len text.old + (length words.now + NUMBER_LENGTH) ≤ vec_capacity text.old }
    ensures items { text.new.items ≡ text.old.items ++ words.now ++ text_of_number handle }
    ensures len { vec_len text.new ≤ vec_len text.old + (length words.now + NUMBER_LENGTH) }
    ensures capacity { vec_capacity text.old ≤ vec_capacity text.new }
{
    put_word(text, words);
    put_number(text, u64::from(handle));
}

/// Appends the written form of a socket address to a list that has room for the longest.
pub(crate) fn put_place(text: &mut Vec<u8>, place: Place)
    requires room { vec_len text.old + PLACE_LENGTH ≤ vec_capacity text.old }
    ensures items { text.new.items ≡ text.old.items ++ text_of_place place }
    ensures len { vec_len text.new ≤ vec_len text.old + PLACE_LENGTH }
    ensures capacity { vec_capacity text.old ≤ vec_capacity text.new }
{
    push_place(text, place).unwrap();
}

/// Appends the written form of a session identifier to a list that has room for it.
pub(crate) fn put_session(text: &mut Vec<u8>, session: SessionId)
    requires room { vec_len text.old + SESSION_LENGTH ≤ vec_capacity text.old }
    ensures items { text.new.items ≡ text.old.items ++ text_of_session session.0 }
    ensures len { vec_len text.new ≤ vec_len text.old + SESSION_LENGTH }
    ensures capacity { vec_capacity text.old ≤ vec_capacity text.new }
{
    push_session(text, session).unwrap();
}

/// Appends the written form of a status to a list that has room for the longest.
pub(crate) fn put_status(text: &mut Vec<u8>, status: i32)
    requires room { vec_len text.old + STATUS_LENGTH ≤ vec_capacity text.old }
    ensures items { text.new.items ≡ text.old.items ++ text_of_status status }
    ensures len { vec_len text.new ≤ vec_len text.old + STATUS_LENGTH }
    ensures capacity { vec_capacity text.old ≤ vec_capacity text.new }
{
    push_status(text, status).unwrap();
}

/// Appends the written form of a URI to a list that has room for the longest.
pub(crate) fn put_uri(text: &mut Vec<u8>, uri: Uri)
    requires room { vec_len text.old + URI_ROOM ≤ vec_capacity text.old }
    ensures items { text.new.items ≡ text.old.items ++ text_of_hex uri }
    ensures len { vec_len text.new ≤ vec_len text.old + URI_ROOM }
    ensures capacity { vec_capacity text.old ≤ vec_capacity text.new }
{
    put_hex(text, uri.bytes());
}

/// Appends the written form of bytes to a list that has room for it.
#[tactic(auto, using(crate::proofs::TextLemmas::TextLengths::hex_length))]
pub(crate) fn put_hex(text: &mut Vec<u8>, bytes: &[u8])
    requires room { vec_len text.old + (1 + 2 * length bytes.now) ≤ vec_capacity text.old }
    ensures items { text.new.items ≡ text.old.items ++ text_of_hex bytes.now }
    ensures len { vec_len text.new ≤ vec_len text.old + (1 + 2 * length bytes.now) }
    ensures capacity { vec_capacity text.old ≤ vec_capacity text.new }
{
    push_hex(text, bytes).unwrap();
}
