//! The values that words are the written forms of; None where a word is that of no such value.

ghost use Rattle.std.specs.Prelude.{◌≡◌, ℕ, ℤ, List, ◌<◌, ◌≤◌, ◌^◌, ◌-◌, IfErr, IfSome};
ghost use Rattle.std.specs.Prelude.{All, FitsSigned, OnOk};
ghost use Rattle.std.specs.Int.{w32};
ghost use Rattle.trdp_base.specs.AddressText.{text_of_ip, text_of_place};
ghost use Rattle.trdp_base.specs.HexText.{text_of_hex};
ghost use Rattle.trdp_base.specs.NumberText.{text_of_number};
ghost use Rattle.trdp_base.specs.StatusText.{text_of_status};
ghost use Rattle.trdp_base.specs.QuotaLimits.{quota_limit};
ghost use Rattle.trdp_base.specs.Uris.{IsUri};
ghost use Rattle.trdp_base.specs.declared.place.Ip.{Ip};
ghost use Rattle.trdp_base.specs.declared.place.Place.{Place};
ghost use Rattle.trdp_text.specs.Words.{first_word, other_words, number_of_word, ip_of_word};
ghost use Rattle.trdp_text.specs.Words.{place_of_word, bytes_of_word, choice_of_word};
ghost use Rattle.trdp_text.specs.Words.{any_or_number, uri_of_word, IsBytesFault};
ghost use Rattle.trdp_text.specs.Words.{status_of_word, session_of_word, last_number};
ghost use Rattle.trdp_text.specs.WordsLeft.{words_left};

use crate::fault::LineFault;
use crate::words::Words;
use trdp_base::{
    Ip, Place, QUOTA_LIMIT, SessionId, TextFault, Uri, read_hex_into, read_ip, read_number,
    read_place, read_session, read_status, read_uri,
};

/// The word for a number of any value.
const ANY: &[u8] = b"any";

impl Words<'_, '_> {
    /// The number of 8 bits that the next word is.
    pub(crate) fn next_u8(&mut self) -> Option<u8>
        ensures value { result ≡ number_of_word (2 ^ 8 - 1) (first_word (words_left self.old)) }
        ensures rest { words_left self.new ≡ other_words (words_left self.old) }
    {
        let number = number_of(self.next_word(), u64::from(u8::MAX))?;
        Some(number as u8)
    }

    /// The number of 8 bits that the last word is; 0 where no word is left.
    #[tactic(auto, unfolding(crate::specs::Words::last_number))]
    pub(crate) fn last_u8(mut self) -> Option<u8>
        ensures { result ≡ last_number (2 ^ 8 - 1) (words_left self.entry) }
    {
        if self.are_over() {
            return Some(0);
        }
        let number = number_of(self.next_word(), u64::from(u8::MAX))?;
        Some(number as u8)
    }

    /// The quota that the next word is, at most [`QUOTA_LIMIT`].
    pub(crate) fn next_quota(&mut self) -> Option<u16>
        ensures value { result ≡ number_of_word quota_limit (first_word (words_left self.old)) }
        ensures within { IfSome result (λ quota. quota ≤ quota_limit) }
        ensures rest { words_left self.new ≡ other_words (words_left self.old) }
    {
        let number = number_of(self.next_word(), u64::from(QUOTA_LIMIT))?;
        Some(number as u16)
    }

    /// The number of 16 bits that the next word is.
    pub(crate) fn next_u16(&mut self) -> Option<u16>
        ensures value { result ≡ number_of_word (2 ^ 16 - 1) (first_word (words_left self.old)) }
        ensures rest { words_left self.new ≡ other_words (words_left self.old) }
    {
        let number = number_of(self.next_word(), u64::from(u16::MAX))?;
        Some(number as u16)
    }

    /// The number of 32 bits that the next word is.
    pub(crate) fn next_u32(&mut self) -> Option<u32>
        ensures value { result ≡ number_of_word (2 ^ 32 - 1) (first_word (words_left self.old)) }
        ensures rest { words_left self.new ≡ other_words (words_left self.old) }
    {
        let number = number_of(self.next_word(), u64::from(u32::MAX))?;
        Some(number as u32)
    }

    /// The number of 64 bits that the next word is.
    pub(crate) fn next_u64(&mut self) -> Option<u64>
        ensures value { result ≡ number_of_word (2 ^ 64 - 1) (first_word (words_left self.old)) }
        ensures rest { words_left self.new ≡ other_words (words_left self.old) }
    {
        number_of(self.next_word(), u64::MAX)
    }

    /// `any`, which is None, or the number of 32 bits that the next word is.
    pub(crate) fn next_any_or_u32(&mut self) -> Option<Option<u32>>
        ensures value { result ≡ any_or_number (2 ^ 32 - 1) (first_word (words_left self.old)) }
        ensures rest { words_left self.new ≡ other_words (words_left self.old) }
    {
        let number = any_or_number_of(self.next_word(), u64::from(u32::MAX))?;
        Some(number.map(|number| number as u32))
    }

    /// The address that the next word is.
    pub(crate) fn next_ip(&mut self) -> Option<Ip>
        ensures value { result ≡ ip_of_word (first_word (words_left self.old)) }
        ensures rest { words_left self.new ≡ other_words (words_left self.old) }
    {
        ip_of(self.next_word())
    }

    /// The socket address that the next word is.
    pub(crate) fn next_place(&mut self) -> Option<Place>
        ensures value { result ≡ place_of_word (first_word (words_left self.old)) }
        ensures rest { words_left self.new ≡ other_words (words_left self.old) }
    {
        place_of(self.next_word())
    }

    /// The URI that the next word is.
    pub(crate) fn next_uri(&mut self) -> Option<Uri>
        ensures value { result ≡ uri_of_word (first_word (words_left self.old)) }
        ensures rest { words_left self.new ≡ other_words (words_left self.old) }
    {
        uri_of(self.next_word())
    }

    /// The status that the next word is.
    pub(crate) fn next_status(&mut self) -> Option<i32>
        ensures value { result ≡ status_of_word (first_word (words_left self.old)) }
        ensures rest { words_left self.new ≡ other_words (words_left self.old) }
    {
        status_of(self.next_word())
    }

    /// The session identifier that the next word is.
    pub(crate) fn next_session(&mut self) -> Option<SessionId>
        ensures value { result ≡ session_of_word (first_word (words_left self.old)) }
        ensures rest { words_left self.new ≡ other_words (words_left self.old) }
    {
        session_of(self.next_word())
    }

    /// True where the next word is `first`, false where it is `second`; None where it is neither.
    pub(crate) fn next_choice(&mut self, first: &[u8], second: &[u8]) -> Option<bool>
        ensures value { result
            ≡ choice_of_word first.now second.now (first_word (words_left self.old)) }
        ensures rest { words_left self.new ≡ other_words (words_left self.old) }
    {
        choice_of(self.next_word(), first, second)
    }

    /// Reads the bytes that the next word is into the buffer, in place of what it holds.
    ///
    /// # Errors
    /// `BadWord` where the word isn't the written form of bytes, which is found before any
    /// allocation; `OutOfMemory` where the buffer lacks room for them and can't grow.
    pub(crate) fn next_bytes(&mut self, buffer: &mut Vec<u8>) -> Result<(), LineFault>
        ensures value { OnOk result
            (bytes_of_word (first_word (words_left self.old)) ≡ Some buffer.new.items) }
        ensures fault { IfErr result (λ fault.
            IsBytesFault (bytes_of_word (first_word (words_left self.old))) fault) }
    {
        read_bytes(self.next_word(), buffer)
    }
}

/// The number of at most `max` that a word is.
fn number_of(word: &[u8], max: u64) -> Option<u64>
    ensures value { result ≡ number_of_word max word.now }
    ensures within { IfSome result (λ number. number ≤ max) }
    ensures written { IfSome result (λ number. word.now ≡ text_of_number number) }
    ensures found { (number : ℕ) → number ≤ max
        → word.now ≡ text_of_number number → result ≡ Some number }
{
    match read_number(word, max) {
        Ok(number) => Some(number),
        Err(_) => None,
    }
}

/// `any`, which is None, or the number of at most `max` that a word is.
#[tactic(auto, unfolding(crate::specs::Words::any_or_number))]
fn any_or_number_of(word: &[u8], max: u64) -> Option<Option<u64>>
    ensures value { result ≡ any_or_number max word.now }
    ensures within { IfSome result (λ wanted. IfSome wanted (λ number. number ≤ max)) }
{
    if word == ANY {
        return Some(None);
    }
    let number = number_of(word, max)?;
    Some(Some(number))
}

/// The address that a word is.
fn ip_of(word: &[u8]) -> Option<Ip>
    ensures value { result ≡ ip_of_word word.now }
    ensures written { IfSome result (λ ip. word.now ≡ text_of_ip ip) }
    ensures found { (ip : Ip) → ip.0 < 2 ^ 32 → word.now ≡ text_of_ip ip → result ≡ Some ip }
{
    match read_ip(word) {
        Ok(ip) => Some(ip),
        Err(_) => None,
    }
}

/// The socket address that a word is.
fn place_of(word: &[u8]) -> Option<Place>
    ensures value { result ≡ place_of_word word.now }
    ensures written { IfSome result (λ place. word.now ≡ text_of_place place) }
    ensures found { (place : Place) → place.ip.0 < 2 ^ 32 → place.port < 2 ^ 16
        → word.now ≡ text_of_place place → result ≡ Some place }
{
    match read_place(word) {
        Ok(place) => Some(place),
        Err(_) => None,
    }
}

/// The URI that a word is.
fn uri_of(word: &[u8]) -> Option<Uri>
    ensures value { result ≡ uri_of_word word.now }
    ensures written { IfSome result (λ uri. word.now ≡ text_of_hex uri) }
    ensures found { (uri : List ℕ) → All (λ byte. byte < 256) uri → IsUri uri
        → word.now ≡ text_of_hex uri → result ≡ Some uri }
{
    match read_uri(word) {
        Ok(uri) => Some(uri),
        Err(_) => None,
    }
}

/// The status that a word is.
fn status_of(word: &[u8]) -> Option<i32>
    ensures value { result ≡ status_of_word word.now }
    ensures written { IfSome result (λ status. word.now ≡ text_of_status status) }
    ensures found { (status : ℤ) → FitsSigned w32 status
        → word.now ≡ text_of_status status → result ≡ Some status }
{
    match read_status(word) {
        Ok(status) => Some(status),
        Err(_) => None,
    }
}

/// The session identifier that a word is.
#[tactic(auto, unfolding(crate::specs::Words::session_of_word))]
fn session_of(word: &[u8]) -> Option<SessionId>
    ensures { result ≡ session_of_word word.now }
{
    match read_session(word) {
        Ok(session) => Some(session),
        Err(_) => None,
    }
}

/// True where a word is `first`, false where it is `second`; None where it is neither.
#[tactic(auto, unfolding(crate::specs::Words::choice_of_word))]
fn choice_of(word: &[u8], first: &[u8], second: &[u8]) -> Option<bool>
    ensures { result ≡ choice_of_word first.now second.now word.now }
{
    if word == first {
        Some(true)
    } else if word == second {
        Some(false)
    } else {
        None
    }
}

/// Reads the bytes that a word is into the buffer, in place of what it holds.
///
/// # Errors
/// As [`Words::next_bytes`].
pub(crate) fn read_bytes(word: &[u8], buffer: &mut Vec<u8>) -> Result<(), LineFault>
    ensures value { OnOk result (bytes_of_word word.now ≡ Some buffer.new.items) }
    ensures written { OnOk result (word.now ≡ text_of_hex buffer.new.items) }
    ensures found { (bytes : List ℕ) → All (λ byte. byte < 256) bytes
        → word.now ≡ text_of_hex bytes → OnOk result (buffer.new.items ≡ bytes) }
    ensures fault { IfErr result (λ fault. IsBytesFault (bytes_of_word word.now) fault) }
{
    match read_hex_into(word, buffer) {
        Ok(()) => Ok(()),
        Err(TextFault::BadText) => Err(LineFault::BadWord),
        Err(TextFault::OutOfMemory) => Err(LineFault::OutOfMemory),
    }
}
