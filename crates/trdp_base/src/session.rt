//! Identifiers of sessions, and their texts.

ghost use Rattle.std.specs.Prelude.{◌≡◌, ◌+◌, ◌≤◌, ◌++◌, length, Some, None, IfOk};
ghost use Rattle.std.specs.Prelude.{IfErr, OnOk, OnErr, IsOk, vec_len, vec_capacity};
ghost use Rattle.trdp_base.specs.SessionText.{session_of, text_of_session, session_length};
ghost use Rattle.trdp_base.specs.declared.text.TextFault.TheVariants.{BadText};

use crate::text::TextFault;
use std::alloc::AllocError;
use uuid::Uuid;

/// The length in bytes of a written session identifier.
pub const SESSION_LENGTH: usize = 36;

/// The identifier of a session: of a request, its replies and its confirmation (IEC 61375-2-3).
#[derive(Clone, Copy, Debug, PartialEq, Eq)]
pub struct SessionId(
    /// The sixteen bytes as a number in host order; a header has its most significant byte first.
    pub u128,
);

/// Reads a session identifier: 32 hexadecimal digits, also hyphenated, hyphenated in braces or
/// after `urn:uuid:`, in lower or upper case (RFC 9562).
///
/// # Errors
/// [`TextFault::BadText`] at any other text.
#[tactic(auto, unfolding(crate::specs::SessionText::session_of))]
pub fn read_session(text: &[u8]) -> Result<SessionId, TextFault>
    ensures value { IfOk result (λ id. session_of text.now ≡ Some id.0) }
    ensures bad { IfErr result (λ fault. (fault ≡ BadText) × (session_of text.now ≡ None)) }
{
    match Uuid::try_parse_ascii(text) {
        Ok(id) => Ok(SessionId(id.as_u128())),
        Err(_) => Err(TextFault::BadText),
    }
}

/// Appends the written form of a session identifier, hyphenated and in lower case (RFC 9562).
///
/// It needs no memory where there is room for [`SESSION_LENGTH`] more bytes.
///
/// # Errors
/// [`AllocError`] where there is no memory; the list's items stay as they were.
pub fn push_session(out: &mut Vec<u8>, id: SessionId) -> Result<(), AllocError>
    ensures ok { OnOk result (out.new.items ≡ out.old.items ++ text_of_session id.0) }
    ensures err { OnErr result (out.new.items ≡ out.old.items) }
    ensures length { vec_len out.new ≤ vec_len out.old + session_length }
    ensures succeeds { vec_len out.old + session_length ≤ vec_capacity out.old → IsOk result }
    ensures capacity { vec_capacity out.old ≤ vec_capacity out.new }
    ensures back { session_of (text_of_session id.0) ≡ Some id.0 }
{
    let mut buffer = [0; SESSION_LENGTH];
    let text = put_text(id.0, &mut buffer);
    out.extend_from_slice(text.as_bytes())
}

/// Writes a session identifier into the buffer.
#[tactic(auto, unfolding(crate::specs::SessionText::text_of_session))]
fn put_text(id: u128, buffer: &mut [u8; SESSION_LENGTH]) -> &str
    ensures text { result.now ≡ text_of_session id }
    ensures length { length result.now ≡ session_length }
    ensures back { session_of result.now ≡ Some id }
{
    Uuid::from_u128(id).hyphenated().encode_lower(buffer)
}
