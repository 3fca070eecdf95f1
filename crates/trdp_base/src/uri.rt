//! URIs: the texts that say whom a message is from and for.

ghost use Rattle.std.specs.Prelude.{◌≡◌, ◌≢◌, ℕ, ◌*◌, ◌<◌, ◌≤◌, ◌↔◌, List, [], ◌++◌, length};
ghost use Rattle.std.specs.Prelude.{drop, Ok, All, IfOk, IfErr, IsSome, IfSome, IfNone, IsTrue};
ghost use Rattle.trdp_base.specs.HexText.{hex_pairs, text_of_hex, IsInPairs};
ghost use Rattle.trdp_base.specs.Uris.{IsUri, IsUriText, before_zero, uri_field, uri_limit};
ghost use Rattle.trdp_base.specs.declared.text.TextFault.TheVariants.{BadText};

use crate::hex::{fill_from_pairs, is_dash, is_in_pairs};
use crate::text::TextFault;
use std::marker::Model;

/// The most bytes of a URI, which is the length of its field in a header (IEC 61375-2-3).
pub const URI_LIMIT: usize = 32;

/// The source or destination URI of a message: at most [`URI_LIMIT`] bytes, none of them zero
/// (IEC 61375-2-3).
#[derive(Clone, Copy, Debug)]
pub struct Uri {
    /// The bytes, and zeros after them.
    field: [u8; URI_LIMIT],
}

impl Model for Uri {
    ghost use Rattle.std.specs.Prelude.{◌≡◌, ℕ, List};
    ghost use Rattle.trdp_base.specs.Uris.{before_zero, uri_field};

    ghost Value = { List ℕ };

    ghost view = { λ u. before_zero u.field };

    ghost invariant = { λ u. uri_field (before_zero u.field) ≡ u.field };

    ghost inverse = { λ uri. record { field = uri_field uri } };

    ghost inverse_ok = { λ u whole i. record { field = whole i } };
}

impl PartialEq for Uri {
    ghost use Rattle.std.specs.Prelude.{nat_eq};
    ghost use Rattle.std.specs.Cmp.Lexicographic.{pointwise, nat_list_eq_equiv};
    ghost use Rattle.std.specs.Cmp.{partial_equiv_from_equiv};

    ghost eq = { pointwise nat_eq };

    ghost laws = { partial_equiv_from_equiv nat_list_eq_equiv };

    fn eq(&self, other: &Uri) -> bool {
        self.bytes() == other.bytes()
    }
}

impl Eq for Uri {
    ghost use Rattle.std.specs.Cmp.Lexicographic.{nat_list_eq_equiv};

    ghost laws = { nat_list_eq_equiv };
}

impl Uri {
    /// The URI without bytes.
    pub fn empty() -> Self
        ensures { result ≡ [] }
    {
        Uri::from_field(&[])
    }

    /// The URI of these bytes; None for more than [`URI_LIMIT`] and where one is zero.
    pub fn new(bytes: &[u8]) -> Option<Self>
        ensures valid { IsSome result ↔ IsUri bytes.now }
        ensures value { IfSome result (λ uri. uri ≡ bytes.now) }
    {
        if bytes.len() > URI_LIMIT || bytes.contains(&0) {
            return None;
        }
        Some(Uri::from_field(bytes))
    }

    /// The URI in a header's field: the bytes before the first zero byte, all where there is none
    /// (IEC 61375-2-3).
    pub fn from_field(field: &[u8]) -> Self
        requires { length field.now ≤ uri_limit }
        ensures { result ≡ before_zero field.now }
    {
        let mut whole = [0; URI_LIMIT];
        put_front(&mut whole, front(field));
        Uri { field: whole }
    }

    /// Its bytes.
    pub fn bytes(&self) -> &[u8]
        ensures value { result.now ≡ self.now }
        ensures within { length self.now ≤ uri_limit }
        ensures sound { All (λ byte. byte ≢ 0) self.now }
    {
        front(&self.field)
    }

    /// Its field in a header: its bytes, and zeros after them up to [`URI_LIMIT`]
    /// (IEC 61375-2-3).
    pub fn field(&self) -> &[u8]
        ensures value { result.now ≡ uri_field self.now }
        ensures back { before_zero result.now ≡ self.now }
        ensures length { length result.now ≡ uri_limit }
    {
        &self.field
    }

    /// Whether it has no bytes.
    pub fn is_empty(&self) -> bool
        ensures { IsTrue result ↔ (self.now ≡ []) }
    {
        self.field[0] == 0
    }
}

/// Writes bytes at the front of the room.
fn put_front(room: &mut [u8], bytes: &[u8])
    requires { length bytes.now ≤ length room.old }
    ensures { room.new ≡ bytes.now ++ drop (length bytes.now) room.old }
{
    room[..bytes.len()].copy_from_slice(bytes);
}

/// The bytes before the first zero byte.
fn front(field: &[u8]) -> &[u8]
    ensures { result.now ≡ before_zero field.now }
{
    match field.iter().position(|byte| *byte == 0) {
        Some(end) => &field[..end],
        None => field,
    }
}

/// Reads a URI: lower-case hexadecimal digits in pairs, one to [`URI_LIMIT`] pairs and none for a
/// zero byte, or `-` for no bytes (profile).
///
/// # Errors
/// [`TextFault::BadText`] at any other text.
pub fn read_uri(text: &[u8]) -> Result<Uri, TextFault>
    ensures value { IfOk result (λ uri. text.now ≡ text_of_hex uri) }
    ensures good { IfOk result (λ uri. IsUri uri × All (λ byte. byte < 256) uri) }
    ensures found { (uri : List ℕ) → IsUri uri → All (λ byte. byte < 256) uri
        → text.now ≡ text_of_hex uri → result ≡ Ok uri }
    ensures bad { IfErr result (λ fault. (fault ≡ BadText) × ¬ IsUriText text.now) }
{
    if is_dash(text) {
        return Ok(Uri::empty());
    }
    if text.len() > 2 * URI_LIMIT || !is_in_pairs(text) {
        return Err(TextFault::BadText);
    }
    uri_of_pairs(text).ok_or(TextFault::BadText)
}

/// The URI with these pairs of digits.
fn uri_of_pairs(text: &[u8]) -> Option<Uri>
    requires pairs { IsInPairs text.now }
    requires within { length text.now ≤ 2 * uri_limit }
    ensures value { IfSome result (λ uri. hex_pairs uri ≡ text.now) }
    ensures bytes { IfSome result (All (λ byte. byte < 256)) }
    ensures good { IfSome result IsUri }
    ensures none { IfNone result ((uri : List ℕ) → IsUri uri → All (λ byte. byte < 256) uri
        → hex_pairs uri ≢ text.now) }
{
    let mut room = [0; URI_LIMIT];
    let (bytes, _) = room.split_at_mut(text.len() / 2);
    fill_from_pairs(text, bytes);
    Uri::new(bytes)
}
