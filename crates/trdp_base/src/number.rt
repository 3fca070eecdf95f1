//! Numbers as text: decimal digits without leading zeros.

ghost use Rattle.std.specs.Prelude.{◌≡◌, ℕ, ◌+◌, ◌-◌, ◌*◌, ◌%◌, ◌^◌, ◌<◌, ◌≤◌};
ghost use Rattle.std.specs.Prelude.{◌↔◌, ◌++◌, IfNone};
ghost use Rattle.std.specs.Prelude.{length, drop, IfOk, IfErr, OnOk, OnErr};
ghost use Rattle.std.specs.Prelude.{IsOk, IfSome, IsTrue, vec_len, vec_capacity};
ghost use Rattle.trdp_base.specs.NumberText.{text_of_number, number_length, HasNeedlessZero};
ghost use Rattle.trdp_base.specs.declared.text.TextFault.TheVariants.{BadText};

use crate::text::TextFault;
use std::alloc::AllocError;

/// The length in bytes of the longest written number, that of 2^64 - 1.
pub const NUMBER_LENGTH: usize = 20;

/// Reads a decimal number of 0 to `max`, without sign and without leading zeros (profile).
///
/// # Errors
/// [`TextFault::BadText`] at any other text.
pub fn read_number(text: &[u8], max: u64) -> Result<u64, TextFault>
    ensures value { IfOk result (λ number. (text.now ≡ text_of_number number) × (number ≤ max)) }
    ensures found { (number : ℕ) → number ≤ max
        → text.now ≡ text_of_number number → result ≡ Ok number }
    ensures fault { IfErr result (λ fault. fault ≡ BadText) }
{
    match number_of(text) {
        Some(number) if number <= max => Ok(number),
        _ => Err(TextFault::BadText),
    }
}

/// The number of 64 bits with this written form.
fn number_of(text: &[u8]) -> Option<u64>
    ensures value { IfSome result (λ number. text.now ≡ text_of_number number) }
    ensures found { (number : ℕ) → number < 2 ^ 64
        → text.now ≡ text_of_number number → result ≡ Some number }
{
    if text.is_empty() || has_needless_zero(text) {
        return None;
    }
    let mut number = 0;
    for character in text {
        number = with_digit(number, *character)?;
    }
    Some(number)
}

/// Whether a text begins with a zero and has more.
fn has_needless_zero(text: &[u8]) -> bool
    ensures { IsTrue result ↔ HasNeedlessZero text.now }
{
    matches!(text, [b'0', _, ..])
}

/// The number with one digit more; None where the character is no digit, or the number too large.
fn with_digit(number: u64, character: u8) -> Option<u64>
    ensures digit { IfSome result (λ _. (48 ≤ character) × (character ≤ 57)) }
    ensures value { IfSome result (λ more. more ≡ number * 10 + (character - 48)) }
    ensures small { IfSome result (λ more. more < 2 ^ 64) }
    ensures none { IfNone result (48 ≤ character → character ≤ 57
        → 2 ^ 64 ≤ number * 10 + (character - 48)) }
{
    if !(b'0'..=b'9').contains(&character) {
        return None;
    }
    number
        .checked_mul(10)?
        .checked_add(u64::from(character - b'0'))
}

/// Appends the written form of a number (profile).
///
/// It needs no memory where there is room for [`NUMBER_LENGTH`] more bytes.
///
/// # Errors
/// [`AllocError`] where there is no memory; the list's items stay as they were.
pub fn push_number(out: &mut Vec<u8>, number: u64) -> Result<(), AllocError>
    ensures ok { OnOk result (out.new.items ≡ out.old.items ++ text_of_number number) }
    ensures err { OnErr result (out.new.items ≡ out.old.items) }
    ensures length { vec_len out.new ≤ vec_len out.old + number_length }
    ensures succeeds { vec_len out.old + number_length ≤ vec_capacity out.old → IsOk result }
    ensures capacity { vec_capacity out.old ≤ vec_capacity out.new }
{
    out.reserve(NUMBER_LENGTH)?;
    put_number(out, number);
    Ok(())
}

/// Appends the written form of a number to a list that has room for it.
pub(crate) fn put_number(out: &mut Vec<u8>, number: u64)
    requires room { vec_len out.old + length (text_of_number number) ≤ vec_capacity out.old }
    ensures items { out.new.items ≡ out.old.items ++ text_of_number number }
    ensures len { vec_len out.new ≡ vec_len out.old + length (text_of_number number) }
    ensures capacity { vec_capacity out.old ≤ vec_capacity out.new }
{
    if number < 10 {
        out.push_reserved(digit_of(number));
        return;
    }
    put_number(out, number / 10);
    out.push_reserved(digit_of(number));
}

/// The character of a number's last digit.
fn digit_of(number: u64) -> u8
    ensures { result ≡ 48 + number % 10 }
{
    b'0' + (number % 10) as u8
}
