//! Bytes as text: two lower-case hexadecimal digits for each, and `-` for none.

ghost use Rattle.std.specs.Prelude.{◌≡◌, ℕ, List, [], ◌+◌, ◌*◌, ◌/◌, ◌%◌, ◌<◌, ◌≤◌};
ghost use Rattle.std.specs.Prelude.{◌↔◌, ◌++◌, length, IfOk, IfErr, OnOk, OnErr};
ghost use Rattle.std.specs.Prelude.{IsOk, IsTrue, All, vec_len, vec_capacity};
ghost use Rattle.trdp_base.specs.HexText.{hex_digit, hex_pairs, text_of_hex};
ghost use Rattle.trdp_base.specs.HexText.{IsHexText, IsHexDigit, IsInPairs};
ghost use Rattle.trdp_base.specs.declared.text.TextFault.TheVariants.{BadText};

use crate::text::TextFault;
use std::alloc::{AllocError, Global};

/// Reads bytes: lower-case hexadecimal digits in pairs, or `-` for no bytes (profile).
///
/// # Errors
/// [`TextFault::BadText`] at any other text, the empty one too, before any allocation.
/// [`TextFault::OutOfMemory`] where there is no memory for the bytes of a good text.
pub fn read_hex(alloc: Global, text: &[u8]) -> Result<Vec<u8>, TextFault>
    ensures value { IfOk result (λ bytes. text.now ≡ text_of_hex bytes.items) }
    ensures found { (bytes : List ℕ) → All (λ byte. byte < 256) bytes
        → text.now ≡ text_of_hex bytes → IfOk result (λ read. read.items ≡ bytes) }
    ensures bad { (result ≡ Err BadText) ↔ ¬ IsHexText text.now }
{
    let mut bytes = Vec::new(alloc);
    read_hex_into(text, &mut bytes)?;
    Ok(bytes)
}

/// Reads bytes into a list, in place of what it holds: lower-case hexadecimal digits in pairs, or
/// `-` for no bytes (profile).
///
/// It needs no memory where the list has room for the bytes.
///
/// # Errors
/// As [`read_hex`]; the list's items stay as they were.
pub fn read_hex_into(text: &[u8], bytes: &mut Vec<u8>) -> Result<(), TextFault>
    ensures value { OnOk result (text.now ≡ text_of_hex bytes.new.items) }
    ensures found { (from : List ℕ) → All (λ byte. byte < 256) from
        → text.now ≡ text_of_hex from → OnOk result (bytes.new.items ≡ from) }
    ensures bad { (result ≡ Err BadText) ↔ ¬ IsHexText text.now }
    ensures err { OnErr result (bytes.new.items ≡ bytes.old.items) }
    ensures succeeds { IsHexText text.now → length text.now / 2 ≤ vec_capacity bytes.old
        → IsOk result }
    ensures capacity { vec_capacity bytes.old ≤ vec_capacity bytes.new }
{
    if is_dash(text) {
        bytes.clear();
        return Ok(());
    }
    if !is_in_pairs(text) {
        return Err(TextFault::BadText);
    }
    Ok(read_pairs(text, bytes)?)
}

/// Whether a text is the written form of no bytes.
pub(crate) fn is_dash(text: &[u8]) -> bool
    ensures { IsTrue result ↔ (text.now ≡ text_of_hex []) }
{
    matches!(text, [b'-'])
}

/// Whether a text is lower-case hexadecimal digits in pairs, one pair or more.
pub(crate) fn is_in_pairs(text: &[u8]) -> bool
    ensures { IsTrue result ↔ IsInPairs text.now }
{
    !text.is_empty() && text.len() % 2 == 0 && are_digits(text)
}

/// Whether all characters are lower-case hexadecimal digits.
///
/// It looks at each, also after one that isn't: so LLVM compares sixteen at once, as it does where
/// digits are read and written.
fn are_digits(text: &[u8]) -> bool
    ensures { IsTrue result ↔ All IsHexDigit text.now }
{
    let mut good = true;
    for digit in text {
        good &= is_digit(*digit);
    }
    good
}

/// Whether a character is a lower-case hexadecimal digit.
fn is_digit(digit: u8) -> bool
    ensures { IsTrue result ↔ IsHexDigit digit }
{
    matches!(digit, b'0'..=b'9' | b'a'..=b'f')
}

/// Reads the bytes with these pairs of digits into a list, in place of what it holds.
fn read_pairs(text: &[u8], bytes: &mut Vec<u8>) -> Result<(), AllocError>
    requires { IsInPairs text.now }
    ensures pairs { OnOk result (hex_pairs bytes.new.items ≡ text.now) }
    ensures bytes { OnOk result (All (λ byte. byte < 256) bytes.new.items) }
    ensures err { OnErr result (bytes.new.items ≡ bytes.old.items) }
    ensures succeeds { length text.now / 2 ≤ vec_capacity bytes.old → IsOk result }
    ensures capacity { vec_capacity bytes.old ≤ vec_capacity bytes.new }
{
    bytes.resize(text.len() / 2, 0)?;
    fill_from_pairs(text, bytes);
    Ok(())
}

/// Writes the bytes with these pairs of digits.
pub(crate) fn fill_from_pairs(text: &[u8], bytes: &mut [u8])
    requires pairs { IsInPairs text.now }
    requires room { length bytes.old ≡ length text.now / 2 }
    ensures pairs { hex_pairs bytes.new ≡ text.now }
    ensures bytes { All (λ byte. byte < 256) bytes.new }
{
    for index in 0..bytes.len() {
        let (high, low) = (text[2 * index], text[2 * index + 1]);
        bytes[index] = 16 * value_of_digit(high) + value_of_digit(low);
    }
}

/// The value of a lower-case hexadecimal digit.
fn value_of_digit(digit: u8) -> u8
    requires { IsHexDigit digit }
    ensures small { result < 16 }
    ensures digit { hex_digit result ≡ digit }
{
    if digit <= b'9' {
        digit - b'0'
    } else {
        digit - b'a' + 10
    }
}

/// Appends the written form of bytes, which is `-` for none (profile).
///
/// It needs no memory where there is room for that.
///
/// # Errors
/// [`AllocError`] where there is no memory; the list's items stay as they were.
pub fn push_hex(out: &mut Vec<u8>, bytes: &[u8]) -> Result<(), AllocError>
    ensures ok { OnOk result (out.new.items ≡ out.old.items ++ text_of_hex bytes.now) }
    ensures err { OnErr result (out.new.items ≡ out.old.items) }
    ensures succeeds { vec_len out.old + length (text_of_hex bytes.now) ≤ vec_capacity out.old
        → IsOk result }
    ensures capacity { vec_capacity out.old ≤ vec_capacity out.new }
{
    if bytes.is_empty() {
        return out.extend_from_slice(b"-");
    }
    out.reserve(2 * bytes.len())?;
    let start = out.len();
    out.resize(start + 2 * bytes.len(), 0).unwrap();
    let (_, digits) = out.split_at_mut(start);
    write_pairs(bytes, digits);
    Ok(())
}

/// Writes the pairs of digits of these bytes.
fn write_pairs(bytes: &[u8], digits: &mut [u8])
    requires { length digits.old ≡ 2 * length bytes.now }
    ensures { digits.new ≡ hex_pairs bytes.now }
{
    for index in 0..bytes.len() {
        digits[2 * index] = digit_of(bytes[index] / 16);
        digits[2 * index + 1] = digit_of(bytes[index] % 16);
    }
}

/// The lower-case hexadecimal digit of a value below 16.
fn digit_of(value: u8) -> u8
    requires { value < 16 }
    ensures { result ≡ hex_digit value }
{
    if value < 10 {
        b'0' + value
    } else {
        b'a' + value - 10
    }
}
