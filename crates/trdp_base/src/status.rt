//! Statuses of replies as text: decimal numbers with their sign.

ghost use Rattle.std.specs.Prelude.{◌≡◌, ℤ, ◌+◌, ◌≤◌, ◌++◌, FitsSigned, IfOk, IfErr};
ghost use Rattle.std.specs.Prelude.{OnOk, OnErr, IsOk, ◌∷◌, vec_len, vec_capacity};
ghost use Rattle.std.specs.Int.{w32};
ghost use Rattle.trdp_base.specs.StatusText.{text_of_status, status_length};
ghost use Rattle.trdp_base.specs.declared.text.TextFault.TheVariants.{BadText};

use crate::number::{put_number, read_number};
use crate::text::TextFault;
use std::alloc::AllocError;

/// The length in bytes of the longest written status, that of -2147483648.
pub const STATUS_LENGTH: usize = 11;

/// Reads a status: a decimal number of -2147483648 to 2147483647 without leading zeros, with `-`
/// before a number below 0 and no sign before another (profile).
///
/// # Errors
/// [`TextFault::BadText`] at any other text.
pub fn read_status(text: &[u8]) -> Result<i32, TextFault>
    ensures value { IfOk result (λ status. text.now ≡ text_of_status status) }
    ensures found { (status : ℤ) → FitsSigned w32 status
        → text.now ≡ text_of_status status → result ≡ Ok status }
    ensures fault { IfErr result (λ fault. fault ≡ BadText) }
{
    if let [b'-', digits @ ..] = text {
        return read_negative(digits);
    }
    let number = read_number(text, 2_147_483_647)?;
    Ok(number as i32)
}

/// Reads the digits of a status below 0.
fn read_negative(digits: &[u8]) -> Result<i32, TextFault>
    ensures value { IfOk result (λ status. 45 ∷ digits.now ≡ text_of_status status) }
    ensures found { (status : ℤ) → FitsSigned w32 status
        → 45 ∷ digits.now ≡ text_of_status status → result ≡ Ok status }
    ensures fault { IfErr result (λ fault. fault ≡ BadText) }
{
    let number = read_number(digits, 2_147_483_648)?;
    if number == 0 {
        return Err(TextFault::BadText);
    }
    Ok((-(number as i64)) as i32)
}

/// Appends the written form of a status (profile).
///
/// It needs no memory where there is room for [`STATUS_LENGTH`] more bytes.
///
/// # Errors
/// [`AllocError`] where there is no memory; the list's items stay as they were.
pub fn push_status(out: &mut Vec<u8>, status: i32) -> Result<(), AllocError>
    ensures ok { OnOk result (out.new.items ≡ out.old.items ++ text_of_status status) }
    ensures err { OnErr result (out.new.items ≡ out.old.items) }
    ensures length { vec_len out.new ≤ vec_len out.old + status_length }
    ensures succeeds { vec_len out.old + status_length ≤ vec_capacity out.old → IsOk result }
    ensures capacity { vec_capacity out.old ≤ vec_capacity out.new }
{
    out.reserve(STATUS_LENGTH)?;
    if status < 0 {
        out.push_reserved(b'-');
    }
    put_number(out, u64::from(status.unsigned_abs()));
    Ok(())
}
