//! The register of the division: what is left of the message so far, the next bit lowest.
//!
//! Eight bytes are looked up at once, then four, then one by one. Bytes act as zeros do after
//! their sum with the register. Past zeros each byte of the register acts for itself, and a table
//! has what it leads to.

ghost use Rattle.std.specs.Prelude.{◌≡◌, bit_xor};
ghost use Rattle.trdp_fcs.specs.Register.{past_zeros, past, tables};

use crate::tables::TABLES;

/// The register after these bytes of the message.
pub(crate) fn past(register: u32, bytes: &[u8]) -> u32
    ensures { result ≡ past bytes.now register }
{
    let mut register = register;
    let mut rest = bytes;
    while let Some((eight, behind)) = rest.split_first_chunk::<8>() {
        register = past_eight(register, eight);
        rest = behind;
    }
    past_few(register, rest)
}

/// The register after these bytes, four at once where there are four.
#[inline(always)]
fn past_few(register: u32, bytes: &[u8]) -> u32
    ensures { result ≡ past bytes.now register }
{
    let (mut register, rest) = match bytes.split_first_chunk::<4>() {
        Some((four, behind)) => (past_four(register, four), behind),
        None => (register, bytes),
    };
    for byte in rest {
        register = past_byte(register, *byte);
    }
    register
}

/// The register after eight bytes. What the back four lead to comes first, since it doesn't wait
/// for the register.
#[inline(always)]
fn past_eight(register: u32, bytes: &[u8; 8]) -> u32
    ensures { result ≡ past bytes.now register }
{
    let [a, b, c, d, e, f, g, h] = *bytes;
    let back = past_four_zeros(u32::from_le_bytes([e, f, g, h]));
    back ^ past_eight_zeros(register ^ u32::from_le_bytes([a, b, c, d]))
}

/// The register after four bytes.
#[inline(always)]
fn past_four(register: u32, bytes: &[u8; 4]) -> u32
    ensures { result ≡ past bytes.now register }
{
    past_four_zeros(register ^ u32::from_le_bytes(*bytes))
}

/// The register after one byte.
#[inline(always)]
fn past_byte(register: u32, byte: u8) -> u32
    ensures { result ≡ past_zeros 1 (bit_xor register byte) }
{
    let mixed = register ^ u32::from(byte);
    let [low, _, _, _] = mixed.to_le_bytes();
    tables()[0][usize::from(low)] ^ (mixed >> 8)
}

/// The register after eight bytes of 0.
#[inline(always)]
fn past_eight_zeros(register: u32) -> u32
    ensures { result ≡ past_zeros 8 register }
{
    let [a, b, c, d] = register.to_le_bytes();
    let tables = tables();
    tables[7][usize::from(a)]
        ^ tables[6][usize::from(b)]
        ^ tables[5][usize::from(c)]
        ^ tables[4][usize::from(d)]
}

/// The register after four bytes of 0.
#[inline(always)]
fn past_four_zeros(register: u32) -> u32
    ensures { result ≡ past_zeros 4 register }
{
    let [a, b, c, d] = register.to_le_bytes();
    let tables = tables();
    tables[3][usize::from(a)]
        ^ tables[2][usize::from(b)]
        ^ tables[1][usize::from(c)]
        ^ tables[0][usize::from(d)]
}

/// The tables, of which it is proved here that each number is right.
#[inline(always)]
fn tables() -> &'static [[u32; 256]; 8]
    ensures { result.now ≡ tables 8 }
{
    &TABLES
}
