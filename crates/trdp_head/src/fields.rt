//! Numbers and bytes at their offsets in a telegram.

ghost use Rattle.std.specs.Prelude.{ℕ, ◌≡◌, ◌≤◌, ◌+◌, ◌-◌, ◌++◌, length};
ghost use Rattle.std.specs.Prelude.{take, drop, replicate, FitsSigned};
ghost use Rattle.std.specs.Int.{w32, cast_signed, cast_unsigned};
ghost use Rattle.trdp_head.specs.Fields.{field, little_field, be_bytes};

use byteorder::{BigEndian, ByteOrder, LittleEndian};

/// The big-endian number of two bytes at the offset.
pub(crate) fn u16_at(bytes: &[u8], offset: usize) -> u16
    requires { offset + 2 ≤ length bytes.now }
    ensures { result ≡ field offset 2 bytes.now }
{
    let (_, rest) = bytes.split_at(offset);
    BigEndian::read_u16(rest)
}

/// The big-endian number of four bytes at the offset.
pub(crate) fn u32_at(bytes: &[u8], offset: usize) -> u32
    requires { offset + 4 ≤ length bytes.now }
    ensures { result ≡ field offset 4 bytes.now }
{
    let (_, rest) = bytes.split_at(offset);
    BigEndian::read_u32(rest)
}

/// The signed big-endian number of four bytes at the offset, in two's complement.
pub(crate) fn i32_at(bytes: &[u8], offset: usize) -> i32
    requires { offset + 4 ≤ length bytes.now }
    ensures value { result ≡ cast_signed w32 (field offset 4 bytes.now) }
    ensures range { FitsSigned w32 result }
{
    u32_at(bytes, offset).cast_signed()
}

/// The big-endian number of sixteen bytes at the offset.
pub(crate) fn u128_at(bytes: &[u8], offset: usize) -> u128
    requires { offset + 16 ≤ length bytes.now }
    ensures { result ≡ field offset 16 bytes.now }
{
    let (_, rest) = bytes.split_at(offset);
    BigEndian::read_u128(rest)
}

/// The little-endian number of four bytes at the offset.
pub(crate) fn little_u32_at(bytes: &[u8], offset: usize) -> u32
    requires { offset + 4 ≤ length bytes.now }
    ensures { result ≡ little_field offset 4 bytes.now }
{
    let (_, rest) = bytes.split_at(offset);
    LittleEndian::read_u32(rest)
}

/// Writes a number as two bytes at the offset, big-endian.
pub(crate) fn put_u16(room: &mut [u8], offset: usize, number: u16)
    requires { offset + 2 ≤ length room.old }
    ensures front { take (offset + 2) room.new ≡ take offset room.old ++ be_bytes 2 number }
    ensures rest { (n : ℕ) → offset + 2 ≤ n → drop n room.new ≡ drop n room.old }
{
    BigEndian::write_u16(&mut room[offset..offset + 2], number);
}

/// Writes a number as four bytes at the offset, big-endian.
pub(crate) fn put_u32(room: &mut [u8], offset: usize, number: u32)
    requires { offset + 4 ≤ length room.old }
    ensures front { take (offset + 4) room.new ≡ take offset room.old ++ be_bytes 4 number }
    ensures rest { (n : ℕ) → offset + 4 ≤ n → drop n room.new ≡ drop n room.old }
{
    BigEndian::write_u32(&mut room[offset..offset + 4], number);
}

/// Writes a signed number as four bytes at the offset, big-endian and in two's complement.
pub(crate) fn put_i32(room: &mut [u8], offset: usize, number: i32)
    requires { offset + 4 ≤ length room.old }
    ensures front { take (offset + 4) room.new
        ≡ take offset room.old ++ be_bytes 4 (cast_unsigned w32 number) }
    ensures rest { (n : ℕ) → offset + 4 ≤ n → drop n room.new ≡ drop n room.old }
    ensures range { FitsSigned w32 number }
{
    put_u32(room, offset, number.cast_unsigned());
}

/// Writes a number as sixteen bytes at the offset, big-endian.
pub(crate) fn put_u128(room: &mut [u8], offset: usize, number: u128)
    requires { offset + 16 ≤ length room.old }
    ensures front { take (offset + 16) room.new ≡ take offset room.old ++ be_bytes 16 number }
    ensures rest { (n : ℕ) → offset + 16 ≤ n → drop n room.new ≡ drop n room.old }
{
    BigEndian::write_u128(&mut room[offset..offset + 16], number);
}

/// Writes the bytes at the offset.
pub(crate) fn put_bytes(room: &mut [u8], offset: usize, bytes: &[u8])
    requires { offset + length bytes.now ≤ length room.old }
    ensures front { take (offset + length bytes.now) room.new ≡ take offset room.old ++ bytes.now }
    ensures rest { (n : ℕ) → offset + length bytes.now ≤ n → drop n room.new ≡ drop n room.old }
{
    room[offset..offset + bytes.len()].copy_from_slice(bytes);
}

/// Writes zeros from the offset up to the end.
pub(crate) fn put_zeros(room: &mut [u8], offset: usize, end: usize)
    requires order { offset ≤ end }
    requires within { end ≤ length room.old }
    ensures front { take end room.new ≡ take offset room.old ++ replicate (end - offset) 0 }
    ensures rest { (n : ℕ) → end ≤ n → drop n room.new ≡ drop n room.old }
{
    room[offset..end].fill(0);
}
