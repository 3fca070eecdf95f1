//! Writing what follows the fields of a header: its frame check, the payload, and zeros up to a
//! multiple of four.

ghost use Rattle.std.specs.Prelude.{ℕ, ◌≡◌, ◌≤◌, ◌+◌, ◌-◌, ◌++◌, length};
ghost use Rattle.std.specs.Prelude.{take, drop, vec_len, vec_capacity};
ghost use Rattle.trdp_head.specs.Checks.{with_check};
ghost use Rattle.trdp_head.specs.TelegramBytes.{rounded_of, padding_of, telegram_bytes};
ghost use Rattle.trdp_base.specs.Limits.{md_payload_limit};

use crate::fields::{put_bytes, put_zeros};
use crate::prefix::CHECK_LENGTH;
use trdp_fcs::frame_check;

/// Writes the frame check of the bytes before the offset there, least significant byte first.
pub(crate) fn put_check(room: &mut [u8], offset: usize)
    requires { offset + 4 ≤ length room.old }
    ensures front { take (offset + 4) room.new ≡ with_check (take offset room.old) }
    ensures rest { (n : ℕ) → offset + 4 ≤ n → drop n room.new ≡ drop n room.old }
{
    let (checked, _) = room.split_at(offset);
    let check = frame_check(checked);
    put_bytes(room, offset, &check.to_le_bytes());
}

/// A number of bytes rounded up to a multiple of four.
pub(crate) fn rounded(payload: usize) -> usize
    requires { payload ≤ md_payload_limit }
    ensures { result ≡ rounded_of payload }
{
    payload.div_ceil(4) * 4
}

/// Completes the telegram at the front of the room, whose header of `size` bytes is there up to
/// its frame check, and returns its length.
pub(crate) fn complete(room: &mut [u8], size: usize, payload: &[u8]) -> usize
    requires payload { length payload.now ≤ md_payload_limit }
    requires check { 4 ≤ size }
    requires room { size + rounded_of (length payload.now) ≤ length room.old }
    ensures length { result ≡ size + rounded_of (length payload.now) }
    ensures written { room.new ≡ telegram_bytes (take (size - 4) room.old) payload.now
        ++ drop (size + rounded_of (length payload.now)) room.old }
{
    let end = size + rounded(payload.len());
    put_check(room, size - CHECK_LENGTH);
    put_bytes(room, size, payload);
    put_zeros(room, size + payload.len(), end);
    end
}

/// Adds bytes at the end of the list, within its room.
fn append(list: &mut Vec<u8>, bytes: &[u8])
    requires { vec_len list.old + length bytes.now ≤ vec_capacity list.old }
    ensures items { list.new.items ≡ list.old.items ++ bytes.now }
    ensures len { vec_len list.new ≡ vec_len list.old + length bytes.now }
    ensures capacity { vec_capacity list.old ≤ vec_capacity list.new }
{
    list.extend_from_slice(bytes).unwrap();
}

/// Adds a header, the payload and its zeros at the end of the list, within its room, and returns
/// their length.
pub(crate) fn append_telegram(list: &mut Vec<u8>, header: &[u8], payload: &[u8]) -> usize
    requires payload { length payload.now ≤ md_payload_limit }
    requires room { vec_len list.old + (length header.now + rounded_of (length payload.now))
        ≤ vec_capacity list.old }
    ensures length { result ≡ length header.now + rounded_of (length payload.now) }
    ensures items { list.new.items ≡ list.old.items
        ++ (header.now ++ payload.now ++ padding_of (length payload.now)) }
    ensures len { vec_len list.new
        ≡ vec_len list.old + (length header.now + rounded_of (length payload.now)) }
    ensures capacity { vec_capacity list.old ≤ vec_capacity list.new }
{
    let filled = rounded(payload.len());
    append(list, header);
    append(list, payload);
    let (padding, _) = b"\0\0\0".split_at(filled - payload.len());
    append(list, padding);
    header.len() + filled
}
