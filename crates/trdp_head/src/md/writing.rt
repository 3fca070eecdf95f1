//! Writing a message data telegram.

ghost use Rattle.std.specs.Prelude.{ℕ, ◌≡◌, ◌≤◌, ◌+◌, ◌++◌, length, take, drop};
ghost use Rattle.std.specs.Prelude.{vec_len, vec_capacity};
ghost use Rattle.trdp_head.specs.Checks.{with_check};
ghost use Rattle.trdp_head.specs.MdKinds.{md_code_of};
ghost use Rattle.trdp_head.specs.MdHeads.{IsMdHead};
ghost use Rattle.trdp_head.specs.IsMdTelegram.{IsMdTelegram};
ghost use Rattle.trdp_head.specs.MdBytes.{md_length_of, md_head_bytes, md_bytes};
ghost use Rattle.trdp_base.specs.Limits.{md_payload_limit};

use crate::fields::{put_bytes, put_i32, put_u32, put_u128};
use crate::md::{MD_HEAD, MdHead, MdKind, layout};
use crate::payload::{append_telegram, complete, put_check, rounded};
use crate::prefix::{Prefix, put_prefix};

/// The length in bytes of a telegram whose payload has this many bytes, 0 to 65388: 116, and the
/// payload rounded up to a multiple of four (IEC 61375-2-3).
pub fn md_length(payload: usize) -> usize
    requires { payload ≤ md_payload_limit }
    ensures { result ≡ md_length_of payload }
{
    MD_HEAD + rounded(payload)
}

/// The code of a type.
fn code_of_kind(kind: MdKind) -> u16
    ensures { result ≡ md_code_of kind }
{
    match kind {
        MdKind::Notify => 0x4d6e,
        MdKind::Request => 0x4d72,
        MdKind::Reply => 0x4d70,
        MdKind::Query => 0x4d71,
        MdKind::Confirm => 0x4d63,
        MdKind::Error => 0x4d65,
    }
}

/// Writes the header up to its frame check, with the length of the payload.
fn put_head(room: &mut [u8], head: MdHead, payload: u32)
    requires { 112 ≤ length room.old }
    ensures front { take 112 room.new ≡ md_head_bytes head payload }
    ensures rest { (n : ℕ) → 112 ≤ n → drop n room.new ≡ drop n room.old }
    ensures ranges { IsMdHead head }
{
    let prefix = Prefix {
        counter: head.counter,
        code: code_of_kind(head.kind),
        com_id: head.com_id,
        topo: head.topo,
    };
    put_prefix(room, prefix, payload);
    put_i32(room, layout::STATUS, head.status);
    put_u128(room, layout::SESSION, head.session.0);
    put_u32(room, layout::TIMEOUT, head.timeout);
    put_bytes(room, layout::SOURCE_URI, head.source_uri.field());
    put_bytes(room, layout::DEST_URI, head.dest_uri.field());
}

/// Writes the telegram at the front of the room, and returns its length (IEC 61375-2-3).
///
/// The payload has at most 65388 bytes, and the room at least the length that [`md_length`] says;
/// what follows the telegram in the room stays. The version is 0x0100; the zeros after the URIs
/// and the payload are written.
pub fn write_md(head: &MdHead, payload: &[u8], room: &mut [u8]) -> usize
    requires payload { length payload.now ≤ md_payload_limit }
    requires room { md_length_of (length payload.now) ≤ length room.old }
    ensures length { result ≡ md_length_of (length payload.now) }
    ensures written { room.new ≡ md_bytes head.now payload.now
        ++ drop (md_length_of (length payload.now)) room.old }
    ensures read_back { IsMdTelegram (md_bytes head.now payload.now) head.now payload.now }
{
    put_head(room, *head, payload.len() as u32);
    complete(room, MD_HEAD, payload)
}

/// The header with its frame check, for this many bytes of payload.
fn header(head: MdHead, payload: u32) -> [u8; MD_HEAD]
    ensures { result ≡ with_check (md_head_bytes head payload) }
{
    let mut room = [0; MD_HEAD];
    put_head(&mut room, head, payload);
    put_check(&mut room, layout::FCS);
    room
}

/// Adds the telegram at the end of the list, within its room, and returns its length
/// (IEC 61375-2-3).
///
/// It is the telegram that [`write_md`] writes. The payload has at most 65388 bytes, and the list
/// room for the length that [`md_length`] says.
pub fn push_md(head: &MdHead, payload: &[u8], list: &mut Vec<u8>) -> usize
    requires payload { length payload.now ≤ md_payload_limit }
    requires room { vec_len list.old + md_length_of (length payload.now)
        ≤ vec_capacity list.old }
    ensures length { result ≡ md_length_of (length payload.now) }
    ensures items { list.new.items ≡ list.old.items ++ md_bytes head.now payload.now }
    ensures len { vec_len list.new ≡ vec_len list.old + md_length_of (length payload.now) }
    ensures capacity { vec_capacity list.old ≤ vec_capacity list.new }
{
    append_telegram(list, &header(*head, payload.len() as u32), payload)
}
