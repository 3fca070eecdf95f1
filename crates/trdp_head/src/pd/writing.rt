//! Writing a process data telegram.

ghost use Rattle.std.specs.Prelude.{ℕ, ◌≡◌, ◌≤◌, ◌+◌, ◌++◌, length, take, drop};
ghost use Rattle.std.specs.Prelude.{vec_len, vec_capacity};
ghost use Rattle.trdp_head.specs.Checks.{with_check};
ghost use Rattle.trdp_head.specs.PdKinds.{pd_code_of};
ghost use Rattle.trdp_head.specs.PdHeads.{IsPdHead};
ghost use Rattle.trdp_head.specs.IsPdTelegram.{IsPdTelegram};
ghost use Rattle.trdp_head.specs.PdBytes.{pd_length_of, pd_head_bytes, pd_bytes};
ghost use Rattle.trdp_head.specs.Limits.{pd_payload_limit};

use crate::fields::put_u32;
use crate::payload::{append_telegram, complete, put_check, rounded};
use crate::pd::{PD_HEAD, PdHead, PdKind, layout};
use crate::prefix::{Prefix, put_prefix};

/// The length in bytes of a telegram whose payload has this many bytes, 0 to 1432: 40, and the
/// payload rounded up to a multiple of four (IEC 61375-2-3).
pub fn pd_length(payload: usize) -> usize
    requires { payload ≤ pd_payload_limit }
    ensures { result ≡ pd_length_of payload }
{
    PD_HEAD + rounded(payload)
}

/// The code of a type.
fn code_of_kind(kind: PdKind) -> u16
    ensures { result ≡ pd_code_of kind }
{
    match kind {
        PdKind::Data => 0x5064,
        PdKind::PullReply => 0x5070,
        PdKind::PullRequest => 0x5072,
        PdKind::Error => 0x5065,
    }
}

/// Writes the header up to its frame check, with the length of the payload.
fn put_head(room: &mut [u8], head: PdHead, payload: u32)
    requires { 36 ≤ length room.old }
    ensures front { take 36 room.new ≡ pd_head_bytes head payload }
    ensures rest { (n : ℕ) → 36 ≤ n → drop n room.new ≡ drop n room.old }
    ensures ranges { IsPdHead head }
{
    let prefix = Prefix {
        counter: head.counter,
        code: code_of_kind(head.kind),
        com_id: head.com_id,
        topo: head.topo,
    };
    put_prefix(room, prefix, payload);
    put_u32(room, layout::RESERVED, 0);
    put_u32(room, layout::REPLY_COM_ID, head.reply_com_id);
    put_u32(room, layout::REPLY_IP, head.reply_ip.0);
}

/// Writes the telegram at the front of the room, and returns its length (IEC 61375-2-3).
///
/// The payload has at most 1432 bytes, and the room at least the length that [`pd_length`] says;
/// what follows the telegram in the room stays. The version is 0x0100, the reserved field and the
/// padding are 0.
pub fn write_pd(head: &PdHead, payload: &[u8], room: &mut [u8]) -> usize
    requires payload { length payload.now ≤ pd_payload_limit }
    requires room { pd_length_of (length payload.now) ≤ length room.old }
    ensures length { result ≡ pd_length_of (length payload.now) }
    ensures written { room.new ≡ pd_bytes head.now payload.now
        ++ drop (pd_length_of (length payload.now)) room.old }
    ensures read_back { IsPdTelegram (pd_bytes head.now payload.now) head.now payload.now }
{
    put_head(room, *head, payload.len() as u32);
    complete(room, PD_HEAD, payload)
}

/// The header with its frame check, for this many bytes of payload.
fn header(head: PdHead, payload: u32) -> [u8; PD_HEAD]
    ensures { result ≡ with_check (pd_head_bytes head payload) }
{
    let mut room = [0; PD_HEAD];
    put_head(&mut room, head, payload);
    put_check(&mut room, layout::FCS);
    room
}

/// Adds the telegram at the end of the list, within its room, and returns its length
/// (IEC 61375-2-3).
///
/// It is the telegram that [`write_pd`] writes. The payload has at most 1432 bytes, and the list
/// room for the length that [`pd_length`] says.
pub fn push_pd(head: &PdHead, payload: &[u8], list: &mut Vec<u8>) -> usize
    requires payload { length payload.now ≤ pd_payload_limit }
    requires room { vec_len list.old + pd_length_of (length payload.now)
        ≤ vec_capacity list.old }
    ensures length { result ≡ pd_length_of (length payload.now) }
    ensures items { list.new.items ≡ list.old.items ++ pd_bytes head.now payload.now }
    ensures len { vec_len list.new ≡ vec_len list.old + pd_length_of (length payload.now) }
    ensures capacity { vec_capacity list.old ≤ vec_capacity list.new }
{
    append_telegram(list, &header(*head, payload.len() as u32), payload)
}
