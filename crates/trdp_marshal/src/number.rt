//! Numbers at the front of bytes.

ghost use Rattle.std.specs.Prelude.{◌≡◌, ◌≤◌, ◌<◌, ◌^◌, ◌*◌, option_map, IfSome};
ghost use Rattle.trdp_dataset.specs.Elements.{width_len};
ghost use Rattle.trdp_marshal.specs.Items.{array_length};
ghost use Rattle.trdp_marshal.specs.Reading.{number_at};

use byteorder::{BigEndian, ByteOrder};
use trdp_dataset::{Element, Width};

/// The big-endian number in the first `len` bytes, and the bytes after them; None where there
/// are fewer.
#[tactic(auto, unfolding(crate::specs::Reading::number_at), using(crate::proofs::NumberLemmas::number_fits))]
pub(crate) fn number(len: usize, bytes: &[u8]) -> Option<(u64, &[u8])>
    requires low { 1 ≤ len }
    requires high { len ≤ 8 }
    ensures value { option_map (λ x. (x.0, x.1.now)) result ≡ number_at len bytes.now }
    ensures bound { IfSome result (λ x. x.0 < 256 ^ len) }
{
    if bytes.len() < len {
        return None;
    }
    let (_, rest) = bytes.split_at(len);
    Some((BigEndian::read_uint(bytes, len), rest))
}

/// Half of how many numbers there are of that width: as a signed number, one from there on is
/// negative.
pub(crate) fn half(width: Width) -> u64
    ensures half { 256 ^ width_len width ≡ 2 * result }
    ensures bound { result ≤ 2 ^ 63 }
    ensures above { 0 < result }
{
    match width {
        Width::One => 1 << 7,
        Width::Two => 1 << 15,
        Width::Four => 1 << 31,
        Width::Eight => 1 << 63,
    }
}

/// How many values an array has, where the entry before it says `before`.
pub(crate) fn item_count(element: Element, before: u64) -> u64
    ensures { result ≡ array_length element.size before }
{
    if element.size == 0 {
        before
    } else {
        u64::from(element.size)
    }
}
