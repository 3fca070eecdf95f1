//! What is stored for a number of an item.

ghost use Rattle.std.specs.Prelude.{◌≡◌, option_map};
ghost use Rattle.byteorder.specs.Endian.{big_bytes};
ghost use Rattle.trdp_dataset.specs.Elements.{width_len};
ghost use Rattle.trdp_marshal.specs.Items.{model_of, signed};
ghost use Rattle.trdp_marshal.specs.Spelling.{unsigned_spelling, signed_spelling};

use crate::item::Item;
use crate::number::half;
use trdp_dataset::Width;

/// What is stored for an unsigned value.
#[tactic(auto, unfolding(crate::specs::Spelling::unsigned_spelling, crate::specs::Spelling::number_spelling))]
pub(crate) fn unsigned_code(width: Width, item: &Item) -> Option<u64>
    ensures { option_map (λ n. big_bytes (width_len width) n) result
        ≡ unsigned_spelling (width_len width) (model_of item.now) }
{
    match item {
        Item::U(n) if *n / 2 < half(width) => Some(*n),
        _ => None,
    }
}

/// What is stored for a signed number, as two's complement.
#[tactic(auto, unfolding(crate::specs::Spelling::signed_spelling))]
pub(crate) fn twos_complement(width: Width, z: i64) -> Option<u64>
    ensures { option_map (λ n. big_bytes (width_len width) n) result
        ≡ signed_spelling (width_len width) (signed z) }
{
    let half = half(width);
    if z >= 0 {
        let n = z as u64;
        if n < half { Some(n) } else { None }
    } else {
        let n = (-1 - z) as u64;
        if n < half {
            Some(half + (half - 1 - n))
        } else {
            None
        }
    }
}

/// What is stored for a signed value.
#[tactic(auto, unfolding(crate::specs::Spelling::signed_spelling))]
pub(crate) fn signed_code(width: Width, item: &Item) -> Option<u64>
    ensures { option_map (λ n. big_bytes (width_len width) n) result
        ≡ signed_spelling (width_len width) (model_of item.now) }
{
    match item {
        Item::S(z) => twos_complement(width, *z),
        _ => None,
    }
}
