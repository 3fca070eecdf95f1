//! What a wire in memory adds to its lists, within their rooms.

ghost use Rattle.std.specs.Prelude.{◌≡◌, ◌<◌, ◌≤◌, ◌+◌, ◌++◌, ◌∷◌, [], length};
ghost use Rattle.std.specs.Prelude.{vec_len, vec_capacity};
ghost use Rattle.std.specs.Prelude.{◌-◌, ◌^◌, ◌&&◌, nat_lt, is_err, OnErr};
ghost use Rattle.trdp_wire.specs.Failures.{one_more_if};
ghost use Rattle.trdp_memory.specs.Rows.{bytes_in, gives_of, row_give};

use crate::rows::{GiveRow, Rest, TakeRow};
use trdp_wire::{WireFault, fail};

/// Adds a rest within the room.
pub(crate) fn push_rest(rested: &mut Vec<Rest>, rest: Rest)
    requires { vec_len rested.old < vec_capacity rested.old }
    ensures items { rested.new.items ≡ rested.old.items ++ rest ∷ [] }
    ensures len { vec_len rested.new ≡ vec_len rested.old + 1 }
    ensures capacity { vec_capacity rested.new ≡ vec_capacity rested.old }
{
    rested.push_reserved(rest);
}

/// Fails if it is to fail, unless the count of failures is at its last value.
#[tactic(auto, unfolding(trdp_wire::specs::Failures::one_more_if))]
pub(crate) fn fail_if(fails: bool, failures: &mut u64) -> Result<(), WireFault>
    ensures fault { OnErr result (failures.old < failures.new) }
    ensures fails { is_err result ≡ nat_lt failures.old (2 ^ 64 - 1) && fails }
    ensures count { failures.new ≡ one_more_if (is_err result) failures.old }
{
    if fails { fail(failures) } else { Ok(()) }
}

/// Adds a row within the room.
pub(crate) fn push_take(taken: &mut Vec<TakeRow>, row: TakeRow)
    requires { vec_len taken.old < vec_capacity taken.old }
    ensures items { taken.new.items ≡ taken.old.items ++ row ∷ [] }
    ensures len { vec_len taken.new ≡ vec_len taken.old + 1 }
    ensures capacity { vec_capacity taken.new ≡ vec_capacity taken.old }
{
    taken.push_reserved(row);
}

/// Adds a row and its bytes within the room.
pub(crate) fn push_give(given: &mut Vec<GiveRow>, held: &mut Vec<u8>, row: GiveRow, bytes: &[u8])
    requires row { vec_len given.old < vec_capacity given.old }
    requires bytes { vec_len held.old + length bytes.now ≤ vec_capacity held.old }
    requires len { row.len ≡ length bytes.now }
    requires whole { bytes_in given.old.items ≡ length held.old.items }
    ensures gives { gives_of held.new.items given.new.items
        ≡ gives_of held.old.items given.old.items ++ row_give row bytes.now ∷ [] }
    ensures whole { bytes_in given.new.items ≡ length held.new.items }
    ensures given_len { vec_len given.new ≡ vec_len given.old + 1 }
    ensures given_capacity { vec_capacity given.new ≡ vec_capacity given.old }
    ensures held_len { vec_len held.new ≡ vec_len held.old + length bytes.now }
    ensures held_capacity { vec_capacity held.old ≤ vec_capacity held.new }
{
    given.push_reserved(row);
    append(held, bytes);
}

/// Adds bytes at the end, within the room.
fn append(held: &mut Vec<u8>, bytes: &[u8])
    requires { vec_len held.old + length bytes.now ≤ vec_capacity held.old }
    ensures items { held.new.items ≡ held.old.items ++ bytes.now }
    ensures len { vec_len held.new ≡ vec_len held.old + length bytes.now }
    ensures capacity { vec_capacity held.old ≤ vec_capacity held.new }
{
    held.extend_from_slice(bytes).unwrap();
}
