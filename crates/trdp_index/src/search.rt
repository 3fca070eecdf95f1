//! The search for a rank among rows whose ranks rise.

ghost use Rattle.std.specs.Prelude.{◌≡◌, ℕ, ◌+◌, ◌^◌, ◌<◌, ◌≤◌, length, take, drop, Some, None};
ghost use Rattle.std.specs.Prelude.{true, false, IfSome, slice_get, option_map, insert};
ghost use Rattle.trdp_index.specs.Rows.{IsRising, AllBefore, NoneBefore, with_row};
ghost use Rattle.trdp_index.specs.Searches.{IsIndexOf, IsAbsent};

use crate::rank::Rank;
use crate::ranked::Ranked;

/// The rank of the row at an index in the list.
fn rank_at<R: Ranked>(rows: &[R], index: usize) -> Rank
    requires { index < length rows.now }
    ensures { option_map R.rank_of (slice_get rows.now index) ≡ Some result }
{
    rows[index].rank()
}

/// Whether the row at an index in the list comes before a rank. Each comparison is counted here.
fn is_below<R: Ranked>(rows: &[R], index: usize, rank: Rank, comparisons: &mut u64) -> bool
    requires rising { IsRising R.rank_of rows.now }
    requires index { index < length rows.now }
    requires count { comparisons.old + 1 < 2 ^ 64 }
    ensures below { result ≡ true → AllBefore R.rank_of rank (take (index + 1) rows.now) }
    ensures above { result ≡ false → NoneBefore R.rank_of rank (drop index rows.now) }
    ensures counted { comparisons.new ≡ comparisons.old + 1 }
{
    *comparisons += 1;
    rank_at(rows, index).is_before(rank)
}

/// How many rows come before a rank. It adds its comparisons to the number.
pub fn lower_bound<R: Ranked>(rows: &[R], rank: Rank, comparisons: &mut u64) -> usize
    requires rising { IsRising R.rank_of rows.now }
    requires count { comparisons.old ≤ 2 ^ 63 }
    ensures within { result ≤ length rows.now }
    ensures before { AllBefore R.rank_of rank (take result rows.now) }
    ensures after { NoneBefore R.rank_of rank (drop result rows.now) }
    ensures cost { (b : ℕ) → length rows.now < 2 ^ b → comparisons.new ≤ comparisons.old + b }
    ensures few { comparisons.new ≤ comparisons.old + 64 }
    ensures least { 0 < length rows.now → comparisons.old < comparisons.new }
    ensures kept { comparisons.old ≤ comparisons.new }
{
    let mut low = 0;
    let mut high = rows.len();
    while low < high {
        let middle = low + (high - low) / 2;
        if is_below(rows, middle, rank, comparisons) {
            low = middle + 1;
        } else {
            high = middle;
        }
    }
    low
}

/// The index at which a new row of a rank is put in.
pub fn place_for<R: Ranked>(rows: &[R], rank: Rank) -> usize
    requires { IsRising R.rank_of rows.now }
    ensures within { result ≤ length rows.now }
    ensures place { (row : R) → R.rank_of row ≡ rank
        → insert rows.now result row ≡ with_row R.rank_of row rows.now }
{
    let mut comparisons = 0;
    lower_bound(rows, rank, &mut comparisons)
}

/// The index in the list of the row of a rank; None where there is none.
pub fn index_of<R: Ranked>(rows: &[R], rank: Rank) -> Option<usize>
    requires { IsRising R.rank_of rows.now }
    ensures found { IfSome result (IsIndexOf R.rank_of rank rows.now) }
    ensures absent { result ≡ None → IsAbsent R.rank_of rank rows.now }
{
    let mut comparisons = 0;
    let index = lower_bound(rows, rank, &mut comparisons);
    if index >= rows.len() {
        return None;
    }
    if rank_at(rows, index).is_same(rank) {
        Some(index)
    } else {
        None
    }
}
