//! The rows of the index by comId.

ghost use Rattle.std.specs.Prelude.{◌≡◌, ◌≤◌, ◌^◌};
ghost use Rattle.trdp_index.specs.ComRows.{com_number, com_rank, com_row_rank};
ghost use Rattle.trdp_index.specs.ComRows.{com_start, com_end};

use crate::rank::Rank;
use crate::ranked::Ranked;

/// An object that telegrams of a comId may be for, or telegrams of any.
#[derive(Clone, Copy, Debug, PartialEq, Eq)]
pub struct ComRow {
    /// The comId; None where it is an object for telegrams of any comId.
    pub com_id: Option<u32>,
    /// The number of the object's slot.
    pub slot: u16,
    /// The object's handle in its slot.
    pub handle: u32,
    /// The key by which the object is reached.
    pub key: usize,
}

impl Ranked for ComRow {
    ghost rank_of = { com_row_rank };

    fn rank(&self) -> Rank {
        com_rank(self.com_id, self.slot, self.handle)
    }
}

/// The number of a comId in the order of rows: any comes first.
fn com_number(com_id: Option<u32>) -> u128
    ensures number { result ≡ com_number com_id }
    ensures limit { result ≤ 2 ^ 32 }
{
    match com_id {
        None => 0,
        Some(number) => u128::from(number) + 1,
    }
}

/// The rank of the row of a comId, a slot and a handle.
pub fn com_rank(com_id: Option<u32>, slot: u16, handle: u32) -> Rank
    ensures { result ≡ com_rank com_id slot handle }
{
    Rank {
        first: com_number(com_id),
        slot,
        last: handle,
    }
}

/// The first rank that a row of a comId may have.
pub fn com_start(com_id: Option<u32>) -> Rank
    ensures { result ≡ com_start com_id }
{
    com_rank(com_id, 0, 0)
}

/// The first rank after those of all rows of a comId.
pub fn com_end(com_id: Option<u32>) -> Rank
    ensures { result ≡ com_end com_id }
{
    Rank {
        first: com_number(com_id) + 1,
        slot: 0,
        last: 0,
    }
}
