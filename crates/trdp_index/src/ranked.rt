//! What the rows of both indexes have in common.

ghost use Rattle.std.specs.Prelude.{◌≡◌};
ghost use Rattle.trdp_index.specs.declared.rank.Rank.{Rank};

use crate::rank::Rank;

/// A row of an index.
pub trait Ranked {
    /// The rank of the row.
    ghost rank_of: { Self → Rank };

    /// The rank of the row.
    fn rank(&self) -> Rank
        ensures { result ≡ rank_of self.now };
}
