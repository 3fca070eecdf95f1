//! The ranks by which the rows of an index are sorted.

ghost use Rattle.std.specs.Prelude.{◌≡◌};
ghost use Rattle.trdp_index.specs.Ranks.{is_before, is_same};

/// The rank of a row among the others: by its first number, then by its slot, then by its last
/// number.
#[derive(Clone, Copy)]
pub struct Rank {
    /// What a look-up compares first: a comId, or the identifier of a session.
    pub first: u128,
    /// The number of a slot.
    pub slot: u16,
    /// What distinguishes the rows of one slot: a handle, or a role.
    pub last: u32,
}

impl Rank {
    /// Whether it comes before the other.
    #[tactic(auto, unfolding(crate::specs::Ranks::is_before))]
    pub fn is_before(self, other: Rank) -> bool
        ensures { result ≡ is_before self other }
    {
        self.first < other.first
            || self.first == other.first
                && (self.slot < other.slot || self.slot == other.slot && self.last < other.last)
    }

    /// Whether it is the same as the other.
    #[tactic(auto, unfolding(crate::specs::Ranks::is_same))]
    pub fn is_same(self, other: Rank) -> bool
        ensures { result ≡ is_same self other }
    {
        self.first == other.first && self.slot == other.slot && self.last == other.last
    }
}
