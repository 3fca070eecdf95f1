//! The rows of the index by session.

ghost use Rattle.std.specs.Prelude.{◌≡◌};
ghost use Rattle.trdp_index.specs.SessionRows.{role_number, session_rank, session_row_rank};

use crate::rank::Rank;
use crate::ranked::Ranked;
use trdp_base::SessionId;

/// What an object is in its session.
#[derive(Clone, Copy, Debug, PartialEq, Eq)]
pub enum Role {
    /// It sent the request.
    Caller,
    /// It received the request.
    Replier,
}

/// An object that is open for a session.
#[derive(Clone, Copy, Debug)]
pub struct SessionRow {
    /// The identifier of the session.
    pub session: SessionId,
    /// The number of the object's slot.
    pub slot: u16,
    /// What the object is in the session.
    pub role: Role,
    /// The key by which the object is reached.
    pub key: usize,
}

impl Ranked for SessionRow {
    ghost rank_of = { session_row_rank };

    fn rank(&self) -> Rank {
        session_rank(self.session, self.slot, self.role)
    }
}

/// The number of a role in the order of rows.
fn role_number(role: Role) -> u32
    ensures { result ≡ role_number role }
{
    match role {
        Role::Caller => 0,
        Role::Replier => 1,
    }
}

/// The rank of the row of a session, a slot and a role.
pub fn session_rank(session: SessionId, slot: u16, role: Role) -> Rank
    ensures { result ≡ session_rank session slot role }
{
    Rank {
        first: session.0,
        slot,
        last: role_number(role),
    }
}
