//! How many objects a slot may hold.

ghost use Rattle.std.specs.Prelude.{◌≡◌, ◌<◌, ◌≤◌, None, Some, nat_le, length};
ghost use Rattle.std.specs.Prelude.{slice_index, if◌then◌else◌, IfSome};
ghost use Rattle.std.specs.List.{list_all};
ghost use Rattle.trdp_base.specs.QuotaLimits.{quota_limit, quota_kinds};

use std::marker::Model;

/// The most objects of one kind in a slot (profile).
pub const QUOTA_LIMIT: u16 = 256;

/// How many objects of each kind a slot may hold (profile).
#[derive(Clone, Copy, Debug, PartialEq, Eq)]
pub struct Quotas {
    /// Objects, each 0 to [`QUOTA_LIMIT`]: publishers, subscriptions, requesters, listeners,
    /// callers and repliers, in this order.
    counts: [u16; 6],
}

impl Model for Quotas {
    ghost use Rattle.std.specs.Prelude.{◌≡◌, ℕ, List, length, true, nat_le};
    ghost use Rattle.std.specs.List.{list_all};
    ghost use Rattle.trdp_base.specs.QuotaLimits.{quota_limit};

    ghost Value = { List ℕ };

    ghost view = { λ q. q.counts };

    ghost invariant = { λ q. list_all (λ n. nat_le n quota_limit) q.counts ≡ true };

    ghost inverse = { λ counts. record { counts = counts } };
}

/// Whether each number is at most [`QUOTA_LIMIT`].
fn are_within(counts: &[u16]) -> bool
    ensures { result ≡ list_all (λ n. nat_le n quota_limit) counts.now }
{
    counts.iter().all(|n| *n <= QUOTA_LIMIT)
}

impl Quotas {
    /// The quotas of publishers, subscriptions, requesters, listeners, callers and repliers; None
    /// where one is above [`QUOTA_LIMIT`].
    pub fn new(counts: [u16; 6]) -> Option<Self>
        ensures value { result
            ≡ (if list_all (λ n. nat_le n quota_limit) counts then Some counts else None) }
        ensures kinds { IfSome result (λ quotas. length quotas ≡ quota_kinds) }
    {
        if are_within(&counts) {
            Some(Quotas { counts })
        } else {
            None
        }
    }

    /// The quota of a kind, 0 to [`QUOTA_LIMIT`]; the kind is its index in the order of
    /// [`Quotas::new`], 0 to 5.
    pub fn get(self, kind: usize) -> u16
        requires { kind < quota_kinds }
        ensures value { result ≡ slice_index self kind }
        ensures within { result ≤ quota_limit }
    {
        self.counts[kind]
    }
}
