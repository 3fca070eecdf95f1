//! What all objects of a node see alike.

ghost use Rattle.std.specs.Prelude.{◌≡◌, ◌≢◌, ℕ, ◌<◌};
ghost use Rattle.trdp_filter.specs.Globals.{leads, no_groups, with_role};

use trdp_base::Topo;

/// The redundancy groups that a node leads, each 1 to 255 (profile).
#[derive(Clone, Copy)]
pub struct Groups {
    /// Whether the node leads a group, with the group as index; 0 is no group.
    led: [bool; 256],
}

/// What events set for the whole node, and what each object may look at (profile).
#[derive(Clone, Copy)]
pub struct Globals {
    /// The time of the latest moment event, in microseconds since the node began; 0 before the
    /// first.
    pub now: u64,
    /// The node's topology counters; each is 0, for any, until an event sets it.
    pub topo: Topo,
    /// The redundancy groups that the node leads; in all others, and at first in all, it follows.
    pub led: Groups,
}

impl Groups {
    /// No group is led.
    #[tactic(auto, unfolding(crate::specs::Globals::no_groups))]
    pub fn none() -> Groups
        ensures { result ≡ no_groups }
    {
        Groups { led: [false; 256] }
    }

    /// Whether the node leads the group, 1 to 255; 0 is no group.
    #[tactic(auto, unfolding(crate::specs::Globals::leads))]
    pub fn leads(&self, group: u8) -> bool
        ensures { result ≡ leads self.now group }
    {
        self.led[usize::from(group)]
    }

    /// Makes the node the leader of the group, 1 to 255, or a follower in it; its role in the
    /// other groups stays.
    #[tactic(auto, unfolding(crate::specs::Globals::leads, crate::specs::Globals::with_role))]
    pub fn set(&mut self, group: u8, leader: bool)
        requires { 0 < group }
        ensures groups { self.new ≡ with_role self.old group leader }
        ensures role { leads self.new group ≡ leader }
        ensures others { (other : ℕ) → other ≢ group
            → leads self.new other ≡ leads self.old other }
    {
        let index = usize::from(group);
        self.led[index] = leader;
    }
}
