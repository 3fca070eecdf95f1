//! What an event costs a node.

ghost use Rattle.std.specs.Prelude.{◌≡◌, ◌≤◌, ◌<◌, ◌+◌, ◌-◌, ◌^◌};
ghost use Rattle.trdp_store.specs.Counting.{no_counts};

/// What the latest event that a node accepted cost it. A number that would be 2^64 - 1 or more is
/// 2^64 - 1. At a call nothing is counted.
#[derive(Clone, Copy)]
pub struct Counts {
    /// How often two rows of the index by comId were compared, or two orders of the timer heap, or
    /// an order with the moment.
    pub comparisons: u64,
    /// Filter tests: how often it was tested whether a telegram is for an object, and one more for
    /// each object that receives it, which tests that by itself.
    pub tests: u64,
    /// Look-ups in the index by session; an object that is added to it or removed counts as one.
    pub look_ups: u64,
}

impl Counts {
    /// Nothing is counted yet.
    pub fn none() -> Counts
        ensures { result ≡ no_counts }
    {
        Counts {
            comparisons: 0,
            tests: 0,
            look_ups: 0,
        }
    }

    /// Counts that many comparisons.
    pub fn compared(&mut self, times: u64)
        ensures comparisons { self.new.comparisons ≤ self.old.comparisons + times }
        ensures all { self.new.comparisons < 2 ^ 64 - 1
            → self.new.comparisons ≡ self.old.comparisons + times }
        ensures tests { self.new.tests ≡ self.old.tests }
        ensures look_ups { self.new.look_ups ≡ self.old.look_ups }
    {
        self.comparisons = self.comparisons.saturating_add(times);
    }

    /// Counts a filter test.
    pub fn tested(&mut self)
        ensures comparisons { self.new.comparisons ≡ self.old.comparisons }
        ensures tests { self.new.tests ≤ self.old.tests + 1 }
        ensures all { self.new.tests < 2 ^ 64 - 1 → self.new.tests ≡ self.old.tests + 1 }
        ensures look_ups { self.new.look_ups ≡ self.old.look_ups }
    {
        self.tests = self.tests.saturating_add(1);
    }

    /// Counts a look-up.
    pub fn looked_up(&mut self)
        ensures comparisons { self.new.comparisons ≡ self.old.comparisons }
        ensures tests { self.new.tests ≡ self.old.tests }
        ensures look_ups { self.new.look_ups ≤ self.old.look_ups + 1 }
        ensures all { self.new.look_ups < 2 ^ 64 - 1 → self.new.look_ups ≡ self.old.look_ups + 1 }
    {
        self.look_ups = self.look_ups.saturating_add(1);
    }
}
