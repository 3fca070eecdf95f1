//! How many objects of each kind a slot has.

ghost use Rattle.std.specs.Prelude.{◌≡◌, ◌+◌, ◌-◌, ◌<◌, slice_index, if◌then◌else◌};
ghost use Rattle.trdp_model.specs.Kinds.{kind_index, is_same_kind};
ghost use Rattle.trdp_model.specs.declared.kind.Kind.{Kind};

use trdp_model::Kind;

/// How many objects of each kind a slot has, kept so that a quota is tested without a scan.
#[derive(Clone, Copy)]
pub struct KindCounts {
    /// Objects of each kind, in the order of the quotas.
    numbers: [u16; 6],
}

impl KindCounts {
    /// No objects.
    pub fn new() -> KindCounts
        ensures { (kind : Kind) → slice_index result.numbers (kind_index kind) ≡ 0 }
    {
        KindCounts { numbers: [0; 6] }
    }

    /// How many objects of a kind there are.
    pub fn get(&self, kind: Kind) -> u16
        ensures { result ≡ slice_index self.now.numbers (kind_index kind) }
    {
        self.numbers[kind.index()]
    }

    /// One more object of a kind.
    pub fn add(&mut self, kind: Kind)
        requires { slice_index self.old.numbers (kind_index kind) < 65535 }
        ensures { (other : Kind) → slice_index self.new.numbers (kind_index other)
            ≡ slice_index self.old.numbers (kind_index other)
            + (if is_same_kind kind other then 1 else 0) }
    {
        self.numbers[kind.index()] += 1;
    }

    /// One object fewer of a kind.
    pub fn remove(&mut self, kind: Kind)
        requires { 0 < slice_index self.old.numbers (kind_index kind) }
        ensures { (other : Kind) → slice_index self.old.numbers (kind_index other)
            ≡ slice_index self.new.numbers (kind_index other)
            + (if is_same_kind kind other then 1 else 0) }
    {
        self.numbers[kind.index()] -= 1;
    }
}
