//! When an object acts, and which of two acts first.

ghost use Rattle.std.specs.Prelude.{◌≡◌, ◌<◌, ◌+◌, ◌^◌};
ghost use Rattle.trdp_timers.specs.Orders.{is_sooner, goes_before, is_due_by};

/// When an object acts: the sooner by the due moment, then by the slot, then by the handle.
#[derive(Clone, Copy, Debug, PartialEq, Eq)]
pub struct Order {
    /// Its due moment, in microseconds since the node began.
    pub due: u64,
    /// The number of its slot.
    pub slot: u16,
    /// Its handle in the slot.
    pub handle: u32,
}

/// Whether the first of two orders is the sooner: by the due moment, the slot and the handle.
fn is_sooner(a: Order, b: Order) -> bool
    ensures { result ≡ is_sooner a b }
{
    if a.due != b.due {
        return a.due < b.due;
    }
    if a.slot != b.slot {
        return a.slot < b.slot;
    }
    a.handle < b.handle
}

/// Whether the first acts before the second, where one that isn't set acts last. Every comparison
/// of two orders, or of an order with a moment, is made and counted here.
#[tactic(auto, unfolding(crate::specs::Orders::goes_before))]
pub fn acts_before(first: Option<Order>, second: Option<Order>, probes: &mut u64) -> bool
    requires { probes.old + 1 < 2 ^ 64 }
    ensures answer { result ≡ goes_before first second }
    ensures counted { probes.new ≡ probes.old + 1 }
{
    *probes += 1;
    match (first, second) {
        (Some(a), Some(b)) => is_sooner(a, b),
        (Some(_), None) => true,
        (None, _) => false,
    }
}

/// Whether an order is set and due by the moment t: the last order of that moment doesn't act
/// before it.
#[tactic(auto, unfolding(crate::specs::Orders::goes_before))]
pub fn is_due(order: Option<Order>, t: u64, probes: &mut u64) -> bool
    requires { probes.old + 1 < 2 ^ 64 }
    ensures answer { result ≡ is_due_by t order }
    ensures counted { probes.new ≡ probes.old + 1 }
{
    let last = Order {
        due: t,
        slot: u16::MAX,
        handle: u32::MAX,
    };
    !acts_before(Some(last), order, probes)
}
