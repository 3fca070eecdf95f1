//! What is true of all orders of keys, for callers that remove what is due one after another.

ghost use Rattle.std.specs.Prelude.{◌≡◌, ◌+◌, ℕ, true, false, List, Option, Some, None};
ghost use Rattle.std.specs.Prelude.{count_by, slice_index_or, slice_set};
ghost use Rattle.trdp_timers.specs.declared.order.Order.{Order};
ghost use Rattle.trdp_timers.specs.Orders.{is_due_by};
ghost use Rattle.trdp_timers.specs.Contents.{IsUnset, IsFirst};

/// Where no key has an order, or the first order isn't due by a moment, none is due by it.
pub fn first_is_due_first()
    ensures unset { (orders : List (Option Order)) (t : ℕ) → IsUnset orders
        → count_by (is_due_by t) orders ≡ 0 }
    ensures first { (orders : List (Option Order)) (key : ℕ) (order : Order) (t : ℕ)
        → IsFirst orders key order → is_due_by t (Some order) ≡ false
        → count_by (is_due_by t) orders ≡ 0 }
{}

/// Once a key's order that is due by a moment is removed, one fewer is due by it.
pub fn one_fewer_is_due()
    ensures { (orders : List (Option Order)) (key : ℕ) (order : Order) (t : ℕ)
        → slice_index_or orders key None ≡ Some order → is_due_by t (Some order) ≡ true
        → count_by (is_due_by t) (slice_set orders key None) + 1
        ≡ count_by (is_due_by t) orders }
{}
